//! How many bytes there are for the variables that a board saves.
ghost use Rattle.std.specs.Prelude.{◌≡◌};
ghost use Rattle.std.specs.Option.{option_copied};
ghost use Rattle.tool_words.specs.CommandAnswers.{origin_shown};
ghost use Rattle.ubtool.specs.Room.{are_images, data_length, room_if};

use tool_words::Origin;

/// Whether images are named.
pub(crate) fn are_images(origin: &Origin) -> bool
    ensures { result ≡ are_images (origin_shown origin.now) }
{
    match origin {
        Origin::Config(_) | Origin::Files { .. } => true,
        Origin::Text { .. } | Origin::Empty { .. } => false,
    }
}

/// How many bytes of an image, or of each copy of a pair, are data.
fn data_length(first: &[u8], second: Option<&[u8]>) -> usize
    ensures { result ≡ data_length first.now (option_copied second.entry) }
{
    match second {
        None => first.len().saturating_sub(4),
        Some(_) => first.len().saturating_sub(5),
    }
}

/// How many bytes there are in these copies, if they are images, for variables and the byte that ends them.
pub(crate) fn room_if(images: bool, first: &[u8], second: Option<&[u8]>) -> Option<usize>
    ensures { result ≡ room_if images first.now (option_copied second.entry) }
{
    if images {
        Some(data_length(first, second))
    } else {
        None
    }
}
