//! The image that replaces a loaded one.
ghost use Rattle.std.specs.Prelude.{◌≡◌, ◌↔◌, ◌<◌, true, map, IfOk, IfErr, Err};
ghost use Rattle.std.specs.List.{AllByRecursion};
ghost use Rattle.envimage.specs.Data.{IsVariable};
ghost use Rattle.envimage.specs.Entries.{pair_at};
ghost use Rattle.envimage.specs.Encoding.{header_len, is_image_size, needed, ReadsBack};
ghost use Rattle.envimage.specs.Image.{loaded_shown};
ghost use Rattle.envtools.specs.Saving.{size_of, next_flag, copy_to_write, saved_image, IsSaveRefusal};

use crate::env::Env;
use crate::list::VariableList;
use envimage::{ImageError, Loaded, Which, encode};
use std::alloc::Global;

/// The number of bytes before the data.
fn header_len(flag: Option<u8>) -> usize
    ensures { result ≡ header_len flag }
{
    match flag {
        None => 4,
        Some(_) => 5,
    }
}

/// The current flag plus one, modulo 256.
fn next_flag(flag: Option<u8>) -> Option<u8>
    ensures { result ≡ next_flag flag }
{
    match flag {
        None => None,
        Some(flag) => Some(flag.wrapping_add(1)),
    }
}

/// The copy of a pair that is not current, or the single image itself.
fn copy_to_write(loaded: &Loaded<'_>) -> Which
    ensures { result ≡ copy_to_write (loaded_shown loaded.now) }
{
    match (loaded.flag, loaded.which) {
        (None, _) => Which::First,
        (Some(_), Which::First) => Which::Second,
        (Some(_), Which::Second) => Which::First,
    }
}

/// Which copy to write for this environment, and its bytes: of a redundant pair the copy that is
/// not current, with the current flag plus one, modulo 256. The size and the byte order are those
/// of the loaded image.
///
/// Refusals in order: `TooLarge`, `Memory`.
pub fn save(alloc: Global, env: &Env, loaded: &Loaded<'_>) -> Result<(Which, Vec<u8>), ImageError>
    requires { is_image_size loaded.now.flag (size_of (loaded_shown loaded.now)) ≡ true }
    ensures too_large { (result ≡ Err ImageError.TooLarge)
        ↔ (size_of (loaded_shown loaded.now) < needed (next_flag loaded.now.flag) env.now) }
    ensures other { IfErr result IsSaveRefusal }
    ensures which { IfOk result (λ w. w.0 ≡ copy_to_write (loaded_shown loaded.now)) }
    ensures bytes { IfOk result (λ w. w.1.items ≡ saved_image env.now (loaded_shown loaded.now)) }
    ensures back { IfOk result
        (λ w. ReadsBack loaded.now.order (next_flag loaded.now.flag) w.1.items env.now) }
{
    if env.entries_len() >= loaded.body.len() {
        return Err(ImageError::TooLarge);
    }
    let pairs = env.pairs()?;
    save_pairs(alloc, &pairs, loaded)
}

/// The same for a list of variables.
pub fn save_list(
    alloc: Global,
    list: &VariableList<'_>,
    loaded: &Loaded<'_>,
) -> Result<(Which, Vec<u8>), ImageError>
    requires { is_image_size loaded.now.flag (size_of (loaded_shown loaded.now)) ≡ true }
    ensures too_large { (result ≡ Err ImageError.TooLarge)
        ↔ (size_of (loaded_shown loaded.now) < needed (next_flag loaded.now.flag) list.now) }
    ensures other { IfErr result IsSaveRefusal }
    ensures which { IfOk result (λ w. w.0 ≡ copy_to_write (loaded_shown loaded.now)) }
    ensures bytes { IfOk result (λ w. w.1.items ≡ saved_image list.now (loaded_shown loaded.now)) }
    ensures back { IfOk result
        (λ w. ReadsBack loaded.now.order (next_flag loaded.now.flag) w.1.items list.now) }
{
    save_pairs(alloc, list.as_slice(), loaded)
}

/// The same for variables, each a name and a value.
fn save_pairs(
    alloc: Global,
    pairs: &[(&[u8], &[u8])],
    loaded: &Loaded<'_>,
) -> Result<(Which, Vec<u8>), ImageError>
    requires size { is_image_size loaded.now.flag (size_of (loaded_shown loaded.now)) ≡ true }
    requires valid { AllByRecursion IsVariable (map pair_at pairs.now) }
    ensures too_large { (result ≡ Err ImageError.TooLarge)
        ↔ (size_of (loaded_shown loaded.now) < needed (next_flag loaded.now.flag)
        (map pair_at pairs.now)) }
    ensures other { IfErr result IsSaveRefusal }
    ensures which { IfOk result (λ w. w.0 ≡ copy_to_write (loaded_shown loaded.now)) }
    ensures bytes { IfOk result
        (λ w. w.1.items ≡ saved_image (map pair_at pairs.now) (loaded_shown loaded.now)) }
    ensures back { IfOk result
        (λ w. ReadsBack loaded.now.order (next_flag loaded.now.flag) w.1.items
        (map pair_at pairs.now)) }
{
    let size = header_len(loaded.flag) + loaded.body.len();
    let image = encode(alloc, pairs, size, next_flag(loaded.flag), loaded.order)?;
    Ok((copy_to_write(loaded), image))
}
