//! The script of a file.
ghost use Rattle.std.specs.Prelude.{◌≡◌, ◌+◌, ◌≤◌, length, IfSome};
ghost use Rattle.std.specs.List.{before_first};
ghost use Rattle.std.specs.Option.{option_copied};
ghost use Rattle.envimage.specs.Image.{Gives};
ghost use Rattle.script_file.specs.ScriptFiles.{word_at, header_is_right, behind_sizes, first_text, text_behind, image_text, text_in, script_in};
ghost use Rattle.text.specs.Words.{is_nul};

use envimage::crc32;
use text::find;
use thiserror::Error;

/// What an image starts with.
const MAGIC: [u8; 4] = [0x27, 0x05, 0x19, 0x56];

/// How many bytes the header of an image has.
const HEADER_LEN: usize = 64;

/// The type of a script, in the header of its image.
const SCRIPT_TYPE: u8 = 6;

/// Why a file has no script.
#[derive(Clone, Copy, Debug, Drop, PartialEq, Eq, Error)]
pub enum ScriptFault {
    /// The file ends before the image's header or data.
    #[error("the script image is cut off")]
    CutOff,
    /// The checksum of the image's header is wrong.
    #[error("the header's checksum is wrong")]
    HeaderChecksum,
    /// The checksum of the image's data is wrong.
    #[error("the data's checksum is wrong")]
    DataChecksum,
    /// The type of the image is another.
    #[error("the image is no script")]
    NotScript,
    /// No zero ends the sizes of the image's texts.
    #[error("the list of its texts does not end")]
    Unended,
    /// The image has no text, or its first text is empty.
    #[error("it has no script")]
    Empty,
    /// The first text is longer than what is left of the image's data.
    #[error("its script does not fit the image")]
    Outside,
}

/// The number that four bytes at a place spell, the highest byte first.
fn word_at(bytes: &[u8], place: usize) -> u32
    requires { place + 4 ≤ length bytes.now }
    ensures { result ≡ word_at place bytes.now }
{
    let (four, _) = bytes[place..].split_at(4);
    u32::from_be_bytes([four[0], four[1], four[2], four[3]])
}

/// Whether the checksum of a header is right. It is made with zeros in its own place.
#[tactic(auto, using(crate::proofs::ScriptLemmas::blanks))]
fn header_is_right(header: &[u8; 64]) -> bool
    ensures { result ≡ header_is_right header.now }
{
    let mut blanked = *header;
    blanked[4] = 0;
    blanked[5] = 0;
    blanked[6] = 0;
    blanked[7] = 0;
    crc32(&blanked) == word_at(header, 4)
}

/// What is after the list of sizes, if it ends.
fn behind_sizes(body: &[u8]) -> Option<&[u8]>
    ensures behind { option_copied result ≡ behind_sizes body.now }
    ensures listed { IfSome result (λ _. 4 ≤ length body.now) }
{
    let mut rest = body;
    while let [a, b, c, d, after @ ..] = rest {
        rest = after;
        if u32::from_be_bytes([*a, *b, *c, *d]) == 0 {
            return Some(rest);
        }
    }
    None
}

/// The first text of an image's data. Errors in order: `Unended`, `Empty`, `Outside`.
fn first_text(body: &[u8]) -> Result<&[u8], ScriptFault>
    ensures { Gives (λ text. text.now) result (first_text body.now) }
{
    let Some(texts) = behind_sizes(body) else {
        return Err(ScriptFault::Unended);
    };
    let size = word_at(body, 0) as usize;
    if size == 0 {
        return Err(ScriptFault::Empty);
    }
    if texts.len() < size {
        return Err(ScriptFault::Outside);
    }
    Ok(&texts[..size])
}

/// The first text of an image with this header and this after it.
fn text_behind<'a>(header: &[u8; 64], rest: &'a [u8]) -> Result<&'a [u8], ScriptFault>
    ensures { Gives (λ text. text.now) result (text_behind header.now rest.now) }
{
    if !header_is_right(header) {
        return Err(ScriptFault::HeaderChecksum);
    }
    let size = word_at(header, 12) as usize;
    if rest.len() < size {
        return Err(ScriptFault::CutOff);
    }
    let data = &rest[..size];
    if crc32(data) != word_at(header, 24) {
        return Err(ScriptFault::DataChecksum);
    }
    if header[30] != SCRIPT_TYPE {
        return Err(ScriptFault::NotScript);
    }
    first_text(data)
}

/// The first text of an image.
fn image_text(image: &[u8]) -> Result<&[u8], ScriptFault>
    ensures { Gives (λ text. text.now) result (image_text image.now) }
{
    match image.split_first_chunk::<HEADER_LEN>() {
        Some((header, rest)) => text_behind(header, rest),
        None => Err(ScriptFault::CutOff),
    }
}

/// The text of a file, with what is after its first NUL.
fn text_in(bytes: &[u8]) -> Result<&[u8], ScriptFault>
    ensures { Gives (λ text. text.now) result (text_in bytes.now) }
{
    if bytes.starts_with(&MAGIC) {
        image_text(bytes)
    } else {
        Ok(bytes)
    }
}

/// A text up to its first NUL.
fn before_nul(text: &[u8]) -> &[u8]
    ensures { result.now ≡ before_first is_nul text.now }
{
    match find(text, 0) {
        Some(at) => &text[..at],
        None => text,
    }
}

/// The script of a file. A file that starts with the bytes 27 05 19 56 is an image for U-Boot's
/// `source`, and its first text is the script. Any other file is the script itself. In both cases
/// it ends before its first NUL, as U-Boot's parser reads it.
///
/// Refusals in order, as `source` looks: `CutOff` of the header, `HeaderChecksum`, `CutOff` of the
/// data, `DataChecksum`, `NotScript`, `Unended`, `Empty`, `Outside`. Takes no memory.
pub fn script_in(bytes: &[u8]) -> Result<&[u8], ScriptFault>
    ensures { Gives (λ text. text.now) result (script_in bytes.now) }
{
    let text = text_in(bytes)?;
    Ok(before_nul(text))
}
