//! Reads what names the images of a call, and the other files of a rehearsal.
ghost use Rattle.std.specs.Prelude.{◌≡◌, option_map, string_bytes};
ghost use Rattle.clap.specs.Words.{found_of, rows_of};
ghost use Rattle.tool_words.specs.Asked.{images_asked, inputs_asked, named_beside, named_by, named_in, origin_asked, origin_beside};
ghost use Rattle.tool_words.specs.CommandAnswers.{SaysInputs, SaysOrigin};

use crate::ask::{DEFAULT_CONFIG, Inputs, Origin, OriginError, Taking, UseError};
use crate::read::{is_set, order_of, text_of};
use clap::ArgMatches;
use envimage::ByteOrder;
use std::alloc::Global;

/// What names the images, from the configuration, the image and the second copy that are given, and whether
/// one copy of a pair is enough.
fn named_by(
    alloc: Global,
    config: Option<String>,
    image: Option<String>,
    second: Option<String>,
    one_copy: bool,
) -> Result<Origin, UseError>
    ensures { SaysOrigin (named_by (option_map string_bytes config) (option_map string_bytes image)
        (option_map string_bytes second) one_copy) result }
{
    match (config, image, second) {
        (None, None, None) => Ok(Origin::Config(String::from_str(alloc, DEFAULT_CONFIG)?)),
        (Some(config), None, None) => Ok(Origin::Config(config)),
        (_, None, Some(_)) => Err(UseError::Misnamed(OriginError::SecondNeedsImage)),
        (Some(_), Some(_), _) => Err(UseError::Misnamed(OriginError::ImageAndConfig)),
        (None, Some(_), Some(_)) if one_copy => {
            Err(UseError::Misnamed(OriginError::SecondAndOneCopy))
        }
        (None, Some(first), second) => Ok(Origin::Files { first, second }),
    }
}

/// The same, where a text may be given in place of them, with the byte order of the image that is made of it.
fn named_in(
    alloc: Global,
    text: Option<String>,
    config: Option<String>,
    image: Option<String>,
    second: Option<String>,
    order: ByteOrder,
    one_copy: bool,
) -> Result<Origin, UseError>
    ensures { SaysOrigin (named_in (option_map string_bytes text) (option_map string_bytes config)
        (option_map string_bytes image) (option_map string_bytes second) order one_copy) result }
{
    match (text, config, image, second) {
        (None, config, image, second) => named_by(alloc, config, image, second, one_copy),
        (Some(path), None, None, None) => Ok(Origin::Text { path, order }),
        (Some(_), _, _, _) => Err(UseError::Misnamed(OriginError::TextAlone)),
    }
}

/// The same beside a script that runs in place of a variable, if `script` says that there is one: then none of them
/// need be given.
fn named_beside(
    alloc: Global,
    script: bool,
    text: Option<String>,
    config: Option<String>,
    image: Option<String>,
    second: Option<String>,
    order: ByteOrder,
    one_copy: bool,
) -> Result<Origin, UseError>
    ensures { SaysOrigin (named_beside script (option_map string_bytes text)
        (option_map string_bytes config) (option_map string_bytes image)
        (option_map string_bytes second) order one_copy) result }
{
    match (script, text, config, image, second) {
        (true, None, None, None, None) => Ok(Origin::Empty { order }),
        (_, text, config, image, second) => {
            named_in(alloc, text, config, image, second, order, one_copy)
        }
    }
}

/// What names the images, and no text: the configuration, the usual one if none is given, or one file or two.
/// Errors: `ImageAndConfig`, `SecondNeedsImage` and `SecondAndOneCopy`, each a `Misnamed`; `Memory`.
pub fn images_of(alloc: Global, matches: &ArgMatches<'_>) -> Result<Origin, UseError>
    ensures { SaysOrigin (images_asked (rows_of (found_of matches.now))) result }
{
    let config = text_of(alloc, matches, "config")?;
    let image = text_of(alloc, matches, "image")?;
    let second = text_of(alloc, matches, "second")?;
    named_by(alloc, config, image, second, is_set(matches, "one-copy"))
}

/// What names the images: a text, or what `images_of` finds. Errors: those of `images_of`, and `TextAlone`, a
/// `Misnamed`.
pub fn origin_of(alloc: Global, matches: &ArgMatches<'_>) -> Result<Origin, UseError>
    ensures { SaysOrigin (origin_asked (rows_of (found_of matches.now))) result }
{
    let text = text_of(alloc, matches, "text")?;
    let config = text_of(alloc, matches, "config")?;
    let image = text_of(alloc, matches, "image")?;
    let second = text_of(alloc, matches, "second")?;
    let one_copy = is_set(matches, "one-copy");
    named_in(
        alloc,
        text,
        config,
        image,
        second,
        order_of(matches),
        one_copy,
    )
}

/// The same of a call that may name a script which runs in place of a variable. If it does and names no images, the
/// environment is empty.
pub fn origin_beside(alloc: Global, matches: &ArgMatches<'_>) -> Result<Origin, UseError>
    ensures { SaysOrigin (origin_beside (rows_of (found_of matches.now))) result }
{
    let text = text_of(alloc, matches, "text")?;
    let config = text_of(alloc, matches, "config")?;
    let image = text_of(alloc, matches, "image")?;
    let second = text_of(alloc, matches, "second")?;
    let script = text_of(alloc, matches, "script")?;
    let one_copy = is_set(matches, "one-copy");
    named_beside(
        alloc,
        script.is_some(),
        text,
        config,
        image,
        second,
        order_of(matches),
        one_copy,
    )
}

/// What a rehearsal reads, with this device list, which is taken so. Errors: `ScriptAndVariable`, and those of `origin_beside`, each a
/// `Misnamed`; `Memory`.
pub(crate) fn inputs_of(
    alloc: Global,
    matches: &ArgMatches<'_>,
    device_list: String,
    taking: Taking,
) -> Result<Inputs, UseError>
    ensures { SaysInputs (inputs_asked (string_bytes device_list) taking (rows_of (found_of matches.now)))
        result }
{
    let script = text_of(alloc, matches, "script")?;
    let variable = text_of(alloc, matches, "variable")?;
    if script.is_some() && variable.is_some() {
        return Err(UseError::Misnamed(OriginError::ScriptAndVariable));
    }
    Ok(Inputs {
        origin: origin_beside(alloc, matches)?,
        device_list,
        taking,
        script,
        files: text_of(alloc, matches, "files")?,
    })
}
