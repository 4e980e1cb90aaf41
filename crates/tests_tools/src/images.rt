//! Images: their data, copies, configurations, and changes.

use crate::calls;
use crate::case::Case;
use envimage::load;
use std::alloc::Global;
use std::fmt::Write;
use tests_rows::{first_word, number, shown, slices, unescaped, unescaped_text, words_of};
use tool_images::Edit;

/// The places of a configuration, a line each.
fn places(alloc: Global, says: &str) -> anyhow::Result<String> {
    let places = calls::places_of(alloc, &unescaped(alloc, says)?)?;
    let mut lines = String::new(alloc);
    for place in &places {
        let (device, offset, size) = (place.device.as_str(), place.offset, place.size);
        writeln!(lines, "{device}, offset {offset}, size {size}")?;
    }
    Ok(lines)
}

/// The checksum of bytes, the fault of data, or the places of a configuration.
fn read(case: &Case<'_>, word: &str, says: &str) -> anyhow::Result<String> {
    let alloc = case.alloc;
    match word {
        "config" => places(alloc, says),
        "crc" => {
            let crc = calls::crc(&unescaped(alloc, says)?);
            Ok(format!(in alloc; "{crc:08x}")?)
        }
        _ => {
            let fault = calls::fault_of_data(&unescaped(alloc, says)?);
            Ok(format!(in alloc; "{fault:?}")?)
        }
    }
}

/// Which copy is current.
fn loaded(case: &Case<'_>) -> anyhow::Result<String> {
    let second = case.second.as_ref().map(|bytes| bytes.as_slice());
    let which = load(&case.first, second, case.order)?.which;
    Ok(format!(in case.alloc; "{which:?}")?)
}

/// Why each front of the image is refused.
fn fronts(case: &Case<'_>) -> anyhow::Result<String> {
    let mut lines = String::new(case.alloc);
    for end in 0..case.first.len() {
        let fault = load(&case.first[..end], None, case.order).err();
        writeln!(lines, "{end}: {fault:?}")?;
    }
    Ok(lines)
}

/// Makes the image of the environment, of a size and with a flag if one is said, and puts it after the image.
fn encoded(case: &mut Case<'_>, says: &str) -> anyhow::Result<String> {
    let (size, flag) = first_word(says);
    let flag = match flag {
        "" => None,
        flag => Some(u8::try_from(number(flag)?)?),
    };
    let image = calls::image_of(
        case.alloc,
        &case.env,
        number(size)? as usize,
        flag,
        case.order,
    )?;
    case.first.extend_from_slice(&image)?;
    Ok(shown(case.alloc, &image)?)
}

/// Adds the image as a file.
fn into_file(case: &mut Case<'_>, says: &str) -> anyhow::Result<String> {
    let bytes = case.first.clone()?;
    case.given.push((unescaped_text(case.alloc, says)?, bytes))?;
    Ok(String::new(case.alloc))
}

/// The copy that is written by an edit.
fn written(case: &Case<'_>, edit: Edit<'_>) -> anyhow::Result<String> {
    let second = case.second.as_ref().map(|bytes| bytes.as_slice());
    let (which, image) = calls::changed(case.alloc, &case.first, second, case.order, edit)?;
    let image = shown(case.alloc, &image)?;
    Ok(format!(in case.alloc; "{which:?}: {image}")?)
}

/// The copy that is written where a variable becomes some words, or by a script.
fn changed(case: &Case<'_>, word: &str, says: &str) -> anyhow::Result<String> {
    if word == "script" {
        let script = unescaped(case.alloc, says)?;
        return written(case, Edit::Script(&script));
    }
    let (name, words) = first_word(says);
    let (name, words) = (unescaped(case.alloc, name)?, words_of(case.alloc, words)?);
    let words = slices(case.alloc, &words)?;
    let edit = Edit::One {
        name: &name,
        words: &words,
    };
    written(case, edit)
}

/// Makes an image, and prints it or adds it as a file.
fn made(case: &mut Case<'_>, word: &str, says: &str) -> anyhow::Result<String> {
    match word {
        "encode" => encoded(case, says),
        _ => into_file(case, says),
    }
}

/// The answer to a row of images.
pub(crate) fn told(case: &mut Case<'_>, word: &str, says: &str) -> anyhow::Result<String> {
    match word {
        "load" => loaded(case),
        "fronts" => fronts(case),
        "encode" | "copy-of-file" => made(case, word, says),
        "change" | "script" => changed(case, word, says),
        _ => read(case, word, says),
    }
}
