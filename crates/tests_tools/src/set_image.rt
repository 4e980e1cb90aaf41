//! Changes one variable of an image in a file, or of a pair in two files, as `set_bytes` does, for the comparisons with
//! other tools.
//!
//! Its words are `little|big FIRST SECOND NAME WORD..`. SECOND is `-` for a single image.

use envimage::{ByteOrder, SIZE_MAX, Which};
use std::alloc::AllocError;
use std::fs;
use tool_files::read_up_to;
use tool_images::{Edit, set_bytes};

fn read(rt: &HostRuntime, path: &str) -> Option<Vec<u8>> {
    let mut file = fs::open(rt, path).ok()?;
    read_up_to(rt.alloc(), &mut file, SIZE_MAX).ok()
}

fn bytes_of<'a>(rt: &HostRuntime, words: &'a [String]) -> Result<Vec<&'a [u8]>, AllocError> {
    let mut list = Vec::new(rt.alloc());
    for word in words {
        list.push(word.as_bytes())?;
    }
    Ok(list)
}

/// Changes the image at the paths, and says whether it was done.
fn set(
    rt: &HostRuntime,
    order: ByteOrder,
    paths: (&str, &str),
    name: &str,
    words: &[String],
) -> Option<()> {
    let first = read(rt, paths.0)?;
    let second = if paths.1 == "-" {
        None
    } else {
        Some(read(rt, paths.1)?)
    };
    let words = bytes_of(rt, words).ok()?;
    let edit = Edit::One {
        name: name.as_bytes(),
        words: &words,
    };
    let second = second.as_ref().map(|bytes| bytes.as_slice());
    let (which, image) = set_bytes(rt.alloc(), &first, second, order, edit).ok()?;
    let path = match which {
        Which::First => paths.0,
        Which::Second => paths.1,
    };
    fs::write(rt, path, image.as_slice()).ok()
}

/// Changes an image as the words say.
pub fn change_image(rt: &HostRuntime, words: &[String]) -> Option<()> {
    let [order, first, second, name, values @ ..] = words else {
        return None;
    };
    let order = if order.as_str() == "big" {
        ByteOrder::Big
    } else {
        ByteOrder::Little
    };
    set(
        rt,
        order,
        (first.as_str(), second.as_str()),
        name.as_str(),
        values,
    )
}
