//! Files below a folder, which no link leads out of.

use std::{fs, rt};

/// Whether a part of a path stays where it is: it is neither empty nor `.` nor `..`.
fn leads_down(part: &str) -> bool {
    !part.is_empty() && part != "." && part != ".."
}

/// Whether there is something at the path, which is no link.
fn is_no_link<R: rt::Files>(rt: &R, path: &str) -> bool {
    match fs::symlink_metadata(rt, path) {
        Ok(known) => !known.is_symlink(),
        Err(_) => false,
    }
}

/// Whether there is a plain file at the path.
fn is_plain<R: rt::Files>(rt: &R, path: &str) -> bool {
    match fs::symlink_metadata(rt, path) {
        Ok(known) => known.is_file(),
        Err(_) => false,
    }
}

/// Whether there is a plain file at the path, and each part of it after the first `folder` bytes leads down, and none of
/// them is a link. A slash is after these bytes.
pub fn is_plain_below<R: rt::Files>(rt: &R, path: &str, folder: usize) -> bool {
    if folder >= path.len() {
        return false;
    }
    let Some(inside) = path.get(folder + 1..) else {
        return false;
    };
    let mut end = folder;
    for part in inside.split('/') {
        end = end.saturating_add(part.len()).saturating_add(1);
        match path.get(..end) {
            Some(front) if leads_down(part) && is_no_link(rt, front) => {}
            _ => return false,
        }
    }
    is_plain(rt, path)
}
