//! A copy of a present state.
ghost use Rattle.std.specs.Prelude.{◌≡◌, IfOk};
ghost use Rattle.bootstore_state.specs.Present.{moment_of};
ghost use Rattle.text.specs.TextsShown.{option_items};

use crate::frame::Frame;
use crate::present::Present;
use std::alloc::{AllocError, Global};

/// A copy of frames, which share their scripts with these. Errors: memory ran out.
fn copy_frames(alloc: Global, frames: &[Frame]) -> Result<Vec<Frame>, AllocError>
    ensures { IfOk result (λ copies. copies.items ≡ frames.now) }
{
    let mut copies = Vec::new(alloc);
    for frame in frames {
        copies.push(frame.copy()?)?;
    }
    Ok(copies)
}

/// A copy of a text, if it is kept. Errors: memory ran out.
fn copy_text(text: &Option<Vec<u8>>) -> Result<Option<Vec<u8>>, AllocError>
    ensures { IfOk result (λ copy. option_items copy ≡ option_items text.now) }
{
    match text {
        Some(kept) => Ok(Some(kept.clone()?)),
        None => Ok(None),
    }
}

/// A copy of a state. Its frames share their scripts with these. Errors: memory ran out.
pub fn copy_of(present: &Present, alloc: Global) -> Result<Present, AllocError>
    ensures { IfOk result (λ copy. moment_of copy ≡ moment_of present.now) }
{
    let log = present.log.copy(alloc)?;
    let frames = copy_frames(alloc, &present.frames)?;
    Ok(Present {
        environment: present.environment.copy()?,
        locals: present.locals.copy()?,
        status: present.status,
        text: copy_text(&present.text)?,
        log,
        steps: present.steps,
        frames,
    })
}
