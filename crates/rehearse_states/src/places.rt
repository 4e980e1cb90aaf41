//! Where a run is: the frames that are left.
ghost use Rattle.std.specs.Prelude.{◌≡◌, IfOk, IsTrue};

use bootstore_state::{Frame, StoreError};
use std::alloc::Global;

/// A copy of frames. Errors: `Memory`.
pub fn copy_frames(alloc: Global, frames: &[Frame]) -> Result<Vec<Frame>, StoreError>
    ensures { IfOk result (λ copies. copies.items ≡ frames.now) }
{
    let mut copies = Vec::new(alloc);
    for frame in frames {
        copies.push(frame.copy()?)?;
    }
    Ok(copies)
}

/// Whether both frames are the same: what they run says the same, and both are at the same place.
fn same_frame(a: &Frame, b: &Frame) -> bool
    ensures same { IsTrue result → a.now ≡ b.now }
    ensures told { a.now ≡ b.now → IsTrue result }
{
    a.at() == b.at() && a.kind() == b.kind() && a.words() == b.words() && a.script() == b.script()
}

/// Whether both lists of frames are the same.
pub fn same_frames(a: &[Frame], b: &[Frame]) -> bool
    ensures same { IsTrue result → a.now ≡ b.now }
    ensures told { a.now ≡ b.now → IsTrue result }
{
    let mut others = b;
    for frame in a {
        let Some((other, more)) = others.split_first() else {
            return false;
        };
        if !same_frame(frame, other) {
            return false;
        }
        others = more;
    }
    others.is_empty()
}
