//! What is reported of a pair while a call goes on, in one line each.
ghost use Rattle.tool_steps.specs.Images.{copies};
ghost use Rattle.tool_steps.specs.Notes.{TellsIf};
ghost use Rattle.tool_steps.specs.Overlap.{are_overlapping};

use crate::images::Images;
use output::Out;
use thiserror::Error;
use tool_images::{Fault, write_fault_of};

/// What is reported of a pair, with which the call goes on.
#[derive(Debug, Drop, Error)]
pub enum Note {
    /// One copy is lost, for this fault.
    #[error("{0}; the other copy counts")]
    CopyLost(Fault),
    /// The places of the two copies share a byte.
    #[error("the two copies overlap")]
    CopiesOverlap,
}

/// Reports that the places of the two copies share a byte, if they do.
pub fn tell_overlap<E: Out>(err: &mut E, program: &str, images: &Images)
    ensures { TellsIf program.now (are_overlapping (copies images.now)) (E.sink err.old)
        (E.sink err.new) }
{
    if images.overlap() {
        write_fault_of(err, program, &Note::CopiesOverlap);
    }
}
