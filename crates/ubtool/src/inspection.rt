//! `inspect`, from files to the report.
ghost use Rattle.std.specs.Prelude.{◌≡◌};
ghost use Rattle.inspecting.specs.CopiesShown.{copies_shown, held_shown};
ghost use Rattle.tool_files.specs.Told.{IfTold};
ghost use Rattle.tool_steps.specs.Faults.{CountsTold};
ghost use Rattle.tool_steps.specs.Images.{copies, copy_of};
ghost use Rattle.tool_words.specs.CommandAnswers.{origin_shown};
ghost use Rattle.ubtool.specs.InspectingFiles.{InspectsFrom, LeavesReport, held, inspected};

use envimage::ByteOrder;
use inspecting::{Copies, Held};
use output::Out;
use std::alloc::Global;
use tool_files::Files;
use tool_images::Fault;
use tool_steps::{Images, StoredCopy, read_origin};
use tool_words::Origin;

/// A copy that was read, as it is inspected.
fn held(copy: &StoredCopy) -> Held<'_>
    ensures { held_shown result ≡ held (copy_of copy.now) }
{
    Held {
        path: &copy.place.device,
        offset: copy.place.offset,
        bytes: &copy.bytes,
    }
}

/// The images that were read, as they are inspected.
fn copies_of(images: &Images) -> Copies<'_>
    ensures { copies_shown result ≡ inspected (copies images.now) }
{
    match &images.second {
        Some(second) => Copies::Pair(held(&images.first), held(second)),
        None => Copies::Single(held(&images.first)),
    }
}

/// Tells what the images are that this names. Reads them, and then writes the report. Returns whether their
/// environment can be read.
pub fn inspect<F: Files, O: Out>(
    alloc: Global,
    files: &mut F,
    origin: Origin,
    order: ByteOrder,
    out: &mut O,
) -> Result<bool, Fault>
    ensures count { CountsTold (F.faults files.old) (F.faults files.new) result }
    ensures lock { F.locked files.new ≡ F.locked files.old }
    ensures told { IfTold (F.told files.old) (F.told files.new) (λ old new.
        InspectsFrom order (origin_shown origin) (O.sink out.old) (O.sink out.new) old new result) }
    ensures output { LeavesReport result (O.sink out.old) (O.sink out.new) }
{
    let images = read_origin(alloc, files, origin)?;
    Ok(inspecting::inspect(alloc, out, copies_of(&images), order)?)
}
