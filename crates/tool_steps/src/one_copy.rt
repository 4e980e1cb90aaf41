//! The images of a source, where one copy of a pair may be enough.
ghost use Rattle.std.specs.Prelude.{◌≡◌, IfErr, string_bytes, true};
ghost use Rattle.envimage.specs.Place.{place_shown};
ghost use Rattle.tool_files.specs.Told.{IfTold};
ghost use Rattle.tool_steps.specs.Faults.{CountsReads, CountsTold, IsReadFault};
ghost use Rattle.tool_steps.specs.Notes.{MayTell};
ghost use Rattle.tool_steps.specs.OneCopy.{FindsEither, FindsImages, FindsPair, Joins};
ghost use Rattle.tool_steps.specs.declared.read.SoughtCopy.TheVariants as sought;

use crate::images::{Images, read_places};
use crate::note::Note;
use crate::origin::read_origin;
use crate::read::{SoughtCopy, StoredCopy, read_copy, seek_copy};
use envimage::{ByteOrder, Place};
use output::Out;
use std::alloc::Global;
use tool_files::Files;
use tool_images::{Fault, write_fault_of};
use tool_words::Origin;

/// Which images are meant, and how they are read.
#[derive(Debug, Drop)]
pub struct ImageSource {
    /// What names them.
    pub origin: Origin,
    /// How their CRC is stored.
    pub order: ByteOrder,
    /// Whether one copy of a pair is enough, if the other cannot be read.
    pub one_copy: bool,
}

/// The images of a pair of which one copy is lost, with the bytes of the other one in its place. This
/// is reported. Errors: `Memory`, with nothing reported.
fn stand_in<E: Out>(
    program: &str,
    copy: StoredCopy,
    place: Place,
    fault: Fault,
    err: &mut E,
) -> Result<Images, Fault>
    ensures images { Joins program.now (sought.Read copy) (sought.Lost place fault)
        (E.sink err.old) (E.sink err.new) result }
    ensures quiet { IfErr result (λ _. E.sink err.new ≡ E.sink err.old) }
{
    let Ok(bytes) = copy.bytes.clone() else {
        return Err(Fault::Memory);
    };
    write_fault_of(err, program, &Note::CopyLost(fault));
    Ok(Images {
        first: copy,
        second: Some(StoredCopy { place, bytes }),
    })
}

/// The images of a pair whose copies were sought. Errors: the fault of the first copy, if both are
/// lost; `Memory`. Then nothing is reported.
fn join<E: Out>(
    program: &str,
    first: SoughtCopy,
    second: SoughtCopy,
    err: &mut E,
) -> Result<Images, Fault>
    ensures images { Joins program.now first second (E.sink err.old) (E.sink err.new) result }
    ensures quiet { IfErr result (λ _. E.sink err.new ≡ E.sink err.old) }
{
    match (first, second) {
        (SoughtCopy::Read(first), SoughtCopy::Read(second)) => Ok(Images {
            first,
            second: Some(second),
        }),
        (SoughtCopy::Read(copy), SoughtCopy::Lost(place, fault)) => {
            stand_in(program, copy, place, fault, err)
        }
        (SoughtCopy::Lost(place, fault), SoughtCopy::Read(copy)) => {
            stand_in(program, copy, place, fault, err)
        }
        (SoughtCopy::Lost(_, fault), SoughtCopy::Lost(_, _)) => Err(fault),
    }
}

/// Reads the two copies of a pair, of which one is enough.
fn read_either<F: Files, E: Out>(
    alloc: Global,
    files: &mut F,
    program: &str,
    first: Place,
    second: Place,
    err: &mut E,
) -> Result<Images, Fault>
    ensures count { CountsReads true (F.faults files.old) (F.faults files.new) result }
    ensures lock { F.locked files.new ≡ F.locked files.old }
    ensures fault { IfErr result IsReadFault }
    ensures notes { MayTell program.now true (E.sink err.old) (E.sink err.new) }
    ensures quiet { IfErr result (λ _. E.sink err.new ≡ E.sink err.old) }
    ensures told { IfTold (F.told files.old) (F.told files.new) (λ old new.
        FindsPair program.now (place_shown first) (place_shown second) (E.sink err.old)
        (E.sink err.new) old new result) }
{
    let first = seek_copy(alloc, files, first)?;
    let second = seek_copy(alloc, files, second)?;
    join(program, first, second, err)
}

/// Reads the images that a configuration names, its text first. One copy of a pair is enough.
fn read_any<F: Files, E: Out>(
    alloc: Global,
    files: &mut F,
    program: &str,
    config: String,
    err: &mut E,
) -> Result<Images, Fault>
    ensures count { CountsReads true (F.faults files.old) (F.faults files.new) result }
    ensures lock { F.locked files.new ≡ F.locked files.old }
    ensures fault { IfErr result IsReadFault }
    ensures notes { MayTell program.now true (E.sink err.old) (E.sink err.new) }
    ensures quiet { IfErr result (λ _. E.sink err.new ≡ E.sink err.old) }
    ensures told { IfTold (F.told files.old) (F.told files.new) (λ old new.
        FindsEither program.now (string_bytes config) (E.sink err.old) (E.sink err.new) old new
        result) }
{
    let (first, second) = read_places(alloc, files, config)?;
    let Some(second) = second else {
        let first = read_copy(alloc, files, first)?;
        return Ok(Images {
            first,
            second: None,
        });
    };
    read_either(alloc, files, program, first, second, err)
}

/// Reads the images of a source: the text of its configuration first, if it has one, then the first copy,
/// then the second. If one copy of a pair is enough, one that cannot be read is lost, and so is one after
/// the end of its file: the other one counts in its place too, and this is reported in one line. Of whole
/// files no copy is lost: each is read.
///
/// Errors: those of the reads; if both copies are lost, that of the first. Then nothing is reported.
pub fn read_source<F: Files, E: Out>(
    alloc: Global,
    files: &mut F,
    program: &str,
    source: ImageSource,
    err: &mut E,
) -> Result<Images, Fault>
    ensures count { CountsReads source.one_copy (F.faults files.old) (F.faults files.new) result }
    ensures lock { F.locked files.new ≡ F.locked files.old }
    ensures fault { IfErr result IsReadFault }
    ensures notes { MayTell program.now source.one_copy (E.sink err.old) (E.sink err.new) }
    ensures quiet { IfErr result (λ _. E.sink err.new ≡ E.sink err.old) }
    ensures told { IfTold (F.told files.old) (F.told files.new) (λ old new.
        FindsImages program.now source (E.sink err.old) (E.sink err.new) old new result) }
{
    match (source.origin, source.one_copy) {
        (Origin::Config(config), true) => read_any(alloc, files, program, config, err),
        (origin, _) => read_origin(alloc, files, origin),
    }
}
