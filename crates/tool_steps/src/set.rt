//! `setenv`, from files to one write.
ghost use Rattle.std.specs.Prelude.{◌≡◌, IfErr, IsTrue};
ghost use Rattle.envimage.specs.Place.{place_shown};
ghost use Rattle.tool_files.specs.Told.{IfTold};
ghost use Rattle.tool_steps.specs.Faults.{CountsReads, CountsTold, IsWriteFault};
ghost use Rattle.tool_steps.specs.Images.{copies};
ghost use Rattle.tool_steps.specs.ChangingFiles.{Edits, IsEdited, IsPlaceOf, Sets, WritesCopy};
ghost use Rattle.tool_steps.specs.Notes.{TellsNotes};

use crate::images::Images;
use crate::note::tell_overlap;
use crate::one_copy::{ImageSource, read_source};
use crate::print::slices_of;
use crate::read::{read_input, read_text};
use envimage::{ByteOrder, Place, Which};
use output::Out;
use std::alloc::Global;
use std::io::Read;
use tool_files::Files;
use tool_images::{Edit, Fault, set_bytes};
use tool_words::Change;

/// Which copy of the images is to be written after an edit, and its bytes.
fn edited_copy(
    alloc: Global,
    images: &Images,
    order: ByteOrder,
    edit: Edit<'_>,
) -> Result<(Which, Vec<u8>), Fault>
    ensures { IsEdited order (copies images.now) edit.entry result }
{
    let second = images.second_bytes();
    Ok(set_bytes(alloc, &images.first.bytes, second, order, edit)?)
}

/// Which copy of the images is to be written after a change, and its bytes. Reads the text of a
/// script from its file, or from the input.
fn changed_copy<R: Read, F: Files>(
    alloc: Global,
    input: &mut R,
    files: &mut F,
    images: &Images,
    order: ByteOrder,
    change: Change,
) -> Result<(Which, Vec<u8>), Fault>
    ensures count { CountsTold (F.faults files.old) (F.faults files.new) result }
    ensures lock { F.locked files.new ≡ F.locked files.old }
    ensures told { IfTold (F.told files.old) (F.told files.new)
        (λ old new. Edits (R.remaining input.old) order change (copies images.now) old new result) }
{
    match change {
        Change::One { name, words } => {
            let words = slices_of(alloc, &words)?;
            let edit = Edit::One {
                name: name.as_bytes(),
                words: &words,
            };
            edited_copy(alloc, images, order, edit)
        }
        Change::Script(path) => {
            let text = read_text(alloc, files, path)?;
            edited_copy(alloc, images, order, Edit::Script(&text))
        }
        Change::Input => {
            let text = read_input(alloc, input)?;
            edited_copy(alloc, images, order, Edit::Script(&text))
        }
    }
}

/// The place of a copy of the images. A single image has one place.
fn place_of(images: Images, which: Which) -> Place
    ensures { IsPlaceOf which (copies images) (place_shown result) }
{
    let Images { first, second } = images;
    match (which, second) {
        (Which::Second, Some(second)) => second.place,
        _ => first.place,
    }
}

/// Writes the bytes of a copy at its place, in one call, under the lock.
fn write_copy<F: Files>(
    files: &mut F,
    images: Images,
    which: Which,
    bytes: &[u8],
) -> Result<(), Fault>
    requires { IsTrue (F.locked files.old) }
    ensures count { CountsTold (F.faults files.old) (F.faults files.new) result }
    ensures lock { F.locked files.new ≡ F.locked files.old }
    ensures fault { IfErr result IsWriteFault }
    ensures told { IfTold (F.told files.old) (F.told files.new)
        (λ old new. WritesCopy which (copies images) bytes.now old new result) }
{
    let place = place_of(images, which);
    match files.write_at(&place.device, place.offset, bytes) {
        Ok(()) => Ok(()),
        Err(fault) => Err(Fault::of_write(place.device, fault)),
    }
}

/// Changes the environment in the images of a source, all of it under the lock. Reads the images,
/// then the script, if there is one, from its file or from the input. At the end writes one copy; of
/// a pair it is not the current one. If a copy is lost, and one is enough, that is reported on `err`,
/// and the lost copy is the one that is written.
///
/// Just before the write it is reported on `err` if the places of the two copies share a byte. The
/// contract says what is on `err`, and not that it was there before the write.
pub fn set_files<R: Read, F: Files, E: Out>(
    alloc: Global,
    input: &mut R,
    files: &mut F,
    program: &str,
    source: ImageSource,
    change: Change,
    err: &mut E,
) -> Result<(), Fault>
    requires { IsTrue (F.locked files.old) }
    ensures count { CountsReads source.one_copy (F.faults files.old) (F.faults files.new) result }
    ensures lock { F.locked files.new ≡ F.locked files.old }
    ensures notes { TellsNotes program.now source.one_copy result (E.sink err.old)
        (E.sink err.new) }
    ensures told { IfTold (F.told files.old) (F.told files.new) (λ old new.
        Sets program.now (R.remaining input.old) source change (E.sink err.old) (E.sink err.new)
        old new result) }
{
    let order = source.order;
    let images = read_source(alloc, files, program, source, err)?;
    let (which, bytes) = changed_copy(alloc, input, files, &images, order, change)?;
    tell_overlap(err, program, &images);
    write_copy(files, images, which, &bytes)
}
