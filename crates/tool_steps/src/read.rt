//! Reads what a call needs: texts, also the one on an input, and the copies that a configuration
//! names.
ghost use Rattle.std.specs.Prelude.{◌≡◌, IfErr, IfOk, string_bytes};
ghost use Rattle.tool_files.specs.Told.{IfTold};
ghost use Rattle.tool_steps.specs.Faults.{CountsTold, IsReadFault};
ghost use Rattle.tool_steps.specs.OneCopy.{CountsSought, IsSoughtFault, SeeksCopy};
ghost use Rattle.tool_steps.specs.ReadingFiles.{ReadsCopy, ReadsInput, ReadsText, cut_off_line};

use envimage::Place;
use std::alloc::Global;
use std::io::Read;
use tool_files::{Files, LIMIT, ReadFault, read_up_to};
use tool_images::Fault;

/// A copy of an image, and its place.
#[derive(Debug, Drop)]
pub struct StoredCopy {
    /// The place of the copy.
    pub place: Place,
    /// Its bytes.
    pub bytes: Vec<u8>,
}

/// Reads the whole file at the path.
pub fn read_text<F: Files>(alloc: Global, files: &mut F, path: String) -> Result<Vec<u8>, Fault>
    ensures count { CountsTold (F.faults files.old) (F.faults files.new) result }
    ensures lock { F.locked files.new ≡ F.locked files.old }
    ensures fault { IfErr result IsReadFault }
    ensures told { IfTold (F.told files.old) (F.told files.new)
        (λ old new. ReadsText (string_bytes path) old new result) }
{
    match files.read_all(alloc, &path) {
        Ok(text) => Ok(text),
        Err(fault) => Err(Fault::of_read(path, fault)),
    }
}

/// Reads the whole file at the path, or, if a folder is there, its files as one text.
pub fn read_list<F: Files>(alloc: Global, files: &mut F, path: String) -> Result<Vec<u8>, Fault>
    ensures count { CountsTold (F.faults files.old) (F.faults files.new) result }
    ensures lock { F.locked files.new ≡ F.locked files.old }
    ensures fault { IfErr result IsReadFault }
    ensures told { IfTold (F.told files.old) (F.told files.new)
        (λ old new. ReadsText (string_bytes path) old new result) }
{
    match files.read_list(alloc, &path) {
        Ok(text) => Ok(text),
        Err(fault) => Err(Fault::of_read(path, fault)),
    }
}

/// The same of a plain file below a folder, whose path is the first `folder` bytes of the path.
pub fn read_text_below<F: Files>(
    alloc: Global,
    files: &mut F,
    path: String,
    folder: usize,
) -> Result<Vec<u8>, Fault>
    ensures count { CountsTold (F.faults files.old) (F.faults files.new) result }
    ensures lock { F.locked files.new ≡ F.locked files.old }
    ensures fault { IfErr result IsReadFault }
    ensures told { IfTold (F.told files.old) (F.told files.new)
        (λ old new. ReadsText (string_bytes path) old new result) }
{
    match files.read_below(alloc, &path, folder) {
        Ok(text) => Ok(text),
        Err(fault) => Err(Fault::of_read(path, fault)),
    }
}

/// The number of the line that ends without its newline, if there is one: the last line, counted
/// from 1. An empty text has none.
fn cut_off_line(text: &[u8]) -> Option<usize>
    ensures { result ≡ cut_off_line text.now }
{
    match text.last() {
        None | Some(b'\n') => None,
        Some(_) => Some(text.iter().filter(|byte| **byte == b'\n').count() + 1),
    }
}

/// Reads the whole text on an input, of at most `LIMIT` bytes. Reads at most one byte after them. A
/// text whose last line lacks its newline is refused: more of it may have been meant to come.
///
/// Refusals in order: `CannotReadInput` or `Memory`, `InputTooLong`, `InputCutOff`.
pub fn read_input<R: Read>(alloc: Global, input: &mut R) -> Result<Vec<u8>, Fault>
    ensures { ReadsInput (R.remaining input.old) result }
{
    let text = match read_up_to(alloc, input, LIMIT + 1) {
        Ok(text) => text,
        Err(ReadFault::Failed) => return Err(Fault::CannotReadInput),
        Err(ReadFault::Memory) => return Err(Fault::Memory),
    };
    if text.len() > LIMIT {
        return Err(Fault::InputTooLong);
    }
    match cut_off_line(&text) {
        Some(line) => Err(Fault::InputCutOff(line)),
        None => Ok(text),
    }
}

/// What became of a copy that may be lost.
#[derive(Debug, Drop)]
pub enum SoughtCopy {
    /// It was read.
    Read(StoredCopy),
    /// It is lost: its place, and why.
    Lost(Place, Fault),
}

/// Reads the copy at a place, or finds it lost: it cannot be read, or its file ends before it does.
/// Errors: `Memory`.
pub(crate) fn seek_copy<F: Files>(
    alloc: Global,
    files: &mut F,
    place: Place,
) -> Result<SoughtCopy, Fault>
    ensures count { CountsSought (F.faults files.old) (F.faults files.new) result }
    ensures lock { F.locked files.new ≡ F.locked files.old }
    ensures fault { IsSoughtFault result }
    ensures told { IfTold (F.told files.old) (F.told files.new)
        (λ old new. SeeksCopy place old new result) }
{
    let Ok(path) = place.device.clone() else {
        return Err(Fault::Memory);
    };
    match files.read_at(alloc, &path, place.offset, place.size) {
        Ok(bytes) => Ok(SoughtCopy::Read(StoredCopy { place, bytes })),
        Err(fault) => match Fault::of_read(path, fault) {
            Fault::Memory => Err(Fault::Memory),
            fault => Ok(SoughtCopy::Lost(place, fault)),
        },
    }
}

/// Reads the copy at a place.
pub fn read_copy<F: Files>(alloc: Global, files: &mut F, place: Place) -> Result<StoredCopy, Fault>
    ensures count { CountsTold (F.faults files.old) (F.faults files.new) result }
    ensures lock { F.locked files.new ≡ F.locked files.old }
    ensures place { IfOk result (λ copy. copy.place ≡ place) }
    ensures fault { IfErr result IsReadFault }
    ensures told { IfTold (F.told files.old) (F.told files.new)
        (λ old new. ReadsCopy place old new result) }
{
    match files.read_at(alloc, &place.device, place.offset, place.size) {
        Ok(bytes) => Ok(StoredCopy { place, bytes }),
        Err(fault) => Err(Fault::of_read(place.device, fault)),
    }
}
