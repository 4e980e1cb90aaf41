//! The images of a call, by what names them.
ghost use Rattle.std.specs.Prelude.{◌≡◌, IfErr, Some, option_map, string_bytes};
ghost use Rattle.tool_files.specs.Told.{IfTold};
ghost use Rattle.tool_steps.specs.Faults.{CountsTold, IsReadFault};
ghost use Rattle.tool_steps.specs.Images.{copy_of};
ghost use Rattle.tool_steps.specs.Origins.{MakesImages, MakesNone, PairsUp, ReadsFile, ReadsFiles, ReadsOrigin, ReadsTexts, whole_copy};
ghost use Rattle.tool_words.specs.CommandAnswers.{origin_shown};

use crate::images::{Images, read_images};
use crate::read::{StoredCopy, read_text};
use envimage::{ByteOrder, Place};
use std::alloc::Global;
use tool_files::Files;
use tool_images::{Fault, empty_image, image_of_text};
use tool_words::Origin;

/// A file that is one whole copy.
fn whole(path: String, bytes: Vec<u8>) -> StoredCopy
    ensures copy { copy_of result ≡ whole_copy (string_bytes path) bytes.items }
    ensures bytes { result.bytes.items ≡ bytes.items }
{
    let place = Place {
        device: path,
        offset: 0,
        size: bytes.len(),
    };
    StoredCopy { place, bytes }
}

/// Reads the file at the path, which is one whole copy.
fn read_file<F: Files>(alloc: Global, files: &mut F, path: String) -> Result<StoredCopy, Fault>
    ensures count { CountsTold (F.faults files.old) (F.faults files.new) result }
    ensures lock { F.locked files.new ≡ F.locked files.old }
    ensures fault { IfErr result IsReadFault }
    ensures told { IfTold (F.told files.old) (F.told files.new)
        (λ old new. ReadsFile (string_bytes path) old new result) }
{
    match files.read_all(alloc, &path) {
        Ok(bytes) => Ok(whole(path, bytes)),
        Err(fault) => Err(Fault::of_read(path, fault)),
    }
}

/// Two copies as a pair. Errors: `UnequalSizes`.
fn pair_of(first: StoredCopy, second: StoredCopy) -> Result<Images, Fault>
    ensures { PairsUp first second result }
{
    if first.bytes.len() != second.bytes.len() {
        return Err(Fault::UnequalSizes);
    }
    Ok(Images {
        first,
        second: Some(second),
    })
}

/// Reads the two files of a pair, of which each is one whole copy.
fn read_pair<F: Files>(
    alloc: Global,
    files: &mut F,
    first: String,
    second: String,
) -> Result<Images, Fault>
    ensures count { CountsTold (F.faults files.old) (F.faults files.new) result }
    ensures lock { F.locked files.new ≡ F.locked files.old }
    ensures fault { IfErr result IsReadFault }
    ensures told { IfTold (F.told files.old) (F.told files.new) (λ old new.
        ReadsFiles (string_bytes first) (Some (string_bytes second)) old new result) }
{
    let first = read_file(alloc, files, first)?;
    let second = read_file(alloc, files, second)?;
    pair_of(first, second)
}

/// Reads the files of a single image, or of a pair, of which each is one whole copy.
fn read_files<F: Files>(
    alloc: Global,
    files: &mut F,
    first: String,
    second: Option<String>,
) -> Result<Images, Fault>
    ensures count { CountsTold (F.faults files.old) (F.faults files.new) result }
    ensures lock { F.locked files.new ≡ F.locked files.old }
    ensures fault { IfErr result IsReadFault }
    ensures told { IfTold (F.told files.old) (F.told files.new) (λ old new.
        ReadsFiles (string_bytes first) (option_map string_bytes second) old new result) }
{
    let Some(second) = second else {
        let first = read_file(alloc, files, first)?;
        return Ok(Images {
            first,
            second: None,
        });
    };
    read_pair(alloc, files, first, second)
}

/// The image of a text, as the one copy of its file.
fn image_of(alloc: Global, path: String, text: &[u8], order: ByteOrder) -> Result<Images, Fault>
    ensures { MakesImages order (string_bytes path) text.now result }
{
    let bytes = image_of_text(alloc, text, order)?;
    Ok(Images {
        first: whole(path, bytes),
        second: None,
    })
}

/// Reads the text at the path, and makes an image of its environment.
fn read_texts<F: Files>(
    alloc: Global,
    files: &mut F,
    path: String,
    order: ByteOrder,
) -> Result<Images, Fault>
    ensures count { CountsTold (F.faults files.old) (F.faults files.new) result }
    ensures lock { F.locked files.new ≡ F.locked files.old }
    ensures fault { IfErr result IsReadFault }
    ensures told { IfTold (F.told files.old) (F.told files.new)
        (λ old new. ReadsTexts (string_bytes path) order old new result) }
{
    let Ok(device) = path.clone() else {
        return Err(Fault::Memory);
    };
    let text = read_text(alloc, files, path)?;
    image_of(alloc, device, &text, order)
}

/// An image without variables, as the one copy of a file whose path is empty. Errors: `Memory`.
fn no_images(alloc: Global, order: ByteOrder) -> Result<Images, Fault>
    ensures { MakesNone order result }
{
    let bytes = empty_image(alloc, order)?;
    Ok(Images {
        first: whole(String::new(alloc), bytes),
        second: None,
    })
}

/// Reads the images that a configuration names, its text first, or those that are whole files; or reads a
/// text, and makes an image of its environment; or makes one without variables, if nothing is named. Of a pair the first copy is read before the second. Errors:
/// those of the reads and of the configuration; `UnequalSizes`, if the two files of a pair are not of one
/// size; `Text` and `TextTooLarge`, if no image can be made of a text.
pub fn read_origin<F: Files>(alloc: Global, files: &mut F, origin: Origin) -> Result<Images, Fault>
    ensures count { CountsTold (F.faults files.old) (F.faults files.new) result }
    ensures lock { F.locked files.new ≡ F.locked files.old }
    ensures fault { IfErr result IsReadFault }
    ensures told { IfTold (F.told files.old) (F.told files.new)
        (λ old new. ReadsOrigin (origin_shown origin) old new result) }
{
    match origin {
        Origin::Config(config) => read_images(alloc, files, config),
        Origin::Files { first, second } => read_files(alloc, files, first, second),
        Origin::Text { path, order } => read_texts(alloc, files, path, order),
        Origin::Empty { order } => no_images(alloc, order),
    }
}
