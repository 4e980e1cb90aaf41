//! Reads the texts and sizes of the files that a device list names.
ghost use Rattle.std.specs.Prelude.{◌≡◌, ◌≤◌, vec_len, ◌++◌, ◌∷◌, [], false, true, IfErr, IfOk, MatchOption, OnOk, option_map, string_bytes};
ghost use Rattle.board_files.specs.NamedFiles.{IsNew, ReadsFiles, ReadsNamedFiles, ReadsOne, ReadsWithin, path_below};
ghost use Rattle.commands.specs.TextsShown.{texts as texts_shown};
ghost use Rattle.device_list.specs.CommandsShown.{files_shown, text_shown};
ghost use Rattle.device_list.specs.NamedFiles.{named_files};
ghost use Rattle.envimage.specs.Config.{is_text};
ghost use Rattle.tool_files.specs.Told.{IfTold};
ghost use Rattle.tool_steps.specs.Faults.{CountsTold, IsScriptReadFault};

use device_list::{FileText, FileTexts, named_files};
use indexmap::IndexMap;
use keyed_hash::KeyedHash;
use std::alloc::{AllocError, Global};
use tool_files::{FileFault, Files};
use tool_images::Fault;
use tool_steps::{SizedScript, read_script_below};

/// The most bytes that the texts have together.
const MOST_BYTES: usize = 16_777_216;

/// The text of UTF-8 bytes.
#[tactic(auto, using(envimage::proofs::ConfigLemmas::texts))]
fn text_of(bytes: &[u8]) -> Option<&str>
    ensures { MatchOption result (is_text bytes.now ≡ false)
        (λ s. (is_text bytes.now ≡ true) × (s.now ≡ bytes.now)) }
{
    match str::from_utf8(bytes) {
        Ok(text) => Some(text),
        Err(_) => None,
    }
}

/// The path of a file below a folder. Errors: memory ran out.
fn path_below(alloc: Global, folder: &str, name: &str) -> Result<String, AllocError>
    ensures { IfOk result (λ path. string_bytes path ≡ path_below folder.now name.now) }
{
    let mut path = String::from_str(alloc, folder)?;
    path.push('/')?;
    path.push_str(name)?;
    Ok(path)
}

/// Reads a file below a folder, whose script has at most `room` bytes. Errors: those of `read_script_below`, and
/// `FileTooLong`.
fn read_within<F: Files>(
    alloc: Global,
    files: &mut F,
    folder: &str,
    name: &str,
    room: usize,
) -> Result<FileText, Fault>
    ensures count { CountsTold (F.faults files.old) (F.faults files.new) result }
    ensures lock { F.locked files.new ≡ F.locked files.old }
    ensures fault { IfErr result IsScriptReadFault }
    ensures room { IfOk result (λ file. vec_len file.text ≤ room) }
    ensures told { IfTold (F.told files.old) (F.told files.new)
        (λ old new. ReadsWithin (path_below folder.now name.now) room old new result) }
{
    let Ok(path) = path_below(alloc, folder, name) else {
        return Err(Fault::Memory);
    };
    let Ok(told) = path.clone() else {
        return Err(Fault::Memory);
    };
    let script = read_script_below(alloc, files, path, folder.len())?;
    if script.text.len() > room {
        return Err(Fault::of_read(told, FileFault::TooLong));
    }
    let SizedScript { text, size } = script;
    Ok(FileText {
        text,
        size: size as u64,
    })
}

/// A copy of the texts and sizes of files. Errors: memory ran out.
pub fn copied_texts(texts: &FileTexts) -> Result<FileTexts, AllocError>
    ensures { IfOk result (λ copy. files_shown copy.entries ≡ files_shown texts.now.entries) }
{
    Ok(texts.clone()?)
}

/// Keeps what is known of a file. Errors: memory ran out.
fn keep(alloc: Global, texts: &mut FileTexts, name: &[u8], file: FileText) -> Result<(), AllocError>
    requires { IsNew (files_shown texts.old.entries) name.now }
    ensures { OnOk result (files_shown texts.new.entries
        ≡ files_shown texts.old.entries ++ (name.now, text_shown file) ∷ []) }
{
    let name = Vec::from_slice(alloc, name)?;
    texts.insert(name, file)?;
    Ok(())
}

/// Reads one more of the files, unless it was read before or no path may have its name; the rest of the room is left.
/// Errors: those of `read_within`.
fn read_one<F: Files>(
    alloc: Global,
    files: &mut F,
    folder: &str,
    texts: &mut FileTexts,
    room: &mut usize,
    name: &[u8],
) -> Result<(), Fault>
    ensures count { CountsTold (F.faults files.old) (F.faults files.new) result }
    ensures lock { F.locked files.new ≡ F.locked files.old }
    ensures fault { IfErr result IsScriptReadFault }
    ensures told { IfTold (F.told files.old) (F.told files.new)
        (λ old new. ReadsOne folder.now name.now old new (files_shown texts.old.entries)
        (files_shown texts.new.entries) room.old room.new result) }
{
    let Some(inside) = text_of(name) else {
        return Ok(());
    };
    if texts.contains_key(name) {
        return Ok(());
    }
    let file = read_within(alloc, files, folder, inside, *room)?;
    *room -= file.text.len();
    match keep(alloc, texts, name, file) {
        Ok(()) => Ok(()),
        Err(_) => Err(Fault::Memory),
    }
}

/// Reads the files of these names below a folder. Errors: those of `read_one`.
fn read_files<F: Files>(
    alloc: Global,
    files: &mut F,
    folder: &str,
    names: &[Vec<u8>],
    mut texts: FileTexts,
) -> Result<FileTexts, Fault>
    requires { texts.entries ≡ [] }
    ensures count { CountsTold (F.faults files.old) (F.faults files.new) result }
    ensures lock { F.locked files.new ≡ F.locked files.old }
    ensures fault { IfErr result IsScriptReadFault }
    ensures told { IfTold (F.told files.old) (F.told files.new)
        (λ old new. ReadsFiles folder.now (texts_shown names.now) old new result) }
{
    let mut room = MOST_BYTES;
    for name in names {
        read_one(alloc, files, folder, &mut texts, &mut room, name)?;
    }
    Ok(texts)
}

/// Reads the texts and sizes of the files that a device list names, below a folder; without a folder, none. Each is
/// read once, in the order in which they are named. Errors: those of `read_files`.
pub(crate) fn read_named_files<F: Files>(
    alloc: Global,
    files: &mut F,
    folder: Option<String>,
    list: &[u8],
) -> Result<FileTexts, Fault>
    ensures count { CountsTold (F.faults files.old) (F.faults files.new) result }
    ensures lock { F.locked files.new ≡ F.locked files.old }
    ensures fault { IfErr result IsScriptReadFault }
    ensures told { IfTold (F.told files.old) (F.told files.new)
        (λ old new. ReadsNamedFiles (option_map string_bytes folder) (named_files list.now)
        old new result) }
{
    let texts = IndexMap::with_hasher(alloc, KeyedHash::of(list));
    let Some(folder) = folder else {
        return Ok(texts);
    };
    match named_files(alloc, list) {
        Ok(names) => read_files(alloc, files, &folder, &names, texts),
        Err(_) => Err(Fault::Memory),
    }
}
