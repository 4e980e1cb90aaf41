//! The texts that are reached, and what is reported of each.
ghost use Rattle.std.specs.Prelude.{◌≡◌, ◌==◌, ◌&&◌, ◌++◌, length, map, not, option_map, true, IfOk, OnOk};
ghost use Rattle.envtools.specs.Printing.{all_found};
ghost use Rattle.text.specs.TextsShown.{option_bytes};
ghost use Rattle.hushcheck.specs.CallSetsShown.{names_shown};
ghost use Rattle.hushcheck.specs.Calls.{files_by_text, files_by_value};
ghost use Rattle.hushcheck.specs.Names.{run_by_found, run_by_text, run_by_value};
ghost use Rattle.hushcheck.specs.Order.{file_text, text_of};
ghost use Rattle.hushcheck.specs.Queue.{after_turn, has_turn, next_turn, turn_shown};
ghost use Rattle.hushcheck.specs.Rules.{held_to};
ghost use Rattle.hushcheck.specs.Report.{is_fine, is_fine_text, is_fine_value, lines_of, lines_of_text, lines_of_value};
ghost use Rattle.hushcheck.specs.Telling.{Writes, WritesCheck, WritesNames, WritesScript, WritesTurns};
ghost use Rattle.hushcheck.specs.Unset.{used_by, used_by_text, used_by_value};
ghost use Rattle.hushcheck.specs.UsedShown.{all_used};

use crate::by_shell::{TextRead, read_by, warnings_by};
use crate::calls::{Calls, calls_of};
use crate::check_error::CheckError;
use crate::queue::{Queue, Turn, queue_behind};
use crate::remark::Found;
use crate::rules::Rules;
use crate::telling::{write_fault, write_read, write_unset};
use crate::unset::{Used, add_used, set_names, write_unset_reads};
use device_list::Devices;
use envtools::Env;
use hushlang::{Script, SyntaxError};
use keyed_hash::KeyedHash;
use output::Out;
use rehearse_terms::Shell;
use std::alloc::Global;

/// Whether all of the names are set.
fn are_set(env: &Env, names: &[&[u8]]) -> bool
    ensures { result ≡ all_found env.now (map (λ name. name.now) names.now) }
{
    for name in names {
        if env.get(name).is_none() {
            return false;
        }
    }
    true
}

/// Whether both are so.
fn both(first: bool, second: bool) -> bool
    ensures { result ≡ (first && second) }
{
    first && second
}

/// What a text was found to be.
#[derive(Drop)]
struct Checked {
    /// The script that it is, if it is one.
    script: Option<Script>,
    /// The files whose texts run after its calls.
    files: Vec<Vec<u8>>,
    /// Whether nothing is wrong with it.
    fine: bool,
}

/// Whether a well-formed text is fine: the device list lacks no command of it, and if a warning is a fault, it
/// has none.
fn is_fine(strict: bool, lacks: bool, warnings: &[Found]) -> bool
    ensures { result ≡ (not lacks && not (strict && not (length warnings.now == 0))) }
{
    !lacks && !(strict && !warnings.is_empty())
}

/// Checks a text, writes its lines, and adds what it uses.
fn check_text<'a, O: Out>(
    alloc: Global,
    devices: Option<&Devices>,
    shell: Option<Shell>,
    strict: bool,
    name: &[u8],
    text: &'a [u8],
    used: &mut Vec<Used<'a>>,
    out: &mut O,
) -> Result<Checked, CheckError>
    ensures lines { Writes result (O.sink out.old) (O.sink out.new)
        (lines_of_text (held_to (option_map (λ d. d.now) devices.entry) shell strict)
        name.now text.now) }
    ensures fine { IfOk result (λ checked. checked.fine ≡ is_fine_text
        (held_to (option_map (λ d. d.now) devices.entry) shell strict) text.now) }
    ensures script { IfOk result (λ checked. run_by_found checked.script
        ≡ run_by_text shell text.now) }
    ensures files { IfOk result (λ checked. names_shown checked.files.items ≡ files_by_text
        (held_to (option_map (λ d. d.now) devices.entry) shell strict) text.now) }
    ensures used { OnOk result (all_used used.new.items ≡ all_used used.old.items ++ used_by_text
        (held_to (option_map (λ d. d.now) devices.entry) shell strict) name.now text.now) }
{
    let TextRead { script, by_uboot } = read_by(alloc, shell, text)?;
    let warnings = warnings_by(alloc, shell, by_uboot, text)?;
    match script {
        Ok(script) => {
            let calls = calls_of(alloc, devices, text, &script)?;
            let Calls {
                found,
                lacks,
                reads,
                sets,
                files,
                ..
            } = calls;
            add_used(alloc, used, name, text, reads, sets)?;
            write_read(alloc, name, text, &warnings.found, &found, out)?;
            Ok(Checked {
                script: Some(script),
                files,
                fine: is_fine(strict, lacks, &warnings.found),
            })
        }
        Err(SyntaxError::Memory) => Err(CheckError::Memory),
        Err(error) => {
            write_fault(alloc, name, text, &warnings, error, out)?;
            Ok(Checked {
                script: None,
                files: Vec::new(alloc),
                fine: false,
            })
        }
    }
}

/// The text of a file that the device list names.
fn file_text<'a>(devices: Option<&'a Devices>, name: &[u8]) -> Option<&'a [u8]>
    ensures { option_bytes result ≡ file_text (option_map (λ d. d.now) devices.entry) name.now }
{
    match devices {
        Some(devices) => devices.file(name),
        None => None,
    }
}

/// The text of what has its turn: a variable may be not set.
pub(crate) fn text_of<'a>(rules: &Rules<'a>, env: &'a Env, turn: Turn<'_>) -> Option<&'a [u8]>
    ensures { option_bytes result ≡ text_of rules.now env.now (turn_shown turn.entry) }
{
    match turn {
        Turn::Variable(name) => env.get(name),
        Turn::File(name) => file_text(rules.devices, name),
    }
}

/// Checks a text under its name, if there is one, writes its lines, and adds what it uses.
fn check_value<'a, O: Out>(
    alloc: Global,
    rules: &Rules<'a>,
    name: &[u8],
    text: Option<&'a [u8]>,
    used: &mut Vec<Used<'a>>,
    out: &mut O,
) -> Result<Checked, CheckError>
    ensures lines { Writes result (O.sink out.old) (O.sink out.new)
        (lines_of_value rules.now name.now (option_bytes text.entry)) }
    ensures fine { IfOk result (λ checked. checked.fine ≡ is_fine_value rules.now (option_bytes text.entry)) }
    ensures script { IfOk result (λ checked. run_by_found checked.script
        ≡ run_by_value rules.now.shell (option_bytes text.entry)) }
    ensures files { IfOk result (λ checked. names_shown checked.files.items
        ≡ files_by_value rules.now (option_bytes text.entry)) }
    ensures used { OnOk result (all_used used.new.items
        ≡ all_used used.old.items ++ used_by_value rules.now name.now (option_bytes text.entry)) }
{
    match text {
        Some(text) => {
            check_text(
                alloc,
                rules.devices,
                rules.shell,
                rules.strict,
                name,
                text,
                used,
                out,
            )
        }
        None => {
            write_unset(alloc, name, out)?;
            Ok(Checked {
                script: None,
                files: Vec::new(alloc),
                fine: true,
            })
        }
    }
}

/// Checks what has its turn next, writes its lines, and adds what its text runs and uses. Returns whether nothing is
/// wrong with it.
fn take_turn<'a, O: Out>(
    alloc: Global,
    rules: &Rules<'a>,
    env: &'a Env,
    queue: &mut Queue,
    used: &mut Vec<Used<'a>>,
    out: &mut O,
) -> Result<bool, CheckError>
    requires { has_turn queue.old ≡ true }
    ensures lines { Writes result (O.sink out.old) (O.sink out.new)
        (lines_of rules.now env.now (next_turn queue.old)) }
    ensures fine { IfOk result (λ fine. fine ≡ is_fine rules.now env.now (next_turn queue.old)) }
    ensures queue { OnOk result (queue.new ≡ after_turn rules.now env.now queue.old) }
    ensures used { OnOk result (all_used used.new.items
        ≡ all_used used.old.items ++ used_by rules.now env.now (next_turn queue.old)) }
{
    let turn = queue.turn();
    let text = text_of(rules, env, turn);
    let checked = check_value(alloc, rules, turn.name(), text, used, out)?;
    queue.pass_text(alloc, checked.script, &checked.files)?;
    Ok(checked.fine)
}

/// Checks the variables that are asked for, and those that a script runs, if there is one, and then those
/// that the text of each in turn runs; whenever no variable is left, the next of the files that are called, or
/// that a text leads to; and adds what the texts use. Returns whether all is well, as it was so far. Names are
/// found by this hash.
fn check_turns<'a, O: Out>(
    alloc: Global,
    rules: &Rules<'a>,
    env: &'a Env,
    asked: &[&[u8]],
    script: Option<Script>,
    called: &[Vec<u8>],
    hasher: KeyedHash,
    so_far: bool,
    used: &mut Vec<Used<'a>>,
    out: &mut O,
) -> Result<bool, CheckError>
    ensures { WritesTurns rules.now env.now (all_used used.old.items)
        (map (λ name. name.now) asked.now ++ run_by_found script) (names_shown called.now) so_far
        (all_used used.new.items) result (O.sink out.old) (O.sink out.new) }
{
    let mut queue = queue_behind(alloc, asked, script, called, hasher)?;
    let mut sound = so_far;
    'turns: while queue.has_turn() {
        let fine = take_turn(alloc, rules, env, &mut queue, used, out)?;
        sound = both(sound, fine);
    }
    Ok(sound)
}

/// Whether all is well, if it was so far, and if something may be read that nothing sets.
fn is_well(strict: bool, sound: bool, unset: bool) -> bool
    ensures { result ≡ (sound && not (strict && unset)) }
{
    sound && !(strict && unset)
}

/// The same, and then writes which variables nothing sets, of those that these texts and the texts before them
/// read.
fn check_names<'a, O: Out>(
    alloc: Global,
    rules: &Rules<'a>,
    env: &'a Env,
    asked: &[&[u8]],
    script: Option<Script>,
    called: &[Vec<u8>],
    hasher: KeyedHash,
    so_far: bool,
    used: Vec<Used<'a>>,
    out: &mut O,
) -> Result<bool, CheckError>
    ensures { WritesNames rules.now env.now (all_used used.entry.items)
        (map (λ name. name.now) asked.now ++ run_by_found script) (names_shown called.now) so_far result
        (O.sink out.old) (O.sink out.new) }
{
    let mut used = used;
    let sound = check_turns(
        alloc, rules, env, asked, script, called, hasher, so_far, &mut used, out,
    )?;
    let known = set_names(alloc, env, &used, hasher)?;
    let unset = write_unset_reads(alloc, known, &used, out)?;
    Ok(is_well(rules.strict, sound, unset))
}

/// Checks the variables that are asked for, and then the variables that the text of each in turn
/// runs by a name that is written out, each once. When no variable is left, it checks the next of the files that
/// the texts so far lead to, each once, and then goes on with the variables that its text runs. A text leads to a
/// file if the device list says of one of its calls that the text of this file runs, or that the text of one of some
/// files does, of which it is one; the list is asked for the call with what is written out of its words, so a line
/// whose pattern needs more of a word that holds a variable is not found. Writes for each whether its text is
/// well-formed,
/// and if not, where it breaks; what U-Boot's shells read otherwise in it, or if a shell is named,
/// what a rehearsal by it does not follow; which commands the device list lacks, if there is one;
/// which names of `run` are not followed; and of which calls it is not known what they set. With an old
/// shell a text is well-formed too if that shell reads it. Then writes which variables nothing sets, of those
/// that the texts read: neither the environment has them nor a text sets them. Each is written once, at the
/// first word that reads it. Returns whether all is well: each name that is asked for is set, each text is
/// well-formed, the device list lacks no command, and if a warning is a fault, there is none. The lines are
/// written as the check goes. Errors: the output failed, or memory ran out; the first lines are then written.
pub fn check<'a, O: Out>(
    alloc: Global,
    rules: &Rules<'a>,
    env: &'a Env,
    asked: &[&[u8]],
    out: &mut O,
) -> Result<bool, CheckError>
    ensures { WritesCheck rules.now env.now
        (map (λ name. name.now) asked.now) result (O.sink out.old) (O.sink out.new) }
{
    let so_far = are_set(env, asked);
    let used = Vec::new(alloc);
    check_names(
        alloc,
        rules,
        env,
        asked,
        None,
        &[],
        env.hasher(),
        so_far,
        used,
        out,
    )
}

/// Checks a script that is no variable's text, under this name, and then as `check` the variables that are
/// asked for and those that the script runs, and the files that these texts and the script lead to. Returns
/// whether all is well: as `check` says, and the script is well-formed, the device list lacks no command of it,
/// and if a warning is a fault, it has none. Errors: those of `check`.
pub fn check_script<'a, O: Out>(
    alloc: Global,
    rules: &Rules<'a>,
    env: &'a Env,
    name: &[u8],
    text: &'a [u8],
    asked: &[&[u8]],
    out: &mut O,
) -> Result<bool, CheckError>
    ensures { WritesScript rules.now env.now name.now text.now
        (map (λ name. name.now) asked.now) result (O.sink out.old) (O.sink out.new) }
{
    let mut used = Vec::new(alloc);
    let checked = check_text(
        alloc,
        rules.devices,
        rules.shell,
        rules.strict,
        name,
        text,
        &mut used,
        out,
    )?;
    let so_far = both(are_set(env, asked), checked.fine);
    let hasher = env.hasher().with(text);
    check_names(
        alloc,
        rules,
        env,
        asked,
        checked.script,
        &checked.files,
        hasher,
        so_far,
        used,
        out,
    )
}
