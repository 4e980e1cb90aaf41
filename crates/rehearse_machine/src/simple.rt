//! Simple commands.
ghost use Rattle.std.specs.Prelude.{OnOk, ◌≡◌, ◌+◌, ◌<◌, ◌^◌, Bool, List, true, map, option_map};
ghost use Rattle.builtins.specs.Builtins.{builtin_named, builtin_of};
ghost use Rattle.builtins.specs.BuiltinsShown.{builtin_shown};
ghost use Rattle.hushlang.specs.TreesShown as view;
ghost use Rattle.hushlang.specs.Tree as tree;
ghost use Rattle.rehearse_rules.specs.ByShell.{fields_in, leaves_in, reads_again, status_of_exit, status_of_for};
ghost use Rattle.bootstore_state.specs.Record.{changed, with_status};
ghost use Rattle.rehearse_terms.specs.State.{Text};
ghost use Rattle.rehearse_rules.specs.Parameters.{parameters_in};
ghost use Rattle.rehearse_rules.specs.Execution.{Limits, set_status, test_request};
ghost use Rattle.commands.specs.BuiltInCommands as says;
ghost use Rattle.device_list.specs.Called as called;
ghost use Rattle.text.specs.TextsShown.{bytes_of_words};
ghost use Rattle.device_list.specs.DeviceList.{Devices as ListedDevices};
ghost use Rattle.rehearse_machine.specs.Places.{place_ask, place_fields, place_called, place_exit, place_command, place_counted, for_begins, place_for, place_words, place_turns, GoOn};
ghost use Rattle.rehearse_machine.specs.Places.{behind as goes_behind};
ghost use Rattle.bootstore_state.specs.Moment.{RunningFrame};
ghost use Rattle.rehearse_machine.specs.Variables.{parameters_at};
ghost use Rattle.rehearse_machine.specs.MovesShown.{Comes, IsExpanded, Moves, limits_of};
ghost use Rattle.rehearse_machine.specs.CalledShown.{builtin_called};

use crate::ask::{Statuses, Step};
use crate::built_in::{echo, setenv};
use crate::by_shell::{
    asks_in, follows, follows_turns, leaves_in, question_in, status_of_exit, status_of_for,
    status_of_nothing, statuses_in, truth_in,
};
use crate::computed::carry_out;
use crate::frames::{behind, change_status, enter, finish, place};
use crate::named::Named;
use crate::outcomes::ask;
use crate::plain_call::call_in;
use crate::run_and_exit::{begin_run, leave_text};
use crate::steps::{count, turned};
use crate::told::effect_now;
use bootstore_state::{At, Frame, FrameKind, Store, StoreError};
use builtins::Builtin;
use device_list::{Devices, Effect};
use hushlang::{Fields, Script, Word};
use rehearse_rules::Halt;
use rehearse_terms::{RunBounds, Shell};
use std::alloc::Global;
use std::rc::Rc;
use text::copied_words;

/// Sets the status, and goes on.
fn done<'d, S: Store>(store: &mut S, status: u8) -> Result<Step<'d>, StoreError>
    ensures { Comes result (S.record_of store.old) (S.record_of store.new)
        (λ s. GoOn (S.record_of store.old).present.frames (set_status status s)) }
{
    store.set_status(status)?;
    Ok(Step::Going)
}

/// `run`: runs the texts of these variables in turn. Without a name the status is 1.
fn run_names<'d, S: Store>(
    alloc: Global,
    store: &mut S,
    script: &Rc<Script>,
    names: &[Vec<u8>],
) -> Result<Step<'d>, StoreError>
    ensures { (limits : Limits) (again : Bool) (name : Text) → Comes result
        (S.record_of store.old) (S.record_of store.new)
        (place_called limits again (called.BuiltIn says.RunsTexts) name (bytes_of_words names.now)
        (view.script script.now.value) (S.record_of store.old).present.frames) }
{
    if names.is_empty() {
        done(store, 1)
    } else {
        begin_run(alloc, store, script, names)
    }
}

/// Asks for the file of a `test`.
fn ask_file<'d, S: Store>(
    alloc: Global,
    store: &mut S,
    devices: &'d Devices,
    bounds: RunBounds,
    name: &[u8],
    words: &[Vec<u8>],
) -> Result<Step<'d>, StoreError>
    ensures { Comes result (S.record_of store.old) (S.record_of store.new)
        (place_ask (limits_of devices.now bounds) (test_request (limits_of devices.now bounds)
        name.now (bytes_of_words words.now)) (S.record_of store.old).present.frames) }
{
    let shell = bounds.shell();
    let question = question_in(alloc, shell, words)?;
    let statuses = statuses_in(shell, words);
    let effect = Effect {
        ends: None,
        stays: devices.test_stays(),
        always: None,
        needs: &[],
        normal: false,
        runs: &[],
        sets: &[],
    };
    ask(alloc, store, bounds, name, &question, effect, statuses)
}

/// `test`: the status says whether its words hold. If they ask for a file, it is a device command.
fn run_test<'d, S: Store>(
    alloc: Global,
    store: &mut S,
    devices: &'d Devices,
    bounds: RunBounds,
    name: &[u8],
    words: &[Vec<u8>],
) -> Result<Step<'d>, StoreError>
    ensures { (again : Bool) (script : tree.Script) → Comes result (S.record_of store.old)
        (S.record_of store.new)
        (place_called (limits_of devices.now bounds) again (called.BuiltIn says.Tests) name.now
        (bytes_of_words words.now) script (S.record_of store.old).present.frames) }
{
    let shell = bounds.shell();
    if asks_in(shell, words) {
        ask_file(alloc, store, devices, bounds, name, words)
    } else if truth_in(shell, words) {
        done(store, 0)
    } else {
        done(store, 1)
    }
}

/// `exit`: ends the text that is running with the status that the words name, or leaves a compound
/// command in it, if the shell does so. Else it is a command with a status. `again` says whether the
/// command is read again.
fn run_exit<'d, S: Store>(
    store: &mut S,
    shell: Shell,
    again: bool,
    words: &[Vec<u8>],
) -> Result<Step<'d>, StoreError>
    ensures { Comes result (S.record_of store.old) (S.record_of store.new)
        (place_exit shell (leaves_in shell again (bytes_of_words words.now))
        (status_of_exit shell (bytes_of_words words.now))
        (S.record_of store.old).present.frames) }
{
    match leaves_in(shell, again, words) {
        Some(status) => {
            store.set_status(status)?;
            leave_text(store, shell)
        }
        None => done(store, status_of_exit(shell, words)),
    }
}

/// Runs a built-in command. `again` says whether the command is read again.
fn run_builtin<'d, S: Store>(
    alloc: Global,
    store: &mut S,
    script: &Rc<Script>,
    devices: &'d Devices,
    bounds: RunBounds,
    again: bool,
    builtin: Builtin,
    name: &[u8],
    words: &[Vec<u8>],
) -> Result<Step<'d>, StoreError>
    ensures { Comes result (S.record_of store.old) (S.record_of store.new)
        (place_called (limits_of devices.now bounds) again (builtin_called builtin) name.now
        (bytes_of_words words.now) (view.script script.now.value)
        (S.record_of store.old).present.frames) }
{
    match builtin {
        Builtin::SetEnv => {
            setenv(alloc, store, words)?;
            Ok(Step::Going)
        }
        Builtin::Run => run_names(alloc, store, script, words),
        Builtin::Test => run_test(alloc, store, devices, bounds, name, words),
        Builtin::Echo => {
            echo(alloc, store, words)?;
            Ok(Step::Going)
        }
        Builtin::True => done(store, 0),
        Builtin::False => done(store, 1),
        Builtin::Leave => run_exit(store, bounds.shell(), again, words),
    }
}

/// The status of a device command: 0 on success, 1 on failure.
const BY_OUTCOME: Statuses = Statuses {
    success: 0,
    failure: 1,
};

/// Runs a command that is not built in: its call is computed, or it is a device command. An unknown
/// name ends the run. The device list is looked at first at `place`.
fn run_other<'d, S: Store>(
    alloc: Global,
    store: &mut S,
    devices: &'d Devices,
    bounds: RunBounds,
    place: usize,
    name: &[u8],
    words: &[Vec<u8>],
) -> Result<Step<'d>, StoreError>
    ensures { (again : Bool) (script : tree.Script) → Comes result (S.record_of store.old)
        (S.record_of store.new)
        (place_called (limits_of devices.now bounds) again
        (called.other_called devices.now name.now (bytes_of_words words.now)) name.now
        (bytes_of_words words.now) script (S.record_of store.old).present.frames) }
{
    if let Some(computed) = devices.computed(name, words) {
        carry_out(alloc, store, computed)?;
        return Ok(Step::Going);
    }
    match devices.effect_near(name, words, place) {
        Some(listed) => {
            let effect = effect_now(store, bounds.room(), listed);
            ask(alloc, store, bounds, name, words, effect, BY_OUTCOME)
        }
        None => Ok(Step::Ends(Halt::Unknown(Vec::from_slice(alloc, name)?))),
    }
}

/// Runs the command of a name. `named` says what the name names.
fn run_called<'d, S: Store>(
    alloc: Global,
    store: &mut S,
    script: &Rc<Script>,
    devices: &'d Devices,
    bounds: RunBounds,
    named: Named,
    name: &[u8],
    words: &[Vec<u8>],
) -> Result<Step<'d>, StoreError>
    requires { option_map builtin_shown named.builtin ≡ builtin_of name.now }
    ensures { Comes result (S.record_of store.old) (S.record_of store.new)
        (place_called (limits_of devices.now bounds) named.again
        (called.called_by devices.now name.now (bytes_of_words words.now)) name.now
        (bytes_of_words words.now) (view.script script.now.value)
        (S.record_of store.old).present.frames) }
{
    match named.builtin {
        Some(builtin) => run_builtin(
            alloc,
            store,
            script,
            devices,
            bounds,
            named.again,
            builtin,
            name,
            words,
        ),
        None => run_other(alloc, store, devices, bounds, named.place, name, words),
    }
}

/// Runs the command that fields name, if the shell's call of it is followed; else the run ends.
/// `named` says what they name.
pub(crate) fn run_fields<'d, S: Store>(
    alloc: Global,
    store: &mut S,
    script: &Rc<Script>,
    devices: &'d Devices,
    bounds: RunBounds,
    named: Named,
    fields: &[Vec<u8>],
) -> Result<Step<'d>, StoreError>
    requires { option_map builtin_shown named.builtin
        ≡ builtin_named (bytes_of_words fields.now) }
    ensures { Comes result (S.record_of store.old) (S.record_of store.new)
        (place_fields (limits_of devices.now bounds) named.again (bytes_of_words fields.now)
        (view.script script.now.value) (S.record_of store.old).present.frames) }
{
    let Some((name, words)) = fields.split_first() else {
        let status = status_of_nothing(bounds.shell(), store.get_status());
        return done(store, status);
    };
    let call = call_in(bounds.shell(), name, words, named.builtin);
    if !follows(bounds.shell(), devices, call.builtin, call.name, call.words) {
        return Ok(Step::Ends(Halt::Unsupported(Vec::from_slice(alloc, call.name)?)));
    }
    let named = Named {
        builtin: call.builtin,
        place: named.place,
        again: named.again,
    };
    run_called(
        alloc, store, script, devices, bounds, named, call.name, call.words,
    )
}

/// Begins a step for a simple command whose fields were found, moves its frame to the place after
/// it, and runs the command that the fields name. `fit` says whether they hold no more bytes than
/// allowed, and `named` what they name, if they fit.
pub(crate) fn call<'d, S: Store>(
    alloc: Global,
    store: &mut S,
    script: &Rc<Script>,
    after: At,
    devices: &'d Devices,
    bounds: RunBounds,
    fit: bool,
    named: Named,
    fields: &[Vec<u8>],
) -> Result<Step<'d>, StoreError>
    requires begun { (S.record_of store.old).begun + 1 < 2 ^ 64 }
    requires named { fit ≡ true → option_map builtin_shown named.builtin
        ≡ builtin_named (bytes_of_words fields.now) }
    ensures { (f : RunningFrame) (words : List tree.Word) → after ≡ (goes_behind f).place
        → view.script script.now.value ≡ f.script → named.again ≡ reads_again words
        → IsExpanded fit (bytes_of_words fields.now)
        (fields_in bounds.shell (parameters_at (S.record_of store.old).present) words)
        → Moves f result (S.record_of store.old) (S.record_of store.new)
        (place_command (limits_of devices.now bounds) (tree.Simple words) f) }
{
    let counted = count(store, bounds)?;
    if !counted {
        return Ok(Step::Ends(Halt::CutSteps));
    }
    if !fit {
        return Ok(Step::Ends(Halt::Size));
    }
    store.advance(after)?;
    run_fields(alloc, store, script, devices, bounds, named, fields)
}

/// Begins a step for a `for`, and its turns with it. Without a field the status is 0.
pub(crate) fn begin_for<'d, S: Store>(
    alloc: Global,
    store: &mut S,
    fields: &mut Fields,
    frame: &Frame,
    bounds: RunBounds,
    name: &[u8],
    words: &[Word],
) -> Result<Step<'d>, StoreError>
    requires command { frame.now.place.command + 1 < 2 ^ 64 }
    requires begun { (S.record_of store.old).begun + 1 < 2 ^ 64 }
    ensures { (devices : ListedDevices) → Moves frame.now result (S.record_of store.old)
        (S.record_of store.new)
        (λ fs. place_counted (limits_of devices bounds)
        (place_for bounds.shell name.now (map view.word words.now) frame.now fs)) }
{
    let counted = count(store, bounds)?;
    if !counted {
        return Ok(Step::Ends(Halt::CutSteps));
    }
    let shell = bounds.shell();
    begin_status(store, shell)?;
    begin_words(alloc, store, fields, frame, shell, name, words)
}

/// Sets the status with which a `for` begins.
fn begin_status<S: Store>(store: &mut S, shell: Shell) -> Result<(), StoreError>
    ensures { OnOk result (S.record_of store.new ≡ changed
        (with_status (status_of_for shell (S.record_of store.old).present.status))
        (S.record_of store.old)) }
{
    let status = status_of_for(shell, store.get_status());
    change_status(store, status)
}

/// Expands the words of a `for`, and starts its turns.
fn begin_words<'d, S: Store>(
    alloc: Global,
    store: &mut S,
    fields: &mut Fields,
    frame: &Frame,
    shell: Shell,
    name: &[u8],
    words: &[Word],
) -> Result<Step<'d>, StoreError>
    requires { frame.now.place.command + 1 < 2 ^ 64 }
    ensures { Moves frame.now result (S.record_of store.old) (S.record_of store.new)
        (place_words shell name.now (map view.word words.now) frame.now) }
{
    let fit = turned(alloc, fields, store, shell, words)?;
    if !fit {
        return Ok(Step::Ends(Halt::Size));
    }
    begin_turns(alloc, store, frame, shell, name, fields.as_slice())
}

/// Starts the turns of a `for` with these fields, if the shell's turns are followed; else the run ends.
fn begin_turns<'d, S: Store>(
    alloc: Global,
    store: &mut S,
    frame: &Frame,
    shell: Shell,
    name: &[u8],
    fields: &[Vec<u8>],
) -> Result<Step<'d>, StoreError>
    requires { frame.now.place.command + 1 < 2 ^ 64 }
    ensures { Moves frame.now result (S.record_of store.old) (S.record_of store.new)
        (place_turns shell name.now (bytes_of_words fields.now) frame.now) }
{
    if !follows_turns(shell, name, fields) {
        return Ok(Step::Ends(Halt::Unsupported(Vec::from_slice(alloc, name)?)));
    }
    start_turns(alloc, store, frame, fields)
}

/// Starts the turns of a `for` with these fields.
fn start_turns<'d, S: Store>(
    alloc: Global,
    store: &mut S,
    frame: &Frame,
    fields: &[Vec<u8>],
) -> Result<Step<'d>, StoreError>
    requires { frame.now.place.command + 1 < 2 ^ 64 }
    ensures { Moves frame.now result (S.record_of store.old) (S.record_of store.new)
        (for_begins (bytes_of_words fields.now) frame.now) }
{
    let at = frame.at();
    if fields.is_empty() {
        return finish(store, behind(at), 0);
    }
    let fields = Rc::new(alloc, copied_words(alloc, fields)?)?;
    let turns = Frame::with_words(
        FrameKind::For,
        frame.script().clone()?,
        fields,
        place(at.list, at.command),
    );
    enter(store, behind(at), turns)
}
