//! How a `run` starts, with a frame for its names, and how `exit` leaves the text that is running.
ghost use Rattle.std.specs.Prelude.{◌≡◌, ◌∷◌, ◌<◌, List};
ghost use Rattle.hushlang.specs.TreesShown as view;
ghost use Rattle.bootstore_state.specs.Moment.{RunningFrame};
ghost use Rattle.text.specs.TextsShown.{bytes_of_words};
ghost use Rattle.rehearse_terms.specs.State.{State};
ghost use Rattle.rehearse_rules.specs.Execution.{compound_left};
ghost use Rattle.rehearse_machine.specs.Exits.{exits};
ghost use Rattle.rehearse_machine.specs.Places.{left, left_by, left_compound, file_left, run_left, PlaceNext, GoOn, names_frame};
ghost use Rattle.rehearse_machine.specs.MovesShown.{Comes, Went, under};

use crate::ask::Step;
use crate::by_shell::left_status;
use crate::frames::{finish, leave, leave_with, over, place};
use bootstore_state::{Frame, FrameKind, Store, StoreError};
use hushlang::Script;
use rehearse_rules::Halt;
use rehearse_terms::Shell;
use std::alloc::Global;
use std::rc::Rc;
use text::copied_words;

/// Keeps the innermost frame, a `run` whose text has been left, if the status is 0. Else removes it:
/// the `run` has ended with this status.
fn leave_run<S: Store>(store: &mut S) -> Result<(), StoreError>
    ensures { Went result (S.record_of store.old) (S.record_of store.new)
        (run_left (S.record_of store.old).present.frames (under (S.record_of store.old).present)) }
{
    if store.get_status() != 0 {
        store.pop()?;
    }
    Ok(())
}

/// What `exit` does at a frame.
#[derive(Clone, Copy)]
pub(crate) enum Exits {
    /// It goes further outwards.
    Outwards,
    /// It leaves a command of the frame's script.
    Command,
    /// It leaves a `for`.
    Turns,
    /// It leaves a text of a `run`.
    Text,
    /// It leaves the text of a file.
    File,
    /// It ends the run.
    Run,
}

/// What `exit` does in a compound command: this in the modern shell, and else it goes further
/// outwards.
fn in_compound(shell: Shell, here: Exits) -> Exits
    ensures { (f : RunningFrame) (fs : List RunningFrame) (ps : List RunningFrame)
        (outwards : PlaceNext) (s : State) → exits here f fs outwards s ≡ GoOn ps (compound_left s)
        → left_compound shell ps outwards s ≡ exits result f fs outwards s }
{
    match shell {
        Shell::Profile | Shell::Old2023 | Shell::Old2025 => Exits::Outwards,
        Shell::Modern2025 => here,
    }
}

/// What `exit` does in the text of a file: it ends that text, in the modern shell the run.
fn in_file(shell: Shell) -> Exits
    ensures { (f : RunningFrame) (fs : List RunningFrame) (outwards : PlaceNext) (s : State) →
        file_left shell fs s ≡ exits result f fs outwards s }
{
    match shell {
        Shell::Profile | Shell::Old2023 | Shell::Old2025 => Exits::File,
        Shell::Modern2025 => Exits::Run,
    }
}

/// What `exit` does at a frame in this shell.
#[tactic(auto, using(crate::proofs::FileLemmas::outwards_elsewhere))]
fn exit_at(frame: &Frame, shell: Shell) -> Exits
    ensures { (fs : List RunningFrame) (outwards : PlaceNext) (s : State) →
        left_by shell frame.now.kind frame.now fs outwards s
        ≡ exits result frame.now fs outwards s }
{
    match frame.kind() {
        FrameKind::Text | FrameKind::Block => {
            if frame.at().turn == 0 {
                Exits::Outwards
            } else {
                in_compound(shell, Exits::Command)
            }
        }
        FrameKind::For => in_compound(shell, Exits::Turns),
        FrameKind::Run => Exits::Text,
        FrameKind::File => {
            if frame.at().turn == 1 {
                in_file(shell)
            } else {
                Exits::Outwards
            }
        }
    }
}

/// Leaves the text that is running: removes the frames above the innermost `run`, and that `run` too
/// if the status is not 0, or those down to the frame of a file. Without a `run` or a file the whole run
/// ends, in the modern shell also in the text of a file. In the modern shell it leaves the
/// innermost compound command in that text instead, if there is one.
pub(crate) fn leave_text<'d, S: Store>(store: &mut S, shell: Shell) -> Result<Step<'d>, StoreError>
    ensures { Comes result (S.record_of store.old) (S.record_of store.new)
        (left shell (S.record_of store.old).present.frames) }
{
    'frames: while let Some(frame) = store.top() {
        match exit_at(frame, shell) {
            Exits::Outwards => {
                store.pop()?;
            }
            Exits::Command => {
                let at = over(frame.at());
                let status = left_status(store.get_status());
                return finish(store, at, status);
            }
            Exits::Turns => {
                let status = left_status(store.get_status());
                return leave_with(store, status);
            }
            Exits::Text => {
                leave_run(store)?;
                return Ok(Step::Going);
            }
            Exits::File => return leave(store),
            Exits::Run => return Ok(Step::Ends(Halt::End(store.get_status()))),
        }
    }
    Ok(Step::Ends(Halt::End(store.get_status())))
}

/// Pushes a frame for the names of a `run`.
pub(crate) fn begin_run<'d, S: Store>(
    alloc: Global,
    store: &mut S,
    script: &Rc<Script>,
    names: &[Vec<u8>],
) -> Result<Step<'d>, StoreError>
    ensures { Comes result (S.record_of store.old) (S.record_of store.new)
        (GoOn (names_frame (view.script script.now.value) (bytes_of_words names.now)
        ∷ (S.record_of store.old).present.frames)) }
{
    let names = Rc::new(alloc, copied_words(alloc, names)?)?;
    store.push(Frame::with_words(FrameKind::Run, script.clone()?, names, place(0, 0)))?;
    Ok(Step::Going)
}
