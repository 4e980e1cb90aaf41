//! The run of one word.
ghost use Rattle.std.specs.Prelude.{◌≡◌, ◌++◌, [], map, codes, IfOk, IfErr};
ghost use Rattle.output.specs.Sink.{Prints};
ghost use Rattle.rehearse_rules.specs.Listing.{line};
ghost use Rattle.bootstore_state.specs.StoredState.{state_at};
ghost use Rattle.rehearse_machine.specs.Tasks.{task_in};
ghost use Rattle.rehearse_records.specs.Recording.{recorded};
ghost use Rattle.rehearse_records.specs.RunViewShown.{shown_word, shown_moment, shown_ending};
ghost use Rattle.rehearse_runs.specs.RunAlone.{BreaksAlone, WritesAlone};

use crate::ask::digits_of;
use crate::walking::{Walked, walk_to};
use bootstore_state::Store;
use output::{BytePage, Bytes, Out, OutFault, write_all};
use rehearse_machine::Rehearsal;
use rehearse_records::{RunView, write_record};
use rehearse_rules::RehearseError;

/// Writes the record of a run, and `done`.
fn write_one<S: Store, O: Out>(
    view: &RunView<'_, S>,
    names: &[&[u8]],
    out: &mut O,
) -> Result<(), OutFault>
    ensures { Prints result (O.sink out.old) (O.sink out.new)
        (recorded (shown_word view.now) (state_at (shown_moment S.Store view.now) [])
        (shown_ending view.now) (map (λ n. n.now) names.now)
        ++ line (codes "done")) }
{
    let mut page = BytePage::new();
    match write_record(view, names, &mut page, out) {
        Ok(()) => write_all(out, b"done\n"),
        Err(fault) => Err(fault),
    }
}

/// Runs a word, which is written as a listing prints it, and writes the record of its run, and
/// `done`. Errors: `Memory`, `NotARun`, `Write`.
pub(crate) fn write_run<S: Store, O: Out>(
    rehearsal: &Rehearsal<'_>,
    word: &[u8],
    names: &[&[u8]],
    out: &mut O,
) -> Result<(), RehearseError>
    ensures ok { IfOk result (λ _. WritesAlone (task_in rehearsal.now) word.now
        (map (λ n. n.now) names.now) (O.sink out.old) (O.sink out.new)) }
    ensures err { IfErr result
        (λ e. BreaksAlone (task_in rehearsal.now) word.now (map (λ n. n.now) names.now)
        (O.sink out.old) (O.sink out.new) e) }
{
    let _bound = rehearsal.bounds.devices();
    let mut store = S::new(rehearsal.alloc);
    let mut digits = Bytes::<1000>::new();
    let text = digits_of(word);
    let mut asks = Vec::new(rehearsal.alloc);
    let Ok(walked) = walk_to(rehearsal, &mut store, &mut digits, &mut asks, text) else {
        return Err(RehearseError::Memory);
    };
    match walked {
        Walked::Ends(halt) => {
            let view = RunView::new(text, halt.ending(), &store);
            match write_one(&view, names, out) {
                Ok(()) => Ok(()),
                Err(_) => Err(RehearseError::Write),
            }
        }
        Walked::Short => Err(RehearseError::NotARun),
        Walked::Long => Err(RehearseError::NotARun),
    }
}
