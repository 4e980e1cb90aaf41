//! The lines of the device commands whose answers are unexpected on the way through a flow.
ghost use Rattle.std.specs.Prelude.{◌≡◌, ◌∷◌, ◌++◌, [], OnOk, map, option_map};
ghost use Rattle.text.specs.TextsShown.{bytes_of_words};
ghost use Rattle.rehearse_rules.specs.Execution.{outcome_when};
ghost use Rattle.rehearse_states.specs.Flow.{next, numbered, walk};
ghost use Rattle.rehearse_states.specs.Drawing.{node_shown};
ghost use Rattle.rehearse_rules.specs.Listing.{line};
ghost use Rattle.rehearse_rules.specs.Expected.{unexpected_of};
ghost use Rattle.rehearse_states.specs.EndingLines.{answer_text, fails_lines, fails_text};

use crate::ending_lines::put;
use crate::flow::Node;
use crate::flow_lines::put_words;
use bootstore_state::StoreError;
use device_list::Devices;

/// The node of a line; lines count from 1.
fn node_at(nodes: &[Node], number: usize) -> Option<&Node>
    ensures { option_map (λ node. node_shown node.now) result
        ≡ numbered (map node_shown nodes.now) number }
{
    let place = number.checked_sub(1)?;
    nodes.get(place)
}

/// The line that follows the success or the failure.
fn next_of(success: bool, won: usize, lost: usize) -> usize
    ensures { result ≡ next (outcome_when success) won lost }
{
    if success { won } else { lost }
}

/// Adds the word for an answer, and a space.
fn put_answer(text: &mut Vec<u8>, success: bool) -> Result<(), StoreError>
    ensures { OnOk result (text.new.items ≡ text.old.items ++ answer_text success) }
{
    if success {
        put(text, b"succeeds ")
    } else {
        put(text, b"fails ")
    }
}

/// Adds the line of a device command with this answer.
pub fn put_fail(text: &mut Vec<u8>, success: bool, words: &[Vec<u8>]) -> Result<(), StoreError>
    ensures { OnOk result (text.new.items
        ≡ text.old.items ++ line (fails_text (success, bytes_of_words words.now))) }
{
    put_answer(text, success)?;
    put_words(text, words)?;
    put(text, b"\n")
}

/// Adds the line of a device command, if its answer is unexpected.
fn put_if_unexpected(
    text: &mut Vec<u8>,
    devices: &Devices,
    success: bool,
    words: &[Vec<u8>],
) -> Result<(), StoreError>
    ensures { OnOk result (text.new.items ≡ text.old.items
        ++ fails_lines (unexpected_of devices.now ((success, bytes_of_words words.now) ∷ []))) }
{
    let Some(answer) = devices.expected(words) else {
        return Ok(());
    };
    if answer == success {
        return Ok(());
    }
    put_fail(text, success, words)
}

/// Adds a line for each device command whose answer is unexpected on the way from a line of a flow
/// by these outcomes.
pub(crate) fn put_fails(
    text: &mut Vec<u8>,
    devices: &Devices,
    nodes: &[Node],
    outcomes: &[bool],
    number: usize,
) -> Result<(), StoreError>
    ensures { OnOk result (text.new.items ≡ text.old.items
        ++ fails_lines (unexpected_of devices.now (walk (numbered (map node_shown nodes.now))
        (map outcome_when outcomes.now) number).log)) }
{
    let Some((success, rest)) = outcomes.split_first() else {
        return Ok(());
    };
    let Some(
        Node::Asks {
            words,
            success: won,
            failure: lost,
        },
    ) = node_at(nodes, number)
    else {
        return Ok(());
    };
    put_if_unexpected(text, devices, *success, words)?;
    put_fails(text, devices, nodes, rest, next_of(*success, *won, *lost))
}
