//! Lines `or`: a further file for the calls of the line before.
ghost use Rattle.std.specs.Prelude.{◌≡◌, IfOk};
ghost use Rattle.std.specs.List.{list_all};
ghost use Rattle.commands.specs.TextsShown.{texts};
ghost use Rattle.device_list.specs.CallLines.{is_continued, is_file_byte, is_only_run, is_plain_file, further_line, further_lines};
ghost use Rattle.device_list.specs.DeviceList.{question_of};
ghost use Rattle.device_list.specs.CommandsShown.{line_shown, lines_shown, listed_shown, said_shown, IsFurther};

use crate::call_line::{Call, CallLine};
use crate::listed::Listed;
use crate::pattern::Pattern;
use std::alloc::{AllocError, Global};

/// Whether the name of a file that is asked for may have a byte.
fn is_file_byte(byte: u8) -> bool
    ensures { result ≡ is_file_byte byte }
{
    matches!(byte, b'0'..=b'9' | b'a'..=b'z' | b'A'..=b'Z' | b'-'..=b'/' | b'_')
}

/// Whether a file can be asked for by its name.
fn is_plain_file(name: &[u8]) -> bool
    ensures { result ≡ is_plain_file name.now }
{
    name.iter().all(|byte| is_file_byte(*byte))
}

/// Whether each of these files can be.
fn are_plain_files(names: &[Vec<u8>]) -> bool
    ensures { result ≡ list_all is_plain_file (texts names.now) }
{
    for name in names {
        if !is_plain_file(name) {
            return false;
        }
    }
    true
}

/// Whether a line says that a file runs, and nothing else.
fn is_only_run(listed: &Listed) -> bool
    ensures { result ≡ is_only_run (listed_shown listed.now) }
{
    listed.ends.is_none()
        && !listed.stays
        && listed.always.is_none()
        && listed.needs.is_empty()
        && !listed.normal
        && listed.runs.len() == 1
        && listed.sets.is_empty()
}

/// Whether a further line goes on from a line of calls.
fn is_continued(line: &CallLine, further: &CallLine) -> bool
    ensures { result ≡ is_continued (line_shown line.now) (line_shown further.now) }
{
    is_only_run(&further.listed)
        && line.pattern.is_same(&further.pattern)
        && !line.listed.runs.is_empty()
        && are_plain_files(&line.listed.runs)
}

/// Adds the file of a further line to a line of calls, if it goes on from it. Returns the file that the line
/// named last. Errors: memory ran out.
fn add_file(
    alloc: Global,
    line: &mut CallLine,
    mut further: CallLine,
) -> Result<Option<Vec<u8>>, AllocError>
    ensures { IfOk result (IsFurther (further_line (line_shown line.old) (line_shown further)) (line_shown line.new)) }
{
    if !is_continued(line, &further) {
        return Ok(None);
    }
    let Some(last) = line.listed.runs.last() else {
        return Ok(None);
    };
    let before = Vec::from_slice(alloc, last)?;
    line.listed.runs.append(&mut further.listed.runs)?;
    Ok(Some(before))
}

/// Adds the file of a further line to the last of these, if it goes on from it. Returns the file that this
/// named last. Errors: memory ran out.
pub(crate) fn go_on(
    alloc: Global,
    lines: &mut Vec<CallLine>,
    further: CallLine,
) -> Result<Option<Vec<u8>>, AllocError>
    ensures { IfOk result (IsFurther (further_lines (lines_shown lines.old) (line_shown further)) (lines_shown lines.new)) }
{
    let Some(mut line) = lines.pop() else {
        return Ok(None);
    };
    let before = add_file(alloc, &mut line, further)?;
    lines.push(line)?;
    Ok(before)
}

/// The line of calls that asks whether a file runs. Errors: memory ran out.
pub(crate) fn question_of(alloc: Global, file: Vec<u8>) -> Result<Call<'static>, AllocError>
    ensures { IfOk result (λ call. said_shown call ≡ question_of file.items) }
{
    let pattern = Pattern::exactly(alloc, file)?;
    let listed = Listed {
        ends: None,
        stays: true,
        always: None,
        needs: Vec::new(alloc),
        normal: false,
        runs: Vec::new(alloc),
        sets: Vec::new(alloc),
    };
    let line = CallLine { pattern, listed };
    Ok(Call {
        name: b"runs".as_slice(),
        line,
    })
}
