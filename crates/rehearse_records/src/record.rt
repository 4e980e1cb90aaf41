//! The record of a run.
ghost use Rattle.std.specs.Prelude.{◌≡◌, ◌++◌, [], map, codes, MatchBool};
ghost use Rattle.std.specs.List.{flat_map};
ghost use Rattle.std.specs.FinMap.{entries};
ghost use Rattle.text.specs.Escapes.{word_form};
ghost use Rattle.output.specs.Sink.{Prints};
ghost use Rattle.text.specs.TextsShown.{option_bytes};
ghost use Rattle.bootstore_state.specs.StoredState.{state_at};
ghost use Rattle.rehearse_rules.specs.Listing.{line, text_lines, written_lines, asked_line, saved_line, variable_lines, last_line};
ghost use Rattle.output.specs.Paging.{Puts};
ghost use Rattle.rehearse_records.specs.Recording.{printed, set_line, named_text, recorded};
ghost use Rattle.rehearse_records.specs.RunViewShown.{shown_word, shown_moment, shown_ending};
ghost use Rattle.rehearse_rules.specs.EndingsShown.{ending_shown};

use crate::line_pieces::{Piece, is_plain_text, is_plain_word, put_pieces};
use crate::run_view::RunView;
use bootstore_state::{Store, Variables};
use device_list::saved_of;
use output::{BytePage, Out, OutFault, flush, put};
use rehearse_rules::{Ending, finish_word};

/// Puts the first line of a record, with the digits of its word.
fn put_first<O: Out>(out: &mut O, page: &mut BytePage, word: &[u8]) -> Result<(), OutFault>
    ensures { Puts result (O.sink out.old) (O.sink out.new) page.old.items page.new.items
        (line (codes "run " ++ printed word.now)) }
{
    if word.is_empty() {
        return put(out, page, b"run .\n");
    }
    put_pieces(
        out,
        page,
        &[
            Piece::Plain(b"run "),
            Piece::Plain(word),
            Piece::Plain(b"\n"),
        ],
    )
}

/// Puts the line of what was printed, if it is not empty.
fn put_printed<O: Out>(out: &mut O, page: &mut BytePage, text: &[u8]) -> Result<(), OutFault>
    ensures { Puts result (O.sink out.old) (O.sink out.new) page.old.items page.new.items
        (flat_map line (text_lines text.now)) }
{
    if text.is_empty() {
        return Ok(());
    }
    put_pieces(
        out,
        page,
        &[
            Piece::Plain(b"text "),
            Piece::Text(text),
            Piece::Plain(b"\n"),
        ],
    )
}

/// Puts the line of what was printed, if that is kept and not empty.
fn put_written<O: Out>(
    out: &mut O,
    page: &mut BytePage,
    text: Option<&[u8]>,
) -> Result<(), OutFault>
    ensures { Puts result (O.sink out.old) (O.sink out.new) page.old.items page.new.items
        (flat_map line (written_lines (option_bytes text.entry))) }
{
    match text {
        Some(text) => put_printed(out, page, text),
        None => Ok(()),
    }
}

/// Puts the line of a variable that is set, if all of its bytes are printed as they are and fit the
/// page. Returns whether it did; if not, nothing changes.
#[inline(always)]
fn put_set_at_once(page: &mut BytePage, name: &[u8], value: &[u8]) -> bool
    ensures { MatchBool result (page.new.items ≡ page.old.items ++ set_line (name.now, value.now))
        (page.new.items ≡ page.old.items) }
{
    let room = page.room();
    if room < 6 || name.len() > room - 6 || value.len() > room - 6 - name.len() {
        return false;
    }
    if !is_plain_word(name) || !is_plain_text(value) {
        return false;
    }
    let _begun = page.extend(b"var ");
    let _named = page.extend(name);
    page.push(b'=');
    let _set = page.extend(value);
    page.push(b'\n');
    true
}

/// Puts the line of a variable that is set, at once or in pieces.
fn put_set_in_pieces<'x, O: Out>(
    out: &mut O,
    page: &mut BytePage,
    name: &'x [u8],
    value: &'x [u8],
) -> Result<(), OutFault>
    ensures { Puts result (O.sink out.old) (O.sink out.new) page.old.items page.new.items
        (set_line (name.now, value.now)) }
{
    if put_set_at_once(page, name, value) {
        return Ok(());
    }
    put_pieces(
        out,
        page,
        &[
            Piece::Plain(b"var "),
            Piece::Word(name),
            Piece::Plain(b"="),
            Piece::Text(value),
            Piece::Plain(b"\n"),
        ],
    )
}

/// Writes all bytes of the page, and puts the line of a variable that is set.
#[cold]
fn put_set_anew<'x, O: Out>(
    out: &mut O,
    page: &mut BytePage,
    name: &'x [u8],
    value: &'x [u8],
) -> Result<(), OutFault>
    ensures { Puts result (O.sink out.old) (O.sink out.new) page.old.items page.new.items
        (set_line (name.now, value.now)) }
{
    flush(out, page)?;
    put_set_in_pieces(out, page, name, value)
}

/// Puts the line of a variable that is set.
fn put_set<'x, O: Out>(
    out: &mut O,
    page: &mut BytePage,
    name: &'x [u8],
    value: &'x [u8],
) -> Result<(), OutFault>
    ensures { Puts result (O.sink out.old) (O.sink out.new) page.old.items page.new.items
        (set_line (name.now, value.now)) }
{
    if put_set_at_once(page, name, value) {
        Ok(())
    } else {
        put_set_anew(out, page, name, value)
    }
}

/// Puts a line that ends with a word in word form.
fn put_word_line<'x, O: Out>(
    out: &mut O,
    page: &mut BytePage,
    before: &'x [u8],
    word: &'x [u8],
) -> Result<(), OutFault>
    ensures { Puts result (O.sink out.old) (O.sink out.new) page.old.items page.new.items
        (line (before.now ++ word_form word.now)) }
{
    put_pieces(
        out,
        page,
        &[Piece::Plain(before), Piece::Word(word), Piece::Plain(b"\n")],
    )
}

/// Puts the lines of all variables.
fn put_all<O: Out>(
    out: &mut O,
    page: &mut BytePage,
    variables: Variables<'_>,
) -> Result<(), OutFault>
    ensures { Puts result (O.sink out.old) (O.sink out.new) page.old.items page.new.items
        (flat_map set_line variables.entry) }
{
    let mut variables = variables;
    while let Some((name, value)) = variables.next() {
        put_set(out, page, name, value)?;
    }
    Ok(())
}

/// Puts the line of what was saved of a variable, by the copy of it.
fn put_saved<'x, O: Out>(
    out: &mut O,
    page: &mut BytePage,
    name: &'x [u8],
    copy: &'x [u8],
) -> Result<(), OutFault>
    ensures { Puts result (O.sink out.old) (O.sink out.new) page.old.items page.new.items
        (line (saved_line name.now copy.now)) }
{
    match copy {
        [_, value @ ..] => put_pieces(
            out,
            page,
            &[
                Piece::Plain(b"saved "),
                Piece::Word(name),
                Piece::Plain(b"="),
                Piece::Text(value),
                Piece::Plain(b"\n"),
            ],
        ),
        [] => put_word_line(out, page, b"saved unset ", name),
    }
}

/// Puts the line of a variable: its value, or that it is not set.
fn put_variable<S: Store, O: Out>(
    out: &mut O,
    page: &mut BytePage,
    view: &RunView<'_, S>,
    name: &[u8],
) -> Result<(), OutFault>
    ensures { Puts result (O.sink out.old) (O.sink out.new) page.old.items page.new.items
        (line (asked_line (entries (shown_moment S.Store view.now).environment) name.now)) }
{
    match view.variable(name) {
        Some(value) => put_set(out, page, name, value),
        None => put_word_line(out, page, b"unset ", name),
    }
}

/// Puts the line of a variable that is asked for, or of what was saved of one: no line, if nothing
/// was.
fn put_asked<S: Store, O: Out>(
    out: &mut O,
    page: &mut BytePage,
    view: &RunView<'_, S>,
    name: &[u8],
) -> Result<(), OutFault>
    ensures { Puts result (O.sink out.old) (O.sink out.new) page.old.items page.new.items
        (named_text (entries (shown_moment S.Store view.now).environment) name.now) }
{
    let Some(variable) = saved_of(name) else {
        return put_variable(out, page, view, name);
    };
    match view.variable(name) {
        Some(copy) => put_saved(out, page, variable, copy),
        None => Ok(()),
    }
}

/// Puts the lines of the variables that are asked for.
fn put_named<S: Store, O: Out>(
    out: &mut O,
    page: &mut BytePage,
    view: &RunView<'_, S>,
    names: &[&[u8]],
) -> Result<(), OutFault>
    ensures { Puts result (O.sink out.old) (O.sink out.new) page.old.items page.new.items
        (flat_map (λ n. named_text (entries (shown_moment S.Store view.now).environment) n.now)
        names.now) }
{
    for name in names {
        put_asked(out, page, view, name)?;
    }
    Ok(())
}

/// Puts the lines of all variables, or of the variables that are asked for.
fn put_variables<S: Store, O: Out>(
    out: &mut O,
    page: &mut BytePage,
    view: &RunView<'_, S>,
    names: &[&[u8]],
) -> Result<(), OutFault>
    ensures { Puts result (O.sink out.old) (O.sink out.new) page.old.items page.new.items
        (flat_map line (variable_lines (entries (shown_moment S.Store view.now).environment)
        (map (λ n. n.now) names.now))) }
{
    if names.is_empty() {
        put_all(out, page, view.variables())
    } else {
        put_named(out, page, view, names)
    }
}

/// Puts the last line of a record.
fn put_last<O: Out>(out: &mut O, page: &mut BytePage, ending: Ending<'_>) -> Result<(), OutFault>
    ensures { Puts result (O.sink out.old) (O.sink out.new) page.old.items page.new.items
        (line (last_line (ending_shown ending.entry))) }
{
    let mut digits = itoa::Buffer::new();
    match ending {
        Ending::End(status) => {
            let status = digits.format(status).as_bytes();
            put_pieces(
                out,
                page,
                &[
                    Piece::Plain(b"end "),
                    Piece::Plain(status),
                    Piece::Plain(b"\n"),
                ],
            )
        }
        Ending::CutDevices => put(out, page, b"cut devices\n"),
        Ending::CutSteps => put(out, page, b"cut steps\n"),
        Ending::Unknown(name) => put_word_line(out, page, b"stop unknown ", name),
        Ending::Syntax(name) => put_word_line(out, page, b"stop syntax ", name),
        Ending::Unsupported(name) => put_word_line(out, page, b"stop unsupported ", name),
        Ending::Panic(name) => put_word_line(out, page, b"stop panic ", name),
        Ending::Size => put(out, page, b"stop size\n"),
        Ending::Finished(finish, name) => put_word_line(out, page, finish_word(finish), name),
    }
}

/// Puts the record of a run.
fn put_record<S: Store, O: Out>(
    out: &mut O,
    page: &mut BytePage,
    view: &RunView<'_, S>,
    names: &[&[u8]],
) -> Result<(), OutFault>
    ensures { Puts result (O.sink out.old) (O.sink out.new) page.old.items page.new.items
        (recorded (shown_word view.now) (state_at (shown_moment S.Store view.now) [])
        (shown_ending view.now) (map (λ n. n.now) names.now)) }
{
    put_first(out, page, view.word())?;
    put(out, page, view.log_lines())?;
    put_written(out, page, view.text())?;
    put_variables(out, page, view, names)?;
    put_last(out, page, view.ending())
}

/// Writes the record of a run. Takes no memory, but gathers bytes on a page, whatever that held. Errors:
/// `Failed`, with a prefix of the record written.
pub fn write_record<S: Store, O: Out>(
    view: &RunView<'_, S>,
    names: &[&[u8]],
    page: &mut BytePage,
    out: &mut O,
) -> Result<(), OutFault>
    ensures { Prints result (O.sink out.old) (O.sink out.new)
        (recorded (shown_word view.now) (state_at (shown_moment S.Store view.now) [])
        (shown_ending view.now) (map (λ n. n.now) names.now)) }
{
    page.clear();
    put_record(out, page, view, names)?;
    flush(out, page)
}
