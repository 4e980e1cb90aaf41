//! Writing the lines of a text.
ghost use Rattle.std.specs.Prelude.{◌≡◌, ◌++◌, codes};
ghost use Rattle.hushcheck.specs.Calls as calls;
ghost use Rattle.hushcheck.specs.Remarks as shown;
ghost use Rattle.hushcheck.specs.Report as spec;
ghost use Rattle.hushcheck.specs.Telling.{Writes};
ghost use Rattle.hushcheck.specs.Warnings.{blocks_of};
ghost use Rattle.text.specs.Escapes.{word_form};

use crate::check_error::CheckError;
use crate::lines::{push_fault, push_found, push_named};
use crate::place::{first_point, moved};
use crate::remark::Found;
use crate::watch::Warnings;
use hushlang::SyntaxError;
use output::{Out, write_all};
use std::alloc::Global;

/// Writes what was found in a text, word by word. It holds the lines of one word at a time.
pub(crate) fn write_found<O: Out>(
    alloc: Global,
    name: &[u8],
    text: &[u8],
    found: &[Found],
    out: &mut O,
) -> Result<(), CheckError>
    ensures { Writes result (O.sink out.old) (O.sink out.new)
        (calls.found_lines name.now text.now (shown.all_found found.now)) }
{
    let mut lines = Vec::new(alloc);
    let mut point = first_point(text);
    for word in found {
        point = moved(text, point, word.at);
        lines.clear();
        push_found(&mut lines, name, text, point, &word.remark)?;
        write_all(out, &lines)?;
    }
    Ok(())
}

/// Writes the first line of a well-formed text, and its warnings.
fn write_ok<O: Out>(
    alloc: Global,
    name: &[u8],
    text: &[u8],
    warnings: &[Found],
    out: &mut O,
) -> Result<(), CheckError>
    ensures { Writes result (O.sink out.old) (O.sink out.new) (word_form name.now
        ++ codes ": ok\n" ++ calls.found_lines name.now text.now (shown.all_found warnings.now)) }
{
    write_named(alloc, name, b": ok\n", out)?;
    write_found(alloc, name, text, warnings, out)
}

/// Writes the lines of a well-formed text, with these warnings, in whose calls this was found.
pub(crate) fn write_read<O: Out>(
    alloc: Global,
    name: &[u8],
    text: &[u8],
    warnings: &[Found],
    found: &[Found],
    out: &mut O,
) -> Result<(), CheckError>
    ensures { Writes result (O.sink out.old) (O.sink out.new) (word_form name.now
        ++ codes ": ok\n" ++ calls.found_lines name.now text.now (shown.all_found warnings.now)
        ++ calls.found_lines name.now text.now (shown.all_found found.now)) }
{
    write_ok(alloc, name, text, warnings, out)?;
    write_found(alloc, name, text, found, out)
}

/// Writes what is wrong with a text, in which these words are after blocks without a command.
fn write_wrong<O: Out>(
    alloc: Global,
    name: &[u8],
    text: &[u8],
    blocks: &[usize],
    error: SyntaxError,
    out: &mut O,
) -> Result<(), CheckError>
    requires { blocks.now ≡ blocks_of text.now }
    ensures { Writes result (O.sink out.old) (O.sink out.new)
        (spec.fault_lines name.now text.now error) }
{
    let mut lines = Vec::new(alloc);
    push_fault(&mut lines, name, text, blocks, error)?;
    write_all(out, &lines)?;
    Ok(())
}

/// Writes the lines of a text that is not well-formed, with these warnings.
pub(crate) fn write_fault<O: Out>(
    alloc: Global,
    name: &[u8],
    text: &[u8],
    warnings: &Warnings,
    error: SyntaxError,
    out: &mut O,
) -> Result<(), CheckError>
    requires { warnings.now.blocks.items ≡ blocks_of text.now }
    ensures { Writes result (O.sink out.old) (O.sink out.new)
        (spec.fault_lines name.now text.now error
        ++ calls.found_lines name.now text.now (shown.all_found warnings.now.found.items)) }
{
    write_wrong(alloc, name, text, &warnings.blocks, error, out)?;
    write_found(alloc, name, text, &warnings.found, out)
}

/// Writes a line that starts with a name.
fn write_named<O: Out>(
    alloc: Global,
    name: &[u8],
    rest: &[u8],
    out: &mut O,
) -> Result<(), CheckError>
    ensures { Writes result (O.sink out.old) (O.sink out.new) (word_form name.now ++ rest.now) }
{
    let mut lines = Vec::new(alloc);
    push_named(&mut lines, name, rest)?;
    write_all(out, &lines)?;
    Ok(())
}

/// Writes the line of a variable that is not set.
pub(crate) fn write_unset<O: Out>(alloc: Global, name: &[u8], out: &mut O) -> Result<(), CheckError>
    ensures { Writes result (O.sink out.old) (O.sink out.new)
        (word_form name.now ++ codes ": not set\n") }
{
    write_named(alloc, name, b": not set\n", out)
}
