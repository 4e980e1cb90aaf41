//! The command line of `ubtool`, as `clap` is given it.
ghost use Rattle.std.specs.Prelude.{◌≡◌, IfOk, find, map};
ghost use Rattle.std.specs.Option.{option_map};
ghost use Rattle.std.specs.Str.{bytes_eq};
ghost use Rattle.tool_words.specs.Arguments.{app_of_row, shape_of_row};
ghost use Rattle.tool_words.specs.CommandLine.{base, first_named, subcommands, ubtool_for};
ghost use Rattle.tool_words.specs.Made.{IsMade};

use crate::notes::UBTOOL_NOTES;
use crate::subcommand::{Subcommand, with_subcommands};
use crate::tables::SUBCOMMANDS;
use crate::version::VERSION;
use clap::Command;
use std::alloc::{AllocError, Global};
use std::convert::AsStr;

/// The program, without its subcommands.
fn base<'a>(alloc: Global) -> Result<Command<'a>, AllocError>
    ensures { IfOk result (IsMade base) }
{
    Command::new(alloc, "ubtool")
        .about("Print and change U-Boot environments, and rehearse their boot scripts")
        .after_help(UBTOOL_NOTES)
        .version(VERSION)
        .propagate_version(true)
        .no_binary_name(true)
        .subcommand_required(true)
        .disable_help_subcommand(true)
        .bin_name("ubtool")
}

/// The first row of this name.
fn row_named<'a>(rows: &[Subcommand<'a>], name: &str) -> Option<Subcommand<'a>>
    ensures { option_map app_of_row result
        ≡ find (λ sub. bytes_eq sub.top.name name.now) (map app_of_row rows.now) }
{
    for row in rows {
        if row.name == name {
            return Some(*row);
        }
    }
    None
}

/// The row of the subcommand that the first of the words names.
fn first_named<'a, S: AsStr>(rows: &[Subcommand<'a>], words: &[S]) -> Option<Subcommand<'a>>
    requires { map app_of_row rows.now ≡ subcommands }
    ensures { option_map app_of_row result ≡ first_named (map S.text words.now) }
{
    match words.first() {
        Some(word) => row_named(rows, word.as_str()),
        None => None,
    }
}

/// The program's command line for these words, with the rows of all subcommands.
fn ubtool_of<'a, S: AsStr>(
    alloc: Global,
    rows: &[Subcommand<'a>],
    words: &[S],
    as_tool: bool,
) -> Result<Command<'a>, AllocError>
    requires apps { map app_of_row rows.now ≡ subcommands }
    requires shapes { map shape_of_row rows.now ≡ map (λ sub. sub.top) subcommands }
    ensures { IfOk result (IsMade (ubtool_for (map S.text words.now))) }
{
    let command = base(alloc)?;
    match first_named(rows, words) {
        Some(row) => with_subcommands(alloc, command, &[row], as_tool),
        None => with_subcommands(alloc, command, rows, as_tool),
    }
}

/// The program's command line for these words: with the subcommand alone that the first of them names, or with all
/// subcommands if it names none. `clap` answers these words as if all were there, and so saves the time to describe
/// what they cannot ask for. If the program is called as one of U-Boot's tools, helps and usage lines name the tool.
pub(crate) fn ubtool_for<'a, S: AsStr>(
    alloc: Global,
    words: &[S],
    as_tool: bool,
) -> Result<Command<'a>, AllocError>
    ensures { IfOk result (IsMade (ubtool_for (map S.text words.now))) }
{
    ubtool_of(alloc, &SUBCOMMANDS, words, as_tool)
}
