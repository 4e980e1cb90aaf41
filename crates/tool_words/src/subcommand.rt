//! Subcommands by rows.
ghost use Rattle.std.specs.Prelude.{IfOk, map};
ghost use Rattle.clap.specs.Words.{new_app, with_subcommand};
ghost use Rattle.tool_words.specs.Arguments.{Adds, app_of_row, shape_of_row};
ghost use Rattle.tool_words.specs.Made.{IsMade};

use crate::argument::{Argument, with_arguments};
use clap::Command;
use std::alloc::{AllocError, Global};

/// What differs in the help of a subcommand if the program is called as one of U-Boot's tools, which is this subcommand
/// alone.
#[derive(Clone, Copy)]
pub(crate) struct Tool<'a> {
    /// Its usage, which names the tool.
    pub(crate) usage: &'a str,
    /// What follows the options in its help.
    pub(crate) notes: &'a str,
}

/// A row: a subcommand.
#[derive(Clone, Copy)]
pub(crate) struct Subcommand<'a> {
    /// Its name.
    pub(crate) name: &'a str,
    /// What the help says of it, in a line.
    pub(crate) about: &'a str,
    /// What follows the options in its help.
    pub(crate) notes: &'a str,
    /// Its arguments.
    pub(crate) arguments: &'a [Argument<'a>],
    /// The tool that it is, if it is one.
    pub(crate) tool: Option<Tool<'a>>,
}

/// The subcommand of a row, without its arguments; as a tool, if it is to be and there is one.
fn described<'a>(alloc: Global, row: &Subcommand<'a>, as_tool: bool) -> Command<'a>
    ensures { IsMade (new_app row.now.name.now) result }
{
    let command = Command::new(alloc, row.name).about(row.about);
    match row.tool {
        Some(tool) if as_tool => command.override_usage(tool.usage).after_help(tool.notes),
        _ => command.after_help(row.notes),
    }
}

/// The subcommand of a row.
fn made<'a>(alloc: Global, row: &Subcommand<'a>, as_tool: bool) -> Result<Command<'a>, AllocError>
    ensures { IfOk result (IsMade (app_of_row row.now)) }
{
    let command = described(alloc, row, as_tool);
    with_arguments(alloc, command, row.arguments)
}

/// The command with the subcommands of a table after its own, in the table's order. If the program is
/// called as a tool, the helps name the tools.
pub(crate) fn with_subcommands<'a>(
    alloc: Global,
    command: Command<'a>,
    rows: &[Subcommand<'a>],
    as_tool: bool,
) -> Result<Command<'a>, AllocError>
    ensures { IfOk result (Adds with_subcommand command.entry (map shape_of_row rows.now)) }
{
    let mut command = command;
    for row in rows {
        let sub = made(alloc, row, as_tool)?;
        command = command.subcommand(sub)?;
    }
    Ok(command)
}
