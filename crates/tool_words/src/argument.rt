//! Arguments by rows: a command's arguments are a table, and `clap` is given what the rows say.
ghost use Rattle.std.specs.Prelude.{◌≡◌, IfOk, false, map};
ghost use Rattle.clap.specs.Words.{rule_of, with_rule};
ghost use Rattle.tool_words.specs.Arguments.{Adds, rule_of_form, rule_of_row, unaliased};

use crate::kinds::{long_flag, long_option, many, number_option, one, repeated_option};
use clap::{Arg, Command};
use std::alloc::{AllocError, Global};

/// What an argument looks like among the words.
#[derive(Clone, Copy)]
pub enum Form {
    /// The flag `--word`.
    Flag,
    /// The option `--word VALUE`.
    Value,
    /// The option `--word VALUE`, as often as it is given.
    Values,
    /// The option `--word VALUE`, a whole number from the first to the second.
    Number(u32, u32),
    /// The word `[NAME]`.
    Word,
    /// The words `[NAME]..`.
    Words,
}

/// A row: an argument of a command.
#[derive(Clone, Copy)]
pub struct Argument<'a> {
    /// What its values are read back by; of a flag or an option, the long form without `--`.
    pub id: &'a str,
    /// What it looks like among the words.
    pub form: Form,
    /// The letter of the short form.
    pub letter: Option<char>,
    /// A second long form, without `--`, which the help leaves out.
    pub alias: Option<&'a str>,
    /// Whether each call needs it.
    pub required: bool,
    /// What the help calls its value.
    pub value: &'a str,
    /// What the help says of it.
    pub help: &'a str,
}

/// An argument of this form, without its letter.
fn formed<'a>(alloc: Global, row: &Argument<'a>) -> Arg<'a>
    ensures rule { rule_of result ≡ rule_of_form row.now.form row.now.id.now }
    ensures local { result.global ≡ false }
{
    match row.form {
        Form::Flag => long_flag(alloc, row.id),
        Form::Value => long_option(alloc, row.id, row.value),
        Form::Values => repeated_option(alloc, row.id, row.value),
        Form::Number(least, most) => number_option(alloc, row.id, row.value, least, most),
        Form::Word => one(alloc, row.id, row.value),
        Form::Words => many(alloc, row.id, row.value),
    }
}

/// The argument of a row, without its second long form.
fn unaliased<'a>(alloc: Global, row: &Argument<'a>) -> Arg<'a>
    ensures rule { rule_of result ≡ unaliased row.now }
    ensures local { result.global ≡ false }
{
    let arg = formed(alloc, row).required(row.required).help(row.help);
    match row.letter {
        Some(letter) => arg.short(letter),
        None => arg,
    }
}

/// The argument of a row.
fn arg_of<'a>(alloc: Global, row: &Argument<'a>) -> Result<Arg<'a>, AllocError>
    ensures { IfOk result (λ a. (rule_of a ≡ rule_of_row row.now) × (a.global ≡ false)) }
{
    let arg = unaliased(alloc, row);
    match row.alias {
        Some(alias) => arg.alias(alias),
        None => Ok(arg),
    }
}

/// The command with the arguments of a table after its own, in the table's order.
pub fn with_arguments<'a>(
    alloc: Global,
    command: Command<'a>,
    rows: &[Argument<'a>],
) -> Result<Command<'a>, AllocError>
    ensures { IfOk result (Adds with_rule command.entry (map rule_of_row rows.now)) }
{
    let mut command = command;
    for row in rows {
        let arg = arg_of(alloc, row)?;
        command = command.arg(arg)?;
    }
    Ok(command)
}
