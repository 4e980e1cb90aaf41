//! Kinds of arguments.
ghost use Rattle.std.specs.Prelude.{◌≡◌, false};
ghost use Rattle.clap.specs.Words.{rule_of};
ghost use Rattle.tool_words.specs.Arguments.{long_flag, long_option, many, number_option, one, repeated_option};

use clap::builder::ValueParser;
use clap::{Arg, ArgAction};
use std::alloc::Global;

/// The option `--word VALUE`.
pub(crate) fn long_option<'a>(alloc: Global, id: &'a str, value: &'a str) -> Arg<'a>
    ensures rule { rule_of result ≡ long_option id.entry.now }
    ensures local { result.global ≡ false }
{
    Arg::new(alloc, id).long(id).value_name(value)
}

/// The option `--word VALUE`, as often as it is given.
pub(crate) fn repeated_option<'a>(alloc: Global, id: &'a str, value: &'a str) -> Arg<'a>
    ensures rule { rule_of result ≡ repeated_option id.entry.now }
    ensures local { result.global ≡ false }
{
    long_option(alloc, id, value).action(ArgAction::Append)
}

/// The option `--word VALUE`, a whole number in this range.
pub(crate) fn number_option<'a>(
    alloc: Global,
    id: &'a str,
    value: &'a str,
    least: u32,
    most: u32,
) -> Arg<'a>
    ensures rule { rule_of result ≡ number_option id.entry.now least most }
    ensures local { result.global ≡ false }
{
    let range = ValueParser::signed(i64::from(least), i64::from(most));
    long_option(alloc, id, value).value_parser(range)
}

/// The flag `--word`.
pub(crate) fn long_flag<'a>(alloc: Global, id: &'a str) -> Arg<'a>
    ensures rule { rule_of result ≡ long_flag id.entry.now }
    ensures local { result.global ≡ false }
{
    Arg::new(alloc, id).long(id).action(ArgAction::SetTrue)
}

/// The word `[NAME]`.
pub(crate) fn one<'a>(alloc: Global, id: &'a str, value: &'a str) -> Arg<'a>
    ensures rule { rule_of result ≡ one id.entry.now }
    ensures local { result.global ≡ false }
{
    Arg::new(alloc, id).value_name(value)
}

/// The words `[NAME]..`.
pub(crate) fn many<'a>(alloc: Global, id: &'a str, value: &'a str) -> Arg<'a>
    ensures rule { rule_of result ≡ many id.entry.now }
    ensures local { result.global ≡ false }
{
    one(alloc, id, value).action(ArgAction::Append)
}
