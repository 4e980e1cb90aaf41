//! What the words of any program ask for, if `clap` reads them.
ghost use Rattle.std.specs.Prelude.{◌≡◌, map, true};
ghost use Rattle.clap.specs.Words.{HasMatchesOf, app_of, is_simple_and_free, kind_of};
ghost use Rattle.tool_words.specs.Answered.{AnswersBy, Reports};

use crate::ask::UseError;
use clap::error::ErrorKind;
use clap::{ArgMatches, Command};
use std::alloc::Global;
use std::convert::AsStr;

/// What the words of a call ask for.
#[derive(Debug, Drop)]
pub enum Answer<T> {
    /// To do what a program is for.
    Asks(T),
    /// To read the help, which this text is.
    Help(String),
    /// To read the version.
    Version,
}

/// The answer if `clap` refuses the words, or shows its help or the version.
fn report<T>(alloc: Global, error: &clap::Error) -> Result<Answer<T>, UseError>
    ensures { Reports (kind_of error.now) result }
{
    match error.kind() {
        ErrorKind::OutOfMemory => Err(UseError::Memory),
        ErrorKind::DisplayHelp => Ok(Answer::Help(error.to_string(alloc)?)),
        ErrorKind::DisplayVersion => Ok(Answer::Version),
        _ => Err(UseError::Line(error.to_string(alloc)?)),
    }
}

/// Reads the words after a program's name. Refusals of `clap` are a `Line`. `Memory` is returned if a
/// growth is refused.
pub fn parse<'a, S: AsStr>(
    alloc: Global,
    app: Command<'a>,
    words: &'a [S],
) -> Result<Answer<ArgMatches<'a>>, UseError>
    requires { is_simple_and_free (app_of app) ≡ true }
    ensures { AnswersBy (app_of app.entry) (map S.text words.now)
        (HasMatchesOf (app_of app.entry) (map S.text words.now)) result }
{
    match app.try_get_matches_from(words) {
        Ok(matches) => Ok(Answer::Asks(matches)),
        Err(error) => report(alloc, &error),
    }
}
