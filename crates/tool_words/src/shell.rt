//! Reads by the rules of which shell the scripts are to run.
ghost use Rattle.std.specs.Prelude.{◌≡◌};
ghost use Rattle.clap.specs.Words.{found_of, rows_of};
ghost use Rattle.rehearse_terms.specs.Bounds.{in_shell};
ghost use Rattle.rehearse_terms.specs.WantedShown.{wanted_bounds, wanted_strings};
ghost use Rattle.tool_words.specs.Asked.{shell_named, shell_of};
ghost use Rattle.tool_words.specs.CommandAnswers.{IsUnread};

use crate::ask::UseError;
use clap::ArgMatches;
use rehearse_terms::{Shell, Wanted};
use std::alloc::Global;

/// The shell of this name.
fn shell_named(name: &str) -> Option<Shell>
    ensures { result ≡ shell_named name.now }
{
    match name {
        "profile" => Some(Shell::Profile),
        "old-2023.01" => Some(Shell::Old2023),
        "old-2025.01" => Some(Shell::Old2025),
        "old" => Some(Shell::Old2025),
        "modern-2025.01" => Some(Shell::Modern2025),
        "modern" => Some(Shell::Modern2025),
        _ => None,
    }
}

/// The shell by whose rules the scripts run, ubtool's own if none is given; `None` if no shell has the name.
pub(crate) fn shell_of(matches: &ArgMatches<'_>) -> Option<Shell>
    ensures { result ≡ shell_of (rows_of (found_of matches.now)) }
{
    match matches.get_str("shell") {
        Some(name) => shell_named(name),
        None => Some(Shell::Profile),
    }
}

/// The refusal of a name that no shell has, which `clap` accepts. It reads as `clap` would refuse it.
pub(crate) fn unnamed(alloc: Global, matches: &ArgMatches<'_>) -> UseError
    ensures { IsUnread result }
{
    let name = matches.get_str("shell").unwrap_or("");
    let text = format!(in alloc;
        "error: invalid value '{name}' for '--shell <NAME>'\n  \
        [possible values: profile, old-2023.01, old-2025.01, old, modern-2025.01, modern]\n\n\
        For more information, try '--help'.\n"
    );
    match text {
        Ok(text) => UseError::Line(text),
        Err(_) => UseError::Memory,
    }
}

/// The same runs, by the rules of this shell.
pub(crate) fn wanted_in_shell(wanted: Wanted<String>, shell: Shell) -> Wanted<String>
    ensures bounds { wanted_bounds result ≡ in_shell shell (wanted_bounds wanted) }
    ensures runs { wanted_strings result ≡ wanted_strings wanted }
{
    match wanted {
        Wanted::Listing {
            bounds,
            after,
            page,
        } => Wanted::Listing {
            bounds: bounds.in_shell(shell),
            after,
            page,
        },
        Wanted::Word { bounds, word } => Wanted::Word {
            bounds: bounds.in_shell(shell),
            word,
        },
    }
}
