//! Reads the words of a call.
ghost use Rattle.std.specs.Prelude.{◌≡◌, IfOk, codes, map, string_bytes};
ghost use Rattle.clap.specs.Words.{found_of, rows_of};
ghost use Rattle.clap.specs.Words.{first_of};
ghost use Rattle.hushcheck_program.specs.CommandAnswers.{Answers, Says};
ghost use Rattle.hushcheck_program.specs.Asked as spec;
ghost use Rattle.hushcheck_program.specs.Asked.{asked_of, has_script, is_given, is_mixed_in, is_unlisted, or_bootcmd, shell_by};
ghost use Rattle.tool_words.specs.Asked.{shell_named, values_of};
ghost use Rattle.tool_words.specs.CommandAnswers.{IsUnread};

use crate::ask::{Ask, CheckAsk};
use crate::command::hushcheck;
use clap::ArgMatches;
use rehearse_terms::Shell;
use std::alloc::{AllocError, Global};
use std::convert::AsStr;
use tool_words::{
    Answer, DEFAULT_VARIABLE, UseError, is_set, order_of, origin_beside, parse, text_of, texts_of,
};

/// The variables that are named. If none is, and nothing other is to be checked, it is the one that boots.
fn names_of(alloc: Global, matches: &ArgMatches<'_>, other: bool) -> Result<Vec<String>, AllocError>
    ensures { IfOk result (λ names. map string_bytes names.items
        ≡ or_bootcmd other (values_of (codes "names") (rows_of (found_of matches.now)))) }
{
    let mut names = texts_of(alloc, matches, "names")?;
    if names.is_empty() && !other {
        names.push(String::from_str(alloc, DEFAULT_VARIABLE)?)?;
    }
    Ok(names)
}

/// Whether a variable is named beside a script. Errors: memory ran out.
fn is_mixed(alloc: Global, matches: &ArgMatches<'_>) -> Result<bool, AllocError>
    ensures { IfOk result (λ mixed. mixed ≡ is_mixed_in (rows_of (found_of matches.now))) }
{
    let names = texts_of(alloc, matches, "names")?;
    Ok(!names.is_empty() && has_script(matches))
}

/// Whether an option is given.
fn is_given(matches: &ArgMatches<'_>, option: &str) -> bool
    ensures { result ≡ is_given option.now (rows_of (found_of matches.now)) }
{
    match matches.get_str(option) {
        Some(_) => true,
        None => false,
    }
}

/// Whether a script is given.
fn has_script(matches: &ArgMatches<'_>) -> bool
    ensures { result ≡ has_script (rows_of (found_of matches.now)) }
{
    is_given(matches, "script")
}

/// Whether a folder of files is given without the device list that would name them.
fn is_unlisted(matches: &ArgMatches<'_>) -> bool
    ensures { result ≡ is_unlisted (rows_of (found_of matches.now)) }
{
    is_given(matches, "files") && !is_given(matches, "device-list")
}

/// The refusal of a variable that is named beside a script, which `clap` accepts. It reads as `clap` would
/// refuse it.
fn mixed(alloc: Global) -> UseError
    ensures { IsUnread result }
{
    let text = String::from_str(
        alloc,
        "error: the argument '--script <FILE>' cannot be used with '[NAME]...'\n\n\
        For more information, try '--help'.\n",
    );
    match text {
        Ok(text) => UseError::Line(text),
        Err(_) => UseError::Memory,
    }
}

/// The refusal of a folder of files without a device list, which `clap` accepts. It reads as `clap` would
/// refuse it.
fn unlisted(alloc: Global) -> UseError
    ensures { IsUnread result }
{
    let text = String::from_str(
        alloc,
        "error: the argument '--files <FOLDER>' needs '--device-list <FILE>'\n\n\
        For more information, try '--help'.\n",
    );
    match text {
        Ok(text) => UseError::Line(text),
        Err(_) => UseError::Memory,
    }
}

/// The shell of this name.
fn shell_named(name: &str) -> Option<Shell>
    ensures { result ≡ shell_named name.now }
{
    match name {
        "profile" => Some(Shell::Profile),
        "old-2023.01" => Some(Shell::Old2023),
        "old-2025.01" => Some(Shell::Old2025),
        "old" => Some(Shell::Old2025),
        "modern-2025.01" => Some(Shell::Modern2025),
        "modern" => Some(Shell::Modern2025),
        _ => None,
    }
}

/// The shell of this name, as one that is named; `None` if no shell has it.
fn some_shell(name: &str) -> Option<Option<Shell>>
    ensures { result ≡ spec.some_shell name.now }
{
    match shell_named(name) {
        Some(shell) => Some(Some(shell)),
        None => None,
    }
}

/// The shell that is named, if one is; `None` if no shell has the name.
fn shell_of(matches: &ArgMatches<'_>) -> Option<Option<Shell>>
    ensures { result ≡ shell_by (first_of (codes "shell") (rows_of (found_of matches.now))) }
{
    match matches.get_str("shell") {
        Some(name) => some_shell(name),
        None => Some(None),
    }
}

/// The refusal of a name that no shell has, which `clap` accepts. It reads as `clap` would refuse
/// it.
fn unnamed(alloc: Global, matches: &ArgMatches<'_>) -> UseError
    ensures { IsUnread result }
{
    let name = matches.get_str("shell").unwrap_or("");
    let text = format!(in alloc;
        "error: invalid value '{name}' for '--shell <NAME>'\n  \
        [possible values: profile, old-2023.01, old-2025.01, old, modern-2025.01, modern]\n\n\
        For more information, try '--help'.\n"
    );
    match text {
        Ok(text) => UseError::Line(text),
        Err(_) => UseError::Memory,
    }
}

/// What the entries ask for. Errors: a variable is named beside a script, a folder of files is given without a
/// device list, or no shell has the name that is given, each as a `Line`; then `Misnamed`, if the words that name the images do not go together; or memory ran
/// out.
fn ask_of(alloc: Global, matches: &ArgMatches<'_>) -> Result<Ask, UseError>
    ensures { Says (asked_of (rows_of (found_of matches.now))) result }
{
    if is_mixed(alloc, matches)? {
        return Err(mixed(alloc));
    }
    if is_unlisted(matches) {
        return Err(unlisted(alloc));
    }
    let Some(shell) = shell_of(matches) else {
        return Err(unnamed(alloc, matches));
    };
    let all = is_set(matches, "all");
    Ok(Ask {
        origin: origin_beside(alloc, matches)?,
        devices_file: text_of(alloc, matches, "device-list")?,
        what: CheckAsk {
            files: text_of(alloc, matches, "files")?,
            script: text_of(alloc, matches, "script")?,
            names: names_of(alloc, matches, all || has_script(matches))?,
            all,
            shell,
            strict: is_set(matches, "strict"),
        },
        order: order_of(matches),
    })
}

/// Reads the words after the program's name. Errors: `clap` refuses the words, a variable is named beside a
/// script, a folder of files is given without a device list, or no shell has the name that is given, each as a
/// `Line`; then `Misnamed`, if the words that name the images do not go together; or memory ran out.
pub fn read_words<S: AsStr>(alloc: Global, words: &[S]) -> Result<Answer<Ask>, UseError>
    ensures { Answers (map S.text words.now) result }
{
    match parse(alloc, hushcheck(alloc)?, words) {
        Ok(Answer::Asks(matches)) => Ok(Answer::Asks(ask_of(alloc, &matches)?)),
        Ok(Answer::Help(text)) => Ok(Answer::Help(text)),
        Ok(Answer::Version) => Ok(Answer::Version),
        Err(error) => Err(error),
    }
}
