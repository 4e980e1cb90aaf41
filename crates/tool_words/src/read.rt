//! Reads the words of a call.
ghost use Rattle.std.specs.Prelude.{◌≡◌, ◌≤◌, Bool, Some, None, codes, IfOk, IfSome, map, option_map, option_and_then, string_bytes};
ghost use Rattle.rehearse_terms.specs.Asking.{page_of};
ghost use Rattle.rehearse_terms.specs.Asking.{HasRoom};
ghost use Rattle.clap.specs.Words.{Text, first_of, found_of, rows_of, subcommand_rows_of};
ghost use Rattle.envimage.specs.declared.image.ByteOrder.{ByteOrder as Order};
ghost use Rattle.tool_words.specs.Asked.{OriginShown, asked_of, boots_asked, boots_what, bounds_or, cause_bounds_asked, causes_asked, config_of, endings_asked, fill_of, has_no_folder, image_asked, inspect_asked, is_set, limits_asked, list_asked, lock_of, number_given, number_of, number_within, numbers_asked, order_of, page_asked, print_asked, rehearse_asked, script_asked, set_asked, size_of, values_of, variable_named, variable_of, wanted_asked, wanted_by};
ghost use Rattle.rehearse_terms.specs.WantedShown.{wanted_strings};
ghost use Rattle.tool_words.specs.declared.ask.UseError.TheVariants.{Memory};
ghost use Rattle.tool_words.specs.CommandAnswers.{Answers, IsUnread, NamesLock, Says, SaysWanted, boots_of, change_of, expected_shown};

use crate::answer::{Answer, parse};
use crate::ask::{
    Ask, BootNumbers, BootsAsk, CausesAsk, Change, DEFAULT_BOOTS, DEFAULT_CAUSE_FAILURES,
    DEFAULT_CONFIG, DEFAULT_DEVICES, DEFAULT_MEMORY, DEFAULT_RUN_DEVICES, DEFAULT_RUN_STEPS,
    DEFAULT_STATES, DEFAULT_STEPS, DEFAULT_VARIABLE, DEFAULT_WORK, EndingsAsk, ExpectedAsk,
    ImageAsk, Limits, PrintAsk, RehearseAsk, Taking, UseError,
};
use crate::called::CalledAs;
use crate::command::ubtool_for;
use crate::expected::{expected_of, with_expected};
use crate::number::{any_number, byte_of};
use crate::origin::{images_of, inputs_of, origin_of};
use crate::shell::{shell_of, unnamed, wanted_in_shell};
use crate::{ALTERNATIVES_MAX, CAUSE_FAILURES_MAX, FAILURES_MAX};
use clap::ArgMatches;
use clap::error::ErrorKind;
use envimage::ByteOrder;
use envtools::PrintForm;
use rehearse_terms::{Bounds, Page, RUN_DEVICES_MAX, RunBounds, STEPS_MAX, Wanted};
use std::alloc::{AllocError, Global};
use std::convert::AsStr;

impl From<AllocError> for UseError {
    ghost from_gives = { λ _ e. e ≡ Memory };

    fn from(_error: AllocError) -> UseError {
        UseError::Memory
    }
}

// ---- the entries of a subcommand

/// The value of an argument, if it has one.
pub fn text_of(
    alloc: Global,
    matches: &ArgMatches<'_>,
    id: &str,
) -> Result<Option<String>, AllocError>
    ensures { IfOk result (λ t. option_map string_bytes t
        ≡ first_of id.now (rows_of (found_of matches.now))) }
{
    match matches.get_str(id) {
        Some(text) => Ok(Some(String::from_str(alloc, text)?)),
        None => Ok(None),
    }
}

/// All the values of an argument, in their order.
pub fn texts_of(
    alloc: Global,
    matches: &ArgMatches<'_>,
    id: &str,
) -> Result<Vec<String>, AllocError>
    ensures { IfOk result (λ v. map string_bytes v.items
        ≡ values_of id.now (rows_of (found_of matches.now))) }
{
    let mut texts = Vec::new(alloc);
    let values = matches.get_strs(id).unwrap_or(&[]);
    for value in values {
        texts.push(String::from_str(alloc, value)?)?;
    }
    Ok(texts)
}

/// Whether the flag was given.
pub fn is_set(matches: &ArgMatches<'_>, flag: &str) -> bool
    ensures { result ≡ is_set flag.now (rows_of (found_of matches.now)) }
{
    match matches.get_str(flag) {
        Some(text) => text == "true",
        None => false,
    }
}

/// The number that a text writes in decimal digits, without a sign, if it is below 2^32.
fn number_of(text: &str) -> Option<u32>
    ensures { result ≡ number_of text.now }
{
    if text.as_bytes().starts_with(b"+") {
        return None;
    }
    text.parse::<u32>().ok()
}

/// The number given, if there is one; `None` if its text is not a number.
fn number_given(matches: &ArgMatches<'_>, id: &str) -> Option<Option<u32>>
    ensures { result ≡ number_given id.now (rows_of (found_of matches.now)) }
{
    match matches.get_str(id) {
        Some(text) => match number_of(text) {
            Some(number) => Some(Some(number)),
            None => None,
        },
        None => Some(None),
    }
}

/// The number given, if there is one; `None` if it is not a number from `least` to `most`.
fn number_within(matches: &ArgMatches<'_>, id: &str, least: u32, most: u32) -> Option<Option<u32>>
    ensures value { result ≡ number_within least most id.now (rows_of (found_of matches.now)) }
    ensures within { IfSome result (λ given. IfSome given (λ n. (least ≤ n) × (n ≤ most))) }
{
    match number_given(matches, id)? {
        Some(number) if number < least || most < number => None,
        given => Some(given),
    }
}

/// The path of the configuration.
pub fn config_of(alloc: Global, matches: &ArgMatches<'_>) -> Result<String, AllocError>
    ensures { IfOk result (λ t. string_bytes t ≡ config_of (rows_of (found_of matches.now))) }
{
    match text_of(alloc, matches, "config")? {
        Some(config) => Ok(config),
        None => String::from_str(alloc, DEFAULT_CONFIG),
    }
}

/// How the CRC of the image is stored.
pub fn order_of(matches: &ArgMatches<'_>) -> ByteOrder
    ensures { result ≡ order_of (rows_of (found_of matches.now)) }
{
    if is_set(matches, "big-endian") {
        ByteOrder::Big
    } else {
        ByteOrder::Little
    }
}

/// Whether `-l` was given an empty word.
fn has_no_folder(matches: &ArgMatches<'_>) -> bool
    ensures { result ≡ has_no_folder (rows_of (found_of matches.now)) }
{
    match matches.get_str("lock") {
        Some(folder) => folder.is_empty(),
        None => false,
    }
}

// ---- the eight subcommands

fn print_ask(alloc: Global, matches: &ArgMatches<'_>) -> Result<Ask, UseError>
    ensures { Says (Some (print_asked (rows_of (found_of matches.now)))) result }
{
    if has_no_folder(matches) {
        return Err(UseError::LockNeedsFolder);
    }
    let names = texts_of(alloc, matches, "names")?;
    let no_header = is_set(matches, "noheader");
    if no_header && names.len() != 1 {
        return Err(UseError::HeaderNeedsOne);
    }
    let form = PrintForm {
        header: !no_header,
        escaped: is_set(matches, "escaped"),
        null: is_set(matches, "null"),
    };
    Ok(Ask::Print {
        origin: origin_of(alloc, matches)?,
        what: PrintAsk { names, form },
        order: order_of(matches),
        one_copy: is_set(matches, "one-copy"),
    })
}

/// The change by the script at a path. If the program was called as one of U-Boot's tools, the path
/// `-` is standard input.
fn script_change(called: CalledAs, path: String) -> Change
    ensures { (origin : OriginShown) → (order : Order) → (one_copy : Bool) →
        change_of origin result order one_copy
        ≡ script_asked called (string_bytes path) origin order one_copy }
{
    if called.is_tool() && path.as_str() == "-" {
        Change::Input
    } else {
        Change::Script(path)
    }
}

fn set_ask(alloc: Global, called: CalledAs, matches: &ArgMatches<'_>) -> Result<Ask, UseError>
    ensures { Says (Some (set_asked called (rows_of (found_of matches.now)))) result }
{
    if has_no_folder(matches) {
        return Err(UseError::LockNeedsFolder);
    }
    let script = text_of(alloc, matches, "script")?;
    let name = text_of(alloc, matches, "name")?;
    let change = match (script, name) {
        (Some(script), None) => script_change(called, script),
        (None, Some(name)) => Change::One {
            name,
            words: texts_of(alloc, matches, "values")?,
        },
        (Some(_), Some(_)) => return Err(UseError::ScriptAndName),
        (None, None) => return Err(UseError::NeedName),
    };
    Ok(Ask::Setenv {
        origin: images_of(alloc, matches)?,
        change,
        order: order_of(matches),
        one_copy: is_set(matches, "one-copy"),
    })
}

/// What is said of a number with a sign.
const UNREAD: &str = "\
error: a number is written in digits alone, without a sign

For more information, try '--help'.
";

/// The refusal of a number with a sign, which `clap` accepts and the program does not. `clap` never
/// accepts that an argument is missing or that a number is out of its range.
fn unread(alloc: Global) -> UseError
    ensures { IsUnread result }
{
    match String::from_str(alloc, UNREAD) {
        Ok(text) => UseError::Line(text),
        Err(_) => UseError::Memory,
    }
}

/// The variable that is named, or the usual one.
fn variable_named(alloc: Global, matches: &ArgMatches<'_>) -> Result<String, AllocError>
    ensures { IfOk result (λ t. string_bytes t ≡ variable_named (rows_of (found_of matches.now))) }
{
    match text_of(alloc, matches, "variable")? {
        Some(name) => Ok(name),
        None => String::from_str(alloc, DEFAULT_VARIABLE),
    }
}

/// What runs: the script that is given, or else the variable.
fn variable_of(alloc: Global, matches: &ArgMatches<'_>) -> Result<String, AllocError>
    ensures { IfOk result (λ t. string_bytes t ≡ variable_of (rows_of (found_of matches.now))) }
{
    match text_of(alloc, matches, "script")? {
        Some(path) => Ok(path),
        None => variable_named(alloc, matches),
    }
}

/// The two bounds, or these defaults if none are given; `None` if one is out of its range.
fn bounds_or(matches: &ArgMatches<'_>, devices: u32, steps: u32) -> Option<RunBounds>
    ensures { result ≡ bounds_or devices steps (rows_of (found_of matches.now)) }
{
    let given_devices = number_within(matches, "devices", 0, RUN_DEVICES_MAX)?;
    let given_steps = number_within(matches, "steps", 0, STEPS_MAX)?;
    RunBounds::new(
        given_devices.unwrap_or(devices),
        given_steps.unwrap_or(steps),
    )
}

/// How much of a listing is written; `None` if its limit is not a number from 1.
fn page_asked(matches: &ArgMatches<'_>) -> Option<Page>
    ensures page { result ≡ page_asked (rows_of (found_of matches.now)) }
    ensures room { IfSome result (λ page. HasRoom page) }
{
    let limit = number_within(matches, "limit", 1, u32::MAX)?;
    Some(Page { limit })
}

/// The runs of a listing.
fn listing(
    alloc: Global,
    matches: &ArgMatches<'_>,
    page: Page,
    failures: Option<u32>,
) -> Result<Wanted<String>, UseError>
    requires { HasRoom page }
    ensures says { SaysWanted
        (wanted_by None (first_of (codes "after") (rows_of (found_of matches.now))) page failures
        (rows_of (found_of matches.now))) result }
    ensures room { IfOk result (λ w. HasRoom (page_of (wanted_strings w))) }
{
    let Some(wide) = bounds_or(matches, DEFAULT_DEVICES, DEFAULT_STEPS) else {
        return Err(unread(alloc));
    };
    let Some(bounds) = Bounds::with_failures(wide.devices(), wide.steps(), failures) else {
        return Err(UseError::TooManyDevices);
    };
    Ok(Wanted::Listing {
        bounds,
        after: text_of(alloc, matches, "after")?,
        page,
    })
}

/// The run of a word.
fn word(
    alloc: Global,
    matches: &ArgMatches<'_>,
    word: String,
    page: Page,
    failures: Option<u32>,
) -> Result<Wanted<String>, UseError>
    requires { HasRoom page }
    ensures says { SaysWanted
        (wanted_by (Some (string_bytes word))
        (first_of (codes "after") (rows_of (found_of matches.now))) page failures
        (rows_of (found_of matches.now))) result }
    ensures room { IfOk result (λ w. HasRoom (page_of (wanted_strings w))) }
{
    let Some(bounds) = bounds_or(matches, DEFAULT_RUN_DEVICES, DEFAULT_RUN_STEPS) else {
        return Err(unread(alloc));
    };
    let after = text_of(alloc, matches, "after")?;
    if after.is_some() || page.limit.is_some() || failures.is_some() {
        return Err(UseError::WordAlone);
    }
    Ok(Wanted::Word { bounds, word })
}

/// The runs that are to be listed. Errors: `WordAlone`, `TooManyDevices`, the refusal of `unread`,
/// and `Memory`.
fn wanted(
    alloc: Global,
    matches: &ArgMatches<'_>,
    page: Page,
    failures: Option<u32>,
) -> Result<Wanted<String>, UseError>
    requires { HasRoom page }
    ensures says { SaysWanted (wanted_asked page failures (rows_of (found_of matches.now)))
        result }
    ensures room { IfOk result (λ w. HasRoom (page_of (wanted_strings w))) }
{
    match text_of(alloc, matches, "word")? {
        Some(text) => word(alloc, matches, text, page, failures),
        None => listing(alloc, matches, page, failures),
    }
}

/// The path of the device list, and how it is taken; `None` if the number of the alternative is not one
/// of 1 to 64. Errors: memory ran out.
fn list_asked(
    alloc: Global,
    matches: &ArgMatches<'_>,
) -> Result<Option<(String, Taking)>, AllocError>
    ensures { IfOk result (λ list. option_map (λ l. (string_bytes l.0, l.1)) list
        ≡ list_asked (rows_of (found_of matches.now))) }
{
    let Some(path) = text_of(alloc, matches, "device-list")? else {
        return Ok(None);
    };
    let Some(alternative) = number_within(matches, "given", 1, ALTERNATIVES_MAX) else {
        return Ok(None);
    };
    let steady = is_set(matches, "steady");
    let taking = Taking {
        steady,
        alternative,
    };
    Ok(Some((path, taking)))
}

fn rehearse_ask(alloc: Global, matches: &ArgMatches<'_>) -> Result<Ask, UseError>
    ensures { Says (rehearse_asked (rows_of (found_of matches.now))) result }
{
    let Some(shell) = shell_of(matches) else {
        return Err(unnamed(alloc, matches));
    };
    let list = list_asked(alloc, matches)?;
    let page = page_asked(matches);
    let failures = number_within(matches, "failures", 0, FAILURES_MAX);
    let (Some((path, taking)), Some(page), Some(failures)) = (list, page, failures) else {
        return Err(unread(alloc));
    };
    let wanted = match wanted(alloc, matches, page, failures) {
        Ok(wanted) => wanted,
        Err(error) => return Err(error),
    };
    Ok(Ask::Rehearse {
        inputs: inputs_of(alloc, matches, path, taking)?,
        what: RehearseAsk {
            name: variable_of(alloc, matches)?,
            wanted: wanted_in_shell(wanted, shell),
            names: texts_of(alloc, matches, "names")?,
        },
        order: order_of(matches),
    })
}

/// How much a search of all runs may take, by default if no number is given; `None` if one is out of its range.
fn limits_asked(matches: &ArgMatches<'_>) -> Option<Limits>
    ensures { result ≡ limits_asked (rows_of (found_of matches.now)) }
{
    let states = number_within(matches, "states", 0, u32::MAX)?;
    let work = number_within(matches, "work", 0, u32::MAX)?;
    let memory = number_within(matches, "memory", 0, u32::MAX)?;
    Some(Limits {
        states: states.unwrap_or(DEFAULT_STATES),
        work: work.unwrap_or(DEFAULT_WORK),
        memory: memory.unwrap_or(DEFAULT_MEMORY),
    })
}

fn endings_ask(alloc: Global, matches: &ArgMatches<'_>) -> Result<Ask, UseError>
    ensures { Says (endings_asked (rows_of (found_of matches.now))) result }
{
    let Some(shell) = shell_of(matches) else {
        return Err(unnamed(alloc, matches));
    };
    let list = list_asked(alloc, matches)?;
    let bounds = bounds_or(matches, DEFAULT_RUN_DEVICES, DEFAULT_RUN_STEPS);
    let limits = limits_asked(matches);
    let (Some((path, taking)), Some(bounds), Some(limits)) = (list, bounds, limits) else {
        return Err(unread(alloc));
    };
    Ok(Ask::Endings {
        inputs: inputs_of(alloc, matches, path, taking)?,
        what: EndingsAsk {
            name: variable_of(alloc, matches)?,
            bounds: bounds.in_shell(shell),
            states: limits.states,
            work: limits.work,
            memory: limits.memory,
            names: texts_of(alloc, matches, "names")?,
            flow: is_set(matches, "flow"),
        },
        order: order_of(matches),
    })
}

/// How many boots are rehearsed, 1,000 if no number is given, of how many failures, and within how many an ending is expected;
/// `None` if a number is out of its range.
fn numbers_asked(matches: &ArgMatches<'_>) -> Option<BootNumbers>
    ensures { result ≡ numbers_asked (rows_of (found_of matches.now)) }
{
    let boots = number_within(matches, "boots", 0, u32::MAX)?;
    let failures = number_within(matches, "failures", 0, FAILURES_MAX)?;
    let within = number_within(matches, "within", 1, u32::MAX)?;
    Some(BootNumbers {
        boots: boots.unwrap_or(DEFAULT_BOOTS),
        failures,
        within,
    })
}

/// What `boots` is to write within these bounds. Errors: memory ran out.
fn boots_what(
    alloc: Global,
    matches: &ArgMatches<'_>,
    bounds: RunBounds,
    limits: Limits,
    numbers: BootNumbers,
    expected: Option<ExpectedAsk>,
) -> Result<BootsAsk, AllocError>
    ensures { IfOk result (λ what. boots_of what ≡ boots_what bounds limits numbers
        (option_map expected_shown expected) (rows_of (found_of matches.now))) }
{
    let names = texts_of(alloc, matches, "names")?;
    Ok(BootsAsk {
        name: variable_of(alloc, matches)?,
        bounds,
        states: limits.states,
        work: limits.work,
        memory: limits.memory,
        boots: numbers.boots,
        failures: numbers.failures,
        names: with_expected(alloc, names, &expected)?,
        changes: text_of(alloc, matches, "then")?,
        expected,
    })
}

fn boots_ask(alloc: Global, matches: &ArgMatches<'_>) -> Result<Ask, UseError>
    ensures { Says (boots_asked (rows_of (found_of matches.now))) result }
{
    let Some(shell) = shell_of(matches) else {
        return Err(unnamed(alloc, matches));
    };
    let list = list_asked(alloc, matches)?;
    let bounds = bounds_or(matches, DEFAULT_RUN_DEVICES, DEFAULT_RUN_STEPS);
    let limits = limits_asked(matches);
    let numbers = numbers_asked(matches);
    let (Some((path, taking)), Some(bounds), Some(limits), Some(numbers)) = (
        list, bounds, limits, numbers,
    ) else {
        return Err(unread(alloc));
    };
    let expected = match expected_of(alloc, matches, numbers.within) {
        Ok(expected) => expected,
        Err(error) => return Err(error),
    };
    let bounds = bounds.in_shell(shell);
    Ok(Ask::Boots {
        inputs: inputs_of(alloc, matches, path, taking)?,
        what: boots_what(alloc, matches, bounds, limits, numbers, expected)?,
        order: order_of(matches),
    })
}

/// The bounds of the runs in which so many device commands may fail; `None` if a number is out of its range.
fn cause_bounds(matches: &ArgMatches<'_>) -> Option<Bounds>
    ensures { result ≡ cause_bounds_asked (rows_of (found_of matches.now)) }
{
    let failures = number_within(matches, "failures", 0, CAUSE_FAILURES_MAX)?;
    let wide = bounds_or(matches, DEFAULT_RUN_DEVICES, DEFAULT_RUN_STEPS)?;
    let failures = failures.unwrap_or(DEFAULT_CAUSE_FAILURES);
    Bounds::with_failures(wide.devices(), wide.steps(), Some(failures))
}

fn causes_ask(alloc: Global, matches: &ArgMatches<'_>) -> Result<Ask, UseError>
    ensures { Says (causes_asked (rows_of (found_of matches.now))) result }
{
    let Some(shell) = shell_of(matches) else {
        return Err(unnamed(alloc, matches));
    };
    let list = list_asked(alloc, matches)?;
    let (Some((path, taking)), Some(bounds)) = (list, cause_bounds(matches)) else {
        return Err(unread(alloc));
    };
    Ok(Ask::Causes {
        inputs: inputs_of(alloc, matches, path, taking)?,
        what: CausesAsk {
            name: variable_of(alloc, matches)?,
            bounds: bounds.in_shell(shell),
            check: is_set(matches, "check"),
        },
        order: order_of(matches),
    })
}

/// The size of a new image, which each call has; `None` in it if it is no number.
fn size_of(matches: &ArgMatches<'_>) -> Option<Option<u32>>
    ensures { result ≡ size_of (rows_of (found_of matches.now)) }
{
    match matches.get_str("size") {
        Some(text) => Some(any_number(text)),
        None => None,
    }
}

/// What the free bytes of a new image are, 255 if no byte is given; `None` if it is no byte.
fn fill_of(matches: &ArgMatches<'_>) -> Option<u8>
    ensures { result ≡ fill_of (rows_of (found_of matches.now)) }
{
    match matches.get_str("fill") {
        Some(text) => byte_of(text),
        None => Some(255),
    }
}

fn image_ask(alloc: Global, matches: &ArgMatches<'_>) -> Result<Ask, UseError>
    ensures { Says (image_asked (rows_of (found_of matches.now))) result }
{
    let text = text_of(alloc, matches, "text")?;
    let output = text_of(alloc, matches, "output")?;
    let (Some(text), Some(output), Some(size)) = (text, output, size_of(matches)) else {
        return Err(unread(alloc));
    };
    let Some(size) = size else {
        return Err(UseError::BadSize);
    };
    let Some(fill) = fill_of(matches) else {
        return Err(UseError::BadFill);
    };
    let what = ImageAsk {
        size,
        redundant: is_set(matches, "redundant"),
        order: order_of(matches),
        fill,
    };
    Ok(Ask::Image { text, output, what })
}

fn inspect_ask(alloc: Global, matches: &ArgMatches<'_>) -> Result<Ask, UseError>
    ensures { Says (Some (inspect_asked (rows_of (found_of matches.now)))) result }
{
    Ok(Ask::Inspect {
        origin: images_of(alloc, matches)?,
        order: order_of(matches),
    })
}

fn ask_of(alloc: Global, called: CalledAs, matches: &ArgMatches<'_>) -> Result<Ask, UseError>
    ensures { Says (option_and_then (λ s. asked_of called s.0 s.1) (subcommand_rows_of matches.now))
        result }
{
    let Some((name, entries)) = matches.subcommand() else {
        return Err(unread(alloc));
    };
    match name {
        "printenv" => print_ask(alloc, entries),
        "setenv" => set_ask(alloc, called, entries),
        "rehearse" => rehearse_ask(alloc, entries),
        "endings" => endings_ask(alloc, entries),
        "boots" => boots_ask(alloc, entries),
        "causes" => causes_ask(alloc, entries),
        "image" => image_ask(alloc, entries),
        "inspect" => inspect_ask(alloc, entries),
        _ => Err(unread(alloc)),
    }
}

/// The folder of the lock that a subcommand's entries name, if they name one. An empty word names
/// none.
fn lock_of(alloc: Global, matches: &ArgMatches<'_>) -> Result<Option<String>, AllocError>
    ensures { IfOk result (λ folder. option_map string_bytes folder
        ≡ option_and_then (λ s. lock_of s.1) (subcommand_rows_of matches.now)) }
{
    match matches.subcommand() {
        Some((_, entries)) if !has_no_folder(entries) => text_of(alloc, entries, "lock"),
        _ => Ok(None),
    }
}

/// The folder of the lock that the words after the program's name ask for, if they name one. Words
/// that `clap` refuses name none. Errors: memory ran out.
pub fn read_lock<S: AsStr>(alloc: Global, words: &[S]) -> Result<Option<String>, AllocError>
    ensures { IfOk result (λ folder. NamesLock (map S.text words.now)
        (option_map string_bytes folder)) }
{
    match ubtool_for(alloc, words, false)?.try_get_matches_from(words) {
        Ok(matches) => lock_of(alloc, &matches),
        Err(error) => match error.kind() {
            ErrorKind::OutOfMemory => Err(AllocError),
            _ => Ok(None),
        },
    }
}

/// Reads the words after the program's name. If the program was called as one of U-Boot's tools,
/// the script of `-s -` is the one on standard input, and usage lines name that tool.
///
/// Refusals of `clap`, each a `Line`, come first, and so do those of a number with a sign and of a name that
/// no shell has. Then both `printenv` and `setenv` refuse an empty folder of the lock (`LockNeedsFolder`),
/// `setenv` refuses to have no name (`NeedName`) or a script and a name (`ScriptAndName`), and `printenv -n` refuses any number of
/// names but one (`HeaderNeedsOne`). `rehearse` refuses a word beside `--after` or `--limit`
/// (`WordAlone`), and a listing with too great a device bound (`TooManyDevices`), `boots` a number of boots or a value that
/// is expected without an ending, an empty ending, and a value without a name (`NeedExpect`, `NeedEnding`, `BadValue`), and
/// `image` a size or a byte that is none (`BadSize`, `BadFill`). Last, each of them
/// refuses words for what is read that do not go together (`Misnamed`). `Memory` is returned if a growth is
/// refused.
pub fn read_command<S: AsStr>(alloc: Global, called: CalledAs, words: &[S]) -> Result<Ask, UseError>
    ensures { Answers called (map S.text words.now) result }
{
    match parse(alloc, ubtool_for(alloc, words, called.is_tool())?, words) {
        Ok(Answer::Asks(matches)) => ask_of(alloc, called, &matches),
        Ok(Answer::Help(text)) => Ok(Ask::Help(text)),
        Ok(Answer::Version) => Ok(Ask::Version),
        Err(error) => Err(error),
    }
}
