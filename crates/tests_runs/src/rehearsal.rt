//! Rehearsals of a case, over both stores.

use crate::calls::{Given, given_of, list, next_word, resumed_at, work_of};
use bootstore_copies::Plain;
use bootstore_state::Store;
use bootstore_trail::Trail;
use device_list::BoardEnd;
use output::Over;
use rehearse_runs::{Ending, Runs};
use std::alloc::Global;
use std::fmt::Write;
use tests_language::{Case, agreed};
use tests_rows::{number, shown, slices, text_of, unescaped};

/// Which page is asked for: after a word, and up to a limit, which is none where it is 0.
#[derive(Drop)]
struct Page {
    after: Option<Vec<u8>>,
    limit: u32,
}

/// What the next word of a row says.
#[derive(Clone, Copy)]
enum Key {
    After,
    Limit,
    Other,
}

/// What is after a word.
fn key_of(word: &str) -> Key {
    match word {
        "after" => Key::After,
        "limit" => Key::Limit,
        _ => Key::Other,
    }
}

impl Page {
    /// The page that a row asks for.
    fn new(alloc: Global, says: &str) -> anyhow::Result<Page> {
        let mut page = Page {
            after: None,
            limit: 0,
        };
        let mut key = Key::Other;
        for word in says.split(' ') {
            match key {
                Key::After => page.after = Some(unescaped(alloc, word)?),
                Key::Limit => page.limit = number(word)?,
                Key::Other => {}
            }
            key = key_of(word);
        }
        Ok(page)
    }

    /// The runs of a page.
    fn runs<'a, S: Store>(&self, given: &'a Given<'_>) -> anyhow::Result<Runs<'a, S>> {
        match &self.after {
            None => Ok(given.runs::<S>(None)?),
            Some(word) => Ok(given.runs::<S>(Some(word))?),
        }
    }
}

// A function holds runs, another one asks them, and then they are dropped: where values end otherwise, their parts are gone
// through at each way out, and that takes long to prove.

/// The records of runs, and how their page finishes.
fn records<S: Store>(case: &Case, runs: &mut Runs<'_, S>, limit: u32) -> anyhow::Result<String> {
    let mut out = Over::new(Vec::new(case.alloc));
    let names = slices(case.alloc, &case.names)?;
    let finish = list(runs, &names, limit, &mut out)?;
    let lines = text_of(case.alloc, &out.into_writer())?;
    Ok(format!(in case.alloc; "{lines}answer {finish:?}")?)
}

/// The records of a page, and how it finishes.
fn listing<S: Store>(case: &Case, given: &Given<'_>, page: &Page) -> anyhow::Result<String> {
    let mut runs = page.runs::<S>(given)?;
    let told = records(case, &mut runs, page.limit);
    drop(runs);
    told
}

/// The word that was given last, that of the next run, and the steps that were begun then.
fn told_behind<S: Store>(alloc: Global, runs: &mut Runs<'_, S>) -> anyhow::Result<String> {
    let given = text_of(alloc, runs.given().unwrap_or(b"none"))?;
    let next = match next_word(alloc, runs)? {
        Some(word) => text_of(alloc, &word)?,
        None => String::from_str(alloc, "none")?,
    };
    let work = work_of(runs);
    Ok(format!(in alloc; "given {given}, next {next}, work {work}")?)
}

/// How a page of runs finishes, the work after it, and the answers then.
fn finished<S: Store>(alloc: Global, runs: &mut Runs<'_, S>, limit: u32) -> anyhow::Result<String> {
    let finish = list(runs, &[], limit, &mut Over::new(Vec::new(alloc)))?;
    let work = work_of(runs);
    let told = told_behind(alloc, runs)?;
    Ok(format!(in alloc; "{finish:?}, work {work}, {told}")?)
}

/// How a page finishes, the work after it, and the answers then.
fn told_behind_page<S: Store>(given: &Given<'_>, page: &Page) -> anyhow::Result<String> {
    let mut runs = page.runs::<S>(given)?;
    let told = finished(given.alloc, &mut runs, page.limit);
    drop(runs);
    told
}

/// What a listing of runs answers that has this room, the bytes, and the answers then.
fn broken_in<S: Store>(
    alloc: Global,
    runs: &mut Runs<'_, S>,
    room: &mut [u8],
) -> anyhow::Result<String> {
    let answer = list(runs, &[], 0, &mut Over::new(&mut *room));
    let bytes = shown(alloc, room)?;
    let told = told_behind(alloc, runs)?;
    Ok(format!(in alloc; "{answer:?}\n{bytes}\n{told}")?)
}

/// What a listing answers that has room for so many bytes, the bytes, and the answers then.
fn broken<S: Store>(given: &Given<'_>, says: &str) -> anyhow::Result<String> {
    let size = number(says)?;
    let mut room = vec![in given.alloc; 0u8; size as usize]?;
    let mut runs = given.runs::<S>(None)?;
    let told = broken_in(given.alloc, &mut runs, &mut room);
    drop(runs);
    told
}

/// The words of runs, each with the work after it.
fn worked<S: Store>(alloc: Global, runs: &mut Runs<'_, S>) -> anyhow::Result<String> {
    let mut words = String::from_str(alloc, "runs")?;
    for _ in 0..70_000u32 {
        let Some(word) = next_word(alloc, runs)? else {
            break;
        };
        let (word, work) = (text_of(alloc, &word)?, work_of(runs));
        write!(words, " {word}:{work}")?;
    }
    Ok(words)
}

/// The work of runs so far, their words with the work after each, and that of all.
fn works_of<S: Store>(alloc: Global, runs: &mut Runs<'_, S>) -> anyhow::Result<String> {
    let begun = work_of(runs);
    let words = worked(alloc, runs)?;
    let work = work_of(runs);
    Ok(format!(in alloc; "begun {begun}, {words}, work {work}")?)
}

/// The work after a start word, the words with the work after each, and that of all.
fn works<S: Store>(given: &Given<'_>, page: &Page) -> anyhow::Result<String> {
    let mut runs = page.runs::<S>(given)?;
    let told = works_of(given.alloc, &mut runs);
    drop(runs);
    told
}

/// The words of runs.
fn words_of<S: Store>(alloc: Global, runs: &mut Runs<'_, S>) -> anyhow::Result<Vec<Vec<u8>>> {
    let mut words = Vec::new(alloc);
    for _ in 0..70_000u32 {
        let Some(word) = next_word(alloc, runs)? else {
            break;
        };
        words.push(word)?;
    }
    Ok(words)
}

/// The words of the runs, or of those after a word, and how many steps were begun.
fn words<S: Store>(given: &Given<'_>, after: Option<&[u8]>) -> anyhow::Result<(Vec<Vec<u8>>, u64)> {
    let mut runs = given.runs::<S>(after)?;
    let words = words_of(given.alloc, &mut runs);
    let work = work_of(&runs);
    drop(runs);
    Ok((words?, work))
}

/// How many runs there are, whether their words grow in dictionary order, and how many steps were begun.
fn grown<S: Store>(given: &Given<'_>) -> anyhow::Result<String> {
    let (words, work) = words::<S>(given, None)?;
    let mut last: &[u8] = b"";
    let mut do_grow = true;
    for word in &words {
        do_grow = do_grow && last < word.as_slice();
        last = word;
    }
    let runs = words.len();
    Ok(format!(in given.alloc; "{runs} runs, their words grow: {do_grow}, {work} steps")?)
}

/// Whether after a word the runs go on with these.
fn goes_on<S: Store>(given: &Given<'_>, word: &[u8], rest: &[Vec<u8>]) -> anyhow::Result<bool> {
    let (behind, _) = words::<S>(given, Some(word))?;
    Ok(behind.as_slice() == rest)
}

/// The words of the runs, and whether after each the runs go on with those that are after it.
fn onward<S: Store>(given: &Given<'_>) -> anyhow::Result<String> {
    let alloc = given.alloc;
    let (all, _) = words::<S>(given, None)?;
    let mut text = String::from_str(alloc, "words")?;
    let mut rest = all.as_slice();
    let mut go_on = true;
    for word in &all {
        rest = rest.get(1..).unwrap_or(&[]);
        go_on = goes_on::<S>(given, word, rest)? && go_on;
        text.push(' ')?;
        text.push_str(text_of(alloc, word)?.as_str())?;
    }
    Ok(format!(in alloc; "{text}\nthe runs go on behind each: {go_on}")?)
}

/// All records of runs.
fn listed<S: Store>(case: &Case, runs: &mut Runs<'_, S>) -> anyhow::Result<Vec<u8>> {
    let mut out = Over::new(Vec::new(case.alloc));
    let _ = list(runs, &slices(case.alloc, &case.names)?, 0, &mut out)?;
    Ok(out.into_writer())
}

/// Where a listing goes on if so many bytes of it are written, a line for each place.
fn places(alloc: Global, listing: &[u8]) -> anyhow::Result<String> {
    let mut lines = String::new(alloc);
    let mut last = usize::MAX;
    for size in 0..=listing.len() {
        let (word, length) = resumed_at(&listing[..size]);
        if length != last {
            let word = text_of(alloc, word)?;
            writeln!(lines, "from {size} bytes on: behind {word}, after {length}")?;
        }
        last = length;
    }
    Ok(lines)
}

/// Where the whole listing goes on if so many bytes of it are written, a line for each place.
fn resumed<S: Store>(case: &Case, given: &Given<'_>) -> anyhow::Result<String> {
    let mut runs = given.runs::<S>(None)?;
    let listing = listed(case, &mut runs);
    drop(runs);
    places(case.alloc, &listing?)
}

/// What an ending is called.
fn name_of(ending: Ending<'_>) -> &'static str {
    match ending {
        Ending::End(_) => "end",
        Ending::CutDevices => "cut devices",
        Ending::CutSteps => "cut steps",
        Ending::Unknown(_) => "stop unknown",
        Ending::Syntax(_) => "stop syntax",
        Ending::Unsupported(_) => "stop unsupported",
        Ending::Panic(_) => "stop panic",
        Ending::Size => "stop size",
        Ending::Finished(finish, _) => match finish {
            BoardEnd::Boots => "booted",
            BoardEnd::Restarts => "restarted",
            BoardEnd::Halts => "halted",
        },
    }
}

/// What the ending of the next run is called.
fn end_of<S: Store>(runs: &mut Runs<'_, S>) -> anyhow::Result<&'static str> {
    match runs.next()? {
        Some(view) => Ok(name_of(view.ending())),
        None => anyhow::bail!("no run"),
    }
}

/// How the first run ends.
fn end<S: Store>(given: &Given<'_>) -> anyhow::Result<String> {
    let mut runs = given.runs::<S>(None)?;
    let name = end_of(&mut runs);
    drop(runs);
    Ok(String::from_str(given.alloc, name?)?)
}

/// What kind of word each is.
fn kinds<S: Store>(given: &Given<'_>, says: &str) -> anyhow::Result<String> {
    let alloc = given.alloc;
    let mut kinds = String::from_str(alloc, "kinds")?;
    for word in says.split(' ') {
        let kind = given.kind::<S>(&unescaped(alloc, word)?)?;
        write!(kinds, " {kind:?}")?;
    }
    Ok(kinds)
}

/// The answer to a row of a page.
fn told_of_page<S: Store>(
    case: &Case,
    given: &Given<'_>,
    word: &str,
    says: &str,
) -> anyhow::Result<String> {
    let page = Page::new(case.alloc, says)?;
    match word {
        "told" => told_behind_page::<S>(given, &page),
        "work" => works::<S>(given, &page),
        _ => listing::<S>(case, given, &page),
    }
}

/// The answer to a row of what is rehearsed.
fn told_of<S: Store>(
    case: &Case,
    given: &Given<'_>,
    word: &str,
    says: &str,
) -> anyhow::Result<String> {
    match word {
        "try" => kinds::<S>(given, says),
        "broken" => broken::<S>(given, says),
        "grow" => grown::<S>(given),
        "onward" => onward::<S>(given),
        "end" => end::<S>(given),
        "resumed" => resumed::<S>(case, given),
        _ => told_of_page::<S>(case, given, word, says),
    }
}

/// The answer to a row over one store.
fn told_over<S: Store>(case: &Case, word: &str, says: &str) -> anyhow::Result<String> {
    let given = given_of(case)?;
    let told = told_of::<S>(case, &given, word, says);
    drop(given);
    told
}

/// The answer to a row of rehearsals, over both stores.
pub fn rehearsed(case: &Case, word: &str, says: &str) -> anyhow::Result<String> {
    let plain = told_over::<Plain>(case, word, says);
    let trail = told_over::<Trail>(case, word, says);
    agreed(case.alloc, plain, trail)
}
