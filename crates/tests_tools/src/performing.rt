//! Calls with outputs, of which each write can fail, and those that print an image.

use crate::calls;
use crate::case::Case;
use crate::writers::{Mode, Tested};
use std::alloc::{AllocError, Global};
use tests_rows::{first_word, shown, slices, words_of};

/// What a call answered and wrote.
#[derive(Drop)]
pub struct Performed {
    /// What it answered.
    pub answer: String,
    /// Its output.
    pub out: Tested,
    /// Its error output.
    pub err: Tested,
}

/// What makes calls with outputs.
pub trait Calls {
    /// Makes the call that a word names, with the outputs of `done`, where the answer is put too.
    fn call(&mut self, word: &str, says: &str, done: &mut Performed) -> anyhow::Result<()>;
}

/// Prints the image: the variables of some names, or their values alone.
fn print(case: &Case<'_>, word: &str, says: &str, done: &mut Performed) -> anyhow::Result<()> {
    let names = words_of(case.alloc, says)?;
    let names = slices(case.alloc, &names)?;
    let is_value = word == "value";
    let answer = calls::print(case, &names, is_value, &mut done.out, &mut done.err);
    done.answer = format!(in case.alloc; "{answer:?}")?;
    Ok(())
}

/// Prints the image on the input.
fn print_input(case: &mut Case<'_>, done: &mut Performed) -> anyhow::Result<()> {
    let mut source = case.source();
    let status = calls::print_input(case.alloc, &mut source, &mut done.out, &mut done.err);
    let reads = source.reads;
    case.reads = reads;
    done.answer = format!(in case.alloc; "status {status}")?;
    case.open()
}

impl Calls for Case<'_> {
    fn call(&mut self, word: &str, says: &str, done: &mut Performed) -> anyhow::Result<()> {
        match word {
            "print" | "value" => print(self, word, says, done),
            _ => print_input(self, done),
        }
    }
}

/// Makes a call, with outputs of some modes.
fn perform<C: Calls>(
    alloc: Global,
    calls: &mut C,
    modes: (Mode, Mode),
    word: &str,
    says: &str,
) -> anyhow::Result<Performed> {
    let mut done = Performed {
        answer: String::new(alloc),
        out: Tested::new(alloc, modes.0),
        err: Tested::new(alloc, modes.1),
    };
    calls.call(word, says, &mut done)?;
    Ok(done)
}

/// What a call answered and wrote.
fn told(alloc: Global, done: &Performed) -> Result<String, AllocError> {
    let out = done.out.line(alloc, "out")?;
    let err = done.err.line(alloc, "err")?;
    let answer = done.answer.as_str();
    format!(in alloc; "{answer}\n{out}{err}")
}

/// What a call answers and writes, with an output and an error output of some modes.
pub fn answer_call<C: Calls>(
    alloc: Global,
    calls: &mut C,
    modes: (Mode, Mode),
    word: &str,
    says: &str,
) -> anyhow::Result<String> {
    let done = perform(alloc, calls, modes, word, says)?;
    Ok(told(alloc, &done)?)
}

/// Whether a call was cut off by one failure, with a prefix of the whole, and in the last write: of an output of which one
/// write fails, that one, and of another the one after so many bytes.
fn is_cut(cut: &Tested, whole: &Tested, is_once: bool, count: usize) -> bool {
    let is_last = if is_once {
        cut.writes == count.saturating_add(1)
    } else {
        cut.bytes.len() == count
    };
    is_last
        && cut.failures == 1
        && cut.bytes.len() < whole.bytes.len()
        && whole.bytes.starts_with(cut.bytes.as_slice())
}

/// How many places there are at which an output can be cut off.
fn places_of(whole: &Tested, is_once: bool) -> usize {
    if is_once {
        whole.writes
    } else {
        whole.bytes.len()
    }
}

/// What a call answered and, where its output was to fail, wrote on its error output.
fn answer_of(alloc: Global, of_err: bool, done: &Performed) -> Result<String, AllocError> {
    let answer = done.answer.as_str();
    if of_err {
        return format!(in alloc; "{answer}\n");
    }
    let err = done.err.line(alloc, "err")?;
    format!(in alloc; "{answer}\n{err}")
}

/// A call that is made again and again, each time with an output that fails further on.
#[derive(Drop)]
struct Sweep {
    alloc: Global,
    /// Whether the error output fails.
    of_err: bool,
    /// Whether one write fails, and not all after so many bytes.
    is_once: bool,
    /// The call where nothing fails.
    whole: Performed,
    /// Whether each of the calls so far was cut off, and answered alike.
    are_cut: bool,
    /// How many calls these are.
    cuts: usize,
    /// How they answered.
    told: String,
}

impl Sweep {
    /// Takes a call that was cut off at a count.
    fn take(&mut self, count: usize, done: &Performed, answer: String) {
        let is_cut_here = if self.of_err {
            is_cut(&done.err, &self.whole.err, self.is_once, count)
        } else {
            is_cut(&done.out, &self.whole.out, self.is_once, count)
        };
        let is_alike = self.told.is_empty() || self.told.as_str() == answer.as_str();
        self.are_cut = self.are_cut && is_alike && is_cut_here;
        self.cuts = count.saturating_add(1);
        self.told = answer;
    }

    /// Makes the call with an output that fails at a count, and returns whether it failed.
    fn next<C: Calls>(
        &mut self,
        calls: &mut C,
        (mode, count): (Mode, usize),
        word: &str,
        says: &str,
    ) -> anyhow::Result<bool> {
        let modes = if self.of_err {
            (Mode::All, mode)
        } else {
            (mode, Mode::All)
        };
        let done = perform(self.alloc, calls, modes, word, says)?;
        let has_failed = done.out.failures > 0 || done.err.failures > 0;
        if has_failed {
            let answer = answer_of(self.alloc, self.of_err, &done)?;
            self.take(count, &done, answer);
        }
        Ok(has_failed)
    }

    /// Makes the call with an output of a kind that fails further and further on, until it does not.
    fn run<C: Calls>(
        &mut self,
        calls: &mut C,
        kind: &str,
        word: &str,
        says: &str,
    ) -> anyhow::Result<()> {
        for count in 0..1_000_000usize {
            let mode = Mode::of(kind, count)?;
            if !self.next(calls, (mode, count), word, says)? {
                break;
            }
        }
        Ok(())
    }

    /// Whether each write, or each number of bytes, was one at which a call was cut off.
    fn are_all_cut(&self) -> bool {
        let places = if self.of_err {
            places_of(&self.whole.err, self.is_once)
        } else {
            places_of(&self.whole.out, self.is_once)
        };
        self.are_cut && self.cuts == places && places > 0
    }

    /// What is said of all calls.
    fn line(&self) -> Result<String, AllocError> {
        let alloc = self.alloc;
        let bytes = &self.whole.out.bytes;
        let front = shown(alloc, bytes.get(..100).unwrap_or(bytes))?;
        let answer = answer_of(alloc, self.of_err, &self.whole)?;
        let (are_cut, told) = (self.are_all_cut(), self.told.as_str());
        format!(in alloc; "each is cut: {are_cut}\n{told}whole:\n{answer}out: {front}|")
    }
}

/// Makes a call again and again, each time with an output that fails further on, until it does not. Tells whether each
/// failure is one, left a prefix of the whole, was the last write, and was answered alike, and how. After that come
/// the answer if nothing fails, and the first hundred bytes of the output.
pub fn answer_sweep<C: Calls>(
    alloc: Global,
    calls: &mut C,
    row: &str,
    says: &str,
) -> anyhow::Result<String> {
    let (kind, says) = first_word(says);
    let (word, says) = first_word(says);
    let mut sweep = Sweep {
        alloc,
        of_err: row == "each-err",
        is_once: kind == "once",
        whole: perform(alloc, calls, (Mode::All, Mode::All), word, says)?,
        are_cut: true,
        cuts: 0,
        told: String::new(alloc),
    };
    sweep.run(calls, kind, word, says)?;
    Ok(sweep.line()?)
}
