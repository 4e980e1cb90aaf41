//! The parts of a word, cut from a text one at a time.

ghost use Rattle.std.specs.Prelude.{◌≡◌, ◌+◌, ◌-◌, ◌<◌, ◌≤◌, ◌^◌, suc, [], length, drop, slice_index};
ghost use Rattle.hushlang.specs.Spelling as spelling;
ghost use Rattle.hushlang.specs.Tokenizing as spec;
ghost use Rattle.hushlang.specs.CuttersShown as cutting;
ghost use Rattle.hushlang.specs.CuttersShown.{StaysWithin, Cuts};
ghost use Rattle.hushlang.specs.declared.word_parts.Mode.TheVariants as modes;

use crate::byte_classes::{begins_name, brace_len, is_escapable, is_separator, name_len};
use crate::token::SyntaxError;
use std::marker::Model;

/// Where a reader of parts is: outside quotes, or inside quotes that were opened at a place.
#[derive(Clone, Copy, PartialEq, Eq)]
pub enum Mode {
    /// Outside quotes.
    Bare,
    /// Inside single quotes.
    Single(usize),
    /// Inside double quotes.
    Double(usize),
}

/// A part of a word.
#[derive(Clone, Copy)]
pub enum Part<'a> {
    /// A byte that is outside quotes and has no backslash.
    Plain(u8),
    /// A byte that quotes or a backslash keep.
    Kept(u8),
    /// A pair of quotes.
    Mark,
    /// A variable, which is split outside double quotes.
    Var { name: &'a [u8], split: bool },
    /// `$?`
    Status,
}

/// What a look at the start of a text finds.
#[derive(Clone, Copy)]
pub enum Step<'a> {
    /// A part made of a byte and this many after it; reading goes on in this mode.
    Part(Part<'a>, usize, Mode),
    /// The same without a part, as at a closing quote.
    Pass(usize, Mode),
    /// A backslash and a newline between pieces.
    Vanish,
    /// No piece.
    End,
}

fn splits(mode: Mode) -> bool
    ensures { result ≡ spec.splits mode }
{
    match mode {
        Mode::Bare => true,
        _ => false,
    }
}

/// A `$` that means itself.
fn dollar_itself<'a>(split: bool) -> Part<'a>
    ensures { cutting.part result ≡ spelling.dollar_itself split }
{
    if split {
        Part::Plain(b'$')
    } else {
        Part::Kept(b'$')
    }
}

fn variable<'a>(split: bool, name: &'a [u8]) -> Part<'a>
    requires { 0 < length name.now }
    ensures { cutting.part result ≡ spec.variable split (slice_index name.now 0) (drop 1 name.now) }
{
    match name {
        [b'?'] => Part::Status,
        _ => Part::Var { name, split },
    }
}

/// Reads what follows `${`. Errors: `OpenBrace`, `BadVariable`.
#[tactic(auto, unfolding(crate::specs::Tokenizing::braced))]
fn braced<'a>(mode: Mode, at: usize, text: &'a [u8]) -> Result<Step<'a>, SyntaxError>
    requires { suc (suc (length text.now)) < 2 ^ 64 }
    ensures value { cutting.step result ≡ spec.braced mode at text.now }
    ensures within { StaysWithin (suc (length text.now)) result }
{
    let (name, rest) = text.split_at(brace_len(text));
    match rest {
        [] => Err(SyntaxError::OpenBrace(at)),
        [b'}', ..] if !name.is_empty() => Ok(Step::Part(
            variable(splits(mode), name),
            2 + name.len(),
            mode,
        )),
        _ => Err(SyntaxError::BadVariable(at)),
    }
}

/// Reads what follows `$`. Errors: `OpenBrace`, `BadVariable`.
#[tactic(auto, unfolding(crate::specs::Tokenizing::dollar))]
fn dollar<'a>(mode: Mode, at: usize, text: &'a [u8]) -> Result<Step<'a>, SyntaxError>
    requires { suc (length text.now) < 2 ^ 64 }
    ensures value { cutting.step result ≡ spec.dollar mode at text.now }
    ensures within { StaysWithin (length text.now) result }
{
    match text {
        [b'?', ..] => Ok(Step::Part(Part::Status, 1, mode)),
        [b'{', inside @ ..] => braced(mode, at, inside),
        [b, ..] if begins_name(*b) => Ok(named(mode, name_len(text), text)),
        _ => Ok(Step::Part(dollar_itself(splits(mode)), 0, mode)),
    }
}

fn named<'a>(mode: Mode, size: usize, text: &'a [u8]) -> Step<'a>
    requires { size ≤ length text.now }
    ensures value { cutting.step (Ok result) ≡ spec.named mode size text.now }
    ensures within { StaysWithin (length text.now) (Ok result) }
{
    Step::Part(
        Part::Var {
            name: &text[..size],
            split: splits(mode),
        },
        size,
        mode,
    )
}

fn backslash<'a>(at: usize, text: &'a [u8]) -> Result<Step<'a>, SyntaxError>
    ensures value { cutting.step result ≡ spec.backslash at text.now }
    ensures within { StaysWithin (length text.now) result }
{
    match text {
        [] => Err(SyntaxError::LoneBackslash(at)),
        [b'\n', ..] => Ok(Step::Vanish),
        [b, ..] => Ok(Step::Part(Part::Kept(*b), 1, Mode::Bare)),
    }
}

#[tactic(auto, unfolding(crate::specs::Tokenizing::bare))]
fn bare<'a>(at: usize, b: u8, text: &'a [u8]) -> Result<Step<'a>, SyntaxError>
    requires { suc (length text.now) < 2 ^ 64 }
    ensures value { cutting.step result ≡ spec.bare at b text.now }
    ensures within { StaysWithin (length text.now) result }
{
    if is_separator(b) {
        return Ok(Step::End);
    }
    match b {
        b'\\' => backslash(at, text),
        b'\'' => Ok(Step::Part(Part::Mark, 0, Mode::Single(at))),
        b'"' => Ok(Step::Part(Part::Mark, 0, Mode::Double(at))),
        b'$' => dollar(Mode::Bare, at, text),
        _ => Ok(Step::Part(Part::Plain(b), 0, Mode::Bare)),
    }
}

fn escape<'a>(mode: Mode, text: &'a [u8]) -> Step<'a>
    ensures value { cutting.step (Ok result) ≡ spec.escape mode text.now }
    ensures within { StaysWithin (length text.now) (Ok result) }
{
    match text {
        [b, ..] if is_escapable(*b) => Step::Part(Part::Kept(*b), 1, mode),
        [b'\n', ..] => Step::Pass(1, mode),
        _ => Step::Part(Part::Kept(b'\\'), 0, mode),
    }
}

#[tactic(auto, unfolding(crate::specs::Tokenizing::inside))]
fn inside<'a>(mode: Mode, at: usize, b: u8, text: &'a [u8]) -> Result<Step<'a>, SyntaxError>
    requires { suc (length text.now) < 2 ^ 64 }
    ensures value { cutting.step result ≡ spec.inside mode at b text.now }
    ensures within { StaysWithin (length text.now) result }
{
    match b {
        b'"' => Ok(Step::Pass(0, Mode::Bare)),
        b'\\' => Ok(escape(mode, text)),
        b'$' => dollar(mode, at, text),
        _ => Ok(Step::Part(Part::Kept(b), 0, mode)),
    }
}

#[tactic(auto, unfolding(crate::specs::Tokenizing::step))]
fn look<'a>(mode: Mode, at: usize, b: u8, text: &'a [u8]) -> Result<Step<'a>, SyntaxError>
    requires { suc (length text.now) < 2 ^ 64 }
    ensures value { cutting.step result ≡ spec.step mode at b text.now }
    ensures within { StaysWithin (length text.now) result }
{
    match mode {
        Mode::Bare => bare(at, b, text),
        Mode::Single(_) if b == b'\'' => Ok(Step::Pass(0, Mode::Bare)),
        Mode::Single(_) => Ok(Step::Part(Part::Kept(b), 0, mode)),
        Mode::Double(_) => inside(mode, at, b, text),
    }
}

/// The parts of the word at a place in a text, one at a time.
#[derive(Drop)]
pub struct Parts<'a> {
    text: &'a [u8],
    mode: Mode,
    stop: usize,
    at: usize,
}

impl<'a> Model for Parts<'a> {
    ghost use Rattle.hushlang.specs.CuttersShown.{Place};
    ghost use Rattle.std.specs.Prelude.{◌≤◌, length};

    ghost Value = { Place };

    ghost view = { λ p. record { source = p.text.now; mode = p.mode; stop = p.stop; at = p.at } };

    ghost invariant = { λ p. p.at ≤ length p.text.now };
}

impl<'a> Parts<'a> {
    /// Starts at a place of a text where a word starts.
    pub fn new(text: &'a [u8], at: usize) -> Parts<'a>
        requires { at ≤ length text.now }
        ensures { result ≡ record { source = text.now; mode = modes.Bare; stop = at; at = at } }
    {
        Parts {
            text,
            mode: Mode::Bare,
            stop: at,
            at,
        }
    }

    /// Where the last piece so far stops.
    pub fn stop(&self) -> usize
        ensures { result ≡ self.now.stop }
    {
        self.stop
    }

    /// Gives the next part, or `None` at the end. After the end and after a refusal, gives the same
    /// again.
    pub fn next(&mut self) -> Result<Option<Part<'a>>, SyntaxError>
        ensures cuts { Cuts self.old result self.new }
        ensures source { self.new.source ≡ self.old.source }
    {
        'looks: while let Some(b) = self.text.get(self.at) {
            match look(self.mode, self.at, *b, &self.text[self.at + 1..])? {
                Step::Part(part, skip, mode) => {
                    self.mode = mode;
                    self.at += 1 + skip;
                    self.stop = self.at;
                    return Ok(Some(part));
                }
                Step::Pass(skip, mode) => {
                    self.mode = mode;
                    self.at += 1 + skip;
                    self.stop = self.at;
                }
                Step::Vanish => self.at += 2,
                Step::End => return Ok(None),
            }
        }
        match self.mode {
            Mode::Bare => Ok(None),
            Mode::Single(opening) | Mode::Double(opening) => Err(SyntaxError::OpenQuote(opening)),
        }
    }
}
