//! The text of a command that is read a second time, and its words.
ghost use Rattle.std.specs.Prelude.{◌≡◌, [], map, unwrap_or, IfOk, OnOk};
ghost use Rattle.hushlang_old.specs.OldFields as says;
ghost use Rattle.hushlang_old.specs.OldFieldsShown as shown;

use hushlang_uboot::unescaped;
use std::alloc::{AllocError, Global};

/// What the next byte is.
#[derive(Clone, Copy)]
enum Place {
    /// A byte that may act.
    Open,
    /// The byte after a backslash.
    Behind,
    /// A byte in single quotes, that is before the next byte equal to this one.
    Single(u8),
    /// A byte after the end of the text.
    Ended,
}

/// A text that is being read: the words that are whole, the bytes of the word on the way, whether
/// quotes have begun it, whether double quotes are open, and what the next byte is.
#[derive(Drop)]
struct Reading {
    alloc: Global,
    whole: Vec<Vec<u8>>,
    word: Vec<u8>,
    begun: bool,
    double: bool,
    place: Place,
}

/// Whether a backslash is put before a byte in double quotes.
fn is_guarded(byte: u8) -> bool
    ensures { result ≡ says.is_guarded byte }
{
    byte == b'*' || byte == b'?' || byte == b'[' || byte == b'\\'
}

impl Reading {
    fn new(alloc: Global) -> Reading
        ensures { shown.reading result ≡ says.nothing_read }
    {
        Reading {
            alloc,
            whole: Vec::new(alloc),
            word: Vec::new(alloc),
            begun: false,
            double: false,
            place: Place::Open,
        }
    }

    /// Adds a byte, after a backslash if double quotes are open and it would act else.
    fn guard(&mut self, byte: u8) -> Result<(), AllocError>
        ensures { OnOk result
            (shown.reading self.new ≡ says.with_guarded byte (shown.reading self.old)) }
    {
        if self.double && is_guarded(byte) {
            self.word.push(b'\\')?;
        }
        self.word.push(byte)?;
        Ok(())
    }

    /// Ends the word on the way.
    fn end_word(&mut self) -> Result<(), AllocError>
        ensures { OnOk result (shown.reading self.new ≡ says.word_ended (shown.reading self.old)) }
    {
        if self.begun || !self.word.is_empty() {
            self.whole.push(unescaped(self.alloc, &self.word)?)?;
        }
        self.word.clear();
        self.begun = false;
        Ok(())
    }

    /// Whether the text ends at a byte that is outside all quotes.
    fn ends_at(&self, byte: u8) -> bool
        ensures { result ≡ says.ends_text byte (shown.reading self.now) }
    {
        byte == b'\n' || (byte == b'#' && self.word.is_empty())
    }

    /// Reads a byte outside all quotes that is neither a quote nor a backslash.
    fn read_bare(&mut self, byte: u8) -> Result<(), AllocError>
        ensures { OnOk result
            (shown.reading self.new ≡ says.read_bare byte (shown.reading self.old)) }
    {
        if self.ends_at(byte) {
            self.end_word()?;
            self.place = Place::Ended;
            return Ok(());
        }
        if byte == b' ' || byte == b'\t' {
            return self.end_word();
        }
        self.word.push(byte)?;
        Ok(())
    }

    /// Reads a byte that may act.
    fn read_open(&mut self, byte: u8) -> Result<(), AllocError>
        ensures { OnOk result
            (shown.reading self.new ≡ says.read_open byte (shown.reading self.old)) }
    {
        if byte == b'\\' {
            self.guard(byte)?;
            self.place = Place::Behind;
            return Ok(());
        }
        if byte == b'\'' || byte == 4 {
            self.begun = true;
            self.place = Place::Single(byte);
            return Ok(());
        }
        if byte == b'"' {
            self.begun = true;
            self.double = !self.double;
            return Ok(());
        }
        if self.double {
            return self.guard(byte);
        }
        self.read_bare(byte)
    }

    /// Reads a byte in single quotes, which go to the byte that opened them.
    fn read_single(&mut self, opening: u8, byte: u8) -> Result<(), AllocError>
        requires { shown.place self.old.place ≡ says.Single opening }
        ensures { OnOk result
            (shown.reading self.new
            ≡ says.read_at (says.Single opening) byte (shown.reading self.old)) }
    {
        if byte == opening {
            self.place = Place::Open;
            return Ok(());
        }
        self.word.push(byte)?;
        Ok(())
    }

    /// Reads a byte.
    #[tactic(auto, unfolding(crate::specs::OldFields::read))]
    fn read(&mut self, byte: u8) -> Result<(), AllocError>
        ensures { OnOk result (shown.reading self.new ≡ says.read byte (shown.reading self.old)) }
    {
        match self.place {
            Place::Open => self.read_open(byte),
            Place::Behind => {
                self.guard(byte)?;
                self.place = Place::Open;
                Ok(())
            }
            Place::Single(opening) => self.read_single(opening, byte),
            Place::Ended => Ok(()),
        }
    }

    /// The words, or none if single quotes are still open.
    fn into_words(self) -> Result<Vec<Vec<u8>>, AllocError>
        ensures { IfOk result (λ words. map (λ word. word.items) words.items
            ≡ unwrap_or (says.words_of (shown.reading self)) []) }
    {
        let mut reading = self;
        if let Place::Single(_) = reading.place {
            return Ok(Vec::new(reading.alloc));
        }
        reading.end_word()?;
        Ok(reading.whole)
    }
}

/// The words of a text, or none if it cannot be read.
pub(crate) fn reread(alloc: Global, text: &[u8]) -> Result<Vec<Vec<u8>>, AllocError>
    ensures { IfOk result (λ words. map (λ word. word.items) words.items
        ≡ unwrap_or (says.reread text.now) []) }
{
    let mut reading = Reading::new(alloc);
    for byte in text {
        reading.read(*byte)?;
    }
    reading.into_words()
}
