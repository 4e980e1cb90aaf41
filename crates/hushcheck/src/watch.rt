//! What the shells of U-Boot read otherwise in a text, token by token.
ghost use Rattle.std.specs.Prelude.{◌≡◌, [], IfOk, OnOk};
ghost use Rattle.hushlang.specs.CursorShown.{input_in};
ghost use Rattle.hushcheck.specs.Remarks as shown;
ghost use Rattle.hushcheck.specs.Warnings as spec;
ghost use Rattle.hushcheck.specs.Seats as seat;

use crate::remark::{Found, Remark};
use crate::seat::{
    Link, Name, Seat, Stand, Start, behind_first, behind_later, is_empty_assignment, is_reserved,
    start_of, starts_with,
};
use crate::sights::{Seen, seen_in};
use crate::warning::Warning;
use hushlang::{Kind, Lexer};
use std::alloc::{AllocError, Global};
use std::marker::Model;

/// Adds a warning of a place, if something is so there. Errors: memory ran out.
fn push_when(
    found: &mut Vec<Found>,
    holds: bool,
    at: usize,
    warning: Warning,
) -> Result<(), AllocError>
    ensures { OnOk result (shown.all_found found.new.items
        ≡ spec.when holds at warning (shown.all_found found.old.items)) }
{
    if !holds {
        return Ok(());
    }
    let remark = Remark::Warns(warning);
    found.push(Found { at, remark })?;
    Ok(())
}

/// Whether a word is empty quotes.
fn is_empty_word(text: &[u8]) -> bool
    ensures { result ≡ spec.is_empty_word text.now }
{
    text == b"''".as_slice() || text == b"\"\"".as_slice()
}

/// Adds the warnings of what is in a word. Errors: memory ran out.
fn push_sights(found: &mut Vec<Found>, seen: Seen, at: usize) -> Result<(), AllocError>
    ensures { OnOk result (shown.all_found found.new.items
        ≡ spec.by_sights seen at (shown.all_found found.old.items)) }
{
    push_when(found, seen.underscore, at, Warning::UnderscoreName)?;
    push_when(found, seen.single_backslash, at, Warning::BackslashInSingle)?;
    push_when(found, seen.double_backslash, at, Warning::BackslashInDouble)?;
    push_when(found, seen.apostrophe, at, Warning::Apostrophe)?;
    push_when(found, seen.special, at, Warning::SpecialParameter)?;
    push_when(found, seen.braced_status, at, Warning::StatusInBraces)?;
    push_when(found, seen.odd_name, at, Warning::OddName)?;
    push_when(found, seen.parenthesis, at, Warning::Parenthesis)?;
    push_when(found, seen.line_end, at, Warning::BackslashAtLineEnd)
}

/// Adds the warnings of a word that may start a command. Errors: memory ran out.
fn push_start(found: &mut Vec<Found>, text: &[u8], at: usize) -> Result<(), AllocError>
    ensures { OnOk result (shown.all_found found.new.items
        ≡ spec.by_start (seat.start_of text.now) text.now at (shown.all_found found.old.items)) }
{
    match start_of(text) {
        Start::Assigns => {
            push_when(
                found,
                is_empty_assignment(text),
                at,
                Warning::EmptyAssignment,
            )?;
            push_when(found, starts_with(text, b'_'), at, Warning::UnderscoreName)
        }
        Start::Command => push_when(found, text == b"exit".as_slice(), at, Warning::Exit),
        Start::Opens | Start::For | Start::GoesOn | Start::Closes => Ok(()),
    }
}

/// Whether `test` may find no word or many of them.
fn is_loose_operand(name: Name, seen: Seen) -> bool
    ensures { result ≡ spec.is_loose_operand name seen }
{
    match name {
        Name::Test | Name::TestFile | Name::TestText => seen.loose,
        Name::SetEnv | Name::Other => false,
    }
}

/// Whether U-Boot's `test` asks for a file where the language does not.
fn is_file_test(name: Name, words: usize, text: &[u8]) -> bool
    ensures { result ≡ spec.is_file_test name words text.now }
{
    match name {
        Name::Test => 2 <= words && text == b"-e".as_slice(),
        Name::TestFile => words == 5,
        Name::TestText | Name::SetEnv | Name::Other => false,
    }
}

/// Whether a word is an option of `setenv`, or an empty name.
fn is_option(name: Name, words: usize, text: &[u8]) -> bool
    ensures { result ≡ spec.is_option name words text.now }
{
    match name {
        Name::SetEnv => words == 1 && (starts_with(text, b'-') || is_empty_word(text)),
        Name::Test | Name::TestFile | Name::TestText | Name::Other => false,
    }
}

/// Adds the warnings of a word of a call, after so many others. Errors: memory ran out.
fn push_operand(
    found: &mut Vec<Found>,
    name: Name,
    words: usize,
    seen: Seen,
    text: &[u8],
    at: usize,
) -> Result<(), AllocError>
    ensures { OnOk result (shown.all_found found.new.items
        ≡ spec.by_operand name words seen text.now at (shown.all_found found.old.items)) }
{
    let partly = seen.quoted && seen.loose;
    push_when(found, text == b"''".as_slice(), at, Warning::EmptyWord)?;
    push_when(found, partly, at, Warning::PartlyQuoted)?;
    push_when(
        found,
        is_loose_operand(name, seen),
        at,
        Warning::LooseOperand,
    )?;
    push_when(
        found,
        is_file_test(name, words, text),
        at,
        Warning::FileTest,
    )?;
    push_when(
        found,
        is_option(name, words, text),
        at,
        Warning::OptionOfSetenv,
    )?;
    push_when(found, words == 16, at, Warning::ManyWords)
}

/// Whether U-Boot's old shell makes other fields of a word of a `for`.
fn is_read_otherwise(seen: Seen, text: &[u8]) -> bool
    ensures { result ≡ spec.is_read_otherwise seen text.now }
{
    seen.space || seen.held || is_empty_word(text)
}

/// Adds the warnings of the variable of a `for`. Errors: memory ran out.
fn push_variable(found: &mut Vec<Found>, text: &[u8], at: usize) -> Result<(), AllocError>
    ensures { OnOk result (shown.all_found found.new.items
        ≡ spec.by_variable text.now at (shown.all_found found.old.items)) }
{
    push_when(
        found,
        is_reserved(start_of(text)),
        at,
        Warning::ReservedName,
    )?;
    push_when(found, starts_with(text, b'_'), at, Warning::UnderscoreName)
}

/// Adds the warnings of a word by where it is. Errors: memory ran out.
fn push_stand(
    found: &mut Vec<Found>,
    stand: Stand,
    seen: Seen,
    text: &[u8],
    at: usize,
) -> Result<(), AllocError>
    ensures { OnOk result (shown.all_found found.new.items
        ≡ spec.by_stand stand seen text.now at (shown.all_found found.old.items)) }
{
    match stand {
        Stand::Fresh | Stand::Begins | Stand::Assigned => push_start(found, text, at),
        Stand::Behind => {
            push_when(found, true, at, Warning::StraightBehind)?;
            push_start(found, text, at)
        }
        Stand::Called(name, words) => push_operand(found, name, words, seen, text, at),
        Stand::Variable => push_variable(found, text, at),
        Stand::In => Ok(()),
        Stand::Items => push_when(found, is_read_otherwise(seen, text), at, Warning::WordOfFor),
    }
}

/// Adds the warnings of a word. Errors: memory ran out.
fn push_word(found: &mut Vec<Found>, stand: Stand, text: &[u8], at: usize) -> Result<(), AllocError>
    ensures { OnOk result (shown.all_found found.new.items
        ≡ spec.by_word stand text.now at (shown.all_found found.old.items)) }
{
    let seen = seen_in(text);
    push_stand(found, stand, seen, text, at)?;
    push_sights(found, seen, at)
}

/// Whether an operator is the other one than the one before it.
fn is_other(before: Link, now: Link) -> bool
    ensures { result ≡ spec.is_other before now }
{
    match before {
        Link::And => now == Link::Or,
        Link::Or => now == Link::And,
        Link::First => false,
    }
}

/// The operators of a list after the end of a line.
fn link_behind(stand: Stand, link: Link) -> Link
    ensures { result ≡ spec.link_behind stand link }
{
    match stand {
        Stand::Fresh | Stand::Begins => link,
        _ => Link::First,
    }
}

/// Where the words are after a separator.
fn behind_separator(stand: Stand) -> Stand
    ensures { result ≡ spec.behind_separator stand }
{
    match stand {
        Stand::Fresh => Stand::Fresh,
        _ => Stand::Begins,
    }
}

/// Whether a word goes on with a compound command, or ends it.
fn ends_block(start: Start) -> bool
    ensures { result ≡ spec.ends_block start }
{
    match start {
        Start::GoesOn | Start::Closes => true,
        _ => false,
    }
}

/// Whether a word is after a block that has no command.
fn is_end_of_empty(stand: Stand, text: &[u8]) -> bool
    ensures { result ≡ spec.is_end_of_empty stand text.now }
{
    match stand {
        Stand::Fresh => ends_block(start_of(text)),
        _ => false,
    }
}

/// Adds a place, if something is so there. Errors: memory ran out.
fn push_place_when(places: &mut Vec<usize>, holds: bool, at: usize) -> Result<(), AllocError>
    ensures { OnOk result (places.new.items ≡ spec.place_when holds at places.old.items) }
{
    if !holds {
        return Ok(());
    }
    places.push(at)?;
    Ok(())
}

/// Where the words are, after no operator.
fn seated(stand: Stand, link: Link) -> Seat
    ensures { result ≡ spec.seated stand link }
{
    Seat {
        stand,
        link,
        operator: None,
    }
}

/// How far a text is read, and what was found in it.
#[derive(Drop)]
struct Watch {
    /// The operators of the lists that the open compound commands are in, the innermost last.
    outer: Vec<Link>,
    /// Where the next token is.
    seat: Seat,
    /// What was found, in the order of the text.
    found: Vec<Found>,
    /// The places of the words in front of which a block has no command.
    blocks: Vec<usize>,
}

impl Model for Watch {
    ghost use Rattle.std.specs.Prelude.{reverse};
    ghost use Rattle.hushcheck.specs.Remarks as shown;
    ghost use Rattle.hushcheck.specs.Warnings as spec;

    ghost Value = { spec.Watch };

    ghost view = { λ w. record {
      outer = reverse w.outer.items;
      seat = w.seat;
      found = shown.all_found w.found.items;
      blocks = w.blocks.items;
    } };
}

impl Watch {
    /// The start of a text.
    fn new(alloc: Global) -> Watch
        ensures { result ≡ spec.first_watch }
    {
        Watch {
            outer: Vec::new(alloc),
            seat: seated(Stand::Begins, Link::First),
            found: Vec::new(alloc),
            blocks: Vec::new(alloc),
        }
    }

    /// The next word is here, in the same list.
    fn stand(&mut self, stand: Stand)
        ensures { self.new ≡ spec.stands stand self.old }
    {
        self.seat = seated(stand, self.seat.link);
    }

    /// A block begins.
    fn begin_block(&mut self)
        ensures { self.new ≡ spec.begins_block self.old }
    {
        self.seat = seated(Stand::Fresh, Link::First);
    }

    /// A compound command begins. Errors: memory ran out.
    fn open(&mut self, stand: Stand) -> Result<(), AllocError>
        ensures { OnOk result (self.new ≡ spec.opened stand self.old) }
    {
        self.outer.push(self.seat.link)?;
        self.seat = seated(stand, Link::First);
        Ok(())
    }

    /// A compound command ends.
    fn close(&mut self)
        ensures { self.new ≡ spec.closed self.old }
    {
        match self.outer.pop() {
            Some(link) => self.seat = seated(Stand::Behind, link),
            None => self.seat = seated(Stand::Behind, Link::First),
        }
    }

    /// Passes a word that may start a command. Errors: memory ran out.
    fn pass_start(&mut self, text: &[u8]) -> Result<(), AllocError>
        ensures { OnOk result (self.new
            ≡ spec.behind_start (seat.start_of text.now) text.now self.old) }
    {
        match start_of(text) {
            Start::Opens => return self.open(Stand::Fresh),
            Start::For => return self.open(Stand::Variable),
            Start::GoesOn => self.begin_block(),
            Start::Closes => self.close(),
            start => self.stand(behind_first(start, text)),
        }
        Ok(())
    }

    /// Passes a word after assignments.
    fn pass_assigned(&mut self, text: &[u8])
        ensures { self.new ≡ spec.behind_assigned (seat.start_of text.now) text.now self.old }
    {
        match start_of(text) {
            Start::Assigns => self.stand(Stand::Assigned),
            _ => self.stand(behind_first(Start::Command, text)),
        }
    }

    /// Passes a word. Errors: memory ran out.
    fn pass_word(&mut self, text: &[u8]) -> Result<(), AllocError>
        ensures { OnOk result (self.new
            ≡ spec.behind_word self.old.seat.stand text.now self.old) }
    {
        match self.seat.stand {
            Stand::Fresh | Stand::Begins | Stand::Behind => return self.pass_start(text),
            Stand::Assigned => self.pass_assigned(text),
            stand => self.stand(behind_later(stand, text)),
        }
        Ok(())
    }

    /// Adds what is found at a word. Errors: memory ran out.
    fn see_word(&mut self, text: &[u8], at: usize) -> Result<(), AllocError>
        ensures { OnOk result (self.new ≡ spec.seen_word text.now at self.old) }
    {
        push_word(&mut self.found, self.seat.stand, text, at)?;
        let empty = is_end_of_empty(self.seat.stand, text);
        push_place_when(&mut self.blocks, empty, at)
    }

    /// Takes a word. Errors: memory ran out.
    fn take_word(&mut self, text: &[u8], at: usize) -> Result<(), AllocError>
        ensures { OnOk result (self.new ≡ spec.after_word text.now at self.old) }
    {
        self.see_word(text, at)?;
        self.pass_word(text)
    }

    /// Takes an operator. Errors: memory ran out.
    fn take_operator(&mut self, link: Link, at: usize) -> Result<(), AllocError>
        ensures { OnOk result (self.new ≡ spec.after_operator link at self.old) }
    {
        let other = is_other(self.seat.link, link);
        push_when(&mut self.found, other, at, Warning::MixedList)?;
        self.seat = Seat {
            stand: Stand::Begins,
            link,
            operator: Some(at),
        };
        Ok(())
    }

    /// Adds the warning of an operator at the end of a line, if there is one. Errors: memory ran
    /// out.
    fn warn_at_line_end(&mut self) -> Result<(), AllocError>
        ensures { OnOk result (self.new ≡ spec.with_found
            (spec.at_line_end self.old.seat.operator self.old.found) self.old) }
    {
        match self.seat.operator {
            Some(at) => push_when(&mut self.found, true, at, Warning::OperatorAtLineEnd),
            None => Ok(()),
        }
    }

    /// Takes the end of a line. Errors: memory ran out.
    fn take_newline(&mut self) -> Result<(), AllocError>
        ensures { OnOk result (self.new ≡ spec.after_newline self.old) }
    {
        self.warn_at_line_end()?;
        let link = link_behind(self.seat.stand, self.seat.link);
        self.seat = seated(behind_separator(self.seat.stand), link);
        Ok(())
    }

    /// Takes a semicolon.
    fn take_semicolon(&mut self)
        ensures { self.new ≡ spec.after_semicolon self.old }
    {
        self.seat = seated(behind_separator(self.seat.stand), Link::First);
    }

    /// Takes a token of a kind, with its bytes and its place. Errors: memory ran out.
    fn take(&mut self, kind: Kind, text: &[u8], at: usize) -> Result<(), AllocError>
        ensures { OnOk result (self.new ≡ spec.after_kind kind text.now at self.old) }
    {
        match kind {
            Kind::Word => self.take_word(text, at),
            Kind::Semi => {
                self.take_semicolon();
                Ok(())
            }
            Kind::Newline => self.take_newline(),
            Kind::AndAnd => self.take_operator(Link::And, at),
            Kind::OrOr => self.take_operator(Link::Or, at),
        }
    }
}

/// What the shells of U-Boot read otherwise in a text.
#[derive(Drop)]
pub(crate) struct Warnings {
    /// What they do otherwise, in the order of the text.
    pub(crate) found: Vec<Found>,
    /// The places of the words in front of which a block has no command.
    pub(crate) blocks: Vec<usize>,
}

/// What the shells of U-Boot read otherwise in a text. Errors: memory ran out.
pub(crate) fn warnings_of(alloc: Global, text: &[u8]) -> Result<Warnings, AllocError>
    ensures found { IfOk result (λ warnings. shown.all_found warnings.found.items
        ≡ spec.warnings_of text.now) }
    ensures blocks { IfOk result (λ warnings. warnings.blocks.items ≡ spec.blocks_of text.now) }
{
    let mut lexer = Lexer::new(text);
    let mut watch = Watch::new(alloc);
    'tokens: while let Ok(Some(token)) = lexer.next() {
        watch.take(token.kind, token.text, token.start)?;
    }
    let Watch { found, blocks, .. } = watch;
    Ok(Warnings { found, blocks })
}
