//! The tree of a text on the way, token by token.
ghost use Rattle.std.specs.Prelude.{◌≡◌, map, IfOk, OnOk};
ghost use Rattle.hushlang.specs.Tree as tree;
ghost use Rattle.hushlang.specs.TreesShown as view;
ghost use Rattle.hushlang_modern.specs.ModernTokensShown as tokens;
ghost use Rattle.hushlang_modern.specs.ModernTrees as says;
ghost use Rattle.hushlang_modern.specs.ModernTreesShown as shown;
ghost use Rattle.hushlang_modern.specs.ModernWords as words;

use crate::found_words::{
    is_assignment, is_exclamation, is_hazard, is_sign, is_strange, is_sure, name_in,
    reserved_first, reserved_in, value_of, words_of,
};
use crate::modern_text::ModernText;
use crate::modern_tokens::{FoundWord, Token};
use crate::stop::Stop;
use hushlang::{Command, Op, Word};
use hushlang_uboot::{Gone, Nest, Part, Reserved, begins, call_of, is_header};
use std::alloc::{AllocError, Global};
use std::mem;

/// The block on the way and the compound commands that are open; the assignments on the way; the words
/// on the way; whether a compound command has just ended; whether the next word may be the first one
/// after `if`, `while` or `until` to have a byte; whether the list on the way has no operator, and
/// is the first of the text or after another one of its block; whether all this is in a group in `( )`;
/// whether no word has been read; whether none had been as the last compound command began; whether `!`
/// has just been read; and what becomes of the text as it is run, if a `for` in it is none.
#[derive(Drop)]
pub(crate) struct Building {
    alloc: Global,
    nest: Nest,
    values: Vec<(Vec<u8>, Word)>,
    words: Vec<FoundWord>,
    closed: bool,
    fresh: bool,
    plain: bool,
    grouped: bool,
    untouched: bool,
    alone: bool,
    marked: bool,
    doom: Option<Stop>,
}

impl Building {
    /// Nothing is built yet.
    pub(crate) fn new(alloc: Global) -> Building
        ensures { shown.building result ≡ says.nothing_built }
    {
        Building {
            alloc,
            nest: Nest::new(alloc),
            values: Vec::new(alloc),
            words: Vec::new(alloc),
            closed: false,
            fresh: false,
            plain: true,
            grouped: false,
            untouched: true,
            alone: false,
            marked: false,
            doom: None,
        }
    }

    /// Whether a simple command is on the way.
    fn has_begun(&self) -> bool
        ensures { result ≡ says.has_begun (shown.building self.now) }
    {
        !self.words.is_empty() || !self.values.is_empty()
    }

    /// Whether a command is on the way.
    fn has_command(&self) -> bool
        ensures { result ≡ says.has_command (shown.building self.now) }
    {
        self.closed || self.has_begun()
    }

    /// The command on the way, whose words and values are let go.
    fn take_command(&mut self) -> Result<Command, AllocError>
        ensures command { IfOk result (λ command. view.command command
            ≡ says.command_of (shown.building self.old)) }
        ensures after { OnOk result (shown.building self.new
            ≡ says.without_words (shown.building self.old)) }
    {
        self.closed = false;
        let values = mem::replace(&mut self.values, Vec::new(self.alloc));
        let words = mem::replace(&mut self.words, Vec::new(self.alloc));
        command_of(self.alloc, values, words)
    }

    /// The command on the way ends (`done_command`).
    fn end_command(&mut self) -> Result<(), AllocError>
        ensures { OnOk result (shown.building self.new
            ≡ says.command_ended (shown.building self.old)) }
    {
        if !self.has_begun() {
            self.closed = false;
            return Ok(());
        }
        let command = self.take_command()?;
        self.nest.push(command)
    }

    /// A compound command begins.
    fn begin(&mut self, word: Reserved) -> Result<Option<Stop>, AllocError>
        ensures { IfOk result (λ stop. says.opened word (shown.building self.old)
            ≡ shown.unless stop (shown.building self.new)) }
    {
        if self.nest.is_full() || self.closed {
            return Ok(Some(Stop::Unsupported));
        }
        self.nest.begin(word)?;
        self.fresh = true;
        self.plain = false;
        self.alone = self.untouched;
        self.untouched = false;
        Ok(None)
    }

    /// The shell gives up where it runs the innermost `for`.
    fn doom(&mut self)
        ensures { shown.building self.new ≡ says.doomed (shown.building self.old) }
    {
        if self.doom.is_some() {
            return;
        }
        self.doom = Some(if self.alone {
            Stop::Panics
        } else {
            Stop::Unsupported
        });
    }

    /// The body of a `for` ends at this word, if it ends one.
    fn end_body(&mut self, word: Reserved)
        ensures { shown.building self.new ≡ says.body_ended word (shown.building self.old) }
    {
        if is_end_of_for(self.nest.part(), word) && self.nest.lacks_command() {
            self.doom();
        }
    }

    /// Whether a reserved word is not followed here.
    fn is_unfollowed(&self, word: Reserved) -> bool
        ensures { result ≡ says.is_unfollowed word (shown.building self.now) }
    {
        let part = self.nest.part();
        is_behind_given(part, word) || (needs_command(part, word) && self.nest.lacks_command())
    }

    /// A reserved word goes on with the innermost compound command, or ends it.
    fn go_on(&mut self, word: Reserved) -> Result<Option<Stop>, AllocError>
        ensures { IfOk result (λ stop. says.goes_on word (shown.building self.old)
            ≡ shown.unless stop (shown.building self.new)) }
    {
        if self.is_unfollowed(word) {
            return Ok(Some(Stop::Unsupported));
        }
        self.end_body(word);
        match self.nest.go_on(word)? {
            Gone::Entered => self.closed = false,
            Gone::Closed => {
                self.closed = true;
                self.fresh = true;
            }
            Gone::Astray => return Ok(Some(Stop::Panics)),
        }
        self.plain = false;
        Ok(None)
    }

    /// Whether this word begins the block of an `if` whose condition holds without a command.
    fn is_given(&self, word: Reserved) -> bool
        ensures { result ≡ says.is_given word (shown.building self.now) }
    {
        is_first_then(self.nest.part(), word) && self.nest.lacks_command()
    }

    /// A reserved word after a block.
    fn read_part(&mut self, word: Reserved) -> Result<Option<Stop>, AllocError>
        ensures { IfOk result (λ stop. says.part_read word (shown.building self.old)
            ≡ shown.unless stop (shown.building self.new)) }
    {
        if !self.is_given(word) {
            return self.go_on(word);
        }
        self.nest.begin_given()?;
        self.closed = false;
        self.plain = false;
        Ok(None)
    }

    /// A reserved word at the beginning of a command.
    fn read_reserved(&mut self, word: Reserved) -> Result<Option<Stop>, AllocError>
        ensures { IfOk result (λ stop. says.reserved_read word (shown.building self.old)
            ≡ shown.unless stop (shown.building self.new)) }
    {
        if begins(word) {
            return self.begin(word);
        }
        self.read_part(word)
    }

    /// A further word of a command, or of a `for`.
    fn push_word(&mut self, word: FoundWord) -> Result<(), AllocError>
        ensures { OnOk result (shown.building self.new
            ≡ says.with_word (tokens.word word) (shown.building self.old)) }
    {
        self.words.push(word)?;
        self.fresh = false;
        self.untouched = false;
        Ok(())
    }

    /// An assignment.
    fn push_value(&mut self, value: (Vec<u8>, Word)) -> Result<Option<Stop>, AllocError>
        ensures { IfOk result (λ stop. says.with_assignment (view.value value)
            (shown.building self.old) ≡ shown.unless stop (shown.building self.new)) }
    {
        if is_strange(&value.0) {
            return Ok(Some(Stop::Unsupported));
        }
        self.values.push(value)?;
        self.fresh = false;
        self.untouched = false;
        Ok(None)
    }

    /// The first word of a command that is no assignment.
    fn begin_words(&mut self, word: FoundWord) -> Result<Option<Stop>, AllocError>
        ensures { IfOk result (λ stop. says.word_begun (tokens.word word)
            (shown.building self.old) ≡ shown.unless stop (shown.building self.new)) }
    {
        if !self.values.is_empty() && !is_sure(&word) {
            return Ok(Some(Stop::Unsupported));
        }
        self.values = Vec::new(self.alloc);
        self.push_word(word)?;
        Ok(None)
    }

    /// A word before which at most assignments are, which is not reserved.
    fn begin_command(&mut self, word: FoundWord) -> Result<Option<Stop>, AllocError>
        ensures { IfOk result (λ stop. says.command_begun (tokens.word word)
            (shown.building self.old) ≡ shown.unless stop (shown.building self.new)) }
    {
        if self.closed {
            return Ok(Some(Stop::Panics));
        }
        if self.fresh && is_hazard(&word) {
            return Ok(Some(Stop::Unsupported));
        }
        if is_assignment(&word) {
            let value = value_of(self.alloc, word)?;
            return self.push_value(value);
        }
        self.begin_words(word)
    }

    /// The word after a `!`.
    fn read_marked_word(&mut self, word: FoundWord) -> Result<Option<Stop>, AllocError>
        ensures { IfOk result (λ stop. says.marked_word (tokens.word word)
            (shown.building self.old) ≡ shown.unless stop (shown.building self.new)) }
    {
        if !runs_surely(&word) {
            return Ok(Some(Stop::Unsupported));
        }
        self.marked = false;
        self.begin_command(word)
    }

    /// A word before which nothing is, and no `!`.
    fn read_unmarked_word(&mut self, word: FoundWord) -> Result<Option<Stop>, AllocError>
        ensures { IfOk result (λ stop. says.unmarked_word (tokens.word word)
            (shown.building self.old) ≡ shown.unless stop (shown.building self.new)) }
    {
        if is_exclamation(&word) {
            if self.closed {
                return Ok(Some(Stop::Unsupported));
            }
            self.marked = true;
            return Ok(None);
        }
        match reserved_first(&word) {
            Some(reserved) => self.read_reserved(reserved),
            None => self.begin_command(word),
        }
    }

    /// A word before which nothing is, or a `!`.
    fn read_first_word(&mut self, word: FoundWord) -> Result<Option<Stop>, AllocError>
        ensures { IfOk result (λ stop. says.first_word (tokens.word word)
            (shown.building self.old) ≡ shown.unless stop (shown.building self.new)) }
    {
        if self.marked {
            return self.read_marked_word(word);
        }
        self.read_unmarked_word(word)
    }

    /// A word of a command, or a reserved word.
    fn read_command_word(&mut self, word: FoundWord) -> Result<Option<Stop>, AllocError>
        ensures { IfOk result (λ stop. says.command_word (tokens.word word)
            (shown.building self.old) ≡ shown.unless stop (shown.building self.new)) }
    {
        if !self.words.is_empty() {
            self.push_word(word)?;
            return Ok(None);
        }
        if !self.values.is_empty() {
            return self.begin_command(word);
        }
        self.read_first_word(word)
    }

    /// A word of a `for`.
    fn read_word_of_for(&mut self, word: FoundWord) -> Result<Option<Stop>, AllocError>
        ensures { IfOk result (λ stop. says.word_of_for (tokens.word word)
            (shown.building self.old) ≡ shown.unless stop (shown.building self.new)) }
    {
        if is_sign(&word) && self.words.is_empty() {
            return Ok(Some(Stop::Unsupported));
        }
        self.push_word(word)?;
        Ok(None)
    }

    /// The word after `for`: its name.
    fn read_name(&mut self, word: FoundWord) -> Result<Option<Stop>, AllocError>
        ensures { IfOk result (λ stop. says.name_read (tokens.word word)
            (shown.building self.old) ≡ shown.unless stop (shown.building self.new)) }
    {
        if is_sign(&word) || word.quoted {
            return Ok(Some(Stop::Unsupported));
        }
        let Some(name) = name_in(&word) else {
            return Ok(Some(Stop::Panics));
        };
        if is_strange(name) {
            return Ok(Some(Stop::Unsupported));
        }
        self.nest.set_name(name.to_vec(self.alloc)?)?;
        Ok(None)
    }

    /// A reserved word after the name of a `for`, or after its words.
    fn read_reserved_in_for(&mut self, word: Reserved) -> Result<Option<Stop>, AllocError>
        ensures { IfOk result (λ stop. says.reserved_in_for word (shown.building self.old)
            ≡ shown.unless stop (shown.building self.new)) }
    {
        if begins(word) {
            return Ok(Some(Stop::Unsupported));
        }
        self.go_on(word)
    }

    /// The first word of a command where a `for` has none.
    fn read_stray_word(&mut self, word: FoundWord) -> Result<Option<Stop>, AllocError>
        ensures { IfOk result (λ stop. says.stray_word (tokens.word word)
            (shown.building self.old) ≡ shown.unless stop (shown.building self.new)) }
    {
        if is_sign(&word) {
            return Ok(Some(Stop::Unsupported));
        }
        self.push_word(word)?;
        self.doom();
        Ok(None)
    }

    /// A word after the name of a `for`, or after its words.
    fn read_word_in_for(&mut self, word: FoundWord) -> Result<Option<Stop>, AllocError>
        ensures { IfOk result (λ stop. says.word_in_for (tokens.word word)
            (shown.building self.old) ≡ shown.unless stop (shown.building self.new)) }
    {
        if !self.words.is_empty() {
            self.push_word(word)?;
            return Ok(None);
        }
        match reserved_in(&word) {
            Some(reserved) => self.read_reserved_in_for(reserved),
            None => self.read_stray_word(word),
        }
    }

    /// A word.
    fn read_word(&mut self, word: FoundWord) -> Result<Option<Stop>, AllocError>
        ensures { IfOk result (λ stop. says.word_at (says.part_in (shown.building self.old))
            (tokens.word word) (shown.building self.old)
            ≡ shown.unless stop (shown.building self.new)) }
    {
        match self.nest.part() {
            Part::Name => self.read_name(word),
            Part::In | Part::Do => self.read_word_in_for(word),
            Part::Words => self.read_word_of_for(word),
            _ => self.read_command_word(word),
        }
    }

    /// The command on the way ends, and one that is joined by this operator follows.
    fn join_by(&mut self, op: Op) -> Result<(), AllocError>
        ensures { OnOk result (shown.building self.new
            ≡ says.joined_by op (shown.building self.old)) }
    {
        if !self.has_command() {
            return Ok(());
        }
        self.end_command()?;
        self.nest.set_operator(op);
        self.plain = false;
        Ok(())
    }

    /// `&&` or `||`.
    fn join(&mut self, op: Op) -> Result<Option<Stop>, AllocError>
        ensures { IfOk result (λ stop. says.join_in op (shown.building self.old)
            ≡ shown.unless stop (shown.building self.new)) }
    {
        if is_header(self.nest.part()) {
            return Ok(Some(Stop::Unsupported));
        }
        self.join_by(op)?;
        Ok(None)
    }

    /// The and-or list on the way ends.
    fn end_list(&mut self) -> Result<(), AllocError>
        ensures { OnOk result (shown.building self.new
            ≡ says.all_ended (shown.building self.old)) }
    {
        self.end_command()?;
        self.plain = true;
        self.nest.end_list()
    }

    /// The and-or list on the way ends at a separator, if a command is on the way.
    fn separate(&mut self) -> Result<(), AllocError>
        ensures { OnOk result (shown.building self.new
            ≡ says.list_separated (shown.building self.old)) }
    {
        if !self.has_command() {
            return Ok(());
        }
        self.end_list()
    }

    /// The words of a `for` are whole.
    fn end_words(&mut self) -> Result<(), AllocError>
        ensures { OnOk result (shown.building self.new ≡ says.words_ended (shown.building self.old)) }
    {
        let found = mem::replace(&mut self.words, Vec::new(self.alloc));
        self.nest.set_words(words_of(self.alloc, found)?)
    }

    /// `;`, or a newline.
    fn end(&mut self, newline: bool) -> Result<Option<Stop>, AllocError>
        ensures { IfOk result (λ stop. says.end_at (says.part_in (shown.building self.old)) newline
            (shown.building self.old) ≡ shown.unless stop (shown.building self.new)) }
    {
        match self.nest.part() {
            Part::Name => return Ok(Some(Stop::Unsupported)),
            Part::Words if newline && self.words.is_empty() => (),
            Part::Words => self.end_words()?,
            Part::In | Part::Do => self.words = Vec::new(self.alloc),
            _ => self.separate()?,
        }
        Ok(None)
    }

    /// A single `&`.
    fn end_at_ampersand(&mut self) -> Result<Option<Stop>, AllocError>
        ensures { IfOk result (λ stop. says.ampersand_in (shown.building self.old)
            ≡ shown.unless stop (shown.building self.new)) }
    {
        if is_header(self.nest.part()) || !self.plain {
            return Ok(Some(Stop::Unsupported));
        }
        self.separate()?;
        Ok(None)
    }

    /// A single `|`.
    fn read_bar(&self) -> Option<Stop>
        ensures { says.bar_in (shown.building self.now) ≡ shown.unless result (shown.building self.now) }
    {
        if is_header(self.nest.part()) || self.has_command() {
            return Some(Stop::Unsupported);
        }
        None
    }

    /// A group begins.
    fn begin_group(&mut self)
        ensures { shown.building self.new ≡ says.group_begun }
    {
        self.nest = Nest::new(self.alloc);
        self.values = Vec::new(self.alloc);
        self.words = Vec::new(self.alloc);
        self.closed = false;
        self.fresh = false;
        self.plain = true;
        self.grouped = true;
        self.untouched = true;
        self.alone = false;
        self.marked = false;
        self.doom = None;
    }

    /// `(`, and whether it is after a word that has quotes.
    fn read_opening(&mut self, quoted: bool) -> Option<Stop>
        ensures { says.opening_in quoted (shown.building self.old)
            ≡ shown.unless result (shown.building self.new) }
    {
        if quoted && self.fresh {
            return Some(Stop::Unsupported);
        }
        self.begin_group();
        None
    }

    /// Whether a `)` ends a group.
    fn ends_group(&self) -> bool
        ensures { result ≡ says.ends_group (shown.building self.now) }
    {
        self.grouped && !self.nest.is_open() && !self.nest.lacks_command()
    }

    /// A `)` that no byte of a word is in front of.
    fn read_closing(&self) -> Option<Stop>
        ensures { says.closing_in (shown.building self.now) ≡ shown.unless result (shown.building self.now) }
    {
        if self.has_begun() {
            return None;
        }
        Some(if self.ends_group() {
            Stop::Unsupported
        } else {
            Stop::Panics
        })
    }

    /// Whether `{` has just been read.
    fn is_behind_brace(&self) -> bool
        ensures { result ≡ says.is_behind_brace (shown.building self.now) }
    {
        is_in_braces(self.nest.part()) && self.nest.lacks_command() && !self.has_command()
    }

    /// Whether a token that is no word is not followed here.
    fn is_refused(&self, token: &Token) -> bool
        ensures { result ≡ says.is_refused (tokens.token token.now) (shown.building self.now) }
    {
        match token {
            Token::Word(_) => false,
            Token::NewLine | Token::Closing => self.marked,
            _ => self.marked || self.is_behind_brace(),
        }
    }

    /// Reads a token. The answer is how the reading stops there, if it does.
    #[tactic(auto, unfolding(crate::specs::ModernTrees::read_token))]
    pub(crate) fn read_token(&mut self, token: Token) -> Result<Option<Stop>, AllocError>
        ensures { IfOk result (λ stop. says.read_token (tokens.token token)
            (shown.building self.old) ≡ shown.unless stop (shown.building self.new)) }
    {
        if self.is_refused(&token) {
            return Ok(Some(Stop::Unsupported));
        }
        match token {
            Token::Word(word) => self.read_word(word),
            Token::NewLine => self.end(true),
            Token::Semicolon => self.end(false),
            Token::Ampersand => self.end_at_ampersand(),
            Token::Bar => Ok(self.read_bar()),
            Token::Joins(op) => self.join(op),
            Token::Opening(quoted) => Ok(self.read_opening(quoted)),
            Token::Closing => Ok(self.read_closing()),
        }
    }

    /// How the reading stops after the tokens. `quoted` says whether it stops in a word that has quotes.
    pub(crate) fn stop_behind(&self, quoted: bool, stop: Stop) -> Stop
        ensures { result ≡ says.stop_behind quoted stop (shown.building self.now) }
    {
        if quoted && self.fresh {
            Stop::Unsupported
        } else {
            stop
        }
    }

    /// Ends the text: its tree, if no compound command is open.
    pub(crate) fn end_text(&mut self) -> Result<ModernText, AllocError>
        ensures { IfOk result (λ text. shown.text text ≡ says.text_ended (shown.building self.old)) }
    {
        if self.marked || self.is_behind_brace() {
            return Ok(ModernText::Unread(Stop::Unsupported));
        }
        if self.nest.is_open() {
            return Ok(ModernText::Unread(Stop::Fails));
        }
        if let Some(stop) = self.doom {
            return Ok(ModernText::Unread(stop));
        }
        self.end_list()?;
        Ok(ModernText::Read(self.nest.take_script()))
    }
}

/// A simple command of these words.
#[tactic(auto, using(hushlang::proofs::ViewLemmas::what_it_says))]
fn simple(alloc: Global, found: Vec<FoundWord>) -> Result<Command, AllocError>
    ensures { IfOk result (λ command. view.command command
        ≡ tree.Simple (map words.word_of (map tokens.word found.items))) }
{
    let words = words_of(alloc, found)?;
    Ok(Command::Simple(call_of(alloc, words)?))
}

/// The command of assignments, or of the words after them.
#[tactic(auto, using(hushlang::proofs::ViewLemmas::what_it_says, crate::proofs::BuildingLemmas::commands))]
fn command_of(
    alloc: Global,
    values: Vec<(Vec<u8>, Word)>,
    found: Vec<FoundWord>,
) -> Result<Command, AllocError>
    ensures { IfOk result (λ command. view.command command
        ≡ says.command_by (view.values_in values) (map tokens.word found.items)) }
{
    if found.is_empty() {
        return Ok(Command::Assign(values));
    }
    simple(alloc, found)
}

/// Whether a block that this word ends, in this part, has to hold a command.
fn needs_command(part: Part, word: Reserved) -> bool
    ensures { result ≡ says.needs_command part word }
{
    match (part, word) {
        (Part::Condition(_), Reserved::Then) => true,
        (Part::Arm(further), Reserved::Elif) => further,
        (Part::Test, Reserved::Do) => true,
        (Part::Group(_), Reserved::CloseBrace) => true,
        _ => false,
    }
}

/// Whether a word is `then` after the first condition of an `if`.
fn is_first_then(part: Part, word: Reserved) -> bool
    ensures { result ≡ says.is_first_then part word }
{
    match (part, word) {
        (Part::Condition(false), Reserved::Then) => true,
        _ => false,
    }
}

/// Whether a word is after the block of an `if` whose condition held without a command.
fn is_behind_given(part: Part, word: Reserved) -> bool
    ensures { result ≡ says.is_behind_given part word }
{
    match (part, word) {
        (Part::Group(false), Reserved::Elif | Reserved::Else) => true,
        _ => false,
    }
}

/// Whether a part is in braces.
fn is_in_braces(part: Part) -> bool
    ensures { result ≡ says.is_in_braces part }
{
    match part {
        Part::Group(true) => true,
        _ => false,
    }
}

/// Whether a word after `!` is the first one of a simple command that runs.
fn runs_surely(word: &FoundWord) -> bool
    ensures { result ≡ says.runs_surely (tokens.word word.now) }
{
    is_sure(word) && !(is_sign(word) || reserved_in(word).is_some() || is_assignment(word))
}

/// Whether the body of a `for` ends at this word, in this part.
fn is_end_of_for(part: Part, word: Reserved) -> bool
    ensures { result ≡ says.is_end_of_for part word }
{
    match (part, word) {
        (Part::Each, Reserved::Done) => true,
        _ => false,
    }
}
