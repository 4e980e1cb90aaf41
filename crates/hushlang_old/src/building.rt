//! The tree of a text on the way, token by token.
ghost use Rattle.std.specs.Prelude.{◌≡◌, map, option_map, IfOk, OnOk};
ghost use Rattle.std.specs.List.{list_all};
ghost use Rattle.hushlang.specs.TreesShown as view;
ghost use Rattle.hushlang_old.specs.OldTokensShown as tokens;
ghost use Rattle.hushlang_old.specs.OldTrees as says;
ghost use Rattle.hushlang_old.specs.OldTreesShown as shown;

use crate::found_words::{
    changes_shell, is_assignment, is_constant_word, misname_in, name_in, no_assignment,
    reserved_in, values_of, words_of,
};
use crate::old_tokens::{FoundWord, Token};
use crate::plain_exit::simple_call;
use hushlang::{Command, Op, Script};
use hushlang_uboot::{Gone, Nest, Part, Reserved, begins, is_do, is_header, is_in};
use std::alloc::{AllocError, Global};
use std::mem;

/// Whether the text is read for 2025.01; the block on the way and the compound commands that are open;
/// whether that block has had a separator; the words on the way, whether all of them are assignments,
/// and whether assignments are before them; whether a compound command has just ended; and of a `for` in
/// front of its body, whether it has no name, whether it is reported as a fault when it is run, and the
/// word for its name if that is none.
#[derive(Drop)]
pub(crate) struct Building {
    alloc: Global,
    newer: bool,
    nest: Nest,
    separated: bool,
    words: Vec<FoundWord>,
    assigning: bool,
    behind: bool,
    closed: bool,
    nameless: bool,
    spoilt: bool,
    misname: Vec<u8>,
}

impl Building {
    /// Nothing is built yet. `newer` says whether the text is read for 2025.01.
    pub(crate) fn new(alloc: Global, newer: bool) -> Building
        ensures { shown.building result ≡ says.nothing_built newer }
    {
        Building {
            alloc,
            newer,
            nest: Nest::new(alloc),
            separated: false,
            words: Vec::new(alloc),
            assigning: false,
            behind: false,
            closed: false,
            nameless: false,
            spoilt: false,
            misname: Vec::new(alloc),
        }
    }

    /// The command of the words on the way, which are let go.
    #[tactic(auto, using(hushlang::proofs::ViewLemmas::what_it_says))]
    fn take_command(&mut self) -> Result<Command, AllocError>
        ensures command { IfOk result (λ command. view.command command
            ≡ says.command_of self.old.assigning (says.drops_number (shown.building self.old))
            (map tokens.word self.old.words.items)) }
        ensures after { OnOk result (shown.building self.new
            ≡ shown.without_words (shown.building self.old)) }
    {
        let words = mem::replace(&mut self.words, Vec::new(self.alloc));
        if self.assigning {
            self.assigning = false;
            return Ok(Command::Assign(values_of(self.alloc, words)?));
        }
        let words = words_of(self.alloc, words)?;
        let within = self.newer && self.is_open();
        Ok(Command::Simple(simple_call(self.alloc, within, words)?))
    }

    /// The words on the way are a command.
    fn end_command(&mut self) -> Result<(), AllocError>
        ensures { OnOk result (shown.building self.new
            ≡ says.command_ended (shown.building self.old)) }
    {
        self.closed = false;
        if self.words.is_empty() {
            return Ok(());
        }
        let command = self.take_command()?;
        self.behind = false;
        self.nest.push(command)
    }

    /// A compound command begins.
    fn begin(&mut self, word: Reserved) -> Result<bool, AllocError>
        ensures { IfOk result (λ followed. says.opened word (shown.building self.old)
            ≡ shown.when followed (shown.building self.new)) }
    {
        if self.nest.is_full() {
            return Ok(false);
        }
        self.nest.begin(word)?;
        self.separated = false;
        Ok(true)
    }

    /// A reserved word goes on with the innermost compound command, or ends it.
    fn go_on(&mut self, word: Reserved) -> Result<bool, AllocError>
        ensures { IfOk result (λ followed. says.goes_on word (shown.building self.old)
            ≡ shown.when followed (shown.building self.new)) }
    {
        if needs_command(self.nest.part(), word, self.separated) && self.nest.lacks_command() {
            return Ok(false);
        }
        match self.nest.go_on(word)? {
            Gone::Entered => self.separated = false,
            Gone::Closed => self.closed = true,
            Gone::Astray => return Ok(false),
        }
        Ok(true)
    }

    /// A loop with an empty condition never runs its body, which this word begins.
    fn make_idle(&mut self, word: Reserved) -> Result<(), AllocError>
        ensures { OnOk result (shown.building self.new
            ≡ says.with_idle word (shown.building self.old)) }
    {
        if is_do_of(self.nest.part(), word) && self.nest.lacks_command() {
            return self.nest.make_idle();
        }
        Ok(())
    }

    /// Whether this word begins the block of an `if` whose condition holds without a command.
    fn is_given(&self, word: Reserved) -> bool
        ensures { result ≡ says.is_given word (shown.building self.now) }
    {
        is_first_then(self.nest.part(), word) && self.nest.lacks_command()
    }

    /// A reserved word after a block.
    fn read_part(&mut self, word: Reserved) -> Result<bool, AllocError>
        ensures { IfOk result (λ followed. says.part_read word (shown.building self.old)
            ≡ shown.when followed (shown.building self.new)) }
    {
        if self.is_given(word) {
            self.nest.begin_given()?;
            self.separated = false;
            return Ok(true);
        }
        self.make_idle(word)?;
        self.go_on(word)
    }

    /// A reserved word at the beginning of a command.
    fn read_reserved(&mut self, word: Reserved) -> Result<bool, AllocError>
        ensures { IfOk result (λ followed. says.reserved_read word (shown.building self.old)
            ≡ shown.when followed (shown.building self.new)) }
    {
        if begins(word) {
            return self.begin(word);
        }
        self.read_part(word)
    }

    /// The first word of a command, which is not reserved.
    fn begin_command(&mut self, word: FoundWord) -> Result<bool, AllocError>
        ensures { IfOk result (λ followed. says.command_begun (tokens.word word)
            (shown.building self.old) ≡ shown.when followed (shown.building self.new)) }
    {
        if word.pieces.is_empty() || (is_assignment(&word) && changes_shell(&word)) {
            return Ok(false);
        }
        self.assigning = is_assignment(&word);
        self.words.push(word)?;
        Ok(true)
    }

    /// Whether no variable and no status can change the words on the way and this one.
    #[tactic(auto, using(crate::proofs::BuildingLemmas::all_found))]
    fn is_constant_with(&self, word: &FoundWord) -> bool
        ensures { result ≡ says.is_constant_with (tokens.word word.now) (shown.building self.now) }
    {
        are_constant(&self.words) && is_constant_word(word)
    }

    /// The first word of a command that runs after assignments.
    fn begin_behind(&mut self, word: FoundWord) -> Result<bool, AllocError>
        ensures { IfOk result (λ followed. says.begun_behind (tokens.word word)
            (shown.building self.old) ≡ shown.when followed (shown.building self.new)) }
    {
        if !self.is_constant_with(&word) {
            return Ok(false);
        }
        self.join_by(Op::And)?;
        self.words.push(word)?;
        self.behind = true;
        Ok(true)
    }

    /// A further word of a command.
    fn add_word(&mut self, word: FoundWord) -> Result<bool, AllocError>
        ensures { IfOk result (λ followed. says.further_word (tokens.word word)
            (shown.building self.old) ≡ shown.when followed (shown.building self.new)) }
    {
        if self.assigning && !is_assignment(&word) {
            return self.begin_behind(word);
        }
        if self.behind && !is_constant_word(&word) {
            return Ok(false);
        }
        if self.assigning && changes_shell(&word) {
            return Ok(false);
        }
        self.words.push(word)?;
        Ok(true)
    }

    /// A word of a command, or a reserved word.
    fn read_command_word(&mut self, word: FoundWord) -> Result<bool, AllocError>
        ensures { IfOk result (λ followed. says.command_word (tokens.word word)
            (shown.building self.old) ≡ shown.when followed (shown.building self.new)) }
    {
        if self.closed {
            return Ok(false);
        }
        if !self.words.is_empty() {
            return self.add_word(word);
        }
        match reserved_in(&word) {
            Some(reserved) => self.read_reserved(reserved),
            None => self.begin_command(word),
        }
    }

    /// All in front of the body of a `for` has been read.
    fn end_header(&mut self) -> Result<(), AllocError>
        ensures { OnOk result (shown.building self.new ≡ says.header_read (shown.building self.old)) }
    {
        let spoilt = mem::replace(&mut self.spoilt, false);
        let nameless = mem::replace(&mut self.nameless, false);
        self.misname = Vec::new(self.alloc);
        if spoilt {
            return self.nest.make_unmet();
        }
        if nameless {
            return self.nest.make_idle();
        }
        Ok(())
    }

    /// The word for the name of a `for` that is none begins each turn, as a command.
    fn begin_turn(&mut self, misname: Vec<u8>) -> Result<(), AllocError>
        ensures { OnOk result (shown.building self.new
            ≡ says.with_misname misname.items (shown.building self.old)) }
    {
        if misname.is_empty() {
            return Ok(());
        }
        self.nest.push(no_assignment(self.alloc, misname)?)?;
        self.nest.end_list()
    }

    /// The body of a `for` begins.
    fn begin_body(&mut self) -> Result<bool, AllocError>
        ensures { IfOk result (λ followed. says.body_begun (shown.building self.old)
            ≡ shown.when followed (shown.building self.new)) }
    {
        let misname = mem::replace(&mut self.misname, Vec::new(self.alloc));
        self.end_header()?;
        if !self.go_on(Reserved::Do)? {
            return Ok(false);
        }
        self.begin_turn(misname)?;
        Ok(true)
    }

    /// A word of a `for`. If `do` is the first one, there is no list of words.
    fn read_word_of_for(&mut self, word: FoundWord) -> Result<bool, AllocError>
        ensures { IfOk result (λ followed. says.word_of_for (tokens.word word)
            (shown.building self.old) ≡ shown.when followed (shown.building self.new)) }
    {
        if self.words.is_empty() {
            match reserved_in(&word) {
                None => (),
                Some(Reserved::Do) => {
                    self.spoilt = !self.nameless;
                    return self.begin_body();
                }
                Some(_) => return Ok(false),
            }
        }
        self.words.push(word)?;
        Ok(true)
    }

    /// A word after the words of a `for`: `do`, or one of a further list.
    fn read_word_behind(&mut self, word: FoundWord) -> Result<bool, AllocError>
        ensures { IfOk result (λ followed. says.word_behind (tokens.word word)
            (shown.building self.old) ≡ shown.when followed (shown.building self.new)) }
    {
        if self.words.is_empty() {
            match reserved_in(&word) {
                None => self.spoilt = true,
                Some(Reserved::Do) => return self.begin_body(),
                Some(_) => return Ok(false),
            }
        }
        self.words.push(word)?;
        Ok(true)
    }

    /// A word after the name of a `for`: `in`, or a further word.
    fn read_in(&mut self, word: Option<Reserved>) -> Result<bool, AllocError>
        ensures { IfOk result (λ followed. says.word_at_in word (shown.building self.old)
            ≡ shown.when followed (shown.building self.new)) }
    {
        match word {
            None => {
                self.spoilt = true;
                Ok(true)
            }
            Some(Reserved::In) => self.go_on(Reserved::In),
            Some(_) => Ok(false),
        }
    }

    /// `in` straight after `for`.
    fn read_without_name(&mut self) -> Result<bool, AllocError>
        ensures { IfOk result (λ followed. says.without_name (shown.building self.old)
            ≡ shown.when followed (shown.building self.new)) }
    {
        if self.spoilt {
            return Ok(false);
        }
        self.nest.set_name(Vec::new(self.alloc))?;
        self.nameless = true;
        self.go_on(Reserved::In)
    }

    /// The word after `for`, which is no name.
    fn read_misname(&mut self, word: FoundWord) -> Result<bool, AllocError>
        ensures { IfOk result (λ followed. says.misnamed (says.misname_in (tokens.word word))
            (shown.building self.old) ≡ shown.when followed (shown.building self.new)) }
    {
        let Some(misname) = misname_in(&word) else {
            return Ok(false);
        };
        self.misname = misname.to_vec(self.alloc)?;
        self.nest.set_name(misname.to_vec(self.alloc)?)?;
        Ok(true)
    }

    /// The word after `for`: its name.
    fn read_name(&mut self, word: FoundWord) -> Result<bool, AllocError>
        ensures { IfOk result (λ followed. says.named (says.name_in (tokens.word word))
            (says.misname_in (tokens.word word)) (shown.building self.old)
            ≡ shown.when followed (shown.building self.new)) }
    {
        let Some(name) = name_in(&word) else {
            return self.read_misname(word);
        };
        self.nest.set_name(name.to_vec(self.alloc)?)?;
        Ok(true)
    }

    /// A word.
    fn read_word(&mut self, word: FoundWord) -> Result<bool, AllocError>
        ensures { IfOk result (λ followed. says.word_at (says.part_in (shown.building self.old))
            (tokens.word word) (shown.building self.old)
            ≡ shown.when followed (shown.building self.new)) }
    {
        match self.nest.part() {
            Part::Name if is_in(reserved_in(&word)) => self.read_without_name(),
            Part::Name => self.read_name(word),
            Part::In => self.read_in(reserved_in(&word)),
            Part::Words => self.read_word_of_for(word),
            Part::Do => self.read_word_behind(word),
            _ => self.read_command_word(word),
        }
    }

    /// The command on the way ends, and one that is joined by this operator follows.
    fn join_by(&mut self, op: Op) -> Result<(), AllocError>
        ensures { OnOk result (shown.building self.new
            ≡ says.joined_by op (shown.building self.old)) }
    {
        self.end_command()?;
        self.nest.set_operator(op);
        Ok(())
    }

    /// `&&` or `||`.
    fn join(&mut self, op: Op) -> Result<bool, AllocError>
        ensures { IfOk result (λ followed. says.join_in op (shown.building self.old)
            ≡ shown.when followed (shown.building self.new)) }
    {
        if is_header(self.nest.part()) {
            return self.end();
        }
        if self.closed || !self.words.is_empty() {
            self.join_by(op)?;
        }
        Ok(true)
    }

    /// Whether a word is a fault.
    fn is_wrong(&self, word: &FoundWord) -> bool
        ensures { result ≡ says.is_wrong (says.part_in (shown.building self.now))
            (tokens.word word.now) (shown.building self.now) }
    {
        let part = self.nest.part();
        match part {
            Part::Name | Part::In => is_other_than_in(reserved_in(word)),
            Part::Words | Part::Do => {
                self.words.is_empty() && is_other_than_do(reserved_in(word))
            }
            _ => self.closed || (self.words.is_empty() && is_stray(part, reserved_in(word))),
        }
    }

    /// Whether a token that is not followed is a fault.
    pub(crate) fn is_fault(&self, token: &Token) -> bool
        ensures { result ≡ says.is_fault (tokens.token token.now) (shown.building self.now) }
    {
        match token {
            Token::Word(word) => word.apart && self.is_wrong(word),
            Token::Ends | Token::Joins(_) => false,
            Token::Breaks => true,
        }
    }

    /// The and-or list on the way ends at a separator.
    fn separate(&mut self) -> Result<(), AllocError>
        ensures { OnOk result (shown.building self.new
            ≡ says.list_separated (shown.building self.old)) }
    {
        self.end_command()?;
        self.nest.end_list()?;
        self.separated = true;
        Ok(())
    }

    /// The words of a `for` are whole.
    fn end_words(&mut self) -> Result<(), AllocError>
        ensures { OnOk result (shown.building self.new ≡ says.for_worded (shown.building self.old)) }
    {
        let found = mem::replace(&mut self.words, Vec::new(self.alloc));
        self.nest.set_words(words_of(self.alloc, found)?)
    }

    /// `;` or a newline.
    fn end(&mut self) -> Result<bool, AllocError>
        ensures { IfOk result (λ followed. says.end_at (says.part_in (shown.building self.old))
            (shown.building self.old) ≡ shown.when followed (shown.building self.new)) }
    {
        match self.nest.part() {
            Part::Name | Part::In => self.spoilt = true,
            Part::Words => self.end_words()?,
            Part::Do => self.words = Vec::new(self.alloc),
            _ => self.separate()?,
        }
        Ok(true)
    }

    /// Reads a token. The answer is whether it is followed.
    #[tactic(auto, unfolding(crate::specs::OldTrees::read_token))]
    pub(crate) fn read_token(&mut self, token: Token) -> Result<bool, AllocError>
        ensures { IfOk result (λ followed. says.read_token (tokens.token token)
            (shown.building self.old) ≡ shown.when followed (shown.building self.new)) }
    {
        match token {
            Token::Word(word) => self.read_word(word),
            Token::Ends => self.end(),
            Token::Joins(op) => self.join(op),
            Token::Breaks => Ok(false),
        }
    }

    /// Whether a compound command is open.
    pub(crate) fn is_open(&self) -> bool
        ensures { result ≡ says.is_open (shown.building self.now) }
    {
        self.nest.is_open()
    }

    /// Takes the tree, if no compound command is open.
    pub(crate) fn take_tree(&mut self) -> Option<Script>
        ensures { option_map view.script result ≡ says.tree_in (shown.building self.old) }
    {
        if self.is_open() {
            return None;
        }
        Some(self.nest.take_script())
    }
}

/// Whether a block that this word ends, in this part, has to hold a command.
fn needs_command(part: Part, word: Reserved, separated: bool) -> bool
    ensures { result ≡ says.needs_command part word separated }
{
    match (part, word) {
        (Part::Condition(_), Reserved::Then) => true,
        (Part::Group(_), Reserved::Fi) => true,
        (Part::Arm(_), Reserved::Elif) => !separated,
        _ => false,
    }
}

/// Whether a word is `then` after the first condition of an `if`.
fn is_first_then(part: Part, word: Reserved) -> bool
    ensures { result ≡ says.is_first_then part word }
{
    match (part, word) {
        (Part::Condition(false), Reserved::Then) => true,
        _ => false,
    }
}

/// Whether a word is `do` of a `while` or `until`.
fn is_do_of(part: Part, word: Reserved) -> bool
    ensures { result ≡ says.is_do_of part word }
{
    match (part, word) {
        (Part::Test, Reserved::Do) => true,
        _ => false,
    }
}

/// Whether a word is a reserved one, and not `in`.
fn is_other_than_in(word: Option<Reserved>) -> bool
    ensures { result ≡ says.is_other_than_in word }
{
    word.is_some() && !is_in(word)
}

/// Whether a word is a reserved one, and not `do`.
fn is_other_than_do(word: Option<Reserved>) -> bool
    ensures { result ≡ says.is_other_than_do word }
{
    word.is_some() && !is_do(word)
}

/// Whether a reserved word may not be in this part of a compound command.
fn strays(part: Part, word: Reserved) -> bool
    ensures { result ≡ says.strays part word }
{
    match (part, word) {
        (Part::Condition(_), Reserved::Then) => false,
        (Part::Arm(_) | Part::Group(_), Reserved::Elif | Reserved::Else | Reserved::Fi) => false,
        (Part::Else, Reserved::Fi) => false,
        (Part::Test, Reserved::Do) => false,
        (Part::Body | Part::Each, Reserved::Done) => false,
        _ => !begins(word),
    }
}

/// Whether a word is a reserved one that may not be in this part of a compound command.
fn is_stray(part: Part, word: Option<Reserved>) -> bool
    ensures { result ≡ says.is_stray part word }
{
    match word {
        Some(word) => strays(part, word),
        None => false,
    }
}

fn are_constant(words: &[FoundWord]) -> bool
    ensures { result ≡ list_all (λ word. says.is_constant_word (tokens.word word)) words.now }
{
    words.iter().all(|word| is_constant_word(word))
}
