//! The block on the way and the compound commands that are open, as U-Boot's shells nest them.
ghost use Rattle.std.specs.Prelude.{◌≡◌, option_map, IfOk, OnOk};
ghost use Rattle.hushlang.specs.TreesShown as view;
ghost use Rattle.hushlang_uboot.specs.Nests as says;
ghost use Rattle.hushlang_uboot.specs.NestsShown as shown;

use crate::calls::call_of;
use crate::next_part::{Next, next_part};
use crate::open_commands::{Block, Compound, Opens, body_of};
use crate::part::Part;
use crate::reserved::Reserved;
use hushlang::{Command, Op, Piece, Script, Word};
use std::alloc::{AllocError, Global};
use std::mem;
use std::rc::Rc;

/// How deep compound commands may be nested.
const MAX_NESTING: usize = 64;

/// The block on the way; and the compound commands that are open, each with the block that it is
/// in.
#[derive(Drop)]
pub struct Nest {
    alloc: Global,
    block: Block,
    opens: Opens,
}

/// Where a reserved word leads to that begins no compound command.
#[derive(Clone, Copy)]
pub enum Gone {
    /// The innermost compound command has gone on with its next part.
    Entered,
    /// The innermost compound command has ended.
    Closed,
    /// The word may not be here.
    Astray,
}

/// The compound command that a word begins.
fn begun_by(alloc: Global, word: Reserved) -> Option<Compound>
    ensures { option_map shown.compound result ≡ says.begun_by word }
{
    match word {
        Reserved::If => Some(Compound::Condition(Vec::new(alloc))),
        Reserved::While => Some(Compound::Test(false)),
        Reserved::Until => Some(Compound::Test(true)),
        Reserved::For => Some(Compound::Name),
        Reserved::OpenBrace => Some(Compound::Group(true)),
        _ => None,
    }
}

fn named(name: Vec<u8>, compound: Compound) -> Compound
    ensures { shown.compound result ≡ says.name_read name.items (shown.compound compound) }
{
    match compound {
        Compound::Name => Compound::In(name),
        compound => compound,
    }
}

fn worded(words: Vec<Word>, compound: Compound) -> Compound
    ensures { shown.compound result ≡ says.words_read (view.words_in words) (shown.compound compound) }
{
    match compound {
        Compound::Words(name) => Compound::Do(name, words),
        compound => compound,
    }
}

/// The command `false`.
#[tactic(auto, using(hushlang::proofs::ViewLemmas::what_it_says))]
fn false_command(alloc: Global) -> Result<Command, AllocError>
    ensures { IfOk result (λ command. view.command command ≡ says.false_command) }
{
    let mut pieces = Vec::new(alloc);
    pieces.push(Piece::Bytes(Vec::from_slice(alloc, b"false")?))?;
    let mut words = Vec::new(alloc);
    words.push(Word { pieces })?;
    Ok(Command::Simple(call_of(alloc, words)?))
}

impl Nest {
    /// A block without a command, and no compound command is open.
    #[tactic(auto, unfolding(crate::specs::NestsShown::nest))]
    pub fn new(alloc: Global) -> Nest
        ensures { shown.nest result ≡ says.nothing_open }
    {
        Nest {
            alloc,
            block: Block::new(alloc),
            opens: Opens::new(alloc),
        }
    }

    /// Whether a compound command is open.
    #[tactic(auto, unfolding(crate::specs::NestsShown::nest))]
    pub fn is_open(&self) -> bool
        ensures { result ≡ says.is_open (shown.nest self.now) }
    {
        self.opens.len() != 0
    }

    /// Whether as many compound commands are open as may be.
    #[tactic(auto, unfolding(crate::specs::NestsShown::nest))]
    pub fn is_full(&self) -> bool
        ensures { result ≡ says.is_full (shown.nest self.now) }
    {
        self.opens.len() >= MAX_NESTING
    }

    /// The part of the innermost compound command that the text is in.
    #[tactic(auto, unfolding(crate::specs::NestsShown::nest))]
    pub fn part(&self) -> Part
        ensures { result ≡ says.part_in (shown.nest self.now) }
    {
        self.opens.part()
    }

    /// Whether the block on the way holds no command.
    #[tactic(auto, unfolding(crate::specs::NestsShown::nest))]
    pub fn lacks_command(&self) -> bool
        ensures { result ≡ says.lacks_command (shown.nest self.now).block }
    {
        self.block.lacks_command()
    }

    /// Adds a command to the list on the way. Errors: memory ran out.
    #[tactic(auto, unfolding(crate::specs::NestsShown::nest))]
    pub fn push(&mut self, command: Command) -> Result<(), AllocError>
        ensures { OnOk result (shown.nest self.new
            ≡ says.command_added (view.command command) (shown.nest self.old)) }
    {
        self.block.push(command)
    }

    /// An operator is after the commands of the list on the way.
    #[tactic(auto, unfolding(crate::specs::NestsShown::nest))]
    pub fn set_operator(&mut self, op: Op)
        ensures { shown.nest self.new ≡ says.operator_read op (shown.nest self.old) }
    {
        self.block.op = op;
    }

    /// Ends the list on the way. Errors: memory ran out.
    #[tactic(auto, unfolding(crate::specs::NestsShown::nest))]
    pub fn end_list(&mut self) -> Result<(), AllocError>
        ensures { OnOk result (shown.nest self.new ≡ says.list_closed (shown.nest self.old)) }
    {
        self.block.end_list()
    }

    /// Begins the compound command that a word begins. Errors: memory ran out.
    #[tactic(auto, unfolding(crate::specs::NestsShown::nest))]
    pub fn begin(&mut self, word: Reserved) -> Result<(), AllocError>
        ensures { OnOk result (shown.nest self.new ≡ says.begun word (shown.nest self.old)) }
    {
        let Some(compound) = begun_by(self.alloc, word) else {
            return Ok(());
        };
        let outer = mem::replace(&mut self.block, Block::new(self.alloc));
        self.opens.push(compound, outer)
    }

    /// The block on the way ends: its script. A block without a command is on the way then.
    #[tactic(auto, unfolding(crate::specs::NestsShown::nest))]
    fn take_body(&mut self) -> Result<Rc<Script>, AllocError>
        ensures body { IfOk result (λ body. view.script body.value
            ≡ says.body_of (says.list_ended (shown.nest self.old).block).lists) }
        ensures rest { OnOk result (shown.nest self.new ≡ shown.blank (shown.nest self.old)) }
    {
        let mut block = mem::replace(&mut self.block, Block::new(self.alloc));
        block.take_body()
    }

    /// The innermost compound command, which was taken, ends.
    #[tactic(auto, unfolding(crate::specs::NestsShown::nest))]
    fn close(&mut self, command: Command, outer: Block) -> Result<(), AllocError>
        ensures { OnOk result (shown.nest self.new
            ≡ shown.closed (view.command command) (shown.block outer) (shown.nest self.old)) }
    {
        self.block = outer;
        self.block.push(command)
    }

    /// The innermost compound command goes on by a reserved word, or ends. If the word may not be
    /// here, what is nested is lost. Errors: memory ran out.
    #[tactic(auto, unfolding(crate::specs::NestsShown::nest))]
    pub fn go_on(&mut self, word: Reserved) -> Result<Gone, AllocError>
        ensures { IfOk result (λ gone. says.goes_on word (shown.nest self.old)
            ≡ shown.gone gone (shown.nest self.new)) }
    {
        let body = self.take_body()?;
        let Some((compound, outer)) = self.opens.pop() else {
            return Ok(Gone::Astray);
        };
        match next_part(self.alloc, compound, word, body)? {
            Next::Enters(compound) => {
                self.opens.push(compound, outer)?;
                Ok(Gone::Entered)
            }
            Next::Closes(command) => {
                self.close(command, outer)?;
                Ok(Gone::Closed)
            }
            Next::Strays => Ok(Gone::Astray),
        }
    }

    /// The name of the `for` that is the innermost compound command has been read. Errors: memory ran
    /// out.
    #[tactic(auto, unfolding(crate::specs::NestsShown::nest))]
    pub fn set_name(&mut self, name: Vec<u8>) -> Result<(), AllocError>
        ensures { OnOk result (shown.nest self.new ≡ says.named name.items (shown.nest self.old)) }
    {
        let Some((compound, outer)) = self.opens.pop() else {
            return Ok(());
        };
        self.opens.push(named(name, compound), outer)
    }

    /// The words of the `for` that is the innermost compound command have been read. Errors: memory ran
    /// out.
    #[tactic(auto, unfolding(crate::specs::NestsShown::nest))]
    pub fn set_words(&mut self, words: Vec<Word>) -> Result<(), AllocError>
        ensures { OnOk result (shown.nest self.new
            ≡ says.worded (view.words_in words) (shown.nest self.old)) }
    {
        let Some((compound, outer)) = self.opens.pop() else {
            return Ok(());
        };
        self.opens.push(worded(words, compound), outer)
    }

    /// The block of an `if` whose condition holds without a command begins: the innermost compound
    /// command becomes a group. Errors: memory ran out.
    #[tactic(auto, unfolding(crate::specs::NestsShown::nest))]
    pub fn begin_given(&mut self) -> Result<(), AllocError>
        ensures { OnOk result (shown.nest self.new ≡ says.given (shown.nest self.old)) }
    {
        self.block = Block::new(self.alloc);
        let Some((_, outer)) = self.opens.pop() else {
            return Ok(());
        };
        self.opens.push(Compound::Group(false), outer)
    }

    /// Makes the innermost compound command one whose body is never run, and whose status is 0: a `for`
    /// without words, in front of `do`. Errors: memory ran out.
    #[tactic(auto, unfolding(crate::specs::NestsShown::nest))]
    pub fn make_idle(&mut self) -> Result<(), AllocError>
        ensures { OnOk result (shown.nest self.new ≡ says.idle (shown.nest self.old)) }
    {
        let Some((_, outer)) = self.opens.pop() else {
            return Ok(());
        };
        self.opens.push(Compound::In(Vec::new(self.alloc)), outer)
    }

    /// Makes the innermost compound command one whose body is never run, and whose status is 1: `while
    /// false`, in front of `do`. Errors: memory ran out.
    #[tactic(auto, unfolding(crate::specs::NestsShown::nest))]
    pub fn make_unmet(&mut self) -> Result<(), AllocError>
        ensures { OnOk result (shown.nest self.new ≡ says.unmet (shown.nest self.old)) }
    {
        self.block = Block::new(self.alloc);
        self.block.push(false_command(self.alloc)?)?;
        let Some((_, outer)) = self.opens.pop() else {
            return Ok(());
        };
        self.opens.push(Compound::Test(false), outer)
    }

    /// Takes the and-or lists that are whole.
    #[tactic(auto, unfolding(crate::specs::NestsShown::nest), using(hushlang::proofs::ViewLemmas::what_it_says))]
    pub fn take_script(&mut self) -> Script
        ensures { view.script result ≡ says.script_in (shown.nest self.old) }
    {
        Script {
            lists: mem::replace(&mut self.block.lists, Vec::new(self.alloc)),
        }
    }
}
