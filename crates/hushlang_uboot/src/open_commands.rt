//! Blocks on the way, and the compound commands that are open.
ghost use Rattle.std.specs.Prelude.{◌≡◌, ◌∷◌, [], map, length, IfOk, OnOk};
ghost use Rattle.hushlang.specs.TreesShown as view;
ghost use Rattle.hushlang_uboot.specs.Nests as says;
ghost use Rattle.hushlang_uboot.specs.NestsShown as shown;

use crate::calls::call_of;
use crate::part::Part;
use hushlang::{AndOr, Command, Op, Script, Word};
use std::alloc::{AllocError, Global};
use std::mem;
use std::rc::Rc;

/// A block on the way: its and-or lists that are whole; of the list on the way its first command,
/// those that are joined to it, and the operator after them.
#[derive(Drop)]
pub(crate) struct Block {
    alloc: Global,
    pub(crate) lists: Vec<AndOr>,
    first: Option<Command>,
    rest: Vec<(Op, Command)>,
    pub(crate) op: Op,
}

/// The arms of an `if` that are whole.
pub(crate) type Arms = Vec<(Rc<Script>, Rc<Script>)>;

/// A compound command that is open, by where it is.
#[derive(Drop)]
pub(crate) enum Compound {
    /// `if`, in the condition of its next arm.
    Condition(Arms),
    /// `if`, in the block after a condition.
    Arm(Arms, Rc<Script>),
    /// `if`, in the `else` block.
    Else(Arms),
    /// `while` or `until`, in its condition.
    Test(bool),
    /// `while` or `until`, in its body.
    Body(bool, Rc<Script>),
    /// `for`, in front of its name.
    Name,
    /// `for`, in front of `in`.
    In(Vec<u8>),
    /// `for`, in its words.
    Words(Vec<u8>),
    /// `for`, in front of `do`.
    Do(Vec<u8>, Vec<Word>),
    /// `for`, in its body.
    Each(Vec<u8>, Vec<Word>),
    /// A group, and whether it is in braces.
    Group(bool),
}

/// The open compound commands, each with the block that it is in, the innermost last.
#[derive(Drop)]
pub(crate) struct Opens {
    stack: Vec<(Compound, Block)>,
}

impl Block {
    /// A block without a command.
    pub(crate) fn new(alloc: Global) -> Block
        ensures { shown.block result ≡ says.no_command }
    {
        Block {
            alloc,
            lists: Vec::new(alloc),
            first: None,
            rest: Vec::new(alloc),
            op: Op::And,
        }
    }

    /// Adds a command to the list on the way.
    pub(crate) fn push(&mut self, command: Command) -> Result<(), AllocError>
        ensures { OnOk result (shown.block self.new
            ≡ says.with_command (view.command command) (shown.block self.old)) }
    {
        if self.first.is_none() {
            self.first = Some(command);
            return Ok(());
        }
        self.rest.push((self.op, command))?;
        Ok(())
    }

    /// A list with this first command is whole.
    #[tactic(auto, using(hushlang::proofs::ViewLemmas::what_it_says))]
    fn push_list(&mut self, first: Command) -> Result<(), AllocError>
        ensures { OnOk result (shown.block self.new
            ≡ shown.with_list (view.command first) (shown.block self.old)) }
    {
        let rest = mem::replace(&mut self.rest, Vec::new(self.alloc));
        self.lists.push(AndOr { first, rest })?;
        Ok(())
    }

    /// Whether it holds no command.
    pub(crate) fn lacks_command(&self) -> bool
        ensures { result ≡ says.lacks_command (shown.block self.now) }
    {
        self.lists.is_empty() && self.first.is_none()
    }

    /// Ends the list on the way.
    pub(crate) fn end_list(&mut self) -> Result<(), AllocError>
        ensures { OnOk result (shown.block self.new ≡ says.list_ended (shown.block self.old)) }
    {
        match self.first.take() {
            Some(first) => self.push_list(first),
            None => Ok(()),
        }
    }

    /// Ends the block: its script.
    pub(crate) fn take_body(&mut self) -> Result<Rc<Script>, AllocError>
        ensures { IfOk result (λ body. view.script body.value
            ≡ says.body_of (says.list_ended (shown.block self.old)).lists) }
    {
        self.end_list()?;
        let lists = mem::replace(&mut self.lists, Vec::new(self.alloc));
        body_of(self.alloc, lists)
    }
}

/// The script of a block without a command: one without words.
#[tactic(auto, using(hushlang::proofs::ViewLemmas::what_it_says))]
pub(crate) fn empty_body(alloc: Global) -> Result<Rc<Script>, AllocError>
    ensures { IfOk result (λ body. view.script body.value ≡ says.body_of []) }
{
    let first = Command::Simple(call_of(alloc, Vec::new(alloc))?);
    let rest = Vec::new(alloc);
    let mut lists = Vec::new(alloc);
    lists.push(AndOr { first, rest })?;
    Ok(Rc::new(alloc, Script { lists })?)
}

/// The script of a block.
#[tactic(auto, using(hushlang::proofs::ViewLemmas::what_it_says, crate::proofs::NestViewLemmas::blocks))]
pub(crate) fn body_of(alloc: Global, lists: Vec<AndOr>) -> Result<Rc<Script>, AllocError>
    ensures { IfOk result (λ body. view.script body.value
        ≡ says.body_of (map view.list lists.items)) }
{
    if lists.is_empty() {
        return empty_body(alloc);
    }
    Ok(Rc::new(alloc, Script { lists })?)
}

impl Opens {
    /// No compound command is open.
    #[tactic(auto, unfolding(crate::specs::NestsShown::opens))]
    pub(crate) fn new(alloc: Global) -> Opens
        ensures { shown.opens result ≡ shown.none_open }
    {
        Opens {
            stack: Vec::new(alloc),
        }
    }

    /// How many are open.
    #[tactic(auto, unfolding(crate::specs::NestsShown::opens))]
    pub(crate) fn len(&self) -> usize
        ensures { result ≡ length (shown.opens self.now) }
    {
        self.stack.len()
    }

    /// A further one begins, in this block.
    #[tactic(auto, using(crate::proofs::NestViewLemmas::pushed), unfolding(crate::specs::NestsShown::opens))]
    pub(crate) fn push(&mut self, compound: Compound, outer: Block) -> Result<(), AllocError>
        ensures { OnOk result (shown.opens self.new
            ≡ (shown.compound compound, shown.block outer) ∷ shown.opens self.old) }
    {
        self.stack.push((compound, outer))?;
        Ok(())
    }

    /// Takes the innermost one.
    #[tactic(auto, using(crate::proofs::NestViewLemmas::pushed), unfolding(crate::specs::NestsShown::opens))]
    pub(crate) fn pop(&mut self) -> Option<(Compound, Block)>
        ensures { shown.IsTaken (shown.opens self.old) result (shown.opens self.new) }
    {
        self.stack.pop()
    }

    /// The part of the innermost one that the text is in.
    #[tactic(auto, unfolding(crate::specs::NestsShown::opens))]
    pub(crate) fn part(&self) -> Part
        ensures { result ≡ says.part_among (shown.opens self.now) }
    {
        match self.stack.last() {
            Some((compound, _)) => part_of(compound),
            None => Part::Outside,
        }
    }
}

fn part_of(compound: &Compound) -> Part
    ensures { result ≡ says.part_of (shown.compound compound.now) }
{
    match compound {
        Compound::Condition(arms) => Part::Condition(!arms.is_empty()),
        Compound::Arm(arms, _) => Part::Arm(!arms.is_empty()),
        Compound::Else(_) => Part::Else,
        Compound::Test(_) => Part::Test,
        Compound::Body(_, _) => Part::Body,
        Compound::Name => Part::Name,
        Compound::In(_) => Part::In,
        Compound::Words(_) => Part::Words,
        Compound::Do(_, _) => Part::Do,
        Compound::Each(_, _) => Part::Each,
        Compound::Group(braces) => Part::Group(*braces),
    }
}
