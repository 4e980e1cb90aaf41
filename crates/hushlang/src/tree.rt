//! The syntax tree of a script.

use crate::call::Call;
use std::rc::Rc;

/// What joins two commands.
#[derive(Clone, Copy, Debug, PartialEq, Eq)]
pub enum Op {
    /// `&&`
    And,
    /// `||`
    Or,
}

/// A piece of a word.
#[derive(Debug, Drop, PartialEq, Eq)]
pub enum Piece {
    /// Bytes as they are, at least one.
    Bytes(Vec<u8>),
    /// A pair of quotes, before what they hold.
    Mark,
    /// A variable, which is split outside double quotes.
    Var { name: Vec<u8>, split: bool },
    /// `$?`
    Status,
}

/// A word, as its pieces in order.
#[derive(Debug, Drop, PartialEq, Eq)]
pub struct Word {
    /// No two pieces of bytes are next to each other.
    pub pieces: Vec<Piece>,
}

/// And-or lists, one after another. A text without a command has none.
#[cycle(tree)]
#[derive(Debug, Drop, PartialEq)]
pub struct Script {
    /// The lists in order.
    pub lists: Vec<AndOr>,
}

/// A command, and the commands joined to it, from the left with equal rank.
#[cycle(tree)]
#[derive(Debug, Drop, PartialEq)]
pub struct AndOr {
    /// The first command.
    pub first: Command,
    /// Each further command with the operator before it.
    pub rest: Vec<(Op, Command)>,
}

/// A command. Its parts are shared, so that a child is held without a copy.
#[cycle(tree)]
#[derive(Debug, Drop, PartialEq)]
pub enum Command {
    /// A simple command.
    Simple(Call),
    /// Names of shell variables with their values, in order.
    Assign(Vec<(Vec<u8>, Word)>),
    /// Conditions with their blocks, in order, and the block after `else`.
    If {
        arms: Vec<(Rc<Script>, Rc<Script>)>,
        other: Option<Rc<Script>>,
    },
    /// `while`, or `until`: a condition and a body.
    Loop {
        until: bool,
        cond: Rc<Script>,
        body: Rc<Script>,
    },
    /// `for`: the name of the variable, the words and the body.
    For {
        name: Vec<u8>,
        words: Vec<Word>,
        body: Rc<Script>,
    },
}
