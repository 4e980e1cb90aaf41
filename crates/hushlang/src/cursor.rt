//! A cursor over the tokens of a text, which holds one of them ahead.

ghost use Rattle.std.specs.Prelude.{◌≡◌, ◌<◌, ◌≤◌, length, IsSome, IfErr, IfSome, OnOk, OnErr, IsTrue, option_map};
ghost use Rattle.hushlang.specs.Parsing as spec;
ghost use Rattle.hushlang.specs.Parsing.{Reads};
ghost use Rattle.hushlang.specs.Grammar as grammar;
ghost use Rattle.hushlang.specs.LexerShown.{IsCut, token_of, tokens_to_come};
ghost use Rattle.hushlang.specs.CursorShown.{input_in, with_ahead, IsAhead};
ghost use Rattle.hushlang.specs.Tree as says;

use crate::lexer::Lexer;
use crate::token::{Kind, SyntaxError, Token};
use crate::tree::Op;
use crate::words::{Reserved, is_assignment, is_in, is_word, name_in, reserved_at};
use std::alloc::Global;
use std::marker::Model;

/// What a lexer gives next: a token with the reserved word that it is, or what refuses the text, or
/// neither at its end. Only this place looks for the reserved word, since the rules ask for it
/// again and again.
#[derive(Clone, Copy)]
struct Ahead<'a> {
    token: Option<Token<'a>>,
    reserved: Option<Reserved>,
    fault: Option<SyntaxError>,
}

/// The tokens to come. What refuses the text comes after the tokens before it.
#[derive(Drop)]
pub struct Tokens<'a> {
    lexer: Lexer<'a>,
    ahead: Ahead<'a>,
    size: usize,
}

impl<'a> Model for Tokens<'a> {
    ghost use Rattle.hushlang.specs.Parsing.{Input};
    ghost use Rattle.hushlang.specs.CursorShown.{input_of, IsAhead};

    ghost Value = { Input };

    ghost view = { input_of };

    ghost invariant = { λ c. IsAhead c.ahead.token c.ahead.reserved };
}

/// Takes the next token of a lexer, or what refuses the text.
fn pull<'a>(lexer: &mut Lexer<'a>) -> Ahead<'a>
    ensures same { with_ahead result.token result.fault lexer.new ≡ tokens_to_come lexer.old }
    ensures ahead { IsAhead result.token result.reserved }
{
    let (token, fault) = match lexer.next() {
        Ok(token) => (token, None),
        Err(fault) => (None, Some(fault)),
    };
    let reserved = match token {
        Some(token) => reserved_at(token),
        None => None,
    };
    Ahead {
        token,
        reserved,
        fault,
    }
}

impl<'a> Tokens<'a> {
    /// Starts at the beginning of a text.
    pub fn new(text: &'a [u8]) -> Tokens<'a>
        ensures { result ≡ input_in text.now }
    {
        let mut lexer = Lexer::new(text);
        let ahead = pull(&mut lexer);
        Tokens {
            lexer,
            ahead,
            size: text.len(),
        }
    }

    /// Why no rule takes the next token: `Unexpected`, or the fault of the text.
    #[tactic(auto, unfolding(crate::specs::Parsing::refusal))]
    pub fn refuse(&self) -> SyntaxError
        ensures { result ≡ spec.refusal self.now }
    {
        match self.ahead.token {
            Some(token) => SyntaxError::Unexpected(token.start),
            None => match self.ahead.fault {
                Some(fault) => fault,
                None => SyntaxError::Unexpected(self.size),
            },
        }
    }

    /// The reserved word that comes next.
    #[tactic(auto, unfolding(crate::specs::Parsing::keyword))]
    pub fn keyword(&self) -> Option<Reserved>
        ensures value { result ≡ spec.keyword self.now }
        ensures some { IsSome result → 0 < length self.now.tokens }
    {
        self.ahead.reserved
    }

    /// The operator that comes next.
    #[tactic(auto, unfolding(crate::specs::Parsing::op_next))]
    pub fn op(&self) -> Option<Op>
        ensures value { result ≡ spec.op_next self.now }
        ensures some { IsSome result → 0 < length self.now.tokens }
    {
        match self.ahead.token {
            Some(token) => joins(token.kind),
            None => None,
        }
    }

    /// Takes the next token, if there is one.
    #[tactic(auto, unfolding(crate::specs::Parsing::next))]
    pub fn take(&mut self)
        ensures after { self.new ≡ spec.next self.old }
        ensures shrinks { 0 < length self.old.tokens → length self.new.tokens
            < length self.old.tokens }
    {
        if self.ahead.token.is_some() {
            self.ahead = pull(&mut self.lexer);
        }
    }

    /// Whether this reserved word comes next.
    #[tactic(auto, unfolding(crate::specs::Parsing::sees))]
    pub fn sees(&self, word: Reserved) -> bool
        ensures value { result ≡ spec.sees word self.now }
        ensures some { IsTrue result → 0 < length self.now.tokens }
    {
        is_keyword(word, self.keyword())
    }

    /// Takes this reserved word. If another token comes next, takes nothing and returns `refuse`.
    #[tactic(auto, unfolding(crate::specs::Parsing::expect))]
    pub fn expect(&mut self, word: Reserved) -> Result<(), SyntaxError>
        ensures reads { Reads (λ x. x) (spec.expect word self.old) result self.new }
        ensures shrinks { OnOk result (length self.new.tokens < length self.old.tokens) }
    {
        if self.sees(word) {
            self.take();
            Ok(())
        } else {
            Err(self.refuse())
        }
    }

    /// Enters a compound command, with `depth` levels left. Errors: `TooDeep` if none is left.
    pub fn enter(&mut self, depth: usize) -> Result<(), SyntaxError>
        ensures ok { OnOk result ((0 < depth) × (self.new ≡ spec.next self.old)) }
        ensures err { OnErr result ((depth ≡ 0) × (self.new ≡ self.old)) }
        ensures error { IfErr result (λ e. e ≡ spec.too_deep_at self.old.tokens) }
        ensures shrinks { 0 < length self.old.tokens
            → OnOk result (length self.new.tokens < length self.old.tokens) }
    {
        if depth == 0 {
            return Err(self.too_deep());
        }
        self.take();
        Ok(())
    }

    fn too_deep(&self) -> SyntaxError
        ensures { result ≡ spec.too_deep_at self.now.tokens }
    {
        match self.ahead.token {
            Some(token) => SyntaxError::TooDeep(token.start),
            None => SyntaxError::TooDeep(0),
        }
    }

    /// Whether a block may end here.
    #[tactic(auto, unfolding(crate::specs::Parsing::closes_next, crate::specs::Parsing::keyword))]
    pub fn closes_block(&self) -> bool
        ensures { result ≡ spec.closes_next self.now }
    {
        match self.ahead.token {
            Some(_) => closes(self.ahead.reserved),
            None => true,
        }
    }

    fn at_newline(&self) -> bool
        ensures value { result ≡ spec.newline_next self.now }
        ensures some { IsTrue result → 0 < length self.now.tokens }
    {
        match self.ahead.token {
            Some(token) => is_newline_token(token.kind),
            None => false,
        }
    }

    #[tactic(auto, unfolding(crate::specs::Parsing::separator_next))]
    fn at_separator(&self) -> bool
        ensures value { result ≡ spec.separator_next self.now }
        ensures some { IsTrue result → 0 < length self.now.tokens }
    {
        match self.ahead.token {
            Some(token) => separates(token.kind),
            None => false,
        }
    }

    /// Takes the newlines that come next.
    #[tactic(auto, using(crate::proofs::SkippedTokenLemmas::passing))]
    pub fn skip_newlines(&mut self)
        ensures after { self.new ≡ spec.behind grammar.is_newline_token self.old }
        ensures shrinks { length self.new.tokens ≤ length self.old.tokens }
    {
        'newlines: while self.at_newline() {
            self.take();
        }
    }

    #[tactic(auto, using(crate::proofs::SkippedTokenLemmas::passing))]
    fn pass_separators(&mut self)
        ensures after { self.new ≡ spec.behind grammar.is_separator self.old }
        ensures shrinks { length self.new.tokens ≤ length self.old.tokens }
    {
        'separators: while self.at_separator() {
            self.take();
        }
    }

    /// Takes the separators that come next. Returns whether there was one.
    #[tactic(auto, using(crate::proofs::SkippedTokenLemmas::passing))]
    pub fn skip_separators(&mut self) -> bool
        ensures found { result ≡ spec.separator_next self.old }
        ensures after { self.new ≡ spec.behind grammar.is_separator self.old }
        ensures shrinks { length self.new.tokens ≤ length self.old.tokens }
        ensures some { IsTrue result → length self.new.tokens < length self.old.tokens }
    {
        if !self.at_separator() {
            return false;
        }
        self.take();
        self.pass_separators();
        true
    }

    /// Whether a word comes next.
    #[tactic(auto, unfolding(crate::specs::Parsing::word_next))]
    pub fn at_word(&self) -> bool
        ensures { result ≡ spec.word_next self.now }
    {
        match self.ahead.token {
            Some(token) => is_word(token.kind),
            None => false,
        }
    }

    /// Whether an assignment comes next.
    #[tactic(auto, unfolding(crate::specs::Parsing::assignment_next))]
    pub fn at_assignment(&self) -> bool
        ensures { result ≡ spec.assignment_next self.now }
    {
        match self.ahead.token {
            Some(token) => is_assignment(token),
            None => false,
        }
    }

    /// The word that comes next.
    pub fn word(&self) -> Option<Token<'a>>
        ensures value { option_map token_of result ≡ spec.word_ahead self.now }
        ensures cut { IfSome result IsCut }
        ensures some { IsSome result → 0 < length self.now.tokens }
    {
        match self.ahead.token {
            Some(token) if is_word(token.kind) => Some(token),
            _ => None,
        }
    }

    /// Takes the name of a `for`. Errors: `MissingWord` or the fault of the text if no name comes
    /// next, and `Memory`.
    #[tactic(auto, unfolding(crate::specs::Parsing::name, crate::specs::Parsing::name_next, crate::specs::Parsing::next, crate::specs::Parsing::missing))]
    pub fn name(&mut self, alloc: Global) -> Result<Vec<u8>, SyntaxError>
        ensures reads { Reads (λ name. name.items) (spec.name self.old) result self.new }
        ensures shrinks { OnOk result (length self.new.tokens < length self.old.tokens) }
    {
        let found = match self.ahead.token {
            Some(token) => name_in(alloc, token)?,
            None => None,
        };
        match found {
            Some(name) => {
                self.take();
                Ok(name)
            }
            None => Err(self.missing()),
        }
    }

    /// Takes the word `in`. Errors: `MissingWord`, or the fault of the text.
    #[tactic(auto, unfolding(crate::specs::Parsing::expect_in, crate::specs::Parsing::in_next, crate::specs::Parsing::next, crate::specs::Parsing::missing))]
    pub fn expect_in(&mut self) -> Result<(), SyntaxError>
        ensures reads { Reads (λ x. x) (spec.expect_in self.old) result self.new }
        ensures shrinks { OnOk result (length self.new.tokens < length self.old.tokens) }
    {
        if !self.at_in() {
            return Err(self.missing());
        }
        self.take();
        Ok(())
    }

    #[tactic(auto, unfolding(crate::specs::Parsing::in_next))]
    fn at_in(&self) -> bool
        ensures value { result ≡ spec.in_next self.now }
        ensures some { IsTrue result → 0 < length self.now.tokens }
    {
        match self.ahead.token {
            Some(token) => is_in(token),
            None => false,
        }
    }

    /// Why there is no name or no `in` here.
    #[tactic(auto, unfolding(crate::specs::Parsing::missing))]
    fn missing(&self) -> SyntaxError
        ensures { result ≡ spec.missing self.now }
    {
        match self.ahead.token {
            Some(token) => SyntaxError::MissingWord(token.start),
            None => match self.ahead.fault {
                Some(fault) => fault,
                None => SyntaxError::MissingWord(self.size),
            },
        }
    }

    /// Takes at least one separator. If none comes next, returns `refuse`.
    #[tactic(auto, unfolding(crate::specs::Parsing::separators))]
    pub fn separators(&mut self) -> Result<(), SyntaxError>
        ensures reads { Reads (λ x. x) (spec.separators self.old) result self.new }
        ensures shrinks { OnOk result (length self.new.tokens < length self.old.tokens) }
    {
        let refusal = self.refuse();
        if self.skip_separators() {
            Ok(())
        } else {
            Err(refusal)
        }
    }

    /// Whether no token is left.
    #[tactic(auto, unfolding(crate::specs::Parsing::at_last))]
    pub fn at_last(&self) -> bool
        ensures { result ≡ spec.at_last self.now }
    {
        match self.ahead.token {
            Some(_) => false,
            None => true,
        }
    }

    /// Checks that the text ends here, without a fault. Errors: `Unexpected` if a token is left, or
    /// the fault of the text.
    pub fn finish(&self) -> Result<(), SyntaxError>
        ensures { (s : says.Script) → spec.finish_at s self.now.tokens self.now.end self.now.size
            ≡ spec.finished s result }
    {
        match self.ahead.token {
            Some(token) => Err(SyntaxError::Unexpected(token.start)),
            None => match self.ahead.fault {
                Some(fault) => Err(fault),
                None => Ok(()),
            },
        }
    }
}

fn joins(kind: Kind) -> Option<Op>
    ensures { result ≡ grammar.op_at kind }
{
    match kind {
        Kind::AndAnd => Some(Op::And),
        Kind::OrOr => Some(Op::Or),
        _ => None,
    }
}

fn separates(kind: Kind) -> bool
    ensures { result ≡ grammar.separates kind }
{
    match kind {
        Kind::Semi | Kind::Newline => true,
        _ => false,
    }
}

fn is_newline_token(kind: Kind) -> bool
    ensures { result ≡ grammar.newlines kind }
{
    match kind {
        Kind::Newline => true,
        _ => false,
    }
}

fn closes(word: Option<Reserved>) -> bool
    ensures { result ≡ grammar.closes_at word }
{
    match word {
        None => false,
        Some(Reserved::If | Reserved::For | Reserved::While | Reserved::Until) => false,
        Some(_) => true,
    }
}

fn is_keyword(word: Reserved, found: Option<Reserved>) -> bool
    ensures value { result ≡ spec.is_keyword word found }
    ensures some { IsTrue result → IsSome found }
{
    match found {
        Some(found) => found == word,
        None => false,
    }
}
