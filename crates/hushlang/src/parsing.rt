//! The grammar, by recursive descent.

ghost use Rattle.std.specs.Prelude.{◌≡◌, ◌≢◌, ◌<◌, ◌≤◌, length, IfOk, IfErr, OnOk};
ghost use Rattle.hushlang.specs.Parsing as spec;
ghost use Rattle.hushlang.specs.Parsing.{Reads, Answers};
ghost use Rattle.hushlang.specs.TreesShown as view;
ghost use Rattle.hushlang.specs.Grammar as grammar;
ghost use Rattle.hushlang.specs.LexerShown.{token_of, parts_of, IsCut};
ghost use Rattle.hushlang.specs.CursorShown.{input_in, IsNoAssignment};
ghost use Rattle.hushlang.specs.Tree.{IsProper};
ghost use Rattle.hushlang.specs.RefusalPlaces.{place_of};
ghost use Rattle.hushlang.specs.Texts.{IsTreeOf, HasNoTree, IsPlaced, IsFaultIf, IsFaultOf, AnswersFault, fault_place};
ghost use Rattle.hushlang.specs.declared.token.SyntaxError.TheVariants.{Memory};

use crate::call::Call;
use crate::cursor::Tokens;
use crate::token::{SyntaxError, Token};
use crate::tree::{AndOr, Command, Op, Script, Word};
use crate::word_pieces::{pieces_of, read_pieces};
use crate::words::{Reserved, assignment};
use std::alloc::Global;
use std::rc::Rc;

type Arms = (Vec<(Rc<Script>, Rc<Script>)>, Option<Rc<Script>>);

/// What a word says.
fn word_of(alloc: Global, token: Token<'_>) -> Result<Word, SyntaxError>
    requires { IsCut token }
    ensures value { IfOk result (λ w. view.word w ≡ grammar.word_of (token_of token.entry)) }
    ensures err { IfErr result (λ e. e ≡ Memory) }
{
    Ok(Word {
        pieces: pieces_of(alloc, token)?,
    })
}

/// Takes all words that come next.
fn word_list(alloc: Global, tokens: &mut Tokens<'_>) -> Result<Vec<Word>, SyntaxError>
    ensures reads { Reads view.words_in (spec.all_words tokens.old) result tokens.new }
{
    let mut all = Vec::new(alloc);
    'words: while let Some(token) = tokens.word() {
        all.push(word_of(alloc, token)?)?;
        tokens.take();
    }
    Ok(all)
}

/// The name and the value of an assignment.
fn assigned(alloc: Global, token: Token<'_>) -> Result<(Vec<u8>, Word), SyntaxError>
    requires { IsCut token }
    ensures value { IfOk result (λ v. grammar.IsAssignment (parts_of token.entry) (view.value v)) }
    ensures err { IfErr result (λ e. e ≢ Memory → IsNoAssignment token.entry e) }
{
    match assignment(alloc, token)? {
        Some((name, value)) => {
            let pieces = read_pieces(alloc, value)?;
            Ok((name, Word { pieces }))
        }
        None => Err(SyntaxError::AssignmentBeforeCommand(token.start)),
    }
}

/// Takes all words that come next, which are all assignments.
fn assignments(alloc: Global, tokens: &mut Tokens<'_>) -> Result<Vec<(Vec<u8>, Word)>, SyntaxError>
    ensures reads { Reads view.values_in (spec.all_values tokens.old) result tokens.new }
{
    let mut all = Vec::new(alloc);
    'words: while let Some(token) = tokens.word() {
        all.push(assigned(alloc, token)?)?;
        tokens.take();
    }
    Ok(all)
}

/// A simple command or assignments.
#[tactic(auto, using(crate::proofs::ViewLemmas::what_it_says), unfolding(crate::specs::Parsing::simple))]
fn simple(alloc: Global, tokens: &mut Tokens<'_>) -> Result<Command, SyntaxError>
    ensures reads { Reads view.command (spec.simple tokens.old) result tokens.new }
    ensures shrinks { OnOk result (length tokens.new.tokens < length tokens.old.tokens) }
{
    if !tokens.at_word() {
        return Err(tokens.refuse());
    }
    if tokens.at_assignment() {
        Ok(Command::Assign(assignments(alloc, tokens)?))
    } else {
        Ok(Command::Simple(Call::new(alloc, word_list(alloc, tokens)?)?))
    }
}

/// A command, with at most this many levels of compound commands.
#[cycle(grammar)]
#[tactic(auto, using(crate::proofs::ViewLemmas::what_it_says), unfolding(crate::specs::Parsing::command))]
fn command(alloc: Global, tokens: &mut Tokens<'_>, depth: usize) -> Result<Command, SyntaxError>
    ensures reads { Reads view.command (spec.command depth tokens.old) result tokens.new }
    ensures shrinks { OnOk result (length tokens.new.tokens < length tokens.old.tokens) }
{
    match tokens.keyword() {
        None => simple(alloc, tokens),
        Some(Reserved::If) => {
            tokens.enter(depth)?;
            if_command(alloc, tokens, depth - 1)
        }
        Some(Reserved::While) => {
            tokens.enter(depth)?;
            loop_command(alloc, tokens, depth - 1, false)
        }
        Some(Reserved::Until) => {
            tokens.enter(depth)?;
            loop_command(alloc, tokens, depth - 1, true)
        }
        Some(Reserved::For) => {
            tokens.enter(depth)?;
            for_command(alloc, tokens, depth - 1)
        }
        Some(_) => Err(tokens.refuse()),
    }
}

/// What is joined to a command.
#[cycle(grammar)]
fn joined(
    alloc: Global,
    tokens: &mut Tokens<'_>,
    depth: usize,
) -> Result<Vec<(Op, Command)>, SyntaxError>
    ensures reads { Reads view.joins_in (spec.joined_all (spec.command depth) tokens.old) result
        tokens.new }
    ensures shrinks { OnOk result (length tokens.new.tokens ≤ length tokens.old.tokens) }
{
    let mut rest = Vec::new(alloc);
    'joined: while let Some(op) = tokens.op() {
        tokens.take();
        tokens.skip_newlines();
        rest.push((op, command(alloc, tokens, depth)?))?;
    }
    Ok(rest)
}

/// A command with what is joined to it.
#[cycle(grammar)]
#[tactic(auto, using(crate::proofs::ViewLemmas::what_it_says), unfolding(crate::specs::Parsing::and_or))]
fn and_or(alloc: Global, tokens: &mut Tokens<'_>, depth: usize) -> Result<AndOr, SyntaxError>
    ensures reads { Reads view.list (spec.and_or (spec.command depth) tokens.old) result
        tokens.new }
    ensures shrinks { OnOk result (length tokens.new.tokens < length tokens.old.tokens) }
{
    let first = command(alloc, tokens, depth)?;
    let rest = joined(alloc, tokens, depth)?;
    Ok(AndOr { first, rest })
}

/// And-or lists, up to the end of a block or of the text.
#[cycle(grammar)]
fn lists(alloc: Global, tokens: &mut Tokens<'_>, depth: usize) -> Result<Vec<AndOr>, SyntaxError>
    ensures reads { Reads view.lists_in (spec.lists_all (spec.command depth) tokens.old) result
        tokens.new }
    ensures shrinks { OnOk result (length tokens.new.tokens < length tokens.old.tokens) }
{
    let mut lists = Vec::new(alloc);
    'lists: loop {
        lists.push(and_or(alloc, tokens, depth)?)?;
        let separated = tokens.skip_separators();
        if tokens.closes_block() {
            return Ok(lists);
        }
        if !separated {
            return Err(tokens.refuse());
        }
    }
}

/// A condition or a body, up to the word that closes it.
#[cycle(grammar)]
#[tactic(auto, using(crate::proofs::ViewLemmas::what_it_says), unfolding(crate::specs::Parsing::block))]
fn block(alloc: Global, tokens: &mut Tokens<'_>, depth: usize) -> Result<Script, SyntaxError>
    ensures reads { Reads view.script (spec.block (spec.command depth) tokens.old) result
        tokens.new }
    ensures shrinks { OnOk result (length tokens.new.tokens < length tokens.old.tokens) }
{
    tokens.skip_separators();
    let lists = lists(alloc, tokens, depth)?;
    Ok(Script { lists })
}

/// A condition, `then` and a block.
#[cycle(grammar)]
#[tactic(auto, using(crate::proofs::ViewLemmas::what_it_says), unfolding(crate::specs::Parsing::arm))]
fn arm(
    alloc: Global,
    tokens: &mut Tokens<'_>,
    depth: usize,
) -> Result<(Rc<Script>, Rc<Script>), SyntaxError>
    ensures reads { Reads view.arm (spec.arm (spec.command depth) tokens.old) result tokens.new }
    ensures shrinks { OnOk result (length tokens.new.tokens < length tokens.old.tokens) }
{
    let cond = Rc::new(alloc, block(alloc, tokens, depth)?)?;
    tokens.expect(Reserved::Then)?;
    Ok((cond, Rc::new(alloc, block(alloc, tokens, depth)?)?))
}

/// The arms of an `if`, and its `else` block.
#[cycle(grammar)]
fn arms(alloc: Global, tokens: &mut Tokens<'_>, depth: usize) -> Result<Arms, SyntaxError>
    ensures reads { Reads view.arms_of (spec.arms_all (spec.command depth) tokens.old) result
        tokens.new }
    ensures shrinks { OnOk result (length tokens.new.tokens < length tokens.old.tokens) }
{
    let mut arms = Vec::new(alloc);
    'arms: loop {
        arms.push(arm(alloc, tokens, depth)?)?;
        let ends = tokens.sees(Reserved::Fi);
        if ends {
            return Ok((arms, None));
        }
        let last = tokens.sees(Reserved::Else);
        if last {
            tokens.take();
            let other = block(alloc, tokens, depth)?;
            return Ok((arms, Some(Rc::new(alloc, other)?)));
        }
        let goes_on = tokens.sees(Reserved::Elif);
        if !goes_on {
            return Err(tokens.refuse());
        }
        tokens.take();
    }
}

/// An `if` command, from the token after `if`.
#[cycle(grammar)]
#[tactic(auto, using(crate::proofs::ViewLemmas::what_it_says), unfolding(crate::specs::Parsing::if_command))]
fn if_command(alloc: Global, tokens: &mut Tokens<'_>, depth: usize) -> Result<Command, SyntaxError>
    ensures reads { Reads view.command (spec.if_command (spec.command depth) tokens.old) result
        tokens.new }
    ensures shrinks { OnOk result (length tokens.new.tokens < length tokens.old.tokens) }
{
    let (arms, other) = arms(alloc, tokens, depth)?;
    tokens.expect(Reserved::Fi)?;
    Ok(Command::If { arms, other })
}

/// `do`, a block and `done`.
#[cycle(grammar)]
#[tactic(auto, using(crate::proofs::ViewLemmas::what_it_says), unfolding(crate::specs::Parsing::body_of))]
fn body(alloc: Global, tokens: &mut Tokens<'_>, depth: usize) -> Result<Script, SyntaxError>
    ensures reads { Reads view.script (spec.body_of (spec.command depth) tokens.old) result
        tokens.new }
    ensures shrinks { OnOk result (length tokens.new.tokens < length tokens.old.tokens) }
{
    tokens.expect(Reserved::Do)?;
    let body = block(alloc, tokens, depth)?;
    tokens.expect(Reserved::Done)?;
    Ok(body)
}

/// A loop, from the token after `while` or `until`.
#[cycle(grammar)]
#[tactic(auto, using(crate::proofs::ViewLemmas::what_it_says), unfolding(crate::specs::Parsing::loop_command))]
fn loop_command(
    alloc: Global,
    tokens: &mut Tokens<'_>,
    depth: usize,
    until: bool,
) -> Result<Command, SyntaxError>
    ensures reads { Reads view.command (spec.loop_command until (spec.command depth) tokens.old)
        result tokens.new }
    ensures shrinks { OnOk result (length tokens.new.tokens < length tokens.old.tokens) }
{
    let cond = block(alloc, tokens, depth)?;
    let body = body(alloc, tokens, depth)?;
    Ok(Command::Loop {
        until,
        cond: Rc::new(alloc, cond)?,
        body: Rc::new(alloc, body)?,
    })
}

/// A `for` command, from the token after `for`.
#[cycle(grammar)]
#[tactic(auto, using(crate::proofs::ViewLemmas::what_it_says), unfolding(crate::specs::Parsing::for_command))]
fn for_command(alloc: Global, tokens: &mut Tokens<'_>, depth: usize) -> Result<Command, SyntaxError>
    ensures reads { Reads view.command (spec.for_command (spec.command depth) tokens.old) result
        tokens.new }
    ensures shrinks { OnOk result (length tokens.new.tokens < length tokens.old.tokens) }
{
    let name = tokens.name(alloc)?;
    tokens.expect_in()?;
    let words = word_list(alloc, tokens)?;
    tokens.separators()?;
    let body = body(alloc, tokens, depth)?;
    Ok(Command::For {
        name,
        words,
        body: Rc::new(alloc, body)?,
    })
}

/// How deep compound commands may be nested.
const MAX_NESTING: usize = 64;

/// What the rule of scripts reads in a text.
#[tactic(auto, using(crate::proofs::ViewLemmas::what_it_says), unfolding(crate::specs::Parsing::whole, crate::specs::Parsing::script))]
fn read_script(alloc: Global, text: &[u8]) -> Result<Script, SyntaxError>
    ensures { Answers view.script (spec.whole grammar.max_nesting (input_in text.now)) result }
{
    let mut tokens = Tokens::new(text);
    tokens.skip_separators();
    let lists = if tokens.at_last() {
        Vec::new(alloc)
    } else {
        lists(alloc, &mut tokens, MAX_NESTING)?
    };
    tokens.finish()?;
    Ok(Script { lists })
}

/// Reads the tree of a text. Compound commands may be nested at most 64 deep.
///
/// If the refusal is of a token, it is that token's fault. Any other is where no script can go on:
/// `TooDeep` at the word that opens a 65th level, `MissingWord` where the name of a `for` or its
/// `in` should be, `AssignmentBeforeCommand` at a word after assignments that is not an assignment,
/// and `Unexpected` for all else. `Memory` is returned if a growth is refused.
pub fn parse(alloc: Global, text: &[u8]) -> Result<Script, SyntaxError>
    ensures tree { IfOk result (λ s. IsTreeOf text.now (view.script s)) }
    ensures blocks { IfOk result (λ s. IsProper (view.script s)) }

    // The answer is what the rules read in the text, as it is computed; each clause below follows from it.
    ensures read { Answers view.script (spec.whole grammar.max_nesting (input_in text.now)) result }

    // Any refusal but `Memory` comes only if there is no tree, at the first place that no script
    // passes.
    ensures refused { IfErr result (λ e. e ≢ Memory → HasNoTree text.now) }
    ensures place { IfErr result (λ e. IsPlaced text.now (place_of e)) }

    // A fault of a token is the answer exactly if all tokens before it start a script.
    ensures fault { IfErr result (λ e. IsFaultIf text.now e (fault_place e)) }
    ensures faults { (e : SyntaxError) → IsFaultOf text.now e → AnswersFault result e }
{
    read_script(alloc, text)
}
