//! What a reserved word does with the innermost compound command.
ghost use Rattle.std.specs.Prelude.{◌≡◌, ◌++◌, ◌∷◌, [], map, IfOk};
ghost use Rattle.hushlang.specs.TreesShown as view;
ghost use Rattle.hushlang_uboot.specs.Nests as says;
ghost use Rattle.hushlang_uboot.specs.NestsShown as shown;

use crate::open_commands::{Arms, Compound, empty_body};
use crate::reserved::Reserved;
use hushlang::{Command, Script};
use std::alloc::{AllocError, Global};
use std::rc::Rc;

/// What a reserved word does with the innermost compound command, of which a block ends.
#[derive(Drop)]
pub(crate) enum Next {
    /// It goes on.
    Enters(Compound),
    /// It ends.
    Closes(Command),
    /// The word is none that may be here.
    Strays,
}

/// The arms of an `if` with a further one.
fn with_arm(arms: Arms, condition: Rc<Script>, body: Rc<Script>) -> Result<Arms, AllocError>
    ensures { IfOk result (λ more. map view.arm more.items ≡ map view.arm arms.items
        ++ (view.script condition.value, view.script body.value) ∷ []) }
{
    let mut arms = arms;
    arms.push((condition, body))?;
    Ok(arms)
}

/// A group as a command: an `if` with the group as its condition, and a block without a command.
#[tactic(auto, using(hushlang::proofs::ViewLemmas::what_it_says, crate::proofs::NestViewLemmas::ifs))]
fn group_of(alloc: Global, body: Rc<Script>) -> Result<Command, AllocError>
    ensures { IfOk result (λ command. view.command command ≡ says.group_of (view.script body.value)) }
{
    let arms = with_arm(Vec::new(alloc), body, empty_body(alloc)?)?;
    Ok(Command::If { arms, other: None })
}

/// What a reserved word does with the innermost compound command, of which this block ends. Errors:
/// memory ran out.
#[tactic(auto, using(hushlang::proofs::ViewLemmas::what_it_says, crate::proofs::NestViewLemmas::ifs))]
pub(crate) fn next_part(
    alloc: Global,
    compound: Compound,
    word: Reserved,
    body: Rc<Script>,
) -> Result<Next, AllocError>
    ensures { IfOk result (λ next. shown.next next
        ≡ says.next_part (shown.compound compound) word (view.script body.value)) }
{
    match (compound, word) {
        (Compound::Condition(arms), Reserved::Then) => {
            Ok(Next::Enters(Compound::Arm(arms, body)))
        }
        (Compound::Arm(arms, condition), Reserved::Elif) => {
            let arms = with_arm(arms, condition, body)?;
            Ok(Next::Enters(Compound::Condition(arms)))
        }
        (Compound::Arm(arms, condition), Reserved::Else) => {
            let arms = with_arm(arms, condition, body)?;
            Ok(Next::Enters(Compound::Else(arms)))
        }
        (Compound::Arm(arms, condition), Reserved::Fi) => {
            let arms = with_arm(arms, condition, body)?;
            Ok(Next::Closes(Command::If { arms, other: None }))
        }
        (Compound::Else(arms), Reserved::Fi) => {
            let other = Some(body);
            Ok(Next::Closes(Command::If { arms, other }))
        }
        (Compound::Test(until), Reserved::Do) => Ok(Next::Enters(Compound::Body(until, body))),
        (Compound::Body(until, cond), Reserved::Done) => {
            Ok(Next::Closes(Command::Loop { until, cond, body }))
        }
        (Compound::In(name), Reserved::In) => Ok(Next::Enters(Compound::Words(name))),
        (Compound::In(name), Reserved::Do) => {
            Ok(Next::Enters(Compound::Each(name, Vec::new(alloc))))
        }
        (Compound::Do(name, words), Reserved::Do) => {
            Ok(Next::Enters(Compound::Each(name, words)))
        }
        (Compound::Each(name, words), Reserved::Done) => {
            Ok(Next::Closes(Command::For { name, words, body }))
        }
        (Compound::Group(false), Reserved::Fi) | (Compound::Group(true), Reserved::CloseBrace) => {
            Ok(Next::Closes(group_of(alloc, body)?))
        }
        _ => Ok(Next::Strays),
    }
}
