//! The tree of a text as U-Boot's old shell reads it.
ghost use Rattle.std.specs.Prelude.{◌≡◌, option_map, IfOk};
ghost use Rattle.hushlang.specs.TreesShown as view;
ghost use Rattle.hushlang_old.specs.OldTokensShown as tokens;
ghost use Rattle.hushlang_old.specs.OldTrees as says;
ghost use Rattle.hushlang_old.specs.OldTreesShown as shown;

use crate::building::Building;
use crate::old_tokens::{Token, old_tokens};
use hushlang::Script;
use std::alloc::{AllocError, Global};

/// Reads tokens. The answer is whether all of them are followed.
fn read_all(building: &mut Building, found: Vec<Token>) -> Result<bool, AllocError>
    ensures { IfOk result (λ followed. says.read_tokens (tokens.tokens found)
        (shown.building building.old) ≡ shown.when followed (shown.building building.new)) }
{
    for token in found.into_iter() {
        let followed = building.read_token(token)?;
        if !followed {
            return Ok(false);
        }
    }
    Ok(true)
}

/// The tree after these tokens.
fn tree_behind(building: &mut Building, found: Vec<Token>) -> Result<Option<Script>, AllocError>
    ensures { IfOk result (λ script. option_map view.script script
        ≡ says.tree_behind (says.read_tokens (tokens.tokens found) (shown.building building.old))) }
{
    if !read_all(building, found)? {
        return Ok(None);
    }
    Ok(building.take_tree())
}

/// Whether a compound command is open after these tokens.
fn is_open_behind(building: &mut Building, found: Vec<Token>) -> Result<bool, AllocError>
    ensures { IfOk result (λ is. is
        ≡ says.is_open_behind (says.read_tokens (tokens.tokens found) (shown.building building.old))) }
{
    let followed = read_all(building, found)?;
    Ok(followed && building.is_open())
}

/// Whether the first of these tokens that is not followed is a fault; or if there is none, whether a
/// compound command is open after them.
fn have_fault(building: &mut Building, found: Vec<Token>) -> Result<bool, AllocError>
    ensures { IfOk result (λ has. has
        ≡ says.have_fault (tokens.tokens found) (shown.building building.old)) }
{
    for token in found.into_iter() {
        let fault = building.is_fault(&token);
        let followed = building.read_token(token)?;
        if !followed {
            return Ok(fault);
        }
    }
    Ok(building.is_open())
}

/// The tree of tokens. `newer` says whether for 2025.01.
fn tree_of_tokens(
    alloc: Global,
    newer: bool,
    found: Vec<Token>,
) -> Result<Option<Script>, AllocError>
    ensures { IfOk result (λ script. option_map view.script script
        ≡ says.tree_of_tokens newer (tokens.tokens found)) }
{
    let mut building = Building::new(alloc, newer);
    tree_behind(&mut building, found)
}

/// Whether tokens end in a compound command that is open.
fn are_open(alloc: Global, newer: bool, found: Vec<Token>) -> Result<bool, AllocError>
    ensures { IfOk result (λ is. is ≡ says.are_open newer (tokens.tokens found)) }
{
    let mut building = Building::new(alloc, newer);
    is_open_behind(&mut building, found)
}

/// Whether tokens have a fault.
fn tokens_have_fault(alloc: Global, newer: bool, found: Vec<Token>) -> Result<bool, AllocError>
    ensures { IfOk result (λ has. has ≡ says.tokens_have_fault newer (tokens.tokens found)) }
{
    let mut building = Building::new(alloc, newer);
    have_fault(&mut building, found)
}

/// Reads the tree of a text as U-Boot's old shell does, that of 2023.01 or a newer one, that of
/// 2025.01. A text that has a construct that is not followed has none. Errors: memory ran out.
#[tactic(auto, unfolding(crate::specs::OldTrees::old_tree_of))]
pub fn read_old(alloc: Global, newer: bool, text: &[u8]) -> Result<Option<Script>, AllocError>
    ensures { IfOk result (λ found. option_map view.script found ≡ says.old_tree_of newer text.now) }
{
    match old_tokens(alloc, text)? {
        Some(tokens) => tree_of_tokens(alloc, newer, tokens),
        None => Ok(None),
    }
}

/// Whether a text has no tree since it ends in a compound command that is open. Errors: memory ran out.
#[tactic(auto, unfolding(crate::specs::OldTrees::lacks_end))]
pub fn lacks_end(alloc: Global, newer: bool, text: &[u8]) -> Result<bool, AllocError>
    ensures { IfOk result (λ lacks. lacks ≡ says.lacks_end newer text.now) }
{
    match old_tokens(alloc, text)? {
        Some(tokens) => are_open(alloc, newer, tokens),
        None => Ok(false),
    }
}

/// Whether a text that `run` starts has a fault to U-Boot's old shell: a word that may not be where it is,
/// or a compound command that is open at its end. Errors: memory ran out.
#[tactic(auto, unfolding(crate::specs::OldTrees::has_fault))]
pub fn has_fault(alloc: Global, newer: bool, text: &[u8]) -> Result<bool, AllocError>
    ensures { IfOk result (λ has. has ≡ says.has_fault newer text.now) }
{
    match old_tokens(alloc, text)? {
        Some(tokens) => tokens_have_fault(alloc, newer, tokens),
        None => Ok(false),
    }
}
