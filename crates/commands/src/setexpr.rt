//! `setexpr`: a variable is set to a number, or to the result of an operation.
ghost use Rattle.std.specs.Prelude.{◌≡◌, is_some};
ghost use Rattle.std.specs.Map.{lookup};
ghost use Rattle.std.specs.Str.{bytes_eq};
ghost use Rattle.commands.specs.Computed as says;
ghost use Rattle.commands.specs.ComputedShown.{call_shown};
ghost use Rattle.commands.specs.TextsShown.{texts};

use crate::computed::{Computed, operand};
use crate::variable_name::is_bad_name;

/// Whether a word says that a text is made of a format.
fn is_format(word: &[u8]) -> bool
    ensures { result ≡ says.is_format word.now }
{
    word == b"fmt".as_slice()
}

/// Whether a word says that parts of a text are replaced.
fn replaces(word: &[u8]) -> bool
    ensures { result ≡ says.replaces word.now }
{
    word == b"sub".as_slice() || word == b"gsub".as_slice()
}

/// Whether an operator is known.
fn is_operator(operator: &[u8]) -> bool
    ensures { result ≡ is_some (lookup (bytes_eq operator.now) says.operations) }
{
    operator == b"+".as_slice()
        || operator == b"-".as_slice()
        || operator == b"*".as_slice()
        || operator == b"/".as_slice()
        || operator == b"%".as_slice()
        || operator == b"&".as_slice()
        || operator == b"|".as_slice()
        || operator == b"^".as_slice()
}

/// The quotient, unless the divisor is 0.
fn quotient(left: u64, right: u64) -> Option<u64>
    ensures { result ≡ says.quotient left right }
{
    if right == 0 { None } else { Some(left / right) }
}

/// The remainder, unless the divisor is 0.
fn remainder(left: u64, right: u64) -> Option<u64>
    ensures { result ≡ says.remainder left right }
{
    if right == 0 { None } else { Some(left % right) }
}

/// What an operation gives, if the operator is known, and the divisor is not 0.
fn calculated(operator: &[u8], left: u64, right: u64) -> Option<u64>
    ensures { result ≡ says.calculated operator.now left right }
{
    if operator == b"+".as_slice() {
        Some(left.wrapping_add(right))
    } else if operator == b"-".as_slice() {
        Some(left.wrapping_sub(right))
    } else if operator == b"*".as_slice() {
        Some(left.wrapping_mul(right))
    } else if operator == b"/".as_slice() {
        quotient(left, right)
    } else if operator == b"%".as_slice() {
        remainder(left, right)
    } else if operator == b"&".as_slice() {
        Some(left & right)
    } else if operator == b"|".as_slice() {
        Some(left | right)
    } else if operator == b"^".as_slice() {
        Some(left ^ right)
    } else {
        None
    }
}

/// The status for a name that no variable has, if it has a `=`. Other such names are not computed.
fn not_set(status: u8, name: &[u8]) -> Option<Computed<'_>>
    ensures { call_shown result ≡ says.not_set status name.now }
{
    match name {
        [] | [b'-', ..] => None,
        _ => Some(Computed::Gives(status)),
    }
}

/// The variable set to a number, if there is one; or this status, if U-Boot refuses its name.
fn sets_number(refused: u8, name: &[u8], number: Option<u64>) -> Option<Computed<'_>>
    ensures { call_shown result ≡ says.sets_number refused name.now number }
{
    let number = number?;
    if is_bad_name(name) {
        return not_set(refused, name);
    }
    Some(Computed::SetsNumber(name, number))
}

/// The variable set to the result of an operation. An operator that is not known gives status 1.
fn setexpr_of<'a>(name: &'a [u8], left: u64, operator: &[u8], right: &[u8]) -> Option<Computed<'a>>
    ensures { call_shown result ≡ says.setexpr_of name.now left operator.now right.now }
{
    if operator.len() != 1 {
        return Some(Computed::Gives(1));
    }
    let right = operand(right)?;
    if !is_operator(operator) {
        return Some(Computed::Gives(1));
    }
    sets_number(0, name, calculated(operator, left, right))
}

/// What `setexpr` does with the words after its first operand, which has this number.
fn behind_operand<'a>(
    name: &'a [u8],
    first: &[u8],
    left: u64,
    behind: &[Vec<u8>],
) -> Option<Computed<'a>>
    ensures { call_shown result ≡ says.behind_operand name.now first.now left (texts behind.now) }
{
    match behind {
        [] => sets_number(1, name, Some(left)),
        [operator, right] if !replaces(first) => setexpr_of(name, left, operator, right),
        [_, _] => None,
        [_, _, _] if replaces(first) => None,
        _ => Some(Computed::Gives(1)),
    }
}

/// What `setexpr` does with its name, its first operand and the words after it. U-Boot calls it
/// with at most seven words.
fn with_operand<'a>(name: &'a [u8], first: &[u8], behind: &[Vec<u8>]) -> Option<Computed<'a>>
    ensures { call_shown result ≡ says.with_operand name.now first.now (texts behind.now) }
{
    if behind.len() > 5 {
        return Some(Computed::Gives(1));
    }
    if is_format(first) {
        return None;
    }
    let left = operand(first)?;
    behind_operand(name, first, left, behind)
}

/// `setexpr`, if no text is made and no operand is read from memory.
pub(crate) fn setexpr(words: &[Vec<u8>]) -> Option<Computed<'_>>
    ensures { call_shown result ≡ says.setexpr (texts words.now) }
{
    match words {
        [] | [_] => Some(Computed::Gives(1)),
        [name, first, behind @ ..] => with_operand(name, first, behind),
    }
}
