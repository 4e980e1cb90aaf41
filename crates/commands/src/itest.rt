//! `itest`: a comparison of two numbers.
ghost use Rattle.std.specs.Prelude.{◌≡◌, ◌%◌, ◌^◌, is_some, if◌then◌else◌};
ghost use Rattle.std.specs.Map.{lookup};
ghost use Rattle.std.specs.Str.{bytes_eq};
ghost use Rattle.commands.specs.Computed as says;
ghost use Rattle.commands.specs.ComputedShown.{call_shown};
ghost use Rattle.commands.specs.TextsShown.{texts};

use crate::computed::{Computed, operand};

/// Whether two numbers are in the order that the operator names.
fn in_order(operator: &[u8], left: u64, right: u64) -> bool
    ensures { result ≡ says.holds_in says.orders operator.now left right }
{
    if operator == b"-lt".as_slice() {
        left < right
    } else if operator == b"<".as_slice() {
        left < right
    } else if operator == b"-gt".as_slice() {
        left > right
    } else if operator == b">".as_slice() {
        left > right
    } else if operator == b"-ge".as_slice() {
        left >= right
    } else if operator == b">=".as_slice() {
        left >= right
    } else if operator == b"-le".as_slice() {
        left <= right
    } else if operator == b"<=".as_slice() {
        left <= right
    } else {
        false
    }
}

/// Whether two numbers are equal or not, as the operator says.
fn are_equal(operator: &[u8], left: u64, right: u64) -> bool
    ensures { result ≡ says.holds_in says.equalities operator.now left right }
{
    if operator == b"-eq".as_slice() {
        left == right
    } else if operator == b"==".as_slice() {
        left == right
    } else if operator == b"-ne".as_slice() {
        left != right
    } else if operator == b"!=".as_slice() {
        left != right
    } else if operator == b"<>".as_slice() {
        left != right
    } else {
        false
    }
}

/// Whether an operator names an order.
fn is_order(operator: &[u8]) -> bool
    ensures { result ≡ is_some (lookup (bytes_eq operator.now) says.orders) }
{
    operator == b"-lt".as_slice()
        || operator == b"<".as_slice()
        || operator == b"-gt".as_slice()
        || operator == b">".as_slice()
        || operator == b"-ge".as_slice()
        || operator == b">=".as_slice()
        || operator == b"-le".as_slice()
        || operator == b"<=".as_slice()
}

/// Whether an operator asks if two numbers are equal, or not.
fn is_equality(operator: &[u8]) -> bool
    ensures { result ≡ is_some (lookup (bytes_eq operator.now) says.equalities) }
{
    operator == b"-eq".as_slice()
        || operator == b"==".as_slice()
        || operator == b"-ne".as_slice()
        || operator == b"!=".as_slice()
        || operator == b"<>".as_slice()
}

/// Whether a comparison holds.
fn compared(operator: &[u8], left: u64, right: u64) -> bool
    ensures { result ≡ says.compared operator.now left right }
{
    in_order(operator, left, right) || are_equal(operator, left, right)
}

/// The status of a comparison.
fn status_of(operator: &[u8], left: u64, right: u64) -> u8
    ensures { result ≡ (if says.compared operator.now (left % 2 ^ 32) (right % 2 ^ 32) then 0 else
        1) }
{
    if compared(operator, left % 4_294_967_296, right % 4_294_967_296) {
        0
    } else {
        1
    }
}

/// `itest`, if no operand is read from memory. An operator that is not known gives status 1.
pub(crate) fn itest(words: &[Vec<u8>]) -> Option<Computed<'_>>
    ensures { call_shown result ≡ says.itest (texts words.now) }
{
    let [left, operator, right] = words else {
        return Some(Computed::Gives(1));
    };
    if !is_order(operator) && !is_equality(operator) {
        return Some(Computed::Gives(1));
    }
    let left = operand(left)?;
    let right = operand(right)?;
    Some(Computed::Gives(status_of(operator, left, right)))
}
