//! Whether a name is there twice in an image's data, found without a table of the names.
ghost use Rattle.std.specs.Prelude.{◌≡◌, ◌↔◌, None, IfOk, IsTrue, map};
ghost use Rattle.envimage.specs.Data.{data_fault, pairs_of};
ghost use Rattle.envtools.specs.Environment.{HasDistinctNames};
ghost use Rattle.envtools.specs.Listed.{Ascend, Rise, name_number, with_byte};

use envimage::entries;
use std::alloc::{AllocError, Global};

/// The number with which that of a name starts.
const SEED: u64 = 0xcbf2_9ce4_8422_2325;

/// Whether the names of data ascend in byte order. Then no name is there twice. Takes no
/// memory.
fn is_ascending(body: &[u8]) -> bool
    requires { data_fault body.now ≡ None }
    ensures { IsTrue result ↔ Ascend (pairs_of body.now) }
{
    let mut last: &[u8] = &[];
    for (name, _value) in entries(body) {
        if !last.cmp(&name).is_lt() {
            return false;
        }
        last = name;
    }
    true
}

/// A number with one more byte.
fn with_byte(number: u64, byte: u8) -> u64
    ensures { result ≡ with_byte number byte }
{
    (number ^ u64::from(byte)).wrapping_mul(0x0000_0100_0000_01b3)
}

/// The number of a name. Names that differ may have one number, which costs time alone.
fn name_number(name: &[u8]) -> u64
    ensures { result ≡ name_number name.now }
{
    name.iter()
        .fold(SEED, |number, byte| with_byte(number, *byte))
}

/// The numbers of all names of data, in their order. Errors: memory ran out.
fn name_numbers(alloc: Global, body: &[u8]) -> Result<Vec<u64>, AllocError>
    requires { data_fault body.now ≡ None }
    ensures { IfOk result (λ numbers. numbers.items
        ≡ map (λ p. name_number p.0) (pairs_of body.now)) }
{
    let mut numbers = Vec::new(alloc);
    for (name, _value) in entries(body) {
        numbers.push(name_number(name))?;
    }
    Ok(numbers)
}

/// Whether the first number is greater than 0, and each other one than the one before it.
fn rise(numbers: &[u64]) -> bool
    ensures { IsTrue result ↔ Rise numbers.now }
{
    let mut last = 0;
    for number in numbers {
        if *number <= last {
            return false;
        }
        last = *number;
    }
    true
}

/// Whether no name is found twice in data: they ascend, or their numbers differ. Takes eight bytes
/// for each name if they do not ascend. Errors: memory ran out.
pub(crate) fn are_distinct(alloc: Global, body: &[u8]) -> Result<bool, AllocError>
    requires { data_fault body.now ≡ None }
    ensures distinct { IfOk result (λ are. IsTrue are → HasDistinctNames (pairs_of body.now)) }
    ensures ascending { IfOk result (λ are. Ascend (pairs_of body.now) → IsTrue are) }
{
    if is_ascending(body) {
        return Ok(true);
    }
    let mut numbers = name_numbers(alloc, body)?;
    numbers.sort_unstable();
    Ok(rise(&numbers))
}
