//! The numbers under which causes are kept.
ghost use Rattle.std.specs.Prelude.{◌≡◌, IfOk, fold, map};
ghost use Rattle.rehearse_causes.specs.Numbers.{command_number, each_with, fails_number, mixed, part_numbers, with_word};
ghost use Rattle.text.specs.TextsShown.{bytes_of_words};

use bootstore_state::{LogEntry, StoreError};
use std::alloc::Global;

/// One more byte.
fn mixed(hash: u64, byte: u8) -> u64
    ensures { result ≡ mixed hash byte }
{
    (hash ^ (hash >> 32))
        .wrapping_mul(0xff51_afd7_ed55_8ccd)
        .wrapping_add(u64::from(byte))
}

/// One more word.
fn with_word(hash: u64, word: &[u8]) -> u64
    ensures { result ≡ with_word hash word.now }
{
    word.iter()
        .fold(mixed(hash, b' '), |hash, byte| mixed(hash, *byte))
}

/// All words.
fn with_words(words: &[Vec<u8>]) -> u64
    ensures { result ≡ fold with_word 0 (bytes_of_words words.now) }
{
    words.iter().fold(0, |hash, word| with_word(hash, word))
}

/// The number of a command.
fn command_number(command: &[Vec<u8>]) -> u64
    ensures { result ≡ command_number (bytes_of_words command.now) }
{
    mixed(mixed(with_words(command), 0), 0)
}

/// The number of commands, whatever their order.
pub(crate) fn fails_number(fails: &[LogEntry]) -> u64
    ensures { result ≡ fails_number (map (λ e. e.words) fails.now) }
{
    fails.iter().fold(0, |sum: u64, entry| {
        sum.wrapping_add(command_number(&entry.words))
    })
}

/// Each number without one more command and with it. Errors: `Memory`.
fn each_with(alloc: Global, sums: &[u64], number: u64) -> Result<Vec<u64>, StoreError>
    ensures { IfOk result (λ made. made.items ≡ each_with sums.now number) }
{
    let mut made = Vec::new(alloc);
    for sum in sums {
        made.push(*sum)?;
        made.push(sum.wrapping_add(number))?;
    }
    Ok(made)
}

/// The number of each part of these commands, which are twice as many with each command. Errors:
/// `Memory`.
pub(crate) fn part_numbers(alloc: Global, fails: &[LogEntry]) -> Result<Vec<u64>, StoreError>
    ensures { IfOk result (λ made. made.items ≡ part_numbers (map (λ e. e.words) fails.now)) }
{
    let mut sums = Vec::new(alloc);
    sums.push(0)?;
    for entry in fails {
        let number = command_number(&entry.words);
        sums = each_with(alloc, &sums, number)?;
    }
    Ok(sums)
}
