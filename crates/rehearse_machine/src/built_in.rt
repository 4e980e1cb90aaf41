//! The commands that need no frame: `setenv` and `echo` over a store, the status of `exit`, and
//! whether `test` asks a device.
ghost use Rattle.std.specs.Prelude.{◌≡◌, ◌∷◌, []};
ghost use Rattle.text.specs.TextsShown.{bytes_of_words};
ghost use Rattle.commands.specs.BuiltInCommands as says;
ghost use Rattle.rehearse_machine.specs.MovesShown.{Changed};

use bootstore_state::{Store, StoreError};
use commands::is_bad_name;
use std::alloc::Global;
use text::{are_digits, joined_words};

/// `setenv`: deletes the variable if only a name is given, else sets it to the words after the
/// name. Errors: `Memory`.
pub(crate) fn setenv<S: Store>(
    alloc: Global,
    store: &mut S,
    words: &[Vec<u8>],
) -> Result<(), StoreError>
    ensures { Changed result (S.record_of store.old) (S.record_of store.new)
        (says.variables_changed says.setenv (bytes_of_words words.now)) }
{
    let [name, values @ ..] = words else {
        return store.set_status(1);
    };
    if is_bad_name(name) {
        return store.set_status(1);
    }
    if values.is_empty() {
        store.set_env(name, None)?;
        return store.set_status(0);
    }
    let value = joined_words(alloc, values)?;
    store.set_env(name, Some(&value))?;
    store.set_status(0)
}

/// Whether the words after `test` ask a device.
pub(crate) fn asks_device(words: &[Vec<u8>]) -> bool
    ensures { result ≡ says.asks_device (bytes_of_words words.now) }
{
    match words {
        [first, _, _, _] => first.as_slice() == b"-e".as_slice(),
        _ => false,
    }
}

/// The number up to 255 that digits spell.
fn decimal(word: &[u8]) -> Option<u8>
    ensures { result ≡ says.decimal_from 0 word.now }
{
    let mut number: u32 = 0;
    for byte in word {
        if !byte.is_ascii_digit() {
            return None;
        }
        number = number * 10 + u32::from(*byte - b'0');
        if number > 255 {
            return None;
        }
    }
    Some(number as u8)
}

/// The status that the words after `exit` name, if they name one.
pub(crate) fn exit_status(words: &[Vec<u8>]) -> Option<u8>
    ensures { result ≡ says.exit_status (bytes_of_words words.now) }
{
    match words {
        [] => Some(0),
        [word] => status_of(word),
        _ => None,
    }
}

/// The status that one word names: 0 for a negative number, else the number.
fn status_of(word: &[u8]) -> Option<u8>
    ensures { result ≡ says.exit_status (word.now ∷ []) }
{
    match word {
        [] => None,
        [b'-', digits @ ..] if !digits.is_empty() && are_digits(digits) => Some(0),
        _ => decimal(word),
    }
}

/// `echo`: writes the words and a newline, which a first word `-n` leaves out. Errors: `Memory`.
pub(crate) fn echo<S: Store>(
    alloc: Global,
    store: &mut S,
    words: &[Vec<u8>],
) -> Result<(), StoreError>
    ensures { Changed result (S.record_of store.old) (S.record_of store.new)
        (says.text_written says.echo (bytes_of_words words.now)) }
{
    let mut shown = words;
    let mut ends_line = true;
    if let [first, behind @ ..] = words {
        if first.as_slice() == b"-n".as_slice() {
            shown = behind;
            ends_line = false;
        }
    }
    let mut written = joined_words(alloc, shown)?;
    if ends_line {
        written.push(b'\n')?;
    }
    store.echo(&written)?;
    store.set_status(0)
}
