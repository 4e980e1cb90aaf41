//! The lines of the values that runs leave.
ghost use Rattle.std.specs.Prelude.{◌≡◌, ◌++◌, OnOk, map};
ghost use Rattle.std.specs.List.{flat_map};
ghost use Rattle.rehearse_rules.specs.Listing.{line, saved_line};
ghost use Rattle.text.specs.Escapes.{escaped, text_form};
ghost use Rattle.text.specs.TextsShown.{option_bytes};
ghost use Rattle.rehearse_states.specs.EndingLines.{value_lines, value_text, value_texts};
ghost use Rattle.rehearse_states.specs.RowsShown.{value_shown};

use crate::ending_lines::{put, put_word};
use bootstore_state::StoreError;
use device_list::saved_of;
use text::Escaped;

/// Adds bytes in text form.
fn put_text(text: &mut Vec<u8>, bytes: &[u8]) -> Result<(), StoreError>
    ensures { OnOk result (text.new.items ≡ text.old.items ++ text_form bytes.now) }
{
    for byte in bytes {
        put(text, Escaped::in_text(*byte).as_slice())?;
    }
    Ok(())
}

/// Adds the line of a variable: its value, or that it is not set.
pub fn put_variable(text: &mut Vec<u8>, name: &[u8], value: Option<&[u8]>) -> Result<(), StoreError>
    ensures { OnOk result (text.new.items
        ≡ text.old.items ++ line (value_text name.now (option_bytes value.entry))) }
{
    match value {
        Some(value) => {
            put(text, b"var ")?;
            put_word(text, name)?;
            put(text, b"=")?;
            put_text(text, value)?;
            put(text, b"\n")
        }
        None => {
            put(text, b"unset ")?;
            put_word(text, name)?;
            put(text, b"\n")
        }
    }
}

/// Adds the line of what was saved of a variable, by the copy of it.
fn put_saved(text: &mut Vec<u8>, name: &[u8], copy: &[u8]) -> Result<(), StoreError>
    ensures { OnOk result (text.new.items ≡ text.old.items ++ line (saved_line name.now copy.now)) }
{
    match copy {
        [_, value @ ..] => {
            put(text, b"saved ")?;
            put_word(text, name)?;
            put(text, b"=")?;
            put_text(text, value)?;
            put(text, b"\n")
        }
        [] => {
            put(text, b"saved unset ")?;
            put_word(text, name)?;
            put(text, b"\n")
        }
    }
}

/// Adds the line of a variable, or of what was saved of one: no line, if nothing was.
fn put_value(text: &mut Vec<u8>, name: &[u8], value: &Option<Vec<u8>>) -> Result<(), StoreError>
    ensures { OnOk result (text.new.items ≡ text.old.items
        ++ flat_map line (value_texts name.now (value_shown value.now))) }
{
    let Some(variable) = saved_of(name) else {
        return put_variable(text, name, value.as_deref());
    };
    match value {
        Some(copy) => put_saved(text, variable, copy),
        None => Ok(()),
    }
}

/// Adds the lines of the variables, with their values, and of what was saved.
pub(crate) fn put_values(
    text: &mut Vec<u8>,
    names: &[&[u8]],
    values: &[Option<Vec<u8>>],
) -> Result<(), StoreError>
    ensures { OnOk result (text.new.items ≡ text.old.items
        ++ value_lines (map (λ n. n.now) names.now) (map value_shown values.now)) }
{
    for (name, value) in names.iter().zip(values) {
        put_value(text, name, value)?;
    }
    Ok(())
}
