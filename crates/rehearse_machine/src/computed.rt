//! Computed calls over a store.
ghost use Rattle.std.specs.Prelude.{◌≡◌, cond, is_some, false, string_bytes, IfOk, None};
ghost use Rattle.std.specs.FinMap.{entries};
ghost use Rattle.std.specs.Fmt.{digits};
ghost use Rattle.bootstore_state.specs.Record.{changed, with_environment};
ghost use Rattle.text.specs.TextsShown.{bytes_of_words};
ghost use Rattle.commands.specs.BuiltInCommands as says;
ghost use Rattle.commands.specs.ComputedShown.{computed_shown};
ghost use Rattle.rehearse_terms.specs.State.{get, with_value};
ghost use Rattle.rehearse_machine.specs.MovesShown.{Changed};

use crate::built_in::setenv;
use bootstore_state::{Store, StoreError};
use commands::Computed;
use std::alloc::{AllocError, Global};

/// Whether an environment variable is set.
fn is_set<S: Store>(store: &S, name: &[u8]) -> bool
    ensures { result ≡ is_some
        (get (entries (S.record_of store.now).present.environment) name.now) }
{
    match store.get_env(name) {
        Some(_) => true,
        None => false,
    }
}

/// The status of a call that looked a variable up: 1 if it is not set, else the one before.
fn status_after(is_set: bool, status: u8) -> u8
    ensures { result ≡ cond is_set status 1 }
{
    if is_set { status } else { 1 }
}

/// Deletes an environment variable. The answer is whether it was set.
fn delete<S: Store>(store: &mut S, name: &[u8]) -> Result<bool, StoreError>
    ensures was_set { IfOk result (λ was_set. was_set
        ≡ is_some (get (entries (S.record_of store.old).present.environment) name.now)) }
    ensures deleted { IfOk result (λ _. S.record_of store.new
        ≡ changed (with_environment name.now None) (S.record_of store.old)) }
{
    let was_set = is_set(store, name);
    store.set_env(name, None)?;
    Ok(was_set)
}

/// Deletes environment variables. The status is 1 if one of them was not set.
fn delete_all<S: Store>(store: &mut S, names: &[Vec<u8>]) -> Result<(), StoreError>
    ensures { Changed result (S.record_of store.old) (S.record_of store.new)
        (says.changed_by (says.deletions 0 (bytes_of_words names.now))) }
{
    let mut status = 0;
    for name in names {
        let was_set = delete(store, name)?;
        status = status_after(was_set, status);
    }
    store.set_status(status)
}

/// A number in hexadecimal.
fn hexadecimal(alloc: Global, number: u64) -> Result<String, AllocError>
    ensures { IfOk result (λ text. string_bytes text ≡ digits 16 false number) }
{
    format!(in alloc; "{number:x}")
}

/// Sets an environment variable to a number, in hexadecimal.
fn set_number<S: Store>(
    alloc: Global,
    store: &mut S,
    name: &[u8],
    number: u64,
) -> Result<(), StoreError>
    ensures { Changed result (S.record_of store.old) (S.record_of store.new)
        (says.changed_by (λ variables.
        (with_value variables name.now (digits 16 false number), 0))) }
{
    let value = hexadecimal(alloc, number)?;
    store.set_env(name, Some(value.as_bytes()))?;
    store.set_status(0)
}

/// Does the result of a computed call.
pub(crate) fn carry_out<S: Store>(
    alloc: Global,
    store: &mut S,
    computed: Computed<'_>,
) -> Result<(), StoreError>
    ensures { Changed result (S.record_of store.old) (S.record_of store.new)
        (says.changed_by (says.carried (computed_shown computed.entry))) }
{
    match computed {
        Computed::Gives(status) => store.set_status(status),
        Computed::Exists(name) => {
            let status = status_after(is_set(store, name), 0);
            store.set_status(status)
        }
        Computed::Sets(words) => setenv(alloc, store, words),
        Computed::Deletes(names) => delete_all(store, names),
        Computed::SetsNumber(name, number) => set_number(alloc, store, name, number),
    }
}
