//! A caller of `bootstore`.
ghost use Rattle.std.specs.Prelude.{◌≡◌};

use bootstore::{Store, StoreError};

/// Writes a text and takes it back. The store is then as before, also if memory ran out.
pub fn try_echo<S: Store>(store: &mut S, text: &[u8]) -> Result<(), StoreError>
    ensures { S.record_of store.new ≡ S.record_of store.old }
{
    store.mark()?;
    let written = store.echo(text);
    store.back();
    written
}
