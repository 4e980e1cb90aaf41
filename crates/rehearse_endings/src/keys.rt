//! The keys that are enough for what is to come, at an end and where a device command asks.
ghost use Rattle.std.specs.Prelude.{◌++◌, IfOk, map};
ghost use Rattle.rehearse_reads.specs.Keys.{AreAmong, keys_in_front, keys_read};
ghost use Rattle.rehearse_frames.specs.ToCome.{names_read};
ghost use Rattle.rehearse_reports.specs.Asked.{asked_reads};
ghost use Rattle.rehearse_reports.specs.ReportsShown.{accesses_shown, keys_shown};

use bootstore_state::{Store, StoreError};
use rehearse_reports::{Key, Needed, Reported, report_asked};
use std::alloc::{AllocError, Global};

/// The keys at an end: the variables whose values are asked for. Errors: memory ran out.
pub(crate) fn keys_at_end(alloc: Global, names: &[&[u8]]) -> Result<Vec<Key>, AllocError>
    ensures { IfOk result (λ keys. AreAmong (keys_read (names_read (map (λ n. n.now) names.now)))
        (keys_shown keys.items)) }
{
    let mut keys = Vec::new(alloc);
    for name in names {
        keys.push(Key::Environment(Vec::from_slice(alloc, name)?))?;
    }
    Ok(keys)
}

/// The keys where a device command asks: what its words read, and of both outcomes what has to be known
/// in front of what was reported, and then of the keys after it. Errors: `Memory`.
pub(crate) fn keys_of_both<S: Store>(
    alloc: Global,
    store: &S,
    won: Reported,
    after_won: Vec<Key>,
    lost: Reported,
    after_lost: Vec<Key>,
) -> Result<Vec<Key>, StoreError>
    ensures asked { IfOk result (λ keys. AreAmong (asked_reads (S.record_of store.now).present)
        (keys_shown keys.items)) }
    ensures both { IfOk result (λ keys. AreAmong
        (keys_in_front (accesses_shown won) (keys_shown after_won.items)
        ++ keys_in_front (accesses_shown lost) (keys_shown after_lost.items))
        (keys_shown keys.items)) }
{
    let hasher = won.hasher();
    let mut asked = Reported::new(alloc, hasher);
    report_asked(alloc, &mut asked, store)?;
    let mut needed = Needed::new(alloc, hasher);
    needed.add_in_front(asked, Vec::new(alloc))?;
    needed.add_in_front(won, after_won)?;
    needed.add_in_front(lost, after_lost)?;
    let keys = needed.into_keys()?;
    Ok(keys)
}
