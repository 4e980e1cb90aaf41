//! What the device command reads that asks, and the keys that are enough where it does.
ghost use Rattle.std.specs.Prelude.{◌≡◌, [], OnOk};
ghost use Rattle.rehearse_reads.specs.Keys.{all_read};
ghost use Rattle.rehearse_reports.specs.Asked.{asked_reads};
ghost use Rattle.rehearse_reports.specs.Reports.{Reports};
ghost use Rattle.rehearse_reports.specs.ReportsShown.{accesses_shown};

use crate::reported::Reported;
use crate::words::report_words;
use bootstore_state::{Store, StoreError};
use rehearse_machine::call_in_front;
use std::alloc::Global;

/// Reports what the words of the command before the place of the innermost frame read: where a device
/// command asks, it is that one. Errors: `Memory`.
pub fn report_asked<S: Store>(
    alloc: Global,
    reported: &mut Reported,
    store: &S,
) -> Result<(), StoreError>
    ensures { OnOk result (Reports (accesses_shown reported.old) (accesses_shown reported.new)
        (all_read (asked_reads (S.record_of store.now).present))) }
{
    let Some(top) = store.top() else {
        return Ok(());
    };
    let Some(call) = call_in_front(top) else {
        return Ok(());
    };
    report_words(alloc, reported, store, call.words())
}
