//! A run, as `next` shows it.
ghost use Rattle.std.specs.Prelude.{◌≡◌};
ghost use Rattle.std.specs.FinMap.{entries};
ghost use Rattle.std.specs.List.{flat_map};
ghost use Rattle.text.specs.TextsShown.{option_bytes};
ghost use Rattle.bootstore_state.specs.DeviceLog.{entry_line};
ghost use Rattle.rehearse_terms.specs.State.{get};

use bootstore_state::{LogEntry, Store, Variables};
use rehearse_rules::Ending;

/// A run. All its parts are borrowed.
#[derive(Drop)]
pub struct RunView<'v, S: Store> {
    word: &'v [u8],
    ending: Ending<'v>,
    store: &'v S,
}

impl<'v, S: Store> RunView<'v, S> {
    ghost use Rattle.rehearse_records.specs.RunViewShown.{shown_word, shown_moment, shown_ending, shown_marks};
    ghost use Rattle.rehearse_rules.specs.EndingsShown.{ending_shown};

    /// The run in a store.
    pub fn new(word: &'v [u8], ending: Ending<'v>, store: &'v S) -> Self
        ensures word { shown_word result ≡ word.now }
        ensures ending { shown_ending result ≡ ending_shown ending.entry }
        ensures moment { shown_moment S.Store result ≡ (S.record_of store.now).present }
        ensures marks { shown_marks S.Store result ≡ (S.record_of store.now).marked }
    {
        RunView {
            word,
            ending,
            store,
        }
    }

    /// The digits of its word: `0` for each device command that succeeded, `1` for each that failed.
    pub fn word(&self) -> &[u8]
        ensures { result.now ≡ shown_word self.now }
    {
        self.word
    }

    /// How it ends.
    pub fn ending(&self) -> Ending<'_>
        ensures { ending_shown result ≡ shown_ending self.now }
    {
        self.ending
    }

    /// The device commands that were run, in order.
    pub fn log(&self) -> &[LogEntry]
        ensures { result.now ≡ (shown_moment S.Store self.now).log }
    {
        self.store.log()
    }

    /// Their lines in a record.
    pub fn log_lines(&self) -> &[u8]
        ensures { result.now ≡ flat_map entry_line (shown_moment S.Store self.now).log }
    {
        self.store.log_lines()
    }

    /// What it printed, if that is kept.
    pub fn text(&self) -> Option<&[u8]>
        ensures { option_bytes result ≡ (shown_moment S.Store self.now).text }
    {
        self.store.text()
    }

    /// The environment at its end, in byte order of the names.
    pub fn variables(&self) -> Variables<'_>
        ensures { result ≡ entries (shown_moment S.Store self.now).environment }
    {
        self.store.variables()
    }

    /// The value of an environment variable at its end.
    pub fn variable(&self, name: &[u8]) -> Option<&[u8]>
        ensures { option_bytes result ≡ get (entries (shown_moment S.Store self.now).environment)
            name.now }
    {
        self.store.get_env(name)
    }
}
