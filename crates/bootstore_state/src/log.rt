//! The log of device commands.
ghost use Rattle.std.specs.Prelude.{◌≡◌, ◌&&◌, IfOk, length, take};
ghost use Rattle.std.specs.List.{list_any};
ghost use Rattle.rehearse_terms.specs.State.{same_words};
ghost use Rattle.text.specs.TextsShown.{bytes_of_words};

use std::alloc::AllocError;
use std::marker::Model;

/// A device command that was run, and how it ended.
#[derive(Drop)]
pub struct LogEntry {
    /// Whether it succeeded.
    pub success: bool,
    /// All its fields, its name first.
    pub words: Vec<Vec<u8>>,
    /// Whether the list says that its answer stays for the rest of the run.
    pub stays: bool,
    /// Whether it was asked before, and was given that answer again.
    pub again: bool,
}

impl Model for LogEntry {
    ghost use Rattle.rehearse_terms.specs.State.{LoggedCommand};
    ghost use Rattle.text.specs.TextsShown.{bytes_of_words};

    ghost Value = { LoggedCommand };

    ghost view = { λ entry. record {
      success = entry.success;
      words = bytes_of_words entry.words.items;
      stays = entry.stays;
      again = entry.again;
    } };
}

/// Whether the first words are these.
fn begins(words: &[Vec<u8>], start: &[Vec<u8>]) -> bool
    ensures { result ≡ same_words (bytes_of_words start.now)
        (take (length (bytes_of_words start.now)) (bytes_of_words words.now)) }
{
    let count = start.len().min(words.len());
    start == &words[..count]
}

/// Whether a command of a log has succeeded whose words, its name first, begin so. Looks at each entry
/// until it is found.
pub fn has_succeeded(log: &[LogEntry], start: &[Vec<u8>]) -> bool
    ensures { result ≡ list_any (λ e. e.success
        && same_words (bytes_of_words start.now) (take (length (bytes_of_words start.now)) e.words)) log.now }
{
    for entry in log {
        if entry.has_begun(start) {
            return true;
        }
    }
    false
}

impl LogEntry {
    ghost use Rattle.std.specs.Prelude.{not, ◌&&◌};

    /// Whether it has succeeded, and its words begin so.
    fn has_begun(&self, start: &[Vec<u8>]) -> bool
        ensures { result ≡ (self.now.success
            && same_words (bytes_of_words start.now) (take (length (bytes_of_words start.now)) self.now.words)) }
    {
        self.success && begins(&self.words, start)
    }

    /// Whether it has an answer that stays, and was not given it again.
    pub fn has_answer(&self) -> bool
        ensures { result ≡ (not self.now.again && self.now.stays) }
    {
        !self.again && self.stays
    }

    /// A copy that owns its words. Errors: memory ran out.
    pub fn copy(&self) -> Result<LogEntry, AllocError>
        ensures { IfOk result (λ entry. entry ≡ self.now) }
    {
        Ok(LogEntry {
            success: self.success,
            words: self.words.clone()?,
            stays: self.stays,
            again: self.again,
        })
    }
}
