//! The truth of the words of `test`.

use crate::case::Case;
use commands::verdict;
use tests_rows::words_of;

/// Whether the words are true.
pub(crate) fn test(case: &Case, says: &str) -> anyhow::Result<String> {
    let truth = verdict(&words_of(case.alloc, says)?);
    Ok(format!(in case.alloc; "{truth}")?)
}
