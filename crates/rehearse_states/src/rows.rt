//! Rows: how runs end, how many do, and which is the first.
ghost use Rattle.std.specs.Prelude.{◌≡◌, ◌≤◌, ◌∷◌, [], map, option_map, IfOk};
ghost use Rattle.rehearse_rules.specs.Execution.{outcome_when};
ghost use Rattle.rehearse_states.specs.RowsShown.{row_shown, run_end_shown, rows_shown, joined_up, with_row_up, merge_up};
ghost use Rattle.rehearse_states.specs.Endings.{fewer, one_run, in_front, counts_at};

use crate::run_end::{RunEnd, same_end};
use crate::run_word::RunWord;
use bootstore_state::StoreError;
use std::alloc::Global;
use std::rc::Rc;

/// An ending, and the runs that have it.
#[derive(Drop)]
pub struct Row {
    /// How these runs end, shared by the rows that have it.
    pub run_end: Rc<RunEnd>,
    /// How many runs there are, or 2^128 - 1 if there are more.
    pub count: u128,
    /// The word of the first of these runs.
    pub word: RunWord,
    /// The word of the first of these runs with the fewest unexpected answers, if it is another one.
    pub fewest: Option<RunWord>,
    /// How many of its answers are unexpected.
    pub unexpected: usize,
}

impl Row {
    /// The word of the first of these runs with the fewest unexpected answers.
    pub fn fewest_word(&self) -> &RunWord
        ensures { result.now ≡ (row_shown self.now).fewest.0 }
    {
        match &self.fewest {
            Some(fewest) => fewest,
            None => &self.word,
        }
    }
}

/// The row of one run that is over.
pub(crate) fn one_row(alloc: Global, run_end: Rc<RunEnd>) -> Result<Vec<Row>, StoreError>
    ensures { IfOk result (λ rows. rows_shown rows ≡ one_run (run_end_shown run_end.value, ([], 0)) ∷ []) }
{
    let mut rows = Vec::new(alloc);
    rows.push(Row {
        run_end,
        count: 1,
        word: RunWord::new(),
        fewest: None,
        unexpected: 0,
    })?;
    Ok(rows)
}

/// A copy of a row, which shares its ending and words.
fn copy_row(row: &Row) -> Result<Row, StoreError>
    ensures { IfOk result (λ copy. row_shown copy ≡ row_shown row.now) }
{
    let run_end = row.run_end.clone()?;
    let word = row.word.clone()?;
    let fewest = row.fewest.clone()?;
    Ok(Row {
        run_end,
        count: row.count,
        word,
        fewest,
        unexpected: row.unexpected,
    })
}

/// A copy of rows, which shares their endings and words.
pub(crate) fn copy_rows(alloc: Global, rows: &Vec<Row>) -> Result<Vec<Row>, StoreError>
    ensures { IfOk result (λ copy. rows_shown copy ≡ rows_shown rows.now) }
{
    let mut copies = Vec::new(alloc);
    for row in rows {
        let copy = copy_row(row)?;
        copies.push(copy)?;
    }
    Ok(copies)
}

/// How much an outcome counts: another one than is expected counts one.
fn counts_at(expected: Option<bool>, success: bool) -> usize
    ensures { result ≡ counts_at expected (outcome_when success) }
{
    match expected {
        Some(answer) => usize::from(answer != success),
        None => 0,
    }
}

/// The word with one more outcome, the first, if there is a word.
fn put_before(
    alloc: Global,
    word: Option<RunWord>,
    success: bool,
) -> Result<Option<RunWord>, StoreError>
    ensures { IfOk result (λ made. made ≡ option_map (λ w. outcome_when success ∷ w) word) }
{
    match word {
        None => Ok(None),
        Some(word) => {
            let longer = word.with_first(alloc, success)?;
            Ok(Some(longer))
        }
    }
}

/// Puts an outcome before the words of a row, which counts so much. Words that are one stay one.
fn row_in_front(alloc: Global, row: Row, counts: usize, success: bool) -> Result<Row, StoreError>
    ensures { IfOk result (λ made. row_shown made ≡ in_front (outcome_when success) counts (row_shown row)) }
{
    let Some(unexpected) = counts.checked_add(row.unexpected) else {
        return Err(StoreError::Memory);
    };
    let word = row.word.with_first(alloc, success)?;
    let fewest = put_before(alloc, row.fewest, success)?;
    Ok(Row {
        run_end: row.run_end,
        count: row.count,
        word,
        fewest,
        unexpected,
    })
}

/// Puts an outcome before each word of the rows, where this answer is expected, if one is.
pub(crate) fn put_in_front(
    alloc: Global,
    rows: Vec<Row>,
    expected: Option<bool>,
    success: bool,
) -> Result<Vec<Row>, StoreError>
    ensures { IfOk result (λ made. rows_shown made
        ≡ map (in_front (outcome_when success) (counts_at expected (outcome_when success))) (rows_shown rows)) }
{
    let counts = counts_at(expected, success);
    let mut made = Vec::new(alloc);
    for row in rows {
        let longer = row_in_front(alloc, row, counts, success)?;
        made.push(longer)?;
    }
    Ok(made)
}

/// The row of the runs of both rows, which end alike: the run with fewer unexpected answers, or if
/// they have equally many, the first.
fn join(row: Row, further: &Row) -> Result<Row, StoreError>
    ensures { IfOk result (λ made. row_shown made ≡ joined_up (row_shown row)
        (row_shown further.now)) }
{
    let count = row.count.saturating_add(further.count);
    if row.unexpected <= further.unexpected {
        return Ok(Row { count, ..row });
    }
    let fewest = further.fewest_word().clone()?;
    Ok(Row {
        run_end: row.run_end,
        count,
        word: row.word,
        fewest: Some(fewest),
        unexpected: further.unexpected,
    })
}

/// Adds a row to rows: its runs join the row that ends alike, or the row comes after the others.
fn put_row(alloc: Global, rows: Vec<Row>, row: Row) -> Result<Vec<Row>, StoreError>
    ensures { IfOk result (λ made. rows_shown made ≡ with_row_up (rows_shown rows)
        (row_shown row)) }
{
    let mut made = Vec::new(alloc);
    let mut is_there = false;
    for old in rows {
        if !is_there && same_end(&old.run_end, &row.run_end) {
            is_there = true;
            let both = join(old, &row)?;
            made.push(both)?;
        } else {
            made.push(old)?;
        }
    }
    if !is_there {
        made.push(row)?;
    }
    Ok(made)
}

/// Adds rows to rows, one after another.
pub(crate) fn merge_rows(
    alloc: Global,
    rows: Vec<Row>,
    others: Vec<Row>,
) -> Result<Vec<Row>, StoreError>
    ensures { IfOk result (λ made. rows_shown made ≡ merge_up (rows_shown rows)
        (rows_shown others)) }
{
    let mut made = rows;
    for row in others {
        made = put_row(alloc, made, row)?;
    }
    Ok(made)
}
