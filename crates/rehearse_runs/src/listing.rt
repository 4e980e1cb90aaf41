//! The listing of runs.
ghost use Rattle.std.specs.Prelude.{◌≡◌, map, codes, ◌++◌, false, IfOk, OnOk, IfErr};
ghost use Rattle.output.specs.Sink.{Prints};
ghost use Rattle.rehearse_rules.specs.Listing.{line};
ghost use Rattle.rehearse_terms.specs.Asking.{HasRoom};
ghost use Rattle.rehearse_records.specs.Recording.{printed};
ghost use Rattle.rehearse_runs.specs.ListingRuns.{reached, lowered, WroteRecords, Lists, Breaks};

use crate::runs::Runs;
use bootstore_state::Store;
use output::{BytePage, Out, OutFault, write_all, write_parts};
use rehearse_records::write_record;
use rehearse_rules::RehearseError;
use rehearse_terms::Page;

/// How a listing finishes.
#[derive(Clone, Copy, Debug, PartialEq, Eq)]
pub enum Finish {
    /// With the last run.
    Done,
    /// With the limit, and runs are left out.
    More,
}

/// Whether no more records are wanted.
fn is_reached(left: Option<u32>) -> bool
    ensures { result ≡ reached left }
{
    match left {
        Some(count) => count == 0,
        None => false,
    }
}

/// One record less is wanted.
fn lower(left: Option<u32>) -> Option<u32>
    ensures { result ≡ lowered left }
{
    match left {
        Some(count) => Some(count.saturating_sub(1)),
        None => None,
    }
}

/// Writes the records of the page's runs. Errors: `Memory`, `Write`, `Failed`.
fn write_records<S: Store, O: Out>(
    runs: &mut Runs<'_, S>,
    names: &[&[u8]],
    page: Page,
    out: &mut O,
) -> Result<(), RehearseError>
    requires { runs.old.failed ≡ false }
    ensures ok { OnOk result (WroteRecords (O.sink out.old) (O.sink out.new) runs.old runs.new
        (map (λ n. n.now) names.now) page) }
    ensures err { IfErr result
        (λ e. Breaks (O.sink out.old) (O.sink out.new) runs.old runs.new
        (map (λ n. n.now) names.now) page e) }
{
    let mut left = page.limit;
    let mut bytes = BytePage::new();
    while !is_reached(left) {
        let Some(view) = runs.next()? else {
            return Ok(());
        };
        write_record(&view, names, &mut bytes, out)?;
        left = lower(left);
    }
    Ok(())
}

/// Writes the line after the records of a listing that leaves runs out, with the digits of the last
/// word.
fn write_more<O: Out>(out: &mut O, digits: &[u8]) -> Result<(), OutFault>
    ensures { Prints result (O.sink out.old) (O.sink out.new)
        (line (codes "more " ++ printed digits.now)) }
{
    if digits.is_empty() {
        write_all(out, b"more .\n")
    } else {
        write_parts(out, &[b"more ", digits, b"\n"])
    }
}

/// Writes the listing of the words still to come: their records, and `done`. If more words are to
/// come than the page allows, writes that many records, and `more` with the last word. Only the
/// runs take memory. Errors: `Memory`, with whole records written; `Write`, with a prefix of the
/// listing written; `Failed` if an earlier call ran out of memory.
pub fn write_listing<S: Store, O: Out>(
    runs: &mut Runs<'_, S>,
    names: &[&[u8]],
    page: Page,
    out: &mut O,
) -> Result<Finish, RehearseError>
    requires { HasRoom page }
    ensures ok { IfOk result (λ finish. Lists (O.sink out.old) (O.sink out.new) runs.old runs.new
        (map (λ n. n.now) names.now) page finish) }
    ensures err { IfErr result
        (λ e. Breaks (O.sink out.old) (O.sink out.new) runs.old runs.new
        (map (λ n. n.now) names.now) page e) }
{
    if runs.has_failed() {
        return Err(RehearseError::Failed);
    }
    write_records(runs, names, page, out)?;
    if runs.has_more() {
        write_more(out, runs.last_digits())?;
        Ok(Finish::More)
    } else {
        write_all(out, b"done\n")?;
        Ok(Finish::Done)
    }
}
