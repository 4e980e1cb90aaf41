//! Calls of the product. None of these functions promises anything, so that the proof of a caller has little to look
//! at.

use indexmap::IndexMap;
use keyed_hash::KeyedHash;
use rehearse_runs::{Ask as RehearseAsk, Finish};
use rehearse_terms::{Bounds, Page, Wanted};
use std::alloc::Global;
use tests_tools::{Case, Source, Tested};
use tool_files::MemoryFiles;
use tool_steps::Build;
use tool_words::CalledAs;
use ubtool::{DeviceText, RehearsalError, Taking, rehearse_bytes, run_tool};

/// Rehearses a variable of the image of a case, where `load` is listed and `z` is asked for.
pub(crate) fn rehearse(
    case: &Case<'_>,
    name: &[u8],
    steps: u32,
    out: &mut Tested,
) -> anyhow::Result<Result<Finish, RehearsalError>> {
    let Some(bounds) = Bounds::new(16, steps) else {
        anyhow::bail!("no bounds");
    };
    let ask = RehearseAsk {
        name,
        text: None,
        wanted: Wanted::Listing {
            bounds,
            after: None,
            page: Page { limit: None },
        },
        names: &[b"z"],
    };
    let second = case.second.as_ref().map(|bytes| bytes.as_slice());
    let files = IndexMap::with_hasher(case.alloc, KeyedHash::new());
    let list = DeviceText {
        text: b"load",
        files: &files,
        taking: Taking {
            steady: false,
            alternative: None,
        },
    };
    Ok(rehearse_bytes(case.alloc, &case.first, second, case.order, list, &ask, out))
}

/// The status of the program, over files in memory.
pub(crate) fn run_words(
    alloc: Global,
    called: CalledAs,
    words: &[&str],
    input: &mut Source<'_>,
    files: &mut MemoryFiles,
    out: &mut Tested,
    err: &mut Tested,
) -> u8 {
    run_tool(alloc, Build::X86_64, called, words, input, files, out, err)
}
