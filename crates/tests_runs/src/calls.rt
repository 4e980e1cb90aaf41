//! The calls of a rehearsal that rows make. None of these functions promises anything, so that the proof of a caller
//! has little to look at.

use bootstore_state::Store;
use device_list::Devices;
use envtools::Env;
use output::Out;
use rehearse_runs::{
    Finish, RehearseError, Runs, Source, WordKind, resume_point, try_word, write_listing,
};
use rehearse_terms::{Bounds, Page};
use std::alloc::Global;
use tests_language::{Case, devices_of, env_of};

/// What is rehearsed: the environment and the device list of a case, its variable or its text, and its bounds.
#[derive(Drop)]
pub(crate) struct Given<'a> {
    pub(crate) alloc: Global,
    pub(crate) env: Env,
    pub(crate) devices: Devices,
    pub(crate) source: Source<'a>,
    pub(crate) bounds: Bounds,
}

/// The variable or the text of a case.
fn source_of(case: &Case) -> Source<'_> {
    Source {
        name: &case.name,
        text: case.text.as_ref().map(|text| text.as_slice()),
    }
}

/// What a case rehearses.
pub(crate) fn given_of(case: &Case) -> anyhow::Result<Given<'_>> {
    Ok(Given {
        alloc: case.alloc,
        env: env_of(case)?,
        devices: devices_of(case.alloc, &case.devices)?,
        source: source_of(case),
        bounds: case.bounds,
    })
}

impl Given<'_> {
    /// All runs, or those after a word.
    pub(crate) fn runs<S: Store>(
        &self,
        after: Option<&[u8]>,
    ) -> Result<Runs<'_, S>, RehearseError> {
        let (alloc, env, devices) = (self.alloc, &self.env, &self.devices);
        match after {
            None => Runs::of(alloc, env, devices, self.source, self.bounds),
            Some(word) => Runs::behind(alloc, env, devices, self.source, self.bounds, word),
        }
    }

    /// What kind of word a text is.
    pub(crate) fn kind<S: Store>(&self, word: &[u8]) -> Result<WordKind, RehearseError> {
        let (alloc, env, devices) = (self.alloc, &self.env, &self.devices);
        try_word::<S>(alloc, env, devices, self.source.name, self.bounds, word)
    }
}

/// The word of the next run, if there is one.
pub(crate) fn next_word<S: Store>(
    alloc: Global,
    runs: &mut Runs<'_, S>,
) -> anyhow::Result<Option<Vec<u8>>> {
    match runs.next()? {
        Some(view) => Ok(Some(view.word().to_vec(alloc)?)),
        None => Ok(None),
    }
}

/// How many steps were begun.
pub(crate) fn work_of<S: Store>(runs: &Runs<'_, S>) -> u64 {
    runs.work()
}

/// Writes a listing, up to a limit, which is none where it is 0.
pub(crate) fn list<S: Store, O: Out>(
    runs: &mut Runs<'_, S>,
    names: &[&[u8]],
    limit: u32,
    out: &mut O,
) -> Result<Finish, RehearseError> {
    let limit = if limit == 0 { None } else { Some(limit) };
    write_listing(runs, names, Page { limit }, out)
}

/// The word after which a broken-off listing goes on, and how many bytes of it are written. Before the end of the
/// first record they are `none` and 0.
pub(crate) fn resumed_at(written: &[u8]) -> (&[u8], usize) {
    match resume_point(written) {
        Some(point) => (point.word, point.length),
        None => (b"none", 0),
    }
}
