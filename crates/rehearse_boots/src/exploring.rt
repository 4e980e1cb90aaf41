//! The boots of a board, from the first one on.
ghost use Rattle.std.specs.Prelude.{◌≡◌, ◌≤◌, [], length, map, IfErr, IfOk, OnOk};
ghost use Rattle.rehearse_boots.specs.Boots as spec;
ghost use Rattle.rehearse_boots.specs.Boots.{found_by};
ghost use Rattle.rehearse_boots.specs.BootsShown.{kept_shown, started_shown};
ghost use Rattle.rehearse_boots.specs.Exploring.{AddsBoot, AddsStarted, AreStillFound, AreTold, IsExplored, IsRight, IsStarted, IsUntoldBoot, IsUntoldStarted, StaysFound, asked_in, graph_shown, untold_by};
ghost use Rattle.rehearse_boots.specs.TellingBoots.{IsUntold};
ghost use Rattle.rehearse_boots.specs.Ways.{AreFoundBy, way_shown};
ghost use Rattle.text.specs.TextsShown.{bytes_of_words};

use crate::ask::{Board, Started};
use crate::boot::{Ending, Telling, ways_of};
use crate::boots_error::BootsError;
use crate::found::{Boots, Found, copied};
use crate::kept::{values_kept, with_kept};
use crate::next::saved_if;
use crate::way::Way;
use board_start::BoardError;
use bootstore_state::Store;
use rehearse_endings::{SumError, endings_of};
use rehearse_machine::{Rehearsal, Source};
use std::alloc::AllocError;

/// All boots, and the ways from each of them.
#[derive(Drop)]
pub(crate) struct Explored {
    pub(crate) found: Found,
    pub(crate) graph: Vec<Vec<Way>>,
}

/// How a refusal of the endings of a boot is reported.
fn untold(error: SumError) -> BootsError
    ensures { result ≡ untold_by error }
{
    match error {
        SumError::States => BootsError::States,
        SumError::Steps(entered) => BootsError::Steps(entered),
        SumError::Bytes(entered) => BootsError::Bytes(entered),
        SumError::Memory => BootsError::Memory,
    }
}

/// What a boot starts with that finds this saved. Errors: `Board`, `Memory`.
fn start_boot<B: Board>(
    telling: &Telling<'_>,
    board: &B,
    kept: &[Vec<u8>],
) -> Result<Started, BootsError>
    ensures { IsStarted (B.start_of board.now (found_by (asked_in telling.now) (bytes_of_words kept.now))) result }
{
    let found = with_kept(telling.alloc, telling.env, telling.ask.kept, kept)?;
    match board.start(found) {
        Ok(started) => Ok(started),
        Err(BoardError::Memory) => Err(BootsError::Memory),
        Err(fault) => Err(BootsError::Board(fault)),
    }
}

/// What is saved when the run of a boot begins that starts so and finds this saved. Errors: memory ran out.
fn saved_at(
    telling: &Telling<'_>,
    started: &Started,
    kept: &[Vec<u8>],
) -> Result<Vec<Vec<u8>>, AllocError>
    ensures { IfOk result (λ saved. kept_shown saved
        ≡ spec.saved_at (asked_in telling.now) (bytes_of_words kept.now) (started_shown started.now)) }
{
    if started.saves {
        let after = values_kept(telling.alloc, &started.env, telling.ask.kept)?;
        return saved_if(telling, kept, after);
    }
    copied(telling.alloc, kept)
}

/// The ways from the boot at a place, which starts so and finds this saved. The boots that follow are added. Errors:
/// `NoSuchVariable`; `States`, `Steps`, `Bytes`; `Boots`; `Memory`.
fn add_endings<S: Store>(
    telling: &Telling<'_>,
    started: &Started,
    found: &mut Found,
    place: usize,
    kept: &[Vec<u8>],
) -> Result<Vec<Way>, BootsError>
    requires { IsRight telling.now }
    ensures ok { IfOk result (λ ways. AddsStarted (asked_in telling.now) (bytes_of_words kept.now) (started_shown started.now)
        found.old.boots found.new.boots (map way_shown ways.items)) }
    ensures by { IfOk result (λ ways. StaysFound place [] (map way_shown ways.items)
        found.old.boots found.new.boots found.old.by.items found.new.by.items) }
    ensures few { OnOk result (length found.old.boots ≤ telling.now.ask.now.boots → length found.new.boots ≤ telling.now.ask.now.boots) }
    ensures err { IfErr result (λ e. IsUntoldStarted (asked_in telling.now) (bytes_of_words kept.now)
        telling.now.ask.now.states telling.now.ask.now.work telling.now.ask.now.memory telling.now.ask.now.boots
        (started_shown started.now) found.old.boots found.new.boots e) }
{
    let saved = saved_at(telling, started, kept)?;
    let source = Source {
        name: telling.ask.name,
        text: started.text.as_deref(),
    };
    let Some(rehearsal) = Rehearsal::of(
        telling.alloc,
        &started.env,
        &started.devices,
        source,
        telling.bounds,
    ) else {
        return Err(BootsError::NoSuchVariable);
    };
    match endings_of::<S>(
        &rehearsal,
        telling.apart,
        telling.ask.states,
        telling.ask.work,
        telling.ask.memory,
    ) {
        Ok(endings) => {
            let ending = Ending {
                place,
                saved: &saved,
                devices: &started.devices,
                nodes: &endings.nodes,
            };
            ways_of(telling, found, &ending, &endings.rows)
        }
        Err(error) => Err(untold(error)),
    }
}

/// Adds the ways from the boot at a place, which finds this saved, and the boots that follow it. Errors: those of
/// `start_boot`, then those of `add_endings`.
fn add_boot<S: Store, B: Board>(
    telling: &Telling<'_>,
    board: &B,
    found: &mut Found,
    graph: &mut Vec<Vec<Way>>,
    place: usize,
    kept: &[Vec<u8>],
) -> Result<(), BootsError>
    requires { IsRight telling.now }
    ensures ok { OnOk result (AddsBoot (B.start_of board.now) (asked_in telling.now) (bytes_of_words kept.now)
        found.old.boots found.new.boots (graph_shown graph.old.items) (graph_shown graph.new.items)) }
    ensures by { OnOk result (AreStillFound place (graph_shown graph.old.items) (graph_shown graph.new.items)
        found.old.boots found.new.boots found.old.by.items found.new.by.items) }
    ensures few { OnOk result (length found.old.boots ≤ telling.now.ask.now.boots → length found.new.boots ≤ telling.now.ask.now.boots) }
    ensures err { IfErr result (λ e. IsUntoldBoot (B.start_of board.now) (asked_in telling.now) (bytes_of_words kept.now)
        telling.now.ask.now.states telling.now.ask.now.work telling.now.ask.now.memory telling.now.ask.now.boots
        found.old.boots found.new.boots e) }
{
    let started = match start_boot(telling, board, kept) {
        Ok(started) => started,
        Err(error) => return Err(error),
    };
    let ways = match add_endings::<S>(telling, &started, found, place, kept) {
        Ok(ways) => ways,
        Err(error) => return Err(error),
    };
    graph.push(ways)?;
    Ok(())
}

/// Adds the ways from each boot, from the first one on, and the boots that follow. Errors: those of `add_boot`.
fn add_boots<S: Store, B: Board>(
    telling: &Telling<'_>,
    board: &B,
    found: &mut Found,
    graph: &mut Vec<Vec<Way>>,
) -> Result<(), BootsError>
    requires right { IsRight telling.now }
    requires none { AreTold (B.start_of board.now) (asked_in telling.now) 0 found.old.boots (graph_shown graph.old.items) }
    requires by { AreFoundBy (graph_shown graph.old.items) found.old.boots found.old.by.items }
    requires few { length found.old.boots ≤ telling.now.ask.now.boots }
    ensures told { OnOk result (AreTold (B.start_of board.now) (asked_in telling.now) (length found.new.boots) found.new.boots
        (graph_shown graph.new.items)) }
    ensures by { OnOk result (AreFoundBy (graph_shown graph.new.items) found.new.boots found.new.by.items) }
    ensures few { OnOk result (length found.new.boots ≤ telling.now.ask.now.boots) }
    ensures err { IfErr result (λ e. IsUntold (B.start_of board.now) (asked_in telling.now) telling.now.ask.now.states
        telling.now.ask.now.work telling.now.ask.now.memory telling.now.ask.now.boots e) }
{
    for place in 0..telling.ask.boots as usize {
        match found.boots.copy_at(telling.alloc, place)? {
            Some(kept) => add_boot::<S, B>(telling, board, found, graph, place, &kept)?,
            None => return Ok(()),
        }
    }
    Ok(())
}

/// All boots, and the ways from each of them. Errors: those of `add_boots`.
pub(crate) fn explore<S: Store, B: Board>(
    telling: &Telling<'_>,
    board: &B,
) -> Result<Explored, BootsError>
    requires { IsRight telling.now }
    ensures ok { IfOk result (λ e. IsExplored (B.start_of board.now) (asked_in telling.now) telling.now.ask.now.boots
        e.found.boots e.found.by.items (graph_shown e.graph.items)) }
    ensures err { IfErr result (λ e. IsUntold (B.start_of board.now) (asked_in telling.now) telling.now.ask.now.states
        telling.now.ask.now.work telling.now.ask.now.memory telling.now.ask.now.boots e) }
{
    let mut boots = Boots::new(telling.alloc, telling.env.hasher());
    let first = copied(telling.alloc, telling.first)?;
    boots.number(first, telling.ask.boots as usize)?;
    let mut found = Found {
        boots,
        by: Vec::new(telling.alloc),
    };
    let mut graph = Vec::new(telling.alloc);
    add_boots::<S, B>(telling, board, &mut found, &mut graph)?;
    Ok(Explored { found, graph })
}
