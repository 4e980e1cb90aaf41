//! What a rehearsal starts with.
ghost use Rattle.std.specs.Prelude.{◌≡◌, ◌++◌, map, IfOk, OnOk, Ok};
ghost use Rattle.std.specs.Option.{option_copied};
ghost use Rattle.board_start.specs.Boards.{board_of};
ghost use Rattle.board_start.specs.BoardShown.{begun_shown, board_shown};
ghost use Rattle.board_start.specs.Start.{begun};
ghost use Rattle.board_start.specs.StartAnswers.{IsBoard};
ghost use Rattle.device_list.specs.DeviceList.{filled, steady_if};
ghost use Rattle.device_list.specs.Saving.{names_with_saved, saved_name, saving};
ghost use Rattle.envtools.specs.Environment.{value_of};
ghost use Rattle.text.specs.TextsShown.{bytes_of_words, option_bytes};
ghost use Rattle.tool_images.specs.PrintingImages.{environment_in};
ghost use Rattle.ubtool.specs.Beginning.{Begins, BeginsTaken, beginning_shown, begun_with, with_board, with_image};
ghost use Rattle.ubtool.specs.ListsShown.{list_shown};

use crate::board_environment::env_of_board;
use crate::rehearsal_error::RehearsalError;
use board_files::copied_texts;
use board_start::{Begun, Board, BoardError};
use device_list::{Devices, FileTexts, saved_name};
use envimage::ByteOrder;
use envtools::Env;
use rehearse_terms::Shell;
use std::alloc::{AllocError, Global};
use tool_words::Taking;

/// A device list, and how it is taken.
#[derive(Clone, Copy)]
pub struct DeviceText<'a> {
    /// The text.
    pub text: &'a [u8],
    /// The texts of the files that it names.
    pub files: &'a FileTexts,
    /// How it is taken.
    pub taking: Taking,
}

/// What a rehearsal starts with.
#[derive(Drop)]
pub(crate) struct Beginning {
    /// The environment that the board has.
    pub(crate) env: Env,
    /// Its device commands.
    pub(crate) devices: Devices,
    /// The names of what is asked for of each run: with copies, if the list saves.
    pub(crate) names: Vec<Vec<u8>>,
    /// The text that is rehearsed in place of the variable's, if there is one.
    pub(crate) text: Option<Vec<u8>>,
}

/// The bytes of each of these names. Errors: memory ran out.
pub(crate) fn slices_of(alloc: Global, names: &[Vec<u8>]) -> Result<Vec<&[u8]>, AllocError>
    ensures { IfOk result (λ slices. map (λ s. s.now) slices.items ≡ bytes_of_words names.now) }
{
    let mut slices = Vec::new(alloc);
    for name in names {
        slices.push(name.as_slice())?;
    }
    Ok(slices)
}

/// Copies of these names. Errors: memory ran out.
pub(crate) fn owned_names(alloc: Global, names: &[&[u8]]) -> Result<Vec<Vec<u8>>, AllocError>
    ensures { IfOk result (λ owned. bytes_of_words owned.items ≡ map (λ n. n.now) names.now) }
{
    let mut owned = Vec::new(alloc);
    for name in names {
        owned.push(Vec::from_slice(alloc, name)?)?;
    }
    Ok(owned)
}

/// Adds the name of the saved copy of each of these variables. Errors: memory ran out.
fn add_saved(alloc: Global, names: &mut Vec<Vec<u8>>, variables: &[&[u8]]) -> Result<(), AllocError>
    ensures { OnOk result (bytes_of_words names.new.items
        ≡ bytes_of_words names.old.items ++ map saved_name (map (λ n. n.now) variables.now)) }
{
    for variable in variables {
        let copy = saved_name(alloc, variable)?;
        names.push(copy)?;
    }
    Ok(())
}

/// The names of what is asked for of each run: these, and if the list saves, those of their copies. Errors: memory
/// ran out.
fn names_asked(
    alloc: Global,
    devices: &Devices,
    variables: &[&[u8]],
) -> Result<Vec<Vec<u8>>, AllocError>
    ensures { IfOk result (λ names. bytes_of_words names.items
        ≡ names_with_saved devices.now (map (λ n. n.now) variables.now)) }
{
    let mut names = owned_names(alloc, variables)?;
    if devices.saves() {
        add_saved(alloc, &mut names, variables)?;
    }
    Ok(names)
}

/// The device list, all of it steady if that is asked.
fn taken(devices: Devices, steady: bool) -> Devices
    ensures { result ≡ steady_if steady devices }
{
    if steady { devices.steady() } else { devices }
}

/// The device list in this environment, whose variables a pattern of the list may name. A call that saves sets a copy
/// of each of these variables. Errors: memory ran out.
pub(crate) fn devices_in(
    devices: Devices,
    env: &Env,
    names: &[&[u8]],
) -> Result<Devices, AllocError>
    ensures { IfOk result (λ known. known ≡ saving (map (λ n. n.now) names.now) (filled (value_of env.now) devices)) }
{
    let devices = devices.filled(env)?;
    devices.saving(names)
}

/// What a rehearsal that asks for these names starts with. Errors: memory ran out.
fn begin_with(
    alloc: Global,
    devices: Devices,
    begun: Begun,
    names: &[&[u8]],
) -> Result<Beginning, AllocError>
    ensures { IfOk result (λ beginning.
        begun_with devices (map (λ n. n.now) names.now) (Ok (begun_shown begun)) ≡ Ok (beginning_shown beginning)) }
{
    let Begun { env, text, .. } = begun;
    let asked = names_asked(alloc, &devices, names)?;
    let devices = devices_in(devices, &env, names)?;
    Ok(Beginning {
        env,
        devices,
        names: asked,
        text,
    })
}

/// How this board begins in this environment, and its device list as it is taken. Errors: those of `Start::begin`.
pub(crate) fn begun_on(
    board: Board,
    env: Env,
    taking: Taking,
    name: &[u8],
    text: Option<&[u8]>,
) -> Result<(Begun, Devices), BoardError>
    ensures { BeginsTaken (begun board.start taking.alternative env name.now (option_bytes text.entry))
        (steady_if taking.steady board.devices) result }
{
    let Board { start, devices } = board;
    let begun = start.begin(taking.alternative, env, name, text);
    drop(start);
    match begun {
        Ok(begun) => Ok((begun, taken(devices, taking.steady))),
        Err(error) => {
            drop(devices);
            Err(error)
        }
    }
}

/// What a rehearsal that asks for these names starts with on this board, in this environment. Errors: `Start` for
/// another reason than `TooMany`, `Memory`.
fn begin_on(
    alloc: Global,
    board: Board,
    env: Env,
    taking: Taking,
    name: &[u8],
    text: Option<&[u8]>,
    names: &[&[u8]],
) -> Result<Beginning, RehearsalError>
    ensures { Begins (Ok env) (with_board (Ok (board_shown board)) taking env name.now (option_bytes text.entry)
        (map (λ n. n.now) names.now)) result }
{
    match begun_on(board, env, taking, name, text) {
        Ok((begun, devices)) => {
            match begin_with(alloc, devices, begun, names) {
                Ok(beginning) => Ok(beginning),
                Err(_) => Err(RehearsalError::Memory),
            }
        }
        Err(error) => Err(error.into()),
    }
}

/// The board of a device list, whose lines may name its files. Errors: those of `Board::parse`.
pub(crate) fn board_of(alloc: Global, list: &DeviceText<'_>) -> Result<Board, BoardError>
    ensures { IsBoard (board_of (list_shown list.now)) result }
{
    let Ok(files) = copied_texts(list.files) else {
        return Err(BoardError::Memory);
    };
    Board::parse(alloc, list.text, files)
}

/// What a rehearsal that asks for these names starts with on the board of this list, in this environment. Errors in
/// order: `Start` with `TooMany`; `Rehearsal` with the first fault of the device list; `Start` for another reason;
/// `Memory` wherever a growth is made.
fn begin_in(
    alloc: Global,
    env: Env,
    list: DeviceText<'_>,
    name: &[u8],
    text: Option<&[u8]>,
    names: &[&[u8]],
) -> Result<Beginning, RehearsalError>
    ensures { Begins (Ok env)
        (with_board (board_of (list_shown list.entry)) list.entry.taking env name.now (option_bytes text.entry)
        (map (λ n. n.now) names.now)) result }
{
    match board_of(alloc, &list) {
        Ok(board) => begin_on(alloc, board, env, list.taking, name, text, names),
        Err(error) => Err(error.into()),
    }
}

/// What a rehearsal of a variable of an image, or of a text in its environment, starts with if it asks for these
/// names, on a board of this shell. Errors in order: the image; `Start` with `TooMany`; `Rehearsal` with the first fault
/// of the device list; `Start` for another reason; `Memory` wherever a growth is made.
pub(crate) fn begin(
    alloc: Global,
    first: &[u8],
    second: Option<&[u8]>,
    order: ByteOrder,
    shell: Shell,
    list: DeviceText<'_>,
    name: &[u8],
    text: Option<&[u8]>,
    names: &[&[u8]],
) -> Result<Beginning, RehearsalError>
    ensures { Begins (environment_in order first.now (option_copied second.entry))
        (with_image (environment_in order first.now (option_copied second.entry)) shell
        (board_of (list_shown list.entry)) list.entry.taking name.now (option_bytes text.entry)
        (map (λ n. n.now) names.now)) result }
{
    match env_of_board(alloc, first, second, order, shell) {
        Ok(env) => begin_in(alloc, env, list, name, text, names),
        Err(error) => Err(error.into()),
    }
}
