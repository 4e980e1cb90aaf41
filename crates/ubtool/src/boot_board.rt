//! A board of a device list, whose boots are rehearsed.
ghost use Rattle.std.specs.Prelude.{◌≡◌, map, IfOk, Ok};
ghost use Rattle.board_start.specs.BoardShown.{begun_shown, board_shown};
ghost use Rattle.rehearse_boots.specs.BootsShown.{Starts, started_shown};
ghost use Rattle.text.specs.TextsShown.{option_bytes};
ghost use Rattle.ubtool.specs.BootStarts.{started_on, started_with};

use crate::beginning::{DeviceText, begun_on, board_of, devices_in};
use board_start::{Begun, BoardError};
use device_list::Devices;
use envtools::Env;
use rehearse_boots::{Board, Started};
use std::alloc::{AllocError, Global};
use tool_words::Taking;

/// A board, as its device list says it: the list is read anew for each boot.
#[derive(Clone, Copy)]
pub(crate) struct ListedBoard<'a> {
    pub(crate) alloc: Global,
    /// The device list.
    pub(crate) list: DeviceText<'a>,
    /// The variable whose text each boot runs, or what a given text is called.
    pub(crate) name: &'a [u8],
    /// The text that runs in place of the variable's, if one is given.
    pub(crate) text: Option<&'a [u8]>,
    /// The variables that are kept from one boot to the next.
    pub(crate) kept: &'a [&'a [u8]],
}

/// What a boot starts with that keeps these variables. Errors: memory ran out.
fn start_with(devices: Devices, begun: Begun, kept: &[&[u8]]) -> Result<Started, AllocError>
    ensures { IfOk result (λ started.
        started_with devices (map (λ n. n.now) kept.now) (Ok (begun_shown begun)) ≡ Ok (started_shown started)) }
{
    let Begun { env, text, saves } = begun;
    let devices = devices_in(devices, &env, kept)?;
    Ok(Started {
        env,
        devices,
        text,
        saves,
    })
}

/// What a boot of this board starts with that keeps these variables and finds this environment saved. Errors: those of
/// `Start::begin`.
fn start_on(
    board: board_start::Board,
    env: Env,
    taking: Taking,
    name: &[u8],
    text: Option<&[u8]>,
    kept: &[&[u8]],
) -> Result<Started, BoardError>
    ensures { Starts (started_on (Ok (board_shown board)) taking name.now (option_bytes text.entry)
        (map (λ n. n.now) kept.now) env) result }
{
    match begun_on(board, env, taking, name, text) {
        Ok((begun, devices)) => {
            match start_with(devices, begun, kept) {
                Ok(started) => Ok(started),
                Err(_) => Err(BoardError::Memory),
            }
        }
        Err(error) => Err(error),
    }
}

impl Board for ListedBoard<'_> {
    ghost use Rattle.std.specs.Prelude.{map};
    ghost use Rattle.text.specs.TextsShown.{option_bytes};
    ghost use Rattle.ubtool.specs.BootStarts.{boot_start};
    ghost use Rattle.ubtool.specs.ListsShown.{list_shown};

    ghost start_of = { λ b. boot_start (list_shown b.list) b.list.taking b.name.now (option_bytes b.text)
        (map (λ n. n.now) b.kept.now) };

    fn start(&self, env: Env) -> Result<Started, BoardError> {
        match board_of(self.alloc, &self.list) {
            Ok(board) => {
                start_on(
                    board,
                    env,
                    self.list.taking,
                    self.name,
                    self.text,
                    self.kept,
                )
            }
            Err(error) => Err(error),
        }
    }
}
