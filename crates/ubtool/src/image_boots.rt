//! How the boots of a board follow one another, from the bytes of its image to the lines.
ghost use Rattle.std.specs.Prelude.{◌≡◌, map, IfErr, IfOk, List, ℕ, Option};
ghost use Rattle.std.specs.Option.{option_copied};
ghost use Rattle.envimage.specs.declared.image.ByteOrder.{ByteOrder as Order};
ghost use Rattle.rehearse_boots.specs.BootsShown.{asked_of};
ghost use Rattle.rehearse_boots.specs.TellingBoots as below;
ghost use Rattle.text.specs.TextsShown.{option_bytes};
ghost use Rattle.ubtool.specs.BootStarts.{boot_start};
ghost use Rattle.ubtool.specs.BootsOfImages.{HasEnvironment, RefusesBoots, TellsBoots, boots_given, limits_of};
ghost use Rattle.ubtool.specs.ListsShown.{list_shown};

use crate::beginning::{DeviceText, slices_of};
use crate::board_environment::env_of_board;
use crate::boot_board::ListedBoard;
use crate::kept_names::kept_names;
use crate::rehearsal_error::RehearsalError;
use bootstore_trail::Trail;
use envimage::ByteOrder;
use envtools::Env;
use output::Out;
use rehearse_boots::{BootsAsk, BootsError, boots_env};
use std::alloc::Global;

/// Writes the lines of the boots of a board that has this environment of its image, and keeps what is asked for. Errors:
/// those of `boots_env`.
fn boots_by<O: Out>(
    alloc: Global,
    env: &Env,
    list: DeviceText<'_>,
    text: Option<&[u8]>,
    ask: &BootsAsk<'_>,
    out: &mut O,
) -> Result<bool, BootsError>
    ensures ok { IfOk result (λ holds. below.TellsBoots
        (boot_start (list_shown list.entry) list.entry.taking ask.now.name.now (option_bytes text.entry) (map (λ n. n.now) ask.now.kept.now))
        (asked_of env.now ask.now) ask.now.boots (O.sink out.old) (O.sink out.new) holds) }
    ensures err { IfErr result (λ e. below.RefusesBoots
        (boot_start (list_shown list.entry) list.entry.taking ask.now.name.now (option_bytes text.entry) (map (λ n. n.now) ask.now.kept.now))
        (asked_of env.now ask.now) ask.now.states ask.now.work ask.now.memory ask.now.boots (O.sink out.old) (O.sink out.new) e) }
{
    let board = ListedBoard {
        alloc,
        list,
        name: ask.name,
        text,
        kept: ask.kept,
    };
    boots_env::<Trail, ListedBoard<'_>, O>(alloc, env, &board, ask, out)
}

/// The same, of a board that keeps what the texts make it keep. Errors: those of `boots_bytes`, but for the image's.
fn boots_in<O: Out>(
    alloc: Global,
    env: &Env,
    list: DeviceText<'_>,
    text: Option<&[u8]>,
    ask: &BootsAsk<'_>,
    out: &mut O,
) -> Result<bool, RehearsalError>
    ensures ok { (order : Order) → (first : List ℕ) → (second : Option (List ℕ)) →
        let g = boots_given order first second (list_shown list.entry) list.entry.taking (option_bytes text.entry) ask.now in
        HasEnvironment g env.now → IfOk result (λ holds. TellsBoots g (limits_of ask.now) (O.sink out.old) (O.sink out.new) holds) }
    ensures err { (order : Order) → (first : List ℕ) → (second : Option (List ℕ)) →
        let g = boots_given order first second (list_shown list.entry) list.entry.taking (option_bytes text.entry) ask.now in
        HasEnvironment g env.now → IfErr result (λ e. RefusesBoots g (limits_of ask.now) (O.sink out.old) (O.sink out.new) e) }
{
    let board = ListedBoard {
        alloc,
        list,
        name: ask.name,
        text,
        kept: &[],
    };
    let names = match kept_names(&board, env, ask.bounds.shell(), ask.names, ask.changes) {
        Ok(names) => names,
        Err(error) => return Err(error),
    };
    let Ok(kept) = slices_of(alloc, &names) else {
        return Err(RehearsalError::Memory);
    };
    let ask = BootsAsk {
        kept: &kept,
        ..*ask
    };
    match boots_by(alloc, env, list, text, &ask, out) {
        Ok(holds) => Ok(holds),
        Err(error) => Err(error.into()),
    }
}

/// Writes how the boots of a board follow one another, or whether each leads to an ending that is expected. The first
/// starts with the environment of an image, or of the current copy of a pair, and each other with what was saved last: by
/// a run before it, or by its start, which raises the counter of the list. After an ending that boots, the system may
/// also have made the changes that are given. Each boot runs a variable, or a given text in its environment. In a shell of
/// U-Boot, the variables are those that U-Boot reads from the image. Which variables are kept from one boot to the next is found
/// here, whatever `kept` of what is asked for says. What is written and answered is that of `boots_env`.
///
/// Refusals in order: the image; `Unnamed`, if the first boot starts, no name is asked for, and the texts may change
/// variables whose names they do not write out; `Changes`; then, of the first boot that is refused, `Start` with
/// `TooMany`; the first fault of the device list; `Start` for another reason, also with `Alternatives`, since they are not
/// gone through in turn; `NoSuchVariable`; `States`, `Steps`, `Bytes`, and `Boots`, with nothing written; then `Write` if the
/// output fails, with a prefix of the lines written. `Memory` comes wherever a growth is made.
pub fn boots_bytes<O: Out>(
    alloc: Global,
    first: &[u8],
    second: Option<&[u8]>,
    order: ByteOrder,
    list: DeviceText<'_>,
    text: Option<&[u8]>,
    ask: &BootsAsk<'_>,
    out: &mut O,
) -> Result<bool, RehearsalError>
    ensures ok { IfOk result (λ holds. TellsBoots (boots_given order first.now (option_copied second.entry)
        (list_shown list.entry) list.entry.taking (option_bytes text.entry) ask.now)
        (limits_of ask.now) (O.sink out.old) (O.sink out.new) holds) }
    ensures err { IfErr result (λ e. RefusesBoots (boots_given order first.now (option_copied second.entry)
        (list_shown list.entry) list.entry.taking (option_bytes text.entry) ask.now)
        (limits_of ask.now) (O.sink out.old) (O.sink out.new) e) }
{
    let shell = ask.bounds.shell();
    match env_of_board(alloc, first, second, order, shell) {
        Ok(env) => {
            let told = boots_in(alloc, &env, list, text, ask, out);
            drop(env);
            told
        }
        Err(error) => Err(error.into()),
    }
}
