//! The rehearsal, from the bytes of an image to the bytes of the listing.
ghost use Rattle.std.specs.Prelude.{◌≡◌, map, IfOk, IfErr};
ghost use Rattle.std.specs.Option.{option_copied};
ghost use Rattle.rehearse_terms.specs.Asking.{page_of};
ghost use Rattle.rehearse_terms.specs.Asking.{HasRoom};
ghost use Rattle.rehearse_terms.specs.WantedShown.{wanted_slices};
ghost use Rattle.rehearse_runs.specs.RehearsedEnvironment as below;
ghost use Rattle.rehearse_runs.specs.AskShown.{asking_by, asking_of, text_given};
ghost use Rattle.text.specs.TextsShown.{option_items};
ghost use Rattle.ubtool.specs.ListsShown.{list_shown};
ghost use Rattle.ubtool.specs.Beginning.{StartsWith};
ghost use Rattle.ubtool.specs.Given.{Given, given};
ghost use Rattle.ubtool.specs.Headline.{Rehearses};
ghost use Rattle.ubtool.specs.Refusing.{Refuses};

use crate::beginning::{Beginning, DeviceText, begin, slices_of};
use crate::rehearsal_error::RehearsalError;
use bootstore_trail::Trail;
use envimage::ByteOrder;
use output::Out;
use rehearse_rules::RehearseError;
use rehearse_runs::{Ask, Finish, rehearse_env};
use rehearse_terms::{Shell, Wanted};
use std::alloc::Global;

/// Rehearses a variable of an image, or of the current copy of a pair, or a given text in its
/// environment, and writes the listing of the runs: a page of all of them in order, or of the runs
/// after a word; or the record of the run of one word, and `done`. Returns `More` if runs are left
/// out at the end, else `Done`. In a shell of U-Boot, the variables are those that U-Boot reads from
/// the image.
///
/// Refusals in order: the image; `Start` with `TooMany`; the first fault of the device list; `Start` for
/// another reason; `NoSuchVariable`, `NotARun`, with nothing written; then `Write` during the listing, and
/// `Memory` wherever a growth is made. After these two, a prefix of the listing has been written; after
/// `Memory` it is whole records.
pub fn rehearse_bytes<O: Out>(
    alloc: Global,
    first: &[u8],
    second: Option<&[u8]>,
    order: ByteOrder,
    list: DeviceText<'_>,
    ask: &Ask<'_>,
    out: &mut O,
) -> Result<Finish, RehearsalError>
    requires { HasRoom (page_of (wanted_slices ask.now.wanted)) }
    ensures ok { IfOk result (λ finish. Rehearses
        (given order first.now (option_copied second.entry) (list_shown list.entry) list.entry.taking (text_given ask.now)
        (asking_of ask.now)) (O.sink out.old) (O.sink out.new) finish) }
    ensures err { IfErr result
        (λ e. Refuses (given order first.now (option_copied second.entry) (list_shown list.entry) list.entry.taking
        (text_given ask.now) (asking_of ask.now)) (O.sink out.old) (O.sink out.new) e) }
{
    let shell = match ask.wanted {
        Wanted::Listing { bounds, .. } => bounds.shell(),
        Wanted::Word { bounds, .. } => bounds.shell(),
    };
    rehearse_in(alloc, first, second, order, shell, list, ask, out)
}

/// The runs that are wanted.
fn wanted_of<'x>(ask: &Ask<'x>) -> Wanted<&'x [u8]>
    ensures { result ≡ ask.now.wanted }
{
    match ask.wanted {
        Wanted::Listing {
            bounds,
            after,
            page,
        } => Wanted::Listing {
            bounds,
            after,
            page,
        },
        Wanted::Word { bounds, word } => Wanted::Word { bounds, word },
    }
}

/// Writes the listing of what a rehearsal starts with, whose records show these names. Errors: `NoSuchVariable`,
/// `NotARun`; `Write`, `Memory`.
fn rehearse_begun<'x, O: Out>(
    alloc: Global,
    beginning: &'x Beginning,
    ask: &Ask<'x>,
    names: &'x [&'x [u8]],
    out: &mut O,
) -> Result<Finish, RehearseError>
    requires { HasRoom (page_of (wanted_slices ask.now.wanted)) }
    ensures ok { let asking = asking_by ask.now.name.now ask.now.wanted (map (λ n. n.now) names.now) in
        IfOk result (λ finish. below.Rehearses (below.task_asked beginning.now.env beginning.now.devices
        (option_items beginning.now.text) asking) asking (O.sink out.old) (O.sink out.new) finish) }
    ensures err { let asking = asking_by ask.now.name.now ask.now.wanted (map (λ n. n.now) names.now) in
        IfErr result (λ e. below.Refuses (below.task_asked beginning.now.env beginning.now.devices
        (option_items beginning.now.text) asking) asking (O.sink out.old) (O.sink out.new) e) }
{
    let ask = Ask {
        name: ask.name,
        text: beginning.text.as_deref(),
        wanted: wanted_of(ask),
        names,
    };
    rehearse_env::<Trail, O>(alloc, &beginning.env, &beginning.devices, &ask, out)
}

/// The same, of all that begins so, and with the names that it starts with. Errors: `Rehearsal` with `NoSuchVariable`
/// and `NotARun`; `Write`, `Memory`.
fn rehearse_told<O: Out>(
    alloc: Global,
    beginning: &Beginning,
    ask: &Ask<'_>,
    out: &mut O,
) -> Result<Finish, RehearsalError>
    requires { HasRoom (page_of (wanted_slices ask.now.wanted)) }
    ensures ok { (g : Given) → StartsWith g beginning.now (asking_of ask.now)
        → IfOk result (λ finish. Rehearses g (O.sink out.old) (O.sink out.new) finish) }
    ensures err { (g : Given) → StartsWith g beginning.now (asking_of ask.now)
        → IfErr result (λ e. Refuses g (O.sink out.old) (O.sink out.new) e) }
{
    let Ok(names) = slices_of(alloc, &beginning.names) else {
        return Err(RehearsalError::Memory);
    };
    match rehearse_begun(alloc, beginning, ask, &names, out) {
        Ok(finish) => Ok(finish),
        Err(error) => Err(error.into()),
    }
}

/// Rehearses as `rehearse_bytes` does, in this shell, which is that of the bounds.
fn rehearse_in<O: Out>(
    alloc: Global,
    first: &[u8],
    second: Option<&[u8]>,
    order: ByteOrder,
    shell: Shell,
    list: DeviceText<'_>,
    ask: &Ask<'_>,
    out: &mut O,
) -> Result<Finish, RehearsalError>
    requires room { HasRoom (page_of (wanted_slices ask.now.wanted)) }
    requires shell { shell ≡ (asking_of ask.now).bounds.shell }
    ensures ok { IfOk result (λ finish. Rehearses
        (given order first.now (option_copied second.entry) (list_shown list.entry) list.entry.taking (text_given ask.now)
        (asking_of ask.now)) (O.sink out.old) (O.sink out.new) finish) }
    ensures err { IfErr result
        (λ e. Refuses (given order first.now (option_copied second.entry) (list_shown list.entry) list.entry.taking
        (text_given ask.now) (asking_of ask.now)) (O.sink out.old) (O.sink out.new) e) }
{
    match begin(
        alloc, first, second, order, shell, list, ask.name, ask.text, ask.names,
    ) {
        Ok(beginning) => {
            let told = rehearse_told(alloc, &beginning, ask, out);
            drop(beginning);
            told
        }
        Err(error) => Err(error),
    }
}
