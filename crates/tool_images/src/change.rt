//! Changes, from the bytes of an image to those of the copy that is written.
ghost use Rattle.std.specs.Prelude.{◌≡◌, true, None, Ok, map, IfOk};
ghost use Rattle.std.specs.Option.{option_copied};
ghost use Rattle.envimage.specs.Data.{data_fault, pairs_of};
ghost use Rattle.envimage.specs.Encoding.{is_image_size};
ghost use Rattle.envimage.specs.Image.{load_of, loaded_shown};
ghost use Rattle.envtools.specs.Environment.{env_of};
ghost use Rattle.envtools.specs.Saving.{size_of};
ghost use Rattle.envtools.specs.Scripting.{scripted};
ghost use Rattle.tool_images.specs.ChangingImages.{set_of, one_edited, all_edited, then_written, Answers, IsSafe};

use crate::error::ToolError;
use envimage::{ByteOrder, Loaded, Which, load};
use envtools::{VariableList, apply_script_to_list, new_value, save_list};
use std::alloc::Global;

/// A change of an environment.
#[derive(Clone, Copy, Debug)]
pub enum Edit<'a> {
    /// A variable and the words that it is given.
    One {
        /// The variable's name.
        name: &'a [u8],
        /// Its new value's words; none deletes it.
        words: &'a [&'a [u8]],
    },
    /// The text of a script, one change a line.
    Script(&'a [u8]),
}

/// Gives a variable of a loaded image its new words. The other variables are not copied before they
/// are written.
fn set_one(
    alloc: Global,
    loaded: &Loaded<'_>,
    name: &[u8],
    words: &[&[u8]],
) -> Result<(Which, Vec<u8>), ToolError>
    requires size { is_image_size loaded.now.flag (size_of (loaded_shown loaded.now)) ≡ true }
    requires faultless { data_fault loaded.now.body.now ≡ None }
    ensures { Answers (Ok (loaded_shown loaded.now))
        (then_written (loaded_shown loaded.now)
        (one_edited (env_of (pairs_of loaded.now.body.now)) name.now (map (λ w. w.now) words.now)))
        result }
{
    let value = new_value(alloc, name, words)?;
    let mut list = VariableList::from_checked(alloc, loaded.body)?;
    list.change_to(name, &value)?;
    Ok(save_list(alloc, &list, loaded)?)
}

/// Makes the changes of a script in a loaded image. No variable is copied before it is written.
fn set_all(alloc: Global, loaded: &Loaded<'_>, script: &[u8]) -> Result<(Which, Vec<u8>), ToolError>
    requires size { is_image_size loaded.now.flag (size_of (loaded_shown loaded.now)) ≡ true }
    requires faultless { data_fault loaded.now.body.now ≡ None }
    ensures { Answers (Ok (loaded_shown loaded.now))
        (then_written (loaded_shown loaded.now)
        (all_edited (scripted (env_of (pairs_of loaded.now.body.now)) script.now))) result }
{
    let mut list = VariableList::from_checked(alloc, loaded.body)?;
    apply_script_to_list(alloc, &mut list, script)?;
    Ok(save_list(alloc, &list, loaded)?)
}

/// Changes the environment of an image, or of a redundant pair. Returns which copy is to be
/// written, and its bytes; of a pair it is never the current copy. A change that makes no
/// difference is written too. If only a prefix of the bytes is written there, loading the pair
/// gives what it gave before, unless that prefix makes the copy right.
///
/// Refusals in order: the image, the change or the script, `TooLarge`; `Memory` wherever a growth
/// is made.
pub fn set_bytes(
    alloc: Global,
    first: &[u8],
    second: Option<&[u8]>,
    order: ByteOrder,
    edit: Edit<'_>,
) -> Result<(Which, Vec<u8>), ToolError>
    ensures answer { Answers (load_of order first.now (option_copied second.entry))
        (set_of order first.now (option_copied second.entry) edit.entry) result }
    ensures safe { IfOk result
        (λ w. IsSafe order first.now (option_copied second.entry) w.0 w.1.items) }
{
    let loaded = load(first, second, order)?;
    match edit {
        Edit::One { name, words } => set_one(alloc, &loaded, name, words),
        Edit::Script(text) => set_all(alloc, &loaded, text),
    }
}
