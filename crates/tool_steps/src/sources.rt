//! What a rehearsal is read from.
ghost use Rattle.std.specs.Prelude.{◌≡◌, IfErr};
ghost use Rattle.tool_files.specs.Told.{IfTold};
ghost use Rattle.tool_steps.specs.Faults.{CountsTold, IsScriptReadFault};
ghost use Rattle.tool_steps.specs.Sources.{ReadsSources};
ghost use Rattle.tool_words.specs.CommandAnswers.{inputs_shown};

use crate::images::Images;
use crate::origin::read_origin;
use crate::read::read_list;
use crate::script::read_named_script;
use std::alloc::Global;
use tool_files::Files;
use tool_images::Fault;
use tool_words::Inputs;

/// The images, the text of a device list, and the script that runs in place of a variable.
#[derive(Debug, Drop)]
pub struct Sources {
    /// The images.
    pub images: Images,
    /// The text of the device list.
    pub device_list: Vec<u8>,
    /// The script, if one is named.
    pub script: Option<Vec<u8>>,
}

/// Reads the images, then the device list, and then the script, if one is named.
pub fn read_sources<F: Files>(
    alloc: Global,
    files: &mut F,
    inputs: Inputs,
) -> Result<Sources, Fault>
    ensures count { CountsTold (F.faults files.old) (F.faults files.new) result }
    ensures lock { F.locked files.new ≡ F.locked files.old }
    ensures fault { IfErr result IsScriptReadFault }
    ensures told { IfTold (F.told files.old) (F.told files.new)
        (λ old new. ReadsSources (inputs_shown inputs) old new result) }
{
    let Inputs {
        origin,
        device_list,
        script,
        ..
    } = inputs;
    let images = read_origin(alloc, files, origin)?;
    let device_list = read_list(alloc, files, device_list)?;
    let script = read_named_script(alloc, files, script)?;
    Ok(Sources {
        images,
        device_list,
        script,
    })
}
