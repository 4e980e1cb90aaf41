//! The variables of an image on an input, printed.
ghost use Rattle.std.specs.Prelude.{◌≡◌, ◌⊎◌, [], codes};
ghost use Rattle.output.specs.Outputs.{outputs};
ghost use Rattle.output.specs.Sink.{Wrote};
ghost use Rattle.tool_images.specs.Input.{PrintsInput, PrintsRead, RefusesInput, TellsOnly};

use crate::fault::Fault;
use crate::fault_line::write_fault_of;
use crate::print::{PrintAsk, print_bytes};
use envimage::{ByteOrder, SIZE_MAX};
use envtools::PrintForm;
use output::Out;
use std::alloc::Global;
use std::io::Read;
use tool_files::{ReadFault, read_up_to};

/// Prints the variables of the single image that was read, its checksum little-endian. An input that
/// could not be read is a fault of its own.
fn print_read<O: Out, E: Out>(
    alloc: Global,
    read: Result<Vec<u8>, ReadFault>,
    out: &mut O,
    err: &mut E,
) -> Result<(), Fault>
    ensures { PrintsRead read
        (outputs (O.sink out.old) (O.sink out.new) (E.sink err.old) (E.sink err.new)) result }
{
    let image = match read {
        Ok(image) => image,
        Err(ReadFault::Failed) => return Err(Fault::CannotReadInput),
        Err(ReadFault::Memory) => return Err(Fault::Memory),
    };
    let form = PrintForm {
        header: true,
        escaped: false,
        null: false,
    };
    let ask = PrintAsk { names: &[], form };
    print_bytes(alloc, &image, None, ByteOrder::Little, &ask, out, err)?;
    Ok(())
}

/// Reads `input` up to its end, or one byte more than an image may have, and prints the variables
/// of the single image that it is. Returns the program's status: 0, or 1 if one line on `err`
/// reports the fault; the output is then as it was, or broke off inside the variables. Repeats no
/// failed read.
pub fn run_input<R: Read, O: Out, E: Out>(
    alloc: Global,
    input: &mut R,
    out: &mut O,
    err: &mut E,
) -> u8
    ensures status { (result ≡ 0) ⊎ (result ≡ 1) }
    ensures printed { result ≡ 0 → PrintsInput (R.remaining input.old) (O.sink out.old)
        (O.sink out.new) }
    ensures quiet { result ≡ 0 → Wrote (E.sink err.old) (E.sink err.new) [] }
    ensures refused { result ≡ 1 → RefusesInput (R.remaining input.old) (O.sink out.old)
        (O.sink out.new) }
    ensures told { result ≡ 1 → TellsOnly (codes "ubtool") (E.sink err.old) (E.sink err.new) }
{
    let read = read_up_to(alloc, input, SIZE_MAX + 1);
    match print_read(alloc, read, out, err) {
        Ok(()) => 0,
        Err(fault) => {
            write_fault_of(err, "ubtool", &fault);
            1
        }
    }
}
