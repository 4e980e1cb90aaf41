//! `printenv`, from files to outputs.
ghost use Rattle.std.specs.Prelude.{◌≡◌, IfErr, IfOk, false, length, map, string_bytes};
ghost use Rattle.output.specs.Outputs.{outputs};
ghost use Rattle.tool_files.specs.Told.{IfTold};
ghost use Rattle.tool_images.specs.declared.fault.Fault.TheVariants.{Memory};
ghost use Rattle.tool_steps.specs.Faults.{CountsReads};
ghost use Rattle.tool_steps.specs.Images.{copies};
ghost use Rattle.tool_steps.specs.PrintingFiles.{LeavesOutputs, PrintsCopies, PrintsFrom};

use crate::images::Images;
use crate::one_copy::{ImageSource, read_source};
use envimage::ByteOrder;
use envtools::PrintForm;
use output::Out;
use std::alloc::Global;
use tool_files::Files;
use tool_images::{Fault, print_bytes};
use tool_words::PrintAsk;

/// The bytes of each text.
pub fn slices_of(alloc: Global, texts: &[String]) -> Result<Vec<&[u8]>, Fault>
    ensures fault { IfErr result (λ fault. fault ≡ Memory) }
    ensures slices { IfOk result
        (λ slices. map (λ s. s.now) slices.items ≡ map string_bytes texts.now) }
{
    let mut slices = Vec::new(alloc);
    for text in texts {
        if slices.push(text.as_bytes()).is_err() {
            return Err(Fault::Memory);
        }
    }
    Ok(slices)
}

/// Prints variables of images.
fn print_images<O: Out, E: Out>(
    alloc: Global,
    images: &Images,
    order: ByteOrder,
    names: &[&[u8]],
    form: PrintForm,
    out: &mut O,
    err: &mut E,
) -> Result<bool, Fault>
    requires { form.header ≡ false → length names.now ≡ 1 }
    ensures { PrintsCopies order (copies images.now) (map (λ n. n.now) names.now) form
        (outputs (O.sink out.old) (O.sink out.new) (E.sink err.old) (E.sink err.new)) result }
{
    let second = images.second_bytes();
    let ask = tool_images::PrintAsk { names, form };
    Ok(print_bytes(alloc, &images.first.bytes, second, order, &ask, out, err)?)
}

/// Prints the variables of the images of a source: all of them, or the ones that are asked for, in
/// this order, in the form that is asked for. Returns false if a name is missing. Without the header
/// only the value of the one name is printed. If a copy is lost, and one is enough, that is reported
/// on `err` first.
pub fn print_files<F: Files, O: Out, E: Out>(
    alloc: Global,
    files: &mut F,
    program: &str,
    source: ImageSource,
    what: &PrintAsk,
    out: &mut O,
    err: &mut E,
) -> Result<bool, Fault>
    requires { what.now.form.header ≡ false → length what.now.names.items ≡ 1 }
    ensures count { CountsReads source.one_copy (F.faults files.old) (F.faults files.new) result }
    ensures lock { F.locked files.new ≡ F.locked files.old }
    ensures told { IfTold (F.told files.old) (F.told files.new) (λ old new.
        PrintsFrom program.now source (map string_bytes what.now.names.items)
        what.now.form
        (outputs (O.sink out.old) (O.sink out.new) (E.sink err.old) (E.sink err.new)) old new
        result) }
    ensures outputs { LeavesOutputs program.now source.one_copy result
        (outputs (O.sink out.old) (O.sink out.new) (E.sink err.old) (E.sink err.new)) }
{
    let order = source.order;
    let images = read_source(alloc, files, program, source, err)?;
    let names = slices_of(alloc, &what.names)?;
    print_images(alloc, &images, order, &names, what.form, out, err)
}
