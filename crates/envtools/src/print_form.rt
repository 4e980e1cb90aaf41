//! How a variable is printed: the form, and one entry in it.
ghost use Rattle.std.specs.Prelude.{◌≡◌};
ghost use Rattle.text.specs.Escapes.{text_form, word_form};
ghost use Rattle.output.specs.Sink.{Prints};
ghost use Rattle.envtools.specs.Printing.{end_of, header_of, line, shown_name, shown_value};

use output::{Out, OutFault, write_all};
use text::Escaped;

/// How a variable is printed.
#[derive(Clone, Copy, Debug, PartialEq, Eq)]
pub struct PrintForm {
    /// Whether `NAME=` is printed before a value.
    pub header: bool,
    /// Whether the name is printed in word form and the value in text form, so that an entry is one
    /// line.
    pub escaped: bool,
    /// Whether an entry is ended by a NUL byte and not by a newline.
    pub null: bool,
}

impl PrintForm {
    /// What ends an entry: a NUL byte or a newline.
    fn end(self) -> &'static [u8]
        ensures { result.now ≡ end_of self }
    {
        if self.null { b"\0" } else { b"\n" }
    }
}

/// Writes bytes in text form.
fn write_text<O: Out>(out: &mut O, bytes: &[u8]) -> Result<(), OutFault>
    ensures { Prints result (O.sink out.old) (O.sink out.new) (text_form bytes.now) }
{
    for byte in bytes {
        write_all(out, Escaped::in_text(*byte).as_slice())?;
    }
    Ok(())
}

/// Writes bytes in word form.
fn write_word<O: Out>(out: &mut O, bytes: &[u8]) -> Result<(), OutFault>
    ensures { Prints result (O.sink out.old) (O.sink out.new) (word_form bytes.now) }
{
    if bytes.is_empty() {
        return write_all(out, b"\\e");
    }
    for byte in bytes {
        write_all(out, Escaped::in_word(*byte).as_slice())?;
    }
    Ok(())
}

fn print_name<O: Out>(out: &mut O, name: &[u8], form: PrintForm) -> Result<(), OutFault>
    ensures { Prints result (O.sink out.old) (O.sink out.new) (shown_name form name.now) }
{
    if form.escaped {
        write_word(out, name)
    } else {
        write_all(out, name)
    }
}

/// Prints a name and `=`, if the form has them.
fn print_header<O: Out>(out: &mut O, name: &[u8], form: PrintForm) -> Result<(), OutFault>
    ensures { Prints result (O.sink out.old) (O.sink out.new) (header_of form name.now) }
{
    if !form.header {
        return Ok(());
    }
    print_name(out, name, form)?;
    write_all(out, b"=")
}

fn print_value<O: Out>(out: &mut O, value: &[u8], form: PrintForm) -> Result<(), OutFault>
    ensures { Prints result (O.sink out.old) (O.sink out.new) (shown_value form value.now) }
{
    if form.escaped {
        write_text(out, value)
    } else {
        write_all(out, value)
    }
}

/// Prints the entry of a variable.
pub(crate) fn print_line<O: Out>(
    out: &mut O,
    name: &[u8],
    value: &[u8],
    form: PrintForm,
) -> Result<(), OutFault>
    ensures { Prints result (O.sink out.old) (O.sink out.new) (line form (name.now, value.now)) }
{
    print_header(out, name, form)?;
    print_value(out, value, form)?;
    write_all(out, form.end())
}
