//! What a caller of `envtools` states and proves of the text that is printed, and read again.
ghost use Rattle.std.specs.Prelude.{◌≡◌, IfErr, IfOk};
ghost use Rattle.std.specs.List.{AllByRecursion};
ghost use Rattle.tests_texts.specs.PrintedText.{IsOneLine, PrintedReadsBack, printed_text};

use envtools::{Env, PrintError, PrintForm, TextError, from_text, printenv};
use output::Over;
use std::alloc::Global;

/// What is printed of an environment is read as the same environment, if one line can say each of its variables: no
/// name starts with `#`, no value ends with a backslash, and neither a name nor a value has a newline.
pub fn printed_reads_back()
    ensures { PrintedReadsBack }
{}

/// The text that is printed of an environment, each variable a line `NAME=VALUE`. Errors: `Write`, if memory ran out.
pub fn printed_text(alloc: Global, env: &Env) -> Result<Vec<u8>, PrintError>
    ensures { IfOk result (λ text. text.items ≡ printed_text env.now) }
{
    let form = PrintForm {
        header: true,
        escaped: false,
        null: false,
    };
    let mut out = Over::new(Vec::new(alloc));
    let mut err = Over::new(Vec::new(alloc));
    printenv(env, &[], form, &mut out, &mut err)?;
    Ok(out.into_writer())
}

/// The environment that is read from the text that is printed of this one: the same, if one line can say each of its
/// variables. Errors: `Memory`.
pub fn read_again(alloc: Global, env: Env) -> Result<Env, TextError>
    requires { AllByRecursion IsOneLine env }
    ensures same { IfOk result (λ again. again ≡ env) }
    ensures err { IfErr result (λ e. e ≡ TextError.Memory) }
{
    match printed_text(alloc, &env) {
        Ok(text) => from_text(alloc, &text),
        Err(_) => Err(TextError::Memory),
    }
}
