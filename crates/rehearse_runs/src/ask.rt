//! What is asked of a rehearsal.
ghost use Rattle.std.specs.Prelude.{◌≡◌};
ghost use Rattle.rehearse_runs.specs.StartWord.{digits_in};

use rehearse_terms::Wanted;

/// What is asked of a rehearsal.
#[derive(Clone, Copy)]
pub struct Ask<'a> {
    /// The variable whose text is rehearsed, or what the given text is called.
    pub name: &'a [u8],
    /// A text that is rehearsed in place of a variable's.
    pub text: Option<&'a [u8]>,
    /// The runs whose records are written.
    pub wanted: Wanted<&'a [u8]>,
    /// The variables that each record shows, in this order; none for all.
    pub names: &'a [&'a [u8]],
}

/// The digits of a word that is written as a listing prints it.
pub(crate) fn digits_of(printed: &[u8]) -> &[u8]
    ensures { result.now ≡ digits_in printed.entry.now }
{
    match printed {
        b"." => b"",
        [] => b".",
        digits => digits,
    }
}
