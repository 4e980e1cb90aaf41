//! Why a text is refused, in words.
ghost use Rattle.std.specs.Prelude.{◌≡◌, ◌==◌};
ghost use Rattle.std.specs.List.{list_any};
ghost use Rattle.hushlang.specs.declared.token.SyntaxError.TheVariants.{Unexpected};
ghost use Rattle.hushcheck.specs.Report as spec;

use hushlang::SyntaxError;

/// The byte at which a text is refused.
pub(crate) fn byte_of(error: SyntaxError) -> usize
    ensures { result ≡ spec.byte_of error }
{
    match error {
        SyntaxError::OpenQuote(at)
        | SyntaxError::LoneBackslash(at)
        | SyntaxError::OpenBrace(at)
        | SyntaxError::BadVariable(at)
        | SyntaxError::SingleAmp(at)
        | SyntaxError::SinglePipe(at)
        | SyntaxError::Unexpected(at)
        | SyntaxError::MissingWord(at)
        | SyntaxError::AssignmentBeforeCommand(at)
        | SyntaxError::TooDeep(at) => at,
        SyntaxError::Memory => 0,
    }
}

/// Whether a place is one of these.
fn is_among(places: &[usize], at: usize) -> bool
    ensures { result ≡ list_any (λ place. place == at) places.now }
{
    places.iter().any(|place| *place == at)
}

/// What is unexpected at a place, in a text of this many bytes, in which these words are after
/// blocks without a command.
fn unexpected(size: usize, blocks: &[usize], at: usize) -> &'static [u8]
    ensures { result.now ≡ spec.what_of size blocks.now (Unexpected at) }
{
    if at == size {
        b"unexpected end of the text"
    } else if is_among(blocks, at) {
        b"the block before this word is empty: write true in it"
    } else {
        b"unexpected token"
    }
}

/// What is wrong there, in a text of this many bytes, in which these words are after blocks
/// without a command.
pub(crate) fn what_of(size: usize, blocks: &[usize], error: SyntaxError) -> &'static [u8]
    ensures { result.now ≡ spec.what_of size blocks.now error }
{
    match error {
        SyntaxError::OpenQuote(_) => b"the quote is not closed",
        SyntaxError::LoneBackslash(_) => b"the backslash is the last byte",
        SyntaxError::OpenBrace(_) => b"the brace is not closed",
        SyntaxError::BadVariable(_) => b"the braces hold no name",
        SyntaxError::SingleAmp(_) => b"a single &",
        SyntaxError::SinglePipe(_) => b"a single |",
        SyntaxError::Unexpected(at) => unexpected(size, blocks, at),
        SyntaxError::MissingWord(_) => b"a word is missing",
        SyntaxError::AssignmentBeforeCommand(_) => b"an assignment before the command",
        SyntaxError::TooDeep(_) => b"nested too deep",
        SyntaxError::Memory => b"out of memory",
    }
}
