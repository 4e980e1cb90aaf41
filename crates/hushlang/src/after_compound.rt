//! A word straight after a compound command, which U-Boot's shell refuses.

ghost use Rattle.std.specs.Prelude.{◌≡◌};
ghost use Rattle.hushlang.specs.CursorShown.{input_in};
ghost use Rattle.hushlang.specs.AfterCompound as spec;

use crate::cursor::Tokens;
use crate::words::Reserved;

/// Where a token is.
#[derive(Clone, Copy, PartialEq, Eq)]
enum Stand {
    /// A command may start here.
    Begins,
    /// Among the words of a command, or of a `for`.
    Within,
    /// Straight after a compound command.
    Behind,
}

/// Whether this is straight after a compound command.
fn is_behind(stand: Stand) -> bool
    ensures { result ≡ spec.is_behind stand }
{
    match stand {
        Stand::Behind => true,
        Stand::Begins | Stand::Within => false,
    }
}

/// Where the token after a word is, if the word is this reserved word.
fn behind_word(stand: Stand, word: Option<Reserved>) -> Stand
    ensures { result ≡ spec.behind_word stand word }
{
    if let Stand::Within = stand {
        return Stand::Within;
    }
    match word {
        Some(Reserved::Fi | Reserved::Done) => Stand::Behind,
        Some(Reserved::For) | None => Stand::Within,
        Some(_) => Stand::Begins,
    }
}

/// The place of the first word that is straight after a compound command, like the second in `fi
/// fi`, with no separator and no operator between. A script may hold such words; U-Boot's shell
/// reports `syntax error` for them. Takes no memory.
#[tactic(auto, using(crate::proofs::AfterCompoundLemmas::stepping))]
pub fn word_straight_behind(text: &[u8]) -> Option<usize>
    ensures { result ≡ spec.straight (input_in text.now).tokens }
{
    let mut tokens = Tokens::new(text);
    let mut stand = Stand::Begins;
    'tokens: while !tokens.at_last() {
        match tokens.word() {
            Some(word) => {
                if is_behind(stand) {
                    return Some(word.start);
                }
                stand = behind_word(stand, tokens.keyword());
            }
            None => stand = Stand::Begins,
        }
        tokens.take();
    }
    None
}
