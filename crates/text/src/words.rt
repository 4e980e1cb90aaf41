//! The words of a line, and what is around them.
ghost use Rattle.std.specs.Prelude.{◌≡◌, ◌≤◌, ◌∷◌, [], ℕ, Bool, length, MatchOption};
ghost use Rattle.std.specs.List.{position, position_or_len};
ghost use Rattle.text.specs.Words.{is_blank, is_space, words_of, cut_front, cut_behind, trimmed, Tests};

/// Whether a byte is a space or a tab.
pub fn is_space(byte: u8) -> bool
    ensures { result ≡ is_space byte }
{
    byte == b' ' || byte == b'\t'
}

/// Whether a byte is a space, a tab or a carriage return.
pub fn is_blank(byte: u8) -> bool
    ensures { result ≡ is_blank byte }
{
    is_space(byte) || byte == b'\r'
}

/// A text without the bytes at its start that pass a test.
pub fn cut_front<F: Fn(u8) -> bool>(text: &[u8], test: F) -> &[u8]
    requires { F.IsAlwaysCallable test }
    ensures { (p : ℕ → Bool) → Tests (F.post test) p → result.now ≡ cut_front p text.now }
{
    let mut rest = text;
    while let [first, more @ ..] = rest {
        if !test(*first) {
            break;
        }
        rest = more;
    }
    rest
}

/// A text without the bytes at its end that pass a test.
#[tactic(auto, using(crate::proofs::CutLemmas::ends))]
pub fn cut_behind<F: Fn(u8) -> bool>(text: &[u8], test: F) -> &[u8]
    requires { F.IsAlwaysCallable test }
    ensures { (p : ℕ → Bool) → Tests (F.post test) p → result.now ≡ cut_behind p text.now }
{
    let mut len = text.len();
    while len > 0 {
        if !test(text[len - 1]) {
            break;
        }
        len -= 1;
    }
    &text[..len]
}

/// A line without the blanks around it.
pub fn trimmed(line: &[u8]) -> &[u8]
    ensures { result.now ≡ trimmed line.now }
{
    cut_behind(cut_front(line, is_blank), is_blank)
}

/// The place of the first blank.
fn first_blank(line: &[u8]) -> Option<usize>
    ensures { result ≡ position is_blank line.now }
{
    line.iter().position(|byte| is_blank(*byte))
}

/// How many bytes are before the first blank.
#[tactic(auto, using(crate::proofs::WordLemmas::word_ends))]
fn word_len(line: &[u8]) -> usize
    ensures len { result ≡ position_or_len is_blank line.now }
    ensures within { result ≤ length line.now }
{
    first_blank(line).unwrap_or(line.len())
}

/// The first word of a line, and what follows it. Gives `None` if the line has no word.
#[tactic(auto, using(crate::proofs::WordLemmas::first_words))]
pub fn next_word(line: &[u8]) -> Option<(&[u8], &[u8])>
    ensures { MatchOption result (words_of line.now ≡ [])
        (λ cut. words_of line.now ≡ cut.0.now ∷ words_of cut.1.now) }
{
    let line = cut_front(line, is_blank);
    if line.is_empty() {
        return None;
    }
    let len = word_len(line);
    Some((&line[..len], &line[len..]))
}
