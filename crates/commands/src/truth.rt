//! The truth of the words after `test`.
ghost use Rattle.std.specs.Prelude.{◌≡◌, ◌==◌};
ghost use Rattle.commands.specs.Verdict.{text_comparisons, number_comparisons, answer_in, comparison, compared, measured, term, combined, verdict};
ghost use Rattle.commands.specs.TextsShown.{texts, term_shown};

use crate::number::number;

/// The answer of a comparison of texts, byte by byte, if the operator is one.
fn compare_texts(operator: &[u8], left: &[u8], right: &[u8]) -> Option<bool>
    ensures { result ≡ answer_in text_comparisons operator.now left.now right.now }
{
    if operator == b"=".as_slice() {
        Some(left == right)
    } else if operator == b"!=".as_slice() {
        Some(left != right)
    } else if operator == b"<".as_slice() {
        Some(left.cmp(&right).is_lt())
    } else if operator == b">".as_slice() {
        Some(left.cmp(&right).is_gt())
    } else {
        None
    }
}

/// The answer of a comparison of numbers, if the operator is one.
fn compare_numbers(operator: &[u8], left: &[u8], right: &[u8]) -> Option<bool>
    ensures { result ≡ answer_in number_comparisons operator.now left.now right.now }
{
    if operator == b"-eq".as_slice() {
        Some(number(left) == number(right))
    } else if operator == b"-ne".as_slice() {
        Some(number(left) != number(right))
    } else if operator == b"-lt".as_slice() {
        Some(number(left) < number(right))
    } else if operator == b"-le".as_slice() {
        Some(number(left) <= number(right))
    } else if operator == b"-gt".as_slice() {
        Some(number(left) > number(right))
    } else if operator == b"-ge".as_slice() {
        Some(number(left) >= number(right))
    } else {
        None
    }
}

/// The answer of the comparison that the operator names, if it names one.
fn compare(operator: &[u8], left: &[u8], right: &[u8]) -> Option<bool>
    ensures { result ≡ comparison operator.now left.now right.now }
{
    match compare_texts(operator, left, right) {
        Some(truth) => Some(truth),
        None => compare_numbers(operator, left, right),
    }
}

/// The truth of a comparison of three words, and the words after it.
#[tactic(auto, using(crate::proofs::VerdictLemmas::terms))]
fn compared(words: &[Vec<u8>]) -> Option<(bool, &[Vec<u8>])>
    ensures { term_shown result ≡ compared (texts words.now) }
{
    match words {
        [left, operator, right, rest @ ..] => {
            let truth = compare(operator, left, right)?;
            Some((truth, rest))
        }
        _ => None,
    }
}

/// The truth of a test whether one word is empty, and the words after it.
fn measured(words: &[Vec<u8>]) -> Option<(bool, &[Vec<u8>])>
    ensures { term_shown result ≡ measured (texts words.now) }
{
    let [test, word, rest @ ..] = words else {
        return None;
    };
    if test.as_slice() == b"-n".as_slice() {
        Some((!word.is_empty(), rest))
    } else if test.as_slice() == b"-z".as_slice() {
        Some((word.is_empty(), rest))
    } else {
        None
    }
}

/// The truth of the term with which the words start, and the words after it.
#[tactic(auto, using(crate::proofs::VerdictLemmas::terms))]
fn term(words: &[Vec<u8>]) -> Option<(bool, &[Vec<u8>])>
    ensures { term_shown result ≡ term (texts words.now) }
{
    let mut is_opposite = false;
    let mut rest = words;
    while let Some((first, more)) = rest.split_first() {
        if let Some((truth, behind)) = compared(rest) {
            return Some((truth != is_opposite, behind));
        }
        if first.as_slice() != b"!".as_slice() {
            let (truth, behind) = measured(rest)?;
            return Some((truth != is_opposite, behind));
        }
        is_opposite = !is_opposite;
        rest = more;
    }
    None
}

/// Two truths, combined by an operator.
fn combined(operator: &[u8], left: bool, right: bool) -> Option<bool>
    ensures { result ≡ combined operator.now left right }
{
    if operator == b"-a".as_slice() {
        Some(left && right)
    } else if operator == b"-o".as_slice() {
        Some(left || right)
    } else {
        None
    }
}

/// The truth of the words after `test`: terms, combined by `-a` and `-o` from the left, both of the
/// same rank. A term is a comparison of three words (`= != < >` compare bytes, `-eq -ne -lt -le -gt
/// -ge` compare numbers), or `!` and a term, or `-n` or `-z` and a word. Any other list of words is
/// false as a whole. Takes no memory.
pub fn verdict(words: &[Vec<u8>]) -> bool
    ensures { result ≡ verdict (texts words.now) }
{
    let Some((mut truth, mut rest)) = term(words) else {
        return false;
    };
    while let Some((operator, more)) = rest.split_first() {
        let Some((next, behind)) = term(more) else {
            return false;
        };
        let Some(both) = combined(operator, truth, next) else {
            return false;
        };
        truth = both;
        rest = behind;
    }
    truth
}
