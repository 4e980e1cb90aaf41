//! The truth of the words after `test`, as U-Boot's shells find it.
ghost use Rattle.std.specs.Prelude.{◌≡◌, ◌<◌, false, List, [], ◌∷◌, length, option_map, option_and_then, is_some, IfSome, IfNone};
ghost use Rattle.commands.specs.UBootTest as says;
ghost use Rattle.commands.specs.UBootTestShown.{joint_shown, term_shown, begun_shown, question_shown, found_holds};
ghost use Rattle.commands.specs.TextsShown.{texts};

use crate::uboot_number::number;

/// How the next truth goes together with what was found before.
#[derive(Clone, Copy)]
enum Joint {
    /// It takes its place.
    Alone,
    And,
    Or,
}

/// A term of the words.
#[derive(Clone, Copy)]
enum Term<'a> {
    /// The next truth is turned.
    Turns,
    /// How the next truth goes together with what was found before.
    Joins(Joint),
    /// A truth that the words have.
    Finds(bool),
    /// Whether a file is there: its interface, its part and its path.
    Asks(&'a [Vec<u8>]),
}

/// What has to be asked before it is known whether the words after `test` hold.
#[derive(Clone, Copy, Debug)]
pub enum Question<'a> {
    Nothing,
    /// Whether a file is there: its interface, its part and its path.
    File(&'a [Vec<u8>]),
    /// More than one file.
    Files,
}

/// The truth of a comparison, if the operator is that of one.
fn compare(operator: &[u8], left: &[u8], right: &[u8]) -> Option<bool>
    ensures { result ≡ option_map (λ compare. compare left.now right.now) (says.comparison_of operator.now) }
{
    if operator == b"=".as_slice() {
        Some(left == right)
    } else if operator == b"!=".as_slice() {
        Some(left != right)
    } else if operator == b"<".as_slice() {
        Some(left.cmp(&right).is_lt())
    } else if operator == b">".as_slice() {
        Some(left.cmp(&right).is_gt())
    } else if operator == b"-eq".as_slice() {
        Some(number(left) == number(right))
    } else if operator == b"-ne".as_slice() {
        Some(number(left) != number(right))
    } else if operator == b"-lt".as_slice() {
        Some(number(left) < number(right))
    } else if operator == b"-le".as_slice() {
        Some(number(left) <= number(right))
    } else if operator == b"-gt".as_slice() {
        Some(number(left) > number(right))
    } else if operator == b"-ge".as_slice() {
        Some(number(left) >= number(right))
    } else {
        None
    }
}

/// The file that `-e` asks for, in the words after it.
fn asks(words: &[Vec<u8>]) -> Option<(Term<'_>, usize)>
    ensures { begun_shown result ≡ says.asks (texts words.now) }
{
    if words.len() < 3 {
        return None;
    }
    Some((Term::Asks(&words[..3]), 3))
}

/// The term that starts with the first word, and how many words it takes after that.
fn begins_with<'a>(first: &[u8], words: &'a [Vec<u8>]) -> Option<(Term<'a>, usize)>
    ensures { begun_shown result ≡ says.begins_with first.now (texts words.now) }
{
    if first == b"!".as_slice() {
        Some((Term::Turns, 0))
    } else if first == b"-o".as_slice() {
        Some((Term::Joins(Joint::Or), 0))
    } else if first == b"-a".as_slice() {
        Some((Term::Joins(Joint::And), 0))
    } else if first == b"-z".as_slice() {
        let (word, _) = words.split_first()?;
        Some((Term::Finds(word.is_empty()), 1))
    } else if first == b"-n".as_slice() {
        let (word, _) = words.split_first()?;
        Some((Term::Finds(!word.is_empty()), 1))
    } else if first == b"-e".as_slice() {
        asks(words)
    } else {
        None
    }
}

/// The comparison of the first word, with its operator in second place, and the words after it.
fn compares<'a>(left: &[u8], operator: &[u8], words: &'a [Vec<u8>]) -> Option<(Term<'a>, usize)>
    ensures { begun_shown result ≡
        option_and_then (λ compare. says.compares compare left.now (texts words.now))
        (says.comparison_of operator.now) }
{
    let (right, _) = words.split_first()?;
    let truth = compare(operator, left, right)?;
    Some((Term::Finds(truth), 2))
}

/// Whether an operator is that of a comparison.
fn is_comparison(operator: &[u8]) -> bool
    ensures { result ≡ is_some (says.comparison_of operator.now) }
{
    compare(operator, operator, operator).is_some()
}

/// The term with which the words begin, and how many words it takes after its first.
fn begins(words: &[Vec<u8>]) -> Option<(Term<'_>, usize)>
    ensures { begun_shown result ≡ says.begins (texts words.now) }
{
    let (first, others) = words.split_first()?;
    if let Some((second, behind)) = others.split_first()
        && is_comparison(second)
    {
        return compares(first, second, behind);
    }
    begins_with(first, others)
}

/// The first term and the words after it, unless U-Boot cannot read the words.
fn next_term(words: &[Vec<u8>]) -> Option<(Term<'_>, &[Vec<u8>])>
    requires { 0 < length words.now }
    ensures terms { IfSome result (λ t.
        says.terms (texts words.now) ≡ term_shown t.0 ∷ says.terms (texts t.1.now)) }
    ensures fewer { IfSome result (λ t. length t.1.now < length words.now) }
    ensures breaks { IfNone result (says.terms (texts words.now) ≡ says.Breaks ∷ []) }
{
    let (term, taken) = begins(words)?;
    Some((term, &words[1 + taken..]))
}

/// What has to be asked before it is known whether the words after `test` hold. It takes no memory.
pub fn uboot_question(words: &[Vec<u8>]) -> Question<'_>
    ensures { question_shown result ≡ says.question_of (says.questions (texts words.now)) }
{
    let mut asked = None;
    let mut rest = words;
    while !rest.is_empty() {
        let Some((term, others)) = next_term(rest) else {
            break;
        };
        if let Term::Asks(file) = term {
            if asked.is_some() {
                return Question::Files;
            }
            asked = Some(file);
        }
        rest = others;
    }
    match asked {
        Some(file) => Question::File(file),
        None => Question::Nothing,
    }
}

/// What was found in the terms before.
#[derive(Clone, Copy)]
struct Found<'a> {
    before: bool,
    joint: Joint,
    /// Whether the next truth is turned.
    turns: bool,
    /// Those that were not asked for yet.
    answers: &'a [bool],
}

/// After one truth more, with these answers left.
fn with_truth<'a>(found: Found<'_>, truth: bool, answers: &'a [bool]) -> Found<'a>
    ensures { (terms : List says.Term) →
        let next = says.turned found.entry.turns truth in
        let now = says.together (joint_shown found.entry.joint) found.entry.before next in
        found_holds result terms ≡ says.holds now says.Alone false answers.now terms }
{
    let truth = truth != found.turns;
    Found {
        before: match found.joint {
            Joint::Alone => truth,
            Joint::And => found.before && truth,
            Joint::Or => found.before || truth,
        },
        joint: Joint::Alone,
        turns: false,
        answers,
    }
}

/// After one term more.
fn after<'a>(found: Found<'a>, term: Term<'_>) -> Found<'a>
    ensures { (terms : List says.Term) →
        found_holds result terms ≡ found_holds found.entry (term_shown term.entry ∷ terms) }
{
    match term {
        Term::Turns => Found {
            turns: !found.turns,
            ..found
        },
        Term::Joins(joint) => Found { joint, ..found },
        Term::Finds(truth) => with_truth(found, truth, found.answers),
        Term::Asks(_) => match found.answers {
            [answer, answers @ ..] => with_truth(found, *answer, answers),
            [] => with_truth(found, false, &[]),
        },
    }
}

/// Whether the words after `test` hold, as U-Boot's shells find it, if the files that `-e` asks for are
/// there or not as these answers say. A file that has no answer is not there. It takes no memory.
pub fn uboot_truth(words: &[Vec<u8>], answers: &[bool]) -> bool
    ensures { result ≡ says.truth_by answers.now (texts words.now) }
{
    if words.len() < 2 {
        return false;
    }
    let mut found = Found {
        before: false,
        joint: Joint::Alone,
        turns: false,
        answers,
    };
    let mut rest = words;
    while !rest.is_empty() {
        let Some((term, others)) = next_term(rest) else {
            return true;
        };
        found = after(found, term);
        rest = others;
    }
    found.before
}
