//! Where a token is among the commands of a text.
ghost use Rattle.std.specs.Prelude.{◌≡◌, ◌≤◌, length};
ghost use Rattle.std.specs.List.{prefix_len};
ghost use Rattle.hushlang.specs.ByteClasses as bytes;
ghost use Rattle.hushcheck.specs.Seats as spec;

use crate::sights::{begins_name, is_name_byte};

/// What a word is that may start a command.
#[derive(Clone, Copy)]
pub(crate) enum Start {
    /// `if`, `while` or `until`.
    Opens,
    /// `for`.
    For,
    /// `then`, `elif`, `else` or `do`.
    GoesOn,
    /// `fi` or `done`.
    Closes,
    /// An assignment.
    Assigns,
    /// The name of a command.
    Command,
}

/// Which command words belong to, as far as it matters.
#[derive(Clone, Copy)]
pub(crate) enum Name {
    /// `test`.
    Test,
    /// `test -e`.
    TestFile,
    /// `test`, straight after `=` or `!=`.
    TestText,
    /// `setenv`.
    SetEnv,
    /// Another one.
    Other,
}

/// Where a word is.
#[derive(Clone, Copy)]
pub(crate) enum Stand {
    /// A command may start here, the first one of a block.
    Fresh,
    /// A command may start here.
    Begins,
    /// After assignments.
    Assigned,
    /// Among the words of a call, after so many of them, but for no more than 17.
    Called(Name, usize),
    /// The variable of a `for`.
    Variable,
    /// The `in` of a `for`.
    In,
    /// Among the words of a `for`.
    Items,
    /// Straight after a compound command.
    Behind,
}

/// Which operators an and-or list has so far.
#[derive(Clone, Copy, PartialEq, Eq)]
pub(crate) enum Link {
    /// None.
    First,
    /// `&&` was the last one.
    And,
    /// `||` was the last one.
    Or,
}

/// Where a token is.
#[derive(Clone, Copy)]
pub(crate) struct Seat {
    /// Where it is if it is a word.
    pub(crate) stand: Stand,
    /// The operators of its list.
    pub(crate) link: Link,
    /// Where the operator starts that the token is after, if it is.
    pub(crate) operator: Option<usize>,
}

/// Whether a text is one of these.
fn is_reserved_opening(text: &[u8]) -> bool
    ensures { result ≡ spec.is_opening text.now }
{
    text == b"if".as_slice() || text == b"while".as_slice() || text == b"until".as_slice()
}

/// Whether a word goes on with a compound command.
fn is_going_on(text: &[u8]) -> bool
    ensures { result ≡ spec.is_going_on text.now }
{
    text == b"then".as_slice()
        || text == b"elif".as_slice()
        || text == b"else".as_slice()
        || text == b"do".as_slice()
}

/// Whether a word ends a compound command.
fn is_closing(text: &[u8]) -> bool
    ensures { result ≡ spec.is_closing text.now }
{
    text == b"fi".as_slice() || text == b"done".as_slice()
}

/// How many bytes at the start of a text may be in a name.
fn name_len(text: &[u8]) -> usize
    ensures value { result ≡ prefix_len bytes.is_name_byte text.now }
    ensures within { result ≤ length text.now }
{
    text.iter().take_while(|b| is_name_byte(**b)).count()
}

/// What is after the bytes of a name.
fn behind_name(text: &[u8]) -> &[u8]
    ensures { result.now ≡ spec.behind_name text.now }
{
    &text[name_len(text)..]
}

/// Whether a name may start with the first byte.
fn starts_with_name(text: &[u8]) -> bool
    ensures { result ≡ bytes.begins bytes.begins_name text.now }
{
    match text {
        [b, ..] => begins_name(*b),
        [] => false,
    }
}

/// Whether the first byte is this one.
pub(crate) fn starts_with(text: &[u8], wanted: u8) -> bool
    ensures { result ≡ spec.starts_with wanted text.now }
{
    match text {
        [b, ..] => *b == wanted,
        [] => false,
    }
}

/// Whether a word is an assignment.
fn is_assignment(text: &[u8]) -> bool
    ensures { result ≡ spec.is_assignment text.now }
{
    starts_with_name(text) && starts_with(behind_name(text), b'=')
}

/// Whether a text is `=` alone, or before empty quotes.
fn is_no_value(text: &[u8]) -> bool
    ensures { result ≡ spec.is_no_value text.now }
{
    text == b"=".as_slice() || text == b"=''".as_slice() || text == b"=\"\"".as_slice()
}

/// Whether a word assigns nothing.
pub(crate) fn is_empty_assignment(text: &[u8]) -> bool
    ensures { result ≡ spec.is_empty_assignment text.now }
{
    starts_with_name(text) && is_no_value(behind_name(text))
}

/// What a word is that may start a command.
pub(crate) fn start_of(text: &[u8]) -> Start
    ensures { result ≡ spec.start_of text.now }
{
    if is_reserved_opening(text) {
        Start::Opens
    } else if text == b"for".as_slice() {
        Start::For
    } else if is_going_on(text) {
        Start::GoesOn
    } else if is_closing(text) {
        Start::Closes
    } else if is_assignment(text) {
        Start::Assigns
    } else {
        Start::Command
    }
}

/// Whether a word is reserved.
pub(crate) fn is_reserved(start: Start) -> bool
    ensures { result ≡ spec.is_reserved start }
{
    match start {
        Start::Opens | Start::For | Start::GoesOn | Start::Closes => true,
        Start::Assigns | Start::Command => false,
    }
}

/// Which command a name is.
fn name_of(text: &[u8]) -> Name
    ensures { result ≡ spec.name_of text.now }
{
    if text == b"test".as_slice() {
        Name::Test
    } else if text == b"setenv".as_slice() {
        Name::SetEnv
    } else {
        Name::Other
    }
}

/// Where the words are after a word that may start a command and is no reserved word.
pub(crate) fn behind_first(start: Start, text: &[u8]) -> Stand
    ensures { result ≡ spec.behind_first start text.now }
{
    match start {
        Start::Assigns => Stand::Assigned,
        _ => Stand::Called(name_of(text), 1),
    }
}

/// Whether a word of `test` compares texts, so that the word after it is one.
fn compares(text: &[u8]) -> bool
    ensures { result ≡ spec.compares text.now }
{
    text == b"=".as_slice() || text == b"!=".as_slice()
}

/// The command, after a word of its call.
fn name_behind(name: Name, words: usize, text: &[u8]) -> Name
    ensures { result ≡ spec.name_behind name words text.now }
{
    match name {
        Name::Test if words == 1 && text == b"-e".as_slice() => Name::TestFile,
        Name::Test if 2 <= words && compares(text) => Name::TestText,
        Name::TestText => Name::Test,
        _ => name,
    }
}

/// One word more.
fn one_more(words: usize) -> usize
    ensures { result ≡ spec.one_more words }
{
    if words > 16 { 17 } else { words + 1 }
}

/// Where the words are after a word that is not the first of its command.
pub(crate) fn behind_later(stand: Stand, text: &[u8]) -> Stand
    ensures { result ≡ spec.behind_later stand text.now }
{
    match stand {
        Stand::Called(name, words) => {
            Stand::Called(name_behind(name, words, text), one_more(words))
        }
        Stand::Variable => Stand::In,
        Stand::In => Stand::Items,
        _ => stand,
    }
}
