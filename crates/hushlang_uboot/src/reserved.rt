//! The reserved words of U-Boot's shells.
ghost use Rattle.std.specs.Prelude.{◌≡◌};
ghost use Rattle.hushlang_uboot.specs.Nests as says;

/// The words that the shells reserve at the beginning of a command.
#[derive(Clone, Copy)]
pub enum Reserved {
    /// `if`
    If,
    /// `then`
    Then,
    /// `elif`
    Elif,
    /// `else`
    Else,
    /// `fi`
    Fi,
    /// `for`
    For,
    /// `while`
    While,
    /// `until`
    Until,
    /// `do`
    Do,
    /// `done`
    Done,
    /// `in`
    In,
    /// `{`, of the modern shell
    OpenBrace,
    /// `}`, of the modern shell
    CloseBrace,
}

/// The reserved word of an `if` that some bytes are.
#[tactic(auto, unfolding(crate::specs::Nests::word_of_if))]
fn word_of_if(bytes: &[u8]) -> Option<Reserved>
    ensures { result ≡ says.word_of_if bytes.now }
{
    if bytes == b"if".as_slice() {
        return Some(Reserved::If);
    }
    if bytes == b"then".as_slice() {
        return Some(Reserved::Then);
    }
    if bytes == b"elif".as_slice() {
        return Some(Reserved::Elif);
    }
    if bytes == b"else".as_slice() {
        return Some(Reserved::Else);
    }
    if bytes == b"fi".as_slice() {
        return Some(Reserved::Fi);
    }
    None
}

/// The reserved word of a loop that some bytes are.
#[tactic(auto, unfolding(crate::specs::Nests::word_of_loop))]
fn word_of_loop(bytes: &[u8]) -> Option<Reserved>
    ensures { result ≡ says.word_of_loop bytes.now }
{
    if bytes == b"for".as_slice() {
        return Some(Reserved::For);
    }
    if bytes == b"while".as_slice() {
        return Some(Reserved::While);
    }
    if bytes == b"until".as_slice() {
        return Some(Reserved::Until);
    }
    if bytes == b"do".as_slice() {
        return Some(Reserved::Do);
    }
    if bytes == b"done".as_slice() {
        return Some(Reserved::Done);
    }
    if bytes == b"in".as_slice() {
        return Some(Reserved::In);
    }
    None
}

/// The reserved word of some bytes.
#[tactic(auto, unfolding(crate::specs::Nests::reserved_bytes))]
pub fn reserved_bytes(bytes: &[u8]) -> Option<Reserved>
    ensures { result ≡ says.reserved_bytes bytes.now }
{
    match word_of_if(bytes) {
        Some(word) => Some(word),
        None => word_of_loop(bytes),
    }
}

/// Whether a word is `in`.
pub fn is_in(word: Option<Reserved>) -> bool
    ensures { result ≡ says.is_in word }
{
    match word {
        Some(Reserved::In) => true,
        _ => false,
    }
}

/// Whether a word is `do`.
pub fn is_do(word: Option<Reserved>) -> bool
    ensures { result ≡ says.is_do word }
{
    match word {
        Some(Reserved::Do) => true,
        _ => false,
    }
}

/// Whether a word begins a compound command.
pub fn begins(word: Reserved) -> bool
    ensures { result ≡ says.begins word }
{
    match word {
        Reserved::If | Reserved::While | Reserved::Until | Reserved::For | Reserved::OpenBrace =>
            true,
        _ => false,
    }
}
