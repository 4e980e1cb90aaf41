//! What is in the bytes of a word.
ghost use Rattle.std.specs.Prelude.{◌≡◌};
ghost use Rattle.std.specs.List.{fold};
ghost use Rattle.hushlang.specs.ByteClasses as bytes;
ghost use Rattle.hushcheck.specs.Sights as spec;

/// In which quotes a byte is.
#[derive(Clone, Copy)]
pub(crate) enum Quotes {
    /// In none.
    Outside,
    /// In single quotes.
    Single,
    /// In double quotes.
    Double,
}

/// What the bytes before a byte have begun.
#[derive(Clone, Copy)]
pub(crate) enum Begun {
    /// Nothing.
    Nothing,
    /// A backslash is before it.
    Backslash,
    /// A `$` is before it.
    Dollar,
    /// `${` is before it.
    Brace,
    /// It is in braces, after a first byte.
    Name,
}

/// What is seen at a byte.
#[derive(Clone, Copy)]
pub(crate) enum Sight {
    /// Nothing that counts.
    Plain,
    /// Quotes open.
    Quote,
    /// A space that quotes or a backslash keep.
    Space,
    /// The name of a variable begins, outside quotes.
    Loose,
    /// The same with `_`.
    LooseUnderscore,
    /// The name of a variable begins, in double quotes.
    Held,
    /// The same with `_`.
    HeldUnderscore,
    /// A backslash in single quotes.
    SingleBackslash,
    /// A byte that a backslash keeps in double quotes.
    DoubleBackslash,
    /// An apostrophe in double quotes.
    Apostrophe,
    /// A byte that is a variable of other shells, after a `$`.
    Special,
    /// `${?`.
    BracedStatus,
    /// A byte of a name in braces that is no letter, digit or `_`, or a digit in front.
    OddName,
    /// An opening parenthesis outside quotes.
    Parenthesis,
    /// The end of a line after a backslash.
    LineEnd,
}

/// What is seen in a word.
#[derive(Clone, Copy)]
pub(crate) struct Seen {
    /// Quotes.
    pub(crate) quoted: bool,
    /// A space that quotes or a backslash keep.
    pub(crate) space: bool,
    /// A variable outside quotes.
    pub(crate) loose: bool,
    /// A variable in double quotes.
    pub(crate) held: bool,
    /// A variable whose name starts with `_`.
    pub(crate) underscore: bool,
    /// A backslash in single quotes.
    pub(crate) single_backslash: bool,
    /// A backslash before `$`, `"` or `\` in double quotes.
    pub(crate) double_backslash: bool,
    /// An apostrophe in double quotes.
    pub(crate) apostrophe: bool,
    /// A variable of other shells, as `$1`.
    pub(crate) special: bool,
    /// `${?}`.
    pub(crate) braced_status: bool,
    /// A name in braces that U-Boot's modern shell refuses.
    pub(crate) odd_name: bool,
    /// An opening parenthesis outside quotes.
    pub(crate) parenthesis: bool,
    /// A backslash before the end of a line.
    pub(crate) line_end: bool,
}

/// How far a word is read.
#[derive(Clone, Copy)]
pub(crate) struct Look {
    /// In which quotes the next byte is.
    pub(crate) quotes: Quotes,
    /// What the bytes before it have begun.
    pub(crate) begun: Begun,
    /// What was seen.
    pub(crate) seen: Seen,
}

/// Whether a name may start with a byte.
pub(crate) fn begins_name(b: u8) -> bool
    ensures { result ≡ bytes.begins_name b }
{
    (b'a' <= b && b <= b'z') || (b'A' <= b && b <= b'Z') || b == b'_'
}

/// Whether a name may contain a byte after its first.
pub(crate) fn is_name_byte(b: u8) -> bool
    ensures { result ≡ bytes.is_name_byte b }
{
    begins_name(b) || (b'0' <= b && b <= b'9')
}

/// Whether a backslash keeps a byte inside double quotes.
fn is_escapable(b: u8) -> bool
    ensures { result ≡ bytes.is_escapable b }
{
    b == b'$' || b == b'"' || b == b'\\'
}

/// Whether a byte is a variable of other shells after a `$`.
fn is_special(b: u8) -> bool
    ensures { result ≡ spec.is_special b }
{
    (b'0' <= b && b <= b'9') || b == b'@' || b == b'*' || b == b'-' || b == b'#'
}

/// In which quotes the byte after a byte is that is itself in these and after no backslash.
fn quotes_behind(quotes: Quotes, b: u8) -> Quotes
    ensures { result ≡ spec.quotes_behind quotes b }
{
    match quotes {
        Quotes::Outside if b == b'\'' => Quotes::Single,
        Quotes::Outside if b == b'"' => Quotes::Double,
        Quotes::Single if b == b'\'' => Quotes::Outside,
        Quotes::Double if b == b'"' => Quotes::Outside,
        _ => quotes,
    }
}

/// In which quotes the byte after a byte is.
fn quotes_after(quotes: Quotes, begun: Begun, b: u8) -> Quotes
    ensures { result ≡ spec.quotes_after quotes begun b }
{
    match begun {
        Begun::Backslash => quotes,
        _ => quotes_behind(quotes, b),
    }
}

/// What a byte begins that nothing was begun before.
fn begins(quotes: Quotes, b: u8) -> Begun
    ensures { result ≡ spec.begins quotes b }
{
    match quotes {
        Quotes::Single => Begun::Nothing,
        _ if b == b'\\' => Begun::Backslash,
        _ if b == b'$' => Begun::Dollar,
        _ => Begun::Nothing,
    }
}

/// What is begun in braces after a byte.
fn in_braces(b: u8) -> Begun
    ensures { result ≡ spec.in_braces b }
{
    if b == b'}' {
        Begun::Nothing
    } else {
        Begun::Name
    }
}

/// What is begun after a byte.
fn begun_after(quotes: Quotes, begun: Begun, b: u8) -> Begun
    ensures { result ≡ spec.begun_after quotes begun b }
{
    match begun {
        Begun::Nothing => begins(quotes, b),
        Begun::Backslash => Begun::Nothing,
        Begun::Dollar if b == b'{' => Begun::Brace,
        Begun::Dollar => begins(quotes, b),
        Begun::Brace | Begun::Name => in_braces(b),
    }
}

/// What is seen at a byte that nothing was begun before.
fn plain_sight(quotes: Quotes, b: u8) -> Sight
    ensures { result ≡ spec.plain_sight quotes b }
{
    match quotes {
        Quotes::Outside if b == b'\'' || b == b'"' => Sight::Quote,
        Quotes::Outside if b == b'(' => Sight::Parenthesis,
        Quotes::Single if b == b'\\' => Sight::SingleBackslash,
        Quotes::Double if b == b'\'' => Sight::Apostrophe,
        Quotes::Single | Quotes::Double if b == b' ' => Sight::Space,
        _ => Sight::Plain,
    }
}

/// What is seen at the first byte of a name.
fn name_sight(quotes: Quotes, b: u8) -> Sight
    ensures { result ≡ spec.name_sight quotes b }
{
    match quotes {
        Quotes::Double if b == b'_' => Sight::HeldUnderscore,
        Quotes::Double => Sight::Held,
        _ if b == b'_' => Sight::LooseUnderscore,
        _ => Sight::Loose,
    }
}

/// What is seen at a byte after a backslash.
fn escaped_sight(quotes: Quotes, b: u8) -> Sight
    ensures { result ≡ spec.escaped_sight quotes b }
{
    match quotes {
        _ if b == b'\n' => Sight::LineEnd,
        _ if b == b' ' => Sight::Space,
        Quotes::Double if is_escapable(b) => Sight::DoubleBackslash,
        _ => Sight::Plain,
    }
}

/// What is seen at a byte after a `$`.
fn dollar_sight(quotes: Quotes, b: u8) -> Sight
    ensures { result ≡ spec.dollar_sight quotes b }
{
    if begins_name(b) {
        name_sight(quotes, b)
    } else if is_special(b) {
        Sight::Special
    } else {
        plain_sight(quotes, b)
    }
}

/// What is seen at a byte after `${`.
fn brace_sight(quotes: Quotes, b: u8) -> Sight
    ensures { result ≡ spec.brace_sight quotes b }
{
    if b == b'?' {
        Sight::BracedStatus
    } else if begins_name(b) {
        name_sight(quotes, b)
    } else {
        Sight::OddName
    }
}

/// What is seen at a byte of a name in braces.
fn inner_sight(b: u8) -> Sight
    ensures { result ≡ spec.inner_sight b }
{
    if is_name_byte(b) || b == b'}' {
        Sight::Plain
    } else {
        Sight::OddName
    }
}

/// What is seen at a byte.
fn sight_of(quotes: Quotes, begun: Begun, b: u8) -> Sight
    ensures { result ≡ spec.sight_of quotes begun b }
{
    match begun {
        Begun::Nothing => plain_sight(quotes, b),
        Begun::Backslash => escaped_sight(quotes, b),
        Begun::Dollar => dollar_sight(quotes, b),
        Begun::Brace => brace_sight(quotes, b),
        Begun::Name => inner_sight(b),
    }
}

/// What was seen, with a sight more.
fn with_sight(sight: Sight, seen: Seen) -> Seen
    ensures { result ≡ spec.with_sight sight seen }
{
    match sight {
        Sight::Plain => seen,
        Sight::Quote => Seen {
            quoted: true,
            ..seen
        },
        Sight::Space => Seen {
            space: true,
            ..seen
        },
        Sight::Loose => Seen {
            loose: true,
            ..seen
        },
        Sight::LooseUnderscore => Seen {
            loose: true,
            underscore: true,
            ..seen
        },
        Sight::Held => Seen { held: true, ..seen },
        Sight::HeldUnderscore => Seen {
            held: true,
            underscore: true,
            ..seen
        },
        Sight::SingleBackslash => Seen {
            single_backslash: true,
            ..seen
        },
        Sight::DoubleBackslash => Seen {
            double_backslash: true,
            ..seen
        },
        Sight::Apostrophe => Seen {
            apostrophe: true,
            ..seen
        },
        Sight::Special => Seen {
            special: true,
            ..seen
        },
        Sight::BracedStatus => Seen {
            braced_status: true,
            ..seen
        },
        Sight::OddName => Seen {
            odd_name: true,
            ..seen
        },
        Sight::Parenthesis => Seen {
            parenthesis: true,
            ..seen
        },
        Sight::LineEnd => Seen {
            line_end: true,
            ..seen
        },
    }
}

/// How far a word is read after a byte.
fn look_after(look: Look, b: u8) -> Look
    ensures { result ≡ spec.look_after look b }
{
    Look {
        quotes: quotes_after(look.quotes, look.begun, b),
        begun: begun_after(look.quotes, look.begun, b),
        seen: with_sight(sight_of(look.quotes, look.begun, b), look.seen),
    }
}

/// Nothing seen.
const NOTHING: Seen = Seen {
    quoted: false,
    space: false,
    loose: false,
    held: false,
    underscore: false,
    single_backslash: false,
    double_backslash: false,
    apostrophe: false,
    special: false,
    braced_status: false,
    odd_name: false,
    parenthesis: false,
    line_end: false,
};

/// What is seen in a word.
pub(crate) fn seen_in(text: &[u8]) -> Seen
    ensures { result ≡ spec.seen_in text.now }
{
    let mut look = Look {
        quotes: Quotes::Outside,
        begun: Begun::Nothing,
        seen: NOTHING,
    };
    for byte in text {
        look = look_after(look, *byte);
    }
    look.seen
}
