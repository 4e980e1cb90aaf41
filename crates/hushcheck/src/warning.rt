//! What a shell of U-Boot reads otherwise, in words.
ghost use Rattle.std.specs.Prelude.{◌≡◌};
ghost use Rattle.hushcheck.specs.WarningTexts as spec;

/// What a shell of U-Boot reads otherwise at a place of a text.
#[derive(Clone, Copy)]
pub(crate) enum Warning {
    /// A word straight after a compound command.
    StraightBehind,
    /// An operator of a list that has both `&&` and `||`.
    MixedList,
    /// An operator at the end of a line.
    OperatorAtLineEnd,
    /// A word of a `for` that is empty, or holds a blank or a variable in quotes.
    WordOfFor,
    /// A `for` whose variable is a reserved word.
    ReservedName,
    /// `exit`.
    Exit,
    /// `x=`, `x=''` or `x=""`.
    EmptyAssignment,
    /// A name that starts with `_`.
    UnderscoreName,
    /// A backslash in single quotes.
    BackslashInSingle,
    /// A backslash before `$`, `"` or `\` in double quotes.
    BackslashInDouble,
    /// An apostrophe in double quotes.
    Apostrophe,
    /// A word with a quoted part, and a variable that is not quoted.
    PartlyQuoted,
    /// A variable without quotes among the words of `test`.
    LooseOperand,
    /// `-e` among other words of `test`.
    FileTest,
    /// `''`.
    EmptyWord,
    /// A word of `setenv` that is empty or starts with `-`.
    OptionOfSetenv,
    /// The seventeenth word of a command.
    ManyWords,
    /// `${?}`.
    StatusInBraces,
    /// A name in braces with other bytes than letters, digits and `_`.
    OddName,
    /// `$` before a digit, `@`, `*`, `-` or `#`.
    SpecialParameter,
    /// An opening parenthesis.
    Parenthesis,
    /// A backslash before the end of a line, within a word.
    BackslashAtLineEnd,
    /// A text that is not followed as the shell of U-Boot reads it that is named.
    NotFollowedText,
}

/// What U-Boot does there, in words.
pub(crate) fn warning_text(warning: Warning) -> &'static [u8]
    ensures { result.now ≡ spec.warning_text warning }
{
    match warning {
        Warning::StraightBehind => b"warning: U-Boot's old shell needs ; before this word",
        Warning::MixedList => {
            b"warning: once U-Boot's old shell skips a command, it skips the rest of the list"
        }
        Warning::OperatorAtLineEnd => {
            b"warning: U-Boot's old shell ends the list with this line, and runs the next one"
        }
        Warning::WordOfFor => {
            b"warning: U-Boot's old shell splits this word at each space, and drops it if it is empty"
        }
        Warning::ReservedName => b"warning: U-Boot's old shell refuses a reserved word here",
        Warning::Exit => {
            b"warning: exit ends nothing in U-Boot 2023.01, and other things in a block later on"
        }
        Warning::EmptyAssignment =>
            b"warning: U-Boot 2023.01 keeps the value that the variable has",
        Warning::UnderscoreName => {
            b"warning: no variable of U-Boot's old shell has a name that starts with _"
        }
        Warning::BackslashInSingle => {
            b"warning: U-Boot's old shell drops a backslash in single quotes"
        }
        Warning::BackslashInDouble => {
            b"warning: U-Boot's old shell keeps a backslash in double quotes"
        }
        Warning::Apostrophe => {
            b"warning: an apostrophe in double quotes opens quotes in U-Boot's old shell"
        }
        Warning::PartlyQuoted => {
            b"warning: U-Boot's old shell does not split a word of which a part is quoted"
        }
        Warning::LooseOperand => {
            b"warning: test may be true in U-Boot if this leaves words over or too few: quote it"
        }
        Warning::FileTest => b"warning: U-Boot's test asks for a file here",
        Warning::EmptyWord => b"warning: U-Boot's modern shell drops '', but keeps \"\"",
        Warning::OptionOfSetenv => {
            b"warning: U-Boot's setenv takes this for an option, or sets an empty name"
        }
        Warning::ManyWords => b"warning: a command has at most 16 words in U-Boot 2023.01",
        Warning::StatusInBraces => b"warning: ${?} is empty in U-Boot's old shell",
        Warning::OddName => b"warning: U-Boot's modern shell refuses this name in braces",
        Warning::SpecialParameter => {
            b"warning: U-Boot's modern shell takes $ and the byte after it for a variable"
        }
        Warning::Parenthesis => b"warning: U-Boot's modern shell refuses ( outside quotes",
        Warning::BackslashAtLineEnd => {
            b"warning: U-Boot's old shell keeps the line's end after this backslash"
        }
        Warning::NotFollowedText => { b"warning: a rehearsal by this shell does not run this text" }
    }
}
