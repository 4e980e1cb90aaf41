//! The part of a compound command that a text is in.
ghost use Rattle.std.specs.Prelude.{◌≡◌};
ghost use Rattle.hushlang_uboot.specs.Nests as says;

/// The part of the innermost compound command that a text is in.
#[derive(Clone, Copy)]
pub enum Part {
    /// None: no compound command is open.
    Outside,
    /// `if`, in a condition, and whether it has other arms before that.
    Condition(bool),
    /// `if`, in the block after a condition, and whether it has other arms before that.
    Arm(bool),
    /// `if`, in the `else` block.
    Else,
    /// `while` or `until`, in its condition.
    Test,
    /// `while` or `until`, in its body.
    Body,
    /// `for`, before its name.
    Name,
    /// `for`, before `in`.
    In,
    /// `for`, in its words.
    Words,
    /// `for`, before `do`.
    Do,
    /// `for`, in its body.
    Each,
    /// A group: the block of an `if` whose condition holds without a command, or what is in braces.
    Group(bool),
}

/// Whether a part is of a `for` before its body.
pub fn is_header(part: Part) -> bool
    ensures { result ≡ says.is_header part }
{
    match part {
        Part::Name | Part::In | Part::Words | Part::Do => true,
        _ => false,
    }
}
