//! How a run ends.
ghost use Rattle.std.specs.Prelude.{◌≡◌};
ghost use Rattle.rehearse_rules.specs.Listing.{finish_word};

use device_list::BoardEnd;

/// How a run has ended, with the name that it is about.
#[derive(Debug, Drop)]
pub enum Halt {
    /// Its text ended, by itself or by an `exit`, with this status.
    End(u8),
    /// The bound on device commands forbids the next one.
    CutDevices,
    /// The bound on steps forbids the next one.
    CutSteps,
    /// A command is neither built in nor listed.
    Unknown(Vec<u8>),
    /// The text of a variable is not a script.
    Syntax(Vec<u8>),
    /// What U-Boot's shell makes of the text of a variable is not known.
    Unsupported(Vec<u8>),
    /// By the text of a variable U-Boot's shell gives up: the board resets or hangs.
    Panic(Vec<u8>),
    /// Words expand to too many bytes.
    Size,
    /// A device command succeeded that ends the run so.
    Finished(BoardEnd, Vec<u8>),
}

/// How a run ends, borrowed.
#[derive(Clone, Copy, Debug)]
pub enum Ending<'v> {
    /// Its text ended, by itself or by an `exit`, with this status.
    End(u8),
    /// The bound on device commands forbids the next one.
    CutDevices,
    /// The bound on steps forbids the next one.
    CutSteps,
    /// A command is neither built in nor listed.
    Unknown(&'v [u8]),
    /// The text of a variable is not a script.
    Syntax(&'v [u8]),
    /// What U-Boot's shell makes of the text of a variable is not known.
    Unsupported(&'v [u8]),
    /// By the text of a variable U-Boot's shell gives up: the board resets or hangs.
    Panic(&'v [u8]),
    /// Words expand to too many bytes.
    Size,
    /// A device command succeeded that ends the run so.
    Finished(BoardEnd, &'v [u8]),
}

/// The word with which a listing says that a run ended so, with the space after it.
pub fn finish_word(finish: BoardEnd) -> &'static [u8]
    ensures { result.now ≡ finish_word finish }
{
    match finish {
        BoardEnd::Boots => b"booted ",
        BoardEnd::Restarts => b"restarted ",
        BoardEnd::Halts => b"halted ",
    }
}

impl Halt {
    ghost use Rattle.rehearse_rules.specs.EndingsShown.{ending_shown, halt_shown};

    /// The same, borrowed.
    pub fn ending(&self) -> Ending<'_>
        ensures { ending_shown result ≡ halt_shown self.now }
    {
        match self {
            Halt::End(status) => Ending::End(*status),
            Halt::CutDevices => Ending::CutDevices,
            Halt::CutSteps => Ending::CutSteps,
            Halt::Unknown(name) => Ending::Unknown(name),
            Halt::Syntax(name) => Ending::Syntax(name),
            Halt::Unsupported(name) => Ending::Unsupported(name),
            Halt::Panic(name) => Ending::Panic(name),
            Halt::Size => Ending::Size,
            Halt::Finished(finish, name) => Ending::Finished(*finish, name),
        }
    }
}
