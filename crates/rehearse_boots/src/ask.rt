//! What is asked of boots, and what each of them starts with.
ghost use Rattle.std.specs.Prelude.{List, Result};
ghost use Rattle.envimage.specs.Data.{Pair};
ghost use Rattle.board_start.specs.Boards.{Fault};
ghost use Rattle.rehearse_boots.specs.Boots.{StartOf};
ghost use Rattle.rehearse_boots.specs.BootsShown.{Starts};

use board_start::BoardError;
use device_list::Devices;
use envtools::Env;
use rehearse_terms::RunBounds;

/// What a boot starts with.
#[derive(Drop)]
pub struct Started {
    /// The environment.
    pub env: Env,
    /// The device commands. A call that saves sets copies of the variables that are kept.
    pub devices: Devices,
    /// The text that is rehearsed in place of the variable's, if there is one.
    pub text: Option<Vec<u8>>,
    /// Whether this environment is saved before the run.
    pub saves: bool,
}

/// A board, whose boots are rehearsed.
pub trait Board {
    /// What a boot starts with, by the environment that it finds saved, or why it does not start.
    ghost start_of: { Self → StartOf };

    /// What a boot starts with that finds this environment saved. Errors: those of `Board::parse` and of
    /// `Start::begin`.
    fn start(&self, env: Env) -> Result<Started, BoardError>
        ensures { Starts (start_of self.now env) result };
}

/// An ending to which each boot is expected to lead, by boots in which nothing fails.
#[derive(Clone, Copy)]
pub struct Expected<'a> {
    /// The words with which its line starts.
    pub ending: &'a [u8],
    /// The values that it leaves of variables; an empty one of a variable that is not set.
    pub values: &'a [(&'a [u8], &'a [u8])],
    /// How many boots may lead to it; without a number, any may.
    pub within: Option<usize>,
}

/// What is asked of the boots of a board.
#[derive(Clone, Copy)]
pub struct BootsAsk<'a> {
    /// The variable whose text each boot runs, or what a given text is called.
    pub name: &'a [u8],
    /// The bounds of its runs.
    pub bounds: RunBounds,
    /// How many states may be searched in a boot.
    pub states: u32,
    /// How many steps may be begun in a boot.
    pub work: u32,
    /// How many bytes the states of a boot may count that are kept, together.
    pub memory: u64,
    /// How many boots there may be.
    pub boots: u32,
    /// How many failures an ending may take that is followed; without a number, any may.
    pub failures: Option<u32>,
    /// The variables whose values distinguish the runs of a boot, in this order.
    pub names: &'a [&'a [u8]],
    /// The variables that are kept from one boot to the next. Any other is at the start of each boot as at that
    /// of the first.
    pub kept: &'a [&'a [u8]],
    /// How many bytes an image has for the variables that are saved, with the byte that ends them; without a number, any
    /// environment can be saved.
    pub room: Option<usize>,
    /// A script of the changes that the system may make after an ending that boots, as `apply_script` reads it.
    pub changes: Option<&'a [u8]>,
    /// The ending to which each boot is expected to lead, if this is asked.
    pub expected: Option<Expected<'a>>,
}
