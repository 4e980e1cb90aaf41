//! How far a run may go.
ghost use Rattle.std.specs.Prelude.{◌≡◌};

use crate::bounds::STEPS_MAX;
use crate::shell::Shell;
use std::marker::Model;

/// The greatest device bound of a run, if runs are not listed, or if few device commands may fail.
pub const RUN_DEVICES_MAX: u32 = 1_000;

/// How many device commands a run may ask, and how many steps it may begin. The `Bounds` of a listing are narrower. How
/// many device commands may fail is kept of them for the listing, and changes nothing of a run. The shell is the one by whose
/// rules the run goes. A call that saves fails if the variables that it copies take more bytes than there is room for.
#[derive(Clone, Copy, Debug)]
pub struct RunBounds {
    devices: u32,
    steps: u32,
    failures: Option<u32>,
    shell: Shell,
    room: Option<usize>,
}

impl Model for RunBounds {
    ghost use Rattle.std.specs.Prelude.{◌≡◌, true};
    ghost use Rattle.rehearse_terms.specs.Bounds.{BoundsShown, are_run_bounds};

    ghost Value = { BoundsShown };

    ghost view = { λ b. record { devices = b.devices; steps = b.steps; failures = b.failures; shell = b.shell; room = b.room } };

    ghost invariant = { λ b. are_run_bounds b.devices b.steps ≡ true };

    ghost inverse = { λ b. record { devices = b.devices; steps = b.steps; failures = b.failures; shell = b.shell; room = b.room } };
}

impl RunBounds {
    ghost use Rattle.std.specs.Prelude.{true};
    ghost use Rattle.rehearse_terms.specs.Bounds.{run_bounds_of, are_run_bounds, in_shell, with_room};

    /// These bounds, in ubtool's own shell, or `None` if they have more than 1,000 device commands or 1,000,000 steps.
    /// Takes no memory.
    pub fn new(devices: u32, steps: u32) -> Option<Self>
        ensures { result ≡ run_bounds_of devices steps }
    {
        if devices <= RUN_DEVICES_MAX && steps <= STEPS_MAX {
            Some(RunBounds {
                devices,
                steps,
                failures: None,
                shell: Shell::Profile,
                room: None,
            })
        } else {
            None
        }
    }

    /// These bounds, which are not above the greatest ones.
    pub(crate) fn of(
        devices: u32,
        steps: u32,
        failures: Option<u32>,
        shell: Shell,
        room: Option<usize>,
    ) -> Self
        requires { are_run_bounds devices steps ≡ true }
        ensures { result ≡ record { devices = devices; steps = steps; failures = failures; shell = shell; room = room } }
    {
        RunBounds {
            devices,
            steps,
            failures,
            shell,
            room,
        }
    }

    /// How many device commands a run may ask.
    pub fn devices(&self) -> u32
        ensures devices { result ≡ self.now.devices }
        ensures within { are_run_bounds self.now.devices self.now.steps ≡ true }
    {
        self.devices
    }

    /// How many steps a run may begin.
    pub fn steps(&self) -> u32
        ensures steps { result ≡ self.now.steps }
        ensures within { are_run_bounds self.now.devices self.now.steps ≡ true }
    {
        self.steps
    }

    /// How many device commands may fail in a run that is listed.
    pub fn failures(&self) -> Option<u32>
        ensures { result ≡ self.now.failures }
    {
        self.failures
    }

    /// By the rules of which shell a run goes.
    pub fn shell(&self) -> Shell
        ensures { result ≡ self.now.shell }
    {
        self.shell
    }

    /// The same bounds, in a shell.
    pub fn in_shell(self, shell: Shell) -> Self
        ensures { result ≡ in_shell shell self }
    {
        RunBounds {
            devices: self.devices,
            steps: self.steps,
            failures: self.failures,
            shell,
            room: self.room,
        }
    }

    /// How many bytes there are for the variables that a run saves; `None` if there is room for all.
    pub fn room(&self) -> Option<usize>
        ensures { result ≡ self.now.room }
    {
        self.room
    }

    /// The same bounds, with so many bytes for the variables that a run saves.
    pub fn with_room(self, room: Option<usize>) -> Self
        ensures { result ≡ with_room room self }
    {
        RunBounds {
            devices: self.devices,
            steps: self.steps,
            failures: self.failures,
            shell: self.shell,
            room,
        }
    }
}
