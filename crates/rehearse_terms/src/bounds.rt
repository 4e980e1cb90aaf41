//! The bounds of a rehearsal.
ghost use Rattle.std.specs.Prelude.{◌≡◌};
ghost use Rattle.rehearse_terms.specs.Bounds.{are_few};

use crate::run_bounds::{RUN_DEVICES_MAX, RunBounds};
use crate::shell::Shell;
use std::marker::Model;

/// The greatest device bound.
pub const DEVICES_MAX: u32 = 32;

/// The greatest step bound.
pub const STEPS_MAX: u32 = 1_000_000;

/// The greatest bound of failures with which the device bound may be greater.
pub const FEW_FAILURES: u32 = 3;

/// Whether the device bound may be greater with this bound of failures.
fn are_few(failures: Option<u32>) -> bool
    ensures { result ≡ are_few failures }
{
    match failures {
        None => false,
        Some(most) => most <= FEW_FAILURES,
    }
}

/// How many device commands each run of a listing may ask, how many steps it may begin, and how many of its device
/// commands may fail; without such a number, any number may. By the rules of which shell they run, and how many bytes there
/// are for what they save.
#[derive(Clone, Copy, Debug)]
pub struct Bounds {
    devices: u32,
    steps: u32,
    failures: Option<u32>,
    shell: Shell,
    room: Option<usize>,
}

impl Model for Bounds {
    ghost use Rattle.std.specs.Prelude.{◌≡◌, true};
    ghost use Rattle.rehearse_terms.specs.Bounds.{BoundsShown, are_bounds};

    ghost Value = { BoundsShown };

    ghost view = { λ b. record { devices = b.devices; steps = b.steps; failures = b.failures; shell = b.shell; room = b.room } };

    ghost invariant = { λ b. are_bounds b.devices b.steps b.failures ≡ true };

    ghost inverse = { λ b. record { devices = b.devices; steps = b.steps; failures = b.failures; shell = b.shell; room = b.room } };
}

impl Bounds {
    ghost use Rattle.std.specs.Prelude.{true, None, Some};
    ghost use Rattle.rehearse_terms.specs.Bounds.{bounds_of, are_bounds, in_shell};

    /// These bounds, in ubtool's own shell, with which any number of device commands may fail. None if there are more than 32 device
    /// commands or 1,000,000 steps. It takes no memory.
    pub fn new(devices: u32, steps: u32) -> Option<Self>
        ensures { result ≡ bounds_of devices steps None }
    {
        Bounds::with_failures(devices, steps, None)
    }

    /// These bounds, in ubtool's own shell. None if there are more than 1,000,000 steps, or more than 32 device commands: 1,000 if at most 3
    /// of them may fail. It takes no memory.
    pub fn with_failures(devices: u32, steps: u32, failures: Option<u32>) -> Option<Self>
        ensures { result ≡ bounds_of devices steps failures }
    {
        let fit = devices <= DEVICES_MAX || are_few(failures) && devices <= RUN_DEVICES_MAX;
        if fit && steps <= STEPS_MAX {
            Some(Bounds {
                devices,
                steps,
                failures,
                shell: Shell::Profile,
                room: None,
            })
        } else {
            None
        }
    }

    /// How many device commands a run may ask.
    pub fn devices(&self) -> u32
        ensures devices { result ≡ self.now.devices }
        ensures within { are_bounds self.now.devices self.now.steps self.now.failures ≡ true }
    {
        self.devices
    }

    /// How many steps a run may begin.
    pub fn steps(&self) -> u32
        ensures steps { result ≡ self.now.steps }
        ensures within { are_bounds self.now.devices self.now.steps self.now.failures ≡ true }
    {
        self.steps
    }

    /// How many of its device commands may fail.
    pub fn failures(&self) -> Option<u32>
        ensures { result ≡ self.now.failures }
    {
        self.failures
    }

    /// By the rules of which shell a run goes.
    pub fn shell(&self) -> Shell
        ensures { result ≡ self.now.shell }
    {
        self.shell
    }

    /// The same bounds, in a shell.
    pub fn in_shell(self, shell: Shell) -> Self
        ensures { result ≡ in_shell shell self }
    {
        Bounds {
            devices: self.devices,
            steps: self.steps,
            failures: self.failures,
            shell,
            room: self.room,
        }
    }

    /// The same, as the bounds of a run.
    pub fn of_run(self) -> RunBounds
        ensures { result ≡ self }
    {
        RunBounds::of(
            self.devices,
            self.steps,
            self.failures,
            self.shell,
            self.room,
        )
    }
}
