//! What the lines of a device list say of a command.

use crate::finish::BoardEnd;
use crate::setting::Setting;

/// What a device command does on success, and whether its answers stay.
#[derive(Clone, Copy, Debug)]
pub struct Effect<'a> {
    /// How it ends the run, if it ends it.
    pub ends: Option<BoardEnd>,
    /// Whether it answers as before if it is asked again with the same words in one run.
    pub stays: bool,
    /// The only answer that it has, if it has one: whether it succeeds.
    pub always: Option<bool>,
    /// How the words of a call begin, its name first, that has to succeed before: none, if it needs no
    /// call.
    pub needs: &'a [Vec<u8>],
    /// Whether a failure is what is expected of it.
    pub normal: bool,
    /// The files of which the text of one runs on success, if there are any. Which one is a choice.
    pub runs: &'a [Vec<u8>],
    /// What it sets in the environment, in order.
    pub sets: &'a [Setting],
}

/// What a device command of the list does on success, and whether its answers stay.
#[derive(Drop)]
pub(crate) struct Listed {
    pub(crate) ends: Option<BoardEnd>,
    pub(crate) stays: bool,
    pub(crate) always: Option<bool>,
    pub(crate) needs: Vec<Vec<u8>>,
    pub(crate) normal: bool,
    pub(crate) runs: Vec<Vec<u8>>,
    pub(crate) sets: Vec<Setting>,
}

impl Listed {
    ghost use Rattle.std.specs.Prelude.{◌≡◌};
    ghost use Rattle.device_list.specs.CommandsShown.{lent_effect, listed_shown};

    /// The same, borrowed.
    pub(crate) fn effect(&self) -> Effect<'_>
        ensures { lent_effect result ≡ listed_shown self.now }
    {
        Effect {
            ends: self.ends,
            stays: self.stays,
            always: self.always,
            needs: &self.needs,
            normal: self.normal,
            runs: &self.runs,
            sets: &self.sets,
        }
    }
}

impl Effect<'_> {
    ghost use Rattle.std.specs.Prelude.{◌≡◌};
    ghost use Rattle.device_list.specs.DeviceList.{steady_effect_if};
    ghost use Rattle.device_list.specs.CommandsShown.{lent_effect};

    /// The same, of a command that is steady, if it is one.
    pub(crate) fn steady_if(self, steady: bool) -> Self
        ensures { lent_effect result ≡ steady_effect_if steady (lent_effect self.entry) }
    {
        if !steady {
            return self;
        }
        let stays = self.always.is_none();
        Effect { stays, ..self }
    }
}
