//! What takes a run back to its marked states.
ghost use Rattle.std.specs.Prelude.{◌≡◌, ◌<◌, ◌≤◌, true, reverse, vec_capacity};
ghost use Rattle.bootstore_trail.specs.Inverse.{undone, at_mark, finds_its_place, HasRoom, names_left, local_names_left, CanGoBack, KeepsOnce, frame_reach, up_to_mark, last_left, record_with};
ghost use Rattle.bootstore_state.specs.Record.{gone_back};
ghost use Rattle.bootstore_state.specs.Present.{moment_of};
ghost use Rattle.bootstore_state.specs.Table.{has_slot, AreWithin, AreEqual, last_kept};
ghost use Rattle.bootstore_state.specs.declared.present.Scope.TheVariants.{Environment, Local};

use bootstore_state::{Frame, Place, Present, Scope, cut_text};

/// What is known of the time since the last mark.
#[derive(Clone, Copy)]
pub struct Since {
    /// How many frames, from the outermost on, have stayed as they were.
    pub untouched: usize,
    /// How many things were kept up to the mark, the mark included.
    pub kept: usize,
}

/// What a mark itself keeps of the state that it marks. Changes of it need no inverse.
#[derive(Clone, Copy)]
pub struct Marked {
    /// The status.
    pub status: u8,
    /// The count of steps.
    pub steps: u32,
    /// How many bytes of text were kept.
    pub text: usize,
    /// The length of the log.
    pub log: usize,
    /// The count of frames.
    pub frames: usize,
    /// What was known of the time since the previous mark.
    pub before: Since,
}

/// What takes a change back.
#[derive(Drop)]
pub enum Inverse {
    /// What was at the place of a variable before the change, if it had a place.
    Variable(Scope, Vec<u8>, Option<Place>),
    /// A frame as it was, and how many frames were below it.
    Touched(usize, Frame),
}

/// A mark, or what takes back a change since the previous mark.
#[derive(Drop)]
pub enum Kept {
    /// A state was marked here.
    Mark(Marked),
    /// Something was changed here.
    Change(Inverse),
}

/// Takes back one change. Takes no memory.
pub fn undo(present: &mut Present, inverse: Inverse)
    requires place { finds_its_place (has_slot present.old.environment)
        (has_slot present.old.locals) inverse ≡ true }
    requires room { HasRoom (vec_capacity present.old.frames) inverse }
    ensures undone { moment_of present.new ≡ undone inverse (moment_of present.old) }
    ensures kept { AreEqual (last_left Environment inverse (last_kept present.old.environment))
        (last_kept present.new.environment) }
    ensures kept_locals { AreEqual (last_left Local inverse (last_kept present.old.locals))
        (last_kept present.new.locals) }
    ensures environment { AreWithin (names_left inverse (has_slot present.old.environment))
        (has_slot present.new.environment) }
    ensures locals { AreWithin (local_names_left inverse (has_slot present.old.locals))
        (has_slot present.new.locals) }
    ensures capacity { vec_capacity present.old.frames ≤ vec_capacity present.new.frames }
{
    match inverse {
        Inverse::Variable(Scope::Environment, name, before) => {
            present.environment.restore(&name, before);
        }
        Inverse::Variable(Scope::Local, name, before) => present.locals.restore(&name, before),
        Inverse::Touched(below, frame) => {
            present.frames.truncate(below);
            present.frames.push_reserved(frame);
        }
    }
}

/// Gives a state what a mark itself keeps. Takes no memory.
pub fn return_to(present: &mut Present, marked: Marked)
    ensures marked { moment_of present.new ≡ at_mark marked (moment_of present.old) }
    ensures environment { present.new.environment ≡ present.old.environment }
    ensures locals { present.new.locals ≡ present.old.locals }
    ensures capacity { vec_capacity present.new.frames ≡ vec_capacity present.old.frames }
{
    present.status = marked.status;
    present.steps = marked.steps;
    cut_text(&mut present.text, marked.text);
    present.log.truncate(marked.log);
    present.frames.truncate(marked.frames);
}

/// Takes back the changes since the last mark, and removes the mark. Returns what is known of the
/// time since the previous mark.
pub fn undo_to_mark(present: &mut Present, kept: &mut Vec<Kept>) -> Since
    requires can { CanGoBack present.old (frame_reach (reverse kept.old.items))
        (reverse kept.old.items) }
    requires once { KeepsOnce present.old (up_to_mark (reverse kept.old.items))
        (reverse kept.old.items) }
    ensures back { record_with present.new (reverse kept.new.items) 0
        ≡ gone_back (record_with present.old (reverse kept.old.items) 0) }
    ensures can { CanGoBack present.new result.untouched (reverse kept.new.items) }
    ensures once { KeepsOnce present.new result.kept (reverse kept.new.items) }
{
    while let Some(last) = kept.pop() {
        match last {
            Kept::Mark(marked) => {
                return_to(present, marked);
                return marked.before;
            }
            Kept::Change(inverse) => undo(present, inverse),
        }
    }
    Since {
        untouched: 0,
        kept: 0,
    }
}
