//! What a run still has to do: a stack of frames.
ghost use Rattle.std.specs.Prelude.{◌≡◌, [], IfOk};
ghost use Rattle.hushlang.specs.TreesShown as view;
ghost use Rattle.text.specs.TextsShown.{bytes_of_words};

use hushlang::Script;
use std::alloc::AllocError;
use std::marker::Model;
use std::rc::Rc;

/// What a frame runs.
#[derive(Clone, Copy, Debug, PartialEq, Eq)]
pub enum FrameKind {
    /// The text of a variable.
    Text,
    /// A block of a compound command.
    Block,
    /// The body of a `for`, once for each of its fields.
    For,
    /// The variables that a `run` names.
    Run,
    /// The text of a file, in turn 0 if the command that named it has succeeded.
    File,
}

/// A place in a script.
#[derive(Clone, Copy, Debug, PartialEq, Eq)]
pub struct At {
    /// Which of the script's lists.
    pub list: usize,
    /// Which command of that list.
    pub command: usize,
    /// Which turn of that command.
    pub turn: usize,
    /// The status of the last body of a loop, or 0; and 1 in turn 2 if the command is over.
    pub last: u8,
}

/// A script that is running, and the place in it. The script is shared, not copied.
#[derive(Drop)]
pub struct Frame {
    kind: FrameKind,
    script: Rc<Script>,
    words: Option<Rc<Vec<Vec<u8>>>>,
    at: At,
}

impl Model for Frame {
    ghost use Rattle.bootstore_state.specs.Moment.{RunningFrame, shared_words};
    ghost use Rattle.hushlang.specs.TreesShown as says;
    ghost use Rattle.bootstore_state.specs.Moment.{coded_frame};

    ghost Value = { RunningFrame };

    ghost coded = { coded_frame };

    ghost view = { λ f. record {
      kind = f.kind;
      script = says.script f.script.value;
      words = shared_words f.words;
      place = f.at;
    } };
}

impl Frame {
    /// A frame without words.
    pub fn new(kind: FrameKind, script: Rc<Script>, at: At) -> Self
        ensures kind { result.kind ≡ kind }
        ensures script { result.script ≡ view.script script.value }
        ensures words { result.words ≡ [] }
        ensures place { result.place ≡ at }
    {
        Frame {
            kind,
            script,
            words: None,
            at,
        }
    }

    /// A frame with the fields of its `for`, the names of its `run`, or the name of its file.
    pub fn with_words(kind: FrameKind, script: Rc<Script>, words: Rc<Vec<Vec<u8>>>, at: At) -> Self
        ensures kind { result.kind ≡ kind }
        ensures script { result.script ≡ view.script script.value }
        ensures words { result.words ≡ bytes_of_words words.value.items }
        ensures place { result.place ≡ at }
    {
        Frame {
            kind,
            script,
            words: Some(words),
            at,
        }
    }

    /// What it runs.
    pub fn kind(&self) -> FrameKind
        ensures { result ≡ self.now.kind }
    {
        self.kind
    }

    /// The script that it runs, to be read or shared.
    pub fn script(&self) -> &Rc<Script>
        ensures { view.script result.now.value ≡ self.now.script }
    {
        &self.script
    }

    /// The fields of its `for`, the names of its `run`, or the name of its file.
    pub fn words(&self) -> &[Vec<u8>]
        ensures { bytes_of_words result.now ≡ self.now.words }
    {
        match &self.words {
            Some(words) => words.as_slice(),
            None => &[],
        }
    }

    /// The place that it has reached.
    pub fn at(&self) -> At
        ensures { result ≡ self.now.place }
    {
        self.at
    }

    /// Another frame like it, which shares the script and the words. Sharing them takes no memory.
    /// Errors: a share is refused.
    pub fn copy(&self) -> Result<Frame, AllocError>
        ensures { IfOk result (λ frame. frame ≡ self.now) }
    {
        let words = match &self.words {
            Some(words) => Some(words.clone()?),
            None => None,
        };
        Ok(Frame {
            kind: self.kind,
            script: self.script.clone()?,
            words,
            at: self.at,
        })
    }

    /// Moves it to another place.
    pub(crate) fn move_to(&mut self, at: At)
        ensures { self.new ≡ record self.old { place = at } }
    {
        self.at = at;
    }
}
