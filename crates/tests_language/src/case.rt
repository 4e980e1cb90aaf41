//! What the rows of a paragraph have set.

use crate::{language, lists, store};
use bootstore_copies::Plain;
use bootstore_state::Store;
use bootstore_trail::Trail;
use rehearse_terms::{Bounds, Shell};
use std::alloc::Global;
use tests_rows::{Rows, first_word, number, subject_of, unescaped, words_of};

/// A case: what is set, by which the next rows are answered.
#[derive(Drop)]
pub struct Case {
    /// Where its values are.
    pub alloc: Global,
    /// The variables in the order in which they were set.
    pub variables: Vec<(Vec<u8>, Vec<u8>)>,
    /// The status by which words expand.
    pub(crate) status: u8,
    /// The text of the device list, `load` before a row sets it.
    pub devices: Vec<u8>,
    /// The variable that is rehearsed, `bootcmd` before a row sets it.
    pub name: Vec<u8>,
    /// The text that is rehearsed in place of the variable's, none before a row sets it.
    pub text: Option<Vec<u8>>,
    /// The names that are asked for.
    pub names: Vec<Vec<u8>>,
    /// 16 device commands and 10,000 steps before a row sets them.
    pub bounds: Bounds,
    /// Both stores, which a row changes alike.
    pub(crate) stores: (Plain, Trail),
}

/// What a row speaks of.
#[derive(Clone, Copy)]
enum Subject {
    Setting,
    Variable,
    Bounds,
    Text,
    List,
    Store,
}

/// The first words of rows, by what they speak of. All others set something.
const SUBJECTS: [(&str, Subject); 5] = [
    ("set", Subject::Variable),
    ("bounds shell", Subject::Bounds),
    (
        "tokens tree commands cuts fields sizes test memory",
        Subject::Text,
    ),
    ("list has effect", Subject::List),
    ("start store show", Subject::Store),
];

/// The shell of a name.
fn shell_of(name: &str) -> anyhow::Result<Shell> {
    match name {
        "profile" => Ok(Shell::Profile),
        "old-2023.01" => Ok(Shell::Old2023),
        "old-2025.01" => Ok(Shell::Old2025),
        "modern-2025.01" => Ok(Shell::Modern2025),
        _ => anyhow::bail!("no shell"),
    }
}

/// The bounds of two numbers.
fn bounds_of(devices: u32, steps: u32) -> anyhow::Result<Bounds> {
    match Bounds::new(devices, steps) {
        Some(bounds) => Ok(bounds),
        None => anyhow::bail!("no bounds"),
    }
}

impl Case {
    /// A case in which nothing is set.
    pub fn new(alloc: Global) -> anyhow::Result<Case> {
        Ok(Case {
            alloc,
            variables: Vec::new(alloc),
            status: 0,
            devices: Vec::from_slice(alloc, b"load")?,
            name: Vec::from_slice(alloc, b"bootcmd")?,
            text: None,
            names: Vec::new(alloc),
            bounds: bounds_of(16, 10_000)?,
            stores: (Plain::new(alloc), Trail::new(alloc)),
        })
    }

    /// Sets a variable.
    fn set(&mut self, says: &str) -> anyhow::Result<String> {
        let (name, value) = first_word(says);
        let name = unescaped(self.alloc, name)?;
        self.variables.push((name, unescaped(self.alloc, value)?))?;
        Ok(String::new(self.alloc))
    }

    /// Sets the shell, or the bounds, which are then printed as they were made.
    fn bound(&mut self, word: &str, says: &str) -> anyhow::Result<String> {
        if word == "shell" {
            self.bounds = self.bounds.in_shell(shell_of(says)?);
            return Ok(String::new(self.alloc));
        }
        let (devices, steps) = first_word(says);
        let bounds = bounds_of(number(devices)?, number(steps)?)?.in_shell(self.bounds.shell());
        self.bounds = bounds;
        let (devices, steps) = (bounds.devices(), bounds.steps());
        Ok(format!(in self.alloc; "{devices} device commands, {steps} steps")?)
    }

    /// Sets what another row says.
    fn put(&mut self, word: &str, says: &str) -> anyhow::Result<String> {
        match word {
            "names" => self.names = words_of(self.alloc, says)?,
            "devices" => self.devices = unescaped(self.alloc, says)?,
            "name" => self.name = unescaped(self.alloc, says)?,
            "text" => self.text = Some(unescaped(self.alloc, says)?),
            "status" => self.status = u8::try_from(number(says)?)?,
            _ => anyhow::bail!("no row begins so"),
        }
        Ok(String::new(self.alloc))
    }
}

impl Rows for Case {
    fn forget(&mut self) -> anyhow::Result<()> {
        *self = Case::new(self.alloc)?;
        Ok(())
    }

    fn answer(&mut self, word: &str, says: &str) -> anyhow::Result<String> {
        match subject_of(&SUBJECTS, word, Subject::Setting) {
            Subject::Setting => self.put(word, says),
            Subject::Variable => self.set(says),
            Subject::Bounds => self.bound(word, says),
            Subject::Text => language::told(self, word, says),
            Subject::List => lists::listed(self, word, says),
            Subject::Store => store::told(self, word, says),
        }
    }
}
