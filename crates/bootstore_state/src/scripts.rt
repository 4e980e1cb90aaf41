//! The scripts of texts, of variables and of files. A text that was read is not read again while its script is kept.
ghost use Rattle.std.specs.Prelude.{◌≡◌, ◌+◌, ◌≤◌, true, Some, IfOk, option_map};
ghost use Rattle.std.specs.FinMap.{get};
ghost use Rattle.hushlang.specs.TreesShown as view;
ghost use Rattle.hushlang_shells.specs.TextsShown as shown;
ghost use Rattle.hushlang_shells.specs.TreesByShell as read;
ghost use Rattle.bootstore_state.specs.Scripts.{AreOfTexts, most_kept, one_proof, read_as, text_found};
ghost use Rattle.bootstore_state.specs.Table.{variables_of};

use crate::store::StoreError;
use crate::table::Table;
use hushlang::Script;
use hushlang_shells::{TextRead, read_sourced, read_started};
use rehearse_terms::Shell;
use std::alloc::{AllocError, Global};
use std::collections::BTreeMap;
use std::rc::Rc;

/// The most bytes of texts whose scripts are kept at one time.
const KEPT_MAX: usize = 262_144;

/// What becomes of the text of a variable that `run` starts, or of a file that `source` runs.
#[derive(Drop)]
pub enum TextFound {
    /// The variable is not set.
    Unset,
    /// The script of the text is run.
    Script(Rc<Script>),
    /// The shell reports a fault: nothing of the text is run, and the status is 1.
    Fails,
    /// The shell gives up: the board resets or hangs.
    Panics,
    /// It is no script of ubtool's own grammar; or what U-Boot's shell does with it is not followed.
    Unread,
}

/// Which command runs a text. The old shell reads a file that `source` runs by other rules.
#[derive(Clone, Copy)]
pub enum Runner {
    /// `run` starts the text of a variable.
    Run,
    /// `source` runs the text of a file.
    Source,
}

/// Scripts by their texts, all read for one command and by the rules of one shell.
#[derive(Drop)]
struct TextScripts {
    alloc: Global,
    runner: Runner,
    shell: Shell,
    kept: BTreeMap<Vec<u8>, Rc<Script>>,
    bytes: usize,
    ghost texts: { AreOfTexts runner shell kept.entries } by { one_proof runner shell kept.entries },
    ghost bound: { bytes ≤ most_kept },
}

/// The scripts of the texts of variables, and those of the texts of files.
#[derive(Drop)]
pub struct Scripts {
    of_variables: TextScripts,
    of_files: TextScripts,
}

/// What becomes of a text. Errors: memory ran out.
fn read_text(
    alloc: Global,
    runner: Runner,
    shell: Shell,
    text: &[u8],
) -> Result<TextRead, AllocError>
    ensures { IfOk result (λ found. shown.text_read found ≡ read_as runner shell text.now) }
{
    match runner {
        Runner::Run => read_started(alloc, shell, text),
        Runner::Source => read_sourced(alloc, shell, text),
    }
}

/// Whether two commands are the same.
fn is_same_runner(left: Runner, right: Runner) -> bool
    ensures { result ≡ true → left ≡ right }
{
    match (left, right) {
        (Runner::Run, Runner::Run) => true,
        (Runner::Source, Runner::Source) => true,
        _ => false,
    }
}

/// Whether two shells are the same.
fn is_same(left: Shell, right: Shell) -> bool
    ensures { result ≡ true → left ≡ right }
{
    match (left, right) {
        (Shell::Profile, Shell::Profile) => true,
        (Shell::Old2023, Shell::Old2023) => true,
        (Shell::Old2025, Shell::Old2025) => true,
        (Shell::Modern2025, Shell::Modern2025) => true,
        _ => false,
    }
}

impl TextScripts {
    /// No script is kept. Takes no memory.
    fn new(alloc: Global, runner: Runner) -> TextScripts {
        TextScripts {
            alloc,
            runner,
            shell: Shell::Profile,
            kept: BTreeMap::new(alloc),
            bytes: 0,
        }
    }

    /// Makes room for a text of this length: lets all scripts go if there is none.
    fn make_room(&mut self, length: usize)
        requires { length ≤ most_kept }
        ensures room { self.new.bytes + length ≤ most_kept }
        ensures runner { self.new.runner ≡ self.old.runner }
        ensures shell { self.new.shell ≡ self.old.shell }
    {
        if length > KEPT_MAX - self.bytes {
            self.kept.clear();
            self.bytes = 0;
        }
    }

    /// Keeps the script of a text, unless the text alone is too long. Errors: `Memory`.
    fn keep(&mut self, text: &[u8], script: &Rc<Script>) -> Result<(), StoreError>
        requires { read_as self.old.runner self.old.shell text.now ≡ read.Runs (view.script script.now.value) }
    {
        if text.len() > KEPT_MAX {
            return Ok(());
        }
        self.make_room(text.len());
        let key = Vec::from_slice(self.alloc, text)?;
        self.kept.insert(key, script.clone()?)?;
        self.bytes += text.len();
        Ok(())
    }

    /// Keeps scripts for this command and of this shell alone: lets all go if they are others.
    fn take_rules(&mut self, runner: Runner, shell: Shell)
        ensures runner { self.new.runner ≡ runner }
        ensures shell { self.new.shell ≡ shell }
    {
        if !is_same_runner(self.runner, runner) || !is_same(self.shell, shell) {
            self.kept.clear();
            self.bytes = 0;
            self.runner = runner;
            self.shell = shell;
        }
    }

    /// A script that was read, which is kept. Errors: `Memory`.
    fn script_read(&mut self, text: &[u8], script: Script) -> Result<TextFound, StoreError>
        requires { read_as self.old.runner self.old.shell text.now ≡ read.Runs (view.script script) }
        ensures { IfOk result (λ found. text_found found ≡ Some (read.Runs (view.script script))) }
    {
        let script = Rc::new(self.alloc, script)?;
        self.keep(text, &script)?;
        Ok(TextFound::Script(script))
    }

    /// What becomes of a text. It is read only if its script is not kept. Errors: `Memory`.
    fn read(&mut self, text: &[u8]) -> Result<TextFound, StoreError>
        ensures { IfOk result (λ found. text_found found ≡ Some (read_as self.old.runner self.old.shell text.now)) }
    {
        if let Some(script) = self.kept.get(text) {
            return Ok(TextFound::Script(script.clone()?));
        }
        match read_text(self.alloc, self.runner, self.shell, text)? {
            TextRead::Runs(script) => self.script_read(text, script),
            TextRead::Fails => Ok(TextFound::Fails),
            TextRead::Panics => Ok(TextFound::Panics),
            TextRead::Unread => Ok(TextFound::Unread),
        }
    }

    /// What becomes of a text by these rules. Errors: `Memory`.
    fn read_by(
        &mut self,
        runner: Runner,
        shell: Shell,
        text: &[u8],
    ) -> Result<TextFound, StoreError>
        ensures { IfOk result (λ found. text_found found ≡ Some (read_as runner shell text.now)) }
    {
        self.take_rules(runner, shell);
        self.read(text)
    }
}

impl Scripts {
    /// No script is kept. Takes no memory.
    pub fn new(alloc: Global) -> Scripts {
        Scripts {
            of_variables: TextScripts::new(alloc, Runner::Run),
            of_files: TextScripts::new(alloc, Runner::Source),
        }
    }

    /// What becomes of the text of a variable that `run` starts in this shell. Errors: `Memory`.
    pub fn text_of(
        &mut self,
        shell: Shell,
        variables: &Table,
        name: &[u8],
    ) -> Result<TextFound, StoreError>
        ensures { IfOk result (λ found. text_found found
            ≡ option_map (read.started_in shell) (get (variables_of variables.now) name.now)) }
    {
        match variables.get(name) {
            Some(text) => self.of_variables.read_by(Runner::Run, shell, text),
            None => Ok(TextFound::Unset),
        }
    }

    /// What becomes of the text of a file that `source` runs in this shell. Errors: `Memory`.
    pub fn file_text(&mut self, shell: Shell, text: &[u8]) -> Result<TextFound, StoreError>
        ensures { IfOk result (λ found. text_found found ≡ Some (read.sourced_in shell text.now)) }
    {
        self.of_files.read_by(Runner::Source, shell, text)
    }
}
