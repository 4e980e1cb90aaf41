//! The variables and files that wait for their turns.
ghost use Rattle.std.specs.Prelude.{◌≡◌, ◌++◌, ◌^◌, ◌<◌, IfOk, OnOk, true, map};
ghost use Rattle.hushcheck.specs.CallSetsShown.{names_shown};
ghost use Rattle.hushcheck.specs.Names.{run_by_found};
ghost use Rattle.hushcheck.specs.Order.{name_of, once, with_names};
ghost use Rattle.hushcheck.specs.Queue as spec;

use crate::names::{Names, asked_names};
use crate::walk::add_script;
use hushlang::Script;
use keyed_hash::KeyedHash;
use std::alloc::{AllocError, Global};
use std::marker::Model;

/// What has its turn.
#[derive(Clone, Copy)]
pub(crate) enum Turn<'a> {
    /// A variable.
    Variable(&'a [u8]),
    /// A file that the device list names.
    File(&'a [u8]),
}

impl<'a> Turn<'a> {
    /// The name under which it is reported.
    pub(crate) fn name(self) -> &'a [u8]
        ensures { result.now ≡ name_of (spec.turn_shown self.entry) }
    {
        match self {
            Turn::Variable(name) => name,
            Turn::File(name) => name,
        }
    }
}

/// The variables and the files that are reached so far, each once, and how many of them had their turns.
#[derive(Drop)]
pub(crate) struct Queue {
    variables: Names,
    at: usize,
    files: Names,
    file_at: usize,
}

impl Model for Queue {
    ghost use Rattle.hushcheck.specs.Queue as spec;

    ghost Value = { spec.Queue };

    ghost view = { λ q. record {
      variables = q.variables;
      at = q.at;
      files = q.files;
      file_at = q.file_at;
    } };
}

impl Queue {
    /// Before the first turn.
    fn new(variables: Names, files: Names) -> Queue
        ensures { result ≡ spec.first_queue variables files }
    {
        Queue {
            variables,
            at: 0,
            files,
            file_at: 0,
        }
    }

    /// Whether a variable is left.
    fn has_variable(&self) -> bool
        ensures left { result ≡ spec.has_variable self.now }
        ensures small { result ≡ true → (self.now).at < 2 ^ 63 }
    {
        self.at < self.variables.len()
    }

    /// Whether a file is left.
    fn has_file(&self) -> bool
        ensures left { result ≡ spec.has_file self.now }
        ensures small { result ≡ true → (self.now).file_at < 2 ^ 63 }
    {
        self.file_at < self.files.len()
    }

    /// Whether something is left.
    pub(crate) fn has_turn(&self) -> bool
        ensures { result ≡ spec.has_turn self.now }
    {
        self.has_variable() || self.has_file()
    }

    /// What has its turn next: a variable, or a file if no variable is left.
    pub(crate) fn turn(&self) -> Turn<'_>
        requires { spec.has_turn self.now ≡ true }
        ensures { spec.turn_shown result ≡ spec.next_turn self.now }
    {
        if self.has_variable() {
            Turn::Variable(self.variables.name_at(self.at))
        } else {
            Turn::File(self.files.name_at(self.file_at))
        }
    }

    /// It had its turn.
    fn pass(&mut self)
        requires { spec.has_turn self.old ≡ true }
        ensures { self.new ≡ spec.passed self.old }
    {
        if self.has_variable() {
            self.at += 1;
        } else if self.has_file() {
            self.file_at += 1;
        }
    }

    /// It had its turn: its text is this script, if it is one, after whose calls these files run. Adds what it
    /// runs. Errors: memory ran out.
    pub(crate) fn pass_text(
        &mut self,
        alloc: Global,
        script: Option<Script>,
        files: &[Vec<u8>],
    ) -> Result<(), AllocError>
        requires { spec.has_turn self.old ≡ true }
        ensures { OnOk result (self.new ≡ spec.with_reached (spec.passed self.old)
            (run_by_found script) (names_shown files.now)) }
    {
        self.pass();
        add_found(alloc, script, &mut self.variables)?;
        self.files.add_all(alloc, files)
    }
}

/// Adds the names that a script runs, if one was found.
fn add_found(alloc: Global, script: Option<Script>, names: &mut Names) -> Result<(), AllocError>
    ensures { OnOk result (names.new ≡ with_names names.old (run_by_found script)) }
{
    match script {
        Some(script) => add_script(alloc, &script, names),
        None => Ok(()),
    }
}

/// The names that are asked for, and then those that a script runs, if there is one; each once, found by this hash.
fn names_behind(
    alloc: Global,
    asked: &[&[u8]],
    script: Option<Script>,
    hasher: KeyedHash,
) -> Result<Names, AllocError>
    ensures { IfOk result (λ names. names
        ≡ once (map (λ name. name.now) asked.now ++ run_by_found script)) }
{
    let mut names = asked_names(alloc, asked, hasher)?;
    add_found(alloc, script, &mut names)?;
    Ok(names)
}

/// These files, each once, found by this hash.
fn files_called(alloc: Global, called: &[Vec<u8>], hasher: KeyedHash) -> Result<Names, AllocError>
    ensures { IfOk result (λ files. files ≡ once (names_shown called.now)) }
{
    let mut files = Names::new(alloc, hasher);
    files.add_all(alloc, called)?;
    Ok(files)
}

/// The names that are asked for, and then those that a script runs, if there is one; and the files whose texts
/// run after its calls. They are found by this hash. Errors: memory ran out.
pub(crate) fn queue_behind(
    alloc: Global,
    asked: &[&[u8]],
    script: Option<Script>,
    called: &[Vec<u8>],
    hasher: KeyedHash,
) -> Result<Queue, AllocError>
    ensures { IfOk result (λ queue. queue ≡ spec.first_queue
        (once (map (λ name. name.now) asked.now ++ run_by_found script)) (once (names_shown called.now))) }
{
    let variables = names_behind(alloc, asked, script, hasher)?;
    let files = files_called(alloc, called, hasher)?;
    Ok(Queue::new(variables, files))
}
