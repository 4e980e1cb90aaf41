//! The clauses of a list's lines of calls.
ghost use Rattle.std.specs.Prelude.{◌≡◌, not, true, map, option_map, IfOk, OnOk};
ghost use Rattle.std.specs.List.{list_any};
ghost use Rattle.device_list.specs.CallLines.{answer_of, clauses_of, has_answer, is_decided, is_saving, effect_said, is_clause_word, imported_file, is_plain, has_special, may_end, no_clause, once, with_clause, with_file, with_first_word, with_import, with_name, with_needed, with_new, with_saving};
ghost use Rattle.device_list.specs.DevicesShown.{settings_shown};
ghost use Rattle.device_list.specs.CommandsShown.{clauses_shown, files_shown, listed_shown, text_shown, IsTaken};

use crate::call_line::{has_star, is_colon};
use crate::device_line::has_equals;
use crate::device_tables::FileTexts;
use crate::file_text::FileText;
use crate::finish::{BoardEnd, finish_named};
use crate::imports::imported;
use crate::listed::Listed;
use crate::quotes::has_quote;
use crate::saving::are_saving;
use crate::setting::{LeftSide, RightSide, Setting, call_setting};
use builtins::is_built_in;
use std::alloc::{AllocError, Global};

/// What the next word may be.
#[derive(Clone, Copy)]
pub(crate) enum Awaited {
    /// A clause.
    Clause,
    /// The `0` or the `1` after `always`.
    Status,
    /// The name after `needs`.
    Name,
    /// The word after that name, if it is no clause.
    FirstWord,
    /// The `1` after `normal`.
    Expected,
    /// The name of a file after `runs`.
    File,
    /// The name of a file after `imports`.
    Import,
}

/// The clauses so far.
#[derive(Drop)]
pub(crate) struct Clauses {
    ends: Option<BoardEnd>,
    stays: bool,
    always: Option<bool>,
    needs: Vec<Vec<u8>>,
    normal: bool,
    runs: Vec<Vec<u8>>,
    sets: Vec<Setting>,
    awaited: Awaited,
}

/// Whether no further word has to follow.
fn may_end(awaited: Awaited) -> bool
    ensures { result ≡ may_end awaited }
{
    match awaited {
        Awaited::Clause | Awaited::FirstWord => true,
        Awaited::Status | Awaited::Name | Awaited::Expected | Awaited::File | Awaited::Import =>
            false,
    }
}

/// Whether a word is one of clauses.
fn is_clause_word(word: &[u8]) -> bool
    ensures { result ≡ is_clause_word word.now }
{
    finish_named(word).is_some()
        || word == b"steady".as_slice()
        || word == b"always".as_slice()
        || word == b"needs".as_slice()
        || word == b"normal".as_slice()
        || word == b"runs".as_slice()
        || word == b"imports".as_slice()
        || word == b"saves".as_slice()
}

/// Whether a word has a byte that no word after `needs` has.
fn has_special(word: &[u8]) -> bool
    ensures { result ≡ has_special word.now }
{
    has_star(word) || has_quote(word) || has_equals(word)
}

/// Whether a word may be after `needs`.
fn is_plain(word: &[u8]) -> bool
    ensures { result ≡ is_plain word.now }
{
    !is_clause_word(word) && !is_colon(word) && !has_special(word)
}

/// The answer that a status means: whether the call succeeds.
fn answer_of(word: &[u8]) -> Option<bool>
    ensures { result ≡ answer_of word.now }
{
    if word == b"0".as_slice() {
        Some(true)
    } else if word == b"1".as_slice() {
        Some(false)
    } else {
        None
    }
}

/// Sets what may be set once. Returns whether it was not set before.
fn set_once(flag: &mut bool) -> bool
    ensures { (result ≡ not flag.old) × (flag.new ≡ true) }
{
    let before = *flag;
    *flag = true;
    !before
}

/// What a file that is imported sets, if it may be imported. Errors: memory ran out.
fn imported_file(alloc: Global, file: &FileText) -> Result<Option<Vec<Setting>>, AllocError>
    ensures { IfOk result (λ sets. option_map settings_shown sets ≡ imported_file (text_shown file.now)) }
{
    if file.text.len() as u64 != file.size {
        return Ok(None);
    }
    imported(alloc, &file.text)
}

impl Clauses {
    /// No clause. Takes no memory.
    fn new(alloc: Global) -> Self
        ensures { clauses_shown result ≡ no_clause }
    {
        Clauses {
            ends: None,
            stays: false,
            always: None,
            needs: Vec::new(alloc),
            normal: false,
            runs: Vec::new(alloc),
            sets: Vec::new(alloc),
            awaited: Awaited::Clause,
        }
    }

    /// Takes one more word. Returns whether it is a clause, or a part of one.
    fn add(&mut self, alloc: Global, files: &FileTexts, word: &[u8]) -> Result<bool, AllocError>
        ensures { IfOk result (IsTaken (with_clause (files_shown files.now.entries) (clauses_shown self.old) word.now) (clauses_shown self.new)) }
    {
        match self.awaited {
            Awaited::Clause => self.add_new(alloc, files, word),
            Awaited::Status => {
                self.awaited = Awaited::Clause;
                self.always = answer_of(word);
                Ok(self.always.is_some())
            }
            Awaited::Name => self.add_name(alloc, word),
            Awaited::FirstWord => self.add_first_word(alloc, files, word),
            Awaited::Expected => {
                self.awaited = Awaited::Clause;
                self.normal = true;
                Ok(matches!(answer_of(word), Some(false)))
            }
            Awaited::File => self.add_file(alloc, files, word),
            Awaited::Import => self.add_import(alloc, files, word),
        }
    }

    /// Takes the name of a file, if it may be imported: what it sets is set. Errors: memory ran out.
    fn add_import(
        &mut self,
        alloc: Global,
        files: &FileTexts,
        name: &[u8],
    ) -> Result<bool, AllocError>
        ensures { IfOk result (IsTaken (with_import (files_shown files.now.entries) (clauses_shown self.old) name.now) (clauses_shown self.new)) }
    {
        let Some(file) = files.get(name) else {
            return Ok(false);
        };
        let Some(mut sets) = imported_file(alloc, file)? else {
            return Ok(false);
        };
        self.awaited = Awaited::Clause;
        self.sets.append(&mut sets)?;
        Ok(true)
    }

    /// Takes the name of a file, if there is such a file: its text runs.
    fn add_file(
        &mut self,
        alloc: Global,
        files: &FileTexts,
        name: &[u8],
    ) -> Result<bool, AllocError>
        ensures { IfOk result (IsTaken (with_file (files_shown files.now.entries) (clauses_shown self.old) name.now) (clauses_shown self.new)) }
    {
        if files.contains_key(name) {
            self.awaited = Awaited::Clause;
            let name = Vec::from_slice(alloc, name)?;
            let mut runs = Vec::new(alloc);
            runs.push(name)?;
            self.runs = runs;
            return Ok(true);
        }
        Ok(false)
    }

    /// Takes one more word of the call that is needed.
    fn add_needed(&mut self, alloc: Global, word: &[u8], awaited: Awaited) -> Result<(), AllocError>
        ensures { OnOk result (clauses_shown self.new
            ≡ with_needed (clauses_shown self.old) word.now awaited) }
    {
        let word = Vec::from_slice(alloc, word)?;
        self.needs.push(word)?;
        self.awaited = awaited;
        Ok(())
    }

    /// Takes the name after `needs`, if it is one that may be there.
    fn add_name(&mut self, alloc: Global, word: &[u8]) -> Result<bool, AllocError>
        ensures { IfOk result (IsTaken (with_name (clauses_shown self.old) word.now) (clauses_shown self.new)) }
    {
        if !is_plain(word) || is_built_in(word) {
            return Ok(false);
        }
        self.add_needed(alloc, word, Awaited::FirstWord)?;
        Ok(true)
    }

    /// Takes the word after that name, or else a word that begins a clause.
    fn add_first_word(
        &mut self,
        alloc: Global,
        files: &FileTexts,
        word: &[u8],
    ) -> Result<bool, AllocError>
        ensures { IfOk result (IsTaken (with_first_word (files_shown files.now.entries) (clauses_shown self.old) word.now) (clauses_shown self.new)) }
    {
        if is_plain(word) {
            self.add_needed(alloc, word, Awaited::Clause)?;
            return Ok(true);
        }
        self.awaited = Awaited::Clause;
        self.add_new(alloc, files, word)
    }

    /// Whether `always` or `normal` was there.
    fn has_answer(&self) -> bool
        ensures { result ≡ has_answer (clauses_shown self.now).effect }
    {
        self.always.is_some() || self.normal
    }

    /// Whether it was said how a success goes on: it ends the run, or the text of a file runs.
    fn is_decided(&self) -> bool
        ensures { result ≡ is_decided (clauses_shown self.now).effect }
    {
        self.ends.is_some() || !self.runs.is_empty()
    }

    /// Takes the clause that the environment is saved. Returns whether it was not there before. Errors: memory
    /// ran out.
    fn add_saving(&mut self) -> Result<bool, AllocError>
        ensures { IfOk result (IsTaken (once (list_any is_saving (clauses_shown self.old).effect.sets) (with_saving (clauses_shown self.old))) (clauses_shown self.new)) }
    {
        if are_saving(&self.sets) {
            return Ok(false);
        }
        self.sets.push(Setting {
            left: LeftSide::Saving,
            value: RightSide::Deleted,
        })?;
        Ok(true)
    }

    /// Takes a word that begins a clause. Returns whether it does.
    fn add_new(&mut self, alloc: Global, files: &FileTexts, word: &[u8]) -> Result<bool, AllocError>
        ensures { IfOk result (IsTaken (with_new (files_shown files.now.entries) (clauses_shown self.old) word.now) (clauses_shown self.new)) }
    {
        if word == b"steady".as_slice() {
            return Ok(set_once(&mut self.stays));
        }
        if word == b"always".as_slice() {
            let first = !self.has_answer();
            self.awaited = Awaited::Status;
            return Ok(first);
        }
        if word == b"normal".as_slice() {
            let first = !self.has_answer();
            self.awaited = Awaited::Expected;
            return Ok(first);
        }
        if word == b"runs".as_slice() {
            self.awaited = Awaited::File;
            return Ok(!self.is_decided());
        }
        if word == b"imports".as_slice() {
            self.awaited = Awaited::Import;
            return Ok(true);
        }
        if word == b"saves".as_slice() {
            return self.add_saving();
        }
        if word == b"needs".as_slice() {
            self.awaited = Awaited::Name;
            return Ok(self.needs.is_empty());
        }
        if let Some(finish) = finish_named(word) {
            let first = !self.is_decided();
            self.ends = Some(finish);
            return Ok(first);
        }
        let Some(set) = call_setting(alloc, files, word)? else {
            return Ok(false);
        };
        self.sets.push(set)?;
        Ok(true)
    }

    /// What the clauses say. An answer that is always the same need not be remembered.
    fn listed(self) -> Listed
        ensures { listed_shown result ≡ effect_said (clauses_shown self) }
    {
        Listed {
            ends: self.ends,
            stays: self.stays && self.always.is_none(),
            always: self.always,
            needs: self.needs,
            normal: self.normal,
            runs: self.runs,
            sets: self.sets,
        }
    }
}

/// What the clauses of a line say, if each of its words is one.
pub(crate) fn listed_of(
    alloc: Global,
    files: &FileTexts,
    words: &[&[u8]],
) -> Result<Option<Listed>, AllocError>
    ensures { IfOk result (λ l. option_map listed_shown l
        ≡ option_map effect_said (clauses_of (files_shown files.now.entries) no_clause (map (λ w. w.now) words.now))) }
{
    let mut clauses = Clauses::new(alloc);
    for word in words {
        if !clauses.add(alloc, files, word)? {
            return Ok(None);
        }
    }
    if !may_end(clauses.awaited) {
        return Ok(None);
    }
    Ok(Some(clauses.listed()))
}
