//! How far a text is read, and what is found in it.
ghost use Rattle.std.specs.Prelude.{◌≡◌, ◌++◌, ◌∷◌, [], false, Some, map, option_map, IfOk, OnOk};
ghost use Rattle.std.specs.Option.{option_copied};
ghost use Rattle.hushlang.specs.CursorShown.{input_in};
ghost use Rattle.hushlang.specs.TreesShown as view;
ghost use Rattle.hushcheck.specs.CallSets.{set_by_call};
ghost use Rattle.hushcheck.specs.Calls as spec;
ghost use Rattle.hushcheck.specs.Remarks as shown;

use crate::call_sets::{Named, Sets, set_by_call};
use crate::remark::{Found, Read, Remark};
use builtins::is_built_in;
use device_list::Devices;
use hushlang::{Kind, Lexer, Piece, Word};
use std::alloc::{AllocError, Global};
use std::marker::Model;

/// The place of each word of a text. Errors: memory ran out.
pub(crate) fn word_places(alloc: Global, text: &[u8]) -> Result<Vec<usize>, AllocError>
    ensures { IfOk result (λ places. places.items
        ≡ spec.word_places (input_in text.now).tokens) }
{
    let mut lexer = Lexer::new(text);
    let mut places = Vec::new(alloc);
    'tokens: while let Ok(Some(token)) = lexer.next() {
        if let Kind::Word = token.kind {
            places.push(token.start)?;
        }
    }
    Ok(places)
}

/// Whether a device list lacks a command. Takes no memory.
fn is_lacking(devices: Option<&Devices>, name: &[u8]) -> bool
    ensures { result
        ≡ spec.is_lacking (option_map (λ d. d.now) devices.entry) name.now }
{
    match devices {
        Some(devices) => !(is_built_in(name) || devices.has(name) || devices.is_known(name)),
        None => false,
    }
}

/// Adds a variable that is read at a place. Errors: memory ran out.
fn push_read(alloc: Global, reads: &mut Vec<Read>, at: usize, name: &[u8]) -> Result<(), AllocError>
    ensures { OnOk result (shown.all_read reads.new.items
        ≡ shown.all_read reads.old.items ++ (at, name.now) ∷ []) }
{
    let name = Vec::from_slice(alloc, name)?;
    reads.push(Read { at, name })?;
    Ok(())
}

/// Adds the variables that a word reads, at its place. Errors: memory ran out.
fn push_reads(
    alloc: Global,
    reads: &mut Vec<Read>,
    at: usize,
    word: &Word,
) -> Result<(), AllocError>
    ensures { OnOk result (shown.all_read reads.new.items
        ≡ shown.all_read reads.old.items ++ spec.reads_in at (view.word word.now)) }
{
    for piece in &word.pieces {
        match piece {
            Piece::Var { name, .. } => push_read(alloc, reads, at, name)?,
            Piece::Bytes(_) | Piece::Mark | Piece::Status => {}
        }
    }
    Ok(())
}

/// How far a text is read, and what was found in it.
#[derive(Drop)]
pub(crate) struct Reading<'a> {
    /// The device list, if there is one.
    devices: Option<&'a Devices>,
    /// The places of the words that are left.
    left: &'a [usize],
    /// What was found, in the order of the text.
    pub(crate) found: Vec<Found>,
    /// Whether the device list lacks a command.
    pub(crate) lacks: bool,
    /// The variables that are read, in the order of the text.
    pub(crate) reads: Vec<Read>,
    /// The names of the variables that are set.
    pub(crate) sets: Vec<Vec<u8>>,
    /// The names of the variables that are deleted.
    pub(crate) deletes: Vec<Vec<u8>>,
    /// Whether others may be set or deleted.
    pub(crate) more: bool,
    /// The files whose texts run after calls.
    pub(crate) files: Vec<Vec<u8>>,
}

impl<'a> Model for Reading<'a> {
    ghost use Rattle.hushcheck.specs.Calls as spec;
    ghost use Rattle.hushcheck.specs.CallSetsShown.{names_shown};
    ghost use Rattle.hushcheck.specs.Remarks as shown;
    ghost use Rattle.std.specs.Prelude.{option_map};

    ghost Value = { spec.Reading };

    ghost view = { λ r. record {
      devices = option_map (λ d. d.now) r.devices;
      left = r.left.now;
      found = shown.all_found r.found.items;
      lacks = r.lacks;
      reads = shown.all_read r.reads.items;
      sets = names_shown r.sets.items;
      deletes = names_shown r.deletes.items;
      more = r.more;
      files = names_shown r.files.items;
    } };
}

impl<'a> Reading<'a> {
    /// The start of a text, with the places of its words.
    pub(crate) fn new(alloc: Global, devices: Option<&'a Devices>, left: &'a [usize]) -> Reading<'a>
        ensures { result ≡ record {
          devices = option_map (λ d. d.now) devices.entry;
          left = left.now;
          found = [];
          lacks = false;
          reads = [];
          sets = [];
          deletes = [];
          more = false;
          files = [];
        } }
    {
        Reading {
            devices,
            left,
            found: Vec::new(alloc),
            lacks: false,
            reads: Vec::new(alloc),
            sets: Vec::new(alloc),
            deletes: Vec::new(alloc),
            more: false,
            files: Vec::new(alloc),
        }
    }

    /// Passes over words.
    pub(crate) fn skip(&mut self, count: usize)
        ensures { self.new ≡ spec.skip count self.old }
    {
        if count < self.left.len() {
            self.left = &self.left[count..];
        } else {
            self.left = &[];
        }
    }

    /// The place of the next word.
    fn next_place(&self) -> usize
        ensures { result ≡ spec.first_place (self.now).left }
    {
        match self.left {
            [place, ..] => *place,
            [] => 0,
        }
    }

    /// Adds what is found at the next word. Errors: memory ran out.
    pub(crate) fn find(&mut self, remark: Remark) -> Result<(), AllocError>
        ensures { OnOk result (self.new ≡ spec.find (shown.remark remark) self.old) }
    {
        let at = self.next_place();
        self.found.push(Found { at, remark })?;
        Ok(())
    }

    /// Adds that the name at the next word is not followed: the text that runs may set and delete any variable.
    /// Errors: memory ran out.
    pub(crate) fn find_not_followed(&mut self) -> Result<(), AllocError>
        ensures { OnOk result (self.new ≡ spec.find_not_followed self.old) }
    {
        self.find(Remark::NotFollowed)?;
        self.more = true;
        Ok(())
    }

    /// Passes over a word, and keeps what it reads. Errors: memory ran out.
    pub(crate) fn pass(&mut self, alloc: Global, word: &Word) -> Result<(), AllocError>
        ensures { OnOk result (self.new ≡ spec.after_word self.old (view.word word.now)) }
    {
        let at = self.next_place();
        push_reads(alloc, &mut self.reads, at, word)?;
        self.skip(1);
        Ok(())
    }

    /// Keeps that a name is set. Errors: memory ran out.
    pub(crate) fn set(&mut self, alloc: Global, name: &[u8]) -> Result<(), AllocError>
        ensures { OnOk result (self.new ≡ spec.set_name name.now self.old) }
    {
        let name = Vec::from_slice(alloc, name)?;
        self.sets.push(name)?;
        Ok(())
    }

    /// Keeps what is set, and adds that others are set, if there are. Errors: memory ran out.
    fn keep_set(&mut self, set: Named) -> Result<(), AllocError>
        ensures { OnOk result (self.new ≡ spec.after_set set self.old) }
    {
        let Named {
            mut names,
            more,
            ..
        } = set;
        self.sets.append(&mut names)?;
        if more {
            self.find(Remark::SetsMore)?;
            self.more = true;
        }
        Ok(())
    }

    /// Keeps what is deleted. Errors: memory ran out.
    fn keep_deleted(&mut self, deleted: Named) -> Result<(), AllocError>
        ensures { OnOk result (self.new ≡ spec.after_deleted deleted self.old) }
    {
        let Named {
            mut names,
            more,
            ..
        } = deleted;
        self.deletes.append(&mut names)?;
        if more {
            self.more = true;
        }
        Ok(())
    }

    /// Keeps what is set and deleted, and the files of which the text of one runs. Errors: memory ran out.
    fn keep_sets(&mut self, sets: Sets) -> Result<(), AllocError>
        ensures { OnOk result (self.new ≡ spec.after_sets sets self.old) }
    {
        let Sets {
            sets,
            deletes,
            mut runs,
            ..
        } = sets;
        self.keep_set(sets)?;
        self.keep_deleted(deletes)?;
        self.files.append(&mut runs)?;
        Ok(())
    }

    /// Keeps what a call sets and deletes with these words after its first one, and the files of which the text of
    /// one runs after it. Errors: memory ran out.
    pub(crate) fn keep_call(
        &mut self,
        alloc: Global,
        command: Option<&[u8]>,
        words: &[Word],
    ) -> Result<(), AllocError>
        ensures { OnOk result (self.new ≡ spec.after_sets (set_by_call (self.old).devices
            (option_copied command.entry) (map view.word words.now)) self.old) }
    {
        let sets = set_by_call(alloc, self.devices, command, words)?;
        self.keep_sets(sets)
    }

    /// Adds that the device list lacks a command, if it does. Errors: memory ran out.
    pub(crate) fn find_if_lacking(&mut self, alloc: Global, name: &[u8]) -> Result<(), AllocError>
        ensures { OnOk result (self.new ≡ spec.after_name self.old (Some name.now)) }
    {
        if !is_lacking(self.devices, name) {
            return Ok(());
        }
        self.find(Remark::Lacks(Vec::from_slice(alloc, name)?))?;
        self.lacks = true;
        Ok(())
    }
}
