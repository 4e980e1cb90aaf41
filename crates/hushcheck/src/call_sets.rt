//! What a call sets and deletes, and of which files the text may run after it, as far as its words say it.
ghost use Rattle.std.specs.Prelude.{◌≡◌, ◌++◌, map, option_map, Some, IfOk, OnOk};
ghost use Rattle.std.specs.List.{fold};
ghost use Rattle.std.specs.Option.{option_copied};
ghost use Rattle.device_list.specs.DevicesShown.{left_shown, right_shown, setting_shown};
ghost use Rattle.hushlang.specs.TreesShown as view;
ghost use Rattle.hushcheck.specs.CallSets as spec;
ghost use Rattle.hushcheck.specs.CallSetsShown as shown;
ghost use Rattle.hushcheck.specs.Names.{written_out};

use crate::seat::starts_with;
use crate::walk::written_out;
use device_list::{Devices, LeftSide, RightSide, Setting};
use hushlang::{Piece, Word};
use std::alloc::{AllocError, Global};
use std::marker::Model;
use text::copied_words;

/// The words of a call, as far as they are written out. Errors: memory ran out.
fn written_words(alloc: Global, words: &[Word]) -> Result<Vec<Option<Vec<u8>>>, AllocError>
    ensures { IfOk result (λ all. shown.all_written all.items
        ≡ map written_out (map view.word words.now)) }
{
    let mut all = Vec::new(alloc);
    for word in words {
        all.push(written_out(alloc, word)?)?;
    }
    Ok(all)
}

/// Adds a variable as a pattern of a device list may write it: its name in `${` and `}`. Errors: memory ran out.
fn push_variable(part: &mut Vec<u8>, name: &[u8]) -> Result<(), AllocError>
    ensures { OnOk result (part.new.items ≡ part.old.items ++ spec.variable_part name.now) }
{
    part.extend_from_slice(b"${")?;
    part.extend_from_slice(name)?;
    part.extend_from_slice(b"}")
}

/// The bytes of a word that are written out, with each variable in it as `${NAME}`. Errors: memory ran out.
fn part_of(alloc: Global, word: &Word) -> Result<Vec<u8>, AllocError>
    ensures { IfOk result (λ part. part.items ≡ spec.part_of (view.word word.now)) }
{
    let mut part = Vec::new(alloc);
    for piece in &word.pieces {
        match piece {
            Piece::Bytes(more) => part.extend_from_slice(more)?,
            Piece::Var { name, .. } => push_variable(&mut part, name)?,
            Piece::Mark | Piece::Status => {}
        }
    }
    Ok(part)
}

/// The same of each word. Errors: memory ran out.
fn parts_of(alloc: Global, words: &[Word]) -> Result<Vec<Vec<u8>>, AllocError>
    ensures { IfOk result (λ parts. shown.names_shown parts.items
        ≡ map spec.part_of (map view.word words.now)) }
{
    let mut parts = Vec::new(alloc);
    for word in words {
        parts.push(part_of(alloc, word)?)?;
    }
    Ok(parts)
}

/// Whether a word is an option.
fn is_option(word: &Option<Vec<u8>>) -> bool
    ensures { result ≡ spec.is_option (shown.written word.now) }
{
    match word {
        Some(word) => starts_with(word, b'-'),
        None => false,
    }
}

/// The words after the options.
fn behind_options(words: &[Option<Vec<u8>>]) -> &[Option<Vec<u8>>]
    ensures { shown.all_written result.now ≡ spec.behind_options (shown.all_written words.now) }
{
    let mut left = words;
    while let Some((word, rest)) = left.split_first() {
        if !is_option(word) {
            return left;
        }
        left = rest;
    }
    left
}

/// Whether a subcommand of `env` takes the names from memory, from storage or from U-Boot itself.
fn takes_names(word: &[u8]) -> bool
    ensures { result ≡ spec.takes_names word.now }
{
    word == b"import".as_slice() || word == b"default".as_slice() || word == b"load".as_slice()
}

/// Whether a setting with this right side deletes its variable.
fn is_deletion(side: &RightSide) -> bool
    ensures { result ≡ spec.is_deletion (right_shown side.now) }
{
    matches!(side, RightSide::Deleted)
}

/// Whether a word of `env delete` means all names.
fn stands_for_all(word: &Option<Vec<u8>>) -> bool
    ensures { result ≡ spec.stands_for_all (shown.written word.now) }
{
    match word {
        Some(word) => word.as_slice() == b"-a".as_slice(),
        None => false,
    }
}

/// Variables.
#[derive(Drop)]
pub(crate) struct Named {
    alloc: Global,
    /// The names that are known.
    pub(crate) names: Vec<Vec<u8>>,
    /// Whether there are others, which are not known.
    pub(crate) more: bool,
}

impl Model for Named {
    ghost use Rattle.hushcheck.specs.CallSets as spec;
    ghost use Rattle.hushcheck.specs.CallSetsShown as shown;

    ghost Value = { spec.Named };

    ghost view = { λ n. record { names = shown.names_shown n.names.items; more = n.more } };
}

impl Named {
    /// None.
    fn new(alloc: Global) -> Named
        ensures { result ≡ spec.no_names }
    {
        Named {
            alloc,
            names: Vec::new(alloc),
            more: false,
        }
    }

    /// There are others, too.
    fn add_more(&mut self)
        ensures { self.new ≡ spec.with_more self.old }
    {
        self.more = true;
    }

    /// Adds a name, if it is written out. Errors: memory ran out.
    fn add(&mut self, name: &Option<Vec<u8>>) -> Result<(), AllocError>
        ensures { OnOk result (self.new ≡ spec.with_name self.old (shown.written name.now)) }
    {
        match name {
            Some(name) => self.add_name(name),
            None => {
                self.add_more();
                Ok(())
            }
        }
    }

    /// Adds a name. Errors: memory ran out.
    fn add_name(&mut self, name: &[u8]) -> Result<(), AllocError>
        ensures { OnOk result (self.new ≡ spec.with_name self.old (Some name.now)) }
    {
        let name = Vec::from_slice(self.alloc, name)?;
        self.names.push(name)?;
        Ok(())
    }

    /// Adds what a word of `env delete` names. Errors: memory ran out.
    fn add_deleted(&mut self, word: &Option<Vec<u8>>) -> Result<(), AllocError>
        ensures { OnOk result (self.new
            ≡ spec.with_deleted self.old (shown.written word.now)) }
    {
        if !is_option(word) {
            return self.add(word);
        }
        if stands_for_all(word) {
            self.add_more();
        }
        Ok(())
    }

    /// Adds what the words of `env delete` name. Errors: memory ran out.
    fn add_all_deleted(&mut self, words: &[Option<Vec<u8>>]) -> Result<(), AllocError>
        ensures { OnOk result (self.new
            ≡ fold spec.with_deleted self.old (shown.all_written words.now)) }
    {
        for word in words {
            self.add_deleted(word)?;
        }
        Ok(())
    }

    /// Adds a word of the call, if it is there. Errors: memory ran out.
    fn add_word(&mut self, word: Option<&Option<Vec<u8>>>) -> Result<(), AllocError>
        ensures { OnOk result (self.new ≡ spec.with_word self.old
            (option_map (λ word. shown.written word.now) word.entry)) }
    {
        match word {
            Some(word) => self.add(word),
            None => Ok(()),
        }
    }

    /// Adds what the left side of a setting names in a call with these words. Errors: memory ran out.
    fn add_side(&mut self, words: &[Option<Vec<u8>>], side: &LeftSide) -> Result<(), AllocError>
        ensures { OnOk result (self.new
            ≡ spec.with_side (shown.all_written words.now) self.old (left_shown side.now)) }
    {
        match side {
            LeftSide::Variable(name) | LeftSide::Imported { name, .. } => self.add_name(name),
            LeftSide::WordAt(place) => self.add_word(words.get(*place as usize)),
            LeftSide::LastWord => self.add_word(words.last()),
            LeftSide::Saving => Ok(()),
        }
    }
}

/// What is set and deleted.
#[derive(Drop)]
pub(crate) struct Sets {
    alloc: Global,
    /// What is set.
    pub(crate) sets: Named,
    /// What is deleted.
    pub(crate) deletes: Named,
    /// The files of which the text of one runs after the call.
    pub(crate) runs: Vec<Vec<u8>>,
}

impl Model for Sets {
    ghost use Rattle.hushcheck.specs.CallSets as spec;
    ghost use Rattle.hushcheck.specs.CallSetsShown as shown;

    ghost Value = { spec.Sets };

    ghost view = { λ s. record {
      sets = s.sets;
      deletes = s.deletes;
      runs = shown.names_shown s.runs.items;
    } };
}

impl Sets {
    /// Nothing.
    fn new(alloc: Global) -> Sets
        ensures { result ≡ spec.none }
    {
        Sets {
            alloc,
            sets: Named::new(alloc),
            deletes: Named::new(alloc),
            runs: Vec::new(alloc),
        }
    }

    /// Adds a name that has a value after it as set, and a name alone as deleted. Errors: memory ran out.
    fn add_valued(&mut self, words: &[Option<Vec<u8>>]) -> Result<(), AllocError>
        ensures { OnOk result (self.new
            ≡ spec.set_to_value self.old (shown.all_written words.now)) }
    {
        match words {
            [name, _, ..] => self.sets.add(name),
            [name] => self.deletes.add(name),
            [] => Ok(()),
        }
    }

    /// Adds what `env` sets and deletes by a subcommand with these words. Errors: memory ran out.
    fn add_by_subcommand(
        &mut self,
        word: &[u8],
        words: &[Option<Vec<u8>>],
    ) -> Result<(), AllocError>
        ensures { OnOk result (self.new
            ≡ spec.set_by_subcommand self.old word.now (shown.all_written words.now)) }
    {
        if word == b"set".as_slice() {
            return self.add_valued(behind_options(words));
        }
        if word == b"delete".as_slice() {
            return self.deletes.add_all_deleted(words);
        }
        if takes_names(word) {
            self.sets.add_more();
        }
        Ok(())
    }

    /// Adds what `env` sets and deletes with these words. Errors: memory ran out.
    fn add_by_env(&mut self, words: &[Option<Vec<u8>>]) -> Result<(), AllocError>
        ensures { OnOk result (self.new
            ≡ spec.set_by_env self.old (shown.all_written words.now)) }
    {
        let Some((first, rest)) = words.split_first() else {
            return Ok(());
        };
        match first {
            Some(word) => self.add_by_subcommand(word, rest),
            None => {
                self.sets.add_more();
                Ok(())
            }
        }
    }

    /// Adds what `setenv`, `setexpr` or `env` sets and deletes with these words. Errors: memory ran out.
    fn add_by_name(&mut self, command: &[u8], words: &[Option<Vec<u8>>]) -> Result<(), AllocError>
        ensures { OnOk result (self.new
            ≡ spec.set_by_name self.old command.now (shown.all_written words.now)) }
    {
        if command == b"setenv".as_slice() || command == b"setexpr".as_slice() {
            return self.add_valued(behind_options(words));
        }
        if command == b"env".as_slice() {
            return self.add_by_env(words);
        }
        Ok(())
    }

    /// Adds what a setting sets or deletes in a call with these words. Errors: memory ran out.
    fn add_setting(
        &mut self,
        words: &[Option<Vec<u8>>],
        setting: &Setting,
    ) -> Result<(), AllocError>
        ensures { OnOk result (self.new ≡ spec.set_by_setting (shown.all_written words.now)
            self.old (setting_shown setting.now)) }
    {
        if is_deletion(&setting.value) {
            return self.deletes.add_side(words, &setting.left);
        }
        self.sets.add_side(words, &setting.left)
    }

    /// Adds what settings set and delete in a call with these words. Errors: memory ran out.
    fn add_settings(
        &mut self,
        words: &[Option<Vec<u8>>],
        settings: &[Setting],
    ) -> Result<(), AllocError>
        ensures { OnOk result (self.new
            ≡ fold (spec.set_by_setting (shown.all_written words.now))
            self.old (map setting_shown settings.now)) }
    {
        for setting in settings {
            self.add_setting(words, setting)?;
        }
        Ok(())
    }

    /// Keeps copies of the names of the files of which the text of one runs. Errors: memory ran out.
    fn keep_files(&mut self, files: &[Vec<u8>]) -> Result<(), AllocError>
        ensures { OnOk result (self.new ≡ record self.old { runs = shown.names_shown files.now }) }
    {
        self.runs = copied_words(self.alloc, files)?;
        Ok(())
    }

    /// Adds what the device list says that a call sets and deletes and of which files the text may run after it, of a
    /// call whose words are written out as far as they are. Errors: memory ran out.
    fn add_by_list(
        &mut self,
        alloc: Global,
        devices: &Devices,
        command: &[u8],
        words: &[Word],
        written: &[Option<Vec<u8>>],
    ) -> Result<(), AllocError>
        requires { shown.all_written written.now ≡ map written_out (map view.word words.now) }
        ensures { OnOk result (self.new ≡ spec.set_by_list self.old (Some devices.now) command.now
            (map view.word words.now)) }
    {
        let parts = parts_of(alloc, words)?;
        match devices.effect(command, &parts) {
            Some(effect) => {
                self.add_settings(written, effect.sets)?;
                self.keep_files(effect.runs)
            }
            None => Ok(()),
        }
    }
}

/// What a call of a command with these words sets and deletes. Errors: memory ran out.
fn set_by_command(
    alloc: Global,
    devices: Option<&Devices>,
    command: &[u8],
    words: &[Word],
) -> Result<Sets, AllocError>
    ensures { IfOk result (λ sets. sets ≡ spec.set_by_call (option_map (λ d. d.now) devices.entry)
        (Some command.now) (map view.word words.now)) }
{
    let written = written_words(alloc, words)?;
    let mut sets = Sets::new(alloc);
    sets.add_by_name(command, &written)?;
    if let Some(devices) = devices {
        sets.add_by_list(alloc, devices, command, words, &written)?;
    }
    Ok(sets)
}

/// What a call with these words after its first one sets and deletes; nothing is known if the first one is not
/// written out. Errors: memory ran out.
pub(crate) fn set_by_call(
    alloc: Global,
    devices: Option<&Devices>,
    command: Option<&[u8]>,
    words: &[Word],
) -> Result<Sets, AllocError>
    ensures { IfOk result (λ sets. sets ≡ spec.set_by_call (option_map (λ d. d.now) devices.entry)
        (option_copied command.entry) (map view.word words.now)) }
{
    match command {
        Some(command) => set_by_command(alloc, devices, command, words),
        None => {
            let mut sets = Sets::new(alloc);
            sets.sets.add_more();
            Ok(sets)
        }
    }
}
