//! What the lines of a device list say, by the names of the commands.
ghost use Rattle.std.specs.Prelude.{◌≡◌, [], map, OnOk, IfOk, Some, is_some, option_map, ◌||◌};
ghost use Rattle.text.specs.TextsShown.{option_bytes};
ghost use Rattle.device_list.specs.DeviceList.{file_in, filled, with_files, changed_at, with_fitting, asked_about, further_in, asking_of, with_call, question_of, with_choice, with_or, joined_in, joined_behind, joined_by, effect_at, sub_effect, call_effect, fails_normally, line_effect, effect_of, computed_by, with_known, is_listed, after_known, known_named, is_steady_test, line_of, heading_of};
ghost use Rattle.device_list.specs.CommandsShown.{commands_shown, subs_shown, calls_shown, files_shown, said_shown, listed_shown, found_shown, IsFurther};
ghost use Rattle.std.specs.List.{list_any};
ghost use Rattle.std.specs.Map.{lookup};
ghost use Rattle.std.specs.Str.{bytes_eq};
ghost use Rattle.commands.specs.TextsShown.{texts};
ghost use Rattle.envtools.specs.Environment.{value_of};
ghost use Rattle.device_list.specs.NamedPlaces.{at_place};
ghost use Rattle.device_list.specs.Saving.{saving, saves};

use crate::call_line::{Call, CallLine, call_said, first_fitting, is_call};
use crate::device_line::{begins_comment, device_words, heading_of, is_steady_test, known_named};
use crate::devices_error::DevicesError;
use crate::file_text::FileText;
use crate::filled::fill_calls;
use crate::finish::first_finish;
use crate::further::{go_on, question_of};
use crate::listed::{Effect, Listed};
use crate::saving::{calls_save, save_calls};
use crate::setting::settings;
use builtins::is_built_in;
use commands::{Computed, computes, known_of};
use envtools::Env;
use indexmap::IndexMap;
use keyed_hash::KeyedHash;
use std::alloc::{AllocError, Global};
use std::marker::Model;
use text::{Lines, has_nul};

/// Where the tables have a name, if they have it.
#[derive(Clone, Copy)]
pub struct Places {
    /// Among the commands.
    command: Option<usize>,
    /// Among the commands of `sub` lines.
    sub: Option<usize>,
    /// Among the commands of lines of calls.
    call: Option<usize>,
}

/// UTF-8's byte order mark.
const BYTE_ORDER_MARK: [u8; 3] = [0xEF, 0xBB, 0xBF];

/// How often a list may ask which file runs.
const MOST_CHOICES: usize = 8;

/// A map by the names of a list, found by a hash whose key is made from the list.
pub type ByName<V> = IndexMap<Vec<u8>, V, KeyedHash>;

/// The files that lines may name, by their names.
pub type FileTexts = ByName<FileText>;

/// What the list says of each name.
type Table = ByName<Listed>;

/// Joins one more `sub` line to the earlier ones with its name and its first word. Errors: memory
/// ran out.
fn join_sub(
    alloc: Global,
    subs: &mut ByName<Table>,
    name: &[u8],
    word: &[u8],
    more: Listed,
) -> Result<(), AllocError>
    ensures { OnOk result (subs_shown subs.new.entries
        ≡ changed_at (joined_behind word.now (listed_shown more)) (subs_shown subs.old.entries)
        name.now) }
{
    if let Some(table) = subs.get_mut(name) {
        join(alloc, table, word, more)?;
        return Ok(());
    }
    let mut table = IndexMap::with_hasher(alloc, *subs.hasher());
    join(alloc, &mut table, word, more)?;
    let name = Vec::from_slice(alloc, name)?;
    subs.insert(name, table)?;
    Ok(())
}

/// The device commands of a device list, each with what its calls do on success.
#[derive(Drop)]
pub struct DeviceTables {
    alloc: Global,
    /// By their names.
    commands: Table,
    /// By the name, and then by the first word of a call.
    subs: ByName<Table>,
    /// The lines of calls, by the name.
    calls: ByName<Vec<CallLine>>,
    /// The names of the commands that are computed, each once.
    known: Vec<Vec<u8>>,
    /// Whether the answers of `test -e` stay.
    test_stays: bool,
    /// The files of which it is asked whether they run.
    choices: Vec<Vec<u8>>,
    /// The files that lines may name.
    files: FileTexts,
}

/// Adds one more line of calls to the earlier ones with its name. Errors: memory ran out.
fn add_call(
    alloc: Global,
    calls: &mut ByName<Vec<CallLine>>,
    call: Call<'_>,
) -> Result<(), AllocError>
    ensures { OnOk result (calls_shown calls.new.entries
        ≡ changed_at (with_fitting (said_shown call.entry)) (calls_shown calls.old.entries)
        call.entry.name.now) }
{
    let Call { name, line } = call;
    if let Some(lines) = calls.get_mut(name) {
        lines.push(line)?;
        return Ok(());
    }
    let mut lines = Vec::new(alloc);
    lines.push(line)?;
    let name = Vec::from_slice(alloc, name)?;
    calls.insert(name, lines)?;
    Ok(())
}

/// Adds the file of a line `or` to the last line of calls with its name, if it goes on from it. Returns the file
/// that this named last. Errors: memory ran out.
fn add_further(
    alloc: Global,
    calls: &mut ByName<Vec<CallLine>>,
    call: Call<'_>,
) -> Result<Option<Vec<u8>>, AllocError>
    ensures { IfOk result (IsFurther (further_in (calls_shown calls.old.entries) (said_shown call.entry)) (calls_shown calls.new.entries)) }
{
    let Call { name, line } = call;
    if let Some(lines) = calls.get_mut(name) {
        let before = go_on(alloc, lines, line)?;
        return Ok(before);
    }
    Ok(None)
}

/// Joins one more line to the earlier ones with its name. Errors: memory ran out.
fn join(alloc: Global, table: &mut Table, name: &[u8], mut more: Listed) -> Result<(), AllocError>
    ensures { OnOk result (commands_shown table.new.entries
        ≡ joined_in (commands_shown table.old.entries) name.now (listed_shown more)) }
{
    if let Some(listed) = table.get_mut(name) {
        listed.sets.append(&mut more.sets)?;
        listed.ends = first_finish(listed.ends, more.ends);
        listed.stays |= more.stays;
        return Ok(());
    }
    let name = Vec::from_slice(alloc, name)?;
    table.insert(name, more)?;
    Ok(())
}

/// What a table has at a place.
pub(crate) fn value_at<V>(table: &ByName<V>, place: Option<usize>) -> Option<&V>
    ensures { option_map (λ v. v.now) result ≡ at_place table.now.entries place }
{
    let (_, value) = table.get_index(place?)?;
    Some(value)
}

/// Whether a name is one of these.
pub(crate) fn is_among(names: &[Vec<u8>], name: &[u8]) -> bool
    ensures { result ≡ list_any (λ one. bytes_eq name.now one.items) names.now }
{
    names.iter().any(|one| name == one.as_slice())
}

impl Model for DeviceTables {
    ghost use Rattle.device_list.specs.DeviceList as spec;
    ghost use Rattle.device_list.specs.CommandsShown.{commands_shown, subs_shown, calls_shown, files_shown};
    ghost use Rattle.commands.specs.TextsShown.{texts};

    ghost Value = { spec.Devices };

    ghost view = { λ d. record {
      commands = commands_shown d.commands.entries;
      subs = subs_shown d.subs.entries;
      calls = calls_shown d.calls.entries;
      known = texts d.known.items;
      test_stays = d.test_stays;
      choices = texts d.choices.items;
      files = files_shown d.files.entries;
    } };
}

impl DeviceTables {
    ghost use Rattle.device_list.specs.CommandsShown.{lent_effect};
    ghost use Rattle.commands.specs.ComputedShown.{call_shown};
    ghost use Rattle.device_list.specs.DeviceListAnswers.{Adds, AddsLine, IsListedWith};
    ghost use Rattle.device_list.specs.NamedPlaces.{IsPlaced, ArePlaced, in_sub, placed_sub, placed_call, placed_line, placed_effect};

    /// Puts the values of variables in the places of words of patterns that name one. Errors: memory ran out.
    pub fn fill(&mut self, env: &Env) -> Result<(), AllocError>
        ensures { OnOk result (self.new ≡ filled (value_of env.now) self.old) }
    {
        fill_calls(self.alloc, &mut self.calls, env)
    }

    /// Has the calls that save set copies of these variables. Errors: memory ran out.
    pub fn save(&mut self, names: &[&[u8]]) -> Result<(), AllocError>
        ensures { OnOk result (self.new ≡ saving (map (λ n. n.now) names.now) self.old) }
    {
        save_calls(self.alloc, &mut self.calls, names)
    }

    /// Whether a call of the list saves.
    pub fn saves(&self) -> bool
        ensures { result ≡ saves self.now }
    {
        calls_save(&self.calls)
    }

    /// A list of no command, whose lines may name these files, and whose names will be found by this hash.
    /// Takes no memory.
    fn new(alloc: Global, files: FileTexts, hasher: KeyedHash) -> Self
        ensures { result ≡ with_files (files_shown files.entries) }
    {
        DeviceTables {
            alloc,
            commands: IndexMap::with_hasher(alloc, hasher),
            subs: IndexMap::with_hasher(alloc, hasher),
            calls: IndexMap::with_hasher(alloc, hasher),
            known: Vec::new(alloc),
            test_stays: false,
            choices: Vec::new(alloc),
            files,
        }
    }

    /// The commands of a device list whose lines may name these files, or its first fault: `Devices::parse`
    /// says what its lines are.
    pub fn parse(alloc: Global, text: &[u8], files: FileTexts) -> Result<Self, DevicesError>
        ensures { IsListedWith (files_shown files.entries) text.now result }
    {
        if text.starts_with(&BYTE_ORDER_MARK) {
            return Err(DevicesError::ByteOrderMark);
        }
        let mut devices = DeviceTables::new(alloc, files, KeyedHash::of(text));
        for (number, line) in Lines::new(text) {
            if let Err(fault) = devices.add_line(number, line) {
                drop(devices);
                return Err(fault);
            }
        }
        Ok(devices)
    }

    /// Whether a line names a command. Takes no memory.
    pub fn has(&self, name: &[u8]) -> bool
        ensures { result ≡ is_listed self.now name.now }
    {
        if self.commands.contains_key(name) {
            return true;
        }
        self.has_calls(name)
    }

    /// Whether a `sub` line names a command, or a line of calls.
    fn has_calls(&self, name: &[u8]) -> bool
        ensures { result ≡ (is_some (lookup (bytes_eq name.now) (self.now).subs)
            || is_some (lookup (bytes_eq name.now) (self.now).calls)) }
    {
        self.subs.contains_key(name) || self.calls.contains_key(name)
    }

    /// What a call of a command does on success, if it is listed: what the first line of calls says that
    /// fits it, or else what the `sub` lines of its first word say, or else what the lines of its name
    /// say. Takes no memory.
    pub fn effect(&self, name: &[u8], words: &[Vec<u8>]) -> Option<Effect<'_>>
        ensures { option_map lent_effect result ≡ effect_of self.now name.now (texts words.now) }
    {
        if let Some(listed) = self.call_listed(name, words) {
            return Some(listed.effect());
        }
        self.line_effect(name, words)
    }

    /// What the lines of calls say of a call.
    fn call_listed(&self, name: &[u8], words: &[Vec<u8>]) -> Option<&Listed>
        ensures { option_map found_shown result ≡ call_effect self.now name.now (texts words.now) }
    {
        let lines = self.calls.get(name)?;
        first_fitting(lines, words)
    }

    /// Whether a failure is what is expected of a call with these words, its name first. Takes no memory.
    pub fn fails_normally(&self, call: &[Vec<u8>]) -> bool
        ensures { result ≡ fails_normally self.now (texts call.now) }
    {
        let [name, words @ ..] = call else {
            return false;
        };
        match self.call_listed(name, words) {
            Some(listed) => listed.normal,
            None => false,
        }
    }

    /// The files of which it is asked whether they run.
    fn asked_about(&self) -> &[Vec<u8>]
        ensures { texts result.now ≡ asked_about self.now }
    {
        if self.choices.len() <= MOST_CHOICES {
            return &self.choices;
        }
        &self.choices[..MOST_CHOICES]
    }

    /// Whether it is asked of a file whether it runs. Takes no memory.
    pub fn asks_of(&self, file: &[u8]) -> bool
        ensures { result ≡ list_any (bytes_eq file.now) (asked_about self.now) }
    {
        is_among(self.asked_about(), file)
    }

    /// What the other lines say of a call.
    fn line_effect(&self, name: &[u8], words: &[Vec<u8>]) -> Option<Effect<'_>>
        ensures { option_map lent_effect result ≡ line_effect self.now name.now (texts words.now) }
    {
        if let Some(listed) = self.sub_listed(name, words) {
            return Some(listed.effect());
        }
        let listed = self.commands.get(name)?;
        Some(listed.effect())
    }

    /// The result of a call, if the list has its command computed and its words can be. It takes no
    /// memory.
    pub fn computed<'w>(&self, name: &[u8], words: &'w [Vec<u8>]) -> Option<Computed<'w>>
        ensures { call_shown result ≡ computed_by self.now name.now (texts words.now) }
    {
        let known = known_of(name)?;
        if !self.is_known(name) {
            return None;
        }
        computes(known, words)
    }

    /// Whether the answers of `test -e` stay.
    pub fn test_stays(&self) -> bool
        ensures { result ≡ (self.now).test_stays }
    {
        self.test_stays
    }

    /// The text of a file. Takes no memory.
    pub fn file(&self, name: &[u8]) -> Option<&[u8]>
        ensures { option_bytes result ≡ file_in self.now name.now }
    {
        let file = self.files.get(name)?;
        Some(&file.text)
    }

    /// Whether the list has a command computed. Takes no memory.
    pub fn is_known(&self, name: &[u8]) -> bool
        ensures { result ≡ list_any (bytes_eq name.now) (self.now).known }
    {
        is_among(&self.known, name)
    }

    /// What the `sub` lines of a call's name and first word say.
    fn sub_listed(&self, name: &[u8], words: &[Vec<u8>]) -> Option<&Listed>
        ensures { option_map found_shown result ≡ sub_effect self.now name.now (texts words.now) }
    {
        match words {
            [] => None,
            [first, ..] => self.listed_at(name, first),
        }
    }

    /// What the `sub` lines of a name and a first word say.
    fn listed_at(&self, name: &[u8], word: &[u8]) -> Option<&Listed>
        ensures { option_map found_shown result ≡ effect_at self.now name.now (Some word.now) }
    {
        let table = self.subs.get(name)?;
        table.get(word)
    }

    /// Where the tables have a name. Takes no memory.
    fn places_of(&self, name: &[u8]) -> Places
        ensures { IsPlaced self.now name.now result }
    {
        Places {
            command: self.commands.get_index_of(name),
            sub: self.subs.get_index_of(name),
            call: self.calls.get_index_of(name),
        }
    }

    /// Adds a name that the tables have at these places. Errors: memory ran out.
    fn add_name(
        &self,
        names: &mut ByName<Places>,
        name: &[u8],
        places: Places,
    ) -> Result<(), AllocError>
        requires placed { IsPlaced self.now name.now places }
        requires names { ArePlaced self.now names.old.entries }
        ensures { OnOk result (ArePlaced self.now names.new.entries) }
    {
        let name = Vec::from_slice(self.alloc, name)?;
        names.insert(name, places)?;
        Ok(())
    }

    /// Each name of the tables, and where they have it. Errors: memory ran out.
    pub fn names(&self) -> Result<ByName<Places>, AllocError>
        ensures { IfOk result (λ names. ArePlaced self.now names.entries) }
    {
        let mut names = IndexMap::with_hasher(self.alloc, *self.commands.hasher());
        let listed = self.commands.keys().chain(self.subs.keys());
        for name in listed.chain(self.calls.keys()) {
            let places = self.places_of(name);
            if let Err(error) = self.add_name(&mut names, name, places) {
                drop(names);
                return Err(error);
            }
        }
        Ok(names)
    }

    /// What a call of the command at these places does on success. Takes no memory.
    pub fn placed_effect(&self, places: Places, words: &[Vec<u8>]) -> Option<Effect<'_>>
        ensures { option_map lent_effect result ≡ placed_effect self.now places (texts words.now) }
    {
        if let Some(listed) = self.placed_call(places.call, words) {
            return Some(listed.effect());
        }
        self.placed_line(places, words)
    }

    /// What the lines of calls of the name at a place say of a call.
    fn placed_call(&self, place: Option<usize>, words: &[Vec<u8>]) -> Option<&Listed>
        ensures { option_map found_shown result
            ≡ placed_call (at_place (self.now).calls place) (texts words.now) }
    {
        let lines = value_at(&self.calls, place)?;
        first_fitting(lines, words)
    }

    /// What the other lines of the name at these places say of a call.
    fn placed_line(&self, places: Places, words: &[Vec<u8>]) -> Option<Effect<'_>>
        ensures { option_map lent_effect result ≡ placed_line self.now places (texts words.now) }
    {
        if let Some(listed) = self.placed_sub(places.sub, words) {
            return Some(listed.effect());
        }
        let listed = value_at(&self.commands, places.command)?;
        Some(listed.effect())
    }

    /// What the `sub` lines of the name at a place say of a call.
    fn placed_sub(&self, place: Option<usize>, words: &[Vec<u8>]) -> Option<&Listed>
        ensures { option_map found_shown result
            ≡ placed_sub (at_place (self.now).subs place) (texts words.now) }
    {
        match words {
            [] => None,
            [first, ..] => self.placed_at(place, first),
        }
    }

    /// What the `sub` lines of the name at a place say of a first word.
    fn placed_at(&self, place: Option<usize>, word: &[u8]) -> Option<&Listed>
        ensures { option_map found_shown result ≡ in_sub (at_place (self.now).subs place) word.now }
    {
        let table = value_at(&self.subs, place)?;
        table.get(word)
    }

    /// Reads one more line. Errors: `BadLine`, `BuiltIn`, `Memory`.
    fn add_line(&mut self, number: usize, line: &[u8]) -> Result<(), DevicesError>
        ensures { AddsLine self.old number line.now self.new result }
    {
        let words = device_words(self.alloc, line)?;
        let [first, behind @ ..] = words.as_slice() else {
            return Ok(());
        };
        if begins_comment(first) {
            return Ok(());
        }
        if has_nul(line) {
            return Err(DevicesError::BadLine(number));
        }
        if is_call(first, behind) {
            let call = call_said(self.alloc, &self.files, number, line, first, behind)?;
            if *first == b"or".as_slice() {
                return self.add_or(number, call);
            }
            add_call(self.alloc, &mut self.calls, call)?;
            return Ok(());
        }
        self.add_other(number, first, behind)
    }

    /// Reads one more line `or`. Errors: `BadLine`, `Memory`.
    fn add_or(&mut self, number: usize, call: Call<'_>) -> Result<(), DevicesError>
        ensures { Adds (with_or self.old number (said_shown call.entry)) self.new result }
    {
        let Some(before) = add_further(self.alloc, &mut self.calls, call)? else {
            return Err(DevicesError::BadLine(number));
        };
        if self.choices.len() == MOST_CHOICES {
            return Err(DevicesError::BadLine(number));
        }
        self.ask_of(before)?;
        Ok(())
    }

    /// Keeps that it is asked of a file whether it runs. Errors: memory ran out.
    fn keep_choice(&mut self, file: &[u8]) -> Result<(), AllocError>
        ensures { OnOk result (self.new ≡ asking_of self.old file.now) }
    {
        let file = Vec::from_slice(self.alloc, file)?;
        self.choices.push(file)?;
        Ok(())
    }

    /// Adds the line of calls that asks it. Errors: memory ran out.
    fn add_question(&mut self, file: Vec<u8>) -> Result<(), AllocError>
        ensures { OnOk result (self.new ≡ with_call self.old (question_of file.items)) }
    {
        let question = question_of(self.alloc, file)?;
        add_call(self.alloc, &mut self.calls, question)
    }

    /// Adds the question whether a file runs. Errors: memory ran out.
    fn ask_of(&mut self, file: Vec<u8>) -> Result<(), AllocError>
        ensures { OnOk result (self.new ≡ with_choice self.old file.items) }
    {
        self.keep_choice(&file)?;
        self.add_question(file)
    }

    /// Reads one more line that is not about calls. Errors: `BadLine`, `BuiltIn`, `Memory`.
    fn add_other(
        &mut self,
        number: usize,
        first: &[u8],
        behind: &[&[u8]],
    ) -> Result<(), DevicesError>
        ensures { Adds (after_known self.old (known_named first.now (map (λ w. w.now) behind.now))
            (is_steady_test first.now (map (λ w. w.now) behind.now))
            (line_of number (heading_of first.now (map (λ w. w.now) behind.now)))) self.new result }
    {
        if let Some(name) = known_named(first, behind) {
            self.add_known(name)?;
            return Ok(());
        }
        if is_steady_test(first, behind) {
            self.test_stays = true;
            return Ok(());
        }
        let heading = heading_of(first, behind);
        let Some(sets) = settings(self.alloc, heading.words, heading.word.is_some())? else {
            return Err(DevicesError::BadLine(number));
        };
        if is_built_in(heading.name) {
            return Err(DevicesError::BuiltIn(number));
        }
        let (ends, stays, always, normal) = (heading.ends, heading.stays, None, false);
        let (needs, runs) = (Vec::new(self.alloc), Vec::new(self.alloc));
        self.add(
            heading.name,
            heading.word,
            Listed {
                ends,
                stays,
                always,
                needs,
                normal,
                runs,
                sets,
            },
        )?;
        Ok(())
    }

    /// One more command is computed. Its name is kept once.
    fn add_known(&mut self, name: &[u8]) -> Result<(), AllocError>
        ensures { OnOk result (self.new ≡ with_known self.old name.now) }
    {
        if self.is_known(name) {
            return Ok(());
        }
        let name = Vec::from_slice(self.alloc, name)?;
        self.known.push(name)?;
        Ok(())
    }

    /// Joins one more line to the earlier ones; for a `sub` line with its first word. Errors:
    /// `Memory`.
    fn add(&mut self, name: &[u8], word: Option<&[u8]>, more: Listed) -> Result<(), AllocError>
        ensures { OnOk result (self.new ≡ joined_by self.old name.now
            (option_map (λ w. w.now) word.entry) (listed_shown more)) }
    {
        match word {
            Some(word) => join_sub(self.alloc, &mut self.subs, name, word, more)?,
            None => join(self.alloc, &mut self.commands, name, more)?,
        }
        Ok(())
    }
}
