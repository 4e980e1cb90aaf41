//! What `env import -t` sets from a text.
ghost use Rattle.std.specs.Prelude.{◌≡◌, ◌<◌, ◌≤◌, ◌++◌, [], length, option_map, vec_len, IfOk, OnOk};
ghost use Rattle.text.specs.TextsShown.{option_items};
ghost use Rattle.device_list.specs.DevicesShown.{right_shown, setting_shown, settings_shown};
ghost use Rattle.device_list.specs.Settings.{Imported};
ghost use Rattle.device_list.specs.Imports.{entries_in, imported, is_newline, is_return_newline, is_start, moved_entries, settings_from, read_as, side_of, unsized_room, without_returns};
ghost use Rattle.device_list.specs.ImportsShown.{all_entries, IsRead};

use crate::setting::{LeftSide, Reading, RightSide, Setting};
use indexmap::IndexSet;
use keyed_hash::KeyedHash;
use std::alloc::{AllocError, Global};
use std::marker::Model;
use std::mem::replace;
use text::is_space;

/// Where in an entry of the text a byte is.
#[derive(Clone, Copy)]
pub(crate) enum Part {
    /// In front of an entry.
    Start,
    /// After blanks in front of an entry.
    Blanks,
    /// In a comment.
    Comment,
    /// In a name.
    Name,
    /// In a value.
    Value,
    /// After a backslash in a value.
    Escape,
}

/// A variable of the text.
#[derive(Drop)]
pub(crate) struct Entry {
    pub(crate) name: Vec<u8>,
    /// Its value; without one it is deleted.
    pub(crate) value: Option<Vec<u8>>,
}

/// The entries so far, and the one that is read.
#[derive(Drop)]
struct Entries {
    alloc: Global,
    done: Vec<Entry>,
    part: Part,
    name: Vec<u8>,
    value: Vec<u8>,
    sound: bool,
}

impl Model for Entries {
    ghost use Rattle.device_list.specs.Imports as spec;
    ghost use Rattle.device_list.specs.ImportsShown.{all_entries, IsRead};

    ghost Value = { spec.Entries };

    ghost view = { λ s. record {
      done = all_entries s.done.items;
      part = s.part;
      name = s.name.items;
      value = s.value.items;
      sound = s.sound;
    } };
}

/// Whether a byte ends a line.
fn is_newline(byte: u8) -> bool
    ensures { result ≡ is_newline byte }
{
    byte == b'\n'
}

/// Whether a byte is in front of an entry.
fn is_start(part: Part) -> bool
    ensures { result ≡ is_start part }
{
    match part {
        Part::Start => true,
        Part::Blanks | Part::Comment | Part::Name | Part::Value | Part::Escape => false,
    }
}

impl Entries {
    ghost use Rattle.device_list.specs.Imports as spec;

    /// No entry. Takes no memory.
    fn new(alloc: Global) -> Self
        ensures { result ≡ spec.no_entry }
    {
        Entries {
            alloc,
            done: Vec::new(alloc),
            part: Part::Start,
            name: Vec::new(alloc),
            value: Vec::new(alloc),
            sound: true,
        }
    }

    /// Ends the entry that is read. Errors: memory ran out.
    fn close(&mut self) -> Result<(), AllocError>
        ensures { OnOk result (self.new ≡ spec.closed self.old) }
    {
        let name = replace(&mut self.name, Vec::new(self.alloc));
        let value = replace(&mut self.value, Vec::new(self.alloc));
        self.part = Part::Start;
        if name.is_empty() {
            self.sound = self.sound && value.is_empty();
            return Ok(());
        }
        let value = if value.is_empty() { None } else { Some(value) };
        self.done.push(Entry { name, value })?;
        Ok(())
    }

    /// Takes a byte of a value. Errors: memory ran out.
    fn add_valued(&mut self, byte: u8) -> Result<(), AllocError>
        ensures { OnOk result (self.new ≡ spec.valued byte self.old) }
    {
        self.part = Part::Value;
        self.value.push(byte)?;
        Ok(())
    }

    /// Takes a byte of a name, or what ends it. Errors: memory ran out.
    fn add_named(&mut self, byte: u8) -> Result<(), AllocError>
        ensures { OnOk result (self.new ≡ spec.named byte self.old) }
    {
        if is_newline(byte) {
            return self.close();
        }
        if byte == b'=' {
            self.part = Part::Value;
            return Ok(());
        }
        self.part = Part::Name;
        self.name.push(byte)?;
        Ok(())
    }

    /// Takes the first byte of an entry, or a blank in front of it. Errors: memory ran out.
    fn add_first(&mut self, byte: u8) -> Result<(), AllocError>
        ensures { OnOk result (self.new ≡ spec.begun byte self.old) }
    {
        if is_space(byte) {
            self.part = Part::Blanks;
            return Ok(());
        }
        if byte == b'#' {
            self.part = Part::Comment;
            return Ok(());
        }
        self.add_named(byte)
    }

    /// Takes one more byte. Errors: memory ran out.
    fn add(&mut self, byte: u8) -> Result<(), AllocError>
        ensures { OnOk result (self.new ≡ spec.with_byte byte self.old) }
    {
        match self.part {
            Part::Start | Part::Blanks => self.add_first(byte),
            Part::Comment if is_newline(byte) => self.close(),
            Part::Comment => Ok(()),
            Part::Name => self.add_named(byte),
            Part::Value if is_newline(byte) => self.close(),
            Part::Value if byte == b'\\' => {
                self.part = Part::Escape;
                Ok(())
            }
            Part::Value | Part::Escape => self.add_valued(byte),
        }
    }

    /// The entries, if each that has a value has a name. Errors: memory ran out.
    fn whole(mut self) -> Result<Option<Vec<Entry>>, AllocError>
        ensures { IfOk result (λ all. option_map (λ v. all_entries v.items) all
            ≡ spec.whole (spec.last_in self.part self)) }
    {
        if matches!(self.part, Part::Escape) {
            self.add_valued(b'\\')?;
        }
        self.close()?;
        if self.sound {
            Ok(Some(self.done))
        } else {
            Ok(None)
        }
    }
}

/// The entries of a text, of which none begins after `room` bytes, if the text has no fault. Errors: memory ran out.
fn entries_in(alloc: Global, text: &[u8], room: usize) -> Result<Option<Vec<Entry>>, AllocError>
    ensures { IfOk result (λ all. option_map (λ v. all_entries v.items) all
        ≡ entries_in room text.now) }
{
    let mut entries = Entries::new(alloc);
    for at in 0..text.len() {
        if room <= at && is_start(entries.part) {
            return entries.whole();
        }
        entries.add(text[at])?;
    }
    entries.whole()
}

/// Whether a byte is a carriage return in front of a newline.
fn is_return_newline(first: u8, second: u8) -> bool
    ensures { result ≡ is_return_newline first second }
{
    first == b'\r' && is_newline(second)
}

/// The text without the carriage returns in front of newlines. Errors: memory ran out.
fn without_returns(alloc: Global, text: &[u8]) -> Result<Vec<u8>, AllocError>
    ensures kept { IfOk result (λ kept. kept.items ≡ without_returns text.now) }
    ensures shorter { IfOk result (λ kept. vec_len kept ≤ length text.now) }
{
    let mut kept = Vec::new(alloc);
    let mut left = text;
    while let [first, rest @ ..] = left {
        let drops = match rest {
            [second, ..] => is_return_newline(*first, *second),
            [] => false,
        };
        if !drops {
            kept.push(*first)?;
        }
        left = rest;
    }
    Ok(kept)
}

/// The right side for a value, if there is one. Errors: memory ran out.
fn side_of(alloc: Global, value: &Option<Vec<u8>>) -> Result<RightSide, AllocError>
    ensures { IfOk result (λ side. right_shown side ≡ side_of (option_items value.now)) }
{
    match value {
        Some(value) => Ok(RightSide::Literal(Vec::from_slice(alloc, value)?)),
        None => Ok(RightSide::Deleted),
    }
}

/// The setting of an entry. Errors: memory ran out.
fn setting_of(
    alloc: Global,
    entry: &Entry,
    reading: Reading,
    first: bool,
) -> Result<Setting, AllocError>
    ensures { IfOk result (λ s. setting_shown s
        ≡ (Imported entry.now.name.items reading first, side_of (option_items entry.now.value))) }
{
    let value = side_of(alloc, &entry.value)?;
    let name = Vec::from_slice(alloc, &entry.name)?;
    let left = LeftSide::Imported {
        name,
        reading,
        first,
    };
    Ok(Setting { left, value })
}

/// Adds a setting for each entry of a reading. Errors: memory ran out.
fn add_settings(
    alloc: Global,
    settings: &mut Vec<Setting>,
    reading: Reading,
    entries: &[Entry],
    hasher: KeyedHash,
) -> Result<(), AllocError>
    ensures { OnOk result (settings_shown settings.new
        ≡ settings_shown settings.old ++ settings_from reading [] (all_entries entries.now)) }
{
    let mut seen = IndexSet::with_hasher(alloc, hasher);
    for entry in entries {
        let first = seen.insert(Vec::from_slice(alloc, &entry.name)?)?;
        settings.push(setting_of(alloc, entry, reading, first)?)?;
    }
    Ok(())
}

/// The entries with `-r` of a text that has these bytes without its carriage returns, of which none begins after
/// `room` bytes. Errors: memory ran out.
fn moved_entries(
    alloc: Global,
    room: usize,
    kept: &[u8],
    text: &[u8],
) -> Result<Option<Vec<Entry>>, AllocError>
    requires { length kept.now ≤ length text.now }
    ensures { IfOk result (λ all. option_map (λ v. all_entries v.items) all
        ≡ moved_entries room kept.now text.now) }
{
    let mut moved = Vec::from_slice(alloc, kept)?;
    moved.extend_from_slice(&text[kept.len()..])?;
    entries_in(alloc, &moved, room)
}

/// How many bytes entries may begin in if a call names no size.
fn unsized_room(kept: &[u8], text: &[u8]) -> usize
    requires { length kept.now < length text.now }
    ensures { result ≡ unsized_room kept.now text.now }
{
    match text.last() {
        Some(b'\n') => kept.len() + 1,
        _ => text.len(),
    }
}

/// Adds the settings of one reading of a text, if it has no fault. Returns whether it has none. Errors: memory
/// ran out.
fn add_reading(
    alloc: Global,
    settings: &mut Vec<Setting>,
    reading: Reading,
    entries: Option<Vec<Entry>>,
    hasher: KeyedHash,
) -> Result<bool, AllocError>
    ensures { IfOk result (λ sound. IsRead (read_as reading (option_map (λ v. all_entries v.items) entries))
        (settings_shown settings.old) (settings_shown settings.new) sound) }
{
    let Some(entries) = entries else {
        return Ok(false);
    };
    add_settings(alloc, settings, reading, &entries, hasher)?;
    Ok(true)
}

/// What a text sets, by each of the readings, if none of them finds a fault in it. Errors: memory ran out.
pub(crate) fn imported(alloc: Global, text: &[u8]) -> Result<Option<Vec<Setting>>, AllocError>
    ensures { IfOk result (λ settings. option_map settings_shown settings ≡ imported text.now) }
{
    let kept = without_returns(alloc, text)?;
    let hasher = KeyedHash::of(text);
    let mut settings = Vec::new(alloc);
    let whole = entries_in(alloc, text, text.len())?;
    if kept.len() == text.len() {
        if add_reading(alloc, &mut settings, Reading::Both, whole, hasher)? {
            return Ok(Some(settings));
        }
        return Ok(None);
    }
    let sized = moved_entries(alloc, kept.len(), &kept, text)?;
    let room = unsized_room(&kept, text);
    let other = moved_entries(alloc, room, &kept, text)?;
    if add_reading(alloc, &mut settings, Reading::WithReturns, whole, hasher)?
        && add_reading(alloc, &mut settings, Reading::WithoutReturns, sized, hasher)?
        && add_reading(alloc, &mut settings, Reading::Unsized, other, hasher)?
    {
        return Ok(Some(settings));
    }
    Ok(None)
}
