//! The device list: which commands are device commands, and what each does on success.
ghost use Rattle.std.specs.Prelude.{◌≡◌, IfOk, IfSome, map, option_map};
ghost use Rattle.std.specs.List.{list_any};
ghost use Rattle.std.specs.Str.{bytes_eq};
ghost use Rattle.text.specs.TextsShown.{option_bytes};
ghost use Rattle.device_list.specs.DeviceList.{effect_of, file_in, fails_normally, stays_in, is_choice, expected, computed_by, is_listed, all_steady, filled};
ghost use Rattle.device_list.specs.DeviceListAnswers.{IsListed, IsListedWith};
ghost use Rattle.device_list.specs.CommandsShown.{files_shown, lent_effect};
ghost use Rattle.commands.specs.ComputedShown.{call_shown};
ghost use Rattle.device_list.specs.DeviceList as spec;
ghost use Rattle.device_list.specs.NamedPlaces.{ArePlaced, IsPlaced};
ghost use Rattle.commands.specs.TextsShown.{texts};
ghost use Rattle.envtools.specs.Environment.{value_of};
ghost use Rattle.device_list.specs.Saving.{saving, saves};

use crate::device_tables::{ByName, DeviceTables, FileTexts, Places};
use crate::devices_error::DevicesError;
use crate::listed::Effect;
use commands::Computed;
use envtools::Env;
use indexmap::IndexMap;
use keyed_hash::KeyedHash;
use std::alloc::{AllocError, Global};
use std::marker::Model;

/// The device commands of a device list, each with what its calls do on success.
#[derive(Drop)]
pub struct Devices {
    tables: DeviceTables,
    /// Names of the tables, each with where these have it.
    names: ByName<Places>,
    /// Whether each command and `test -e` is steady.
    all_steady: bool,
}

impl Model for Devices {
    ghost use Rattle.device_list.specs.DeviceList as spec;
    ghost use Rattle.device_list.specs.NamedPlaces.{ArePlaced};

    ghost Value = { spec.Devices };

    ghost view = { λ d. spec.steady_if d.all_steady d.tables };

    ghost invariant = { λ d. ArePlaced d.tables d.names.entries };
}

/// Where the tables have the name at a place, if it is this name.
fn places_at(names: &ByName<Places>, name: &[u8], place: usize) -> Option<Places>
    ensures { (list : spec.Devices) → ArePlaced list names.now.entries
        → IfSome result (IsPlaced list name.now) }
{
    let (found, places) = names.get_index(place)?;
    if found.as_slice() == name {
        Some(*places)
    } else {
        None
    }
}

impl Devices {
    /// The commands of a device list, a line each: `NAME SETTINGS`, or `final NAME SETTINGS` for one that
    /// ends the run; `sub NAME WORD SETTINGS` and `final sub NAME WORD SETTINGS` speak of the calls of NAME
    /// whose first word is WORD. `steady`, before all of that or after `final`, has the answers stay: asked
    /// again with the same words in one run, the command answers as before. `steady test` says so of `test
    /// -e`. `known NAME` has the calls of NAME computed, where its words can be; NAME is `env`, `itest` or
    /// `setexpr`. `call PATTERN : CLAUSES` is about the calls of a command that fit a pattern: its name,
    /// and then the words of the call, of which `*` is any one, one that ends with `*` each that starts so,
    /// and a last `**` any number. Clauses are `final`, `steady`, `always 0` and `always 1` (the only
    /// status of the call, which then takes no outcome), `needs NAME` and `needs NAME WORD` (the call fails
    /// without an outcome, unless a call of NAME, whose first word is WORD, succeeded before in the run),
    /// `normal 1` (a failure is what is expected of the call), and settings, in any order; there, `VAR=@N`
    /// and `VAR=@last` have a word of the call as the value, and a value may have parts in single quotes,
    /// with blanks in them. `absent NAME` is `call NAME ** : always 1`, and `saves NAME` is `call NAME ** :
    /// saves`: on success, after its settings, the call saves the environment. Spaces, tabs and carriage returns
    /// round a line are dropped; spaces and tabs separate its words. Lines without a word, and lines that
    /// start with `#`, are skipped. The first word is the name, unless it is `final` or `steady` and a word
    /// without `=` follows, or `sub` and two such words follow. Each further word is a setting: a variable,
    /// the first `=`, and a value that may be empty. In a `sub` line, `@N` and `@last` stand for the
    /// variable that the Nth or the last word of the call names. Lines of one name, and `sub` lines of one
    /// name and word, are joined: final if one of them is, steady if one of them is, settings in their
    /// order.
    ///
    /// A list that starts with UTF-8's byte order mark is refused for it: `ByteOrderMark`. Otherwise the
    /// first faulty line is refused: `BadLine` where it holds NUL, or a further word has no `=`, an empty
    /// variable, one that starts with `-`, or in a `sub` line one that starts with `@` and is no word of
    /// the call; in a line of calls, where a clause is none or is there twice, a quote is not closed or
    /// is in no value, the name is missing or holds `*`, `needs` has no name after it, `normal` no
    /// `1`, `runs` no file, both `always` and `normal` are there, or `**` is not last; else `BuiltIn` where
    /// its name is that of a built-in command.
    pub fn parse(alloc: Global, text: &[u8]) -> Result<Self, DevicesError>
        ensures { IsListed text.now result }
    {
        Devices::parse_with(
            alloc,
            text,
            IndexMap::with_hasher(alloc, KeyedHash::of(text)),
        )
    }

    /// The same of a list whose lines may name these files. A line of calls may have the clause `runs FILE`:
    /// then the text of this file runs after a success. A line `or call PATTERN : runs FILE`, with the
    /// pattern of the last line of calls of its name, adds a file to those of that line, of which the text
    /// of one runs. Each of them but the last gets a line `call runs FILE : steady`: calls of
    /// `runs` ask which one it is. A line of calls may have `imports FILE`, also more than once: then the
    /// variables of this file are set after a success, in their place among the settings, as `env import -t`
    /// reads a text, with `-r` if the call has it, and only the names of the call, if it has any. Its
    /// settings may have the value `@size(FILE)`, the size of this file in hexadecimal. A line that names
    /// another file is a `BadLine`, and so is one that imports a file which is a script image or holds NUL,
    /// or in which `env import` finds an empty name. A line `or` is one too where no such line comes before,
    /// where it has another clause, where eight came before, or where a file that is asked for has another
    /// byte in its name than letters, digits, `-`, `.`, `/` and `_`.
    pub fn parse_with(alloc: Global, text: &[u8], files: FileTexts) -> Result<Self, DevicesError>
        ensures { IsListedWith (files_shown files.entries) text.now result }
    {
        let tables = DeviceTables::parse(alloc, text, files)?;
        let names = tables.names()?;
        let all_steady = false;
        Ok(Devices {
            tables,
            names,
            all_steady,
        })
    }

    /// The same list, as if each of its lines said `steady`, and with `steady test`. Takes no memory.
    pub fn steady(self) -> Self
        ensures { result ≡ all_steady self }
    {
        Devices {
            all_steady: true,
            ..self
        }
    }

    /// The same list, but each word of a pattern that is `${NAME}`, also one that a `*` ends, is the value of NAME
    /// in an environment, where that is not empty. Errors: memory ran out.
    pub fn filled(self, env: &Env) -> Result<Self, AllocError>
        ensures { IfOk result (λ devices. devices ≡ filled (value_of env.now) self) }
    {
        let Devices {
            mut tables,
            names: _,
            all_steady,
        } = self;
        tables.fill(env)?;
        let names = tables.names()?;
        Ok(Devices {
            tables,
            names,
            all_steady,
        })
    }

    /// The same list, but a call that saves also sets, after its other settings, a copy of each of these variables:
    /// under the name that `saved_name` makes, `=` and the value, or nothing if the variable is not set. Errors:
    /// memory ran out.
    pub fn saving(self, names: &[&[u8]]) -> Result<Self, AllocError>
        ensures { IfOk result (λ devices. devices ≡ saving (map (λ n. n.now) names.now) self) }
    {
        let Devices {
            mut tables,
            names: _,
            all_steady,
        } = self;
        tables.save(names)?;
        let names = tables.names()?;
        Ok(Devices {
            tables,
            names,
            all_steady,
        })
    }

    /// Whether a call of the list saves. Takes no memory.
    pub fn saves(&self) -> bool
        ensures { result ≡ saves self.now }
    {
        self.tables.saves()
    }

    /// Whether a line names a command. Takes no memory.
    pub fn has(&self, name: &[u8]) -> bool
        ensures { result ≡ is_listed self.now name.now }
    {
        self.tables.has(name)
    }

    /// What a call of a command does on success, if it is listed: what the first line of calls says that
    /// fits it, or else what the `sub` lines of its first word say, or else what the lines of its name
    /// say. Takes no memory.
    pub fn effect(&self, name: &[u8], words: &[Vec<u8>]) -> Option<Effect<'_>>
        ensures { option_map lent_effect result ≡ effect_of self.now name.now (texts words.now) }
    {
        self.effect_near(name, words, self.place_near(name, 0))
    }

    /// The same, by a look-up in each of the tables.
    fn effect_in_tables(&self, name: &[u8], words: &[Vec<u8>]) -> Option<Effect<'_>>
        ensures { option_map lent_effect result ≡ effect_of self.now name.now (texts words.now) }
    {
        let effect = self.tables.effect(name, words)?;
        Some(effect.steady_if(self.all_steady))
    }

    /// Whether a failure is what is expected of a call with these words, its name first.
    fn fails_normally(&self, call: &[Vec<u8>]) -> bool
        ensures { result ≡ fails_normally self.now (texts call.now) }
    {
        self.tables.fails_normally(call)
    }

    /// Whether the answer of a call stays.
    fn stays(&self, name: &[u8], words: &[Vec<u8>]) -> bool
        ensures { result ≡ stays_in self.now name.now (texts words.now) }
    {
        match self.effect(name, words) {
            Some(effect) => effect.stays,
            None => false,
        }
    }

    /// Whether a call with these words, its name first, asks which file runs.
    fn is_choice(&self, call: &[Vec<u8>]) -> bool
        ensures { result ≡ is_choice self.now (texts call.now) }
    {
        let [name, file] = call else {
            return false;
        };
        if name.as_slice() != b"runs".as_slice() || !self.tables.asks_of(file) {
            return false;
        }
        self.stays(b"runs", &call[1..])
    }

    /// Whether a success is what is expected of a call with these words, its name first. A call that asks which
    /// file runs is expected to be answered in neither way. Takes no memory.
    pub fn expected(&self, call: &[Vec<u8>]) -> Option<bool>
        ensures { result ≡ expected self.now (texts call.now) }
    {
        if self.is_choice(call) {
            return None;
        }
        Some(!self.fails_normally(call))
    }

    /// What `effect` says. The name is looked up only if it is not at the place that is given. Takes no
    /// memory.
    pub fn effect_near(&self, name: &[u8], words: &[Vec<u8>], place: usize) -> Option<Effect<'_>>
        ensures { option_map lent_effect result ≡ effect_of self.now name.now (texts words.now) }
    {
        let Some(places) = places_at(&self.names, name, place) else {
            return self.effect_in_tables(name, words);
        };
        let effect = self.tables.placed_effect(places, words)?;
        Some(effect.steady_if(self.all_steady))
    }

    /// The place of a name among those of the list, or any number if the list does not have it. It is
    /// looked up only if the name is not at the place that is given. It takes no memory.
    pub fn place_near(&self, name: &[u8], place: usize) -> usize {
        if places_at(&self.names, name, place).is_some() {
            return place;
        }
        self.names.get_index_of(name).unwrap_or(place)
    }

    /// The result of a call, if the list has its command computed and its words can be. It takes no
    /// memory.
    pub fn computed<'w>(&self, name: &[u8], words: &'w [Vec<u8>]) -> Option<Computed<'w>>
        ensures { call_shown result ≡ computed_by self.now name.now (texts words.now) }
    {
        self.tables.computed(name, words)
    }

    /// Whether the answers of `test -e` stay.
    pub fn test_stays(&self) -> bool
        ensures { result ≡ (self.now).test_stays }
    {
        self.all_steady || self.tables.test_stays()
    }

    /// The text of a file that may run. Takes no memory.
    pub fn file(&self, name: &[u8]) -> Option<&[u8]>
        ensures { option_bytes result ≡ file_in self.now name.now }
    {
        self.tables.file(name)
    }

    /// Whether the list has a command computed. Takes no memory.
    pub fn is_known(&self, name: &[u8]) -> bool
        ensures { result ≡ list_any (bytes_eq name.now) (self.now).known }
    {
        self.tables.is_known(name)
    }
}
