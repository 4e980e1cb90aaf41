//! How a board starts: what its environment has before a run, and what runs first.
ghost use Rattle.std.specs.Prelude.{◌≡◌, ◌++◌, IfOk, OnOk, filter, map, option_map};
ghost use Rattle.std.specs.List.{flat_map};
ghost use Rattle.text.specs.Escapes.{word_escaped};
ghost use Rattle.board_start.specs.Start.{pair_text, varies};
ghost use Rattle.board_start.specs.StartShown.{givens_shown, pairs_shown};

use crate::begin_text::{is_set, text_behind_all};
use crate::board_error::BoardError;
use crate::counter::{Counter, CounterNames, asked_in, raised_in, saves_in};
use crate::place::place_of;
use crate::said::Said;
use crate::start_error::StartError;
use crate::values::{Givens, add_value, count, varies};
use envtools::Env;
use indexmap::IndexMap;
use keyed_hash::KeyedHash;
use std::alloc::{AllocError, Global};
use std::marker::Model;
use text::Escaped;

/// How a board starts.
#[derive(Drop)]
pub struct Start {
    alloc: Global,
    givens: Givens,
    before: Vec<Vec<u8>>,
    counter: Option<Counter>,
}

impl Model for Start {
    ghost use Rattle.std.specs.Prelude.{option_map};
    ghost use Rattle.board_start.specs.Start as spec;
    ghost use Rattle.board_start.specs.StartShown.{counter_shown, givens_shown};
    ghost use Rattle.commands.specs.TextsShown.{texts};

    ghost Value = { spec.Start };

    ghost view = { λ s. record {
      givens = givens_shown s.givens.entries;
      before = texts s.before.items;
      counter = option_map counter_shown s.counter;
    } };
}

/// What a rehearsal starts with.
#[derive(Drop)]
pub struct Begun {
    /// The environment.
    pub env: Env,
    /// Whether U-Boot has saved it, when it raised the boot counter.
    pub saves: bool,
    /// The text that is rehearsed in place of the variable's, if there is one.
    pub text: Option<Vec<u8>>,
}

/// Adds the bytes of a text as they are printed in a word. Errors: memory ran out.
fn add_escaped(line: &mut Vec<u8>, bytes: &[u8]) -> Result<(), AllocError>
    ensures { OnOk result (line.new.items ≡ line.old.items ++ flat_map word_escaped bytes.now) }
{
    for byte in bytes {
        line.extend_from_slice(Escaped::in_word(*byte).as_slice())?;
    }
    Ok(())
}

/// Adds a variable and its value, after a space. Errors: memory ran out.
fn add_pair(line: &mut Vec<u8>, name: &[u8], value: &[u8]) -> Result<(), AllocError>
    ensures { OnOk result (line.new.items ≡ line.old.items ++ pair_text (name.now, value.now)) }
{
    line.push(b' ')?;
    add_escaped(line, name)?;
    line.push(b'=')?;
    add_escaped(line, value)
}

/// Adds those variables that have several values. Errors: memory ran out.
fn add_varying(
    line: &mut Vec<u8>,
    givens: &Givens,
    pairs: &[(&[u8], &[u8])],
) -> Result<(), AllocError>
    ensures { OnOk result (line.new.items ≡ line.old.items ++ flat_map pair_text
        (filter (λ p. varies (givens_shown givens.now.entries) p.0) (pairs_shown pairs.now))) }
{
    for (name, value) in pairs {
        if varies(givens, name) {
            add_pair(line, name, value)?;
        }
    }
    Ok(())
}

impl Start {
    ghost use Rattle.std.specs.Option.{option_copied};
    ghost use Rattle.envtools.specs.Changes.{with_changes};
    ghost use Rattle.board_start.specs.Counter.{raised_in};
    ghost use Rattle.board_start.specs.Start.{after_given, after_said, alternatives, begun, chosen, first_texts, given_line, no_start, with_before, with_counter};
    ghost use Rattle.board_start.specs.StartShown.{names_shown, said_shown};
    ghost use Rattle.board_start.specs.StartAnswers.{Adds, Begins};

    /// Nothing is said. The names of variables will be found by this hash. Takes no memory.
    pub(crate) fn new(alloc: Global, hasher: KeyedHash) -> Self
        ensures { result ≡ no_start }
    {
        Start {
            alloc,
            givens: IndexMap::with_hasher(alloc, hasher),
            before: Vec::new(alloc),
            counter: None,
        }
    }

    /// One more line. Errors: `Start` with `TooMany`, `Memory`.
    pub(crate) fn add(&mut self, number: usize, said: Said<'_>) -> Result<(), BoardError>
        ensures { Adds (after_said self.old number (said_shown said.entry)) self.new result }
    {
        match said {
            Said::Given { name, value } => self.add_given(number, name, value),
            Said::Before(name) => Ok(self.add_before(name)?),
            Said::Counts(names) => Ok(self.set_counter(names)?),
            Said::Faulty | Said::Other => Ok(()),
        }
    }

    /// One more line `given`. Errors: `Start` with `TooMany`, `Memory`.
    fn add_given(&mut self, number: usize, name: &[u8], value: Vec<u8>) -> Result<(), BoardError>
        ensures { Adds (after_given self.old number name.now value.items) self.new result }
    {
        let is_further = add_value(self.alloc, &mut self.givens, name, value)?;
        if is_further && count(&self.givens) > 64 {
            return Err(BoardError::Start(StartError::TooMany(number)));
        }
        Ok(())
    }

    /// One more line `before`. Errors: `Memory`.
    fn add_before(&mut self, name: &[u8]) -> Result<(), AllocError>
        ensures { OnOk result (self.new ≡ with_before self.old name.now) }
    {
        let name = Vec::from_slice(self.alloc, name)?;
        self.before.push(name)?;
        Ok(())
    }

    /// One more line `count`. Errors: `Memory`.
    fn set_counter(&mut self, names: CounterNames<'_>) -> Result<(), AllocError>
        ensures { OnOk result (self.new ≡ with_counter self.old (names_shown names.entry)) }
    {
        self.counter = Some(Counter::of(self.alloc, names)?);
        Ok(())
    }

    /// The variable in which U-Boot counts boots, if the list says so.
    pub fn counter(&self) -> Option<&[u8]>
        ensures { option_copied result ≡ option_map (λ c. c.counter) self.now.counter }
    {
        match &self.counter {
            Some(counter) => Some(&counter.counter),
            None => None,
        }
    }

    /// The variable whose text is run once the boot counter has passed its limit, if the list names one.
    pub fn alternative(&self) -> Option<&[u8]>
        ensures { option_copied result ≡ option_map (λ c. c.alternative) self.now.counter }
    {
        match &self.counter {
            Some(counter) => Some(&counter.alternative),
            None => None,
        }
    }

    /// How many environments a board may start with: each value of a variable with each of the others.
    /// Takes no memory.
    pub fn alternatives(&self) -> u32
        ensures { result ≡ alternatives self.now }
    {
        count(&self.givens)
    }

    /// The variables of the alternative at this place, from 0 on. Errors: memory ran out.
    pub fn chosen(&self, place: u32) -> Result<Vec<(&[u8], &[u8])>, AllocError>
        ensures { IfOk result (λ v. pairs_shown v.items ≡ chosen self.now place) }
    {
        let mut pairs = Vec::new(self.alloc);
        let mut left = place as usize;
        let mut at = self.givens.len();
        while at > 0 {
            at -= 1;
            let (name, values) = self.givens.get_index(at).unwrap();
            let count = values.others.len() + 1;
            pairs.push((name.as_slice(), values.value_at(left % count)))?;
            left /= count;
        }
        pairs.reverse();
        Ok(pairs)
    }

    /// The line that names the alternative at this place, from 0 on: `given` and the variables that have
    /// several values. Errors: memory ran out.
    pub fn line(&self, place: u32) -> Result<Vec<u8>, AllocError>
        ensures { IfOk result (λ v. v.items ≡ given_line self.now place) }
    {
        let pairs = self.chosen(place)?;
        let mut line = Vec::from_slice(self.alloc, b"given")?;
        add_varying(&mut line, &self.givens, &pairs)?;
        line.push(b'\n')?;
        Ok(line)
    }

    /// The environment with the variables of the alternative at this place, from 0 on. Errors: memory
    /// ran out.
    pub fn give(&self, env: Env, place: u32) -> Result<Env, AllocError>
        ensures { IfOk result (λ new. new ≡ with_changes env (chosen self.now place)) }
    {
        let pairs = self.chosen(place)?;
        if pairs.is_empty() {
            return Ok(env);
        }
        env.changed_by(&pairs)
    }

    /// The environment with the raised boot counter, if the list says that the board has one. Errors: memory ran out.
    pub fn raise(&self, env: Env) -> Result<Env, AllocError>
        ensures { IfOk result (λ new. new ≡ raised_in self.now.counter env) }
    {
        raised_in(self.alloc, &self.counter, env)
    }

    /// The names of those variables whose texts run first and that are set, in order. Errors: memory ran
    /// out.
    pub fn first_texts(&self, env: &Env) -> Result<Vec<&[u8]>, AllocError>
        ensures { IfOk result (λ names. map (λ n. n.now) names.items ≡ first_texts env.now self.now.before) }
    {
        let mut names = Vec::new(self.alloc);
        for name in &self.before {
            if is_set(env, name) {
                names.push(name.as_slice())?;
            }
        }
        Ok(names)
    }

    /// What a rehearsal of a variable, or of a text, starts with: the environment with the variables of
    /// the alternative that is named, counted from 1, and with the raised boot counter, if there is one;
    /// and the texts that run first in front. Once the counter has passed its limit, the text of the
    /// variable that the list names for that is rehearsed, whatever is asked for. A list
    /// that has more than one alternative is refused if none is named. Errors in order: `Start` with
    /// `Alternatives`, `NoAlternative` and `Name`; `Memory` wherever a growth is made.
    pub fn begin(
        &self,
        alternative: Option<u32>,
        env: Env,
        name: &[u8],
        text: Option<&[u8]>,
    ) -> Result<Begun, BoardError>
        ensures { Begins (begun self.now alternative env name.now (option_copied text.entry)) result }
    {
        let place = place_of(self.alternatives(), alternative)?;
        let env = self.give(env, place)?;
        let saves = saves_in(&self.counter, &env);
        let env = self.raise(env)?;
        let asked = asked_in(&self.counter, &env, text);
        let text = text_behind_all(self.alloc, &env, &self.before, name, asked)?;
        Ok(Begun { env, saves, text })
    }
}
