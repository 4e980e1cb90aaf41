//! The boot counter of U-Boot: the line of a device list that says that a board has one, and what it does before
//! a text runs.
ghost use Rattle.std.specs.Prelude.{◌≡◌, IfOk, option_map};
ghost use Rattle.std.specs.Option.{option_copied};
ghost use Rattle.text.specs.Words.{words_of};
ghost use Rattle.board_start.specs.Counter.{asked_in, count_in, count_words, is_passed, is_upgrade, number_in, raised, raised_in, saves_in, text_in};
ghost use Rattle.board_start.specs.StartShown.{counter_shown, names_shown};

use commands::leading_number;
use envtools::Env;
use std::alloc::{AllocError, Global};
use text::next_word;

/// The names in a line of a device list that says that a board has a boot counter.
#[derive(Clone, Copy)]
pub(crate) struct CounterNames<'a> {
    /// The counter.
    pub(crate) counter: &'a [u8],
    /// Its limit.
    pub(crate) limit: &'a [u8],
    /// The variable whose text is run beyond the limit.
    pub(crate) alternative: &'a [u8],
}

/// The boot counter of a board, by the same names.
#[derive(Drop)]
pub(crate) struct Counter {
    pub(crate) counter: Vec<u8>,
    pub(crate) limit: Vec<u8>,
    pub(crate) alternative: Vec<u8>,
}

/// The three names, if the words of a line are those of a counter.
pub(crate) fn count_words(line: &[u8]) -> Option<CounterNames<'_>>
    ensures { option_map names_shown result ≡ count_words (words_of line.now) }
{
    let (count_word, rest) = next_word(line)?;
    let (counter, rest) = next_word(rest)?;
    let (limit_word, rest) = next_word(rest)?;
    let (limit, rest) = next_word(rest)?;
    let (else_word, rest) = next_word(rest)?;
    let (alternative, rest) = next_word(rest)?;
    if next_word(rest).is_some() {
        return None;
    }
    let is_count = count_word == b"count".as_slice()
        && limit_word == b"limit".as_slice()
        && else_word == b"else".as_slice();
    if !is_count {
        return None;
    }
    Some(CounterNames {
        counter,
        limit,
        alternative,
    })
}

/// The number of a variable, and 0 if it is not set.
fn number_in(env: &Env, name: &[u8]) -> u64
    ensures { result ≡ number_in env.now name.now }
{
    match env.get(name) {
        Some(value) => leading_number(value),
        None => 0,
    }
}

/// Whether an update is tried.
fn is_upgrade(env: &Env) -> bool
    ensures { result ≡ is_upgrade env.now }
{
    number_in(env, b"upgrade_available") % 4_294_967_296 != 0
}

/// The text of a variable, and the empty text if it is not set.
fn text_in<'a>(env: &'a Env, name: &[u8]) -> &'a [u8]
    ensures { result.now ≡ text_in env.now name.now }
{
    match env.get(name) {
        Some(text) => text,
        None => &[],
    }
}

impl Counter {
    /// A copy of the names. Errors: memory ran out.
    pub(crate) fn of(alloc: Global, names: CounterNames<'_>) -> Result<Counter, AllocError>
        ensures { IfOk result (λ c. counter_shown c ≡ names_shown names.entry) }
    {
        Ok(Counter {
            counter: Vec::from_slice(alloc, names.counter)?,
            limit: Vec::from_slice(alloc, names.limit)?,
            alternative: Vec::from_slice(alloc, names.alternative)?,
        })
    }

    /// The number that is counted on: that of the counter if an update is tried, else 0.
    fn count_in(&self, env: &Env) -> u64
        ensures { result ≡ count_in (counter_shown self.now) env.now }
    {
        if is_upgrade(env) {
            number_in(env, &self.counter)
        } else {
            0
        }
    }

    /// The environment with the raised counter. Errors: memory ran out.
    fn raised(&self, alloc: Global, env: &Env) -> Result<Env, AllocError>
        ensures { IfOk result (λ new. new ≡ raised (counter_shown self.now) env.now) }
    {
        let count = self.count_in(env).wrapping_add(1);
        let value = format!(in alloc; "{count}")?;
        env.changed_by(&[(self.counter.as_slice(), value.as_bytes())])
    }

    /// Whether the limit is passed.
    fn is_passed(&self, env: &Env) -> bool
        ensures { result ≡ is_passed (counter_shown self.now) env.now }
    {
        let limit = number_in(env, &self.limit);
        limit != 0 && limit < self.count_in(env)
    }
}

/// The environment with the raised counter, if there is one. Errors: memory ran out.
pub(crate) fn raised_in(
    alloc: Global,
    counter: &Option<Counter>,
    env: Env,
) -> Result<Env, AllocError>
    ensures { IfOk result (λ new. new ≡ raised_in (option_map counter_shown counter.now) env) }
{
    match counter {
        Some(counter) => counter.raised(alloc, &env),
        None => Ok(env),
    }
}

/// Whether U-Boot saves the environment when it raises the counter.
pub(crate) fn saves_in(counter: &Option<Counter>, env: &Env) -> bool
    ensures { result ≡ saves_in (option_map counter_shown counter.now) env.now }
{
    match counter {
        Some(_) => is_upgrade(env),
        None => false,
    }
}

/// The text that is asked for, or that of the alternative once the limit is passed.
pub(crate) fn asked_in<'a>(
    counter: &Option<Counter>,
    env: &'a Env,
    text: Option<&'a [u8]>,
) -> Option<&'a [u8]>
    ensures { option_copied result ≡ asked_in (option_map counter_shown counter.now) env.now (option_copied text.entry) }
{
    match counter {
        Some(counter) if counter.is_passed(env) => Some(text_in(env, &counter.alternative)),
        _ => text,
    }
}
