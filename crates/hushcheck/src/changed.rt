//! Which variables the texts that are reached change.
ghost use Rattle.std.specs.Prelude.{◌≡◌, ◌++◌, ◌∷◌, [], map, true, IfOk, OnOk};
ghost use Rattle.text.specs.TextsShown.{option_bytes};
ghost use Rattle.hushcheck.specs.CallSetsShown.{names_shown};
ghost use Rattle.hushcheck.specs.Calls.{files_by_text, files_by_value};
ghost use Rattle.hushcheck.specs.Changed as spec;
ghost use Rattle.hushcheck.specs.Names.{run_by_found, run_by_text, run_by_value};
ghost use Rattle.hushcheck.specs.Queue.{after_turn, has_turn, next_turn};

use crate::by_shell::read_by;
use crate::calls::{Calls, calls_of};
use crate::checking::text_of;
use crate::names::Names;
use crate::queue::{Queue, queue_behind};
use crate::rules::Rules;
use envtools::Env;
use hushlang::{Script, SyntaxError};
use keyed_hash::KeyedHash;
use std::alloc::{AllocError, Global};
use std::marker::Model;

/// The variables that texts change.
#[derive(Drop)]
pub struct Changed {
    /// The names that are known, each once.
    pub names: Vec<Vec<u8>>,
    /// Whether the texts may change others, whose names are not known.
    pub more: bool,
}

impl Model for Changed {
    ghost use Rattle.hushcheck.specs.CallSetsShown.{names_shown};
    ghost use Rattle.hushcheck.specs.Changed as spec;

    ghost Value = { spec.Changed };

    ghost view = { λ c. record { names = names_shown c.names.items; more = c.more } };
}

/// What a text leads to.
#[derive(Drop)]
struct Followed {
    /// The script that it is, if it is one.
    script: Option<Script>,
    /// The files whose texts run after its calls.
    files: Vec<Vec<u8>>,
}

/// What texts change, so far.
#[derive(Drop)]
struct Changes {
    names: Names,
    more: bool,
}

impl Model for Changes {
    ghost use Rattle.hushcheck.specs.Changed as spec;

    ghost Value = { spec.Changed };

    ghost view = { λ c. record { names = c.names; more = c.more } };
}

impl Changes {
    /// Nothing. Names will be found by this hash.
    fn new(alloc: Global, hasher: KeyedHash) -> Changes
        ensures { result ≡ spec.nothing }
    {
        Changes {
            names: Names::new(alloc, hasher),
            more: false,
        }
    }

    /// Adds what a text sets and deletes, and whether there may be more. Errors: memory ran out.
    #[tactic(auto, using(crate::proofs::ChangedLemmas::names_twice))]
    fn add(
        &mut self,
        alloc: Global,
        sets: &[Vec<u8>],
        deletes: &[Vec<u8>],
        more: bool,
    ) -> Result<(), AllocError>
        ensures { OnOk result (self.new ≡ spec.with_changed self.old
            record { names = names_shown sets.now ++ names_shown deletes.now; more = more }) }
    {
        self.names.add_all(alloc, sets)?;
        self.names.add_all(alloc, deletes)?;
        self.more = self.more || more;
        Ok(())
    }

    /// Adds what a text changes. Errors: memory ran out.
    fn add_text(
        &mut self,
        alloc: Global,
        rules: &Rules<'_>,
        text: &[u8],
    ) -> Result<Followed, AllocError>
        ensures changed { OnOk result (self.new
            ≡ spec.with_changed self.old (spec.changed_by_text rules.now text.now)) }
        ensures script { IfOk result (λ followed. run_by_found followed.script
            ≡ run_by_text rules.now.shell text.now) }
        ensures files { IfOk result (λ followed. names_shown followed.files.items
            ≡ files_by_text rules.now text.now) }
    {
        let read = read_by(alloc, rules.shell, text)?;
        match read.script {
            Ok(script) => {
                let calls = calls_of(alloc, rules.devices, text, &script)?;
                let Calls {
                    sets,
                    deletes,
                    more,
                    files,
                    ..
                } = calls;
                self.add(alloc, &sets, &deletes, more)?;
                Ok(Followed {
                    script: Some(script),
                    files,
                })
            }
            Err(SyntaxError::Memory) => Err(AllocError),
            Err(_) => Ok(Followed {
                script: None,
                files: Vec::new(alloc),
            }),
        }
    }

    /// Adds what a text changes, if there is one. Errors: memory ran out.
    fn add_value(
        &mut self,
        alloc: Global,
        rules: &Rules<'_>,
        text: Option<&[u8]>,
    ) -> Result<Followed, AllocError>
        ensures changed { OnOk result (self.new ≡ spec.with_changed self.old
            (spec.changed_by_value rules.now (option_bytes text.entry))) }
        ensures script { IfOk result (λ followed. run_by_found followed.script
            ≡ run_by_value rules.now.shell (option_bytes text.entry)) }
        ensures files { IfOk result (λ followed. names_shown followed.files.items
            ≡ files_by_value rules.now (option_bytes text.entry)) }
    {
        match text {
            Some(text) => self.add_text(alloc, rules, text),
            None => Ok(Followed {
                script: None,
                files: Vec::new(alloc),
            }),
        }
    }

    /// Adds what the text changes that has its turn next, and to the queue what it leads to. Errors: memory ran out.
    fn add_turn(
        &mut self,
        alloc: Global,
        rules: &Rules<'_>,
        env: &Env,
        queue: &mut Queue,
    ) -> Result<(), AllocError>
        requires { has_turn queue.old ≡ true }
        ensures changed { OnOk result (self.new ≡ spec.with_changed self.old
            (spec.changed_by rules.now env.now (next_turn queue.old))) }
        ensures queue { OnOk result (queue.new ≡ after_turn rules.now env.now queue.old) }
    {
        let text = text_of(rules, env, queue.turn());
        let followed = self.add_value(alloc, rules, text)?;
        queue.pass_text(alloc, followed.script, &followed.files)
    }

    /// Adds what is changed by the texts that are reached from the variables that are asked for, and from those that a
    /// script runs, if there is one, and from the files that are called. Names are found by this hash. Errors: memory
    /// ran out.
    fn add_reached(
        &mut self,
        alloc: Global,
        rules: &Rules<'_>,
        env: &Env,
        asked: &[&[u8]],
        script: Option<Script>,
        called: &[Vec<u8>],
        hasher: KeyedHash,
    ) -> Result<(), AllocError>
        ensures { OnOk result (spec.Changes rules.now env.now self.old
            (map (λ name. name.now) asked.now ++ run_by_found script) (names_shown called.now)
            self.new) }
    {
        let mut queue = queue_behind(alloc, asked, script, called, hasher)?;
        'turns: while queue.has_turn() {
            self.add_turn(alloc, rules, env, &mut queue)?;
        }
        Ok(())
    }

    /// All of it. Errors: memory ran out.
    fn into_changed(self, alloc: Global) -> Result<Changed, AllocError>
        ensures { IfOk result (λ changed. changed ≡ self) }
    {
        let Changes { names, more } = self;
        Ok(Changed {
            names: names.into_names(alloc)?,
            more,
        })
    }
}

/// What is changed by the texts that are reached from a variable. Errors: memory ran out.
fn changed_from_variable(
    alloc: Global,
    rules: &Rules<'_>,
    env: &Env,
    name: &[u8],
) -> Result<Changed, AllocError>
    ensures { IfOk result (λ changed. spec.Changes rules.now env.now spec.nothing (name.now ∷ []) []
        changed) }
{
    let mut changes = Changes::new(alloc, env.hasher());
    changes.add_reached(alloc, rules, env, &[name], None, &[], env.hasher())?;
    changes.into_changed(alloc)
}

/// What is changed by a text, and by those that are reached from it. Errors: memory ran out.
fn changed_from_text(
    alloc: Global,
    rules: &Rules<'_>,
    env: &Env,
    text: &[u8],
) -> Result<Changed, AllocError>
    ensures { IfOk result (λ changed. spec.Changes rules.now env.now
        (spec.with_changed spec.nothing (spec.changed_by_text rules.now text.now))
        (run_by_text rules.now.shell text.now) (files_by_text rules.now text.now) changed) }
{
    let hasher = env.hasher().with(text);
    let mut changes = Changes::new(alloc, hasher);
    let followed = changes.add_text(alloc, rules, text)?;
    changes.add_reached(
        alloc,
        rules,
        env,
        &[],
        followed.script,
        &followed.files,
        hasher,
    )?;
    changes.into_changed(alloc)
}

/// The variables that the texts set or delete that are reached from the variable `name`, or from this text, if one is
/// given; what is reached, `check` says. Each name comes once, in the order of the texts; of a text first those that it
/// sets, and then those that it deletes. And whether the texts may set or delete others, whose names are not written
/// out: by a word that holds a variable, by a call that takes the names from elsewhere, or as a text runs whose name is
/// not known. A text that is not well-formed changes nothing. Errors: memory ran out.
pub fn changed_names(
    alloc: Global,
    rules: &Rules<'_>,
    env: &Env,
    name: &[u8],
    text: Option<&[u8]>,
) -> Result<Changed, AllocError>
    ensures { IfOk result (λ changed. spec.ChangesFrom rules.now env.now name.now
        (option_bytes text.entry) changed) }
{
    match text {
        Some(text) => changed_from_text(alloc, rules, env, text),
        None => changed_from_variable(alloc, rules, env, name),
    }
}
