//! A simple command. What no variable can change of it is found once, when it is read: its fields,
//! and the built-in command that its name is.
ghost use Rattle.std.specs.Prelude.{◌≡◌, map, option_map};
ghost use Rattle.builtins.specs.Builtins.{builtin_of};
ghost use Rattle.builtins.specs.BuiltinsShown.{builtin_shown};
ghost use Rattle.hushlang.specs.KnownFields.{first_field, known_fields, known_name};
ghost use Rattle.hushlang.specs.WordsShown.{word, known, fields_in};

use crate::known_fields::{known_fields, known_of_first};
use crate::token::SyntaxError;
use crate::tree::Word;
use builtins::{Builtin, builtin_named, builtin_of};
use std::alloc::Global;
use std::cell::Cell;
use std::fmt;
use std::rc::Rc;

/// A simple command: its words, and if these are known before it runs, their fields. If the first
/// field is known, whether it names a built-in command, and which.
#[derive(Drop)]
pub struct Call {
    words: Vec<Word>,
    fields: Option<Rc<Vec<Vec<u8>>>>,
    named: Option<Option<Builtin>>,
    /// Where its name was found in a list when it was looked up last.
    place: Cell<usize>,
    ghost prepared: { known fields ≡ known_fields (map word words.items) },
    ghost named_first: { option_map (option_map builtin_shown) named
        ≡ option_map builtin_of (known_name (map word words.items)) },
}

/// Whether the first of fields names a built-in command, and which, if there is a field.
fn named_by(fields: &Rc<Vec<Vec<u8>>>) -> Option<Option<Builtin>>
    ensures { option_map (option_map builtin_shown) result
        ≡ option_map builtin_of (first_field (fields_in fields.now)) }
{
    let name = fields.first()?;
    Some(builtin_of(name))
}

impl Call {
    ghost use Rattle.std.specs.Prelude.{◌≡◌, map, length, nat_le, true, option_map, IfOk, IfErr, IfSome};
    ghost use Rattle.hushlang.specs.Expansion as spec;
    ghost use Rattle.builtins.specs.Builtins.{builtin_named};
    ghost use Rattle.hushlang.specs.KnownFields.{known_builtin, known_fields};
    ghost use Rattle.builtins.specs.BuiltinsShown.{builtin_shown};
    ghost use Rattle.hushlang.specs.TreesShown as view;
    ghost use Rattle.text.specs.TextsShown.{bytes_of_words};
    ghost use Rattle.hushlang.specs.declared.token.SyntaxError.TheVariants.{Memory};

    /// A simple command of these words. Errors: `Memory`.
    pub fn new(alloc: Global, words: Vec<Word>) -> Result<Call, SyntaxError>
        ensures words { IfOk result (λ call. view.call call ≡ view.words_in words) }
        ensures err { IfErr result (λ error. error ≡ Memory) }
    {
        let fields = known_fields(alloc, &words)?;
        let named = match &fields {
            Some(found) => named_by(found),
            None => match &known_of_first(alloc, &words)? {
                Some(front) => named_by(front),
                None => None,
            },
        };
        Ok(Call {
            words,
            fields,
            named,
            place: Cell::new(usize::MAX),
        })
    }

    /// Its words, in order.
    pub fn words(&self) -> &[Word]
        ensures { map view.word result.now ≡ view.call self.now }
    {
        &self.words
    }

    /// Its fields, if these are the same whatever the variables and the status are and hold no more
    /// than 65,536 bytes in all.
    pub fn fields(&self) -> Option<&Rc<Vec<Vec<u8>>>>
        ensures known { option_map (λ found. view.fields_in found.now) result
            ≡ known_fields (view.call self.now) }
        ensures fields { (p : spec.Parameters) → IfSome result (λ found. view.fields_in found.now
            ≡ spec.fields p (view.call self.now)) }
        ensures within_limit { IfSome result (λ found.
            nat_le (spec.size (view.fields_in found.now)) spec.most_bytes ≡ true) }
    {
        self.fields.as_ref()
    }

    /// The built-in command that its name is, if its name is known and is one.
    pub fn builtin(&self) -> Option<Builtin>
        ensures { option_map builtin_shown result ≡ known_builtin (view.call self.now) }
    {
        self.named?
    }

    /// The built-in command that its fields name, if they name one. The fields are those by some
    /// variables and a status; their name is looked up only if it was not known before.
    pub fn builtin_in(&self, fields: &[Vec<u8>]) -> Option<Builtin>
        ensures { (p : spec.Parameters)
            → bytes_of_words fields.now ≡ spec.fields p (view.call self.now)
            → option_map builtin_shown result ≡ builtin_named (bytes_of_words fields.now) }
    {
        match self.named {
            Some(builtin) => builtin,
            None => builtin_named(fields),
        }
    }

    /// Where its name was found in a list when it was looked up last: a place to look at first.
    /// Nothing is promised of it.
    pub fn place(&self) -> usize {
        self.place.get()
    }

    /// Its name was found at a place in a list.
    pub fn note_place(&self, place: usize) {
        self.place.set(place);
    }
}

/// Calls are the same if their words are. What is found once follows from the words, and of the place
/// nothing is promised.
impl PartialEq for Call {
    ghost use Rattle.std.specs.Cmp.{on_per};
    ghost use Rattle.std.specs.Cmp.Lexicographic.{pointwise, lists_per};
    ghost use Rattle.hushlang.specs.contracts.tree.WordPartialEq.TheImpl as words;
    ghost use Rattle.hushlang.specs.contracts.tree.WordPartialEq.TheImpl.Laws.{laws-law};

    ghost eq = { λ a b. pointwise words.ghosts.eq a.words.items b.words.items };

    ghost laws = { on_per (λ call. call.words.items) (lists_per laws-law) };

    fn eq(&self, other: &Call) -> bool {
        self.words == other.words
    }
}

impl fmt::Debug for Call {
    fn fmt<W: fmt::Write>(&self, f: &mut fmt::Formatter<W>) -> fmt::Result {
        f.debug_struct("Call")
            .field("words", &self.words)
            .field("fields", &self.fields)
            .field("builtin", &self.builtin())
            .finish()
    }
}
