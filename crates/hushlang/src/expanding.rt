//! What words expand to: the fields of a command, or the one value of an assignment.

ghost use Rattle.std.specs.Prelude.{◌≡◌, ◌<◌, ◌≤◌, ◌+◌, ◌++◌, [], length, map, OnOk, IfOk, IfErr};
ghost use Rattle.std.specs.Option.{option_copied};
ghost use Rattle.hushlang.specs.Expansion as spec;
ghost use Rattle.hushlang.specs.Splitting as way;
ghost use Rattle.hushlang.specs.TreesShown as view;

use crate::tree::{Piece, Word};
use itoa::Buffer;
use std::alloc::{AllocError, AllocFailed, Global};
use std::collections::BTreeMap;
use std::marker::Model;
use std::mem;
use thiserror::Error;

mod one_variable;

pub use one_variable::OneVariable;

/// The most bytes that one expansion may hold.
const MOST_BYTES: usize = 65_536;

/// How many fields' memory is kept for later fields, and how many bytes a field may have room for
/// if its memory is kept.
const MOST_SPARE: usize = 32;

const MOST_SPARE_BYTES: usize = 1_024;

/// The length of the longest value that is read again at each use.
const MOST_READ_AGAIN: usize = 64;

/// Why words are not expanded.
#[derive(Clone, Copy, Debug, PartialEq, Eq, Error)]
pub enum ExpandError {
    /// The result would hold more than 65,536 bytes.
    #[error("the words expand to more than 65536 bytes")]
    TooLong,
    /// Memory ran out.
    #[error("out of memory")]
    Memory,
}

impl From<AllocError> for ExpandError {
    ghost use Rattle.std.specs.Prelude.{◌≡◌};
    ghost use Rattle.hushlang.specs.declared.expanding.ExpandError.TheVariants.{Memory};

    ghost from_gives = { λ _ e. e ≡ Memory };

    fn from(_: AllocError) -> ExpandError {
        ExpandError::Memory
    }
}

impl<T: Drop> From<AllocFailed<T>> for ExpandError {
    ghost use Rattle.std.specs.Prelude.{◌≡◌};
    ghost use Rattle.hushlang.specs.declared.expanding.ExpandError.TheVariants.{Memory};

    ghost from_gives = { λ _ e. e ≡ Memory };

    fn from(_: AllocFailed<T>) -> ExpandError {
        ExpandError::Memory
    }
}

/// The variables that are set, and the status of the last command.
pub trait Vars {
    /// The values of the variables, and the status of the last command.
    ghost parameters: { Self → spec.Parameters };

    /// The value of a variable, or `None` if it is not set.
    fn get(&self, name: &[u8]) -> Option<&[u8]>
        ensures { option_copied result ≡ (parameters self.now).value name.now };

    /// The status of the last command.
    fn status(&self) -> u8
        ensures { result ≡ (parameters self.now).status };
}

/// Expands words to their fields, in order. Errors: `TooLong` exactly if the fields hold more than
/// 65,536 bytes in all; `Memory` only if a growth was refused.
pub fn expand<V: Vars>(alloc: Global, words: &[Word], vars: &V) -> Result<Vec<Vec<u8>>, ExpandError>
    ensures fields { IfOk result (λ found. map (λ field. field.items) found.items
        ≡ spec.fields (V.parameters vars.now) (map view.word words.now)) }
    ensures within_limit { OnOk result
        (spec.size (spec.fields (V.parameters vars.now) (map view.word words.now))
        ≤ spec.most_bytes) }
    ensures too_long { IfErr result (λ error. error ≡ ExpandError.TooLong → spec.most_bytes
        < spec.size (spec.fields (V.parameters vars.now) (map view.word words.now))) }
{
    let mut fields = Fields::new(alloc);
    fields.fill(words, vars)?;
    Ok(fields.into_vec())
}

/// The fields of words, as `expand` gives them. What takes their place uses their memory again, so
/// that expanding words of the same lengths takes none.
#[derive(Drop)]
pub struct Fields {
    gathering: Gathering,
}

impl Model for Fields {
    ghost use Rattle.std.specs.Prelude.{List, ℕ};
    ghost use Rattle.hushlang.specs.Splitting.{fields_so_far};

    ghost Value = { List (List ℕ) };

    ghost view = { λ f. (fields_so_far f.gathering).whole };
}

impl Fields {
    /// No fields. Takes no memory.
    pub fn new(alloc: Global) -> Fields
        ensures { result ≡ [] }
    {
        Fields {
            gathering: Gathering::new(alloc),
        }
    }

    /// Puts the fields of words in the place of these, in order. Errors: `TooLong` exactly if the
    /// fields hold more than 65,536 bytes in all; `Memory` only if a growth was refused. After an
    /// error these may be any fields.
    pub fn fill<V: Vars>(&mut self, words: &[Word], vars: &V) -> Result<(), ExpandError>
        ensures fields { OnOk result
            (self.new ≡ spec.fields (V.parameters vars.now) (map view.word words.now)) }
        ensures within_limit { OnOk result
            (spec.size (spec.fields (V.parameters vars.now) (map view.word words.now))
            ≤ spec.most_bytes) }
        ensures too_long { IfErr result (λ error. error ≡ ExpandError.TooLong → spec.most_bytes
            < spec.size (spec.fields (V.parameters vars.now) (map view.word words.now))) }
    {
        self.gathering.restart();
        self.gathering.add_words(words, vars)
    }

    /// Puts other fields in the place of these.
    pub fn replace(&mut self, fields: Vec<Vec<u8>>)
        ensures { self.new ≡ map (λ field. field.items) fields.items }
    {
        self.gathering.whole = fields;
    }

    /// The fields, in order.
    pub fn as_slice(&self) -> &[Vec<u8>]
        ensures { map (λ field. field.items) result.now ≡ self.now }
    {
        &self.gathering.whole
    }

    /// The fields, with their memory.
    pub fn into_vec(self) -> Vec<Vec<u8>>
        ensures { map (λ field. field.items) result.items ≡ self }
    {
        self.gathering.into_fields()
    }
}

/// Expands a word to all its bytes, without cutting it at separators. Errors: `TooLong` exactly if
/// there are more than 65,536 of them; `Memory` only if a growth was refused.
pub fn expand_one<V: Vars>(alloc: Global, word: &Word, vars: &V) -> Result<Vec<u8>, ExpandError>
    ensures bytes { IfOk result
        (λ value. value.items ≡ spec.joined (V.parameters vars.now) (view.word word.now)) }
    ensures within_limit { OnOk result
        (length (spec.joined (V.parameters vars.now) (view.word word.now)) ≤ spec.most_bytes) }
    ensures too_long { IfErr result (λ error. error ≡ ExpandError.TooLong → spec.most_bytes
        < length (spec.joined (V.parameters vars.now) (view.word word.now))) }
{
    let mut value = Vec::new(alloc);
    for piece in &word.pieces {
        append_piece(&mut value, piece, vars)?;
    }
    Ok(value)
}

/// The value of a variable, or empty if it is not set.
fn value_of<'v, V: Vars>(vars: &'v V, name: &[u8]) -> &'v [u8]
    ensures { result.now ≡ spec.value_of (V.parameters vars.now) name.now }
{
    match vars.get(name) {
        Some(value) => value,
        None => &[],
    }
}

/// Whether a split value is cut at this byte.
fn separates(byte: u8) -> bool
    ensures { result ≡ spec.separates byte }
{
    byte == b' ' || byte == b'\t' || byte == b'\n'
}

/// The values of the names that were split so far, each shortened.
type ShortValues = BTreeMap<Vec<u8>, Vec<u8>>;

/// Copies a value without separators that follow a separator. It is cut to the same fields, and has
/// at most one byte more than twice the bytes that fields keep of it.
fn shortened(alloc: Global, value: &[u8]) -> Result<Vec<u8>, AllocError>
    ensures alike { IfOk result (λ short. way.AreCutAlike value.now short.items) }
    ensures brief { IfOk result (λ short. way.IsBrief short.items) }
{
    let mut short = Vec::new(alloc);
    let mut cut = false;
    for byte in value {
        let separator = separates(*byte);
        if separator && cut {
            continue;
        }
        short.push(*byte)?;
        cut = separator;
    }
    Ok(short)
}

/// Adds bytes to the end of a value. Errors: `TooLong` if they do not fit the limit, `Memory`.
fn append(value: &mut Vec<u8>, bytes: &[u8]) -> Result<(), ExpandError>
    requires { length value.old.items ≤ spec.most_bytes }
    ensures appended { OnOk result (value.new.items ≡ value.old.items ++ bytes.now) }
    ensures within_limit { OnOk result (length value.new.items ≤ spec.most_bytes) }
    ensures too_long { IfErr result (λ error. error ≡ ExpandError.TooLong → spec.most_bytes
        < length (value.old.items ++ bytes.now)) }
{
    if bytes.len() > MOST_BYTES - value.len() {
        return Err(ExpandError::TooLong);
    }
    value.extend_from_slice(bytes)?;
    Ok(())
}

/// Adds all bytes of a piece to the end of a value. Errors: `TooLong`, `Memory`.
#[tactic(auto, using(crate::proofs::ExpandLemmas::uncut))]
fn append_piece<V: Vars>(value: &mut Vec<u8>, piece: &Piece, vars: &V) -> Result<(), ExpandError>
    requires { length value.old.items ≤ spec.most_bytes }
    ensures appended { OnOk result
        (value.new.items ≡ value.old.items
        ++ spec.all_bytes (spec.atoms_of_piece (V.parameters vars.now) (view.piece piece.now))) }
    ensures within_limit { OnOk result (length value.new.items ≤ spec.most_bytes) }
    ensures too_long { IfErr result (λ error. error ≡ ExpandError.TooLong → spec.most_bytes
        < length (value.old.items
        ++ spec.all_bytes (spec.atoms_of_piece (V.parameters vars.now) (view.piece piece.now)))) }
{
    match piece {
        Piece::Bytes(bytes) => append(value, bytes),
        Piece::Mark => Ok(()),
        Piece::Var { name, split: _ } => append(value, value_of(vars, name)),
        Piece::Status => append(value, Buffer::new().format(vars.status()).as_bytes()),
    }
}

/// Fields on the way: those that are whole, the one to which bytes are added, whether that one has
/// begun (it may be empty), how many more bytes fit the limit, and the memory of earlier fields.
#[derive(Drop)]
struct Gathering {
    alloc: Global,
    whole: Vec<Vec<u8>>,
    field: Vec<u8>,
    begun: bool,
    room: usize,
    spare: Vec<Vec<u8>>,
}

impl Gathering {
    fn new(alloc: Global) -> Gathering
        ensures nothing { way.fields_so_far result ≡ way.nothing_gathered }
        ensures counted { way.IsCounted result }
    {
        Gathering {
            alloc,
            whole: Vec::new(alloc),
            field: Vec::new(alloc),
            begun: false,
            room: MOST_BYTES,
            spare: Vec::new(alloc),
        }
    }

    /// Begins anew without a field, and keeps the memory of some fields for later ones.
    fn restart(&mut self)
        ensures nothing { way.fields_so_far self.new ≡ way.nothing_gathered }
        ensures counted { way.IsCounted self.new }
    {
        'fields: while let Some(field) = self.whole.pop() {
            self.spare(field);
        }
        self.field.clear();
        self.begun = false;
        self.room = MOST_BYTES;
    }

    /// Keeps the memory of a field, if it is small and no more than enough is kept.
    fn spare(&mut self, field: Vec<u8>)
        ensures { way.fields_so_far self.new ≡ way.fields_so_far self.old }
    {
        if self.spare.len() < MOST_SPARE && field.capacity() <= MOST_SPARE_BYTES {
            let _kept = self.spare.push(field);
        }
    }

    /// An empty field, in memory that was kept if there is any.
    fn empty_field(&mut self) -> Vec<u8>
        ensures empty { result.items ≡ [] }
        ensures same { way.fields_so_far self.new ≡ way.fields_so_far self.old }
        ensures room { self.new.room ≡ self.old.room }
    {
        match self.spare.pop() {
            Some(mut field) => {
                field.clear();
                field
            }
            None => Vec::new(self.alloc),
        }
    }

    /// Gives the fields that are whole.
    fn into_fields(self) -> Vec<Vec<u8>>
        ensures { map (λ field. field.items) result.items ≡ (way.fields_so_far self).whole }
    {
        let Gathering {
            alloc: _,
            whole,
            field: _,
            begun: _,
            room: _,
            spare: _,
        } = self;
        whole
    }

    /// Adds a byte to the field on the way. Errors: `TooLong`, `Memory`.
    fn keep(&mut self, byte: u8) -> Result<(), ExpandError>
        requires { way.IsCounted self.old }
        ensures added { OnOk result
            (way.fields_so_far self.new ≡ way.with_atom (way.fields_so_far self.old)
            (spec.Kept byte)) }
        ensures counted { OnOk result (way.IsCounted self.new) }
        ensures too_long { IfErr result (λ error. error ≡ ExpandError.TooLong →
            spec.most_bytes < way.gathered_size
            (way.with_atom (way.fields_so_far self.old) (spec.Kept byte))) }
    {
        if self.room == 0 {
            return Err(ExpandError::TooLong);
        }
        self.field.push(byte)?;
        self.begun = true;
        self.room -= 1;
        Ok(())
    }

    /// Ends the field on the way, if it has begun. Errors: `Memory`.
    fn close(&mut self) -> Result<(), ExpandError>
        requires { way.IsCounted self.old }
        ensures closed { OnOk result
            (way.fields_so_far self.new ≡ way.closed (way.fields_so_far self.old)) }
        ensures counted { OnOk result (way.IsCounted self.new) }
        ensures memory { IfErr result (λ error. error ≡ ExpandError.Memory) }
    {
        if self.begun {
            let next = self.empty_field();
            let field = mem::replace(&mut self.field, next);
            self.whole.push(field)?;
            self.begun = false;
        }
        Ok(())
    }

    /// Adds bytes to the field on the way. Errors: `TooLong` if they do not fit the limit,
    /// `Memory`.
    #[tactic(auto, using(crate::proofs::ExpandLemmas::kept_at_once))]
    fn keep_all(&mut self, bytes: &[u8]) -> Result<(), ExpandError>
        requires { way.IsCounted self.old }
        ensures added { OnOk result
            (way.fields_so_far self.new ≡ way.with_atoms (way.fields_so_far self.old)
            (map spec.Kept bytes.now)) }
        ensures counted { OnOk result (way.IsCounted self.new) }
        ensures too_long { IfErr result (λ error. error ≡ ExpandError.TooLong →
            spec.most_bytes < way.gathered_size
            (way.with_atoms (way.fields_so_far self.old) (map spec.Kept bytes.now))) }
    {
        if bytes.len() > self.room {
            return Err(ExpandError::TooLong);
        }
        self.field.extend_from_slice(bytes)?;
        self.begun = self.begun || !bytes.is_empty();
        self.room -= bytes.len();
        Ok(())
    }

    /// Adds the bytes of a value that is cut at its separators. Errors: `TooLong`, `Memory`.
    fn split(&mut self, value: &[u8]) -> Result<(), ExpandError>
        requires { way.IsCounted self.old }
        ensures added { OnOk result
            (way.fields_so_far self.new ≡ way.with_atoms (way.fields_so_far self.old)
            (map spec.split_atom value.now)) }
        ensures counted { OnOk result (way.IsCounted self.new) }
        ensures too_long { IfErr result (λ error. error ≡ ExpandError.TooLong →
            spec.most_bytes < way.gathered_size
            (way.with_atoms (way.fields_so_far self.old) (map spec.split_atom value.now))) }
    {
        for byte in value {
            if separates(*byte) {
                self.close()?;
            } else {
                self.keep(*byte)?;
            }
        }
        Ok(())
    }

    /// Adds the bytes of a variable that is cut at its separators. The first use of a name reads
    /// the whole value; each later use takes time for the bytes that it adds, if the value is not
    /// short. Errors: `TooLong`, `Memory`.
    fn add_split<V: Vars>(
        &mut self,
        name: &[u8],
        vars: &V,
        values: &mut ShortValues,
    ) -> Result<(), ExpandError>
        requires counted { way.IsCounted self.old }
        requires short { way.AreShort (V.parameters vars.now) values.old.entries }
        ensures added { OnOk result
            (way.fields_so_far self.new ≡ way.with_atoms (way.fields_so_far self.old)
            (map spec.split_atom (spec.value_of (V.parameters vars.now) name.now))) }
        ensures counted { OnOk result (way.IsCounted self.new) }
        ensures short { OnOk result (way.AreShort (V.parameters vars.now) values.new.entries) }
        ensures too_long { IfErr result (λ error. error ≡ ExpandError.TooLong →
            spec.most_bytes < way.gathered_size
            (way.with_atoms (way.fields_so_far self.old)
            (map spec.split_atom (spec.value_of (V.parameters vars.now) name.now)))) }
    {
        if let Some(short) = values.get(name) {
            return self.split(short);
        }
        let value = value_of(vars, name);
        self.split(value)?;
        if value.len() <= MOST_READ_AGAIN {
            return Ok(());
        }
        let short = shortened(self.alloc, value)?;
        values.insert(Vec::from_slice(self.alloc, name)?, short)?;
        Ok(())
    }

    fn add_piece<V: Vars>(
        &mut self,
        piece: &Piece,
        vars: &V,
        values: &mut ShortValues,
    ) -> Result<(), ExpandError>
        requires counted { way.IsCounted self.old }
        requires short { way.AreShort (V.parameters vars.now) values.old.entries }
        ensures added { OnOk result
            (way.fields_so_far self.new ≡ way.with_atoms (way.fields_so_far self.old)
            (spec.atoms_of_piece (V.parameters vars.now) (view.piece piece.now))) }
        ensures counted { OnOk result (way.IsCounted self.new) }
        ensures short { OnOk result (way.AreShort (V.parameters vars.now) values.new.entries) }
        ensures too_long { IfErr result (λ error. error ≡ ExpandError.TooLong →
            spec.most_bytes < way.gathered_size
            (way.with_atoms (way.fields_so_far self.old)
            (spec.atoms_of_piece (V.parameters vars.now) (view.piece piece.now)))) }
    {
        match piece {
            Piece::Bytes(bytes) => self.keep_all(bytes),
            Piece::Mark => {
                self.begun = true;
                Ok(())
            }
            Piece::Var { name, split: true } => self.add_split(name, vars, values),
            Piece::Var { name, split: false } => self.keep_all(value_of(vars, name)),
            Piece::Status => self.keep_all(Buffer::new().format(vars.status()).as_bytes()),
        }
    }

    /// Adds the fields of words to none. Errors: `TooLong`, `Memory`.
    fn add_words<V: Vars>(&mut self, words: &[Word], vars: &V) -> Result<(), ExpandError>
        requires nothing { way.fields_so_far self.old ≡ way.nothing_gathered }
        requires counted { way.IsCounted self.old }
        ensures fields { OnOk result
            ((way.fields_so_far self.new).whole ≡ spec.fields (V.parameters vars.now)
            (map view.word words.now)) }
        ensures within_limit { OnOk result
            (spec.size (spec.fields (V.parameters vars.now) (map view.word words.now))
            ≤ spec.most_bytes) }
        ensures too_long { IfErr result (λ error. error ≡ ExpandError.TooLong → spec.most_bytes
            < spec.size (spec.fields (V.parameters vars.now) (map view.word words.now))) }
    {
        let mut values = ShortValues::new(self.alloc);
        for word in words {
            self.add_word(word, vars, &mut values)?;
        }
        Ok(())
    }

    /// Adds the fields of a word. Errors: `TooLong`, `Memory`.
    fn add_word<V: Vars>(
        &mut self,
        word: &Word,
        vars: &V,
        values: &mut ShortValues,
    ) -> Result<(), ExpandError>
        requires counted { way.IsCounted self.old }
        requires short { way.AreShort (V.parameters vars.now) values.old.entries }
        ensures added { OnOk result
            (way.fields_so_far self.new ≡ way.with_word (V.parameters vars.now)
            (way.fields_so_far self.old) (view.word word.now)) }
        ensures counted { OnOk result (way.IsCounted self.new) }
        ensures short { OnOk result (way.AreShort (V.parameters vars.now) values.new.entries) }
        ensures too_long { IfErr result (λ error. error ≡ ExpandError.TooLong →
            spec.most_bytes < way.gathered_size
            (way.with_word (V.parameters vars.now) (way.fields_so_far self.old)
            (view.word word.now))) }
    {
        for piece in &word.pieces {
            self.add_piece(piece, vars, values)?;
        }
        self.close()
    }
}
