//! The words of a command, and those of a `for`, with their values put in (`expand_vars_to_list`).
ghost use Rattle.std.specs.Prelude.{◌≡◌, ◌++◌, map, flat_map, IfOk, OnOk};
ghost use Rattle.hushlang.specs.Expansion as expansion;
ghost use Rattle.hushlang.specs.TreesShown as view;
ghost use Rattle.hushlang_modern.specs.ModernFields as says;
ghost use Rattle.hushlang_modern.specs.ModernFieldsShown as shown;
ghost use Rattle.hushlang_modern.specs.ModernTokens.{guarded};
ghost use Rattle.hushlang_modern.specs.ModernWords as words;

use crate::byte_classes::is_guarded;
use crate::found_words::{bytes_of, have_lasting};
use crate::word_bytes::without_guards;
use hushlang::{Piece, Vars, Word};
use hushlang_uboot::are_constant_pieces;
use itoa::Buffer;
use std::alloc::{AllocError, Global};
use std::mem;

/// A word that is being expanded: its fields that are whole, and the bytes of the field on the way;
/// whether double quotes are in that field; whether they are in the word; whether the last byte was a
/// blank that cuts; and whether the last byte of a value was a backslash that the next one follows.
#[derive(Drop)]
struct Expanding {
    alloc: Global,
    whole: Vec<Vec<u8>>,
    field: Vec<u8>,
    quoted: bool,
    kept: bool,
    cut: bool,
    behind: bool,
}

/// Whether a byte cuts a value.
fn separates(byte: u8) -> bool
    ensures { result ≡ expansion.separates byte }
{
    byte == b' ' || byte == b'\t' || byte == b'\n'
}

impl Expanding {
    fn new(alloc: Global) -> Expanding
        ensures { shown.expanding result ≡ says.nothing_expanded }
    {
        Expanding {
            alloc,
            whole: Vec::new(alloc),
            field: Vec::new(alloc),
            quoted: false,
            kept: false,
            cut: false,
            behind: false,
        }
    }

    /// The field on the way ends (`o_save_ptr`).
    fn end_field(&mut self) -> Result<(), AllocError>
        ensures { OnOk result (shown.expanding self.new
            ≡ says.field_ended (shown.expanding self.old)) }
    {
        let field = mem::replace(&mut self.field, Vec::new(self.alloc));
        self.whole.push(field)?;
        self.quoted = false;
        self.cut = false;
        Ok(())
    }

    /// A piece begins.
    fn begin_piece(&mut self) -> Result<(), AllocError>
        ensures { OnOk result (shown.expanding self.new
            ≡ says.piece_begun (shown.expanding self.old)) }
    {
        self.behind = false;
        if self.cut {
            return self.end_field();
        }
        Ok(())
    }

    /// Blanks end in front of a byte of a value.
    fn end_blanks(&mut self) -> Result<(), AllocError>
        ensures { OnOk result (shown.expanding self.new
            ≡ says.blanks_ended (shown.expanding self.old)) }
    {
        if self.cut && (self.quoted || !self.field.is_empty()) {
            return self.end_field();
        }
        self.cut = false;
        Ok(())
    }

    /// A byte of a value that does not cut it.
    fn push_kept(&mut self, byte: u8) -> Result<(), AllocError>
        ensures { OnOk result (shown.expanding self.new
            ≡ says.with_kept_byte byte (shown.expanding self.old)) }
    {
        if self.behind || byte == b'\\' {
            self.field.push(b'\\')?;
        }
        self.field.push(byte)?;
        self.behind = !self.behind && byte == b'\\';
        Ok(())
    }

    /// A byte of a value outside double quotes.
    fn push_value_byte(&mut self, byte: u8) -> Result<(), AllocError>
        ensures { OnOk result (shown.expanding self.new
            ≡ says.with_value_byte byte (shown.expanding self.old)) }
    {
        if separates(byte) {
            self.cut = true;
            self.behind = false;
            return Ok(());
        }
        self.end_blanks()?;
        self.push_kept(byte)
    }

    /// A value outside double quotes (`expand_on_ifs`).
    fn push_value(&mut self, value: &[u8]) -> Result<(), AllocError>
        ensures { OnOk result (shown.expanding self.new
            ≡ says.with_value value.now (shown.expanding self.old)) }
    {
        for byte in value {
            self.push_value_byte(*byte)?;
        }
        Ok(())
    }

    /// A byte of a value in double quotes.
    fn push_guarded(&mut self, byte: u8) -> Result<(), AllocError>
        ensures { OnOk result (shown.expanding self.new
            ≡ says.with_bytes (guarded byte) (shown.expanding self.old)) }
    {
        if is_guarded(byte) {
            self.field.push(b'\\')?;
        }
        self.field.push(byte)?;
        Ok(())
    }

    /// A value in double quotes.
    fn push_quoted(&mut self, value: &[u8]) -> Result<(), AllocError>
        ensures { OnOk result (shown.expanding self.new
            ≡ says.with_bytes (says.guarded_all value.now) (shown.expanding self.old)) }
    {
        for byte in value {
            self.push_guarded(*byte)?;
        }
        Ok(())
    }

    /// The value of a variable.
    fn push_variable<V: Vars>(
        &mut self,
        name: &[u8],
        split: bool,
        vars: &V,
    ) -> Result<(), AllocError>
        ensures { OnOk result (shown.expanding self.new
            ≡ says.with_variable (V.parameters vars.now) name.now split (shown.expanding self.old)) }
    {
        let Some(value) = vars.get(name) else {
            return Ok(());
        };
        if split {
            return self.push_value(value);
        }
        self.push_quoted(value)
    }

    /// A piece of the word.
    fn push_piece<V: Vars>(&mut self, piece: &Piece, vars: &V) -> Result<(), AllocError>
        ensures { OnOk result (shown.expanding self.new
            ≡ says.with_piece (V.parameters vars.now) (view.piece piece.now) (shown.expanding self.old)) }
    {
        self.begin_piece()?;
        match piece {
            Piece::Bytes(bytes) => self.field.extend_from_slice(bytes),
            Piece::Mark => {
                self.quoted = true;
                self.kept = true;
                Ok(())
            }
            Piece::Var { name, split } => self.push_variable(name, *split, vars),
            Piece::Status => self
                .field
                .extend_from_slice(Buffer::new().format(vars.status()).as_bytes()),
        }
    }

    /// The last field ends, if it has a byte or quotes are in the word.
    fn end_word(&mut self) -> Result<(), AllocError>
        ensures { OnOk result (map (λ field. field.items) self.new.whole.items
            ≡ says.all_fields (shown.expanding self.old)) }
    {
        if self.kept || !self.field.is_empty() {
            return self.end_field();
        }
        Ok(())
    }
}

/// Fields without the backslashes that the shell has put into them.
fn without_all_guards(alloc: Global, fields: Vec<Vec<u8>>) -> Result<Vec<Vec<u8>>, AllocError>
    ensures { IfOk result (λ made. map (λ field. field.items) made.items
        ≡ map words.without_guards (map (λ field. field.items) fields.items)) }
{
    let mut made = Vec::new(alloc);
    for field in fields.into_iter() {
        made.push(without_guards(alloc, field)?)?;
    }
    Ok(made)
}

/// The fields of a word in which a value is.
fn expanded<V: Vars>(alloc: Global, word: &Word, vars: &V) -> Result<Vec<Vec<u8>>, AllocError>
    ensures { IfOk result (λ found. map (λ field. field.items) found.items
        ≡ says.expanded (V.parameters vars.now) (view.word word.now)) }
{
    let mut expanding = Expanding::new(alloc);
    for piece in &word.pieces {
        expanding.push_piece(piece, vars)?;
    }
    expanding.end_word()?;
    without_all_guards(alloc, expanding.whole)
}

/// The field of a word that nothing can change, if it has one.
#[tactic(auto, using(hushlang_uboot::proofs::WordLemmas::any_of_map))]
fn constant_field(alloc: Global, word: &Word) -> Result<Vec<Vec<u8>>, AllocError>
    ensures { IfOk result (λ found. map (λ field. field.items) found.items
        ≡ shown.field_of_constant (view.word word.now)) }
{
    let mut fields = Vec::new(alloc);
    if have_lasting(&word.pieces) {
        fields.push(bytes_of(alloc, &word.pieces)?)?;
    }
    Ok(fields)
}

/// The fields of a word.
fn word_fields<V: Vars>(alloc: Global, word: &Word, vars: &V) -> Result<Vec<Vec<u8>>, AllocError>
    ensures { IfOk result (λ found. map (λ field. field.items) found.items
        ≡ says.modern_fields_of_word (V.parameters vars.now) (view.word word.now)) }
{
    if !are_constant_pieces(&word.pieces) {
        return expanded(alloc, word, vars);
    }
    constant_field(alloc, word)
}

/// The words of a command, or those of a `for`, as U-Boot's modern shell finds them. Errors: memory ran
/// out.
pub fn modern_fields<V: Vars>(
    alloc: Global,
    words: &[Word],
    vars: &V,
) -> Result<Vec<Vec<u8>>, AllocError>
    ensures { IfOk result (λ found. map (λ field. field.items) found.items
        ≡ says.modern_fields (V.parameters vars.now) (map view.word words.now)) }
{
    let mut fields = Vec::new(alloc);
    for word in words {
        let mut found = word_fields(alloc, word, vars)?;
        fields.append(&mut found)?;
    }
    Ok(fields)
}
