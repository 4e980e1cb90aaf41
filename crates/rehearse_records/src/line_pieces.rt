//! The pieces of a line of a listing.
ghost use Rattle.std.specs.Prelude.{◌≡◌, ◌+◌, ◌<◌, ◌≤◌, length, not, position, IfSome};
ghost use Rattle.std.specs.List.{flat_map, list_any};
ghost use Rattle.std.specs.Bool.{OnTrue};
ghost use Rattle.text.specs.Escapes.{bytes_of, text_form, word_form};
ghost use Rattle.output.specs.Paging.{Puts};
ghost use Rattle.rehearse_records.specs.LinePieces.{form_of, least_of, piece_text, stands};

use output::{BytePage, Out, OutFault, put};
use text::{Escaped, find};

/// A piece of a line.
#[derive(Clone, Copy)]
pub(crate) enum Piece<'a> {
    /// Bytes as they are.
    Plain(&'a [u8]),
    /// Bytes in text form.
    Text(&'a [u8]),
    /// Bytes in word form.
    Word(&'a [u8]),
}

/// How bytes are printed.
#[derive(Clone, Copy)]
enum Form {
    Text,
    Word,
}

/// What a byte is printed as.
fn escape(form: Form, byte: u8) -> Escaped
    ensures { bytes_of result ≡ form_of form byte }
{
    match form {
        Form::Text => Escaped::in_text(byte),
        Form::Word => Escaped::in_word(byte),
    }
}

/// The least byte that is printed as it is.
fn least_of(form: Form) -> u8
    ensures { result ≡ least_of form }
{
    match form {
        Form::Text => b' ',
        Form::Word => b'!',
    }
}

/// Whether one of a few bytes is not printed as it is.
fn few_have_escaped(form: Form, bytes: &[u8]) -> bool
    ensures { result ≡ list_any (λ b. not (stands form b)) bytes.now }
{
    let least = least_of(form);
    let mut found = false;
    for byte in bytes {
        found = found | (*byte < least) | (*byte > b'~') | (*byte == b'\\');
    }
    found
}

/// Whether a byte of a block is not printed as it is. A processor looks at the bytes together.
#[inline(always)]
fn block_has_escaped<const N: usize>(form: Form, block: &[u8; N]) -> bool
    requires { N ≤ 16 }
    ensures { result ≡ list_any (λ b. not (stands form b)) block.now }
{
    let least = least_of(form);
    let mut found = false;
    for byte in block.iter() {
        found = found | (*byte < least) | (*byte > b'~') | (*byte == b'\\');
    }
    found
}

/// Whether a byte is not printed as it is. Looks at blocks of `N` bytes, up to the first that has
/// one. The last block may overlap the one before, so that no bytes are left over.
#[inline(always)]
fn blocks_have_escaped<const N: usize>(form: Form, bytes: &[u8]) -> bool
    requires some { 0 < N }
    requires few { N ≤ 16 }
    ensures { result ≡ list_any (λ b. not (stands form b)) bytes.now }
{
    let mut rest = bytes;
    while let Some((block, others)) = rest.split_first_chunk::<N>() {
        if block_has_escaped(form, block) {
            return true;
        }
        rest = others;
    }
    match bytes.last_chunk::<N>() {
        Some(block) => block_has_escaped(form, block),
        None => few_have_escaped(form, bytes),
    }
}

/// Whether one of at most 2 `N` bytes is not printed as it is. Looks at the first `N` and the last
/// `N`, which may overlap.
#[inline(always)]
fn ends_have_escaped<const N: usize>(form: Form, bytes: &[u8]) -> bool
    requires few { N ≤ 16 }
    requires short { length bytes.now ≤ N + N }
    ensures { result ≡ list_any (λ b. not (stands form b)) bytes.now }
{
    let Some(first) = bytes.first_chunk::<N>() else {
        return few_have_escaped(form, bytes);
    };
    let Some(last) = bytes.last_chunk::<N>() else {
        return few_have_escaped(form, bytes);
    };
    block_has_escaped(form, first) | block_has_escaped(form, last)
}

/// Whether a byte is not printed as it is. Looks at blocks of a size that fits the count of bytes.
#[inline(always)]
fn has_escaped(form: Form, bytes: &[u8]) -> bool
    ensures { result ≡ list_any (λ b. not (stands form b)) bytes.now }
{
    match bytes.len() {
        0..=1 => few_have_escaped(form, bytes),
        2..=3 => ends_have_escaped::<2>(form, bytes),
        4..=7 => ends_have_escaped::<4>(form, bytes),
        8..=15 => ends_have_escaped::<8>(form, bytes),
        _ => blocks_have_escaped::<16>(form, bytes),
    }
}

/// The place of the first byte that is not printed as it is. Looks at one byte after another.
fn first_escaped_by_one(form: Form, bytes: &[u8]) -> Option<usize>
    ensures { result ≡ position (λ b. not (stands form b)) bytes.now }
{
    let least = least_of(form);
    bytes.iter().position(|byte| !(least <= *byte && *byte <= b'~' && *byte != b'\\'))
}

/// How far the end of a line is looked for at once. Without a bound, bytes of which many are escaped
/// would be looked through to their end at each of these.
const NEAR: usize = 256;

/// The place of the first byte that is not printed as it is. Mostly that is the end of a line.
fn first_escaped(form: Form, bytes: &[u8]) -> Option<usize>
    ensures first { result ≡ position (λ b. not (stands form b)) bytes.now }
    ensures within { IfSome result (λ at. at < length bytes.now) }
{
    let near = &bytes[..bytes.len().min(NEAR)];
    if let Some(at) = find(near, b'\n') {
        if !has_escaped(form, &near[..at]) {
            return Some(at);
        }
    }
    first_escaped_by_one(form, bytes)
}

/// Whether all bytes are printed in a text as they are.
pub(crate) fn is_plain_text(bytes: &[u8]) -> bool
    ensures { OnTrue result (text_form bytes.now ≡ bytes.now) }
{
    !has_escaped(Form::Text, bytes)
}

/// Whether bytes are printed in a word as they are.
pub(crate) fn is_plain_word(bytes: &[u8]) -> bool
    ensures { OnTrue result (word_form bytes.now ≡ bytes.now) }
{
    !bytes.is_empty() && !has_escaped(Form::Word, bytes)
}

/// Puts a byte as it is printed.
fn put_byte<O: Out>(out: &mut O, page: &mut BytePage, form: Form, byte: u8) -> Result<(), OutFault>
    ensures { Puts result (O.sink out.old) (O.sink out.new) page.old.items page.new.items
        (form_of form byte) }
{
    put(out, page, escape(form, byte).as_slice())
}

/// Puts bytes as they are printed. Bytes that are printed as they are go on the page together.
fn put_bytes<O: Out>(
    out: &mut O,
    page: &mut BytePage,
    form: Form,
    bytes: &[u8],
) -> Result<(), OutFault>
    ensures { Puts result (O.sink out.old) (O.sink out.new) page.old.items page.new.items
        (flat_map (form_of form) bytes.now) }
{
    if !has_escaped(form, bytes) {
        return put(out, page, bytes);
    }
    let mut rest = bytes;
    while let Some(at) = first_escaped(form, rest) {
        put(out, page, &rest[..at])?;
        put_byte(out, page, form, rest[at])?;
        rest = &rest[at + 1..];
    }
    put(out, page, rest)
}

/// Puts bytes in word form.
fn put_word<O: Out>(out: &mut O, page: &mut BytePage, bytes: &[u8]) -> Result<(), OutFault>
    ensures { Puts result (O.sink out.old) (O.sink out.new) page.old.items page.new.items
        (word_form bytes.now) }
{
    if bytes.is_empty() {
        put(out, page, b"\\e")
    } else {
        put_bytes(out, page, Form::Word, bytes)
    }
}

/// Puts a piece.
fn put_piece<O: Out>(out: &mut O, page: &mut BytePage, piece: Piece<'_>) -> Result<(), OutFault>
    ensures { Puts result (O.sink out.old) (O.sink out.new) page.old.items page.new.items
        (piece_text piece.entry) }
{
    match piece {
        Piece::Plain(bytes) => put(out, page, bytes),
        Piece::Text(bytes) => put_bytes(out, page, Form::Text, bytes),
        Piece::Word(bytes) => put_word(out, page, bytes),
    }
}

/// Puts pieces, one after another.
pub(crate) fn put_pieces<O: Out>(
    out: &mut O,
    page: &mut BytePage,
    pieces: &[Piece<'_>],
) -> Result<(), OutFault>
    ensures { Puts result (O.sink out.old) (O.sink out.new) page.old.items page.new.items
        (flat_map piece_text pieces.now) }
{
    for piece in pieces {
        put_piece(out, page, *piece)?;
    }
    Ok(())
}
