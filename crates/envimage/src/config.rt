//! The configuration: which places hold the environment.

ghost use Rattle.std.specs.Prelude.{◌≡◌, ◌∷◌, [], ℕ, map, Ok, Err, IfOk, true, false, MatchOption};
ghost use Rattle.envimage.specs.Config.{places, place_of, place_with, is_place_line, is_text, single, pair};
ghost use Rattle.envimage.specs.Image.{Gives};
ghost use Rattle.envimage.specs.Place.{named_shown, place_shown, places_left, AnswersPlaces};
ghost use Rattle.text.specs.Words.{words_of};
ghost use Rattle.envimage.specs.declared.config.ConfigError.TheVariants.{BadLine};

use crate::image::{COPY_MIN, SINGLE_MIN, is_size};
use crate::number::{offset_of, size_of};
use std::alloc::{AllocError, Global};
use text::{Lines, next_word};
use thiserror::Error;

/// Why a configuration was refused. Lines count from 1, and skipped lines count too.
#[derive(Clone, Copy, Debug, Drop, PartialEq, Eq, Error)]
pub enum ConfigError {
    /// The line has fewer than three words.
    #[error("config line {0}: bad line")]
    BadLine(usize),
    /// The device's name is not UTF-8.
    #[error("config line {0}: not text")]
    NotText(usize),
    /// The offset or the size is not a number, or is too large.
    #[error("config line {0}: bad number")]
    BadNumber(usize),
    /// No line names a place.
    #[error("config names no place")]
    NoPlace,
    /// The size is out of its range.
    #[error("config line {0}: size out of range")]
    SizeOutOfRange(usize),
    /// The two places differ in size.
    #[error("config sizes differ")]
    UnequalSizes,
    /// Memory ran out.
    #[error("out of memory")]
    Memory,
}

/// A place that holds an image or a copy of a pair.
#[derive(Debug, Drop)]
pub struct Place {
    /// The file or the device.
    pub device: String,
    /// Where the image starts in it, in bytes.
    pub offset: u64,
    /// The image's size in bytes, with its header.
    pub size: usize,
}

/// A place as a line names it.
#[derive(Clone, Copy)]
struct NamedPlace<'a> {
    device: &'a str,
    offset: u64,
    size: usize,
}

/// Whether a line is not skipped: it has a word, and does not start with `#`.
fn is_place_line(line: &[u8]) -> bool
    ensures { result ≡ is_place_line line.now }
{
    match next_word(line) {
        None => false,
        Some(([], _)) => false,
        Some(([first, ..], _)) => *first != b'#',
    }
}

/// The next line that is not skipped, with its number.
fn next_place_line<'a>(lines: &mut Lines<'a>) -> Option<(usize, &'a [u8])>
    ensures { MatchOption result (places_left lines.old ≡ [])
        (λ l. places_left lines.old ≡ (l.0, l.1.now) ∷ places_left lines.new) }
{
    while let Some((number, line)) = lines.next() {
        if is_place_line(line) {
            return Some((number, line));
        }
    }
    None
}

/// The first three words of a line: device, offset and size.
fn first_words(line: &[u8]) -> Option<(&[u8], &[u8], &[u8])>
    ensures { MatchOption result ((n : ℕ) → place_of n (words_of line.now) ≡ Err (BadLine n))
        (λ w. (n : ℕ) → place_of n (words_of line.now)
        ≡ place_of n (w.0.now ∷ w.1.now ∷ w.2.now ∷ [])) }
{
    let (device, rest) = next_word(line)?;
    let (offset, rest) = next_word(rest)?;
    let (size, _) = next_word(rest)?;
    Some((device, offset, size))
}

/// The text of UTF-8 bytes.
#[tactic(auto, using(crate::proofs::ConfigLemmas::texts))]
fn text_of(bytes: &[u8]) -> Option<&str>
    ensures { MatchOption result (is_text bytes.now ≡ false)
        (λ s. (is_text bytes.now ≡ true) × (s.now ≡ bytes.now)) }
{
    match str::from_utf8(bytes) {
        Ok(text) => Some(text),
        Err(_) => None,
    }
}

/// The place of a line, from its device and its two numbers. Errors: `BadNumber` if one is missing.
fn place_with(
    number: usize,
    device: &str,
    offset: Option<u64>,
    size: Option<u64>,
) -> Result<NamedPlace<'_>, ConfigError>
    ensures { Gives named_shown result (place_with number device.now offset size) }
{
    match (offset, size) {
        (Some(offset), Some(size)) => Ok(NamedPlace {
            device,
            offset,
            size: size as usize,
        }),
        (Some(_), None) => Err(ConfigError::BadNumber(number)),
        (None, _) => Err(ConfigError::BadNumber(number)),
    }
}

/// The place that a line names. Errors in order: `BadLine`, `NotText`, `BadNumber`.
fn place_in(number: usize, line: &[u8]) -> Result<NamedPlace<'_>, ConfigError>
    ensures { Gives named_shown result (place_of number (words_of line.now)) }
{
    let Some((device, offset, size)) = first_words(line) else {
        return Err(ConfigError::BadLine(number));
    };
    let Some(device) = text_of(device) else {
        return Err(ConfigError::NotText(number));
    };
    place_with(number, device, offset_of(offset), size_of(size))
}

impl NamedPlace<'_> {
    /// The place with a device name that it owns.
    fn owned(&self, alloc: Global) -> Result<Place, AllocError>
        ensures { IfOk result (λ p. place_shown p ≡ named_shown self.now) }
    {
        let device = String::from_str(alloc, self.device)?;
        Ok(Place {
            device,
            offset: self.offset,
            size: self.size,
        })
    }
}

/// The places with device names that they own.
fn owned_all(alloc: Global, places: &[NamedPlace<'_>]) -> Result<Vec<Place>, AllocError>
    ensures { IfOk result (λ v. map place_shown v.items ≡ map named_shown places.now) }
{
    let mut list = Vec::new(alloc);
    for place in places {
        list.push(place.owned(alloc)?)?;
    }
    Ok(list)
}

/// The list of these places. Errors: `Memory`.
fn list_of(alloc: Global, places: &[NamedPlace<'_>]) -> Result<Vec<Place>, ConfigError>
    ensures { AnswersPlaces (Ok (map named_shown places.now)) result }
{
    match owned_all(alloc, places) {
        Ok(list) => Ok(list),
        Err(_) => Err(ConfigError::Memory),
    }
}

/// The list of the one place of a single image. Errors in order: `SizeOutOfRange`, `Memory`.
fn single(alloc: Global, number: usize, place: NamedPlace<'_>) -> Result<Vec<Place>, ConfigError>
    ensures { AnswersPlaces (single number (Ok (named_shown place.entry))) result }
{
    if !is_size(place.size, SINGLE_MIN) {
        return Err(ConfigError::SizeOutOfRange(number));
    }
    list_of(alloc, &[place])
}

/// The list of the two places of a redundant pair. Errors in order: `SizeOutOfRange` of the first,
/// then of the second; `UnequalSizes`; `Memory`.
fn pair(
    alloc: Global,
    numbers: (usize, usize),
    first: NamedPlace<'_>,
    second: NamedPlace<'_>,
) -> Result<Vec<Place>, ConfigError>
    ensures { AnswersPlaces (pair numbers.0 numbers.1 (Ok (named_shown first.entry))
        (Ok (named_shown second.entry))) result }
{
    if !is_size(first.size, COPY_MIN) {
        return Err(ConfigError::SizeOutOfRange(numbers.0));
    }
    if !is_size(second.size, COPY_MIN) {
        return Err(ConfigError::SizeOutOfRange(numbers.1));
    }
    if first.size != second.size {
        return Err(ConfigError::UnequalSizes);
    }
    list_of(alloc, &[first, second])
}

/// Reads the places that a configuration names, in lines `device offset size`. Spaces, tabs and
/// carriage returns separate words. Words after the third are ignored. Lines without a word, and
/// lines that start with `#`, are skipped. One place line means a single image, two mean a
/// redundant pair. Further lines are not read.
///
/// Refusals in order: for each of the first two place lines `BadLine`, `NotText`, `BadNumber`; then
/// `NoPlace`; then `SizeOutOfRange` of the first, then of the second; then `UnequalSizes`; then
/// `Memory`.
#[tactic(auto, using(crate::proofs::ConfigLemmas::lists))]
pub fn parse_config(alloc: Global, text: &[u8]) -> Result<Vec<Place>, ConfigError>
    ensures { AnswersPlaces (places text.now) result }
{
    let mut lines = Lines::new(text);
    let Some((first_number, line)) = next_place_line(&mut lines) else {
        return Err(ConfigError::NoPlace);
    };
    let first = place_in(first_number, line)?;
    let Some((second_number, line)) = next_place_line(&mut lines) else {
        return single(alloc, first_number, first);
    };
    let second = place_in(second_number, line)?;
    pair(alloc, (first_number, second_number), first, second)
}
