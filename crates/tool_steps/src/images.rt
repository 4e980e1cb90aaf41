//! The images that a configuration names.
ghost use Rattle.std.specs.Prelude.{◌≡◌, IfErr, string_bytes};
ghost use Rattle.envimage.specs.Config.{places};
ghost use Rattle.envimage.specs.Place.{place_shown};
ghost use Rattle.tool_files.specs.Told.{IfTold};
ghost use Rattle.tool_steps.specs.Faults.{CountsTold, IsReadFault};
ghost use Rattle.tool_steps.specs.Images.{Names, ReadsImages, ReadsPlaces, ReadsSecond};
ghost use Rattle.tool_steps.specs.Overlap.{overlap};

use crate::read::{StoredCopy, read_copy, read_text};
use envimage::{ConfigError, Place, parse_config};
use std::alloc::Global;
use tool_files::Files;
use tool_images::Fault;

/// A single image, or the two copies of a redundant pair, and their places.
#[derive(Debug, Drop)]
pub struct Images {
    /// The single image or the first copy.
    pub first: StoredCopy,
    /// The second copy of a pair.
    pub second: Option<StoredCopy>,
}

impl Images {
    ghost use Rattle.std.specs.Prelude.{◌≡◌, option_map};
    ghost use Rattle.std.specs.Option.{option_copied};
    ghost use Rattle.tool_steps.specs.Images.{copies};
    ghost use Rattle.tool_steps.specs.Overlap.{are_overlapping};

    /// The bytes of a pair's second copy.
    pub fn second_bytes(&self) -> Option<&[u8]>
        ensures { option_copied result ≡ option_map (λ copy. copy.bytes.items) self.now.second }
    {
        match &self.second {
            Some(copy) => Some(&copy.bytes),
            None => None,
        }
    }

    /// Whether the places of a pair's two copies share a byte.
    pub fn overlap(&self) -> bool
        ensures { result ≡ are_overlapping (copies self.now) }
    {
        match &self.second {
            Some(second) => share_a_byte(&self.first.place, &second.place),
            None => false,
        }
    }
}

/// Whether two places share a byte of a file.
fn share_a_byte(first: &Place, second: &Place) -> bool
    ensures { result ≡ overlap (place_shown first.now) (place_shown second.now) }
{
    if first.device != second.device {
        return false;
    }
    if first.offset <= second.offset {
        second.offset - first.offset < first.size as u64 && second.size > 0
    } else {
        first.offset - second.offset < second.size as u64 && first.size > 0
    }
}

/// The places that a configuration's text names: one for a single image, or two for a pair.
fn places_in(alloc: Global, text: &[u8]) -> Result<(Place, Option<Place>), Fault>
    ensures fault { IfErr result IsReadFault }
    ensures named { Names (places text.now) result }
{
    let mut places = match parse_config(alloc, text) {
        Ok(places) => places.into_iter(),
        Err(error) => return Err(Fault::Config(error)),
    };
    let Some(first) = places.next() else {
        return Err(Fault::Config(ConfigError::NoPlace));
    };
    Ok((first, places.next()))
}

/// Reads the text of a configuration. Returns the places that it names.
pub(crate) fn read_places<F: Files>(
    alloc: Global,
    files: &mut F,
    config: String,
) -> Result<(Place, Option<Place>), Fault>
    ensures count { CountsTold (F.faults files.old) (F.faults files.new) result }
    ensures lock { F.locked files.new ≡ F.locked files.old }
    ensures fault { IfErr result IsReadFault }
    ensures told { IfTold (F.told files.old) (F.told files.new)
        (λ old new. ReadsPlaces (string_bytes config) old new result) }
{
    let text = read_text(alloc, files, config)?;
    places_in(alloc, &text)
}

/// The copy at the second place, if one is named.
fn read_second<F: Files>(
    alloc: Global,
    files: &mut F,
    place: Option<Place>,
) -> Result<Option<StoredCopy>, Fault>
    ensures count { CountsTold (F.faults files.old) (F.faults files.new) result }
    ensures lock { F.locked files.new ≡ F.locked files.old }
    ensures fault { IfErr result IsReadFault }
    ensures told { IfTold (F.told files.old) (F.told files.new)
        (λ old new. ReadsSecond place old new result) }
{
    match place {
        Some(place) => match read_copy(alloc, files, place) {
            Ok(copy) => Ok(Some(copy)),
            Err(fault) => Err(fault),
        },
        None => Ok(None),
    }
}

/// Reads the images that a configuration names: its text first, then the first copy, then the
/// second.
pub fn read_images<F: Files>(alloc: Global, files: &mut F, config: String) -> Result<Images, Fault>
    ensures count { CountsTold (F.faults files.old) (F.faults files.new) result }
    ensures lock { F.locked files.new ≡ F.locked files.old }
    ensures fault { IfErr result IsReadFault }
    ensures told { IfTold (F.told files.old) (F.told files.new)
        (λ old new. ReadsImages (string_bytes config) old new result) }
{
    let (first, second) = read_places(alloc, files, config)?;
    let first = read_copy(alloc, files, first)?;
    let second = read_second(alloc, files, second)?;
    Ok(Images { first, second })
}
