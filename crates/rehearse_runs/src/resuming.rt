//! Where a listing that broke off goes on.
ghost use Rattle.std.specs.Prelude.{◌≡◌, ◌+◌, ◌∷◌, [], length, suc, MatchOption};

/// A place in a listing at which another listing goes on.
#[derive(Clone, Copy, Debug)]
pub struct Point<'a> {
    /// The printed word of the last whole record.
    pub word: &'a [u8],
    /// How many bytes the records up to it take.
    pub length: usize,
}

ghost use Rattle.rehearse_rules.specs.Resuming.{ended_lines, is_last_line, resume_point_of};
ghost use Rattle.rehearse_runs.specs.PointShown.{point_if, name_if, first_word};

/// The first line that a newline ends, and what is after the newline.
fn first_ended(text: &[u8]) -> Option<(&[u8], &[u8])>
    ensures { MatchOption result (ended_lines [] text.now ≡ [])
        (λ parts. (ended_lines [] text.now ≡ parts.0.now ∷ ended_lines [] parts.1.now)
        × (length text.now ≡ suc (length parts.0.now) + length parts.1.now)) }
{
    for (at, byte) in text.iter().enumerate() {
        if *byte == b'\n' {
            return Some((&text[..at], &text[at + 1..]));
        }
    }
    None
}

/// Whether a line ends a record.
fn ends_record(line: &[u8]) -> bool
    ensures { result ≡ is_last_line line.now }
{
    line.starts_with(b"end ")
        || line.starts_with(b"cut ")
        || line.starts_with(b"stop ")
        || line.starts_with(b"booted ")
        || line.starts_with(b"restarted ")
        || line.starts_with(b"halted ")
}

/// The word of a line that starts a record.
fn begun_word(line: &[u8]) -> Option<&[u8]>
    ensures { name_if result ≡ first_word line.now }
{
    line.strip_prefix(b"run ")
}

/// Finds where to go on in a listing that broke off: after the last line that ends a record, with
/// the word of that record. Gives `None` if no record is whole. Takes no memory.
pub fn resume_point(written: &[u8]) -> Option<Point<'_>>
    ensures { point_if result ≡ resume_point_of written.now }
{
    let mut word = None;
    let mut point = None;
    let mut rest = written;
    while let Some((line, behind)) = first_ended(rest) {
        if ends_record(line) {
            point = match word {
                Some(word) => Some(Point {
                    word,
                    length: written.len() - behind.len(),
                }),
                None => None,
            };
        } else if let Some(begun) = begun_word(line) {
            word = Some(begun);
        }
        rest = behind;
    }
    point
}
