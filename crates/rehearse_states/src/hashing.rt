//! The number under which the table keeps a place: equal places have equal numbers. Places that differ may have one number,
//! which costs time alone.
ghost use Rattle.std.specs.Prelude.{◌≡◌, map};
ghost use Rattle.std.specs.List.{fold};
ghost use Rattle.text.specs.TextsShown.{bytes_of_words};
ghost use Rattle.hushlang.specs.TreesShown as view;
ghost use Rattle.rehearse_states.specs.PlaceNumbers.{mixed, mixed_text, mixed_words, mixed_piece, mixed_word, mixed_written, mixed_value, mixed_command, mixed_list, mixed_script, mixed_frame, place_number};

use bootstore_state::{Frame, Store};
use hushlang::{AndOr, Command, Piece, Script, Word};

/// The number with which every other number starts.
const SEED: u64 = 0xcbf2_9ce4_8422_2325;

/// Adds one more part to a number.
pub fn mix(hash: u64, part: u64) -> u64
    ensures { result ≡ mixed hash part }
{
    (hash ^ part).wrapping_mul(0x0000_0100_0000_01b3)
}

/// Adds a text.
pub fn mix_text(hash: u64, text: &[u8]) -> u64
    ensures { result ≡ mixed_text hash text.now }
{
    let start = mix(hash, text.len() as u64);
    text.iter()
        .fold(start, |mixed, byte| mix(mixed, u64::from(*byte)))
}

/// Adds words.
pub fn mix_words(hash: u64, words: &[Vec<u8>]) -> u64
    ensures { result ≡ mixed_words hash (bytes_of_words words.now) }
{
    let start = mix(hash, words.len() as u64);
    words
        .iter()
        .fold(start, |mixed, word| mix_text(mixed, word))
}

/// Adds a piece of a word, with what no variable changes of it.
fn mix_piece(hash: u64, piece: &Piece) -> u64
    ensures { result ≡ mixed_piece hash (view.piece piece.now) }
{
    match piece {
        Piece::Bytes(text)
        | Piece::Var {
            name: text,
            split: _,
        } => mix_text(hash, text),
        Piece::Mark | Piece::Status => hash,
    }
}

/// Adds a word.
fn mix_word(hash: u64, word: &Word) -> u64
    ensures { result ≡ mixed_word hash (view.word word.now) }
{
    let start = mix(hash, word.pieces.len() as u64);
    word.pieces
        .iter()
        .fold(start, |mixed, piece| mix_piece(mixed, piece))
}

/// Adds the words of a simple command.
fn mix_written(hash: u64, words: &[Word]) -> u64
    ensures { result ≡ mixed_written hash (map view.word words.now) }
{
    let start = mix(hash, words.len() as u64);
    words
        .iter()
        .fold(start, |mixed, word| mix_word(mixed, word))
}

/// Adds the values of an assignment.
fn mix_values(hash: u64, values: &[(Vec<u8>, Word)]) -> u64
    ensures { result ≡ fold mixed_value hash (map view.value values.now) }
{
    values
        .iter()
        .fold(hash, |mixed, value| mix_word(mixed, &value.1))
}

/// Adds what a command says, as far as it is not in a block.
fn mix_command(hash: u64, command: &Command) -> u64
    ensures { result ≡ mixed_command hash (view.command command.now) }
{
    match command {
        Command::Simple(call) => mix_written(hash, call.words()),
        Command::Assign(values) => mix_values(hash, values),
        Command::For {
            name: _,
            words,
            body: _,
        } => mix_written(hash, words),
        Command::If { .. } => hash,
        Command::Loop { .. } => hash,
    }
}

/// Adds a list: how many commands are joined to the first one, and what that says.
fn mix_list(hash: u64, list: &AndOr) -> u64
    ensures { result ≡ mixed_list hash (view.list list.now) }
{
    let mixed = mix(hash, list.rest.len() as u64);
    mix_command(mixed, &list.first)
}

/// Adds how many lists there are, and the first of them.
fn mix_lists(hash: u64, lists: &[AndOr]) -> u64
    ensures { result ≡ mixed_script hash (view.runs (map view.list lists.now)) }
{
    let mixed = mix(hash, lists.len() as u64);
    match lists.split_first() {
        None => mixed,
        Some((first, _)) => mix_list(mixed, first),
    }
}

/// Adds what distinguishes scripts that are alike: the first list, which often sets what the others
/// use, and how many there are.
fn mix_script(hash: u64, script: &Script) -> u64
    ensures { result ≡ mixed_script hash (view.script script.now) }
{
    mix_lists(hash, &script.lists)
}

/// Adds the place that a frame has reached.
fn mix_frame(hash: u64, frame: &Frame) -> u64
    ensures { result ≡ mixed_frame hash frame.now }
{
    let at = frame.at();
    let mut mixed = mix(hash, at.list as u64);
    mixed = mix(mixed, at.command as u64);
    mixed = mix(mixed, at.turn as u64);
    mixed = mix_script(mixed, frame.script());
    mix_words(mixed, frame.words())
}

/// The number of a place, of which the outermost frame comes first.
pub fn number_of(frames: &[Frame]) -> u64
    ensures { result ≡ fold mixed_frame 0xcbf29ce484222325 frames.now }
{
    frames
        .iter()
        .fold(SEED, |mixed, frame| mix_frame(mixed, frame))
}

/// The number of the place of the present state of a store.
pub fn hash_of<S: Store>(store: &S) -> u64
    ensures { result ≡ place_number (S.record_of store.now).present.frames }
{
    number_of(store.frames())
}
