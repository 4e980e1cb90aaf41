//! How the programs start: the words by which they are called, and their buffered outputs.
ghost use Rattle.std.specs.Prelude.{◌≡◌, ◌≤◌, length, IfErr};
ghost use Rattle.tool_steps.specs.declared.starting.StartError.TheVariants.{Memory};

use output::Over;
use std::alloc::{AllocError, Global};
use std::env::{self, Env, FillError};
use std::io::{self, BufWriter, ErrorKind, Write};
use thiserror::Error;
use tool_files::UntilFailed;

/// Why a program does not start.
#[derive(Debug, Drop, Error)]
pub enum StartError {
    /// A word of the command line is not UTF-8.
    #[error("the words are no text")]
    NoText,
    /// Memory ran out.
    #[error("out of memory")]
    Memory,
}

impl From<AllocError> for StartError {
    ghost from_gives = { λ _ e. e ≡ Memory };

    fn from(_error: AllocError) -> StartError {
        StartError::Memory
    }
}

/// A buffered output. The buffer does not call the writer again after it has failed.
pub type Buffered<W> = Over<BufWriter<UntilFailed<W>>>;

/// Puts a buffer before a writer. The only error is that memory ran out.
pub fn buffered<W: Write + Drop>(alloc: Global, writer: W) -> Result<Buffered<W>, StartError>
    ensures { IfErr result (λ error. error ≡ Memory) }
{
    match BufWriter::new(alloc, UntilFailed::new(writer)) {
        Ok(buffer) => Ok(Over::new(buffer)),
        Err(_) => Err(StartError::Memory),
    }
}

/// Moves what is after the last slash of a path to its start. Returns its length, or 0 if it is not
/// text.
fn moved_name(path: &mut [u8]) -> usize
    ensures { result ≤ length path.new }
{
    let start = match path.iter().rposition(|&byte| byte == b'/') {
        Some(slash) => slash + 1,
        None => 0,
    };
    let len = path.len() - start;
    path.copy_within(start.., 0);
    match str::from_utf8(&path[..len]) {
        Ok(_) => len,
        Err(_) => 0,
    }
}

/// The words of a call, with the name at the end of the program's path in place of the path: what
/// is before it need not be text. A name that is not text is empty.
#[derive(Drop)]
struct Call<'a, R> {
    rt: &'a R,
}

impl<R: Env> Env for Call<'_, R> {
    fn arg(&self, i: usize, buf: &mut [u8]) -> Result<usize, FillError> {
        let len = self.rt.arg(i, buf)?;
        if i == 0 {
            return Ok(moved_name(&mut buf[..len]));
        }
        Ok(len)
    }

    fn var(&self, name: &str, buf: &mut [u8]) -> Result<usize, FillError> {
        self.rt.var(name, buf)
    }

    fn var_at(&self, i: usize, buf: &mut [u8]) -> Result<usize, FillError> {
        self.rt.var_at(i, buf)
    }
}

/// The words of the command line. The first is the name by which the program was called, without
/// its folder.
pub fn words_of_call<R: Env + AllocGlobal>(rt: &R) -> Result<Vec<String>, StartError> {
    let args = match env::args(&(Call { rt }, rt.alloc())) {
        Ok(args) => args,
        Err(error) => match error.kind() {
            ErrorKind::OutOfMemory => return Err(StartError::Memory),
            _ => return Err(StartError::NoText),
        },
    };
    match args.collect(rt.alloc()) {
        Ok(words) => Ok(words),
        Err(_) => Err(StartError::Memory),
    }
}
