//! The machine's own files.
ghost use Rattle.std.specs.Prelude.{◌≡◌, ◌≤◌, ◌⊎◌, IfOk, IfErr, None, false, true, vec_len};
ghost use Rattle.tool_files.specs.FailedReads.{file_fault_of};
ghost use Rattle.tool_files.specs.declared.files.FileFault.TheVariants.{Failed, Memory};

use crate::below::is_plain_below;
use crate::boot_partition::Switch;
use crate::create::is_created;
use crate::files::{FileFault, Files, LIMIT, LockFault};
use crate::folder::{is_folder, read_folder};
use crate::input::{ReadFault, read_up_to};
use crate::lock::{Lock, usual_lock};
use crate::program::Program;
use crate::replace::is_replaced;
use crate::writing::{is_synced, is_written};
use std::alloc::{AllocGlobal, Global};
use std::fs::{File, OpenOptions};
use std::io::{Read, Seek, SeekFrom, Write};
use std::rt::{self, Clock};

/// The files of the machine, which the runtime reaches, and the program that uses them. A lock is
/// held as long as these files last.
#[derive(Drop)]
pub struct Machine<'a, R, W> {
    rt: &'a R,
    program: Program<'a, W>,
    faults: u64,
    lock: Lock,
}

impl<'a, R: rt::Files, W: Write> Machine<'a, R, W> {
    ghost use Rattle.tool_files.specs.FailureCounts.{CountsFault};
    ghost use Rattle.tool_files.specs.MachineShown.{faults_of, is_locked};

    /// The files that `rt` reaches; no failure is counted yet, and no lock is taken.
    pub fn new(rt: &'a R, program: Program<'a, W>) -> Machine<'a, R, W>
        ensures sound { faults_of result ≡ 0 }
        ensures unlocked { is_locked result ≡ false }
    {
        Machine {
            rt,
            program,
            faults: 0,
            lock: Lock::NotTaken,
        }
    }

    /// The same files under a lock that is held already.
    pub fn under(rt: &'a R, program: Program<'a, W>, lock: File) -> Machine<'a, R, W>
        ensures sound { faults_of result ≡ 0 }
        ensures locked { is_locked result ≡ true }
    {
        Machine {
            rt,
            program,
            faults: 0,
            lock: Lock::Held(lock),
        }
    }

    /// Counts a failure of the device, if the answer is one.
    fn counted<T: Drop>(&mut self, answer: Result<T, FileFault>) -> Result<T, FileFault>
        ensures answer { result ≡ answer }
        ensures count { CountsFault (faults_of self.old) (faults_of self.new) answer }
        ensures lock { is_locked self.new ≡ is_locked self.old }
    {
        if let Err(FileFault::Failed) = answer {
            self.faults = self.faults.saturating_add(1);
        }
        answer
    }
}

/// What a read of one file answers.
fn fault_of(fault: ReadFault) -> FileFault
    ensures { result ≡ file_fault_of fault }
{
    match fault {
        ReadFault::Failed => FileFault::Failed,
        ReadFault::Memory => FileFault::Memory,
    }
}

/// Opens the file at byte `offset`, to be read or written. The file is neither made nor shortened.
/// Gives `None` if this fails.
fn opened<R: rt::Files>(rt: &R, path: &str, offset: u64, writes: bool) -> Option<R::File> {
    let mut how = OpenOptions::new();
    how.read(!writes);
    how.write(writes);
    let Ok(mut file) = how.open(rt, path) else {
        return None;
    };
    if offset > 0 && file.seek(SeekFrom::Start(offset)).is_err() {
        return None;
    }
    Some(file)
}

/// Reads the bytes from `offset` up to the file's end, or the first `size` of them. Errors:
/// `Failed`, `Memory`.
pub(crate) fn read_from<R: rt::Files>(
    rt: &R,
    alloc: Global,
    path: &str,
    offset: u64,
    size: usize,
) -> Result<Vec<u8>, FileFault>
    ensures bound { IfOk result (λ bytes. vec_len bytes ≤ size) }
    ensures refusals { IfErr result (λ fault. (fault ≡ Failed) ⊎ (fault ≡ Memory)) }
{
    let Some(mut file) = opened(rt, path, offset, false) else {
        return Err(FileFault::Failed);
    };
    match read_up_to(alloc, &mut file, size) {
        Ok(bytes) => Ok(bytes),
        Err(fault) => Err(fault_of(fault)),
    }
}

/// Writes all the bytes from `offset` on. Errors: `Failed`.
fn write_through<R: rt::Files>(
    rt: &R,
    path: &str,
    offset: u64,
    bytes: &[u8],
) -> Result<(), FileFault>
    ensures refusal { IfErr result (λ fault. fault ≡ Failed) }
{
    let Some(mut file) = opened(rt, path, offset, true) else {
        return Err(FileFault::Failed);
    };
    if is_written(&mut file, bytes) && is_synced(&file) {
        Ok(())
    } else {
        Err(FileFault::Failed)
    }
}

/// Writes all the bytes from `offset` on. A regular file of as many bytes is replaced, if it can be;
/// anything else is written in place. Errors: `Failed`, `Memory`, with nothing written.
fn write_file<R: rt::Files<File = File> + AllocGlobal, W: Write>(
    rt: &R,
    program: &mut Program<'_, W>,
    path: &str,
    offset: u64,
    bytes: &[u8],
) -> Result<(), FileFault>
    ensures { IfErr result (λ fault. (fault ≡ Failed) ⊎ (fault ≡ Memory)) }
{
    if offset == 0 && is_replaced(rt, program, path, bytes)? {
        return Ok(());
    }
    write_through(rt, path, offset, bytes)
}

/// Writes all the bytes from `offset` on. A boot partition of an eMMC that the kernel keeps
/// read-only can be written meanwhile, and is read-only again whatever happens. Errors: `Failed`,
/// `Memory`, with nothing written.
fn write_to<R: rt::Files<File = File> + AllocGlobal, W: Write>(
    rt: &R,
    program: &mut Program<'_, W>,
    path: &str,
    offset: u64,
    bytes: &[u8],
) -> Result<(), FileFault>
    ensures { IfErr result (λ fault. (fault ≡ Failed) ⊎ (fault ≡ Memory)) }
{
    let Some(switch) = Switch::on_at(rt, path) else {
        return write_file(rt, program, path, offset, bytes);
    };
    switch.turn_off(rt);
    let written = write_through(rt, path, offset, bytes);
    switch.turn_on(rt);
    written
}

impl<R: rt::Files<File = File> + Clock + AllocGlobal + Clone + Drop, W: Write> Files
    for Machine<'_, R, W> {
    ghost use Rattle.tool_files.specs.MachineShown.{faults_of, is_locked};

    ghost faults = { faults_of };

    ghost told = { λ _. None };

    ghost locked = { is_locked };

    /// Takes the lock of U-Boot's tools. If there is no folder for its file, there is no lock.
    fn lock(&mut self) -> Result<(), LockFault> {
        if let Lock::NotTaken = self.lock {
            self.lock = usual_lock(self.rt, &mut self.program)?;
        }
        Ok(())
    }

    fn read_all(&mut self, alloc: Global, path: &str) -> Result<Vec<u8>, FileFault> {
        let read = read_from(self.rt, alloc, path, 0, LIMIT + 1);
        let bytes = self.counted(read)?;
        if bytes.len() > LIMIT {
            return Err(FileFault::TooLong);
        }
        Ok(bytes)
    }

    fn read_list(&mut self, alloc: Global, path: &str) -> Result<Vec<u8>, FileFault> {
        if !is_folder(self.rt, path) {
            return self.read_all(alloc, path);
        }
        let read = read_folder(self.rt, alloc, path);
        let bytes = self.counted(read)?;
        if bytes.len() > LIMIT {
            return Err(FileFault::TooLong);
        }
        Ok(bytes)
    }

    fn read_below(
        &mut self,
        alloc: Global,
        path: &str,
        folder: usize,
    ) -> Result<Vec<u8>, FileFault> {
        if !is_plain_below(self.rt, path, folder) {
            return self.counted(Err(FileFault::Failed));
        }
        self.read_all(alloc, path)
    }

    fn read_at(
        &mut self,
        alloc: Global,
        path: &str,
        offset: u64,
        size: usize,
    ) -> Result<Vec<u8>, FileFault> {
        let read = read_from(self.rt, alloc, path, offset, size);
        let bytes = self.counted(read)?;
        if bytes.len() < size {
            return Err(FileFault::Short);
        }
        Ok(bytes)
    }

    fn write_at(&mut self, path: &str, offset: u64, bytes: &[u8]) -> Result<(), FileFault> {
        let written = write_to(self.rt, &mut self.program, path, offset, bytes);
        self.counted(written)
    }

    fn create(&mut self, path: &str, bytes: &[u8]) -> Result<bool, FileFault> {
        let made = is_created(self.rt, path, bytes);
        self.counted(made)
    }
}
