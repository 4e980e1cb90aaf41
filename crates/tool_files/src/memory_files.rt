//! Files in memory, for tests.
ghost use Rattle.std.specs.Prelude.{◌≡◌, ◌≢◌, ◌≤◌, ◌+◌, [], false, if◌then◌else◌, nat_le, Some, None, Ok, Err, IfOk, IsTrue, OnOk, OnErr, length, map, string_bytes, vec_len};
ghost use Rattle.std.specs.List.{position};
ghost use Rattle.std.specs.Option.{option_copied};
ghost use Rattle.std.specs.Str.{bytes_eq};
ghost use Rattle.tool_files.specs.FailureCounts.{CountsFault};
ghost use Rattle.tool_files.specs.MemoryFiles.{Gives, IsUnlessMemory, call_of, create_answer, failing_of, faults_of, file_of, is_due, is_locked, part_answer, put, reaches, memory_files_shown, taken, whole_answer, with_file, write_answer};
ghost use Rattle.tool_files.specs.Told.{Creates, ReadsAll, ReadsAt, WritesAt, calls_after, file_at, made, overwritten, read_limit};
ghost use Rattle.tool_files.specs.declared.files.FileFault.TheVariants.{Memory, Short, TooLong};

use crate::files::{Action, FileFault, Files, LIMIT, LockFault};
use std::alloc::{AllocError, Global};

/// A call that was answered.
#[derive(Debug, Drop)]
pub struct Call {
    /// The path that the call named.
    pub path: String,
    /// What was done there.
    pub action: Action,
}

#[derive(Debug, Drop)]
struct MemoryFile {
    path: String,
    bytes: Vec<u8>,
}

/// Files in memory. One of their calls can be made to fail, and each call is recorded.
#[derive(Debug, Drop)]
pub struct MemoryFiles {
    files: Vec<MemoryFile>,
    calls: Vec<Call>,
    failing: Option<usize>,
    faults: u64,
    locked: bool,
}

/// The place of the first file of this path.
fn place_of(files: &[MemoryFile], path: &str) -> Option<usize>
    ensures { result ≡ position (λ f. bytes_eq path.now (string_bytes f.path)) files.now }
{
    files.iter().position(|file| path == file.path.as_str())
}

/// The bytes of the file at the path.
fn bytes_of<'a>(files: &'a [MemoryFile], path: &str) -> Option<&'a [u8]>
    ensures { option_copied result ≡ file_at path.now (map file_of files.now) }
{
    match place_of(files, path) {
        Some(at) => Some(files[at].bytes.as_slice()),
        None => None,
    }
}

/// Puts the bytes over those from `offset` on, if there are that many. Returns whether there were.
fn overwrite(old: &mut Vec<u8>, offset: u64, bytes: &[u8]) -> bool
    ensures fits { result ≡ nat_le (offset + length bytes.now) (length old.old.items) }
    ensures after { old.new.items ≡ (if result then overwritten old.old.items offset bytes.now
        else old.old.items) }
{
    let start = offset as usize;
    if start > old.len() || old.len() - start < bytes.len() {
        return false;
    }
    let end = start + bytes.len();
    old.as_mut_slice()[start..end].copy_from_slice(bytes);
    true
}

/// Puts the bytes into the file at the path. Returns whether there is one that has room for them.
fn put(files: &mut Vec<MemoryFile>, path: &str, offset: u64, bytes: &[u8]) -> bool
    ensures room { result
        ≡ reaches (file_at path.now (map file_of files.old.items)) offset (length bytes.now) }
    ensures files { map file_of files.new.items
        ≡ put path.now offset bytes.now (map file_of files.old.items) }
{
    match place_of(files, path) {
        Some(at) => overwrite(&mut files[at].bytes, offset, bytes),
        None => false,
    }
}

impl MemoryFiles {
    /// No files. If `failing` is a number, the call after that many answered ones fails.
    pub fn new(alloc: Global, failing: Option<usize>) -> MemoryFiles
        ensures empty { memory_files_shown result ≡ record { stored = []; calls = [] } }
        ensures failing { failing_of result ≡ failing }
        ensures sound { faults_of result ≡ 0 }
        ensures unlocked { is_locked result ≡ false }
    {
        MemoryFiles {
            files: Vec::new(alloc),
            calls: Vec::new(alloc),
            failing,
            faults: 0,
            locked: false,
        }
    }

    /// Adds a file. Of two files with the same path, the first is found. Errors: memory ran out.
    pub fn add(&mut self, path: &str, bytes: &[u8]) -> Result<(), AllocError>
        ensures ok { OnOk result (memory_files_shown self.new
            ≡ with_file path.now bytes.now (memory_files_shown self.old)) }
        ensures err { OnErr result (memory_files_shown self.new ≡ memory_files_shown self.old) }
        ensures failing { failing_of self.new ≡ failing_of self.old }
        ensures sound { faults_of self.new ≡ faults_of self.old }
        ensures lock { is_locked self.new ≡ is_locked self.old }
    {
        let alloc = *self.files.allocator();
        let file = MemoryFile {
            path: String::from_str(alloc, path)?,
            bytes: Vec::from_slice(alloc, bytes)?,
        };
        self.files.push(file)?;
        Ok(())
    }

    /// The bytes of the file at the path, if there is one.
    pub fn bytes(&self, path: &str) -> Option<&[u8]>
        ensures { option_copied result ≡ file_at path.now (memory_files_shown self.now).stored }
    {
        bytes_of(&self.files, path)
    }

    /// The calls that were answered, in their order. A call to which memory was refused does not
    /// count.
    pub fn calls(&self) -> &[Call]
        ensures { map call_of result.now ≡ (memory_files_shown self.now).calls }
    {
        &self.calls
    }

    /// Whether the lock was taken.
    pub fn is_locked(&self) -> bool
        ensures { result ≡ is_locked self.now }
    {
        self.locked
    }

    /// Whether the next call is the one that is to fail.
    fn is_due(&self) -> bool
        ensures { result ≡ is_due self.now }
    {
        match self.failing {
            Some(answered) => answered == self.calls.len(),
            None => false,
        }
    }

    /// Reads the whole file.
    fn whole(&self, alloc: Global, path: &str) -> Result<Vec<u8>, FileFault>
        ensures { Gives (whole_answer (is_due self.now)
            (file_at path.now (memory_files_shown self.now).stored)) result }
    {
        if self.is_due() {
            return Err(FileFault::Failed);
        }
        let Some(all) = bytes_of(&self.files, path) else {
            return Err(FileFault::Failed);
        };
        if all.len() > LIMIT {
            return Err(FileFault::TooLong);
        }
        Ok(Vec::from_slice(alloc, all)?)
    }

    /// Reads the `size` bytes from `offset` on.
    fn part(
        &self,
        alloc: Global,
        path: &str,
        offset: u64,
        size: usize,
    ) -> Result<Vec<u8>, FileFault>
        ensures { Gives (part_answer (is_due self.now)
            (file_at path.now (memory_files_shown self.now).stored) offset size) result }
    {
        if self.is_due() {
            return Err(FileFault::Failed);
        }
        let Some(all) = bytes_of(&self.files, path) else {
            return Err(FileFault::Failed);
        };
        let start = offset as usize;
        if start > all.len() || all.len() - start < size {
            return Err(FileFault::Short);
        }
        Ok(Vec::from_slice(alloc, &all[start..start + size])?)
    }

    /// Records the call and counts its failure. Returns `answer`, or `Memory` if memory runs out.
    fn answered<T: Drop>(
        &mut self,
        path: &str,
        action: Action,
        answer: Result<T, FileFault>,
    ) -> Result<T, FileFault>
        ensures answer { IsUnlessMemory answer result }
        ensures count { CountsFault (faults_of self.old) (faults_of self.new) result }
        ensures calls { (memory_files_shown self.new).calls
            ≡ calls_after (memory_files_shown self.old).calls path.now action result }
        ensures stored { (memory_files_shown self.new).stored
            ≡ (memory_files_shown self.old).stored }
        ensures lock { is_locked self.new ≡ is_locked self.old }
    {
        if let Err(FileFault::Memory) = answer {
            return answer;
        }
        let path = String::from_str(*self.calls.allocator(), path)?;
        self.calls.push(Call { path, action })?;
        if let Err(FileFault::Failed) = answer {
            self.faults = self.faults.saturating_add(1);
        }
        answer
    }
}

impl Files for MemoryFiles {
    ghost use Rattle.std.specs.Prelude.{Some};

    ghost faults = { faults_of };

    ghost told = { λ m. Some (memory_files_shown m) };

    ghost locked = { is_locked };

    /// The lock is never refused.
    fn lock(&mut self) -> Result<(), LockFault>
        ensures taken { IsTrue (is_locked self.new) }
        ensures count { faults_of self.new ≡ faults_of self.old }
        ensures told { memory_files_shown self.new ≡ memory_files_shown self.old }
        ensures exact { result ≡ Ok tt }
    {
        self.locked = true;
        Ok(())
    }

    fn read_all(&mut self, alloc: Global, path: &str) -> Result<Vec<u8>, FileFault>
        ensures count { CountsFault (faults_of self.old) (faults_of self.new) result }
        ensures bound { IfOk result (λ bytes. vec_len bytes ≤ read_limit) }
        ensures never_short { result ≢ Err Short }
        ensures lock { is_locked self.new ≡ is_locked self.old }
        ensures told { ReadsAll path.now (memory_files_shown self.old) (memory_files_shown self.new)
            result }
        ensures exact { Gives (whole_answer (is_due self.old)
            (file_at path.now (memory_files_shown self.old).stored)) result }
    {
        let whole = self.whole(alloc, path);
        self.answered(path, Action::ReadAll, whole)
    }

    /// There are no folders.
    fn read_list(&mut self, alloc: Global, path: &str) -> Result<Vec<u8>, FileFault>
        ensures count { CountsFault (faults_of self.old) (faults_of self.new) result }
        ensures bound { IfOk result (λ bytes. vec_len bytes ≤ read_limit) }
        ensures never_short { result ≢ Err Short }
        ensures lock { is_locked self.new ≡ is_locked self.old }
        ensures told { ReadsAll path.now (memory_files_shown self.old) (memory_files_shown self.new)
            result }
        ensures exact { Gives (whole_answer (is_due self.old)
            (file_at path.now (memory_files_shown self.old).stored)) result }
    {
        self.read_all(alloc, path)
    }

    /// There are no links.
    fn read_below(
        &mut self,
        alloc: Global,
        path: &str,
        _folder: usize,
    ) -> Result<Vec<u8>, FileFault>
        ensures count { CountsFault (faults_of self.old) (faults_of self.new) result }
        ensures bound { IfOk result (λ bytes. vec_len bytes ≤ read_limit) }
        ensures never_short { result ≢ Err Short }
        ensures lock { is_locked self.new ≡ is_locked self.old }
        ensures told { ReadsAll path.now (memory_files_shown self.old) (memory_files_shown self.new)
            result }
        ensures exact { Gives (whole_answer (is_due self.old)
            (file_at path.now (memory_files_shown self.old).stored)) result }
    {
        self.read_all(alloc, path)
    }

    fn read_at(
        &mut self,
        alloc: Global,
        path: &str,
        offset: u64,
        size: usize,
    ) -> Result<Vec<u8>, FileFault>
        ensures count { CountsFault (faults_of self.old) (faults_of self.new) result }
        ensures size { IfOk result (λ bytes. vec_len bytes ≡ size) }
        ensures never_long { result ≢ Err TooLong }
        ensures lock { is_locked self.new ≡ is_locked self.old }
        ensures told { ReadsAt path.now offset size (memory_files_shown self.old)
            (memory_files_shown self.new) result }
        ensures exact { Gives (part_answer (is_due self.old)
            (file_at path.now (memory_files_shown self.old).stored) offset size) result }
    {
        let part = self.part(alloc, path, offset, size);
        self.answered(path, Action::ReadAt { offset, size }, part)
    }

    /// A write that is to fail leaves the first half of its bytes.
    fn write_at(&mut self, path: &str, offset: u64, bytes: &[u8]) -> Result<(), FileFault>
        ensures count { CountsFault (faults_of self.old) (faults_of self.new) result }
        ensures never_short { result ≢ Err Short }
        ensures never_long { result ≢ Err TooLong }
        ensures lock { is_locked self.new ≡ is_locked self.old }
        ensures told { WritesAt path.now offset bytes.now (memory_files_shown self.old)
            (memory_files_shown self.new) result }
        ensures exact { IsUnlessMemory
            (write_answer (is_due self.old) (file_at path.now (memory_files_shown self.old).stored)
            offset bytes.now) result }
        ensures kept { result ≢ Err Memory → (memory_files_shown self.new).stored
            ≡ put path.now offset (taken (is_due self.old) bytes.now)
            (memory_files_shown self.old).stored }
    {
        let fails = self.is_due();
        let call = Call {
            path: String::from_str(*self.calls.allocator(), path)?,
            action: Action::WriteAt {
                offset,
                size: bytes.len(),
            },
        };
        self.calls.push(call)?;
        let kept = if fails { bytes.len() / 2 } else { bytes.len() };
        if put(&mut self.files, path, offset, &bytes[..kept]) && !fails {
            return Ok(());
        }
        self.faults = self.faults.saturating_add(1);
        Err(FileFault::Failed)
    }

    /// A file that is made by the call that is to fail has the first half of its bytes.
    fn create(&mut self, path: &str, bytes: &[u8]) -> Result<bool, FileFault>
        ensures count { CountsFault (faults_of self.old) (faults_of self.new) result }
        ensures never_short { result ≢ Err Short }
        ensures never_long { result ≢ Err TooLong }
        ensures lock { is_locked self.new ≡ is_locked self.old }
        ensures told { Creates path.now bytes.now (memory_files_shown self.old)
            (memory_files_shown self.new) result }
        ensures exact { IsUnlessMemory (create_answer (is_due self.old)
            (file_at path.now (memory_files_shown self.old).stored)) result }
        ensures kept { result ≢ Err Memory → (memory_files_shown self.new).stored
            ≡ made path.now (taken (is_due self.old) bytes.now)
            (memory_files_shown self.old).stored }
    {
        let fails = self.is_due();
        let action = Action::Create { size: bytes.len() };
        let is_new = self.bytes(path).is_none();
        let answer = if fails {
            Err(FileFault::Failed)
        } else {
            Ok(is_new)
        };
        if !is_new {
            return self.answered(path, action, answer);
        }
        let kept = if fails { bytes.len() / 2 } else { bytes.len() };
        self.add(path, &bytes[..kept])?;
        let answered = self.answered(path, action, answer);
        if let Err(FileFault::Memory) = answered {
            let _ = self.files.pop();
        }
        answered
    }
}
