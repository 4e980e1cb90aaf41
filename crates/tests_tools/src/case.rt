//! What the rows of a paragraph have set.

use crate::readers::Source;
use crate::writers::Mode;
use crate::{environments, files, images, outputs, subcommands};
use envimage::ByteOrder;
use envtools::{Env, PrintForm};
use std::alloc::{AllocError, Global};
use tests_rows::{Rows, first_word, number, subject_of, unescaped};
use tool_files::MemoryFiles;
use tool_words::CalledAs;

/// A case: what is set, by which the next rows are answered.
#[derive(Drop)]
pub struct Case<'a> {
    pub(crate) rt: &'a HostRuntime,
    /// Where its values are.
    pub alloc: Global,
    /// The image, or the first copy of a pair.
    pub first: Vec<u8>,
    /// The second copy of a pair.
    pub second: Option<Vec<u8>>,
    /// The byte order of the image.
    pub order: ByteOrder,
    /// How variables of the image are printed.
    pub(crate) form: PrintForm,
    /// The environment that `env` changes.
    pub(crate) env: Env,
    /// The files that a call starts with.
    pub(crate) given: Vec<(String, Vec<u8>)>,
    /// The number of the call of files that fails.
    pub(crate) failing: Option<usize>,
    /// The files, as the last call left them.
    pub files: MemoryFiles,
    /// Whether rows of files are answered by those of the machine.
    pub(crate) is_machine: bool,
    /// What the input gives, how many bytes a read, and the number of the read that fails.
    pub(crate) input: Vec<u8>,
    pub(crate) step: u32,
    pub(crate) failing_read: u32,
    /// How often the last call read its input.
    pub reads: u32,
    /// What the program is called as.
    pub called: CalledAs,
    /// What the output and the error output of a call take.
    pub modes: (Mode, Mode),
    /// The last help.
    pub(crate) help: String,
}

impl<'a> Case<'a> {
    /// A case in which nothing is set.
    pub fn new(rt: &'a HostRuntime) -> Case<'a> {
        let alloc = rt.alloc();
        Case {
            rt,
            alloc,
            first: Vec::new(alloc),
            second: None,
            order: ByteOrder::Little,
            form: PrintForm {
                header: true,
                escaped: false,
                null: false,
            },
            env: Env::new(alloc),
            given: Vec::new(alloc),
            failing: None,
            files: MemoryFiles::new(alloc, None),
            is_machine: false,
            input: Vec::new(alloc),
            step: 3,
            failing_read: u32::MAX,
            reads: 0,
            called: CalledAs::Ubtool,
            modes: (Mode::All, Mode::All),
            help: String::new(alloc),
        }
    }

    /// The input, which is not read.
    pub fn source(&self) -> Source<'_> {
        Source {
            bytes: &self.input,
            step: self.step,
            failing: self.failing_read,
            reads: 0,
            has_ended: false,
        }
    }

    /// The files that a call starts with.
    pub fn fresh(&self) -> Result<MemoryFiles, AllocError> {
        let mut files = MemoryFiles::new(self.alloc, self.failing);
        for (path, bytes) in &self.given {
            files.add(path.as_str(), bytes)?;
        }
        Ok(files)
    }

    /// Begins with the files anew.
    pub(crate) fn open(&mut self) -> anyhow::Result<()> {
        self.files = self.fresh()?;
        Ok(())
    }

    /// Adds a file.
    fn add(&mut self, says: &str) -> anyhow::Result<()> {
        let (path, bytes) = first_word(says);
        let path = String::from_str(self.alloc, path)?;
        Ok(self.given.push((path, unescaped(self.alloc, bytes)?))?)
    }

    /// Sets the image, the input or a file.
    fn put_bytes(&mut self, word: &str, says: &str) -> anyhow::Result<()> {
        let bytes = unescaped(self.alloc, says)?;
        match word {
            "first" => self.first = bytes,
            "second" => self.second = Some(bytes),
            _ => self.input = bytes,
        }
        Ok(())
    }

    /// Sets a number.
    fn put_number(&mut self, word: &str, says: &str) -> anyhow::Result<()> {
        let number = number(says)?;
        match word {
            "failing" => self.failing = Some(number as usize),
            "step" => self.step = number,
            _ => self.failing_read = number,
        }
        Ok(())
    }

    /// Sets what an output takes.
    fn put_mode(&mut self, word: &str, says: &str) -> anyhow::Result<()> {
        let mode = Mode::new(says)?;
        match word {
            "out" => self.modes.0 = mode,
            _ => self.modes.1 = mode,
        }
        Ok(())
    }

    /// Sets what is one of two.
    fn choose(&mut self, word: &str) -> anyhow::Result<()> {
        match word {
            "big-endian" => self.order = ByteOrder::Big,
            "escaped" => self.form.escaped = true,
            "null" => self.form.null = true,
            "machine" => self.is_machine = true,
            "fw-tool" => self.called = CalledAs::FwSetenv,
            _ => anyhow::bail!("no row begins so"),
        }
        Ok(())
    }

    /// Sets what a row says.
    fn put(&mut self, word: &str, says: &str) -> anyhow::Result<String> {
        match word {
            "first" | "second" | "input" => self.put_bytes(word, says)?,
            "failing" | "step" | "failing-read" => self.put_number(word, says)?,
            "out" | "err" => self.put_mode(word, says)?,
            "file" => self.add(says)?,
            _ => self.choose(word)?,
        }
        Ok(String::new(self.alloc))
    }
}

/// What a row speaks of.
#[derive(Clone, Copy)]
enum Subject {
    Setting,
    Image,
    Environment,
    File,
    Output,
    Command,
}

/// The first words of rows, by what they speak of. All others set something.
const SUBJECTS: [(&str, Subject); 5] = [
    (
        "crc data config load fronts encode copy-of-file change script",
        Subject::Image,
    ),
    ("env", Subject::Environment),
    (
        "reads open calls bytes locked read part write make remove up-to",
        Subject::File,
    ),
    ("parts pass over buffer flush fault-in", Subject::Output),
    ("words called lock command help has clap", Subject::Command),
];

impl Rows for Case<'_> {
    fn forget(&mut self) -> anyhow::Result<()> {
        *self = Case::new(self.rt);
        Ok(())
    }

    fn answer(&mut self, word: &str, says: &str) -> anyhow::Result<String> {
        match subject_of(&SUBJECTS, word, Subject::Setting) {
            Subject::Setting => self.put(word, says),
            Subject::Image => images::told(self, word, says),
            Subject::Environment => environments::changed(self, says),
            Subject::File => files::told(self, word, says),
            Subject::Output => outputs::told(self, word, says),
            Subject::Command => subcommands::told(self, word, says),
        }
    }
}
