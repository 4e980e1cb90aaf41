//! All rows: those that the libraries answer, those of endings and scripts, and those of the programs.

use crate::endings;
use tests_callers::scripts::is_script;
use tests_language::Case;
use tests_rows::{Rows, subject_of, unescaped};
use tests_runs::rehearsed;
use tests_ubtool::Whole;

/// What the rows of a paragraph have set.
#[derive(Drop)]
pub(crate) struct All<'a> {
    case: Case,
    programs: Whole<'a>,
    /// Whether the row `programs` was there.
    are_programs: bool,
}

impl<'a> All<'a> {
    /// Nothing is set.
    pub(crate) fn new(rt: &'a HostRuntime) -> anyhow::Result<All<'a>> {
        let case = Case::new(rt.alloc())?;
        Ok(All {
            case,
            programs: Whole::new(rt),
            are_programs: false,
        })
    }
}

/// What a row speaks of.
#[derive(Clone, Copy)]
enum Subject {
    Language,
    Script,
    Rehearsal,
    Endings,
}

/// The first words of the rows that `tests_language` does not answer, by what they speak of.
const SUBJECTS: [(&str, Subject); 3] = [
    ("script", Subject::Script),
    (
        "listing told broken resumed work grow onward end try",
        Subject::Rehearsal,
    ),
    ("endings flow", Subject::Endings),
];

/// Whether a text is a script.
fn script(case: &Case, says: &str) -> anyhow::Result<String> {
    let answer = is_script(case.alloc, &unescaped(case.alloc, says)?);
    Ok(format!(in case.alloc; "{answer:?}")?)
}

/// The answer to a row in front of `programs`.
fn of_libraries(case: &mut Case, word: &str, says: &str) -> anyhow::Result<String> {
    match subject_of(&SUBJECTS, word, Subject::Language) {
        Subject::Language => case.answer(word, says),
        Subject::Script => script(case, says),
        Subject::Rehearsal => rehearsed(case, word, says),
        Subject::Endings => endings::told(case, word, says),
    }
}

impl Rows for All<'_> {
    fn forget(&mut self) -> anyhow::Result<()> {
        self.case.forget()?;
        self.programs.forget()
    }

    fn answer(&mut self, word: &str, says: &str) -> anyhow::Result<String> {
        if self.are_programs {
            return self.programs.answer(word, says);
        }
        if word == "programs" {
            self.are_programs = true;
            return Ok(String::new(self.case.alloc));
        }
        of_libraries(&mut self.case, word, says)
    }
}
