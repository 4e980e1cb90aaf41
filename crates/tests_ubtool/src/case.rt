//! All rows: those that the libraries answer, and those of the whole program.

use crate::faults;
use crate::performing::{rehearse, run};
use tests_callers::images::order_of;
use tests_rows::{Rows, subject_of};
use tests_tools::{Calls, Case, Performed, answer_call, answer_sweep};

/// What the rows of a paragraph have set.
#[derive(Drop)]
pub struct Whole<'a> {
    case: Case<'a>,
}

impl<'a> Whole<'a> {
    /// Nothing is set.
    pub fn new(rt: &'a HostRuntime) -> Whole<'a> {
        Whole {
            case: Case::new(rt),
        }
    }
}

/// What a row speaks of.
#[derive(Clone, Copy)]
enum Subject {
    Library,
    Order,
    Call,
    Sweep,
    Fault,
}

/// The first words of the rows that no library answers, by what they speak of.
const SUBJECTS: [(&str, Subject); 4] = [
    ("order", Subject::Order),
    ("print value standard rehearse run", Subject::Call),
    ("each-out each-err", Subject::Sweep),
    ("faults fault", Subject::Fault),
];

impl Calls for Whole<'_> {
    fn call(&mut self, word: &str, says: &str, done: &mut Performed) -> anyhow::Result<()> {
        match word {
            "rehearse" => rehearse(&self.case, says, done),
            "run" => run(&mut self.case, says, done),
            _ => self.case.call(word, says, done),
        }
    }
}

/// The byte order in which the image is sound.
fn order(case: &Case<'_>) -> anyhow::Result<String> {
    let order = order_of(&case.first);
    Ok(format!(in case.alloc; "{order:?}")?)
}

impl Rows for Whole<'_> {
    fn forget(&mut self) -> anyhow::Result<()> {
        self.case.forget()
    }

    fn answer(&mut self, word: &str, says: &str) -> anyhow::Result<String> {
        let (alloc, modes) = (self.case.alloc, self.case.modes);
        match subject_of(&SUBJECTS, word, Subject::Library) {
            Subject::Library => self.case.answer(word, says),
            Subject::Order => order(&self.case),
            Subject::Call => answer_call(alloc, self, modes, word, says),
            Subject::Sweep => answer_sweep(alloc, self, word, says),
            Subject::Fault => faults::told(alloc, word, says),
        }
    }
}
