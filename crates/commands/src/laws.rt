//! Laws of `test`, each the contract of a function that does nothing.
ghost use Rattle.commands.specs.UBootTest.{OnlyQuestionsCount};

/// Whether words hold for U-Boot's shells depends on the answers to their questions, and on no others.
pub fn only_questions_count()
    ensures { OnlyQuestionsCount }
{}
