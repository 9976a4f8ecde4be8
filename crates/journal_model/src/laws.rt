//! Laws of journals, over the definitions alone. Each is a function without parameters whose contract is the law.
//! docs/MACHINE.md reads them in prose.

ghost use Rattle.journal_model.specs.Laws.{StepsAreLegal, JournalsOfRunsAreLegal, JournalsJoin, JournalsPart};

/// Each step of the machine has a legal answer at any point of a journal that allows its state, and the journal with that
/// entry allows the state after it.
pub fn steps_are_legal()
    ensures { StepsAreLegal }
{}

/// The journal of every run is legal, and allows the state in which the run ends.
pub fn journals_of_runs_are_legal()
    ensures { JournalsOfRunsAreLegal }
{}

/// Two journals, the second legal from where the first leads, are one.
pub fn journals_join()
    ensures { JournalsJoin }
{}

/// Each part of a legal journal is legal from where the one before it leads.
pub fn journals_part()
    ensures { JournalsPart }
{}
