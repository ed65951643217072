// Laws of single turns, and that every run keeps them.
#![tactic(auto)]

ghost use Rattle.laws.specs.Clean.{OpeningsClean};
ghost use Rattle.laws.specs.CountedRows.{CountedRowsLinked, CountedRowsSound, RunsLinkCounted};
ghost use Rattle.laws.specs.Laws.{TurnsKeepCounted, TurnsKeepLaws};
ghost use Rattle.laws.specs.Sound.{RunsKeepLaws, RunsSound};
ghost use Rattle.laws.specs.Stamps.{RunsStamp};

/// Which cells a turn can change and how, and what it leaves as it was.
pub fn turn_laws()
    ensures { TurnsKeepLaws }
{}

/// The same of rows that their owners count, in a chain or not.
pub fn turns_keep_counted()
    ensures { TurnsKeepCounted }
{}

/// Every opening is clean.
pub fn openings_clean()
    ensures { OpeningsClean }
{}

/// In every state that a list of requests leads to, each place names keys and linked rows.
pub fn runs_sound()
    ensures { RunsSound }
{}

/// So the laws hold of every turn of every run.
pub fn runs_keep_laws()
    ensures { RunsKeepLaws }
{}

/// In every run the clock keeps its limits, and ins and del of a linked row get at most one stamp each, which stays.
pub fn runs_stamp()
    ensures { RunsStamp }
{}

/// A run from a clean state in which each row that its owner counts is linked keeps it so.
pub fn runs_link_counted()
    ensures { RunsLinkCounted }
{}

/// In every run from an opening each row that its owner counts is linked.
pub fn counted_rows_linked()
    ensures { CountedRowsLinked }
{}

/// So what every run from an opening keeps of linked rows holds of each row that its owner counts.
pub fn counted_rows_sound()
    ensures { CountedRowsSound }
{}
