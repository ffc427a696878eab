//! A run of calls worked out by hand, and cases beside it, which the law of the journal has to agree with.
ghost use Rattle.journal.specs.Worked.{WorkedRun};
ghost use Rattle.journal.specs.Cases.{LawCases};

/// Does nothing: the worked run can be made, and the law says of it what the ledger answers.
pub fn worked_run()
    ensures { WorkedRun }
{}

/// Does nothing: the law decides each case as it should.
pub fn law_cases()
    ensures { LawCases }
{}
