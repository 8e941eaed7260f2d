//! A law of the definitions: it is the contract of a function that does nothing.
ghost use Rattle.run_file.specs.Outcomes.{OutcomeIsUnique};

/// A text is a run or has one of the four faults, at one place, and not two of these. So what
/// `Run::read` answers, lack of memory aside, it answers exactly if that is so.
pub fn outcome_is_unique()
    ensures { OutcomeIsUnique }
{}
