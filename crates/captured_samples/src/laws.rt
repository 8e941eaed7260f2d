//! Laws of the definitions: each is the contract of a function that does nothing.
ghost use Rattle.captured_samples.specs.Losses.{JumpForgets};
ghost use Rattle.captured_samples.specs.Stream.{AllCame, AlwaysStarts, NothingElse};
ghost use Rattle.captured_samples.specs.Stream.{NothingMissing, NothingTwice};
ghost use Rattle.captured_samples.specs.Turns.{LastIsUnderWay, UnderWayInTurn, UnderWayIsLast};

/// Whatever came, the packets of a list that are under way are one of ODT 0, one of ODT 1 and so
/// on, each with all bytes of the entries.
pub fn under_way_in_turn()
    ensures { UnderWayInTurn }
{}

/// Whatever came, they are the last packets of the list that came, behind the last gap, in the
/// order in which they came.
pub fn under_way_is_last()
    ensures { UnderWayIsLast }
{}

/// Whatever came, if the last packets of the list behind the last gap are one of ODT 0, one of ODT
/// 1 and so on, each with all bytes of the entries, they are the ones that are under way.
pub fn last_is_under_way()
    ensures { LastIsUnderWay }
{}

/// Whatever came, what came of a list since it was set up stands among the packets that the slave
/// sent, in this order, with each gap.
pub fn all_came()
    ensures { AllCame }
{}

/// A sample that is told shows packets of one list, of each ODT in turn, the last of the list that
/// came, with no gap between them.
pub fn nothing_else()
    ensures { NothingElse }
{}

/// If such packets came, their sample is told.
pub fn nothing_missing()
    ensures { NothingMissing }
{}

/// No packet is shown twice.
pub fn nothing_twice()
    ensures { NothingTwice }
{}

/// Whatever packets look like at first, there is a test that tells lists whose packets are read
/// alike from others, by which reading begins.
pub fn always_starts()
    ensures { AlwaysStarts }
{}

/// Behind a frame of a master whose counter jumps no list is known.
pub fn jump_forgets()
    ensures { JumpForgets }
{}
