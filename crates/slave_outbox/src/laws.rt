//! What follows from the definitions.
ghost use Rattle.slave_outbox.specs.Laws.{NothingBehindAStop};

/// Behind a stop of a DAQ list no sample of it is written until its next start, whatever its ring
/// holds.
pub fn nothing_behind_a_stop()
    ensures { NothingBehindAStop }
{}
