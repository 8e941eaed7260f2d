//! Laws of the definitions: each is the contract of a function that does nothing.
ghost use Rattle.captured_session.specs.LawsOfEntries.{KnownIsWritten, WrittenIsKnown};
ghost use Rattle.captured_session.specs.LawsOfExchanges.{EachCommandOnce, OthersChangeNothing};
ghost use Rattle.captured_session.specs.LawsOfForms.{FieldIsGiven, FieldIsNewest, OrderIsGiven};
ghost use Rattle.captured_session.specs.LawsOfForms.{OrderIsNewest, StampIsGiven, StampIsNewest};
ghost use Rattle.captured_session.specs.LawsOfLosses.{LossForgets};
ghost use Rattle.captured_session.specs.LawsOfPointers.{PointerMoves};
ghost use Rattle.captured_session.specs.LawsOfSetUps.{AllocDaqForgets, FreeDaqForgets};
ghost use Rattle.captured_session.specs.LawsOfSetUps.{NothingIsKnown, RefusedChangesNothing};

/// Whatever came before and behind it, a packet of the master that is no command, and one of the
/// slave that is no reply, changes nothing of what is known.
pub fn others_change_nothing()
    ensures { OthersChangeNothing }
{}

/// Each command that was heard, and behind which another command or a reply came, is in just one
/// exchange: with the reply, if that came first, and else without one. So is each reply that no
/// command waits for, and each place where commands may be missing, as those of a command that is
/// missing. Nothing else is in one.
pub fn each_command_once()
    ensures { EachCommandOnce }
{}

/// Byte order and granularity are those that the newest positive reply to CONNECT told, and those
/// that were given, if there is none.
pub fn order_is_newest()
    ensures newest { OrderIsNewest }
    ensures given { OrderIsGiven }
{}

/// The identification field and the overload indication are those that the newest positive reply to
/// GET_DAQ_PROCESSOR_INFO told, and those that were given, if there is none.
pub fn field_is_newest()
    ensures newest { FieldIsNewest }
    ensures given { FieldIsGiven }
{}

/// Timestamps look as the newest positive reply to GET_DAQ_RESOLUTION_INFO told, and as was given,
/// if there is none.
pub fn stamp_is_newest()
    ensures newest { StampIsNewest }
    ensures given { StampIsGiven }
{}

/// Whatever came before and behind it, a refused command changes nothing of what is known; but not
/// SET_DAQ_PTR and WRITE_DAQ_MULTIPLE, nor one that is missing.
pub fn refused_changes_nothing()
    ensures { RefusedChangesNothing }
{}

/// Behind a reply that no command waits for, and behind a place where commands may be missing, no
/// list is known; but for more of an UPLOAD, and the reply to SYNCH.
pub fn loss_forgets()
    ensures { LossForgets }
{}

/// Of what came before a FREE_DAQ that wasn't refused, or a command that is missing, nothing counts
/// but how packets look, and of what came before an ALLOC_DAQ nothing but that and where the next
/// entry is written: neither lists nor their modes are known.
pub fn forgets_before()
    ensures free { FreeDaqForgets }
    ensures alloc { AllocDaqForgets }
    ensures nothing { NothingIsKnown }
{}

/// Behind a SET_DAQ_PTR that was carried out the next entry is written as many entries on as were
/// written since, if nothing since then set the pointer or left it unknown.
pub fn pointer_moves()
    ensures { PointerMoves }
{}

/// An entry is known exactly if the newest exchange that says anything of it is a write of it that
/// was carried out.
pub fn entry_is_newest()
    ensures known { KnownIsWritten }
    ensures written { WrittenIsKnown }
{}
