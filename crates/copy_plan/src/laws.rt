//! Laws of the definitions: each is the contract of a function that does nothing.
ghost use Rattle.copy_plan.specs.Laws.{ElementsAreMemory};
ghost use Rattle.copy_plan.specs.Pids.{ListFieldsApart, MarkedPid, PidRanges, PidsApart};
ghost use Rattle.copy_plan.specs.Pids.{RelativePid};

/// With an absolute ODT number FIRST_PID and the ODTs of two DAQ lists of one store make ranges
/// that share nothing: each PID of the lower list is below each PID of the higher one.
pub fn pid_ranges_share_nothing()
    ensures { PidRanges }
{}

/// The overload indication changes no more than the highest bit of a PID, and without it no PID is
/// over 0x7B.
pub fn marked_pid()
    ensures { MarkedPid }
{}

/// With an absolute ODT number plans of two lists of one store have no PID in common, whether it
/// has the overload indication or not.
pub fn pids_of_lists_are_apart()
    ensures { PidsApart }
{}

/// With a relative ODT number the PID is this number, at most 0x7B, and the overload indication.
pub fn relative_pid()
    ensures { RelativePid }
{}

/// With a relative ODT number packets of two lists differ in the list number behind the PID.
pub fn list_fields_are_apart()
    ensures { ListFieldsApart }
{}

/// The elements of a list that is ready are, entry by entry, the bytes at its address extension and
/// address in the memory that the trigger hands in, where the list's event channel may read them.
pub fn elements_are_memory()
    ensures { ElementsAreMemory }
{}
