//! Laws of the definitions: each is the contract of a function that does nothing.
ghost use Rattle.daq_run.specs.Alike.{AmpleRunsAreSame, RefusalsDecideRuns};
ghost use Rattle.daq_run.specs.Ample.{AmpleRingsDropNothing};
ghost use Rattle.daq_run.specs.Whole.{AmpleRunsAreWhole};
ghost use Rattle.daq_run.specs.StepLaws.{RefusalsDecide};

use run_file::Run;

/// If a ring holds all items that its channel's steps would give if none were refused for want
/// of room, no sample is dropped, and no stop is refused for lack of room.
pub fn ample_rings_drop_nothing()
    ensures { AmpleRingsDropNothing }
{}

/// If a ring held all, the packets of its channel and its lines of the account are those of the
/// opening and the steps alone, once the run was drained and its writer didn't fail: the same in
/// one thread and in every schedule of many.
pub fn ample_runs_are_whole()
    ensures { AmpleRunsAreWhole }
{}

/// If its writer doesn't fail, what comes of a run in one thread is a function of the run and of
/// which offers its rings refused: the bytes written since it began, the account, how many steps
/// were refused, and what each channel had behind it at last.
pub fn refusals_decide_runs(run: &Run)
    ensures { RefusalsDecideRuns run.now }
{
    // for the proof: gives `limits` of the run
    let _ = run.ring();
}

/// If each ring holds all items that its channel's steps would give, were none refused for lack of
/// room, it is a function of the run alone.
pub fn ample_runs_are_same(run: &Run)
    ensures { AmpleRunsAreSame run.now }
{
    // for the proof: gives `limits` of the run
    let _ = run.ring();
}

/// If the writer doesn't fail, what the steps of a run did, and what its event channels have behind
/// them, is a function of the openings, the steps, and of which offers the rings refused: so are
/// the items taken, and with them the bytes.
pub fn done_follows_from_the_refusals()
    ensures { RefusalsDecide }
{}
