//! What follows from the definitions: the contract of a function that does nothing.
ghost use Rattle.recording.specs.RunFiles.{RunFilesAreRead, RunFilesAreWhole};
ghost use Rattle.recording.specs.RunFiles.{RunFilesInThreadsAreRead, RunFilesInThreadsAreWhole};
ghost use Rattle.recording.specs.Laws.{WrittenIsReadBack};
ghost use Rattle.recording.specs.Plans.{HasAllPlans};
ghost use Rattle.recording.specs.Runs.{WrittenInThreadsIsReadBack, WrittenRunIsReadBack};

use daq_store::Store;

/// What `xcpdaq --out` wrote of a run whose writer didn't fail is read back, in one thread and in
/// threads: it begins with the replies to the set-up, and what a piece behind them and the rest of
/// the input have is a recording for the ready lists of the store that the set-up leaves.
///
/// So `pass_replies` passes the replies, by its clause `passed`, and `read_frames` hands over of
/// each list just the first samples that its event channel accepted, and all of them after a drain,
/// by its clause `given`.
pub fn what_a_run_wrote_is_read()
    ensures in_one_thread { RunFilesAreRead }
    ensures in_threads { RunFilesInThreadsAreRead }
{
    // for the proof: what a run wrote is such a recording
    crate::laws::what_a_run_wrote_is_read_back();
}

/// To whoever has the replies and the store of the run's set-up, such a file has a whole recording.
///
/// So no fault of the recording is answered where it is shown, by the clauses `whole` of
/// `show_recording` and `show_samples`; nor of a front of it, but that it breaks off at its end, by
/// `torn`.
pub fn what_a_run_wrote_is_whole()
    ensures in_one_thread { RunFilesAreWhole }
    ensures in_threads { RunFilesInThreadsAreWhole }
{
    // for the proof: what a run wrote is such a recording
    crate::laws::what_a_run_wrote_is_read_back();
}

/// What an engine wrote is a recording of the first samples that its event channels accepted.
///
/// It is one for a reader of the plans of all channels, in any order, who awaits the counter that
/// was next as the engine was opened, whatever was written before: the bytes behind that, if the
/// frame writer did not fail, and else the whole frames among them, behind which stands a proper
/// prefix of the frames of the sample in hand. So `daq_reader::read`, by its clause `whole`,
/// returns `Ok` on these bytes, and gives back of each DAQ list just the samples that were written
/// of it, whole, once and in order, each with the image, the timestamp and the overload indication
/// of its trigger.
pub fn what_is_written_is_read_back()
    ensures { WrittenIsReadBack }
{}

/// The ready DAQ lists of a store are all that an engine over it is opened with: each of them is
/// of an event channel that the store has. So a reader of these lists is one of all channels.
pub fn ready_lists_are_all(store: &Store)
    ensures { HasAllPlans store.now }
{
    for l in 0..store.lists() {
        // for the proof: gives `channel` of the list, if it is ready
        let _ = store.plan(l);
    }
}

/// What a run wrote is read back, in one thread and in threads: its bytes are the frames of the
/// replies to its set-up, and behind them such a recording, of the ready lists of the store that
/// the set-up leaves and from the counter behind the replies.
///
/// So `daq_reader::read`, begun there with these lists, gives back of each of them just the first
/// samples that its event channel accepted, and all of them after a drain at which the writer
/// didn't fail. If it failed, this holds as far as the frames go that were written whole.
pub fn what_a_run_wrote_is_read_back()
    ensures in_one_thread { WrittenRunIsReadBack }
    ensures in_threads { WrittenInThreadsIsReadBack }
{}
