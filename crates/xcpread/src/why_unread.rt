//! The reason of a recording that isn't read, in words.
use explain::{Why, why_other_run};
use program_input::front_from;
use recording::{RecordingFault, RunRecording};
use std::alloc::Global;
use std::fs;
use std::rt::Files;

/// Tells why a recording isn't read, if its file can't be or begins with other bytes than the
/// replies; for the latter, the file is read once more.
pub fn tell_unread<R: Files>(
    rt: &R,
    alloc: Global,
    recorded: &RunRecording<'_>,
    fault: RecordingFault,
    why: &mut Why,
) {
    if fault == RecordingFault::Unreadable {
        why.tell_file(recorded.name, "it can't be read");
    }
    if !why.is_wanted() || !is_of_replies(fault) {
        return;
    }
    let Ok(mut file) = fs::open(rt, recorded.name) else {
        return;
    };
    let Ok(front) = front_from(alloc, &mut file, recorded.replies.len()) else {
        return;
    };
    let RunRecording {
        name,
        run,
        replies,
        ..
    } = *recorded;
    if let Ok(text) = why_other_run(alloc, name, run, replies, &front) {
        why.tell(text.as_str());
    }
}

/// Whether a fault is one of the replies of a recording.
fn is_of_replies(fault: RecordingFault) -> bool {
    fault == RecordingFault::OtherRun || fault == RecordingFault::InReplies
}
