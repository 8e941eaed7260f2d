//! The replies with which a recording begins.
ghost use Rattle.std.specs.Prelude.{◌≡◌, IfErr, OnOk, Some};
ghost use Rattle.recording.specs.Files.{ArePassed, IsFaultOfReplies};

use crate::messages::Messages;
use crate::recording::pass_replies;
use crate::recording_fault::RecordingFault;
use crate::run_recording::RunRecording;
use crate::source::Source;
use std::alloc::Global;
use std::io::Read;

/// Takes the replies off a recording, with which it begins.
pub fn begin_recording<I: Read + Drop, M: Messages>(
    alloc: Global,
    recorded: &RunRecording<'_>,
    from: &mut Source<'_, I, M>,
) -> Result<(), RecordingFault>
    ensures passed { OnOk result (ArePassed recorded.now (I.remaining from.old.input)
        (I.remaining from.new.input) from.new.piece) }
    ensures fault { IfErr result (IsFaultOfReplies recorded.now (I.remaining from.old.input)) }
{
    let frames = recorded.run.setup().len();
    let piece = pass_replies(alloc, &mut from.input, recorded.replies, frames)?;
    from.piece = piece;
    Ok(())
}
