//! Why a recording isn't shown, or no further.
use crate::break_off::BreakOff;
use program_input::TextFault;
use std::alloc::AllocError;
use thiserror::Error;

/// Why a recording isn't shown.
#[derive(Clone, Copy, Debug, PartialEq, Eq, Error)]
pub enum RecordingFault {
    /// No measurement that is wanted stands in a DAQ list.
    #[error("no such measurement in the recording")]
    NoValue,
    /// The recording can't be read.
    #[error("cannot read recording")]
    Unreadable,
    /// The recording doesn't begin with the replies of this run.
    #[error("recording of another run file")]
    OtherRun,
    /// The recording is at its end before the replies are.
    #[error("recording breaks off in the replies of its set-up")]
    InReplies,
    /// The recording breaks off.
    #[error("{0}")]
    BreaksOff(BreakOff),
    /// Memory ran out.
    #[error("out of memory")]
    Memory,
}

impl RecordingFault {
    ghost use Rattle.std.specs.Prelude.{◌≡◌};
    ghost use Rattle.recording.specs.Faults.{fault_of_recording};

    /// Why a recording isn't read, by the fault of reading a text.
    pub fn of_text(fault: TextFault) -> RecordingFault
        ensures { result ≡ fault_of_recording fault }
    {
        match fault {
            TextFault::Unreadable => RecordingFault::Unreadable,
            TextFault::Memory => RecordingFault::Memory,
        }
    }
}

impl From<AllocError> for RecordingFault {
    ghost use Rattle.std.specs.Prelude.{◌≡◌};
    ghost use Rattle.recording.specs.declared.recording_fault.RecordingFault.TheVariants.{Memory};

    ghost from_gives = { λ _ fault. fault ≡ Memory };

    fn from(_error: AllocError) -> RecordingFault {
        RecordingFault::Memory
    }
}
