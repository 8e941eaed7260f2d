//! Why `xcpread` stops: the line that it prints, and its status.
use capture_recording::CaptureReadFault;
use explain::RunTextFault;
use recording::RecordingFault;
use std::alloc::AllocError;
use thiserror::Error;

/// Why the program stops, as the line that it prints.
#[derive(Clone, Copy, Debug, PartialEq, Eq, Error)]
pub enum ProgramFault {
    /// The arguments are no command line.
    #[error("xcpread: bad command line")]
    CommandLine,
    /// No run is read, or memory ran out.
    #[error("xcpread: {0}")]
    Text(RunTextFault),
    /// The A2L file can't be read.
    #[error("xcpread: cannot read a2l")]
    UnreadableA2l,
    /// The A2L file is no description.
    #[error("xcpread: bad a2l")]
    BadA2l,
    /// The recording isn't shown.
    #[error("xcpread: {0}")]
    Recording(RecordingFault),
    /// The capture isn't shown, or no further.
    #[error("xcpread: {0}")]
    Capture(CaptureReadFault),
    /// The capture on standard input is too long to be held.
    #[error("xcpread: capture of over 256 MiB on standard input: write it to a file")]
    LongInput,
    /// Nobody in the capture is the slave.
    #[error("xcpread: no slave in the capture")]
    NoSlave,
    /// Several are.
    #[error("xcpread: several slaves in the capture: say which one with --slave")]
    SeveralSlaves,
    /// The output can't be printed.
    #[error("xcpread: cannot print")]
    Unprinted,
    /// The file that is to be written is read too.
    #[error("xcpread: the output is one of the inputs")]
    OutputIsInput,
    /// What is to be written is a folder, a pipe or a device.
    #[error("xcpread: the output is no file")]
    OutputNoFile,
    /// The file that is to be written can't be made.
    #[error("xcpread: cannot make mf4")]
    UnmadeOutput,
    /// The file isn't written, or not to its end.
    #[error("xcpread: cannot write mf4")]
    Unwritten,
}

impl ProgramFault {
    ghost use Rattle.std.specs.Prelude.{◌≡◌};
    ghost use Rattle.xcpread.specs.Faults.{status_of_fault};

    /// Lack of memory before the recording is read.
    pub const MEMORY: ProgramFault = ProgramFault::Text(RunTextFault::Memory);

    /// The status that the program ends with.
    pub fn status(self) -> u8
        ensures { result ≡ status_of_fault self }
    {
        match self {
            ProgramFault::Text(RunTextFault::Memory) => 1,
            ProgramFault::Recording(RecordingFault::NoValue) => 2,
            ProgramFault::Recording(RecordingFault::Unreadable) => 2,
            ProgramFault::Recording(_) => 1,
            ProgramFault::Capture(CaptureReadFault::Unreadable) => 2,
            ProgramFault::Capture(CaptureReadFault::NoCapture) => 2,
            ProgramFault::Capture(_) => 1,
            ProgramFault::LongInput => 1,
            ProgramFault::Unprinted => 1,
            ProgramFault::Unwritten => 1,
            _ => 2,
        }
    }
}

impl From<RunTextFault> for ProgramFault {
    ghost use Rattle.std.specs.Prelude.{◌≡◌};
    ghost use Rattle.xcpread.specs.declared.program_fault.ProgramFault.TheVariants.{Text};

    ghost from_gives = { λ text fault. fault ≡ Text text };

    fn from(fault: RunTextFault) -> ProgramFault {
        ProgramFault::Text(fault)
    }
}

impl From<RecordingFault> for ProgramFault {
    ghost use Rattle.std.specs.Prelude.{◌≡◌};
    ghost use Rattle.xcpread.specs.declared.program_fault.ProgramFault.TheVariants.{Recording};

    ghost from_gives = { λ recording fault. fault ≡ Recording recording };

    fn from(fault: RecordingFault) -> ProgramFault {
        ProgramFault::Recording(fault)
    }
}

impl From<AllocError> for ProgramFault {
    ghost use Rattle.std.specs.Prelude.{◌≡◌};
    ghost use Rattle.xcpread.specs.Faults.{want_of_memory};

    ghost from_gives = { λ _ fault. fault ≡ want_of_memory };

    fn from(_error: AllocError) -> ProgramFault {
        ProgramFault::MEMORY
    }
}
