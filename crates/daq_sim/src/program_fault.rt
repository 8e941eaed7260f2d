//! Why `xcpdaq` stops: the line that it prints, and its status.
ghost use Rattle.std.specs.Prelude.{◌≡◌, ◌≢◌};
ghost use Rattle.std.specs.IoError.{error_kind};

use daq_run::SimFault;
use explain::RunTextFault;
use run_file::RunFault;
use std::alloc::AllocError;
use std::io::{self, ErrorKind};
use thiserror::Error;

/// Why the program stops, as the line that it prints.
#[derive(Clone, Copy, Debug, PartialEq, Eq, Error)]
pub enum ProgramFault {
    /// The arguments are no command line.
    #[error("xcpdaq: bad command line")]
    CommandLine,
    /// The text of the run can't be read.
    #[error("xcpdaq: cannot read run")]
    Unreadable,
    /// The text is no run.
    #[error("xcpdaq: bad run: {0}")]
    Run(RunFault),
    /// The file for the frames can't be made.
    #[error("xcpdaq: cannot make out file")]
    OutFile,
    /// The run wasn't done to its end, or memory ran out.
    #[error("xcpdaq: {0}")]
    Sim(SimFault),
}

impl ProgramFault {
    ghost use Rattle.daq_sim.specs.Faults.{status_of_fault, want_of_memory};

    /// Lack of memory, wherever it was met.
    pub const MEMORY: ProgramFault = ProgramFault::Sim(SimFault::Memory);

    /// The status that the program ends with.
    pub fn status(self) -> u8
        ensures { result ≡ status_of_fault self }
    {
        match self {
            ProgramFault::Sim(_) => 1,
            _ => 2,
        }
    }

    /// This fault, or lack of memory if that is what the system answered.
    pub fn or_memory(self, error: &io::Error) -> ProgramFault
        ensures memory { error_kind error.now ≡ ErrorKind.OutOfMemory → result ≡ want_of_memory }
        ensures other { error_kind error.now ≢ ErrorKind.OutOfMemory → result ≡ self }
    {
        match error.kind() {
            ErrorKind::OutOfMemory => ProgramFault::MEMORY,
            _ => self,
        }
    }
}

impl From<RunTextFault> for ProgramFault {
    ghost use Rattle.daq_sim.specs.Faults.{fault_of_text};

    ghost from_gives = { λ text fault. fault ≡ fault_of_text text };

    fn from(fault: RunTextFault) -> ProgramFault {
        match fault {
            RunTextFault::Unreadable => ProgramFault::Unreadable,
            RunTextFault::Run(fault) => ProgramFault::Run(fault),
            RunTextFault::Memory => ProgramFault::MEMORY,
        }
    }
}

impl From<AllocError> for ProgramFault {
    ghost use Rattle.daq_sim.specs.Faults.{want_of_memory};

    ghost from_gives = { λ _ fault. fault ≡ want_of_memory };

    fn from(_error: AllocError) -> ProgramFault {
        ProgramFault::MEMORY
    }
}
