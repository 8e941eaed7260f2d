//! Why a run breaks off: memory, nothing to run, a reply, a ring's end or a thread.
use crate::SetupFault;
use thiserror::Error;

/// Why a run was not done to its end. The writer comes back.
#[derive(Clone, Copy, Debug, PartialEq, Eq, Error)]
pub enum SimFault {
    /// Memory ran out.
    #[error("want of memory")]
    Memory,
    /// After the set-up no DAQ list runs.
    #[error("nothing running")]
    NothingRunning,
    /// A reply of the set-up could not be written.
    #[error("write failed")]
    SetupWrite,
    /// What is left of a sampler didn't come back from its ring.
    #[error("sampler end lost")]
    EndLost,
    /// A thread could not be had.
    #[error("no thread")]
    NoThread,
}

impl From<SetupFault> for SimFault {
    ghost use Rattle.std.specs.Prelude.{◌≡◌};
    ghost use Rattle.daq_run.specs.Faults.{run_fault};

    ghost from_gives = { λ fault sim. sim ≡ run_fault fault };

    fn from(fault: SetupFault) -> SimFault {
        match fault {
            SetupFault::Memory => SimFault::Memory,
            SetupFault::Write => SimFault::SetupWrite,
        }
    }
}
