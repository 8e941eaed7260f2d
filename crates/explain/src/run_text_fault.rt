//! The faults of a text that is to be a run: it can't be read, or it is no run.
use program_input::TextFault;
use run_file::RunFault;
use thiserror::Error;

/// Why no run is read from a text.
#[derive(Clone, Copy, Debug, PartialEq, Eq, Error)]
pub enum RunTextFault {
    /// The text can't be read.
    #[error("cannot read run")]
    Unreadable,
    /// The text is no run.
    #[error("bad run: {0}")]
    Run(RunFault),
    /// Memory ran out.
    #[error("out of memory")]
    Memory,
}

impl From<TextFault> for RunTextFault {
    ghost use Rattle.std.specs.Prelude.{◌≡◌};
    ghost use Rattle.explain.specs.RunTexts.{fault_of_text};

    ghost from_gives = { λ text fault. fault ≡ fault_of_text text };

    fn from(fault: TextFault) -> RunTextFault {
        match fault {
            TextFault::Unreadable => RunTextFault::Unreadable,
            TextFault::Memory => RunTextFault::Memory,
        }
    }
}

impl From<RunFault> for RunTextFault {
    ghost use Rattle.std.specs.Prelude.{◌≡◌};
    ghost use Rattle.explain.specs.RunTexts.{fault_of_run};

    ghost from_gives = { λ run fault. fault ≡ fault_of_run run };

    fn from(fault: RunFault) -> RunTextFault {
        match fault {
            RunFault::Memory => RunTextFault::Memory,
            _ => RunTextFault::Run(fault),
        }
    }
}
