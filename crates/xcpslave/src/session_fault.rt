//! Why `xcpslave` stops: the line that it prints, and its status.
ghost use Rattle.std.specs.Prelude.{◌≤◌};

use program_input::TextFault;
use session::ProfileFault;
use session_file::{FileFault, PlayFault};
use thiserror::Error;

/// Why the program stops, as the line that it prints.
#[derive(Clone, Copy, Debug, PartialEq, Eq, Error)]
pub enum SessionFault {
    /// The arguments are no command line.
    #[error("xcpslave: bad command line")]
    CommandLine,
    /// The text of the session can't be read.
    #[error("xcpslave: cannot read session")]
    Unreadable,
    /// The text is no session.
    #[error("xcpslave: bad session: {0}")]
    File(FileFault),
    /// The profile is out of a limit.
    #[error("xcpslave: bad profile: {0}")]
    Profile(ProfileFault),
    /// Memory ran out.
    #[error("xcpslave: out of memory")]
    Memory,
    /// What is left of a task did not come back.
    #[error("xcpslave: what is left of a task did not come back")]
    PartLost,
}

impl SessionFault {
    /// The status that the program ends with.
    pub fn status(self) -> u8
        ensures { result ≤ 2 }
    {
        match self {
            SessionFault::Memory | SessionFault::PartLost => 1,
            _ => 2,
        }
    }

    /// The fault of a text that can't be read.
    pub fn of_text(fault: TextFault) -> SessionFault {
        match fault {
            TextFault::Unreadable => SessionFault::Unreadable,
            TextFault::Memory => SessionFault::Memory,
        }
    }

    /// The fault of a text that is no session.
    pub fn of_file(fault: FileFault) -> SessionFault {
        match fault {
            FileFault::Memory => SessionFault::Memory,
            _ => SessionFault::File(fault),
        }
    }

    /// The fault of a session that isn't played.
    pub fn of_play(fault: PlayFault) -> SessionFault {
        match fault {
            PlayFault::Memory => SessionFault::Memory,
            PlayFault::Profile(fault) => SessionFault::Profile(fault),
            PlayFault::PartLost => SessionFault::PartLost,
        }
    }
}
