//! The error codes of ERR packets, with their bytes.
ghost use Rattle.std.specs.Prelude.{◌≡◌};
ghost use Rattle.xcp_base.specs.ErrorCodes.{error_byte};

/// Why a command is refused (ASAM MCD-1 XCP, protocol layer, error codes).
#[derive(Clone, Copy, Debug, PartialEq, Eq)]
pub enum ErrCode {
    /// ERR_CMD_SYNCH: the reply to SYNCH.
    CmdSynch,
    /// ERR_CMD_BUSY: the command can't be carried out now.
    CmdBusy,
    /// ERR_DAQ_ACTIVE: a DAQ list runs.
    DaqActive,
    /// ERR_CMD_UNKNOWN: no such command.
    CmdUnknown,
    /// ERR_CMD_SYNTAX: the command packet is too short.
    CmdSyntax,
    /// ERR_OUT_OF_RANGE: a number in the command is out of its range.
    OutOfRange,
    /// ERR_ACCESS_DENIED: the memory that the command reads isn't there.
    AccessDenied,
    /// ERR_MODE_NOT_VALID: a mode that there isn't.
    ModeNotValid,
    /// ERR_SEQUENCE: the command may not follow those before it.
    Sequence,
    /// ERR_DAQ_CONFIG: the DAQ list isn't ready.
    DaqConfig,
    /// ERR_MEMORY_OVERFLOW: more is allocated than the profile has.
    MemoryOverflow,
}

impl ErrCode {
    /// The byte that stands for the error behind 0xFE in an ERR packet.
    pub fn byte(self) -> u8
        ensures { result ≡ error_byte self }
    {
        match self {
            ErrCode::CmdSynch => 0x00,
            ErrCode::CmdBusy => 0x10,
            ErrCode::DaqActive => 0x11,
            ErrCode::CmdUnknown => 0x20,
            ErrCode::CmdSyntax => 0x21,
            ErrCode::OutOfRange => 0x22,
            ErrCode::AccessDenied => 0x24,
            ErrCode::ModeNotValid => 0x27,
            ErrCode::Sequence => 0x29,
            ErrCode::DaqConfig => 0x2A,
            ErrCode::MemoryOverflow => 0x30,
        }
    }
}
