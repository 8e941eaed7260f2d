//! The three identification fields: their lengths, their bytes, and the PIDs that each allows.
ghost use Rattle.std.specs.Prelude.{◌≡◌, ◌∷◌, ◌*◌, ◌≤◌, take};
ghost use Rattle.xcp_base.specs.Forms.{field_len, first_pid_behind, list_field, most_odts};

use crate::limits::{MAX_FIELD, MAX_LISTS, MAX_ODTS_IN_ALL};

/// What the packets of a DAQ list begin with (ASAM MCD-1 XCP, protocol layer, identification
/// field).
#[derive(Clone, Copy, Debug, PartialEq, Eq)]
pub enum IdKind {
    /// The absolute ODT number alone: a PID that no other ODT of any DAQ list has.
    Absolute,
    /// The relative ODT number, and the number of the DAQ list as a BYTE.
    RelativeByte,
    /// The relative ODT number, and the number of the DAQ list as a WORD.
    RelativeWord,
}

impl IdKind {
    /// The length of the field, in bytes.
    #[inline]
    pub fn field_len(self) -> usize
        ensures value { result ≡ field_len self }
        ensures limit { result ≤ MAX_FIELD }
    {
        match self {
            IdKind::Absolute => 1,
            IdKind::RelativeByte => 2,
            IdKind::RelativeWord => 3,
        }
    }

    /// FIRST_PID of a DAQ list, by the number of the ODTs of the lists before it: this number, or 0
    /// with a relative ODT number.
    pub fn first_pid(self, before: usize) -> usize
        ensures value { result ≡ first_pid_behind self before }
        ensures limit { result ≤ before }
    {
        match self {
            IdKind::Absolute => before,
            IdKind::RelativeByte | IdKind::RelativeWord => 0,
        }
    }

    /// The most ODTs of all DAQ lists: with an absolute ODT number so many that each PID stays at
    /// or below 0x7B, with a relative one as many as the lists may have.
    pub fn most_odts(self) -> usize
        ensures value { result ≡ most_odts self }
        ensures limit { result ≤ MAX_LISTS * MAX_ODTS_IN_ALL }
    {
        match self {
            IdKind::Absolute => MAX_ODTS_IN_ALL,
            IdKind::RelativeByte | IdKind::RelativeWord => MAX_LISTS as usize * MAX_ODTS_IN_ALL,
        }
    }

    /// The field with this PID, in a packet of this DAQ list: its first `field_len` bytes. They are
    /// stored as one number: where each is stored alone, a read of several at once has to wait.
    #[inline]
    pub fn field(self, pid: u8, list: u8) -> [u8; 4]
        ensures { take (field_len self) result ≡ pid ∷ list_field self list }
    {
        u32::from_le_bytes([pid, list, 0, 0]).to_le_bytes()
    }
}
