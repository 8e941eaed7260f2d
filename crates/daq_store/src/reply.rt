//! The replies to the commands that set DAQ lists, and their packets.
ghost use Rattle.std.specs.Prelude.{◌≡◌, ◌≤◌, length};
ghost use Rattle.daq_store.specs.Answer.{read_reply};
ghost use Rattle.daq_store.specs.Replies.{ShowsNoEntry, reply_bytes};

use crate::entry::Entry;
use arrayvec::ArrayVec;
use xcp_base::ErrCode;

/// The reply to a command.
#[derive(Clone, Copy, Debug, PartialEq, Eq)]
pub enum Reply {
    /// RES, with nothing more.
    Positive,
    /// RES to START_STOP_DAQ_LIST, with FIRST_PID of the DAQ list.
    Started { first_pid: u8 },
    /// RES to READ_DAQ, with the size in bytes, the address extension and the address of the entry;
    /// all are 0 if it is unwritten.
    Read { size: u8, ext: u8, addr: u32 },
    /// ERR.
    Error(ErrCode),
}

impl Reply {
    /// The reply to READ_DAQ at a written entry, or at an unwritten one.
    pub(crate) fn of_entry(entry: Option<Entry>) -> Reply
        ensures { result ≡ read_reply entry }
    {
        match entry {
            Some(entry) => Reply::Read {
                size: entry.size,
                ext: entry.extension,
                addr: entry.address,
            },
            None => Reply::Read {
                size: 0,
                ext: 0,
                addr: 0,
            },
        }
    }

    /// The packet: FF for RES, and behind it FIRST_PID, or bit offset, size, address extension and
    /// address of an entry, if it has them; FE and the byte of the error for ERR.
    pub fn bytes(self) -> ArrayVec<u8, 8>
        ensures bytes { result.items ≡ reply_bytes self }
        ensures short { (1 ≤ length result.items) × (length result.items ≤ 8) }
        ensures shorter { ShowsNoEntry self → length result.items ≤ 2 }
    {
        let mut bytes = ArrayVec::new();
        match self {
            Reply::Positive => bytes.push(0xFF),
            Reply::Started { first_pid } => {
                bytes.push(0xFF);
                bytes.push(first_pid);
            }
            Reply::Read { size, ext, addr } => {
                let [a, b, c, d] = addr.to_le_bytes();
                let _ = bytes.try_extend_from_slice(&[0xFF, 0xFF, size, ext, a, b, c, d]);
            }
            Reply::Error(code) => {
                bytes.push(0xFE);
                bytes.push(code.byte());
            }
        }
        bytes
    }
}
