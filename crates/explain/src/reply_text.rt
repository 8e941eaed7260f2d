//! Reply packets are written in words, by the standard's names.
ghost use Rattle.std.specs.Prelude.{◌≡◌, ◌∷◌, [], IfSome};
ghost use Rattle.xcp_base.specs.ErrorCodes.{error_byte};
ghost use Rattle.daq_store.specs.Replies.{reply_bytes};

use crate::names::error_name;
use daq_store::Reply;
use std::fmt::{self, Display};
use xcp_base::ErrCode;

/// The reply that a packet is, by its name (ASAM MCD-1 XCP, protocol layer, RES and ERR packets).
#[derive(Clone, Copy)]
pub struct ReplyText<'a> {
    pub packet: &'a [u8],
}

impl<'a> Display for ReplyText<'a> {
    fn fmt<W: fmt::Write>(&self, f: &mut fmt::Formatter<W>) -> fmt::Result {
        match reply_of(self.packet) {
            Some(Reply::Positive) => f.write_str("RES"),
            Some(Reply::Started { first_pid }) => write!(f, "RES, FIRST_PID 0x{first_pid:02x}"),
            Some(Reply::Read { size, addr, .. }) => write_read(f, size, addr),
            Some(Reply::Error(code)) => f.write_str(name_of(code)),
            None => f.write_str("no reply"),
        }
    }
}

/// Writes the reply to READ_DAQ.
fn write_read<W: fmt::Write>(f: &mut fmt::Formatter<W>, size: u8, address: u32) -> fmt::Result {
    write!(f, "RES, size {size}, address 0x{address:04x}")
}

/// The reply that has this packet.
fn reply_of(packet: &[u8]) -> Option<Reply>
    ensures { IfSome result (λ reply. reply_bytes reply ≡ packet.now) }
{
    match packet {
        [0xFF] => Some(Reply::Positive),
        [0xFF, first_pid] => Some(Reply::Started {
            first_pid: *first_pid,
        }),
        [0xFE, byte] => error_of(*byte),
        _ => None,
    }
}

/// The reply of the error that a byte stands for.
fn error_of(byte: u8) -> Option<Reply>
    ensures { IfSome result (λ reply. reply_bytes reply ≡ 254 ∷ byte ∷ []) }
{
    Some(Reply::Error(code_of(byte)?))
}

/// The error that a byte stands for.
fn code_of(byte: u8) -> Option<ErrCode>
    ensures { IfSome result (λ code. error_byte code ≡ byte) }
{
    match byte {
        0x00 => Some(ErrCode::CmdSynch),
        0x10 => Some(ErrCode::CmdBusy),
        0x11 => Some(ErrCode::DaqActive),
        0x20 => Some(ErrCode::CmdUnknown),
        0x21 => Some(ErrCode::CmdSyntax),
        0x22 => Some(ErrCode::OutOfRange),
        0x24 => Some(ErrCode::AccessDenied),
        0x27 => Some(ErrCode::ModeNotValid),
        0x29 => Some(ErrCode::Sequence),
        0x2A => Some(ErrCode::DaqConfig),
        0x30 => Some(ErrCode::MemoryOverflow),
        _ => None,
    }
}

/// The standard's name of an error.
fn name_of(code: ErrCode) -> &'static str {
    error_name(code.byte()).unwrap_or("no reply")
}
