//! The commands of a session, and how they are read from packets.
ghost use Rattle.std.specs.Prelude.{◌≡◌, ◌∷◌};
ghost use Rattle.daq_store.specs.Commands.{dword, word};
ghost use Rattle.session.specs.Requests.{is_bad_entry_count, request, set_mta, short_upload};
ghost use Rattle.session.specs.Requests.{with_entries};

use daq_store::command::{self, Command};
use xcp_base::ErrCode;

/// A command with its fields, in the order of its packet and without the reserved bytes.
#[derive(Clone, Copy, Debug, PartialEq, Eq)]
pub enum Request {
    /// CONNECT.
    Connect {
        mode: u8,
    },
    /// DISCONNECT.
    Disconnect,
    /// GET_STATUS.
    GetStatus,
    /// SYNCH.
    Synch,
    /// GET_COMM_MODE_INFO.
    GetCommModeInfo,
    /// GET_ID.
    GetId {
        kind: u8,
    },
    /// SET_MTA.
    SetMta {
        extension: u8,
        address: u32,
    },
    /// UPLOAD.
    Upload {
        count: u8,
    },
    /// SHORT_UPLOAD.
    ShortUpload {
        count: u8,
        extension: u8,
        address: u32,
    },
    /// GET_DAQ_LIST_MODE.
    GetDaqListMode {
        list: u16,
    },
    /// GET_DAQ_CLOCK.
    GetDaqClock,
    /// GET_DAQ_PROCESSOR_INFO.
    GetDaqProcessorInfo,
    /// GET_DAQ_RESOLUTION_INFO.
    GetDaqResolutionInfo,
    /// GET_DAQ_LIST_INFO.
    GetDaqListInfo {
        list: u16,
    },
    /// GET_DAQ_EVENT_INFO.
    GetDaqEventInfo {
        channel: u16,
    },
    /// WRITE_DAQ_MULTIPLE: so many entries, which stand in the packet.
    WriteDaqMultiple {
        count: u8,
    },
    /// One of the commands that set DAQ lists.
    Lists(Command),
}

/// Reads the request of a packet, of any bytes, to a slave of this MAX_CTO. A longer packet is
/// accepted and its surplus ignored; a reserved byte may have any value.
///
/// Refused in this order: ERR_CMD_SYNTAX for an empty packet, ERR_CMD_UNKNOWN for the code of
/// no command, ERR_CMD_SYNTAX for a packet that is too short for its command.
pub fn read(packet: &[u8], max_cto: u8) -> Result<Request, ErrCode>
    ensures { result ≡ request max_cto packet.now }
{
    match packet {
        [0xFF, mode, ..] => Ok(Request::Connect { mode: *mode }),
        [0xFE, ..] => Ok(Request::Disconnect),
        [0xFD, ..] => Ok(Request::GetStatus),
        [0xFC, ..] => Ok(Request::Synch),
        [0xFB, ..] => Ok(Request::GetCommModeInfo),
        [0xFA, kind, ..] => Ok(Request::GetId { kind: *kind }),
        [0xF6, fields @ ..] => set_mta(fields),
        [0xF5, count, ..] => Ok(Request::Upload { count: *count }),
        [0xF4, fields @ ..] => short_upload(fields),
        [0xE3, _, a, b, ..] => Ok(Request::Lists(Command::ClearDaqList { list: word(a, b) })),
        [0xDF, _, a, b, ..] => Ok(Request::GetDaqListMode { list: word(a, b) }),
        [0xDC, ..] => Ok(Request::GetDaqClock),
        [0xDB, ..] => Ok(Request::Lists(Command::ReadDaq)),
        [0xDA, ..] => Ok(Request::GetDaqProcessorInfo),
        [0xD9, ..] => Ok(Request::GetDaqResolutionInfo),
        [0xD8, _, a, b, ..] => Ok(Request::GetDaqListInfo { list: word(a, b) }),
        [0xD7, _, a, b, ..] => Ok(Request::GetDaqEventInfo {
            channel: word(a, b),
        }),
        [0xC7, count, entries @ ..] => multiple(*count, entries, max_cto),
        [] | [0xFF | 0xFA | 0xF5 | 0xE3 | 0xDF | 0xD7..=0xD8 | 0xC7, ..] => Err(ErrCode::CmdSyntax),
        _ => Ok(Request::Lists(command::read(packet)?)),
    }
}

/// The WORD that stands in two bytes.
fn word(low: &u8, high: &u8) -> u16
    ensures { result ≡ word low.now high.now }
{
    u16::from_le_bytes([*low, *high])
}

/// SET_MTA: address extension and address, behind reserved bytes.
fn set_mta(fields: &[u8]) -> Result<Request, ErrCode>
    ensures { result ≡ set_mta fields.now }
{
    match fields {
        [_, _, extension, a, b, c, d, ..] => Ok(Request::SetMta {
            extension: *extension,
            address: dword(a, b, c, d),
        }),
        _ => Err(ErrCode::CmdSyntax),
    }
}

/// SHORT_UPLOAD: the number of bytes, and behind a reserved byte address extension and address.
fn short_upload(fields: &[u8]) -> Result<Request, ErrCode>
    ensures { result ≡ short_upload fields.now }
{
    match fields {
        [count, _, extension, a, b, c, d, ..] => Ok(Request::ShortUpload {
            count: *count,
            extension: *extension,
            address: dword(a, b, c, d),
        }),
        _ => Err(ErrCode::CmdSyntax),
    }
}

/// The DWORD that stands in four bytes.
fn dword(a: &u8, b: &u8, c: &u8, d: &u8) -> u32
    ensures { result ≡ dword a.now b.now c.now d.now }
{
    u32::from_le_bytes([*a, *b, *c, *d])
}

/// WRITE_DAQ_MULTIPLE of so many entries, and the bytes of them.
fn multiple(count: u8, entries: &[u8], max_cto: u8) -> Result<Request, ErrCode>
    ensures { result ≡ with_entries max_cto (count ∷ entries.now) }
{
    if is_bad_entry_count(count, max_cto) {
        return Err(ErrCode::OutOfRange);
    }
    if entries.len() < 8 * count as usize {
        return Err(ErrCode::CmdSyntax);
    }
    Ok(Request::WriteDaqMultiple { count })
}

/// Whether WRITE_DAQ_MULTIPLE has no entry, or more than a packet has.
fn is_bad_entry_count(count: u8, max_cto: u8) -> bool
    ensures { result ≡ is_bad_entry_count max_cto count }
{
    count == 0 || 2 + 8 * count as usize > max_cto as usize
}
