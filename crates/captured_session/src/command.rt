//! The commands of a master that tell of DAQ lists.
ghost use Rattle.std.specs.Prelude.{◌≡◌};
ghost use Rattle.captured_session.specs.Commands.{command_of, dword, word};

use crate::element::Element;
use crate::list_mode::ListMode;
use measured_values::ByteOrder;

/// A command of a master, as far as it tells of DAQ lists (ASAM MCD-1 XCP, protocol layer).
#[derive(Clone, Copy, Debug, PartialEq, Eq)]
pub enum Command {
    /// CONNECT.
    Connect,
    /// GET_DAQ_PROCESSOR_INFO.
    ProcessorInfo,
    /// GET_DAQ_RESOLUTION_INFO.
    ResolutionInfo,
    /// FREE_DAQ.
    FreeDaq,
    /// ALLOC_DAQ.
    AllocDaq,
    /// ALLOC_ODT.
    AllocOdt { list: u16, count: u8 },
    /// ALLOC_ODT_ENTRY.
    AllocOdtEntry { list: u16, odt: u8, count: u8 },
    /// SET_DAQ_PTR.
    SetDaqPtr { list: u16, odt: u8, entry: u8 },
    /// WRITE_DAQ.
    WriteDaq { element: Element },
    /// WRITE_DAQ_MULTIPLE: so many entries, which stand in the packet.
    WriteDaqMultiple { count: u8 },
    /// SET_DAQ_LIST_MODE.
    SetDaqListMode { list: u16, mode: ListMode },
    /// CLEAR_DAQ_LIST.
    ClearDaqList { list: u16 },
    /// START_STOP_DAQ_LIST.
    StartStopDaqList { list: u16 },
    /// One that is missing in the capture: it may be any.
    Missing,
    /// Another one, or none.
    Other,
}

/// The command of a packet, whose numbers stand in this byte order. One that is missing in the
/// capture has no bytes.
pub fn command_in(order: ByteOrder, packet: &[u8]) -> Command
    ensures { result ≡ command_of order packet.now }
{
    match packet {
        [] => Command::Missing,
        [0xFF, ..] => Command::Connect,
        [0xDA, ..] => Command::ProcessorInfo,
        [0xD9, ..] => Command::ResolutionInfo,
        [0xD6, ..] => Command::FreeDaq,
        [0xD5, ..] => Command::AllocDaq,
        [0xD4, _, a, b, count, ..] => Command::AllocOdt {
            list: word(order, *a, *b),
            count: *count,
        },
        [0xD3, _, a, b, odt, count, ..] => Command::AllocOdtEntry {
            list: word(order, *a, *b),
            odt: *odt,
            count: *count,
        },
        [0xE2, _, a, b, odt, entry, ..] => Command::SetDaqPtr {
            list: word(order, *a, *b),
            odt: *odt,
            entry: *entry,
        },
        [0xE1, bit, size, extension, a, b, c, d, ..] => Command::WriteDaq {
            element: Element {
                bit: *bit,
                size: *size,
                extension: *extension,
                address: dword(order, *a, *b, *c, *d),
            },
        },
        [0xC7, count, ..] => Command::WriteDaqMultiple { count: *count },
        [0xE0, bits, a, b, c, d, prescaler, ..] => Command::SetDaqListMode {
            list: word(order, *a, *b),
            mode: ListMode {
                bits: *bits,
                channel: word(order, *c, *d),
                prescaler: *prescaler,
            },
        },
        [0xE3, _, a, b, ..] => Command::ClearDaqList {
            list: word(order, *a, *b),
        },
        [0xDE, _, a, b, ..] => Command::StartStopDaqList {
            list: word(order, *a, *b),
        },
        _ => Command::Other,
    }
}

/// The WORD in two bytes.
pub fn word(order: ByteOrder, a: u8, b: u8) -> u16
    ensures { result ≡ word order a b }
{
    match order {
        ByteOrder::MsbLast => u16::from_le_bytes([a, b]),
        ByteOrder::MsbFirst => u16::from_le_bytes([b, a]),
    }
}

/// The DWORD in four bytes.
pub fn dword(order: ByteOrder, a: u8, b: u8, c: u8, d: u8) -> u32
    ensures { result ≡ dword order a b c d }
{
    match order {
        ByteOrder::MsbLast => u32::from_le_bytes([a, b, c, d]),
        ByteOrder::MsbFirst => u32::from_le_bytes([d, c, b, a]),
    }
}
