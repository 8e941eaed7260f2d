//! Why a recording breaks off.
use crate::byte_text::ByteText;
use crate::stop::{Stop, front_of, write_stop};
use daq_reader::{FrameFault, ListReader, ListShape, ReadFault, Reader};
use std::alloc::{AllocError, Global};
use xcp_base::limits::{MAX_DTO, MAX_LISTS};

/// The bytes in front of a packet in its frame: LEN and CTR.
const HEADER: usize = 4;

/// What stands in the place of a frame: its header, and its packet as far as it is there.
#[derive(Clone, Copy)]
struct Found<'a> {
    len: u16,
    counter: u16,
    packet: &'a [u8],
}

/// Which DAQ lists are told.
#[derive(Clone, Copy)]
enum Told<'a> {
    /// Each list.
    All,
    /// Those that the identification field of a packet names.
    NamedBy(&'a [u8]),
    /// Those whose packets wait for others of their sample.
    Waiting,
}

/// Why a recording, of which the frames before a place were read, breaks off there: what stands
/// there, and what was expected. Either the next frame has a fault, or the recording ends within a
/// sample.
pub fn why_broken(
    alloc: Global,
    stop: Stop<'_>,
    reader: &Reader,
    fault: Option<ReadFault>,
) -> Result<String, AllocError> {
    let mut why = String::new(alloc);
    write_found(&mut why, stop)?;
    write_expected(&mut why, stop, reader, fault)?;
    Ok(why)
}

/// Writes what was expected at a place, where the next frame has this fault, or none is left.
fn write_expected(
    why: &mut String,
    stop: Stop<'_>,
    reader: &Reader,
    fault: Option<ReadFault>,
) -> Result<(), AllocError> {
    let counter = stop.frame % 65_536;
    match fault {
        Some(ReadFault::Frame(FrameFault::Torn)) => writeln!(
            why,
            "expected: a whole frame: LEN of 1 or more, CTR {counter}, and a packet of LEN bytes"
        ),
        Some(ReadFault::Frame(FrameFault::Jump)) => writeln!(why, "expected: CTR {counter}"),
        Some(ReadFault::Packet(_)) => write_lists(why, reader, told_by(reader, stop.rest)),
        None => write_lists(why, reader, Told::Waiting),
    }
}

/// Writes a place, and what stands there in the place of a frame.
fn write_found(why: &mut String, stop: Stop<'_>) -> Result<(), AllocError> {
    let Some(found) = found_in(stop.rest) else {
        write_stop(why, stop, HEADER)?;
        return why.push_str("\n");
    };
    let Found {
        len,
        counter,
        packet,
    } = found;
    write_stop(why, stop, HEADER + packet.len().min(MAX_DTO))?;
    if packet.len() > MAX_DTO {
        why.push_str("..")?;
    }
    let count = packet.len();
    writeln!(why, " (LEN {len}, CTR {counter}, packet bytes {count})")
}

/// What bytes that begin with a header have in the place of a frame.
fn found_in(bytes: &[u8]) -> Option<Found<'_>> {
    let (header, body) = bytes.split_first_chunk::<4>()?;
    let len = u16::from_le_bytes([header[0], header[1]]);
    let counter = u16::from_le_bytes([header[2], header[3]]);
    Some(Found {
        len,
        counter,
        packet: front_of(body, len as usize),
    })
}

/// The lists that a frame's packet is of; each list if it is of none.
fn told_by<'a>(reader: &Reader, frame: &'a [u8]) -> Told<'a> {
    let Some(found) = found_in(frame) else {
        return Told::All;
    };
    for place in 0..MAX_LISTS as usize {
        let Some(list) = reader.list(place) else {
            return Told::All;
        };
        if list.names(found.packet) {
            return Told::NamedBy(found.packet);
        }
    }
    Told::All
}

/// Writes which packet each list that is told expects next.
fn write_lists(why: &mut String, reader: &Reader, told: Told<'_>) -> Result<(), AllocError> {
    let mut lead = "expected";
    for place in 0..MAX_LISTS as usize {
        let Some(list) = reader.list(place) else {
            break;
        };
        if is_told(list, told) {
            write_list(why, lead, list)?;
            lead = "or";
        }
    }
    if lead == "expected" {
        return why.push_str("expected: no packet, since no DAQ list is ready\n");
    }
    Ok(())
}

/// Whether a list is told.
fn is_told(list: &ListReader, told: Told<'_>) -> bool {
    match told {
        Told::All => true,
        Told::NamedBy(packet) => list.names(packet),
        Told::Waiting => list.waits(),
    }
}

/// Writes which packet a list expects next.
fn write_list(why: &mut String, lead: &str, list: &ListReader) -> Result<(), AllocError> {
    let shape = list.shape();
    let k = list.next_odt();
    let number = shape.list();
    let len = shape.packet_len(k);
    write!(
        why,
        "{lead}: list {number}, ODT {k}, {len} bytes that begin with "
    )?;
    write_field(why, shape, shape.pid(k))?;
    if k == 0 {
        why.push_str(", or with ")?;
        write_field(why, shape, shape.pid(k) | 0x80)?;
        why.push_str(" if samples were dropped")?;
    }
    why.push_str("\n")
}

/// Writes the identification field of the packets of a list that have this PID.
fn write_field(why: &mut String, shape: &ListShape, pid: u8) -> Result<(), AllocError> {
    let id = shape.form().id;
    let field = id.field(pid, shape.list());
    let bytes = ByteText {
        bytes: &field[..id.field_len()],
    };
    write!(why, "{bytes}")
}
