//! The commands of a master are written in words.

use crate::event_words::write_bytes;
use crate::intel_order::IntelOrder;
use captured_session::{Form, dword};
use explain::{RequestText, command_name};
use measured_values::ByteOrder;
use std::fmt::{self, Display};

/// A command by its name (ASAM MCD-1 XCP, protocol layer), with its parameters: as bytes, if it
/// isn't known in which order those of a number stand.
#[derive(Clone, Copy)]
pub struct CommandWords<'a> {
    /// How packets look.
    pub form: Form,
    pub packet: &'a [u8],
}

impl<'a> Display for CommandWords<'a> {
    fn fmt<W: fmt::Write>(&self, f: &mut fmt::Formatter<W>) -> fmt::Result {
        match self.packet {
            [0xF4 | 0xF6 | 0xC7..=0xE3, ..] if !self.form.has_order => write_raw(f, self.packet),
            [code, bytes @ ..] if self.packet.len() < least_len(*code, bytes) => {
                write_name(f, self.packet)?;
                f.write_str(", too short")?;
                write_bytes(f, bytes)
            }
            _ => write_whole(f, self.form.order, self.packet),
        }
    }
}

/// Writes a command of which no byte is missing, and whose numbers stand in this order.
fn write_whole<W: fmt::Write>(
    f: &mut fmt::Formatter<W>,
    order: ByteOrder,
    packet: &[u8],
) -> fmt::Result {
    match packet {
        [0xC7, _, entries @ ..] => write_multiple(f, order, packet, entries),
        [0xF5 | 0xFA..=0xFF | 0xD3..=0xE3, ..] => {
            let packet = IntelOrder::of(order, packet);
            write_request(f, packet.bytes())
        }
        [0xF4 | 0xF6, ..] => write_of_place(f, order, packet),
        _ => write_raw(f, packet),
    }
}

/// How many bytes a command has at least, by its code and the bytes behind it.
fn least_len(code: u8, bytes: &[u8]) -> usize {
    match code {
        0xF4 | 0xF6 | 0xE0 | 0xE1 => 8,
        0xD3 | 0xE2 => 6,
        0xD4 => 5,
        0xD5 | 0xD7 | 0xD8 | 0xDE | 0xDF | 0xE3 => 4,
        0xC7 => 2 + 8 * bytes.first().copied().unwrap_or(0) as usize,
        0xF5 | 0xFA | 0xFF | 0xDD => 2,
        _ => 1,
    }
}

/// Writes the name of a command, or its code.
fn write_name<W: fmt::Write>(f: &mut fmt::Formatter<W>, packet: &[u8]) -> fmt::Result {
    let Some(code) = packet.first() else {
        return Ok(());
    };
    match command_name(*code) {
        Some(name) => f.write_str(name),
        None => write!(f, "command 0x{code:02x}"),
    }
}

/// Writes the name of a command, and the bytes behind its code.
fn write_raw<W: fmt::Write>(f: &mut fmt::Formatter<W>, packet: &[u8]) -> fmt::Result {
    let [_, bytes @ ..] = packet else {
        return f.write_str("an empty command");
    };
    write_name(f, packet)?;
    write_bytes(f, bytes)
}

/// Writes a command whose numbers stand in the order of Intel.
fn write_request<W: fmt::Write>(f: &mut fmt::Formatter<W>, packet: &[u8]) -> fmt::Result {
    write!(f, "{}", RequestText { packet })
}

/// Writes SET_MTA or SHORT_UPLOAD, which name an address.
fn write_of_place<W: fmt::Write>(
    f: &mut fmt::Formatter<W>,
    order: ByteOrder,
    packet: &[u8],
) -> fmt::Result {
    let [code, count, _, extension, a, b, c, d, ..] = packet else {
        return write_raw(f, packet);
    };
    write_name(f, packet)?;
    if *code == 0xF4 {
        write!(f, " count {count},")?;
    }
    write_place(f, *extension, dword(order, *a, *b, *c, *d))
}

/// Writes an address.
fn write_place<W: fmt::Write>(
    f: &mut fmt::Formatter<W>,
    extension: u8,
    address: u32,
) -> fmt::Result {
    write!(f, " extension {extension}, address 0x{address:04x}")
}

/// Writes WRITE_DAQ_MULTIPLE, with these entries of eight bytes each.
fn write_multiple<W: fmt::Write>(
    f: &mut fmt::Formatter<W>,
    order: ByteOrder,
    packet: &[u8],
    entries: &[u8],
) -> fmt::Result {
    write_request(f, packet)?;
    for entry in entries.chunks_exact(8) {
        write_entry(f, order, entry)?;
    }
    Ok(())
}

/// Writes an entry of WRITE_DAQ_MULTIPLE.
fn write_entry<W: fmt::Write>(
    f: &mut fmt::Formatter<W>,
    order: ByteOrder,
    entry: &[u8],
) -> fmt::Result {
    let [bit, size, a, b, c, d, extension, _] = entry else {
        return Ok(());
    };
    write!(f, "; bit offset {bit}, size {size},")?;
    write_place(f, *extension, dword(order, *a, *b, *c, *d))
}
