//! The packets of a master are written in words, by the standard's names.
use crate::command_text::{CommandText, write_name, write_numbers, write_place};
use std::fmt::{self, Display};

/// The command of a packet of a master by its name (ASAM MCD-1 XCP, protocol layer), with its
/// fields.
#[derive(Clone, Copy)]
pub struct RequestText<'a> {
    pub packet: &'a [u8],
}

impl<'a> Display for RequestText<'a> {
    fn fmt<W: fmt::Write>(&self, f: &mut fmt::Formatter<W>) -> fmt::Result {
        match self.packet {
            [0xFF, mode, ..] => write_number(f, self.packet, "mode", *mode as u16),
            [0xFA, kind, ..] => write_number(f, self.packet, "kind", *kind as u16),
            [0xF5, count, ..] => write_number(f, self.packet, "count", *count as u16),
            [0xFB..=0xFE | 0xD9..=0xDC, ..] => write_name(f, self.packet),
            [0xF4 | 0xF6, ..] => write_of_place(f, self.packet),
            [0xC7, count, entries @ ..] => write_multiple(f, *count, entries.len()),
            _ => write_of_list(f, self.packet),
        }
    }
}

/// Writes the name of a command, and a number in it.
fn write_number<W: fmt::Write>(
    f: &mut fmt::Formatter<W>,
    packet: &[u8],
    what: &str,
    number: u16,
) -> fmt::Result {
    write_name(f, packet)?;
    write_numbers(f, &[(what, number)])
}

/// Writes SET_MTA or SHORT_UPLOAD, which name an address.
fn write_of_place<W: fmt::Write>(f: &mut fmt::Formatter<W>, packet: &[u8]) -> fmt::Result {
    let [code, count, _, extension, a, b, c, d, ..] = packet else {
        return f.write_str("too short for its command");
    };
    if *code == 0xF6 {
        write_name(f, packet)?;
    } else {
        write_number(f, packet, "count", *count as u16)?;
        f.write_str(",")?;
    }
    write_place(f, *extension, u32::from_le_bytes([*a, *b, *c, *d]))
}

/// The most entries of WRITE_DAQ_MULTIPLE that find room in a packet of 64 bytes. How many a slave
/// takes goes by its MAX_CTO, which a packet doesn't tell: of more than these the number is shown.
const MOST_ENTRIES: u8 = 7;

/// Writes WRITE_DAQ_MULTIPLE of so many entries, for which there are so many bytes.
fn write_multiple<W: fmt::Write>(
    f: &mut fmt::Formatter<W>,
    count: u8,
    bytes: usize,
) -> fmt::Result {
    if count <= MOST_ENTRIES && bytes < 8 * count as usize {
        return f.write_str("too short for its command");
    }
    write_number(f, &[0xC7], "count", count as u16)
}

/// Writes a command that names a DAQ list or an event channel, or another one.
fn write_of_list<W: fmt::Write>(f: &mut fmt::Formatter<W>, packet: &[u8]) -> fmt::Result {
    match packet {
        [0xE3 | 0xDF | 0xD8, _, a, b, ..] => write_number(f, packet, "list", word(*a, *b)),
        [0xD7, _, a, b, ..] => write_number(f, packet, "channel", word(*a, *b)),
        [0xFF | 0xFA | 0xF5 | 0xE3 | 0xDF | 0xD8 | 0xD7 | 0xC7, ..] => {
            f.write_str("too short for its command")
        }
        _ => write!(f, "{}", CommandText { packet }),
    }
}

/// The WORD that stands in two bytes.
fn word(low: u8, high: u8) -> u16 {
    u16::from_le_bytes([low, high])
}
