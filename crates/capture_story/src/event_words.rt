//! Events and services of a slave are written in words.

use explain::{ByteText, event_name, service_name};
use std::fmt::{self, Display};

/// An EV or a SERV packet by its name (ASAM MCD-1 XCP, protocol layer), with the bytes behind its
/// code.
#[derive(Clone, Copy)]
pub struct EventWords<'a> {
    pub packet: &'a [u8],
}

impl<'a> Display for EventWords<'a> {
    fn fmt<W: fmt::Write>(&self, f: &mut fmt::Formatter<W>) -> fmt::Result {
        match self.packet {
            [0xFD, code, bytes @ ..] => write_named(f, "EV", *code, event_name(*code), bytes),
            [0xFC, code, bytes @ ..] => write_named(f, "SERV", *code, service_name(*code), bytes),
            [0xFD] => f.write_str("EV without a code"),
            _ => f.write_str("SERV without a code"),
        }
    }
}

/// Writes the name of a packet, or its kind and its code, and the bytes behind it.
fn write_named<W: fmt::Write>(
    f: &mut fmt::Formatter<W>,
    kind: &str,
    code: u8,
    name: Option<&str>,
    bytes: &[u8],
) -> fmt::Result {
    match name {
        Some(name) => f.write_str(name)?,
        None => write!(f, "{kind} 0x{code:02x}")?,
    }
    write_bytes(f, bytes)
}

/// Writes bytes, if there are any.
pub fn write_bytes<W: fmt::Write>(f: &mut fmt::Formatter<W>, bytes: &[u8]) -> fmt::Result {
    if bytes.is_empty() {
        return Ok(());
    }
    let bytes = ByteText { bytes };
    write!(f, ", bytes {bytes}")
}
