//! The replies of a slave are written in words.

use crate::event_words::write_bytes;
use captured_session::{Form, dword, word};
use explain::error_name;
use measured_values::ByteOrder;
use std::fmt::{self, Display};

/// A reply by its name (ASAM MCD-1 XCP, protocol layer, RES and ERR packets), with what it says of
/// data acquisition: as bytes, if it isn't known in which order those of a number stand.
#[derive(Clone, Copy)]
pub struct ReplyWords<'a> {
    /// How packets look.
    pub form: Form,
    /// The command that is answered.
    pub command: &'a [u8],
    pub packet: &'a [u8],
}

impl<'a> Display for ReplyWords<'a> {
    fn fmt<W: fmt::Write>(&self, f: &mut fmt::Formatter<W>) -> fmt::Result {
        match self.packet {
            [0xFF, bytes @ ..] => {
                f.write_str("RES")?;
                self.write_said(f, bytes)
            }
            [_, code, ..] => match error_name(*code) {
                Some(name) => f.write_str(name),
                None => write!(f, "ERR 0x{code:02x}"),
            },
            _ => f.write_str("ERR without a code"),
        }
    }
}

impl<'a> ReplyWords<'a> {
    /// Writes what a positive reply says, by the bytes behind its code.
    fn write_said<W: fmt::Write>(&self, f: &mut fmt::Formatter<W>, bytes: &[u8]) -> fmt::Result {
        let order = self.form.order;
        match self.command {
            [0xFF, ..] => write_connect(f, bytes),
            [0xFD, ..] => write_status(f, bytes),
            [0xDE, ..] => write_first_pid(f, bytes),
            [0xDC..=0xDF | 0xD7..=0xDB, ..] if !self.form.has_order => write_bytes(f, bytes),
            [0xDF, ..] => write_list_mode(f, order, bytes),
            [0xDC, ..] => write_clock(f, order, bytes),
            [0xDB, ..] => write_entry(f, order, bytes),
            [0xDA, ..] => write_processor(f, order, bytes),
            [0xD9, ..] => write_resolution(f, order, bytes),
            [0xD8, ..] => write_list(f, order, bytes),
            [0xD7, ..] => write_event(f, bytes),
            _ => Ok(()),
        }
    }
}

/// Says that a reply ends before all of it came.
fn write_short<W: fmt::Write>(f: &mut fmt::Formatter<W>, bytes: &[u8]) -> fmt::Result {
    f.write_str(", too short")?;
    write_bytes(f, bytes)
}

/// Writes numbers, each behind its name.
fn write_numbers<W: fmt::Write>(f: &mut fmt::Formatter<W>, numbers: &[(&str, u16)]) -> fmt::Result {
    for (name, number) in numbers {
        write!(f, ", {name} {number}")?;
    }
    Ok(())
}

/// Writes a byte in hexadecimal, behind its name.
fn write_byte<W: fmt::Write>(f: &mut fmt::Formatter<W>, what: &str, byte: u8) -> fmt::Result {
    write!(f, ", {what} 0x{byte:02x}")
}

/// Writes the name of something behind what it is.
fn write_name<W: fmt::Write>(f: &mut fmt::Formatter<W>, what: &str, name: &str) -> fmt::Result {
    write!(f, ", {what} {name}")
}

/// Writes what the reply to CONNECT says, whose numbers stand in the order that it tells.
fn write_connect<W: fmt::Write>(f: &mut fmt::Formatter<W>, bytes: &[u8]) -> fmt::Result {
    let [resources, mode, max_cto, a, b, ..] = bytes else {
        return write_short(f, bytes);
    };
    let (name, order) = if *mode % 2 == 0 {
        ("MSB_LAST", ByteOrder::MsbLast)
    } else {
        ("MSB_FIRST", ByteOrder::MsbFirst)
    };
    write_byte(f, "resources", *resources)?;
    write_name(f, "byte order", name)?;
    write_name(f, "ADDRESS_GRANULARITY", granularity_of(*mode))?;
    let max_dto = word(order, *a, *b);
    write_numbers(f, &[("MAX_CTO", *max_cto as u16), ("MAX_DTO", max_dto)])
}

/// The name of the address granularity that COMM_MODE_BASIC tells.
fn granularity_of(mode: u8) -> &'static str {
    match mode / 2 % 4 {
        0 => "BYTE",
        1 => "WORD",
        2 => "DWORD",
        _ => "unknown",
    }
}

/// Writes what the reply to GET_STATUS says.
fn write_status<W: fmt::Write>(f: &mut fmt::Formatter<W>, bytes: &[u8]) -> fmt::Result {
    let [status, ..] = bytes else {
        return write_short(f, bytes);
    };
    write_byte(f, "session status", *status)?;
    if *status / 64 % 2 == 1 {
        return f.write_str(": DAQ runs");
    }
    Ok(())
}

/// Writes what the reply to START_STOP_DAQ_LIST says.
fn write_first_pid<W: fmt::Write>(f: &mut fmt::Formatter<W>, bytes: &[u8]) -> fmt::Result {
    match bytes {
        [first_pid, ..] => write_byte(f, "FIRST_PID", *first_pid),
        [] => write_short(f, bytes),
    }
}

/// Writes what the reply to GET_DAQ_LIST_MODE says.
fn write_list_mode<W: fmt::Write>(
    f: &mut fmt::Formatter<W>,
    order: ByteOrder,
    bytes: &[u8],
) -> fmt::Result {
    let [mode, _, _, a, b, prescaler, priority, ..] = bytes else {
        return write_short(f, bytes);
    };
    write_byte(f, "mode", *mode)?;
    write_numbers(
        f,
        &[
            ("channel", word(order, *a, *b)),
            ("prescaler", *prescaler as u16),
            ("priority", *priority as u16),
        ],
    )
}

/// Writes what the reply to GET_DAQ_CLOCK says.
fn write_clock<W: fmt::Write>(
    f: &mut fmt::Formatter<W>,
    order: ByteOrder,
    bytes: &[u8],
) -> fmt::Result {
    match bytes {
        [_, _, _, a, b, c, d, ..] => write!(f, ", timestamp {}", dword(order, *a, *b, *c, *d)),
        _ => write_short(f, bytes),
    }
}

/// Writes what the reply to READ_DAQ says.
fn write_entry<W: fmt::Write>(
    f: &mut fmt::Formatter<W>,
    order: ByteOrder,
    bytes: &[u8],
) -> fmt::Result {
    let [bit, size, extension, a, b, c, d, ..] = bytes else {
        return write_short(f, bytes);
    };
    let address = dword(order, *a, *b, *c, *d);
    write_numbers(
        f,
        &[
            ("bit offset", *bit as u16),
            ("size", *size as u16),
            ("extension", *extension as u16),
        ],
    )?;
    write!(f, ", address 0x{address:04x}")
}

/// Writes what the reply to GET_DAQ_PROCESSOR_INFO says.
fn write_processor<W: fmt::Write>(
    f: &mut fmt::Formatter<W>,
    order: ByteOrder,
    bytes: &[u8],
) -> fmt::Result {
    let [properties, a, b, c, d, min_daq, key, ..] = bytes else {
        return write_short(f, bytes);
    };
    write_byte(f, "properties", *properties)?;
    write_numbers(
        f,
        &[
            ("MAX_DAQ", word(order, *a, *b)),
            ("MAX_EVENT_CHANNEL", word(order, *c, *d)),
            ("MIN_DAQ", *min_daq as u16),
        ],
    )?;
    write_name(f, "identification field", field_of(*key))?;
    write_name(f, "overload indication", overload_of(*properties))
}

/// The name of the identification field that DAQ_KEY_BYTE tells.
fn field_of(key: u8) -> &'static str {
    match key / 64 {
        0 => "ABSOLUTE",
        1 => "RELATIVE_BYTE",
        2 => "RELATIVE_WORD",
        _ => "RELATIVE_WORD_ALIGNED",
    }
}

/// The name of the overload indication that DAQ_PROPERTIES tells.
fn overload_of(properties: u8) -> &'static str {
    match properties / 64 {
        0 => "none",
        1 => "PID",
        2 => "EVENT",
        _ => "PID and EVENT",
    }
}

/// Writes what the reply to GET_DAQ_RESOLUTION_INFO says.
fn write_resolution<W: fmt::Write>(
    f: &mut fmt::Formatter<W>,
    order: ByteOrder,
    bytes: &[u8],
) -> fmt::Result {
    let [granularity, size, _, _, mode, a, b, ..] = bytes else {
        return write_short(f, bytes);
    };
    write_numbers(
        f,
        &[
            ("GRANULARITY_ODT_ENTRY_SIZE_DAQ", *granularity as u16),
            ("MAX_ODT_ENTRY_SIZE_DAQ", *size as u16),
        ],
    )?;
    write_byte(f, "TIMESTAMP_MODE", *mode)?;
    write_numbers(f, &[("TIMESTAMP_TICKS", word(order, *a, *b))])
}

/// Writes what the reply to GET_DAQ_LIST_INFO says.
fn write_list<W: fmt::Write>(
    f: &mut fmt::Formatter<W>,
    order: ByteOrder,
    bytes: &[u8],
) -> fmt::Result {
    let [properties, max_odt, max_entries, a, b, ..] = bytes else {
        return write_short(f, bytes);
    };
    write_byte(f, "properties", *properties)?;
    write_numbers(
        f,
        &[
            ("MAX_ODT", *max_odt as u16),
            ("MAX_ODT_ENTRIES", *max_entries as u16),
            ("FIXED_EVENT", word(order, *a, *b)),
        ],
    )
}

/// Writes what the reply to GET_DAQ_EVENT_INFO says.
fn write_event<W: fmt::Write>(f: &mut fmt::Formatter<W>, bytes: &[u8]) -> fmt::Result {
    let [properties, max_daq_list, _, cycle, unit, priority, ..] = bytes else {
        return write_short(f, bytes);
    };
    write_byte(f, "properties", *properties)?;
    write_numbers(
        f,
        &[
            ("MAX_DAQ_LIST", *max_daq_list as u16),
            ("cycle", *cycle as u16),
            ("unit", *unit as u16),
            ("priority", *priority as u16),
        ],
    )
}
