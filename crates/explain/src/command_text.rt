//! Command packets are written in words, by the standard's names.
use crate::names::command_name;
use daq_store::command::{self, Command};
use std::fmt::{self, Display};
use xcp_base::ErrCode;

/// The command of a packet by its name (ASAM MCD-1 XCP, protocol layer, data acquisition commands),
/// with its fields.
#[derive(Clone, Copy)]
pub struct CommandText<'a> {
    pub packet: &'a [u8],
}

impl<'a> Display for CommandText<'a> {
    fn fmt<W: fmt::Write>(&self, f: &mut fmt::Formatter<W>) -> fmt::Result {
        match command::read(self.packet) {
            Ok(command) => {
                write_name(f, self.packet)?;
                write_fields(f, command)
            }
            Err(ErrCode::CmdUnknown) => f.write_str("no command that is offered"),
            Err(_) => f.write_str("too short for its command"),
        }
    }
}

/// Writes the name of the command that a packet begins with.
pub fn write_name<W: fmt::Write>(f: &mut fmt::Formatter<W>, packet: &[u8]) -> fmt::Result {
    match packet.first().and_then(|code| command_name(*code)) {
        Some(name) => f.write_str(name),
        None => f.write_str("no command that is offered"),
    }
}

/// Writes the fields of a command.
fn write_fields<W: fmt::Write>(f: &mut fmt::Formatter<W>, command: Command) -> fmt::Result {
    match command {
        Command::FreeDaq | Command::ReadDaq => Ok(()),
        Command::AllocDaq { count } => write_numbers(f, &[("count", count)]),
        Command::AllocOdt { list, count } => {
            write_numbers(f, &[("list", list), ("count", count as u16)])
        }
        Command::AllocOdtEntry { list, odt, count } => write_odt(f, list, odt, "count", count),
        Command::SetDaqPtr { list, odt, entry } => write_odt(f, list, odt, "entry", entry),
        Command::WriteDaq {
            bit,
            size,
            ext,
            addr,
        } => write_entry(f, bit, size, ext, addr),
        Command::SetDaqListMode {
            mode,
            list,
            channel,
            prescaler,
            priority,
        } => write_list_mode(f, mode, [list, channel, prescaler as u16, priority as u16]),
        Command::StartStopDaqList { mode, list } => {
            write_numbers(f, &[("mode", mode as u16), ("list", list)])
        }
        Command::StartStopSynch { mode } => write_numbers(f, &[("mode", mode as u16)]),
        Command::ClearDaqList { list } => write_numbers(f, &[("list", list)]),
    }
}

/// Writes which ODT a command is for, and one number more.
fn write_odt<W: fmt::Write>(
    f: &mut fmt::Formatter<W>,
    list: u16,
    odt: u8,
    what: &str,
    number: u8,
) -> fmt::Result {
    write_numbers(
        f,
        &[("list", list), ("ODT", odt as u16), (what, number as u16)],
    )
}

/// Writes the fields of WRITE_DAQ.
fn write_entry<W: fmt::Write>(
    f: &mut fmt::Formatter<W>,
    bit: u8,
    size: u8,
    extension: u8,
    address: u32,
) -> fmt::Result {
    write_numbers(f, &[("bit offset", bit as u16), ("size", size as u16)])?;
    f.write_str(",")?;
    write_place(f, extension, address)
}

/// Writes the fields of SET_DAQ_LIST_MODE.
fn write_list_mode<W: fmt::Write>(
    f: &mut fmt::Formatter<W>,
    mode: u8,
    [list, channel, prescaler, priority]: [u16; 4],
) -> fmt::Result {
    write!(f, " mode 0x{mode:02x},")?;
    write_numbers(
        f,
        &[
            ("list", list),
            ("channel", channel),
            ("prescaler", prescaler),
            ("priority", priority),
        ],
    )
}

/// Writes numbers, each behind its name.
pub fn write_numbers<W: fmt::Write>(
    f: &mut fmt::Formatter<W>,
    numbers: &[(&str, u16)],
) -> fmt::Result {
    let mut lead = "";
    for (name, number) in numbers {
        write!(f, "{lead} {name} {number}")?;
        lead = ",";
    }
    Ok(())
}

/// Writes an address extension and an address.
pub fn write_place<W: fmt::Write>(
    f: &mut fmt::Formatter<W>,
    extension: u8,
    address: u32,
) -> fmt::Result {
    write!(f, " extension {extension}, address 0x{address:04x}")
}
