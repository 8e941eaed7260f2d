//! The commands that set DAQ lists (ASAM MCD-1 XCP, protocol layer, data acquisition): how they are
//! read from packets, and carried out.

ghost use Rattle.std.specs.Prelude.{◌≡◌, ◌↔◌, IfOk, IfErr, OnErr, OnOk};
ghost use Rattle.std.specs.Result.{result_err};
ghost use Rattle.daq_store.specs.Commands.{IsPacketOf, command, packet_fault, word};
ghost use Rattle.daq_store.specs.Inner.Accepted.{IsAccepted, IsPlain};
ghost use Rattle.daq_store.specs.Replies.{Allocates, CarriesOut, KeepsOnError};
ghost use Rattle.daq_store.specs.Standing.{Accepts, PassesAll, Refuses};

use crate::refusal::{NoMemory, Refusal};
use crate::reply::Reply;
use crate::store::Store;
use xcp_base::ErrCode;

/// A command with its fields, in the order of its packet and without the reserved bytes.
#[derive(Clone, Copy, Debug, PartialEq, Eq)]
pub enum Command {
    /// FREE_DAQ.
    FreeDaq,
    /// ALLOC_DAQ.
    AllocDaq {
        count: u16,
    },
    /// ALLOC_ODT.
    AllocOdt {
        list: u16,
        count: u8,
    },
    /// ALLOC_ODT_ENTRY.
    AllocOdtEntry {
        list: u16,
        odt: u8,
        count: u8,
    },
    /// SET_DAQ_PTR.
    SetDaqPtr {
        list: u16,
        odt: u8,
        entry: u8,
    },
    /// WRITE_DAQ: bit offset, size in bytes, address extension, address.
    WriteDaq {
        bit: u8,
        size: u8,
        ext: u8,
        addr: u32,
    },
    /// SET_DAQ_LIST_MODE.
    SetDaqListMode {
        mode: u8,
        list: u16,
        channel: u16,
        prescaler: u8,
        priority: u8,
    },
    /// START_STOP_DAQ_LIST.
    StartStopDaqList {
        mode: u8,
        list: u16,
    },
    /// START_STOP_SYNCH.
    StartStopSynch {
        mode: u8,
    },
    /// CLEAR_DAQ_LIST.
    ClearDaqList {
        list: u16,
    },
    /// READ_DAQ.
    ReadDaq,
}

/// Reads the command of a packet, of any bytes. A longer packet is accepted and its surplus
/// ignored; a reserved byte may have any value.
///
/// It knows the nine commands that set lists up and start them. To it the codes of CLEAR_DAQ_LIST
/// and READ_DAQ are those of no command: only a master that is connected may send them.
///
/// Refused in this order: ERR_CMD_SYNTAX for an empty packet, ERR_CMD_UNKNOWN for the code of
/// no command, ERR_CMD_SYNTAX for a packet that is too short for its command.
pub fn read(packet: &[u8]) -> Result<Command, ErrCode>
    ensures packet { (call : Command) → (result ≡ Ok call) ↔ IsPacketOf packet.now call }
    ensures fault { result_err result ≡ packet_fault packet.now }
    ensures value { result ≡ command packet.now }
{
    fields_of(packet)
}

/// The command of a packet, with the fields that stand behind its code.
fn fields_of(packet: &[u8]) -> Result<Command, ErrCode>
    ensures { result ≡ command packet.now }
{
    match packet {
        [0xD6, ..] => Ok(Command::FreeDaq),
        [0xD5, _, a, b, ..] => Ok(Command::AllocDaq { count: word(a, b) }),
        [0xD4, _, a, b, count, ..] => Ok(Command::AllocOdt {
            list: word(a, b),
            count: *count,
        }),
        [0xD3, _, a, b, odt, count, ..] => Ok(Command::AllocOdtEntry {
            list: word(a, b),
            odt: *odt,
            count: *count,
        }),
        [0xE2, _, a, b, odt, entry, ..] => Ok(Command::SetDaqPtr {
            list: word(a, b),
            odt: *odt,
            entry: *entry,
        }),
        [0xE1, bit, size, ext, a, b, c, d, ..] => Ok(Command::WriteDaq {
            bit: *bit,
            size: *size,
            ext: *ext,
            addr: u32::from_le_bytes([*a, *b, *c, *d]),
        }),
        [0xE0, mode, a, b, c, d, prescaler, priority, ..] => Ok(Command::SetDaqListMode {
            mode: *mode,
            list: word(a, b),
            channel: word(c, d),
            prescaler: *prescaler,
            priority: *priority,
        }),
        [0xDE, mode, a, b, ..] => Ok(Command::StartStopDaqList {
            mode: *mode,
            list: word(a, b),
        }),
        [0xDD, mode, ..] => Ok(Command::StartStopSynch { mode: *mode }),
        [] | [0xD3..=0xD5 | 0xDD..=0xDE | 0xE0..=0xE2, ..] => Err(ErrCode::CmdSyntax),
        _ => Err(ErrCode::CmdUnknown),
    }
}

/// The WORD that stands in two bytes.
fn word(low: &u8, high: &u8) -> u16
    ensures { result ≡ word low.now high.now }
{
    u16::from_le_bytes([*low, *high])
}

/// Carries a command out by the store's call of its name, and answers it. Lack of memory is
/// answered exactly if that call meets it: then the command isn't carried out.
pub fn carry_out(store: &mut Store, command: Command) -> Result<Reply, NoMemory>
    ensures ok { IfOk result (CarriesOut store.old store.new command) }
    ensures refused { IfOk result (KeepsOnError store.old store.new) }

    ensures no_memory { OnErr result (Allocates command × PassesAll store.old command) }
    ensures unchanged { OnErr result (store.new ≡ store.old) }

    ensures profile_stays { store.new.profile ≡ store.old.profile }
{
    match call(store, command) {
        Ok(reply) => Ok(reply),
        Err(Refusal::Code(code)) => Ok(Reply::Error(code)),
        Err(Refusal::Memory) => Err(NoMemory),
    }
}

/// Makes the store's call with the values of a command.
fn call(store: &mut Store, command: Command) -> Result<Reply, Refusal>
    ensures accepted { IfOk result (IsAccepted store.old store.new command) }
    ensures refused { IfErr result (Refuses store.old command) }
    ensures memory { result ≡ Err Refusal.Memory → Allocates command }
    ensures unchanged { OnErr result (store.new ≡ store.old) }
    ensures profile_stays { store.new.profile ≡ store.old.profile }
{
    match command {
        Command::StartStopDaqList { mode, list } => {
            let first_pid = store.start_stop(mode, list)?;
            Ok(Reply::Started { first_pid })
        }
        Command::ReadDaq => {
            let entry = store.read()?;
            Ok(Reply::of_entry(entry))
        }
        _ => {
            call_plainly(store, command)?;
            Ok(Reply::Positive)
        }
    }
}

/// Makes the store's call with the values of a command whose positive reply has nothing more.
fn call_plainly(store: &mut Store, command: Command) -> Result<(), Refusal>
    requires { IsPlain command }
    ensures accepted { OnOk result (Accepts store.old store.new command Reply.Positive) }
    ensures refused { IfErr result (Refuses store.old command) }
    ensures memory { result ≡ Err Refusal.Memory → Allocates command }
    ensures unchanged { OnErr result (store.new ≡ store.old) }
    ensures profile_stays { store.new.profile ≡ store.old.profile }
{
    match command {
        Command::FreeDaq => {
            store.free_daq();
            Ok(())
        }
        Command::AllocDaq { count } => store.alloc_daq(count),
        Command::AllocOdt { list, count } => store.alloc_odt(list, count),
        Command::AllocOdtEntry { list, odt, count } => store.alloc_odt_entry(list, odt, count),
        Command::SetDaqPtr { list, odt, entry } => store.set_ptr(list, odt, entry),
        Command::WriteDaq {
            bit,
            size,
            ext,
            addr,
        } => store.write(bit, size, ext, addr),
        Command::SetDaqListMode {
            mode,
            list,
            channel,
            prescaler,
            priority,
        } => store.set_mode(mode, list, channel, prescaler, priority),
        Command::StartStopSynch { mode } => store.synch(mode),
        Command::ClearDaqList { list } => store.clear(list),
        Command::StartStopDaqList { .. } | Command::ReadDaq => unreachable!(),
    }
}
