//! What commands tell of DAQ lists.
ghost use Rattle.std.specs.Prelude.{◌≡◌, ◌++◌, ℕ, List, OnOk, None};
ghost use Rattle.captured_session.specs.SetUps.{element_at, element_of, fact_of, facts_of};
ghost use Rattle.captured_session.specs.SetUps.{first_pid_in, frees, in_list, write_at};
ghost use Rattle.captured_session.specs.SetUps.{writes_from};
ghost use Rattle.captured_session.specs.declared.fact.Fact.{Fact};

use crate::command::{Command, dword};
use crate::element::Element;
use crate::fact::Fact;
use crate::outcome::Outcome;
use crate::pointer::Pointer;
use crate::pointers::moved;
use measured_values::ByteOrder;
use std::alloc::AllocError;

/// Appends what a command tells, by what came of it.
pub fn push_facts(
    facts: &mut Vec<Fact>,
    order: ByteOrder,
    pointer: Pointer,
    packet: &[u8],
    reply: &[u8],
    outcome: Outcome,
    command: Command,
) -> Result<(), AllocError>
    ensures ok { OnOk result (facts.new.items ≡ facts.old.items
        ++ facts_of order pointer packet.now reply.now command outcome) }
    ensures behind { (more : List Fact) × (facts.new.items ≡ facts.old.items ++ more) }
{
    match (command, outcome) {
        (Command::WriteDaqMultiple { count }, Outcome::Done) => {
            push_writes(facts, order, pointer, count, packet)
        }
        (Command::WriteDaqMultiple { count }, _) => push_lost(facts, pointer, count),
        _ => push_fact(facts, fact_of(pointer, reply, command, outcome)),
    }
}

/// Appends a fact, if there is one.
fn push_fact(facts: &mut Vec<Fact>, fact: Option<Fact>) -> Result<(), AllocError>
    ensures ok { OnOk result (facts.new.items ≡ facts.old.items ++ in_list fact) }
    ensures behind { (more : List Fact) × (facts.new.items ≡ facts.old.items ++ more) }
{
    if let Some(fact) = fact {
        facts.push(fact)?;
    }
    Ok(())
}

/// Appends the writes of WRITE_DAQ_MULTIPLE.
fn push_writes(
    facts: &mut Vec<Fact>,
    order: ByteOrder,
    pointer: Pointer,
    count: u8,
    packet: &[u8],
) -> Result<(), AllocError>
    ensures ok { OnOk result (facts.new.items ≡ facts.old.items
        ++ writes_from pointer count (element_at order packet.now)) }
    ensures behind { (more : List Fact) × (facts.new.items ≡ facts.old.items ++ more) }
{
    for i in 0..count {
        facts.push(write_at(moved(i, pointer), element_at(order, packet, i)))?;
    }
    Ok(())
}

/// Appends writes of which it isn't known what they wrote.
fn push_lost(facts: &mut Vec<Fact>, pointer: Pointer, count: u8) -> Result<(), AllocError>
    ensures ok { OnOk result (facts.new.items ≡ facts.old.items
        ++ writes_from pointer count (λ i. None)) }
    ensures behind { (more : List Fact) × (facts.new.items ≡ facts.old.items ++ more) }
{
    for i in 0..count {
        facts.push(write_at(moved(i, pointer), None))?;
    }
    Ok(())
}

/// What a command but WRITE_DAQ_MULTIPLE tells.
fn fact_of(pointer: Pointer, reply: &[u8], command: Command, outcome: Outcome) -> Option<Fact>
    ensures { result ≡ fact_of pointer reply.now command outcome }
{
    match outcome {
        Outcome::Done => fact_done(pointer, reply, command),
        Outcome::Refused => None,
        Outcome::Unanswered => fact_unanswered(pointer, command),
    }
}

/// The same, if it was carried out.
fn fact_done(pointer: Pointer, reply: &[u8], command: Command) -> Option<Fact>
    ensures { result ≡ fact_of pointer reply.now command Outcome.Done }
{
    match command {
        Command::AllocOdt { list, count } => Some(Fact::Odts { list, count }),
        Command::AllocOdtEntry { list, odt, count } => Some(Fact::Entries { list, odt, count }),
        Command::WriteDaq { element } => Some(write_at(pointer, Some(element))),
        Command::SetDaqListMode { list, mode } => Some(Fact::Mode {
            list,
            mode: Some(mode),
        }),
        Command::ClearDaqList { list } => Some(Fact::Cleared { list }),
        Command::StartStopDaqList { list } => first_pid_in(list, reply),
        _ => None,
    }
}

/// The same, if there was no reply.
fn fact_unanswered(pointer: Pointer, command: Command) -> Option<Fact>
    ensures { (reply : List ℕ) → result ≡ fact_of pointer reply command Outcome.Unanswered }
{
    match command {
        Command::AllocOdt { list, .. }
        | Command::AllocOdtEntry { list, .. }
        | Command::ClearDaqList { list } => Some(Fact::LostList { list }),
        Command::WriteDaq { .. } => Some(write_at(pointer, None)),
        Command::SetDaqListMode { list, .. } => Some(Fact::Mode { list, mode: None }),
        _ => None,
    }
}

/// The first PID that the reply to START_STOP_DAQ_LIST tells.
fn first_pid_in(list: u16, reply: &[u8]) -> Option<Fact>
    ensures { result ≡ first_pid_in list reply.now }
{
    match reply {
        [_, pid, ..] => Some(Fact::FirstPid { list, pid: *pid }),
        _ => None,
    }
}

/// What a write tells, of an entry or, without one, of none that is known.
fn write_at(pointer: Pointer, element: Option<Element>) -> Fact
    ensures { result ≡ write_at pointer element }
{
    match pointer {
        Pointer::At { list, odt, entry } => Fact::Entry {
            list,
            odt,
            entry,
            element,
        },
        Pointer::Within { list, odt } => Fact::LostOdt { list, odt },
        Pointer::Unknown => Fact::LostAll,
    }
}

/// An entry of WRITE_DAQ_MULTIPLE.
fn element_at(order: ByteOrder, packet: &[u8], i: u8) -> Option<Element>
    ensures { result ≡ element_at order packet.now i }
{
    element_of(order, packet.get(2 + 8 * i as usize..)?)
}

/// The entry in front of some bytes.
fn element_of(order: ByteOrder, bytes: &[u8]) -> Option<Element>
    ensures { result ≡ element_of order bytes.now }
{
    match bytes {
        [bit, size, a, b, c, d, extension, _, ..] => Some(Element {
            bit: *bit,
            size: *size,
            extension: *extension,
            address: dword(order, *a, *b, *c, *d),
        }),
        _ => None,
    }
}

/// Whether nothing is known of any list behind a command: it begins a set-up anew, or may have.
pub fn frees(command: Command, outcome: Outcome) -> bool
    ensures { result ≡ frees command outcome }
{
    match (command, outcome) {
        (Command::Missing, _) => true,
        (Command::FreeDaq | Command::AllocDaq, Outcome::Refused) => false,
        (Command::FreeDaq | Command::AllocDaq, _) => true,
        _ => false,
    }
}
