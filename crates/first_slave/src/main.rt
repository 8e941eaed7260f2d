//! An XCP slave in one thread: a master connects, measures with one DAQ list, and disconnects.
#![tactic(auto)]

ghost use Rattle.std.specs.Prelude.{◌≡◌, [], ◌∷◌, IfOk, OnOk};
ghost use Rattle.slave.specs.Hearing.{KeepsLines};
ghost use Rattle.slave_channels.specs.Calls.{rings_of};

mod commands;
mod engine;

use crate::commands::{CONNECT, DISCONNECT, READ_SPEED, SET_UP};
use crate::engine::{image, profile};
use anyhow::{Result, bail};
use frame_ring::FrameSend;
use slave::{MasterStream, Slave};
use slave_channels::Account;
use std::alloc::Global;
use tasks::Task;
use xcp_base::ListId;

fn main(rt: HostRuntime) -> Result<()> {
    let alloc = rt.alloc();
    let (mut slave, mut task) = open(alloc)?;
    let sent = serve(alloc, &mut slave, &mut task)?;
    let account = close(alloc, slave, task)?;
    print!(rt; "{sent}")?;
    let line = account.line(ListId::at(0));
    println!(rt;
        "list {}: {} due, {} written, {} dropped, {} left",
        line.list, line.due, line.written, line.dropped, line.left
    )?;
    Ok(())
}

/// What the slave sends while a master connects, measures and disconnects: a line of hexadecimal
/// digits for each datagram.
fn serve(alloc: Global, slave: &mut Slave, task: &mut Task<FrameSend>) -> Result<String>
    ensures lines { OnOk result (KeepsLines slave.old slave.new) }
    ensures line { OnOk result (task.new.ring ≡ task.old.ring) }
{
    let mut master = MasterStream::new(slave);
    let mut sent = String::new(alloc);
    answer(alloc, slave, &mut master, CONNECT, 0, &[], &mut sent)?;
    // what is read without a DAQ list is read off the memory that is handed in
    let memory = image(1990, 85);
    answer(
        alloc,
        slave,
        &mut master,
        READ_SPEED,
        0,
        &[&memory],
        &mut sent,
    )?;
    answer(alloc, slave, &mut master, SET_UP, 0, &[], &mut sent)?;
    measure(slave, task, &mut sent)?;
    // all lists stop; the reply is still sent
    answer(alloc, slave, &mut master, DISCONNECT, 400, &[], &mut sent)?;
    Ok(sent)
}

/// Triggers the event channel four times, with the memory as it is then, and sends the samples. The
/// ring has room for two of them: the third is dropped, and the one behind it says so.
fn measure(slave: &mut Slave, task: &mut Task<FrameSend>, sent: &mut String) -> Result<()>
    ensures lines { OnOk result (KeepsLines slave.old slave.new) }
    ensures line { OnOk result (task.new.ring ≡ task.old.ring) }
{
    task.trigger(&[&image(2000, 85)], 100)?;
    task.trigger(&[&image(2010, 85)], 200)?;
    task.trigger(&[&image(2020, 86)], 300)?;
    send(slave, sent)?;
    task.trigger(&[&image(2030, 86)], 400)?;
    send(slave, sent)
}

/// A slave with one event channel, and the task of that.
fn open(alloc: Global) -> Result<(Slave, Task<FrameSend>)>
    ensures one { IfOk result (λ made. rings_of made.0.channels ≡ made.1.ring ∷ []) }
{
    let (slave, mut tasks) = Slave::open(alloc, profile(alloc)?)?;
    match (tasks.pop(), tasks.is_empty()) {
        (Some(task), true) => Ok((slave, task)),
        _ => bail!("there isn't just one event channel"),
    }
}

/// Closes the slave: what the task still holds comes back, and is in the account.
fn close(alloc: Global, slave: Slave, task: Task<FrameSend>) -> Result<Account>
    requires one { rings_of slave.channels ≡ task.ring ∷ [] }
{
    let ends = vec![in alloc; task.finish()]?;
    let closed = slave.close(ends);
    if !closed.is_whole {
        bail!("a measurement did not come back");
    }
    Ok(closed.account)
}

/// The slave hears what came over the master's stream, with the memory as it is then, and answers.
fn answer(
    alloc: Global,
    slave: &mut Slave,
    master: &mut MasterStream,
    bytes: &[u8],
    clock: u32,
    memory: &[&[u8]],
    sent: &mut String,
) -> Result<()>
    ensures lines { OnOk result (KeepsLines slave.old slave.new) }
{
    let taken = master.receive(slave, alloc, bytes, clock, memory)?;
    if taken < bytes.len() {
        bail!("there is no room for the replies");
    }
    send(slave, sent)
}

/// Sends what waits, as one datagram: here it is written in hexadecimal.
fn send(slave: &mut Slave, sent: &mut String) -> Result<()>
    ensures lines { OnOk result (KeepsLines slave.old slave.new) }
{
    slave.take();
    let mut datagram = [0; 1472];
    let len = slave.peek(&mut datagram);
    for byte in datagram[..len].iter() {
        write!(sent, "{byte:02x}")?;
    }
    sent.push_str("\n")?;
    slave.sent();
    Ok(())
}
