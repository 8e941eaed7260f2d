//! The slave hears its master.
ghost use Rattle.std.specs.Prelude.{◌≡◌, IfOk, OnErr};
ghost use Rattle.session.specs.Standing.{given_by};
ghost use Rattle.slave.specs.Hearing.{is_spent};
ghost use Rattle.slave_lending.specs.Bytes.{HangsUp, HearsBytes, RefusesBytes, TakesBytes};

use crate::lending_slave::LendingSlave;
use frame_writer::BadFrame;
use slave::{MasterStream, datagram};
use std::alloc::Global;

impl LendingSlave {
    /// Whether the slave is spent, and hears and takes nothing any more: `Slave::is_spent`.
    pub fn is_spent(&self) -> bool
        ensures { result ≡ is_spent self.now.slave }
    {
        self.slave.is_spent()
    }

    /// Takes bytes of a stream, as `MasterStream::receive`, and returns how many.
    pub fn receive(
        &mut self,
        alloc: Global,
        bytes: &[u8],
        clock: u32,
        memory: &[&[u8]],
    ) -> Result<usize, BadFrame>
        ensures ok { IfOk result
            (TakesBytes self.old self.new (given_by clock memory.now) bytes.now) }
        ensures bad { OnErr result
            (RefusesBytes self.old self.new (given_by clock memory.now) bytes.now) }
    {
        self.stream
            .receive(&mut self.slave, alloc, bytes, clock, memory)
    }

    /// Hears the frames of a datagram, as `slave::datagram`, and returns how many bytes it
    /// took.
    pub fn datagram(&mut self, alloc: Global, bytes: &[u8], clock: u32, memory: &[&[u8]]) -> usize
        ensures { HearsBytes self.old self.new (given_by clock memory.now) bytes.now result }
    {
        datagram(&mut self.slave, alloc, bytes, clock, memory)
    }

    /// The transport was lost: the slave hangs up, which throws away what waits, and what is held
    /// of a frame is dropped. The next byte of a stream is the first of another one.
    pub fn hang_up(&mut self)
        ensures { HangsUp self.old self.new }
    {
        self.slave.hang_up();
        self.stream = MasterStream::new(&self.slave);
    }
}
