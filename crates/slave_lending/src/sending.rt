//! What waits is shown, and sent.
ghost use Rattle.std.specs.Prelude.{◌≡◌};
ghost use Rattle.slave.specs.Taking.{least_peek};
ghost use Rattle.slave_lending.specs.Sending.{Peeks, Sends};

use crate::lending_slave::LendingSlave;

impl LendingSlave {
    /// The bytes of a buffer in which a peek shows a frame, if one waits, as `Slave::least_peek`.
    pub fn least_peek(&self) -> usize
        ensures { result ≡ least_peek self.now.slave.session.profile }
    {
        self.slave.least_peek()
    }

    /// Takes samples off the rings, and copies as many whole frames that wait as find room to the
    /// front of a buffer, as `Slave::take` and `Slave::peek`; and returns how many bytes these are.
    pub fn peek(&mut self, buffer: &mut [u8]) -> usize
        ensures { Peeks self.old self.new buffer.old buffer.new result }
    {
        self.slave.take();
        self.slave.peek(buffer)
    }

    /// What the last peek showed was sent, and waits no more.
    pub fn sent(&mut self)
        ensures { Sends self.old self.new }
    {
        self.slave.sent();
    }
}
