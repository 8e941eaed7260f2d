//! What the slave is about.
ghost use Rattle.std.specs.Prelude.{◌≡◌, true, false};
ghost use Rattle.slave_outbox.specs.Outboxes.{bytes_in};
ghost use Rattle.slave.specs.Standing.{Busy, Idle};

use crate::lending_slave::LendingSlave;

impl LendingSlave {
    /// Whether a master is connected, as `Slave::is_connected`.
    pub fn is_connected(&self) -> bool
        ensures { result ≡ self.now.slave.session.connected }
    {
        self.slave.is_connected()
    }

    /// Whether some DAQ list runs, as `Slave::is_measuring`.
    pub fn is_measuring(&self) -> bool
        ensures busy { result ≡ true → Busy self.now.slave.session }
        ensures idle { result ≡ false → Idle self.now.slave.session }
    {
        self.slave.is_measuring()
    }

    /// How many bytes wait to be sent, as `Slave::waiting`.
    pub fn waiting(&self) -> usize
        ensures { result ≡ bytes_in self.now.slave.outbox.waits }
    {
        self.slave.waiting()
    }
}
