//! What a slave is about.
ghost use Rattle.std.specs.Prelude.{◌≡◌, true, false};
ghost use Rattle.slave.specs.Standing.{Busy, Idle};
ghost use Rattle.slave.specs.Taking.{least_peek};
ghost use Rattle.slave_outbox.specs.Outboxes.{bytes_in};

use crate::slave::Slave;

impl Slave {
    /// Whether a master is connected.
    pub fn is_connected(&self) -> bool
        ensures { result ≡ self.now.session.connected }
    {
        self.session.is_connected()
    }

    /// Whether some DAQ list runs.
    pub fn is_measuring(&self) -> bool
        ensures busy { result ≡ true → Busy self.now.session }
        ensures idle { result ≡ false → Idle self.now.session }
    {
        !self.is_idle()
    }

    /// How many bytes wait to be sent: the frames of replies and samples that were laid out.
    pub fn waiting(&self) -> usize
        ensures { result ≡ bytes_in self.now.outbox.waits }
    {
        self.outbox.waiting()
    }

    /// The bytes of a buffer in which a peek shows a frame, if one waits: LEN and CTR, and a packet
    /// of the greater of MAX_CTO and MAX_DTO bytes.
    pub fn least_peek(&self) -> usize
        ensures { result ≡ least_peek self.now.session.profile }
    {
        4 + (self.session.max_cto() as usize).max(self.session.max_dto() as usize)
    }
}
