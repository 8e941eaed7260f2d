//! Samples are taken off the rings of event channels, and laid out.
ghost use Rattle.std.specs.Prelude.{◌≡◌, ◌-◌};
ghost use Rattle.slave_outbox.specs.Outboxes.{bytes_in};
ghost use Rattle.slave_outbox.specs.Taking.{TakesItem};

use crate::outbox::Outbox;
use crate::{Intake, Step};

impl Outbox {
    /// The bytes that samples still find room in: up to the page's end, or none.
    fn room(&self) -> usize
        ensures { result ≡ self.now.page - bytes_in self.now.waits }
    {
        self.most.saturating_sub(self.len)
    }

    /// Takes the next item of an event channel's ring, if one is there, by its intake. A sample
    /// that passes is laid out behind all that waits, as one of this measurement and event channel,
    /// if its frames end within the page; else it stays in the ring. It takes no memory.
    #[inline(always)]
    pub fn take(&mut self, intake: &mut Intake, measurement: u64, channel: u8) -> Step
        ensures means { TakesItem intake.old intake.new self.old self.new measurement channel
            result }
        ensures shown_stays { self.new.shown ≡ self.old.shown }
    {
        let room = self.room();
        let step = intake.step(&mut self.page, room, measurement, channel);
        if let Step::Wrote(_, len) = step {
            self.len += len;
        }
        step
    }
}
