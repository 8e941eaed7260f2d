//! A sample of one event channel that was laid out is thrown away.
ghost use Rattle.std.specs.Prelude.{◌≡◌, ◌<◌, length, true, false};
ghost use Rattle.slave_outbox.specs.Deeds.{Unsent};
ghost use Rattle.slave_channels.specs.Channels.{GoesOnThere};
ghost use Rattle.slave_channels.specs.Calls.{KeepsNoneOf};
ghost use Rattle.slave_channels.specs.Each.{IsOnlyAt};

use crate::channels::Channels;
use xcp_base::ListId;

impl Channels {
    /// A sample of this measurement and DAQ list that was laid out for event channel `c` is thrown
    /// away, and isn't sent: the measurement's part there counts it as left. Returns whether that
    /// part is kept; if it isn't, nothing changes.
    pub fn unsent(&mut self, c: u8, number: u64, l: ListId) -> bool
        ensures there { result ≡ true → c < length self.old }
        ensures told { result ≡ true
            → IsOnlyAt (GoesOnThere number (Unsent l)) c self.old self.new }
        ensures none { result ≡ false → KeepsNoneOf number c self.old }
        ensures stays { result ≡ false → self.new ≡ self.old }
    {
        let Some(channel) = self.all.get_mut(c as usize) else {
            return false;
        };
        channel.unsent(number, l)
    }
}
