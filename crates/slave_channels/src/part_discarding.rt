//! A sample that was laid out is thrown away.
ghost use Rattle.std.specs.Prelude.{◌≡◌, ◌≢◌, Some, true, false};
ghost use Rattle.slave_outbox.specs.Deeds.{Unsent};
ghost use Rattle.slave_channels.specs.Channels.{GoesOnThere, PartGoesOn, number_of};
ghost use Rattle.slave_channels.specs.PartInner.{EndStays};

use crate::channel::Channel;
use crate::share::Share;
use xcp_base::ListId;

/// Tells a part that a sample of it was thrown away, if it is of this measurement, and returns
/// whether it is.
fn tell(part: &mut Option<Share>, number: u64, l: ListId) -> bool
    ensures told { result ≡ true → PartGoesOn number (Unsent l) part.old part.new }
    ensures other { result ≡ false → number_of part.old ≢ Some number }
    ensures stays { result ≡ false → part.new ≡ part.old }
    ensures end_stays { EndStays part.old part.new }
{
    let Some(share) = part else {
        return false;
    };
    if share.number != number {
        return false;
    }
    share.intake.unsent(l);
    true
}

impl Channel {
    /// A sample of this measurement and DAQ list that was laid out is thrown away, and isn't sent:
    /// the measurement's part here counts it as left. Returns whether that part is kept; if it
    /// isn't, nothing changes.
    pub fn unsent(&mut self, number: u64, l: ListId) -> bool
        ensures told { result ≡ true → GoesOnThere number (Unsent l) self.old self.new }
        ensures not_newer { result ≡ false → number_of self.old.newer ≢ Some number }
        ensures not_older { result ≡ false → number_of self.old.older ≢ Some number }
        ensures stays { result ≡ false → self.new ≡ self.old }
    {
        if tell(&mut self.newer, number, l) {
            return true;
        }
        tell(&mut self.older, number, l)
    }
}
