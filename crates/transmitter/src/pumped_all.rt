//! The sums over several pumps, in wider numbers than those of one.
ghost use Rattle.std.specs.Prelude.{◌≡◌, ◌^◌, ◌<◌};

use crate::pumped::Pumped;

/// What several pumps took and wrote.
#[derive(Clone, Copy, Debug, PartialEq, Eq)]
pub struct PumpedAll {
    /// The items that were taken.
    pub taken: u64,
    /// The frames that were written.
    pub frames: u64,
    /// The DAQ lists of which a stop marker was taken, as a set in which bit `l` stands for list
    /// `l`.
    pub stopped: u16,
}

/// What no pump took and wrote.
pub const NOTHING: PumpedAll = PumpedAll {
    taken: 0,
    frames: 0,
    stopped: 0,
};

impl PumpedAll {
    /// The same of one pump, which takes and writes little.
    pub(crate) fn as_one(self) -> Pumped
        requires few { self.taken < 2 ^ 8 }
        requires few_frames { self.frames < 2 ^ 8 }
        ensures taken { result.taken ≡ self.taken }
        ensures frames { result.frames ≡ self.frames }
        ensures stopped { result.stopped ≡ self.stopped }
    {
        Pumped {
            taken: self.taken as u8,
            frames: self.frames as u8,
            stopped: self.stopped,
        }
    }
}
