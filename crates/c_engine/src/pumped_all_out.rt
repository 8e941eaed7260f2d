//! What several pumps did, laid out for C.
ghost use Rattle.std.specs.Prelude.{◌≡◌};
ghost use Rattle.c_engine.specs.Fillings.{pumped_all_out};

use transmitter::PumpedAll;

/// What several pumps took and wrote. In C it is `ng_pumped_all`.
#[repr(C)]
#[derive(Clone, Copy)]
pub struct PumpedAllOut {
    /// The items that were taken.
    pub taken: u64,
    /// The frames that were written.
    pub frames: u64,
    /// The DAQ lists of which a stop marker was taken, as a set.
    pub stopped: u16,
}

impl PumpedAllOut {
    /// What pumps did, for C.
    pub fn of(pumped: PumpedAll) -> PumpedAllOut
        ensures { result ≡ pumped_all_out pumped }
    {
        PumpedAllOut {
            taken: pumped.taken,
            frames: pumped.frames,
            stopped: pumped.stopped,
        }
    }
}
