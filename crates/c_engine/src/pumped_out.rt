//! What one pump did, laid out for C.
ghost use Rattle.std.specs.Prelude.{◌≡◌};
ghost use Rattle.c_engine.specs.Engines.{pumped_out};

use transmitter::Pumped;

/// What a pump took and wrote. In C it is `ng_pumped`.
#[repr(C)]
#[derive(Clone, Copy)]
pub struct PumpedOut {
    /// The DAQ lists whose stop markers were taken, as a set.
    pub stopped: u16,
    /// The items that were taken.
    pub taken: u8,
    /// The frames that were written.
    pub frames: u8,
}

impl PumpedOut {
    /// What is told where nothing was pumped.
    pub fn nothing() -> PumpedOut
        ensures { result ≡ record { stopped = 0; taken = 0; frames = 0 } }
    {
        PumpedOut {
            stopped: 0,
            taken: 0,
            frames: 0,
        }
    }

    /// What a pump did, for C.
    pub fn of(pumped: Pumped) -> PumpedOut
        ensures { result ≡ pumped_out pumped }
    {
        PumpedOut {
            stopped: pumped.stopped,
            taken: pumped.taken,
            frames: pumped.frames,
        }
    }
}
