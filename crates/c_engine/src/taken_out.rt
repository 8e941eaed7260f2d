//! What a trigger did, laid out for C.
ghost use Rattle.std.specs.Prelude.{◌≡◌};
ghost use Rattle.c_engine.specs.Samplers.{taken_out};

use sampler::Taken;

/// What a trigger did, as sets of DAQ lists in which bit `l` stands for list `l`. In C it is
/// `ng_taken`.
#[repr(C)]
#[derive(Clone, Copy)]
pub struct TakenOut {
    /// The lists that were due.
    pub due: u16,
    /// Those whose sample was accepted.
    pub accepted: u16,
    /// Those whose sample was dropped.
    pub dropped: u16,
}

impl TakenOut {
    /// What a trigger did, for C.
    pub fn of(taken: Taken) -> TakenOut
        ensures { result ≡ taken_out taken }
    {
        TakenOut {
            due: taken.due,
            accepted: taken.accepted,
            dropped: taken.dropped,
        }
    }
}
