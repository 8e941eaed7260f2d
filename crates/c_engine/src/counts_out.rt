//! The counts of a DAQ list, laid out for C.
ghost use Rattle.std.specs.Prelude.{◌≡◌};
ghost use Rattle.c_engine.specs.Samplers.{counts_out};

use sampler::ListCounts;

/// How often a DAQ list was due, and what became of its samples. In C it is `ng_counts`.
#[repr(C)]
#[derive(Clone, Copy)]
pub struct CountsOut {
    /// The triggers at which it was due.
    pub due: u64,
    /// Those whose sample the ring accepted.
    pub accepted: u64,
    /// Those whose sample was dropped.
    pub dropped: u64,
}

impl CountsOut {
    /// A list's counts, for C.
    pub fn of(counts: ListCounts) -> CountsOut
        ensures { result ≡ counts_out counts }
    {
        CountsOut {
            due: counts.due,
            accepted: counts.accepted,
            dropped: counts.dropped,
        }
    }
}
