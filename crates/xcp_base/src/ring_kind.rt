//! The two kinds of rings, and the limits of their capacities.
ghost use Rattle.std.specs.Prelude.{◌≡◌};
ghost use Rattle.xcp_base.specs.Rings.{least_cap, most_cap};

use crate::limits::{MAX_BYTE_RING, MAX_SAMPLE_RING, MIN_BYTE_RING};

/// Which kind of rings stands between samplers and transmitter, and so what a capacity counts.
#[derive(Clone, Copy, Debug, PartialEq, Eq)]
pub enum RingKind {
    /// A ring of samples; a capacity counts items.
    Samples,
    /// A ring of bytes; a capacity counts these.
    Bytes,
}

impl RingKind {
    /// The least capacity of such a ring.
    pub fn least_cap(self) -> usize
        ensures { result ≡ least_cap self }
    {
        match self {
            RingKind::Samples => 1,
            RingKind::Bytes => MIN_BYTE_RING,
        }
    }

    /// The greatest one.
    pub fn most_cap(self) -> usize
        ensures { result ≡ most_cap self }
    {
        match self {
            RingKind::Samples => MAX_SAMPLE_RING,
            RingKind::Bytes => MAX_BYTE_RING,
        }
    }
}
