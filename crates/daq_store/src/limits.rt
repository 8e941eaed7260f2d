//! What a store admits at most.
ghost use Rattle.std.specs.Prelude.{◌≡◌, true, false};
ghost use Rattle.daq_store.specs.Limited.{AreAllowed, run_limits, slave_limits};

use xcp_base::limits::{
    MAX_CHANNELS, MAX_DTO, MAX_ENTRIES, MAX_ODTS, MAX_ODTS_IN_ALL, MAX_PACKET, MIN_DTO,
    RUN_CHANNELS, RUN_ENTRIES,
};

/// What a store admits at most, beside the limits that each store has.
#[derive(Clone, Copy, Debug, PartialEq, Eq)]
pub struct Limits {
    /// The most event channels; over `MAX_CHANNELS` no store is made.
    pub channels: u16,
    /// The most ODTs of one DAQ list; over `MAX_ODTS_IN_ALL` no store is made.
    pub odts: u8,
    /// The most entries of one ODT.
    pub entries: u8,
    /// MAX_DTO: the longest packet, in bytes; outside of `MIN_DTO` to `MAX_PACKET` no store is
    /// made.
    pub max_dto: u16,
}

impl Limits {
    /// Those of a run: 8 event channels, 8 ODTs, 32 entries, packets of 64 bytes.
    pub fn of_runs() -> Limits
        ensures { result ≡ run_limits }
    {
        Limits {
            channels: RUN_CHANNELS,
            odts: MAX_ODTS as u8,
            entries: RUN_ENTRIES,
            max_dto: MAX_DTO as u16,
        }
    }

    /// Those of a slave that a master connects to: 16 event channels, 124 ODTs, 255 entries,
    /// packets of so many bytes.
    pub fn of_slaves(max_dto: u16) -> Limits
        ensures { result ≡ slave_limits max_dto }
    {
        Limits {
            channels: MAX_CHANNELS,
            odts: MAX_ODTS_IN_ALL as u8,
            entries: MAX_ENTRIES as u8,
            max_dto,
        }
    }

    /// Whether a store may have them.
    pub(crate) fn are_allowed(&self) -> bool
        ensures yes { result ≡ true → AreAllowed self.now }
        ensures no { result ≡ false → ¬ AreAllowed self.now }
    {
        self.odts as usize <= MAX_ODTS_IN_ALL
            && self.max_dto >= MIN_DTO
            && self.max_dto as usize <= MAX_PACKET
    }
}
