//! Which allocation may follow which.
ghost use Rattle.std.specs.Prelude.{◌≡◌};
ghost use Rattle.daq_store.specs.Shape.{forbids_lists, forbids_odts, forbids_entries};

/// The last allocation since FREE_DAQ.
#[derive(Clone, Copy)]
pub enum Phase {
    Free,
    Daq,
    Odt,
    Entry,
}

impl Phase {
    /// Whether ALLOC_DAQ is out of sequence.
    pub fn forbids_lists(self) -> bool
        ensures { result ≡ forbids_lists self }
    {
        matches!(self, Phase::Odt | Phase::Entry)
    }

    /// Whether ALLOC_ODT is out of sequence.
    pub fn forbids_odts(self) -> bool
        ensures { result ≡ forbids_odts self }
    {
        matches!(self, Phase::Free | Phase::Entry)
    }

    /// Whether ALLOC_ODT_ENTRY is out of sequence.
    pub fn forbids_entries(self) -> bool
        ensures { result ≡ forbids_entries self }
    {
        matches!(self, Phase::Free | Phase::Daq)
    }
}
