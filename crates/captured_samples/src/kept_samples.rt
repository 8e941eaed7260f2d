//! Samples that are kept in memory.

use crate::list_samples::ListSamples;
use crate::mark::Mark;
use crate::sample_sink::SampleSink;
use captured_session::CapturedList;
use std::alloc::{AllocError, Global};

/// What is kept of a sample, beside its bytes.
#[derive(Clone, Copy, Debug, PartialEq, Eq)]
pub struct KeptSample {
    /// The number of its list's set-up.
    pub number: usize,
    /// The number of its list.
    pub list: u16,
    /// What its mark says.
    pub mark: Mark,
    /// Its timestamp, if it has one.
    pub ticks: Option<u32>,
}

/// Keeps the samples of a slave in memory.
#[derive(Drop)]
pub struct KeptSamples {
    /// The samples, in the order in which they were handed over.
    pub samples: Vec<KeptSample>,
    /// The bytes of their entries, one behind another.
    pub bytes: Vec<u8>,
    /// How many times a list was set up.
    pub begun: usize,
    /// Whether there was no memory for some: then nothing is said of the others.
    pub is_short: bool,
}

impl KeptSamples {
    ghost use Rattle.std.specs.Prelude.{◌≡◌, ◌++◌, ◌∷◌, [], false, OnOk};

    /// None yet.
    pub fn new(alloc: Global) -> KeptSamples
        ensures samples { result.samples.items ≡ [] }
        ensures bytes { result.bytes.items ≡ [] }
        ensures short { result.is_short ≡ false }
    {
        KeptSamples {
            samples: Vec::new(alloc),
            bytes: Vec::new(alloc),
            begun: 0,
            is_short: false,
        }
    }

    /// Keeps a sample.
    fn keep(&mut self, sample: KeptSample, bytes: &[u8]) -> Result<(), AllocError>
        ensures samples { OnOk result
            (self.new.samples.items ≡ self.old.samples.items ++ sample ∷ []) }
        ensures bytes { OnOk result
            (self.new.bytes.items ≡ self.old.bytes.items ++ bytes.now) }
        ensures stays { self.new.is_short ≡ self.old.is_short }
    {
        self.samples.push(sample)?;
        self.bytes.extend_from_slice(bytes)?;
        Ok(())
    }
}

impl SampleSink for KeptSamples {
    ghost use Rattle.std.specs.Prelude.{◌≡◌, false};
    ghost use Rattle.captured_samples.specs.Kept.{AreKept};

    ghost told = { λ k ts. k.is_short ≡ false → AreKept k.samples.items k.bytes.items ts };

    fn begin(&mut self, _number: usize, _list: &CapturedList) -> Result<(), AllocError> {
        self.begun = self.begun.saturating_add(1);
        Ok(())
    }

    fn hand(&mut self, number: usize, sample: &ListSamples, mark: Mark) {
        let kept = KeptSample {
            number,
            list: sample.list().list(),
            mark,
            ticks: sample.ticks(),
        };
        if self.keep(kept, sample.bytes()).is_err() {
            self.is_short = true;
        }
    }
}
