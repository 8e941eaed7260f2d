//! What a capture has: the entries of its lists.
ghost use Rattle.capture_tables.specs.Places.{entries_hold};

use crate::values_at::holds;
use capture_recording::CaptureSink;
use captured_samples::{ListSamples, Mark, SampleSink};
use captured_session::{CapturedList, Element};
use measured_values::DataType;
use std::alloc::{AllocError, Global};
use value_tables::Holder;

/// Gathers the entries of each list of a slave, those of a later set-up of a list behind those
/// before; and when the first packet of the slave was captured.
#[derive(Drop)]
pub struct ElementSurvey {
    entries: Vec<Element>,
    first: Option<i64>,
}

impl ElementSurvey {
    /// None yet.
    pub fn new(alloc: Global) -> ElementSurvey {
        ElementSurvey {
            entries: Vec::new(alloc),
            first: None,
        }
    }

    /// When the first packet was captured of which the capture tells that, in nanoseconds since
    /// 1970-01-01, UTC; `None` if that was before.
    pub fn first(&self) -> Option<u64> {
        u64::try_from(self.first?).ok()
    }
}

impl Holder for ElementSurvey {
    ghost held = { λ survey. entries_hold survey.entries.items };

    /// Whether some entry has them.
    fn holds(&self, address: u32, data_type: DataType) -> bool {
        self.entries
            .iter()
            .any(|entry| holds(entry, address, data_type))
    }
}

impl SampleSink for ElementSurvey {
    fn begin(&mut self, _number: usize, list: &CapturedList) -> Result<(), AllocError> {
        for odt in 0..list.odts() {
            self.entries.extend_from_slice(list.entries(odt))?;
        }
        Ok(())
    }

    fn hand(&mut self, _number: usize, _sample: &ListSamples, _mark: Mark) {}
}

impl CaptureSink for ElementSurvey {
    fn set_time(&mut self, nanoseconds: Option<i64>) {
        self.first = self.first.or(nanoseconds);
    }

    fn frame(&mut self, _is_of_master: bool, _counter: u16, _packet: &[u8]) {}
}
