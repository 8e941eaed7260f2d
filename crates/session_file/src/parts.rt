//! The lines of the parts of measurements that came back.
ghost use Rattle.std.specs.Prelude.{OnOk};
ghost use Rattle.slave_channels.specs.Channels.{IsFinished};

use daq_engine::ListReport;
use slave_channels::Finished;
use std::alloc::{AllocError, Global};
use xcp_base::ListId;
use xcp_base::limits::MAX_LISTS;

/// What became of the samples of a DAQ list in one measurement.
#[derive(Clone, Copy, Debug, PartialEq, Eq)]
pub struct PartLine {
    /// The number of the measurement.
    pub measurement: u64,
    pub line: ListReport,
}

/// The lines of the parts of measurements that came back, in the order in which they did.
#[derive(Debug, Drop)]
pub struct Parts {
    lines: Vec<PartLine>,
}

impl Parts {
    /// No part came back yet.
    pub fn new(alloc: Global) -> Parts {
        Parts {
            lines: Vec::new(alloc),
        }
    }

    /// Notes the lines of a part that came back, and returns its measurement.
    pub fn add(&mut self, finished: &Finished) -> Result<u64, AllocError>
        ensures finished { OnOk result (IsFinished finished.now) }
    {
        let measurement = finished.number();
        for l in 0..MAX_LISTS {
            if let Some(line) = finished.line(ListId::at(l)) {
                self.lines.push(PartLine { measurement, line })?;
            }
        }
        Ok(measurement)
    }

    /// The lines.
    pub fn lines(&self) -> &[PartLine] {
        &self.lines
    }

    /// Whether one of them is of this list.
    pub fn have(&self, list: u8) -> bool {
        self.lines.iter().any(|part| part.line.list == list)
    }
}
