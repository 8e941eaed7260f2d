//! Where the samples of a recording stand on one axis.
use crate::times::Times;
use sample_picture::Axis;
use std::alloc::{AllocError, Global};
use xcp_base::StampSize;

/// The places of samples, one after another: their numbers from 1, or their times.
#[derive(Drop)]
pub struct Places {
    axis: Axis,
    size: StampSize,
    number: u64,
    times: Times,
}

impl Places {
    /// Before the first sample of so many lists. Lack of memory is the only fault.
    pub fn new(
        alloc: Global,
        axis: Axis,
        size: StampSize,
        lists: usize,
    ) -> Result<Places, AllocError> {
        Ok(Places {
            axis,
            size,
            number: 0,
            times: Times::new(alloc, lists)?,
        })
    }

    /// The place of the next sample, which is of the list at a place.
    pub fn next(&mut self, list: usize, stamp: Option<u32>) -> u64 {
        self.number = self.number.saturating_add(1);
        if self.axis == Axis::Samples || list >= self.times.lists() {
            return self.number;
        }
        match self.times.next(list, self.size, stamp) {
            Some(at) => at,
            None => self.number,
        }
    }

    /// What the places are.
    pub fn axis(&self) -> Axis {
        self.axis
    }
}
