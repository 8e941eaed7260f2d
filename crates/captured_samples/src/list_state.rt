//! A DAQ list of a slave whose samples are read.

use crate::list_samples::ListSamples;

/// A DAQ list of a slave whose samples are read.
#[derive(Drop)]
pub struct ListState {
    /// The number of this set-up of the list.
    pub number: usize,
    /// Its samples.
    pub samples: ListSamples,
    /// Whether frames are missing behind its last whole sample.
    pub gap: bool,
}
