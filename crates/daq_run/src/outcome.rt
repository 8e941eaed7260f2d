//! What a run that was done gives: its refused steps, its account, and the writer.
use daq_engine::Report;

/// What came of a run.
#[derive(Drop)]
pub struct Outcome<O> {
    /// How many steps a sampler refused.
    pub refused: u64,
    /// The account of each DAQ list, and whether the writer failed.
    pub report: Report,
    /// The writer, as it stands.
    pub out: O,
}
