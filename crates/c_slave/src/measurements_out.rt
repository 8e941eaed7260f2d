//! The accounts of single measurements, laid out for C.
use daq_engine::ListReport;
use xcp_base::limits::MAX_LISTS;

/// The places for the lines of a measurement: one for each list that there may be.
pub const LINES: usize = MAX_LISTS as usize;

/// The account of one measurement, or of some together. In C it is `ng_measurement`.
#[repr(C)]
#[derive(Clone, Copy)]
pub struct MeasurementOut {
    /// The measurement's number; of some together, how many they are.
    pub number: u64,
    /// Whether the lines have all parts.
    pub whole: bool,
    /// A line for each DAQ list that there may be.
    pub lines: [ListReport; LINES],
}

/// The accounts of the last measurements alone, and of all before. In C it is `ng_measurements`.
#[repr(C)]
#[derive(Clone, Copy)]
pub struct MeasurementsOut {
    /// How many of the last there are, up to four.
    pub count: usize,
    /// These, in the order of their numbers.
    pub last: [MeasurementOut; 4],
    /// All before them, together.
    pub older: MeasurementOut,
}
