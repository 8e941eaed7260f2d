//! What C is told of an account beside its lines.
/// The rest of an account, whose lines stand in a buffer. In C it is `ng_report`.
#[repr(C)]
#[derive(Clone, Copy)]
pub struct ReportOut {
    /// The lines, one for each DAQ list that the engine had.
    pub lines: usize,
    /// Whether a frame was not written whole.
    pub failed: bool,
}
