//! The faults of the text of one step: it says none, or memory ran out.
/// Why a step was not read from its text.
#[derive(Clone, Copy)]
pub enum StepFault {
    /// The text is no step.
    NoStep,
    /// Memory ran out.
    Memory,
}
