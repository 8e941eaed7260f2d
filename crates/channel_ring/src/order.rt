//! The orders that go to a sampler while it is in a thread of its own: start, stop, end.
/// What is asked of a sampler, or of who holds it.
#[derive(Clone, Copy, Debug, PartialEq, Eq)]
pub enum Order {
    /// To start this DAQ list.
    Start(u8),
    /// To stop it.
    Stop(u8),
    /// To give back what is left of the sampler, which is for who holds it.
    End,
}
