//! What one pump did: items taken, frames written, DAQ lists stopped.
/// What a pump took and wrote.
#[derive(Clone, Copy, Debug, PartialEq, Eq)]
pub struct Pumped {
    /// The items that were taken, one of a ring at most.
    pub taken: u8,
    /// The frames that were written.
    pub frames: u8,
    /// The DAQ lists whose stop markers were taken, as a set in which bit `l` stands for list `l`.
    pub stopped: u16,
}
