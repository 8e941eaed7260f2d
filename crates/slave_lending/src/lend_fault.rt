//! Why a task isn't handed out to a thread of its own.
/// Why a task was not handed out. The slave is unchanged.
#[derive(Clone, Copy, Debug, PartialEq, Eq)]
pub enum LendFault {
    /// There is no such event channel.
    NoChannel,
    /// The task was handed out before.
    Lent,
    /// There is no memory.
    Memory,
}
