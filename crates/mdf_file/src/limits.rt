//! How much a writer keeps in memory.
/// How many bytes of records a writer keeps before it writes a block of them.
#[derive(Clone, Copy, Debug)]
pub struct Limits {
    /// Of one group.
    pub group: usize,
    /// Of all groups together.
    pub all: usize,
}

/// What a writer keeps if nothing else is said: 4 MiB of a group, and 32 MiB of all.
pub const LIMITS: Limits = Limits {
    group: 4_194_304,
    all: 33_554_432,
};
