//! How a round over the rings of a measurement ended, and whether it was the last.
ghost use Rattle.std.specs.Prelude.{◌≡◌, ◌<◌, ◌≢◌, ◌⊎◌, true, false};

use slave_outbox::Step;

/// How a round over the rings of the newest measurement ended.
#[derive(Clone, Copy)]
pub enum Round {
    /// A sample found no room.
    HeldUp,
    /// Nothing was found.
    Empty,
    /// An item was taken, or more.
    Took,
}

/// Whether a sample found no room.
pub fn is_full(step: Step) -> bool
    ensures yes { result ≡ true → step ≡ Step.Full }
    ensures no { result ≡ false → step ≢ Step.Full }
{
    match step {
        Step::Full => true,
        _ => false,
    }
}

impl Round {
    /// Whether it was the last: a sample found no room, or none of the rings holds anything, if it
    /// began at the first of them.
    pub fn is_last(self, begin: usize) -> bool
        ensures yes { result ≡ true
            → (self ≡ Round.HeldUp) ⊎ ((self ≡ Round.Empty) × (begin ≡ 0)) }
        ensures no { result ≡ false
            → (self ≡ Round.Took) ⊎ ((self ≡ Round.Empty) × (0 < begin)) }
    {
        match self {
            Round::HeldUp => true,
            Round::Empty => begin == 0,
            Round::Took => false,
        }
    }
}
