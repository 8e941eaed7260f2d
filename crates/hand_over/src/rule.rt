//! Rules that say what may be left of a value that was handed over.
/// What is known of what comes back.
pub trait Rule<T, L> {
    /// `leaves value left` says that this may be left of that value.
    ghost leaves: { T → L → Type 0 };
}

/// Anything may be left.
#[derive(Clone, Copy)]
pub struct AnyLeft;

impl<T, L> Rule<T, L> for AnyLeft {
    ghost leaves = { λ _ _. Unit {0} };
}
