//! What goes over a way back, and the protocol that it follows.
ghost use Rattle.hand_over.specs.Ways.{Follows};

use crate::rule::Rule;
use rtrb::Protocol;
use std::marker::PhantomData;

/// What goes over a way back: the value first, which comes out at once, so that both ends of the
/// way know it; then what is left of it.
#[derive(Drop)]
pub enum Return<T, L> {
    /// The value.
    Went(T),
    /// What is left of it.
    Left(L),
}

/// What is left of the value is as the rule has it.
pub struct Returns<R> {
    marker: PhantomData<R>,
}

impl<T, L, R: Rule<T, L>> Protocol<Return<T, L>> for Returns<R> {
    ghost allows = { Follows R.leaves };
}
