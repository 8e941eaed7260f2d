//! What goes over the ring of a line, and the protocol that it follows.
ghost use Rattle.hand_over.specs.Lines.{Comes};

use crate::known::Known;
use crate::rule::Rule;
use crossbeam_queue::Pass;
use rtrb::Protocol;
use std::marker::PhantomData;

/// What goes over the ring of a line: at the opening a pass of the line's place, which comes out at
/// once, so that both ends of the ring know it; then what is left of each value, with a pass that
/// shows which values were fetched.
#[derive(Drop)]
pub enum Parcel<T, L> {
    /// A pass of the place.
    Begun(Pass<T, Known<T>>),
    /// What is left of a value.
    Back(L, Pass<T, Known<T>>),
}

/// What comes is left of the values that were fetched, one behind another, as the rule has it.
pub struct Backs<R> {
    marker: PhantomData<R>,
}

impl<T, L, R: Rule<T, L>> Protocol<Parcel<T, L>> for Backs<R> {
    ghost allows = { Comes R.leaves };
}
