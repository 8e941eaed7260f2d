//! The way of a sampler to C and back, and the rule for what comes back.
use channel_ring::SendEnd;
use hand_over::{ComingBack, Given, Rule, WayBack};
use sampler::{Sampler, SamplerEnd};

/// What comes back: what is left of a sampler.
pub type Left<S> = SamplerEnd<<S as SendEnd>::End>;

/// The end of the way back that a sampler has.
pub type SamplerWay<S> = WayBack<Sampler<S>, Left<S>, LaterPast>;

/// The end that its engine has.
pub type EngineWay<S> = ComingBack<Sampler<S>, Left<S>, LaterPast>;

/// A way on which what is left of a sampler was given back. There is none but of `Lent::finish`: so
/// a call that has one has given it.
pub type GivenSampler<S> = Given<Sampler<S>, Left<S>, LaterPast>;

/// What is left of a sampler has its event channel and its ring, and stands after a past that goes
/// on from what the sampler stood after.
#[derive(Clone, Copy)]
pub struct LaterPast;

impl<S: SendEnd> Rule<Sampler<S>, Left<S>> for LaterPast {
    ghost use Rattle.c_engine.specs.Ways.{IsEndOf};

    ghost leaves = { IsEndOf S.SendEnd S.End.RingEnd };
}
