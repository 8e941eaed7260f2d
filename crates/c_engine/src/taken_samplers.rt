//! What came back of the samplers of an engine that was closed.
use channel_ring::SendEnd;
use daq_engine::Ring;
use sampler::SamplerEnd;
use std::marker::Model;
use std::snapshot::Snapshot;

/// What is left of the samplers of an engine that was closed, as it came back, in rising order of
/// their event channels. There is none but of `close`: so a call that has one has told the account
/// of it.
#[derive(Drop)]
pub struct TakenSamplers<R: Ring> {
    pub(crate) ends: Snapshot<Vec<SamplerEnd<<R::Send as SendEnd>::End>>>,
}

impl<R: Ring> Model for TakenSamplers<R> {
    ghost use Rattle.std.specs.Prelude.{List};
    ghost use Rattle.sampler.specs.State.{SamplerEndState};

    ghost Value = { List (SamplerEndState R.Send.End) };

    ghost view = { λ t. t.ends.value.items };
}
