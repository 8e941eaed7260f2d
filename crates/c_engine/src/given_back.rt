//! What a finish returns to show that a sampler went back, over either kind of ring.
use crate::rule::GivenSampler;
use byte_ring::ByteSend;
use channel_ring::SendHalf;

/// What is left of a sampler was given back to its engine, over rings of items or of bytes.
#[derive(Drop)]
pub enum GivenBack {
    /// Over rings of items.
    Items(GivenSampler<SendHalf>),
    /// Over rings of bytes.
    Bytes(GivenSampler<ByteSend>),
}
