//! The same over either kind of ring, as the close of an engine's handle answers it.
use crate::taken_samplers::TakenSamplers;
use byte_ring::ByteRing;
use channel_ring::SampleRing;

/// What is left of all samplers of an engine came back to it, over rings of items or of bytes.
#[derive(Drop)]
pub enum TakenBack {
    /// Over rings of items.
    Items(TakenSamplers<SampleRing>),
    /// Over rings of bytes.
    Bytes(TakenSamplers<ByteRing>),
}
