//! The kinds of rings behind the handles of C, each as one value that contracts speak of.
ghost use Rattle.daq_engine.specs.Openings.{is_byte_cap, is_cap};
ghost use Rattle.c_engine.specs.States.{Rings};

use byte_ring::{ByteLeft, ByteRing, ByteSend, ByteTake};
use channel_ring::{RingEnd, SampleRing, SendEnd, SendHalf, SendLeft, TakeEnd, TakeHalf};
use daq_engine::Ring;
use frame_writer::{Out, SinkOut};

/// A kind of ring, over which a handle may hold engines and samplers.
pub trait HeldRing: Ring {
    /// What contracts speak of where they speak of such rings.
    ghost rings: { Rings Self.Send Self.Take Self.Send.End };
}

impl HeldRing for SampleRing {
    ghost rings = { record {
      out = ⟦<SinkOut as Out>⟧;
      give = ⟦<TakeHalf as TakeEnd>⟧;
      send = ⟦<SendHalf as SendEnd>⟧;
      ring = ⟦<SendLeft as RingEnd>⟧;
      may_have = is_cap;
    } };
}

impl HeldRing for ByteRing {
    ghost rings = { record {
      out = ⟦<SinkOut as Out>⟧;
      give = ⟦<ByteTake as TakeEnd>⟧;
      send = ⟦<ByteSend as SendEnd>⟧;
      ring = ⟦<ByteLeft as RingEnd>⟧;
      may_have = is_byte_cap;
    } };
}
