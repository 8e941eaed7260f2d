//! A send end that can't be finished: its sampler is gone then, and nothing else.
ghost use Rattle.std.specs.Prelude.{[]};
ghost use Rattle.channel_ring.specs.Ends.{no_ring};

use channel_ring::{SampleMaker, SendEnd};
use sampler::Sampler;
use std::test::Fail;
use xcp_base::{ChannelId, Item, ListId, StopMark};

/// A send end without any room, of which nothing is left once it is finished.
#[derive(Drop)]
struct NoEnd;

impl SendEnd for NoEnd {
    ghost use Rattle.std.proofs.Common.{arith, refl};
    ghost use Rattle.channel_ring.specs.Making.{by_value};

    type End = Vec<Item>;

    ghost sent = { λ _. [] };

    ghost held = { λ _. 0 };

    ghost free = { λ _. 0 };

    ghost capacity = { λ _. 0 };

    ghost limit = { λ _. by_value };

    ghost ring = { λ _. no_ring };

    ghost is_lost = { λ _. Unit {0} };

    fn offer_sample<M: SampleMaker>(
        &mut self,
        _channel: ChannelId,
        _list: ListId,
        _number: u64,
        _maker: &M,
    ) -> bool {
        false
    }

    fn offer_marker(&mut self, _marker: StopMark) -> bool {
        false
    }

    fn publish(&mut self) {}

    fn room(&mut self) -> usize {
        0
    }

    fn capacity(&self) -> usize {
        0
    }

    fn finish(self) -> Option<Vec<Item>> {
        None
    }

    ghost enough = { λ _. Prim.omega arith };

    ghost least = { λ _. record {
      count = Prim.omega arith;
      packet = Prim.omega arith;
      frames = Prim.omega arith;
    } };

    ghost nothing_held = { λ _ _. refl };
}

#[test]
fn a_sampler_whose_end_is_lost_leaves_nothing(rt: HostRuntime) -> Result<(), Fail> {
    let mut sampler = Sampler::new(0, Vec::new(rt.alloc()), NoEnd, 2, 0);
    let Ok(_) = sampler.trigger(&[0xaa, 0xbb], 0) else {
        return Err(Fail::from("a trigger was refused"));
    };
    match sampler.finish() {
        Some(_) => Err(Fail::from("an end was left")),
        None => Ok(()),
    }
}
