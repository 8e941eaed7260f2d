//! A sampler over a ring of any kind, of a store whose samples find room in a value of fixed size.
ghost use Rattle.std.specs.Prelude.{◌≡◌, []};
ghost use Rattle.sampler.specs.History.{Opening};
ghost use Rattle.daq_engine.specs.Opened.{IsSamplerAt};

use channel_ring::SendEnd;
use daq_engine::{plans_of, sampler_over};
use daq_store::Store;
use sampler::Sampler;
use std::alloc::Global;
use std::process::Abort;
use xcp_base::ChannelId;

/// The sampler of an event channel of a store, over a send end through which nothing was sent.
pub fn sampler_by_value<S: SendEnd + Drop>(
    rt: &impl Abort,
    alloc: Global,
    store: &Store,
    c: ChannelId,
    end: S,
) -> Sampler<S>
    requires nothing_sent { S.sent end ≡ [] }
    ensures sampler { (opening : Opening)
        × IsSamplerAt S.SendEnd S.End.RingEnd store.now c end result opening }
{
    let Ok(plans) = plans_of(alloc, store, c) else {
        panic!(rt; "memory");
    };
    if !store.is_by_value() {
        panic!(rt; "samples that need more room");
    }
    sampler_over(store, c, plans, end)
}
