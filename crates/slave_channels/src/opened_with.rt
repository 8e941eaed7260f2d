//! What a part of a measurement was opened with, for contracts alone.
use daq_store::Store;
use std::marker::Model;
use std::snapshot::Snapshot;
use xcp_base::ChannelId;

/// What an event channel's part of a measurement was opened with: the store as it was then, the
/// event channel, and the capacity of its ring in bytes. Contracts alone see it: it has no bytes.
#[derive(Drop)]
pub struct OpenedWith {
    store: Snapshot<Store>,
    channel: Snapshot<ChannelId>,
    cap: Snapshot<usize>,
}

impl Model for OpenedWith {
    ghost use Rattle.slave_channels.specs.Channels.{OpenedState};

    ghost Value = { OpenedState };

    ghost view = { λ o. record {
      store = o.store.value;
      channel = o.channel.value;
      capacity = o.cap.value;
    } };
}

ghost use Rattle.std.specs.Prelude.{◌≡◌};

impl OpenedWith {
    /// What a part is opened with.
    pub fn of(store: &Store, c: ChannelId, cap: usize) -> OpenedWith
        ensures { result ≡ record { store = store.now; channel = c; capacity = cap } }
    {
        OpenedWith {
            store: Snapshot::of(store),
            channel: Snapshot::of(&c),
            cap: Snapshot::of(&cap),
        }
    }
}
