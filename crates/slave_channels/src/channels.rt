//! All event channels of a slave are made, each with its task.
use crate::Channel;
use frame_ring::FrameSend;
use std::alloc::{AllocError, Global};
use std::marker::Model;
use tasks::Task;

/// The slave's side of each event channel, in their order.
#[derive(Drop)]
pub struct Channels {
    pub(crate) all: Vec<Channel>,
}

impl Model for Channels {
    ghost use Rattle.std.specs.Prelude.{List, length, ◌≤◌};
    ghost use Rattle.xcp_base.specs.declared.limits.TheConstants.{MAX_CHANNELS};
    ghost use Rattle.slave_channels.specs.Channels.{ChannelState};
    ghost use Rattle.slave_channels.specs.Codes.{end_codes};

    ghost Value = { List ChannelState };

    ghost coded = { Prim.hlevel end_codes };

    ghost view = { λ c. c.all.items };

    ghost invariant = { λ c. length c.all.items ≤ MAX_CHANNELS };
}

ghost use Rattle.std.specs.Prelude.{◌≡◌, ◌≤◌, IfOk, length};
ghost use Rattle.xcp_base.specs.declared.limits.TheConstants.{MAX_CHANNELS};
ghost use Rattle.slave_channels.specs.Calls.{AreNew};

impl Channels {
    /// The slave's side of so many event channels, and their tasks, each on a line with its own. No
    /// measurement is there.
    pub fn new(alloc: Global, count: usize) -> Result<(Channels, Vec<Task<FrameSend>>), AllocError>
        requires few { count ≤ MAX_CHANNELS }
        ensures { IfOk result (λ made. AreNew count made.0 made.1.items) }
    {
        let mut all = Vec::with_capacity(alloc, count)?;
        let mut tasks = Vec::with_capacity(alloc, count)?;
        for c in 0..count {
            let (channel, task) = Channel::new(alloc)?;
            all.push_reserved(channel);
            tasks.push_reserved(task);
        }
        Ok((Channels { all }, tasks))
    }

    /// The number of event channels.
    pub fn len(&self) -> usize
        ensures value { result ≡ length self.now }
        ensures limit { result ≤ MAX_CHANNELS }
    {
        self.all.len()
    }
}
