//! The number of an event channel.
ghost use Rattle.std.specs.Prelude.{◌≡◌, ℕ, ◌<◌, ◌↔◌, IfSome, IsSome};
ghost use Rattle.xcp_base.specs.declared.limits.TheConstants.{MAX_CHANNELS};

use crate::limits::MAX_CHANNELS;
use std::marker::Model;

/// The number of an event channel that there may be: it is below `MAX_CHANNELS`. A contract sees it
/// as this number.
#[derive(Clone, Copy, Debug, PartialEq, Eq)]
pub struct ChannelId {
    number: u8,
}

impl Model for ChannelId {
    ghost Value = { ℕ };

    ghost view = { λ c. c.number };

    ghost invariant = { λ c. c.number < MAX_CHANNELS };

    ghost inverse = { λ n. record { number = n } };
}

impl ChannelId {
    /// The event channel of this number, if there may be one.
    pub fn new(number: u8) -> Option<ChannelId>
        ensures there { IsSome result ↔ (number < MAX_CHANNELS) }
        ensures value { IfSome result (λ c. c ≡ number) }
    {
        if (number as u16) < MAX_CHANNELS {
            Some(ChannelId { number })
        } else {
            None
        }
    }

    /// The event channel of this number, of which there is one: its place in a table of all.
    pub fn at(number: usize) -> ChannelId
        requires { number < MAX_CHANNELS }
        ensures { result ≡ number }
    {
        ChannelId {
            number: number as u8,
        }
    }

    /// Its number in a byte, as samples have it.
    pub fn byte(self) -> u8
        ensures value { result ≡ self }
        ensures below { result < MAX_CHANNELS }
    {
        self.number
    }

    /// Its place in a table of all event channels.
    pub fn index(self) -> usize
        ensures value { result ≡ self }
        ensures below { result < MAX_CHANNELS }
    {
        self.number as usize
    }
}
