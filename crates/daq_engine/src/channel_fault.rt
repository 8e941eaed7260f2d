//! Why a call about one event channel of an engine is refused.
use std::fmt::Display;
use thiserror::Error;

/// Why an event channel of an engine didn't do what it was asked for.
#[derive(Clone, Copy, Debug, PartialEq, Eq, Error)]
#[error_bound(F: Display)]
pub enum ChannelFault<F> {
    /// There is no such event channel.
    #[error("there is no such event channel")]
    NoChannel,
    /// The channel's sampler refused it.
    #[error("{0}")]
    Refused(F),
}
