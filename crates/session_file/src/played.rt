//! What a session that was played leaves: datagrams, parts, account and refusals.
use crate::parts::Parts;
use frame_writer::VecOut;
use slave_channels::Account;

/// What came of a session.
#[derive(Drop)]
pub struct Played {
    /// The bytes that were sent: datagrams one behind another.
    pub sent: VecOut,
    /// Where each datagram ends among these bytes.
    pub ends: Vec<usize>,
    /// What became of the samples, measurement by measurement.
    pub parts: Parts,
    /// The sums of the lists over all measurements.
    pub account: Account,
    /// How many lines were refused: triggers, and packets of the master that were not heard.
    pub refused: u64,
}
