//! The outcomes of one look at a control ring for an order.
use channel_ring::Order;

/// What became of a look at a control ring.
#[derive(Clone, Copy, Debug, PartialEq, Eq)]
pub enum Polled {
    /// No order was there.
    Nothing,
    /// The order was taken off and carried out; an order to end is for who holds the sampler.
    Done(Order),
    /// The order was taken off and refused, for another cause than lack of room. The sampler is
    /// unchanged.
    Refused(Order),
    /// The marker of a stop found no room. The order stays at the front, and the list still runs.
    Waiting(Order),
}
