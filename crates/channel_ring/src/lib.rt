//! The ends of an event channel's ring: what samplers and transmitters ask of them, a lock-free
//! ring, and a send end over a vector. And rings of orders: starts and stops of DAQ lists, on their
//! way from a master's thread to that of a sampler.
#![tactic(auto)]

mod control_ended;
mod control_ring;
mod control_send;
mod control_take;
mod ends;
mod fault;
mod item_ends;
mod list_send;
mod order;
mod sample_maker;
mod sample_ring;

pub use control_ended::ControlEnded;
pub use control_ring::ControlRing;
pub use control_send::ControlSend;
pub use control_take::ControlTake;
pub use ends::{Beside, RingEnd, SendEnd, TakeEnd};
pub use fault::RingFault;
pub use item_ends::{ItemSend, ItemTake};
pub use list_send::ListSend;
pub use order::Order;
pub use sample_maker::SampleMaker;
pub use sample_ring::{SampleRing, SendHalf, SendLeft, TakeHalf};
