//! Rings of bytes: the ends of an event channel's ring, in which each item takes up the bytes of
//! its record and no more.
#![tactic(auto)]

mod byte_left;
mod byte_send;
mod byte_take;
mod decode;
mod first_record;
mod front;
mod held;
pub mod laws;
mod popping;
mod record;
mod ring;

pub use byte_left::ByteLeft;
pub use byte_send::ByteSend;
pub use byte_take::ByteTake;
pub use ring::ByteRing;
