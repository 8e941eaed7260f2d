//! Bytes of a connection that came.

use crate::limits::MAX_SEGMENT;
use std::alloc::{AllocError, Global};
use std::marker::Model;

/// Bytes of a connection that came, by the sequence number of the first.
#[derive(Drop)]
pub struct Stretch {
    number: u32,
    bytes: Vec<u8>,
}

impl Model for Stretch {
    ghost use Rattle.std.specs.Prelude.{◌≤◌, ◌<◌, ◌^◌, length};
    ghost use Rattle.datagrams.specs.TcpStreams.{StretchOf};
    ghost use Rattle.datagrams.specs.declared.limits.TheConstants.{MAX_SEGMENT};

    ghost Value = { StretchOf };

    ghost view = { λ a. record { number = a.number; bytes = a.bytes.items } };

    ghost invariant = { λ a. (a.number < 2 ^ 32) × (length a.bytes.items ≤ MAX_SEGMENT) };
}

impl Stretch {
    ghost use Rattle.std.specs.Prelude.{◌≡◌, ◌+◌, ◌≤◌, ◌<◌, ◌^◌, ◌++◌, length, slice_range};
    ghost use Rattle.std.specs.Prelude.{IfOk, OnErr, OnOk, if◌then◌else◌, nat_lt};
    ghost use Rattle.datagrams.specs.TcpStreams.{ahead_of, goes_beyond};

    /// These bytes, from this number on.
    pub fn from(alloc: Global, number: u32, bytes: &[u8]) -> Result<Stretch, AllocError>
        requires { length bytes.now ≤ MAX_SEGMENT }
        ensures { IfOk result (λ it. it ≡ record { number = number; bytes = bytes.now }) }
    {
        Ok(Stretch {
            number,
            bytes: Vec::from_slice(alloc, bytes)?,
        })
    }

    /// How many there are.
    pub fn len(&self) -> usize
        ensures value { result ≡ length self.now.bytes }
        ensures few { length self.now.bytes ≤ MAX_SEGMENT }
    {
        self.bytes.len()
    }

    /// The number of the first.
    pub fn number(&self) -> u32
        ensures { result ≡ self.now.number }
    {
        self.number
    }

    /// Of its own number and another, the one that is nearer to a number before both.
    pub fn nearer(&self, number: u32, other: u32) -> u32
        ensures { result ≡ (if nat_lt (ahead_of number self.now.number) (ahead_of number other)
            then self.now.number else other) }
    {
        if self.number.wrapping_sub(number) < other.wrapping_sub(number) {
            self.number
        } else {
            other
        }
    }

    /// Whether one of them has a number.
    pub fn has(&self, number: u32) -> bool
        ensures { result ≡ nat_lt (ahead_of self.now.number number) (length self.now.bytes) }
    {
        self.place_of(number) < self.bytes.len()
    }

    /// How far the first is ahead of a number.
    pub fn ahead_of(&self, number: u32) -> usize
        ensures value { result ≡ ahead_of number self.now.number }
        ensures range { self.now.number < 2 ^ 32 }
    {
        self.number.wrapping_sub(number) as usize
    }

    /// How far a number is ahead of the first.
    pub fn place_of(&self, number: u32) -> usize
        ensures value { result ≡ ahead_of self.now.number number }
        ensures range { result < 2 ^ 32 }
    {
        number.wrapping_sub(self.number) as usize
    }

    /// Whether one of them doesn't stand before a number.
    pub fn goes_beyond(&self, number: u32) -> bool
        ensures { result ≡ goes_beyond number self.now }
    {
        reaches(self.number, self.bytes.len(), number)
    }

    /// Appends some of them, from a place on.
    pub fn append_to(&self, out: &mut Vec<u8>, from: usize, len: usize) -> Result<(), AllocError>
        requires { from + len ≤ length self.now.bytes }
        ensures ok { OnOk result
            (out.new.items ≡ out.old.items ++ slice_range self.now.bytes from (from + len)) }
        ensures err { OnErr result (out.new.items ≡ out.old.items) }
    {
        out.extend_from_slice(&self.bytes[from..from + len])?;
        Ok(())
    }
}

ghost use Rattle.std.specs.Prelude.{◌≡◌};
ghost use Rattle.datagrams.specs.TcpStreams.{reaches as reaches_of};

/// Half of all sequence numbers: what is farther ahead than that is behind.
const HALF: u32 = 2_147_483_648;

/// Whether one of so many bytes, from this number on, doesn't stand before another number.
pub fn reaches(first: u32, len: usize, number: u32) -> bool
    ensures { result ≡ reaches_of first len number }
{
    let behind = number.wrapping_sub(first);
    len > 0 && (behind >= HALF || (behind as usize) < len)
}
