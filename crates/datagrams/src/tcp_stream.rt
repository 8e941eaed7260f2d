//! One direction of a TCP connection.

use crate::limits::{MAX_CAME, MAX_HELD, MAX_SEGMENT};
use crate::next_bytes::NextBytes;
use crate::segment::Segment;
use crate::stretch::{Stretch, reaches};
use std::alloc::{AllocError, Global};
use std::marker::Model;

/// One direction of a TCP connection: what came of it, until it is handed out in order.
#[derive(Drop)]
pub struct TcpStream {
    alloc: Global,
    /// The number of the first byte, once that is known.
    first: Option<u32>,
    /// That of the byte that comes next.
    next: u32,
    /// What waits, in the order in which it came.
    came: Vec<Stretch>,
    /// The number behind the last byte, once that is told.
    end: Option<u32>,
    /// Whether holes are waited for no longer.
    gives_up: bool,
}

impl Model for TcpStream {
    ghost use Rattle.datagrams.specs.TcpStreams.{StreamOf};

    ghost Value = { StreamOf };

    ghost view = { λ a. record {
      first = a.first;
      next = a.next;
      came = a.came.items;
      end = a.end;
      gives_up = a.gives_up;
    } };
}

impl TcpStream {
    ghost use Rattle.std.specs.Prelude.{◌≡◌, ◌↔◌, ◌<◌, ℕ, List, [], length, None, is_some};
    ghost use Rattle.std.specs.Prelude.{false, true, IfOk, IsFalse, IsTrue, OnErr, OnOk};
    ghost use Rattle.std.specs.Prelude.{if◌then◌else◌};
    ghost use Rattle.datagrams.specs.Tcp.{segment_of};
    ghost use Rattle.datagrams.specs.TcpStreams.{HandsOut, IsOver, MayHave, MayWait};
    ghost use Rattle.datagrams.specs.TcpStreams.{byte_numbered, is_short_of, moved_to};
    ghost use Rattle.datagrams.specs.TcpStreams.{with_segment};

    /// None of its segments came yet.
    pub fn new(alloc: Global) -> TcpStream
        ensures { result ≡ record {
          first = None;
          next = 0;
          came = [];
          end = None;
          gives_up = false;
        } }
    {
        TcpStream {
            alloc,
            first: None,
            next: 0,
            came: Vec::new(alloc),
            end: None,
            gives_up: false,
        }
    }

    /// Whether a segment may be one of it: not if it begins a connection, and with another number
    /// than this one. Then it begins another connection between the same ports.
    pub fn may_have(&self, segment: &Segment<'_>) -> bool
        ensures { IsTrue result ↔ MayHave self.now (segment_of segment.now) }
    {
        let Some(first) = self.first else {
            return true;
        };
        !segment.begins || first_of(segment) == first
    }

    /// Takes the next segment that came; its bytes are handed out by `next`. The first segment says
    /// where the stream begins: with its first byte. RST ends the waiting for what is missing; at
    /// FIN that is waited for, since it may be sent again. Out of memory nothing changes.
    pub fn take(&mut self, segment: &Segment<'_>) -> Result<(), AllocError>
        ensures ok { OnOk result (self.new ≡ with_segment self.old (segment_of segment.now)) }
        ensures err { OnErr result (self.new ≡ self.old) }
    {
        let number = first_of(segment);
        let payload = &segment.payload[..segment.payload.len().min(MAX_SEGMENT)];
        let next = self.next_with(number);
        keep(self.alloc, &mut self.came, number, payload, next)?;
        self.next = next;
        self.first = Some(self.first.unwrap_or(number));
        self.end = end_with(self.end, segment.ends, number, payload.len());
        self.gives_up = segment.breaks_off;
        Ok(())
    }

    /// Appends bytes that come next, if they came, or says that they wait, or that there is a gap
    /// before those that are handed out then. It is to be called again until they wait. Out of
    /// memory nothing changes.
    pub fn next(&mut self, out: &mut Vec<u8>) -> Result<NextBytes, AllocError>
        ensures ok { IfOk result (HandsOut self.old self.new out.old.items out.new.items) }
        ensures err { OnErr result (self.new ≡ self.old) }
        ensures out { OnErr result (out.new.items ≡ out.old.items) }
    {
        let Some(place) = place_with(&self.came, self.next) else {
            return Ok(self.at_hole());
        };
        let len = hand_out(&self.came, place, self.next, out)?;
        self.go_to(self.next.wrapping_add(len as u32));
        Ok(NextBytes::GoOn)
    }

    /// The bytes that didn't come before those that did aren't waited for any longer.
    pub fn give_up_holes(&mut self)
        ensures { self.new ≡ record {
          first = self.old.first;
          next = self.old.next;
          came = self.old.came;
          end = self.old.end;
          gives_up = true;
        } }
    {
        self.gives_up = true;
    }

    /// Whether bytes before this number are still to come.
    pub fn is_short_of(&self, number: u32) -> bool
        ensures { result ≡ is_short_of self.now number }
    {
        let ahead = number.wrapping_sub(self.next);
        self.first.is_some() && ahead != 0 && ahead < 0x8000_0000
    }

    /// Whether no more comes: all up to FIN was handed out, or all that came, once holes were given
    /// up.
    pub fn is_over(&self) -> bool
        ensures { IsTrue result ↔ IsOver self.now }
    {
        let Some(end) = self.end else {
            return self.gives_up && self.came.is_empty();
        };
        end == self.next
    }

    /// The number of the byte that comes next, where the first of a segment has this one.
    fn next_with(&self, number: u32) -> u32
        ensures { result ≡ (if is_some self.now.first then self.now.next else number) }
    {
        match self.first {
            Some(_) => self.next,
            None => number,
        }
    }

    /// A hole comes next, or nothing: it is waited for, unless too much waits behind it.
    fn at_hole(&mut self) -> NextBytes
        requires { byte_numbered self.old.came self.old.next ≡ None }
        ensures { (out : List ℕ) → HandsOut self.old self.new out out result }
    {
        if self.waits() {
            return NextBytes::Wait;
        }
        self.next = nearest(&self.came, self.next);
        NextBytes::Gap
    }

    /// Whether a hole is waited for.
    fn waits(&self) -> bool
        ensures may { IsTrue result ↔ MayWait self.now }
        ensures some { IsFalse result → 0 < length self.now.came }
    {
        if self.came.is_empty() {
            return true;
        }
        !self.gives_up && self.came.len() <= MAX_CAME && held(&self.came) <= MAX_HELD
    }

    /// The bytes before a number were handed out.
    fn go_to(&mut self, number: u32)
        ensures { self.new ≡ moved_to self.old number }
    {
        self.next = number;
        drop_before(&mut self.came, number);
    }
}

ghost use Rattle.std.specs.Prelude.{◌≡◌, ◌+◌, ◌%◌, ◌^◌, ◌≤◌, ◌<◌, ℕ, length, None, Some};
ghost use Rattle.std.specs.Prelude.{◌-◌, ◌∷◌, ◌++◌, [], IfOk, IfSome, IsNone, OnErr, OnOk, min};
ghost use Rattle.std.specs.Prelude.{if◌then◌else◌};
ghost use Rattle.std.specs.List.{filter};
ghost use Rattle.datagrams.specs.Inner.{HasFirst, HasNone, IsRun};
ghost use Rattle.datagrams.specs.Tcp.{segment_of};
ghost use Rattle.datagrams.specs.TcpStreams.{IsNearest, byte_numbered, first_number, goes_beyond};
ghost use Rattle.datagrams.specs.TcpStreams.{held as held_of, reaches as reaches_of};

/// The number of the first byte of a segment: that behind SYN, if it has that.
fn first_of(segment: &Segment<'_>) -> u32
    ensures { result ≡ first_number (segment_of segment.now) }
{
    segment.number.wrapping_add(segment.begins as u32)
}

/// The number behind the last byte, if it was told or a segment of so many bytes tells it.
fn end_with(end: Option<u32>, ends: bool, number: u32, len: usize) -> Option<u32>
    requires { len ≤ MAX_SEGMENT }
    ensures { result ≡ (if ends then Some ((number + len) % 2 ^ 32) else end) }
{
    if ends {
        return Some(number.wrapping_add(len as u32));
    }
    end
}

/// Keeps bytes that came, unless all of them stand before the next.
fn keep(
    alloc: Global,
    came: &mut Vec<Stretch>,
    number: u32,
    bytes: &[u8],
    next: u32,
) -> Result<(), AllocError>
    requires { length bytes.now ≤ MAX_SEGMENT }
    ensures ok { OnOk result (came.new.items
        ≡ (if reaches_of number (length bytes.now) next
        then came.old.items ++ record { number = number; bytes = bytes.now } ∷ []
        else came.old.items)) }
    ensures err { OnErr result (came.new.items ≡ came.old.items) }
{
    if !reaches(number, bytes.len(), next) {
        return Ok(());
    }
    came.push(Stretch::from(alloc, number, bytes)?)?;
    Ok(())
}

/// Where the first stands that has the byte of a number.
fn place_with(came: &[Stretch], number: u32) -> Option<usize>
    ensures some { IfSome result (HasFirst came.now number) }
    ensures none { IsNone result → byte_numbered came.now number ≡ None }
{
    for i in 0..came.len() {
        if came[i].has(number) {
            return Some(i);
        }
    }
    None
}

/// Appends bytes from a number on, of those at a place, as far as none before them has one. Returns
/// how many.
fn hand_out(
    came: &[Stretch],
    place: usize,
    number: u32,
    out: &mut Vec<u8>,
) -> Result<usize, AllocError>
    requires { HasFirst came.now number place }
    ensures ok { IfOk result (IsRun came.now number out.old.items out.new.items) }
    ensures few { IfOk result (λ len. len ≤ MAX_SEGMENT) }
    ensures err { OnErr result (out.new.items ≡ out.old.items) }
{
    let first = &came[place];
    let from = first.place_of(number);
    let len = len_before(came, place, number, first.len() - from);
    first.append_to(out, from, len)?;
    Ok(len)
}

/// How many bytes stand before the first of those before a place that is ahead of a number, and at
/// most so many.
fn len_before(came: &[Stretch], place: usize, number: u32, most: usize) -> usize
    requires within { place ≤ length came.now }
    requires some { 0 < most }
    requires none { HasNone came.now place number }
    ensures some { 0 < result }
    ensures few { result ≤ most }
    ensures none { (k : ℕ) → k < result → HasNone came.now place ((number + k) % 2 ^ 32) }
{
    let mut len = most;
    for i in 0..place {
        let ahead = came[i].ahead_of(number);
        if ahead > 0 {
            len = len.min(ahead);
        }
    }
    len
}

/// How many bytes there are.
fn held(came: &[Stretch]) -> usize
    ensures { result ≡ min (held_of came.now) (2 ^ 64 - 1) }
{
    let mut held: usize = 0;
    for i in 0..came.len() {
        held = held.saturating_add(came[i].len());
    }
    held
}

/// The number of the first byte that comes behind a number.
fn nearest(came: &[Stretch], number: u32) -> u32
    requires { 0 < length came.now }
    ensures { IsNearest came.now number result }
{
    let mut nearest = came[0].number();
    for i in 0..came.len() {
        nearest = came[i].nearer(number, nearest);
    }
    nearest
}

/// Lets go of what stands before a number.
fn drop_before(came: &mut Vec<Stretch>, number: u32)
    ensures { came.new.items ≡ filter (goes_beyond number) came.old.items }
{
    let mut i = 0;
    while i < came.len() {
        if came[i].goes_beyond(number) {
            i += 1;
        } else {
            let _before = came.remove(i);
        }
    }
}
