//! One direction of a TCP connection, as frames.

use datagrams::{NextBytes, Segment, TcpStream};
use frame_writer::next_frame;
use std::alloc::{AllocError, Global};

/// The bytes of four frames at their longest: as many say for sure where frames begin.
const MAX_SEARCHED: usize = 4 * 65_539;

/// One direction of a TCP connection: its bytes in order, and whether it is known where frames
/// begin in them.
#[derive(Drop)]
pub struct Flow {
    stream: TcpStream,
    /// Bytes that come next.
    pub bytes: Vec<u8>,
    is_in_step: bool,
}

impl Flow {
    /// Nothing came yet.
    pub fn new(alloc: Global) -> Flow {
        Flow {
            stream: TcpStream::new(alloc),
            bytes: Vec::new(alloc),
            is_in_step: false,
        }
    }

    /// Whether a segment may be one of it, and not of another connection between the same ports.
    pub fn may_have(&self, segment: &Segment<'_>) -> bool {
        self.stream.may_have(segment)
    }

    /// Takes the next segment that came.
    pub fn take(&mut self, segment: &Segment<'_>) -> Result<(), AllocError> {
        if segment.begins {
            self.is_in_step = true;
        }
        self.stream.take(segment)
    }

    /// Whether bytes before this number are still to come.
    pub fn is_short_of(&self, number: u32) -> bool {
        self.stream.is_short_of(number)
    }

    /// What is missing isn't waited for any longer.
    pub fn give_up_holes(&mut self) {
        self.stream.give_up_holes();
    }

    /// Fetches bytes that come next; `false` if none came yet.
    pub fn fetch(&mut self) -> Result<bool, AllocError> {
        match self.stream.next(&mut self.bytes)? {
            NextBytes::Wait => return Ok(false),
            NextBytes::GoOn => {}
            NextBytes::Gap => {
                self.bytes.clear();
                self.is_in_step = false;
            }
        }
        Ok(true)
    }

    /// Goes to where frames begin, and tells whether that is known.
    pub fn find_step(&mut self) -> bool {
        if self.is_at_frame() {
            return true;
        }
        self.is_in_step = false;
        match self.step() {
            Some(at) => {
                self.drop_front(at);
                self.is_in_step = true;
                true
            }
            None => {
                let len = self.bytes.len();
                self.drop_front(len.saturating_sub(MAX_SEARCHED));
                false
            }
        }
    }

    /// Whether it is known that a frame begins here.
    fn is_at_frame(&self) -> bool {
        self.is_in_step && !is_lost(&self.bytes)
    }

    /// Where frames begin, if four do.
    fn step(&self) -> Option<usize> {
        step_in(&self.bytes)
    }

    /// Drops the first `n` bytes, or all.
    pub fn drop_front(&mut self, n: usize) {
        let len = self.bytes.len();
        let n = n.min(len);
        self.bytes.as_mut_slice().copy_within(n..len, 0);
        self.bytes.truncate(len - n);
    }
}

/// Whether no frame begins here: one has a packet of at least a byte.
fn is_lost(bytes: &[u8]) -> bool {
    matches!(bytes, [0, 0, ..])
}

/// The first place at which four frames begin, one behind another, whose counters rise by one.
fn step_in(bytes: &[u8]) -> Option<usize> {
    (0..bytes.len()).find(|at| begins_frames(bytes, *at))
}

/// Whether four frames begin at a place.
fn begins_frames(bytes: &[u8], at: usize) -> bool {
    let Some(first) = bytes.get(at..) else {
        return false;
    };
    let Some((counter, _, rest)) = next_frame(first) else {
        return false;
    };
    goes_on(counter, rest)
}

/// Whether three frames more follow, whose counters rise from this one.
fn goes_on(counter: u16, bytes: &[u8]) -> bool {
    let mut last = counter;
    let mut rest = bytes;
    for _ in 0..3 {
        let Some((counter, _, behind)) = next_frame(rest) else {
            return false;
        };
        if counter != last.wrapping_add(1) {
            return false;
        }
        last = counter;
        rest = behind;
    }
    true
}
