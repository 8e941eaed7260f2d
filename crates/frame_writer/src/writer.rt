//! Packets become frames with LEN and CTR, and go to a writer until it fails.
ghost use Rattle.std.specs.Prelude.{◌≡◌, ◌<◌, ◌≤◌, length};
ghost use Rattle.frame_writer.specs.Inner.{BreaksOffAfter};
ghost use Rattle.frame_writer.specs.Shown.{after_bytes, shown};

use crate::layout::{MAX_SAMPLE_BYTES, place_frame};
use crate::out::Out;
use thiserror::Error;
use xcp_base::limits::MAX_DTO;

/// Why a frame was not written.
#[derive(Clone, Copy, Debug, PartialEq, Eq, Error)]
pub enum WriteFault {
    /// In this call the writer failed, or took none of some bytes.
    #[error("the writer failed within a frame")]
    Failed,
    /// It did so earlier, and nothing was written.
    #[error("the writer failed earlier")]
    Closed,
}

/// Writes packets as frames (ASAM MCD-1 XCP, transport layer for Ethernet, header) to a writer,
/// until that fails.
#[derive(Debug, Drop)]
pub struct FrameWriter<O> {
    pub(crate) out: O,
    pub(crate) counter: u16,
    pub(crate) closed: bool,
    // Where frames are laid out before the writer is handed them.
    pub(crate) room: [u8; MAX_SAMPLE_BYTES],
}

impl<O: Out> FrameWriter<O> {
    ghost use Rattle.std.specs.Prelude.{◌≡◌, ◌+◌, ◌%◌, ◌<◌, ◌≤◌, ◌↔◌, false, true, IsErrOf};
    ghost use Rattle.std.specs.Prelude.{OnOk, length};
    ghost use Rattle.frame_writer.specs.Frame.{frame};
    ghost use Rattle.frame_writer.specs.Shown.{shown};
    ghost use Rattle.frame_writer.specs.Writing.{FailsWithin, after_frame, fresh_writer};
    ghost use Rattle.frame_writer.specs.Writing.{out_of, state_of};

    /// A frame writer whose first frame has CTR 0.
    pub fn new(out: O) -> FrameWriter<O>
        ensures value { out_of result ≡ out }
        ensures fresh { state_of O.Out result ≡ fresh_writer (shown O.Out out) }
    {
        FrameWriter {
            out,
            counter: 0,
            closed: false,
            room: [0; MAX_SAMPLE_BYTES],
        }
    }

    /// Writes one packet as a frame. The writer is handed the whole frame, and then what it did not
    /// take.
    ///
    /// Refused with `Closed` exactly if an earlier call failed, and with `Failed` if the
    /// writer fails or stalls in this call: then a proper prefix of the frame was written, and
    /// nothing is written from then on.
    pub fn send(&mut self, packet: &[u8]) -> Result<(), WriteFault>
        requires not_empty { 0 < length packet.now }
        requires fits { length packet.now ≤ MAX_DTO }

        ensures ok { OnOk result
            (state_of O.Out self.new ≡ after_frame (state_of O.Out self.old) packet.now) }
        ensures stays_open { OnOk result ((state_of O.Out self.new).closed ≡ false) }

        ensures failed { IsErrOf result WriteFault.Failed
            → FailsWithin (state_of O.Out self.old) (state_of O.Out self.new)
            (frame (state_of O.Out self.old).counter packet.now) }

        ensures closed { IsErrOf result WriteFault.Closed
            ↔ ((state_of O.Out self.old).closed ≡ true) }
        ensures closed_keeps { IsErrOf result WriteFault.Closed → self.new ≡ self.old }
    {
        if self.closed {
            return Err(WriteFault::Closed);
        }
        let end = place_frame(&mut self.room, 0, self.counter, packet);
        if put_all(&mut self.out, &self.room[..end]) < end {
            self.closed = true;
            return Err(WriteFault::Failed);
        }
        self.counter = self.counter.wrapping_add(1);
        Ok(())
    }

    /// Closes it behind so many whole frames.
    pub(crate) fn break_off(&mut self, whole: u16) -> WriteFault
        ensures fault { result ≡ WriteFault.Failed }
        ensures after { self.new
            ≡ record self.old { counter = (self.old.counter + whole) % 65536; closed = true } }
    {
        self.counter = self.counter.wrapping_add(whole);
        self.closed = true;
        WriteFault::Failed
    }

    /// From now on it goes on with this CTR: for whoever throws frames away that were laid out and
    /// not sent.
    pub fn go_on_at(&mut self, counter: u16)
        ensures { state_of O.Out self.new ≡ record (state_of O.Out self.old) { counter = counter } }
    {
        self.counter = counter;
    }

    /// CTR of the next frame.
    pub fn next_counter(&self) -> u16
        ensures { result ≡ (state_of O.Out self.now).counter }
    {
        self.counter
    }

    /// Whether a call of `send` or `send_all` failed.
    pub fn closed(&self) -> bool
        ensures { result ≡ (state_of O.Out self.now).closed }
    {
        self.closed
    }

    /// The writer, as it stands.
    pub fn into_out(self) -> O
        ensures { result ≡ out_of self }
    {
        self.out
    }
}

/// How many of the bytes the writer took; if not all, it failed or stalled once, at its last call.
pub fn put_all<O: Out>(out: &mut O, bytes: &[u8]) -> usize
    ensures within { result ≤ length bytes.now }
    ensures all { result ≡ length bytes.now
        → shown O.Out out.new ≡ after_bytes (shown O.Out out.old) bytes.now }
    ensures part { result < length bytes.now
        → BreaksOffAfter result (shown O.Out out.old) (shown O.Out out.new) bytes.now }
{
    let mut done = 0;
    while done < bytes.len() {
        match out.put(&bytes[done..]) {
            Ok(0) => return done,
            Ok(n) => done += n,
            Err(_) => return done,
        }
    }
    done
}
