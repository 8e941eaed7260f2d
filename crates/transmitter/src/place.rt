//! Where the frames of samples go: to a writer, or into a buffer that may be too short for them.
ghost use Rattle.std.specs.Prelude.{◌≡◌, ℕ, ◌+◌, ◌*◌, ◌<◌, ◌≤◌, List, IfSome, None, false, length};
ghost use Rattle.frame_writer.specs.Frame.{text};
ghost use Rattle.frame_writer.specs.Shown.{OutState};
ghost use Rattle.frame_writer.specs.Writing.{AfterText, WriterState, state_of};
ghost use Rattle.transmitter.specs.Inner.Places.{FindsNone, Lays};

use frame_writer::{FrameWriter, Out, SinkOut};
use xcp_base::Packets;

/// Where the frames of a sample go.
pub(crate) trait Place<O: Out> {
    /// The writer may fail within them.
    ghost may_fail: { Type 0 };

    /// Behind so many bytes of the buffer they find no room.
    ghost no_room: { List ℕ → ℕ → WriterState → List (List ℕ) → Type 0 };

    /// So many frames stand in the buffer from one place to another.
    ghost lays: { OutState → OutState → List ℕ → List ℕ → ℕ → ℕ → ℕ → Type 0 };

    /// Lays all packets out as frames, in a buffer from `at` on, and answers where they end; `None`
    /// if the writer fails, or if they find no room, and then nothing is written.
    fn lay(
        writer: &mut FrameWriter<O>,
        buffer: &mut [u8],
        at: usize,
        packets: &Packets,
    ) -> Option<usize>
        requires was_open { (state_of O.Out writer.old).closed ≡ false }
        requires inside { at ≤ length buffer.old }
        ensures all { IfSome result (λ _. AfterText (state_of O.Out writer.old)
            (state_of O.Out writer.new) packets.now) }
        ensures lays { IfSome result (λ end. lays (state_of O.Out writer.old).out
            (state_of O.Out writer.new).out buffer.old buffer.new at end (length packets.now)) }
        ensures inside { IfSome result (λ end. end ≤ length buffer.old) }

        ensures none { result ≡ None → FindsNone may_fail
            (no_room buffer.old at (state_of O.Out writer.old) packets.now)
            (state_of O.Out writer.old) (state_of O.Out writer.new) packets.now }
        ensures buffer_stays { result ≡ None → buffer.new ≡ buffer.old };
}

/// They go to the writer, and none into a buffer.
pub(crate) struct ToWriter;

impl<O: Out> Place<O> for ToWriter {
    ghost may_fail = { Unit {0} };

    ghost no_room = { λ _ _ _ _. ⊥ };

    ghost lays = { λ _ _ _ _ _ _ _. Unit {0} };

    fn lay(
        writer: &mut FrameWriter<O>,
        _buffer: &mut [u8],
        at: usize,
        packets: &Packets,
    ) -> Option<usize> {
        match writer.send_all(packets) {
            Ok(()) => Some(at),
            Err(_) => None,
        }
    }
}

/// They go into the buffer alone, if it has room for all of them.
pub(crate) struct ToBuffer;

impl Place<SinkOut> for ToBuffer {
    ghost may_fail = { ⊥ };

    ghost no_room = { λ buffer at w qs. length buffer < at + length (text w.counter qs) };

    // each frame has more than four bytes
    ghost lays = { λ a b old new at end n. Lays a b old new at end × (at + 4 * n ≤ end) };

    fn lay(
        writer: &mut FrameWriter<SinkOut>,
        buffer: &mut [u8],
        at: usize,
        packets: &Packets,
    ) -> Option<usize> {
        writer.send_within(buffer, at, packets)
    }
}
