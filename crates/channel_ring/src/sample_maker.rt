//! What makes the packets of a sample, where they are wanted.
ghost use Rattle.std.specs.Prelude.{◌≡◌, ℕ, ◌+◌, ◌≤◌, List, ◌++◌, length, take};
ghost use Rattle.channel_ring.specs.Making.{ArePackets, FitsSample, by_value};
ghost use Rattle.frame_writer.specs.Frame.{unnumbered};
ghost use Rattle.xcp_base.specs.declared.limits.TheConstants.{SLACK};

use xcp_base::Packets;

/// What makes the packets of a sample where a ring wants them: in a value of fixed size, or as the
/// frames in which they will be sent.
pub trait SampleMaker {
    /// The packets of the sample.
    ghost packets: { Self → List (List ℕ) };

    /// The number of packets.
    fn count(&self) -> u8
        ensures { result ≡ length (packets self.now) };

    /// The bytes of their frames.
    fn frames_len(&self) -> usize
        ensures { result ≡ length (unnumbered (packets self.now)) };

    /// Puts the packets into a value of fixed size, whatever packets it has. It takes no memory.
    fn fill(&self, sample: &mut Packets)
        requires fits { FitsSample by_value (packets self.now) }
        ensures { sample.new ≡ packets self.now };

    /// Writes the frames, each with a CTR of 0, from a place on, and answers where they end. It
    /// takes no memory. Up to `SLACK` bytes behind them may be written over, so that words can be
    /// written whole; what they are is not said.
    fn lay_frames(&self, out: &mut [u8], at: usize) -> usize
        requires room { at + length (unnumbered (packets self.now)) + SLACK ≤ length out.old }
        ensures end { result ≡ at + length (unnumbered (packets self.now)) }
        ensures front { take result out.new ≡ take at out.old ++ unnumbered (packets self.now) }
        ensures len { length out.new ≡ length out.old };

    /// They keep to the limits.
    ghost within: { (s : Self) → ArePackets (packets s) };
}
