//! A sample's frames are laid out where they find room, and numbered.
ghost use Rattle.std.specs.Prelude.{◌≡◌, ℕ, ◌+◌, ◌-◌, ◌<◌, ◌≤◌, List, ◌++◌, drop, length, take};
ghost use Rattle.frame_writer.specs.Frame.{text, unnumbered};
ghost use Rattle.frame_ring.specs.Reading.{len_at};
ghost use Rattle.frame_ring.specs.Sending.{AreFrames, AreFramesOf, FrontFits};

use frame_writer::place;

/// LEN and CTR, in bytes.
const HEADER: usize = 4;

/// Where the frame ends that begins at `start`.
fn frame_end(frames: &[u8], start: usize) -> usize
    requires { start + 2 ≤ length frames.now }
    ensures { result ≡ start + 4 + len_at (drop start frames.now) }
{
    start + HEADER + u16::from_le_bytes([frames[start], frames[start + 1]]) as usize
}

/// Frames of a sample, from the first on: how many, and their bytes.
#[derive(Clone, Copy, Debug, PartialEq, Eq)]
pub struct Front {
    pub count: usize,
    pub len: usize,
}

/// How many of these frames find room in so many bytes.
fn front_that_fits(frames: &[u8], count: usize, room: usize) -> Front
    requires { AreFrames frames.now count }
    ensures { (packets : List (List ℕ)) → AreFramesOf frames.now count packets
        → FrontFits packets room result }
{
    if frames.len() <= room {
        return Front {
            count,
            len: frames.len(),
        };
    }
    let mut len = 0;
    for k in 0..count {
        let end = frame_end(frames, len);
        if end > room {
            return Front { count: k, len };
        }
        len = end;
    }
    Front { count, len }
}

/// The bytes of the first so many of these frames.
pub fn front_len(frames: &[u8], count: usize, first: usize) -> usize
    requires frames { AreFrames frames.now count }
    requires few { first ≤ count }
    ensures { (packets : List (List ℕ)) → AreFramesOf frames.now count packets
        → result ≡ length (unnumbered (take first packets)) }
{
    let mut len = 0;
    for k in 0..first {
        len = frame_end(frames, len);
    }
    len
}

/// Numbers a frame that is alone.
fn number_one(frame: &mut [u8], counter: u16)
    requires frame { AreFrames frame.old 1 }
    ensures numbered { (packets : List (List ℕ)) → AreFramesOf frame.old 1 packets
        → frame.new ≡ text counter packets }
    ensures len { length frame.new ≡ length frame.old }
{
    let counter = counter.to_le_bytes();
    place(frame, 2, &counter[..]);
}

/// Numbers so many frames, the first of which gets this counter.
fn number(frames: &mut [u8], count: usize, counter: u16)
    requires frames { AreFrames frames.old count }
    requires few { count < 65536 }
    ensures numbered { (packets : List (List ℕ)) → AreFramesOf frames.old count packets
        → frames.new ≡ text counter packets }
    ensures len { length frames.new ≡ length frames.old }
{
    if count == 1 {
        number_one(frames, counter);
        return;
    }
    let mut at = 0;
    for k in 0..count {
        let end = frame_end(frames, at);
        let counter = counter.wrapping_add(k as u16).to_le_bytes();
        place(frames, at + 2, &counter[..]);
        at = end;
    }
}

/// Lays out as many of these frames as find room from `at` on, numbered, the first with this
/// counter.
pub fn put_frames(out: &mut [u8], at: usize, frames: &[u8], count: usize, counter: u16) -> Front
    requires frames { AreFrames frames.now count }
    requires few { count < 65536 }
    requires place { at ≤ length out.old }
    ensures fits { (packets : List (List ℕ)) → AreFramesOf frames.now count packets
        → FrontFits packets (length out.old - at) result }
    ensures front { (packets : List (List ℕ)) → AreFramesOf frames.now count packets
        → take (at + result.len) out.new
        ≡ take at out.old ++ text counter (take result.count packets) }
    ensures behind { drop (at + result.len) out.new ≡ drop (at + result.len) out.old }
    ensures len { length out.new ≡ length out.old }
{
    let front = front_that_fits(frames, count, out.len() - at);
    let end = place(out, at, &frames[..front.len]);
    number(&mut out[at..end], front.count, counter);
    front
}
