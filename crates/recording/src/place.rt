//! Places in a recording, by the bytes and the frames before them.
ghost use Rattle.std.specs.Prelude.{◌≡◌};
ghost use Rattle.recording.specs.Pieces.{counter_at, place_behind};

/// A place in a recording, in front of a frame.
#[derive(Clone, Copy, Debug, PartialEq, Eq)]
pub struct Place {
    /// The bytes before it, modulo 2^64.
    pub byte: u64,
    /// The frames before it, those of the replies among them, modulo 2^64.
    pub frame: u64,
}

impl Place {
    /// The place behind some frames of so many bytes.
    pub fn behind(self, bytes: usize, frames: u16) -> Place
        ensures { result ≡ place_behind self bytes frames }
    {
        Place {
            byte: self.byte.wrapping_add(bytes as u64),
            frame: self.frame.wrapping_add(frames as u64),
        }
    }

    /// The counter of the frame.
    pub fn counter(self) -> u16
        ensures { result ≡ counter_at self }
    {
        (self.frame % 65_536) as u16
    }
}
