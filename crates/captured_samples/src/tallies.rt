//! What became of the frames of a slave.

use crate::taken::Taken;

/// What became of the frames of a slave.
#[derive(Clone, Copy, Debug, PartialEq, Eq)]
pub struct Tallies {
    /// Frames that were read.
    pub frames: u64,
    /// Whole samples.
    pub samples: u64,
    /// How often frames are missing.
    pub gaps: u64,
    /// Frames that came late, or once more.
    pub behind: u64,
    /// Packets of samples that aren't whole.
    pub left_out: u64,
    /// Packets of lists of which nothing is known.
    pub unknown: u64,
}

impl Tallies {
    /// None.
    pub const NONE: Tallies = Tallies {
        frames: 0,
        samples: 0,
        gaps: 0,
        behind: 0,
        left_out: 0,
        unknown: 0,
    };

    /// Whether the slave doesn't count its frames one by one: of at least 16 that don't follow the
    /// one before, half of all.
    pub fn counts_otherwise(self) -> bool {
        let wrong = self.gaps.saturating_add(self.behind);
        wrong >= 16 && wrong >= self.frames / 2
    }

    /// With one packet more of a sample, of which this became.
    pub fn with(self, taken: Taken) -> Tallies {
        match taken {
            Taken::Whole => Tallies {
                samples: self.samples.saturating_add(1),
                ..self
            },
            Taken::Part => self,
            Taken::LeftOut => Tallies {
                left_out: self.left_out.saturating_add(1),
                ..self
            },
            Taken::Other => Tallies {
                unknown: self.unknown.saturating_add(1),
                ..self
            },
        }
    }
}
