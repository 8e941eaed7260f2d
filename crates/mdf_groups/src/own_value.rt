//! A value that stands behind the bytes of a sample.
ghost use Rattle.std.specs.Prelude.{◌≡◌, length};
ghost use Rattle.mdf_groups.specs.Records.{LiesIn, own_raw, whole_number};

use measured_values::{Encoding, Raw, raw_of};

/// A value that MDF can't find among the bytes of a sample: it stands behind them as a whole
/// number.
#[derive(Clone, Copy, Debug, PartialEq, Eq)]
pub struct OwnValue {
    pub encoding: Encoding,
    /// The place of its first byte in the sample.
    pub at: u32,
}

impl OwnValue {
    /// The whole number that it is in a sample.
    pub fn number_in(&self, sample: &[u8]) -> u64
        requires { LiesIn (length sample.now) self.now }
        ensures { result ≡ whole_number (own_raw sample.now self.now) }
    {
        let at = self.at as usize;
        let bytes = &sample[at..at + self.encoding.data_type.size()];
        let Some(raw) = raw_of(self.encoding, bytes) else {
            unreachable!();
        };
        whole_number(raw)
    }
}

/// A raw value as a whole number, modulo 2^64; 0 of a float.
fn whole_number(raw: Raw) -> u64
    ensures { result ≡ whole_number raw }
{
    match raw {
        Raw::Unsigned(number) => number,
        Raw::Signed(number) => number.cast_unsigned(),
        Raw::Single(_) | Raw::Double(_) => 0,
    }
}
