//! How far bytes reach into a frame (ASAM MCD-1 XCP, transport layer for Ethernet, header).
ghost use Rattle.std.specs.Prelude.{◌≡◌};
ghost use Rattle.frame_writer.specs.Reach.{is_bad_len, reach};

/// How far bytes that begin a frame reach.
#[derive(Clone, Copy)]
pub enum Reach {
    /// Bytes of it are still to come.
    Part,
    /// To its end, or further.
    Whole,
    /// LEN is there, and is 0 or over MAX_CTO.
    Bad,
}

/// How far some bytes reach into the frame that they begin, if packets have at most `max_cto`
/// bytes.
pub fn how_far(bytes: &[u8], max_cto: u8) -> Reach
    ensures { result ≡ reach max_cto bytes.now }
{
    match bytes {
        [low, high, rest @ ..] => {
            let len = u16::from_le_bytes([*low, *high]);
            if is_bad_len(len, max_cto) {
                return Reach::Bad;
            }
            if rest.len() < 2 + len as usize {
                return Reach::Part;
            }
            Reach::Whole
        }
        _ => Reach::Part,
    }
}

/// Whether LEN is 0 or over MAX_CTO.
fn is_bad_len(len: u16, max_cto: u8) -> bool
    ensures { result ≡ is_bad_len max_cto len }
{
    len == 0 || len > max_cto as u16
}
