//! The first frame is read off the front of some bytes.
ghost use Rattle.std.specs.Prelude.{◌≡◌, ℕ, ◌++◌, List, IfSome, IsSomeAnd};
ghost use Rattle.frame_writer.specs.Frame.{IsFrame, frame};

/// The first frame of some bytes (ASAM MCD-1 XCP, transport layer for Ethernet, header): its
/// counter, its packet, and the bytes behind it; `None` if the bytes don't begin with a whole frame
/// of LEN at least 1.
pub fn next_frame(bytes: &[u8]) -> Option<(u16, &[u8], &[u8])>
    ensures frame { IfSome result (λ f. bytes.now ≡ frame f.0 f.1.now ++ f.2.now) }
    ensures legal { IfSome result (λ f. IsFrame (f.0, f.1.now)) }
    ensures found { (n : ℕ) (q rest : List ℕ) → IsFrame (n, q) → bytes.now ≡ frame n q ++ rest
        → IsSomeAnd result (λ f. (f.0 ≡ n) × (f.1.now ≡ q) × (f.2.now ≡ rest)) }
{
    let (header, body) = bytes.split_first_chunk::<4>()?;
    let size = u16::from_le_bytes([header[0], header[1]]) as usize;
    let counter = u16::from_le_bytes([header[2], header[3]]);
    if size == 0 || body.len() < size {
        return None;
    }
    let (packet, rest) = body.split_at(size);
    Some((counter, packet, rest))
}
