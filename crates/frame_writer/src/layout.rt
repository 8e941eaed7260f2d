//! Frames, laid out one behind another in a buffer.
ghost use Rattle.std.specs.Prelude.{◌≡◌, ◌+◌, ◌%◌, ◌<◌, ◌≤◌, ◌++◌, drop, length, take};
ghost use Rattle.frame_writer.specs.Frame.{frame, text, two_bytes};
ghost use Rattle.frame_writer.specs.Inner.{ReachesInto, text_len};

use xcp_base::Packets;
use xcp_base::limits::{MAX_DTO, MAX_ODTS};

/// LEN, CTR and the longest packet, in bytes.
const MAX_FRAME: usize = 4 + MAX_DTO;

/// The frames of a sample at their longest, in bytes.
pub const MAX_SAMPLE_BYTES: usize = MAX_ODTS * MAX_FRAME;

/// LEN and CTR.
fn header_of(len: u16, counter: u16) -> [u8; 4]
    ensures { result ≡ two_bytes len ++ two_bytes (counter % 65536) }
{
    let [len_low, len_high] = len.to_le_bytes();
    let [counter_low, counter_high] = counter.to_le_bytes();
    [len_low, len_high, counter_low, counter_high]
}

/// Writes bytes from `at` on, and answers where they end.
pub fn place(room: &mut [u8], at: usize, bytes: &[u8]) -> usize
    requires room { at + length bytes.now ≤ length room.old }
    ensures bytes { take result room.new ≡ take at room.old ++ bytes.now }
    ensures end { result ≡ at + length bytes.now }
    ensures behind { drop result room.new ≡ drop result room.old }
    ensures len { length room.new ≡ length room.old }
{
    let end = at + bytes.len();
    room[at..end].copy_from_slice(bytes);
    end
}

/// Writes the frame of a packet from `at` on, and answers where it ends.
pub fn place_frame(room: &mut [u8], at: usize, counter: u16, packet: &[u8]) -> usize
    requires fits { length packet.now ≤ 65535 }
    requires room { at + 4 + length packet.now ≤ length room.old }
    ensures frame { take result room.new ≡ take at room.old ++ frame counter packet.now }
    ensures end { result ≡ at + 4 + length packet.now }
    ensures behind { drop result room.new ≡ drop result room.old }
    ensures len { length room.new ≡ length room.old }
{
    let header = header_of(packet.len() as u16, counter);
    let body = place(room, at, &header[..]);
    place(room, body, packet)
}

/// Writes the frames of packets from `at` on, the first of them with this counter, and answers
/// where they end.
pub fn place_text(room: &mut [u8], at: usize, counter: u16, packets: &Packets) -> usize
    requires room { at + text_len packets.now ≤ length room.old }
    ensures text { take result room.new ≡ take at room.old ++ text counter packets.now }
    ensures end { result ≡ at + text_len packets.now }
    ensures behind { drop result room.new ≡ drop result room.old }
    ensures len { length room.new ≡ length room.old }
{
    let mut end = at;
    let mut next = counter;
    for packet in packets.iter() {
        end = place_frame(room, end, next, packet);
        next = next.wrapping_add(1);
    }
    end
}

/// How many bytes the frames of packets have: of each packet its length, LEN and CTR, where a body
/// has its length in one byte.
pub fn text_len(packets: &Packets) -> usize
    ensures value { result ≡ text_len packets.now }
    ensures limit { result ≤ MAX_SAMPLE_BYTES }
{
    packets.body().len() + 3 * packets.len()
}

/// How many of the packets' frames are whole in the first `taken` bytes of what is written of them.
pub fn whole_frames(packets: &Packets, taken: usize) -> u16
    requires { taken < text_len packets.now }
    ensures { ReachesInto packets.now taken result }
{
    let mut whole = 0;
    let mut left = taken;
    for packet in packets.iter() {
        let len = 4 + packet.len();
        if left < len {
            return whole;
        }
        left -= len;
        whole += 1;
    }
    whole
}
