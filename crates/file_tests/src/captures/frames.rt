//! What no program shows of a datagram and a segment: whether a datagram is cut, and flags.
use crate::same::same;
use datagrams::{Segment, tcp_in, udp_in};

/// A datagram of 4 bytes from port 5555 to port 1234.
const DATAGRAM: [u8; 12] = [0x15, 0xB3, 0x04, 0xD2, 0, 12, 0, 0, 0xAA, 0xBB, 0xCC, 0xDD];

/// A segment with SYN and ACK, 4 bytes of options, and 2 bytes.
const SEGMENT: [u8; 26] = [
    0x15, 0xB3, 0x04, 0xD2, 0xFF, 0xFF, 0xFF, 0xFE, 0, 0, 0, 0, 0x60, 0x12, 0, 0, 0, 0, 0, 0, 0, 0,
    0, 0, 0xAA, 0,
];

/// How many bytes a datagram carries, and whether some weren't captured.
fn datagram_of(bytes: &[u8]) -> Option<(usize, bool)> {
    let datagram = udp_in(bytes)?;
    Some((datagram.payload.len(), datagram.is_cut))
}

/// What a segment begins, ends and breaks off.
fn flags_of(bytes: &[u8]) -> Option<(bool, bool, bool)> {
    let Segment {
        begins,
        ends,
        breaks_off,
        ..
    } = tcp_in(bytes)?;
    Some((begins, ends, breaks_off))
}

#[test]
fn cuts_and_flags_are_told(rt: HostRuntime) {
    let row = "a datagram on each link";
    same(&rt, datagram_of(&DATAGRAM), Some((4, false)), row, "cut");
    let row = "2 bytes of the payload weren't captured";
    same(
        &rt,
        datagram_of(&DATAGRAM[..10]),
        Some((2, true)),
        row,
        "cut",
    );
    let row = "SYN, ACK, behind 4 bytes of options";
    let wanted = Some((true, false, false));
    same(&rt, flags_of(&SEGMENT), wanted, row, "flags");
}
