//! What no program shows of a capture's packets: how long they were, how their times are told, and
//! how many bytes are wanted next.
use crate::same::same;
use capture::{CaptureReader, Captured, Step};
use std::alloc::Global;

/// A file of libpcap in microseconds, least significant byte first: 3 of 4 bytes at 1.000002 s.
const MICROSECONDS: [u8; 43] = [
    0xD4, 0xC3, 0xB2, 0xA1, 2, 0, 4, 0, 0, 0, 0, 0, 0, 0, 0, 0, 0xFF, 0xFF, 0, 0, 1, 0, 0, 0, 1, 0,
    0, 0, 2, 0, 0, 0, 3, 0, 0, 0, 4, 0, 0, 0, 0xAA, 0xBB, 0xCC,
];

/// One in nanoseconds, most significant byte first, of raw IP: 1 of 1 byte at 1.000000002 s.
const NANOSECONDS: [u8; 41] = [
    0xA1, 0xB2, 0x3C, 0x4D, 0, 2, 0, 4, 0, 0, 0, 0, 0, 0, 0, 0, 0, 0, 0xFF, 0xFF, 0, 0, 0, 101, 0,
    0, 0, 1, 0, 0, 0, 2, 0, 0, 0, 1, 0, 0, 0, 1, 0x45,
];

/// A section of pcapng, least significant byte first, with an interface that counts nanoseconds
/// since 1 s before; a block of names; an enhanced and a simple packet.
const SECTION: [u8; 144] = [
    0x0A, 0x0D, 0x0D, 0x0A, 28, 0, 0, 0, 0x4D, 0x3C, 0x2B, 0x1A, 1, 0, 0, 0, 0xFF, 0xFF, 0xFF,
    0xFF, 0xFF, 0xFF, 0xFF, 0xFF, 28, 0, 0, 0, 1, 0, 0, 0, 44, 0, 0, 0, 1, 0, 0, 0, 2, 0, 0, 0, 9,
    0, 1, 0, 9, 0, 0, 0, 14, 0, 8, 0, 0xFF, 0xFF, 0xFF, 0xFF, 0xFF, 0xFF, 0xFF, 0xFF, 0, 0, 0, 0,
    44, 0, 0, 0, 4, 0, 0, 0, 16, 0, 0, 0, 0, 0, 0, 0, 16, 0, 0, 0, 6, 0, 0, 0, 36, 0, 0, 0, 0, 0,
    0, 0, 1, 0, 0, 0, 2, 0, 0, 0, 3, 0, 0, 0, 4, 0, 0, 0, 0xAA, 0xBB, 0xCC, 0, 36, 0, 0, 0, 3, 0,
    0, 0, 20, 0, 0, 0, 9, 0, 0, 0, 0xAA, 0xBB, 0, 0, 20, 0, 0, 0,
];

/// The header of a file of libpcap, most significant byte first, and a record of 3 bytes, of which
/// 2 are there.
const RECORD: [u8; 42] = [
    0xA1, 0xB2, 0xC3, 0xD4, 0, 2, 0, 4, 0, 0, 0, 0, 0, 0, 0, 0, 0, 0, 0xFF, 0xFF, 0, 0, 0, 1, 0, 0,
    0, 0, 0, 0, 0, 0, 0, 0, 0, 3, 0, 0, 0, 3, 0xAA, 0xBB,
];

/// What is shown of a packet: its link type, its ticks, resolution and offset, how many bytes it
/// had, and how many were kept.
type Shown = (u16, Option<(u64, u8, i64)>, u32, usize);

/// What is told of a file: a packet, or how many bytes were taken, and how many are wanted.
type Told = Result<Shown, (usize, usize)>;

/// What is shown of a packet.
fn shown(packet: Captured<'_>) -> Shown {
    let time = match packet.time {
        Some(time) => Some((time.ticks, time.resolution, time.offset)),
        None => None,
    };
    (packet.link, time, packet.original, packet.bytes.len())
}

/// What is shown of the packet at a place in a file, from 0, or else how many bytes were taken, and
/// how many are wanted.
fn packet_at(alloc: Global, file: &[u8], place: usize) -> Told {
    let mut reader = CaptureReader::new(alloc);
    let mut rest = file;
    let mut at: usize = 0;
    for _ in 0..16 {
        match reader.next(rest) {
            Ok(Step::Packet(taken, packet)) => {
                if at == place {
                    return Ok(shown(packet));
                }
                at = at.saturating_add(1);
                rest = &rest[taken..];
            }
            Ok(Step::Passed(taken)) => rest = &rest[taken..],
            Ok(Step::Wants(least)) => return Err((file.len().saturating_sub(rest.len()), least)),
            Err(_) => break,
        }
    }
    Err((0, 0))
}

/// A file, a packet's place in it, and what is told.
const ROWS: &[(&[u8], usize, Told, &str)] = &[
    (
        &MICROSECONDS,
        0,
        Ok((1, Some((1_000_002, 6, 0)), 4, 3)),
        "microseconds",
    ),
    (
        &MICROSECONDS,
        1,
        Err((43, 16)),
        "microseconds, nothing left",
    ),
    (
        &NANOSECONDS,
        0,
        Ok((101, Some((1_000_000_002, 9, 0)), 1, 1)),
        "nanoseconds",
    ),
    (
        &SECTION,
        0,
        Ok((1, Some((4_294_967_298, 9, -1)), 4, 3)),
        "enhanced packet block",
    ),
    (
        &SECTION,
        1,
        Ok((1, None, 9, 2)),
        "simple packet block, cut to 2 bytes",
    ),
];

/// How many bytes there are of a record, and what is told.
const FRONTS: &[(usize, Told, &str)] = &[
    (0, Err((0, 12)), "nothing"),
    (11, Err((0, 12)), "11 bytes"),
    (12, Err((0, 24)), "12 bytes"),
    (23, Err((0, 24)), "23 bytes"),
    (24, Err((24, 16)), "the header"),
    (
        42,
        Err((24, 19)),
        "a record of 3 bytes, of which 2 are there",
    ),
];

#[test]
fn packets_are_told_and_bytes_wanted(rt: HostRuntime) {
    for (file, place, wanted, row) in ROWS {
        let packet = packet_at(rt.alloc(), file, *place);
        same(&rt, packet, *wanted, row, "packet");
    }
    for (len, wanted, row) in FRONTS {
        let front = RECORD.get(..*len).expect(&rt, row);
        let packet = packet_at(rt.alloc(), front, 0);
        same(&rt, packet, *wanted, row, "packet");
    }
}
