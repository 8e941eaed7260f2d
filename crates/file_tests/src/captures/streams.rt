//! What no program shows of a TCP connection: whether it is over, and how its bytes are handed out
//! step by step.
use crate::same::same;
use datagrams::{NextBytes, Segment, TcpStream};
use std::alloc::Global;
use std::process::Abort;

/// A segment without flags.
fn segment(number: u32, payload: &[u8]) -> Segment<'_> {
    Segment {
        from_port: 5555,
        to_port: 1234,
        number,
        acknowledged: None,
        begins: false,
        ends: false,
        breaks_off: false,
        payload,
    }
}

/// Asks for what comes next until that waits: so many gaps, so many steps that go on. Appends the
/// bytes.
fn hand_out(rt: &impl Abort, stream: &mut TcpStream, bytes: &mut Vec<u8>) -> (usize, usize) {
    let mut gaps: usize = 0;
    let mut steps: usize = 0;
    for _ in 0..256 {
        match stream.next(bytes).expect(rt, "memory") {
            NextBytes::Wait => break,
            NextBytes::Gap => gaps = gaps.saturating_add(1),
            NextBytes::GoOn => steps = steps.saturating_add(1),
        }
    }
    (gaps, steps)
}

/// Takes a segment, and compares what is handed out behind it: gaps, steps that go on, and bytes.
fn comes(
    rt: &impl Abort,
    alloc: Global,
    stream: &mut TcpStream,
    segment: Segment<'_>,
    wanted: (usize, usize, usize),
    row: &str,
) {
    stream.take(&segment).expect(rt, "memory");
    let mut bytes = Vec::new(alloc);
    let (gaps, steps) = hand_out(rt, stream, &mut bytes);
    same(rt, (gaps, steps, bytes.len()), wanted, row, "steps");
}

/// A stream is over once all is handed out that stands before its end.
fn ends(rt: &impl Abort, alloc: Global, stream: &mut TcpStream) {
    let mut syn = segment(99, b"");
    syn.begins = true;
    let mut fin = segment(102, b"cd");
    fin.ends = true;
    let rows = [
        (syn, (0, 0, 0), false, "SYN"),
        (fin, (0, 0, 0), false, "FIN, out of order"),
        (segment(100, b"ab"), (0, 2, 4), true, "what was missing"),
    ];
    for (came, wanted, is_over, row) in rows {
        comes(rt, alloc, stream, came, wanted, row);
        same(rt, stream.is_over(), is_over, row, "over");
    }
}

/// A stream that breaks off hands out what waits behind holes.
fn breaks_off(rt: &impl Abort, alloc: Global, stream: &mut TcpStream) {
    let mut reset = segment(5020, b"uv");
    reset.breaks_off = true;
    let rows = [
        (segment(5000, b"ab"), (0, 1, 2), "the first of a capture"),
        (segment(5014, b"op"), (0, 0, 0), "behind a hole"),
        (reset, (2, 2, 4), "RST"),
    ];
    for (came, wanted, row) in rows {
        comes(rt, alloc, stream, came, wanted, row);
    }
    same(rt, stream.is_over(), true, "RST", "over");
}

/// A hole is passed once over 4 MiB wait behind it.
fn passes_a_hole(rt: &impl Abort, alloc: Global, stream: &mut TcpStream) {
    let payload = [7; 65_536];
    let row = "the first of a capture";
    comes(rt, alloc, stream, segment(0, b"ab"), (0, 1, 2), row);
    let row = "65,536 bytes more behind a hole";
    for i in 0..64 {
        let came = segment(4 + 65_536 * i, &payload);
        comes(rt, alloc, stream, came, (0, 0, 0), row);
    }
    let wanted = (1, 65, 4_194_305);
    let came = segment(4_194_308, b"c");
    comes(rt, alloc, stream, came, wanted, "one byte more");
}

#[test]
fn a_stream_is_handed_out_until_it_is_over(rt: HostRuntime) {
    let alloc = rt.alloc();
    ends(&rt, alloc, &mut TcpStream::new(alloc));
    breaks_off(&rt, alloc, &mut TcpStream::new(alloc));
    passes_a_hole(&rt, alloc, &mut TcpStream::new(alloc));
}
