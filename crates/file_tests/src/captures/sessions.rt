//! What no program shows of a session: modes, that no PID was told, at which bits entries begin,
//! packets without bytes, and how many samples were told.
use crate::same::same;
use captured_samples::{KeptSamples, SlaveSamples};
use captured_session::{CapturedList, CapturedSession, Element, Form, Side, list_in};
use std::alloc::Global;
use std::process::Abort;

/// A command, and its reply.
type Exchange<'b> = (&'b [u8], &'b [u8]);

/// A positive reply without parameters.
const DONE: &[u8] = &[0xFF];

/// List 0 of a slave with Intel's byte order.
const INTEL: &[Exchange<'static>] = &[
    (&[0xFF, 0], &[0xFF, 4, 0, 8, 0, 8, 1, 1]),
    (&[0xDA], &[0xFF, 0x51, 2, 0, 1, 0, 0, 0]),
    (&[0xD9], &[0xFF, 1, 8, 1, 8, 0x34, 1, 0]),
    (&[0xD6], DONE),
    (&[0xD5, 0, 1, 0], DONE),
    (&[0xD4, 0, 0, 0, 2], DONE),
    (&[0xD3, 0, 0, 0, 0, 2], DONE),
    (&[0xD3, 0, 0, 0, 1, 1], DONE),
    (&[0xE2, 0, 0, 0, 0, 0], DONE),
    (&[0xE1, 0xFF, 4, 0, 0x10, 0x20, 0x30, 0x40], DONE),
    (&[0xE1, 3, 1, 5, 0x11, 0x20, 0x30, 0x40], DONE),
    (&[0xE2, 0, 0, 0, 1, 0], DONE),
    (&[0xE1, 0xFF, 2, 0, 0x12, 0x20, 0x30, 0x40], DONE),
    (&[0xE0, 0x10, 0, 0, 1, 2, 3, 0], DONE),
    (&[0xDE, 2, 0, 0], &[0xFF, 7]),
];

/// List 258 of a slave with Motorola's.
const MOTOROLA: &[Exchange<'static>] = &[
    (&[0xFF, 0], &[0xFF, 4, 1, 8, 8, 0, 1, 1]),
    (&[0xDA], &[0xFF, 0x11, 0, 2, 0, 1, 0, 0x80]),
    (&[0xD9], &[0xFF, 1, 8, 1, 8, 0x3A, 0, 10]),
    (&[0xD6], DONE),
    (&[0xD5, 0, 1, 3], DONE),
    (&[0xD4, 0, 1, 2, 1], DONE),
    (&[0xD3, 0, 1, 2, 0, 3], DONE),
    (&[0xE2, 0, 1, 2, 0, 0], DONE),
    (
        &[
            0xC7, 2, 0xFF, 4, 0x40, 0x30, 0x20, 0x10, 6, 0, 0xFF, 2, 0x40, 0x30, 0x20, 0x14, 0, 0,
        ],
        DONE,
    ),
    (&[0xE1, 0xFF, 1, 0, 0x40, 0x30, 0x20, 0x16], DONE),
    (&[0xE0, 0, 1, 2, 0, 5, 1, 0], DONE),
];

/// What is said once a set-up is there.
const SAID: &[(Side, &[u8], Option<&[u8]>, bool, &str)] = &[
    (Side::Master, &[0xFD], Some(&[0xFD]), true, "GET_STATUS"),
    (Side::Slave, &[], Some(&[0xFD]), true, "nothing"),
    (Side::Slave, &[0xFE, 0x10], None, true, "an error"),
    (
        Side::Master,
        &[],
        None,
        false,
        "a place where some may be missing",
    ),
];

/// Hears commands, each with its reply.
fn hear_all(rt: &impl Abort, session: &mut CapturedSession, rows: &[Exchange<'_>]) {
    for (command, reply) in rows {
        session.hear(Side::Master, command).expect(rt, "a command");
        session.hear(Side::Slave, reply).expect(rt, "a reply");
    }
}

/// A session of commands, each with its reply.
fn session_of(rt: &impl Abort, alloc: Global, rows: &[Exchange<'_>]) -> CapturedSession {
    let mut session = CapturedSession::new(alloc, Form::UNTOLD);
    hear_all(rt, &mut session, rows);
    session
}

/// Hears what a slave says in a frame of this number, and hands its samples over.
fn hear_slave(
    rt: &impl Abort,
    samples: &mut SlaveSamples,
    kept: &mut KeptSamples,
    counter: u16,
    packet: &[u8],
) {
    let heard = samples.hear_slave(counter, packet, kept);
    heard.expect(rt, "a slave's frame");
}

/// Hears a command and its reply, each in a frame of this number.
fn hear_both(
    rt: &impl Abort,
    samples: &mut SlaveSamples,
    kept: &mut KeptSamples,
    counter: u16,
    exchange: Exchange<'_>,
) {
    let (command, reply) = exchange;
    let heard = samples.hear_master(counter, command);
    heard.expect(rt, "a master's frame");
    hear_slave(rt, samples, kept, counter, reply);
}

/// Hears Intel's set-up, and a sample of two packets behind it.
fn hear_sample(rt: &impl Abort, samples: &mut SlaveSamples, kept: &mut KeptSamples) {
    let mut counter: u16 = 0;
    for exchange in INTEL {
        hear_both(rt, samples, kept, counter, *exchange);
        counter = counter.wrapping_add(1);
    }
    let packet = [7, 0, 0, 0, 0, 1, 2, 3, 4, 5];
    hear_slave(rt, samples, kept, counter, &packet);
    hear_slave(rt, samples, kept, counter.wrapping_add(1), &[8, 6, 7]);
}

/// How many samples and frames were told, and how many were handed over, behind Intel's set-up and
/// a sample.
fn told_samples(rt: &impl Abort, alloc: Global) -> (u64, u64, usize, bool) {
    let mut samples = SlaveSamples::new(alloc, Form::UNTOLD);
    let mut kept = KeptSamples::new(alloc);
    hear_sample(rt, &mut samples, &mut kept);
    let tallies = samples.tallies();
    let handed_over = kept.samples.len();
    (tallies.samples, tallies.frames, handed_over, kept.is_short)
}

/// An entry.
fn element(bit: u8, size: u8, extension: u8, address: u32) -> Element {
    Element {
        bit,
        size,
        extension,
        address,
    }
}

/// What is known of a list: its mode's bits, event channel and prescaler, its first PID, and the
/// entries of its first ODT.
type Known<'k> = ((u8, u16, u8), Option<u8>, &'k [Element]);

/// Compares what a list shows with what is known of it.
fn list_shows(rt: &impl Abort, list: &CapturedList, known: Known<'_>, row: &str) {
    let (wanted, first_pid, entries) = known;
    let mode = list.mode();
    let numbers = (mode.bits, mode.channel, mode.prescaler);
    same(rt, numbers, wanted, row, "mode");
    same(rt, list.first_pid(), first_pid, row, "first PID");
    if list.odts() > 0 {
        same(rt, list.entries(0), entries, row, "entries");
    }
}

/// A list of a session, if all is known of it.
fn list_of(
    rt: &impl Abort,
    alloc: Global,
    session: &CapturedSession,
    list: u16,
) -> Option<CapturedList> {
    list_in(alloc, session.set_up(), list).expect(rt, "memory")
}

/// Compares a list of the session of commands, each with its reply.
fn session_has(
    rt: &impl Abort,
    alloc: Global,
    exchanges: &[Exchange<'_>],
    number: u16,
    known: Known<'_>,
    row: &str,
) {
    let session = session_of(rt, alloc, exchanges);
    let list = list_of(rt, alloc, &session, number);
    list_shows(rt, &list.expect(rt, "all of the list"), known, row);
}

/// Says what is said once a set-up is there: compares the command that waits for its reply, and
/// whether the list is still known.
fn goes_on(rt: &impl Abort, alloc: Global, session: &mut CapturedSession) {
    for (side, packet, waiting, wanted, row) in SAID {
        session.hear(*side, packet).expect(rt, "a packet");
        same(rt, session.waiting(), *waiting, row, "waiting");
        let is_known = list_of(rt, alloc, session, 0).is_some();
        same(rt, is_known, *wanted, row, "known");
    }
}

#[test]
fn a_session_is_known(rt: HostRuntime) {
    let alloc = rt.alloc();
    let intel = [
        element(0xFF, 4, 0, 0x4030_2010),
        element(3, 1, 5, 0x4030_2011),
    ];
    let known: Known<'_> = ((0x10, 0x0201, 3), Some(7), &intel);
    session_has(&rt, alloc, INTEL, 0, known, "Intel");
    let motorola = [
        element(0xFF, 4, 6, 0x4030_2010),
        element(0xFF, 2, 0, 0x4030_2014),
        element(0xFF, 1, 0, 0x4030_2016),
    ];
    let known: Known<'_> = ((0, 5, 1), None, &motorola);
    session_has(&rt, alloc, MOTOROLA, 0x0102, known, "Motorola");
    goes_on(&rt, alloc, &mut session_of(&rt, alloc, INTEL));
    let told = told_samples(&rt, alloc);
    same(&rt, told, (1, 17, 1, false), "a sample", "samples told");
}
