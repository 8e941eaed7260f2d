//! Files that are written record by record.
ghost use Rattle.std.specs.Prelude.{◌≡◌, [], IfSome, None};

use crate::holds::holds;
use crate::mdf::file_tests::{LATER, QUARTERS, about, one, text, two};
use crate::mdf::worked_file::FILE;
use mdf_file::{Limits, MdfFault, MdfOut, MdfWriter, MemoryOut, NewChannel, SeekOut};
use std::alloc::Global;
use std::io::{self, Cursor};
use std::process::Abort;

const SMALL: Limits = Limits {
    group: 18,
    all: 100,
};

const TOGETHER: Limits = Limits {
    group: 100,
    all: 20,
};

/// A file of two groups whose records come in turn, and of one without records.
fn written<O: MdfOut + Drop>(rt: &impl Abort, alloc: Global, out: O, limits: Limits) -> O
    requires { IfSome (O.known out) (λ bytes. bytes ≡ []) }
{
    let about = about(rt, alloc);
    let mut writer = MdfWriter::with_limits(alloc, about, out, limits).expect(rt, "a writer");
    let first = begin(rt, alloc, &mut writer, "10 ms", two(rt, alloc), 9);
    begin(rt, alloc, &mut writer, "never", one(rt, alloc), 2);
    let second = begin(rt, alloc, &mut writer, "event", one(rt, alloc), 2);
    write(rt, &mut writer, first, second);
    writer.finish().expect(rt, "a file")
}

/// Begins a group of these channels.
fn begin<O: MdfOut + Drop>(
    rt: &impl Abort,
    alloc: Global,
    writer: &mut MdfWriter<O>,
    name: &str,
    channels: Vec<NewChannel>,
    record_bytes: u32,
) -> usize {
    let name = text(rt, alloc, name);
    writer
        .group(name, channels, record_bytes)
        .expect(rt, "a group")
}

/// Writes records of two groups in turn.
fn write<O: MdfOut + Drop>(
    rt: &impl Abort,
    writer: &mut MdfWriter<O>,
    first: usize,
    second: usize,
) {
    let rows: [(usize, &[u8]); 4] = [
        (first, &QUARTERS[..9]),
        (first, &QUARTERS[9..]),
        (second, &[0x12, 0x34]),
        (first, &LATER),
    ];
    for (group, bytes) in rows {
        writer.record(group, bytes).expect(rt, "a record");
    }
}

#[test]
fn a_written_file_has_the_bytes_of_the_tables(rt: HostRuntime) {
    let alloc = rt.alloc();
    let out = written(&rt, alloc, MemoryOut::new(alloc), SMALL);
    holds(&rt, out.bytes() == FILE, "in memory");
    let cursor = Cursor::new(Vec::new(alloc));
    let out = written(&rt, alloc, SeekOut::new(cursor), SMALL);
    let bytes = out.into_inner().into_inner();
    holds(&rt, bytes.as_slice() == FILE, "by a cursor");
}

/// That a data block of this length stands at a place.
fn has_data(rt: &impl Abort, bytes: &[u8], place: u16, len: u8) {
    let place = usize::from(place);
    let is_there = bytes.get(place..place + 4) == Some(&b"##DT"[..]);
    holds(rt, is_there, "a data block");
    holds(rt, bytes.get(place + 8) == Some(&len), "its length");
}

#[test]
fn all_that_waits_is_written_at_the_limit_of_all(rt: HostRuntime) {
    let alloc = rt.alloc();
    let out = written(&rt, alloc, MemoryOut::new(alloc), TOGETHER);
    for (place, len) in [(168, 42), (216, 26), (248, 33)] {
        has_data(&rt, out.bytes(), place, len);
    }
}

/// Compares what a new writer answers to groups and records.
fn refuses(rt: &impl Abort, alloc: Global, writer: &mut MdfWriter<MemoryOut>) {
    let none = writer.group(text(rt, alloc, "10 ms"), two(rt, alloc), 0);
    let what = "records of no bytes";
    holds(rt, none == Err(MdfFault::NoRecordBytes), what);
    let first = writer.group(text(rt, alloc, "10 ms"), two(rt, alloc), 9);
    holds(rt, first == Ok(0), "a group");
    let other = writer.record(1, &LATER);
    holds(rt, other == Err(MdfFault::NoGroup), "no group");
    let part = writer.record(0, &LATER[1..]);
    holds(rt, part == Err(MdfFault::PartOfRecord), "part of a record");
    holds(rt, writer.record(0, &LATER) == Ok(()), "a record");
}

#[test]
fn what_is_refused_is_named(rt: HostRuntime) {
    let alloc = rt.alloc();
    let writer = MdfWriter::new(alloc, about(&rt, alloc), MemoryOut::new(alloc));
    refuses(&rt, alloc, &mut writer.expect(&rt, "a writer"));
}

/// An out whose appends fail once so many were made.
#[derive(Drop)]
struct FailingOut<'a> {
    bytes: &'a mut Vec<u8>,
    left: usize,
}

impl MdfOut for FailingOut<'_> {
    ghost known = { λ _. None };

    fn append(&mut self, bytes: &[u8]) -> io::Result<()> {
        if self.left == 0 {
            return Err(io::Error::from(io::ErrorKind::StorageFull));
        }
        self.left -= 1;
        self.bytes.extend_from_slice(bytes)?;
        Ok(())
    }

    fn write_front(&mut self, _front: &[u8]) -> io::Result<()> {
        Err(io::Error::from(io::ErrorKind::StorageFull))
    }
}

/// Compares what a writer answers before its third append fails, and behind that.
fn fails(rt: &impl Abort, alloc: Global, writer: &mut MdfWriter<FailingOut<'_>>) {
    let first = writer.group(text(rt, alloc, "10 ms"), two(rt, alloc), 9);
    holds(rt, first == Ok(0), "a group");
    let wanted = [
        Ok(()),
        Ok(()),
        Err(MdfFault::Unwritten),
        Err(MdfFault::Unwritten),
    ];
    for answer in wanted {
        holds(rt, writer.record(0, &LATER) == answer, "a record");
    }
    let later = writer.group(text(rt, alloc, "event"), one(rt, alloc), 0);
    let what = "a group behind a failure";
    holds(rt, later == Err(MdfFault::Unwritten), what);
}

/// Writes with an out that fails at its third append.
fn write_failing(rt: &impl Abort, alloc: Global, bytes: &mut Vec<u8>) {
    let out = FailingOut { bytes, left: 2 };
    let writer = MdfWriter::with_limits(alloc, about(rt, alloc), out, SMALL);
    let mut writer = writer.expect(rt, "a writer");
    fails(rt, alloc, &mut writer);
    let ended = matches!(writer.finish(), Err(MdfFault::Unwritten));
    holds(rt, ended, "the end behind a failure");
}

#[test]
fn a_writer_that_failed_takes_no_more(rt: HostRuntime) {
    let mut bytes = Vec::new(rt.alloc());
    write_failing(&rt, rt.alloc(), &mut bytes);
    let are_kept = bytes.len() == 192 && bytes.starts_with(b"UnFinMF ");
    holds(&rt, are_kept, "what was written");
}
