//! Samples in a measurement file, and what the file is told by.
use crate::holds::holds;
use crate::mdf::file_tests::about;
use crate::mdf::group_tests::{RECORD, SAMPLE, columns};
use mdf_file::{MdfFault, MemoryOut};
use mdf_groups::{
    FormFault, Front, GroupFault, GroupFile, PlacedColumn, RecordFault, RecordTime, group_name,
};
use std::alloc::Global;
use std::process::Abort;

/// Adds a group of samples with a time and one of samples without; one whose samples are too short
/// is refused before.
fn add_two(
    rt: &impl Abort,
    alloc: Global,
    file: &mut GroupFile<MemoryOut>,
    columns: &[PlacedColumn<'_>],
) -> (usize, usize) {
    let short = file.add(name(rt, alloc, 0, 1), Front::Seconds, 9, columns);
    let outside = Err(GroupFault::Form(FormFault::Outside));
    holds(rt, short == outside, "samples that are too short");
    let timed = file.add(name(rt, alloc, 0, 1), Front::Seconds, 10, columns);
    let untimed = file.add(name(rt, alloc, 1, 1), Front::Nothing, 10, columns);
    (timed.expect(rt, "a group"), untimed.expect(rt, "a group"))
}

/// Hands each of two groups a sample, and between them two that are refused.
fn hand_samples(rt: &impl Abort, file: &mut GroupFile<MemoryOut>, timed: usize, untimed: usize) {
    let first = file.sample(untimed, RecordTime::Unknown, 3, &SAMPLE);
    holds(rt, first == Ok(()), "a sample without a time");
    let late = file.sample(timed, RecordTime::Unknown, 0, &SAMPLE);
    let wrong = Err(GroupFault::Record(RecordFault::WrongTime));
    holds(rt, late == wrong, "no time");
    let other = file.sample(2, RecordTime::Unknown, 0, &SAMPLE);
    let none = Err(GroupFault::File(MdfFault::NoGroup));
    holds(rt, other == none, "no group");
    let last = file.sample(timed, RecordTime::Seconds(1.5), 1, &SAMPLE);
    holds(rt, last == Ok(()), "a sample with a time");
}

/// A file of two groups, each with one sample; what is refused in between leaves no trace.
fn written(rt: &impl Abort, alloc: Global) -> MemoryOut {
    let columns = columns(rt, alloc);
    let file = GroupFile::new(alloc, about(rt, alloc), MemoryOut::new(alloc));
    let mut file = file.expect(rt, "a file");
    let (timed, untimed) = add_two(rt, alloc, &mut file, &columns);
    hand_samples(rt, &mut file, timed, untimed);
    file.finish().expect(rt, "the end of a file")
}

/// The blocks of records stand behind the 168 bytes of the head, each behind 24 bytes of its own.
fn have_samples(rt: &impl Abort, bytes: &[u8]) {
    holds(rt, bytes.len() > 259, "the length");
    let record = &bytes[192..219];
    holds(rt, record == RECORD.as_slice(), "the first record");
    holds(rt, bytes[248] == 3, "the mark of the second");
    let sample = &bytes[249..259];
    holds(rt, sample == SAMPLE.as_slice(), "the sample of the second");
}

#[test]
fn samples_go_to_their_groups(rt: HostRuntime) {
    let out = written(&rt, rt.alloc());
    have_samples(&rt, out.bytes());
}

/// The name of a group.
fn name(rt: &impl Abort, alloc: Global, list: u16, channel: u16) -> String {
    group_name(alloc, list, channel).expect(rt, "memory")
}

#[test]
fn a_group_has_the_numbers_of_its_list(rt: HostRuntime) {
    let small = name(&rt, rt.alloc(), 3, 12);
    let wanted = "list 3, event 12";
    holds(&rt, small.as_str() == wanted, wanted);
    let great = name(&rt, rt.alloc(), 65535, 0);
    let wanted = "list 65535, event 0";
    holds(&rt, great.as_str() == wanted, wanted);
}

#[test]
fn want_of_memory_is_told(rt: HostRuntime) {
    holds(
        &rt,
        GroupFault::Form(FormFault::Memory).is_memory(),
        "memory for a form",
    );
    holds(
        &rt,
        GroupFault::Record(RecordFault::Memory).is_memory(),
        "memory for a record",
    );
    holds(
        &rt,
        GroupFault::File(MdfFault::Memory).is_memory(),
        "memory for the file",
    );
    holds(
        &rt,
        !GroupFault::Form(FormFault::Outside).is_memory(),
        "a value outside",
    );
    holds(
        &rt,
        !GroupFault::Record(RecordFault::WrongTime).is_memory(),
        "another time",
    );
    holds(
        &rt,
        !GroupFault::File(MdfFault::NoGroup).is_memory(),
        "no group",
    );
}
