// Tests the program over memory: output of `make` and `sum`, failed reads, and error lines that don't fit.
use super::support::{WHOLE, same};
use av1_recon::{MemSink, SliceSource, run};
use std::alloc::Global;
use std::process::Abort;

/// The arguments in a line.
fn words_of(rt: &impl Abort, alloc: Global, line: &str) -> Vec<String> {
    let mut words = Vec::new(alloc);
    for word in line.split_whitespace() {
        let word = String::from_str(alloc, word).expect(rt, "memory");
        words.push(word).expect(rt, "memory");
    }
    words
}

/// The output of the program, of at most `room` bytes, for the arguments in a line and no input. Stops the test if the
/// status is not 0.
fn output_of<'a>(rt: &impl Abort, alloc: Global, line: &str, room: usize) -> MemSink<'a> {
    let words = words_of(rt, alloc, line);
    let mut source = SliceSource::new(&[], 1, &[]);
    let mut out = MemSink::new(alloc, room, 65536, &[]).expect(rt, "memory");
    let mut err = MemSink::new(alloc, 100, 100, &[]).expect(rt, "memory");
    let status = run(alloc, &words, &mut source, &mut out, &mut err);
    same(rt, status, 0, line);
    out
}

/// Stops the test if the program does not print the wanted lines.
fn writes(rt: &impl Abort, alloc: Global, line: &str, wanted: &str) {
    let out = output_of(rt, alloc, line, 100);
    same(rt, out.bytes(), wanted.as_bytes(), line);
}

/// The sums that rav1e gives for the plans of five numbers.
const SUMS: [(&str, &str); 5] = [
    ("sum 1", "leaves 304\nY 137004277\nU 33980014\nV 33804601\n"),
    ("sum 2", "leaves 254\nY 131820650\nU 33717348\nV 33925496\n"),
    ("sum 3", "leaves 326\nY 135339078\nU 34688813\nV 35063627\n"),
    ("sum 4", "leaves 323\nY 127568554\nU 33566697\nV 34317898\n"),
    ("sum 5", "leaves 370\nY 130878882\nU 31162854\nV 31869318\n"),
];

#[test]
fn the_sums_of_made_plans_are_those_of_rav1e(rt: HostRuntime) {
    for (line, wanted) in SUMS {
        writes(&rt, rt.alloc(), line, wanted);
    }
}

/// The bytes before the samples of plan number 5, and the first three samples.
const FIVE: [u8; 26] = [
    0x52, 0x50, 0x4C, 0x31, 0, 2, 0, 2, 10, 0, 1, 1, 0, 0, 0, 0, 0, 0, 0, 1, 5, 0, 12, 0, 19, 0,
];

#[test]
fn a_made_plan_begins_with_its_samples(rt: HostRuntime) {
    let out = output_of(&rt, rt.alloc(), "make 5", 900_000);
    let front = out.bytes().get(..26);
    same(&rt, front, Some(FIVE.as_slice()), "the first samples");
    same(&rt, out.bytes().get(786_452), Some(&0), "the first mark");
}

/// Runs the program without arguments, and keeps `room` bytes of its error line. Stops the test if the status or these
/// bytes are not the wanted ones, or if planes are written.
fn ends_with(
    rt: &impl Abort,
    alloc: Global,
    source: &mut SliceSource<'_>,
    room: usize,
    status: u8,
    wanted: &str,
) {
    let mut out = MemSink::new(alloc, 100, 100, &[]).expect(rt, "memory");
    let mut err = MemSink::new(alloc, room, 100, &[]).expect(rt, "memory");
    let given = run(alloc, &[], source, &mut out, &mut err);
    same(rt, given, status, wanted);
    same(rt, err.bytes(), wanted.as_bytes(), wanted);
    same(rt, out.bytes().len(), 0, "bytes of planes");
}

#[test]
fn a_read_that_fails_is_a_read_fault(rt: HostRuntime) {
    let mut source = SliceSource::new(&WHOLE, 65536, &[0]);
    ends_with(&rt, rt.alloc(), &mut source, 100, 4, "read fault\n");
}

#[test]
fn where_lines_find_no_room_the_status_stays(rt: HostRuntime) {
    let mut source = SliceSource::new(&[], 1, &[]);
    ends_with(&rt, rt.alloc(), &mut source, 5, 2, "malfo");
}
