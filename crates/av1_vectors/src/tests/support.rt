// What the tests share: worked plans, tables of plans as text, and comparisons that stop a test.
ghost use Rattle.std.specs.Prelude.{◌≤◌};
ghost use Rattle.av1_frame.specs.Regions.{InStorage};

use av1_frame::PlaneRegionMut;
use av1_recon::{MemSink, SliceSource, reconstruct_plan};
use std::alloc::Global;
use std::fmt::Debug;
use std::process::Abort;

/// An 8x8 frame in 4:4:4 at depth 8, split down to four leaves of 4x4. All are predicted by DC, and the first has the
/// coefficient 100 at place 0 of its luma block.
pub const PLAN: [u8; 83] = [
    0x52, 0x50, 0x4C, 0x31, 8, 0, 8, 0, 8, 2, 0, 0, 0, 0, 0, 0, 0, 0, 0, 0, // the header
    3, 3, 3, 3, // the marks
    0, 0, 0, 0, 0, 0, 0, 1, 0, 0, 0, 0, 100, 0, 0, 0, 0, 0, 0, 0, // the first leaf
    0, 0, 0, 0, 0, 0, 0, 0, 0, 0, 0, 0, 0, // the second
    0, 0, 0, 0, 0, 0, 0, 0, 0, 0, 0, 0, 0, // the third
    0, 0, 0, 0, 0, 0, 0, 0, 0, 0, 0, 0, 0, // the fourth
];

/// An 8x8 frame in 4:2:0 at depth 8, of one leaf that is predicted by DC.
pub const WHOLE: [u8; 34] = [
    0x52, 0x50, 0x4C, 0x31, 8, 0, 8, 0, 8, 0, 0, 0, 0, 0, 0, 0, 0, 0, 0, 0, // the header
    0, // the mark
    0, 0, 0, 0, 4, 0, 0, 0, 0, 0, 0, 0, 0, // the leaf
];

/// How many bytes the planes of `PLAN` have.
pub const PLANES: usize = 192;

/// Whether these are the planes of `PLAN`.
pub fn are_planes(bytes: &[u8]) -> bool {
    let mut planes = [128; PLANES];
    planes[..64].fill(131);
    bytes == planes.as_slice()
}

/// Stops the test if two values differ, and prints both, and what was tried.
pub fn same<T: PartialEq + Debug + Copy>(rt: &impl Abort, given: T, wanted: T, what: &str) {
    assert_eq!(rt; given, wanted, "{what}");
}

/// As `same`, for a text and what `Debug` prints of a value.
pub fn prints(rt: &impl Abort, alloc: Global, value: &impl Debug, wanted: &str, what: &str) {
    let text = format!(in alloc; "{value:?}").expect(rt, "memory");
    same(rt, text.as_str(), wanted, what);
}

/// Adds a byte for each number of a list such as `0,10,20`, and the letters of an item that is not a number.
fn push_items(rt: &impl Abort, bytes: &mut Vec<u8>, items: &str) {
    for item in items.split(',') {
        match item.parse::<u8>() {
            Ok(byte) => bytes.push(byte).expect(rt, "memory"),
            Err(_) => bytes
                .extend_from_slice(item.as_bytes())
                .expect(rt, "memory"),
        }
    }
}

/// Adds the bytes of a word: a list, and how often it is repeated, as in `0,10,20*8`.
fn push_word(rt: &impl Abort, bytes: &mut Vec<u8>, word: &str) {
    let (items, times) = word.split_once('*').unwrap_or((word, "1"));
    for _ in 0..times.parse::<usize>().expect(rt, word) {
        push_items(rt, bytes, items);
    }
}

/// The bytes of all words of a text.
pub fn bytes_of(rt: &impl Abort, alloc: Global, text: &str) -> Vec<u8> {
    let mut bytes = Vec::new(alloc);
    for word in text.split_whitespace() {
        push_word(rt, &mut bytes, word);
    }
    bytes
}

/// Stops the test if bytes are not those of a text.
fn are_bytes(rt: &impl Abort, alloc: Global, given: &[u8], wanted: &str, what: &str) {
    let wanted = bytes_of(rt, alloc, wanted);
    same(rt, given, wanted.as_slice(), what);
}

/// Stops the test if a plan does not give these planes, or is not rejected with this error.
pub fn comes_to(rt: &impl Abort, alloc: Global, plan: &[u8], wanted: &str, what: &str) {
    let mut source = SliceSource::new(plan, 65536, &[]);
    let mut sink = MemSink::new(alloc, 2000, 65536, &[]).expect(rt, "memory");
    match reconstruct_plan(alloc, &mut source, &mut sink) {
        Ok(()) => are_bytes(rt, alloc, sink.bytes(), wanted, what),
        Err(error) => prints(rt, alloc, &error, wanted, what),
    }
}

/// A row of a table: what it shows, `:`, a plan, `->`, and its planes or its error.
fn row(rt: &impl Abort, alloc: Global, text: &str) {
    let (what, rest) = text.split_once(':').expect(rt, "a row has a name");
    let (plan, wanted) = rest.split_once("->").expect(rt, what);
    let plan = bytes_of(rt, alloc, plan);
    comes_to(rt, alloc, &plan, wanted.trim(), what.trim());
}

/// Tries all rows of a table, with `;` between them.
pub fn rows(rt: &impl Abort, alloc: Global, table: &str) {
    for text in table.split(';') {
        row(rt, alloc, text);
    }
}

/// The samples of a block of 4 by 4.
pub fn four_rows(block: &PlaneRegionMut<'_, u8>) -> [[u8; 4]; 4]
    requires fits { InStorage block.now }
    requires columns { 4 ≤ block.now.area.width }
    requires rows { 4 ≤ block.now.area.height }
{
    let mut rows = [[0; 4]; 4];
    for y in 0..4 {
        rows[y].copy_from_slice(&block.row(y)[..4]);
    }
    rows
}
