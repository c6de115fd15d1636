// Tests what `Display` and `Debug` print of block sizes and of an error.
use super::support::{prints, same};
use av1_blocks::{BlockSize, InvalidBlockSize};
use std::alloc::Global;
use std::fmt::Display;
use std::process::Abort;

/// The width and height of all blocks, in the order of their numbers.
const SIDES: &str = "
4x4 4x8 8x4 8x8 8x16 16x8 16x16 16x32 32x16 32x32 32x64 64x32 64x64 64x128 128x64 128x128
4x16 16x4 8x32 32x8 16x64 64x16
";

/// Stops the test if `Display` prints another text.
fn shows(rt: &impl Abort, alloc: Global, value: &impl Display, wanted: &str) {
    let text = format!(in alloc; "{value}").expect(rt, "memory");
    same(rt, text.as_str(), wanted, "text");
}

#[test]
fn blocks_print_their_sides(rt: HostRuntime) {
    let mut sides = SIDES.split_whitespace();
    for size in BlockSize::ALL {
        let wanted = sides.next().expect(&rt, "sides");
        shows(&rt, rt.alloc(), &size, wanted);
    }
}

#[test]
fn errors_and_names_are_printed(rt: HostRuntime) {
    shows(&rt, rt.alloc(), &InvalidBlockSize, "invalid block size");
    let size = BlockSize::BLOCK_64X16;
    prints(&rt, rt.alloc(), &size, "BLOCK_64X16", "by Debug");
}
