//! Inverse cosine transforms of 4, 8, 16, 32 and 64 values, from one slice to another. Nothing here allocates.
//! They are the inverse DCT process of the AV1 specification, with the weights, rounding and wrapped sums of rav1e.
//!
//! The crate needs the standard library and `av1_lists`. Its promises to the two-dimensional transforms above it:
//!
//! - `av1_idct4` to `av1_idct64` give `cosine` of `specs/Cosine.antt` for their length. The rest of `output` is
//!   unchanged. They all use `cosine_words`, for every length and every `Word`: an `i32`, or four or eight of them side
//!   by side.
//! - `cosine_lanes` runs eight transforms at a time over `i32x8`, with `cosine` in each lane, and counts them in a
//!   `LaneCount`, which no other call raises. If the range is 16, it cuts the words to lanes of 16 bits, and widens the
//!   results. If there are 16 inputs or more, and they are zeros from the fifth on, it leaves out rotations of two
//!   zeros.
//! - `half_btf` and `clamp_value`, the arithmetic of every network, are those of `specs/Operations.antt` and
//!   `specs/Arithmetic.antt`.
//! - Three laws, each the contract of a function that does nothing. A transform adds and subtracts its two halves.
//!   Zeros give zeros. At 18 bits nothing wraps.
//!
//! Within the crate, `Butterfly` has the operations on lanes that the networks need: butterfly rotations, whose results
//! may be wider than a lane, and Hadamard rotations, which clamp. Each `Word` has them, and so have eight lanes of 16
//! bits. A transform works in place, in the order of reversed places. Its length is a constant of each instance, so
//! that the compiler unrolls its loops and knows its weights as numbers.
#![tactic(auto)]

mod arithmetic;
mod butterfly;
mod cosine;
mod inverse;
mod lane_count;
mod laws;
mod narrow;
mod narrow_lanes;
mod steps;
mod weights;
mod word;

pub use arithmetic::{clamp_value, half_btf};
pub use cosine::cosine_words;
pub use inverse::{av1_idct4, av1_idct8, av1_idct16, av1_idct32, av1_idct64};
pub use lane_count::{LaneCount, cosine_lanes};
pub use laws::{cosine_adds_halves, cosine_never_wraps, cosine_of_zeros};
pub use word::Word;
