//! Tests its arguments, then averages two prepared blocks. Writes a rectangle of the caller's samples.
//!
//! AV1 specification: block inter prediction process, and the average of its two predictions.
ghost use Rattle.std.specs.Prelude.{true, false, IfOk, IfErr};
ghost use Rattle.av1_blocks.specs.Depths.{IsDepth};
ghost use Rattle.av1_calls.specs.Motions.{Averages, IsAverage, IsDeepAverageFault, place};

use crate::argument::{BadArgument, is_depth};
use crate::motion::{Place, rectangle_at, test_average};
use crate::status::DONE;
use av1_inter::mc_avg_to;

/// Tests the arguments of an average at a depth.
///
/// # Errors
///
/// `Size`, then `Area`, then `Short`, then `Depth`.
fn test_deep_average(
    to: Place,
    room: usize,
    width: usize,
    height: usize,
    first: usize,
    second: usize,
    bit_depth: usize,
) -> Result<(), BadArgument>
    ensures good { IfOk result (λ _. IsAverage to room width height first second) }
    ensures deep { IfOk result (λ _. IsDepth bit_depth) }
    ensures fault { IfErr result (IsDeepAverageFault bit_depth to room width height first second) }
{
    test_average(to, room, width, height, first, second)?;
    if is_depth(bit_depth) {
        Ok(())
    } else {
        Err(BadArgument::Depth)
    }
}

/// Writes the average of two prepared values to each sample of a rectangle, at a depth of 8. The rectangle begins at
/// column `x` of row `y` of `samples`, and rows are `stride` samples apart. `first` and `second` begin with the values,
/// row by row, as `tilg_prep_8tap_8` writes them. All other samples are unchanged.
///
/// `DONE`: success. `BAD_SIZE`: the width or the height is 0 or above 128. `BAD_AREA`: the rectangle does not lie in
/// the samples. `TOO_SHORT`: `first` or `second` has fewer values than the rectangle has samples.
pub fn tilg_mc_avg_8(
    samples: &mut [u8],
    stride: usize,
    x: usize,
    y: usize,
    width: usize,
    height: usize,
    first: &[i16],
    second: &[i16],
) -> u32
    ensures { Averages false 8 (place stride x y) width height first.now second.now samples.old samples.new result }
{
    let to = Place { stride, x, y };
    match test_average(to, samples.len(), width, height, first.len(), second.len()) {
        Ok(()) => {
            mc_avg_to(
                samples,
                stride,
                rectangle_at(to, width, height),
                first,
                second,
                8,
            );
            DONE
        }
        Err(fault) => fault.status(),
    }
}

/// Averages as [`tilg_mc_avg_8`] does, in samples of 16 bits at a depth of 8, 10 or 12.
///
/// `BAD_DEPTH`: samples have no such depth.
pub fn tilg_mc_avg_16(
    samples: &mut [u16],
    stride: usize,
    x: usize,
    y: usize,
    width: usize,
    height: usize,
    first: &[i16],
    second: &[i16],
    bit_depth: usize,
) -> u32
    ensures { Averages true bit_depth (place stride x y) width height first.now second.now samples.old samples.new result }
{
    let to = Place { stride, x, y };
    match test_deep_average(
        to,
        samples.len(),
        width,
        height,
        first.len(),
        second.len(),
        bit_depth,
    ) {
        Ok(()) => {
            mc_avg_to(
                samples,
                stride,
                rectangle_at(to, width, height),
                first,
                second,
                bit_depth,
            );
            DONE
        }
        Err(refused) => refused.status(),
    }
}
