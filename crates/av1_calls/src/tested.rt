//! Tests samples for a depth once, so that calls need not test them again. Writes nothing.
ghost use Rattle.std.specs.Prelude.{IfOk, IfErr};
ghost use Rattle.av1_calls.specs.Samples.{rectangle_of};
ghost use Rattle.av1_calls.specs.TestedSamples.{AreTested, IsTestFault, TestsSamples};

use crate::argument::{BadArgument, is_depth};
use crate::samples::{are_within, is_readable};
use crate::status::DONE;
use av1_frame::StoredArea;

/// Tests that the rectangle lies in the samples, and that none of its samples is past the depth.
///
/// # Errors
///
/// `Area`, then `Depth`, then `Sample`.
fn test_area(
    samples: &[u16],
    stride: usize,
    area: StoredArea,
    bit_depth: usize,
) -> Result<(), BadArgument>
    ensures good { IfOk result (λ _. AreTested bit_depth stride area samples.now) }
    ensures fault { IfErr result (IsTestFault bit_depth stride area samples.now) }
{
    if !is_readable(stride, area, samples.len()) {
        return Err(BadArgument::Area);
    }
    if !is_depth(bit_depth) {
        return Err(BadArgument::Depth);
    }
    if !are_within(samples, stride, area, bit_depth) {
        return Err(BadArgument::Sample);
    }
    Ok(())
}

/// Tests that no sample of a rectangle is past a depth of 8, 10 or 12. `tilg_put_tested_16`, `tilg_prep_tested_16`,
/// `tilg_put_moved_16` and `tilg_prep_moved_16` require this of the samples that they read. The rectangle begins at
/// column `x` of row `y`, and rows are `stride` samples apart. The last row may end with its samples.
///
/// `DONE`: no sample is past the depth. `BAD_AREA`: the rectangle does not lie in the samples. `BAD_DEPTH`: samples
/// have no such depth. `BAD_SAMPLE`: a sample of the rectangle is past the depth.
pub fn tilg_test_samples_16(
    samples: &[u16],
    stride: usize,
    x: usize,
    y: usize,
    width: usize,
    height: usize,
    bit_depth: usize,
) -> u32
    ensures { TestsSamples bit_depth stride (rectangle_of x y width height) samples.now result }
{
    let area = StoredArea {
        x,
        y,
        width,
        height,
    };
    match test_area(samples, stride, area, bit_depth) {
        Ok(()) => DONE,
        Err(fault) => fault.status(),
    }
}
