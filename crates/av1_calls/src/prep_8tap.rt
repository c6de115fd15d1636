//! Tests its arguments, then prepares a block for the average with another block. Writes the caller's values.
//!
//! AV1 specification: block inter prediction process, with the rounding of compound prediction.
ghost use Rattle.std.specs.Prelude.{true, false, ℕ, IfOk, IfErr, map, length};
ghost use Rattle.av1_blocks.specs.Depths.{IsDepth};
ghost use Rattle.av1_inter.specs.Places.{IsReadFrom};
ghost use Rattle.av1_calls.specs.Motions.{Prepares, AreOfDepth, HoldBlock, IsDeepPrepFault, IsPrep, IsReadWithin, place, read_at};

use crate::argument::{BadArgument, is_depth};
use crate::motion::{MotionBlock, Place, moved_by, read_from, test_prep};
use crate::samples::have_8_bits;
use crate::status::DONE;
use av1_frame::Pixel;
use av1_inter::prep_8tap_from;

/// Writes the prepared values of the block to the front of `values`. They depend only on the samples that are read for
/// the block.
#[inline(always)]
pub(crate) fn prep<T: Pixel>(
    values: &mut [i16],
    src: &[T],
    from: Place,
    block: MotionBlock,
    bit_depth: usize,
)
    requires asked { IsPrep (length values.old) from (length src.now) block }
    requires deep { AreOfDepth bit_depth from (map T.num src.now) block }
    ensures { (around : ℕ → ℕ → ℕ) →
        IsReadFrom block.col_frac block.row_frac block.width block.height (read_at from block (map T.num src.now)) around →
        HoldBlock bit_depth block around values.old values.new }
{
    prep_8tap_from(
        values,
        read_from(src, from, block),
        from.stride,
        block.width,
        block.height,
        moved_by(block),
        bit_depth,
    );
}

/// Tests the arguments of a call on samples of 16 bits, except the samples.
///
/// # Errors
///
/// `Size`, then `Mode`, then `Fraction`, then `Area`, then `Short`, then `Depth`.
#[inline(always)]
fn test_tested_prep(
    room: usize,
    from: Place,
    samples: &[u16],
    block: MotionBlock,
    bit_depth: usize,
) -> Result<(), BadArgument>
    ensures good { IfOk result (λ _. IsPrep room from (length samples.now) block) }
    ensures depth { IfOk result (λ _. IsDepth bit_depth) }
    ensures fault { IfErr result (IsDeepPrepFault bit_depth room from samples.now block) }
{
    test_prep(room, from, samples.len(), block)?;
    if is_depth(bit_depth) {
        Ok(())
    } else {
        Err(BadArgument::Depth)
    }
}

/// Prepares a block of a reference for the average with another block, at a depth of 8. This is the specification's
/// "Block inter prediction process" with the rounding of compound prediction. The first `height * width` of `values`
/// become the values of the block, row by row. The other values are unchanged. The block is at column `src_x` of row
/// `src_y` of `src`, moved by its fractions. Rows of samples are `src_stride` apart.
///
/// The call reads the same samples as `tilg_put_8tap_8`. A value is 16 times a sample.
///
/// `DONE`: success. `BAD_SIZE`: the width or the height is 0 or above 128. `BAD_MODE`: no filter has this number.
/// `BAD_FRACTION`: a fraction is 16 or more. `BAD_AREA`: the samples that are read do not lie in `src`. `TOO_SHORT`:
/// there are fewer values than the block has samples.
pub fn tilg_prep_8tap_8(
    values: &mut [i16],
    src: &[u8],
    src_stride: usize,
    src_x: usize,
    src_y: usize,
    block: &MotionBlock,
) -> u32
    ensures { Prepares false 8 (place src_stride src_x src_y) block.now src.now values.old values.new result }
{
    let block = *block;
    let from = Place {
        stride: src_stride,
        x: src_x,
        y: src_y,
    };
    match test_prep(values.len(), from, src.len(), block) {
        Ok(()) => {
            have_8_bits(src);
            prep(values, src, from, block, 8);
            DONE
        }
        Err(fault) => fault.status(),
    }
}

/// Prepares a block as [`tilg_prep_8tap_8`] does, from samples of 16 bits at a depth of 8, 10 or 12. At depths above 8,
/// each value is less by 8192. At 12, a value is 4 times a sample before that. The call does not test the samples. The
/// caller has to ensure that no sample that is read is past the depth. `tilg_test_samples_16` tests a whole reference.
///
/// `BAD_DEPTH`: samples have no such depth.
pub fn tilg_prep_tested_16(
    values: &mut [i16],
    src: &[u16],
    src_stride: usize,
    src_x: usize,
    src_y: usize,
    block: &MotionBlock,
    bit_depth: usize,
) -> u32
    requires { IsReadWithin bit_depth (place src_stride src_x src_y) block.now src.now }
    ensures { Prepares true bit_depth (place src_stride src_x src_y) block.now src.now values.old values.new result }
{
    let block = *block;
    let from = Place {
        stride: src_stride,
        x: src_x,
        y: src_y,
    };
    match test_tested_prep(values.len(), from, src, block, bit_depth) {
        Ok(()) => {
            prep(values, src, from, block, bit_depth);
            DONE
        }
        Err(refused) => refused.status(),
    }
}
