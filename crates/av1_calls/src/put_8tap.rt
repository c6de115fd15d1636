//! Tests its arguments, then predicts a block from one reference. Writes its rectangle of the caller's samples.
//!
//! AV1 specification: block inter prediction process.
ghost use Rattle.std.specs.Prelude.{true, false, ◌≡◌, ℕ, ◌≤◌, IfOk, IfErr, map, length};
ghost use Rattle.av1_blocks.specs.Depths.{IsDepth};
ghost use Rattle.av1_frame.specs.Samples.{paint};
ghost use Rattle.av1_inter.specs.Places.{IsReadFrom};
ghost use Rattle.av1_calls.specs.Motions.{Puts, AreOfDepth, IsDeepPutFault, IsPut, IsReadWithin, moved_sample, place, read_at, rectangle_at};

use crate::argument::{BadArgument, is_depth};
use crate::motion::{MotionBlock, Place, moved_by, read_from, rectangle_at, test_put};
use crate::samples::have_8_bits;
use crate::status::DONE;
use av1_frame::Pixel;
use av1_inter::put_8tap_to;

/// Writes the block to its rectangle. It depends only on the samples that are read for it.
#[inline(always)]
pub(crate) fn put<T: Pixel>(
    dst: &mut [T],
    to: Place,
    src: &[T],
    from: Place,
    block: MotionBlock,
    bit_depth: usize,
)
    requires asked { IsPut to (length dst.old) from (length src.now) block }
    requires deep { AreOfDepth bit_depth from (map T.num src.now) block }
    requires depth { bit_depth ≤ T.BITS }
    ensures { (around : ℕ → ℕ → ℕ) →
        IsReadFrom block.col_frac block.row_frac block.width block.height (read_at from block (map T.num src.now)) around →
        dst.new ≡ paint to.stride (rectangle_at to block.width block.height)
        (λ r c _. T.pixel (moved_sample bit_depth block around r c)) dst.old }
{
    put_8tap_to(
        dst,
        to.stride,
        rectangle_at(to, block.width, block.height),
        read_from(src, from, block),
        from.stride,
        moved_by(block),
        bit_depth,
    );
}

/// Tests the arguments of a call on samples of 16 bits, except the samples.
///
/// # Errors
///
/// `Size`, then `Mode`, then `Fraction`, then `Area`, then `Depth`.
#[inline(always)]
fn test_tested_put(
    to: Place,
    room: usize,
    from: Place,
    samples: &[u16],
    block: MotionBlock,
    bit_depth: usize,
) -> Result<(), BadArgument>
    ensures good { IfOk result (λ _. IsPut to room from (length samples.now) block) }
    ensures depth { IfOk result (λ _. IsDepth bit_depth) }
    ensures fault { IfErr result (IsDeepPutFault bit_depth to room from samples.now block) }
{
    test_put(to, room, from, samples.len(), block)?;
    if is_depth(bit_depth) {
        Ok(())
    } else {
        Err(BadArgument::Depth)
    }
}

/// Predicts a block from one reference, at a depth of 8. This is the specification's "Block inter prediction process".
/// The block's rectangle begins at column `dst_x` of row `dst_y` of `dst`. Its samples come from `src`, from column
/// `src_x` of row `src_y` on, moved by the block's fractions. All other samples of `dst` are unchanged. Rows are
/// `dst_stride` and `src_stride` samples apart. A side of at most 4 samples uses the filters for such sides.
///
/// In a direction in which the block is moved by part of a sample, the call reads 3 columns (or rows) before the block
/// and 4 after it. In a direction in which it isn't, the call reads only the block's own. The last row that is read may
/// end with its samples.
///
/// `DONE`: success. `BAD_SIZE`: the width or the height is 0 or above 128. `BAD_MODE`: no filter has this number.
/// `BAD_FRACTION`: a fraction is 16 or more. `BAD_AREA`: the rectangle does not lie in `dst`, or the samples that are
/// read do not lie in `src`.
pub fn tilg_put_8tap_8(
    dst: &mut [u8],
    dst_stride: usize,
    dst_x: usize,
    dst_y: usize,
    src: &[u8],
    src_stride: usize,
    src_x: usize,
    src_y: usize,
    block: &MotionBlock,
) -> u32
    ensures { Puts false 8 (place dst_stride dst_x dst_y) (place src_stride src_x src_y) block.now src.now dst.old dst.new result }
{
    let block = *block;
    let to = Place {
        stride: dst_stride,
        x: dst_x,
        y: dst_y,
    };
    let from = Place {
        stride: src_stride,
        x: src_x,
        y: src_y,
    };
    match test_put(to, dst.len(), from, src.len(), block) {
        Ok(()) => {
            have_8_bits(src);
            put(dst, to, src, from, block, 8);
            DONE
        }
        Err(fault) => fault.status(),
    }
}

/// Predicts as [`tilg_put_8tap_8`] does, in samples of 16 bits at a depth of 8, 10 or 12. The call does not test the
/// samples. The caller has to ensure that no sample that is read is past the depth. `tilg_test_samples_16` tests a
/// whole reference.
///
/// `BAD_DEPTH`: samples have no such depth.
pub fn tilg_put_tested_16(
    dst: &mut [u16],
    dst_stride: usize,
    dst_x: usize,
    dst_y: usize,
    src: &[u16],
    src_stride: usize,
    src_x: usize,
    src_y: usize,
    block: &MotionBlock,
    bit_depth: usize,
) -> u32
    requires { IsReadWithin bit_depth (place src_stride src_x src_y) block.now src.now }
    ensures { Puts true bit_depth (place dst_stride dst_x dst_y) (place src_stride src_x src_y) block.now src.now dst.old dst.new result }
{
    let block = *block;
    let to = Place {
        stride: dst_stride,
        x: dst_x,
        y: dst_y,
    };
    let from = Place {
        stride: src_stride,
        x: src_x,
        y: src_y,
    };
    match test_tested_put(to, dst.len(), from, src, block, bit_depth) {
        Ok(()) => {
            put(dst, to, src, from, block, bit_depth);
            DONE
        }
        Err(refused) => refused.status(),
    }
}
