//! Tests its arguments, then predicts a block that a vector moves. Writes its rectangle and scratch memory.
//!
//! AV1 specification: block inter prediction process.
ghost use Rattle.std.specs.Prelude.{true, false, ◌≡◌, ◌≤◌, IfOk, IfErr, map, length};
ghost use Rattle.av1_blocks.specs.Depths.{IsDepth};
ghost use Rattle.av1_calls.specs.MotionPlaces.{IsPlaceOf};
ghost use Rattle.av1_calls.specs.Motions.{AreSides, moved_sample, place, rectangle_at};
ghost use Rattle.av1_calls.specs.MovedBlocks.{AreMovedFilters, AreMovedWithin, IsDeepMovedFault, IsPlaced, IsPutMoved, IsPutMovedFault};
ghost use Rattle.av1_calls.specs.MovedBlocks.{LiesWithin, PutsMoved, motion_of, moved_source};
ghost use Rattle.av1_frame.specs.Samples.{paint};

use crate::argument::{BadArgument, are_rows, is_depth};
use crate::context::Context;
use crate::motion::{Place, are_sides, rectangle_at};
use crate::motion_place::{MotionPlane, MovedBlock, place_of};
use crate::moved::{
    MovedCall, are_moved_filters, gathered, is_sourced, lies_within, motion_at, stored_at,
};
use crate::put_8tap::put;
use crate::samples::have_8_bits;
use crate::status::DONE;
use av1_frame::Pixel;

// Whether the plane lies in `samples` samples, and the block's rectangle in `room` samples.
#[inline(always)]
fn is_placed(to: Place, room: usize, plane: MotionPlane, samples: usize, block: MovedBlock) -> bool
    ensures true_is { result ≡ true → IsPlaced to room plane samples block }
    ensures is_true { IsPlaced to room plane samples block → result ≡ true }
{
    is_sourced(plane, samples, block)
        && are_rows(to.stride, rectangle_at(to, block.width, block.height), room)
}

/// Tests that the block can be moved and written.
///
/// # Errors
///
/// `Size`, then `Mode`, then `Area`.
fn test_put_moved(
    to: Place,
    room: usize,
    plane: MotionPlane,
    samples: usize,
    block: MovedBlock,
) -> Result<(), BadArgument>
    ensures good { IfOk result (λ _. IsPutMoved to room plane samples block) }
    ensures fault { IfErr result (IsPutMovedFault to room plane samples block) }
{
    if !are_sides(block.width, block.height) {
        return Err(BadArgument::Size);
    }
    if !are_moved_filters(block) {
        return Err(BadArgument::Mode);
    }
    if !is_placed(to, room, plane, samples, block) {
        return Err(BadArgument::Area);
    }
    Ok(())
}

/// Tests that the block can be moved and written, and the depth.
///
/// # Errors
///
/// `Size`, then `Mode`, then `Area`, then `Depth`.
fn test_deep_moved(
    to: Place,
    room: usize,
    plane: MotionPlane,
    samples: usize,
    block: MovedBlock,
    bit_depth: usize,
) -> Result<(), BadArgument>
    ensures good { IfOk result (λ _. IsPutMoved to room plane samples block) }
    ensures depth { IfOk result (λ _. IsDepth bit_depth) }
    ensures fault { IfErr result (IsDeepMovedFault bit_depth to room plane samples block) }
{
    test_put_moved(to, room, plane, samples, block)?;
    if is_depth(bit_depth) {
        Ok(())
    } else {
        Err(BadArgument::Depth)
    }
}

/// Predicts the block from the plane itself. All samples that are read are visible.
#[inline(always)]
fn put_within<T: Pixel>(dst: &mut [T], to: Place, src: &[T], moved: MovedCall, bit_depth: usize)
    requires sides { AreSides moved.block.width moved.block.height }
    requires filters { AreMovedFilters moved.block }
    requires placed { IsPlaced to (length dst.old) moved.plane (length src.now) moved.block }
    requires found { IsPlaceOf moved.plane moved.block moved.place }
    requires within { LiesWithin moved.plane moved.block moved.place }
    requires is_depth { IsDepth bit_depth }
    requires depth { bit_depth ≤ T.BITS }
    requires deep { AreMovedWithin bit_depth moved.plane moved.block (map T.num src.now) }
    ensures { dst.new ≡ paint to.stride (rectangle_at to moved.block.width moved.block.height)
        (λ r c _. T.pixel (moved_sample bit_depth (motion_of moved.plane moved.block) (moved_source moved.plane moved.block (map T.num src.now)) r c)) dst.old }
{
    let from = stored_at(moved, src.len());
    let block = motion_at(moved.block, moved.place.col_frac, moved.place.row_frac);
    put(dst, to, src, from, block, bit_depth);
}

/// Predicts the block from the window, after its samples are gathered there.
#[inline(never)]
fn put_gathered<T: Pixel>(
    dst: &mut [T],
    to: Place,
    src: &[T],
    moved: MovedCall,
    window: &mut [T],
    bit_depth: usize,
)
    requires asked { IsPutMoved to (length dst.old) moved.plane (length src.now) moved.block }
    requires whole { length window.old ≡ 18225 }
    requires found { IsPlaceOf moved.plane moved.block moved.place }
    requires is_depth { IsDepth bit_depth }
    requires depth { bit_depth ≤ T.BITS }
    requires deep { AreMovedWithin bit_depth moved.plane moved.block (map T.num src.now) }
    ensures { dst.new ≡ paint to.stride (rectangle_at to moved.block.width moved.block.height)
        (λ r c _. T.pixel (moved_sample bit_depth (motion_of moved.plane moved.block) (moved_source moved.plane moved.block (map T.num src.now)) r c)) dst.old }
{
    let from = gathered(window, src, moved);
    let block = motion_at(moved.block, moved.place.col_frac, moved.place.row_frac);
    put(dst, to, window, from, block, bit_depth);
}

/// Writes the block that its vector moves to its rectangle.
#[inline(always)]
fn put_moved<T: Pixel>(
    dst: &mut [T],
    to: Place,
    src: &[T],
    plane: MotionPlane,
    block: MovedBlock,
    window: &mut [T],
    bit_depth: usize,
)
    requires asked { IsPutMoved to (length dst.old) plane (length src.now) block }
    requires whole { length window.old ≡ 18225 }
    requires is_depth { IsDepth bit_depth }
    requires depth { bit_depth ≤ T.BITS }
    requires deep { AreMovedWithin bit_depth plane block (map T.num src.now) }
    ensures { dst.new ≡ paint to.stride (rectangle_at to block.width block.height)
        (λ r c _. T.pixel (moved_sample bit_depth (motion_of plane block) (moved_source plane block (map T.num src.now)) r c)) dst.old }
{
    let moved = MovedCall {
        plane,
        block,
        place: place_of(plane, block),
    };
    if lies_within(moved) {
        put_within(dst, to, src, moved, bit_depth);
    } else {
        put_gathered(dst, to, src, moved, window, bit_depth);
    }
}

/// Predicts a block that a vector moves, from one reference, at a depth of 8. The reference needs no margins. This is
/// the specification's "Block inter prediction process". The block's rectangle begins at column `dst_x` of row `dst_y`
/// of `dst`, and rows of `dst` are `dst_stride` samples apart. All other samples of `dst` are unchanged. The call only
/// reads visible samples of the plane. Outside them it uses the nearest visible sample.
///
/// `DONE`: success. `BAD_SIZE`: the width or the height is 0 or above 128. `BAD_MODE`: no filter has this number.
/// `BAD_AREA`: the plane has no samples or does not lie in `src`, or the rectangle does not lie in `dst`. It is also
/// the status if the plane's dimensions or the block's position are above 65,536.
pub fn tilg_put_moved_8(
    dst: &mut [u8],
    dst_stride: usize,
    dst_x: usize,
    dst_y: usize,
    src: &[u8],
    plane: &MotionPlane,
    block: &MovedBlock,
    context: &mut Context,
) -> u32
    ensures { PutsMoved false 8 (place dst_stride dst_x dst_y) plane.now block.now src.now dst.old dst.new result }
{
    let (plane, block) = (*plane, *block);
    let to = Place {
        stride: dst_stride,
        x: dst_x,
        y: dst_y,
    };
    match test_put_moved(to, dst.len(), plane, src.len(), block) {
        Ok(()) => {
            have_8_bits(src);
            put_moved(dst, to, src, plane, block, &mut context.window_8, 8);
            DONE
        }
        Err(fault) => fault.status(),
    }
}

/// Predicts as [`tilg_put_moved_8`] does, in samples of 16 bits at a depth of 8, 10 or 12. The call does not test the
/// samples. The caller has to ensure that no sample that is read is past the depth. `tilg_test_samples_16` tests a
/// whole reference.
///
/// `BAD_DEPTH`: samples have no such depth.
pub fn tilg_put_moved_16(
    dst: &mut [u16],
    dst_stride: usize,
    dst_x: usize,
    dst_y: usize,
    src: &[u16],
    plane: &MotionPlane,
    block: &MovedBlock,
    context: &mut Context,
    bit_depth: usize,
) -> u32
    requires { AreMovedWithin bit_depth plane.now block.now src.now }
    ensures { PutsMoved true bit_depth (place dst_stride dst_x dst_y) plane.now block.now src.now dst.old dst.new result }
{
    let (plane, block) = (*plane, *block);
    let to = Place {
        stride: dst_stride,
        x: dst_x,
        y: dst_y,
    };
    match test_deep_moved(to, dst.len(), plane, src.len(), block, bit_depth) {
        Ok(()) => {
            put_moved(
                dst,
                to,
                src,
                plane,
                block,
                &mut context.window_16,
                bit_depth,
            );
            DONE
        }
        Err(refused) => refused.status(),
    }
}
