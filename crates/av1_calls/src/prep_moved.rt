//! Tests its arguments, then prepares a block that a vector moves. Writes the caller's values and scratch memory.
//!
//! AV1 specification: block inter prediction process, with the rounding of compound prediction.
ghost use Rattle.std.specs.Prelude.{true, false, ◌≡◌, ◌*◌, ◌≤◌, IfOk, IfErr, map, length};
ghost use Rattle.av1_blocks.specs.Depths.{IsDepth};
ghost use Rattle.av1_calls.specs.MotionPlaces.{IsPlaceOf};
ghost use Rattle.av1_calls.specs.Motions.{AreSides, HoldBlock};
ghost use Rattle.av1_calls.specs.MovedBlocks.{AreMovedFilters, AreMovedWithin, IsDeepPrepMovedFault, IsPrepMoved, IsPrepMovedFault};
ghost use Rattle.av1_calls.specs.MovedBlocks.{IsSourced, LiesWithin, PreparesMoved, motion_of, moved_source};

use crate::argument::{BadArgument, is_depth};
use crate::context::Context;
use crate::motion::are_sides;
use crate::motion_place::{MotionPlane, MovedBlock, place_of};
use crate::moved::{
    MovedCall, are_moved_filters, gathered, is_sourced, lies_within, motion_at, stored_at,
};
use crate::prep_8tap::prep;
use crate::samples::have_8_bits;
use crate::status::DONE;
use av1_frame::Pixel;

/// Tests that the block can be moved and fits `room` values.
///
/// # Errors
///
/// `Size`, then `Mode`, then `Area`, then `Short`.
fn test_prep_moved(
    room: usize,
    plane: MotionPlane,
    samples: usize,
    block: MovedBlock,
) -> Result<(), BadArgument>
    ensures good { IfOk result (λ _. IsPrepMoved room plane samples block) }
    ensures fault { IfErr result (IsPrepMovedFault room plane samples block) }
{
    if !are_sides(block.width, block.height) {
        return Err(BadArgument::Size);
    }
    if !are_moved_filters(block) {
        return Err(BadArgument::Mode);
    }
    if !is_sourced(plane, samples, block) {
        return Err(BadArgument::Area);
    }
    if room < block.height * block.width {
        return Err(BadArgument::Short);
    }
    Ok(())
}

/// Tests that the block can be moved and fits `room` values, and the depth.
///
/// # Errors
///
/// `Size`, then `Mode`, then `Area`, then `Short`, then `Depth`.
fn test_deep_prep_moved(
    room: usize,
    plane: MotionPlane,
    samples: usize,
    block: MovedBlock,
    bit_depth: usize,
) -> Result<(), BadArgument>
    ensures good { IfOk result (λ _. IsPrepMoved room plane samples block) }
    ensures depth { IfOk result (λ _. IsDepth bit_depth) }
    ensures fault { IfErr result (IsDeepPrepMovedFault bit_depth room plane samples block) }
{
    test_prep_moved(room, plane, samples, block)?;
    if is_depth(bit_depth) {
        Ok(())
    } else {
        Err(BadArgument::Depth)
    }
}

/// Prepares the block from the plane itself. All samples that are read are visible.
#[inline(always)]
fn prep_within<T: Pixel>(values: &mut [i16], src: &[T], moved: MovedCall, bit_depth: usize)
    requires sides { AreSides moved.block.width moved.block.height }
    requires filters { AreMovedFilters moved.block }
    requires source { IsSourced moved.plane (length src.now) moved.block }
    requires long { moved.block.height * moved.block.width ≤ length values.old }
    requires found { IsPlaceOf moved.plane moved.block moved.place }
    requires within { LiesWithin moved.plane moved.block moved.place }
    requires is_depth { IsDepth bit_depth }
    requires deep { AreMovedWithin bit_depth moved.plane moved.block (map T.num src.now) }
    ensures { HoldBlock bit_depth (motion_of moved.plane moved.block) (moved_source moved.plane moved.block (map T.num src.now)) values.old values.new }
{
    let from = stored_at(moved, src.len());
    let block = motion_at(moved.block, moved.place.col_frac, moved.place.row_frac);
    prep(values, src, from, block, bit_depth);
}

/// Prepares the block from the window, after its samples are gathered there.
#[inline(never)]
fn prep_gathered<T: Pixel>(
    values: &mut [i16],
    src: &[T],
    moved: MovedCall,
    window: &mut [T],
    bit_depth: usize,
)
    requires asked { IsPrepMoved (length values.old) moved.plane (length src.now) moved.block }
    requires whole { length window.old ≡ 18225 }
    requires found { IsPlaceOf moved.plane moved.block moved.place }
    requires is_depth { IsDepth bit_depth }
    requires deep { AreMovedWithin bit_depth moved.plane moved.block (map T.num src.now) }
    ensures { HoldBlock bit_depth (motion_of moved.plane moved.block) (moved_source moved.plane moved.block (map T.num src.now)) values.old values.new }
{
    let from = gathered(window, src, moved);
    let block = motion_at(moved.block, moved.place.col_frac, moved.place.row_frac);
    prep(values, window, from, block, bit_depth);
}

/// Writes the prepared values of the block that its vector moves to the front of `values`.
#[inline(always)]
fn prep_moved<T: Pixel>(
    values: &mut [i16],
    src: &[T],
    plane: MotionPlane,
    block: MovedBlock,
    window: &mut [T],
    bit_depth: usize,
)
    requires asked { IsPrepMoved (length values.old) plane (length src.now) block }
    requires whole { length window.old ≡ 18225 }
    requires is_depth { IsDepth bit_depth }
    requires deep { AreMovedWithin bit_depth plane block (map T.num src.now) }
    ensures { HoldBlock bit_depth (motion_of plane block) (moved_source plane block (map T.num src.now)) values.old values.new }
{
    let moved = MovedCall {
        plane,
        block,
        place: place_of(plane, block),
    };
    if lies_within(moved) {
        prep_within(values, src, moved, bit_depth);
    } else {
        prep_gathered(values, src, moved, window, bit_depth);
    }
}

/// Prepares a block that a vector moves for the average with another block, at a depth of 8. The reference needs no
/// margins. This is the specification's "Block inter prediction process" with the rounding of compound prediction. The
/// first `height * width` of `values` become the values of the block, row by row. The other values are unchanged. The
/// call only reads visible samples of the plane. Outside them it uses the nearest visible sample.
///
/// `DONE`: success. `BAD_SIZE`: the width or the height is 0 or above 128. `BAD_MODE`: no filter has this number.
/// `BAD_AREA`: the plane has no samples or does not lie in `src`, or its dimensions or the block's position are above
/// 65,536. `TOO_SHORT`: there are fewer values than the block has samples.
pub fn tilg_prep_moved_8(
    values: &mut [i16],
    src: &[u8],
    plane: &MotionPlane,
    block: &MovedBlock,
    context: &mut Context,
) -> u32
    ensures { PreparesMoved false 8 plane.now block.now src.now values.old values.new result }
{
    let (plane, block) = (*plane, *block);
    match test_prep_moved(values.len(), plane, src.len(), block) {
        Ok(()) => {
            have_8_bits(src);
            prep_moved(values, src, plane, block, &mut context.window_8, 8);
            DONE
        }
        Err(fault) => fault.status(),
    }
}

/// Prepares a block as [`tilg_prep_moved_8`] does, from samples of 16 bits at a depth of 8, 10 or 12. The call does not
/// test the samples. The caller has to ensure that no sample that is read is past the depth. `tilg_test_samples_16`
/// tests a whole reference. At depths above 8, each value is less by 8192.
///
/// `BAD_DEPTH`: samples have no such depth.
pub fn tilg_prep_moved_16(
    values: &mut [i16],
    src: &[u16],
    plane: &MotionPlane,
    block: &MovedBlock,
    context: &mut Context,
    bit_depth: usize,
) -> u32
    requires { AreMovedWithin bit_depth plane.now block.now src.now }
    ensures { PreparesMoved true bit_depth plane.now block.now src.now values.old values.new result }
{
    let (plane, block) = (*plane, *block);
    match test_deep_prep_moved(values.len(), plane, src.len(), block, bit_depth) {
        Ok(()) => {
            prep_moved(values, src, plane, block, &mut context.window_16, bit_depth);
            DONE
        }
        Err(refused) => refused.status(),
    }
}
