//! Tests what a moved block reads in a plane without margins, and gathers it. Writes only the scratch window.
ghost use Rattle.std.specs.Prelude.{◌≡◌, true, ◌+◌, ◌≤◌, ◌-ℤ◌, ◌≤ℤ◌, length, map, pos};
ghost use Rattle.av1_calls.specs.MotionPlaces.{IsPlaceOf};
ghost use Rattle.av1_calls.specs.Motions.{AreSides, IsSource, read_at};
ghost use Rattle.av1_calls.specs.MovedBlocks.{AreMovedFilters, IsSourced, IsVisible, LiesWithin, gathered_area, motion_at, moved_source, stored_at};
ghost use Rattle.av1_calls.specs.MovedBlocks.{visible_of};
ghost use Rattle.av1_frame.specs.Areas.{AreRows};
ghost use Rattle.av1_inter.specs.Places.{IsReadFrom, read_before};

use crate::argument::are_rows;
use crate::intra_edge::signed;
use crate::motion::{MotionBlock, Place, is_filter_number, read_before, read_beside};
use crate::motion_place::{MotionPlane, MovedBlock, MovedPlace, lies_near};
use crate::window::gather;
use av1_frame::{Pixel, StoredArea};

/// A block that a vector moves, and where it is read.
#[derive(Clone, Copy)]
pub(crate) struct MovedCall {
    pub(crate) plane: MotionPlane,
    pub(crate) block: MovedBlock,
    pub(crate) place: MovedPlace,
}

/// The rectangle of the visible samples of a plane.
#[inline(always)]
pub(crate) fn visible_of(plane: MotionPlane) -> StoredArea
    ensures { result ≡ visible_of plane }
{
    StoredArea {
        x: plane.x,
        y: plane.y,
        width: plane.width,
        height: plane.height,
    }
}

/// The block, moved by these fractions.
#[inline(always)]
pub(crate) fn motion_at(block: MovedBlock, col_frac: u8, row_frac: u8) -> MotionBlock
    ensures { result ≡ motion_at block col_frac row_frac }
{
    MotionBlock {
        width: block.width,
        height: block.height,
        col_frac,
        row_frac,
        filter_x: block.filter_x,
        filter_y: block.filter_y,
    }
}

/// Whether both of the block's filters have valid numbers.
#[inline(always)]
pub(crate) fn are_moved_filters(block: MovedBlock) -> bool
    ensures true_is { result ≡ true → AreMovedFilters block }
    ensures is_true { AreMovedFilters block → result ≡ true }
{
    is_filter_number(block.filter_x) && is_filter_number(block.filter_y)
}

/// Whether the plane lies in `samples` samples, and the block near the plane.
#[inline(always)]
pub(crate) fn is_sourced(plane: MotionPlane, samples: usize, block: MovedBlock) -> bool
    ensures true_is { result ≡ true → IsSourced plane samples block }
    ensures is_true { IsSourced plane samples block → result ≡ true }
{
    lies_near(plane, block) && are_rows(plane.stride, visible_of(plane), samples)
}

// The first column or row that is read for a block at a place.
#[inline(always)]
fn first_of(place: isize, frac: u8) -> isize
    requires least { (pos 0 -ℤ pos 65536) ≤ℤ place }
    requires greatest { place ≤ℤ pos 131072 }
    ensures { result ≡ place -ℤ pos (read_before frac) }
{
    place - signed(read_before(frac))
}

// If true, all that is read along the columns or the rows of a block is visible.
#[inline(always)]
fn is_within(place: isize, frac: u8, side: usize, visible: usize) -> bool
    requires least { (pos 0 -ℤ pos 65536) ≤ℤ place }
    requires greatest { place ≤ℤ pos 131072 }
    requires short { side ≤ 128 }
    requires few { visible ≤ 65536 }
    ensures { result ≡ true → IsVisible place frac side visible }
{
    let first = first_of(place, frac);
    0 <= first && first + signed(side + read_beside(frac)) <= signed(visible)
}

/// If true, all samples that are read from the position are visible.
#[inline(always)]
pub(crate) fn lies_within(moved: MovedCall) -> bool
    requires found { IsPlaceOf moved.plane moved.block moved.place }
    requires short { moved.block.width ≤ 128 }
    requires low { moved.block.height ≤ 128 }
    requires few_columns { moved.plane.width ≤ 65536 }
    requires few_rows { moved.plane.height ≤ 65536 }
    ensures { result ≡ true → LiesWithin moved.plane moved.block moved.place }
{
    let (plane, block, place) = (moved.plane, moved.block, moved.place);
    is_within(place.x, place.col_frac, block.width, plane.width)
        && is_within(place.y, place.row_frac, block.height, plane.height)
}

/// The position in the samples of the plane's buffer.
#[inline(always)]
pub(crate) fn stored_at(moved: MovedCall, samples: usize) -> Place
    requires within { LiesWithin moved.plane moved.block moved.place }
    requires visible { AreRows moved.plane.stride (visible_of moved.plane) samples }
    ensures { result ≡ stored_at moved.plane moved.place }
{
    let (plane, place) = (moved.plane, moved.place);
    Place {
        stride: plane.stride,
        x: plane.x + place.x.unsigned_abs(),
        y: plane.y + place.y.unsigned_abs(),
    }
}

/// The rectangle of the window to which a block's samples are gathered.
#[inline(always)]
fn gathered_area(moved: MovedCall) -> StoredArea
    requires short { moved.block.width ≤ 128 }
    requires low { moved.block.height ≤ 128 }
    ensures { result ≡ gathered_area moved.block moved.place.col_frac moved.place.row_frac }
{
    StoredArea {
        x: 0,
        y: 0,
        width: moved.block.width + read_beside(moved.place.col_frac),
        height: moved.block.height + read_beside(moved.place.row_frac),
    }
}

/// Copies all samples that are read for the block to the window. Returns the block's position in the window.
#[inline(always)]
pub(crate) fn gathered<T: Pixel>(window: &mut [T], src: &[T], moved: MovedCall) -> Place
    requires sides { AreSides moved.block.width moved.block.height }
    requires found { IsPlaceOf moved.plane moved.block moved.place }
    requires source { IsSourced moved.plane (length src.now) moved.block }
    requires whole { length window.old ≡ 18225 }
    ensures lies { IsSource result (motion_at moved.block moved.place.col_frac moved.place.row_frac) (length window.new) }
    ensures same { IsReadFrom moved.place.col_frac moved.place.row_frac moved.block.width moved.block.height
        (read_at result (motion_at moved.block moved.place.col_frac moved.place.row_frac) (map T.num window.new))
        (moved_source moved.plane moved.block (map T.num src.now)) }
{
    let place = moved.place;
    let stride = moved.block.width + 7;
    let area = gathered_area(moved);
    let x = first_of(place.x, place.col_frac);
    let y = first_of(place.y, place.row_frac);
    gather(window, stride, area, src, moved.plane, x, y);
    Place {
        stride,
        x: read_before(place.col_frac),
        y: read_before(place.row_frac),
    }
}
