//! Computes where a block that a vector moves is read in its reference. Writes nothing.
//!
//! AV1 specification: motion vector scaling process at a scale of one, block inter prediction process.
ghost use Rattle.std.specs.Prelude.{◌≡◌, true, ◌+◌, ◌<◌, ◌≤◌, ◌-ℤ◌, ◌≤ℤ◌, pos};
ghost use Rattle.av1_calls.specs.MotionPlaces.{IsMoved, IsPlaceFor, IsPlaceOf, LiesNear, first_read};
ghost use Rattle.av1_inter.specs.Reference.{sixteenths, whole_part};
ghost use Rattle.std.specs.Int.{int_max, int_min};

use crate::intra_edge::{halvings, signed};
use av1_inter::sixteenths;

/// The greatest number of columns, or rows, of a frame.
const MOST: usize = 65_536;

/// A plane of a reference. All lengths are in samples of the plane.
#[repr(C)]
#[derive(Clone, Copy, Debug, PartialEq, Eq)]
pub struct MotionPlane {
    /// The distance between the starts of two rows, in samples.
    pub stride: usize,
    /// The column of its first visible sample.
    pub x: usize,
    /// The row of its first visible sample.
    pub y: usize,
    /// How many visible columns it has: from 1 to 65,536.
    pub width: usize,
    /// How many visible rows it has: from 1 to 65,536.
    pub height: usize,
    /// 0 if the plane has as many columns as luma, else it has half of them.
    pub halved_columns: u8,
    /// 0 if the plane has as many rows as luma, else it has half of them.
    pub halved_rows: u8,
}

/// A block of a plane, and the vector that moves it.
#[repr(C)]
#[derive(Clone, Copy, Debug, PartialEq, Eq)]
pub struct MovedBlock {
    /// The column of its first sample, counted from the first visible column, up to 65,536.
    pub x: usize,
    /// The row of its first sample, counted from the first visible row, up to 65,536.
    pub y: usize,
    /// How many columns it has: from 1 to 128.
    pub width: usize,
    /// How many rows it has: from 1 to 128.
    pub height: usize,
    /// How far the vector leads down, in eighths of a luma sample.
    pub row: i16,
    /// How far the vector leads to the right, in eighths of a luma sample.
    pub col: i16,
    /// The number of the filter along its rows, as in a `MotionBlock`.
    pub filter_x: u8,
    /// The number of the filter down its columns.
    pub filter_y: u8,
}

/// The position at which a block is read in a reference.
#[derive(Clone, Copy)]
pub struct MovedPlace {
    /// The column of its first sample in the reference, counted from the first visible one.
    pub x: isize,
    /// The row of its first sample, counted from the first visible one.
    pub y: isize,
    /// How far the block is moved right from there, in sixteenths of a sample.
    pub col_frac: u8,
    /// How far the block is moved down from there, in sixteenths of a sample.
    pub row_frac: u8,
}

/// Whether the plane has samples, and the plane and the block's position are within the greatest frame.
pub(crate) fn lies_near(plane: MotionPlane, block: MovedBlock) -> bool
    ensures true_is { result ≡ true → LiesNear plane block }
    ensures is_true { LiesNear plane block → result ≡ true }
{
    0 < plane.width
        && plane.width <= MOST
        && 0 < plane.height
        && plane.height <= MOST
        && block.x <= MOST
        && block.y <= MOST
}

// The fraction of a sample by which a component moves a block, in sixteenths.
fn fraction(component: i16, decimation: usize) -> u8
    requires { decimation ≤ 1 }
    ensures value { result ≡ sixteenths component decimation }
    ensures small { result < 16 }
{
    sixteenths(component, decimation) as u8
}

// The whole samples by which a component moves a block, minus the 3 that are read before the block.
fn steps(component: i16, decimation: usize) -> isize
    requires { decimation ≤ 1 }
    ensures value { result ≡ whole_part component decimation -ℤ pos 3 }
    ensures least { (pos 0 -ℤ pos 65536) ≤ℤ result }
    ensures greatest { result ≤ℤ pos 65536 }
{
    isize::from(component >> (3 + decimation)) - 3
}

// The first column or row that is read, however far outside the plane it is.
fn first_read(at: usize, component: i16, decimation: usize) -> isize
    requires near { at ≤ 65536 }
    requires decimation { decimation ≤ 1 }
    ensures { result ≡ first_read at component decimation }
{
    signed(at) + steps(component, decimation)
}

// The column or row at which the padding for a block begins.
fn pads_begin(side: usize) -> isize
    requires { side ≤ 128 }
    ensures { result ≡ pos 0 -ℤ pos (side + 7) }
{
    -((side + 7) as isize)
}

// Clamps a number to the range from `least` to `greatest`.
fn kept_between(number: isize, least: isize, greatest: isize) -> isize
    ensures { result ≡ int_min (int_max number least) greatest }
{
    number.max(least).min(greatest)
}

// Where a block of `side` columns or rows is read, if `visible` of them are visible in the plane.
fn place_along(at: usize, side: usize, component: i16, decimation: usize, visible: usize) -> isize
    requires near { at ≤ 65536 }
    requires short { side ≤ 128 }
    requires decimation { decimation ≤ 1 }
    requires some { 0 < visible }
    requires few { visible ≤ 65536 }
    ensures { IsPlaceFor (first_read at component decimation) side visible result }
{
    let first = first_read(at, component, decimation);
    kept_between(first, pads_begin(side), signed(visible)) + 3
}

/// The position at which the block is read. This is the specification's "motion vector scaling process" at a scale of
/// one. Each sample outside the plane has the value of the nearest visible sample. So a vector that leads far outside
/// gets a position nearer to the plane, with the same samples.
pub(crate) fn place_of(plane: MotionPlane, block: MovedBlock) -> MovedPlace
    requires { IsMoved plane block }
    ensures { IsPlaceOf plane block result }
{
    let (columns, rows) = (halvings(plane.halved_columns), halvings(plane.halved_rows));
    MovedPlace {
        x: place_along(block.x, block.width, block.col, columns, plane.width),
        y: place_along(block.y, block.height, block.row, rows, plane.height),
        col_frac: fraction(block.col, columns),
        row_frac: fraction(block.row, rows),
    }
}
