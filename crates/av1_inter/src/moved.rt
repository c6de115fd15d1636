//! Predicts or prepares a block that a vector moves in a padded reference plane. Reads that plane, writes the block.
//!
//! AV1 specification: block inter prediction process, motion vector scaling process at a scale of one.

ghost use Rattle.std.specs.Prelude.{◌≡◌, ℕ, ◌+◌, ◌*◌, ◌≤◌, ◌<◌, pos, ◌+ℤ◌, ◌-ℤ◌, length};
ghost use Rattle.std.specs.Int.{saturate_signed, w64};
ghost use Rattle.av1_frame.specs.Regions.{InStorage, painted};
ghost use Rattle.av1_inter.specs.Motion.{entry};
ghost use Rattle.av1_inter.specs.Places.{corner_of, IsStoredFrom, samples_from};
ghost use Rattle.av1_blocks.specs.Depths.{IsDepth};
ghost use Rattle.av1_inter.specs.Reference.{IsPadded, IsReference, frame_filter, moved, moved_prepared, moved_single, sixteenths, whole_part};

use crate::filter::mode_along;
use crate::prepare::prep_8tap;
use crate::put::put_8tap;
use av1_blocks::{FilterMode, MotionVector};
use av1_frame::{FrameInvariants, Pixel, Plane, PlaneOffset, PlaneRegionMut, PlaneSlice};

/// A rectangle of a plane that is predicted: its position, counted from the first visible sample, its width and height.
#[derive(Clone, Copy)]
pub(crate) struct MovedArea {
    pub(crate) at: PlaneOffset,
    pub(crate) width: usize,
    pub(crate) height: usize,
}

/// The part of a sample, in sixteenths, by which a component of a vector moves a block. The component is in eighths of
/// a luma sample. `decimation` is 1 if the plane has half as many samples in its direction, and else 0.
///
/// AV1 specification: motion vector scaling process.
pub fn sixteenths(component: i16, decimation: usize) -> i32
    requires { decimation ≤ 1 }
    ensures value { result ≡ pos (sixteenths component decimation) }
    ensures small { sixteenths component decimation < 16 }
{
    let scale = if decimation == 0 { 2 } else { 1 };
    (i32::from(component) * scale).rem_euclid(16)
}

/// Moves `at` by a component's whole samples, then 3 samples back for the filter. The result saturates.
fn moved_place(at: isize, component: i16, decimation: usize) -> isize
    requires { decimation ≤ 1 }
    ensures { result ≡ saturate_signed w64 (at +ℤ (whole_part component decimation -ℤ pos 3)) }
{
    at.saturating_add(isize::from(component >> (3 + decimation)) - 3)
}

/// Finds where a moved block begins in its reference. The filter's first sample, 3 columns and rows before, is clamped
/// to the padding. Past the padding, samples only repeat.
fn moved_slice<T: Pixel>(plane: &Plane<T>, at: PlaneOffset, mv: MotionVector) -> PlaneSlice<'_, T>
    requires padded { IsPadded T.num plane.now }
    requires xpad { 3 ≤ plane.now.plane_cfg.xpad }
    requires ypad { 3 ≤ plane.now.plane_cfg.ypad }
    ensures stored { let cfg = plane.now.plane_cfg in IsStoredFrom (corner_of result) cfg.xpad cfg.ypad }
    ensures samples { let cfg = plane.now.plane_cfg in (c r : ℕ) → c < cfg.xpad → r < cfg.ypad →
        samples_from T.num (corner_of result) c r ≡ moved T.num plane.now at.x at.y mv c r }
{
    let cfg = plane.config();
    let corner = PlaneOffset {
        x: moved_place(at.x, mv.col, cfg.xdec),
        y: moved_place(at.y, mv.row, cfg.ydec),
    };
    plane.slice(corner).clamp().subslice(3, 3)
}

/// The filter of a frame along a side of `length` samples.
fn frame_filter<T: Pixel>(fi: &FrameInvariants<T>, length: usize) -> FilterMode
    ensures { result ≡ frame_filter fi.now length }
{
    mode_along(fi.follows_av1(), fi.default_filter, length)
}

/// Predicts a block from one reference.
#[tactic(auto, using(av1_frame::proofs::Slices::visible_below))]
pub(crate) fn put_moved<T: Pixel>(
    dst: &mut PlaneRegionMut<'_, T>,
    plane: &Plane<T>,
    block: MovedArea,
    mv: MotionVector,
    fi: &FrameInvariants<T>,
)
    requires fits { InStorage dst.old }
    requires columns { block.width ≤ dst.old.area.width }
    requires rows { block.height ≤ dst.old.area.height }
    requires wide { block.width ≤ 128 }
    requires high { block.height ≤ 128 }
    requires depths { IsDepth fi.now.bit_depth }
    requires depth { fi.now.bit_depth ≤ T.BITS }
    requires reference { IsReference T.num plane.now fi.now.bit_depth block.width block.height }
    ensures painted { dst.new ≡
        painted dst.old block.width block.height
        (λ r c _. T.pixel (moved_single T.num fi.now.bit_depth (frame_filter fi.now) plane.now block.at.x block.at.y mv block.width block.height r c)) }
    ensures fits { InStorage dst.new }
{
    let cfg = plane.config();
    let col_frac = sixteenths(mv.col, cfg.xdec);
    let row_frac = sixteenths(mv.row, cfg.ydec);
    let src = moved_slice(plane, block.at, mv);
    put_8tap(
        dst,
        src,
        block.width,
        block.height,
        col_frac,
        row_frac,
        frame_filter(fi, block.width),
        frame_filter(fi, block.height),
        fi.bit_depth,
    );
}

/// Prepares a block from one of two references.
#[tactic(auto, using(av1_frame::proofs::Slices::visible_below))]
pub(crate) fn prepare_moved<T: Pixel>(
    tmp: &mut [i16],
    plane: &Plane<T>,
    block: MovedArea,
    mv: MotionVector,
    fi: &FrameInvariants<T>,
)
    requires tmp_long { block.height * block.width ≤ length tmp.old }
    requires wide { block.width ≤ 128 }
    requires high { block.height ≤ 128 }
    requires depths { IsDepth fi.now.bit_depth }
    requires reference { IsReference T.num plane.now fi.now.bit_depth block.width block.height }
    ensures { (r c : ℕ) → r < block.height → c < block.width →
        entry tmp.new (r * block.width + c) ≡
        moved_prepared T.num fi.now.bit_depth (frame_filter fi.now) plane.now block.at.x block.at.y mv block.width block.height r c }
{
    let cfg = plane.config();
    let col_frac = sixteenths(mv.col, cfg.xdec);
    let row_frac = sixteenths(mv.row, cfg.ydec);
    let src = moved_slice(plane, block.at, mv);
    prep_8tap(
        tmp,
        src,
        block.width,
        block.height,
        col_frac,
        row_frac,
        frame_filter(fi, block.width),
        frame_filter(fi, block.height),
        fi.bit_depth,
    );
}
