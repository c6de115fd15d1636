//! Predicts a block from one reference or two: reads the frame's slots, writes the block and the compound buffers.
//!
//! AV1 specification: inter prediction process, block inter prediction process.

ghost use Rattle.std.specs.Prelude.{◌≡◌, ◌≢◌, ℕ, ◌+◌, ◌*◌, ◌^◌, ◌≤◌, ◌<◌, true, false, None, Some, pos, ◌+ℤ◌, length, FitsSigned};
ghost use Rattle.std.specs.Int.{w64};
ghost use Rattle.av1_frame.specs.Frames.{slot_plane};
ghost use Rattle.av1_frame.specs.Regions.{InStorage};
ghost use Rattle.av1_blocks.specs.Modes.{is_intra};
ghost use Rattle.av1_inter.specs.Motion.{entry};
ghost use Rattle.av1_blocks.specs.Depths.{IsDepth};
ghost use Rattle.av1_inter.specs.Prediction.{PredictsCompound, PredictsSingle};
ghost use Rattle.av1_inter.specs.Reference.{frame_filter, is_reference, IsServed, moved_prepared, reference_of, slot_of, vector_of};

use crate::average::mc_avg;
use crate::buffers::InterCompoundBuffers;
use crate::moved::{MovedArea, prepare_moved, put_moved};
use av1_blocks::{MotionVector, PredictionMode, RefType};
use av1_frame::{FrameInvariants, Pixel, PlaneOffset, PlaneRegionMut, TileRect};

/// Two references, each with the vector by which the block is moved in it.
#[derive(Clone, Copy)]
struct TwoReferences {
    frames: [RefType; 2],
    mvs: [MotionVector; 2],
}

/// The slot of a reference.
fn slot_of<T: Pixel>(fi: &FrameInvariants<T>, reference: RefType) -> usize
    requires inter { reference ≢ RefType.INTRA_FRAME }
    requires some { reference ≢ RefType.NONE_FRAME }
    ensures { result ≡ slot_of fi.now reference }
{
    fi.ref_frames[reference.to_index()] as usize
}

/// Whether this is a reference to another frame.
fn is_reference(reference: RefType) -> bool
    ensures { result ≡ is_reference reference }
{
    !matches!(reference, RefType::INTRA_FRAME | RefType::NONE_FRAME)
}

/// Predicts a block from one reference. Each sample of the first `height` rows and `width` columns of `dst` becomes the
/// sample of plane `p` (0 for luma, 1 and 2 for chroma) of the reference, moved by `mv` and interpolated with the
/// frame's filter. `follows_av1` of the frame says what the sharp filter is along sides up to 4.
///
/// The block begins at `po`, counted from the tile's first sample. The reference's plane is padded, and a position
/// outside the frame gives the nearest visible sample, however far the vector leads. If the slot is empty, nothing is
/// written.
pub fn predict_inter_single<T: Pixel>(
    mode: PredictionMode,
    fi: &FrameInvariants<T>,
    tile_rect: TileRect,
    p: usize,
    po: PlaneOffset,
    dst: &mut PlaneRegionMut<'_, T>,
    width: usize,
    height: usize,
    ref_frame: RefType,
    mv: MotionVector,
)
    requires mode { is_intra mode ≡ false }
    requires tile { (tile_rect.x < 2 ^ 63) × (tile_rect.y < 2 ^ 63) }
    requires column { FitsSigned w64 (pos tile_rect.x +ℤ po.x) }
    requires row { FitsSigned w64 (pos tile_rect.y +ℤ po.y) }
    requires plane { p < 3 }
    requires fits { InStorage dst.old }
    requires columns { width ≤ dst.old.area.width }
    requires rows { height ≤ dst.old.area.height }
    requires wide { width ≤ 128 }
    requires high { height ≤ 128 }
    requires depths { IsDepth fi.now.bit_depth }
    requires depth { fi.now.bit_depth ≤ T.BITS }
    requires reference { IsServed T.num fi.now ref_frame p width height }
    ensures painted { PredictsSingle T.num T.pixel fi.now p ref_frame (pos tile_rect.x +ℤ po.x) (pos tile_rect.y +ℤ po.y) mv width height dst.old dst.new }
    ensures empty { slot_plane fi.now (slot_of fi.now ref_frame) p ≡ None → dst.new ≡ dst.old }
    ensures fits { InStorage dst.new }
{
    prove!(!mode.is_intra());
    let at = tile_rect.to_frame_plane_offset(po);
    let block = MovedArea { at, width, height };
    if let Some(plane) = fi.slot(slot_of(fi, ref_frame), p) {
        put_moved(dst, plane, block, mv, fi);
    }
}

/// Prepares a block from one of two references, if its slot is filled.
fn prepare_from<T: Pixel>(
    tmp: &mut [i16],
    fi: &FrameInvariants<T>,
    p: usize,
    block: MovedArea,
    reference: RefType,
    mv: MotionVector,
)
    requires tmp_long { block.height * block.width ≤ length tmp.old }
    requires plane { p < 3 }
    requires wide { block.width ≤ 128 }
    requires high { block.height ≤ 128 }
    requires depths { IsDepth fi.now.bit_depth }
    requires reference { IsServed T.num fi.now reference p block.width block.height }
    ensures { (plane : _) → slot_plane fi.now (slot_of fi.now reference) p ≡ Some plane → (r c : ℕ) → r < block.height → c < block.width →
        entry tmp.new (r * block.width + c) ≡
        moved_prepared T.num fi.now.bit_depth (frame_filter fi.now) plane block.at.x block.at.y mv block.width block.height r c }
{
    if let Some(plane) = fi.slot(slot_of(fi, reference), p) {
        prepare_moved(tmp, plane, block, mv, fi);
    }
}

/// Predicts a block from two references, with a buffer for what is prepared of each.
fn predict_over<T: Pixel>(
    tmp1: &mut [i16],
    tmp2: &mut [i16],
    fi: &FrameInvariants<T>,
    p: usize,
    dst: &mut PlaneRegionMut<'_, T>,
    block: MovedArea,
    references: TwoReferences,
)
    requires first_long { block.height * block.width ≤ length tmp1.old }
    requires second_long { block.height * block.width ≤ length tmp2.old }
    requires plane { p < 3 }
    requires fits { InStorage dst.old }
    requires columns { block.width ≤ dst.old.area.width }
    requires rows { block.height ≤ dst.old.area.height }
    requires wide { block.width ≤ 128 }
    requires high { block.height ≤ 128 }
    requires depths { IsDepth fi.now.bit_depth }
    requires depth { fi.now.bit_depth ≤ T.BITS }
    requires first { IsServed T.num fi.now (reference_of references.frames 0) p block.width block.height }
    requires second { IsServed T.num fi.now (reference_of references.frames 1) p block.width block.height }
    ensures painted { PredictsCompound T.num T.pixel fi.now p references.frames block.at.x block.at.y references.mvs block.width block.height dst.old dst.new }
    ensures fits { InStorage dst.new }
{
    let [first, second] = references.frames;
    let [first_mv, second_mv] = references.mvs;
    prepare_from(tmp1, fi, p, block, first, first_mv);
    prepare_from(tmp2, fi, p, block, second, second_mv);
    mc_avg(dst, tmp1, tmp2, block.width, block.height, fi.bit_depth);
}

/// Predicts a block from two references. Each sample of the first `height` rows and `width` columns of `dst` becomes
/// the average of two interpolated values, one from each reference. Only the average is rounded to a sample. Conditions
/// and positions are those of `predict_inter_single`. The result is left open if a reference's slot is empty.
pub fn predict_inter_compound<T: Pixel>(
    mode: PredictionMode,
    fi: &FrameInvariants<T>,
    tile_rect: TileRect,
    p: usize,
    po: PlaneOffset,
    dst: &mut PlaneRegionMut<'_, T>,
    width: usize,
    height: usize,
    ref_frames: [RefType; 2],
    mvs: [MotionVector; 2],
    buffer: &mut InterCompoundBuffers,
)
    requires mode { is_intra mode ≡ false }
    requires tile { (tile_rect.x < 2 ^ 63) × (tile_rect.y < 2 ^ 63) }
    requires column { FitsSigned w64 (pos tile_rect.x +ℤ po.x) }
    requires row { FitsSigned w64 (pos tile_rect.y +ℤ po.y) }
    requires plane { p < 3 }
    requires fits { InStorage dst.old }
    requires columns { width ≤ dst.old.area.width }
    requires rows { height ≤ dst.old.area.height }
    requires wide { width ≤ 128 }
    requires high { height ≤ 128 }
    requires depths { IsDepth fi.now.bit_depth }
    requires depth { fi.now.bit_depth ≤ T.BITS }
    requires first { IsServed T.num fi.now (reference_of ref_frames 0) p width height }
    requires second { IsServed T.num fi.now (reference_of ref_frames 1) p width height }
    ensures painted { PredictsCompound T.num T.pixel fi.now p ref_frames (pos tile_rect.x +ℤ po.x) (pos tile_rect.y +ℤ po.y) mvs width height dst.old dst.new }
    ensures fits { InStorage dst.new }
{
    prove!(!mode.is_intra());
    let at = tile_rect.to_frame_plane_offset(po);
    let references = TwoReferences {
        frames: ref_frames,
        mvs,
    };
    predict_over(
        buffer.first.as_mut_slice(),
        buffer.second.as_mut_slice(),
        fi,
        p,
        dst,
        MovedArea { at, width, height },
        references,
    );
}

/// Predicts a block from two references if the second is neither `INTRA_FRAME` nor `NONE_FRAME`, else from the first.
pub fn predict_inter<T: Pixel>(
    mode: PredictionMode,
    fi: &FrameInvariants<T>,
    tile_rect: TileRect,
    p: usize,
    po: PlaneOffset,
    dst: &mut PlaneRegionMut<'_, T>,
    width: usize,
    height: usize,
    ref_frames: [RefType; 2],
    mvs: [MotionVector; 2],
    compound_buffer: &mut InterCompoundBuffers,
)
    requires mode { is_intra mode ≡ false }
    requires tile { (tile_rect.x < 2 ^ 63) × (tile_rect.y < 2 ^ 63) }
    requires column { FitsSigned w64 (pos tile_rect.x +ℤ po.x) }
    requires row { FitsSigned w64 (pos tile_rect.y +ℤ po.y) }
    requires plane { p < 3 }
    requires fits { InStorage dst.old }
    requires columns { width ≤ dst.old.area.width }
    requires rows { height ≤ dst.old.area.height }
    requires wide { width ≤ 128 }
    requires high { height ≤ 128 }
    requires depths { IsDepth fi.now.bit_depth }
    requires depth { fi.now.bit_depth ≤ T.BITS }
    requires first { IsServed T.num fi.now (reference_of ref_frames 0) p width height }
    requires second { is_reference (reference_of ref_frames 1) ≡ true → IsServed T.num fi.now (reference_of ref_frames 1) p width height }
    ensures single { is_reference (reference_of ref_frames 1) ≡ false →
        PredictsSingle T.num T.pixel fi.now p (reference_of ref_frames 0) (pos tile_rect.x +ℤ po.x) (pos tile_rect.y +ℤ po.y)
        (vector_of mvs 0) width height dst.old dst.new }
    ensures compound { is_reference (reference_of ref_frames 1) ≡ true →
        PredictsCompound T.num T.pixel fi.now p ref_frames (pos tile_rect.x +ℤ po.x) (pos tile_rect.y +ℤ po.y) mvs width height dst.old dst.new }
    ensures empty { is_reference (reference_of ref_frames 1) ≡ false → slot_plane fi.now (slot_of fi.now (reference_of ref_frames 0)) p ≡ None →
        dst.new ≡ dst.old }
    ensures fits { InStorage dst.new }
{
    let [first, second] = ref_frames;
    let [mv, _] = mvs;
    if is_reference(second) {
        predict_inter_compound(
            mode,
            fi,
            tile_rect,
            p,
            po,
            dst,
            width,
            height,
            ref_frames,
            mvs,
            compound_buffer,
        );
    } else {
        predict_inter_single(mode, fi, tile_rect, p, po, dst, width, height, first, mv);
    }
}
