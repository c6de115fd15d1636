//! Tests its arguments, then predicts a block from the caller's edge. Writes the block's rectangle of the samples.
//!
//! AV1 specification: intra prediction process.
ghost use Rattle.std.specs.Prelude.{◌≡◌, ◌+◌, ◌*◌, ◌≤◌, IfOk, IfErr, IfSome, IsTrue, None, true, unsigned_abs};
ghost use Rattle.av1_blocks.specs.Modes.{is_intra};
ghost use Rattle.av1_blocks.specs.declared.predict.PredictionMode.TheVariants as modes;
ghost use Rattle.av1_intra.specs.Predicted.{angle_or_alpha};
ghost use Rattle.av1_calls.specs.Arguments.{rectangle};
ghost use Rattle.av1_calls.specs.IntraBlocks.{Predicts, PredictsBy, AreLong, AreSidesLong, HasNoMode, IsDepthWithin, IsIntraFault, IsIntraMode};
ghost use Rattle.av1_calls.specs.IntraBlocks.{IsPredictionOf, IsTurn, block_of, filter_of, mode_in, variant_in};

use crate::argument::{BadArgument, are_rows};
use crate::motion::Place;
use crate::status::{BAD_MODE, DONE};
use av1_blocks::{IntraParam, PredictionMode, TxSize};
use av1_edges::effective;
use av1_frame::{Pixel, StoredArea};
use av1_intra::{
    DirectionalBlock, PredictionVariant, angle_or_alpha, dispatch_predict_intra_to, places_above,
    places_left,
};

/// A block that an intra mode predicts.
#[repr(C)]
#[derive(Clone, Copy, Debug, PartialEq, Eq)]
pub struct IntraBlock {
    /// The number of its mode, from 0 (`DC_PRED`) to 12 (`PAETH_PRED`). Calls on chroma from luma don't read it.
    pub mode: u8,
    /// The number of its transform size, from 0 (`TX_4X4`) to 18 (`TX_64X16`).
    pub tx_size: u8,
    /// How many steps of 3 degrees a directional mode turns, from -3 to 3; 0 in other modes.
    pub angle_step: i8,
    /// The depth of its samples, in bits: 8, 10 or 12.
    pub bit_depth: u8,
    /// 0 if the left side lies outside its tile.
    pub has_left: u8,
    /// 0 if the side above lies outside its tile.
    pub has_above: u8,
    /// 0 if the edge filter is off.
    pub edge_filter: u8,
    /// 0 if no neighbour has a smooth mode. It is not read if the filter is off.
    pub smooth_neighbour: u8,
    /// How many columns of the plane are visible from the block's first column on. The filter does not smooth samples
    /// above or below columns past these.
    pub visible_columns: usize,
    /// How many rows of the plane are visible from the block's first row on.
    pub visible_rows: usize,
}

/// The samples round a block: the left side from the bottom up, the corner, and the side above from the left.
#[derive(Clone, Copy)]
pub(crate) struct Sides<'a, T> {
    pub(crate) left: &'a [T],
    pub(crate) corner: T,
    pub(crate) above: &'a [T],
}

/// How many samples there are on each side and in all, and how many differences of luma.
#[derive(Clone, Copy)]
struct Counts {
    left: usize,
    above: usize,
    ac: usize,
    samples: usize,
}

/// A block as it is predicted, and its rectangle.
#[derive(Clone, Copy)]
struct PredictedBlock {
    size: TxSize,
    mode: PredictionMode,
    variant: PredictionVariant,
    block: DirectionalBlock,
    area: StoredArea,
}

// The intra mode of this number, except chroma from luma.
#[inline(always)]
fn mode_of(number: u8) -> Option<PredictionMode>
    ensures found { IfSome result (IsIntraMode number) }
    ensures none { result ≡ None → HasNoMode number }
{
    let mode = PredictionMode::from_number(number)?;
    if mode.is_intra() && !mode.is_cfl() {
        Some(mode)
    } else {
        None
    }
}

// Whether a mode turns `step` steps of 3 degrees.
#[inline(always)]
pub(crate) fn is_turn(mode: PredictionMode, step: i8) -> bool
    ensures true_is { result ≡ true → IsTurn mode step }
    ensures is_true { IsTurn mode step → result ≡ true }
{
    -3 <= step && step <= 3 && (mode.is_directional() || step == 0)
}

// Whether samples of `bits` bits can have this depth.
#[inline(always)]
pub(crate) fn is_depth_within(bits: usize, depth: u8) -> bool
    ensures true_is { result ≡ true → IsDepthWithin bits depth }
    ensures is_true { IsDepthWithin bits depth → result ≡ true }
{
    (depth == 8 && 8 <= bits) || (depth == 10 && 10 <= bits) || (depth == 12 && 12 <= bits)
}

// The edge filter: `None` if it is off, else whether a neighbour has a smooth mode.
#[inline(always)]
fn filter_of(on: u8, smooth: u8) -> Option<bool>
    ensures { result ≡ filter_of on smooth }
{
    if on == 0 { None } else { Some(smooth != 0) }
}

// The angle of a mode that turns `step` steps, in degrees.
#[inline(always)]
fn angle_of(mode: PredictionMode, step: i8) -> usize
    ensures { result ≡ unsigned_abs (angle_or_alpha mode (IntraParam.AngleDelta step)) }
{
    angle_or_alpha(mode, IntraParam::AngleDelta(step)).unsigned_abs()
}

// The block of this size and mode.
#[inline(always)]
fn block_of(block: IntraBlock, mode: PredictionMode, size: TxSize) -> DirectionalBlock
    ensures { result ≡ block_of block mode size }
{
    DirectionalBlock {
        p_angle: angle_of(mode, block.angle_step),
        width: size.width(),
        height: size.height(),
        bit_depth: usize::from(block.bit_depth),
        smooth_filter: filter_of(block.edge_filter, block.smooth_neighbour),
        visible_columns: block.visible_columns,
        visible_rows: block.visible_rows,
    }
}

// The prediction in the rectangle at column `x` of row `y`.
#[inline(always)]
fn prediction_in(
    block: IntraBlock,
    mode: PredictionMode,
    size: TxSize,
    x: usize,
    y: usize,
) -> PredictedBlock
    ensures size { result.size ≡ size }
    ensures mode { result.mode ≡ mode_in block mode }
    ensures variant { result.variant ≡ variant_in block }
    ensures block { result.block ≡ block_of block (mode_in block mode) size }
    ensures area { result.area ≡ rectangle x y size }
{
    let has_left = usize::from(block.has_left);
    let has_above = usize::from(block.has_above);
    let mode = effective(mode, has_left, has_above);
    let block = block_of(block, mode, size);
    PredictedBlock {
        size,
        mode,
        variant: PredictionVariant::new(has_left, has_above),
        block,
        area: StoredArea {
            x,
            y,
            width: block.width,
            height: block.height,
        },
    }
}

// Whether the sides are as long as the mode reads them.
#[inline(always)]
fn are_sides_long(
    block: DirectionalBlock,
    variant: PredictionVariant,
    mode: PredictionMode,
    left: usize,
    above: usize,
) -> bool
    requires width { block.width ≤ 64 }
    requires height { block.height ≤ 64 }
    ensures true_is { result ≡ true → AreSidesLong block variant mode left above }
    ensures is_true { AreSidesLong block variant mode left above → result ≡ true }
{
    let (angle, width, height) = (block.p_angle, block.width, block.height);
    places_left(mode, variant, angle, width, height) <= left
        && places_above(mode, variant, angle, width, height) <= above
}

// Whether the sides and luma's differences are as long as the mode reads them. No mode reads more of a side than the
// block's width and height together.
#[inline(always)]
fn are_long(prediction: PredictedBlock, counts: Counts) -> bool
    requires width { prediction.block.width ≤ 64 }
    requires height { prediction.block.height ≤ 64 }
    ensures true_is { result ≡ true → AreLong prediction.block prediction.variant prediction.mode counts.left counts.above counts.ac }
    ensures is_true { AreLong prediction.block prediction.variant prediction.mode counts.left counts.above counts.ac → result ≡ true }
{
    let (block, mode) = (prediction.block, prediction.mode);
    let sides = block.width + block.height;
    (sides <= counts.left && sides <= counts.above
        || are_sides_long(block, prediction.variant, mode, counts.left, counts.above))
        && (!mode.is_cfl() || block.width * block.height <= counts.ac)
}

/// Reads the prediction from its numbers, for samples of `bits` bits.
///
/// # Errors
///
/// `Size`, then `Angle`, then `Depth`, then `Area`, then `Short`.
#[inline(always)]
fn prediction_of(
    bits: usize,
    block: IntraBlock,
    mode: PredictionMode,
    at: Place,
    counts: Counts,
) -> Result<PredictedBlock, BadArgument>
    ensures found { IfOk result (IsPredictionOf bits block mode at counts) }
    ensures fault { IfErr result (IsIntraFault bits block mode at counts) }
{
    let Some(size) = TxSize::from_number(block.tx_size) else {
        return Err(BadArgument::Size);
    };
    if !is_turn(mode, block.angle_step) {
        return Err(BadArgument::Angle);
    }
    if !is_depth_within(bits, block.bit_depth) {
        return Err(BadArgument::Depth);
    }
    let prediction = prediction_in(block, mode, size, at.x, at.y);
    if !are_rows(at.stride, prediction.area, counts.samples) {
        return Err(BadArgument::Area);
    }
    if !are_long(prediction, counts) {
        return Err(BadArgument::Short);
    }
    Ok(prediction)
}

/// Predicts a block by an intra mode if the arguments are valid.
#[inline(always)]
pub(crate) fn predict_by<T: Pixel>(
    block: IntraBlock,
    mode: PredictionMode,
    samples: &mut [T],
    at: Place,
    sides: Sides<T>,
    ac: &[i16],
    alpha: i16,
) -> u32
    requires intra { IsTrue (is_intra mode) }
    ensures { PredictsBy T.BITS T.num T.pixel block mode at.stride at.x at.y sides.entry.left.now sides.entry.corner sides.entry.above.now ac.now alpha
        samples.old samples.new result }
{
    let counts = Counts {
        left: sides.left.len(),
        above: sides.above.len(),
        ac: ac.len(),
        samples: samples.len(),
    };
    match prediction_of(T::BITS, block, mode, at, counts) {
        Ok(found) => {
            dispatch_predict_intra_to(
                found.mode,
                found.variant,
                samples,
                at.stride,
                found.area,
                found.block,
                sides.left,
                sides.corner,
                sides.above,
                ac,
                alpha,
            );
            DONE
        }
        Err(fault) => fault.status(),
    }
}

/// Predicts a block by the intra mode with its number if the arguments are valid.
#[inline(always)]
pub(crate) fn predict_by_number<T: Pixel>(
    samples: &mut [T],
    at: Place,
    block: IntraBlock,
    sides: Sides<T>,
) -> u32
    ensures { Predicts T.BITS T.num T.pixel block at.stride at.x at.y sides.entry.left.now sides.entry.corner sides.entry.above.now samples.old samples.new
        result }
{
    let Some(mode) = mode_of(block.mode) else {
        return BAD_MODE;
    };
    predict_by(block, mode, samples, at, sides, &[], 0)
}

/// Predicts the samples of a block by its intra mode, from the samples round it, at a depth of 8. This is the
/// specification's "intra prediction process" for one block of a transform's size. The block begins at column `x` of
/// row `y` of `samples`, and rows are `stride` samples apart. All other samples are unchanged.
///
/// `left` runs from the bottom up, and its last sample is beside the first row. `above` runs from the left, and
/// `corner` is between the two. The call reads the samples of a side that are nearest to the corner. It reads as many
/// of `left` as the block has rows, and as many of `above` as it has columns. A direction past the block's corner also
/// reads as many more as the other dimension has. If the mode doesn't use a side, the call reads none of it.
///
/// `DONE`: success. `BAD_MODE`, `BAD_SIZE`: no intra mode or no size has the number. `BAD_ANGLE`: the mode does not
/// turn this many steps. `BAD_DEPTH`: the samples have no such depth. `BAD_AREA`: the block does not lie in the
/// samples. `TOO_SHORT`: a side has fewer samples than the call reads.
pub fn tilg_predict_intra_8(
    samples: &mut [u8],
    stride: usize,
    x: usize,
    y: usize,
    block: &IntraBlock,
    left: &[u8],
    corner: u8,
    above: &[u8],
) -> u32
    ensures { Predicts 8 (λ n. n) (λ n. n) block.now stride x y left.now corner above.now samples.old samples.new result }
{
    let sides = Sides {
        left,
        corner,
        above,
    };
    predict_by_number(samples, Place { stride, x, y }, *block, sides)
}

/// Predicts as [`tilg_predict_intra_8`] does, in samples of 16 bits at a depth of 8, 10 or 12. The call does not test
/// that samples of the sides fit the depth.
pub fn tilg_predict_intra_16(
    samples: &mut [u16],
    stride: usize,
    x: usize,
    y: usize,
    block: &IntraBlock,
    left: &[u16],
    corner: u16,
    above: &[u16],
) -> u32
    ensures { Predicts 16 (λ n. n) (λ n. n) block.now stride x y left.now corner above.now samples.old samples.new result }
{
    let sides = Sides {
        left,
        corner,
        above,
    };
    predict_by_number(samples, Place { stride, x, y }, *block, sides)
}

/// Predicts the samples of a block of chroma from luma, at a depth of 8. Each sample becomes the DC prediction by the
/// sides in the tile, plus its difference in `ac` times the weight `alpha`, clipped to the depth. At a weight of 0 it
/// is the DC prediction.
///
/// `ac` has the differences of luma from its mean, row by row, one for each sample of the block. The differences and
/// `alpha` are in eighths. The call does not read the mode of the block, and `angle_step` has to be 0. The rest is as
/// in [`tilg_predict_intra_8`].
///
/// AV1 specification: predict chroma from luma process.
pub fn tilg_predict_cfl_8(
    samples: &mut [u8],
    stride: usize,
    x: usize,
    y: usize,
    block: &IntraBlock,
    left: &[u8],
    above: &[u8],
    ac: &[i16],
    alpha: i16,
) -> u32
    ensures { PredictsBy 8 (λ n. n) (λ n. n) block.now modes.UV_CFL_PRED stride x y left.now 0 above.now ac.now alpha samples.old samples.new result }
{
    let mode = PredictionMode::UV_CFL_PRED;
    let sides = Sides {
        left,
        corner: 0,
        above,
    };
    predict_by(
        *block,
        mode,
        samples,
        Place { stride, x, y },
        sides,
        ac,
        alpha,
    )
}

/// Predicts as [`tilg_predict_cfl_8`] does, in samples of 16 bits at a depth of 8, 10 or 12. The call does not test
/// that samples of the sides fit the depth.
pub fn tilg_predict_cfl_16(
    samples: &mut [u16],
    stride: usize,
    x: usize,
    y: usize,
    block: &IntraBlock,
    left: &[u16],
    above: &[u16],
    ac: &[i16],
    alpha: i16,
) -> u32
    ensures { PredictsBy 16 (λ n. n) (λ n. n) block.now modes.UV_CFL_PRED stride x y left.now 0 above.now ac.now alpha samples.old samples.new result }
{
    let mode = PredictionMode::UV_CFL_PRED;
    let sides = Sides {
        left,
        corner: 0,
        above,
    };
    predict_by(
        *block,
        mode,
        samples,
        Place { stride, x, y },
        sides,
        ac,
        alpha,
    )
}
