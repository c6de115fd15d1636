//! Prepares the edge of a transform: reads samples of its region, writes them to a buffer, and counts the edge.

ghost use Rattle.std.specs.Prelude.{◌≡◌, ◌-◌, ◌<◌, ◌≤◌, [], ◌∷◌, true, length, map, reverse, pos, ◌≤ℤ◌};
ghost use Rattle.std.specs.Borrow.{sem};
ghost use Rattle.av1_frame.specs.Samples.{part};
ghost use Rattle.av1_edges.specs.Buffers.{CountsOne};
ghost use Rattle.av1_edges.specs.Edges.{BeginsVisible, PositionFits, position_of, edge_of_parts, prepared_edge, above_places, left_places};

use crate::buffer::{IntraEdgeBuffer, LONGEST_EDGE};
use crate::edge::{EdgePlaces, IntraEdge};
use crate::fill::{corner_of, fill_above, fill_left, smooth_corner};
use crate::parts::Parts;
use crate::position::TransformPosition;
use av1_blocks::{BlockSize, IntraParam, PredictionMode, TxSize};
use av1_frame::{Pixel, PlaneOffset, PlaneRegion, TileBlockOffset};

/// The number of places of the side above a transform: its width, and also its height with samples above right.
fn above_places(parts: Parts, tx_size: TxSize) -> usize
    ensures value { result ≡ above_places parts tx_size }
    ensures some { 0 < result }
    ensures most { result ≤ 128 }
{
    if parts.above_right {
        tx_size.width() + tx_size.height()
    } else {
        tx_size.width()
    }
}

/// The number of places of the left side, if it is prepared: the height, and also the width with samples below left.
fn left_places(parts: Parts, tx_size: TxSize) -> usize
    ensures value { result ≡ left_places parts tx_size }
    ensures some { parts.left ≡ true → 0 < result }
    ensures most { result ≤ 128 }
{
    let own = if parts.left { tx_size.height() } else { 0 };
    if parts.below_left {
        own + tx_size.width()
    } else {
        own
    }
}

/// The corner of the edge of `parts` with these sides, smoothed if that is needed.
fn edge_corner<T: Pixel>(
    left: &[T],
    above: &[T],
    dst: &PlaneRegion<'_, T>,
    at: TransformPosition,
    bit_depth: usize,
    parts: Parts,
) -> T
    requires begins { BeginsVisible dst.now }
    requires fits { PositionFits dst.now at }
    requires low { 8 ≤ bit_depth }
    requires depth { bit_depth ≤ T.BITS }
    requires left_some { parts.smoothed ≡ true → 0 < length left.now }
    requires above_some { 0 < length above.now }
    requires left { map T.num left.now ≡ reverse (edge_of_parts T.num dst.now at bit_depth parts).left }
    requires above { map T.num above.now ≡ (edge_of_parts T.num dst.now at bit_depth parts).above }
    ensures { T.num result ≡ (edge_of_parts T.num dst.now at bit_depth parts).corner }
{
    let corner = corner_of(dst, at.x, at.y, parts.corner, bit_depth);
    if parts.smoothed {
        smooth_corner(left[left.len() - 1], corner, above[0])
    } else {
        corner
    }
}

/// Fills the samples of a buffer with the edge of `parts`, and returns the number of its places. The left side ends
/// before the corner, which is in the middle, and the side above begins after it.
fn fill_edge<T: Pixel>(
    samples: &mut [T],
    dst: &PlaneRegion<'_, T>,
    at: TransformPosition,
    bit_depth: usize,
    parts: Parts,
) -> EdgePlaces
    requires whole { length samples.old ≡ 257 }
    requires begins { BeginsVisible dst.now }
    requires fits { PositionFits dst.now at }
    requires low { 8 ≤ bit_depth }
    requires depth { bit_depth ≤ T.BITS }
    requires inside { 0 < at.x → parts.left ≡ true }
    requires smooth { parts.smoothed ≡ true → parts.left ≡ true }
    ensures few_left { result.left ≤ 128 }
    ensures few_above { result.above ≤ 128 }
    ensures left { map T.num (part (128 - result.left) result.left samples.new) ≡ reverse (edge_of_parts T.num dst.now at bit_depth parts).left }
    ensures corner { map T.num (part 128 1 samples.new) ≡ (edge_of_parts T.num dst.now at bit_depth parts).corner ∷ [] }
    ensures above { map T.num (part 129 result.above samples.new) ≡ (edge_of_parts T.num dst.now at bit_depth parts).above }
{
    let left_places = left_places(parts, at.tx_size);
    let above_places = above_places(parts, at.tx_size);
    let (_, samples) = samples.split_at_mut(LONGEST_EDGE - left_places);
    let (left, samples) = samples.split_at_mut(left_places);
    let (corner, samples) = samples.split_at_mut(1);
    let (above, _) = samples.split_at_mut(above_places);
    let num_avail_left = at.num_avail_left(dst, parts.below_left);
    fill_left(left, dst, at.x, at.y, num_avail_left, bit_depth);
    let num_avail_above = at.num_avail_above(dst, parts.above_right);
    fill_above(above, dst, at.x, at.y, num_avail_above, bit_depth);
    corner[0] = edge_corner(left, above, dst, at, bit_depth, parts);
    EdgePlaces {
        left: left_places,
        above: above_places,
    }
}

/// The edge in a buffer, of `left` places to the left and `above` places above.
fn edge_in<T: Pixel>(edge_buf: &IntraEdgeBuffer<T>, left: usize, above: usize) -> IntraEdge<'_, T>
    requires few_left { left ≤ 128 }
    requires few_above { above ≤ 128 }
    ensures left { result.left.now ≡ part (128 - left) left edge_buf.now.samples.items }
    ensures corner { result.top_left.now ≡ part 128 1 edge_buf.now.samples.items }
    ensures above { result.above.now ≡ part 129 above edge_buf.now.samples.items }
{
    let samples = edge_buf.samples.as_slice();
    IntraEdge {
        left: &samples[LONGEST_EDGE - left..LONGEST_EDGE],
        top_left: &samples[LONGEST_EDGE..LONGEST_EDGE + 1],
        above: &samples[LONGEST_EDGE + 1..LONGEST_EDGE + 1 + above],
    }
}

/// The position of a transform of a block, whose first sample is at `po`.
fn position_of(
    partition_bo: TileBlockOffset,
    bx: usize,
    by: usize,
    partition_size: BlockSize,
    po: PlaneOffset,
    tx_size: TxSize,
) -> TransformPosition
    requires column { pos 0 ≤ℤ po.x }
    requires row { pos 0 ≤ℤ po.y }
    ensures { result ≡ position_of partition_bo bx by partition_size po tx_size }
{
    TransformPosition {
        x: po.x as usize,
        y: po.y as usize,
        tx_size,
        partition_bo,
        partition_size,
        bx,
        by,
    }
}

/// Prepares the samples round a transform, as `get_intra_edges` does, in 257 samples of the caller, and returns the
/// number of places of the edge. The side to the left ends before sample 128, from the bottom up. Sample 128 is the
/// corner, and the side above begins after it. The contents of all other samples are left open.
pub fn get_intra_edges_to<T: Pixel>(
    samples: &mut [T],
    dst: &PlaneRegion<'_, T>,
    partition_bo: TileBlockOffset,
    bx: usize,
    by: usize,
    partition_size: BlockSize,
    po: PlaneOffset,
    tx_size: TxSize,
    bit_depth: usize,
    opt_mode: Option<PredictionMode>,
    enable_intra_edge_filter: bool,
    intra_param: IntraParam,
) -> EdgePlaces
    requires whole { length samples.old ≡ 257 }
    requires begins { BeginsVisible dst.now }
    requires column { pos 0 ≤ℤ po.x }
    requires row { pos 0 ≤ℤ po.y }
    requires fits { PositionFits dst.now (position_of partition_bo bx by partition_size po tx_size) }
    requires low { 8 ≤ bit_depth }
    requires depth { bit_depth ≤ T.BITS }
    ensures few_left { result.left ≤ 128 }
    ensures few_above { result.above ≤ 128 }
    ensures left { map T.num (part (128 - result.left) result.left samples.new) ≡
        reverse (prepared_edge T.num dst.now (position_of partition_bo bx by partition_size po tx_size) bit_depth opt_mode enable_intra_edge_filter
        intra_param).left }
    ensures corner { map T.num (part 128 1 samples.new) ≡
        (prepared_edge T.num dst.now (position_of partition_bo bx by partition_size po tx_size) bit_depth opt_mode enable_intra_edge_filter intra_param).corner
        ∷ [] }
    ensures above { map T.num (part 129 result.above samples.new) ≡
        (prepared_edge T.num dst.now (position_of partition_bo bx by partition_size po tx_size) bit_depth opt_mode enable_intra_edge_filter intra_param).above }
{
    let at = position_of(partition_bo, bx, by, partition_size, po, tx_size);
    let parts = Parts::prepared(
        enable_intra_edge_filter,
        opt_mode,
        intra_param,
        at.x,
        at.y,
        tx_size,
    );
    fill_edge(samples, dst, at, bit_depth, parts)
}

/// Prepares the samples round a transform, in `edge_buf`.
///
/// The transform has the size `tx_size` and its first sample at `po`, counted from the first sample of the region
/// `dst`. Only the part of the region in the visible plane is read. The transform is in column `bx` and row `by` of its
/// block, counted in transforms. The block has the luma size `partition_size` and begins at the cell `partition_bo` of
/// the tile.
///
/// The side above holds the row above the transform from its first column on, as many samples as it is wide. The side
/// to the left holds the column before it, as many samples as it is high. In the region's first row, the side above
/// repeats the sample to the left of the transform. In its first column, the side to the left repeats the sample above
/// the transform. At the region's first sample, each sample above is half of the range of `bit_depth` bits minus 1, and
/// each sample to the left is half of it plus 1.
///
/// At angles below 90 degrees the side above is longer by the transform's height. Past 180 degrees the left side is
/// longer by its width. With no mode both are longer. As many of the added samples as the smaller dimension are read
/// from the region, if `has_top_right` or `has_bottom_left` says that they are coded before. Past the last available
/// sample, this sample is repeated. In the first column the left side is empty for a mode that takes a mean.
///
/// The corner is half of the range if the mode does not need it, or at the region's first sample. If the edge filter is
/// on, it is smoothed for angles between 90 and 180 degrees if width and height sum to 24 or more.
///
/// AV1 specification: intra prediction process: general; for the smoothing filter corner process.
pub fn get_intra_edges<'a, T: Pixel>(
    edge_buf: &'a mut IntraEdgeBuffer<T>,
    dst: &PlaneRegion<'_, T>,
    partition_bo: TileBlockOffset,
    bx: usize,
    by: usize,
    partition_size: BlockSize,
    po: PlaneOffset,
    tx_size: TxSize,
    bit_depth: usize,
    opt_mode: Option<PredictionMode>,
    enable_intra_edge_filter: bool,
    intra_param: IntraParam,
) -> IntraEdge<'a, T>
    requires begins { BeginsVisible dst.now }
    requires column { pos 0 ≤ℤ po.x }
    requires row { pos 0 ≤ℤ po.y }
    requires fits { PositionFits dst.now (position_of partition_bo bx by partition_size po tx_size) }
    requires low { 8 ≤ bit_depth }
    requires depth { bit_depth ≤ T.BITS }
    ensures* count { sem 𝓛 (CountsOne T.row edge_buf.entry) }
    ensures left { map T.num result.left.now ≡
        reverse (prepared_edge T.num dst.now (position_of partition_bo bx by partition_size po tx_size) bit_depth opt_mode enable_intra_edge_filter
        intra_param).left }
    ensures corner { map T.num result.top_left.now ≡
        (prepared_edge T.num dst.now (position_of partition_bo bx by partition_size po tx_size) bit_depth opt_mode enable_intra_edge_filter intra_param).corner
        ∷ [] }
    ensures above { map T.num result.above.now ≡
        (prepared_edge T.num dst.now (position_of partition_bo bx by partition_size po tx_size) bit_depth opt_mode enable_intra_edge_filter intra_param).above }
{
    edge_buf.count();
    let places = get_intra_edges_to(
        edge_buf.samples.as_mut_slice(),
        dst,
        partition_bo,
        bx,
        by,
        partition_size,
        po,
        tx_size,
        bit_depth,
        opt_mode,
        enable_intra_edge_filter,
        intra_param,
    );
    edge_in(edge_buf, places.left, places.above)
}
