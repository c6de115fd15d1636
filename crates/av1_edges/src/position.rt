//! The position of a transform, and how many samples round it are available. Pure: it reads no samples.

ghost use Rattle.std.specs.Prelude.{◌≡◌, ◌+◌, ◌*◌, ◌<◌, ◌≤◌, ◌&&◌, true};
ghost use Rattle.av1_blocks.specs.Transforms.{tx_width, tx_height};
ghost use Rattle.av1_edges.specs.Sides.{num_avail, where_needed};
ghost use Rattle.av1_avail.specs.Agreement.{IsNearSquare, IsWhole};
ghost use Rattle.av1_avail.specs.Asked.{has_before};
ghost use Rattle.av1_avail.specs.Cells.{transform_columns, transform_rows};
ghost use Rattle.av1_edges.specs.Edges.{BeginsVisible, PositionFits, visible_columns, visible_rows, has_above_right, has_below_left, num_avail_above};
ghost use Rattle.av1_edges.specs.Edges.{num_avail_left};

use av1_avail::{has_bl, has_bottom_left, has_top_right, has_tr};
use av1_blocks::{BlockSize, TxSize, supersample_chroma_bsize};
use av1_frame::{Pixel, PlaneRegion, TileBlockOffset};

/// The position of a transform, in its region and in its block.
#[derive(Clone, Copy)]
pub(crate) struct TransformPosition {
    /// The column of its first sample, counted from the region's first.
    pub(crate) x: usize,
    /// The row of its first sample, counted from the region's first.
    pub(crate) y: usize,
    /// Its size.
    pub(crate) tx_size: TxSize,
    /// The first cell of its block (of 4x4 luma samples), counted from the tile's first.
    pub(crate) partition_bo: TileBlockOffset,
    /// The size of its block in luma.
    pub(crate) partition_size: BlockSize,
    /// Its column in its block, counted in transforms.
    pub(crate) bx: usize,
    /// Its row in its block, counted in transforms.
    pub(crate) by: usize,
}

/// The number of columns of the region that lie in the visible plane.
pub(crate) fn visible_columns<T: Pixel>(dst: &PlaneRegion<'_, T>) -> usize
    requires { BeginsVisible dst.now }
    ensures { result ≡ visible_columns dst.now }
{
    let rect = *dst.rect();
    rect.width.min(dst.plane_cfg.width - rect.x as usize)
}

/// The number of rows of the region that lie in the visible plane.
pub(crate) fn visible_rows<T: Pixel>(dst: &PlaneRegion<'_, T>) -> usize
    requires { BeginsVisible dst.now }
    ensures { result ≡ visible_rows dst.now }
{
    let rect = *dst.rect();
    rect.height.min(dst.plane_cfg.height - rect.y as usize)
}

/// Whether the row or column before a transform lies in the tile. The transform begins `offset` units after its block,
/// which begins at the cell `cell`, in a plane of this decimation.
fn has_before(offset: usize, cell: usize, decimation: usize) -> bool
    ensures { result ≡ has_before offset cell decimation }
{
    offset > 0 || cell > decimation
}

/// The number of available samples of a side whose `count` places begin at `first`: those before `limit`, and, if the
/// side goes on, also those of a `run` after them.
fn num_avail(limit: usize, first: usize, count: usize, goes_on: bool, run: usize) -> usize
    requires begins { first < limit }
    requires some { 0 < count }
    requires few { count ≤ 64 }
    requires short { run ≤ 64 }
    ensures value { result ≡ num_avail limit first count goes_on run }
    ensures least { 0 < result }
    ensures most { first + result ≤ limit }
    ensures within { result ≤ count + run }
{
    let inside = limit - first;
    let own = count.min(inside);
    if goes_on {
        own + run.min(inside - own)
    } else {
        own
    }
}

impl TransformPosition {
    /// Whether the transform is its whole block, in a plane of these decimations that isn't halved, and no side of it
    /// is more than twice the other. The bits of the block's position then say what is coded before it.
    fn is_told_by_bits(self, xdec: usize, ydec: usize) -> bool
        ensures near { result ≡ true → IsNearSquare self.partition_size }
        ensures whole { result ≡ true →
            IsWhole self.partition_size self.tx_size (self.by * transform_rows self.tx_size) (self.bx * transform_columns self.tx_size) xdec ydec }
    {
        let width = self.tx_size.width();
        let height = self.tx_size.height();
        xdec == 0
            && ydec == 0
            && self.bx == 0
            && self.by == 0
            && width == self.partition_size.width()
            && height == self.partition_size.height()
            && width <= 2 * height
            && height <= 2 * width
    }

    /// Whether the samples above right of the transform are available.
    fn has_above_right<T: Pixel>(self, dst: &PlaneRegion<'_, T>) -> bool
        requires begins { BeginsVisible dst.now }
        requires fits { PositionFits dst.now self }
        ensures { result ≡ has_above_right dst.now self }
    {
        let cfg = dst.plane_cfg;
        let column = self.bx * self.tx_size.width_mi();
        let row = self.by * self.tx_size.height_mi();
        let above = has_before(row, self.partition_bo.0.y, cfg.ydec);
        let right = self.x + self.tx_size.width() < visible_columns(dst);
        if above && right && self.is_told_by_bits(cfg.xdec, cfg.ydec) {
            return has_tr(self.partition_bo, self.partition_size);
        }
        has_top_right(
            supersample_chroma_bsize(self.partition_size, cfg.xdec, cfg.ydec),
            self.partition_bo,
            above,
            right,
            self.tx_size,
            row,
            column,
            cfg.xdec,
            cfg.ydec,
        )
    }

    /// Whether the samples below left of the transform are available.
    fn has_below_left<T: Pixel>(self, dst: &PlaneRegion<'_, T>) -> bool
        requires begins { BeginsVisible dst.now }
        requires fits { PositionFits dst.now self }
        ensures { result ≡ has_below_left dst.now self }
    {
        let cfg = dst.plane_cfg;
        let column = self.bx * self.tx_size.width_mi();
        let row = self.by * self.tx_size.height_mi();
        let below = self.y + self.tx_size.height() < visible_rows(dst);
        let left = has_before(column, self.partition_bo.0.x, cfg.xdec);
        if below && left && self.is_told_by_bits(cfg.xdec, cfg.ydec) {
            return has_bl(self.partition_bo, self.partition_size);
        }
        has_bottom_left(
            supersample_chroma_bsize(self.partition_size, cfg.xdec, cfg.ydec),
            self.partition_bo,
            below,
            left,
            self.tx_size,
            row,
            column,
            cfg.xdec,
            cfg.ydec,
        )
    }

    /// The number of available samples above the transform; `needed` says whether those above right are needed.
    pub(crate) fn num_avail_above<T: Pixel>(self, dst: &PlaneRegion<'_, T>, needed: bool) -> usize
        requires begins { BeginsVisible dst.now }
        requires fits { PositionFits dst.now self }
        ensures value { result ≡ num_avail_above dst.now self (needed && has_above_right dst.now self) }
        ensures least { 0 < result }
        ensures most { self.x + result ≤ visible_columns dst.now }
        ensures within { result ≤ tx_width self.tx_size + where_needed needed (tx_height self.tx_size) }
    {
        let goes_on = needed && self.has_above_right(dst);
        let width = self.tx_size.width();
        let run = width.min(self.tx_size.height());
        num_avail(visible_columns(dst), self.x, width, goes_on, run)
    }

    /// The number of available samples to the left of the transform; `needed` says whether those below left are needed.
    pub(crate) fn num_avail_left<T: Pixel>(self, dst: &PlaneRegion<'_, T>, needed: bool) -> usize
        requires begins { BeginsVisible dst.now }
        requires fits { PositionFits dst.now self }
        ensures value { result ≡ num_avail_left dst.now self (needed && has_below_left dst.now self) }
        ensures least { 0 < result }
        ensures most { self.y + result ≤ visible_rows dst.now }
        ensures within { result ≤ tx_height self.tx_size + where_needed needed (tx_width self.tx_size) }
    {
        let goes_on = needed && self.has_below_left(dst);
        let height = self.tx_size.height();
        let run = height.min(self.tx_size.width());
        num_avail(visible_rows(dst), self.y, height, goes_on, run)
    }
}
