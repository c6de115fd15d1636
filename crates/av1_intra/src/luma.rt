//! Computes how far the luma over each chroma sample is from its mean: reads a luma region, writes `ac`.
//!
//! AV1 specification: predict chroma from luma process.

ghost use Rattle.std.specs.Prelude.{◌≡◌, ℕ, ◌+◌, ◌-◌, ◌*◌, ◌^◌, ◌<◌, ◌≤◌, ◌==◌, ◌&&◌, not, min, length, map, sum, pos, ℤ, ◌-ℤ◌, ◌≤ℤ◌};
ghost use Rattle.std.specs.Prelude.{unsigned_abs, slice_index_or, IsTrue};
ghost use Rattle.av1_blocks.specs.Blocks.{block_width, block_height};
ghost use Rattle.av1_blocks.specs.Chroma.{plane_side, is_narrow, is_low};
ghost use Rattle.av1_frame.specs.Samples.{paint_row};
ghost use Rattle.av1_frame.specs.Regions.{IsReadable};
ghost use Rattle.av1_edges.specs.Edges.{region_sample};
ghost use Rattle.av1_intra.specs.Dc.{mean};
ghost use Rattle.av1_intra.specs.Sides.{numbers};
ghost use Rattle.av1_intra.specs.Blocks.{HasLuma, IsChroma};
ghost use Rattle.av1_intra.specs.ChromaFromLuma.{covered, two_rows, luma_at, luma_difference, leaf_difference, with_rows, columns_read, rows_read, last_begun};
ghost use Rattle.av1_intra.specs.ChromaFromLuma.{padded_block, chroma_block, first_luma_column, first_luma_row, luma_start, coded_side, averaged_side};

use crate::samples::number_at;
use av1_blocks::{BlockSize, TxSize};
use av1_frame::{Area, Pixel, PlaneRegion, fill_row};

/// A leaf whose chroma is predicted from its luma.
#[derive(Clone, Copy)]
pub struct LumaLeaf {
    /// The first column of its luma.
    pub x: usize,
    /// The first row of its luma.
    pub y: usize,
    /// Its size in luma.
    pub bsize: BlockSize,
    /// The size of its luma transforms.
    pub tx_size: TxSize,
    /// The width of the coded luma plane, in samples.
    pub visible_width: usize,
    /// The height of the coded luma plane, in samples.
    pub visible_height: usize,
    /// 1 if chroma has half of the columns, else 0.
    pub xdec: usize,
    /// 1 if chroma has half of the rows, else 0.
    pub ydec: usize,
}

/// A block of chroma over luma.
#[derive(Clone, Copy)]
pub(crate) struct ChromaBlock {
    /// The number of its chroma columns.
    pub(crate) width: usize,
    /// The number of its chroma rows.
    pub(crate) height: usize,
    /// 1 if chroma has half of the columns, else 0.
    pub(crate) xdec: usize,
    /// 1 if chroma has half of the rows, else 0.
    pub(crate) ydec: usize,
    /// The last luma column at which a chroma sample begins. Chroma samples past it use its luma.
    pub(crate) last_column: usize,
    /// The last luma row at which a chroma sample begins. Chroma samples past it use its luma.
    pub(crate) last_row: usize,
}

/// The luma over one chroma sample, in eighths: one, two or four samples, from column `x` on, in the row `top`, and
/// also in the next row, `below`, if chroma has half of the rows.
fn luma_over<T: Pixel, const XDEC: usize, const YDEC: usize>(
    top: &[T],
    below: &[T],
    x: usize,
) -> i16
    requires xdec { XDEC ≤ 1 }
    requires ydec { YDEC ≤ XDEC }
    requires few { x < 2 ^ 32 }
    requires top_long { x + XDEC < length top.now }
    requires below_long { x + XDEC < length below.now }
    requires top_low { (k : ℕ) → k ≤ x + XDEC → numbers T.num top.now k < 4096 }
    requires below_low { (k : ℕ) → k ≤ x + XDEC → numbers T.num below.now k < 4096 }
    ensures { result ≡ pos (covered (two_rows T.num top.now below.now) XDEC YDEC x 0) }
{
    let mut sum = number_at(top, x);
    if XDEC != 0 {
        sum += number_at(top, x + 1);
    }
    if YDEC != 0 {
        sum += number_at(below, x) + number_at(below, x + 1);
    }
    (sum << (3 - XDEC - YDEC)) as i16
}

/// The luma over each of the `width` chroma samples of a row. Samples past the one that begins at `last_column` use its
/// luma.
#[tactic(auto, using(av1_frame::proofs::Paint::row_painting))]
fn luma_row<T: Pixel, const XDEC: usize, const YDEC: usize>(
    row: &mut [i16],
    top: &[T],
    below: &[T],
    width: usize,
    last_column: usize,
)
    requires xdec { XDEC ≤ 1 }
    requires ydec { YDEC ≤ XDEC }
    requires whole { length row.old ≡ width }
    requires short { width ≤ 128 }
    requires few { last_column < 2 ^ 16 }
    requires top_long { min (width * 2 ^ XDEC) (last_column + 2 ^ XDEC) ≤ length top.now }
    requires below_long { min (width * 2 ^ XDEC) (last_column + 2 ^ XDEC) ≤ length below.now }
    requires top_low { (k : ℕ) → k < min (width * 2 ^ XDEC) (last_column + 2 ^ XDEC) → numbers T.num top.now k < 4096 }
    requires below_low { (k : ℕ) → k < min (width * 2 ^ XDEC) (last_column + 2 ^ XDEC) → numbers T.num below.now k < 4096 }
    ensures { row.new ≡ paint_row width (λ c _. pos (covered (two_rows T.num top.now below.now) XDEC YDEC (min (c * 2 ^ XDEC) last_column) 0)) row.old }
{
    let own = width.min((last_column >> XDEC) + 1);
    for c in 0..own {
        row[c] = luma_over::<T, XDEC, YDEC>(top, below, c << XDEC);
    }
    if own < width {
        let last = luma_over::<T, XDEC, YDEC>(top, below, last_column);
        fill_row(&mut row[own..width], last, width - own);
    }
}

/// The luma over each sample of a chroma block, row by row.
fn luma_rows<T: Pixel, const XDEC: usize, const YDEC: usize>(
    ac: &mut [i16],
    luma: &PlaneRegion<'_, T>,
    block: ChromaBlock,
)
    requires xdec { XDEC ≤ 1 }
    requires ydec { YDEC ≤ XDEC }
    requires is_xdec { block.xdec ≡ XDEC }
    requires is_ydec { block.ydec ≡ YDEC }
    requires chroma { IsChroma block }
    requires luma { HasLuma T.num luma.now block }
    requires ac_long { block.width * block.height ≤ length ac.old }
    ensures { ac.new ≡ with_rows block.width block.height (λ r c. pos (luma_at (region_sample T.num luma.now) block r c)) ac.old }
{
    for r in 0..block.height {
        let y = (r << YDEC).min(block.last_row);
        luma_row::<T, XDEC, YDEC>(
            &mut ac[r * block.width..(r + 1) * block.width],
            luma.row(y),
            luma.row(y + YDEC),
            block.width,
            block.last_column,
        );
    }
}

/// The sum of the entries; no entry is below 0.
fn total(ac: &[i16]) -> u32
    requires { length ac.now ≤ 16384 }
    ensures value { result ≡ sum (map unsigned_abs ac.now) }
    ensures small { result ≤ length ac.now * 32768 }
{
    let mut total = 0;
    for v in ac {
        total += u32::from(v.unsigned_abs());
    }
    total
}

/// Subtracts their mean from all entries; no entry is below 0.
#[tactic(auto, using(av1_frame::proofs::Paint::row_painting))]
fn subtract_mean(ac: &mut [i16])
    requires some { 0 < length ac.old }
    requires few { length ac.old ≤ 16384 }
    requires within { (k : ℕ) → k < length ac.old → (pos 0 ≤ℤ slice_index_or ac.old k (pos 0)) × (slice_index_or ac.old k (pos 0) ≤ℤ pos 32760) }
    ensures { ac.new ≡ paint_row (length ac.old) (λ _ v. v -ℤ pos (mean (map unsigned_abs ac.old))) ac.old }
{
    let count = ac.len() as u32;
    let mean = ((total(ac) + count / 2) / count) as i16;
    for k in 0..ac.len() {
        ac[k] -= mean;
    }
}

/// The last luma column (or row) at which a chroma sample begins, in a block of `side` columns. The last `pad` units of
/// 4 columns have no luma of their own.
fn last_begun<const DECIMATION: usize>(side: usize, pad: usize) -> usize
    requires decimation { DECIMATION ≤ 1 }
    requires pad { 4 * pad < side }
    requires side { side ≤ 128 }
    ensures value { result ≡ last_begun ((side - 4 * pad) * 2 ^ DECIMATION) DECIMATION }
    ensures small { result < 2 ^ 16 }
{
    ((side - 4 * pad) << DECIMATION).max(8) - (1 << DECIMATION)
}

/// A chroma block whose last `w_pad` units of 4 columns and `h_pad` units of 4 rows have no luma of their own.
fn padded_block<const XDEC: usize, const YDEC: usize>(
    plane_bsize: BlockSize,
    w_pad: usize,
    h_pad: usize,
) -> ChromaBlock
    requires xdec { XDEC ≤ 1 }
    requires ydec { YDEC ≤ 1 }
    requires w_pad { 4 * w_pad < block_width plane_bsize }
    requires h_pad { 4 * h_pad < block_height plane_bsize }
    ensures value { result ≡ padded_block plane_bsize w_pad h_pad XDEC YDEC }
    ensures chroma { IsChroma result }
{
    let width = plane_bsize.width();
    let height = plane_bsize.height();
    ChromaBlock {
        width,
        height,
        xdec: XDEC,
        ydec: YDEC,
        last_column: last_begun::<XDEC>(width, w_pad),
        last_row: last_begun::<YDEC>(height, h_pad),
    }
}

/// The differences of a chroma block: the luma over each sample less the mean of all of them.
fn block_differences<T: Pixel, const XDEC: usize, const YDEC: usize>(
    ac: &mut [i16],
    luma: &PlaneRegion<'_, T>,
    block: ChromaBlock,
)
    requires xdec { XDEC ≤ 1 }
    requires ydec { YDEC ≤ XDEC }
    requires is_xdec { block.xdec ≡ XDEC }
    requires is_ydec { block.ydec ≡ YDEC }
    requires chroma { IsChroma block }
    requires luma { HasLuma T.num luma.now block }
    requires ac_long { block.width * block.height ≤ length ac.old }
    ensures { ac.new ≡ with_rows block.width block.height (luma_difference (region_sample T.num luma.now) block) ac.old }
{
    luma_rows::<T, XDEC, YDEC>(ac, luma, block);
    subtract_mean(&mut ac[..block.width * block.height]);
}

/// Writes to `ac`, row by row, how far the luma over each sample of a chroma block is from its mean, in eighths. The
/// luma of a sample is the average of the luma samples over it, from the first sample of `luma` on. `XDEC` and `YDEC`
/// are 1 if chroma has half of the columns and of the rows. The last `w_pad` units of 4 columns and `h_pad` units of 4
/// rows have no luma of their own: they repeat the column and the row before them. The other entries of `ac` are
/// unchanged.
pub fn pred_cfl_ac<T: Pixel, const XDEC: usize, const YDEC: usize>(
    ac: &mut [i16],
    luma: &PlaneRegion<'_, T>,
    plane_bsize: BlockSize,
    w_pad: usize,
    h_pad: usize,
)
    requires readable { IsReadable luma.now }
    requires xdec { XDEC ≤ 1 }
    requires ydec { YDEC ≤ XDEC }
    requires w_pad { 4 * w_pad < block_width plane_bsize }
    requires h_pad { 4 * h_pad < block_height plane_bsize }
    requires ac_long { block_width plane_bsize * block_height plane_bsize ≤ length ac.old }
    requires columns { columns_read (padded_block plane_bsize w_pad h_pad XDEC YDEC) ≤ luma.now.area.width }
    requires rows { rows_read (padded_block plane_bsize w_pad h_pad XDEC YDEC) ≤ luma.now.area.height }
    requires low { let block = padded_block plane_bsize w_pad h_pad XDEC YDEC in (x y : ℕ) → x < columns_read block → y < rows_read block →
        region_sample T.num luma.now x y < 4096 }
    ensures { ac.new ≡ with_rows (block_width plane_bsize) (block_height plane_bsize)
        (luma_difference (region_sample T.num luma.now) (padded_block plane_bsize w_pad h_pad XDEC YDEC)) ac.old }
{
    let block = padded_block::<XDEC, YDEC>(plane_bsize, w_pad, h_pad);
    block_differences::<T, XDEC, YDEC>(ac, luma, block);
}

/// The position at which the luma of a leaf's chroma begins, along one direction. If a side of 4 is halved, its chroma
/// belongs to 8 luma samples, of which the leaf has the last 4.
fn luma_start(first: usize, side: usize, decimation: usize) -> usize
    requires { IsTrue (not (decimation == 0) && side == 4) → 4 ≤ first }
    ensures { result ≡ luma_start first side decimation }
{
    if decimation != 0 && side == 4 {
        first - 4
    } else {
        first
    }
}

/// The last luma column (or row) at which a chroma sample of a leaf begins, along one direction.
fn last_of_leaf(
    start: usize,
    side: usize,
    tx_side: usize,
    visible: usize,
    decimation: usize,
) -> usize
    requires decimation { decimation ≤ 1 }
    requires side { side ≤ 128 }
    requires some { 0 < tx_side }
    requires tx_side { tx_side ≤ 64 }
    ensures value { result ≡ last_begun (averaged_side side (coded_side start side tx_side visible) decimation) decimation }
    ensures small { result < 2 ^ 16 }
{
    let coded = if side <= 8 {
        side
    } else {
        (side.min(visible.saturating_sub(start)) + tx_side - 1) / tx_side * tx_side
    };
    let unit = 4 << decimation;
    let averaged = side - side.saturating_sub(coded) / unit * unit;
    averaged.max(8) - (1 << decimation)
}

/// A side of a leaf in chroma.
fn plane_side(side: usize, decimation: usize) -> usize
    requires decimation { decimation ≤ 1 }
    requires side { side ≤ 128 }
    ensures value { result ≡ plane_side side decimation }
    ensures some { 0 < result }
    ensures few { result ≤ 128 }
{
    (side >> decimation).max(4)
}

impl LumaLeaf {
    /// The first luma column that its chroma uses.
    fn first_luma_column(self) -> usize
        requires { IsTrue (is_narrow self.bsize self.xdec) → 4 ≤ self.x }
        ensures { result ≡ first_luma_column self }
    {
        luma_start(self.x, self.bsize.width(), self.xdec)
    }

    /// The first luma row that its chroma uses.
    fn first_luma_row(self) -> usize
        requires { IsTrue (is_low self.bsize self.ydec) → 4 ≤ self.y }
        ensures { result ≡ first_luma_row self }
    {
        luma_start(self.y, self.bsize.height(), self.ydec)
    }

    /// The number of its chroma samples.
    pub fn area(self) -> usize
        requires xdec { self.xdec ≤ 1 }
        requires ydec { self.ydec ≤ 1 }
        ensures { result ≡ (chroma_block self).width * (chroma_block self).height }
    {
        let (width, height) = (self.bsize.width(), self.bsize.height());
        plane_side(width, self.xdec) * plane_side(height, self.ydec)
    }

    /// Its chroma block, whose luma begins at column `x` of row `y`.
    fn chroma_block(self, x: usize, y: usize) -> ChromaBlock
        requires xdec { self.xdec ≤ 1 }
        requires ydec { self.ydec ≤ 1 }
        requires column { x ≡ first_luma_column self }
        requires row { y ≡ first_luma_row self }
        ensures value { result ≡ chroma_block self }
        ensures chroma { IsChroma result }
    {
        let (width, height) = (self.bsize.width(), self.bsize.height());
        let (tx_width, tx_height) = (self.tx_size.width(), self.tx_size.height());
        ChromaBlock {
            width: plane_side(width, self.xdec),
            height: plane_side(height, self.ydec),
            xdec: self.xdec,
            ydec: self.ydec,
            last_column: last_of_leaf(x, width, tx_width, self.visible_width, self.xdec),
            last_row: last_of_leaf(y, height, tx_height, self.visible_height, self.ydec),
        }
    }
}

/// The differences of a chroma block, by its decimations.
fn differences<T: Pixel>(ac: &mut [i16], luma: &PlaneRegion<'_, T>, block: ChromaBlock)
    requires ydec { block.ydec ≤ block.xdec }
    requires chroma { IsChroma block }
    requires luma { HasLuma T.num luma.now block }
    requires ac_long { block.width * block.height ≤ length ac.old }
    ensures { ac.new ≡ with_rows block.width block.height (luma_difference (region_sample T.num luma.now) block) ac.old }
{
    if block.xdec == 0 {
        block_differences::<T, 0, 0>(ac, luma, block);
    } else if block.ydec == 0 {
        block_differences::<T, 1, 0>(ac, luma, block);
    } else {
        block_differences::<T, 1, 1>(ac, luma, block);
    }
}

/// Writes to `ac`, row by row, how far the luma over each chroma sample of a leaf is from its mean, in eighths. The
/// region `luma` holds the luma that was decoded before, and the leaf's position counts from its first sample. Past the
/// last transform that begins in the coded plane, the luma before it is repeated. The other entries of `ac` are
/// unchanged.
pub fn leaf_luma_ac<T: Pixel>(ac: &mut [i16], luma: &PlaneRegion<'_, T>, leaf: LumaLeaf)
    requires readable { IsReadable luma.now }
    requires xdec { leaf.xdec ≤ 1 }
    requires ydec { leaf.ydec ≤ leaf.xdec }
    requires left { IsTrue (is_narrow leaf.bsize leaf.xdec) → 4 ≤ leaf.x }
    requires top { IsTrue (is_low leaf.bsize leaf.ydec) → 4 ≤ leaf.y }
    requires ac_long { (chroma_block leaf).width * (chroma_block leaf).height ≤ length ac.old }
    requires columns { first_luma_column leaf + columns_read (chroma_block leaf) ≤ luma.now.area.width }
    requires rows { first_luma_row leaf + rows_read (chroma_block leaf) ≤ luma.now.area.height }
    requires low { (x y : ℕ) → x < columns_read (chroma_block leaf) → y < rows_read (chroma_block leaf)
        → region_sample T.num luma.now (first_luma_column leaf + x) (first_luma_row leaf + y) < 4096 }
    ensures { ac.new ≡ with_rows (chroma_block leaf).width (chroma_block leaf).height (leaf_difference (region_sample T.num luma.now) leaf) ac.old }
{
    let (x, y) = (leaf.first_luma_column(), leaf.first_luma_row());
    let rect = *luma.rect();
    let rest = luma.subregion(Area::Rect {
        x: x as isize,
        y: y as isize,
        width: rect.width - x,
        height: rect.height - y,
    });
    differences(ac, &rest, leaf.chroma_block(x, y));
}
