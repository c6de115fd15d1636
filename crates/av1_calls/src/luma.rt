//! Tests its arguments, then writes how far luma over a chroma block is from its mean to the caller's list.
//!
//! AV1 specification: predict chroma from luma process.
ghost use Rattle.std.specs.Prelude.{true, ◌≡◌, ℕ, ◌+◌, ◌-◌, ◌*◌, ◌^◌, ◌<◌, ◌≤◌, min, map, IfOk, IfErr, IfSome, None, length};
ghost use Rattle.av1_blocks.specs.Blocks.{block_height, block_width};
ghost use Rattle.av1_edges.specs.Edges.{region_sample};
ghost use Rattle.av1_frame.specs.Areas.{AreRows};
ghost use Rattle.av1_frame.specs.Regions.{IsReadable};
ghost use Rattle.av1_intra.specs.ChromaFromLuma.{columns_read, last_begun, luma_difference, padded_block, rows_read, with_rows};
ghost use Rattle.av1_calls.specs.LumaBlocks.{GivesDifferences, HasLuma, HasNoChromaSize, IsCflBlock, IsCflFault, IsChromaSize};
ghost use Rattle.av1_calls.specs.LumaBlocks.{IsLumaTested, IsSampling, luma_area, luma_in, with_differences};
ghost use Rattle.av1_calls.specs.Samples.{AreBelow};

use crate::argument::{BadArgument, are_rows};
use crate::samples::have_8_bits;
use crate::status::DONE;
use av1_blocks::BlockSize;
use av1_frame::{Pixel, PlaneConfig, PlaneRegion, StoredArea, visible_area};
use av1_intra::pred_cfl_ac;

/// A block of chroma that is predicted from luma.
#[repr(C)]
#[derive(Clone, Copy, Debug, PartialEq, Eq)]
pub struct CflBlock {
    /// The number of its size in samples of chroma, among the sizes of blocks from 0 (`BLOCK_4X4`) on. Its width and
    /// its height are at most 32.
    pub block_size: u8,
    /// 1 if chroma has half of luma's columns, else 0.
    pub xdec: u8,
    /// 1 if chroma has half of luma's rows, else 0. It is 1 only if `xdec` is 1.
    pub ydec: u8,
    /// How many units of 4 columns, at its right end, have no luma of their own.
    pub w_pad: usize,
    /// How many units of 4 rows, at its lower end, have no luma of their own.
    pub h_pad: usize,
}

/// The size of a block of chroma, and the rectangle of luma that is read for it.
#[derive(Clone, Copy)]
struct ChromaSource {
    size: BlockSize,
    area: StoredArea,
}

// The size of this number, if its width and its height are at most 32.
#[inline(always)]
fn chroma_size(number: u8) -> Option<BlockSize>
    ensures found { IfSome result (IsChromaSize number) }
    ensures none { result ≡ None → HasNoChromaSize number }
{
    let size = BlockSize::from_number(number)?;
    if size.width() <= 32 && size.height() <= 32 {
        Some(size)
    } else {
        None
    }
}

// Whether chroma is 4:4:4, 4:2:2 or 4:2:0.
#[inline(always)]
pub(crate) fn is_sampling(xdec: u8, ydec: u8) -> bool
    ensures true_is { result ≡ true → IsSampling xdec ydec }
    ensures is_true { IsSampling xdec ydec → result ≡ true }
{
    xdec <= 1 && ydec <= xdec
}

// Whether `pad` units of 4 samples are less than a whole side of at most 32.
#[inline(always)]
fn leave_some(side: usize, pad: usize) -> bool
    requires { side ≤ 32 }
    ensures true_is { result ≡ true → 4 * pad < side }
    ensures is_true { 4 * pad < side → result ≡ true }
{
    pad < 8 && 4 * pad < side
}

#[inline(always)]
fn has_luma(block: CflBlock, size: BlockSize) -> bool
    requires narrow { block_width size ≤ 32 }
    requires low { block_height size ≤ 32 }
    ensures true_is { result ≡ true → HasLuma block size }
    ensures is_true { HasLuma block size → result ≡ true }
{
    leave_some(size.width(), block.w_pad) && leave_some(size.height(), block.h_pad)
}

// How many columns, or rows, of luma are read for a side of chroma.
#[inline(always)]
fn side_read(side: usize, pad: usize, decimation: usize) -> usize
    requires decimation { decimation ≤ 1 }
    requires pad { 4 * pad < side }
    requires side { side ≤ 32 }
    ensures value { result ≡ min (side * 2 ^ decimation) (last_begun ((side - 4 * pad) * 2 ^ decimation) decimation + 2 ^ decimation) }
    ensures some { 0 < result }
{
    (side << decimation).min(((side - 4 * pad) << decimation).max(8))
}

// The rectangle of luma that is read for a block of this size.
#[inline(always)]
fn luma_area(block: CflBlock, size: BlockSize, x: usize, y: usize) -> StoredArea
    requires sampled { IsSampling block.xdec block.ydec }
    requires padded { HasLuma block size }
    requires narrow { block_width size ≤ 32 }
    requires low { block_height size ≤ 32 }
    ensures value { result ≡ luma_area block size x y }
    ensures some_columns { 0 < result.width }
    ensures some_rows { 0 < result.height }
{
    StoredArea {
        x,
        y,
        width: side_read(size.width(), block.w_pad, usize::from(block.xdec)),
        height: side_read(size.height(), block.h_pad, usize::from(block.ydec)),
    }
}

/// Reads a block of chroma from its numbers. There are `ac` differences and `samples` samples of luma.
///
/// # Errors
///
/// `Size`, then `Sampling`, then `Pad`, then `Area`, then `Short`.
#[inline(always)]
fn luma_of(
    block: CflBlock,
    stride: usize,
    x: usize,
    y: usize,
    ac: usize,
    samples: usize,
) -> Result<ChromaSource, BadArgument>
    ensures found { IfOk result (λ luma. IsCflBlock block stride x y ac samples luma.size) }
    ensures area { IfOk result (λ luma. luma.area ≡ luma_area block luma.size x y) }
    ensures some_columns { IfOk result (λ luma. 0 < luma.area.width) }
    ensures some_rows { IfOk result (λ luma. 0 < luma.area.height) }
    ensures fault { IfErr result (IsCflFault block stride x y ac samples) }
{
    let Some(size) = chroma_size(block.block_size) else {
        return Err(BadArgument::Size);
    };
    if !is_sampling(block.xdec, block.ydec) {
        return Err(BadArgument::Sampling);
    }
    if !has_luma(block, size) {
        return Err(BadArgument::Pad);
    }
    let area = luma_area(block, size, x, y);
    if !are_rows(stride, area, samples) {
        return Err(BadArgument::Area);
    }
    if ac < size.area() {
        return Err(BadArgument::Short);
    }
    Ok(ChromaSource { size, area })
}

/// A rectangle of samples as a region.
#[inline(always)]
fn region_of<T: Pixel>(samples: &[T], stride: usize, area: StoredArea) -> PlaneRegion<'_, T>
    requires rows { AreRows stride area (length samples.now) }
    requires some_columns { 0 < area.width }
    requires some_rows { 0 < area.height }
    ensures readable { IsReadable result }
    ensures columns { result.area.width ≡ area.width }
    ensures lines { result.area.height ≡ area.height }
    ensures same { (p q : ℕ) → p < area.width → q < area.height → region_sample T.num result p q ≡ luma_in stride area (map T.num samples.now) p q }
{
    let rows = area.y + area.height;
    let (samples, _) = samples.split_at(rows * stride);
    let plane_cfg = PlaneConfig::bare(stride, rows, area);
    PlaneRegion::from_slice(
        samples,
        plane_cfg,
        visible_area(0, 0, area.width, area.height),
    )
}

/// Writes the differences of a block with this subsampling into the first entries of `ac`.
#[inline(always)]
fn put_differences<T: Pixel, const XDEC: usize, const YDEC: usize>(
    ac: &mut [i16],
    samples: &[T],
    stride: usize,
    luma: ChromaSource,
    w_pad: usize,
    h_pad: usize,
)
    requires xdec { XDEC ≤ 1 }
    requires ydec { YDEC ≤ XDEC }
    requires w_pad { 4 * w_pad < block_width luma.size }
    requires h_pad { 4 * h_pad < block_height luma.size }
    requires long { block_width luma.size * block_height luma.size ≤ length ac.old }
    requires rows { AreRows stride luma.area (length samples.now) }
    requires some_columns { 0 < luma.area.width }
    requires some_rows { 0 < luma.area.height }
    requires columns { luma.area.width ≡ columns_read (padded_block luma.size w_pad h_pad XDEC YDEC) }
    requires lines { luma.area.height ≡ rows_read (padded_block luma.size w_pad h_pad XDEC YDEC) }
    requires low { AreBelow 4096 stride luma.area (map T.num samples.now) }
    ensures { ac.new ≡ with_rows (block_width luma.size) (block_height luma.size)
        (luma_difference (luma_in stride luma.area (map T.num samples.now)) (padded_block luma.size w_pad h_pad XDEC YDEC)) ac.old }
{
    let region = region_of(samples, stride, luma.area);
    pred_cfl_ac::<T, XDEC, YDEC>(ac, &region, luma.size, w_pad, h_pad);
}

/// Writes the differences of a block into the first entries of `ac`, with the subsampling of the block.
#[inline(always)]
fn put_differences_of<T: Pixel>(
    ac: &mut [i16],
    samples: &[T],
    stride: usize,
    x: usize,
    y: usize,
    luma: ChromaSource,
    block: CflBlock,
)
    requires asked { IsCflBlock block stride x y (length ac.old) (length samples.now) luma.size }
    requires area { luma.area ≡ luma_area block luma.size x y }
    requires some_columns { 0 < luma.area.width }
    requires some_rows { 0 < luma.area.height }
    requires low { AreBelow 4096 stride luma.area (map T.num samples.now) }
    ensures { ac.new ≡ with_differences block luma.size stride x y (map T.num samples.now) ac.old }
{
    let (w_pad, h_pad) = (block.w_pad, block.h_pad);
    if block.xdec == 0 {
        put_differences::<T, 0, 0>(ac, samples, stride, luma, w_pad, h_pad);
    } else if block.ydec == 0 {
        put_differences::<T, 1, 0>(ac, samples, stride, luma, w_pad, h_pad);
    } else {
        put_differences::<T, 1, 1>(ac, samples, stride, luma, w_pad, h_pad);
    }
}

/// Writes how far the luma over each sample of a block of chroma is from its mean, at a depth of 8. `ac` gets the
/// differences row by row, in eighths of a sample. The other entries of `ac` are unchanged. `tilg_predict_cfl_8` takes
/// these differences. They are the averages of the specification's "predict chroma from luma process".
///
/// The block's luma begins at column `x` of row `y` of `luma`, and rows are `stride` samples apart. The call reads the
/// columns and rows of luma over the chroma that has luma of its own. It reads at least 8 of each, but none past the
/// block. The rest of the block repeats the last column and row that are read.
///
/// `DONE`: success. `BAD_SIZE`: no size of at most 32 by 32 has the number. `BAD_SAMPLING`: chroma has no such
/// subsampling. `BAD_PAD`: no column or no row has luma of its own. `BAD_AREA`: the luma that is read does not lie in
/// the samples. `TOO_SHORT`: `ac` has fewer entries than the block has samples.
pub fn tilg_cfl_ac_8(
    ac: &mut [i16],
    luma: &[u8],
    stride: usize,
    x: usize,
    y: usize,
    block: &CflBlock,
) -> u32
    ensures { GivesDifferences block.now stride x y luma.now ac.old ac.new result }
{
    let block = *block;
    match luma_of(block, stride, x, y, ac.len(), luma.len()) {
        Ok(found) => {
            have_8_bits(luma);
            put_differences_of(ac, luma, stride, x, y, found, block);
            DONE
        }
        Err(fault) => fault.status(),
    }
}

/// Writes the differences as [`tilg_cfl_ac_8`] does, from samples of 16 bits. The differences are the same whatever the
/// depth. The call does not test the samples. The caller has to ensure that each sample that is read is below 4096, as
/// samples of at most 12 bits are. `tilg_test_samples_16` tests a whole plane.
pub fn tilg_cfl_ac_tested_16(
    ac: &mut [i16],
    luma: &[u16],
    stride: usize,
    x: usize,
    y: usize,
    block: &CflBlock,
) -> u32
    requires { IsLumaTested block.now stride x y luma.now }
    ensures { GivesDifferences block.now stride x y luma.now ac.old ac.new result }
{
    let block = *block;
    match luma_of(block, stride, x, y, ac.len(), luma.len()) {
        Ok(found) => {
            put_differences_of(ac, luma, stride, x, y, found, block);
            DONE
        }
        Err(fault) => fault.status(),
    }
}
