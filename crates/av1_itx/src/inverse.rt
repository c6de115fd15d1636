//! Adds a block's residual, the inverse transform of its coefficients, to its samples. Allocates only a `TxScratch`.

ghost use Rattle.std.specs.Prelude.{◌≡◌, ℕ, ◌+◌, ◌-◌, ◌*◌, ◌/◌, ◌<◌, ◌≤◌, ◌⊎◌, IfOk, IsTrue, OnOk, OnErr, false, ℤ, pos, ◌+ℤ◌, length, map, vec_len};
ghost use Rattle.av1_blocks.specs.declared.transform.TxSize.TheVariants.{TX_4X4};
ghost use Rattle.av1_blocks.specs.declared.transform.TxType.TheVariants.{WHT_WHT};
ghost use Rattle.av1_blocks.specs.Depths.{IsDepth};
ghost use Rattle.av1_blocks.specs.Transforms.{tx_number, tx_width, tx_height, coded, coded_area, valid_av1_transform};
ghost use Rattle.av1_dct.specs.Arithmetic.{at, FitsBits};
ghost use Rattle.av1_lists.specs.Counts.{raised};
ghost use Rattle.av1_frame.specs.Arithmetic.{clip};
ghost use Rattle.av1_frame.specs.Areas.{AreRows};
ghost use Rattle.av1_frame.specs.Samples.{paint};
ghost use Rattle.av1_frame.specs.Regions.{InStorage, painted};
ghost use Rattle.av1_itx.specs.LaneGroups.{lane_groups};
ghost use Rattle.av1_itx.specs.Residue.{column_power, column_shift, residue, residue_by, row_power};
ghost use Rattle.av1_itx.specs.Scaffolding.{AreCoefficients, IsPlaceFor, IsSingleBlock, IsSmallWord};

use crate::adding::{add_all, depth_of, raise_all};
use crate::block::Block;
use crate::column_pass::{column_pass, column_pass_of, column_range_of};
use crate::columns::{LANES, run_single, single_value};
use crate::kinds::is_lossless;
use crate::row_pass::{coefficient_at, row_pass, rows_of};
use crate::single::{is_single, top_value};
use crate::words::BlockWord;
use av1_blocks::{OutOfMemory, TxSize, TxType};
use av1_dct::LaneCount;
use av1_frame::{Pixel, PlaneRegionMut, StoredArea, repeated, round_shift};
use std::alloc::Global;
use std::simd::prelude::*;

/// The values of one block between its passes, and the count of groups of eight columns.
#[derive(Drop)]
pub struct TxScratch {
    buffer: Vec<i32>,
    count: LaneCount,
    /// Whether blocks follow AV1's rule: identities along rows never wrap, and in lossless blocks (`WHT_WHT`) nothing
    /// is clamped between the passes. A new scratch follows rav1e's rule: identities wrap at 32 bits, and all blocks
    /// are clamped.
    pub by_av1: bool,
    ghost long: { vec_len buffer ≡ 4096 },
}

impl TxScratch {
    /// Allocates a buffer that fits every size up to 64x64. The only error is running out of memory.
    pub fn new(alloc: Global) -> Result<TxScratch, OutOfMemory>
        ensures groups { IfOk result (λ scratch. scratch.count.groups ≡ 0) }
        ensures rule { IfOk result (λ scratch. scratch.by_av1 ≡ false) }
    {
        let buffer = repeated(alloc, 0, 4096)?;
        Ok(TxScratch {
            buffer,
            count: LaneCount::new(),
            by_av1: false,
        })
    }

    /// The number of groups of eight columns that went through the lanes. It stays at the last value of a `u64`.
    pub fn lane_groups(&self) -> u64
        ensures { result ≡ self.now.count.groups }
    {
        self.count.groups()
    }
}

/// A buffer for the values of one block between its passes: 24,576 bytes, of which a call needs at most 16,384. Its
/// values before a call have no effect. It is a struct that has only an array of `i32`, so that C or Rust may own it.
#[repr(C)]
#[derive(Drop)]
pub struct TxRoom {
    values: [i32; 6144],
}

impl TxRoom {
    /// A buffer that fits every size up to 64x64.
    pub fn new() -> TxRoom {
        TxRoom { values: [0; 6144] }
    }
}

fn column_shift_of(tx_type: TxType) -> usize
    ensures value { result ≡ column_shift tx_type }
    ensures small { result ≤ 4 }
    ensures one_of { (result ≡ 0) ⊎ (result ≡ 4) }
{
    if is_lossless(tx_type) { 0 } else { 4 }
}

// A rectangle of a slice whose rows are `stride` apart.
#[derive(Clone, Copy)]
struct StridedArea {
    stride: usize,
    area: StoredArea,
}

// The inverse transform of a block by two cosine transforms, if only its first coefficient is not 0: each sample gets
// the same residual.
fn add_single<T: Pixel>(
    count: &mut LaneCount,
    input: &[T::Coeff],
    samples: &mut [T],
    place: StridedArea,
    block: Block,
)
    requires depth { block.bd ≤ T.BITS }
    requires block { AreCoefficients T.Coeff.val block input.now }
    requires place { IsPlaceFor block place (length samples.old) }
    requires single { IsSingleBlock T.Coeff.val block.tx_type input.now }
    ensures painted { samples.new ≡ paint place.stride place.area
        (λ r c v. T.pixel (clip block.bd (pos (T.num v) +ℤ residue_by block.by_av1 block.tx_size block.tx_type block.bd (map T.Coeff.val input.now) r c)))
        samples.old }
    ensures counts { count.new.groups ≡ raised count.old.groups (lane_groups block.tx_size block.tx_type) }
{
    let top = top_value(coefficient_at(input, 0), block);
    let groups = block.tx_size.width() / LANES;
    let range = column_range_of(block.bd);
    run_single(count, top, groups, range);
    let value = single_value(top, range);
    let residue = round_shift(value, column_shift_of(block.tx_type));
    raise_all(samples, place.stride, place.area, residue, block.bd);
}

// The block, with its size by number. A compiler then knows the size if it knows the number, and the depth if samples
// have one byte.
#[inline(always)]
fn known<T: Pixel>(block: Block, number: u8) -> Block
    requires depths { 8 ≤ block.bd }
    requires depth { block.bd ≤ T.BITS }
    requires number { tx_number block.tx_size ≡ number }
    ensures { result ≡ block }
{
    match TxSize::from_number(number) {
        Some(tx_size) => Block {
            tx_size,
            bd: depth_of::<T>(block.bd),
            ..block
        },
        None => block,
    }
}

// The inverse transform over a buffer of exactly the block's size.
fn add_block<T: Pixel>(
    buffer: &mut [i32],
    count: &mut LaneCount,
    input: &[T::Coeff],
    samples: &mut [T],
    place: StridedArea,
    block: Block,
)
    requires depth { block.bd ≤ T.BITS }
    requires block { AreCoefficients T.Coeff.val block input.now }
    requires place { IsPlaceFor block place (length samples.old) }
    requires buffer_len { length buffer.old ≡ tx_height block.tx_size * tx_width block.tx_size }
    ensures painted { samples.new ≡ paint place.stride place.area
        (λ r c v. T.pixel (clip block.bd (pos (T.num v) +ℤ residue_by block.by_av1 block.tx_size block.tx_type block.bd (map T.Coeff.val input.now) r c)))
        samples.old }
    ensures counts { count.new.groups ≡ raised count.old.groups (lane_groups block.tx_size block.tx_type) }
{
    row_pass(input, buffer, block);
    column_pass(buffer, count, block);
    let shift = column_shift_of(block.tx_type);
    add_all(samples, place.stride, place.area, buffer, shift, block.bd);
}

// The same for rows of M = 2^(I+1) values and columns of N = 2^(K+1) values. Words R hold rows, and words W columns, as
// many as they have lanes.
#[inline(always)]
fn add_shaped<
    T: Pixel,
    R: BlockWord,
    W: BlockWord,
    const I: usize,
    const M: usize,
    const K: usize,
    const N: usize,
>(
    buffer: &mut [i32],
    count: &mut LaneCount,
    input: &[T::Coeff],
    samples: &mut [T],
    place: StridedArea,
    block: Block,
)
    requires lanes { (R.LANES ≡ 4) ⊎ (R.LANES ≡ 8) }
    requires small_rows { IsSmallWord R.row }
    requires whole_rows { R.LANES * (coded (tx_height block.tx_size) / R.LANES) ≡ coded (tx_height block.tx_size) }
    requires width { tx_width block.tx_size ≡ M }
    requires row_power { I ≡ row_power block.tx_size }
    requires some { 0 < W.LANES }
    requires small { IsSmallWord W.row }
    requires whole { W.LANES * (tx_width block.tx_size / W.LANES) ≡ tx_width block.tx_size }
    requires counted { tx_width block.tx_size / W.LANES * W.COUNTED ≡ tx_width block.tx_size / 8 }
    requires height { tx_height block.tx_size ≡ N }
    requires power { column_power block.tx_size ≡ K }
    requires depth { block.bd ≤ T.BITS }
    requires block { AreCoefficients T.Coeff.val block input.now }
    requires place { IsPlaceFor block place (length samples.old) }
    requires buffer_len { length buffer.old ≡ tx_height block.tx_size * tx_width block.tx_size }
    ensures painted { samples.new ≡ paint place.stride place.area
        (λ r c v. T.pixel (clip block.bd (pos (T.num v) +ℤ residue_by block.by_av1 block.tx_size block.tx_type block.bd (map T.Coeff.val input.now) r c)))
        samples.old }
    ensures counts { count.new.groups ≡ raised count.old.groups (lane_groups block.tx_size block.tx_type) }
{
    rows_of::<T::Coeff, R, I, M>(input, buffer, block);
    column_pass_of::<W, K, N>(buffer, count, block);
    let shift = column_shift_of(block.tx_type);
    add_all(samples, place.stride, place.area, buffer, shift, block.bd);
}

// The same for a block whose size has this number: a function of its own, in which all lengths are numbers.
#[inline(never)]
fn add_sized<
    T: Pixel,
    R: BlockWord,
    W: BlockWord,
    const SIZE: u8,
    const I: usize,
    const M: usize,
    const K: usize,
    const N: usize,
>(
    buffer: &mut [i32],
    count: &mut LaneCount,
    input: &[T::Coeff],
    samples: &mut [T],
    place: StridedArea,
    block: Block,
)
    requires size { tx_number block.tx_size ≡ SIZE }
    requires lanes { (R.LANES ≡ 4) ⊎ (R.LANES ≡ 8) }
    requires small_rows { IsSmallWord R.row }
    requires whole_rows { R.LANES * (coded (tx_height block.tx_size) / R.LANES) ≡ coded (tx_height block.tx_size) }
    requires width { tx_width block.tx_size ≡ M }
    requires row_power { I ≡ row_power block.tx_size }
    requires some { 0 < W.LANES }
    requires small { IsSmallWord W.row }
    requires whole { W.LANES * (tx_width block.tx_size / W.LANES) ≡ tx_width block.tx_size }
    requires counted { tx_width block.tx_size / W.LANES * W.COUNTED ≡ tx_width block.tx_size / 8 }
    requires height { tx_height block.tx_size ≡ N }
    requires power { column_power block.tx_size ≡ K }
    requires depth { block.bd ≤ T.BITS }
    requires block { AreCoefficients T.Coeff.val block input.now }
    requires place { IsPlaceFor block place (length samples.old) }
    requires buffer_len { length buffer.old ≡ tx_height block.tx_size * tx_width block.tx_size }
    ensures painted { samples.new ≡ paint place.stride place.area
        (λ r c v. T.pixel (clip block.bd (pos (T.num v) +ℤ residue_by block.by_av1 block.tx_size block.tx_type block.bd (map T.Coeff.val input.now) r c)))
        samples.old }
    ensures counts { count.new.groups ≡ raised count.old.groups (lane_groups block.tx_size block.tx_type) }
{
    let block = known::<T>(block, SIZE);
    add_shaped::<T, R, W, I, M, K, N>(buffer, count, input, samples, place, block);
}

// The same for any size. The sizes of most blocks have functions of their own.
fn add_any<T: Pixel>(
    buffer: &mut [i32],
    count: &mut LaneCount,
    input: &[T::Coeff],
    samples: &mut [T],
    place: StridedArea,
    block: Block,
)
    requires depth { block.bd ≤ T.BITS }
    requires block { AreCoefficients T.Coeff.val block input.now }
    requires place { IsPlaceFor block place (length samples.old) }
    requires buffer_len { length buffer.old ≡ tx_height block.tx_size * tx_width block.tx_size }
    ensures painted { samples.new ≡ paint place.stride place.area
        (λ r c v. T.pixel (clip block.bd (pos (T.num v) +ℤ residue_by block.by_av1 block.tx_size block.tx_type block.bd (map T.Coeff.val input.now) r c)))
        samples.old }
    ensures counts { count.new.groups ≡ raised count.old.groups (lane_groups block.tx_size block.tx_type) }
{
    match block.tx_size {
        TxSize::TX_4X4 => add_sized::<T, i32x4, i32x4, 0, 1, 4, 1, 4>(
            buffer, count, input, samples, place, block,
        ),
        TxSize::TX_8X8 => add_sized::<T, i32x8, i32x8, 1, 2, 8, 2, 8>(
            buffer, count, input, samples, place, block,
        ),
        TxSize::TX_16X16 => add_sized::<T, i32x8, i32x8, 2, 3, 16, 3, 16>(
            buffer, count, input, samples, place, block,
        ),
        TxSize::TX_4X8 => add_sized::<T, i32x8, i32x4, 5, 1, 4, 2, 8>(
            buffer, count, input, samples, place, block,
        ),
        TxSize::TX_8X4 => add_sized::<T, i32x4, i32x8, 6, 2, 8, 1, 4>(
            buffer, count, input, samples, place, block,
        ),
        _ => add_block(buffer, count, input, samples, place, block),
    }
}

// The inverse transform of a block over a whole buffer. A block with only its first coefficient doesn't need the
// buffer.
fn add_over<T: Pixel>(
    buffer: &mut [i32],
    count: &mut LaneCount,
    input: &[T::Coeff],
    samples: &mut [T],
    place: StridedArea,
    block: Block,
)
    requires depth { block.bd ≤ T.BITS }
    requires block { AreCoefficients T.Coeff.val block input.now }
    requires place { IsPlaceFor block place (length samples.old) }
    requires buffer_len { 4096 ≤ length buffer.old }
    ensures painted { samples.new ≡ paint place.stride place.area
        (λ r c v. T.pixel (clip block.bd (pos (T.num v) +ℤ residue_by block.by_av1 block.tx_size block.tx_type block.bd (map T.Coeff.val input.now) r c)))
        samples.old }
    ensures counts { count.new.groups ≡ raised count.old.groups (lane_groups block.tx_size block.tx_type) }
{
    if is_single(input, block.tx_type) {
        add_single(count, input, samples, place, block);
        return;
    }
    let places = block.tx_size.height() * block.tx_size.width();
    add_any(&mut buffer[..places], count, input, samples, place, block);
}

/// Adds the residual of coefficients to the samples of a rectangle, which has the width and height of the transform,
/// and clips: the specification's "2D inverse transform process" and the addition of "Reconstruction". The rows of
/// `samples` are `stride` apart.
///
/// The coefficient of row r and column c is at `c * min(height, 32) + r` of `input`; rows and columns from 32 on have
/// none. Coefficients past the end of `input` are 0 and cost no time: a codec that knows the last column with a
/// coefficient passes only the columns up to it. All samples outside the rectangle are unchanged. `by_av1` of the
/// scratch chooses AV1's rule or rav1e's.
pub fn inverse_transform_add_to<T: Pixel>(
    scratch: &mut TxScratch,
    input: &[T::Coeff],
    samples: &mut [T],
    stride: usize,
    area: StoredArea,
    tx_size: TxSize,
    tx_type: TxType,
    bd: usize,
)
    requires depths { IsDepth bd }
    requires depth { bd ≤ T.BITS }
    requires valid { IsTrue (valid_av1_transform tx_size tx_type) }
    requires lossless { tx_type ≡ WHT_WHT → tx_size ≡ TX_4X4 }
    requires input_fits { (i : ℕ) → i < coded_area tx_size → FitsBits (bd + 8) (at (map T.Coeff.val input.now) i) }
    requires rows { AreRows stride area (length samples.old) }
    requires width { area.width ≡ tx_width tx_size }
    requires height { area.height ≡ tx_height tx_size }
    ensures painted { samples.new ≡
        paint stride area (λ r c v. T.pixel (clip bd (pos (T.num v) +ℤ residue_by scratch.old.by_av1 tx_size tx_type bd (map T.Coeff.val input.now) r c)))
        samples.old }
    ensures lanes { scratch.new.count.groups ≡ raised scratch.old.count.groups (lane_groups tx_size tx_type) }
{
    add_over(
        scratch.buffer.as_mut_slice(),
        &mut scratch.count,
        input,
        samples,
        StridedArea { stride, area },
        Block {
            tx_size,
            tx_type,
            by_av1: scratch.by_av1,
            bd,
        },
    );
}

/// As `inverse_transform_add_to`, over a buffer of any owner, such as C, by the rule that `block` names. The count of
/// groups is not kept.
pub fn inverse_transform_add_in<T: Pixel>(
    room: &mut TxRoom,
    input: &[T::Coeff],
    samples: &mut [T],
    stride: usize,
    area: StoredArea,
    block: Block,
)
    requires depths { IsDepth block.bd }
    requires depth { block.bd ≤ T.BITS }
    requires valid { IsTrue (valid_av1_transform block.tx_size block.tx_type) }
    requires lossless { block.tx_type ≡ WHT_WHT → block.tx_size ≡ TX_4X4 }
    requires input_fits { (i : ℕ) → i < coded_area block.tx_size → FitsBits (block.bd + 8) (at (map T.Coeff.val input.now) i) }
    requires rows { AreRows stride area (length samples.old) }
    requires width { area.width ≡ tx_width block.tx_size }
    requires height { area.height ≡ tx_height block.tx_size }
    ensures painted { samples.new ≡ paint stride area
        (λ r c v. T.pixel (clip block.bd (pos (T.num v) +ℤ residue_by block.by_av1 block.tx_size block.tx_type block.bd (map T.Coeff.val input.now) r c)))
        samples.old }
{
    add_over(
        &mut room.values,
        &mut LaneCount::new(),
        input,
        samples,
        StridedArea { stride, area },
        block,
    );
}

/// As `inverse_transform_add_to`, for the first rows and columns of `output`, as many as the transform has. All samples
/// outside them are unchanged.
#[tactic(auto, using(av1_frame::proofs::Regions::region_lending))]
pub fn inverse_transform_add_with<T: Pixel>(
    scratch: &mut TxScratch,
    input: &[T::Coeff],
    output: &mut PlaneRegionMut<'_, T>,
    tx_size: TxSize,
    tx_type: TxType,
    bd: usize,
)
    requires depths { IsDepth bd }
    requires depth { bd ≤ T.BITS }
    requires valid { IsTrue (valid_av1_transform tx_size tx_type) }
    requires lossless { tx_type ≡ WHT_WHT → tx_size ≡ TX_4X4 }
    requires input_fits { (i : ℕ) → i < coded_area tx_size → FitsBits (bd + 8) (at (map T.Coeff.val input.now) i) }
    requires fits { InStorage output.old }
    requires columns { tx_width tx_size ≤ output.old.area.width }
    requires rows { tx_height tx_size ≤ output.old.area.height }
    ensures painted { output.new ≡ painted output.old (tx_width tx_size) (tx_height tx_size)
        (λ r c v. T.pixel (clip bd (pos (T.num v) +ℤ residue_by scratch.old.by_av1 tx_size tx_type bd (map T.Coeff.val input.now) r c))) }
    ensures fits { InStorage output.new }
    ensures lanes { scratch.new.count.groups ≡ raised scratch.old.count.groups (lane_groups tx_size tx_type) }
{
    let stride = output.plane_cfg.stride;
    let area = output.corner(tx_size.width(), tx_size.height());
    inverse_transform_add_to(
        scratch,
        input,
        output.rows_mut(),
        stride,
        area,
        tx_size,
        tx_type,
        bd,
    );
}

/// As `inverse_transform_add_with`, over a scratch of its own. If it can't be allocated, no sample changes.
pub fn inverse_transform_add<T: Pixel>(
    alloc: Global,
    input: &[T::Coeff],
    output: &mut PlaneRegionMut<'_, T>,
    tx_size: TxSize,
    tx_type: TxType,
    bd: usize,
) -> Result<(), OutOfMemory>
    requires depths { IsDepth bd }
    requires depth { bd ≤ T.BITS }
    requires valid { IsTrue (valid_av1_transform tx_size tx_type) }
    requires lossless { tx_type ≡ WHT_WHT → tx_size ≡ TX_4X4 }
    requires input_fits { (i : ℕ) → i < coded_area tx_size → FitsBits (bd + 8) (at (map T.Coeff.val input.now) i) }
    requires fits { InStorage output.old }
    requires columns { tx_width tx_size ≤ output.old.area.width }
    requires rows { tx_height tx_size ≤ output.old.area.height }
    ensures painted { OnOk result (output.new ≡ painted output.old (tx_width tx_size) (tx_height tx_size)
        (λ r c v. T.pixel (clip bd (pos (T.num v) +ℤ residue tx_size tx_type bd (map T.Coeff.val input.now) r c)))) }
    ensures refused { OnErr result (output.new ≡ output.old) }
    ensures fits { InStorage output.new }
{
    let mut scratch = TxScratch::new(alloc)?;
    inverse_transform_add_with(&mut scratch, input, output, tx_size, tx_type, bd);
    Ok(())
}
