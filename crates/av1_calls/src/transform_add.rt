//! Tests its arguments, then adds a block's residual to the caller's samples. Also writes scratch memory.
ghost use Rattle.std.specs.Prelude.{true, false, ◌≡◌, ◌⊎◌, ℕ, ◌+◌, ◌<◌, ◌≤◌, IfOk, IfErr, length, pos, ◌+ℤ◌, ◌≤ℤ◌};
ghost use Rattle.av1_blocks.specs.Depths.{IsDepth};
ghost use Rattle.av1_dct.specs.Arithmetic.{at, FitsBits};
ghost use Rattle.av1_frame.specs.Areas.{AreRows};
ghost use Rattle.av1_frame.specs.Arithmetic.{clip};
ghost use Rattle.av1_frame.specs.Samples.{paint};
ghost use Rattle.av1_itx.specs.Residue.{residue_by};
ghost use Rattle.av1_calls.specs.Arguments.{rectangle};
ghost use Rattle.av1_calls.specs.Transforms.{AddsResidue, AllFitDepth, IsBlock, IsBlockFault, IsDeepFault, IsDepthFault, IsRunnable};

use crate::argument::{BadArgument, are_rows, area_of, is_depth};
use crate::context::Context;
use crate::motion::Place;
use crate::status::DONE;
use av1_blocks::{TxSize, TxType, valid_av1_transform};
use av1_frame::StoredArea;
use av1_itx::{TxRoom, inverse_transform_add_in};

/// A transform, and the rectangle to which its residual is added.
#[derive(Clone, Copy)]
struct ResidualBlock {
    size: TxSize,
    kind: TxType,
    area: StoredArea,
}

// Whether the size has an inverse transform of this type.
#[inline(always)]
fn is_runnable(size: TxSize, kind: TxType) -> bool
    ensures true_is { result ≡ true → IsRunnable size kind }
    ensures is_true { IsRunnable size kind → result ≡ true }
{
    valid_av1_transform(size, kind) && (kind != TxType::WHT_WHT || size == TxSize::TX_4X4)
}

/// Reads a block from its numbers. The caller's buffer has `samples` samples.
///
/// # Errors
///
/// `Size`, then `Kind`, then `Area`.
#[inline(always)]
fn block_of(
    tx_size: u8,
    tx_type: u8,
    at: Place,
    samples: usize,
) -> Result<ResidualBlock, BadArgument>
    ensures found { IfOk result (λ block. IsBlock tx_size tx_type at.stride at.x at.y samples block.size block.kind) }
    ensures area { IfOk result (λ block. block.area ≡ rectangle at.x at.y block.size) }
    ensures fault { IfErr result (IsBlockFault tx_size tx_type at.stride at.x at.y samples) }
{
    let Some(size) = TxSize::from_number(tx_size) else {
        return Err(BadArgument::Size);
    };
    let Some(kind) = TxType::from_number(tx_type) else {
        return Err(BadArgument::Kind);
    };
    if !is_runnable(size, kind) {
        return Err(BadArgument::Kind);
    }
    let area = area_of(at.x, at.y, size);
    if !are_rows(at.stride, area, samples) {
        return Err(BadArgument::Area);
    }
    Ok(ResidualBlock { size, kind, area })
}

// Reads each coefficient, so that the proof knows that it has 16 bits. This compiles to nothing.
fn have_16_bits(coefficients: &[i16])
    ensures { (i : ℕ) → i < length coefficients.now → FitsBits 16 (at coefficients.now i) }
{
    for i in 0..coefficients.len() {
        let _number = coefficients[i];
    }
}

fn lesser(a: i32, b: i32) -> i32
    ensures below_first { result ≤ℤ a }
    ensures below_second { result ≤ℤ b }
    ensures either { (result ≡ a) ⊎ (result ≡ b) }
{
    if b < a { b } else { a }
}

fn greater(a: i32, b: i32) -> i32
    ensures above_first { a ≤ℤ result }
    ensures above_second { b ≤ℤ result }
    ensures either { (result ≡ a) ⊎ (result ≡ b) }
{
    if a < b { b } else { a }
}

fn number_at(numbers: &[i32], i: usize) -> i32
    requires { i < length numbers.now }
    ensures { result ≡ at numbers.now i }
{
    numbers[i]
}

// Whether the number fits `bits` bits, including its sign.
fn fits(number: i32, bits: usize) -> bool
    requires { (1 ≤ bits) × (bits ≤ 32) }
    ensures true_is { result ≡ true → FitsBits bits number }
    ensures is_true { FitsBits bits number → result ≡ true }
{
    let half = 1i64 << (bits - 1);
    let number = i64::from(number);
    -half <= number && number < half
}

fn both_fit(least: i32, greatest: i32, bits: usize) -> bool
    requires { (1 ≤ bits) × (bits ≤ 32) }
    ensures true_is { result ≡ true → FitsBits bits least × FitsBits bits greatest }
    ensures is_true { FitsBits bits least → FitsBits bits greatest → result ≡ true }
{
    fits(least, bits) && fits(greatest, bits)
}

// Whether each of the first `count` numbers fits `bits` bits. One pass finds the least and the greatest number, several
// at a time.
fn all_fit(numbers: &[i32], count: usize, bits: usize) -> bool
    requires some_bits { (1 ≤ bits) × (bits ≤ 32) }
    requires long { count ≤ length numbers.now }
    ensures true_is { result ≡ true → (i : ℕ) → i < count → FitsBits bits (at numbers.now i) }
    ensures is_true { ((i : ℕ) → i < count → FitsBits bits (at numbers.now i)) → result ≡ true }
{
    let (mut least, mut greatest) = (0, 0);
    for i in 0..count {
        let number = number_at(numbers, i);
        least = lesser(least, number);
        greatest = greater(greatest, number);
    }
    both_fit(least, greatest, bits)
}

/// How many of a transform's `count` coefficients the list has. The transform takes 0 for each missing one.
fn given_count(coefficients: &[i32], count: usize) -> usize
    ensures most { result ≤ count }
    ensures there { result ≤ length coefficients.now }
    ensures all { (i : ℕ) → i < count → result ≤ i → length coefficients.now ≤ i }
{
    count.min(coefficients.len())
}

/// Whether each of a transform's `count` coefficients fits `bits` bits. A coefficient past the end of the list is 0.
fn all_given_fit(coefficients: &[i32], count: usize, bits: usize) -> bool
    requires { (1 ≤ bits) × (bits ≤ 32) }
    ensures true_is { result ≡ true → (i : ℕ) → i < count → FitsBits bits (at coefficients.now i) }
    ensures is_true { ((i : ℕ) → i < count → FitsBits bits (at coefficients.now i)) → result ≡ true }
{
    let given = given_count(coefficients, count);
    all_fit(coefficients, given, bits)
}

/// Reads a block from its numbers, and tests the depth.
///
/// # Errors
///
/// `Size`, then `Kind`, then `Area`, then `Depth`.
#[inline(always)]
fn block_at_depth(
    tx_size: u8,
    tx_type: u8,
    at: Place,
    samples: usize,
    bit_depth: usize,
) -> Result<ResidualBlock, BadArgument>
    ensures found { IfOk result (λ block. IsBlock tx_size tx_type at.stride at.x at.y samples block.size block.kind) }
    ensures area { IfOk result (λ block. block.area ≡ rectangle at.x at.y block.size) }
    ensures depth { IfOk result (λ _. IsDepth bit_depth) }
    ensures fault { IfErr result (IsDepthFault bit_depth tx_size tx_type at.stride at.x at.y samples) }
{
    let block = block_of(tx_size, tx_type, at, samples)?;
    if is_depth(bit_depth) {
        Ok(block)
    } else {
        Err(BadArgument::Depth)
    }
}

/// Reads a block from its numbers, and tests the depth and that the coefficients fit it.
///
/// # Errors
///
/// `Size`, then `Kind`, then `Area`, then `Depth`, then `Coefficient`.
#[inline(always)]
fn deep_block_of(
    tx_size: u8,
    tx_type: u8,
    at: Place,
    coefficients: &[i32],
    samples: usize,
    bit_depth: usize,
) -> Result<ResidualBlock, BadArgument>
    ensures found { IfOk result (λ block. IsBlock tx_size tx_type at.stride at.x at.y samples block.size block.kind) }
    ensures area { IfOk result (λ block. block.area ≡ rectangle at.x at.y block.size) }
    ensures depth { IfOk result (λ _. IsDepth bit_depth) }
    ensures fit { IfOk result (λ block. AllFitDepth bit_depth block.size coefficients.now) }
    ensures fault { IfErr result (IsDeepFault bit_depth tx_size tx_type at.stride at.x at.y coefficients.now samples) }
{
    let block = block_at_depth(tx_size, tx_type, at, samples, bit_depth)?;
    if all_given_fit(coefficients, block.size.coded_area(), bit_depth + 8) {
        Ok(block)
    } else {
        Err(BadArgument::Coefficient)
    }
}

/// Adds the residual of coefficients that fit the depth, by AV1's rule or by rav1e's.
#[inline(always)]
fn add_deep(
    scratch: &mut TxRoom,
    coefficients: &[i32],
    samples: &mut [u16],
    stride: usize,
    block: ResidualBlock,
    bit_depth: usize,
    by_av1: bool,
)
    requires is_depth { IsDepth bit_depth }
    requires runs { IsRunnable block.size block.kind }
    requires rows { AreRows stride block.area (length samples.old) }
    requires placed { block.area ≡ rectangle block.area.x block.area.y block.size }
    requires fit { AllFitDepth bit_depth block.size coefficients.now }
    ensures { samples.new ≡ paint stride block.area
        (λ r c v. clip bit_depth (pos v +ℤ residue_by by_av1 block.size block.kind bit_depth coefficients.now r c)) samples.old }
{
    inverse_transform_add_in(
        scratch,
        coefficients,
        samples,
        stride,
        block.area,
        av1_itx::Block {
            tx_size: block.size,
            tx_type: block.kind,
            by_av1,
            bd: bit_depth,
        },
    );
}

/// Adds the residual of coefficients to a rectangle of samples and clips the sums, at a depth of 8. This is the
/// specification's "2D inverse transform process" and the addition of "Reconstruction". The rectangle has the
/// transform's dimensions and begins at column `x` of row `y`. Rows are `stride` samples apart. `tx_size` and `tx_type`
/// are the numbers that plans use for the size and the type.
///
/// The coefficient of row r and column c is at offset `c * min(height, 32) + r`. Rows and columns from 32 on have no
/// coefficients. Coefficients past the end of `coefficients` are 0 and cost nothing. So the list may end after the last
/// coefficient that isn't 0.
///
/// `DONE`: success. `BAD_SIZE`, `BAD_TYPE`: no size or type has this number, or the size has no such type. `BAD_AREA`:
/// the rectangle does not lie in the samples.
pub fn tilg_inverse_transform_add_8(
    context: &mut Context,
    coefficients: &[i16],
    samples: &mut [u8],
    stride: usize,
    x: usize,
    y: usize,
    tx_size: u8,
    tx_type: u8,
) -> u32
    ensures { AddsResidue true false 8 tx_size tx_type stride x y coefficients.now samples.old samples.new result }
{
    let at = Place { stride, x, y };
    match block_of(tx_size, tx_type, at, samples.len()) {
        Ok(block) => {
            have_16_bits(coefficients);
            inverse_transform_add_in(
                &mut context.transform,
                coefficients,
                samples,
                stride,
                block.area,
                av1_itx::Block {
                    tx_size: block.size,
                    tx_type: block.kind,
                    by_av1: false,
                    bd: 8,
                },
            );
            DONE
        }
        Err(fault) => fault.status(),
    }
}

/// Adds the residual as [`tilg_inverse_transform_add_8`] does, to samples of 16 bits at a depth of 8, 10 or 12. If a
/// sample is past the depth, its sum is clipped to the depth. The call follows AV1, also where rav1e's transforms
/// differ. `tilg_inverse_transform_add_rav1e_16` follows rav1e.
///
/// `BAD_DEPTH`: samples have no such depth. `BAD_COEFFICIENT`: a coefficient of the transform has more than `bit_depth
/// + 8` bits, including its sign.
pub fn tilg_inverse_transform_add_16(
    context: &mut Context,
    coefficients: &[i32],
    samples: &mut [u16],
    stride: usize,
    x: usize,
    y: usize,
    tx_size: u8,
    tx_type: u8,
    bit_depth: usize,
) -> u32
    ensures { AddsResidue true true bit_depth tx_size tx_type stride x y coefficients.now samples.old samples.new result }
{
    let at = Place { stride, x, y };
    match deep_block_of(tx_size, tx_type, at, coefficients, samples.len(), bit_depth) {
        Ok(block) => {
            add_deep(
                &mut context.transform,
                coefficients,
                samples,
                stride,
                block,
                bit_depth,
                true,
            );
            DONE
        }
        Err(refused) => refused.status(),
    }
}

/// Adds the residual as [`tilg_inverse_transform_add_16`] does, but by rav1e's rule. The two rules differ at depths
/// above 8. At a depth of 12, rav1e's identities of 4 and 16 values along rows wrap at 32 bits, and AV1's don't. And
/// rav1e clamps lossless blocks (`WHT_WHT`) between the passes, as it clamps all others.
pub fn tilg_inverse_transform_add_rav1e_16(
    context: &mut Context,
    coefficients: &[i32],
    samples: &mut [u16],
    stride: usize,
    x: usize,
    y: usize,
    tx_size: u8,
    tx_type: u8,
    bit_depth: usize,
) -> u32
    ensures { AddsResidue false true bit_depth tx_size tx_type stride x y coefficients.now samples.old samples.new result }
{
    let at = Place { stride, x, y };
    match deep_block_of(tx_size, tx_type, at, coefficients, samples.len(), bit_depth) {
        Ok(block) => {
            add_deep(
                &mut context.transform,
                coefficients,
                samples,
                stride,
                block,
                bit_depth,
                false,
            );
            DONE
        }
        Err(refused) => refused.status(),
    }
}
