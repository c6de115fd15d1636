//! Block sizes as pure functions: number, width, height, area, order, name, and the size of given dimensions.
#![tactic(auto)]

ghost use Rattle.std.specs.Prelude.{◌≡◌, ◌≢◌, ◌↔◌, ◌⊎◌, ◌*◌, ◌/◌, ◌-◌, ◌^◌, ◌≤◌, max, length, slice_get, IfOk, Some, None, Ok};
ghost use Rattle.std.specs.declared.cmp.Ordering.TheVariants.{Less, Equal, Greater};
ghost use Rattle.av1_blocks.specs.Blocks.{
  block_number,
  block_width,
  block_height,
  side_log2,
  is_square,
  is_rect_tx_allowed,
  cfl_allowed,
  HasBlockSides,
  product_cmp,
  IsNoGreater,
  IsWiderAndLower,
  block_text,
};
ghost use Rattle.av1_blocks.specs.Transforms.{block_tx_size};

use crate::context::MI_SIZE_LOG2;
use crate::numbers::variant_of;
use crate::partition::BlockSize::{self, *};
use crate::partition::InvalidBlockSize;
use crate::transform::TxSize;
use std::cmp::Ordering;
use std::fmt;

impl BlockSize {
    /// The size of this number, if there is one.
    #[inline]
    pub fn from_number(number: u8) -> Option<BlockSize>
        ensures { result ≡ slice_get BlockSize.ALL number }
    {
        variant_of(&BlockSize::ALL, number)
    }

    /// The size's number, which `from_number` takes back.
    #[inline]
    pub fn number(self) -> u8
        ensures value { result ≡ block_number self }
        ensures named { slice_get BlockSize.ALL (block_number self) ≡ Some self }
        ensures all { length BlockSize.ALL ≡ 22 }
    {
        self as u8
    }

    /// The size with this width and height in luma samples.
    ///
    /// # Errors
    ///
    /// `InvalidBlockSize` exactly if no block has them.
    #[inline]
    pub fn from_width_and_height_opt(w: usize, h: usize) -> Result<BlockSize, InvalidBlockSize>
        ensures sides { IfOk result (λ b. (block_width b ≡ w) × (block_height b ≡ h)) }
        ensures found { (b : BlockSize) → block_width b ≡ w → block_height b ≡ h → result ≡ Ok b }
    {
        match (w, h) {
            (4, 4) => Ok(BLOCK_4X4),
            (4, 8) => Ok(BLOCK_4X8),
            (4, 16) => Ok(BLOCK_4X16),
            (8, 4) => Ok(BLOCK_8X4),
            (8, 8) => Ok(BLOCK_8X8),
            (8, 16) => Ok(BLOCK_8X16),
            (8, 32) => Ok(BLOCK_8X32),
            (16, 4) => Ok(BLOCK_16X4),
            (16, 8) => Ok(BLOCK_16X8),
            (16, 16) => Ok(BLOCK_16X16),
            (16, 32) => Ok(BLOCK_16X32),
            (16, 64) => Ok(BLOCK_16X64),
            (32, 8) => Ok(BLOCK_32X8),
            (32, 16) => Ok(BLOCK_32X16),
            (32, 32) => Ok(BLOCK_32X32),
            (32, 64) => Ok(BLOCK_32X64),
            (64, 16) => Ok(BLOCK_64X16),
            (64, 32) => Ok(BLOCK_64X32),
            (64, 64) => Ok(BLOCK_64X64),
            (64, 128) => Ok(BLOCK_64X128),
            (128, 64) => Ok(BLOCK_128X64),
            (128, 128) => Ok(BLOCK_128X128),
            _ => Err(InvalidBlockSize),
        }
    }

    /// The size with this width and height in luma samples. Some block has to have them.
    pub fn from_width_and_height(w: usize, h: usize) -> BlockSize
        requires { HasBlockSides w h }
        ensures width { block_width result ≡ w }
        ensures height { block_height result ≡ h }
        ensures found { (b : BlockSize) → block_width b ≡ w → block_height b ≡ h → result ≡ b }
    {
        BlockSize::from_width_and_height_opt(w, h).unwrap()
    }

    /// Whether both sides are at most 32 luma samples, so that chroma may be predicted from luma.
    #[inline]
    #[tactic(auto, unfolding(crate::specs::Blocks::cfl_allowed))]
    pub fn cfl_allowed(self) -> bool
        ensures { result ≡ cfl_allowed self }
    {
        self <= BLOCK_32X32
    }

    /// The width in luma samples.
    #[inline]
    #[tactic(auto, using(crate::proofs::Sides::block_width_range))]
    pub fn width(self) -> usize
        ensures value { result ≡ block_width self }
        ensures least { 4 ≤ result }
        ensures most { result ≤ 128 }
    {
        1 << self.width_log2()
    }

    /// The number of luma samples.
    #[inline]
    pub fn area(self) -> usize
        ensures { result ≡ block_width self * block_height self }
    {
        self.width() * self.height()
    }

    /// The logarithm to base 2 of the width in luma samples.
    #[inline]
    pub fn width_log2(self) -> usize
        ensures value { result ≡ side_log2 (block_width self) }
        ensures logarithm { 2 ^ result ≡ block_width self }
    {
        match self {
            BLOCK_4X4 | BLOCK_4X8 | BLOCK_4X16 => 2,
            BLOCK_8X4 | BLOCK_8X8 | BLOCK_8X16 | BLOCK_8X32 => 3,
            BLOCK_16X8 | BLOCK_16X16 | BLOCK_16X32 | BLOCK_16X4 | BLOCK_16X64 => 4,
            BLOCK_32X16 | BLOCK_32X32 | BLOCK_32X64 | BLOCK_32X8 => 5,
            BLOCK_64X32 | BLOCK_64X64 | BLOCK_64X128 | BLOCK_64X16 => 6,
            BLOCK_128X64 | BLOCK_128X128 => 7,
        }
    }

    /// The logarithm to base 2 of the width in cells.
    #[inline]
    pub fn width_mi_log2(self) -> usize
        ensures { result ≡ side_log2 (block_width self) - 2 }
    {
        self.width_log2() - MI_SIZE_LOG2
    }

    /// The width in cells.
    #[inline]
    pub fn width_mi(self) -> usize
        ensures { result ≡ block_width self / 4 }
    {
        self.width() >> MI_SIZE_LOG2
    }

    /// The width in squares of 8 by 8 luma samples, at least 1.
    #[inline]
    pub fn width_imp_b(self) -> usize
        ensures { result ≡ max 1 (block_width self / 8) }
    {
        (self.width() >> IMP_B_LOG2).max(1)
    }

    /// The height in luma samples.
    #[inline]
    #[tactic(auto, using(crate::proofs::Sides::block_height_range))]
    pub fn height(self) -> usize
        ensures value { result ≡ block_height self }
        ensures least { 4 ≤ result }
        ensures most { result ≤ 128 }
    {
        1 << self.height_log2()
    }

    /// The logarithm to base 2 of the height in luma samples.
    #[inline]
    pub fn height_log2(self) -> usize
        ensures value { result ≡ side_log2 (block_height self) }
        ensures logarithm { 2 ^ result ≡ block_height self }
    {
        match self {
            BLOCK_4X4 | BLOCK_8X4 | BLOCK_16X4 => 2,
            BLOCK_4X8 | BLOCK_8X8 | BLOCK_16X8 | BLOCK_32X8 => 3,
            BLOCK_8X16 | BLOCK_16X16 | BLOCK_32X16 | BLOCK_4X16 | BLOCK_64X16 => 4,
            BLOCK_16X32 | BLOCK_32X32 | BLOCK_64X32 | BLOCK_8X32 => 5,
            BLOCK_32X64 | BLOCK_64X64 | BLOCK_128X64 | BLOCK_16X64 => 6,
            BLOCK_64X128 | BLOCK_128X128 => 7,
        }
    }

    /// The logarithm to base 2 of the height in cells.
    #[inline]
    pub fn height_mi_log2(self) -> usize
        ensures { result ≡ side_log2 (block_height self) - 2 }
    {
        self.height_log2() - MI_SIZE_LOG2
    }

    /// The height in cells.
    #[inline]
    pub fn height_mi(self) -> usize
        ensures { result ≡ block_height self / 4 }
    {
        self.height() >> MI_SIZE_LOG2
    }

    /// The height in squares of 8 by 8 luma samples, at least 1.
    #[inline]
    pub fn height_imp_b(self) -> usize
        ensures { result ≡ max 1 (block_height self / 8) }
    {
        (self.height() >> IMP_B_LOG2).max(1)
    }

    /// The greatest transform of the block: with the block's sides, or 64x64 if a side is 128.
    #[inline]
    pub fn tx_size(self) -> TxSize
        ensures { result ≡ block_tx_size self }
    {
        match self {
            BLOCK_4X4 => TxSize::TX_4X4,
            BLOCK_4X8 => TxSize::TX_4X8,
            BLOCK_8X4 => TxSize::TX_8X4,
            BLOCK_8X8 => TxSize::TX_8X8,
            BLOCK_8X16 => TxSize::TX_8X16,
            BLOCK_16X8 => TxSize::TX_16X8,
            BLOCK_16X16 => TxSize::TX_16X16,
            BLOCK_16X32 => TxSize::TX_16X32,
            BLOCK_32X16 => TxSize::TX_32X16,
            BLOCK_32X32 => TxSize::TX_32X32,
            BLOCK_32X64 => TxSize::TX_32X64,
            BLOCK_64X32 => TxSize::TX_64X32,
            BLOCK_4X16 => TxSize::TX_4X16,
            BLOCK_16X4 => TxSize::TX_16X4,
            BLOCK_8X32 => TxSize::TX_8X32,
            BLOCK_32X8 => TxSize::TX_32X8,
            BLOCK_16X64 => TxSize::TX_16X64,
            BLOCK_64X16 => TxSize::TX_64X16,
            _ => TxSize::TX_64X64,
        }
    }

    /// Whether both sides are equal.
    #[inline]
    pub fn is_sqr(self) -> bool
        ensures { result ≡ is_square self }
    {
        self.width_log2() == self.height_log2()
    }

    /// Whether the block may have a transform that isn't square: the block itself isn't square, and no side is 128.
    pub fn is_rect_tx_allowed(self) -> bool
        ensures { result ≡ is_rect_tx_allowed self }
    {
        !matches!(
            self,
            BLOCK_4X4
                | BLOCK_8X8
                | BLOCK_16X16
                | BLOCK_32X32
                | BLOCK_64X64
                | BLOCK_64X128
                | BLOCK_128X64
                | BLOCK_128X128
        )
    }
}

/// The numbers of sizes.
pub fn block_size_counts()
    ensures all { BlockSize.BLOCK_SIZES_ALL ≡ 22 }
    ensures near_square { BlockSize.BLOCK_SIZES ≡ 16 }
{}

/// The order of two sizes. They are equal exactly if they are the same. One is less exactly if neither its width nor
/// its height is greater and they aren't the same. They have no order exactly if one is wider and the other higher.
pub fn sizes_compare_by_sides(a: BlockSize, b: BlockSize)
    ensures equal { (product_cmp a b ≡ Some Equal) ↔ (a ≡ b) }
    ensures less { (product_cmp a b ≡ Some Less) ↔ (IsNoGreater a b × (a ≢ b)) }
    ensures greater { (product_cmp a b ≡ Some Greater) ↔ (IsNoGreater b a × (a ≢ b)) }
    ensures none { (product_cmp a b ≡ None) ↔ (IsWiderAndLower a b ⊎ IsWiderAndLower b a) }
{}

/// The logarithm to base 2 of the side of the squares in which importance is counted, in luma samples.
const IMP_B_LOG2: usize = 3;

/// The product order: a block is less if neither its width nor its height is greater, and one of them is less.
impl PartialOrd for BlockSize {
    ghost use Rattle.av1_blocks.specs.BlockOrder.{product_order};

    ghost partial_cmp = { product_cmp };

    ghost laws = { product_order };

    #[inline]
    fn partial_cmp(&self, other: &BlockSize) -> Option<Ordering> {
        match (
            self.width().cmp(&other.width()),
            self.height().cmp(&other.height()),
        ) {
            (Ordering::Equal, by_height) => Some(by_height),
            (by_width, Ordering::Equal) => Some(by_width),
            (Ordering::Less, Ordering::Less) => Some(Ordering::Less),
            (Ordering::Greater, Ordering::Greater) => Some(Ordering::Greater),
            _ => None,
        }
    }
}

/// The sides in luma samples, width first, as in `64x16`.
impl fmt::Display for BlockSize {
    ghost output = { λ b. Some (block_text b) };

    ghost styled_output = { λ b _. Some (block_text b) };

    fn fmt<W: fmt::Write>(&self, f: &mut fmt::Formatter<W>) -> fmt::Result {
        f.write_str(match self {
            BLOCK_4X4 => "4x4",
            BLOCK_4X8 => "4x8",
            BLOCK_8X4 => "8x4",
            BLOCK_8X8 => "8x8",
            BLOCK_8X16 => "8x16",
            BLOCK_16X8 => "16x8",
            BLOCK_16X16 => "16x16",
            BLOCK_16X32 => "16x32",
            BLOCK_32X16 => "32x16",
            BLOCK_32X32 => "32x32",
            BLOCK_32X64 => "32x64",
            BLOCK_64X32 => "64x32",
            BLOCK_64X64 => "64x64",
            BLOCK_64X128 => "64x128",
            BLOCK_128X64 => "128x64",
            BLOCK_128X128 => "128x128",
            BLOCK_4X16 => "4x16",
            BLOCK_16X4 => "16x4",
            BLOCK_8X32 => "8x32",
            BLOCK_32X8 => "32x8",
            BLOCK_16X64 => "16x64",
            BLOCK_64X16 => "64x16",
        })
    }
}

impl fmt::Display for InvalidBlockSize {
    ghost use Rattle.std.specs.Prelude.{codes};

    ghost output = { λ _. Some (codes "invalid block size") };

    ghost styled_output = { λ _ _. Some (codes "invalid block size") };

    fn fmt<W: fmt::Write>(&self, f: &mut fmt::Formatter<W>) -> fmt::Result {
        f.write_str("invalid block size")
    }
}
