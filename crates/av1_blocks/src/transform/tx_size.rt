//! Transform sizes as pure functions: number, width, height, area, coded size, and the block of the same size.
#![tactic(auto)]

ghost use Rattle.std.specs.Prelude.{◌≡◌, ◌*◌, ◌/◌, ◌-◌, ◌+◌, ◌^◌, ◌≤◌, ◌==◌, ℤ, pos, ◌-ℤ◌, not, min, max, length, slice_get, Some};
ghost use Rattle.av1_blocks.specs.Blocks.{block_width, block_height, side_log2};
ghost use Rattle.av1_blocks.specs.Transforms.{
  tx_number,
  tx_width,
  tx_height,
  HasTxSides,
  IsTxSquare,
  tx_sqr,
  tx_sqr_up,
  tx_block_size,
  coded_area,
  coded_tx_size,
};

use crate::context::MI_SIZE_LOG2;
use crate::numbers::variant_of;
use crate::partition::BlockSize;
use crate::transform::TxSize::{self, *};

impl TxSize {
    /// The size of this number, if there is one.
    #[inline]
    pub fn from_number(number: u8) -> Option<TxSize>
        ensures { result ≡ slice_get TxSize.ALL number }
    {
        variant_of(&TxSize::ALL, number)
    }

    /// The size's number, which `from_number` takes back.
    #[inline]
    pub fn number(self) -> u8
        ensures value { result ≡ tx_number self }
        ensures named { slice_get TxSize.ALL (tx_number self) ≡ Some self }
        ensures all { length TxSize.ALL ≡ 19 }
    {
        self as u8
    }

    /// The width in samples.
    #[inline]
    #[tactic(auto, using(crate::proofs::Sides::tx_width_range))]
    pub fn width(self) -> usize
        ensures value { result ≡ tx_width self }
        ensures least { 4 ≤ result }
        ensures most { result ≤ 64 }
    {
        1 << self.width_log2()
    }

    /// The logarithm to base 2 of the width in samples.
    #[inline]
    pub fn width_log2(self) -> usize
        ensures value { result ≡ side_log2 (tx_width self) }
        ensures logarithm { 2 ^ result ≡ tx_width self }
    {
        match self {
            TX_4X4 | TX_4X8 | TX_4X16 => 2,
            TX_8X8 | TX_8X4 | TX_8X16 | TX_8X32 => 3,
            TX_16X16 | TX_16X8 | TX_16X32 | TX_16X4 | TX_16X64 => 4,
            TX_32X32 | TX_32X16 | TX_32X64 | TX_32X8 => 5,
            TX_64X64 | TX_64X32 | TX_64X16 => 6,
        }
    }

    /// The place of the width among 4, 8, 16, 32 and 64 samples.
    #[inline]
    pub fn width_index(self) -> usize
        ensures { result ≡ side_log2 (tx_width self) - 2 }
    {
        self.width_log2() - 2
    }

    /// The height in samples.
    #[inline]
    #[tactic(auto, using(crate::proofs::Sides::tx_height_range))]
    pub fn height(self) -> usize
        ensures value { result ≡ tx_height self }
        ensures least { 4 ≤ result }
        ensures most { result ≤ 64 }
    {
        1 << self.height_log2()
    }

    /// The logarithm to base 2 of the height in samples.
    #[inline]
    pub fn height_log2(self) -> usize
        ensures value { result ≡ side_log2 (tx_height self) }
        ensures logarithm { 2 ^ result ≡ tx_height self }
    {
        match self {
            TX_4X4 | TX_8X4 | TX_16X4 => 2,
            TX_8X8 | TX_4X8 | TX_16X8 | TX_32X8 => 3,
            TX_16X16 | TX_8X16 | TX_32X16 | TX_4X16 | TX_64X16 => 4,
            TX_32X32 | TX_16X32 | TX_64X32 | TX_8X32 => 5,
            TX_64X64 | TX_32X64 | TX_16X64 => 6,
        }
    }

    /// The place of the height among 4, 8, 16, 32 and 64 samples.
    #[inline]
    pub fn height_index(self) -> usize
        ensures { result ≡ side_log2 (tx_height self) - 2 }
    {
        self.height_log2() - 2
    }

    /// The width in units of 4 samples.
    #[inline]
    pub fn width_mi(self) -> usize
        ensures { result ≡ tx_width self / 4 }
    {
        self.width() >> MI_SIZE_LOG2
    }

    /// The number of samples.
    #[inline]
    pub fn area(self) -> usize
        ensures { result ≡ tx_width self * tx_height self }
    {
        1 << self.area_log2()
    }

    /// The logarithm to base 2 of the number of samples.
    #[inline]
    pub fn area_log2(self) -> usize
        ensures value { result ≡ side_log2 (tx_width self) + side_log2 (tx_height self) }
        ensures logarithm { 2 ^ result ≡ tx_width self * tx_height self }
    {
        self.width_log2() + self.height_log2()
    }

    /// The height in units of 4 samples.
    #[inline]
    pub fn height_mi(self) -> usize
        ensures { result ≡ tx_height self / 4 }
    {
        self.height() >> MI_SIZE_LOG2
    }

    /// The number of coefficients: those of the first 32 columns and rows.
    #[inline]
    pub fn coded_area(self) -> usize
        ensures value { result ≡ coded_area self }
        ensures most { result ≤ 1024 }
    {
        self.width().min(32) * self.height().min(32)
    }

    /// The block with the same width and height.
    #[inline]
    pub fn block_size(self) -> BlockSize
        ensures value { result ≡ tx_block_size self }
        ensures width { block_width result ≡ tx_width self }
        ensures height { block_height result ≡ tx_height self }
    {
        match self {
            TX_4X4 => BlockSize::BLOCK_4X4,
            TX_8X8 => BlockSize::BLOCK_8X8,
            TX_16X16 => BlockSize::BLOCK_16X16,
            TX_32X32 => BlockSize::BLOCK_32X32,
            TX_64X64 => BlockSize::BLOCK_64X64,
            TX_4X8 => BlockSize::BLOCK_4X8,
            TX_8X4 => BlockSize::BLOCK_8X4,
            TX_8X16 => BlockSize::BLOCK_8X16,
            TX_16X8 => BlockSize::BLOCK_16X8,
            TX_16X32 => BlockSize::BLOCK_16X32,
            TX_32X16 => BlockSize::BLOCK_32X16,
            TX_32X64 => BlockSize::BLOCK_32X64,
            TX_64X32 => BlockSize::BLOCK_64X32,
            TX_4X16 => BlockSize::BLOCK_4X16,
            TX_16X4 => BlockSize::BLOCK_16X4,
            TX_8X32 => BlockSize::BLOCK_8X32,
            TX_32X8 => BlockSize::BLOCK_32X8,
            TX_16X64 => BlockSize::BLOCK_16X64,
            TX_64X16 => BlockSize::BLOCK_64X16,
        }
    }

    /// The square size of the smaller dimension.
    #[inline]
    pub fn sqr(self) -> TxSize
        ensures value { result ≡ tx_sqr self }
        ensures side { IsTxSquare result (min (tx_width self) (tx_height self)) }
    {
        match self {
            TX_4X4 | TX_4X8 | TX_8X4 | TX_4X16 | TX_16X4 => TX_4X4,
            TX_8X8 | TX_8X16 | TX_16X8 | TX_8X32 | TX_32X8 => TX_8X8,
            TX_16X16 | TX_16X32 | TX_32X16 | TX_16X64 | TX_64X16 => TX_16X16,
            TX_32X32 | TX_32X64 | TX_64X32 => TX_32X32,
            TX_64X64 => TX_64X64,
        }
    }

    /// The square size of the greater dimension.
    #[inline]
    pub fn sqr_up(self) -> TxSize
        ensures value { result ≡ tx_sqr_up self }
        ensures side { IsTxSquare result (max (tx_width self) (tx_height self)) }
    {
        match self {
            TX_4X4 => TX_4X4,
            TX_8X8 | TX_4X8 | TX_8X4 => TX_8X8,
            TX_16X16 | TX_8X16 | TX_16X8 | TX_4X16 | TX_16X4 => TX_16X16,
            TX_32X32 | TX_16X32 | TX_32X16 | TX_8X32 | TX_32X8 => TX_32X32,
            TX_64X64 | TX_32X64 | TX_64X32 | TX_16X64 | TX_64X16 => TX_64X64,
        }
    }

    /// The size with this width and height in samples. Some transform has to have them.
    #[inline]
    pub fn by_dims(w: usize, h: usize) -> TxSize
        requires { HasTxSides w h }
        ensures width { tx_width result ≡ w }
        ensures height { tx_height result ≡ h }
        ensures found { (t : TxSize) → tx_width t ≡ w → tx_height t ≡ h → result ≡ t }
    {
        match (w, h) {
            (4, 4) => TX_4X4,
            (8, 8) => TX_8X8,
            (16, 16) => TX_16X16,
            (32, 32) => TX_32X32,
            (64, 64) => TX_64X64,
            (4, 8) => TX_4X8,
            (8, 4) => TX_8X4,
            (8, 16) => TX_8X16,
            (16, 8) => TX_16X8,
            (16, 32) => TX_16X32,
            (32, 16) => TX_32X16,
            (32, 64) => TX_32X64,
            (64, 32) => TX_64X32,
            (4, 16) => TX_4X16,
            (16, 4) => TX_16X4,
            (8, 32) => TX_8X32,
            (32, 8) => TX_32X8,
            (16, 64) => TX_16X64,
            (64, 16) => TX_64X16,
            _ => unreachable!(),
        }
    }

    /// Whether width and height differ.
    #[inline]
    pub fn is_rect(self) -> bool
        ensures { result ≡ not (tx_width self == tx_height self) }
    {
        self.width_log2() != self.height_log2()
    }

    /// The logarithm to base 2 of the width divided by the height: negative if the transform is taller than wide.
    #[inline]
    pub fn rect_ratio_log2(self) -> i8
        ensures { result ≡ pos (side_log2 (tx_width self)) -ℤ pos (side_log2 (tx_height self)) }
    {
        self.width_log2() as i8 - self.height_log2() as i8
    }
}

/// The size in which a transform of size `t` is coded: a side of 64 keeps 32 of its coefficients.
#[inline]
pub fn coded_tx_size(t: TxSize) -> TxSize
    ensures { result ≡ coded_tx_size t }
{
    match t {
        TX_64X64 | TX_64X32 | TX_32X64 => TX_32X32,
        TX_16X64 => TX_16X32,
        TX_64X16 => TX_32X16,
        _ => t,
    }
}
