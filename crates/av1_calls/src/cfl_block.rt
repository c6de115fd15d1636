//! Tests its arguments, then computes the chroma block that is predicted from a block's luma. Writes only the result.
//!
//! AV1 specification: predict chroma from luma process.
ghost use Rattle.std.specs.Prelude.{◌≡◌, true, ◌*◌, ◌<◌, ◌≤◌, None, IfOk, IfErr, IfSome};
ghost use Rattle.av1_blocks.specs.Chroma.{IsSubsampled};
ghost use Rattle.av1_calls.specs.CflPads.{AreSizes, FindsChroma, HasNoChromaSizeOf, HasNoSizes, IsChromaOf, IsChromaSizeOf, IsLumaFault, IsVisible};
ghost use Rattle.av1_calls.specs.CflPads.{pad_along};
ghost use Rattle.av1_calls.specs.LumaBlocks.{IsSampling};

use crate::argument::BadArgument;
use crate::luma::{CflBlock, is_sampling};
use crate::status::DONE;
use av1_blocks::{BlockSize, TxSize};

/// A block whose chroma is predicted from its luma.
#[repr(C)]
#[derive(Clone, Copy, Debug, PartialEq, Eq)]
pub struct LumaLeafBlock {
    /// The number of its size in luma, from 0 (`BLOCK_4X4`) to 21 (`BLOCK_64X16`).
    pub block_size: u8,
    /// The number of the size of its luma transforms, from 0 (`TX_4X4`) to 18 (`TX_64X16`).
    pub tx_size: u8,
    /// 1 if chroma has half of luma's columns, else 0.
    pub xdec: u8,
    /// 1 if chroma has half of luma's rows, else 0. It is 1 only if `xdec` is 1.
    pub ydec: u8,
    /// How many columns of luma are visible from the block's first column on.
    pub visible_columns: usize,
    /// How many rows of luma are visible from the block's first row on.
    pub visible_rows: usize,
}

/// The sizes that the numbers of a block name.
#[derive(Clone, Copy)]
struct Sizes {
    luma: BlockSize,
    transform: TxSize,
    chroma: BlockSize,
}

// The size of a block's chroma, if it has one of at most 32 by 32 samples.
fn chroma_of(luma: BlockSize, xdec: u8, ydec: u8) -> Option<BlockSize>
    ensures found { IfSome result (IsChromaSizeOf luma xdec ydec) }
    ensures sides { IfSome result (IsSubsampled luma xdec ydec) }
    ensures none { result ≡ None → HasNoChromaSizeOf luma xdec ydec }
{
    match luma.subsampled_size(usize::from(xdec), usize::from(ydec)) {
        Ok(size) if size.width() <= 32 && size.height() <= 32 => Some(size),
        _ => None,
    }
}

// The sizes that the numbers of a block name.
fn sizes_of(luma: LumaLeafBlock) -> Option<Sizes>
    ensures found { IfSome result (λ sizes. AreSizes luma sizes.luma sizes.transform sizes.chroma) }
    ensures sides { IfSome result (λ sizes. IsSubsampled sizes.luma luma.xdec luma.ydec sizes.chroma) }
    ensures none { result ≡ None → HasNoSizes luma }
{
    let size = BlockSize::from_number(luma.block_size)?;
    let transform = TxSize::from_number(luma.tx_size)?;
    let chroma = chroma_of(size, luma.xdec, luma.ydec)?;
    Some(Sizes {
        luma: size,
        transform,
        chroma,
    })
}

// Whether some of the luma is visible.
fn is_visible(luma: LumaLeafBlock) -> bool
    ensures true_is { result ≡ true → IsVisible luma }
    ensures is_true { IsVisible luma → result ≡ true }
{
    0 < luma.visible_columns && 0 < luma.visible_rows
}

// How many units of 4 samples of chroma have no luma of their own, in one direction. `side` and `visible` are in
// samples of luma.
fn pad_along(side: usize, tx_side: usize, visible: usize, decimation: usize) -> usize
    requires short { side ≤ 128 }
    requires some { 0 < tx_side }
    requires tx_short { tx_side ≤ 64 }
    requires decimation { decimation ≤ 1 }
    ensures { result ≡ pad_along side tx_side visible decimation }
{
    let coded = if side <= 8 {
        side
    } else {
        (side.min(visible) + tx_side - 1) / tx_side * tx_side
    };
    side.saturating_sub(coded) / (4 << decimation)
}

// The block of chroma with these sizes.
fn padded(luma: LumaLeafBlock, sizes: Sizes) -> CflBlock
    requires sampled { IsSampling luma.xdec luma.ydec }
    requires sized { AreSizes luma sizes.luma sizes.transform sizes.chroma }
    requires sides { IsSubsampled sizes.luma luma.xdec luma.ydec sizes.chroma }
    requires visible { IsVisible luma }
    ensures { IsChromaOf luma result }
{
    let (size, transform) = (sizes.luma, sizes.transform);
    CflBlock {
        block_size: sizes.chroma.number(),
        xdec: luma.xdec,
        ydec: luma.ydec,
        w_pad: pad_along(
            size.width(),
            transform.width(),
            luma.visible_columns,
            usize::from(luma.xdec),
        ),
        h_pad: pad_along(
            size.height(),
            transform.height(),
            luma.visible_rows,
            usize::from(luma.ydec),
        ),
    }
}

/// The chroma block of a block that numbers describe.
///
/// # Errors
///
/// `Sampling`, then `Size`, then `Pad`.
fn block_of(luma: LumaLeafBlock) -> Result<CflBlock, BadArgument>
    ensures found { IfOk result (IsChromaOf luma) }
    ensures fault { IfErr result (IsLumaFault luma) }
{
    if !is_sampling(luma.xdec, luma.ydec) {
        return Err(BadArgument::Sampling);
    }
    let Some(sizes) = sizes_of(luma) else {
        return Err(BadArgument::Size);
    };
    if !is_visible(luma) {
        return Err(BadArgument::Pad);
    }
    Ok(padded(luma, sizes))
}

/// Finds the block of chroma that is predicted from a block's luma, as `tilg_cfl_ac_8` takes it. The result has the
/// size of the chroma, and how many units of 4 columns and of 4 rows have no luma of their own. These are the units
/// that no transform codes that begins in the visible plane. In the AV1 specification, `MaxLumaW` and `MaxLumaH` say
/// so.
///
/// If a dimension of 4 is halved, the block shares its chroma with the block before it. `tilg_cfl_ac_8` then reads all
/// 8 samples of luma of both blocks.
///
/// `DONE`: success. `BAD_SAMPLING`: chroma has no such subsampling. `BAD_SIZE`: no size has the number, or the block
/// has no chroma, or its chroma is wider or higher than 32. `BAD_PAD`: no column or no row of its luma is visible.
pub fn tilg_cfl_block_of(block: &mut CflBlock, luma: &LumaLeafBlock) -> u32
    ensures { FindsChroma luma.now block.old block.new result }
{
    match block_of(*luma) {
        Ok(found) => {
            *block = found;
            DONE
        }
        Err(fault) => fault.status(),
    }
}
