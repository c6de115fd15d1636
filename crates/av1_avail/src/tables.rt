//! Tables of constants: which blocks in a square of 128 luma samples have coded samples above right and below left.

ghost use Rattle.std.specs.Prelude.{◌≡◌};
ghost use Rattle.av1_avail.specs.Tables.{top_right_table, bottom_left_table};

use av1_blocks::BlockSize;

static HAS_TR_4X4: [u8; 128] = [
    255, 255, 255, 255, 85, 85, 85, 85, 119, 119, 119, 119, 85, 85, 85, 85, 127, 127, 127, 127, 85,
    85, 85, 85, 119, 119, 119, 119, 85, 85, 85, 85, 255, 127, 255, 127, 85, 85, 85, 85, 119, 119,
    119, 119, 85, 85, 85, 85, 127, 127, 127, 127, 85, 85, 85, 85, 119, 119, 119, 119, 85, 85, 85,
    85, 255, 255, 255, 127, 85, 85, 85, 85, 119, 119, 119, 119, 85, 85, 85, 85, 127, 127, 127, 127,
    85, 85, 85, 85, 119, 119, 119, 119, 85, 85, 85, 85, 255, 127, 255, 127, 85, 85, 85, 85, 119,
    119, 119, 119, 85, 85, 85, 85, 127, 127, 127, 127, 85, 85, 85, 85, 119, 119, 119, 119, 85, 85,
    85, 85,
];

static HAS_TR_4X8: [u8; 64] = [
    255, 255, 255, 255, 119, 119, 119, 119, 127, 127, 127, 127, 119, 119, 119, 119, 255, 127, 255,
    127, 119, 119, 119, 119, 127, 127, 127, 127, 119, 119, 119, 119, 255, 255, 255, 127, 119, 119,
    119, 119, 127, 127, 127, 127, 119, 119, 119, 119, 255, 127, 255, 127, 119, 119, 119, 119, 127,
    127, 127, 127, 119, 119, 119, 119,
];

static HAS_TR_8X4: [u8; 64] = [
    255, 255, 0, 0, 85, 85, 0, 0, 119, 119, 0, 0, 85, 85, 0, 0, 127, 127, 0, 0, 85, 85, 0, 0, 119,
    119, 0, 0, 85, 85, 0, 0, 255, 127, 0, 0, 85, 85, 0, 0, 119, 119, 0, 0, 85, 85, 0, 0, 127, 127,
    0, 0, 85, 85, 0, 0, 119, 119, 0, 0, 85, 85, 0, 0,
];

static HAS_TR_8X8: [u8; 32] = [
    255, 255, 85, 85, 119, 119, 85, 85, 127, 127, 85, 85, 119, 119, 85, 85, 255, 127, 85, 85, 119,
    119, 85, 85, 127, 127, 85, 85, 119, 119, 85, 85,
];

static HAS_TR_8X16: [u8; 16] = [
    255, 255, 119, 119, 127, 127, 119, 119, 255, 127, 119, 119, 127, 127, 119, 119,
];

static HAS_TR_16X8: [u8; 16] = [255, 0, 85, 0, 119, 0, 85, 0, 127, 0, 85, 0, 119, 0, 85, 0];

static HAS_TR_16X16: [u8; 8] = [255, 85, 119, 85, 127, 85, 119, 85];

static HAS_TR_16X32: [u8; 4] = [255, 119, 127, 119];

static HAS_TR_32X16: [u8; 4] = [15, 5, 7, 5];

static HAS_TR_32X32: [u8; 2] = [95, 87];

static HAS_TR_32X64: [u8; 1] = [127];

static HAS_TR_64X32: [u8; 1] = [19];

static HAS_TR_64X64: [u8; 1] = [7];

static HAS_TR_64X128: [u8; 1] = [3];

static HAS_TR_128X64: [u8; 1] = [1];

static HAS_TR_128X128: [u8; 1] = [1];

static HAS_TR_4X16: [u8; 32] = [
    255, 255, 255, 255, 127, 127, 127, 127, 255, 127, 255, 127, 127, 127, 127, 127, 255, 255, 255,
    127, 127, 127, 127, 127, 255, 127, 255, 127, 127, 127, 127, 127,
];

static HAS_TR_16X4: [u8; 32] = [
    255, 0, 0, 0, 85, 0, 0, 0, 119, 0, 0, 0, 85, 0, 0, 0, 127, 0, 0, 0, 85, 0, 0, 0, 119, 0, 0, 0,
    85, 0, 0, 0,
];

static HAS_TR_8X32: [u8; 8] = [255, 255, 127, 127, 255, 127, 127, 127];

static HAS_TR_32X8: [u8; 8] = [15, 0, 5, 0, 7, 0, 5, 0];

static HAS_TR_16X64: [u8; 2] = [255, 127];

static HAS_TR_64X16: [u8; 2] = [3, 1];

static HAS_BL_4X4: [u8; 128] = [
    84, 85, 85, 85, 16, 17, 17, 17, 84, 85, 85, 85, 0, 1, 1, 1, 84, 85, 85, 85, 16, 17, 17, 17, 84,
    85, 85, 85, 0, 0, 1, 0, 84, 85, 85, 85, 16, 17, 17, 17, 84, 85, 85, 85, 0, 1, 1, 1, 84, 85, 85,
    85, 16, 17, 17, 17, 84, 85, 85, 85, 0, 0, 0, 0, 84, 85, 85, 85, 16, 17, 17, 17, 84, 85, 85, 85,
    0, 1, 1, 1, 84, 85, 85, 85, 16, 17, 17, 17, 84, 85, 85, 85, 0, 0, 1, 0, 84, 85, 85, 85, 16, 17,
    17, 17, 84, 85, 85, 85, 0, 1, 1, 1, 84, 85, 85, 85, 16, 17, 17, 17, 84, 85, 85, 85, 0, 0, 0, 0,
];

static HAS_BL_4X8: [u8; 64] = [
    16, 17, 17, 17, 0, 1, 1, 1, 16, 17, 17, 17, 0, 0, 1, 0, 16, 17, 17, 17, 0, 1, 1, 1, 16, 17, 17,
    17, 0, 0, 0, 0, 16, 17, 17, 17, 0, 1, 1, 1, 16, 17, 17, 17, 0, 0, 1, 0, 16, 17, 17, 17, 0, 1,
    1, 1, 16, 17, 17, 17, 0, 0, 0, 0,
];

static HAS_BL_8X4: [u8; 64] = [
    254, 255, 84, 85, 254, 255, 16, 17, 254, 255, 84, 85, 254, 255, 0, 1, 254, 255, 84, 85, 254,
    255, 16, 17, 254, 255, 84, 85, 254, 255, 0, 0, 254, 255, 84, 85, 254, 255, 16, 17, 254, 255,
    84, 85, 254, 255, 0, 1, 254, 255, 84, 85, 254, 255, 16, 17, 254, 255, 84, 85, 254, 255, 0, 0,
];

static HAS_BL_8X8: [u8; 32] = [
    84, 85, 16, 17, 84, 85, 0, 1, 84, 85, 16, 17, 84, 85, 0, 0, 84, 85, 16, 17, 84, 85, 0, 1, 84,
    85, 16, 17, 84, 85, 0, 0,
];

static HAS_BL_8X16: [u8; 16] = [16, 17, 0, 1, 16, 17, 0, 0, 16, 17, 0, 1, 16, 17, 0, 0];

static HAS_BL_16X8: [u8; 16] = [
    254, 84, 254, 16, 254, 84, 254, 0, 254, 84, 254, 16, 254, 84, 254, 0,
];

static HAS_BL_16X16: [u8; 8] = [84, 16, 84, 0, 84, 16, 84, 0];

static HAS_BL_16X32: [u8; 4] = [16, 0, 16, 0];

static HAS_BL_32X16: [u8; 4] = [78, 14, 78, 14];

static HAS_BL_32X32: [u8; 2] = [4, 4];

static HAS_BL_32X64: [u8; 1] = [0];

static HAS_BL_64X32: [u8; 1] = [34];

static HAS_BL_64X64: [u8; 1] = [0];

static HAS_BL_64X128: [u8; 1] = [0];

static HAS_BL_128X64: [u8; 1] = [0];

static HAS_BL_128X128: [u8; 1] = [0];

static HAS_BL_4X16: [u8; 32] = [
    0, 1, 1, 1, 0, 0, 1, 0, 0, 1, 1, 1, 0, 0, 0, 0, 0, 1, 1, 1, 0, 0, 1, 0, 0, 1, 1, 1, 0, 0, 0, 0,
];

static HAS_BL_16X4: [u8; 32] = [
    254, 254, 254, 84, 254, 254, 254, 16, 254, 254, 254, 84, 254, 254, 254, 0, 254, 254, 254, 84,
    254, 254, 254, 16, 254, 254, 254, 84, 254, 254, 254, 0,
];

static HAS_BL_8X32: [u8; 8] = [0, 1, 0, 0, 0, 1, 0, 0];

static HAS_BL_32X8: [u8; 8] = [238, 78, 238, 14, 238, 78, 238, 14];

static HAS_BL_16X64: [u8; 2] = [0, 0];

static HAS_BL_64X16: [u8; 2] = [42, 42];

/// Whether the samples above right are coded before a block, for the blocks of a size in raster order: bit `i % 8` of
/// entry `i / 8` belongs to block `i` of a raster 128 luma samples wide.
#[inline]
pub fn get_has_tr_table(bsize: BlockSize) -> &'static [u8]
    ensures { result.now ≡ top_right_table bsize }
{
    match bsize {
        BlockSize::BLOCK_4X4 => &HAS_TR_4X4,
        BlockSize::BLOCK_4X8 => &HAS_TR_4X8,
        BlockSize::BLOCK_8X4 => &HAS_TR_8X4,
        BlockSize::BLOCK_8X8 => &HAS_TR_8X8,
        BlockSize::BLOCK_8X16 => &HAS_TR_8X16,
        BlockSize::BLOCK_16X8 => &HAS_TR_16X8,
        BlockSize::BLOCK_16X16 => &HAS_TR_16X16,
        BlockSize::BLOCK_16X32 => &HAS_TR_16X32,
        BlockSize::BLOCK_32X16 => &HAS_TR_32X16,
        BlockSize::BLOCK_32X32 => &HAS_TR_32X32,
        BlockSize::BLOCK_32X64 => &HAS_TR_32X64,
        BlockSize::BLOCK_64X32 => &HAS_TR_64X32,
        BlockSize::BLOCK_64X64 => &HAS_TR_64X64,
        BlockSize::BLOCK_64X128 => &HAS_TR_64X128,
        BlockSize::BLOCK_128X64 => &HAS_TR_128X64,
        BlockSize::BLOCK_128X128 => &HAS_TR_128X128,
        BlockSize::BLOCK_4X16 => &HAS_TR_4X16,
        BlockSize::BLOCK_16X4 => &HAS_TR_16X4,
        BlockSize::BLOCK_8X32 => &HAS_TR_8X32,
        BlockSize::BLOCK_32X8 => &HAS_TR_32X8,
        BlockSize::BLOCK_16X64 => &HAS_TR_16X64,
        BlockSize::BLOCK_64X16 => &HAS_TR_64X16,
    }
}

/// Whether the samples below left are coded before a block, for the blocks of a size in raster order: bit `i % 8` of
/// entry `i / 8` belongs to block `i` of a raster 128 luma samples wide.
#[inline]
pub fn get_has_bl_table(bsize: BlockSize) -> &'static [u8]
    ensures { result.now ≡ bottom_left_table bsize }
{
    match bsize {
        BlockSize::BLOCK_4X4 => &HAS_BL_4X4,
        BlockSize::BLOCK_4X8 => &HAS_BL_4X8,
        BlockSize::BLOCK_8X4 => &HAS_BL_8X4,
        BlockSize::BLOCK_8X8 => &HAS_BL_8X8,
        BlockSize::BLOCK_8X16 => &HAS_BL_8X16,
        BlockSize::BLOCK_16X8 => &HAS_BL_16X8,
        BlockSize::BLOCK_16X16 => &HAS_BL_16X16,
        BlockSize::BLOCK_16X32 => &HAS_BL_16X32,
        BlockSize::BLOCK_32X16 => &HAS_BL_32X16,
        BlockSize::BLOCK_32X32 => &HAS_BL_32X32,
        BlockSize::BLOCK_32X64 => &HAS_BL_32X64,
        BlockSize::BLOCK_64X32 => &HAS_BL_64X32,
        BlockSize::BLOCK_64X64 => &HAS_BL_64X64,
        BlockSize::BLOCK_64X128 => &HAS_BL_64X128,
        BlockSize::BLOCK_128X64 => &HAS_BL_128X64,
        BlockSize::BLOCK_128X128 => &HAS_BL_128X128,
        BlockSize::BLOCK_4X16 => &HAS_BL_4X16,
        BlockSize::BLOCK_16X4 => &HAS_BL_16X4,
        BlockSize::BLOCK_8X32 => &HAS_BL_8X32,
        BlockSize::BLOCK_32X8 => &HAS_BL_32X8,
        BlockSize::BLOCK_16X64 => &HAS_BL_16X64,
        BlockSize::BLOCK_64X16 => &HAS_BL_64X16,
    }
}
