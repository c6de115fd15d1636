// Tests which block sizes exist, the ratios of transform sizes, and the rounding of vectors.
use super::support::same;
use av1_blocks::{BlockSize, InvalidBlockSize, MotionVector, TxSize};

#[test]
fn sizes_and_vectors(rt: HostRuntime) {
    let size = BlockSize::from_width_and_height_opt(64, 8);
    same(&rt, size, Err(InvalidBlockSize), "no block is 64x8");
    let size = BlockSize::from_width_and_height_opt(16, 64);
    same(&rt, size, Ok(BlockSize::BLOCK_16X64), "16x64 is one");
    let cut = MotionVector { row: -9, col: 15 }.quantize_to_fullpel();
    same(
        &rt,
        cut,
        MotionVector { row: -8, col: 8 },
        "vectors are cut toward zero",
    );
    same(
        &rt,
        TxSize::TX_16X4.rect_ratio_log2(),
        2,
        "the ratio of 16x4",
    );
    same(
        &rt,
        TxSize::TX_8X32.rect_ratio_log2(),
        -2,
        "the ratio of 8x32",
    );
}
