// Tests inverse transforms of one line and of a block, and that columns go through the lanes by eights.
ghost use Rattle.std.specs.Prelude.{◌≢◌, ◌≤◌, IsTrue};
ghost use Rattle.av1_blocks.specs.Transforms.{tx_width, tx_height, valid_av1_transform};
ghost use Rattle.av1_blocks.specs.declared.transform.TxType.TheVariants.{WHT_WHT};

use super::support::{four_rows, same};
use av1_blocks::{TxSize, TxType};
use av1_dct::av1_idct4;
use av1_frame::Plane;
use av1_itx::{
    TxScratch, av1_iidentity4, av1_iwht4, inverse_transform_add, inverse_transform_add_with,
};
use std::alloc::Global;

#[test]
fn lines_are_transformed(rt: HostRuntime) {
    let mut output = [0; 4];
    av1_iidentity4(&[524_287, 0, 0, 0], &mut output, 20);
    same(&rt, output[0], -307_073, "the identity wraps at 32 bits");
    av1_idct4(&[100, 0, 0, 0], &mut output, 16);
    same(&rt, output, [71; 4], "the cosine transform");
    av1_iwht4(&[2, 0, 0, 0], &mut output, 16);
    same(&rt, output, [1; 4], "the Walsh-Hadamard transform");
}

/// A block of 4 by 4 samples of 128 after the cosine transform of these first two coefficients is added.
fn added(alloc: Global, first: i16, second: i16) -> Option<[[u8; 4]; 4]> {
    let Ok(mut plane) = Plane::from_slice(alloc, &[128; 16], 4) else {
        return None;
    };
    let mut block = plane.as_region_mut();
    let mut input = [0; 16];
    input[0] = first;
    input[1] = second;
    let (tx_size, tx_type) = (TxSize::TX_4X4, TxType::DCT_DCT);
    let Ok(()) = inverse_transform_add(alloc, &input, &mut block, tx_size, tx_type, 8) else {
        return None;
    };
    Some(four_rows(&block))
}

#[test]
fn the_first_coefficient_raises_all_samples_alike(rt: HostRuntime) {
    let wanted = Some([[131; 4]; 4]);
    same(&rt, added(rt.alloc(), 100, 0), wanted, "the first place");
}

#[test]
fn coefficients_stand_column_by_column(rt: HostRuntime) {
    let wanted = Some([[132; 4], [130; 4], [126; 4], [124; 4]]);
    same(&rt, added(rt.alloc(), 0, 100), wanted, "the second place");
}

/// Two coefficients. A block that has only its first coefficient is transformed in another way.
const TWO: [i16; 2] = [8, 8];

/// How many groups of eight columns a block with two coefficients puts through the lanes.
fn groups_of(alloc: Global, tx_size: TxSize, tx_type: TxType) -> Option<u64>
    requires valid { IsTrue (valid_av1_transform tx_size tx_type) }
    requires lossy { tx_type ≢ WHT_WHT }
    requires columns { tx_width tx_size ≤ 16 }
    requires rows { tx_height tx_size ≤ 16 }
{
    let Ok(mut plane) = Plane::<u8>::new(alloc, 16, 16, 0, 0, 0, 0) else {
        return None;
    };
    let Ok(mut scratch) = TxScratch::new(alloc) else {
        return None;
    };
    let mut block = plane.as_region_mut();
    inverse_transform_add_with(&mut scratch, &TWO, &mut block, tx_size, tx_type, 8);
    Some(scratch.lane_groups())
}

#[test]
fn cosine_columns_go_by_eights(rt: HostRuntime) {
    let (alloc, cosine) = (rt.alloc(), TxType::DCT_DCT);
    let groups = groups_of(alloc, TxSize::TX_16X16, cosine);
    same(&rt, groups, Some(2), "16x16");
    let groups = groups_of(alloc, TxSize::TX_8X8, cosine);
    same(&rt, groups, Some(1), "8x8");
    let groups = groups_of(alloc, TxSize::TX_4X4, cosine);
    same(&rt, groups, Some(0), "4x4");
    let groups = groups_of(alloc, TxSize::TX_16X16, TxType::ADST_DCT);
    same(&rt, groups, Some(0), "a sine along columns");
}
