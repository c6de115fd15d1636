// Tests each kind of intra prediction on a worked block of 4 by 4.
ghost use Rattle.std.specs.Prelude.{◌≡◌, ◌≤◌};
ghost use Rattle.av1_frame.specs.Regions.{InStorage};

use super::support::{four_rows, same};
use av1_frame::{Plane, PlaneRegionMut};
use av1_rav1e::rust::{
    pred_dc, pred_dc_left, pred_dc_top, pred_directional, pred_paeth, pred_smooth, pred_smooth_h,
    pred_smooth_v,
};
use std::alloc::Global;

/// The samples above the block and right of those.
const ABOVE: [u8; 8] = [33, 34, 35, 36, 37, 38, 39, 40];

/// The samples on the left and below those, from the bottom up.
const LEFT: [u8; 8] = [24, 25, 26, 27, 28, 29, 30, 31];

/// Only the samples on the left, from the bottom up.
const BESIDE: [u8; 4] = [28, 29, 30, 31];

/// The corner.
const CORNER: u8 = 32;

/// A kind of prediction.
#[derive(Clone, Copy)]
enum Kind {
    /// Along 87 degrees, with no edge filter.
    Steep,
    /// Along 14 degrees, with no edge filter.
    Flat,
    Paeth,
    Smooth,
    SmoothAcross,
    SmoothDown,
    Mean,
    MeanAbove,
    MeanLeft,
}

/// Predicts a block of 4 by 4.
#[tactic(auto, unfolding(av1_intra::specs::Angles::derivative, av1_intra::specs::Angles::is_interpolated))]
fn predict(kind: Kind, block: &mut PlaneRegionMut<'_, u8>)
    requires fits { InStorage block.old }
    requires columns { 4 ≤ block.old.area.width }
    requires rows { 4 ≤ block.old.area.height }
    ensures fits { InStorage block.new }
    ensures area { block.new.area ≡ block.old.area }
{
    match kind {
        Kind::Steep => pred_directional(block, &ABOVE, &LEFT, &[CORNER], 87, 4, 4, 8, None),
        Kind::Flat => pred_directional(block, &ABOVE, &LEFT, &[CORNER], 14, 4, 4, 8, None),
        Kind::Paeth => pred_paeth(block, &ABOVE, &BESIDE, CORNER, 4, 4),
        Kind::Smooth => pred_smooth(block, &ABOVE, &BESIDE, 4, 4),
        Kind::SmoothAcross => pred_smooth_h(block, &ABOVE, &BESIDE, 4, 4),
        Kind::SmoothDown => pred_smooth_v(block, &ABOVE, &BESIDE, 4, 4),
        Kind::Mean => pred_dc(block, &ABOVE, &BESIDE, 4, 4, 8),
        Kind::MeanAbove => pred_dc_top(block, &ABOVE, &BESIDE, 4, 4, 8),
        Kind::MeanLeft => pred_dc_left(block, &ABOVE, &BESIDE, 4, 4, 8),
    }
}

/// The rows of a block after this prediction.
fn predicted(alloc: Global, kind: Kind) -> Option<[[u8; 4]; 4]> {
    let Ok(mut plane) = Plane::from_slice(alloc, &[0; 16], 4) else {
        return None;
    };
    let mut block = plane.as_region_mut();
    predict(kind, &mut block);
    Some(four_rows(&block))
}

/// The angle of 87 degrees copies the row above.
const STEEP: [[u8; 4]; 4] = [[33, 34, 35, 36]; 4];

/// The angle of 14 degrees runs into the last sample above.
const FLAT: [[u8; 4]; 4] = [[37, 38, 39, 40], [40; 4], [40; 4], [40; 4]];

#[test]
fn angles_copy_samples_above(rt: HostRuntime) {
    let block = predicted(rt.alloc(), Kind::Steep);
    same(&rt, block, Some(STEEP), "87 degrees");
    let block = predicted(rt.alloc(), Kind::Flat);
    same(&rt, block, Some(FLAT), "14 degrees");
}

/// Each sample is the nearest of three.
const NEAREST: [[u8; 4]; 4] = [
    [32, 34, 35, 36],
    [30, 32, 32, 36],
    [29, 32, 32, 32],
    [28, 28, 32, 32],
];

/// Both sides are weighed.
const WEIGHED: [[u8; 4]; 4] = [
    [32, 34, 35, 35],
    [30, 32, 33, 34],
    [29, 31, 32, 32],
    [29, 30, 32, 32],
];

/// Rows run to the last sample above.
const ACROSS: [[u8; 4]; 4] = [
    [31, 33, 34, 35],
    [30, 33, 34, 35],
    [29, 32, 34, 34],
    [28, 31, 33, 34],
];

/// Columns run to the lowest sample on the left.
const DOWN: [[u8; 4]; 4] = [
    [33, 34, 35, 36],
    [31, 31, 32, 33],
    [30, 30, 30, 31],
    [29, 30, 30, 30],
];

#[test]
fn paeth_takes_the_nearest_and_smooth_weighs(rt: HostRuntime) {
    let block = predicted(rt.alloc(), Kind::Paeth);
    same(&rt, block, Some(NEAREST), "Paeth");
    let block = predicted(rt.alloc(), Kind::Smooth);
    same(&rt, block, Some(WEIGHED), "both sides");
    let block = predicted(rt.alloc(), Kind::SmoothAcross);
    same(&rt, block, Some(ACROSS), "across");
    let block = predicted(rt.alloc(), Kind::SmoothDown);
    same(&rt, block, Some(DOWN), "down");
}

#[test]
fn means_are_rounded(rt: HostRuntime) {
    let block = predicted(rt.alloc(), Kind::Mean);
    same(&rt, block, Some([[32; 4]; 4]), "of both sides");
    let block = predicted(rt.alloc(), Kind::MeanAbove);
    same(&rt, block, Some([[35; 4]; 4]), "of the row above");
    let block = predicted(rt.alloc(), Kind::MeanLeft);
    same(&rt, block, Some([[30; 4]; 4]), "of the column on the left");
}

#[test]
fn smooth_keeps_the_greatest_sample_of_12_bits(rt: HostRuntime) {
    let greatest: [u16; 4] = [4095; 4];
    let Ok(mut plane) = Plane::from_slice(rt.alloc(), &[0; 16], 4) else {
        panic!(rt; "memory");
    };
    let mut block = plane.as_region_mut();
    pred_smooth(&mut block, &greatest, &greatest, 4, 4);
    for y in 0..4 {
        same(&rt, (y, block.row(y)), (y, greatest.as_slice()), "row");
    }
}
