// Tests chroma from luma on worked samples: luma's differences from its mean, and the prediction.
use super::support::{four_rows, same};
use av1_blocks::{BlockSize, FilterMode, PredictionMode, TxSize};
use av1_edges::IntraEdge;
use av1_frame::{BlockOffset, FrameInvariants, Plane, TileBlockOffset, TileStateMut};
use av1_intra::PredictionVariant;
use av1_rav1e::{dispatch_predict_intra, luma_ac};

/// Two rows of dark luma over two rows of light luma, as differences from their mean in eighths.
const DIFFERENCES: [i16; 16] = [
    -40, -40, -40, -40, -40, -40, -40, -40, 40, 40, 40, 40, 40, 40, 40, 40,
];

/// A frame of 8 by 8 that has two dark rows in a block of 4 by 4 and then two light ones.
const LUMA: [u8; 64] = [
    0, 0, 0, 0, 0, 0, 0, 0, //
    0, 0, 0, 0, 0, 0, 0, 0, //
    10, 10, 10, 10, 0, 0, 0, 0, //
    10, 10, 10, 10, 0, 0, 0, 0, //
    0, 0, 0, 0, 0, 0, 0, 0, //
    0, 0, 0, 0, 0, 0, 0, 0, //
    0, 0, 0, 0, 0, 0, 0, 0, //
    0, 0, 0, 0, 0, 0, 0, 0, //
];

#[test]
fn luma_differs_from_its_mean(rt: HostRuntime) {
    let fi = FrameInvariants::new(rt.alloc(), 8, 8, FilterMode::REGULAR, 8, false, [0; 7]).expect(
        &rt, "memory",
    );
    let mut y = Plane::from_slice(rt.alloc(), &LUMA, 8).expect(&rt, "memory");
    let mut u = Plane::from_slice(rt.alloc(), &[0; 64], 8).expect(&rt, "memory");
    let mut v = Plane::from_slice(rt.alloc(), &[0; 64], 8).expect(&rt, "memory");
    let mut ts = TileStateMut {
        y: y.as_region_mut(),
        u: u.as_region_mut(),
        v: v.as_region_mut(),
        sbo: BlockOffset { x: 0, y: 0 },
    };
    let first = TileBlockOffset(BlockOffset { x: 0, y: 0 });
    let mut ac = [0; 16];
    let found = luma_ac(
        &mut ac,
        &mut ts,
        first,
        BlockSize::BLOCK_4X4,
        TxSize::TX_4X4,
        &fi,
    );
    same(&rt, &*found, DIFFERENCES.as_slice(), "differences");
}

#[test]
fn chroma_follows_luma_from_half_of_the_range(rt: HostRuntime) {
    let mut plane = Plane::from_slice(rt.alloc(), &[0; 16], 4).expect(&rt, "memory");
    let mut block = plane.as_region_mut();
    let edge = IntraEdge::from_slices(&[], &[128], &[]);
    dispatch_predict_intra(
        PredictionMode::UV_CFL_PRED,
        PredictionVariant::NONE,
        &mut block,
        TxSize::TX_4X4,
        8,
        &DIFFERENCES,
        16,
        None,
        &edge,
    );
    let wanted = [[118; 4], [118; 4], [138; 4], [138; 4]];
    same(&rt, four_rows(&block), wanted, "chroma");
}
