//! Passes samples of 8 or 16 bits to the calls of `av1_calls`, which write the given slices. Does not allocate.

ghost use Rattle.std.specs.Prelude.{◌^◌, ◌<◌, All};

use crate::samples::Target;
use av1_calls::{
    CflBlock, EdgeBlock, EdgePlane, IntraBlock, MotionBlock, tilg_cfl_ac_8, tilg_cfl_ac_tested_16,
    tilg_intra_edge_8, tilg_intra_edge_16, tilg_mc_avg_8, tilg_mc_avg_16, tilg_predict_cfl_8,
    tilg_predict_cfl_16, tilg_predict_intra_8, tilg_predict_intra_16, tilg_prep_8tap_8,
    tilg_prep_tested_16, tilg_put_8tap_8, tilg_put_tested_16,
};
use av1_frame::Pixel;

/// The column and row of a block in its reference. The samples that the filters read begin with the first sample.
pub const BEFORE: usize = 3;

/// The dimensions of a block.
#[derive(Clone, Copy)]
pub struct BlockSides<'a, T> {
    pub left: &'a [T],
    pub corner: T,
    pub above: &'a [T],
}

/// Types of samples that the calls take. Each call returns its status.
pub trait Called: Pixel {
    /// Predicts a block from a reference whose samples are within the depth.
    fn put(
        to: &mut [Self],
        target: Target,
        from: &[Self],
        stride: usize,
        block: &MotionBlock,
        depth: u8,
    ) -> u32
        requires within { All (λ sample. Self.num sample < 2 ^ depth) from.now };

    /// Prepares a block of a reference whose samples are within the depth.
    fn prepare(
        values: &mut [i16],
        from: &[Self],
        stride: usize,
        block: &MotionBlock,
        depth: u8,
    ) -> u32
        requires within { All (λ sample. Self.num sample < 2 ^ depth) from.now };

    /// Averages two prepared blocks.
    fn average(to: &mut [Self], target: Target, first: &[i16], second: &[i16], depth: u8) -> u32;

    /// Predicts a block from its edge.
    fn predict(to: &mut [Self], target: Target, block: &IntraBlock, sides: BlockSides<Self>) -> u32;

    /// Predicts a block of chroma from its edge and luma's differences.
    fn predict_from_luma(
        to: &mut [Self],
        target: Target,
        block: &IntraBlock,
        sides: BlockSides<Self>,
        differences: &[i16],
        alpha: i16,
    ) -> u32;

    /// Prepares the edge of a transform.
    fn prepare_edge(
        edge: &mut [Self],
        samples: &[Self],
        plane: &EdgePlane,
        block: &EdgeBlock,
    ) -> u32;

    /// Writes how far luma is from its mean. Rows of luma, whose samples have at most 12 bits, are `stride` apart.
    fn put_differences(
        differences: &mut [i16],
        luma: &[Self],
        stride: usize,
        target: Target,
        block: &CflBlock,
    ) -> u32
        requires low { All (λ sample. Self.num sample < 2 ^ 12) luma.now };
}

impl Called for u8 {
    fn put(
        to: &mut [u8],
        target: Target,
        from: &[u8],
        stride: usize,
        block: &MotionBlock,
        _depth: u8,
    ) -> u32 {
        tilg_put_8tap_8(
            to,
            target.stride,
            target.area.x,
            target.area.y,
            from,
            stride,
            BEFORE,
            BEFORE,
            block,
        )
    }

    fn prepare(
        values: &mut [i16],
        from: &[u8],
        stride: usize,
        block: &MotionBlock,
        _depth: u8,
    ) -> u32 {
        tilg_prep_8tap_8(values, from, stride, BEFORE, BEFORE, block)
    }

    fn average(to: &mut [u8], target: Target, first: &[i16], second: &[i16], _depth: u8) -> u32 {
        let area = target.area;
        tilg_mc_avg_8(
            to,
            target.stride,
            area.x,
            area.y,
            area.width,
            area.height,
            first,
            second,
        )
    }

    fn predict(to: &mut [u8], target: Target, block: &IntraBlock, sides: BlockSides<u8>) -> u32 {
        tilg_predict_intra_8(
            to,
            target.stride,
            target.area.x,
            target.area.y,
            block,
            sides.left,
            sides.corner,
            sides.above,
        )
    }

    fn predict_from_luma(
        to: &mut [u8],
        target: Target,
        block: &IntraBlock,
        sides: BlockSides<u8>,
        differences: &[i16],
        alpha: i16,
    ) -> u32 {
        tilg_predict_cfl_8(
            to,
            target.stride,
            target.area.x,
            target.area.y,
            block,
            sides.left,
            sides.above,
            differences,
            alpha,
        )
    }

    fn prepare_edge(edge: &mut [u8], samples: &[u8], plane: &EdgePlane, block: &EdgeBlock) -> u32 {
        tilg_intra_edge_8(edge, samples, plane, block)
    }

    fn put_differences(
        differences: &mut [i16],
        luma: &[u8],
        stride: usize,
        target: Target,
        block: &CflBlock,
    ) -> u32 {
        tilg_cfl_ac_8(
            differences,
            luma,
            stride,
            target.area.x,
            target.area.y,
            block,
        )
    }
}

impl Called for u16 {
    fn put(
        to: &mut [u16],
        target: Target,
        from: &[u16],
        stride: usize,
        block: &MotionBlock,
        depth: u8,
    ) -> u32 {
        tilg_put_tested_16(
            to,
            target.stride,
            target.area.x,
            target.area.y,
            from,
            stride,
            BEFORE,
            BEFORE,
            block,
            usize::from(depth),
        )
    }

    fn prepare(
        values: &mut [i16],
        from: &[u16],
        stride: usize,
        block: &MotionBlock,
        depth: u8,
    ) -> u32 {
        let depth = usize::from(depth);
        tilg_prep_tested_16(values, from, stride, BEFORE, BEFORE, block, depth)
    }

    fn average(to: &mut [u16], target: Target, first: &[i16], second: &[i16], depth: u8) -> u32 {
        let area = target.area;
        tilg_mc_avg_16(
            to,
            target.stride,
            area.x,
            area.y,
            area.width,
            area.height,
            first,
            second,
            usize::from(depth),
        )
    }

    fn predict(to: &mut [u16], target: Target, block: &IntraBlock, sides: BlockSides<u16>) -> u32 {
        tilg_predict_intra_16(
            to,
            target.stride,
            target.area.x,
            target.area.y,
            block,
            sides.left,
            sides.corner,
            sides.above,
        )
    }

    fn predict_from_luma(
        to: &mut [u16],
        target: Target,
        block: &IntraBlock,
        sides: BlockSides<u16>,
        differences: &[i16],
        alpha: i16,
    ) -> u32 {
        tilg_predict_cfl_16(
            to,
            target.stride,
            target.area.x,
            target.area.y,
            block,
            sides.left,
            sides.above,
            differences,
            alpha,
        )
    }

    fn prepare_edge(
        edge: &mut [u16],
        samples: &[u16],
        plane: &EdgePlane,
        block: &EdgeBlock,
    ) -> u32 {
        tilg_intra_edge_16(edge, samples, plane, block)
    }

    fn put_differences(
        differences: &mut [i16],
        luma: &[u16],
        stride: usize,
        target: Target,
        block: &CflBlock,
    ) -> u32 {
        tilg_cfl_ac_tested_16(
            differences,
            luma,
            stride,
            target.area.x,
            target.area.y,
            block,
        )
    }
}
