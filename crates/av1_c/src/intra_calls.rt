//! C calls for intra prediction. Each passes its arguments to the call of `av1_calls` with its name. None allocates.
//! The documentation is in `av1_calls`. The calls are on blocks, edges, chroma from luma and their arguments.
ghost use Rattle.av1_blocks.specs.declared.predict.PredictionMode.TheVariants as modes;
ghost use Rattle.av1_calls.specs.CflPads.{FindsChroma};
ghost use Rattle.av1_calls.specs.IntraBlocks.{Predicts, PredictsBy};
ghost use Rattle.av1_calls.specs.IntraEdges.{PreparesEdge};
ghost use Rattle.av1_calls.specs.IntraPlanes.{PredictsInPlane};
ghost use Rattle.av1_calls.specs.LumaBlocks.{GivesDifferences, IsLumaTested};

use av1_calls::{CflBlock, EdgeBlock, EdgePlane, IntraBlock, LumaLeafBlock};

/// Predicts a block by its intra mode from the samples round it, at a depth of 8.
#[unsafe(no_mangle)]
pub extern "C" fn tilg_predict_intra_8(
    samples: &mut [u8],
    stride: usize,
    x: usize,
    y: usize,
    block: &IntraBlock,
    left: &[u8],
    corner: u8,
    above: &[u8],
) -> u32
    ensures { Predicts 8 (λ n. n) (λ n. n) block.now stride x y left.now corner above.now samples.old samples.new result }
{
    av1_calls::tilg_predict_intra_8(samples, stride, x, y, block, left, corner, above)
}

/// Predicts a block by its intra mode, in samples of 16 bits.
#[unsafe(no_mangle)]
pub extern "C" fn tilg_predict_intra_16(
    samples: &mut [u16],
    stride: usize,
    x: usize,
    y: usize,
    block: &IntraBlock,
    left: &[u16],
    corner: u16,
    above: &[u16],
) -> u32
    ensures { Predicts 16 (λ n. n) (λ n. n) block.now stride x y left.now corner above.now samples.old samples.new result }
{
    av1_calls::tilg_predict_intra_16(samples, stride, x, y, block, left, corner, above)
}

/// Predicts a block of chroma from luma, at a depth of 8.
#[unsafe(no_mangle)]
pub extern "C" fn tilg_predict_cfl_8(
    samples: &mut [u8],
    stride: usize,
    x: usize,
    y: usize,
    block: &IntraBlock,
    left: &[u8],
    above: &[u8],
    ac: &[i16],
    alpha: i16,
) -> u32
    ensures { PredictsBy 8 (λ n. n) (λ n. n) block.now modes.UV_CFL_PRED stride x y left.now 0 above.now ac.now alpha samples.old samples.new result }
{
    av1_calls::tilg_predict_cfl_8(samples, stride, x, y, block, left, above, ac, alpha)
}

/// Predicts a block of chroma from luma, in samples of 16 bits.
#[unsafe(no_mangle)]
pub extern "C" fn tilg_predict_cfl_16(
    samples: &mut [u16],
    stride: usize,
    x: usize,
    y: usize,
    block: &IntraBlock,
    left: &[u16],
    above: &[u16],
    ac: &[i16],
    alpha: i16,
) -> u32
    ensures { PredictsBy 16 (λ n. n) (λ n. n) block.now modes.UV_CFL_PRED stride x y left.now 0 above.now ac.now alpha samples.old samples.new result }
{
    av1_calls::tilg_predict_cfl_16(samples, stride, x, y, block, left, above, ac, alpha)
}

/// Prepares the edge of a transform for the mode that will predict it, at a depth of 8.
#[unsafe(no_mangle)]
pub extern "C" fn tilg_intra_edge_8(
    edge: &mut [u8],
    samples: &[u8],
    plane: &EdgePlane,
    block: &EdgeBlock,
) -> u32
    ensures { PreparesEdge 8 (λ n. n) plane.now block.now samples.now edge.old edge.new result }
{
    av1_calls::tilg_intra_edge_8(edge, samples, plane, block)
}

/// Prepares the edge of a transform, from samples of 16 bits.
#[unsafe(no_mangle)]
pub extern "C" fn tilg_intra_edge_16(
    edge: &mut [u16],
    samples: &[u16],
    plane: &EdgePlane,
    block: &EdgeBlock,
) -> u32
    ensures { PreparesEdge 16 (λ n. n) plane.now block.now samples.now edge.old edge.new result }
{
    av1_calls::tilg_intra_edge_16(edge, samples, plane, block)
}

/// Prepares the edge of a transform and predicts the transform from it in the samples of its plane, at a depth of 8.
#[unsafe(no_mangle)]
pub extern "C" fn tilg_predict_in_plane_8(
    samples: &mut [u8],
    plane: &EdgePlane,
    block: &EdgeBlock,
    smooth_neighbour: u8,
    ac: &[i16],
    alpha: i16,
) -> u32
    ensures { PredictsInPlane 8 plane.now block.now smooth_neighbour ac.now alpha samples.old samples.new result }
{
    av1_calls::tilg_predict_in_plane_8(samples, plane, block, smooth_neighbour, ac, alpha)
}

/// Prepares the edge of a transform and predicts the transform from it, in samples of 16 bits.
#[unsafe(no_mangle)]
pub extern "C" fn tilg_predict_in_plane_16(
    samples: &mut [u16],
    plane: &EdgePlane,
    block: &EdgeBlock,
    smooth_neighbour: u8,
    ac: &[i16],
    alpha: i16,
) -> u32
    ensures { PredictsInPlane 16 plane.now block.now smooth_neighbour ac.now alpha samples.old samples.new result }
{
    av1_calls::tilg_predict_in_plane_16(samples, plane, block, smooth_neighbour, ac, alpha)
}

/// Gives the differences of luma from its mean over a block of chroma, at a depth of 8.
#[unsafe(no_mangle)]
pub extern "C" fn tilg_cfl_ac_8(
    ac: &mut [i16],
    luma: &[u8],
    stride: usize,
    x: usize,
    y: usize,
    block: &CflBlock,
) -> u32
    ensures { GivesDifferences block.now stride x y luma.now ac.old ac.new result }
{
    av1_calls::tilg_cfl_ac_8(ac, luma, stride, x, y, block)
}

/// Gives the differences of luma from its mean, from samples of 16 bits that were tested before.
#[unsafe(no_mangle)]
pub extern "C" fn tilg_cfl_ac_tested_16(
    ac: &mut [i16],
    luma: &[u16],
    stride: usize,
    x: usize,
    y: usize,
    block: &CflBlock,
) -> u32
    requires { IsLumaTested block.now stride x y luma.now }
    ensures { GivesDifferences block.now stride x y luma.now ac.old ac.new result }
{
    av1_calls::tilg_cfl_ac_tested_16(ac, luma, stride, x, y, block)
}

/// Finds the block of chroma that is predicted from a block's luma.
#[unsafe(no_mangle)]
pub extern "C" fn tilg_cfl_block_of(block: &mut CflBlock, luma: &LumaLeafBlock) -> u32
    ensures { FindsChroma luma.now block.old block.new result }
{
    av1_calls::tilg_cfl_block_of(block, luma)
}
