//! Tests its arguments, then predicts a transform from its neighbours. Writes its rectangle of the plane's samples.
//!
//! AV1 specification: intra prediction process.
ghost use Rattle.std.specs.Prelude.{◌≡◌, ◌<◌, length, take, drop};
ghost use Rattle.av1_calls.specs.IntraEdges.{LiesIn};
ghost use Rattle.av1_calls.specs.IntraPlanes.{PredictsFrom, PredictsInPlane, block_in, column_in, has_before, row_in};

use crate::intra::{IntraBlock, Sides, predict_by, predict_by_number};
use crate::intra_edge::{
    EDGE_SAMPLES, EdgeBlock, EdgePlane, rows_of, tilg_intra_edge_8, tilg_intra_edge_16,
};
use crate::motion::Place;
use crate::status::DONE;
use av1_blocks::PredictionMode;
use av1_frame::Pixel;

/// The number of chroma from luma among the modes.
pub const FROM_LUMA: u8 = 13;

/// How many samples of an edge's buffer are for the left side.
const LEFT_SAMPLES: usize = 128;

/// A transform, its plane, and whether a neighbour has a smooth mode.
#[derive(Clone, Copy)]
struct EdgeTransform {
    plane: EdgePlane,
    block: EdgeBlock,
    smooth_neighbour: u8,
}

// 1 if a column or row has one before it in the tile, else 0.
#[inline(always)]
fn has_before(place: usize) -> u8
    ensures { result ≡ has_before place }
{
    if place == 0 { 0 } else { 1 }
}

// The transform as a block to predict.
#[inline(always)]
fn block_in(at: EdgeTransform) -> IntraBlock
    ensures { result ≡ block_in at.plane at.block at.smooth_neighbour }
{
    let (plane, block) = (at.plane, at.block);
    IntraBlock {
        mode: block.mode,
        tx_size: block.tx_size,
        angle_step: block.angle_step,
        bit_depth: block.bit_depth,
        has_left: has_before(block.x),
        has_above: has_before(block.y),
        edge_filter: block.edge_filter,
        smooth_neighbour: at.smooth_neighbour,
        visible_columns: plane
            .width
            .saturating_sub(plane.tile_x)
            .saturating_sub(block.x),
        visible_rows: plane
            .height
            .saturating_sub(plane.tile_y)
            .saturating_sub(block.y),
    }
}

// The column of the transform's first sample in the samples of its plane.
#[inline(always)]
fn column_in(plane: EdgePlane, block: EdgeBlock, samples: usize) -> usize
    requires lies { LiesIn plane samples }
    requires begins { block.x < plane.tile_width }
    ensures { result ≡ column_in plane block }
{
    plane.x + plane.tile_x + block.x
}

// The row of the transform's first sample in the samples of its plane.
#[inline(always)]
fn row_in(plane: EdgePlane, block: EdgeBlock, samples: usize) -> usize
    requires lies { LiesIn plane samples }
    requires begins { block.y < plane.tile_height }
    ensures { result ≡ row_in plane block }
{
    // All these rows lie in the samples, so the sum does not overflow.
    let _rows = rows_of(plane, samples);
    plane.y + plane.tile_y + block.y
}

/// Predicts a transform from its prepared edge. `corner` is sample 128 of the edge.
#[inline(always)]
fn predict_prepared<T: Pixel>(
    samples: &mut [T],
    at: EdgeTransform,
    edge: &[T],
    corner: T,
    ac: &[i16],
    alpha: i16,
) -> u32
    requires whole { length edge.now ≡ 257 }
    requires lies { LiesIn at.plane (length samples.old) }
    requires column { at.block.x < at.plane.tile_width }
    requires row { at.block.y < at.plane.tile_height }
    ensures { PredictsFrom T.BITS T.num T.pixel at.plane at.block at.smooth_neighbour (take 128 edge.now) corner (drop 129 edge.now) ac.now alpha
        samples.old samples.new result }
{
    let (left, _) = edge.split_at(LEFT_SAMPLES);
    let (_, above) = edge.split_at(LEFT_SAMPLES + 1);
    let sides = Sides {
        left,
        corner,
        above,
    };
    let block = block_in(at);
    let place = Place {
        stride: at.plane.stride,
        x: column_in(at.plane, at.block, samples.len()),
        y: row_in(at.plane, at.block, samples.len()),
    };
    let mode = at.block.mode;
    if mode == FROM_LUMA {
        let by = PredictionMode::UV_CFL_PRED;
        predict_by(block, by, samples, place, sides, ac, alpha)
    } else {
        predict_by_number(samples, place, block, sides)
    }
}

/// Predicts a transform by its mode in the samples of its plane, at a depth of 8. The call prepares the edge as
/// [`tilg_intra_edge_8`] does and predicts from it as `tilg_predict_intra_8` does. Mode 13, chroma from luma, predicts
/// as `tilg_predict_cfl_8` does, by `ac` and `alpha`. Other modes don't read `ac` and `alpha`. All other samples are
/// unchanged.
///
/// The position in `plane` says whether a side lies in the tile, and how much of the plane is visible from the
/// transform on. `smooth_neighbour` is 0 if no neighbour has a smooth mode.
///
/// `DONE`: success. `BAD_MODE`, `BAD_SIZE`: no intra mode or no size has the number. `BAD_ANGLE`: the mode does not
/// turn this many steps. `BAD_DEPTH`: the samples have no such depth. `TOO_SHORT`: `ac` has fewer entries than the
/// transform has samples. `BAD_AREA`: one of these:
///
/// - The plane or the transform does not lie in the samples, or the tile not in the plane.
/// - The transform does not begin in the tile, or begins 65536 units of 4 samples or more from the start of its block.
pub fn tilg_predict_in_plane_8(
    samples: &mut [u8],
    plane: &EdgePlane,
    block: &EdgeBlock,
    smooth_neighbour: u8,
    ac: &[i16],
    alpha: i16,
) -> u32
    ensures { PredictsInPlane 8 plane.now block.now smooth_neighbour ac.now alpha samples.old samples.new result }
{
    let mut edge = [0; EDGE_SAMPLES];
    let prepared = tilg_intra_edge_8(&mut edge, samples, plane, block);
    if prepared != DONE {
        return prepared;
    }
    let at = EdgeTransform {
        plane: *plane,
        block: *block,
        smooth_neighbour,
    };
    let corner = edge[LEFT_SAMPLES];
    predict_prepared(samples, at, &edge, corner, ac, alpha)
}

/// Predicts as [`tilg_predict_in_plane_8`] does, in samples of 16 bits at a depth of 8, 10 or 12. The call does not
/// test that samples fit the depth.
pub fn tilg_predict_in_plane_16(
    samples: &mut [u16],
    plane: &EdgePlane,
    block: &EdgeBlock,
    smooth_neighbour: u8,
    ac: &[i16],
    alpha: i16,
) -> u32
    ensures { PredictsInPlane 16 plane.now block.now smooth_neighbour ac.now alpha samples.old samples.new result }
{
    let mut edge = [0; EDGE_SAMPLES];
    let prepared = tilg_intra_edge_16(&mut edge, samples, plane, block);
    if prepared != DONE {
        return prepared;
    }
    let at = EdgeTransform {
        plane: *plane,
        block: *block,
        smooth_neighbour,
    };
    let corner = edge[LEFT_SAMPLES];
    predict_prepared(samples, at, &edge, corner, ac, alpha)
}
