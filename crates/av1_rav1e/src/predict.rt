//! Predicts a block of a region by its intra mode: reads the edge round it, and writes only the block.
//!
//! AV1 specification: intra prediction process.

ghost use Rattle.std.specs.Prelude.{◌≡◌, ◌+◌, ◌*◌, ◌<◌, ◌≤◌, length, IsTrue, unsigned_abs};
ghost use Rattle.av1_blocks.specs.Transforms.{tx_width, tx_height};
ghost use Rattle.av1_blocks.specs.Modes.{is_intra, is_cfl};
ghost use Rattle.av1_frame.specs.Regions.{InStorage, painted};
ghost use Rattle.av1_edges.specs.Parts.{step_of};
ghost use Rattle.av1_intra.specs.ChromaFromLuma.{ac_at};
ghost use Rattle.av1_intra.specs.Predicted.{predicted, alpha_of, angle_or_alpha, is_angle_of, places_above, places_left};
ghost use Rattle.av1_rav1e.specs.Blocks.{HoldsBlock, block_at, edge_of, mode_of_block, variant_of_block, column_in, row_in};

use crate::region_block::block_in;
use av1_blocks::{IntraParam, PredictionMode, TxSize};
use av1_edges::{IntraEdge, effective};
use av1_frame::{Pixel, PlaneRegionMut, TileRect};
use av1_intra::{
    DirectionalBlock, IntraEdgeFilterParameters, PredictionVariant, angle_or_alpha,
    dispatch_predict_intra_to,
};

/// The weight of luma in `UV_CFL_PRED`, and 0 in other modes.
fn weight_of(mode: PredictionMode, angle: isize) -> i16
    requires { IsTrue (is_angle_of mode angle) }
    ensures { IsTrue (is_cfl mode) → result ≡ angle }
{
    match mode {
        PredictionMode::UV_CFL_PRED => angle as i16,
        _ => 0,
    }
}

/// The block of a transform at the first sample of a region, along an angle.
fn transform_in<T: Pixel>(
    region: &PlaneRegionMut<'_, T>,
    tx_size: TxSize,
    angle: isize,
    bit_depth: usize,
    ief_params: Option<IntraEdgeFilterParameters>,
) -> DirectionalBlock
    requires fits { InStorage region.now }
    ensures { result ≡ block_at region.now (unsigned_abs angle) (tx_width tx_size) (tx_height tx_size) bit_depth ief_params }
{
    let (width, height) = (tx_size.width(), tx_size.height());
    block_in(
        region,
        angle.unsigned_abs(),
        width,
        height,
        bit_depth,
        ief_params,
    )
}

/// Predicts the samples of a transform of `tx_size`, in the first rows and columns of `dst`, by an intra mode and the
/// edge round it. `variant` says which sides lie in the tile, for the modes that take a mean. `angle` is the angle of a
/// directional mode, in degrees, or the weight of luma in `UV_CFL_PRED`. Then `ac` holds the differences of luma, row
/// by row. All other samples are unchanged.
///
/// `PAETH_PRED` takes the nearest neighbour for every variant: see `predict_intra`.
#[tactic(auto, using(av1_frame::proofs::Regions::region_lending))]
pub fn dispatch_predict_intra<T: Pixel>(
    mode: PredictionMode,
    variant: PredictionVariant,
    dst: &mut PlaneRegionMut<'_, T>,
    tx_size: TxSize,
    bit_depth: usize,
    ac: &[i16],
    angle: isize,
    ief_params: Option<IntraEdgeFilterParameters>,
    edge_buf: &IntraEdge<T>,
)
    requires intra { IsTrue (is_intra mode) }
    requires block { HoldsBlock dst.old (tx_width tx_size) (tx_height tx_size) }
    requires angle { IsTrue (is_angle_of mode angle) }
    requires above_long { places_above mode variant (unsigned_abs angle) (tx_width tx_size) (tx_height tx_size) ≤ length edge_buf.now.above.now }
    requires left_long { places_left mode variant (unsigned_abs angle) (tx_width tx_size) (tx_height tx_size) ≤ length edge_buf.now.left.now }
    requires corner { 0 < length edge_buf.now.top_left.now }
    requires ac_long { IsTrue (is_cfl mode) → tx_width tx_size * tx_height tx_size ≤ length ac.now }
    requires low { 8 ≤ bit_depth }
    requires high { bit_depth ≤ T.BITS }
    ensures painted { let w = tx_width tx_size in let h = tx_height tx_size in dst.new ≡ painted dst.old w h
        (λ r c _.
        T.pixel (predicted (block_at dst.old (unsigned_abs angle) w h bit_depth ief_params) variant mode angle (ac_at w ac.now)
        (edge_of T.num edge_buf.now) r c)) }
    ensures fits { InStorage dst.new }
{
    let (left, top_left, above) = edge_buf.as_slices();
    let block = transform_in(dst, tx_size, angle, bit_depth, ief_params);
    let alpha = weight_of(mode, angle);
    let stride = dst.plane_cfg.stride;
    let area = dst.corner(block.width, block.height);
    dispatch_predict_intra_to(
        mode,
        variant,
        dst.rows_mut(),
        stride,
        area,
        block,
        left,
        top_left[0],
        above,
        ac,
        alpha,
    );
}

/// The column and the row of the tile at which a region begins.
fn place_in_tile<T: Pixel>(region: &PlaneRegionMut<'_, T>, tile_rect: TileRect) -> (usize, usize)
    requires fits { InStorage region.now }
    requires left { region.now.plane_cfg.xorigin + tile_rect.x ≤ region.now.area.x }
    requires top { region.now.plane_cfg.yorigin + tile_rect.y ≤ region.now.area.y }
    ensures column { result.0 ≡ column_in region.now tile_rect }
    ensures row { result.1 ≡ row_in region.now tile_rect }
{
    let rect = *region.rect();
    (rect.x as usize - tile_rect.x, rect.y as usize - tile_rect.y)
}

/// Predicts the samples of a transform of `tx_size`, in the first rows and columns of `dst`, by an intra mode and the
/// edge round it, which `get_intra_edges` prepares for this mode and position. All other samples are unchanged.
///
/// `intra_param` gives the angle delta of a directional mode in steps, or the weight of luma in `UV_CFL_PRED`, whose
/// `ac` holds the differences of luma, row by row. A parameter of another kind has no effect. `tile_rect` is the tile
/// in which `dst` begins: at its left and upper end, modes that take a mean, and Paeth prediction, leave out the sides
/// outside. With `ief_params` the edge filter is on.
pub fn predict_intra<T: Pixel>(
    mode: PredictionMode,
    tile_rect: TileRect,
    dst: &mut PlaneRegionMut<'_, T>,
    tx_size: TxSize,
    bit_depth: usize,
    ac: &[i16],
    intra_param: IntraParam,
    ief_params: Option<IntraEdgeFilterParameters>,
    edge_buf: &IntraEdge<T>,
)
    requires intra { IsTrue (is_intra mode) }
    requires fits { InStorage dst.old }
    requires columns { tx_width tx_size ≤ dst.old.area.width }
    requires rows { tx_height tx_size ≤ dst.old.area.height }
    requires left { dst.old.plane_cfg.xorigin + tile_rect.x ≤ dst.old.area.x }
    requires top { dst.old.plane_cfg.yorigin + tile_rect.y ≤ dst.old.area.y }
    requires step { unsigned_abs (step_of intra_param) ≤ 3 }
    requires alpha { unsigned_abs (alpha_of intra_param) ≤ 16 }
    requires above_long { let m = mode_of_block dst.old tile_rect mode in
        places_above m (variant_of_block dst.old tile_rect) (unsigned_abs (angle_or_alpha m intra_param)) (tx_width tx_size)
        (tx_height tx_size) ≤ length edge_buf.now.above.now }
    requires left_long { let m = mode_of_block dst.old tile_rect mode in
        places_left m (variant_of_block dst.old tile_rect) (unsigned_abs (angle_or_alpha m intra_param)) (tx_width tx_size)
        (tx_height tx_size) ≤ length edge_buf.now.left.now }
    requires corner { 0 < length edge_buf.now.top_left.now }
    requires ac_long { IsTrue (is_cfl mode) → tx_width tx_size * tx_height tx_size ≤ length ac.now }
    requires low { 8 ≤ bit_depth }
    requires high { bit_depth ≤ T.BITS }
    ensures painted { let w = tx_width tx_size in let h = tx_height tx_size in let m = mode_of_block dst.old tile_rect mode
        in let p = angle_or_alpha m intra_param in dst.new ≡ painted dst.old w h
        (λ r c _.
        T.pixel (predicted (block_at dst.old (unsigned_abs p) w h bit_depth ief_params) (variant_of_block dst.old tile_rect) m p (ac_at w ac.now)
        (edge_of T.num edge_buf.now) r c)) }
    ensures fits { InStorage dst.new }
{
    let (x, y) = place_in_tile(dst, tile_rect);
    let mode = effective(mode, x, y);
    dispatch_predict_intra(
        mode,
        PredictionVariant::new(x, y),
        dst,
        tx_size,
        bit_depth,
        ac,
        angle_or_alpha(mode, intra_param),
        ief_params,
        edge_buf,
    );
}
