//! Predicts an intra transform block from its neighbours, and adds a residual. Writes the plane and the buffers.

ghost use Rattle.std.specs.Prelude.{◌≡◌, ◌-◌, ◌^◌, ◌<◌, ◌≤◌, length, All, IsTrue, pos, map, reverse, [], ◌∷◌, option_map, unsigned_abs};
ghost use Rattle.av1_blocks.specs.Depths.{IsDepth};
ghost use Rattle.av1_blocks.specs.Transforms.{tx_width, tx_height, valid_av1_transform};
ghost use Rattle.av1_blocks.specs.declared.transform.TxSize.TheVariants.{TX_4X4};
ghost use Rattle.av1_blocks.specs.declared.transform.TxType.TheVariants.{WHT_WHT};
ghost use Rattle.av1_lists.specs.Counts.{counted};
ghost use Rattle.av1_frame.specs.Areas.{stored_area};
ghost use Rattle.av1_frame.specs.Planes.{InPlane, painted_plane};
ghost use Rattle.av1_frame.specs.Regions.{InStorage, painted};
ghost use Rattle.av1_intra.specs.Neighbours.{uses_smooth_filter};
ghost use Rattle.av1_intra.specs.Predicted.{angle_or_alpha};
ghost use Rattle.av1_plan.specs.Geometry.{follows_av1, plane_width, plane_height};
ghost use Rattle.av1_tile.specs.Reference.{added, block_residue};
ghost use Rattle.av1_tile.specs.Walk.{area_at, edge_for, predicted_at, EdgePredictionFits, IsPlaceIn, Stores, TripleFits};

use crate::buffers::ResidueRoom;
use crate::coefficients::{coefficients_up_to, load_coefficients};
use crate::plane_block::PlaneBlock;
use av1_blocks::{IntraParam, PredictionMode};
use av1_edges::{IntraEdge, IntraEdgeBuffer, effective, get_intra_edges};
use av1_frame::{
    BlockOffset, Pixel, Plane, PlaneOffset, PlaneRegionMut, TileBlockOffset, visible_area,
};
use av1_intra::{
    DirectionalBlock, IntraEdgeFilterParameters, PredictionVariant, alpha_of, angle_or_alpha,
    dispatch_predict_intra_to, smooth_filter_of,
};
use av1_itx::{TxScratch, inverse_transform_add_with};
use av1_plan::{Header, Triple};

/// The position of a transform block in its leaf's block and in the plane.
#[derive(Clone, Copy)]
pub struct BlockPlace {
    /// The number of the transform block, in raster order over the leaf's block.
    pub number: usize,
    /// The column in the leaf's block, counted in transform blocks.
    pub column: usize,
    /// The row in the leaf's block, counted in transform blocks.
    pub row: usize,
    /// The column of the first sample in the plane.
    pub x: usize,
    /// The row of the first sample in the plane.
    pub y: usize,
}

/// How an intra mode predicts a transform block.
#[derive(Clone, Copy)]
pub struct EdgePrediction {
    /// The intra mode.
    pub mode: PredictionMode,
    /// The angle delta of the mode, in steps of 3 degrees, or the weight of luma.
    pub param: IntraParam,
    /// The neighbours' parameters for the edge filter, if the filter is on.
    pub filter: Option<IntraEdgeFilterParameters>,
}

/// The offset of column `x` and row `y` in a plane.
fn offset_at(x: usize, y: usize) -> PlaneOffset
    requires x { x < 2 ^ 63 }
    requires y { y < 2 ^ 63 }
    ensures { result ≡ record { x = pos x; y = pos y } }
{
    PlaneOffset {
        x: x as isize,
        y: y as isize,
    }
}

/// The rectangle of a transform block, as a mode with this parameter predicts it.
#[inline(always)]
fn rectangle_of(
    header: &Header,
    block: &PlaneBlock,
    at: BlockPlace,
    how: EdgePrediction,
    mode: PredictionMode,
) -> DirectionalBlock
    ensures { result ≡ record {
      p_angle = unsigned_abs (angle_or_alpha mode how.param);
      width = tx_width block.now.area.tx_size;
      height = tx_height block.now.area.tx_size;
      bit_depth = header.now.depth;
      smooth_filter = option_map uses_smooth_filter how.filter;
      visible_columns = plane_width header.now block.now.plane - at.x;
      visible_rows = plane_height header.now block.now.plane - at.y;
    } }
{
    let tx_size = block.area.tx_size;
    DirectionalBlock {
        p_angle: angle_or_alpha(mode, how.param).unsigned_abs(),
        width: tx_size.width(),
        height: tx_size.height(),
        bit_depth: usize::from(header.depth),
        smooth_filter: smooth_filter_of(how.filter),
        visible_columns: header.plane_width(block.plane).saturating_sub(at.x),
        visible_rows: header.plane_height(block.plane).saturating_sub(at.y),
    }
}

/// Predicts a transform block by an intra mode, from its edge, in the region that is its rectangle. `luma` holds how
/// far luma is from its mean, row by row, if the mode reads it.
#[tactic(auto, using(av1_frame::proofs::Regions::region_lending))]
fn predict_region<T: Pixel>(
    region: &mut PlaneRegionMut<'_, T>,
    edge: &IntraEdge<'_, T>,
    luma: &[i16],
    header: &Header,
    block: &PlaneBlock,
    at: BlockPlace,
    how: EdgePrediction,
)
    requires fits { InStorage region.old }
    requires area { region.old.area ≡ stored_area region.old.plane_cfg (area_at block.now at) }
    requires low { 8 ≤ header.now.depth }
    requires depth { header.now.depth ≤ T.BITS }
    requires how { EdgePredictionFits block.now luma.now how }
    requires left { map T.num edge.now.left.now ≡ reverse (edge_for header.now block.now at how.mode how.param T.num region.old.plane.now).left }
    requires corner { map T.num edge.now.top_left.now ≡ (edge_for header.now block.now at how.mode how.param T.num region.old.plane.now).corner ∷ [] }
    requires above { map T.num edge.now.above.now ≡ (edge_for header.now block.now at how.mode how.param T.num region.old.plane.now).above }
    ensures painted { region.new ≡ painted region.old (tx_width block.now.area.tx_size) (tx_height block.now.area.tx_size)
        (λ r c _. T.pixel (predicted_at header.now block.now at how luma.now T.num region.old.plane.now r c)) }
    ensures fits { InStorage region.new }
{
    let mode = effective(how.mode, at.x, at.y);
    let rectangle = rectangle_of(header, block, at, how, mode);
    let (left, top_left, above) = edge.as_slices();
    let alpha = alpha_of(how.param);
    let stride = region.plane_cfg.stride;
    let area = region.corner(rectangle.width, rectangle.height);
    dispatch_predict_intra_to(
        mode,
        PredictionVariant::new(at.x, at.y),
        region.rows_mut(),
        stride,
        area,
        rectangle,
        left,
        top_left[0],
        above,
        luma,
        alpha,
    );
}

/// Predicts a transform block by an intra mode, from its neighbouring samples in the plane.
pub fn predict_from_edge<T: Pixel>(
    plane: &mut Plane<T>,
    edges: &mut IntraEdgeBuffer<T>,
    luma: &[i16],
    header: &Header,
    block: &PlaneBlock,
    at: BlockPlace,
    how: EdgePrediction,
)
    requires stores { Stores T.num header.now block.now.plane plane.old }
    requires low { 8 ≤ header.now.depth }
    requires depth { header.now.depth ≤ T.BITS }
    requires place { IsPlaceIn header.now block.now at }
    requires fits { InPlane (area_at block.now at) plane.old }
    requires how { EdgePredictionFits block.now luma.now how }
    ensures painted { plane.new ≡ painted_plane plane.old (area_at block.now at)
        (λ r c _. T.pixel (predicted_at header.now block.now at how luma.now T.num plane.old r c)) }
    ensures counted { edges.new.prepared ≡ counted edges.old.prepared }
{
    let tx_size = block.area.tx_size;
    let (x, y) = (block.leaf.x / 4, block.leaf.y / 4);
    let cell = TileBlockOffset(BlockOffset { x, y });
    let edge = get_intra_edges(
        edges,
        &plane.as_region(),
        cell,
        at.column,
        at.row,
        block.leaf.size,
        offset_at(at.x, at.y),
        tx_size,
        usize::from(header.depth),
        Some(how.mode),
        header.edge_filter,
        how.param,
    );
    let area = visible_area(at.x, at.y, tx_size.width(), tx_size.height());
    let mut region = plane.region_mut(area);
    predict_region(&mut region, &edge, luma, header, block, at, how);
}

/// Adds the residual of a transform block to the first rows and columns of the region. `coefficients` is a buffer for
/// the coefficients of the block.
fn add_residue<T: Pixel>(
    output: &mut PlaneRegionMut<'_, T>,
    coefficients: &mut [T::Coeff],
    scratch: &mut TxScratch,
    bit_depth: usize,
    block: &PlaneBlock,
    number: usize,
    triples: &[Triple],
)
    requires fits { InStorage output.old }
    requires columns { tx_width block.now.area.tx_size ≤ output.old.area.width }
    requires rows { tx_height block.now.area.tx_size ≤ output.old.area.height }
    requires depth { bit_depth ≤ T.BITS }
    requires depths { IsDepth bit_depth }
    requires room { length coefficients.old ≡ 1024 }
    requires valid { IsTrue (valid_av1_transform block.now.area.tx_size block.now.tx_type) }
    requires lossless { block.now.tx_type ≡ WHT_WHT → block.now.area.tx_size ≡ TX_4X4 }
    requires triples { All (TripleFits bit_depth block.now) triples.now }
    ensures painted { output.new ≡ painted output.old (tx_width block.now.area.tx_size) (tx_height block.now.area.tx_size)
        (λ r c v. T.pixel (added bit_depth (T.num v) (block_residue scratch.old.by_av1 bit_depth block.now triples.now number r c))) }
    ensures fits { InStorage output.new }
{
    let count = coefficients_up_to(triples);
    load_coefficients(&mut coefficients[..count], number, triples);
    inverse_transform_add_with(
        scratch,
        &coefficients[..count],
        output,
        block.area.tx_size,
        block.tx_type,
        bit_depth,
    );
}

/// Adds the residual of a transform block to its samples. If the block has no triples, the samples don't change.
pub fn add_block<T: Pixel>(
    plane: &mut Plane<T>,
    room: &mut ResidueRoom<T>,
    header: &Header,
    block: &PlaneBlock,
    at: BlockPlace,
    triples: &[Triple],
)
    requires stores { Stores T.num header.now block.now.plane plane.old }
    requires depth { header.now.depth ≤ T.BITS }
    requires depths { IsDepth header.now.depth }
    requires place { IsPlaceIn header.now block.now at }
    requires fits { InPlane (area_at block.now at) plane.old }
    requires valid { IsTrue (valid_av1_transform block.now.area.tx_size block.now.tx_type) }
    requires lossless { block.now.tx_type ≡ WHT_WHT → block.now.area.tx_size ≡ TX_4X4 }
    requires triples { All (TripleFits header.now.depth block.now) triples.now }
    ensures painted { let depth = header.now.depth
        in plane.new ≡ painted_plane plane.old (area_at block.now at)
        (λ r c v. T.pixel (added depth (T.num v) (block_residue (follows_av1 header.now) depth block.now triples.now at.number r c))) }
    ensures fits { InPlane (area_at block.now at) plane.new }
{
    if triples.is_empty() {
        return;
    }
    let tx_size = block.area.tx_size;
    let area = visible_area(at.x, at.y, tx_size.width(), tx_size.height());
    let mut region = plane.region_mut(area);
    let bit_depth = usize::from(header.depth);
    room.scratch.by_av1 = header.follows_av1();
    add_residue(
        &mut region,
        room.coefficients.as_mut_slice(),
        &mut room.scratch,
        bit_depth,
        block,
        at.number,
        triples,
    );
}
