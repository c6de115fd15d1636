//! Reconstructs a leaf's block in one plane. Writes that plane, the buffers and the kept predictions.

ghost use Rattle.std.specs.Prelude.{◌≡◌, ◌≢◌, ℕ, ◌+◌, ◌*◌, ◌^◌, ◌<◌, ◌≤◌, ◌||◌, length, slice_index_or, [], IfSome, IfNone, Some, None, true, false};
ghost use Rattle.std.specs.List.{fold};
ghost use Rattle.av1_blocks.specs.Chroma.{is_low, is_narrow};
ghost use Rattle.av1_blocks.specs.Transforms.{tx_width};
ghost use Rattle.av1_frame.specs.Planes.{InPlane};
ghost use Rattle.av1_intra.specs.ChromaFromLuma.{ac_at};
ghost use Rattle.av1_order.specs.Plans.{is_inter};
ghost use Rattle.av1_tile.specs.Motion.{leaf_area};
ghost use Rattle.av1_plan.specs.Geometry.{blocks_across, block_count, transform_block, xdec, ydec};
ghost use Rattle.av1_plan.specs.ReadPlans.{IsReadFrame};
ghost use Rattle.av1_plan.specs.declared.leaf.Triple.{Triple};
ghost use Rattle.av1_tile.specs.PlaneBlocks.{component, is_whole};
ghost use Rattle.av1_tile.specs.Predicted.{WalksKeeping, gathered, keeping_in, kept_in, stored_in};
ghost use Rattle.av1_tile.specs.Reference.{Scene, no_luma};
ghost use Rattle.av1_tile.specs.Steps.{own_prediction, whole_steps, plane_steps, steps_at, joined};
ghost use Rattle.av1_tile.specs.Walk.{area_at, Begins, edges_in, fast_in, leaf_with, BlockFits, HasCells, IsPlaceIn};
ghost use Rattle.av1_tile.specs.Walk.{block_in, IsWalkedPlane, IsWalked, KeepsPlane, PredictionFits, ServesScene, Stores, Walks, with_header};

use crate::block::{BlockPlace, EdgePrediction, add_block, predict_from_edge};
use crate::buffers::WalkBuffers;
use crate::frame::WalkedFrame;
use crate::motion::predict_motion;
use crate::plane_block::{Nearby, PlaneBlock, Prediction};
use crate::predicted::PredictedPlanes;
use crate::references::TileReferences;
use crate::shared_chroma::{is_shared, parts_in, predict_parts};
use av1_blocks::{IntraParam, PredictionMode};
use av1_frame::{Pixel, Plane, StoredArea};
use av1_inter::InterCompoundBuffers;
use av1_plan::{Header, Leaf, LeafKind, PlaneArea, Triple};

/// The position at which block `index` begins, in a run of blocks with sides of `side` samples from `start` on.
fn block_start(start: u16, index: usize, side: usize) -> usize
    requires near { index * side ≤ 128 }
    ensures { result ≡ start + index * side }
{
    usize::from(start) + index * side
}

/// The position of transform block `number`, in column `column` of row `row` of a leaf's block. None if it begins
/// outside the coded plane.
#[inline(always)]
fn place_in(
    header: &Header,
    block: &PlaneBlock,
    number: usize,
    row: usize,
    column: usize,
) -> Option<BlockPlace>
    requires frame { IsReadFrame header.now }
    requires number { number ≡ row * blocks_across block.now.area + column }
    requires column { column < blocks_across block.now.area }
    requires few { number < block_count block.now.area }
    ensures some { IfSome result (λ at. (IsPlaceIn header.now block.now at) × (at.number ≡ number)
        × (transform_block header.now block.now.plane block.now.area at.number ≡ Some (record { x = at.x; y = at.y }))) }
    ensures none { IfNone result (transform_block header.now block.now.plane block.now.area number ≡ None) }
{
    let tx_size = block.area.tx_size;
    let x = block_start(block.area.x, column, tx_size.width());
    let y = block_start(block.area.y, row, tx_size.height());
    if x < header.plane_width(block.plane) && y < header.plane_height(block.plane) {
        Some(BlockPlace {
            number,
            column,
            row,
            x,
            y,
        })
    } else {
        None
    }
}

/// Predicts a transform block of an intra leaf from its neighbouring samples. A block of an inter leaf is unchanged.
fn predict_block<T: Pixel>(
    plane: &mut Plane<T>,
    buffers: &mut WalkBuffers<T>,
    header: &Header,
    block: &PlaneBlock,
    at: BlockPlace,
)
    requires held { IsWalkedPlane T.num T.BITS header.now block.now.plane plane.old }
    requires place { IsPlaceIn header.now block.now at }
    requires fits { InPlane (area_at block.now at) plane.old }
    requires prediction { PredictionFits header.now block.now.plane block.now.area block.now.prediction }
    ensures walked { Walks T.num T.pixel header.now block.now buffers.old.luma.items (own_prediction block.now at.number (area_at block.now at)) plane.old
        plane.new }
    ensures fits { InPlane (area_at block.now at) plane.new }
    ensures counted { buffers.new.edges.prepared ≡ fold edges_in buffers.old.edges.prepared (own_prediction block.now at.number (area_at block.now at)) }
    ensures luma { buffers.new.luma.items ≡ buffers.old.luma.items }
    ensures predictions { buffers.new.kept ≡ buffers.old.kept }
{
    match block.prediction {
        Prediction::Intra { mode, step, filter } => {
            let edges = &mut buffers.edges;
            let how = EdgePrediction {
                mode,
                param: IntraParam::AngleDelta(step),
                filter,
            };
            predict_from_edge(plane, edges, &[], header, block, at, how);
        }
        Prediction::FromLuma { alpha } => {
            let edges = &mut buffers.edges;
            let luma = buffers.luma.as_slice();
            let how = EdgePrediction {
                mode: PredictionMode::UV_CFL_PRED,
                param: IntraParam::Alpha(i16::from(alpha)),
                filter: None,
            };
            predict_from_edge(plane, edges, luma, header, block, at, how);
        }
        Prediction::Inter(_) | Prediction::Parts(_) => {}
    }
}

/// Whether a leaf's block is predicted as a whole. Blocks of inter leaves are.
fn is_whole(prediction: Prediction) -> bool
    ensures { result ≡ is_whole prediction }
{
    match prediction {
        Prediction::Inter(_) | Prediction::Parts(_) => true,
        Prediction::Intra { .. } | Prediction::FromLuma { .. } => false,
    }
}

/// Keeps the prediction of a transform block of an intra leaf. `keep_whole` keeps the prediction of an inter leaf.
fn keep_block<T: Pixel>(
    kept: &mut PredictedPlanes<T>,
    plane: &Plane<T>,
    block: &PlaneBlock,
    at: BlockPlace,
)
    requires fits { InPlane (area_at block.now at) plane.now }
    ensures { kept.new ≡
        fold (kept_in T.num T.pixel block.now.plane plane.now) kept.old (own_prediction block.now at.number (area_at block.now at)) }
{
    if is_whole(block.prediction) {
        return;
    }
    let tx_size = block.area.tx_size;
    let area = StoredArea {
        x: at.x,
        y: at.y,
        width: tx_size.width(),
        height: tx_size.height(),
    };
    kept.keep(block.plane, plane, area);
}

/// The rectangle of a leaf's whole area in a plane.
fn whole_area(area: PlaneArea) -> StoredArea
    ensures value { result ≡ stored_in (leaf_area area) }
    ensures columns { result.x + result.width < 2 ^ 17 }
    ensures rows { result.y + result.height < 2 ^ 17 }
{
    StoredArea {
        x: usize::from(area.x),
        y: usize::from(area.y),
        width: area.size.width(),
        height: area.size.height(),
    }
}

/// Keeps the prediction of an inter leaf's whole area in a plane.
#[inline(always)]
fn keep_whole<T: Pixel>(kept: &mut PredictedPlanes<T>, plane: &Plane<T>, block: &PlaneBlock)
    requires fits { InPlane (leaf_area block.now.area) plane.now }
    ensures { kept.new ≡ fold (kept_in T.num T.pixel block.now.plane plane.now) kept.old (whole_steps block.now) }
{
    if !is_whole(block.prediction) {
        return;
    }
    kept.keep(block.plane, plane, whole_area(block.area));
}

/// Reconstructs a transform block that begins in the frame: predicts it if its leaf is intra, and adds its residual.
fn reconstruct_block<T: Pixel>(
    plane: &mut Plane<T>,
    buffers: &mut WalkBuffers<T>,
    header: &Header,
    block: &PlaneBlock,
    at: BlockPlace,
    triples: &[Triple],
)
    requires held { IsWalkedPlane T.num T.BITS header.now block.now.plane plane.old }
    requires place { IsPlaceIn header.now block.now at }
    requires fits { BlockFits plane.old.plane_cfg header.now block.now triples.now }
    requires found { transform_block header.now block.now.plane block.now.area at.number ≡ Some (record { x = at.x; y = at.y }) }
    ensures walked { WalksKeeping T.num T.pixel header.now block.now buffers.old.luma.items (steps_at header.now block.now triples.now at.number)
        (plane.old, gathered buffers.old.kept buffers.old.edges.prepared) (plane.new, gathered buffers.new.kept buffers.new.edges.prepared) }
    ensures luma { buffers.new.luma.items ≡ buffers.old.luma.items }
    ensures kept { KeepsPlane T.num header.now block.now.plane plane.old plane.new }
{
    predict_block(plane, buffers, header, block, at);
    keep_block(&mut buffers.kept, plane, block, at);
    add_block(plane, &mut buffers.residue, header, block, at, triples);
}

/// The number of triples at the front that belong to transform block `number`.
fn leading_count(triples: &[Triple], number: usize) -> usize
    ensures within { result ≤ length triples.now }
    ensures own { (k : ℕ) (d : Triple) → k < result → (slice_index_or triples.now k d).block ≡ number }
    ensures end { (d : Triple) → result < length triples.now → (slice_index_or triples.now result d).block ≢ number }
{
    for count in 0..triples.len() {
        if usize::from(triples[count].block) != number {
            return count;
        }
    }
    triples.len()
}

/// The column and the row of the transform block after the one at column `column` of row `row`, in raster order.
fn next_place(column: usize, row: usize, across: usize) -> (usize, usize)
    requires column { column < across }
    requires few { row * across + column < 1024 }
    ensures column { result.0 < across }
    ensures number { result.1 * across + result.0 ≡ row * across + column + 1 }
{
    if column + 1 == across {
        (0, row + 1)
    } else {
        (column + 1, row)
    }
}

/// Reconstructs the transform blocks of a leaf's block, in raster order. Triples are sorted by their blocks, so that
/// the triples of a block are next to each other.
#[inline(never)]
fn reconstruct_blocks<T: Pixel>(
    plane: &mut Plane<T>,
    buffers: &mut WalkBuffers<T>,
    header: &Header,
    block: &PlaneBlock,
    triples: &[Triple],
)
    requires held { IsWalkedPlane T.num T.BITS header.now block.now.plane plane.old }
    requires fits { BlockFits plane.old.plane_cfg header.now block.now triples.now }
    ensures walked { WalksKeeping T.num T.pixel header.now block.now buffers.old.luma.items
        (joined (block_count block.now.area) (steps_at header.now block.now triples.now)) (plane.old, gathered buffers.old.kept buffers.old.edges.prepared)
        (plane.new, gathered buffers.new.kept buffers.new.edges.prepared) }
    ensures luma { buffers.new.luma.items ≡ buffers.old.luma.items }
    ensures kept { KeepsPlane T.num header.now block.now.plane plane.old plane.new }
{
    let across = block.area.blocks_across();
    let mut place = (0, 0);
    let mut at = 0;
    for n in 0..block.area.block_count() {
        let (column, row) = place;
        let end = at + leading_count(&triples[at..], n);
        if let Some(place) = place_in(header, block, n, row, column) {
            let own = &triples[at..end];
            reconstruct_block(plane, buffers, header, block, place, own);
        }
        at = end;
        place = next_place(column, row, across);
    }
}

/// Whether a block consists only of its prediction: blocks of inter leaves without triples do.
fn is_only_predicted(prediction: Prediction, triples: &[Triple]) -> bool
    ensures whole { result ≡ true → is_whole prediction ≡ true }
    ensures none { result ≡ true → length triples.now ≡ 0 }
{
    is_whole(prediction) && triples.is_empty()
}

/// Predicts an inter leaf's whole area in a plane. A block of an intra leaf is unchanged.
#[inline(always)]
fn predict_whole<T: Pixel>(
    plane: &mut Plane<T>,
    compound: &mut InterCompoundBuffers,
    from: &TileReferences<'_, T>,
    block: &PlaneBlock,
)
    requires plane { block.now.plane < 3 }
    requires depth { from.now.fi.now.bit_depth ≤ T.BITS }
    requires fits { InPlane (leaf_area block.now.area) plane.old }
    requires references { (value : Scene) ×
        (ServesScene T.num value from.now × PredictionFits value.header block.now.plane block.now.area block.now.prediction) }
    ensures { (value : Scene) → ServesScene T.num value from.now → PredictionFits value.header block.now.plane block.now.area block.now.prediction
        → plane.new ≡ fold (fast_in T.num T.pixel value block.now.plane (λ _. no_luma)) plane.old (whole_steps block.now) }
{
    let p = block.plane;
    let area = whole_area(block.area);
    match block.prediction {
        Prediction::Inter(motion) => predict_motion(plane, compound, from, p, motion, area),
        Prediction::Parts(parts) => predict_parts(plane, compound, from, p, parts, area),
        Prediction::Intra { .. } | Prediction::FromLuma { .. } => {}
    }
}

/// Reconstructs a leaf's block in a plane: predicts the whole area if the leaf is inter, then reconstructs each
/// transform block.
#[inline(always)]
fn reconstruct_plane_block<T: Pixel>(
    plane: &mut Plane<T>,
    buffers: &mut WalkBuffers<T>,
    frame: &WalkedFrame<'_, '_, T>,
    block: &PlaneBlock,
    triples: &[Triple],
)
    requires frame { IsWalked T.num T.BITS frame.now }
    requires plane { block.now.plane < 3 }
    requires stores { Stores T.num frame.now.header.now block.now.plane plane.old }
    requires fits { BlockFits plane.old.plane_cfg frame.now.header.now block.now triples.now }
    ensures walked { let h = frame.now.header.now in
        (value : Scene) → ServesScene T.num (with_header h value) frame.now.from.now → (plane.new, gathered buffers.new.kept buffers.new.edges.prepared) ≡
        fold (keeping_in T.num T.pixel (with_header h value) block.now.plane (λ _. ac_at (tx_width block.now.area.tx_size) buffers.old.luma.items))
        (plane.old, gathered buffers.old.kept buffers.old.edges.prepared) (plane_steps h block.now triples.now) }
    ensures luma { buffers.new.luma.items ≡ buffers.old.luma.items }
    ensures kept { KeepsPlane T.num frame.now.header.now block.now.plane plane.old plane.new }
{
    predict_whole(plane, &mut buffers.compound, frame.from, block);
    keep_whole(&mut buffers.kept, plane, block);
    if is_only_predicted(block.prediction, triples) {
        return;
    }
    reconstruct_blocks(plane, buffers, frame.header, block, triples);
}

/// Whether a leaf is an inter leaf: predicted from references.
fn is_inter(kind: LeafKind) -> bool
    ensures { result ≡ is_inter kind }
{
    match kind {
        LeafKind::Single { .. } | LeafKind::Compound { .. } => true,
        LeafKind::Intra { .. } => false,
    }
}

/// Describes an inter leaf's block in plane `p` that earlier leaves may share.
#[inline(never)]
fn shared_block<T>(frame: &WalkedFrame<'_, '_, T>, leaf: &Leaf, p: usize) -> PlaneBlock
    requires plane { p < 3 }
    requires kind { is_inter leaf.now.kind ≡ true }
    ensures { result ≡ block_in frame.now p leaf.now }
{
    let near = Nearby {
        filter: None,
        parts: parts_in(frame.header, frame.earlier, leaf, p),
    };
    PlaneBlock::of_leaf(leaf, p, leaf.plane_area(frame.header, p), near)
}

/// Describes an inter leaf's block in plane `p` that no other leaf shares.
#[inline(always)]
fn inter_block<T>(frame: &WalkedFrame<'_, '_, T>, leaf: &Leaf, p: usize) -> PlaneBlock
    requires plane { p < 3 }
    requires kind { is_inter leaf.now.kind ≡ true }
    requires alone { (is_narrow leaf.now.size (xdec frame.now.header.now p) || is_low leaf.now.size (ydec frame.now.header.now p)) ≡ false }
    ensures { result ≡ block_in frame.now p leaf.now }
{
    let near = Nearby {
        filter: None,
        parts: None,
    };
    PlaneBlock::of_leaf(leaf, p, leaf.plane_area(frame.header, p), near)
}

/// Describes an intra leaf's block in plane `p`.
#[inline(always)]
fn intra_block<T>(frame: &WalkedFrame<'_, '_, T>, leaf: &Leaf, p: usize) -> PlaneBlock
    requires frame { IsReadFrame frame.now.header.now }
    requires plane { p < 3 }
    requires cells { HasCells frame.now.header.now frame.now.cells.now }
    requires begins { Begins frame.now.header.now (component p) (leaf_with leaf.now [] [] []) }
    requires kind { is_inter leaf.now.kind ≡ false }
    ensures { result ≡ block_in frame.now p leaf.now }
{
    let header = frame.header;
    let area = leaf.plane_area(header, p);
    let near = Nearby {
        filter: frame.cells.filter_parameters(header, p, area),
        parts: None,
    };
    PlaneBlock::of_leaf(leaf, p, area, near)
}

/// Reconstructs the block of a leaf in plane `p`.
pub fn reconstruct_leaf_in<T: Pixel>(
    plane: &mut Plane<T>,
    buffers: &mut WalkBuffers<T>,
    frame: &WalkedFrame<'_, '_, T>,
    leaf: &Leaf,
    p: usize,
    triples: &[Triple],
)
    requires frame { IsWalked T.num T.BITS frame.now }
    requires plane { p < 3 }
    requires stores { Stores T.num frame.now.header.now p plane.old }
    requires begins { Begins frame.now.header.now (component p) (leaf_with leaf.now [] [] []) }
    requires fits { BlockFits plane.old.plane_cfg frame.now.header.now (block_in frame.now p leaf.now) triples.now }
    ensures walked { let h = frame.now.header.now in let block = block_in frame.now p leaf.now in
        (value : Scene) → ServesScene T.num (with_header h value) frame.now.from.now → (plane.new, gathered buffers.new.kept buffers.new.edges.prepared) ≡
        fold (keeping_in T.num T.pixel (with_header h value) p (λ _. ac_at (tx_width block.area.tx_size) buffers.old.luma.items))
        (plane.old, gathered buffers.old.kept buffers.old.edges.prepared) (plane_steps h block triples.now) }
    ensures luma { buffers.new.luma.items ≡ buffers.old.luma.items }
    ensures kept { KeepsPlane T.num frame.now.header.now p plane.old plane.new }
{
    if !is_inter(leaf.kind) {
        let block = intra_block(frame, leaf, p);
        reconstruct_plane_block(plane, buffers, frame, &block, triples);
        return;
    }
    if is_shared(frame.header, leaf, p) {
        let block = shared_block(frame, leaf, p);
        reconstruct_plane_block(plane, buffers, frame, &block, triples);
        return;
    }
    let block = inter_block(frame, leaf, p);
    reconstruct_plane_block(plane, buffers, frame, &block, triples);
}
