//! Predicts chroma that small inter leaves share, each part by its leaf's motion. Writes the plane and a buffer.
//!
//! AV1 specification: compute prediction syntax, which predicts such a block by the leaf that covers each part's luma.

ghost use Rattle.std.specs.Prelude.{◌≡◌, ◌/◌, ◌<◌, ◌≤◌, ◌||◌, Some, []};
ghost use Rattle.av1_blocks.specs.Chroma.{is_low, is_narrow};
ghost use Rattle.av1_frame.specs.Planes.{InPlane, painted_plane};
ghost use Rattle.av1_order.specs.Neighbours.{leaf_holds};
ghost use Rattle.av1_plan.specs.Geometry.{xdec, ydec};
ghost use Rattle.av1_tile.specs.Motion.{IsPlaced, rect_of, visible_in};
ghost use Rattle.av1_tile.specs.Reference.{Scene, beside, parts_motion};
ghost use Rattle.av1_tile.specs.SharedChroma.{motion_in, parts_at};
ghost use Rattle.av1_tile.specs.Walk.{MotionFits, PartsFit, ServesScene};
ghost use Rattle.av1_tile.specs.Walk.{leaf_with, motions_of, parts_by, with_motion};

use crate::motion::{Motion, motion_of, predict_motion};
use crate::references::TileReferences;
use av1_frame::{Pixel, Plane, StoredArea};
use av1_inter::InterCompoundBuffers;
use av1_plan::{Header, Leaf};

/// The parts of a chroma block that inter leaves share: its halves or its quarters. Each part is predicted by the
/// motion of its leaf.
#[derive(Clone, Copy)]
pub struct MotionParts {
    /// Whether there are two columns of parts.
    pub narrow: bool,
    /// Whether there are two rows of parts.
    pub low: bool,
    /// The motion of the upper left part. With only one column or one row, two fields name the same part.
    pub corner: Motion,
    /// The motion of the upper right part.
    pub over: Motion,
    /// The motion of the lower left part.
    pub side: Motion,
    /// The motion of the lower right part, whose leaf carries the chroma.
    pub own: Motion,
}

/// The motions of one row of parts: two columns if `narrow`, or else only the right one.
#[derive(Clone, Copy)]
struct PartRow {
    narrow: bool,
    left: Motion,
    right: Motion,
}

/// Whether a leaf covers the luma cell at column `cx` of row `cy`.
#[tactic(auto, unfolding(av1_avail::specs::Order::is_in))]
fn holds(leaf: &Leaf, cx: usize, cy: usize) -> bool
    ensures { result ≡ leaf_holds (leaf_with leaf.now [] [] []) cx cy }
{
    let x = usize::from(leaf.x / 4);
    let y = usize::from(leaf.y / 4);
    let columns = leaf.size.width() / 4;
    let rows = leaf.size.height() / 4;
    x <= cx && cx < x + columns && y <= cy && cy < y + rows
}

/// The motion of the last of these leaves that covers a luma cell; None if that leaf is intra, or if no leaf does.
fn motion_at(leaves: &[Leaf], cx: usize, cy: usize) -> Option<Motion>
    ensures { result ≡ motions_of leaves.now cx cy }
{
    for back in 0..leaves.len() {
        let leaf = &leaves[leaves.len() - 1 - back];
        if holds(leaf, cx, cy) {
            return motion_of(leaf.kind);
        }
    }
    None
}

/// The motion of the last leaf that covers a luma cell, among the earlier leaves followed by `leaf`.
#[inline(never)]
fn motion_near(earlier: &[Leaf], leaf: &Leaf, cx: usize, cy: usize) -> Option<Motion>
    ensures { result ≡ with_motion (motions_of earlier.now) (leaf_with leaf.now [] [] []) cx cy }
{
    if holds(leaf, cx, cy) {
        motion_of(leaf.kind)
    } else {
        motion_at(earlier, cx, cy)
    }
}

/// The parts of a leaf's block, after the earlier leaves: two columns if the block is narrow, two rows if it is low.
/// None if a leaf of a part is intra.
#[inline(always)]
fn parts_at(earlier: &[Leaf], leaf: &Leaf, narrow: bool, low: bool) -> Option<MotionParts>
    ensures { let l = leaf_with leaf.now [] [] [] in
        result ≡ parts_at narrow low (with_motion (motions_of earlier.now) l) (l.x / 4) (l.y / 4) }
{
    if !narrow && !low {
        return None;
    }
    let x = usize::from(leaf.x / 4);
    let y = usize::from(leaf.y / 4);
    let left = if narrow { x.saturating_sub(1) } else { x };
    let top = if low { y.saturating_sub(1) } else { y };
    let corner = motion_near(earlier, leaf, left, top)?;
    let over = motion_near(earlier, leaf, x, top)?;
    let side = motion_near(earlier, leaf, left, y)?;
    let own = motion_near(earlier, leaf, x, y)?;
    Some(MotionParts {
        narrow,
        low,
        corner,
        over,
        side,
        own,
    })
}

/// Whether leaves share a leaf's block in plane `p`: the leaf has a side of 4 that is halved there.
#[inline(always)]
pub fn is_shared(header: &Header, leaf: &Leaf, p: usize) -> bool
    ensures { result ≡ (is_narrow leaf.now.size (xdec header.now p) || is_low leaf.now.size (ydec header.now p)) }
{
    (header.xdec(p) != 0 && leaf.size.width() == 4)
        || (header.ydec(p) != 0 && leaf.size.height() == 4)
}

/// The parts of a leaf's block in plane `p`, after the earlier leaves, if inter leaves share the block.
#[inline(always)]
pub fn parts_in(header: &Header, earlier: &[Leaf], leaf: &Leaf, p: usize) -> Option<MotionParts>
    ensures { result ≡ parts_by header.now (motions_of earlier.now) p (leaf_with leaf.now [] [] []) }
{
    let narrow = header.xdec(p) != 0 && leaf.size.width() == 4;
    let low = header.ydec(p) != 0 && leaf.size.height() == 4;
    parts_at(earlier, leaf, narrow, low)
}

/// Predicts a row of parts.
#[inline(never)]
fn predict_row<T: Pixel>(
    plane: &mut Plane<T>,
    compound: &mut InterCompoundBuffers,
    from: &TileReferences<'_, T>,
    p: usize,
    row: PartRow,
    area: StoredArea,
)
    requires plane { p < 3 }
    requires depth { from.now.fi.now.bit_depth ≤ T.BITS }
    requires fits { InPlane (visible_in area) plane.old }
    requires placed { IsPlaced (rect_of from.now p) (visible_in area) }
    requires references { (value : Scene) × (ServesScene T.num value from.now
        × (MotionFits value.header p (visible_in area) row.left × MotionFits value.header p (visible_in area) row.right)) }
    ensures { (value : Scene) → ServesScene T.num value from.now
        → MotionFits value.header p (visible_in area) row.left → MotionFits value.header p (visible_in area) row.right
        → plane.new ≡ painted_plane plane.old (visible_in area)
        (λ r c _. T.pixel (beside row.narrow (value.motion p row.left) (value.motion p row.right) (visible_in area) r c)) }
{
    if !row.narrow {
        predict_motion(plane, compound, from, p, row.right, area);
        return;
    }
    let width = area.width / 2;
    let left = StoredArea { width, ..area };
    let right = StoredArea {
        x: area.x + width,
        width: area.width - width,
        ..area
    };
    predict_motion(plane, compound, from, p, row.left, left);
    predict_motion(plane, compound, from, p, row.right, right);
}

/// Predicts a rectangle of plane `p` that inter leaves share, part by part.
#[inline(never)]
pub fn predict_parts<T: Pixel>(
    plane: &mut Plane<T>,
    compound: &mut InterCompoundBuffers,
    from: &TileReferences<'_, T>,
    p: usize,
    parts: MotionParts,
    area: StoredArea,
)
    requires plane { p < 3 }
    requires depth { from.now.fi.now.bit_depth ≤ T.BITS }
    requires fits { InPlane (visible_in area) plane.old }
    requires placed { IsPlaced (rect_of from.now p) (visible_in area) }
    requires references { (value : Scene) × (ServesScene T.num value from.now × PartsFit value.header p (visible_in area) parts) }
    ensures { (value : Scene) → ServesScene T.num value from.now → PartsFit value.header p (visible_in area) parts
        → plane.new ≡ painted_plane plane.old (visible_in area) (λ r c _. T.pixel (parts_motion (value.motion p) parts (visible_in area) r c)) }
{
    let narrow = parts.narrow;
    let upper = PartRow {
        narrow,
        left: parts.corner,
        right: parts.over,
    };
    let lower = PartRow {
        narrow,
        left: parts.side,
        right: parts.own,
    };
    if !parts.low {
        predict_row(plane, compound, from, p, lower, area);
        return;
    }
    let height = area.height / 2;
    let first = StoredArea { height, ..area };
    let second = StoredArea {
        y: area.y + height,
        height: area.height - height,
        ..area
    };
    predict_row(plane, compound, from, p, upper, first);
    predict_row(plane, compound, from, p, lower, second);
}
