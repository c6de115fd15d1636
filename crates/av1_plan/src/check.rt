//! Decides whether a plan is valid, and finds its first faulty leaf. Changes nothing and does not allocate.

ghost use Rattle.std.specs.Prelude.{◌≡◌, ◌+◌, ◌^◌, ◌<◌, ◌≤◌, OnOk, IfErr, IfSome, true, Some, None, slice_get, ◌&&◌, not, pos, neg_ℤ, int_lt, nat_lt, ◌≤ℤ◌};
ghost use Rattle.av1_blocks.specs.Transforms.{coded_area};
ghost use Rattle.av1_plan.specs.Values.{leaf_list, leaves_value, plan_value, triple_list};
ghost use Rattle.av1_plan.specs.Geometry.{has_block};
ghost use Rattle.av1_plan.specs.Plan.{leaf_value};
ghost use Rattle.av1_plan.specs.Validity.{
  has_block_size,
  is_transform,
  has_transforms,
  is_step,
  is_chroma_from_luma,
  is_chroma_mode,
  admits_references,
  is_inter_size,
  has_modes,
  has_vectors,
  has_reference,
  has_references,
  is_coefficient,
  is_of_block,
  is_before,
  follows,
  are_coefficients,
  has_plane_coefficients,
  has_coefficients,
  fault_from,
  fault_of,
  first_fault,
};

use crate::error::{Invalid, InvalidKind};
use crate::geometry::{PlaneArea, plane_tx_size};
use crate::header::Header;
use crate::leaf::{ChromaMode, Leaf, LeafKind, Triple};
use crate::leaves::Leaves;
use crate::plan::Plan;
use av1_blocks::transform::valid_av1_transform;
use av1_blocks::{BlockSize, PredictionMode, RefType, TxSize, TxType};

/// Whether the chroma of a leaf of this size has a block size.
#[tactic(auto, unfolding(crate::specs::Validity::has_block_size))]
fn has_block_size(header: &Header, size: BlockSize) -> bool
    ensures { result ≡ has_block_size header.now size }
{
    size.subsampled_size(header.xdec(1), header.ydec(1)).is_ok()
}

/// Whether a transform of this size may be of this type.
#[tactic(auto, unfolding(crate::specs::Validity::is_transform))]
fn is_transform(tx_size: TxSize, tx_type: TxType) -> bool
    ensures { result ≡ is_transform tx_size tx_type }
{
    valid_av1_transform(tx_size, tx_type)
        && (tx_type.number() != TxType::WHT_WHT.number()
            || tx_size.number() == TxSize::TX_4X4.number())
}

/// Whether a leaf's transforms fit it and are of a type that their size has.
#[tactic(auto, unfolding(crate::specs::Validity::has_transforms))]
fn has_transforms(
    header: &Header,
    size: BlockSize,
    tx_size: TxSize,
    tx_type: TxType,
    uv_type: Option<TxType>,
) -> bool
    ensures { result ≡ has_transforms header.now size tx_size tx_type uv_type }
{
    let fits = tx_size.width() <= size.width() && tx_size.height() <= size.height();
    let luma = fits && is_transform(tx_size, tx_type);
    match uv_type {
        Some(uv_type) => luma && is_transform(plane_tx_size(header, size, tx_size, 1), uv_type),
        None => luma,
    }
}

/// Whether a mode may have this angle step.
#[tactic(auto, unfolding(crate::specs::Validity::is_step))]
fn is_step(mode: PredictionMode, step: i8) -> bool
    ensures { result ≡ is_step mode step }
{
    let steps = step.unsigned_abs();
    steps <= 3 && (steps == 0 || mode.is_directional())
}

/// Whether a leaf of this size may be predicted from luma with these weights.
#[tactic(auto, unfolding(crate::specs::Validity::is_chroma_from_luma))]
fn is_chroma_from_luma(size: BlockSize, alpha_u: i8, alpha_v: i8) -> bool
    ensures { result ≡ is_chroma_from_luma size alpha_u alpha_v }
{
    alpha_u.unsigned_abs() <= 16 && alpha_v.unsigned_abs() <= 16 && size.cfl_allowed()
}

/// Whether a leaf of this size may have this chroma mode.
#[tactic(auto, unfolding(crate::specs::Validity::is_chroma_mode))]
fn is_chroma_mode(size: BlockSize, chroma: ChromaMode) -> bool
    ensures { result ≡ is_chroma_mode size chroma }
{
    match chroma {
        ChromaMode::Plain { mode, step } => is_step(mode, step),
        ChromaMode::Cfl { alpha_u, alpha_v } => is_chroma_from_luma(size, alpha_u, alpha_v),
    }
}

/// Whether every version allows references in a leaf of this size: at least 8x8.
#[tactic(auto, unfolding(crate::specs::Validity::is_inter_size))]
pub fn is_inter_size(size: BlockSize) -> bool
    ensures { result ≡ is_inter_size size }
{
    8 <= size.width() && 8 <= size.height()
}

/// Whether the header's version allows references in a leaf of this size. Version 3 allows them in every leaf, versions
/// 1 and 2 only from 8x8 on.
#[tactic(auto, unfolding(crate::specs::Validity::admits_references))]
pub fn admits_references(header: &Header, size: BlockSize) -> bool
    ensures { result ≡ admits_references header.now size }
{
    header.version == 3 || is_inter_size(size)
}

/// Whether a leaf of this size may have these modes.
#[tactic(auto, unfolding(crate::specs::Validity::has_modes))]
fn has_modes(header: &Header, size: BlockSize, kind: LeafKind) -> bool
    ensures { result ≡ has_modes header.now size kind }
{
    match kind {
        LeafKind::Intra {
            mode,
            step,
            chroma: Some(chroma),
        } => !mode.is_cfl() && is_step(mode, step) && is_chroma_mode(size, chroma),
        LeafKind::Intra {
            mode,
            step,
            chroma: None,
        } => !mode.is_cfl() && is_step(mode, step),
        LeafKind::Single { .. } | LeafKind::Compound { .. } => admits_references(header, size),
    }
}

/// Whether a bitstream may hold a leaf's vectors.
#[tactic(auto, unfolding(crate::specs::Validity::has_vectors))]
fn has_vectors(kind: LeafKind) -> bool
    ensures { result ≡ has_vectors kind }
{
    match kind {
        LeafKind::Intra { .. } => true,
        LeafKind::Single { mv, .. } => mv.is_valid(),
        LeafKind::Compound { mvs, .. } => {
            let [first, second] = mvs;
            first.is_valid() && second.is_valid()
        }
    }
}

/// Whether the slot that a reference names carries planes.
#[tactic(auto, unfolding(crate::specs::Validity::has_reference))]
fn has_reference(header: &Header, reference: RefType) -> bool
    ensures { result ≡ has_reference header.now reference }
{
    let place = usize::from(reference.number().saturating_sub(1));
    let slot = match header.slots.get(place) {
        Some(slot) => usize::from(*slot),
        None => 8,
    };
    slot < 8 && header.has_slot(slot)
}

/// Whether the slots that a leaf's references name carry planes.
#[tactic(auto, unfolding(crate::specs::Validity::has_references))]
fn has_references(header: &Header, kind: &LeafKind) -> bool
    ensures { result ≡ has_references header.now kind.now }
{
    match kind {
        LeafKind::Intra { .. } => true,
        LeafKind::Single { reference, .. } => has_reference(header, *reference),
        LeafKind::Compound { references, .. } => {
            references
                .iter()
                .all(|reference| has_reference(header, *reference))
        }
    }
}

/// Whether a number is at least `-limit` and less than `limit`.
fn is_within(value: i32, limit: i32) -> bool
    requires { pos 0 ≤ℤ limit }
    ensures { result ≡ (not (int_lt value (neg_ℤ limit)) && int_lt value limit) }
{
    -limit <= value && value < limit
}

/// The limits of the places and the values of an area's coefficients.
#[derive(Clone, Copy)]
struct Bounds {
    /// The number of coded coefficients of a transform block.
    places: usize,
    /// The limit of the values: they are at least `-limit` and less than `limit`.
    limit: i32,
}

/// The bounds of the coefficients of an area, at this depth.
fn bounds_of(area: &PlaneArea, depth: u8) -> Bounds
    requires { depth ≤ 12 }
    ensures places { result.places ≡ coded_area area.now.tx_size }
    ensures limit { result.limit ≡ pos (2 ^ (depth + 7)) }
{
    Bounds {
        places: area.tx_size.coded_area(),
        limit: 1 << (depth + 7),
    }
}

/// Whether a triple's place and value lie within the bounds.
fn is_bounded(bounds: Bounds, triple: &Triple) -> bool
    requires { pos 0 ≤ℤ bounds.limit }
    ensures { result ≡ (nat_lt triple.now.place bounds.places
        && (not (int_lt triple.now.value (neg_ℤ bounds.limit)) && int_lt triple.now.value bounds.limit)) }
{
    usize::from(triple.place) < bounds.places && is_within(triple.value, bounds.limit)
}

/// Whether a triple belongs to the block of the last one.
#[tactic(auto, unfolding(crate::specs::Validity::is_of_block))]
fn is_of_block(last: Option<Triple>, triple: &Triple) -> bool
    ensures { result ≡ is_of_block last triple.now }
{
    match last {
        Some(last) => last.block == triple.block,
        None => false,
    }
}

/// Whether the area has the block of a triple, and the block begins in the coded plane `p`. The block of the last
/// triple (if there is one) was tested before.
#[tactic(auto, unfolding(crate::specs::Geometry::transform_block))]
fn has_block(
    header: &Header,
    p: usize,
    area: &PlaneArea,
    last: Option<Triple>,
    triple: &Triple,
) -> bool
    requires { IfSome last (λ s. has_block header.now p area.now s.block ≡ true) }
    ensures { result ≡ has_block header.now p area.now triple.now.block }
{
    if is_of_block(last, triple) {
        return true;
    }
    area.transform_block(header, p, usize::from(triple.block))
        .is_some()
}

/// Whether a triple comes before another.
#[tactic(auto, unfolding(crate::specs::Validity::is_before))]
fn is_before(first: &Triple, second: &Triple) -> bool
    ensures { result ≡ is_before first.now second.now }
{
    first.block < second.block || (first.block == second.block && first.place < second.place)
}

/// Whether a triple may follow the last one.
#[tactic(auto, unfolding(crate::specs::Validity::follows))]
fn follows(last: Option<Triple>, triple: &Triple) -> bool
    ensures { result ≡ follows last triple.now }
{
    match last {
        Some(last) => is_before(&last, triple),
        None => true,
    }
}

/// Whether a triple may follow the last one. It has to name a block of the area that begins in the coded plane `p`, a
/// place in the block and a value in range. The block of the last triple (if there is one) was tested before.
fn is_next(
    header: &Header,
    p: usize,
    area: &PlaneArea,
    bounds: Bounds,
    last: Option<Triple>,
    triple: &Triple,
) -> bool
    requires depth { header.now.depth ≤ 12 }
    requires places { bounds.places ≡ coded_area area.now.tx_size }
    requires limit { bounds.limit ≡ pos (2 ^ (header.now.depth + 7)) }
    requires last { IfSome last (λ s. has_block header.now p area.now s.block ≡ true) }
    ensures { result ≡ (is_coefficient header.now p area.now triple.now && follows last triple.now) }
{
    if !follows(last, triple) {
        return false;
    }
    if !is_bounded(bounds, triple) {
        return false;
    }
    has_block(header, p, area, last, triple)
}

/// Whether these triples of plane `p` are coefficients of the area's blocks, strictly sorted by block and place.
#[tactic(auto, using(crate::proofs::Faults::triples_end))]
fn are_coefficients(header: &Header, p: usize, area: &PlaneArea, triples: &[Triple]) -> bool
    requires { header.now.depth ≤ 12 }
    ensures { result ≡ are_coefficients header.now p area.now triples.now }
{
    let bounds = bounds_of(area, header.depth);
    let mut last = None;
    for triple in triples {
        if !is_next(header, p, area, bounds, last, triple) {
            return false;
        }
        last = Some(*triple);
    }
    true
}

/// Whether the triples in plane `p` of leaf number `i` are coefficients.
#[tactic(auto, using(crate::proofs::Spans::triples_of_leaf), unfolding(crate::specs::Validity::has_plane_coefficients))]
fn has_plane_coefficients(header: &Header, leaves: &Leaves, i: usize, leaf: &Leaf, p: usize) -> bool
    requires depth { header.now.depth ≤ 12 }
    requires stored { slice_get (leaf_list leaves.now) i ≡ Some leaf.now }
    requires plane { p < 3 }
    ensures { result ≡ has_plane_coefficients header.now (leaf_value (triple_list leaves.now) leaf.now) p }
{
    let triples = leaves.triples(i, p);
    if triples.is_empty() {
        return true;
    }
    let area = leaf.plane_area(header, p);
    are_coefficients(header, p, &area, triples)
}

/// Whether the triples of leaf number `i` are coefficients in all planes that it covers.
#[tactic(auto, unfolding(crate::specs::Validity::has_coefficients))]
fn has_coefficients(header: &Header, leaves: &Leaves, i: usize, leaf: &Leaf) -> bool
    requires depth { header.now.depth ≤ 12 }
    requires stored { slice_get (leaf_list leaves.now) i ≡ Some leaf.now }
    ensures { result ≡ has_coefficients header.now (leaf_value (triple_list leaves.now) leaf.now) }
{
    let carries_chroma = leaf.carries_chroma(header);
    has_plane_coefficients(header, leaves, i, leaf, 0)
        && (!carries_chroma
            || (has_plane_coefficients(header, leaves, i, leaf, 1)
                && has_plane_coefficients(header, leaves, i, leaf, 2)))
}

/// The first reason for which leaf number `i` is rejected.
#[tactic(auto, unfolding(crate::specs::Validity::fault_of))]
fn fault_of(header: &Header, leaves: &Leaves, i: usize, leaf: &Leaf) -> Option<InvalidKind>
    requires depth { header.now.depth ≤ 12 }
    requires stored { slice_get (leaf_list leaves.now) i ≡ Some leaf.now }
    ensures { result ≡ fault_of header.now (leaf_value (triple_list leaves.now) leaf.now) }
{
    if !has_block_size(header, leaf.size) {
        Some(InvalidKind::InvalidBlockSize)
    } else if !has_transforms(header, leaf.size, leaf.tx_size, leaf.tx_type, leaf.uv_type) {
        Some(InvalidKind::Transform)
    } else if !has_modes(header, leaf.size, leaf.kind) {
        Some(InvalidKind::Mode)
    } else if !has_vectors(leaf.kind) {
        Some(InvalidKind::Vector)
    } else if !has_references(header, &leaf.kind) {
        Some(InvalidKind::MissingReference)
    } else if !has_coefficients(header, leaves, i, leaf) {
        Some(InvalidKind::Coefficient)
    } else {
        None
    }
}

/// Checks that all of these leaves are valid in a frame with this header. It is for callers that keep the leaves of a
/// plan apart from its header and its references.
///
/// # Errors
///
/// The first faulty leaf in coding order, and the first reason for which it is rejected.
#[tactic(auto, using(crate::proofs::Faults::leaves_end))]
pub fn check_leaves(header: &Header, leaves: &Leaves) -> Result<(), Invalid>
    requires { header.now.depth ≤ 12 }
    ensures ok { OnOk result (fault_from header.now 0 (leaves_value leaves.now) ≡ None) }
    ensures err { IfErr result (λ fault. fault_from header.now 0 (leaves_value leaves.now) ≡ Some fault) }
{
    for (i, leaf) in leaves.leaves().iter().enumerate() {
        if let Some(kind) = fault_of(header, leaves, i, leaf) {
            return Err(Invalid {
                leaf: i as u32,
                kind,
            });
        }
    }
    Ok(())
}

/// Checks that every leaf of a plan is valid.
///
/// # Errors
///
/// The first faulty leaf in coding order, and the first reason for which it is rejected.
pub fn check_plan(plan: &Plan) -> Result<(), Invalid>
    ensures ok { OnOk result (first_fault (plan_value plan.now) ≡ None) }
    ensures err { IfErr result (λ fault. first_fault (plan_value plan.now) ≡ Some fault) }
{
    check_leaves(plan.header(), plan.leaves_with_triples())
}
