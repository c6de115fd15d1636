//! Tests which headers, planes and leaves a builder accepts. Changes nothing.

ghost use Rattle.std.specs.Prelude.{◌≡◌, ◌<◌, ◌≤◌, ◌^◌, ◌==◌, true, nat_le, length};
ghost use Rattle.std.specs.List.{list_all};
ghost use Rattle.av1_plan.specs.Grammar.{is_side, is_depth};
ghost use Rattle.av1_planwrite.specs.Building.{admits_header, admits_plane, admits_reference, is_named, admits_chroma, admits_kind, admits_counts};
ghost use Rattle.av1_planwrite.specs.Building.{admits_fields};
ghost use Rattle.av1_planwrite.specs.Given.{FitsChroma, FitsKind};
ghost use Rattle.av1_planwrite.specs.Samples.{greatest};

use av1_blocks::{RefType, TxType};
use av1_plan::{ChromaMode, Header, LeafKind};

// ---- the header

/// Whether a frame may have this width or height in luma samples.
fn is_side(version: u8, side: u16) -> bool
    ensures { result ≡ is_side version side }
{
    (version == 3 || side % 8 == 0) && 1 <= side && side <= 2048
}

/// Whether samples may have this many bits.
fn is_depth(depth: u8) -> bool
    ensures { result ≡ is_depth depth }
{
    depth == 8 || depth == 10 || depth == 12
}

/// Whether these numbers are slots.
#[tactic(auto, using(crate::proofs::Items::items))]
fn are_slots(slots: &[u8]) -> bool
    ensures { result ≡ list_all (λ slot. nat_le slot 7) slots.now }
{
    let mut fit = true;
    for slot in slots {
        fit = fit && *slot <= 7;
    }
    fit
}

/// Whether each value of a header is valid.
#[tactic(auto, unfolding(crate::specs::Building::admits_header))]
pub fn admits_header(header: &Header) -> bool
    ensures value { result ≡ admits_header header.now }
    ensures mask { header.now.mask < 256 }
    ensures slots { length header.now.slots ≡ 7 }
{
    let Header {
        slots,
        mask: _mask,
        ..
    } = *header;
    1 <= header.version
        && header.version <= 3
        && is_side(header.version, header.width)
        && is_side(header.version, header.height)
        && is_depth(header.depth)
        && header.sampling <= 2
        && header.filter.number() <= 3
        && are_slots(&slots)
}

// ---- planes

/// The greatest of some samples, or 0.
#[tactic(auto, using(crate::proofs::Items::items))]
fn greatest(samples: &[u16]) -> u16
    ensures { result ≡ greatest samples.now }
{
    let mut greatest = 0;
    for sample in samples {
        if *sample > greatest {
            greatest = *sample;
        }
    }
    greatest
}

/// Whether these may be the samples of plane `p`.
#[tactic(auto, unfolding(crate::specs::Building::admits_plane))]
fn admits_plane(header: &Header, p: usize, samples: &[u16]) -> bool
    requires plane { p < 3 }
    requires depth { header.now.depth ≤ 12 }
    ensures { result ≡ admits_plane header.now p samples.now }
{
    samples.len() == header.plane_len(p) && u32::from(greatest(samples)) < 1 << header.depth
}

/// Whether these may be the planes of a slot.
pub fn admits_reference(header: &Header, y: &[u16], u: &[u16], v: &[u16]) -> bool
    requires { header.now.depth ≤ 12 }
    ensures { result ≡ admits_reference header.now y.now u.now v.now }
{
    admits_plane(header, 0, y) && admits_plane(header, 1, u) && admits_plane(header, 2, v)
}

// ---- leaves

/// Whether a reference is one of LAST to ALTREF.
fn is_named(reference: RefType) -> bool
    ensures { result ≡ is_named reference }
{
    let number = reference.number();
    1 <= number && number <= 7
}

/// Whether chroma may be predicted in this way.
#[tactic(auto, unfolding(crate::specs::Building::admits_chroma))]
fn admits_chroma(chroma: Option<ChromaMode>) -> bool
    ensures value { result ≡ admits_chroma chroma }
    ensures fits { FitsChroma chroma }
{
    match chroma {
        None => true,
        Some(ChromaMode::Plain { mode, .. }) => mode.number() <= 12,
        Some(ChromaMode::Cfl { .. }) => true,
    }
}

/// Whether a leaf may be predicted in this way, if it carries chroma or not.
#[tactic(auto, unfolding(crate::specs::Building::admits_kind))]
fn admits_kind(carried: bool, kind: LeafKind) -> bool
    ensures value { result ≡ admits_kind carried kind }
    ensures fits { result ≡ true → FitsKind kind }
{
    match kind {
        LeafKind::Intra { mode, chroma, .. } => {
            mode.number() <= 13 && chroma.is_some() == carried && admits_chroma(chroma)
        }
        LeafKind::Single {
            mode,
            reference,
            ..
        } => 14 <= mode.number() && mode.number() <= 19 && is_named(reference),
        LeafKind::Compound {
            mode,
            references,
            ..
        } => {
            let [first, second] = references;
            20 <= mode.number() && mode.number() <= 33 && is_named(first) && is_named(second)
        }
    }
}

/// Whether a leaf may have these numbers of triples in Y, U and V, if it carries chroma or not.
#[tactic(auto, unfolding(crate::specs::Building::admits_counts))]
fn admits_counts(carried: bool, y: usize, u: usize, v: usize) -> bool
    ensures value { result ≡ admits_counts carried y u v }
    ensures few { result ≡ true → (y < 2 ^ 16) × (u < 2 ^ 16) × (v < 2 ^ 16) }
{
    (carried || (u == 0 && v == 0)) && y <= 65535 && u <= 65535 && v <= 65535
}

/// Whether a leaf may have these fields and numbers of triples, if it carries chroma or not.
#[tactic(auto, unfolding(crate::specs::Building::admits_fields))]
pub fn admits_fields(
    carried: bool,
    kind: LeafKind,
    uv_type: Option<TxType>,
    y: usize,
    u: usize,
    v: usize,
) -> bool
    ensures value { result ≡ admits_fields carried kind uv_type y u v }
    ensures fits { result ≡ true → FitsKind kind }
    ensures few { result ≡ true → (y < 2 ^ 16) × (u < 2 ^ 16) × (v < 2 ^ 16) }
{
    admits_kind(carried, kind) && uv_type.is_some() == carried && admits_counts(carried, y, u, v)
}
