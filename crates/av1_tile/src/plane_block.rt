//! Describes a leaf's block in one plane: rectangle, prediction and transforms. Writes nothing.
//!
//! AV1 specification: residual syntax, which goes over the planes of a block.

ghost use Rattle.std.specs.Prelude.{◌≡◌, ◌<◌, ℤ, []};
ghost use Rattle.av1_blocks.specs.declared.predict.PredictionMode.{PredictionMode};
ghost use Rattle.av1_tile.specs.PlaneBlocks.{component, intra_in, prediction_in, type_in};
ghost use Rattle.av1_tile.specs.Walk.{leaf_with};

use crate::motion::Motion;
use crate::shared_chroma::MotionParts;
use av1_blocks::{BlockSize, PredictionMode, TxSize, TxType};
use av1_intra::IntraEdgeFilterParameters;
use av1_plan::{ChromaMode, Header, Leaf, LeafKind, PlaneArea};

/// How a leaf's samples in a plane are predicted.
#[derive(Clone, Copy)]
pub enum Prediction {
    /// From the neighbouring samples of each transform block, by an intra mode with an angle delta of `step` steps of 3
    /// degrees. `filter` is the neighbours' parameters for the edge filter, if the filter is on.
    Intra {
        mode: PredictionMode,
        step: i8,
        filter: Option<IntraEdgeFilterParameters>,
    },
    /// From luma, at a weight in eighths.
    FromLuma {
        alpha: i8,
    },
    /// From references.
    Inter(Motion),
    /// In parts, each by the motion of its own leaf.
    Parts(MotionParts),
}

/// What earlier leaves decide about a leaf's block: edge filter parameters and motions of shared chroma.
#[derive(Clone, Copy)]
pub struct Nearby {
    /// The neighbours' parameters for the edge filter, if the filter is on.
    pub filter: Option<IntraEdgeFilterParameters>,
    /// The parts of the block, if inter leaves share it.
    pub parts: Option<MotionParts>,
}

/// A leaf in luma: its position in samples, its size and the size of its transforms.
#[derive(Clone, Copy)]
pub struct LumaBlock {
    /// The first column.
    pub x: usize,
    /// The first row.
    pub y: usize,
    /// The block size of the leaf.
    pub size: BlockSize,
    /// The size of its luma transforms.
    pub tx_size: TxSize,
}

/// A leaf's block in one plane: its rectangle, its prediction and its transforms.
#[derive(Clone, Copy)]
pub struct PlaneBlock {
    /// The plane: 0 for Y, 1 for U and 2 for V.
    pub plane: usize,
    /// The leaf in luma.
    pub leaf: LumaBlock,
    /// The rectangle in the plane, and the size of the transforms there.
    pub area: PlaneArea,
    /// How the samples are predicted.
    pub prediction: Prediction,
    /// The type of the transforms.
    pub tx_type: TxType,
}

/// How an intra leaf predicts plane `p` of chroma.
#[inline(always)]
fn chroma_prediction(
    chroma: Option<ChromaMode>,
    p: usize,
    filter: Option<IntraEdgeFilterParameters>,
) -> Prediction
    requires { 0 < p }
    ensures { (mode : PredictionMode) (step : ℤ) → result ≡ intra_in filter (component p) mode step chroma }
{
    match chroma {
        Some(ChromaMode::Plain { mode, step }) => Prediction::Intra { mode, step, filter },
        Some(ChromaMode::Cfl { alpha_u, alpha_v }) => Prediction::FromLuma {
            alpha: if p == 1 { alpha_u } else { alpha_v },
        },
        None => Prediction::Intra {
            mode: PredictionMode::DC_PRED,
            step: 0,
            filter,
        },
    }
}

/// How a leaf predicts plane `p`. `near` is what earlier leaves decide.
#[inline(always)]
fn prediction_of(kind: LeafKind, p: usize, near: Nearby) -> Prediction
    ensures { result ≡ prediction_in near (component p) kind }
{
    let filter = near.filter;
    match kind {
        LeafKind::Intra { mode, step, .. } if p == 0 => Prediction::Intra { mode, step, filter },
        LeafKind::Intra { chroma, .. } => chroma_prediction(chroma, p, filter),
        LeafKind::Single {
            mode,
            reference,
            mv,
        } => match near.parts {
            Some(parts) => Prediction::Parts(parts),
            None => Prediction::Inter(Motion::from_one(mode, reference, mv)),
        },
        LeafKind::Compound {
            mode,
            references,
            mvs,
        } => match near.parts {
            Some(parts) => Prediction::Parts(parts),
            None => Prediction::Inter(Motion::from_two(mode, references, mvs)),
        },
    }
}

/// The type of a leaf's transforms in plane `p`.
fn type_of(leaf: &Leaf, p: usize) -> TxType
    ensures { result ≡ type_in (component p) (leaf_with leaf.now [] [] []) }
{
    if p == 0 {
        leaf.tx_type
    } else {
        leaf.uv_type.unwrap_or(TxType::DCT_DCT)
    }
}

impl PlaneBlock {
    ghost use Rattle.std.specs.Prelude.{◌≡◌, ◌<◌, []};
    ghost use Rattle.av1_plan.specs.declared.header.Header.{Header};
    ghost use Rattle.av1_plan.specs.Geometry.{plane_area};
    ghost use Rattle.av1_tile.specs.PlaneBlocks.{block_told, component};
    ghost use Rattle.av1_tile.specs.Walk.{leaf_with};

    /// The block of a leaf in plane `p`: `area` is the leaf's rectangle in the plane, and `near` is what earlier
    /// leaves decide.
    #[inline(always)]
    pub fn of_leaf(leaf: &Leaf, p: usize, area: PlaneArea, near: Nearby) -> PlaneBlock
        requires { p < 3 }
        ensures { (h : Header) → area ≡ plane_area h leaf.now.x leaf.now.y leaf.now.size leaf.now.tx_size p →
            result ≡ block_told h near (component p) (leaf_with leaf.now [] [] []) }
    {
        PlaneBlock {
            plane: p,
            leaf: LumaBlock {
                x: usize::from(leaf.x),
                y: usize::from(leaf.y),
                size: leaf.size,
                tx_size: leaf.tx_size,
            },
            area,
            prediction: prediction_of(leaf.kind, p, near),
            tx_type: type_of(leaf, p),
        }
    }
}
