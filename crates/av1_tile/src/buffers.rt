//! The buffers of the walk, and the predictions that it keeps. Only `new` allocates; the walk writes them.

ghost use Rattle.std.specs.Prelude.{◌≡◌, vec_len, IfOk};

use crate::predicted::PredictedPlanes;
use av1_blocks::OutOfMemory;
use av1_edges::IntraEdgeBuffer;
use av1_frame::{Coefficient, Pixel, repeated};
use av1_inter::InterCompoundBuffers;
use av1_itx::TxScratch;
use std::alloc::Global;

/// The greatest number of coded coefficients of a transform block.
const MOST_COEFFICIENTS: usize = 1024;

/// The greatest number of samples of a chroma block that is predicted from luma.
const MOST_FROM_LUMA: usize = 32 * 32;

/// Buffers for the residual of one transform block.
#[derive(Drop)]
pub struct ResidueRoom<T: Pixel> {
    /// The coefficients of the block.
    pub(crate) coefficients: Vec<T::Coeff>,
    /// The buffer of the inverse transform.
    pub(crate) scratch: TxScratch,
    pub(crate) ghost coefficients_len: { vec_len coefficients ≡ 1024 },
}

/// Buffers for one transform block, for the luma of one leaf, and for the prediction of one leaf from two references.
/// Also the predictions that the walk keeps.
#[derive(Drop)]
pub struct WalkBuffers<T: Pixel> {
    /// The edge of a transform block: its neighbouring samples.
    pub(crate) edges: IntraEdgeBuffer<T>,
    /// The distance of luma from its mean for each chroma sample of a leaf, row by row. Used if chroma is predicted
    /// from luma.
    pub(crate) luma: Vec<i16>,
    /// The buffers for the residual of a transform block.
    pub(crate) residue: ResidueRoom<T>,
    /// The intermediate values of a leaf from each of two references.
    pub(crate) compound: InterCompoundBuffers,
    /// The predictions that the walk keeps: none, unless a caller asks for them.
    pub(crate) kept: PredictedPlanes<T>,
    pub(crate) ghost luma_long: { vec_len luma ≡ 1024 },
}

impl<T: Pixel> ResidueRoom<T> {
    /// Allocates the buffers.
    fn new(alloc: Global) -> Result<ResidueRoom<T>, OutOfMemory> {
        Ok(ResidueRoom {
            coefficients: repeated(alloc, T::Coeff::from_i32(0), MOST_COEFFICIENTS)?,
            scratch: TxScratch::new(alloc)?,
        })
    }
}

impl<T: Pixel> WalkBuffers<T> {
    ghost use Rattle.std.specs.Prelude.{◌≡◌, IfOk};

    /// Allocates the buffers. The count of prepared edges is 0.
    pub(crate) fn new(alloc: Global) -> Result<WalkBuffers<T>, OutOfMemory>
        ensures { IfOk result (λ buffers. buffers.edges.prepared ≡ 0) }
    {
        let edges = IntraEdgeBuffer::new(alloc)?;
        let luma = repeated(alloc, 0, MOST_FROM_LUMA)?;
        let residue = ResidueRoom::new(alloc)?;
        let compound = InterCompoundBuffers::new(alloc)?;
        let kept = PredictedPlanes::none(alloc);
        Ok(WalkBuffers {
            edges,
            luma,
            residue,
            compound,
            kept,
        })
    }
}
