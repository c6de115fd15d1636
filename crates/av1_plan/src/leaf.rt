//! The types of a leaf: its position and size, prediction, transforms, and where its coefficients are.

ghost use Rattle.std.specs.Prelude.{◌≡◌, ◌+◌, ◌<◌, sum, take, slice_index};

use av1_blocks::{BlockSize, MotionVector, PredictionMode, RefType, TxSize, TxType};

/// A coefficient of a leaf in one plane.
#[derive(Copy, Clone, Debug, PartialEq, Eq)]
pub struct Triple {
    /// The transform block, numbered in raster order over the leaf's rectangle in the plane.
    pub block: u8,
    /// The place of row r and column c of the block: `c * min(height, 32) + r`.
    pub place: u16,
    pub value: i32,
}

/// How the chroma of an intra leaf is predicted.
#[derive(Copy, Clone, Debug, PartialEq, Eq)]
pub enum ChromaMode {
    /// By an intra mode, with an angle delta of `step` steps of 3 degrees.
    Plain { mode: PredictionMode, step: i8 },
    /// From luma, with a weight in eighths for U and one for V.
    Cfl { alpha_u: i8, alpha_v: i8 },
}

/// How a leaf is predicted.
#[derive(Copy, Clone, Debug, PartialEq, Eq)]
pub enum LeafKind {
    /// From its neighbouring samples, by an intra mode with an angle delta of `step` steps of 3 degrees.
    Intra {
        mode: PredictionMode,
        step: i8,
        /// Some exactly if the leaf carries chroma.
        chroma: Option<ChromaMode>,
    },
    /// From one reference frame.
    Single {
        mode: PredictionMode,
        reference: RefType,
        mv: MotionVector,
    },
    /// From two reference frames.
    Compound {
        mode: PredictionMode,
        references: [RefType; 2],
        mvs: [MotionVector; 2],
    },
}

/// A leaf of a plan.
#[derive(Copy, Clone, Debug, PartialEq, Eq)]
pub struct Leaf {
    /// The column of its first luma sample.
    pub x: u16,
    /// The row of its first luma sample.
    pub y: u16,
    pub size: BlockSize,
    pub kind: LeafKind,
    /// The size of its luma transforms.
    pub tx_size: TxSize,
    /// The type of its luma transforms.
    pub tx_type: TxType,
    /// The type of its chroma transforms: Some exactly if the leaf carries chroma.
    pub uv_type: Option<TxType>,
    /// The position of its first triple in the plan's list of triples.
    pub first: u32,
    /// The number of its triples for Y, for U and for V. The three lists follow one another.
    pub counts: [u16; 3],
}

impl Leaf {
    /// The position of the leaf's first triple of plane `p` in the plan's list of triples, and the number of these
    /// triples.
    pub(crate) fn triples_span(&self, p: usize) -> (usize, usize)
        requires { p < 3 }
        ensures start { result.0 ≡ self.now.first + sum (take p self.now.counts) }
        ensures count { result.1 ≡ slice_index self.now.counts p }
    {
        let [y, u, v] = self.counts;
        let (y, u, v) = (usize::from(y), usize::from(u), usize::from(v));
        let first = self.first as usize;
        match p {
            0 => (first, y),
            1 => (first + y, u),
            _ => (first + y + u, v),
        }
    }
}
