//! The fields of a leaf as numbers for C, and their conversion to the types of plans. Does not allocate.

ghost use Rattle.std.specs.Prelude.{◌≡◌};
ghost use Rattle.av1_c.specs.Leaves.{are_numbers, chroma_of, kind_of, mode_of, reference_of, triple_of, tx_size_of, tx_type_of, uv_type_of, vector_of};

use av1_blocks::{MotionVector, PredictionMode, RefType, TxSize, TxType};
use av1_plan::{ChromaMode, LeafKind, Triple};

/// A coefficient of a leaf in one plane.
#[repr(C)]
#[derive(Clone, Copy)]
pub struct Coefficient {
    /// Its value.
    pub value: i32,
    /// Its index in the block's list of coefficients.
    pub place: u16,
    /// The number of its transform block, in raster order over the leaf's rectangle in the plane.
    pub block: u8,
}

/// A reference and its vector, in eighths of a luma sample.
#[repr(C)]
#[derive(Clone, Copy)]
pub struct LeafMotion {
    pub row: i16,
    pub col: i16,
    /// The number of the reference: 1 (LAST) to 7 (ALTREF).
    pub reference: u8,
}

/// The fields of a leaf except its coefficients, with the numbers that plans use. Set fields to 0 that the leaf doesn't
/// have.
#[repr(C)]
#[derive(Clone, Copy)]
pub struct LeafNumbers {
    /// The first reference, if the leaf has one or two.
    pub first: LeafMotion,
    /// The second reference, if the leaf has two.
    pub second: LeafMotion,
    /// The number of the mode: 0 to 13 without references, 14 to 19 with one, 20 to 33 with two.
    pub mode: u8,
    /// Without references: how many steps of 3 degrees the mode turns.
    pub step: i8,
    /// 0 if the leaf carries no chroma.
    pub chroma: u8,
    /// Without references and with chroma: the mode of chroma from 0 to 12, or 13 for chroma from luma.
    pub chroma_mode: u8,
    /// How many steps of 3 degrees the mode of chroma turns.
    pub chroma_step: i8,
    /// The weights of chroma from luma, in eighths.
    pub alpha_u: i8,
    pub alpha_v: i8,
    /// The size and the type of the luma transforms.
    pub tx_size: u8,
    pub tx_type: u8,
    /// The type of the chroma transforms, if the leaf carries chroma.
    pub uv_type: u8,
}

impl Coefficient {
    /// The coefficient as a plan has it.
    pub fn triple(self) -> Triple
        ensures { result ≡ triple_of self }
    {
        Triple {
            block: self.block,
            place: self.place,
            value: self.value,
        }
    }
}

// The mode of a number. Each number past the last one gives chroma from luma. No caller accepts that mode.
fn mode_of(number: u8) -> PredictionMode
    ensures { result ≡ mode_of number }
{
    match PredictionMode::from_number(number) {
        Some(mode) => mode,
        None => PredictionMode::UV_CFL_PRED,
    }
}

/// The reference of a number. Each number past the last one gives `NONE_FRAME`, which no leaf may have.
pub fn reference_of(number: u8) -> RefType
    ensures { result ≡ reference_of number }
{
    match RefType::from_number(number) {
        Some(reference) => reference,
        None => RefType::NONE_FRAME,
    }
}

// The size of a number. Each number past the last one gives an arbitrary size.
fn tx_size_of(number: u8) -> TxSize
    ensures { result ≡ tx_size_of number }
{
    match TxSize::from_number(number) {
        Some(size) => size,
        None => TxSize::TX_4X4,
    }
}

// The type of a number. Each number past the last one gives an arbitrary type.
fn tx_type_of(number: u8) -> TxType
    ensures { result ≡ tx_type_of number }
{
    match TxType::from_number(number) {
        Some(transform) => transform,
        None => TxType::DCT_DCT,
    }
}

impl LeafMotion {
    // The vector.
    fn vector(self) -> MotionVector
        ensures { result ≡ vector_of self }
    {
        MotionVector {
            row: self.row,
            col: self.col,
        }
    }
}

impl LeafNumbers {
    /// Whether the numbers of the transforms are in range.
    pub fn are_numbers(&self) -> bool
        ensures { result ≡ are_numbers self.now }
    {
        self.tx_size <= 18 && self.tx_type <= 16 && self.uv_type <= 16
    }

    // How chroma is predicted in a leaf without references, if the leaf carries chroma.
    fn chroma_mode(&self) -> Option<ChromaMode>
        ensures { result ≡ chroma_of self.now }
    {
        if self.chroma == 0 {
            return None;
        }
        if self.chroma_mode == 13 {
            return Some(ChromaMode::Cfl {
                alpha_u: self.alpha_u,
                alpha_v: self.alpha_v,
            });
        }
        Some(ChromaMode::Plain {
            mode: mode_of(self.chroma_mode),
            step: self.chroma_step,
        })
    }

    /// How the leaf is predicted.
    pub fn kind(&self) -> LeafKind
        ensures { result ≡ kind_of self.now }
    {
        let mode = mode_of(self.mode);
        if self.mode < 14 {
            return LeafKind::Intra {
                mode,
                step: self.step,
                chroma: self.chroma_mode(),
            };
        }
        let reference = reference_of(self.first.reference);
        if self.mode < 20 {
            return LeafKind::Single {
                mode,
                reference,
                mv: self.first.vector(),
            };
        }
        LeafKind::Compound {
            mode,
            references: [reference, reference_of(self.second.reference)],
            mvs: [self.first.vector(), self.second.vector()],
        }
    }

    /// The size of the luma transforms.
    pub fn tx_size(&self) -> TxSize
        ensures { result ≡ tx_size_of self.now.tx_size }
    {
        tx_size_of(self.tx_size)
    }

    /// The type of the luma transforms.
    pub fn tx_type(&self) -> TxType
        ensures { result ≡ tx_type_of self.now.tx_type }
    {
        tx_type_of(self.tx_type)
    }

    /// The type of the chroma transforms, if the leaf carries chroma.
    pub fn uv_type(&self) -> Option<TxType>
        ensures { result ≡ uv_type_of self.now }
    {
        if self.chroma == 0 {
            None
        } else {
            Some(tx_type_of(self.uv_type))
        }
    }
}
