//! The errors of reading a plan (a malformed field, no memory) and of checking it (an invalid leaf).

ghost use Rattle.std.specs.Prelude.{◌≡◌};
ghost use Rattle.av1_plan.specs.declared.error.PlanError.TheVariants.{Memory};

use std::alloc::{AllocError, AllocFailed};

/// Why bytes were not read as a plan.
#[derive(Copy, Clone, Debug, PartialEq, Eq)]
pub enum PlanError {
    /// The field that begins at byte `at` is cut, has a value that is not valid there, or is left over after the end.
    Malformed { at: u32 },
    /// Memory ran out.
    Memory,
}

impl From<AllocError> for PlanError {
    ghost from_gives = { λ _ e. e ≡ Memory };

    fn from(_refused: AllocError) -> PlanError {
        PlanError::Memory
    }
}

impl<T: Drop> From<AllocFailed<T>> for PlanError {
    ghost from_gives = { λ _ e. e ≡ Memory };

    fn from(_refused: AllocFailed<T>) -> PlanError {
        PlanError::Memory
    }
}

/// The reasons for which a leaf is rejected, in the order in which they are tested.
#[derive(Copy, Clone, Debug, PartialEq, Eq)]
pub enum InvalidKind {
    /// The chroma of the leaf has no block size.
    InvalidBlockSize,
    /// A transform is longer than its leaf, or has a type that its size may not have.
    Transform,
    /// The leaf cannot have this mode, angle step or alpha.
    Mode,
    /// A motion vector out of range.
    Vector,
    /// A reference to a slot without planes.
    MissingReference,
    /// A coefficient out of order, out of its block or out of range.
    Coefficient,
}

/// The first faulty leaf of a plan, counted from 0 in coding order, and the first reason for which it is rejected.
#[derive(Copy, Clone, Debug, PartialEq, Eq)]
pub struct Invalid {
    pub leaf: u32,
    pub kind: InvalidKind,
}
