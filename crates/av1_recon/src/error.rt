//! The errors of reconstructing a plan, and their conversion from the errors of the crates below.
ghost use Rattle.std.specs.Prelude.{◌≡◌};
ghost use Rattle.av1_recon.specs.Errors.{read_error, plan_error, invalid_error};
ghost use Rattle.av1_recon.specs.declared.error.ReconError.TheVariants as variants;

use av1_blocks::OutOfMemory;
use av1_plan::{Invalid, InvalidKind, PlanError};
use av1_streams::{ReadError, WriteFault};

/// Why a plan is rejected.
#[derive(Clone, Copy, Debug, PartialEq, Eq)]
pub enum PlanFault {
    /// The field that begins at byte `at` of the plan is cut, has a value that is not valid there, or is left over
    /// after the end.
    Malformed { at: u32 },
    /// Leaf number `leaf`, counted from 0 in coding order, is the first that is rejected, for the reason `kind`.
    Invalid { leaf: u32, kind: InvalidKind },
}

/// Why a plan was not reconstructed and written.
#[derive(Clone, Copy, Debug, PartialEq, Eq)]
pub enum ReconError {
    /// A read failed.
    ReadFault,
    /// The source gave a byte past the longest plan.
    TooLong,
    /// The field that begins at byte `at` is cut, has a value that is not valid there, or is left over after the end.
    Malformed { at: u32 },
    /// Leaf number `leaf`, counted from 0 in coding order, is the first that is rejected, for the reason `kind`.
    Invalid { leaf: u32, kind: InvalidKind },
    /// A write failed. A prefix of the planes was written.
    WriteFault,
    /// Memory ran out, before the first written byte.
    Memory,
}

impl From<ReadError> for ReconError {
    ghost from_gives = { λ error e. e ≡ read_error error };

    fn from(error: ReadError) -> Self {
        match error {
            ReadError::ReadFault => ReconError::ReadFault,
            ReadError::TooLong => ReconError::TooLong,
            ReadError::Memory => ReconError::Memory,
        }
    }
}

impl From<PlanError> for ReconError {
    ghost from_gives = { λ error e. e ≡ plan_error error };

    fn from(error: PlanError) -> Self {
        match error {
            PlanError::Malformed { at } => ReconError::Malformed { at },
            PlanError::Memory => ReconError::Memory,
        }
    }
}

impl From<Invalid> for ReconError {
    ghost from_gives = { λ fault e. e ≡ invalid_error fault };

    fn from(fault: Invalid) -> Self {
        ReconError::Invalid {
            leaf: fault.leaf,
            kind: fault.kind,
        }
    }
}

impl From<WriteFault> for ReconError {
    ghost from_gives = { λ _ e. e ≡ variants.WriteFault };

    fn from(_: WriteFault) -> Self {
        ReconError::WriteFault
    }
}

impl From<OutOfMemory> for ReconError {
    ghost from_gives = { λ _ e. e ≡ variants.Memory };

    fn from(_: OutOfMemory) -> Self {
        ReconError::Memory
    }
}
