//! The errors of comparing a trace, and their conversion from the errors of the crates below.
ghost use Rattle.std.specs.Prelude.{◌≡◌};
ghost use Rattle.av1_trace.specs.TraceErrors.{read_error, plan_error, invalid_error};
ghost use Rattle.av1_trace.specs.declared.error.TraceError.TheVariants as variants;

use av1_blocks::OutOfMemory;
use av1_plan::{Invalid, PlanError};
use av1_recon::PlanFault;
use av1_streams::{ReadError, WriteFault};

/// Why a trace was not compared, or its differences were not written.
#[derive(Clone, Copy, Debug, PartialEq, Eq)]
pub enum TraceError {
    /// A read failed.
    ReadFault,
    /// The source has more bytes than the longest trace: 128 MiB.
    TooLong,
    /// The field of the trace at byte `at` is cut off, has a value that is not valid, or follows the end.
    Malformed { at: u32 },
    /// The plan is rejected.
    Plan { fault: PlanFault },
    /// A write failed. The sink has a prefix of the lines.
    WriteFault,
    /// An allocation failed before the first byte was written.
    Memory,
}

impl From<ReadError> for TraceError {
    ghost from_gives = { λ error e. e ≡ read_error error };

    fn from(error: ReadError) -> Self {
        match error {
            ReadError::ReadFault => TraceError::ReadFault,
            ReadError::TooLong => TraceError::TooLong,
            ReadError::Memory => TraceError::Memory,
        }
    }
}

impl From<PlanError> for TraceError {
    ghost from_gives = { λ error e. e ≡ plan_error error };

    fn from(error: PlanError) -> Self {
        match error {
            PlanError::Malformed { at } => TraceError::Plan {
                fault: PlanFault::Malformed { at },
            },
            PlanError::Memory => TraceError::Memory,
        }
    }
}

impl From<Invalid> for TraceError {
    ghost from_gives = { λ fault e. e ≡ invalid_error fault };

    fn from(fault: Invalid) -> Self {
        TraceError::Plan {
            fault: PlanFault::Invalid {
                leaf: fault.leaf,
                kind: fault.kind,
            },
        }
    }
}

impl From<WriteFault> for TraceError {
    ghost from_gives = { λ _ e. e ≡ variants.WriteFault };

    fn from(_: WriteFault) -> Self {
        TraceError::WriteFault
    }
}

impl From<OutOfMemory> for TraceError {
    ghost from_gives = { λ _ e. e ≡ variants.Memory };

    fn from(_: OutOfMemory) -> Self {
        TraceError::Memory
    }
}
