//! Errors of frames and sequences: rejections, failed reads and writes, and running out of memory.

ghost use Rattle.std.specs.Prelude.{◌≡◌};
ghost use Rattle.av1_sequence.specs.Errors.{file_error, read_error};
ghost use Rattle.av1_sequence.specs.declared.error.FrameError.TheVariants.{Memory};
ghost use Rattle.av1_sequence.specs.declared.error.SequenceError.TheVariants as errors;

use av1_blocks::OutOfMemory;
use av1_plan::{InvalidKind, PlanError};
use av1_streams::{ReadError, WriteFault};

/// Why a frame is rejected, or memory ran out.
#[derive(Copy, Clone, Debug, PartialEq, Eq)]
pub enum FrameError {
    /// The frame's plan, with the reference samples of the slots that it reads, would have more than 64 MiB.
    TooLarge,
    /// The field at byte `at` of the part is cut off, has a value that is not valid, or follows the end.
    Malformed { at: u32 },
    /// Leaf number `leaf`, counted from 0 in coding order, is the first rejected leaf. `kind` is the reason.
    Invalid { leaf: u32, kind: InvalidKind },
    /// Memory ran out.
    Memory,
}

impl From<OutOfMemory> for FrameError {
    ghost from_gives = { λ _ e. e ≡ Memory };

    fn from(_: OutOfMemory) -> Self {
        FrameError::Memory
    }
}

/// Why a frame of a sequence is rejected.
#[derive(Copy, Clone, Debug, PartialEq, Eq)]
pub enum FrameFault {
    /// The frame's plan, with the reference samples of the slots that it reads, would have more than 64 MiB.
    TooLarge,
    /// The field at byte `at` of the part is cut off, has a value that is not valid, or follows the end.
    Malformed { at: u32 },
    /// Leaf number `leaf`, counted from 0 in coding order, is the first rejected leaf. `kind` is the reason.
    Invalid { leaf: u32, kind: InvalidKind },
}

/// Why a sequence of frames was not reconstructed and written to its end.
#[derive(Copy, Clone, Debug, PartialEq, Eq)]
pub enum SequenceError {
    /// A read failed.
    ReadFault,
    /// The source has more bytes than the longest sequence. The limit is 64 MiB, as for a plan.
    TooLong,
    /// The field at byte `at` is cut off, has a value that is not valid, or follows the end. The part of a frame is one
    /// field.
    Malformed { at: u32 },
    /// Entry number `frame`, counted from 0, is the first rejected entry. It is a frame, and `fault` is the reason. The
    /// frames that are shown before it were written.
    Frame { frame: u16, fault: FrameFault },
    /// Entry number `frame`, counted from 0, is the first rejected entry. It shows a slot again that is empty. The
    /// frames that are shown before it were written.
    EmptySlot { frame: u16 },
    /// A write failed. The sink has a prefix of the output.
    WriteFault,
    /// Memory ran out. The sink has the first shown frames, each whole.
    Memory,
}

impl From<ReadError> for SequenceError {
    ghost from_gives = { λ error e. e ≡ read_error error };

    fn from(error: ReadError) -> Self {
        match error {
            ReadError::ReadFault => SequenceError::ReadFault,
            ReadError::TooLong => SequenceError::TooLong,
            ReadError::Memory => SequenceError::Memory,
        }
    }
}

impl From<PlanError> for SequenceError {
    ghost from_gives = { λ error e. e ≡ file_error error };

    fn from(error: PlanError) -> Self {
        match error {
            PlanError::Malformed { at } => SequenceError::Malformed { at },
            PlanError::Memory => SequenceError::Memory,
        }
    }
}

impl From<WriteFault> for SequenceError {
    ghost from_gives = { λ _ e. e ≡ errors.WriteFault };

    fn from(_: WriteFault) -> Self {
        SequenceError::WriteFault
    }
}

impl From<OutOfMemory> for SequenceError {
    ghost from_gives = { λ _ e. e ≡ errors.Memory };

    fn from(_: OutOfMemory) -> Self {
        SequenceError::Memory
    }
}
