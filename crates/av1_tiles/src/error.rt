//! The errors of a tile and of a grid, and their conversion from the errors of the crates below.

ghost use Rattle.std.specs.Prelude.{◌≡◌};
ghost use Rattle.av1_tiles.specs.Errors.{read_error, file_error};
ghost use Rattle.av1_tiles.specs.declared.error.TileError.TheVariants.{Memory};
ghost use Rattle.av1_tiles.specs.declared.error.TilesError.TheVariants as errors;

use crate::TileFault;
use av1_blocks::OutOfMemory;
use av1_plan::PlanError;
use av1_streams::{ReadError, WriteFault};

/// Why a tile has no valid plan.
#[derive(Copy, Clone, Debug, PartialEq, Eq)]
pub enum TileError {
    /// The tile's part is rejected.
    Refused { fault: TileFault },
    /// Memory ran out.
    Memory,
}

impl From<OutOfMemory> for TileError {
    ghost from_gives = { λ _ e. e ≡ Memory };

    fn from(_: OutOfMemory) -> Self {
        TileError::Memory
    }
}

/// Why a grid of tiles was not reconstructed and written.
#[derive(Copy, Clone, Debug, PartialEq, Eq)]
pub enum TilesError {
    /// A read failed.
    ReadFault,
    /// The source has more bytes than the longest grid of tiles. The limit is 64 MiB, as for a plan.
    TooLong,
    /// The field at byte `at` is cut off, has a value that is not valid, or follows the end. A tile's part is one
    /// field.
    Malformed { at: u32 },
    /// Tile number `tile`, counted from 0 in raster order, is the first rejected tile, for this reason.
    Tile { tile: u16, fault: TileFault },
    /// A write failed. A prefix of the planes was written.
    WriteFault,
    /// Memory ran out before the first byte was written.
    Memory,
}

impl From<ReadError> for TilesError {
    ghost from_gives = { λ error e. e ≡ read_error error };

    fn from(error: ReadError) -> Self {
        match error {
            ReadError::ReadFault => TilesError::ReadFault,
            ReadError::TooLong => TilesError::TooLong,
            ReadError::Memory => TilesError::Memory,
        }
    }
}

impl From<PlanError> for TilesError {
    ghost from_gives = { λ error e. e ≡ file_error error };

    fn from(error: PlanError) -> Self {
        match error {
            PlanError::Malformed { at } => TilesError::Malformed { at },
            PlanError::Memory => TilesError::Memory,
        }
    }
}

impl From<WriteFault> for TilesError {
    ghost from_gives = { λ _ e. e ≡ errors.WriteFault };

    fn from(_: WriteFault) -> Self {
        TilesError::WriteFault
    }
}

impl From<OutOfMemory> for TilesError {
    ghost from_gives = { λ _ e. e ≡ errors.Memory };

    fn from(_: OutOfMemory) -> Self {
        TilesError::Memory
    }
}
