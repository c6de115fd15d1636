//! The errors of replaying rows, and their conversion from the errors of the crates below.

ghost use Rattle.std.specs.Prelude.{◌≡◌, ◌⊎◌};
ghost use Rattle.av1_rows.specs.declared.error.RowsError.TheVariants as variants;
ghost use Rattle.av1_rows.specs.Errors.{read_error};

use av1_replay::CallFault;
use av1_streams::{ReadError, WriteFault};
use std::alloc::AllocError;

/// Why rows were not replayed, or their report was not written.
#[derive(Clone, Copy, Debug, PartialEq, Eq)]
pub enum RowsError {
    /// A read failed.
    ReadFault,
    /// The source has more bytes than the longest file: 64 MiB.
    TooLong,
    /// The bytes don't begin like a file of rows.
    NoRows,
    /// Row number `row`, counted from 0, is cut off, has a value that is not valid, or has bytes left over.
    Malformed { row: u64 },
    /// An allocation failed.
    Memory,
    /// A write failed. The sink has a prefix of the report.
    WriteFault,
}

impl RowsError {
    /// Why the row with this number was not replayed.
    pub fn of_row(row: u64, fault: CallFault) -> RowsError
        ensures { (result ≡ variants.Malformed row) ⊎ (result ≡ variants.Memory) }
    {
        match fault {
            CallFault::Malformed => RowsError::Malformed { row },
            CallFault::Memory => RowsError::Memory,
        }
    }
}

impl From<ReadError> for RowsError {
    ghost from_gives = { λ error e. e ≡ read_error error };

    fn from(error: ReadError) -> RowsError {
        match error {
            ReadError::ReadFault => RowsError::ReadFault,
            ReadError::TooLong => RowsError::TooLong,
            ReadError::Memory => RowsError::Memory,
        }
    }
}

impl From<AllocError> for RowsError {
    ghost from_gives = { λ _ e. e ≡ variants.Memory };

    fn from(_: AllocError) -> RowsError {
        RowsError::Memory
    }
}

impl From<WriteFault> for RowsError {
    ghost from_gives = { λ _ e. e ≡ variants.WriteFault };

    fn from(_: WriteFault) -> RowsError {
        RowsError::WriteFault
    }
}
