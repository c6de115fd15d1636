//! The errors of replaying a call: arguments that are not valid, and running out of memory.

ghost use Rattle.std.specs.Prelude.{◌≡◌};
ghost use Rattle.av1_replay.specs.declared.error.CallFault.TheVariants.{Memory};

use av1_blocks::OutOfMemory;
use std::alloc::{AllocError, AllocFailed};

/// Why a call was not replayed.
#[derive(Clone, Copy, Debug, PartialEq, Eq)]
pub enum CallFault {
    /// Its arguments are not valid.
    Malformed,
    /// An allocation failed.
    Memory,
}

impl From<OutOfMemory> for CallFault {
    ghost from_gives = { λ _ e. e ≡ Memory };

    fn from(_refused: OutOfMemory) -> CallFault {
        CallFault::Memory
    }
}

impl From<AllocError> for CallFault {
    ghost from_gives = { λ _ e. e ≡ Memory };

    fn from(_refused: AllocError) -> CallFault {
        CallFault::Memory
    }
}

impl<T: Drop> From<AllocFailed<T>> for CallFault {
    ghost from_gives = { λ _ e. e ≡ Memory };

    fn from(_refused: AllocFailed<T>) -> CallFault {
        CallFault::Memory
    }
}
