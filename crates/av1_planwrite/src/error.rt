//! The errors of a builder: a field at the wrong time, a bad value, too many bytes, or no memory.

ghost use Rattle.std.specs.Prelude.{◌≡◌};
ghost use Rattle.av1_planwrite.specs.declared.error.BuildError.TheVariants.{Memory};

use av1_blocks::OutOfMemory;

/// Why a builder rejects a call, or memory ran out.
#[derive(Copy, Clone, Debug, PartialEq, Eq)]
pub enum BuildError {
    /// The plan needs another kind of field next.
    NotNow,
    /// An argument has a value that isn't valid here.
    NotAdmitted,
    /// There would be more than 2^26 bytes.
    TooLong,
    /// Memory ran out.
    Memory,
}

impl From<OutOfMemory> for BuildError {
    ghost from_gives = { λ _ e. e ≡ Memory };

    fn from(_refused: OutOfMemory) -> BuildError {
        BuildError::Memory
    }
}
