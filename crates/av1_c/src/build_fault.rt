//! The faults of a builder's call, and the status of each. Writes nothing.

ghost use Rattle.std.specs.Prelude.{◌≡◌};
ghost use Rattle.av1_c.specs.BuildFaults.{answered, build_status};
ghost use Rattle.av1_c.specs.declared.build_fault.BuildFault.TheVariants as faults;

use crate::status::{BAD_STATE, NOT_ADMITTED, NOT_NOW, OUT_OF_MEMORY, TOO_LONG};
use av1_calls::{DONE, ROOM_TOO_SMALL};
use av1_planwrite::BuildError;

/// Why a builder's call fails. Such a call changes nothing.
#[derive(Clone, Copy, Debug, PartialEq, Eq)]
pub enum BuildFault {
    /// The caller's numbers are not a valid builder.
    BadState,
    /// The plan so far rejects what the caller gives.
    Refused(BuildError),
    /// The buffer is too short for what the call appends.
    RoomTooSmall,
}

impl From<BuildError> for BuildFault {
    ghost from_gives = { λ error fault. fault ≡ faults.Refused error };

    fn from(error: BuildError) -> Self {
        BuildFault::Refused(error)
    }
}

impl BuildFault {
    /// The status of a call that fails for this reason.
    fn status(self) -> u32
        ensures { result ≡ build_status self }
    {
        match self {
            BuildFault::BadState => BAD_STATE,
            BuildFault::Refused(BuildError::NotNow) => NOT_NOW,
            BuildFault::Refused(BuildError::NotAdmitted) => NOT_ADMITTED,
            BuildFault::Refused(BuildError::TooLong) => TOO_LONG,
            BuildFault::Refused(BuildError::Memory) => OUT_OF_MEMORY,
            BuildFault::RoomTooSmall => ROOM_TOO_SMALL,
        }
    }
}

/// The status of a call with this result.
pub fn answer(ended: Result<(), BuildFault>) -> u32
    ensures { result ≡ answered ended }
{
    match ended {
        Ok(()) => DONE,
        Err(fault) => fault.status(),
    }
}
