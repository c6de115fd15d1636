//! Why a call on a plan fails: its status, and what it writes to the caller's `refusal` and length.
ghost use Rattle.std.specs.Prelude.{◌≡◌};
ghost use Rattle.av1_c.specs.Faults.{kind_number, invalid_fault, plan_fault, plan_length_told, status_of, told};
ghost use Rattle.av1_c.specs.declared.fault.PlanCallFault.TheVariants as faults;

use crate::status::{
    INVALID, INVALID_BLOCK_SIZE, INVALID_COEFFICIENT, INVALID_MODE, INVALID_TRANSFORM,
    INVALID_VECTOR, MALFORMED, MISSING_REFERENCE, OUT_OF_MEMORY, TOO_LONG,
};
use av1_blocks::OutOfMemory;
use av1_calls::ROOM_TOO_SMALL;
use av1_plan::{Invalid, InvalidKind, PlanError};

/// Why a call on a plan fails. Such a call writes no planes.
#[derive(Clone, Copy, Debug, PartialEq, Eq)]
pub enum PlanCallFault {
    /// An allocation failed.
    Memory,
    /// The buffer is shorter than the planes, which have `len` bytes.
    RoomTooSmall { len: usize },
    /// There are more bytes than the longest plan has: 2^26.
    TooLong,
    /// The field at byte `at` is cut off, has a value that is not valid, or follows the end of the plan.
    Malformed { at: u32 },
    /// Leaf number `leaf`, counted from 0 in coding order, is the first rejected leaf. `kind` is the reason.
    Invalid { leaf: u32, kind: InvalidKind },
}

/// Why a plan is rejected: a bad field, or a bad leaf and the reason. Numbers that don't apply are 0.
#[repr(C)]
#[derive(Clone, Copy, Debug, PartialEq, Eq)]
pub struct Refusal {
    /// The byte at which the bad field begins.
    pub at: u32,
    /// The first bad leaf, counted from 0 in coding order.
    pub leaf: u32,
    /// The number of the reason.
    pub kind: u32,
}

impl From<PlanError> for PlanCallFault {
    ghost from_gives = { λ error fault. fault ≡ plan_fault error };

    fn from(error: PlanError) -> Self {
        match error {
            PlanError::Malformed { at } => PlanCallFault::Malformed { at },
            PlanError::Memory => PlanCallFault::Memory,
        }
    }
}

impl From<Invalid> for PlanCallFault {
    ghost from_gives = { λ error fault. fault ≡ invalid_fault error };

    fn from(error: Invalid) -> Self {
        PlanCallFault::Invalid {
            leaf: error.leaf,
            kind: error.kind,
        }
    }
}

impl From<OutOfMemory> for PlanCallFault {
    ghost from_gives = { λ _ fault. fault ≡ faults.Memory };

    fn from(_: OutOfMemory) -> Self {
        PlanCallFault::Memory
    }
}

/// The number of the reason for which a leaf is rejected.
pub(crate) fn kind_number(kind: InvalidKind) -> u32
    ensures { result ≡ kind_number kind }
{
    match kind {
        InvalidKind::InvalidBlockSize => INVALID_BLOCK_SIZE,
        InvalidKind::Transform => INVALID_TRANSFORM,
        InvalidKind::Mode => INVALID_MODE,
        InvalidKind::Vector => INVALID_VECTOR,
        InvalidKind::MissingReference => MISSING_REFERENCE,
        InvalidKind::Coefficient => INVALID_COEFFICIENT,
    }
}

impl PlanCallFault {
    /// `len` becomes the length of the planes if the buffer is too short for them. Otherwise it is unchanged.
    pub fn tell_length(self, len: &mut usize)
        ensures { len.new ≡ plan_length_told self len.old }
    {
        match self {
            PlanCallFault::RoomTooSmall { len: wanted } => {
                *len = wanted;
            }
            _ => {}
        }
    }

    /// The status of a call that fails for this reason. `refusal` becomes the bad field or leaf. It is unchanged if the
    /// plan is not malformed or invalid.
    pub fn tell(self, refusal: &mut Refusal) -> u32
        ensures status { result ≡ status_of self }
        ensures refusal { refusal.new ≡ told self refusal.old }
    {
        match self {
            PlanCallFault::Memory => OUT_OF_MEMORY,
            PlanCallFault::RoomTooSmall { .. } => ROOM_TOO_SMALL,
            PlanCallFault::TooLong => TOO_LONG,
            PlanCallFault::Malformed { at } => {
                *refusal = Refusal {
                    at,
                    leaf: 0,
                    kind: 0,
                };
                MALFORMED
            }
            PlanCallFault::Invalid { leaf, kind } => {
                *refusal = Refusal {
                    at: 0,
                    leaf,
                    kind: kind_number(kind),
                };
                INVALID
            }
        }
    }
}
