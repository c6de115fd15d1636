//! Why a call on tiles or a sequence fails: its status, and what it writes to `refusal` and the length.
ghost use Rattle.std.specs.Prelude.{◌≡◌};
ghost use Rattle.av1_c.specs.PartFaults.{field_of, frame_fault, in_part, length_told, part_status, part_told, sequence_fault, tiles_fault};

use crate::fault::kind_number;
use crate::status::{
    EMPTY_SLOT, INVALID_PART, MALFORMED, MALFORMED_PART, OUT_OF_MEMORY, TOO_LONG, TOO_LONG_PART,
};
use av1_calls::ROOM_TOO_SMALL;
use av1_plan::InvalidKind;
use av1_recon::PlanFault;
use av1_sequence::{FrameFault, SequenceError};
use av1_tiles::TilesError;

/// Why a call fails on bytes that hold plans as parts: tiles or a sequence. Such a call writes nothing.
#[derive(Clone, Copy, Debug, PartialEq, Eq)]
pub enum PartFault {
    /// An allocation failed.
    Memory,
    /// The buffer is shorter than the planes, which have `len` bytes.
    RoomTooSmall {
        len: usize,
    },
    /// There are more bytes than the longest input that is read.
    TooLong,
    /// The field at byte `at` is cut off, has a value that is not valid, or follows the end. A part is one field.
    Malformed {
        at: u32,
    },
    /// The plan of a part would be longer than the longest plan.
    TooLongPart {
        part: u32,
    },
    /// The field at byte `at` of a part is cut off, has a value that is not valid, or follows the part's end.
    MalformedPart {
        part: u32,
        at: u32,
    },
    /// A leaf of a part is rejected. `kind` is the reason.
    InvalidPart {
        part: u32,
        leaf: u32,
        kind: InvalidKind,
    },
    /// A part of a sequence shows the frame of a slot again, and the slot is empty.
    EmptySlot {
        part: u32,
    },
}

/// Why bytes that hold plans as parts are rejected. Numbers that don't apply are 0.
#[repr(C)]
#[derive(Clone, Copy, Debug, PartialEq, Eq)]
pub struct PartRefusal {
    /// The first rejected part, counted from 0.
    pub part: u32,
    /// The byte at which the bad field begins, counted from the start of the part. If no part is bad, it is counted
    /// from the start of all bytes.
    pub at: u32,
    /// The first bad leaf of the part, counted from 0 in coding order.
    pub leaf: u32,
    /// The number of the reason, as in `Refusal`.
    pub kind: u32,
}

// Why a part that is a plan, or the leaves of a plan, is rejected.
fn in_part(part: u32, refusal: PlanFault) -> PartFault
    ensures { result ≡ in_part part refusal }
{
    match refusal {
        PlanFault::Malformed { at } => PartFault::MalformedPart { part, at },
        PlanFault::Invalid { leaf, kind } => PartFault::InvalidPart { part, leaf, kind },
    }
}

// Why a part that is a frame of a sequence is rejected.
fn frame_fault(part: u32, fault: FrameFault) -> PartFault
    ensures { result ≡ frame_fault part fault }
{
    match fault {
        FrameFault::TooLarge => PartFault::TooLongPart { part },
        FrameFault::Malformed { at } => PartFault::MalformedPart { part, at },
        FrameFault::Invalid { leaf, kind } => PartFault::InvalidPart { part, leaf, kind },
    }
}

// Reads of a slice and writes to a sink in memory only fail if memory runs out.
impl From<TilesError> for PartFault {
    ghost from_gives = { λ error fault. fault ≡ tiles_fault error };

    fn from(error: TilesError) -> Self {
        match error {
            TilesError::TooLong => PartFault::TooLong,
            TilesError::Malformed { at } => PartFault::Malformed { at },
            TilesError::Tile { tile, fault } => in_part(u32::from(tile), fault),
            TilesError::ReadFault | TilesError::WriteFault | TilesError::Memory => {
                PartFault::Memory
            }
        }
    }
}

impl From<SequenceError> for PartFault {
    ghost from_gives = { λ error fault. fault ≡ sequence_fault error };

    fn from(error: SequenceError) -> Self {
        match error {
            SequenceError::TooLong => PartFault::TooLong,
            SequenceError::Malformed { at } => PartFault::Malformed { at },
            SequenceError::Frame { frame, fault } => frame_fault(u32::from(frame), fault),
            SequenceError::EmptySlot { frame } => PartFault::EmptySlot {
                part: u32::from(frame),
            },
            SequenceError::ReadFault | SequenceError::WriteFault | SequenceError::Memory => {
                PartFault::Memory
            }
        }
    }
}

// The bad field at `at`, of a part or of all bytes.
fn field_of(part: u32, at: u32) -> PartRefusal
    ensures { result ≡ field_of part at }
{
    PartRefusal {
        part,
        at,
        leaf: 0,
        kind: 0,
    }
}

impl PartFault {
    /// `len` becomes the length of the planes if the buffer is too short for them. Otherwise it is unchanged.
    pub fn tell_length(self, len: &mut usize)
        ensures { len.new ≡ length_told self len.old }
    {
        match self {
            PartFault::RoomTooSmall { len: wanted } => {
                *len = wanted;
            }
            _ => {}
        }
    }

    /// The status of a call that fails for this reason. `refusal` says where the bytes are bad. It is unchanged if the
    /// bytes are not.
    pub fn tell(self, refusal: &mut PartRefusal) -> u32
        ensures status { result ≡ part_status self }
        ensures refusal { refusal.new ≡ part_told self refusal.old }
    {
        match self {
            PartFault::Memory => OUT_OF_MEMORY,
            PartFault::RoomTooSmall { .. } => ROOM_TOO_SMALL,
            PartFault::TooLong => TOO_LONG,
            PartFault::Malformed { at } => {
                *refusal = field_of(0, at);
                MALFORMED
            }
            PartFault::TooLongPart { part } => {
                *refusal = field_of(part, 0);
                TOO_LONG_PART
            }
            PartFault::MalformedPart { part, at } => {
                *refusal = field_of(part, at);
                MALFORMED_PART
            }
            PartFault::InvalidPart { part, leaf, kind } => {
                *refusal = PartRefusal {
                    part,
                    at: 0,
                    leaf,
                    kind: kind_number(kind),
                };
                INVALID_PART
            }
            PartFault::EmptySlot { part } => {
                *refusal = field_of(part, 0);
                EMPTY_SLOT
            }
        }
    }
}
