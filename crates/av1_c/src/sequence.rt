//! Reconstructs a sequence, and writes shown planes to the caller's memory, `written` and `refusal`. Allocates.
ghost use Rattle.std.specs.Prelude.{ℕ, List, Ok, IfOk, IfErr, OnErr, ◌≡◌, length};
ghost use Rattle.av1_c.specs.Parts.{IsPartCause, PutsPlanes};
ghost use Rattle.av1_c.specs.Plans.{AreWritten};
ghost use Rattle.av1_c.specs.Sequences.{SequenceComesTo};

use crate::gathered::GatheringSink;
use crate::part_fault::{PartFault, PartRefusal};
use crate::part_planes::put_front;
use av1_calls::DONE;
use av1_sequence::reconstruct_sequence;
use av1_streams::SliceSource;
use std::alloc::Global;

/// The planes of all frames that a sequence shows.
///
/// # Errors
///
/// `TooLong`, then `Malformed`, then `TooLongPart`, `MalformedPart`, `InvalidPart` or `EmptySlot`. `Memory` may replace
/// any of them.
fn sequence_planes(alloc: Global, bytes: &[u8]) -> Result<Vec<u8>, PartFault>
    ensures found { IfOk result (λ planes. SequenceComesTo bytes.now (Ok planes.items)) }
    ensures refused { IfErr result (λ fault. (room : ℕ) → IsPartCause (SequenceComesTo bytes.now) room fault) }
{
    let mut source = SliceSource::new(bytes, usize::MAX, &[]);
    let mut sink = GatheringSink::new(alloc);
    reconstruct_sequence(alloc, &mut source, &mut sink)?;
    Ok(sink.into_bytes())
}

/// Writes the planes of all frames that a sequence shows to the front of the buffer. Returns their length in bytes.
///
/// # Errors
///
/// The errors of `sequence_planes`, then `RoomTooSmall`. `Memory` may also replace `RoomTooSmall`.
fn sequence_into(alloc: Global, bytes: &[u8], room: &mut [u8]) -> Result<usize, PartFault>
    ensures written { IfOk result (λ count. (planes : List ℕ) × SequenceComesTo bytes.now (Ok planes) × AreWritten planes room.old room.new count) }
    ensures fault { IfErr result (IsPartCause (SequenceComesTo bytes.now) (length room.old)) }
    ensures kept { OnErr result (room.new ≡ room.old) }
{
    let planes = sequence_planes(alloc, bytes)?;
    put_front(&planes, room)
}

/// Reconstructs the frames of a sequence, one after the other. `bytes` is the sequence. The call writes the visible
/// planes of each shown frame to `room`, in order.
///
/// The statuses are those of [`tilg_reconstruct_tiles`], and a part is an entry of the sequence: a frame, or a slot
/// that is shown again. `TOO_LONG_PART`: the plan of a frame with its references would have more than 2^26 bytes.
/// `EMPTY_SLOT`: an entry shows a slot that is empty. `refusal.part` is the number of the entry. If an entry is
/// rejected, the call writes no planes of earlier entries either.
#[unsafe(no_mangle)]
pub extern "C" fn tilg_reconstruct_sequence(
    alloc: Global,
    room: &mut [u8],
    written: &mut usize,
    refusal: &mut PartRefusal,
    bytes: &[u8],
) -> u32
    ensures { PutsPlanes (SequenceComesTo bytes.now) room.old room.new written.old written.new refusal.old refusal.new result }
{
    match sequence_into(alloc, bytes, room) {
        Ok(count) => {
            *written = count;
            DONE
        }
        Err(fault) => {
            fault.tell_length(written);
            fault.tell(refusal)
        }
    }
}
