//! Reconstructs a grid of tiles, and writes its planes to the caller's memory, `written` and `refusal`. Allocates.
ghost use Rattle.std.specs.Prelude.{ℕ, List, Ok, IfOk, IfErr, OnErr, ◌≡◌, length};
ghost use Rattle.av1_c.specs.Parts.{IsPartCause, PutsPlanes};
ghost use Rattle.av1_c.specs.Plans.{AreWritten};
ghost use Rattle.av1_c.specs.Tiles.{TilesComeTo};

use crate::gathered::GatheringSink;
use crate::part_fault::{PartFault, PartRefusal};
use crate::part_planes::put_front;
use av1_calls::DONE;
use av1_streams::SliceSource;
use av1_tiles::reconstruct_tiles;
use std::alloc::Global;

/// The planes of a grid of tiles.
///
/// # Errors
///
/// `TooLong`, then `Malformed`, then `MalformedPart` or `InvalidPart`. `Memory` may replace any of them.
fn tiles_planes(alloc: Global, bytes: &[u8]) -> Result<Vec<u8>, PartFault>
    ensures found { IfOk result (λ planes. TilesComeTo bytes.now (Ok planes.items)) }
    ensures refused { IfErr result (λ fault. (room : ℕ) → IsPartCause (TilesComeTo bytes.now) room fault) }
{
    let mut source = SliceSource::new(bytes, usize::MAX, &[]);
    let mut sink = GatheringSink::new(alloc);
    reconstruct_tiles(alloc, &mut source, &mut sink)?;
    Ok(sink.into_bytes())
}

/// Writes the planes of a grid of tiles to the front of the buffer. Returns their length in bytes.
///
/// # Errors
///
/// The errors of `tiles_planes`, then `RoomTooSmall`. `Memory` may also replace `RoomTooSmall`.
fn tiles_into(alloc: Global, bytes: &[u8], room: &mut [u8]) -> Result<usize, PartFault>
    ensures written { IfOk result (λ count. (planes : List ℕ) × TilesComeTo bytes.now (Ok planes) × AreWritten planes room.old room.new count) }
    ensures fault { IfErr result (IsPartCause (TilesComeTo bytes.now) (length room.old)) }
    ensures kept { OnErr result (room.new ≡ room.old) }
{
    let planes = tiles_planes(alloc, bytes)?;
    put_front(&planes, room)
}

/// Reconstructs a grid of tiles and writes the visible planes of its frame to the front of `room`. `bytes` is the grid.
/// The planes are Y, U and V, each row by row. A sample has one byte at depth 8, else two, the low byte first.
/// `written` becomes the length of the planes in bytes.
///
/// `DONE`: success. `TOO_LONG`: there are more than 2^26 bytes. `MALFORMED`: the bytes are not a valid grid of tiles;
/// the bad field begins at `refusal.at`. `MALFORMED_PART`: tile `refusal.part` is not valid; the bad field begins at
/// byte `refusal.at` of its part. `INVALID_PART`: leaf `refusal.leaf` of tile `refusal.part` is rejected for reason
/// `refusal.kind`. `ROOM_TOO_SMALL`: the planes are longer than `room`, and `written` becomes
/// their length. `OUT_OF_MEMORY`: memory ran out.
#[unsafe(no_mangle)]
pub extern "C" fn tilg_reconstruct_tiles(
    alloc: Global,
    room: &mut [u8],
    written: &mut usize,
    refusal: &mut PartRefusal,
    bytes: &[u8],
) -> u32
    ensures { PutsPlanes (TilesComeTo bytes.now) room.old room.new written.old written.new refusal.old refusal.new result }
{
    match tiles_into(alloc, bytes, room) {
        Ok(count) => {
            *written = count;
            DONE
        }
        Err(fault) => {
            fault.tell_length(written);
            fault.tell(refusal)
        }
    }
}
