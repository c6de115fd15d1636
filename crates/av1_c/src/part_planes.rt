//! Copies planes to the front of the caller's buffer, if they fit. Does not allocate.
ghost use Rattle.std.specs.Prelude.{◌≡◌, ◌<◌, IfOk, IfErr, OnErr, length};
ghost use Rattle.av1_c.specs.Plans.{AreWritten};
ghost use Rattle.av1_c.specs.declared.part_fault.PartFault.TheVariants.{RoomTooSmall};

use crate::part_fault::PartFault;

/// Writes planes to the front of the buffer, and returns their length in bytes.
///
/// # Errors
///
/// `RoomTooSmall`.
pub fn put_front(planes: &[u8], room: &mut [u8]) -> Result<usize, PartFault>
    ensures written { IfOk result (λ count. AreWritten planes.now room.old room.new count) }
    ensures small { IfErr result (λ fault. (fault ≡ RoomTooSmall (length planes.now)) × (length room.old < length planes.now)) }
    ensures kept { OnErr result (room.new ≡ room.old) }
{
    let len = planes.len();
    if room.len() < len {
        return Err(PartFault::RoomTooSmall { len });
    }
    room[..len].copy_from_slice(planes);
    Ok(len)
}
