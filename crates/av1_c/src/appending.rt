//! Appends bytes and planes to the bytes of a plan, in the caller's buffer. Does not allocate.

ghost use Rattle.std.specs.Prelude.{◌≡◌, ◌<◌, ◌≤◌, ◌+◌, ◌++◌, ◌^◌, length, IfErr, IfOk, OnErr};
ghost use Rattle.av1_planwrite.specs.Text.{plane_text};
ghost use Rattle.av1_planwrite.specs.declared.error.BuildError.TheVariants.{TooLong};
ghost use Rattle.av1_c.specs.Builders.{AreAppended, room_fault};
ghost use Rattle.av1_c.specs.declared.build_fault.BuildFault.TheVariants as faults;

use crate::build_fault::BuildFault;
use av1_planwrite::{BuildError, put_planes, slot_len};
use av1_streams::MAX_PLAN_BYTES;

/// The offset of the end if `len` bytes are appended to the first `written` bytes of the buffer.
///
/// # Errors
///
/// `TooLong` if the end is above 2^26, then `RoomTooSmall`.
pub fn end_of(room: &[u8], written: usize, len: usize) -> Result<usize, BuildFault>
    requires written { written ≤ length room.now }
    requires len { len < 2 ^ 62 }
    ensures end { IfOk result (λ end. end ≡ written + len) }
    ensures fits { IfOk result (λ end. end ≤ length room.now) }
    ensures short { IfOk result (λ end. end ≤ 2 ^ 26) }
    ensures fault { IfErr result (λ fault. fault ≡ room_fault (written + len)) }
    ensures small { IfErr result (λ fault. fault ≡ faults.RoomTooSmall → length room.now < written + len) }
{
    let end = written + len;
    if end > MAX_PLAN_BYTES {
        return Err(BuildFault::Refused(BuildError::TooLong));
    }
    if end > room.len() {
        return Err(BuildFault::RoomTooSmall);
    }
    Ok(end)
}

/// Appends bytes to the first `written` bytes of the buffer. Returns how many bytes there are then.
///
/// # Errors
///
/// `TooLong` if there would be more than 2^26 bytes, then `RoomTooSmall`.
pub fn append(room: &mut [u8], written: usize, bytes: &[u8]) -> Result<usize, BuildFault>
    requires written { written ≤ length room.old }
    requires few { length bytes.now < 2 ^ 62 }
    ensures appended { IfOk result (λ end. AreAppended room.old room.new bytes.now written end) }
    ensures fault { IfErr result (λ fault. fault ≡ room_fault (written + length bytes.now)) }
    ensures small { IfErr result (λ fault. fault ≡ faults.RoomTooSmall → length room.old < written + length bytes.now) }
    ensures kept { OnErr result (room.new ≡ room.old) }
{
    let end = end_of(room, written, bytes.len())?;
    let (_, free) = room.split_at_mut(written);
    let (next, _) = free.split_at_mut(bytes.len());
    next.copy_from_slice(bytes);
    Ok(end)
}

/// Appends the planes of a slot. Returns how many bytes there are then.
///
/// # Errors
///
/// `TooLong`, then `RoomTooSmall`.
pub fn append_planes(
    room: &mut [u8],
    written: usize,
    depth: u8,
    y: &[u16],
    u: &[u16],
    v: &[u16],
) -> Result<usize, BuildFault>
    requires written { written ≤ length room.old }
    requires few { (length y.now ≤ 2 ^ 22) × (length u.now ≤ 2 ^ 22) × (length v.now ≤ 2 ^ 22) }
    ensures appended { IfOk result
        (λ end. AreAppended room.old room.new (plane_text depth y.now ++ plane_text depth u.now ++ plane_text depth v.now) written end) }
    ensures fault { IfErr result (λ fault. fault ≡ room_fault (written + length (plane_text depth y.now ++ plane_text depth u.now ++ plane_text depth v.now))) }
    ensures small { IfErr result (λ fault. fault ≡ faults.RoomTooSmall →
        length room.old < written + length (plane_text depth y.now ++ plane_text depth u.now ++ plane_text depth v.now)) }
    ensures kept { OnErr result (room.new ≡ room.old) }
{
    let len = slot_len(depth, y, u, v);
    let end = end_of(room, written, len)?;
    let (_, free) = room.split_at_mut(written);
    let (next, _) = free.split_at_mut(len);
    put_planes(next, depth, y, u, v);
    Ok(end)
}
