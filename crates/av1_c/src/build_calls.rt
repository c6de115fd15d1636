//! C calls that append a header, planes or a mark. Write the caller's builder and buffer; do not allocate.

ghost use Rattle.std.specs.Prelude.{◌≡◌, ◌≢◌, true, length, OnErr, OnOk};
ghost use Rattle.av1_plan.specs.Plan.{PlanValue};
ghost use Rattle.av1_planwrite.specs.Building.{Tells, begun, header_refusal, mark_refusal, plan_begun, plan_with_reference, reference_refusal};
ghost use Rattle.av1_planwrite.specs.Building.{with_mark, with_reference};
ghost use Rattle.av1_c.specs.BuildFaults.{answered, asked_status};
ghost use Rattle.av1_c.specs.Builders.{Hold, header_of, is_builder, plan_of};

use crate::appending::{append, append_planes};
use crate::build_fault::{BuildFault, answer};
use crate::builder::Builder;
use crate::plan_header::PlanHeader;
use av1_calls::DONE;
use av1_planwrite::{BuildError, Progress, header_fields};

// ---- the header

/// Begins a plan: writes the header's fields to the front of the buffer.
///
/// # Errors
///
/// `NotAdmitted`, then `TooLong`, then `RoomTooSmall`.
fn begin(header: &PlanHeader, builder: &mut Builder, room: &mut [u8]) -> Result<(), BuildFault>
    ensures holds { OnOk result (Hold builder.new room.new room.old (begun (header_of header.now))) }
    ensures status { answered result ≡ asked_status true (header_refusal (header_of header.now)) 20 (length room.old) }
    ensures told { OnOk result (Tells (plan_of builder.new room.new) (plan_begun (header_of header.now))) }
    ensures kept { OnErr result ((builder.new ≡ builder.old) × (room.new ≡ room.old)) }
{
    let fields = header.header();
    let Some(progress) = Progress::new(&fields) else {
        return Err(BuildFault::Refused(BuildError::NotAdmitted));
    };
    let end = append(room, 0, &header_fields(&fields))?;
    *builder = Builder::stopped(*header, &progress.state(), end);
    Ok(())
}

/// Begins a plan with this header. The first 20 bytes of `room` become the header's fields. `builder` may hold anything
/// before the call.
///
/// `DONE`: success. `NOT_ADMITTED`: a value of the header is not valid. `ROOM_TOO_SMALL`: the fields don't fit `room`.
#[unsafe(no_mangle)]
pub extern "C" fn tilg_builder_begin(
    builder: &mut Builder,
    room: &mut [u8],
    header: &PlanHeader,
) -> u32
    // The plan has exactly the fields of this header.
    ensures done { result ≡ DONE → Hold builder.new room.new room.old (begun (header_of header.now)) }
    // The header and the length of the buffer decide the status.
    ensures status { result ≡ asked_status true (header_refusal (header_of header.now)) 20 (length room.old) }
    // The bytes spell the header of a plan.
    ensures told { result ≡ DONE → Tells (plan_of builder.new room.new) (plan_begun (header_of header.now)) }
    // After each other status the builder and the buffer are unchanged.
    ensures kept { result ≢ DONE → (builder.new ≡ builder.old) × (room.new ≡ room.old) }
{
    answer(begin(header, builder, room))
}

// ---- planes

/// Appends the planes of the next slot of the mask.
///
/// # Errors
///
/// `BadState`, then `NotNow`, then `NotAdmitted`, then `TooLong`, then `RoomTooSmall`.
fn give_reference(
    builder: &mut Builder,
    room: &mut [u8],
    y: &[u16],
    u: &[u16],
    v: &[u16],
) -> Result<(), BuildFault>
    ensures holds { OnOk result (Hold builder.new room.new room.old (with_reference (plan_of builder.old room.old) y.now u.now v.now)) }
    ensures status { answered result ≡ asked_status (is_builder builder.old (length room.old))
        (reference_refusal (plan_of builder.old room.old) y.now u.now v.now) (length (with_reference (plan_of builder.old room.old) y.now u.now v.now).bytes)
        (length room.old) }
    ensures told { (p : PlanValue) → Tells (plan_of builder.old room.old) p →
        OnOk result (Tells (plan_of builder.new room.new) (plan_with_reference p y.now u.now v.now)) }
    ensures kept { OnErr result ((builder.new ≡ builder.old) × (room.new ≡ room.old)) }
{
    let mut progress = builder.progress(room.len())?;
    progress.check_reference(y, u, v)?;
    let end = append_planes(room, builder.written, builder.header.depth, y, u, v)?;
    progress.pass_reference();
    *builder = Builder::stopped(builder.header, &progress.state(), end);
    Ok(())
}

/// Appends the planes of the next slot of the mask, each row by row, to the bytes in `room`.
///
/// `DONE`: success. `NOT_NOW`: the plan needs no planes next. `NOT_ADMITTED`: a plane has the wrong number of samples,
/// or one of its samples is not below `1 << depth`. `TOO_LONG`: there would be more than 2^26 bytes. `ROOM_TOO_SMALL`:
/// the bytes would not fit `room`. `BAD_STATE`: `builder` is not a valid builder over `room`.
#[unsafe(no_mangle)]
pub extern "C" fn tilg_builder_reference(
    builder: &mut Builder,
    room: &mut [u8],
    y: &[u16],
    u: &[u16],
    v: &[u16],
) -> u32
    // The call appends exactly these planes.
    ensures done { result ≡ DONE → Hold builder.new room.new room.old (with_reference (plan_of builder.old room.old) y.now u.now v.now) }
    // The plan so far, the planes and the length of the buffer decide the status.
    ensures status { result ≡ asked_status (is_builder builder.old (length room.old)) (reference_refusal (plan_of builder.old room.old) y.now u.now v.now)
        (length (with_reference (plan_of builder.old room.old) y.now u.now v.now).bytes) (length room.old) }
    // If the bytes before spell a part of a plan, the bytes after spell this part with these planes.
    ensures told { (p : PlanValue) → Tells (plan_of builder.old room.old) p → result ≡ DONE →
        Tells (plan_of builder.new room.new) (plan_with_reference p y.now u.now v.now) }
    // After each other status the builder and the buffer are unchanged.
    ensures kept { result ≢ DONE → (builder.new ≡ builder.old) × (room.new ≡ room.old) }
{
    answer(give_reference(builder, room, y, u, v))
}

// ---- marks

/// Appends the mark of the next node.
///
/// # Errors
///
/// `BadState`, then `NotNow`, then `NotAdmitted`, then `TooLong`, then `RoomTooSmall`.
fn give_mark(builder: &mut Builder, room: &mut [u8], mark: u8) -> Result<(), BuildFault>
    ensures holds { OnOk result (Hold builder.new room.new room.old (with_mark (plan_of builder.old room.old) mark)) }
    ensures status { answered result ≡ asked_status (is_builder builder.old (length room.old)) (mark_refusal (plan_of builder.old room.old) mark)
        (length (with_mark (plan_of builder.old room.old) mark).bytes) (length room.old) }
    ensures told { (p : PlanValue) → Tells (plan_of builder.old room.old) p → OnOk result (Tells (plan_of builder.new room.new) p) }
    ensures kept { OnErr result ((builder.new ≡ builder.old) × (room.new ≡ room.old)) }
{
    let mut progress = builder.progress(room.len())?;
    progress.check_mark(mark)?;
    let end = append(room, builder.written, &[mark])?;
    progress.pass_mark(mark);
    *builder = Builder::stopped(builder.header, &progress.state(), end);
    Ok(())
}

/// Appends the mark of the next node to the bytes in `room`.
///
/// `DONE`: success. `NOT_NOW`: the plan needs no mark next. `NOT_ADMITTED`: the node can't have this mark. `TOO_LONG`:
/// there would be more than 2^26 bytes. `ROOM_TOO_SMALL`: the bytes would not fit `room`. `BAD_STATE`: `builder` is not
/// a valid builder over `room`.
#[unsafe(no_mangle)]
pub extern "C" fn tilg_builder_mark(builder: &mut Builder, room: &mut [u8], mark: u8) -> u32
    // The call appends exactly this mark.
    ensures done { result ≡ DONE → Hold builder.new room.new room.old (with_mark (plan_of builder.old room.old) mark) }
    // The plan so far, the mark and the length of the buffer decide the status.
    ensures status { result ≡ asked_status (is_builder builder.old (length room.old)) (mark_refusal (plan_of builder.old room.old) mark)
        (length (with_mark (plan_of builder.old room.old) mark).bytes) (length room.old) }
    // If the bytes before spell a part of a plan, so do the bytes after.
    ensures told { (p : PlanValue) → Tells (plan_of builder.old room.old) p → result ≡ DONE → Tells (plan_of builder.new room.new) p }
    // After each other status the builder and the buffer are unchanged.
    ensures kept { result ≢ DONE → (builder.new ≡ builder.old) × (room.new ≡ room.old) }
{
    answer(give_mark(builder, room, mark))
}
