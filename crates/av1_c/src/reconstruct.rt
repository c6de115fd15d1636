//! Reconstructs a plan, and writes its planes to the caller's memory. Also writes `written`, `refusal`; allocates.
ghost use Rattle.std.specs.Prelude.{◌≡◌, ◌≢◌, ◌⊎◌, ◌↔◌, ℕ, ◌<◌, ◌≤◌, None, length, Err, IfOk, IfErr, OnErr};
ghost use Rattle.av1_plan.specs.Values.{plan_value};
ghost use Rattle.av1_plan.specs.Validity.{first_fault};
ghost use Rattle.av1_plan.specs.declared.error.InvalidKind.{InvalidKind};
ghost use Rattle.av1_recon.specs.Outcomes.{ArePlan, HasOutcome, Outcome};
ghost use Rattle.av1_recon.specs.declared.error.ReconError.TheVariants as errors;
ghost use Rattle.av1_streams.specs.Streams.{max_plan_bytes};
ghost use Rattle.av1_tile.specs.Output.{planes_of};
ghost use Rattle.av1_c.specs.Faults.{malformed_at, invalid_leaf};
ghost use Rattle.av1_c.specs.Plans.{AreWritten, ComeToPlanes, IsCause, IsWritingFault, status_for};

use crate::fault::{PlanCallFault, Refusal};
use crate::status::{INVALID, MALFORMED, OUT_OF_MEMORY, TOO_LONG};
use av1_calls::{DONE, ROOM_TOO_SMALL};
use av1_plan::{Plan, check_plan, parse_plan};
use av1_recon::{MAX_PLAN_BYTES, MemSink, reconstruct_valid};
use av1_trace::planes_len;
use std::alloc::Global;

/// Reads and checks a plan.
///
/// # Errors
///
/// `TooLong`, then `Malformed`, then `Invalid`. `Memory` may replace the latter two.
pub(crate) fn read(alloc: Global, bytes: &[u8]) -> Result<Plan, PlanCallFault>
    ensures found { IfOk result (λ plan. ArePlan bytes.now (plan_value plan) × (first_fault (plan_value plan) ≡ None)) }
    ensures fault { IfErr result (λ fault. (room : ℕ) → IsCause bytes.now room fault) }
{
    if bytes.len() > MAX_PLAN_BYTES {
        return Err(PlanCallFault::TooLong);
    }
    let plan = parse_plan(alloc, bytes)?;
    check_plan(&plan)?;
    Ok(plan)
}

/// Writes the visible planes of a valid plan to the front of the buffer, and returns their length in bytes.
///
/// # Errors
///
/// `RoomTooSmall`, then `Memory`.
fn write_planes(alloc: Global, plan: &Plan, room: &mut [u8]) -> Result<usize, PlanCallFault>
    requires valid { first_fault (plan_value plan.now) ≡ None }
    ensures written { IfOk result (λ count. AreWritten (planes_of (plan_value plan.now)) room.old room.new count) }
    ensures fault { IfErr result (IsWritingFault (length (planes_of (plan_value plan.now))) (length room.old)) }
    ensures kept { OnErr result (room.new ≡ room.old) }
{
    let len = planes_len(plan.header());
    if room.len() < len {
        return Err(PlanCallFault::RoomTooSmall { len });
    }
    let mut sink = MemSink::new(alloc, len, usize::MAX, &[])?;
    match reconstruct_valid(alloc, plan, &mut sink) {
        Ok(()) => {
            room[..len].copy_from_slice(sink.bytes());
            Ok(len)
        }
        // The sink has room for all planes, so a write can only fail if memory runs out.
        Err(_) => Err(PlanCallFault::Memory),
    }
}

/// Reads a plan and writes its visible planes to the front of the buffer. Returns their length in bytes.
///
/// # Errors
///
/// `TooLong`, then `Malformed`, then `Invalid`, then `RoomTooSmall`. `Memory` may replace any but the first.
fn reconstruct_into(alloc: Global, bytes: &[u8], room: &mut [u8]) -> Result<usize, PlanCallFault>
    ensures written { IfOk result (λ count. ComeToPlanes bytes.now (λ planes. AreWritten planes room.old room.new count)) }
    ensures fault { IfErr result (IsCause bytes.now (length room.old)) }
    ensures kept { OnErr result (room.new ≡ room.old) }
{
    let plan = read(alloc, bytes)?;
    write_planes(alloc, &plan, room)
}

/// Reconstructs a plan and writes its visible planes to the front of `room`. `bytes` is the plan. The planes are Y, U
/// and V, each row by row. A sample has one byte at depth 8, else two, the low byte first. `written` becomes the length
/// of the planes in bytes.
///
/// `DONE`: success. `TOO_LONG`: there are more than 2^26 bytes. `MALFORMED`: the bytes are not a valid plan; the bad
/// field begins at `refusal.at`. `INVALID`: leaf `refusal.leaf` is rejected for reason `refusal.kind`.
/// `ROOM_TOO_SMALL`: the planes are longer than `room`, and `written` becomes their length. `OUT_OF_MEMORY`: memory ran
/// out.
#[unsafe(no_mangle)]
pub extern "C" fn tilg_reconstruct_plan(
    alloc: Global,
    room: &mut [u8],
    written: &mut usize,
    refusal: &mut Refusal,
    bytes: &[u8],
) -> u32
    // The bytes are a valid plan. The front of the buffer is its planes by the slow definition, and the rest of the
    // buffer is unchanged.
    ensures done { result ≡ DONE → ComeToPlanes bytes.now (λ planes. AreWritten planes room.old room.new written.new) }
    // The bytes are rejected for this reason.
    ensures too_long { (result ≡ TOO_LONG) ↔ (max_plan_bytes < length bytes.now) }
    ensures malformed { result ≡ MALFORMED → (at : ℕ) × HasOutcome bytes.now (Err (errors.Malformed at)) × (refusal.new ≡ malformed_at at) }
    ensures invalid { result ≡ INVALID →
        (leaf : ℕ) × ((kind : InvalidKind) × HasOutcome bytes.now (Err (errors.Invalid leaf kind)) × (refusal.new ≡ invalid_leaf leaf kind)) }
    // The bytes are a valid plan, its planes are longer than the buffer, and the call gives their length.
    ensures small { result ≡ ROOM_TOO_SMALL → ComeToPlanes bytes.now (λ planes. (length room.old < length planes) × (written.new ≡ length planes)) }
    // The bytes and the length of the buffer decide the status, unless memory runs out.
    ensures exactly { (outcome : Outcome) → HasOutcome bytes.now outcome → (result ≡ status_for (length room.old) outcome) ⊎ (result ≡ OUT_OF_MEMORY) }
    // What the call does not set is unchanged.
    ensures kept { result ≢ DONE → room.new ≡ room.old }
    ensures uncounted { result ≢ DONE → result ≢ ROOM_TOO_SMALL → written.new ≡ written.old }
    ensures untold { result ≢ MALFORMED → result ≢ INVALID → refusal.new ≡ refusal.old }
    ensures known { result ≤ INVALID }
{
    match reconstruct_into(alloc, bytes, room) {
        Ok(count) => {
            *written = count;
            DONE
        }
        Err(fault) => {
            fault.tell_length(written);
            fault.tell(refusal)
        }
    }
}
