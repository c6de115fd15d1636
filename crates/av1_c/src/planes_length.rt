//! The C call that gives the length of a plan's planes. Writes `len` or `refusal`; does not allocate.
ghost use Rattle.std.specs.Prelude.{◌≡◌, ◌≢◌, ◌⊎◌, ◌↔◌, ℕ, ◌<◌, ◌≤◌, length, Err, IfOk, IfErr, IsOkAnd, IsErrOf};
ghost use Rattle.av1_plan.specs.Plan.{PlanValue};
ghost use Rattle.av1_plan.specs.declared.header.Header.{Header};
ghost use Rattle.av1_recon.specs.Outcomes.{ArePlan, HasOutcome};
ghost use Rattle.av1_recon.specs.declared.error.ReconError.TheVariants as errors;
ghost use Rattle.av1_streams.specs.Streams.{max_plan_bytes};
ghost use Rattle.av1_tile.specs.Output.{planes_of};
ghost use Rattle.av1_trace.specs.Samples.{planes_len};
ghost use Rattle.av1_c.specs.Faults.{malformed_at};
ghost use Rattle.av1_c.specs.Plans.{BeginWith, IsHeaderFault};

use crate::fault::{PlanCallFault, Refusal};
use crate::status::{MALFORMED, TOO_LONG};
use av1_calls::DONE;
use av1_plan::Reader;
use av1_recon::MAX_PLAN_BYTES;
use av1_trace::planes_len;

/// The length of a plan's planes in bytes, from the header at the plan's front.
///
/// # Errors
///
/// `TooLong`, then `Malformed`.
fn wanted(bytes: &[u8]) -> Result<usize, PlanCallFault>
    ensures found { IfOk result (λ len. (header : Header) × BeginWith bytes.now header × (len ≡ planes_len header)) }
    ensures fault { IfErr result (IsHeaderFault bytes.now) }
    ensures too_long { max_plan_bytes < length bytes.now → IsErrOf result PlanCallFault.TooLong }
    ensures only { (header : Header) → BeginWith bytes.now header → length bytes.now ≤ max_plan_bytes
        → IsOkAnd result (λ len. len ≡ planes_len header) }
{
    if bytes.len() > MAX_PLAN_BYTES {
        return Err(PlanCallFault::TooLong);
    }
    let mut reader = Reader { rest: bytes, at: 0 };
    let header = reader.header()?;
    Ok(planes_len(&header))
}

/// Gives the length in bytes of the planes that [`tilg_reconstruct_plan`] writes. The call reads only the header at the
/// plan's front, and does not allocate.
///
/// `DONE`: `len` has the length. `TOO_LONG`: there are more than 2^26 bytes. `MALFORMED`: the header is not valid; its
/// bad field begins at `refusal.at`.
#[unsafe(no_mangle)]
pub extern "C" fn tilg_planes_len(len: &mut usize, refusal: &mut Refusal, bytes: &[u8]) -> u32
    // The bytes begin with a header, and `len` is the length of its planes.
    ensures done { result ≡ DONE → (header : Header) × BeginWith bytes.now header × (len.new ≡ planes_len header) }
    // The call gives the length of the planes of every plan.
    ensures plan { (value : PlanValue) → ArePlan bytes.now value → (result ≡ DONE) × (len.new ≡ length (planes_of value)) }
    // The bytes are rejected for this reason.
    ensures too_long { (result ≡ TOO_LONG) ↔ (max_plan_bytes < length bytes.now) }
    ensures malformed { result ≡ MALFORMED → (at : ℕ) × HasOutcome bytes.now (Err (errors.Malformed at)) × (refusal.new ≡ malformed_at at) }
    // If the bytes begin with a header, the call finds it.
    ensures header { (header : Header) → BeginWith bytes.now header → length bytes.now ≤ max_plan_bytes
        → (result ≡ DONE) × (len.new ≡ planes_len header) }
    // What the call does not set is unchanged.
    ensures kept { result ≢ DONE → len.new ≡ len.old }
    ensures untold { result ≢ MALFORMED → refusal.new ≡ refusal.old }
    ensures known { (result ≡ DONE) ⊎ ((result ≡ TOO_LONG) ⊎ (result ≡ MALFORMED)) }
{
    match wanted(bytes) {
        Ok(found) => {
            *len = found;
            DONE
        }
        Err(fault) => fault.tell(refusal),
    }
}
