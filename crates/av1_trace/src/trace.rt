//! Reads a trace (a plan, and planes to compare) from a source, and writes its differences to a sink. Allocates.
ghost use Rattle.std.specs.Prelude.{◌≡◌, ◌≢◌, ◌<◌, ◌≤◌, ◌^◌, ℕ, List, IfOk, IfErr, length};
ghost use Rattle.av1_plan.specs.Values.{plan_value};
ghost use Rattle.av1_plan.specs.Plan.{PlanValue};
ghost use Rattle.av1_streams.specs.Streams.{max_plan_bytes};
ghost use Rattle.av1_streams.specs.Tasks.{WritesBytes};
ghost use Rattle.av1_trace.specs.Checking.{Checks, ReadsTrace, cause};
ghost use Rattle.av1_trace.specs.DifferenceLines.{difference_lines};
ghost use Rattle.av1_trace.specs.Differences.{differences};
ghost use Rattle.av1_trace.specs.Traces.{AreRefusedFor, HasParts, IsMalformedAt, IsPlanFault, IsTrace, IsValidPlan, max_trace_bytes};
ghost use Rattle.av1_trace.specs.declared.error.TraceError.TheVariants.{Malformed, Memory};

use crate::{Difference, TraceError, compare, planes_len, write_differences};
use av1_plan::{Plan, check_plan, parse_plan};
use av1_streams::{MAX_PLAN_BYTES, Sink, Source, read_bytes};
use std::alloc::Global;

/// The greatest length of a trace in bytes: 128 MiB.
pub const MAX_TRACE_BYTES: usize = 1 << 27;

// The bytes before the plan: four letters, and the length of the plan.
const HEAD: usize = 8;

/// A valid plan, and the bytes of its planes from another encoder.
#[derive(Drop)]
pub struct Trace<'a> {
    /// The plan.
    pub plan: Plan,
    /// The bytes of its planes, as many as the plan's planes have.
    pub planes: &'a [u8],
}

// The parts of a trace, before they are parsed.
#[derive(Clone, Copy)]
struct TraceParts<'a> {
    // The bytes of its plan.
    plan: &'a [u8],
    // The bytes of its planes.
    planes: &'a [u8],
}

/// Reads a trace from the source to its end, as [`parse_trace`] takes it. Appends lines on its differences to the sink,
/// as [`write_differences`] does. Returns the number of differences.
///
/// # Errors
///
/// The errors are tested in this order:
///
/// - `ReadFault` and `TooLong` while the call reads.
/// - `Malformed` for the letters, the length or a plan that is cut off.
/// - `Plan`.
/// - `Malformed` for planes of the wrong length.
/// - `WriteFault`.
///
/// `Memory` may replace any of them, before the first byte is written.
pub fn check_trace<R: Source, W: Sink>(
    alloc: Global,
    source: &mut R,
    sink: &mut W,
) -> Result<u32, TraceError>
    ensures { Checks R.left R.faults W.taken W.faults source.old source.new sink.old sink.new result }
{
    let list = read_differences(alloc, source)?;
    count_differences(&list, sink)
}

// Reads a trace, and compares it.
fn read_differences<R: Source>(alloc: Global, source: &mut R) -> Result<Vec<Difference>, TraceError>
    ensures reads { ReadsTrace R.left R.faults source.old source.new result }
    ensures few { IfOk result (λ list. length list.items < 2 ^ 32) }
{
    let bytes = read_bytes(alloc, source, MAX_TRACE_BYTES)?;
    trace_differences(alloc, &bytes)
}

// Appends lines on differences, and returns the number of differences.
fn count_differences<W: Sink>(list: &[Difference], sink: &mut W) -> Result<u32, TraceError>
    requires few { length list.now < 2 ^ 32 }
    ensures count { IfOk result (λ count. count ≡ length list.now) }
    ensures writes { WritesBytes cause W.taken W.faults sink.old sink.new (difference_lines list.now) result }
{
    write_differences(list, sink)?;
    Ok(list.len() as u32)
}

/// The differences of a trace from its bytes, as [`compare`] lists them.
///
/// # Errors
///
/// The errors of [`parse_trace`].
pub fn trace_differences(alloc: Global, bytes: &[u8]) -> Result<Vec<Difference>, TraceError>
    requires short { length bytes.now ≤ max_trace_bytes }
    ensures found { IfOk result (λ list. (value : PlanValue) × (planes : List ℕ) × IsTrace bytes.now value planes × (list.items ≡ differences value planes)) }
    ensures few { IfOk result (λ list. length list.items < 2 ^ 32) }
    ensures refused { IfErr result (λ e. e ≢ Memory → AreRefusedFor bytes.now e) }
{
    let trace = parse_trace(alloc, bytes)?;
    Ok(compare(alloc, &trace.plan, trace.planes)?)
}

/// Reads a trace from its bytes. These are the letters `RTR1`, the length of the plan in four bytes, the low byte
/// first, the plan, and the planes, as [`compare`] takes them.
///
/// # Errors
///
/// First `Malformed` for the letters, the length or a plan that is cut off, then `Plan`, then `Malformed` for planes of
/// the wrong length. `Memory` may replace any of them.
pub fn parse_trace(alloc: Global, bytes: &[u8]) -> Result<Trace<'_>, TraceError>
    requires short { length bytes.now ≤ max_trace_bytes }
    ensures found { IfOk result (λ trace. IsTrace bytes.now (plan_value trace.plan) trace.planes.now) }
    ensures refused { IfErr result (λ e. e ≢ Memory → AreRefusedFor bytes.now e) }
{
    let parts = trace_parts(bytes)?;
    let plan = valid_plan(alloc, parts.plan)?;
    let len = planes_len(plan.header());
    let behind = HEAD + parts.plan.len();
    if parts.planes.len() < len {
        return Err(malformed(behind));
    }
    if parts.planes.len() > len {
        return Err(malformed(behind + len));
    }
    Ok(Trace {
        plan,
        planes: parts.planes,
    })
}

// The error for a bad field at this byte.
fn malformed(at: usize) -> TraceError
    requires { at ≤ max_trace_bytes }
    ensures { result ≡ Malformed at }
{
    TraceError::Malformed { at: at as u32 }
}

// The plan and the planes of a trace.
fn trace_parts(bytes: &[u8]) -> Result<TraceParts<'_>, TraceError>
    requires short { length bytes.now ≤ max_trace_bytes }
    ensures found { IfOk result (λ parts. HasParts bytes.now parts.plan.now parts.planes.now) }
    ensures refused { IfErr result (λ e. (at : ℕ) × (e ≡ Malformed at) × IsMalformedAt bytes.now at) }
{
    if !bytes.starts_with(b"RTR1") {
        return Err(malformed(0));
    }
    if bytes.len() < HEAD {
        return Err(malformed(4));
    }
    let len = u32::from_le_bytes([bytes[4], bytes[5], bytes[6], bytes[7]]) as usize;
    if len > MAX_PLAN_BYTES {
        return Err(malformed(4));
    }
    if bytes.len() - HEAD < len {
        return Err(malformed(HEAD));
    }
    let (plan, planes) = bytes[HEAD..].split_at(len);
    Ok(TraceParts { plan, planes })
}

// Reads a valid plan from its bytes.
fn valid_plan(alloc: Global, bytes: &[u8]) -> Result<Plan, TraceError>
    requires short { length bytes.now ≤ max_plan_bytes }
    ensures found { IfOk result (λ plan. IsValidPlan bytes.now (plan_value plan)) }
    ensures refused { IfErr result (λ e. e ≢ Memory → IsPlanFault bytes.now e) }
{
    let plan = parse_plan(alloc, bytes)?;
    check_plan(&plan)?;
    Ok(plan)
}
