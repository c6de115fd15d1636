//! The C call that lists where planes differ from a plan. Writes `room`, `found` and `refusal`, and allocates.
ghost use Rattle.std.specs.Prelude.{◌≡◌, true, ◌++◌, ◌<◌, ◌≤◌, IfOk, None, OnOk, length, map, slice_index_or};
ghost use Rattle.av1_c.specs.TraceCalls.{AreGiven, IsGiven, ListsDifferences, ListsOf, difference_numbers, given, given_differences, given_of};
ghost use Rattle.av1_c.specs.TraceCalls.{given_plane, listed, planes_in, rows_in, visible_rows};
ghost use Rattle.av1_calls.specs.Samples.{AreHeld};
ghost use Rattle.av1_plan.specs.ReadPlans.{IsReadFrame};
ghost use Rattle.av1_plan.specs.Validity.{first_fault};
ghost use Rattle.av1_plan.specs.Values.{plan_value};
ghost use Rattle.av1_trace.specs.Samples.{sample_len};

use crate::fault::Refusal;
use crate::reconstruct::read;
use crate::status::OUT_OF_MEMORY;
use av1_blocks::OutOfMemory;
use av1_calls::{BAD_AREA, DONE, is_readable};
use av1_frame::StoredArea;
use av1_plan::{Header, Plan};
use av1_trace::{Difference, compare, planes_len};
use std::alloc::Global;

/// The first sample of a leaf in a plane that differs from the sample of the plan.
#[repr(C)]
#[derive(Clone, Copy, Debug, PartialEq, Eq)]
pub struct TraceDifference {
    /// The leaf, counted from 0 in coding order.
    pub leaf: u32,
    /// The row of the sample in its plane.
    pub row: u16,
    /// The column of the sample in its plane.
    pub column: u16,
    /// The sample of the given plane, of up to 16 bits whatever the depth.
    pub given: u16,
    /// The sample that the plan has by definition.
    pub defined: u16,
    /// 0 for Y, 1 for U and 2 for V.
    pub plane: u8,
}

/// The bytes of each plane, and how many bytes apart its rows begin.
#[derive(Clone, Copy)]
struct GivenPlanes<'a> {
    y: &'a [u8],
    y_stride: usize,
    u: &'a [u8],
    u_stride: usize,
    v: &'a [u8],
    v_stride: usize,
}

fn difference_numbers(difference: Difference) -> TraceDifference
    ensures { result ≡ difference_numbers difference }
{
    TraceDifference {
        leaf: difference.leaf,
        row: difference.row,
        column: difference.column,
        given: difference.given,
        defined: difference.defined,
        plane: difference.plane,
    }
}

fn difference_at(list: &[Difference], i: usize) -> Difference
    requires { i < length list.now }
    ensures { result ≡ slice_index_or list.now i result }
{
    list[i]
}

// Writes the differences to the front of the buffer, as many as fit.
fn put_differences(list: &[Difference], room: &mut [TraceDifference])
    ensures { room.new ≡ listed (map difference_numbers list.now) room.old }
{
    for i in 0..list.len().min(room.len()) {
        room[i] = difference_numbers(difference_at(list, i));
    }
}

// How many bytes a sample of this depth has.
#[tactic(auto, unfolding(av1_trace::specs::Samples::sample_len))]
fn sample_len(depth: u8) -> usize
    ensures value { result ≡ sample_len depth }
    ensures small { result ≤ 2 }
{
    if depth == 8 { 1 } else { 2 }
}

// The visible rows of plane `p`, in bytes.
fn visible_rows(header: &Header, p: usize) -> StoredArea
    ensures { result ≡ visible_rows header.now p }
{
    StoredArea {
        x: 0,
        y: 0,
        width: sample_len(header.depth) * header.shown_columns(p),
        height: header.shown_rows(p),
    }
}

// Whether the visible rows of plane `p` lie in these bytes.
fn is_given(header: &Header, p: usize, bytes: &[u8], stride: usize) -> bool
    ensures true_is { result ≡ true → IsGiven header.now p bytes.now stride }
    ensures is_true { IsGiven header.now p bytes.now stride → result ≡ true }
{
    is_readable(stride, visible_rows(header, p), bytes.len())
}

// Whether the visible rows of all planes lie in their bytes.
fn are_given(header: &Header, planes: GivenPlanes<'_>) -> bool
    ensures true_is { result ≡ true → AreGiven header.now (given_of planes.entry) }
    ensures is_true { AreGiven header.now (given_of planes.entry) → result ≡ true }
{
    is_given(header, 0, planes.y, planes.y_stride)
        && is_given(header, 1, planes.u, planes.u_stride)
        && is_given(header, 2, planes.v, planes.v_stride)
}

// Appends the rows of a rectangle, one after the other.
fn push_rows(
    rows: &mut Vec<u8>,
    bytes: &[u8],
    stride: usize,
    area: StoredArea,
) -> Result<(), OutOfMemory>
    requires { AreHeld stride area (length bytes.now) }
    ensures { OnOk result (rows.new.items ≡ rows.old.items ++ rows_in stride area bytes.now area.height) }
{
    for r in 0..area.height {
        let start = (area.y + r) * stride + area.x;
        rows.extend_from_slice(&bytes[start..start + area.width])?;
    }
    Ok(())
}

// Appends the visible rows of plane `p`.
fn push_plane(
    rows: &mut Vec<u8>,
    header: &Header,
    p: usize,
    bytes: &[u8],
    stride: usize,
) -> Result<(), OutOfMemory>
    requires { IsGiven header.now p bytes.now stride }
    ensures { OnOk result (rows.new.items ≡ rows.old.items ++ given_plane header.now p bytes.now stride) }
{
    push_rows(rows, bytes, stride, visible_rows(header, p))
}

// The visible rows of all planes, one after the other.
fn gathered(alloc: Global, header: &Header, planes: GivenPlanes<'_>) -> Result<Vec<u8>, OutOfMemory>
    requires frame { IsReadFrame header.now }
    requires given { AreGiven header.now (given_of planes) }
    ensures { IfOk result (λ rows. rows.items ≡ planes_in header.now (given_of planes.entry)) }
{
    let mut rows = Vec::with_capacity(alloc, planes_len(header))?;
    push_plane(&mut rows, header, 0, planes.y, planes.y_stride)?;
    push_plane(&mut rows, header, 1, planes.u, planes.u_stride)?;
    push_plane(&mut rows, header, 2, planes.v, planes.v_stride)?;
    Ok(rows)
}

// The differences between a valid plan and planes that are given.
fn compare_given(
    alloc: Global,
    plan: &Plan,
    planes: GivenPlanes<'_>,
) -> Result<Vec<Difference>, OutOfMemory>
    requires valid { first_fault (plan_value plan.now) ≡ None }
    requires given { AreGiven (plan_value plan.now).header (given_of planes) }
    ensures { IfOk result (λ list. list.items ≡ given_differences (plan_value plan.now) (given_of planes.entry)) }
{
    let rows = gathered(alloc, plan.header(), planes)?;
    compare(alloc, plan, &rows)
}

// Lists the differences between a valid plan and planes.
fn list_differences(
    alloc: Global,
    plan: &Plan,
    planes: GivenPlanes<'_>,
    room: &mut [TraceDifference],
    found: &mut usize,
) -> u32
    requires valid { first_fault (plan_value plan.now) ≡ None }
    ensures { ListsOf (plan_value plan.now) (given_of planes.entry) room.old room.new found.old found.new result }
{
    if !are_given(plan.header(), planes) {
        return BAD_AREA;
    }
    match compare_given(alloc, plan, planes) {
        Ok(list) => {
            put_differences(&list, room);
            *found = list.len();
            DONE
        }
        Err(_) => OUT_OF_MEMORY,
    }
}

/// Compares the planes of a plan with planes in another encoder's memory. `bytes` is the plan. `y`, `u` and `v` are the
/// bytes of the planes, from the first visible sample on, and rows begin `y_stride`, `u_stride` and `v_stride` bytes
/// apart. A sample has one byte at depth 8, else two, the low byte first. Only the bytes of the visible rows are read.
/// `found` becomes the number of differences, and `room` begins with the differences, as many as fit. The rest of
/// `room` is unchanged.
///
/// There is at most one difference for each leaf and plane: the first visible sample of the leaf's rectangle, in raster
/// order, that differs. The list follows the coding order of the leaves, and for each leaf Y, U and V.
///
/// `DONE`: success; without differences the planes are those of the plan. `TOO_LONG`: there are more than 2^26 bytes.
/// `MALFORMED`: the bytes are not a valid plan; the bad field begins at `refusal.at`. `INVALID`: leaf `refusal.leaf` is
/// rejected for reason `refusal.kind`. `BAD_AREA`: visible rows of a plane do not lie in its bytes, or are longer than
/// the stride. `OUT_OF_MEMORY`: memory ran out.
#[unsafe(no_mangle)]
pub extern "C" fn tilg_trace_differences(
    alloc: Global,
    room: &mut [TraceDifference],
    found: &mut usize,
    refusal: &mut Refusal,
    bytes: &[u8],
    y: &[u8],
    y_stride: usize,
    u: &[u8],
    u_stride: usize,
    v: &[u8],
    v_stride: usize,
) -> u32
    ensures { ListsDifferences bytes.now (given y.now y_stride u.now u_stride v.now v_stride) room.old room.new found.old found.new refusal.old refusal.new
        result }
{
    let planes = GivenPlanes {
        y,
        y_stride,
        u,
        u_stride,
        v,
        v_stride,
    };
    match read(alloc, bytes) {
        Ok(plan) => list_differences(alloc, &plan, planes, room, found),
        Err(fault) => fault.tell(refusal),
    }
}
