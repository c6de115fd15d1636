//! Reconstructs a plan, and lists where another encoder's planes differ. Allocates the planes and the list.

ghost use Rattle.std.specs.Prelude.{◌≡◌, ◌≢◌, ◌↔◌, ℕ, ◌+◌, ◌-◌, ◌*◌, ◌<◌, ◌≤◌, ◌++◌, [], None, IfOk, IfNone, IfSome, OnOk, Some, length, map};
ghost use Rattle.std.specs.Prelude.{slice_index};
ghost use Rattle.av1_plan.specs.Values.{plan_value, stored_triples};
ghost use Rattle.av1_plan.specs.Plan.{leaf_value};
ghost use Rattle.av1_plan.specs.Validity.{first_fault};
ghost use Rattle.av1_tile.specs.Output.{planes_of};
ghost use Rattle.av1_tile.specs.State.{IsSound, ShowsRows, state_header};
ghost use Rattle.av1_plan.specs.Geometry.{shown_rows, shown_columns};
ghost use Rattle.av1_trace.specs.Differences.{differences, first_difference, leaf_differences, plane_differences};
ghost use Rattle.av1_trace.specs.Rows.{AgreeFrom, IsOther};
ghost use Rattle.av1_trace.specs.Samples.{planes_len, sample_from, sample_len};

use crate::Difference;
use crate::samples::{given_row, sample_from};
use av1_blocks::OutOfMemory;
use av1_frame::Pixel;
use av1_plan::{Leaf, Plan, PlaneArea};
use av1_tile::{TileState, reconstruct_tile};
use std::alloc::Global;

// A sample of a row that differs from the sample of the plan.
#[derive(Copy, Clone)]
struct Other {
    // The column of the sample.
    column: u16,
    given: u16,
    defined: u16,
}

/// Lists the differences between a valid plan and its visible planes from another encoder. The bytes are the planes Y,
/// U and V, each row by row. A sample has one byte at depth 8, else two, the low byte first.
///
/// The list follows the leaves in coding order, and for each leaf Y, U and V. There is at most one entry for each leaf
/// and each plane that the leaf covers. It is the first visible sample of the leaf's rectangle, in raster order, that
/// differs from the slow definition. Nothing else is listed.
///
/// A given sample that exceeds the depth always differs.
pub fn compare(alloc: Global, plan: &Plan, planes: &[u8]) -> Result<Vec<Difference>, OutOfMemory>
    requires valid { first_fault (plan_value plan.now) ≡ None }
    requires whole { length planes.now ≡ planes_len (plan_value plan.now).header }
    ensures differences { IfOk result (λ list. list.items ≡ differences (plan_value plan.now) planes.now) }
    // There are no differences exactly if the bytes are those of the plan's planes.
    ensures same { IfOk result (λ list. (list.items ≡ []) ↔ (planes.now ≡ planes_of (plan_value plan.now))) }
{
    match plan.header().depth {
        8 => compare_as::<u8>(alloc, plan, planes),
        _ => compare_as::<u16>(alloc, plan, planes),
    }
}

// The differences, for samples of this type.
fn compare_as<T: Pixel>(
    alloc: Global,
    plan: &Plan,
    planes: &[u8],
) -> Result<Vec<Difference>, OutOfMemory>
    requires valid { first_fault (plan_value plan.now) ≡ None }
    requires depth { (plan_value plan.now).header.depth ≤ T.BITS }
    requires whole { length planes.now ≡ planes_len (plan_value plan.now).header }
    ensures { IfOk result (λ list. list.items ≡ differences (plan_value plan.now) planes.now) }
{
    let mut state = TileState::<T>::new(alloc, plan)?;
    reconstruct_tile(&mut state, plan);
    compare_leaves(alloc, &state, plan, planes)
}

// The differences of all leaves.
fn compare_leaves<T: Pixel>(
    alloc: Global,
    state: &TileState<T>,
    plan: &Plan,
    planes: &[u8],
) -> Result<Vec<Difference>, OutOfMemory>
    requires sound { IsSound T.num state.now }
    requires header { state_header state.now ≡ (plan_value plan.now).header }
    requires shows { ShowsRows T.num (plan_value plan.now) state.now }
    requires whole { length planes.now ≡ planes_len (plan_value plan.now).header }
    ensures { IfOk result (λ list. list.items ≡ differences (plan_value plan.now) planes.now) }
{
    let mut list = Vec::new(alloc);
    for (n, leaf) in plan.leaves().iter().enumerate() {
        add_leaf(state, plan, planes, n as u32, leaf, &mut list)?;
    }
    Ok(list)
}

// Appends the differences of leaf `n`.
fn add_leaf<T: Pixel>(
    state: &TileState<T>,
    plan: &Plan,
    planes: &[u8],
    n: u32,
    leaf: &Leaf,
    list: &mut Vec<Difference>,
) -> Result<(), OutOfMemory>
    requires sound { IsSound T.num state.now }
    requires header { state_header state.now ≡ (plan_value plan.now).header }
    requires shows { ShowsRows T.num (plan_value plan.now) state.now }
    requires whole { length planes.now ≡ planes_len (plan_value plan.now).header }
    ensures { OnOk result (list.new.items ≡ list.old.items
        ++ leaf_differences (plan_value plan.now) planes.now n (leaf_value (stored_triples plan.now) leaf.now)) }
{
    add_in_plane(state, plan, planes, n, leaf, 0, list)?;
    add_in_plane(state, plan, planes, n, leaf, 1, list)?;
    add_in_plane(state, plan, planes, n, leaf, 2, list)
}

// Appends the difference of leaf `n` in plane `p`, if there is one.
fn add_in_plane<T: Pixel>(
    state: &TileState<T>,
    plan: &Plan,
    planes: &[u8],
    n: u32,
    leaf: &Leaf,
    p: usize,
    list: &mut Vec<Difference>,
) -> Result<(), OutOfMemory>
    requires sound { IsSound T.num state.now }
    requires header { state_header state.now ≡ (plan_value plan.now).header }
    requires shows { ShowsRows T.num (plan_value plan.now) state.now }
    requires whole { length planes.now ≡ planes_len (plan_value plan.now).header }
    requires plane { p < 3 }
    ensures { OnOk result (list.new.items ≡ list.old.items
        ++ plane_differences (plan_value plan.now) planes.now n (leaf_value (stored_triples plan.now) leaf.now) p) }
{
    let header = plan.header();
    if !leaf.covers_plane(header, p) {
        return Ok(());
    }
    let area = leaf.plane_area(header, p);
    if let Some(found) = first_other(state, plan, planes, n, p, area) {
        list.push(found)?;
    }
    Ok(())
}

// The first sample of a rectangle of plane `p` that differs, as a difference of leaf `n`.
fn first_other<T: Pixel>(
    state: &TileState<T>,
    plan: &Plan,
    planes: &[u8],
    n: u32,
    p: usize,
    area: PlaneArea,
) -> Option<Difference>
    requires sound { IsSound T.num state.now }
    requires header { state_header state.now ≡ (plan_value plan.now).header }
    requires shows { ShowsRows T.num (plan_value plan.now) state.now }
    requires whole { length planes.now ≡ planes_len (plan_value plan.now).header }
    requires plane { p < 3 }
    ensures { result ≡ first_difference (plan_value plan.now) planes.now n p area }
{
    let header = plan.header();
    let left = usize::from(area.x);
    let top = usize::from(area.y);
    let right = (left + area.size.width()).min(header.shown_columns(p));
    let bottom = (top + area.size.height()).min(header.shown_rows(p));
    for y in top..bottom {
        if let Some(other) = first_in_row(state, plan, planes, p, y, left, right) {
            return Some(Difference {
                leaf: n,
                plane: p as u8,
                row: y as u16,
                column: other.column,
                given: other.given,
                defined: other.defined,
            });
        }
    }
    None
}

// The first sample of row `y` of plane `p` that differs, from column `left` on and before column `right`.
fn first_in_row<T: Pixel>(
    state: &TileState<T>,
    plan: &Plan,
    planes: &[u8],
    p: usize,
    y: usize,
    left: usize,
    right: usize,
) -> Option<Other>
    requires sound { IsSound T.num state.now }
    requires header { state_header state.now ≡ (plan_value plan.now).header }
    requires shows { ShowsRows T.num (plan_value plan.now) state.now }
    requires whole { length planes.now ≡ planes_len (plan_value plan.now).header }
    requires plane { p < 3 }
    requires row { y < shown_rows (plan_value plan.now).header p }
    requires columns { right ≤ shown_columns (plan_value plan.now).header p }
    ensures none { IfNone result (AgreeFrom (plan_value plan.now) planes.now p y left right) }
    ensures some { IfSome result (λ other. IsOther (plan_value plan.now) planes.now p y left right other) }
{
    let header = plan.header();
    let given = given_row(header, planes, p, y);
    let row = state.row(p, y);
    first_other_of(header.depth, given, row, left, right)
}

// The first column, from `left` on and before `right`, at which a row of samples differs from the bytes of a row.
fn first_other_of<T: Pixel>(
    depth: u8,
    given: &[u8],
    row: &[T],
    left: usize,
    right: usize,
) -> Option<Other>
    requires given { sample_len depth * right ≤ length given.now }
    requires row { right ≤ length row.now }
    requires narrow { right ≤ 65536 }
    ensures none { IfNone result ((x : ℕ) → left ≤ x → x < right → sample_from depth given.now x ≡ slice_index (map T.num row.now) x) }
    ensures some { IfSome result (λ other. (left ≤ other.column) × (other.column < right) × (other.given ≢ other.defined)) }
    ensures samples { IfSome result (λ other. (other.given ≡ sample_from depth given.now other.column) ×
        (other.defined ≡ slice_index (map T.num row.now) other.column)) }
    ensures first { IfSome result (λ other. (x : ℕ) → left ≤ x → x < other.column → sample_from depth given.now x ≡ slice_index (map T.num row.now) x) }
{
    for x in left..right {
        let sample = sample_from(depth, given, x);
        let value = number_at(row, x);
        if sample != value {
            return Some(Other {
                column: x as u16,
                given: sample,
                defined: value,
            });
        }
    }
    None
}

// Sample `x` of a row, as a number.
fn number_at<T: Pixel>(row: &[T], x: usize) -> u16
    requires { x < length row.now }
    ensures { result ≡ slice_index (map T.num row.now) x }
{
    row[x].to_u32() as u16
}
