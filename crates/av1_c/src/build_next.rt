//! The C call that says what a plan needs next. Writes only the caller's `next`; does not allocate.

ghost use Rattle.std.specs.Prelude.{◌≡◌, ◌≢◌, ℕ, List, true, [], take, if◌then◌else◌};
ghost use Rattle.av1_plan.specs.Grammar.{plan};
ghost use Rattle.av1_plan.specs.Plan.{PlanValue};
ghost use Rattle.av1_plan.specs.Spelling.{AreText};
ghost use Rattle.av1_planwrite.specs.Building.{Tells, asked_part};
ghost use Rattle.av1_c.specs.Builders.{is_builder, plan_of};
ghost use Rattle.av1_c.specs.NextFields.{next_field, node_size, part_field};

use crate::builder::Builder;
use crate::status::{BAD_STATE, NEXT_LEAF, NEXT_MARK, NEXT_NOTHING, NEXT_REFERENCE};
use av1_calls::DONE;
use av1_planwrite::Part;

/// The field that an unfinished plan needs next.
#[repr(C)]
#[derive(Clone, Copy)]
pub struct NextField {
    /// The slot whose planes the plan needs, or 8 if it needs no planes.
    pub slot: usize,
    /// What the plan needs: `NEXT_NOTHING`, `NEXT_REFERENCE`, `NEXT_MARK` or `NEXT_LEAF`.
    pub kind: u8,
    /// The number of the node's or the leaf's block size.
    pub size: u8,
    /// The position of its first sample, in luma samples.
    pub x: u16,
    pub y: u16,
}

// The number of the block size of a node at this level.
fn node_size(level: u8) -> u8
    ensures { result ≡ node_size level }
{
    match level {
        1 => 3,
        2 => 6,
        3 => 9,
        _ => 12,
    }
}

// The field that this part begins with. Without a part, the plan needs nothing more.
fn part_field(part: Option<Part>) -> NextField
    ensures { result ≡ part_field part }
{
    match part {
        None => NextField {
            slot: 8,
            kind: NEXT_NOTHING,
            size: 0,
            x: 0,
            y: 0,
        },
        Some(Part::Node { level, x, y }) => NextField {
            slot: 8,
            kind: NEXT_MARK,
            size: node_size(level),
            x,
            y,
        },
        Some(Part::Leaf { size, x, y }) => NextField {
            slot: 8,
            kind: NEXT_LEAF,
            size: size.number(),
            x,
            y,
        },
    }
}

// The field that a plan needs next that is at this slot, and then needs this part.
fn next_field(slot: usize, part: Option<Part>) -> NextField
    ensures { result ≡ next_field slot part }
{
    if slot < 8 {
        return NextField {
            slot,
            kind: NEXT_REFERENCE,
            size: 0,
            x: 0,
            y: 0,
        };
    }
    part_field(part)
}

/// Says which field the plan needs next. The call changes neither the builder nor the plan. If the plan needs nothing
/// more, its text is the first `builder.written` bytes of the buffer.
///
/// `DONE`: `next` has the field. `BAD_STATE`: `builder` is not a valid builder.
#[unsafe(no_mangle)]
pub extern "C" fn tilg_builder_next(next: &mut NextField, builder: &Builder) -> u32
    // `next` is the field that the grammar needs after the fields so far.
    ensures done { result ≡ DONE → next.new ≡ next_field builder.now.slot (asked_part (plan_of builder.now [])) }
    // If the plan needs nothing more, the bytes in the buffer are the text of the plan whose parts were given.
    ensures text { (room : List ℕ) → (p : PlanValue) → Tells (plan_of builder.now room) p → result ≡ DONE → next.new.kind ≡ NEXT_NOTHING
        → AreText plan (take builder.now.written room) p }
    // The builder decides the status.
    ensures status { result ≡ (if is_builder builder.now builder.now.written then DONE else BAD_STATE) }
    ensures kept { result ≢ DONE → next.new ≡ next.old }
{
    match builder.progress(builder.written) {
        Ok(progress) => {
            *next = next_field(builder.slot, progress.asked_part());
            DONE
        }
        Err(_) => BAD_STATE,
    }
}
