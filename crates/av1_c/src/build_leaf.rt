//! The C call that appends a leaf. Writes the caller's builder, buffer and `field`; does not allocate.

ghost use Rattle.std.specs.Prelude.{◌≡◌, ◌≢◌, ◌<◌, ◌&&◌, ◌^◌, true, [], Some, length, IfErr, OnErr, OnOk};
ghost use Rattle.av1_plan.specs.Plan.{PlanValue};
ghost use Rattle.av1_planwrite.specs.Builder.{built};
ghost use Rattle.av1_planwrite.specs.Building.{Tells, admits_leaf_fields, argument_refusal, asked_part, asks_leaf, plan_with_leaf, with_leaf};
ghost use Rattle.av1_planwrite.specs.Given.{FitsKind};
ghost use Rattle.av1_c.specs.BuildFaults.{answered, asked_status};
ghost use Rattle.av1_c.specs.Builders.{Hold, is_builder, plan_of};
ghost use Rattle.av1_c.specs.LeafFields.{field_told, leaf_carries};
ghost use Rattle.av1_c.specs.Leaves.{are_numbers, fields_of, kind_of, numbers_refusal, uv_type_of};

use crate::append_leaf::append_leaf;
use crate::build_fault::{BuildFault, answer};
use crate::builder::Builder;
use crate::leaf_field::tell_field;
use crate::leaf_numbers::{Coefficient, LeafNumbers};
use av1_calls::DONE;
use av1_planwrite::{BuildError, Part, Progress};

/// Tests that a leaf of these numbers may come next, with `y`, `u` and `v` coefficients in Y, U and V.
///
/// # Errors
///
/// `NotNow` if the plan needs no leaf next, then `NotAdmitted`.
fn check_leaf(
    progress: &Progress,
    leaf: &LeafNumbers,
    y: usize,
    u: usize,
    v: usize,
) -> Result<(), BuildError>
    ensures asked { OnOk result (asks_leaf (asked_part (built progress.now [])) ≡ true) }
    ensures numbers { OnOk result (are_numbers leaf.now ≡ true) }
    ensures admitted { OnOk result (admits_leaf_fields (built progress.now []).header (asked_part (built progress.now [])) (kind_of leaf.now)
        (uv_type_of leaf.now) y u v ≡ true) }
    ensures fits { OnOk result (FitsKind (kind_of leaf.now)) }
    ensures few { OnOk result ((y < 2 ^ 16) × (u < 2 ^ 16) × (v < 2 ^ 16)) }
    ensures refused { IfErr result (λ e. argument_refusal (asks_leaf (asked_part (built progress.now [])))
        (are_numbers leaf.now && admits_leaf_fields (built progress.now []).header (asked_part (built progress.now [])) (kind_of leaf.now)
        (uv_type_of leaf.now) y u v) ≡ Some e) }
{
    let Some(Part::Leaf { .. }) = progress.asked_part() else {
        return Err(BuildError::NotNow);
    };
    if !leaf.are_numbers() {
        return Err(BuildError::NotAdmitted);
    }
    progress.check_leaf(&leaf.kind(), leaf.uv_type(), y, u, v)
}

/// Appends the fields of the next leaf.
///
/// # Errors
///
/// `BadState`, then `NotNow`, then `NotAdmitted`, then `TooLong`, then `RoomTooSmall`.
fn give_leaf(
    builder: &mut Builder,
    room: &mut [u8],
    leaf: &LeafNumbers,
    y: &[Coefficient],
    u: &[Coefficient],
    v: &[Coefficient],
) -> Result<(), BuildFault>
    ensures holds { OnOk result (Hold builder.new room.new room.old (with_leaf (plan_of builder.old room.old) (fields_of leaf.now y.now u.now v.now))) }
    ensures status { answered result ≡ asked_status (is_builder builder.old (length room.old))
        (numbers_refusal (plan_of builder.old room.old) leaf.now y.now u.now v.now)
        (length (with_leaf (plan_of builder.old room.old) (fields_of leaf.now y.now u.now v.now)).bytes) (length room.old) }
    ensures told { (p : PlanValue) → Tells (plan_of builder.old room.old) p →
        OnOk result
        (Tells (plan_of builder.new room.new) (plan_with_leaf p (asked_part (plan_of builder.old room.old)) (fields_of leaf.now y.now u.now v.now))) }
    ensures kept { OnErr result ((builder.new ≡ builder.old) × (room.new ≡ room.old)) }
{
    let mut progress = builder.progress(room.len())?;
    check_leaf(&progress, leaf, y.len(), u.len(), v.len())?;
    let end = append_leaf(room, builder.written, leaf, y, u, v)?;
    progress.pass_leaf();
    *builder = Builder::stopped(builder.header, &progress.state(), end);
    Ok(())
}

/// Appends the fields of the next leaf, with its coefficients in Y, U and V, to the bytes in `room`. The marks decide
/// the leaf's size and position.
///
/// `DONE`: success. `NOT_NOW`: the plan needs no leaf next. `TOO_LONG`: there would be more than 2^26 bytes.
/// `ROOM_TOO_SMALL`: the bytes would not fit `room`. `BAD_STATE`: `builder` is not a valid builder over `room`.
/// `NOT_ADMITTED`: `field` becomes the number of the first field that is not valid, and the reason is one of these:
///
/// - A number is out of range, or is not valid in this leaf.
/// - The leaf carries no chroma and chroma is given, or it carries chroma and none is given.
/// - There are coefficients of U or V, and the leaf carries no chroma.
/// - A plane has more than 65,535 coefficients.
#[unsafe(no_mangle)]
pub extern "C" fn tilg_builder_leaf(
    builder: &mut Builder,
    room: &mut [u8],
    field: &mut u32,
    leaf: &LeafNumbers,
    y: &[Coefficient],
    u: &[Coefficient],
    v: &[Coefficient],
) -> u32
    // The call appends exactly the fields of this leaf.
    ensures done { result ≡ DONE → Hold builder.new room.new room.old (with_leaf (plan_of builder.old room.old) (fields_of leaf.now y.now u.now v.now)) }
    // The plan so far, the leaf and the length of the buffer decide the status.
    ensures status { result ≡ asked_status (is_builder builder.old (length room.old))
        (numbers_refusal (plan_of builder.old room.old) leaf.now y.now u.now v.now)
        (length (with_leaf (plan_of builder.old room.old) (fields_of leaf.now y.now u.now v.now)).bytes) (length room.old) }
    // If the bytes before spell a part of a plan, the bytes after spell this part with this leaf.
    ensures told { (p : PlanValue) → Tells (plan_of builder.old room.old) p → result ≡ DONE →
        Tells (plan_of builder.new room.new) (plan_with_leaf p (asked_part (plan_of builder.old room.old)) (fields_of leaf.now y.now u.now v.now)) }
    // After each other status the builder and the buffer are unchanged.
    ensures kept { result ≢ DONE → (builder.new ≡ builder.old) × (room.new ≡ room.old) }
    // `field` becomes the first bad field of a rejected leaf. The builder is then unchanged.
    ensures field { field.new ≡ field_told result (leaf_carries builder.new (length room.new)) leaf.now field.old }
{
    let status = answer(give_leaf(builder, room, leaf, y, u, v));
    tell_field(field, status, builder, room.len(), leaf);
    status
}
