//! Finds which field of a leaf a builder rejected, and writes the field's number to the caller's `field`.

ghost use Rattle.std.specs.Prelude.{◌≡◌};
ghost use Rattle.av1_planwrite.specs.Building.{is_named};
ghost use Rattle.av1_c.specs.Leaves.{reference_of};
ghost use Rattle.av1_c.specs.LeafFields.{field_told, intra_field, leaf_carries, leaf_field, part_carries, reference_field};

use crate::builder::Builder;
use crate::leaf_numbers::{LeafNumbers, reference_of};
use crate::status::{
    FIELD_CHROMA_MODE, FIELD_CHROMA_TX_TYPE, FIELD_COEFFICIENTS, FIELD_FIRST, FIELD_HAS_CHROMA,
    FIELD_MODE, FIELD_SECOND, FIELD_TX_SIZE, FIELD_TX_TYPE, NOT_ADMITTED,
};
use av1_plan::{Header, carries_chroma};
use av1_planwrite::Part;

// Whether this part of a plan is a leaf that carries chroma.
fn part_carries(header: &Header, part: Option<Part>) -> bool
    ensures { result ≡ part_carries header.now part }
{
    match part {
        Some(Part::Leaf { size, x, y }) => carries_chroma(header, x, y, size),
        Some(Part::Node { .. }) => false,
        None => false,
    }
}

// Whether the plan needs a leaf next that carries chroma. The buffer has `room` bytes.
fn leaf_carries(builder: &Builder, room: usize) -> bool
    ensures { result ≡ leaf_carries builder.now room }
{
    match builder.progress(room) {
        Ok(progress) => part_carries(&builder.header.header(), progress.asked_part()),
        Err(_) => false,
    }
}

// Whether the reference of a number is one of LAST to ALTREF.
fn is_named(number: u8) -> bool
    ensures { result ≡ is_named (reference_of number) }
{
    let reference = reference_of(number).number();
    1 <= reference && reference <= 7
}

// The first field of a leaf with references that is not valid.
fn reference_field(leaf: &LeafNumbers) -> u32
    ensures { result ≡ reference_field leaf.now }
{
    if !is_named(leaf.first.reference) {
        return FIELD_FIRST;
    }
    if leaf.mode < 20 {
        return FIELD_COEFFICIENTS;
    }
    if !is_named(leaf.second.reference) {
        return FIELD_SECOND;
    }
    FIELD_COEFFICIENTS
}

// The first field of a leaf without references that is not valid.
fn intra_field(leaf: &LeafNumbers) -> u32
    ensures { result ≡ intra_field leaf.now }
{
    if leaf.chroma == 0 {
        return FIELD_COEFFICIENTS;
    }
    if leaf.chroma_mode > 13 {
        FIELD_CHROMA_MODE
    } else {
        FIELD_COEFFICIENTS
    }
}

// The first field of a rejected leaf that is not valid.
fn leaf_field(carried: bool, leaf: &LeafNumbers) -> u32
    ensures { result ≡ leaf_field carried leaf.now }
{
    if leaf.tx_size > 18 {
        return FIELD_TX_SIZE;
    }
    if leaf.tx_type > 16 {
        return FIELD_TX_TYPE;
    }
    if leaf.uv_type > 16 {
        return FIELD_CHROMA_TX_TYPE;
    }
    let is_given = if carried {
        leaf.uv_type().is_some()
    } else {
        leaf.uv_type().is_none()
    };
    if !is_given {
        return FIELD_HAS_CHROMA;
    }
    if leaf.mode > 33 {
        return FIELD_MODE;
    }
    if leaf.mode < 14 {
        intra_field(leaf)
    } else {
        reference_field(leaf)
    }
}

/// If a call with this status rejected the leaf, `field` becomes the first field that is not valid. The buffer of the
/// unchanged builder has `room` bytes.
pub fn tell_field(field: &mut u32, status: u32, builder: &Builder, room: usize, leaf: &LeafNumbers)
    ensures { field.new ≡ field_told status (leaf_carries builder.now room) leaf.now field.old }
{
    if status == NOT_ADMITTED {
        *field = leaf_field(leaf_carries(builder, room), leaf);
    }
}
