//! Writes a whole plan as bytes, with its coefficients or without. Allocates the bytes; does no I/O.

ghost use Rattle.std.specs.Prelude.{◌≡◌, ◌<◌, IfOk};
ghost use Rattle.av1_plan.specs.Values.{plan_value};
ghost use Rattle.av1_planwrite.specs.Bare.{bare, bare_text, IsTextOf};
ghost use Rattle.av1_planwrite.specs.Text.{plan_text};
ghost use Rattle.av1_planwrite.specs.Writing.{told};

use crate::nodes::{Coefficients, Writer};
use crate::text::Text;
use av1_blocks::OutOfMemory;
use av1_plan::Plan;
use std::alloc::Global;

impl Text {
    ghost use Rattle.std.specs.Prelude.{◌≡◌, ◌<◌, ◌++◌, OnOk, slice_index_or, None};
    ghost use Rattle.av1_plan.specs.Values.{plan_value};
    ghost use Rattle.av1_planwrite.specs.Text.{slot_text, references_text};
    ghost use Rattle.av1_plan.specs.Plan.{carried_plane};
    ghost use Rattle.av1_planwrite.specs.Writing.{samples_text};

    /// Writes plane `p` of a slot, if the slot carries planes.
    fn slot_plane(&mut self, plan: &Plan, slot: usize, p: usize) -> Result<(), OutOfMemory>
        requires slot { slot < 8 }
        requires plane { p < 3 }
        ensures { OnOk result (self.new.bytes.items ≡ self.old.bytes.items
            ++ samples_text (plan_value plan.now).header.depth (carried_plane (plan_value plan.now) slot p)) }
    {
        match plan.reference(slot, p) {
            Some(samples) => self.plane(plan.header().depth, samples),
            None => Ok(()),
        }
    }

    /// Writes the planes of a slot, if the slot carries planes.
    fn slot(&mut self, plan: &Plan, slot: usize) -> Result<(), OutOfMemory>
        requires { slot < 8 }
        ensures { OnOk result (self.new.bytes.items ≡ self.old.bytes.items
            ++ slot_text (plan_value plan.now).header.depth (slice_index_or (plan_value plan.now).references slot None)) }
    {
        self.slot_plane(plan, slot, 0)?;
        self.slot_plane(plan, slot, 1)?;
        self.slot_plane(plan, slot, 2)
    }

    /// Writes the planes of the eight slots.
    #[tactic(auto, using(crate::proofs::References::slots_step))]
    fn references(&mut self, plan: &Plan) -> Result<(), OutOfMemory>
        ensures { OnOk result (self.new.bytes.items ≡ self.old.bytes.items
            ++ references_text (plan_value plan.now).header.depth (plan_value plan.now).references) }
    {
        for slot in 0..8 {
            self.slot(plan, slot)?;
        }
        Ok(())
    }
}

/// Writes a plan, with its coefficients or without them.
#[tactic(auto, using(crate::proofs::References::told_text))]
fn write(alloc: Global, plan: &Plan, coefficients: Coefficients) -> Result<Vec<u8>, OutOfMemory>
    ensures { IfOk result (λ bytes. bytes.items ≡ plan_text (told coefficients (plan_value plan.now))) }
{
    let header = plan.header();
    let mut text = Text {
        bytes: Vec::new(alloc),
    };
    text.header(header)?;
    text.references(plan)?;
    let mut writer = Writer {
        plan,
        coefficients,
        next: 0,
        text,
    };
    writer.superblocks(header)?;
    let Writer { text, .. } = writer;
    let Text { bytes } = text;
    Ok(bytes)
}

/// The text of a plan. [`av1_plan::parse_plan`] reads it as this plan.
///
/// # Errors
///
/// `OutOfMemory` if memory runs out.
#[tactic(auto, using(crate::proofs::Spelled::written), unfolding(crate::specs::Writing::told))]
pub fn write_plan(alloc: Global, plan: &Plan) -> Result<Vec<u8>, OutOfMemory>
    ensures text { IfOk result (λ bytes. bytes.items ≡ plan_text (plan_value plan.now)) }
    // The bytes are exactly the fields of a complete proper list, which spells the plan.
    ensures spelled { IfOk result (λ bytes. IsTextOf bytes.items (plan_value plan.now)) }
{
    write(alloc, plan, Coefficients::Kept)
}

/// The text of the same plan without its coefficients: every count is 0.
///
/// # Errors
///
/// `OutOfMemory` if memory runs out.
#[tactic(auto, using(crate::proofs::Spelled::written), unfolding(crate::specs::Writing::told))]
pub fn write_bare(alloc: Global, plan: &Plan) -> Result<Vec<u8>, OutOfMemory>
    ensures text { IfOk result (λ bytes. bytes.items ≡ bare_text (plan_value plan.now)) }
    ensures spelled { IfOk result (λ bytes. IsTextOf bytes.items (bare (plan_value plan.now))) }
{
    write(alloc, plan, Coefficients::LeftOut)
}
