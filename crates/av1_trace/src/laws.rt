//! Theorems about differences and traces. Each function does nothing: its contract is the theorem.

ghost use Rattle.std.specs.Prelude.{◌≡◌, ℕ, ◌<◌, ◌^◌, All, List, None, count_by};
ghost use Rattle.av1_order.specs.Neighbours.{in_area};
ghost use Rattle.av1_plan.specs.Values.{plan_value};
ghost use Rattle.av1_plan.specs.Geometry.{plane_height, plane_width};
ghost use Rattle.av1_plan.specs.Plan.{LeafValue};
ghost use Rattle.av1_plan.specs.Validity.{first_fault};
ghost use Rattle.av1_trace.specs.Checking.{HasOutcome, Outcome};

use av1_plan::Plan;

/// A law: each visible sample of each plane of a valid plan lies in the rectangle of exactly one leaf that covers a
/// part of the plane.
pub fn every_place_has_its_leaf(plan: &Plan)
    requires valid { first_fault (plan_value plan.now) ≡ None }
    ensures { (p x y : ℕ) → p < 3 → x < plane_width (plan_value plan.now).header p → y < plane_height (plan_value plan.now).header p
        → count_by (λ (l : LeafValue). in_area (plan_value plan.now).header p l x y) (plan_value plan.now).leaves ≡ 1 }
{
    let _plan = plan.header();
}

/// The laws of outcomes: every list of bytes has exactly one outcome as a trace.
pub fn trace_outcome_laws()
    ensures some { (bytes : List ℕ) → All (λ byte. byte < 2 ^ 8) bytes → (outcome : Outcome) × HasOutcome bytes outcome }
    ensures one { (bytes : List ℕ) (a b : Outcome) → HasOutcome bytes a → HasOutcome bytes b → a ≡ b }
{}
