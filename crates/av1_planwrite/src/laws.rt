//! Theorems about the texts of plans. Each function does nothing: its contract is the theorem.

ghost use Rattle.std.specs.Prelude.{◌≡◌, ℕ, List, None};
ghost use Rattle.av1_plan.specs.Grammar.{plan};
ghost use Rattle.av1_plan.specs.Plan.{PlanValue};
ghost use Rattle.av1_plan.specs.Spelling.{AreText};
ghost use Rattle.av1_plan.specs.Validity.{first_fault};
ghost use Rattle.av1_planwrite.specs.Bare.{bare, bare_text};
ghost use Rattle.av1_planwrite.specs.MarkLaws.{FirstLeafFixesMark};
ghost use Rattle.av1_planwrite.specs.Text.{plan_text};

/// A law: a plan is spelled in one way. The bytes of a plan are its text, so no two inputs are the same plan.
pub fn a_plan_has_one_text()
    ensures { (bytes : List ℕ) (p : PlanValue) → AreText plan bytes p → bytes ≡ plan_text p }
{}

/// A law: a plan without its coefficients is a plan, and its text spells it.
pub fn a_bare_plan_is_a_plan()
    ensures { (bytes : List ℕ) (p : PlanValue) → AreText plan bytes p → AreText plan (bare_text p) (bare p) }
{}

/// A law: a valid plan is valid without its coefficients.
pub fn a_bare_plan_is_valid()
    ensures { (p : PlanValue) → first_fault p ≡ None → first_fault (bare p) ≡ None }
{}

/// A law: the leaves decide the marks. The dimensions of a node's first leaf say how the node is cut, if the node
/// begins in the frame.
pub fn the_first_leaf_fixes_the_mark()
    ensures { FirstLeafFixesMark }
{}
