//! The type `Plan`: header, reference samples and leaves, with a proof that a list of fields spells them.

ghost use Rattle.std.specs.Prelude.{◌≡◌, vec_len};
ghost use Rattle.av1_plan.specs.Grammar.{plan};
ghost use Rattle.av1_plan.specs.Plan.{ArePresent, value_of};
ghost use Rattle.av1_plan.specs.Spelling.{IsSpelled};

use crate::header::Header;
use crate::leaves::Leaves;
use crate::planes::SlotPlanes;

/// A plan that was read from bytes: its header, its reference samples and its leaves with their triples.
#[derive(Drop)]
pub struct Plan {
    pub(crate) header: Header,
    pub(crate) references: Vec<Option<SlotPlanes>>,
    pub(crate) leaves: Leaves,
    // A complete proper list of fields spells the plan.
    ghost spelled: { ∥ IsSpelled plan (value_of header references.items leaves.leaves.items leaves.triples.items) ∥₁ },
    // A slot has planes exactly if the mask has it.
    ghost slots: { vec_len references ≡ 8 },
    ghost present: { ArePresent header references.items 8 },
}
