//! Lends the header, leaves, triples and reference planes of a plan. Changes nothing and does not allocate.

use crate::header::Header;
use crate::leaf::{Leaf, Triple};
use crate::leaves::Leaves;
use crate::plan::Plan;
use crate::planes::SlotPlanes;

impl Plan {
    ghost use Rattle.std.specs.Prelude.{◌≡◌, ◌<◌, ◌↔◌, length, IfSome, IfNone, IsSome, IsTrue, Some, None};
    ghost use Rattle.av1_plan.specs.Values.{leaves_value, plan_value, stored_leaves};
    ghost use Rattle.std.specs.List.{All};
    ghost use Rattle.av1_plan.specs.CodingOrder.{AreInCodingOrder};
    ghost use Rattle.av1_plan.specs.Geometry.{has_slot};
    ghost use Rattle.av1_plan.specs.Plan.{carried_plane, slot_values, triples_of};
    ghost use Rattle.av1_plan.specs.ReadPlans.{ArePlane, AreStoredSlots, IsReadFrame, IsReadLeaf};

    /// The header: the frame, and what holds for all leaves.
    pub fn header(&self) -> &Header
        ensures value { result.now ≡ (plan_value self.now).header }
        // Its sides, depth, sampling, filter and slots lie in their ranges.
        ensures read { IsReadFrame result.now }
    {
        &self.header
    }

    /// The leaves, in coding order: the leaves of one tree of marks for each superblock.
    pub fn leaves(&self) -> &[Leaf]
        ensures items { result.now ≡ stored_leaves self.now }
        // Each lies on its grid. It has a chroma type exactly if it carries chroma. An intra leaf has a chroma mode
        // exactly if it carries chroma.
        ensures read { All (IsReadLeaf (plan_value self.now).header) (plan_value self.now).leaves }
        ensures order { ∥ AreInCodingOrder (plan_value self.now).header (λ l. l) (plan_value self.now).leaves ∥₁ }
    {
        self.leaves.leaves()
    }

    /// The leaves with their triples, apart from the header and the references.
    pub fn leaves_with_triples(&self) -> &Leaves
        ensures { leaves_value result.now ≡ (plan_value self.now).leaves }
    {
        &self.leaves
    }

    /// The eight slots, each with its planes, if it carries planes.
    pub fn references(&self) -> &[Option<SlotPlanes>]
        ensures value { slot_values result.now ≡ (plan_value self.now).references }
        ensures eight { length result.now ≡ 8 }
        // A slot has planes exactly if the mask has it. Each has as many samples as it shows, all below `1 << depth`.
        ensures slots { AreStoredSlots (plan_value self.now).header result.now 8 }
    {
        &self.references
    }

    /// The samples of plane `p` (0 for Y, 1 for U and 2 for V) of a slot, row by row. None if the slot carries no
    /// planes.
    pub fn reference(&self, slot: usize, p: usize) -> Option<&[u16]>
        requires slot { slot < 8 }
        requires plane { p < 3 }
        ensures present { IsSome result ↔ IsTrue (has_slot (plan_value self.now).header slot) }
        ensures some { IfSome result (λ s. carried_plane (plan_value self.now) slot p ≡ Some s.now) }
        ensures none { IfNone result (carried_plane (plan_value self.now) slot p ≡ None) }
        // They are as many as the plane shows, each below `1 << depth`.
        ensures read { IfSome result (λ s. ArePlane (plan_value self.now).header p s.now) }
    {
        let planes = self.references[slot].as_ref()?;
        match p {
            0 => Some(&planes.y),
            1 => Some(&planes.u),
            _ => Some(&planes.v),
        }
    }

    /// The triples in plane `p` of leaf number `leaf`, counted from 0 in coding order.
    pub fn triples(&self, leaf: usize, p: usize) -> &[Triple]
        requires leaf { leaf < length (stored_leaves self.now) }
        requires plane { p < 3 }
        ensures { result.now ≡ triples_of (plan_value self.now) leaf p }
    {
        self.leaves.triples(leaf, p)
    }
}
