//! The type `Leaves`: all leaves of a plan and their coefficients, in two lists that it lends to readers.

ghost use Rattle.std.specs.Prelude.{◌≤◌, ◌^◌, length, vec_len};
ghost use Rattle.av1_plan.specs.Plan.{Follow};

use crate::leaf::{Leaf, Triple};

/// Leaves that were read from bytes, in coding order, with their triples: the part of a plan after its header and its
/// references. A [`Plan`](crate::Plan) has all three.
#[derive(Drop)]
pub struct Leaves {
    pub(crate) leaves: Vec<Leaf>,
    pub(crate) triples: Vec<Triple>,
    // The leaves' triples follow one another without a gap, in one list.
    ghost follow: { ∥ Follow 0 leaves.items (length triples.items) ∥₁ },
    ghost few: { vec_len leaves ≤ 2 ^ 26 },
}

impl Leaves {
    ghost use Rattle.std.specs.Prelude.{◌≡◌, ◌<◌, length};
    ghost use Rattle.av1_plan.specs.Values.{leaf_list, leaves_value};
    ghost use Rattle.av1_plan.specs.Plan.{leaf_triples};

    /// The leaves, in coding order.
    pub fn leaves(&self) -> &[Leaf]
        ensures items { result.now ≡ leaf_list self.now }
    {
        &self.leaves
    }

    /// The triples in plane `p` of leaf number `leaf`, counted from 0 in coding order.
    pub fn triples(&self, leaf: usize, p: usize) -> &[Triple]
        requires leaf { leaf < length (leaf_list self.now) }
        requires plane { p < 3 }
        ensures { result.now ≡ leaf_triples (leaves_value self.now) leaf p }
    {
        let (start, count) = self.leaves[leaf].triples_span(p);
        &self.triples[start..start + count]
    }
}
