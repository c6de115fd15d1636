//! Appends a plan's leaves, and the marks that their sizes decide, to a text. May allocate.

ghost use Rattle.std.specs.Prelude.{◌≡◌, ◌<◌, ◌≤◌, ◌^◌, length};
ghost use Rattle.av1_plan.specs.Values.{plan_value, stored_leaves};
ghost use Rattle.av1_plan.specs.Plan.{triples_of};
ghost use Rattle.av1_planwrite.specs.Text.{cut_of, mark_of};
ghost use Rattle.av1_planwrite.specs.Writing.{told_triples};

use crate::text::Text;
use av1_blocks::PartitionType::{self, *};
use av1_blocks::{BlockSize, OutOfMemory};
use av1_plan::{Header, Leaf, Part, Plan, TreeWalk, Triple};

/// Whether the coefficients of leaves are written.
#[derive(Copy, Clone, Debug, PartialEq, Eq)]
pub enum Coefficients {
    Kept,
    LeftOut,
}

/// A plan that is being written: the number of the next leaf, and the text so far.
#[derive(Drop)]
pub struct Writer<'a> {
    pub plan: &'a Plan,
    pub coefficients: Coefficients,
    pub next: usize,
    pub text: Text,
}

/// How a node of `4 << level` luma samples is cut if its first leaf has this size.
#[tactic(auto, unfolding(crate::specs::Text::cut_of, crate::specs::Text::cut_by_sides))]
fn cut_of(level: u8, size: BlockSize) -> PartitionType
    requires { level ≤ 4 }
    ensures { result ≡ cut_of level size }
{
    let side = 4 << level;
    let (width, height) = (size.width(), size.height());
    if width == side {
        if height == side {
            PARTITION_NONE
        } else if 2 * height == side {
            PARTITION_HORZ
        } else {
            PARTITION_HORZ_4
        }
    } else if height == side {
        if 2 * width == side {
            PARTITION_VERT
        } else {
            PARTITION_VERT_4
        }
    } else {
        PARTITION_SPLIT
    }
}

/// The mark of a cut.
#[tactic(auto, unfolding(crate::specs::Text::mark_of))]
fn mark_of(cut: PartitionType) -> u8
    ensures { result ≡ mark_of cut }
{
    match cut {
        PARTITION_NONE => 0,
        PARTITION_HORZ => 1,
        PARTITION_VERT => 2,
        PARTITION_HORZ_4 => 8,
        PARTITION_VERT_4 => 9,
        _ => 3,
    }
}

/// The coefficients of a leaf in plane `p` that are written. There are at most as many as the plan has.
fn told_triples<'a>(
    plan: &'a Plan,
    coefficients: Coefficients,
    leaf: usize,
    p: usize,
    count: u16,
) -> &'a [Triple]
    requires leaf { leaf < length (stored_leaves plan.now) }
    requires plane { p < 3 }
    requires count { length (triples_of (plan_value plan.now) leaf p) ≤ count }
    ensures value { result.now ≡ told_triples coefficients (plan_value plan.now) leaf p }
    ensures few { length result.now < 2 ^ 16 }
{
    let triples = plan.triples(leaf, p);
    match coefficients {
        Coefficients::Kept => triples,
        Coefficients::LeftOut => &triples[..0],
    }
}

impl<'a> Writer<'a> {
    ghost use Rattle.std.specs.Prelude.{◌≡◌, ◌<◌, ◌≤◌, true, false, [], IfOk, OnOk, Some, slice_get};
    ghost use Rattle.av1_plan.specs.Values.{stored_leaves};
    ghost use Rattle.av1_plan.specs.Walk.{remaining, weight};
    ghost use Rattle.av1_planwrite.specs.Text.{leaf_written, next_cut, superblocks_written};
    ghost use Rattle.av1_planwrite.specs.Writing.{draft, remaining_written};

    /// The next leaf, if one is left.
    fn next_leaf(&self) -> Option<Leaf>
        ensures { result ≡ slice_get (stored_leaves self.now.plan.now) self.now.next }
    {
        self.plan.leaves().get(self.next).copied()
    }

    /// Writes this leaf, which is the next one.
    fn leaf(&mut self, leaf: Leaf) -> Result<(), OutOfMemory>
        requires { slice_get (stored_leaves self.old.plan.now) self.old.next ≡ Some leaf }
        ensures { OnOk result (draft self.new ≡ leaf_written (draft self.old).0 (draft self.old).1) }
    {
        let [y, u, v] = leaf.counts;
        let y = told_triples(self.plan, self.coefficients, self.next, 0, y);
        let u = told_triples(self.plan, self.coefficients, self.next, 1, u);
        let v = told_triples(self.plan, self.coefficients, self.next, 2, v);
        self.text.leaf(leaf.kind, leaf.tx_size, leaf.tx_type, leaf.uv_type, y, u, v)?;
        self.next += 1;
        Ok(())
    }

    /// Writes the next leaf, if one is left.
    #[tactic(auto, using(crate::proofs::Left::leaves_left))]
    fn leaf_part(&mut self) -> Result<(), OutOfMemory>
        ensures text { OnOk result (draft self.new ≡ leaf_written (draft self.old).0 (draft self.old).1) }
    {
        match self.next_leaf() {
            Some(leaf) => self.leaf(leaf),
            None => Ok(()),
        }
    }

    /// How a node of `4 << level` luma samples is cut. The next leaf decides it.
    #[tactic(auto, using(crate::proofs::Left::leaves_left))]
    fn next_cut(&self, level: u8) -> PartitionType
        requires { level ≤ 4 }
        ensures { result ≡ next_cut level (draft self.now).0 }
    {
        match self.next_leaf() {
            Some(leaf) => cut_of(level, leaf.size),
            None => PARTITION_NONE,
        }
    }

    /// Writes the next part of the walk, if one remains: the mark of a node, or a leaf.
    fn next_part(&mut self, walk: &mut TreeWalk) -> Result<bool, OutOfMemory>
        // The text so far and the text of the remaining parts together are unchanged.
        ensures text { OnOk result
            (remaining_written walk.old.header (remaining walk.new) (draft self.new) ≡ remaining_written walk.old.header (remaining walk.old)
            (draft self.old)) }
        ensures end { IfOk result (λ more. more ≡ false → remaining walk.new ≡ []) }
        ensures less { IfOk result (λ more. more ≡ true → weight (remaining walk.new) < weight (remaining walk.old)) }
        ensures frame { walk.new.header ≡ walk.old.header }
    {
        match walk.first() {
            None => Ok(false),
            Some(Part::Node { level, .. }) => {
                let cut = self.next_cut(level);
                self.text.byte(mark_of(cut))?;
                walk.cut(cut);
                Ok(true)
            }
            Some(Part::Leaf { .. }) => {
                self.leaf_part()?;
                walk.pass();
                Ok(true)
            }
        }
    }

    /// Writes the superblocks of a frame.
    pub fn superblocks(&mut self, header: &Header) -> Result<(), OutOfMemory>
        requires width { (0 < header.now.width) × (header.now.width ≤ 2048) }
        requires height { (0 < header.now.height) × (header.now.height ≤ 2048) }
        ensures { OnOk result (draft self.new ≡ superblocks_written header.now (draft self.old)) }
    {
        let mut walk = TreeWalk::new(header);
        'parts: while self.next_part(&mut walk)? {}
        Ok(())
    }
}
