//! Says what an unfinished plan needs next, and tests fields. Changes only itself, and never allocates.

ghost use Rattle.std.specs.Prelude.{◌≡◌, ◌<◌, ◌≤◌, true, length};
ghost use Rattle.av1_planwrite.specs.Building.{admits_header, next_slot};

use crate::admitted::{admits_fields, admits_header, admits_reference};
use crate::error::BuildError;
use crate::state::State;
use av1_blocks::TxType;
use av1_plan::{Header, LeafKind, Part, TreeWalk, carries_chroma, cut_by};

/// What an unfinished plan needs next: the planes of a slot, the mark of a node, a leaf, or nothing more. It keeps none
/// of the bytes.
///
/// Each field has two calls. The first says why the arguments are rejected, if they are. If they aren't, append the
/// bytes of the field and then make the second call.
#[derive(Drop)]
pub struct Progress {
    // The slot whose planes the plan needs next, or 8.
    slot: usize,
    // The header, and the parts that the plan needs after the planes.
    walk: TreeWalk,
    ghost admitted: { admits_header walk.header ≡ true },
    ghost mask: { walk.header.mask < 256 },
    ghost seven: { length walk.header.slots ≡ 7 },
    ghost depth: { walk.header.depth ≤ 12 },
    ghost slots: { slot ≤ 8 },
}

/// The first slot from this one on that carries planes, or 8.
#[tactic(auto, using(crate::proofs::NextSlots::next_slots))]
fn next_slot(header: &Header, from: usize) -> usize
    requires { from ≤ 8 }
    ensures value { result ≡ next_slot header.now from }
    ensures within { result ≤ 8 }
{
    for slot in from..8 {
        if header.has_slot(slot) {
            return slot;
        }
    }
    8
}

impl Progress {
    ghost use Rattle.std.specs.Prelude.{◌≡◌, ◌<◌, ◌≤◌, ◌^◌, true, false, List, ℕ, [], length, Some, IfErr, IfSome, IsNone, IsSome, OnOk, is_some};
    ghost use Rattle.av1_plan.specs.Plan.{PlanValue};
    ghost use Rattle.av1_planwrite.specs.Builder.{built};
    ghost use Rattle.av1_planwrite.specs.Building.{
      LeafFields,
      Tells,
      admits_header,
      admits_leaf_fields,
      admits_mark,
      admits_reference,
      argument_refusal,
      asked_part,
      asks_leaf,
      asks_mark,
      asks_more,
      asks_reference,
      begun,
      plan_begun,
      plan_with_reference,
      with_leaf,
      with_mark,
      with_reference,
    };
    ghost use Rattle.av1_planwrite.specs.Given.{FitsKind};
    ghost use Rattle.av1_plan.specs.Remaining.{later_parts};
    ghost use Rattle.av1_plan.specs.Stacks.{has_room};
    ghost use Rattle.av1_planwrite.specs.States.{is_state, stopped};
    ghost use Rattle.av1_planwrite.specs.Text.{header_text};

    /// The state of a plan that only has this header. `None` if a value of the header isn't valid.
    pub fn new(header: &Header) -> Option<Progress>
        ensures admitted { IfSome result (λ p. admits_header header.now ≡ true) }
        ensures refused { IsNone result → admits_header header.now ≡ false }
        ensures begun { IfSome result (λ p. built p (header_text header.now) ≡ begun header.now) }
        // The bytes of the header spell the beginning of a plan with this header.
        ensures told { IfSome result (λ p. Tells (built p (header_text header.now)) (plan_begun header.now)) }
    {
        if !admits_header(header) {
            return None;
        }
        Some(Progress {
            slot: next_slot(header, 0),
            walk: TreeWalk::new(header),
        })
    }

    /// The plan with this header in this state. `None` if no plan with this header can be in this state.
    ///
    /// The call does not test which marks led to these parts.
    #[tactic(auto, unfolding(crate::specs::States::is_state))]
    pub fn resume(header: &Header, state: &State) -> Option<Progress>
        ensures resumed { IfSome result (λ p. built p [] ≡ stopped header.now state.now) }
        ensures exactly { is_some result ≡ is_state header.now state.now }
    {
        if !admits_header(header) {
            return None;
        }
        if state.slot > 8 {
            return None;
        }
        let Some(walk) = TreeWalk::resume(header, &state.parts, state.left) else {
            return None;
        };
        Some(Progress {
            slot: state.slot,
            walk,
        })
    }

    /// The state of the plan.
    pub fn state(&self) -> State
        ensures stopped { stopped (built self.now []).header result ≡ built self.now [] }
        ensures valid { is_state (built self.now []).header result ≡ true }
    {
        State {
            slot: self.slot,
            parts: self.walk.stacked(),
            left: self.walk.superblocks_left(),
        }
    }

    /// The header of the plan.
    pub fn header(&self) -> &Header
        ensures { result.now ≡ (built self.now []).header }
    {
        self.walk.header()
    }

    /// The bits of a sample of the plan.
    pub fn depth(&self) -> u8
        ensures { result ≡ (built self.now []).header.depth }
    {
        self.walk.header().depth
    }

    /// The part that the plan needs next. `None` while it needs planes, and at its end.
    pub fn asked_part(&self) -> Option<Part>
        ensures value { result ≡ asked_part (built self.now []) }
        ensures room { IfSome result (λ p. has_room p (length (later_parts self.now.walk.parts)) ≡ true) }
    {
        if self.slot < 8 {
            None
        } else {
            self.walk.first()
        }
    }

    /// Tests that these planes may come next.
    ///
    /// # Errors
    ///
    /// `NotNow` if the plan needs no planes next. `NotAdmitted` if a plane has the wrong number of samples, or one of
    /// its samples isn't below `1 << depth`.
    #[tactic(auto, using(crate::proofs::PlaneSizes::few_in_each))]
    pub fn check_reference(&self, y: &[u16], u: &[u16], v: &[u16]) -> Result<(), BuildError>
        ensures asked { OnOk result (asks_reference (built self.now []) ≡ true) }
        ensures admitted { OnOk result (admits_reference (built self.now []).header y.now u.now v.now ≡ true) }
        ensures few { OnOk result ((length y.now ≤ 2 ^ 22) × (length u.now ≤ 2 ^ 22) × (length v.now ≤ 2 ^ 22)) }
        ensures refused { IfErr result (λ e. argument_refusal (asks_reference (built self.now []))
            (admits_reference (built self.now []).header y.now u.now v.now) ≡ Some e) }
    {
        if self.slot >= 8 {
            return Err(BuildError::NotNow);
        }
        if !admits_reference(self.header(), y, u, v) {
            return Err(BuildError::NotAdmitted);
        }
        Ok(())
    }

    /// Moves past the planes that the plan needs. Append their bytes first.
    pub fn pass_reference(&mut self)
        requires { asks_reference (built self.old []) ≡ true }
        ensures given { (bytes y u v : List ℕ) →
            built self.new (with_reference (built self.old bytes) y u v).bytes ≡ with_reference (built self.old bytes) y u v }
        // If the bytes before spell a part of a plan, the bytes after spell this part with valid planes.
        ensures told { (bytes y u v : List ℕ) (p : PlanValue) → Tells (built self.old bytes) p → admits_reference (built self.old []).header y u v ≡ true
            → Tells (built self.new (with_reference (built self.old bytes) y u v).bytes) (plan_with_reference p y u v) }
    {
        self.slot = next_slot(self.walk.header(), self.slot + 1);
    }

    /// Tests that this mark may come next.
    ///
    /// # Errors
    ///
    /// `NotNow` if the plan needs no mark next. `NotAdmitted` if the node can't have this mark.
    pub fn check_mark(&self, mark: u8) -> Result<(), BuildError>
        ensures asked { OnOk result (asks_mark (asked_part (built self.now [])) ≡ true) }
        ensures admitted { OnOk result (admits_mark (built self.now []).header (asked_part (built self.now [])) mark ≡ true) }
        ensures refused { IfErr result (λ e. argument_refusal (asks_mark (asked_part (built self.now [])))
            (admits_mark (built self.now []).header (asked_part (built self.now [])) mark) ≡ Some e) }
    {
        let Some(Part::Node { level, x, y }) = self.asked_part() else {
            return Err(BuildError::NotNow);
        };
        if !self.header().is_mark(level, x, y, mark) {
            return Err(BuildError::NotAdmitted);
        }
        Ok(())
    }

    /// Moves past the mark that the plan needs. Append its byte first. The parts of the node come next.
    pub fn pass_mark(&mut self, mark: u8)
        requires { admits_mark (built self.old []).header (asked_part (built self.old [])) mark ≡ true }
        ensures given { (bytes : List ℕ) → built self.new (with_mark (built self.old bytes) mark).bytes ≡ with_mark (built self.old bytes) mark }
        // If the bytes before spell a part of a plan, so do the bytes after.
        ensures told { (bytes : List ℕ) (p : PlanValue) → Tells (built self.old bytes) p →
            Tells (built self.new (with_mark (built self.old bytes) mark).bytes) p }
    {
        self.walk.cut(cut_by(mark));
    }

    /// Tests that a leaf may come next that is predicted in this way, with `y`, `u` and `v` triples in Y, U and V.
    ///
    /// # Errors
    ///
    /// `NotNow` if the plan needs no leaf next. `NotAdmitted` if one of these holds:
    ///
    /// - The leaf carries chroma, and its chroma type or, in an intra leaf, its chroma mode is missing.
    /// - The leaf carries no chroma, and a chroma type or a chroma mode is given, or `u` or `v` isn't 0.
    /// - The mode doesn't fit the kind of the leaf, or the chroma mode is not valid.
    /// - A reference isn't one of LAST to ALTREF.
    /// - A plane has more than 65,535 triples.
    pub fn check_leaf(
        &self,
        kind: &LeafKind,
        uv_type: Option<TxType>,
        y: usize,
        u: usize,
        v: usize,
    ) -> Result<(), BuildError>
        ensures asked { OnOk result (asks_leaf (asked_part (built self.now [])) ≡ true) }
        ensures admitted { OnOk result (admits_leaf_fields (built self.now []).header (asked_part (built self.now [])) kind.now uv_type y u v ≡ true) }
        ensures fits { OnOk result (FitsKind kind.now) }
        ensures few { OnOk result ((y < 2 ^ 16) × (u < 2 ^ 16) × (v < 2 ^ 16)) }
        ensures refused { IfErr result (λ e. argument_refusal (asks_leaf (asked_part (built self.now [])))
            (admits_leaf_fields (built self.now []).header (asked_part (built self.now [])) kind.now uv_type y u v) ≡ Some e) }
    {
        let Some(Part::Leaf { size, x, y: row }) = self.asked_part() else {
            return Err(BuildError::NotNow);
        };
        let carried = carries_chroma(self.header(), x, row, size);
        if !admits_fields(carried, *kind, uv_type, y, u, v) {
            return Err(BuildError::NotAdmitted);
        }
        Ok(())
    }

    /// Moves past the leaf that the plan needs. Append its bytes first.
    pub fn pass_leaf(&mut self)
        requires { asks_leaf (asked_part (built self.old [])) ≡ true }
        ensures { (bytes : List ℕ) (l : LeafFields) → built self.new (with_leaf (built self.old bytes) l).bytes ≡ with_leaf (built self.old bytes) l }
    {
        self.walk.pass();
    }

    /// Whether the plan still needs a field.
    pub fn asks_more(&self) -> bool
        ensures { result ≡ asks_more (built self.now []) }
    {
        self.slot < 8 || self.walk.first().is_some()
    }
}
