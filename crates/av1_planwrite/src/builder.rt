//! Builds a plan's bytes, one call for each field; a rejected call changes nothing. Allocates as the bytes grow.

ghost use Rattle.av1_planwrite.specs.Builder.{built, TellsSome};

use crate::error::BuildError;
use crate::progress::Progress;
use crate::text::Text;
use av1_blocks::{TxSize, TxType};
use av1_plan::{Header, LeafKind, Triple};
use std::alloc::Global;

/// An unfinished plan that an encoder fills while it encodes.
///
/// [`PlanBuilder::new`] takes the header. Then come the planes of each slot of the mask, in rising order
/// ([`PlanBuilder::reference`]). Then come the superblocks in order. Each node's mark comes before the node's parts
/// ([`PlanBuilder::mark`]), and each leaf is one call ([`PlanBuilder::leaf`]). Parts that begin outside the frame are
/// left out. [`PlanBuilder::finish`] returns the bytes.
///
/// The builder keeps the bytes of the fields so far. These are always a proper list of fields of the plan grammar. The
/// builder also keeps, in constant space, what the grammar needs next ([`Progress`]). A rejected call changes nothing.
/// Tests of arguments take constant time, except the tests of samples and triples. Only the growth of the bytes
/// allocates.
#[derive(Drop)]
pub struct PlanBuilder {
    progress: Progress,
    text: Text,
    // The bytes are the fields of a proper list of the plan grammar, which spells a part of some plan.
    ghost tells: { ∥ TellsSome (built progress text.bytes.items) ∥₁ },
}

impl PlanBuilder {
    ghost use Rattle.std.specs.Prelude.{◌≡◌, true, false, IfOk, IfErr, OnOk, OnErr};
    ghost use Rattle.av1_plan.specs.Grammar.{plan};
    ghost use Rattle.av1_plan.specs.Plan.{PlanValue};
    ghost use Rattle.av1_plan.specs.Spelling.{AreText};
    ghost use Rattle.av1_planwrite.specs.Held.{building};
    ghost use Rattle.av1_planwrite.specs.Building.{
      asked_part,
      Answers,
      header_refusal,
      begun,
      with_reference,
      reference_refusal,
      with_mark,
      mark_refusal,
      with_leaf,
      leaf_refusal,
      asks_more,
      Tells,
      plan_begun,
      plan_with_reference,
      plan_with_leaf,
    };

    /// A builder of a plan with this header. The plan's bytes begin with the header's fields.
    ///
    /// # Errors
    ///
    /// `NotAdmitted` if a value of the header isn't valid. `Memory` if memory runs out.
    pub fn new(alloc: Global, header: &Header) -> Result<PlanBuilder, BuildError>
        // The call rejects exactly the headers with a bad value, unless memory runs out.
        ensures answers { Answers result (header_refusal header.now) }
        ensures begun { IfOk result (λ b. building b ≡ begun header.now) }
        // The bytes are a proper list, which spells the header of a plan.
        ensures told { IfOk result (λ b. Tells (building b) (plan_begun header.now)) }
    {
        let Some(progress) = Progress::new(header) else {
            return Err(BuildError::NotAdmitted);
        };
        let mut text = Text {
            bytes: Vec::new(alloc),
        };
        text.header(header)?;
        Ok(PlanBuilder { progress, text })
    }

    /// Appends the planes of the next slot of the mask, each row by row.
    ///
    /// # Errors
    ///
    /// `NotNow` if the plan needs no planes next. `NotAdmitted` if a plane has the wrong number of samples, or one of
    /// its samples isn't below `1 << depth`. `TooLong` if there would be more than 2^26 bytes. `Memory` if memory runs
    /// out. After an error the builder is unchanged.
    pub fn reference(&mut self, y: &[u16], u: &[u16], v: &[u16]) -> Result<(), BuildError>
        // The error is the first reason that holds, unless memory runs out.
        ensures answers { Answers result (reference_refusal (building self.old) y.now u.now v.now) }
        // The call appends exactly these planes.
        ensures given { OnOk result (building self.new ≡ with_reference (building self.old) y.now u.now v.now) }
        // If the bytes before spell a part of a plan, the bytes after spell this part with these planes.
        ensures told { (p : PlanValue) → Tells (building self.old) p → OnOk result (Tells (building self.new) (plan_with_reference p y.now u.now v.now)) }
        // After an error the builder is unchanged.
        ensures kept { OnErr result (building self.new ≡ building self.old) }
    {
        self.progress.check_reference(y, u, v)?;
        let kept = self.text.bytes.len();
        let written = self.text.planes(self.progress.depth(), y, u, v);
        self.text.settle(kept, written)?;
        self.progress.pass_reference();
        Ok(())
    }

    /// Appends the mark of the next node.
    ///
    /// # Errors
    ///
    /// `NotNow` if the plan needs no mark next. `NotAdmitted` if the node can't have this mark. `TooLong` if there
    /// would be more than 2^26 bytes. `Memory` if memory runs out. After an error the builder is unchanged.
    pub fn mark(&mut self, mark: u8) -> Result<(), BuildError>
        // The error is the first reason that holds, unless memory runs out.
        ensures answers { Answers result (mark_refusal (building self.old) mark) }
        // The call appends exactly this mark.
        ensures given { OnOk result (building self.new ≡ with_mark (building self.old) mark) }
        // If the bytes before spell a part of a plan, so do the bytes after.
        ensures told { (p : PlanValue) → Tells (building self.old) p → OnOk result (Tells (building self.new) p) }
        // After an error the builder is unchanged.
        ensures kept { OnErr result (building self.new ≡ building self.old) }
    {
        self.progress.check_mark(mark)?;
        let kept = self.text.bytes.len();
        let written = self.text.byte(mark);
        self.text.settle(kept, written)?;
        self.progress.pass_mark(mark);
        Ok(())
    }

    /// Appends the next leaf. The marks decide its size and position.
    ///
    /// # Errors
    ///
    /// `NotNow` if the plan needs no leaf next. `TooLong` if there would be more than 2^26 bytes. `Memory` if memory
    /// runs out. After an error the builder is unchanged. `NotAdmitted` if one of these holds:
    ///
    /// - The leaf carries chroma, and its chroma type or, in an intra leaf, its chroma mode is missing.
    /// - The leaf carries no chroma, and a chroma type, a chroma mode or a triple of `u` or `v` is given.
    /// - The mode doesn't fit the kind of the leaf, or the chroma mode is not valid.
    /// - A reference isn't one of LAST to ALTREF.
    /// - A plane has more than 65,535 triples.
    pub fn leaf(
        &mut self,
        kind: &LeafKind,
        tx_size: TxSize,
        tx_type: TxType,
        uv_type: Option<TxType>,
        y: &[Triple],
        u: &[Triple],
        v: &[Triple],
    ) -> Result<(), BuildError>
        // The error is the first reason that holds, unless memory runs out.
        ensures answers { Answers result
            (leaf_refusal (building self.old)
            (record { kind = kind.now; tx_size = tx_size; tx_type = tx_type; uv_type = uv_type; y = y.now; u = u.now; v = v.now })) }
        // The call appends exactly the fields of this leaf.
        ensures given { OnOk result
            (building self.new ≡ with_leaf (building self.old)
            (record { kind = kind.now; tx_size = tx_size; tx_type = tx_type; uv_type = uv_type; y = y.now; u = u.now; v = v.now })) }
        // If the bytes before spell a part of a plan, the bytes after spell this part with this leaf.
        ensures told { (p : PlanValue) → Tells (building self.old) p →
            OnOk result
            (Tells (building self.new)
            (plan_with_leaf p (asked_part (building self.old))
            (record { kind = kind.now; tx_size = tx_size; tx_type = tx_type; uv_type = uv_type; y = y.now; u = u.now; v = v.now }))) }
        // After an error the builder is unchanged.
        ensures kept { OnErr result (building self.new ≡ building self.old) }
    {
        self.progress
            .check_leaf(kind, uv_type, y.len(), u.len(), v.len())?;
        let kept = self.text.bytes.len();
        let written = self.text.leaf(*kind, tx_size, tx_type, uv_type, y, u, v);
        self.text.settle(kept, written)?;
        self.progress.pass_leaf();
        Ok(())
    }

    /// Returns the bytes of the plan: its text.
    ///
    /// # Errors
    ///
    /// The builder itself, if the plan still needs a field.
    pub fn finish(self) -> Result<Vec<u8>, PlanBuilder>
        ensures complete { IfOk result (λ bytes. asks_more (building self) ≡ false) }
        ensures bytes { IfOk result (λ bytes. bytes.items ≡ (building self).bytes) }
        // The bytes are the text of a plan, whatever was given.
        ensures of_some { IfOk result (λ bytes. ∥ ((p : PlanValue) × AreText plan bytes.items p) ∥₁) }
        // The bytes are the text of the plan whose parts were given.
        ensures text { (p : PlanValue) → Tells (building self) p → IfOk result (λ bytes. AreText plan bytes.items p) }
        ensures asked { IfErr result (λ b. asks_more (building self) ≡ true) }
        ensures kept { IfErr result (λ b. b ≡ self) }
    {
        if self.progress.asks_more() {
            return Err(self);
        }
        let PlanBuilder { text, .. } = self;
        let Text { bytes } = text;
        Ok(bytes)
    }
}
