//! Reads the fields of a leaf. Moves the reader forward, and appends triples to a list, which may allocate.

use crate::error::PlanError;
use crate::geometry::carries_chroma;
use crate::header::Header;
use crate::leaf::{ChromaMode, Leaf, LeafKind, Triple};
use crate::reader::Reader;
use av1_blocks::{BlockSize, MotionVector, PredictionMode, RefType, TxSize, TxType};

impl<'a> Reader<'a> {
    ghost use Rattle.std.specs.Prelude.{◌≡◌, ◌+◌, ◌<◌, ◌≤◌, length, IfOk, OnOk, sum, ◌∷◌, []};
    ghost use Rattle.av1_plan.specs.Format.{read, lone, in_turn, add};
    ghost use Rattle.av1_plan.specs.Grammar.{
      vector,
      reference_frame,
      chroma_mode,
      intra,
      single,
      compound,
      leaf_kind,
      tx_size,
      tx_type,
      uv_type,
      triple,
      triples,
      chroma_triples,
      leaf,
    };
    ghost use Rattle.av1_plan.specs.Plan.{cut, leaf_value};
    ghost use Rattle.av1_plan.specs.Reading.{Gives, input, Moves, Extends, added};

    #[tactic(auto, unfolding(crate::specs::Grammar::vector))]
    fn vector(&mut self) -> Result<MotionVector, PlanError>
        ensures read { Gives (λ x. (x, input self.new)) result (read vector (input self.old)) }
        ensures moves { Moves self.old self.new }
    {
        let row = self.any_u16()?.cast_signed();
        let col = self.any_u16()?.cast_signed();
        Ok(MotionVector { row, col })
    }

    #[tactic(auto, unfolding(crate::specs::Grammar::reference_frame))]
    fn reference_frame(&mut self) -> Result<RefType, PlanError>
        ensures read { Gives (λ x. (x, input self.new)) result (read reference_frame (input self.old)) }
        ensures moves { Moves self.old self.new }
    {
        let number = self.byte(1, 7)?;
        Ok(RefType::ALL[usize::from(number)])
    }

    #[tactic(auto, unfolding(crate::specs::Grammar::chroma_mode))]
    fn chroma_mode(&mut self) -> Result<ChromaMode, PlanError>
        ensures read { Gives (λ x. (x, input self.new)) result (read chroma_mode (input self.old)) }
        ensures moves { Moves self.old self.new }
    {
        let number = self.byte(0, 13)?;
        if number == 13 {
            let alpha_u = self.any_byte()?.cast_signed();
            let alpha_v = self.any_byte()?.cast_signed();
            return Ok(ChromaMode::Cfl { alpha_u, alpha_v });
        }
        let mode = PredictionMode::ALL[usize::from(number)];
        let step = self.any_byte()?.cast_signed();
        Ok(ChromaMode::Plain { mode, step })
    }

    #[tactic(auto, using(crate::proofs::Formats::read_bind), unfolding(crate::specs::Grammar::intra))]
    fn intra(&mut self, mode: PredictionMode, has_chroma: bool) -> Result<LeafKind, PlanError>
        ensures read { Gives (λ x. (x, input self.new)) result (read (intra has_chroma mode) (input self.old)) }
        ensures moves { Moves self.old self.new }
    {
        let step = self.any_byte()?.cast_signed();
        if has_chroma {
            let chroma = self.chroma_mode()?;
            return Ok(LeafKind::Intra {
                mode,
                step,
                chroma: Some(chroma),
            });
        }
        Ok(LeafKind::Intra {
            mode,
            step,
            chroma: None,
        })
    }

    #[tactic(auto, using(crate::proofs::Formats::read_bind), unfolding(crate::specs::Grammar::single))]
    fn single(&mut self, mode: PredictionMode) -> Result<LeafKind, PlanError>
        ensures read { Gives (λ x. (x, input self.new)) result (read (single mode) (input self.old)) }
        ensures moves { Moves self.old self.new }
    {
        let reference = self.reference_frame()?;
        let mv = self.vector()?;
        Ok(LeafKind::Single {
            mode,
            reference,
            mv,
        })
    }

    #[tactic(auto, using(crate::proofs::Formats::read_bind), unfolding(crate::specs::Grammar::compound))]
    fn compound(&mut self, mode: PredictionMode) -> Result<LeafKind, PlanError>
        ensures read { Gives (λ x. (x, input self.new)) result (read (compound mode) (input self.old)) }
        ensures moves { Moves self.old self.new }
    {
        let first = self.reference_frame()?;
        let first_mv = self.vector()?;
        let second = self.reference_frame()?;
        let second_mv = self.vector()?;
        Ok(LeafKind::Compound {
            mode,
            references: [first, second],
            mvs: [first_mv, second_mv],
        })
    }

    #[tactic(auto, using(crate::proofs::Formats::read_bind), unfolding(crate::specs::Grammar::leaf_kind))]
    fn leaf_kind(&mut self, has_chroma: bool) -> Result<LeafKind, PlanError>
        ensures read { Gives (λ x. (x, input self.new)) result (read (leaf_kind has_chroma) (input self.old)) }
        ensures takes { OnOk result (self.old.at < self.new.at) }
        ensures moves { Moves self.old self.new }
    {
        let number = self.byte(0, 33)?;
        let mode = PredictionMode::ALL[usize::from(number)];
        if number < 14 {
            self.intra(mode, has_chroma)
        } else if number < 20 {
            self.single(mode)
        } else {
            self.compound(mode)
        }
    }

    #[tactic(auto, unfolding(crate::specs::Grammar::tx_size))]
    fn tx_size(&mut self) -> Result<TxSize, PlanError>
        ensures read { Gives (λ x. (x, input self.new)) result (read tx_size (input self.old)) }
        ensures moves { Moves self.old self.new }
    {
        let number = self.byte(0, 18)?;
        Ok(TxSize::ALL[usize::from(number)])
    }

    #[tactic(auto, unfolding(crate::specs::Grammar::tx_type))]
    fn tx_type(&mut self) -> Result<TxType, PlanError>
        ensures read { Gives (λ x. (x, input self.new)) result (read tx_type (input self.old)) }
        ensures moves { Moves self.old self.new }
    {
        let number = self.byte(0, 16)?;
        Ok(TxType::ALL[usize::from(number)])
    }

    #[tactic(auto, using(crate::proofs::Formats::read_bind), unfolding(crate::specs::Grammar::uv_type))]
    fn uv_type(&mut self, has_chroma: bool) -> Result<Option<TxType>, PlanError>
        ensures read { Gives (λ x. (x, input self.new)) result (read (uv_type has_chroma) (input self.old)) }
        ensures moves { Moves self.old self.new }
    {
        if has_chroma {
            let uv_type = self.tx_type()?;
            Ok(Some(uv_type))
        } else {
            Ok(None)
        }
    }

    /// Reads a triple, field by field.
    #[tactic(auto, unfolding(crate::specs::Grammar::triple))]
    fn triple_by_fields(&mut self) -> Result<Triple, PlanError>
        ensures read { Gives (λ x. (x, input self.new)) result (read triple (input self.old)) }
        ensures takes { OnOk result (self.old.at < self.new.at) }
        ensures moves { Moves self.old self.new }
    {
        let block = self.any_byte()?;
        let place = self.any_u16()?;
        let value = self.any_u32()?.cast_signed();
        Ok(Triple {
            block,
            place,
            value,
        })
    }

    /// Reads a triple: its seven bytes at once, if there are enough bytes.
    #[tactic(auto, unfolding(crate::specs::Grammar::triple, crate::specs::Format::read_field))]
    fn triple(&mut self) -> Result<Triple, PlanError>
        ensures read { Gives (λ x. (x, input self.new)) result (read triple (input self.old)) }
        ensures takes { OnOk result (self.old.at < self.new.at) }
        ensures moves { Moves self.old self.new }
    {
        match self.rest {
            [block, p, q, a, b, c, d, rest @ ..] => {
                let triple = Triple {
                    block: *block,
                    place: u16::from_le_bytes([*p, *q]),
                    value: u32::from_le_bytes([*a, *b, *c, *d]).cast_signed(),
                };
                self.rest = rest;
                self.at += 7;
                Ok(triple)
            }
            _ => self.triple_by_fields(),
        }
    }

    /// Reads `count` triples, and puts them after the others.
    #[tactic(auto, using(crate::proofs::Formats::turns))]
    fn more_triples(&mut self, count: u16, into: &mut Vec<Triple>) -> Result<(), PlanError>
        ensures read { Gives (λ _. (into.new.items, input self.new)) result (add (in_turn (λ _. lone triple) 0 count) (into.old.items, input self.old)) }
        ensures moves { Moves self.old self.new }
        ensures count { OnOk result (length into.new.items ≡ length into.old.items + count) }
        ensures room { length into.new.items + self.old.at ≤ length into.old.items + self.new.at }
    {
        for _ in 0..count {
            let triple = self.triple()?;
            into.push(triple)?;
        }
        Ok(())
    }

    /// Reads a count and that many triples, puts the triples after the others, and returns the count.
    fn triples(&mut self, into: &mut Vec<Triple>) -> Result<u16, PlanError>
        ensures read { Gives (λ n. (added into.old.items into.new.items n, input self.new)) result (read triples (input self.old)) }
        ensures extends { IfOk result (λ n. Extends into.old.items into.new.items n) }
        ensures moves { Moves self.old self.new }
        ensures room { length into.new.items + self.old.at ≤ length into.old.items + self.new.at }
    {
        let count = self.any_u16()?;
        self.more_triples(count, into)?;
        Ok(count)
    }

    /// Reads the triples of both chroma planes, if the leaf carries chroma, and returns their counts.
    #[tactic(auto, using(crate::proofs::Formats::read_bind), unfolding(crate::specs::Grammar::chroma_triples))]
    fn chroma_triples(
        &mut self,
        has_chroma: bool,
        into: &mut Vec<Triple>,
    ) -> Result<(u16, u16), PlanError>
        ensures read { Gives (λ ns. (cut into.new.items (length into.old.items) (ns.0 ∷ ns.1 ∷ []), input self.new)) result
            (read (chroma_triples has_chroma) (input self.old)) }
        ensures extends { IfOk result (λ ns. Extends into.old.items into.new.items (ns.0 + ns.1)) }
        ensures moves { Moves self.old self.new }
        ensures room { length into.new.items + self.old.at ≤ length into.old.items + self.new.at }
    {
        if !has_chroma {
            return Ok((0, 0));
        }
        let u = self.triples(into)?;
        let v = self.triples(into)?;
        Ok((u, v))
    }

    /// Reads a leaf of this size, at column `x` and row `y` of luma. Its triples come after the others.
    #[tactic(auto, using(crate::proofs::Formats::read_bind), unfolding(crate::specs::Grammar::leaf))]
    pub fn leaf(
        &mut self,
        header: &Header,
        size: BlockSize,
        x: u16,
        y: u16,
        into: &mut Vec<Triple>,
    ) -> Result<Leaf, PlanError>
        requires room { length into.old.items ≤ self.old.at }
        ensures read { Gives (λ l. (leaf_value into.new.items l, input self.new)) result (read (leaf header.now size x y) (input self.old)) }
        ensures first { IfOk result (λ l. l.first ≡ length into.old.items) }
        ensures extends { IfOk result (λ l. Extends into.old.items into.new.items (sum l.counts)) }
        ensures takes { OnOk result (self.old.at < self.new.at) }
        ensures moves { Moves self.old self.new }
        ensures room { length into.new.items ≤ self.new.at }
    {
        let has_chroma = carries_chroma(header, x, y, size);
        let kind = self.leaf_kind(has_chroma)?;
        let tx_size = self.tx_size()?;
        let tx_type = self.tx_type()?;
        let uv_type = self.uv_type(has_chroma)?;
        let first = into.len() as u32;
        let luma = self.triples(into)?;
        let (u, v) = self.chroma_triples(has_chroma, into)?;
        Ok(Leaf {
            x,
            y,
            size,
            kind,
            tx_size,
            tx_type,
            uv_type,
            first,
            counts: [luma, u, v],
        })
    }
}
