//! Reads the fields of a header. Moves the reader forward; does not allocate.

use crate::error::PlanError;
use crate::header::Header;
use crate::reader::Reader;
use av1_blocks::FilterMode;

impl<'a> Reader<'a> {
    ghost use Rattle.std.specs.Prelude.{◌≡◌, ◌<◌, ◌≤◌, true, IfOk, IfErr};
    ghost use Rattle.av1_plan.specs.Format.{one, two, four, read_field, read};
    ghost use Rattle.av1_plan.specs.Grammar.{where_, is_magic, version, is_side, is_depth, slots, frame, header};
    ghost use Rattle.av1_plan.specs.ReadPlans.{AreSlots, IsSide};
    ghost use Rattle.av1_plan.specs.Reading.{Gives, IsAtByte, input, Moves};

    /// Reads the four letters at the front.
    #[tactic(auto, using(crate::proofs::Narrow::narrow))]
    fn magic(&mut self) -> Result<u32, PlanError>
        ensures read { Gives (λ x. (x, input self.new)) result (read_field (where_ four is_magic) (input self.old)) }
        ensures told { IfErr result IsAtByte }
        ensures moves { Moves self.old self.new }
    {
        let at = self.at;
        let value = self.any_u32()?;
        if value == u32::from_le_bytes(*b"RPL1")
            || value == u32::from_le_bytes(*b"RPL2")
            || value == u32::from_le_bytes(*b"RPL3")
        {
            Ok(value)
        } else {
            Err(PlanError::Malformed { at })
        }
    }

    /// Reads the version of the grammar: the four letters at the front.
    #[tactic(auto, unfolding(crate::specs::Grammar::version))]
    fn version(&mut self) -> Result<u8, PlanError>
        ensures read { Gives (λ x. (x, input self.new)) result (read version (input self.old)) }
        ensures told { IfErr result IsAtByte }
        ensures moves { Moves self.old self.new }
    {
        let letters = self.magic()?;
        Ok(if letters == u32::from_le_bytes(*b"RPL3") {
            3
        } else if letters == u32::from_le_bytes(*b"RPL2") {
            2
        } else {
            1
        })
    }

    /// Reads a shown side of the frame, in this version of the grammar.
    #[tactic(auto, using(crate::proofs::Narrow::narrow))]
    pub fn side(&mut self, version: u8) -> Result<u16, PlanError>
        ensures read { Gives (λ x. (x, input self.new)) result (read_field (where_ two (is_side version)) (input self.old)) }
        ensures told { IfErr result IsAtByte }
        ensures moves { Moves self.old self.new }
        ensures some { IfOk result (λ x. 0 < x) }
        ensures small { IfOk result (λ x. x ≤ 2048) }
        ensures side { IfOk result (λ x. version ≤ 2 → IsSide x) }
    {
        let at = self.at;
        let value = self.any_u16()?;
        if (version == 3 || value % 8 == 0) && 1 <= value && value <= 2048 {
            Ok(value)
        } else {
            Err(PlanError::Malformed { at })
        }
    }

    /// Reads the bits of a sample.
    #[tactic(auto, using(crate::proofs::Narrow::narrow))]
    pub fn depth(&mut self) -> Result<u8, PlanError>
        ensures read { Gives (λ x. (x, input self.new)) result (read_field (where_ one is_depth) (input self.old)) }
        ensures told { IfErr result IsAtByte }
        ensures moves { Moves self.old self.new }
        ensures small { IfOk result (λ x. x ≤ 12) }
        ensures depth { IfOk result (λ x. is_depth x ≡ true) }
    {
        let at = self.at;
        let value = self.any_byte()?;
        if value != 8 && value != 10 && value != 12 {
            Err(PlanError::Malformed { at })
        } else {
            Ok(value)
        }
    }

    /// Reads the slots of the seven references.
    #[tactic(auto, unfolding(crate::specs::Grammar::slots))]
    pub fn slots(&mut self) -> Result<[u8; 7], PlanError>
        ensures read { Gives (λ x. (x, input self.new)) result (read slots (input self.old)) }
        ensures told { IfErr result IsAtByte }
        ensures moves { Moves self.old self.new }
        ensures range { IfOk result AreSlots }
    {
        let last = self.byte(0, 7)?;
        let last_2 = self.byte(0, 7)?;
        let last_3 = self.byte(0, 7)?;
        let golden = self.byte(0, 7)?;
        let backward = self.byte(0, 7)?;
        let alternate_2 = self.byte(0, 7)?;
        let alternate = self.byte(0, 7)?;
        Ok([
            last,
            last_2,
            last_3,
            golden,
            backward,
            alternate_2,
            alternate,
        ])
    }

    /// Reads the frame, and what holds for all leaves, in this version.
    #[tactic(auto, using(crate::proofs::Formats::read_bind), unfolding(crate::specs::Grammar::frame))]
    pub fn frame(&mut self, version: u8) -> Result<Header, PlanError>
        ensures read { Gives (λ x. (x, input self.new)) result (read (frame version) (input self.old)) }
        ensures told { IfErr result IsAtByte }
        ensures moves { Moves self.old self.new }
        ensures some { IfOk result (λ h. (0 < h.width) × (0 < h.height)) }
        ensures small { IfOk result (λ h. (h.width ≤ 2048) × (h.height ≤ 2048) × (h.depth ≤ 12)) }
    {
        let width = self.side(version)?;
        let height = self.side(version)?;
        let depth = self.depth()?;
        let sampling = self.byte(0, 2)?;
        let filter = self.byte(0, 3)?;
        let filter = FilterMode::ALL[usize::from(filter)];
        let edge_filter = self.byte(0, 1)? == 1;
        let slots = self.slots()?;
        let mask = self.any_byte()?;
        Ok(Header {
            version,
            width,
            height,
            depth,
            sampling,
            filter,
            edge_filter,
            slots,
            mask,
        })
    }

    /// Reads the fields before the reference samples. It does not allocate.
    #[tactic(auto, using(crate::proofs::Formats::read_bind), unfolding(crate::specs::Grammar::header))]
    pub fn header(&mut self) -> Result<Header, PlanError>
        ensures read { Gives (λ x. (x, input self.new)) result (read header (input self.old)) }
        ensures told { IfErr result IsAtByte }
        ensures moves { Moves self.old self.new }
        ensures some { IfOk result (λ h. (0 < h.width) × (0 < h.height)) }
        ensures small { IfOk result (λ h. (h.width ≤ 2048) × (h.height ≤ 2048) × (h.depth ≤ 12)) }
    {
        let version = self.version()?;
        self.frame(version)
    }
}
