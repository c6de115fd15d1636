//! Tests which marks a node may have, and reads a mark. Moves the reader forward; does not allocate.

use crate::error::PlanError;
use crate::header::Header;
use crate::nodes::{cut_by, half_side};
use crate::reader::Reader;
use av1_blocks::PartitionType;

impl Header {
    ghost use Rattle.std.specs.Prelude.{◌≡◌, ◌≤◌, true};
    ghost use Rattle.av1_plan.specs.Grammar.{admits_stripes, is_mark};

    /// Whether a node of side `4 << level` may be cut into four leaves that are a quarter as wide or as high. It needs
    /// the second version or a later one and a side from 16 to 64, and has to lie wholly in the coded frame.
    #[tactic(auto, unfolding(crate::specs::Grammar::admits_stripes))]
    fn admits_stripes(&self, level: u8, x: u16, y: u16) -> bool
        requires level { level ≤ 4 }
        requires x { x ≤ 4096 }
        requires y { y ≤ 4096 }
        ensures { result ≡ admits_stripes self.now level x y }
    {
        let side = 2 * half_side(level);
        2 <= self.version
            && 2 <= level
            && usize::from(x + side) <= self.coded_width()
            && usize::from(y + side) <= self.coded_height()
    }

    /// Whether a node may have this mark: 0 to 3, or 8 or 9 for four leaves. The node has side `4 << level` in luma
    /// samples, and its first sample is at column `x` and row `y`.
    #[tactic(auto, unfolding(crate::specs::Grammar::is_mark))]
    pub fn is_mark(&self, level: u8, x: u16, y: u16, mark: u8) -> bool
        requires level { level ≤ 4 }
        requires x { x ≤ 4096 }
        requires y { y ≤ 4096 }
        ensures value { result ≡ is_mark self.now level x y mark }
        ensures small { result ≡ true → mark ≤ 9 }
    {
        mark <= 3 || (8 <= mark && mark <= 9 && self.admits_stripes(level, x, y))
    }
}

impl<'a> Reader<'a> {
    ghost use Rattle.std.specs.Prelude.{◌≡◌, ◌<◌, ◌≤◌, IfOk, OnOk};
    ghost use Rattle.av1_plan.specs.Format.{one, read_field, read};
    ghost use Rattle.av1_plan.specs.Grammar.{where_, is_mark, mark};
    ghost use Rattle.av1_plan.specs.Reading.{Gives, input, Moves};

    /// Reads the number of a mark that a node of side `4 << level` at column `x` and row `y` may have.
    #[tactic(auto, using(crate::proofs::Narrow::narrow))]
    fn mark_number(&mut self, header: &Header, level: u8, x: u16, y: u16) -> Result<u8, PlanError>
        requires level { level ≤ 4 }
        requires x { x ≤ 4096 }
        requires y { y ≤ 4096 }
        ensures read { Gives (λ v. (v, input self.new)) result (read_field (where_ one (is_mark header.now level x y)) (input self.old)) }
        ensures takes { OnOk result (self.old.at < self.new.at) }
        ensures moves { Moves self.old self.new }
        ensures range { IfOk result (λ v. v ≤ 9) }
    {
        let at = self.at;
        let value = self.any_byte()?;
        if header.is_mark(level, x, y, value) {
            Ok(value)
        } else {
            Err(PlanError::Malformed { at })
        }
    }

    /// Reads the cut of a node of side `4 << level` at column `x` and row `y`.
    #[tactic(auto, using(crate::proofs::Formats::read_bind), unfolding(crate::specs::Grammar::mark))]
    pub fn mark(
        &mut self,
        header: &Header,
        level: u8,
        x: u16,
        y: u16,
    ) -> Result<PartitionType, PlanError>
        requires level { level ≤ 4 }
        requires x { x ≤ 4096 }
        requires y { y ≤ 4096 }
        ensures read { Gives (λ cut. (cut, input self.new)) result (read (mark header.now level x y) (input self.old)) }
        ensures takes { OnOk result (self.old.at < self.new.at) }
        ensures moves { Moves self.old self.new }
    {
        let number = self.mark_number(header, level, x, y)?;
        Ok(cut_by(number))
    }
}
