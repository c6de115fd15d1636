//! Reads numbers from the front of a slice, and counts the position. Changes only itself, never allocates.

ghost use Rattle.std.specs.Prelude.{◌+◌, ◌≤◌, ◌^◌, length};

mod header;
mod leaf;
mod mark;
mod references;

use crate::error::PlanError;

/// The bytes that are left.
#[derive(Drop)]
pub struct Reader<'a> {
    pub rest: &'a [u8],
    /// The position of the next byte.
    pub at: u32,
    ghost fits: { at + length rest.now ≤ 2 ^ 26 },
}

impl<'a> Reader<'a> {
    ghost use Rattle.std.specs.Prelude.{◌≡◌, ◌+◌, ◌<◌, ◌≤◌, ◌^◌, length, IfOk, IfErr, OnOk, OnErr};
    ghost use Rattle.av1_plan.specs.Format.{one, two, four, any, read_field, read_part};
    ghost use Rattle.av1_plan.specs.Grammar.{byte_from};
    ghost use Rattle.av1_plan.specs.Reading.{Gives, IsAtByte, input, Moves};

    fn malformed<T>(&self) -> Result<T, PlanError>
        ensures { result ≡ Err (PlanError.Malformed self.now.at) }
    {
        Err(PlanError::Malformed { at: self.at })
    }

    /// Checks that no byte is left.
    pub fn end(&self) -> Result<(), PlanError>
        ensures done { OnOk result (length self.now.rest.now ≡ 0) }
        ensures left { OnErr result (0 < length self.now.rest.now) }
        ensures place { IfErr result (λ e. e ≡ PlanError.Malformed self.now.at) }
    {
        if !self.rest.is_empty() {
            return self.malformed();
        }
        Ok(())
    }

    /// Reads any byte.
    #[tactic(auto, unfolding(crate::specs::Format::read_field))]
    pub fn any_byte(&mut self) -> Result<u8, PlanError>
        ensures read { Gives (λ x. (x, input self.new)) result (read_field (any one) (input self.old)) }
        ensures told { IfErr result IsAtByte }
        ensures takes { OnOk result (self.old.at < self.new.at) }
        ensures moves { Moves self.old self.new }
    {
        match self.rest {
            [value, rest @ ..] => {
                self.rest = rest;
                self.at += 1;
                Ok(*value)
            }
            _ => self.malformed(),
        }
    }

    /// Reads any number of two bytes.
    #[tactic(auto, unfolding(crate::specs::Format::read_field))]
    pub fn any_u16(&mut self) -> Result<u16, PlanError>
        ensures read { Gives (λ x. (x, input self.new)) result (read_field (any two) (input self.old)) }
        ensures told { IfErr result IsAtByte }
        ensures takes { OnOk result (self.old.at < self.new.at) }
        ensures moves { Moves self.old self.new }
    {
        match self.rest {
            [a, b, rest @ ..] => {
                let value = u16::from_le_bytes([*a, *b]);
                self.rest = rest;
                self.at += 2;
                Ok(value)
            }
            _ => self.malformed(),
        }
    }

    /// Reads any number of four bytes.
    #[tactic(auto, unfolding(crate::specs::Format::read_field))]
    pub fn any_u32(&mut self) -> Result<u32, PlanError>
        ensures read { Gives (λ x. (x, input self.new)) result (read_field (any four) (input self.old)) }
        ensures told { IfErr result IsAtByte }
        ensures takes { OnOk result (self.old.at < self.new.at) }
        ensures moves { Moves self.old self.new }
    {
        match self.rest {
            [a, b, c, d, rest @ ..] => {
                let value = u32::from_le_bytes([*a, *b, *c, *d]);
                self.rest = rest;
                self.at += 4;
                Ok(value)
            }
            _ => self.malformed(),
        }
    }

    /// Reads a part of any length: a number of four bytes, and then that many bytes, which are one field.
    #[tactic(auto, unfolding(crate::specs::Format::read_part))]
    pub fn part(&mut self) -> Result<&'a [u8], PlanError>
        ensures read { Gives (λ x. (x.now, input self.new)) result (read_part (input self.old)) }
        ensures moves { Moves self.old self.new }
        ensures short { IfOk result (λ x. length x.now ≤ 2 ^ 26) }
    {
        let len = self.any_u32()? as usize;
        let rest = self.rest;
        if rest.len() < len {
            return self.malformed();
        }
        self.rest = &rest[len..];
        self.at += len as u32;
        Ok(&rest[..len])
    }

    /// Reads a byte from `first` to `last`.
    #[tactic(auto, using(crate::proofs::Narrow::narrow))]
    pub fn byte(&mut self, first: u8, last: u8) -> Result<u8, PlanError>
        ensures read { Gives (λ x. (x, input self.new)) result (read_field (byte_from first last) (input self.old)) }
        ensures told { IfErr result IsAtByte }
        ensures takes { OnOk result (self.old.at < self.new.at) }
        ensures moves { Moves self.old self.new }
        ensures range { IfOk result (λ x. (first ≤ x) × (x ≤ last)) }
    {
        let at = self.at;
        let value = self.any_byte()?;
        if value < first || last < value {
            Err(PlanError::Malformed { at })
        } else {
            Ok(value)
        }
    }
}
