//! The type `Text`: bytes to which fields are appended, which may allocate, or from which they are removed again.

use crate::error::BuildError;
use av1_blocks::OutOfMemory;

// The greatest length of a plan in bytes.
const MOST_BYTES: usize = 67_108_864;

/// The bytes so far.
#[derive(Drop)]
pub struct Text {
    pub bytes: Vec<u8>,
}

impl Text {
    ghost use Rattle.std.specs.Prelude.{◌≡◌, ◌++◌, length, take, OnOk, OnErr};
    ghost use Rattle.av1_planwrite.specs.Building.{settled};
    ghost use Rattle.av1_planwrite.specs.Fronts.{Begins};
    ghost use Rattle.av1_planwrite.specs.Text.{byte, pair};

    /// Writes a field of one byte.
    pub fn byte(&mut self, value: u8) -> Result<(), OutOfMemory>
        ensures text { OnOk result (self.new.bytes.items ≡ self.old.bytes.items ++ byte value) }
        ensures front { Begins self.old.bytes.items self.new.bytes.items }
    {
        self.bytes.push(value)?;
        Ok(())
    }

    /// Writes a field of two bytes.
    pub fn pair(&mut self, value: u16) -> Result<(), OutOfMemory>
        ensures text { OnOk result (self.new.bytes.items ≡ self.old.bytes.items ++ pair value) }
        ensures front { Begins self.old.bytes.items self.new.bytes.items }
    {
        self.bytes.extend_from_slice(&value.to_le_bytes())?;
        Ok(())
    }

    /// Writes bytes as they are.
    pub fn copy(&mut self, bytes: &[u8]) -> Result<(), OutOfMemory>
        ensures text { OnOk result (self.new.bytes.items ≡ self.old.bytes.items ++ bytes.now) }
        ensures front { Begins self.old.bytes.items self.new.bytes.items }
    {
        self.bytes.extend_from_slice(bytes)?;
        Ok(())
    }

    /// Keeps what was written after the first bytes. If memory ran out or the text is too long, removes it again.
    pub fn settle(
        &mut self,
        kept: usize,
        written: Result<(), OutOfMemory>,
    ) -> Result<(), BuildError>
        ensures answer { result ≡ settled written (length self.old.bytes.items) }
        ensures kept { OnOk result (self.new.bytes.items ≡ self.old.bytes.items) }
        ensures back { OnErr result (self.new.bytes.items ≡ take kept self.old.bytes.items) }
    {
        let answer = match written {
            Ok(()) if self.bytes.len() <= MOST_BYTES => Ok(()),
            Ok(()) => Err(BuildError::TooLong),
            Err(OutOfMemory) => Err(BuildError::Memory),
        };
        if answer.is_err() {
            self.bytes.truncate(kept);
        }
        answer
    }
}
