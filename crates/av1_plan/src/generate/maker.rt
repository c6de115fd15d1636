//! Draws random numbers, and appends fields to the bytes of a plan. Appending may allocate.

ghost use Rattle.std.specs.Prelude.{◌≡◌, ◌<◌, ◌%◌, [], OnOk};

use av1_blocks::OutOfMemory;
use std::alloc::Global;

/// The bytes so far, and the state of the generator of numbers.
#[derive(Drop)]
pub struct Maker {
    pub state: u64,
    pub bytes: Vec<u8>,
}

impl Maker {
    ghost use Rattle.std.specs.Prelude.{◌≡◌, ◌<◌, ◌%◌, [], OnOk};
    ghost use Rattle.av1_plan.specs.Format.{one, two, four};
    ghost use Rattle.av1_plan.specs.Draft.{writes};
    ghost use Rattle.av1_plan.specs.Numbers.{state_after, number_of};
    ghost use Rattle.av1_plan.specs.Making.{work, run};

    /// A maker without bytes. The number is the seed of the draws.
    pub fn new(alloc: Global, number: u32) -> Maker
        ensures { work result ≡ ([], number) }
    {
        Maker {
            state: u64::from(number),
            bytes: Vec::new(alloc),
        }
    }

    /// Draws the next number below `k`. All randomness comes from here.
    #[tactic(auto, unfolding(crate::specs::Numbers::state_after, crate::specs::Numbers::number_of))]
    pub fn draw(&mut self, k: u16) -> u16
        requires { 0 < k }
        ensures value { result ≡ number_of (state_after self.old.state) % k }
        ensures below { result < k }
        ensures work { work self.new ≡ (self.old.bytes.items, state_after self.old.state) }
    {
        self.state = self
            .state
            .wrapping_mul(6_364_136_223_846_793_005)
            .wrapping_add(1_442_695_040_888_963_407);
        ((self.state >> 33) % u64::from(k)) as u16
    }

    /// Writes a field of one byte.
    pub fn byte(&mut self, value: u8) -> Result<(), OutOfMemory>
        ensures { OnOk result (work self.new ≡ run (writes one value) (work self.old)) }
    {
        self.bytes.push(value)?;
        Ok(())
    }

    /// Writes a field of two bytes.
    pub fn u16_field(&mut self, value: u16) -> Result<(), OutOfMemory>
        ensures { OnOk result (work self.new ≡ run (writes two value) (work self.old)) }
    {
        self.bytes.extend_from_slice(&value.to_le_bytes())?;
        Ok(())
    }

    /// Writes a field of four bytes.
    pub fn u32_field(&mut self, value: u32) -> Result<(), OutOfMemory>
        ensures { OnOk result (work self.new ≡ run (writes four value) (work self.old)) }
    {
        self.bytes.extend_from_slice(&value.to_le_bytes())?;
        Ok(())
    }
}
