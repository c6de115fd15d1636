//! Draws how a leaf is predicted. Appends these fields to the maker's bytes, which may allocate.

ghost use Rattle.std.specs.Prelude.{◌≡◌, ◌≤◌};
ghost use Rattle.av1_plan.specs.Generator.{chroma_modes};

use crate::generate::maker::Maker;
use crate::{Header, admits_references};
use av1_blocks::{BlockSize, OutOfMemory};

/// The number of chroma modes that a leaf of this size may have. The last one, chroma from luma, is for sides up to 32.
#[tactic(auto, unfolding(crate::specs::Generator::chroma_modes, av1_blocks::specs::Blocks::cfl_allowed))]
fn chroma_modes(size: BlockSize) -> u16
    ensures value { result ≡ chroma_modes size }
    ensures least { 13 ≤ result }
    ensures most { result ≤ 14 }
{
    if size.cfl_allowed() { 14 } else { 13 }
}

impl Maker {
    ghost use Rattle.std.specs.Prelude.{◌≡◌, ◌<◌, OnOk};
    ghost use Rattle.av1_plan.specs.Generator.{step, weight, chroma_step, chroma_mode, intra, component, motion, single, compound, kind};
    ghost use Rattle.av1_plan.specs.Making.{work, run};

    /// Writes the angle step of the mode with this number: from -3 to 3 for the modes 1 to 8, which have an angle, else
    /// 0.
    #[tactic(auto, unfolding(crate::specs::Generator::step, crate::specs::Generator::less))]
    fn step(&mut self, mode: u16) -> Result<(), OutOfMemory>
        ensures { OnOk result (work self.new ≡ run (step mode) (work self.old)) }
    {
        if mode < 1 || mode > 8 {
            return self.byte(0);
        }
        let step = self.draw(7) as u8;
        self.byte(step.wrapping_sub(3))
    }

    /// Writes a weight of chroma from luma, from -16 to 16.
    #[tactic(auto, unfolding(crate::specs::Generator::weight, crate::specs::Generator::less))]
    fn weight(&mut self) -> Result<(), OutOfMemory>
        ensures { OnOk result (work self.new ≡ run weight (work self.old)) }
    {
        let weight = self.draw(33) as u8;
        self.byte(weight.wrapping_sub(16))
    }

    /// Writes the fields after the chroma mode with this number: 13 is chroma from luma.
    #[tactic(auto, unfolding(crate::specs::Generator::chroma_step))]
    fn chroma_step(&mut self, mode: u16) -> Result<(), OutOfMemory>
        ensures { OnOk result (work self.new ≡ run (chroma_step mode) (work self.old)) }
    {
        if mode == 13 {
            self.weight()?;
            return self.weight();
        }
        self.step(mode)
    }

    /// Writes a chroma mode and its step, or its weights.
    #[tactic(auto, unfolding(crate::specs::Generator::chroma_mode))]
    fn chroma_mode(&mut self, size: BlockSize) -> Result<(), OutOfMemory>
        ensures { OnOk result (work self.new ≡ run (chroma_mode size) (work self.old)) }
    {
        let mode = self.draw(chroma_modes(size));
        self.byte(mode as u8)?;
        self.chroma_step(mode)
    }

    /// Writes the kind of an intra leaf.
    #[tactic(auto, unfolding(crate::specs::Generator::intra))]
    fn intra(&mut self, size: BlockSize, carried: bool) -> Result<(), OutOfMemory>
        ensures { OnOk result (work self.new ≡ run (intra size carried) (work self.old)) }
    {
        let mode = self.draw(13);
        self.byte(mode as u8)?;
        self.step(mode)?;
        if !carried {
            return Ok(());
        }
        self.chroma_mode(size)
    }

    /// Writes a row or a column of a vector, from -128 to 128 eighths of a sample.
    #[tactic(auto, unfolding(crate::specs::Generator::component, crate::specs::Generator::less))]
    fn component(&mut self) -> Result<(), OutOfMemory>
        ensures { OnOk result (work self.new ≡ run component (work self.old)) }
    {
        let component = self.draw(257);
        self.u16_field(component.wrapping_sub(128))
    }

    /// Writes a reference and its vector.
    #[tactic(auto, unfolding(crate::specs::Generator::motion))]
    fn motion(&mut self) -> Result<(), OutOfMemory>
        ensures { OnOk result (work self.new ≡ run motion (work self.old)) }
    {
        let reference = self.draw(7) as u8;
        self.byte(1 + reference)?;
        self.component()?;
        self.component()
    }

    /// Writes the kind of a leaf that is predicted from one reference.
    #[tactic(auto, unfolding(crate::specs::Generator::single))]
    fn single(&mut self) -> Result<(), OutOfMemory>
        ensures { OnOk result (work self.new ≡ run single (work self.old)) }
    {
        let mode = self.draw(6) as u8;
        self.byte(14 + mode)?;
        self.motion()
    }

    /// Writes the kind of a leaf that is predicted from two references.
    #[tactic(auto, unfolding(crate::specs::Generator::compound))]
    fn compound(&mut self) -> Result<(), OutOfMemory>
        ensures { OnOk result (work self.new ≡ run compound (work self.old)) }
    {
        let mode = self.draw(14) as u8;
        self.byte(20 + mode)?;
        self.motion()?;
        self.motion()
    }

    /// Writes the kind of a leaf. Half of the leaves that may have references are intra.
    #[tactic(auto, unfolding(crate::specs::Generator::kind, crate::specs::Generator::kind_of))]
    pub fn kind(
        &mut self,
        frame: &Header,
        size: BlockSize,
        carried: bool,
    ) -> Result<(), OutOfMemory>
        ensures { OnOk result (work self.new ≡ run (kind frame.now size carried) (work self.old)) }
    {
        if !admits_references(frame, size) {
            return self.intra(size, carried);
        }
        match self.draw(4) {
            0 | 1 => self.intra(size, carried),
            2 => self.single(),
            _ => self.compound(),
        }
    }
}
