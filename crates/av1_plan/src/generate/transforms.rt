//! Draws a whole leaf: prediction, transforms, coefficients. Appends it to the maker's bytes, which may allocate.

use crate::Header;
use crate::generate::maker::Maker;
use av1_blocks::{BlockSize, OutOfMemory, TxSize};

impl Maker {
    ghost use Rattle.std.specs.Prelude.{◌≡◌, ◌<◌, OnOk};
    ghost use Rattle.av1_blocks.specs.Chroma.{largest_chroma_tx_size};
    ghost use Rattle.av1_plan.specs.Draft.{only_if};
    ghost use Rattle.av1_plan.specs.Generator.{tx_type, luma_transforms, triple, triples, chroma_triples, leaf};
    ghost use Rattle.av1_plan.specs.Making.{work, run};

    /// Writes a type that transforms of this size may have. At 64 it is the cosine transform, at 32 also the identity
    /// (9). Below 32 it is any type except the Walsh-Hadamard transform.
    #[tactic(auto, unfolding(crate::specs::Generator::tx_type, crate::specs::Generator::type_within))]
    fn tx_type(&mut self, size: TxSize) -> Result<(), OutOfMemory>
        ensures { OnOk result (work self.new ≡ run (tx_type size) (work self.old)) }
    {
        match size.sqr_up() {
            TxSize::TX_64X64 => self.byte(0),
            TxSize::TX_32X32 => {
                let number = self.draw(2) as u8;
                self.byte(9 * number)
            }
            _ => {
                let number = self.draw(16) as u8;
                self.byte(number)
            }
        }
    }

    /// Writes the size of luma's transforms, the block's own or 4x4, and their type.
    #[tactic(auto, unfolding(crate::specs::Generator::luma_transforms, crate::specs::Generator::luma_tx_size))]
    fn luma_transforms(&mut self, size: BlockSize) -> Result<(), OutOfMemory>
        ensures { OnOk result (work self.new ≡ run (luma_transforms size) (work self.old)) }
    {
        match self.draw(2) {
            0 => {
                self.byte(size.tx_size().number())?;
                self.tx_type(size.tx_size())
            }
            _ => {
                self.byte(TxSize::TX_4X4.number())?;
                self.tx_type(TxSize::TX_4X4)
            }
        }
    }

    /// Writes the type of chroma's transforms, if chroma is carried.
    fn chroma_transforms(&mut self, size: BlockSize, carried: bool) -> Result<(), OutOfMemory>
        ensures { OnOk result (work self.new ≡ run (only_if carried (tx_type (largest_chroma_tx_size size 1 1))) (work self.old)) }
    {
        if !carried {
            return Ok(());
        }
        self.tx_type(size.largest_chroma_tx_size(1, 1))
    }

    /// Writes the coefficient at this place of the first block, from -200 to 200.
    #[tactic(auto, unfolding(crate::specs::Generator::triple, crate::specs::Generator::less))]
    fn triple(&mut self, place: u16) -> Result<(), OutOfMemory>
        ensures { OnOk result (work self.new ≡ run (triple place) (work self.old)) }
    {
        self.byte(0)?;
        self.u16_field(place)?;
        let value = u32::from(self.draw(401));
        self.u32_field(value.wrapping_sub(200))
    }

    /// Writes up to three coefficients.
    #[tactic(auto, using(crate::proofs::Turns::turns), unfolding(crate::specs::Generator::triples))]
    fn triples(&mut self) -> Result<(), OutOfMemory>
        ensures { OnOk result (work self.new ≡ run triples (work self.old)) }
    {
        let count = self.draw(4);
        self.u16_field(count)?;
        for place in 0..count {
            self.triple(place)?;
        }
        Ok(())
    }

    /// Writes the coefficients of U and V, if chroma is carried.
    #[tactic(auto, unfolding(crate::specs::Generator::chroma_triples))]
    fn chroma_triples(&mut self, carried: bool) -> Result<(), OutOfMemory>
        ensures { OnOk result (work self.new ≡ run (chroma_triples carried) (work self.old)) }
    {
        if !carried {
            return Ok(());
        }
        self.triples()?;
        self.triples()
    }

    /// Writes a leaf.
    #[tactic(auto, unfolding(crate::specs::Generator::leaf))]
    pub fn leaf(
        &mut self,
        frame: &Header,
        size: BlockSize,
        carried: bool,
    ) -> Result<(), OutOfMemory>
        ensures { OnOk result (work self.new ≡ run (leaf frame.now size carried) (work self.old)) }
    {
        self.kind(frame, size, carried)?;
        self.luma_transforms(size)?;
        self.chroma_transforms(size, carried)?;
        self.triples()?;
        self.chroma_triples(carried)
    }
}
