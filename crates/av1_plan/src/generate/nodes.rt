//! Draws how superblocks are cut into leaves. Appends marks and leaves to the maker's bytes, which may allocate.

use crate::generate::maker::Maker;
use crate::nodes::{half_side, part_size, whole_size};
use crate::{Header, carries_chroma};
use av1_blocks::{BlockSize, OutOfMemory, PartitionType};

impl Maker {
    ghost use Rattle.std.specs.Prelude.{◌≡◌, ◌+◌, ◌-◌, ◌*◌, ◌<◌, ◌≤◌, OnOk};
    ghost use Rattle.av1_plan.specs.Generator.{leaf_part, parts, block, superblock_row, superblocks};
    ghost use Rattle.av1_plan.specs.Making.{work, run};

    /// Writes the leaf of this size at column `x` and row `y` of luma.
    #[tactic(auto, unfolding(crate::specs::Generator::leaf_part))]
    fn leaf_part(
        &mut self,
        frame: &Header,
        size: BlockSize,
        x: u16,
        y: u16,
    ) -> Result<(), OutOfMemory>
        ensures { OnOk result (work self.new ≡ run (leaf_part frame.now size x y) (work self.old)) }
    {
        let carried = carries_chroma(frame, x, y, size);
        self.leaf(frame, size, carried)
    }

    /// Writes the part of side `4 << level` at column `x` and row `y` of luma: a leaf at level 0, else a node.
    #[cycle(blocks)]
    #[tactic(auto, using(crate::proofs::DrawnBlocks::levels))]
    fn block(&mut self, frame: &Header, level: u8, x: u16, y: u16) -> Result<(), OutOfMemory>
        requires level { level ≤ 4 }
        requires x { x + 128 * level ≤ 4096 }
        requires y { y + 128 * level ≤ 4096 }
        ensures { OnOk result (work self.new ≡ run (block frame.now level x y) (work self.old)) }
    {
        if level == 0 {
            return self.leaf_part(frame, BlockSize::BLOCK_4X4, x, y);
        }
        let mark = self.draw(4) as u8;
        self.byte(mark)?;
        self.parts(frame, level, mark, x, y)
    }

    /// Writes the parts of a node of side `4 << level` with this mark.
    #[cycle(blocks)]
    #[tactic(auto, using(crate::proofs::DrawnBlocks::marks))]
    fn parts(
        &mut self,
        frame: &Header,
        level: u8,
        mark: u8,
        x: u16,
        y: u16,
    ) -> Result<(), OutOfMemory>
        requires mark { mark ≤ 3 }
        requires level { (0 < level) × (level ≤ 4) }
        requires x { x + 128 * level ≤ 4096 }
        requires y { y + 128 * level ≤ 4096 }
        ensures { OnOk result (work self.new ≡ run (parts frame.now level (block frame.now (level - 1)) x y mark) (work self.old)) }
    {
        let half = half_side(level);
        let right = x + half;
        let below = y + half;
        match mark {
            0 => self.leaf_part(frame, whole_size(level), x, y),
            1 => {
                let wide = part_size(level, PartitionType::PARTITION_HORZ);
                self.leaf_part(frame, wide, x, y)?;
                self.leaf_part(frame, wide, x, below)
            }
            2 => {
                let tall = part_size(level, PartitionType::PARTITION_VERT);
                self.leaf_part(frame, tall, x, y)?;
                self.leaf_part(frame, tall, right, y)
            }
            _ => {
                self.block(frame, level - 1, x, y)?;
                self.block(frame, level - 1, right, y)?;
                self.block(frame, level - 1, x, below)?;
                self.block(frame, level - 1, right, below)
            }
        }
    }

    /// Writes the superblocks of a row.
    #[tactic(auto, using(crate::proofs::Turns::turns), unfolding(crate::specs::Generator::superblock_row))]
    fn superblock_row(&mut self, frame: &Header, row: u16) -> Result<(), OutOfMemory>
        requires { row < 8 }
        ensures { OnOk result (work self.new ≡ run (superblock_row frame.now row) (work self.old)) }
    {
        for col in 0..8 {
            self.block(frame, 4, 64 * col, 64 * row)?;
        }
        Ok(())
    }

    /// Writes all superblocks.
    #[tactic(auto, using(crate::proofs::Turns::turns), unfolding(crate::specs::Generator::superblocks))]
    pub fn superblocks(&mut self, frame: &Header) -> Result<(), OutOfMemory>
        ensures { OnOk result (work self.new ≡ run (superblocks frame.now) (work self.old)) }
    {
        for row in 0..8 {
            self.superblock_row(frame, row)?;
        }
        Ok(())
    }
}
