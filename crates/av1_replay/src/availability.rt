//! Parses calls that ask which samples are coded before a transform, and replays them. Does not allocate.

ghost use Rattle.std.specs.Prelude.{◌≡◌, ◌≤◌, [], IfSome, length};
ghost use Rattle.av1_replay.specs.Answers.{Tells};
ghost use Rattle.av1_replay.specs.Available.{above_right, available_bytes, below_left};
ghost use Rattle.av1_replay.specs.Fields.{unread};
ghost use Rattle.av1_replay.specs.Calls.{availability_before, block_before, unit_before};

use crate::answer::Answer;
use crate::digest::Digest;
use crate::fields::Fields;
use av1_avail::{has_bl, has_bottom_left, has_top_right, has_tr};
use av1_blocks::{BlockSize, TxSize};
use av1_frame::{BlockOffset, TileBlockOffset};
use std::alloc::Global;

/// A block: its size and the cell at which it begins.
#[derive(Clone, Copy)]
pub struct PlacedBlock {
    size: BlockSize,
    x: u8,
    y: u8,
}

impl PlacedBlock {
    #[tactic(auto, using(crate::proofs::Numbered::block_numbered))]
    fn read(fields: &mut Fields) -> Option<PlacedBlock>
        ensures found { IfSome result (λ block. unread fields.old ≡ block_before block (unread fields.new)) }
        ensures later { length (unread fields.new) ≤ length (unread fields.old) }
    {
        let size = BlockSize::from_number(fields.byte()?)?;
        let x = fields.byte()?;
        let y = fields.byte()?;
        Some(PlacedBlock { size, x, y })
    }

    // The cell at which the block begins.
    fn place(&self) -> TileBlockOffset
        ensures x { result.0.x ≡ self.now.x }
        ensures y { result.0.y ≡ self.now.y }
    {
        TileBlockOffset(BlockOffset {
            x: usize::from(self.x),
            y: usize::from(self.y),
        })
    }
}

/// A transform: its size, and the row and column of units at which it begins in its block.
#[derive(Clone, Copy)]
pub struct Unit {
    size: TxSize,
    row: u8,
    column: u8,
}

impl Unit {
    #[tactic(auto, using(crate::proofs::Numbered::size_numbered))]
    fn read(fields: &mut Fields) -> Option<Unit>
        ensures found { IfSome result (λ unit. unread fields.old ≡ unit_before unit (unread fields.new)) }
        ensures later { length (unread fields.new) ≤ length (unread fields.old) }
    {
        let size = TxSize::from_number(fields.byte()?)?;
        let row = fields.byte()?;
        let column = fields.byte()?;
        Some(Unit { size, row, column })
    }
}

/// A transform in a block, and whether the rows and columns beside it lie in the frame.
#[derive(Clone, Copy)]
pub struct Availability {
    block: PlacedBlock,
    /// Whether the row above lies in the frame, or the one below.
    first: bool,
    /// Whether the column on the right lies in the frame, or the one on the left.
    second: bool,
    unit: Unit,
    halved_columns: bool,
    halved_rows: bool,
}

impl Availability {
    /// Reads the next call of this kind.
    pub fn read(fields: &mut Fields) -> Option<Availability>
        ensures found { IfSome result (λ asked. unread fields.old ≡ availability_before asked (unread fields.new)) }
        ensures later { length (unread fields.new) ≤ length (unread fields.old) }
    {
        let block = PlacedBlock::read(fields)?;
        let first = fields.flag()?;
        let second = fields.flag()?;
        let unit = Unit::read(fields)?;
        let halved_columns = fields.flag()?;
        let halved_rows = fields.flag()?;
        Some(Availability {
            block,
            first,
            second,
            unit,
            halved_columns,
            halved_rows,
        })
    }

    /// The answer has four bytes. The first two say whether the samples above right and below left are coded before, by
    /// the tables. The last two say the same by the bits of the block's position.
    pub fn replay(&self, alloc: Global) -> Answer
        ensures { Tells result 0 [] (available_bytes self.now) }
    {
        let place = self.block.place();
        let mut digest = Digest::new();
        digest.push(u8::from(self.is_above_right()));
        digest.push(u8::from(self.is_below_left()));
        digest.push(u8::from(has_tr(place, self.block.size)));
        digest.push(u8::from(has_bl(place, self.block.size)));
        Answer::plain(alloc, 0, digest)
    }

    fn is_above_right(&self) -> bool
        ensures { result ≡ above_right self.now }
    {
        has_top_right(
            self.block.size,
            self.block.place(),
            self.first,
            self.second,
            self.unit.size,
            usize::from(self.unit.row),
            usize::from(self.unit.column),
            usize::from(self.halved_columns),
            usize::from(self.halved_rows),
        )
    }

    fn is_below_left(&self) -> bool
        ensures { result ≡ below_left self.now }
    {
        has_bottom_left(
            self.block.size,
            self.block.place(),
            self.first,
            self.second,
            self.unit.size,
            usize::from(self.unit.row),
            usize::from(self.unit.column),
            usize::from(self.halved_columns),
            usize::from(self.halved_rows),
        )
    }
}
