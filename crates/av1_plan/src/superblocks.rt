//! Counts through a frame's superblocks in raster order: the first that remains, and those after it. Changes nothing.

ghost use Rattle.std.specs.Prelude.{◌≡◌, ◌≤◌};
ghost use Rattle.av1_plan.specs.Remaining.{across, down};

use crate::header::Header;
use crate::nodes::Part;

/// The superblocks that remain, in raster order: the row and the column of the first, counted in superblocks. If none
/// remains, the column is past the last one, in the last row.
#[derive(Copy, Clone, Debug, PartialEq, Eq)]
pub struct Superblocks {
    pub row: u16,
    pub col: u16,
}

/// The number of superblocks side by side.
fn across(header: &Header) -> u16
    requires { header.now.width ≤ 2048 }
    ensures { result ≡ across header.now }
{
    (header.width + 63) / 64
}

/// The number of superblocks one above the other.
fn down(header: &Header) -> u16
    requires { header.now.height ≤ 2048 }
    ensures { result ≡ down header.now }
{
    (header.height + 63) / 64
}

impl Superblocks {
    ghost use Rattle.std.specs.Prelude.{◌≡◌, ◌+◌, ◌<◌, ◌≤◌, true, IfSome};
    ghost use Rattle.av1_plan.specs.Remaining.{across, down, superblocks_from};
    ghost use Rattle.av1_plan.specs.Remaining.{first_part, later_parts};
    ghost use Rattle.av1_plan.specs.Stacks.{has_room};
    ghost use Rattle.av1_plan.specs.Walk.{is_next_superblock};

    /// The first of them, if there is one: a node whose mark comes next.
    #[tactic(auto, using(crate::proofs::LeftSuperblocks::firsts), unfolding(crate::specs::Stacks::has_room))]
    pub fn first(self, header: &Header) -> Option<Part>
        requires width { header.now.width ≤ 2048 }
        requires height { header.now.height ≤ 2048 }
        requires rows { self.row < down header.now }
        requires cols { self.col ≤ across header.now }
        requires last { self.col ≡ across header.now → down header.now ≤ self.row + 1 }
        ensures value { result ≡ first_part (superblocks_from header.now self.row self.col) }
        ensures room { IfSome result (λ p. has_room p 0 ≡ true) }
    {
        if self.col < across(header) {
            Some(Part::Node {
                level: 4,
                x: 64 * self.col,
                y: 64 * self.row,
            })
        } else {
            None
        }
    }

    /// Whether this is a superblock of the frame, or the position after the last one.
    #[tactic(auto, unfolding(crate::specs::Walk::is_next_superblock))]
    pub fn are_of(self, header: &Header) -> bool
        requires width { header.now.width ≤ 2048 }
        requires height { header.now.height ≤ 2048 }
        ensures { result ≡ is_next_superblock header.now self.row self.col }
    {
        let (columns, rows) = (across(header), down(header));
        self.row < rows && (self.col < columns || (self.col == columns && rows <= self.row + 1))
    }

    /// The superblocks after the first.
    #[tactic(auto, using(crate::proofs::LeftSuperblocks::laters))]
    pub fn later(self, header: &Header) -> Superblocks
        requires width { header.now.width ≤ 2048 }
        requires height { header.now.height ≤ 2048 }
        requires rows { self.row < down header.now }
        requires cols { self.col < across header.now }
        ensures value { superblocks_from header.now result.row result.col ≡ later_parts (superblocks_from header.now self.row self.col) }
        ensures rows { result.row < down header.now }
        ensures cols { result.col ≤ across header.now }
        ensures last { result.col ≡ across header.now → down header.now ≤ result.row + 1 }
    {
        let (row, col) = (self.row, self.col + 1);
        if col == across(header) && row + 1 < down(header) {
            Superblocks {
                row: row + 1,
                col: 0,
            }
        } else {
            Superblocks { row, col }
        }
    }
}
