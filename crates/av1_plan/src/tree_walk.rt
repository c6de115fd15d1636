//! Walks over a frame's partition tree in coding order. Changes only itself, and does not allocate.

ghost use Rattle.std.specs.Prelude.{◌≡◌, ◌+◌, ◌<◌, ◌≤◌};
ghost use Rattle.av1_plan.specs.Remaining.{across, down};

use crate::header::Header;
use crate::nodes::Part;
use crate::part_stack::{PartStack, Stacked};
use crate::superblocks::Superblocks;
use av1_blocks::PartitionType;

/// The parts of a frame that remain to be coded. AV1 specification: decode partition syntax.
///
/// [`TreeWalk::first`] gives the next part. The walk goes past a leaf by [`TreeWalk::pass`], and past a node to the
/// node's own parts by [`TreeWalk::cut`]. Parts whose upper left sample is outside the frame are left out. The walk
/// does not allocate.
#[derive(Drop)]
pub struct TreeWalk {
    header: Header,
    // The parts of the current superblock that remain.
    parts: PartStack,
    // The superblocks after that one.
    left: Superblocks,
    ghost width: { header.width ≤ 2048 },
    ghost height: { header.height ≤ 2048 },
    ghost rows: { left.row < down header },
    ghost cols: { left.col ≤ across header },
    ghost last: { left.col ≡ across header → down header ≤ left.row + 1 },
}

impl TreeWalk {
    ghost use Rattle.std.specs.Prelude.{◌≡◌, ◌<◌, ◌≤◌, true, length, IfSome, IsSome, is_some};
    ghost use Rattle.av1_plan.specs.Remaining.{cut_first, down, first_part, later_parts, rows_of};
    ghost use Rattle.av1_plan.specs.Stacks.{has_room};
    ghost use Rattle.av1_plan.specs.Walk.{is_stopped, remaining, stopped_at};

    /// A walk over all superblocks of a frame.
    pub fn new(header: &Header) -> TreeWalk
        requires width { (0 < header.now.width) × (header.now.width ≤ 2048) }
        requires height { (0 < header.now.height) × (header.now.height ≤ 2048) }
        ensures header { result.header ≡ header.now }
        ensures parts { remaining result ≡ rows_of header.now 0 (down header.now) }
    {
        TreeWalk {
            header: *header,
            parts: PartStack::new(),
            left: Superblocks { row: 0, col: 0 },
        }
    }

    /// The walk that stopped with these parts on its stack and these superblocks after them: None if no walk over this
    /// frame stops there. Which cuts led to these parts is not checked.
    pub fn resume(header: &Header, parts: &Stacked, left: Superblocks) -> Option<TreeWalk>
        requires width { header.now.width ≤ 2048 }
        requires height { header.now.height ≤ 2048 }
        ensures header { IfSome result (λ w. w.header ≡ header.now) }
        ensures parts { IfSome result (λ w. remaining w ≡ stopped_at header.now parts.now left) }
        ensures exactly { is_some result ≡ is_stopped header.now parts.now left }
    {
        if !left.are_of(header) {
            return None;
        }
        let Some(parts) = PartStack::from_stacked(parts) else {
            return None;
        };
        Some(TreeWalk {
            header: *header,
            parts,
            left,
        })
    }

    /// The header of the frame.
    pub fn header(&self) -> &Header
        ensures { result.now ≡ self.now.header }
    {
        &self.header
    }

    /// The parts of the current superblock that remain, as plain data.
    pub fn stacked(&self) -> Stacked
        ensures stack { stopped_at self.now.header result self.now.left ≡ remaining self.now }
        ensures stopped { is_stopped self.now.header result self.now.left ≡ true }
    {
        self.parts.stacked()
    }

    /// The superblocks after the current one.
    pub fn superblocks_left(&self) -> Superblocks
        ensures { result ≡ self.now.left }
    {
        self.left
    }

    /// The next part, if one remains.
    pub fn first(&self) -> Option<Part>
        ensures value { result ≡ first_part (remaining self.now) }
        ensures room { IfSome result (λ p. has_room p (length (later_parts self.now.parts)) ≡ true) }
    {
        match self.parts.first() {
            Some(part) => Some(part),
            None => self.left.first(&self.header),
        }
    }

    /// Goes past the next part.
    #[tactic(auto, using(crate::proofs::Walks::some_left))]
    pub fn pass(&mut self)
        requires { IsSome (first_part (remaining self.old)) }
        ensures header { self.new.header ≡ self.old.header }
        ensures parts { remaining self.new ≡ later_parts (remaining self.old) }
        ensures stack { self.new.parts ≡ later_parts self.old.parts }
    {
        if self.parts.first().is_some() {
            self.parts.take_first();
        } else {
            self.left = self.left.later(&self.header);
        }
    }

    /// Goes past the next part, a node, to the parts into which it is cut. Any other part stays the next one.
    #[tactic(auto, using(crate::proofs::Walks::uncut))]
    pub fn cut(&mut self, cut: PartitionType)
        ensures header { self.new.header ≡ self.old.header }
        ensures parts { remaining self.new ≡ cut_first self.old.header (remaining self.old) cut }
    {
        let Some(Part::Node { level, x, y }) = self.first() else {
            return;
        };
        self.pass();
        self.parts.cut(&self.header, level, x, y, cut);
    }
}
