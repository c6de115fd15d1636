//! A stack of fixed size: the parts of a superblock that remain to be coded. Changes only itself, never allocates.

ghost use Rattle.std.specs.Prelude.{◌≡◌, ◌<◌, ◌≤◌, true, List, length};
ghost use Rattle.av1_plan.specs.declared.nodes.Part.{Part};
ghost use Rattle.av1_plan.specs.Stacks.{on_top, has_room, have_room};

use crate::header::Header;
use crate::nodes::{Part, half_side, part_size, whole_size};
use av1_blocks::BlockSize;
use av1_blocks::PartitionType::{self, *};
use std::marker::Model;

// The greatest number of parts at the same time: three of each of the sides 32, 16 and 8, and four of side 4.
const MOST_PARTS: usize = 13;

/// Parts on a stack: the first `count` of `parts`, the last one on top. The others are not on the stack.
#[derive(Copy, Clone)]
pub struct Stacked {
    pub parts: [Part; MOST_PARTS],
    pub count: usize,
}

/// Whether the stack has room for this part, or for its own parts in its place, on top of `below` others.
#[tactic(auto, unfolding(crate::specs::Stacks::has_room))]
fn has_room(part: Part, below: usize) -> bool
    requires { below < 13 }
    ensures { result ≡ has_room part below }
{
    match part {
        Part::Node { level, x, y } => {
            1 <= level
                && level <= 4
                && x < 2048
                && y < 2048
                && 3 * usize::from(level) + below < MOST_PARTS
        }
        Part::Leaf { .. } => below < MOST_PARTS,
    }
}

/// Whether the stack has this room for each of the first `count` parts.
#[tactic(auto, using(crate::proofs::Stacks::room_below))]
fn have_room(parts: &[Part], count: usize) -> bool
    requires most { count ≤ 13 }
    requires within { count ≤ length parts.now }
    ensures { result ≡ have_room (on_top parts.now count) }
{
    let mut room = true;
    for below in 0..count {
        room = has_room(parts[below], below) && room;
    }
    room
}

/// The parts of a superblock that remain, the next one on top.
#[derive(Drop)]
pub struct PartStack {
    parts: [Part; MOST_PARTS],
    count: usize,
}

impl Model for PartStack {
    ghost Value = { List Part };

    ghost view = { λ s. on_top s.parts s.count };

    ghost invariant = { λ s. (length s.parts ≡ 13) × (s.count ≤ 13) × (have_room (on_top s.parts s.count) ≡ true) };
}

impl PartStack {
    ghost use Rattle.std.specs.Prelude.{◌≡◌, ◌+◌, ◌-◌, ◌*◌, ◌<◌, ◌≤◌, true, IfSome, is_some, [], ◌∷◌, length};
    ghost use Rattle.av1_blocks.specs.declared.partition.PartitionType.TheVariants.{PARTITION_SPLIT};
    ghost use Rattle.av1_plan.specs.Remaining.{leaf_before, block_before, cut_before};
    ghost use Rattle.av1_plan.specs.Remaining.{first_part, later_parts};
    ghost use Rattle.av1_plan.specs.Stacks.{has_room, on_top};
    ghost use Rattle.av1_plan.specs.Walk.{are_stacked};

    /// No parts.
    pub fn new() -> PartStack
        ensures { result ≡ [] }
    {
        PartStack {
            parts: [Part::Leaf {
                size: BlockSize::BLOCK_4X4,
                x: 0,
                y: 0,
            }; MOST_PARTS],
            count: 0,
        }
    }

    /// The stack of these parts. None if a part has no room for its own parts, or if `count` is over 13.
    pub fn from_stacked(stacked: &Stacked) -> Option<PartStack>
        ensures stack { IfSome result (λ s. s ≡ on_top stacked.now.parts stacked.now.count) }
        ensures exactly { is_some result ≡ are_stacked stacked.now }
    {
        let Stacked { parts, count } = *stacked;
        if count > MOST_PARTS {
            return None;
        }
        if !have_room(&parts, count) {
            return None;
        }
        Some(PartStack { parts, count })
    }

    /// The parts of the stack.
    pub fn stacked(&self) -> Stacked
        ensures stack { on_top result.parts result.count ≡ self.now }
        ensures stacked { are_stacked result ≡ true }
    {
        Stacked {
            parts: self.parts,
            count: self.count,
        }
    }

    /// The next part, if there is one.
    pub fn first(&self) -> Option<Part>
        ensures value { result ≡ first_part self.now }
        ensures room { IfSome result (λ p. has_room p (length (later_parts self.now)) ≡ true) }
    {
        if self.count == 0 {
            None
        } else {
            Some(self.parts[self.count - 1])
        }
    }

    /// Takes away the next part, if there is one.
    pub fn take_first(&mut self)
        ensures { self.new ≡ later_parts self.old }
    {
        if self.count > 0 {
            self.count -= 1;
        }
    }

    /// Puts a part before the others.
    fn put(&mut self, part: Part)
        requires { has_room part (length self.old) ≡ true }
        ensures { self.new ≡ part ∷ self.old }
    {
        self.parts[self.count] = part;
        self.count += 1;
    }

    /// Puts a leaf before the others, if it begins in the frame.
    #[tactic(auto, unfolding(crate::specs::Stacks::has_room))]
    fn leaf(&mut self, header: &Header, size: BlockSize, x: u16, y: u16)
        requires { length self.old < 13 }
        ensures value { self.new ≡ leaf_before header.now size x y self.old }
        ensures few { length self.new ≤ length self.old + 1 }
    {
        if header.holds(x, y) {
            self.put(Part::Leaf { size, x, y });
        }
    }

    /// Puts the part of side `4 << level` at column `x` and row `y` before the others, if it begins in the frame. The
    /// part is a leaf at level 0, else a node.
    #[tactic(auto, using(crate::proofs::Stacks::blocks), unfolding(crate::specs::Stacks::has_room))]
    fn block(&mut self, header: &Header, level: u8, x: u16, y: u16)
        requires level { level ≤ 4 }
        requires width { header.now.width ≤ 2048 }
        requires height { header.now.height ≤ 2048 }
        requires room { 3 * level + length self.old < 13 }
        ensures value { self.new ≡ block_before header.now level x y self.old }
        ensures few { length self.new ≤ length self.old + 1 }
    {
        if level == 0 {
            self.leaf(header, BlockSize::BLOCK_4X4, x, y);
        } else if header.holds(x, y) {
            self.put(Part::Node { level, x, y });
        }
    }

    /// Puts the four blocks of a node of side `4 << level` before the others.
    #[tactic(auto, unfolding(crate::specs::Remaining::cut_before))]
    fn split(&mut self, header: &Header, level: u8, x: u16, y: u16)
        requires level { (0 < level) × (level ≤ 4) }
        requires place { (x < 2048) × (y < 2048) }
        requires width { header.now.width ≤ 2048 }
        requires height { header.now.height ≤ 2048 }
        requires room { 3 * level + length self.old < 13 }
        ensures { self.new ≡ cut_before header.now level x y PARTITION_SPLIT self.old }
    {
        let half = half_side(level);
        self.block(header, level - 1, x + half, y + half);
        self.block(header, level - 1, x, y + half);
        self.block(header, level - 1, x + half, y);
        self.block(header, level - 1, x, y);
    }

    /// Puts the parts of a node of side `4 << level` with this cut before the others.
    #[tactic(auto, unfolding(crate::specs::Remaining::cut_before))]
    pub fn cut(&mut self, header: &Header, level: u8, x: u16, y: u16, cut: PartitionType)
        requires level { (0 < level) × (level ≤ 4) }
        requires place { (x < 2048) × (y < 2048) }
        requires width { header.now.width ≤ 2048 }
        requires height { header.now.height ≤ 2048 }
        requires room { 3 * level + length self.old < 13 }
        ensures { self.new ≡ cut_before header.now level x y cut self.old }
    {
        let half = half_side(level);
        let quarter = half / 2;
        let size = part_size(level, cut);
        match cut {
            PARTITION_NONE => self.leaf(header, whole_size(level), x, y),
            PARTITION_HORZ => {
                self.leaf(header, size, x, y + half);
                self.leaf(header, size, x, y);
            }
            PARTITION_VERT => {
                self.leaf(header, size, x + half, y);
                self.leaf(header, size, x, y);
            }
            PARTITION_HORZ_4 => {
                self.leaf(header, size, x, y + 3 * quarter);
                self.leaf(header, size, x, y + 2 * quarter);
                self.leaf(header, size, x, y + quarter);
                self.leaf(header, size, x, y);
            }
            PARTITION_VERT_4 => {
                self.leaf(header, size, x + 3 * quarter, y);
                self.leaf(header, size, x + 2 * quarter, y);
                self.leaf(header, size, x + quarter, y);
                self.leaf(header, size, x, y);
            }
            _ => self.split(header, level, x, y),
        }
    }
}
