//! A builder of plans as numbers in the caller's memory, and its conversion to `Progress` and back. Never allocates.

ghost use Rattle.std.specs.Prelude.{◌≡◌, true, map};
ghost use Rattle.std.specs.List.{list_all};
ghost use Rattle.av1_c.specs.Builders.{is_part, part_of};

use crate::build_fault::BuildFault;
use crate::plan_header::PlanHeader;
use av1_blocks::BlockSize;
use av1_planwrite::{Part, Progress, Stacked, State, Superblocks};

// The greatest number of parts that a superblock needs at once.
const MOST_PARTS: usize = 13;

/// A node or leaf that the plan needs, at its position in luma samples.
#[repr(C)]
#[derive(Clone, Copy)]
pub struct BuilderPart {
    /// 1 for a node, and 0 for a leaf.
    pub kind: u8,
    /// For a node, the logarithm to base 2 of a quarter of its width in luma samples. For a leaf, the number of its
    /// size.
    pub number: u8,
    pub x: u16,
    pub y: u16,
}

/// What an unfinished plan needs next. The caller keeps it between calls, and changes nothing in it.
#[repr(C)]
#[derive(Clone, Copy)]
pub struct Builder {
    /// How many bytes of the plan are at the front of the buffer.
    pub written: usize,
    /// The slot whose planes the plan needs next, or 8 if it needs no planes.
    pub slot: usize,
    /// How many parts of the current superblock the plan still needs.
    pub count: usize,
    /// The row and the column of the next superblock.
    pub row: u16,
    pub col: u16,
    pub header: PlanHeader,
    /// The parts of the current superblock that the plan still needs, the next one last.
    pub parts: [BuilderPart; MOST_PARTS],
}

// Whether these numbers are a valid part.
fn is_part(numbers: BuilderPart) -> bool
    ensures { result ≡ is_part numbers }
{
    numbers.kind == 1 || (numbers.kind == 0 && numbers.number < 22)
}

// Whether all of these numbers are valid parts.
#[tactic(auto, using(std::proofs::lemmas::List::Folds::list_all_more))]
fn are_parts(numbers: &[BuilderPart]) -> bool
    ensures { result ≡ list_all is_part numbers.now }
{
    let mut are = true;
    for part in numbers {
        let is = is_part(*part);
        are = are && is;
    }
    are
}

// The part of these numbers. A leaf with no valid size becomes one of 4x4.
fn part_of(numbers: BuilderPart) -> Part
    ensures { result ≡ part_of numbers }
{
    let BuilderPart { kind, number, x, y } = numbers;
    if kind == 1 {
        return Part::Node {
            level: number,
            x,
            y,
        };
    }
    match BlockSize::from_number(number) {
        Some(size) => Part::Leaf { size, x, y },
        None => Part::Leaf {
            size: BlockSize::BLOCK_4X4,
            x,
            y,
        },
    }
}

// The numbers of a part.
fn part_numbers(part: Part) -> BuilderPart
    ensures part { part_of result ≡ part }
    ensures valid { is_part result ≡ true }
{
    match part {
        Part::Node { level, x, y } => BuilderPart {
            kind: 1,
            number: level,
            x,
            y,
        },
        Part::Leaf { size, x, y } => BuilderPart {
            kind: 0,
            number: size.number(),
            x,
            y,
        },
    }
}

// The parts of all these numbers.
fn parts_of(numbers: &[BuilderPart; MOST_PARTS]) -> [Part; MOST_PARTS]
    ensures { result ≡ map part_of numbers.now }
{
    let mut parts = [Part::Node {
        level: 1,
        x: 0,
        y: 0,
    }; MOST_PARTS];
    for i in 0..MOST_PARTS {
        parts[i] = part_of(numbers[i]);
    }
    parts
}

// The numbers of all these parts.
#[tactic(auto, using(crate::proofs::Arrays::all_set))]
fn parts_numbers(parts: &[Part; MOST_PARTS]) -> [BuilderPart; MOST_PARTS]
    ensures parts { map part_of result ≡ parts.now }
    ensures valid { list_all is_part result ≡ true }
{
    let mut numbers = [BuilderPart {
        kind: 1,
        number: 1,
        x: 0,
        y: 0,
    }; MOST_PARTS];
    for i in 0..MOST_PARTS {
        numbers[i] = part_numbers(parts[i]);
    }
    numbers
}

impl Builder {
    ghost use Rattle.std.specs.Prelude.{◌≡◌, ◌≤◌, true, false, [], IfErr, IfOk};
    ghost use Rattle.av1_planwrite.specs.Builder.{built};
    ghost use Rattle.av1_planwrite.specs.States.{stopped};
    ghost use Rattle.std.specs.List.{list_all};
    ghost use Rattle.av1_c.specs.Builders.{header_of, is_builder, is_part, state_of};
    ghost use Rattle.av1_c.specs.declared.build_fault.BuildFault.TheVariants as faults;

    /// The state of the plan. The buffer has `room` bytes.
    ///
    /// # Errors
    ///
    /// `BadState` if these numbers are not a valid builder over such a buffer.
    pub fn progress(&self, room: usize) -> Result<Progress, BuildFault>
        ensures resumed { IfOk result (λ p. built p [] ≡ stopped (header_of self.now.header) (state_of self.now)) }
        ensures written { IfOk result (λ p. self.now.written ≤ room) }
        ensures valid { IfOk result (λ p. is_builder self.now room ≡ true) }
        ensures fault { IfErr result (λ fault. fault ≡ faults.BadState) }
        ensures invalid { IfErr result (λ fault. is_builder self.now room ≡ false) }
    {
        if self.written > room {
            return Err(BuildFault::BadState);
        }
        if !are_parts(&self.parts) {
            return Err(BuildFault::BadState);
        }
        let state = State {
            slot: self.slot,
            parts: Stacked {
                parts: parts_of(&self.parts),
                count: self.count,
            },
            left: Superblocks {
                row: self.row,
                col: self.col,
            },
        };
        match Progress::resume(&self.header.header(), &state) {
            Some(progress) => Ok(progress),
            None => Err(BuildFault::BadState),
        }
    }

    /// The builder of a plan with this header in this state, with `written` bytes in the buffer.
    pub fn stopped(header: PlanHeader, state: &State, written: usize) -> Builder
        ensures header { result.header ≡ header }
        ensures state { state_of result ≡ state.now }
        ensures written { result.written ≡ written }
        ensures valid { list_all is_part result.parts ≡ true }
    {
        Builder {
            written,
            slot: state.slot,
            count: state.parts.count,
            row: state.left.row,
            col: state.left.col,
            header,
            parts: parts_numbers(&state.parts.parts),
        }
    }
}
