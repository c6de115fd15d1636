//! Reads where the columns or rows of tiles begin. Moves the reader forward, and allocates the list.

ghost use Rattle.av1_plan.specs.Format.{read_field, read, add};
ghost use Rattle.av1_plan.specs.Reading.{Gives, input, Moves};
ghost use Rattle.av1_tiles.specs.Grammar.{start_after, starts, bounds};

use av1_plan::{PlanError, Reader};
use std::alloc::Global;

/// The start of a column or row of tiles, which is after the start before it.
#[tactic(auto, using(av1_plan::proofs::Narrow::narrow))]
fn start(reader: &mut Reader<'_>, side: u16, previous: u16) -> Result<u16, PlanError>
    ensures read { Gives (λ x. (x, input reader.new)) result (read_field (start_after side previous) (input reader.old)) }
    ensures moves { Moves reader.old reader.new }
{
    let at = reader.at;
    let value = reader.any_u16()?;
    if value % 64 != 0 || value <= previous || side <= value {
        Err(PlanError::Malformed { at })
    } else {
        Ok(value)
    }
}

/// The next `count` starts after the start before them, and then the end.
#[tactic(auto, using(crate::proofs::Starts::reading))]
fn starts(
    reader: &mut Reader<'_>,
    into: &mut Vec<u16>,
    side: u16,
    previous: u16,
    count: u8,
) -> Result<(), PlanError>
    ensures read { Gives (λ _. (into.new.items, input reader.new)) result (add (starts side previous count) (into.old.items, input reader.old)) }
    ensures moves { Moves reader.old reader.new }
{
    if count == 0 {
        into.push(side)?;
        return Ok(());
    }
    let start = start(reader, side, previous)?;
    into.push(start)?;
    starts(reader, into, side, start, count - 1)
}

/// The starts of the columns or rows of tiles, and then the width or height of the frame.
#[tactic(auto, using(crate::proofs::Starts::reading))]
pub fn bounds(alloc: Global, reader: &mut Reader<'_>, side: u16) -> Result<Vec<u16>, PlanError>
    ensures read { Gives (λ x. (x.items, input reader.new)) result (read (bounds side) (input reader.old)) }
    ensures moves { Moves reader.old reader.new }
{
    let count = reader.byte(1, 32)?;
    let mut bounds = Vec::new(alloc);
    bounds.push(0)?;
    starts(reader, &mut bounds, side, 0, count - 1)?;
    Ok(bounds)
}
