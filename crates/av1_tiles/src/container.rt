//! Parses a grid of tiles from a slice of bytes. Allocates lists, but the tiles' parts stay in the slice.

ghost use Rattle.std.specs.Prelude.{◌≡◌, ◌≤◌, ◌^◌, length, map, [], IfOk, vec_len, All};
ghost use Rattle.av1_plan.specs.Format.{four, read_field, read};
ghost use Rattle.av1_plan.specs.Grammar.{where_};
ghost use Rattle.av1_plan.specs.Reading.{Gives, input, Moves};
ghost use Rattle.av1_tiles.specs.Bounds.{IsReadFile};
ghost use Rattle.av1_tiles.specs.File.{front_value, file_value};
ghost use Rattle.av1_tiles.specs.Grammar.{is_magic, version_of, front, read_parts, read_file};

use crate::bounds::bounds;
use crate::file::{Front, TileFile};
use av1_plan::{PlanError, Reader};
use std::alloc::Global;

/// The four letters at the front.
#[tactic(auto, using(av1_plan::proofs::Narrow::narrow))]
fn magic(reader: &mut Reader<'_>) -> Result<u32, PlanError>
    ensures read { Gives (λ x. (x, input reader.new)) result (read_field (where_ four is_magic) (input reader.old)) }
    ensures moves { Moves reader.old reader.new }
{
    let at = reader.at;
    let value = reader.any_u32()?;
    if value == u32::from_le_bytes(*b"RTL1") || value == u32::from_le_bytes(*b"RTL2") {
        Ok(value)
    } else {
        Err(PlanError::Malformed { at })
    }
}

/// The version of plans that the tiles have, by the four letters at the front.
fn version_of(letters: u32) -> u8
    ensures { result ≡ version_of letters }
{
    if letters == u32::from_le_bytes(*b"RTL2") {
        3
    } else {
        2
    }
}

/// The fields before the parts of the tiles.
#[tactic(auto, using(av1_plan::proofs::Formats::read_bind), unfolding(crate::specs::Grammar::front))]
fn front(alloc: Global, reader: &mut Reader<'_>) -> Result<Front, PlanError>
    ensures read { Gives (λ x. (front_value x, input reader.new)) result (read front (input reader.old)) }
    ensures eight { IfOk result (λ x. vec_len x.references ≡ 8) }
    ensures moves { Moves reader.old reader.new }
{
    let version = version_of(magic(reader)?);
    let header = reader.frame(version)?;
    let references = reader.references(alloc, &header)?;
    let columns = bounds(alloc, reader, header.width)?;
    let rows = bounds(alloc, reader, header.height)?;
    Ok(Front {
        header,
        references,
        columns,
        rows,
    })
}

/// The parts of `count` tiles.
#[tactic(auto, using(crate::proofs::Parts::turns))]
fn parts<'a>(
    alloc: Global,
    reader: &mut Reader<'a>,
    count: usize,
) -> Result<Vec<&'a [u8]>, PlanError>
    ensures read { Gives (λ x. (map (λ part. part.now) x.items, input reader.new)) result (read_parts count ([], input reader.old)) }
    ensures count { IfOk result (λ x. vec_len x ≡ count) }
    ensures short { IfOk result (λ x. All (λ part. length part.now ≤ 2 ^ 26) x.items) }
    ensures moves { Moves reader.old reader.new }
{
    let mut parts = Vec::new(alloc);
    for _ in 0..count {
        let part = reader.part()?;
        parts.push(part)?;
    }
    Ok(parts)
}

/// Reads a grid of tiles from its bytes, from left to right.
///
/// # Errors
///
/// `Malformed` gives the start of the first bad field. That field is cut off, has a value that is not valid after the
/// fields before it, or follows the end. A tile's part is one field. `Memory` if memory runs out.
#[tactic(auto, unfolding(crate::specs::Grammar::read_file))]
pub fn read_tiles(alloc: Global, bytes: &[u8]) -> Result<TileFile<'_>, PlanError>
    requires { length bytes.now ≤ 2 ^ 26 }
    ensures read { Gives (λ x. file_value x) result (read_file bytes.now) }
    ensures file { IfOk result (λ x. IsReadFile x) }
{
    let mut reader = Reader { rest: bytes, at: 0 };
    let front = front(alloc, &mut reader)?;
    let count = (front.columns.len() - 1) * (front.rows.len() - 1);
    let parts = parts(alloc, &mut reader, count)?;
    reader.end()?;
    Ok(TileFile { front, parts })
}
