//! Parses a sequence of frames from a slice of bytes. Allocates the list of entries.

ghost use Rattle.std.specs.Prelude.{◌≡◌, ◌≤◌, ◌^◌, length, map, [], slice_index_or, IfOk, vec_len};
ghost use Rattle.std.specs.List.{All};
ghost use Rattle.av1_blocks.specs.declared.mc.FilterMode.TheVariants.{REGULAR};
ghost use Rattle.av1_blocks.specs.declared.mc.TheConstants.FilterMode as filter_modes;
ghost use Rattle.av1_plan.specs.Format.{four, read_field, read};
ghost use Rattle.av1_plan.specs.Grammar.{where_};
ghost use Rattle.av1_plan.specs.Reading.{Gives, input, Moves};
ghost use Rattle.av1_sequence.specs.File.{IsReadEntry, IsReadFile, IsReadHead, entry_value, file_value, front_value};
ghost use Rattle.av1_sequence.specs.Frames.{IsHead};
ghost use Rattle.av1_sequence.specs.Grammar.{again_head, coded_head, entry_head, front, head, is_magic, kind, read_entries, read_entry, plan_version};
ghost use Rattle.av1_sequence.specs.Grammar.{read_file};
ghost use Rattle.av1_sequence.specs.Kept.{AreFrames};
ghost use Rattle.av1_sequence.specs.Outcomes.{frames_of};

use crate::file::{Entry, FrameText, SequenceFile};
use crate::head::{EntryHead, FrameHead};
use av1_blocks::FilterMode;
use av1_plan::{PlanError, Reader};
use std::alloc::Global;

/// The fields before the entries.
#[derive(Clone, Copy)]
pub(crate) struct FileFront {
    version: u8,
    width: u16,
    height: u16,
    depth: u8,
    sampling: u8,
    count: u16,
}

/// The four letters at the front.
#[tactic(auto, using(av1_plan::proofs::Narrow::narrow))]
fn magic(reader: &mut Reader<'_>) -> Result<u32, PlanError>
    ensures read { Gives (λ x. (x, input reader.new)) result (read_field (where_ four is_magic) (input reader.old)) }
    ensures moves { Moves reader.old reader.new }
{
    let at = reader.at;
    let value = reader.any_u32()?;
    if value == u32::from_le_bytes(*b"RSQ1") || value == u32::from_le_bytes(*b"RSQ2") {
        Ok(value)
    } else {
        Err(PlanError::Malformed { at })
    }
}

/// The version of plans that the frames have. The four letters at the front decide it.
#[tactic(auto, unfolding(crate::specs::Grammar::plan_version))]
fn plan_version(reader: &mut Reader<'_>) -> Result<u8, PlanError>
    ensures read { Gives (λ x. (x, input reader.new)) result (read plan_version (input reader.old)) }
    ensures range { IfOk result (λ x. (2 ≤ x) × (x ≤ 3)) }
    ensures moves { Moves reader.old reader.new }
{
    let letters = magic(reader)?;
    Ok(if letters == u32::from_le_bytes(*b"RSQ2") {
        3
    } else {
        2
    })
}

/// The fields before the entries.
#[tactic(auto, using(av1_plan::proofs::Formats::read_bind), unfolding(crate::specs::Grammar::front))]
fn front(reader: &mut Reader<'_>) -> Result<FileFront, PlanError>
    ensures read { Gives (λ x. (front_value x, input reader.new)) result (read front (input reader.old)) }
    ensures frames { IfOk result (λ x. AreFrames (frames_of x.version x.width x.height x.depth x.sampling)) }
    ensures moves { Moves reader.old reader.new }
{
    let version = plan_version(reader)?;
    let width = reader.side(version)?;
    let height = reader.side(version)?;
    let depth = reader.depth()?;
    let sampling = reader.byte(0, 2)?;
    let count = reader.any_u16()?;
    Ok(FileFront {
        version,
        width,
        height,
        depth,
        sampling,
        count,
    })
}

/// The filter with this number, one of the first four.
fn filter_mode(number: u8) -> FilterMode
    requires { number ≤ 3 }
    ensures { result ≡ slice_index_or filter_modes.ALL number REGULAR }
{
    FilterMode::ALL[usize::from(number)]
}

/// The head of a frame.
#[tactic(auto, using(av1_plan::proofs::Formats::read_bind), unfolding(crate::specs::Grammar::head))]
fn head(reader: &mut Reader<'_>) -> Result<FrameHead, PlanError>
    ensures read { Gives (λ x. (x, input reader.new)) result (read head (input reader.old)) }
    ensures head { IfOk result IsHead }
    ensures moves { Moves reader.old reader.new }
{
    let number = reader.byte(0, 3)?;
    let filter = filter_mode(number);
    let edge_filter = reader.byte(0, 1)? == 1;
    let slots = reader.slots()?;
    let refresh = reader.any_byte()?;
    Ok(FrameHead {
        filter,
        edge_filter,
        slots,
        refresh,
    })
}

/// The fields of a frame before its part. `shown` says whether the frame is shown.
#[tactic(auto, using(av1_plan::proofs::Formats::read_bind), unfolding(crate::specs::Grammar::coded_head))]
fn coded_head(reader: &mut Reader<'_>, shown: bool) -> Result<EntryHead, PlanError>
    ensures read { Gives (λ x. (x, input reader.new)) result (read (coded_head shown) (input reader.old)) }
    ensures head { IfOk result IsReadHead }
    ensures moves { Moves reader.old reader.new }
{
    let head = head(reader)?;
    Ok(EntryHead::Coded { shown, head })
}

/// The fields of an entry that shows a slot again.
#[tactic(auto, using(av1_plan::proofs::Formats::read_bind), unfolding(crate::specs::Grammar::again_head))]
fn again_head(reader: &mut Reader<'_>) -> Result<EntryHead, PlanError>
    ensures read { Gives (λ x. (x, input reader.new)) result (read again_head (input reader.old)) }
    ensures head { IfOk result IsReadHead }
    ensures moves { Moves reader.old reader.new }
{
    let slot = reader.byte(0, 7)?;
    let refresh = reader.any_byte()?;
    Ok(EntryHead::Again { slot, refresh })
}

/// The kind of an entry, in a sequence with this version of plans. It is 0 for a frame that isn't shown, 1 for a frame
/// that is shown, and 2 for a slot that is shown again.
#[tactic(auto, unfolding(crate::specs::Grammar::kind))]
fn kind(reader: &mut Reader<'_>, version: u8) -> Result<u8, PlanError>
    ensures read { Gives (λ x. (x, input reader.new)) result (read (kind version) (input reader.old)) }
    ensures moves { Moves reader.old reader.new }
{
    if version == 3 {
        reader.byte(0, 2)
    } else {
        Ok(1)
    }
}

/// The fields of an entry before its part, in a sequence with this version of plans.
#[tactic(auto, using(av1_plan::proofs::Formats::read_bind), unfolding(crate::specs::Grammar::entry_head))]
fn entry_head(reader: &mut Reader<'_>, version: u8) -> Result<EntryHead, PlanError>
    ensures read { Gives (λ x. (x, input reader.new)) result (read (entry_head version) (input reader.old)) }
    ensures head { IfOk result IsReadHead }
    ensures moves { Moves reader.old reader.new }
{
    let kind = kind(reader, version)?;
    if kind == 2 {
        again_head(reader)
    } else {
        coded_head(reader, kind == 1)
    }
}

/// An entry, in a sequence with this version of plans.
#[tactic(auto, unfolding(crate::specs::Grammar::read_entry, crate::specs::Grammar::read_behind))]
fn entry<'a>(reader: &mut Reader<'a>, version: u8) -> Result<Entry<'a>, PlanError>
    ensures read { Gives (λ x. (entry_value x, input reader.new)) result (read_entry version (input reader.old)) }
    ensures text { IfOk result IsReadEntry }
    ensures moves { Moves reader.old reader.new }
{
    match entry_head(reader, version)? {
        EntryHead::Coded { shown, head } => {
            let part = reader.part()?;
            let frame = FrameText { head, part };
            Ok(Entry::Coded { shown, frame })
        }
        EntryHead::Again { slot, refresh } => Ok(Entry::Again { slot, refresh }),
    }
}

/// The next `count` entries, in a sequence with this version of plans.
#[tactic(auto, using(crate::proofs::ReadEntries::turns))]
fn entries<'a>(
    alloc: Global,
    reader: &mut Reader<'a>,
    version: u8,
    count: u16,
) -> Result<Vec<Entry<'a>>, PlanError>
    ensures read { Gives (λ x. (map entry_value x.items, input reader.new)) result (read_entries version count ([], input reader.old)) }
    ensures count { IfOk result (λ x. vec_len x ≡ count) }
    ensures texts { IfOk result (λ x. All IsReadEntry x.items) }
    ensures moves { Moves reader.old reader.new }
{
    let mut entries = Vec::new(alloc);
    for _ in 0..count {
        let entry = entry(reader, version)?;
        entries.push(entry)?;
    }
    Ok(entries)
}

/// Reads a sequence of frames from its bytes, from left to right.
///
/// # Errors
///
/// `Malformed` gives the start of the first bad field. That field is cut off, has a value that is not valid after the
/// fields before it, or follows the end. The part of a frame is one field. `Memory` if memory runs out.
#[tactic(auto, unfolding(crate::specs::Grammar::read_file))]
pub fn read_sequence(alloc: Global, bytes: &[u8]) -> Result<SequenceFile<'_>, PlanError>
    requires { length bytes.now ≤ 2 ^ 26 }
    ensures read { Gives (λ x. file_value x) result (read_file bytes.now) }
    ensures file { IfOk result (λ x. IsReadFile x) }
{
    let mut reader = Reader { rest: bytes, at: 0 };
    let front = front(&mut reader)?;
    let entries = entries(alloc, &mut reader, front.version, front.count)?;
    reader.end()?;
    Ok(SequenceFile {
        version: front.version,
        width: front.width,
        height: front.height,
        depth: front.depth,
        sampling: front.sampling,
        entries,
    })
}
