// Tests a sequence frame by frame: its slots, its last frame, and that a rejected frame changes nothing.
ghost use Rattle.std.specs.Prelude.{◌<◌};
ghost use Rattle.av1_sequence.specs.Frames.{IsHead};

use super::support::same;
use av1_blocks::FilterMode;
use av1_plan::InvalidKind;
use av1_sequence::{FrameError, FrameHead, Sequence};
use std::alloc::Global;
use std::process::Abort;

/// A frame that is predicted from the samples above it.
const FROM_ABOVE: [u8; 14] = [0, 1, 0, 0, 0, 4, 0, 0, 0, 0, 0, 0, 0, 0];

/// A frame that copies LAST.
const COPIED: [u8; 16] = [0, 19, 1, 0, 0, 0, 0, 4, 0, 0, 0, 0, 0, 0, 0, 0];

/// A frame that would copy it from too far away.
const TOO_FAR: [u8; 16] = [0, 19, 1, 0, 64, 0, 0, 4, 0, 0, 0, 0, 0, 0, 0, 0];

/// A row of Y of each frame here.
const LUMA: [u16; 8] = [127; 8];

/// A row of U, and of V.
const CHROMA: [u16; 8] = [128; 8];

/// The head of a frame that reads slot 0 and replaces the slots of `refresh`.
fn head(refresh: u8) -> FrameHead
    ensures { IsHead result }
{
    FrameHead {
        filter: FilterMode::REGULAR,
        edge_filter: false,
        slots: [0; 7],
        refresh,
    }
}

/// Stops the test if a row of plane `p` of a slot is not `row`.
fn slot_has(rt: &impl Abort, frames: &Sequence, slot: usize, p: usize, row: Option<&[u16]>)
    requires slot { slot < 8 }
    requires plane { p < 3 }
{
    for y in 0..frames.header().shown_rows(p) {
        let given = frames.slot_row(slot, p, y);
        same(
            rt,
            ((slot, p, y), given),
            ((slot, p, y), row),
            "slot, plane, row",
        );
    }
}

/// Stops the test if slot 0 does not have the first frame, or if any other slot has a frame.
fn slots_are_as_at_first(rt: &impl Abort, frames: &Sequence) {
    slot_has(rt, frames, 0, 0, Some(LUMA.as_slice()));
    slot_has(rt, frames, 0, 1, Some(CHROMA.as_slice()));
    slot_has(rt, frames, 0, 2, Some(CHROMA.as_slice()));
    for slot in 1..8 {
        for p in 0..3 {
            slot_has(rt, frames, slot, p, None);
        }
    }
}

/// Stops the test if a row of plane `p` of the last frame is not `row`.
fn last_has(rt: &impl Abort, frames: &Sequence, p: usize, row: &[u16])
    requires plane { p < 3 }
{
    for y in 0..frames.header().shown_rows(p) {
        let given = frames.last_row(p, y);
        same(rt, ((p, y), given), ((p, y), Some(row)), "plane, row");
    }
}

/// Stops the test if the last frame does not have the rows `LUMA` and `CHROMA`.
fn last_is_the_frame(rt: &impl Abort, frames: &Sequence) {
    last_has(rt, frames, 0, &LUMA);
    last_has(rt, frames, 1, &CHROMA);
    last_has(rt, frames, 2, &CHROMA);
}

/// Stops the test if a frame that copies LAST from too far away is not rejected.
fn is_too_far(rt: &impl Abort, frames: &mut Sequence) {
    let (leaf, kind) = (0, InvalidKind::Vector);
    let refused = Err(FrameError::Invalid { leaf, kind });
    same(rt, frames.frame(&head(255), &TOO_FAR), refused, "too far");
}

/// A sequence of 8x8 frames in 4:4:4 at depth 8, after its first frame.
fn started(rt: &impl Abort, alloc: Global) -> Sequence {
    let mut frames = Sequence::new(alloc, 8, 8, 8, 2).expect(rt, "memory");
    let answer = frames.frame(&head(1), &FROM_ABOVE);
    same(rt, answer, Ok(()), "the first");
    frames
}

#[test]
fn a_refused_frame_changes_nothing_and_the_next_copies_the_last(rt: HostRuntime) {
    let mut frames = started(&rt, rt.alloc());
    slots_are_as_at_first(&rt, &frames);
    is_too_far(&rt, &mut frames);
    slots_are_as_at_first(&rt, &frames);
    last_is_the_frame(&rt, &frames);
    let answer = frames.frame(&head(0), &COPIED);
    same(&rt, answer, Ok(()), "the second");
    last_is_the_frame(&rt, &frames);
}
