//! Reconstructs the next frame of a sequence, and keeps it in slots. Allocates planes and memory; does no I/O.

ghost use Rattle.std.specs.Prelude.{◌≡◌, ℕ, ◌<◌, ◌≤◌, true, Some, None, is_some, IfOk, OnErr};
ghost use Rattle.av1_plan.specs.ReadPlans.{IsReadFrame};
ghost use Rattle.av1_tile.specs.declared.planes.Planes.{Planes};
ghost use Rattle.av1_tile.specs.Memory.{HasRoomFor};
ghost use Rattle.av1_tile.specs.PlaneBlocks.{component};
ghost use Rattle.av1_tile.specs.Walk.{plane_of};
ghost use Rattle.av1_sequence.specs.Kept.{AreReady, IsKeptAt};
ghost use Rattle.av1_sequence.specs.declared.last.Last.TheVariants as lasts;

use crate::error::FrameError;
use crate::head::FrameHead;
use crate::last::Last;
use crate::leaves::read_leaves;
use crate::pictures::Pictures;
use av1_blocks::{FilterMode, OutOfMemory};
use av1_frame::{Pixel, Plane};
use av1_plan::{Header, Leaves};
use av1_tile::{Planes, WalkMemory, visible_row};
use std::alloc::Global;
use std::marker::Model;

/// The greatest length of a plan in bytes.
const MOST_BYTES: usize = 1 << 26;

/// The length of a plan's header in bytes.
const HEADER_BYTES: usize = 20;

/// How many samples of luma are padded on each side of a kept frame. Motion compensation of blocks of up to 64 by 64
/// reads that far.
const PAD: usize = 80;

/// A sequence of frames of any depth, with two bytes for each sample.
pub type Sequence = SequenceOf<u16>;

/// A sequence of frames of one size, depth and sampling, and its eight slots. All samples have type `T`: `u8` is for
/// depth 8, `u16` for any depth.
#[derive(Drop)]
pub struct SequenceOf<T: Pixel> {
    alloc: Global,
    pictures: Pictures<T>,
    memory: WalkMemory<T>,
    apart: Option<Planes<T>>,
    last: Last,
    ghost room: { HasRoomFor pictures.header memory },
    ghost ready: { (planes : _) → apart ≡ Some planes → AreReady T.num pictures.header planes },
    ghost apart_kept: { last ≡ lasts.Apart → is_some apart ≡ true },
    ghost placed: { (place : ℕ) → last ≡ lasts.At place → IsKeptAt T.num pictures.header pictures.fi place },
    ghost fits: { pictures.header.depth ≤ T.BITS },
}

/// Planes to reconstruct and keep a frame with this header in: the planes that are free, if any, else new ones.
fn planes_for<T: Pixel>(
    alloc: Global,
    apart: Option<Planes<T>>,
    header: &Header,
) -> Result<Planes<T>, OutOfMemory>
    requires frame { IsReadFrame header.now }
    requires ready { (planes : Planes T) → apart ≡ Some planes → AreReady T.num header.now planes }
    ensures ready { IfOk result (λ planes. AreReady T.num header.now planes) }
    ensures none { OnErr result (apart ≡ None) }
{
    match apart {
        Some(planes) => Ok(planes),
        None => Planes::new(alloc, header, PAD),
    }
}

/// Plane `p` of three: 0 for Y, 1 for U and 2 for V.
fn plane_in<T: Pixel>(planes: &Planes<T>, p: usize) -> &Plane<T>
    requires { p < 3 }
    ensures { result.now ≡ plane_of (component p) planes.now }
{
    match p {
        0 => &planes.y,
        1 => &planes.u,
        _ => &planes.v,
    }
}

impl<T: Pixel> Model for SequenceOf<T> {
    ghost use Rattle.av1_sequence.specs.Kept.{Kept, slots_shown};
    ghost use Rattle.av1_sequence.specs.Last.{last_shown};

    ghost Value = { Kept };

    ghost view = { λ s. record {
      frames = s.pictures.header;
      slots = slots_shown T.num s.pictures.header s.pictures.fi s.pictures.places;
      last = last_shown T.num s.pictures.header s.pictures.fi s.apart s.last;
    } };
}

impl<T: Pixel> SequenceOf<T> {
    ghost use Rattle.std.specs.Prelude.{◌≡◌, ℕ, ◌<◌, ◌≤◌, ◌^◌, true, false, [], None, Some, length, map, option_map, slice_index_or};
    ghost use Rattle.std.specs.Prelude.{IfOk, IfErr, IfNone, IfSome, OnOk};
    ghost use Rattle.av1_blocks.specs.Depths.{IsDepth};
    ghost use Rattle.av1_plan.specs.Values.{leaves_value};
    ghost use Rattle.av1_plan.specs.Geometry.{shown_rows, shown_columns};
    ghost use Rattle.av1_plan.specs.Grammar.{is_side, plan as grammar};
    ghost use Rattle.av1_plan.specs.ReadPlans.{IsSide};
    ghost use Rattle.av1_plan.specs.Spelling.{IsSpelled};
    ghost use Rattle.av1_plan.specs.Validity.{first_fault};
    ghost use Rattle.av1_sequence.specs.Frames.{IsHead, frame_header};
    ghost use Rattle.av1_sequence.specs.Kept.{plane_shown};
    ghost use Rattle.av1_sequence.specs.Outcomes.{Accepts, Refuses, accepted, empty_sequence, frames_of, new_sequence, plan_over, shown_again};
    ghost use Rattle.av1_sequence.specs.Output.{IsWritable};
    ghost use Rattle.av1_sequence.specs.Slots.{Frame, row_in, slot_of};

    /// A sequence without frames, for plans of version 2. `width` and `height` are in samples of luma, multiples of 8
    /// from 8 to 2048. `depth` is 8, 10 or 12, and at most the bits of the sample type. `sampling` is 0 for 4:2:0, 1
    /// for 4:2:2 and 2 for 4:4:4.
    pub fn new(
        alloc: Global,
        width: u16,
        height: u16,
        depth: u8,
        sampling: u8,
    ) -> Result<SequenceOf<T>, OutOfMemory>
        requires width { IsSide width }
        requires height { IsSide height }
        requires depth { IsDepth depth }
        requires sampling { sampling ≤ 2 }
        requires fits { depth ≤ T.BITS }
        ensures { IfOk result (λ s. s ≡ new_sequence width height depth sampling) }
    {
        SequenceOf::with_version(alloc, 2, width, height, depth, sampling)
    }

    /// A sequence without frames, for plans of this version (1, 2 or 3). `width` and `height` are in visible samples of
    /// luma, from 1 to 2048. Up to version 2 they are multiples of 8. `depth` is 8, 10 or 12, and at most the bits of
    /// the sample type. `sampling` is 0 for 4:2:0, 1 for 4:2:2 and 2 for 4:4:4.
    pub fn with_version(
        alloc: Global,
        version: u8,
        width: u16,
        height: u16,
        depth: u8,
        sampling: u8,
    ) -> Result<SequenceOf<T>, OutOfMemory>
        requires version { (1 ≤ version) × (version ≤ 3) }
        requires width { is_side version width ≡ true }
        requires height { is_side version height ≡ true }
        requires depth { IsDepth depth }
        requires sampling { sampling ≤ 2 }
        requires fits { depth ≤ T.BITS }
        ensures { IfOk result (λ s. s ≡ empty_sequence (frames_of version width height depth sampling)) }
    {
        let header = Header {
            version,
            width,
            height,
            depth,
            sampling,
            filter: FilterMode::REGULAR,
            edge_filter: false,
            slots: [0; 7],
            mask: 0,
        };
        let pictures = Pictures::new(alloc, header)?;
        let memory = WalkMemory::new(alloc, &header)?;
        Ok(SequenceOf {
            alloc,
            pictures,
            memory,
            apart: None,
            last: Last::Nowhere,
        })
    }

    /// A header with the version, dimensions, depth and sampling of the frames. Its other fields have no meaning.
    pub fn header(&self) -> &Header
        ensures { result.now ≡ self.now.frames }
    {
        &self.pictures.header
    }

    /// Takes the next frame: reconstructs the leaves that `part` spells, predicted from the slots that the head names.
    /// The frame then replaces the slots of `head.refresh`.
    ///
    /// # Errors
    ///
    /// `TooLarge` is tested first, then `Malformed`, then `Invalid`. `Memory` may replace the last two. After an error
    /// the sequence is unchanged.
    pub fn frame(&mut self, head: &FrameHead, part: &[u8]) -> Result<(), FrameError>
        requires part { length part.now ≤ 2 ^ 26 }
        requires head { IsHead head.now }
        ensures accepted { OnOk result (Accepts self.old head.now part.now self.new) }
        ensures unchanged { IfErr result (λ e. self.new ≡ self.old) }
        ensures refused { IfErr result (λ e. Refuses self.old head.now part.now e) }
        ensures frames { self.new.frames ≡ self.old.frames }
    {
        let header = self.pictures.frame_header(head);
        if MOST_BYTES < HEADER_BYTES + self.pictures.reference_bytes(head) + part.len() {
            return Err(FrameError::TooLarge);
        }
        let leaves = match read_leaves(self.alloc, &header, part) {
            Ok(leaves) => leaves,
            Err(error) => return Err(error),
        };
        self.show(&header, head, &leaves)
    }

    /// Shows the frame of a slot (0 to 7) again. The frame is then the last one, and the slots of `refresh` also hold
    /// it (bit s is slot s). If the slot is empty, the call returns false and changes nothing.
    ///
    /// AV1 specification: reference frame loading process. There `refresh` is 255 for a key frame, else 0.
    pub fn show_again(&mut self, slot: usize, refresh: u8) -> bool
        requires slot { slot < 8 }
        ensures shown { result ≡ true → (frame : Frame) × (slot_of self.old.slots slot ≡ Some frame) × (self.new ≡ shown_again self.old refresh frame) }
        ensures empty { result ≡ false → (slot_of self.old.slots slot ≡ None) × (self.new ≡ self.old) }
    {
        match self.pictures.places[slot] {
            Some(held) => {
                self.pictures.also_in(refresh, held);
                self.last = Last::At(held);
                true
            }
            None => false,
        }
    }

    // Reconstructs the leaves of a frame, and keeps the frame.
    fn show(&mut self, header: &Header, head: &FrameHead, leaves: &Leaves) -> Result<(), FrameError>
        requires head { IsHead head.now }
        requires header { header.now ≡ frame_header self.old.frames self.old.slots head.now }
        requires spelled { ∥ IsSpelled grammar (plan_over self.old head.now (leaves_value leaves.now)) ∥₁ }
        requires valid { first_fault (plan_over self.old head.now (leaves_value leaves.now)) ≡ None }
        ensures accepted { OnOk result (self.new ≡ accepted self.old head.now (plan_over self.old head.now (leaves_value leaves.now))) }
        ensures unchanged { IfErr result (λ e. self.new ≡ self.old) }
        ensures memory { IfErr result (λ e. e ≡ FrameError.Memory) }
    {
        let apart = self.apart.take();
        let mut planes = planes_for(self.alloc, apart, header)?;
        self.pictures.set_head(head);
        self.memory
            .reconstruct(&mut planes, &self.pictures.fi, header, leaves);
        if head.refresh == 0 {
            self.apart = Some(planes);
            self.last = Last::Apart;
        } else {
            let (place, before) = self.pictures.keep(head.refresh, planes);
            self.apart = before;
            self.last = Last::At(place);
        }
        Ok(())
    }

    /// Plane `p` (0 for Y, 1 for U and 2 for V) of the last frame that was accepted or shown again. `None` if there was
    /// none yet.
    pub(crate) fn last_plane(&self, p: usize) -> Option<&Plane<T>>
        requires plane { p < 3 }
        ensures shown { option_map (λ plane. plane_shown T.num self.now.frames p plane.now) result ≡
            option_map (λ frame. slice_index_or frame p []) self.now.last }
        ensures writable { IfSome result (λ plane. IsWritable self.now.frames p plane.now) }
        ensures none { IfNone result (self.now.last ≡ None) }
    {
        match self.last {
            Last::Nowhere => None,
            Last::Apart => match &self.apart {
                Some(planes) => Some(plane_in(planes, p)),
                None => None,
            },
            Last::At(place) => Some(self.pictures.plane_at(place, p)),
        }
    }

    /// The visible samples of row `y` of plane `p` (0 for Y, 1 for U and 2 for V). The frame is the last one that was
    /// accepted or shown again. `None` if there was none yet.
    pub fn last_row(&self, p: usize, y: usize) -> Option<&[T]>
        requires plane { p < 3 }
        requires in_plane { y < shown_rows self.now.frames p }
        ensures { option_map (λ row. map T.num row.now) result ≡
            option_map (λ frame. row_in (shown_columns self.now.frames p) (slice_index_or frame p []) y) self.now.last }
    {
        match self.last_plane(p) {
            Some(plane) => Some(visible_row(plane, self.header(), p, y)),
            None => None,
        }
    }

    /// The visible samples of row `y` of plane `p` of the frame in a slot. `None` if the slot is empty.
    pub fn slot_row(&self, slot: usize, p: usize, y: usize) -> Option<&[T]>
        requires slot { slot < 8 }
        requires plane { p < 3 }
        requires in_plane { y < shown_rows self.now.frames p }
        ensures { option_map (λ row. map T.num row.now) result ≡ option_map (λ frame. row_in (shown_columns self.now.frames p) (slice_index_or frame p []) y)
            (slice_index_or self.now.slots slot None) }
    {
        match self.pictures.places[slot] {
            Some(place) => Some(self.pictures.row_at(place, p, y)),
            None => None,
        }
    }
}
