//! Keeps the padded frames of the eight slots, each frame once. Only `new` allocates.
//!
//! A frame that replaces several slots is kept once. `places` says at which of eight places the frame of each slot is
//! kept. A place that no slot names is free for the next frame.

ghost use Rattle.std.specs.Prelude.{[], ◌≡◌, ◌≢◌, ℕ, ◌+◌, ◌*◌, ◌%◌, ◌^◌, ◌<◌, ◌≤◌, true, false, None, Some, replicate, slice_index_or, is_some};
ghost use Rattle.std.specs.Prelude.{length, map};
ghost use Rattle.std.specs.Prelude.{IfOk, IfSome};
ghost use Rattle.std.specs.Option.{option_map};
ghost use Rattle.av1_plan.specs.Geometry.{plane_len, shown_columns, shown_rows};
ghost use Rattle.av1_plan.specs.Plan.{PlanValue};
ghost use Rattle.av1_tile.specs.Motion.{ServesPlan};
ghost use Rattle.av1_plan.specs.Lengths.{slot_bytes};
ghost use Rattle.av1_sequence.specs.Frames.{IsHead, frame_header, frame_references};
ghost use Rattle.av1_sequence.specs.Kept.{AreFrames, AreReady, IsKeptAt, KeepsFrames, coded_plane, coded_planes, plane_shown, planes_shown, shown_at};
ghost use Rattle.av1_sequence.specs.Kept.{shown_plane, slots_shown};
ghost use Rattle.av1_frame.specs.Planes.{IsWhole, padded};
ghost use Rattle.av1_tile.specs.Walk.{Stores};
ghost use Rattle.av1_sequence.specs.Output.{IsWritable};
ghost use Rattle.av1_sequence.specs.Slots.{Frame, bits_of, count_of, has_bit, is_named, is_read, refreshed, row_in};

use crate::head::FrameHead;
use av1_blocks::OutOfMemory;
use av1_frame::{FrameInvariants, Pixel, Plane};
use av1_plan::Header;
use av1_tile::{Planes, visible_row};
use std::alloc::Global;

/// The number of slots, and of places.
const SLOTS: usize = 8;

/// The frames of slots.
#[derive(Drop)]
pub struct Pictures<T: Pixel> {
    /// The version, dimensions, depth and sampling of the frames.
    pub(crate) header: Header,
    /// The frames, padded, each at its place.
    pub(crate) fi: FrameInvariants<T>,
    /// For each filled slot the place of its frame.
    pub(crate) places: [Option<u8>; SLOTS],
    pub(crate) ghost keeps: { KeepsFrames T.num header fi places },
}

/// How many samples plane `p` of a frame has.
fn plane_samples(header: &Header, p: usize) -> usize
    requires { AreFrames header.now }
    ensures value { result ≡ plane_len header.now p }
    ensures few { result ≤ 2 ^ 22 }
{
    header.plane_len(p)
}

/// How many bytes the samples of a frame have: one for each sample at depth 8, else two.
fn frame_bytes(header: &Header) -> usize
    requires { AreFrames header.now }
    ensures value { result ≡ slot_bytes header.now }
    ensures few { result ≤ 2 ^ 25 }
{
    let samples = plane_samples(header, 0) + plane_samples(header, 1) + plane_samples(header, 2);
    if header.depth == 8 {
        samples
    } else {
        samples * 2
    }
}

/// Whether bit `slot` is set.
#[tactic(auto, unfolding(crate::specs::Slots::has_bit))]
fn has_bit(bits: u8, slot: usize) -> bool
    requires { slot < 8 }
    ensures { result ≡ has_bit bits slot }
{
    (bits >> slot) % 2 == 1
}

/// Whether one of the references names the slot.
fn is_named(named: &[u8; 7], slot: usize) -> bool
    ensures { result ≡ is_named named.now slot }
{
    named.iter().any(|name| usize::from(*name) == slot)
}

/// Whether a slot with this place has its frame at `place`.
fn is_at(kept: Option<u8>, place: u8) -> bool
    ensures yes { result ≡ true → kept ≡ Some place }
    ensures no { result ≡ false → kept ≢ Some place }
{
    match kept {
        Some(at) => at == place,
        None => false,
    }
}

/// Whether a slot that the frame does not replace has its frame at a place.
fn is_shown(places: &[Option<u8>; SLOTS], refresh: u8, place: u8) -> bool
    ensures yes { result ≡ true → (s : ℕ) × ((s < 8) × (has_bit refresh s ≡ false) × (slice_index_or places.now s None ≡ Some place)) }
    ensures no { result ≡ false → (s : ℕ) → s < 8 → has_bit refresh s ≡ false → slice_index_or places.now s None ≢ Some place }
{
    for slot in 0..SLOTS {
        if !has_bit(refresh, slot) && is_at(places[slot], place) {
            return true;
        }
    }
    false
}

/// The first place that no slot needs, except slots that the frame replaces. There is one, because the frame replaces
/// at least one slot.
fn free_place(places: &[Option<u8>; SLOTS], refresh: u8) -> u8
    requires some { (r : ℕ) × ((r < 8) × (has_bit refresh r ≡ true)) }
    ensures below { result < 8 }
    ensures free { (s : ℕ) → s < 8 → has_bit refresh s ≡ false → slice_index_or places.now s None ≢ Some result }
{
    for place in 0..7 {
        if !is_shown(places, refresh, place) {
            return place;
        }
    }
    7
}

/// The places after the frame at `place` has replaced slots.
fn replaced(places: [Option<u8>; SLOTS], refresh: u8, place: u8) -> [Option<u8>; SLOTS]
    requires { length places ≡ 8 }
    ensures count { length result ≡ 8 }
    ensures new { (s : ℕ) → s < 8 → has_bit refresh s ≡ true → slice_index_or result s None ≡ Some place }
    ensures old { (s : ℕ) → s < 8 → has_bit refresh s ≡ false → slice_index_or result s None ≡ slice_index_or places s None }
{
    let mut replaced = places;
    for slot in 0..SLOTS {
        if has_bit(refresh, slot) {
            replaced[slot] = Some(place);
        }
    }
    replaced
}

/// For each reference the place of the frame in the slot that it names.
fn places_of(places: &[Option<u8>; SLOTS], slots: &[u8; 7]) -> [u8; 7]
    requires { (i : ℕ) → i < 7 → slice_index_or slots.now i 0 < 8 }
    ensures { (i place : ℕ) → i < 7 → slice_index_or places.now (slice_index_or slots.now i 0) None ≡ Some place → slice_index_or result i 0 ≡ place }
{
    let mut named = [0; 7];
    for reference in 0..7 {
        named[reference] = places[usize::from(slots[reference])].unwrap_or(0);
    }
    named
}

/// Makes only the shown part of plane `p` of a frame visible, and pads the plane from it.
fn pad_shown<T: Pixel>(header: &Header, plane: &mut Plane<T>, p: usize)
    requires frame { AreFrames header.now }
    requires stores { Stores T.num header.now p plane.old }
    ensures { plane.new ≡ padded (shown_plane header.now p plane.old) }
{
    plane.set_sides(header.shown_columns(p), header.shown_rows(p));
    plane.pad();
}

/// Makes all that is coded of plane `p` of a frame visible again.
fn open_plane<T: Pixel>(header: &Header, plane: &mut Plane<T>, p: usize)
    requires { IsWhole (coded_plane header.now p plane.old) }
    ensures { plane.new ≡ coded_plane header.now p plane.old }
{
    plane.set_sides(header.plane_width(p), header.plane_height(p));
}

/// The planes of a frame, if given, for a later frame. All that is coded is visible again.
fn as_planes<T: Pixel>(
    header: &Header,
    planes: Option<(Plane<T>, Plane<T>, Plane<T>)>,
) -> Option<Planes<T>>
    requires { IfSome planes (λ p. AreReady T.num header.now (coded_planes header.now p.0 p.1 p.2)) }
    ensures { result ≡ option_map (λ p. coded_planes header.now p.0 p.1 p.2) planes }
{
    match planes {
        Some((mut y, mut u, mut v)) => {
            open_plane(header, &mut y, 0);
            open_plane(header, &mut u, 1);
            open_plane(header, &mut v, 2);
            Some(Planes { y, u, v })
        }
        None => None,
    }
}

impl<T: Pixel> Pictures<T> {
    /// No frames: all slots are empty.
    pub fn new(alloc: Global, header: Header) -> Result<Pictures<T>, OutOfMemory>
        requires { AreFrames header }
        ensures header { IfOk result (λ p. p.header ≡ header) }
        ensures slots { IfOk result (λ p. slots_shown T.num p.header p.fi p.places ≡ replicate 8 None) }
    {
        let fi = FrameInvariants::new(
            alloc,
            header.coded_width(),
            header.coded_height(),
            header.filter,
            usize::from(header.depth),
            header.edge_filter,
            [0; 7],
        )?;
        Ok(Pictures {
            header,
            fi,
            places: [None; SLOTS],
        })
    }

    /// Whether a frame with this head reads the slot.
    fn is_read(&self, head: &FrameHead, slot: usize) -> bool
        requires { slot < 8 }
        ensures { result ≡ is_read head.now.slots (slots_shown T.num self.now.header self.now.fi self.now.places) slot }
    {
        is_named(&head.slots, slot) && self.places[slot].is_some()
    }

    /// The slots that a frame with this head reads: bit s is slot s.
    fn mask(&self, head: &FrameHead) -> u8
        ensures { result ≡ bits_of (is_read head.now.slots (slots_shown T.num self.now.header self.now.fi self.now.places)) 8 }
    {
        let mut mask = 0;
        for slot in 0..SLOTS {
            if self.is_read(head, slot) {
                mask += 1 << slot;
            }
        }
        mask
    }

    /// How many slots a frame with this head reads.
    fn count(&self, head: &FrameHead) -> usize
        ensures value { result ≡ count_of (is_read head.now.slots (slots_shown T.num self.now.header self.now.fi self.now.places)) 8 }
        ensures few { result ≤ 8 }
    {
        let mut count = 0;
        for slot in 0..SLOTS {
            if self.is_read(head, slot) {
                count += 1;
            }
        }
        count
    }

    /// The header of the plan of a frame with this head.
    pub fn frame_header(&self, head: &FrameHead) -> Header
        ensures { result ≡ frame_header self.now.header (slots_shown T.num self.now.header self.now.fi self.now.places) head.now }
    {
        Header {
            version: self.header.version,
            width: self.header.width,
            height: self.header.height,
            depth: self.header.depth,
            sampling: self.header.sampling,
            filter: head.filter,
            edge_filter: head.edge_filter,
            slots: head.slots,
            mask: self.mask(head),
        }
    }

    /// How many bytes the reference samples of a frame with this head have.
    #[tactic(auto, using(crate::proofs::Sizes::eight_times))]
    pub fn reference_bytes(&self, head: &FrameHead) -> usize
        ensures value { result ≡ count_of (is_read head.now.slots (slots_shown T.num self.now.header self.now.fi self.now.places)) 8 * slot_bytes
            self.now.header }
        ensures few { result ≤ 2 ^ 28 }
    {
        self.count(head) * frame_bytes(&self.header)
    }

    /// Takes the settings of a frame with this head. Its references then name the places of the slots that it reads.
    pub fn set_head(&mut self, head: &FrameHead)
        requires { IsHead head.now }
        ensures header { self.new.header ≡ self.old.header }
        ensures slots { slots_shown T.num self.new.header self.new.fi self.new.places ≡ slots_shown T.num self.old.header self.old.fi self.old.places }
        ensures places { self.new.places ≡ self.old.places }
        ensures kept { self.new.fi.slots ≡ self.old.fi.slots }
        ensures serves { let slots = slots_shown T.num self.old.header self.old.fi self.old.places in
            (plan : PlanValue) → plan.header ≡ frame_header self.old.header slots head.now → plan.references ≡ frame_references slots head.now →
            ServesPlan T.num plan self.new.fi }
    {
        self.fi.default_filter = head.filter;
        self.fi.follow_av1(self.header.follows_av1());
        self.fi.enable_intra_edge_filter = head.edge_filter;
        self.fi.ref_frames = places_of(&self.places, &head.slots);
    }

    /// Keeps a frame, padded, at a free place, and returns the place. The slots of `refresh` then have this frame. Also
    /// returns the planes that were at that place, if any, for a later frame.
    pub fn keep(&mut self, refresh: u8, planes: Planes<T>) -> (u8, Option<Planes<T>>)
        requires some { refresh ≢ 0 }
        requires ready { AreReady T.num self.old.header planes }
        ensures header { self.new.header ≡ self.old.header }
        ensures slots { slots_shown T.num self.new.header self.new.fi self.new.places ≡
            refreshed (slots_shown T.num self.old.header self.old.fi self.old.places) refresh (planes_shown T.num self.old.header planes.y planes.u planes.v) }
        ensures shown { shown_at T.num self.new.header self.new.fi result.0 ≡ Some (planes_shown T.num self.old.header planes.y planes.u planes.v) }
        ensures kept { IsKeptAt T.num self.new.header self.new.fi result.0 }
        ensures free { IfSome result.1 (λ before. AreReady T.num self.old.header before) }
    {
        let Planes {
            mut y,
            mut u,
            mut v,
        } = planes;
        pad_shown(&self.header, &mut y, 0);
        pad_shown(&self.header, &mut u, 1);
        pad_shown(&self.header, &mut v, 2);
        let place = free_place(&self.places, refresh);
        let before = self.fi.replace_slot(usize::from(place), y, u, v);
        self.places = replaced(self.places, refresh, place);
        (place, as_planes(&self.header, before))
    }

    /// Also puts the frame at a place into the slots of `refresh`.
    pub fn also_in(&mut self, refresh: u8, place: u8)
        requires kept { IsKeptAt T.num self.old.header self.old.fi place }
        ensures header { self.new.header ≡ self.old.header }
        ensures kept { self.new.fi ≡ self.old.fi }
        ensures slots { (frame : Frame) → shown_at T.num self.old.header self.old.fi place ≡ Some frame →
            slots_shown T.num self.new.header self.new.fi self.new.places ≡
            refreshed (slots_shown T.num self.old.header self.old.fi self.old.places) refresh frame }
    {
        self.places = replaced(self.places, refresh, place);
    }

    /// Plane `p` of the frame at a place.
    pub fn plane_at(&self, place: u8, p: usize) -> &Plane<T>
        requires kept { IsKeptAt T.num self.now.header self.now.fi place }
        requires plane { p < 3 }
        ensures shown { (frame : Frame) → shown_at T.num self.now.header self.now.fi place ≡ Some frame →
            plane_shown T.num self.now.header p result.now ≡ slice_index_or frame p [] }
        ensures writable { IsWritable self.now.header p result.now }
    {
        self.fi.slot(usize::from(place), p).unwrap()
    }

    /// Row `y` of plane `p` of the frame at a place.
    pub fn row_at(&self, place: u8, p: usize, y: usize) -> &[T]
        requires kept { IsKeptAt T.num self.now.header self.now.fi place }
        requires plane { p < 3 }
        requires in_plane { y < shown_rows self.now.header p }
        ensures { (frame : Frame) → shown_at T.num self.now.header self.now.fi place ≡ Some frame →
            map T.num result.now ≡ row_in (shown_columns self.now.header p) (slice_index_or frame p []) y }
    {
        visible_row(self.plane_at(place, p), &self.header, p, y)
    }
}
