//! Holds the settings that all blocks of a frame share, and the planes of earlier frames. Only `new` allocates.

ghost use Rattle.std.specs.Prelude.{◌≡◌, ◌/◌, ◌%◌, ◌<◌, ◌≤◌, IfOk, All, None, Some, slice_set, slice_index_or};
ghost use Rattle.std.specs.Option.{option_map};
ghost use Rattle.av1_frame.specs.Frames.{new_frame, slot_plane};

use crate::pixel::Pixel;
use crate::plane::Plane;
use crate::slots::{Slot, Slots};
use av1_blocks::{FilterMode, OutOfMemory};
use std::alloc::Global;

/// The settings that all blocks of a frame share: its size, its depth, how it is predicted, and eight slots for the
/// planes of earlier frames.
#[derive(Drop)]
pub struct FrameInvariants<T> {
    /// The width of the frame in cells of 4x4 luma samples.
    pub w_in_b: usize,
    /// The height of the frame in cells of 4x4 luma samples.
    pub h_in_b: usize,
    /// The interpolation filter.
    pub default_filter: FilterMode,
    /// Whether the regular filter replaces the sharp one along sides up to 4.
    short_by_av1: bool,
    /// The depth of samples.
    pub bit_depth: usize,
    /// Whether the edges of directional prediction are filtered.
    pub enable_intra_edge_filter: bool,
    /// The slot of each reference frame, from `LAST_FRAME` to `ALTREF_FRAME`.
    pub ref_frames: [u8; 7],
    slots: Slots<T>,
}

impl<T: Pixel> FrameInvariants<T> {
    /// A frame of `width` by `height` luma samples. It allocates eight empty slots.
    pub fn new(
        alloc: Global,
        width: usize,
        height: usize,
        default_filter: FilterMode,
        bit_depth: usize,
        enable_intra_edge_filter: bool,
        ref_frames: [u8; 7],
    ) -> Result<FrameInvariants<T>, OutOfMemory>
        requires whole_columns { width % 8 ≡ 0 }
        requires few_columns { width ≤ 65536 }
        requires whole_rows { height % 8 ≡ 0 }
        requires few_rows { height ≤ 65536 }
        requires slots { All (λ slot. slot < 8) ref_frames }
        ensures { IfOk result (λ fi. fi ≡ new_frame width height default_filter bit_depth enable_intra_edge_filter ref_frames) }
    {
        Ok(FrameInvariants {
            w_in_b: width / 4,
            h_in_b: height / 4,
            default_filter,
            short_by_av1: false,
            bit_depth,
            enable_intra_edge_filter,
            ref_frames,
            slots: Slots::new(alloc)?,
        })
    }

    /// Whether the regular filter replaces the sharp one along sides up to 4, as in AV1. In rav1e, and in a new frame,
    /// the smooth filter replaces it.
    #[inline]
    pub fn follows_av1(&self) -> bool
        ensures { result ≡ self.now.short_by_av1 }
    {
        self.short_by_av1
    }

    /// Chooses the filter that replaces the sharp one along sides up to 4: if `yes`, the regular one, as in AV1, else
    /// the smooth one, as in rav1e.
    pub fn follow_av1(&mut self, yes: bool)
        ensures { self.new ≡ record self.old { short_by_av1 = yes } }
    {
        self.short_by_av1 = yes;
    }

    /// Puts the planes of a frame into slot `slot`.
    pub fn set_slot(&mut self, slot: usize, y: Plane<T>, u: Plane<T>, v: Plane<T>)
        requires { slot < 8 }
        ensures { self.new ≡ record self.old { slots = slice_set self.old.slots slot (Some (record { y = y; u = u; v = v })) } }
    {
        self.slots.set(slot, Slot { y, u, v });
    }

    /// Puts the planes of a frame into slot `slot`, and returns the planes that were there, if any.
    pub fn replace_slot(
        &mut self,
        slot: usize,
        y: Plane<T>,
        u: Plane<T>,
        v: Plane<T>,
    ) -> Option<(Plane<T>, Plane<T>, Plane<T>)>
        requires { slot < 8 }
        ensures value { result ≡ option_map (λ frame. (frame.y, frame.u, frame.v)) (slice_index_or self.old.slots slot None) }
        ensures after { self.new ≡ record self.old { slots = slice_set self.old.slots slot (Some (record { y = y; u = u; v = v })) } }
    {
        let before = self.slots.replace(slot, Slot { y, u, v });
        match before {
            Some(Slot { y, u, v }) => Some((y, u, v)),
            None => None,
        }
    }

    /// Plane `p` (0 for luma, 1 and 2 for chroma) of the frame in slot `slot`, if there is one.
    pub fn slot(&self, slot: usize, p: usize) -> Option<&Plane<T>>
        requires slot { slot < 8 }
        requires plane { p < 3 }
        ensures { option_map (λ plane. plane.now) result ≡ slot_plane self.now slot p }
    {
        self.slots.get(slot).map(|frame| frame.plane(p))
    }
}
