//! Holds the planes of earlier frames in eight slots: puts planes in, and lends them. Only `new` allocates.

ghost use Rattle.std.specs.Prelude.{◌≡◌, ◌<◌, IfOk, None, Some, length, slice_set, slice_index_or, replicate};
ghost use Rattle.std.specs.Option.{option_map};
ghost use Rattle.av1_frame.specs.Frames.{plane_of};

use crate::pixel::Pixel;
use crate::plane::Plane;
use std::alloc::{AllocError, Global};
use std::marker::Model;

/// The number of slots.
const SLOTS: usize = 8;

/// The planes of a frame.
#[derive(Drop)]
pub(crate) struct Slot<T> {
    pub(crate) y: Plane<T>,
    pub(crate) u: Plane<T>,
    pub(crate) v: Plane<T>,
}

impl<T: Pixel> Slot<T> {
    /// Plane `p`: 0 for luma, 1 and 2 for chroma.
    pub(crate) fn plane(&self, p: usize) -> &Plane<T>
        requires { p < 3 }
        ensures { result.now ≡ plane_of self.now p }
    {
        match p {
            0 => &self.y,
            1 => &self.u,
            _ => &self.v,
        }
    }
}

/// Eight slots, each empty or with the planes of a frame. A contract sees them as a list.
#[derive(Drop)]
pub(crate) struct Slots<T> {
    slots: Vec<Option<Slot<T>>>,
}

impl<T> Model for Slots<T> {
    ghost use Rattle.std.specs.Prelude.{◌≡◌, List, length, Option};
    ghost use Rattle.av1_frame.specs.declared.slots.Slot.{Slot};

    ghost Value = { List (Option (Slot T)) };

    ghost view = { λ s. s.slots.items };

    ghost invariant = { λ s. length s.slots.items ≡ 8 };
}

impl<T: Pixel> Slots<T> {
    /// Allocates eight empty slots.
    pub(crate) fn new(alloc: Global) -> Result<Slots<T>, AllocError>
        ensures { IfOk result (λ s. s ≡ replicate 8 None) }
    {
        let mut slots = Vec::with_capacity(alloc, SLOTS)?;
        for _i in 0..SLOTS {
            slots.push(None)?;
        }
        Ok(Slots { slots })
    }

    /// Puts a frame into slot `slot`.
    pub(crate) fn set(&mut self, slot: usize, frame: Slot<T>)
        requires { slot < 8 }
        ensures { self.new ≡ slice_set self.old slot (Some frame) }
    {
        self.slots[slot] = Some(frame);
    }

    /// Puts a frame into slot `slot`, and returns the one that was there, if any.
    pub(crate) fn replace(&mut self, slot: usize, frame: Slot<T>) -> Option<Slot<T>>
        requires { slot < 8 }
        ensures value { result ≡ slice_index_or self.old slot None }
        ensures after { self.new ≡ slice_set self.old slot (Some frame) }
    {
        self.slots[slot].replace(frame)
    }

    /// The frame in slot `slot`, if there is one.
    pub(crate) fn get(&self, slot: usize) -> Option<&Slot<T>>
        requires { slot < 8 }
        ensures { option_map (λ frame. frame.now) result ≡ slice_index_or self.now slot None }
    {
        self.slots[slot].as_ref()
    }
}
