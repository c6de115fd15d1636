//! Owns a plane's samples, one row after another: allocates, lends, and copies within them.

ghost use Rattle.std.specs.Prelude.{◌≡◌, ◌+◌, ◌<◌, ◌≤◌, ◌⊎◌, length, replicate, IfOk};
ghost use Rattle.std.specs.Borrow.{sem};
ghost use Rattle.av1_frame.specs.Samples.{part, with_part};
ghost use Rattle.av1_frame.specs.Planes.{LendsPart};

use crate::pixel::Pixel;
use crate::rows::zero_samples;
use std::alloc::{AllocError, Global};
use std::marker::Model;

/// Samples in one allocation. A contract sees a storage as the list of its samples.
#[derive(Drop)]
pub(crate) struct Storage<T> {
    samples: Vec<T>,
}

impl<T> Model for Storage<T> {
    ghost use Rattle.std.specs.Prelude.{List};

    ghost Value = { List T };

    ghost view = { λ s. s.samples.items };
}

impl<T> Storage<T> {
    /// All the samples.
    pub(crate) fn as_slice(&self) -> &[T]
        ensures { result.now ≡ self.now }
    {
        self.samples.as_slice()
    }

    /// All the samples, to write.
    pub(crate) fn as_mut_slice(&mut self) -> &mut [T]
        ensures* writes_back { sem 𝓛 (LendsPart T.row self.entry 0 result) }
        ensures value { result.now ≡ self.old }
    {
        self.samples.as_mut_slice()
    }

    /// The `width` samples from position `start` on, to write.
    pub(crate) fn part_mut(&mut self, start: usize, width: usize) -> &mut [T]
        requires { start + width ≤ length self.old }
        ensures* writes_back { sem 𝓛 (LendsPart T.row self.entry start result) }
        ensures value { result.now ≡ part start width self.old }
        ensures len { length result.now ≡ width }
    {
        self.samples.slice_mut(start..start + width)
    }
}

impl<T: Pixel> Storage<T> {
    /// Copies `width` samples: from position `from` on, to position `to` and the next. The ranges must not overlap.
    pub(crate) fn copy_apart(&mut self, from: usize, to: usize, width: usize)
        requires from { from + width ≤ length self.old }
        requires to { to + width ≤ length self.old }
        requires apart { (from + width ≤ to) ⊎ (to + width ≤ from) }
        ensures { self.new ≡ with_part to self.old (part from width self.old) }
    {
        copy_apart_in(self.samples.as_mut_slice(), from, to, width);
    }

    /// Allocates `n` zero samples.
    pub(crate) fn zeros(alloc: Global, n: usize) -> Result<Storage<T>, AllocError>
        ensures { IfOk result (λ s. s ≡ replicate n (T.pixel 0)) }
    {
        Ok(Storage {
            samples: zero_samples(alloc, n)?,
        })
    }

    /// Allocates a copy of the samples of `s`.
    pub(crate) fn from_slice(alloc: Global, s: &[T]) -> Result<Storage<T>, AllocError>
        ensures { IfOk result (λ t. t ≡ s.now) }
    {
        let mut samples = Vec::new(alloc);
        samples.extend_from_slice(s)?;
        Ok(Storage { samples })
    }
}

/// Copies `width` samples: from position `from` on, to position `to` and the next. The ranges must not overlap.
fn copy_apart_in<T: Pixel>(samples: &mut [T], from: usize, to: usize, width: usize)
    requires from { from + width ≤ length samples.old }
    requires to { to + width ≤ length samples.old }
    requires apart { (from + width ≤ to) ⊎ (to + width ≤ from) }
    ensures { samples.new ≡ with_part to samples.old (part from width samples.old) }
{
    if from < to {
        let (source, target) = samples.split_at_mut(to);
        target[..width].copy_from_slice(&source[from..from + width]);
    } else {
        let (front, source) = samples.split_at_mut(from);
        let (_, target) = front.split_at_mut(to);
        target[..width].copy_from_slice(&source[..width]);
    }
}

/// The `width` samples of `s` from position `start` on.
pub(crate) fn part_of<T>(s: &[T], start: usize, width: usize) -> &[T]
    requires { start + width ≤ length s.now }
    ensures value { result.now ≡ part start width s.now }
    ensures len { length result.now ≡ width }
{
    &s[start..start + width]
}
