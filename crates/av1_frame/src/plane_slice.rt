//! Positions in stored samples, and the samples from there on, to read. Copies nothing and writes nothing.

ghost use Rattle.std.specs.Prelude.{◌≡◌, ◌-◌, ◌^◌, pos, ◌+ℤ◌, ◌-ℤ◌, ◌≤ℤ◌, ◌<ℤ◌, ◌<◌, length, FitsSigned, ⊤};
ghost use Rattle.std.specs.Int.{w64};
ghost use Rattle.av1_frame.specs.Areas.{IsStorage};

use crate::math::within_pads;
use crate::pixel::Pixel;
use crate::plane::{PlaneConfig, PlaneOffset};
use crate::storage::part_of;
use std::alloc::AllocError;

/// A position in stored samples, and the rows from there on: of a plane, or of memory that a caller holds. The position
/// may lie outside. The samples fill the rows of the settings, and the visible ones lie among them.
pub struct PlaneSlice<'a, T> {
    /// All that is stored, one row after another.
    pub(crate) samples: &'a [T],
    /// How the samples are stored.
    pub(crate) plane_cfg: &'a PlaneConfig,
    /// The column, counted from the first visible sample.
    pub(crate) x: isize,
    /// The row, counted from the first visible sample.
    pub(crate) y: isize,
    pub(crate) ghost whole: { IsStorage plane_cfg.now (length samples.now) },
}

impl<'a, T: Copy> Clone for PlaneSlice<'a, T> {
    ghost is_clone = { λ x y. y ≡ x };

    ghost is_infallible = { λ _. ⊤ };

    fn clone(&self) -> Result<PlaneSlice<'a, T>, AllocError> {
        Ok(*self)
    }
}

impl<'a, T: Copy> Copy for PlaneSlice<'a, T> {}

impl<'a, T: Pixel> PlaneSlice<'a, T> {
    ghost use Rattle.av1_frame.specs.Slices.{RowIsStored, all_from, slice_plane, within_pads, row_from, stored_column, stored_row};

    /// The position `po` in `samples`, which are stored as `plane_cfg` says. Nothing is copied: calls read these
    /// samples.
    pub fn from_slice(
        samples: &'a [T],
        plane_cfg: &'a PlaneConfig,
        po: PlaneOffset,
    ) -> PlaneSlice<'a, T>
        requires { IsStorage plane_cfg.now (length samples.now) }
        ensures samples { result.samples.now ≡ samples.now }
        ensures cfg { result.plane_cfg.now ≡ plane_cfg.now }
        ensures x { result.x ≡ po.x }
        ensures y { result.y ≡ po.y }
    {
        PlaneSlice {
            samples,
            plane_cfg,
            x: po.x,
            y: po.y,
        }
    }

    /// The nearest position within the pads to the left and above. To the right and below, it is at most the first
    /// column and row past the visible samples.
    pub fn clamp(&self) -> PlaneSlice<'a, T>
        ensures { let cfg = self.now.plane_cfg.now
            in result ≡ record self.now { x = within_pads self.now.x cfg.xpad cfg.width; y = within_pads self.now.y cfg.ypad cfg.height } }
    {
        let cfg = self.plane_cfg;
        let mut place = *self;
        place.x = within_pads(self.x, cfg.xpad, cfg.width);
        place.y = within_pads(self.y, cfg.ypad, cfg.height);
        place
    }

    /// The position `xo` columns to the right and `yo` rows below.
    pub fn subslice(&self, xo: usize, yo: usize) -> PlaneSlice<'a, T>
        requires column { FitsSigned w64 (self.now.x +ℤ pos xo) }
        requires row { FitsSigned w64 (self.now.y +ℤ pos yo) }
        ensures { result ≡ record self.now { x = self.now.x +ℤ pos xo; y = self.now.y +ℤ pos yo } }
    {
        let mut place = *self;
        place.x = self.x.saturating_add_unsigned(xo);
        place.y = self.y.saturating_add_unsigned(yo);
        place
    }

    /// The position `i` rows above.
    pub fn go_up(&self, i: usize) -> PlaneSlice<'a, T>
        requires { FitsSigned w64 (self.now.y -ℤ pos i) }
        ensures { result ≡ record self.now { y = self.now.y -ℤ pos i } }
    {
        let mut place = *self;
        place.y = self.y.saturating_sub_unsigned(i);
        place
    }

    /// The position `i` columns to the left.
    pub fn go_left(&self, i: usize) -> PlaneSlice<'a, T>
        requires { FitsSigned w64 (self.now.x -ℤ pos i) }
        ensures { result ≡ record self.now { x = self.now.x -ℤ pos i } }
    {
        let mut place = *self;
        place.x = self.x.saturating_sub_unsigned(i);
        place
    }

    /// Row `r` from the position on: the samples from its column to the end of the stored row.
    #[tactic(auto, using(crate::proofs::Fits::row_end_le))]
    pub fn row(&self, r: usize) -> &[T]
        requires { RowIsStored self.now r }
        ensures value { result.now ≡ row_from (slice_plane self.now) self.now.x (self.now.y +ℤ pos r) }
        ensures len { length result.now ≡ self.now.plane_cfg.now.stride - stored_column self.now.plane_cfg.now self.now.x }
    {
        let stride = self.plane_cfg.stride;
        let column = self.stored_column();
        let start = self.stored_row(r) * stride + column;
        part_of(self.samples, start, stride - column)
    }

    /// All that is stored from the position on: row `r` of it begins at `r * stride()`.
    #[inline]
    #[tactic(auto, using(crate::proofs::Fits::row_end_le))]
    pub fn samples(&self) -> &[T]
        requires { RowIsStored self.now 0 }
        ensures { result.now ≡ all_from (slice_plane self.now) self.now.x self.now.y }
    {
        let start = self.stored_row(0) * self.stride() + self.stored_column();
        let (_, rest) = self.samples.split_at(start);
        rest
    }

    /// The distance in storage between rows.
    #[inline]
    pub fn stride(&self) -> usize
        ensures { result ≡ self.now.plane_cfg.now.stride }
    {
        self.plane_cfg.stride
    }

    /// The stored column of the position.
    fn stored_column(&self) -> usize
        requires left { let cfg = self.now.plane_cfg.now in pos 0 ≤ℤ (pos cfg.xorigin +ℤ self.now.x) }
        requires right { let cfg = self.now.plane_cfg.now in (pos cfg.xorigin +ℤ self.now.x) <ℤ pos cfg.stride }
        ensures value { result ≡ stored_column self.now.plane_cfg.now self.now.x }
        ensures stored { result < self.now.plane_cfg.now.stride }
    {
        (self.plane_cfg.xorigin as isize + self.x) as usize
    }

    /// The stored row of row `r` from the position on.
    fn stored_row(&self, r: usize) -> usize
        requires top { let cfg = self.now.plane_cfg.now in pos 0 ≤ℤ (pos cfg.yorigin +ℤ (self.now.y +ℤ pos r)) }
        requires bottom { let cfg = self.now.plane_cfg.now in (pos cfg.yorigin +ℤ (self.now.y +ℤ pos r)) <ℤ pos cfg.alloc_height }
        ensures value { result ≡ stored_row self.now.plane_cfg.now (self.now.y +ℤ pos r) }
        ensures stored { result < self.now.plane_cfg.now.alloc_height }
    {
        let first = self.plane_cfg.yorigin as isize + self.y;
        first.saturating_add_unsigned(r) as usize
    }
}
