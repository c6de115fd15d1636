//! A plane of samples: allocates it, gives its settings, and lends its parts to callers that read or write them.

ghost use Rattle.std.specs.Prelude.{◌≡◌, ◌+◌, ◌-◌, ◌*◌, ◌/◌, ◌%◌, ◌<◌, ◌≤◌, ◌⊎◌, length, replicate, IfOk};
ghost use Rattle.std.specs.Borrow.{sem};
ghost use Rattle.av1_frame.specs.Samples.{part, with_part};
ghost use Rattle.av1_frame.specs.Areas.{area_from, from_origin, stored_area, all_visible, IsStored};
ghost use Rattle.av1_frame.specs.Planes.{place_at, InPlane, LendsPlanePart, IsWhole, with_sides, new_config, bare_config, plain_config};
ghost use Rattle.av1_frame.specs.Regions.{InStorage, IsReadable};

use crate::pixel::Pixel;
use crate::plane_region::{Area, PlaneRegion, PlaneRegionMut, StoredArea};
use crate::plane_slice::PlaneSlice;
use crate::storage::{Storage, part_of};
use av1_blocks::OutOfMemory;
use std::alloc::Global;
use std::marker::Model;

/// The settings of a plane, in samples.
#[derive(Clone, Copy, Debug, PartialEq, Eq)]
pub struct PlaneConfig {
    /// The distance in storage between rows.
    pub stride: usize,
    /// The number of rows that are stored.
    pub alloc_height: usize,
    /// The width of the visible rectangle.
    pub width: usize,
    /// The height of the visible rectangle.
    pub height: usize,
    /// 1 if the plane has half as many columns as luma, else 0.
    pub xdec: usize,
    /// 1 if the plane has half as many rows as luma, else 0.
    pub ydec: usize,
    /// The number of further columns that are stored on either side.
    pub xpad: usize,
    /// The number of further rows that are stored above and below.
    pub ypad: usize,
    /// The stored column of the first visible sample.
    pub xorigin: usize,
    /// The stored row of the first visible sample.
    pub yorigin: usize,
}

impl PlaneConfig {
    /// The settings of `rows` rows of samples that are `stride` apart, of which the rectangle `visible` is visible.
    /// They have no pads, and as many columns and rows as luma; for other planes set the fields.
    pub fn bare(stride: usize, rows: usize, visible: StoredArea) -> PlaneConfig
        ensures { result ≡ bare_config stride rows visible }
    {
        PlaneConfig {
            stride,
            alloc_height: rows,
            width: visible.width,
            height: visible.height,
            xdec: 0,
            ydec: 0,
            xpad: 0,
            ypad: 0,
            xorigin: visible.x,
            yorigin: visible.y,
        }
    }
}

/// A position in a plane, counted in samples from the first visible one.
#[derive(Clone, Copy, Debug, PartialEq, Eq)]
pub struct PlaneOffset {
    /// The column.
    pub x: isize,
    /// The row.
    pub y: isize,
}

/// A plane of samples: a visible rectangle in storage that may be larger on each side. The samples fill the rows of
/// its settings, and the visible ones lie among them. Contracts see the samples and the settings.
#[derive(Drop)]
pub struct Plane<T> {
    samples: Storage<T>,
    pub(crate) plane_cfg: PlaneConfig,
}

impl<T> Model for Plane<T> {
    ghost use Rattle.std.specs.Prelude.{length};
    ghost use Rattle.av1_frame.specs.Stored.{Plane as Stored};
    ghost use Rattle.av1_frame.specs.Areas.{IsStorage};

    ghost Value = { Stored T };

    ghost view = { λ p. record { samples = p.samples; plane_cfg = p.plane_cfg } };

    ghost invariant = { λ p. IsStorage p.plane_cfg (length p.samples) };
}

impl<T: Pixel> Plane<T> {
    /// Allocates a plane of `width` by `height` visible samples. All samples are 0.
    ///
    /// Storage is the width and height rounded up to whole blocks of 64 luma samples, with `xpad` columns on either
    /// side and `ypad` rows above and below. `xdec` and `ydec` are 1 if the plane has half of luma's columns or rows.
    pub fn new(
        alloc: Global,
        width: usize,
        height: usize,
        xdec: usize,
        ydec: usize,
        xpad: usize,
        ypad: usize,
    ) -> Result<Plane<T>, OutOfMemory>
        requires some_columns { 0 < width }
        requires few_columns { width ≤ 65536 }
        requires some_rows { 0 < height }
        requires few_rows { height ≤ 65536 }
        requires xdec { xdec ≤ 1 }
        requires ydec { ydec ≤ 1 }
        requires xpad { xpad ≤ 256 }
        requires ypad { ypad ≤ 256 }
        ensures cfg { IfOk result (λ p. p.plane_cfg ≡ new_config width height xdec ydec xpad ypad) }
        ensures samples { IfOk result (λ p. p.samples ≡ replicate (p.plane_cfg.alloc_height * p.plane_cfg.stride) (T.pixel 0)) }
        ensures whole { IfOk result IsWhole }
    {
        let plane_cfg = PlaneConfig {
            stride: xpad + width.next_multiple_of(64 >> xdec) + xpad,
            alloc_height: ypad + height.next_multiple_of(64 >> ydec) + ypad,
            width,
            height,
            xdec,
            ydec,
            xpad,
            ypad,
            xorigin: xpad,
            yorigin: ypad,
        };
        let samples = Storage::zeros(alloc, plane_cfg.alloc_height * plane_cfg.stride)?;
        Ok(Plane { samples, plane_cfg })
    }

    /// Allocates a plane that has exactly the rows of `samples`, which are `stride` long. It has no pads.
    pub fn from_slice(alloc: Global, samples: &[T], stride: usize) -> Result<Plane<T>, OutOfMemory>
        requires some_columns { 0 < stride }
        requires few_columns { stride ≤ 65536 }
        requires whole_rows { length samples.now % stride ≡ 0 }
        requires some_rows { 0 < length samples.now / stride }
        requires few_rows { length samples.now / stride ≤ 65536 }
        ensures cfg { IfOk result (λ p. p.plane_cfg ≡ plain_config stride (length samples.now / stride)) }
        ensures samples { IfOk result (λ p. p.samples ≡ samples.now) }
        ensures whole { IfOk result IsWhole }
    {
        let height = samples.len() / stride;
        let all = StoredArea {
            x: 0,
            y: 0,
            width: stride,
            height,
        };
        let plane_cfg = PlaneConfig::bare(stride, height, all);
        let samples = Storage::from_slice(alloc, samples)?;
        Ok(Plane { samples, plane_cfg })
    }

    /// Copies `width` samples: from the stored position `from` on, to the stored position `to` and the next ones. The
    /// ranges must not overlap.
    pub(crate) fn copy_apart(&mut self, from: usize, to: usize, width: usize)
        requires from { from + width ≤ length self.old.samples }
        requires to { to + width ≤ length self.old.samples }
        requires apart { (from + width ≤ to) ⊎ (to + width ≤ from) }
        ensures { self.new ≡ record self.old { samples = with_part to self.old.samples (part from width self.old.samples) } }
    {
        self.samples.copy_apart(from, to, width);
    }

    /// The `width` samples of row `y` from column `x` on, counted from the first visible sample.
    #[tactic(auto, using(crate::proofs::Planes::run_in_storage))]
    pub fn run(&self, x: usize, y: usize, width: usize) -> &[T]
        requires { InPlane (record { x = x; y = y; width = width; height = 1 }) self.now }
        ensures value { result.now ≡ part (place_at self.now.plane_cfg x y) width self.now.samples }
        ensures len { length result.now ≡ width }
    {
        let start = (self.plane_cfg.yorigin + y) * self.plane_cfg.stride
            + (self.plane_cfg.xorigin + x);
        part_of(self.samples.as_slice(), start, width)
    }

    /// The settings.
    pub fn config(&self) -> PlaneConfig
        ensures { result ≡ self.now.plane_cfg }
    {
        self.plane_cfg
    }

    /// Makes `width` columns and `height` rows visible, from the first visible sample on. The samples are unchanged.
    pub fn set_sides(&mut self, width: usize, height: usize)
        requires { IsWhole (with_sides width height self.old) }
        ensures { self.new ≡ with_sides width height self.old }
    {
        self.plane_cfg.width = width;
        self.plane_cfg.height = height;
    }

    /// All stored samples.
    pub(crate) fn as_slice(&self) -> &[T]
        ensures { result.now ≡ self.now.samples }
    {
        self.samples.as_slice()
    }

    /// The `width` samples from the stored position `start` on, to write.
    pub(crate) fn part_mut(&mut self, start: usize, width: usize) -> &mut [T]
        requires { start + width ≤ length self.old.samples }
        ensures* writes_back { sem 𝓛 (LendsPlanePart T.row self.entry start result) }
        ensures value { result.now ≡ part start width self.old.samples }
        ensures len { length result.now ≡ width }
    {
        self.samples.part_mut(start, width)
    }

    /// The position `po`, which may lie outside storage.
    pub fn slice(&self, po: PlaneOffset) -> PlaneSlice<'_, T>
        ensures samples { result.samples.now ≡ self.now.samples }
        ensures cfg { result.plane_cfg.now ≡ self.now.plane_cfg }
        ensures x { result.x ≡ po.x }
        ensures y { result.y ≡ po.y }
    {
        PlaneSlice::from_slice(self.samples.as_slice(), &self.plane_cfg, po)
    }

    /// The visible rectangle, to read.
    pub fn as_region(&self) -> PlaneRegion<'_, T>
        ensures samples { result.samples.now ≡ self.now.samples }
        ensures cfg { result.plane_cfg ≡ self.now.plane_cfg }
        ensures area { result.area ≡ stored_area self.now.plane_cfg (all_visible self.now.plane_cfg) }
        ensures fits { IsReadable result }
    {
        self.region(Area::Rect {
            x: 0,
            y: 0,
            width: self.plane_cfg.width,
            height: self.plane_cfg.height,
        })
    }

    /// The visible rectangle, to read and write: what is written is in the plane when the borrow ends.
    pub fn as_region_mut(&mut self) -> PlaneRegionMut<'_, T>
        ensures same_reference { result.plane.ghost_name ≡ self.entry.ghost_name }
        ensures plane { result.plane.now ≡ self.old }
        ensures cfg { result.plane_cfg ≡ self.old.plane_cfg }
        ensures area { result.area ≡ stored_area self.old.plane_cfg (all_visible self.old.plane_cfg) }
        ensures fits { InStorage result }
    {
        let width = self.plane_cfg.width;
        let height = self.plane_cfg.height;
        self.region_mut(Area::Rect {
            x: 0,
            y: 0,
            width,
            height,
        })
    }

    /// The rectangle `area`, to read. A `Rect` counts from the first visible sample.
    pub fn region(&self, area: Area) -> PlaneRegion<'_, T>
        requires area { IsStored self.now.plane_cfg area }
        ensures samples { result.samples.now ≡ self.now.samples }
        ensures cfg { result.plane_cfg ≡ self.now.plane_cfg }
        ensures area { result.area ≡ area_from self.now.plane_cfg (from_origin self.now.plane_cfg) area }
        ensures fits { IsReadable result }
    {
        PlaneRegion::from_slice(self.samples.as_slice(), self.plane_cfg, area)
    }

    /// The rectangle `area`, to read and write: what is written is in the plane when the borrow ends.
    /// A `Rect` counts from the first visible sample.
    pub fn region_mut(&mut self, area: Area) -> PlaneRegionMut<'_, T>
        requires area { IsStored self.old.plane_cfg area }
        ensures same_reference { result.plane.ghost_name ≡ self.entry.ghost_name }
        ensures plane { result.plane.now ≡ self.old }
        ensures cfg { result.plane_cfg ≡ self.old.plane_cfg }
        ensures area { result.area ≡ area_from self.old.plane_cfg (from_origin self.old.plane_cfg) area }
        ensures fits { InStorage result }
    {
        let plane_cfg = self.plane_cfg;
        let inner = StoredArea::from_origin(plane_cfg).inner(plane_cfg, area);
        let rect = inner.rect(plane_cfg);
        PlaneRegionMut {
            plane: self,
            plane_cfg,
            area: inner,
            rect,
        }
    }
}
