//! Lends rectangles of stored samples: of a plane or a caller's slice to read, of a plane to write. Copies nothing.

ghost use Rattle.std.specs.Prelude.{◌≡◌, ◌+◌, ◌-◌, ◌*◌, ◌^◌, ◌<◌, ◌≤◌, length, pos};
ghost use Rattle.std.specs.Borrow.{sem};
ghost use Rattle.av1_frame.specs.Samples.{in_rows, row_of};
ghost use Rattle.av1_frame.specs.Areas.{area_from, from_origin, rect_of, LiesIn, IsPartOf, IsStorage, IsStored};
ghost use Rattle.av1_frame.specs.Regions.{LendsRow, LendsRows, LendsSub, InStorage, IsReadable, own_rows, stored};

use crate::block_unit::BlockOffset;
use crate::pixel::Pixel;
use crate::plane::{Plane, PlaneConfig};
use crate::storage::part_of;

/// A rectangle of a plane, in samples, counted from the first visible one.
#[derive(Clone, Copy, Debug, PartialEq, Eq)]
pub struct Rect {
    /// The first column.
    pub x: isize,
    /// The first row.
    pub y: isize,
    /// The number of columns.
    pub width: usize,
    /// The number of rows.
    pub height: usize,
}

/// Which rectangle of a plane or of a region is meant.
#[derive(Clone, Copy, Debug, PartialEq, Eq)]
pub enum Area {
    /// A rectangle in samples, counted from the plane's first visible sample or from the region's first.
    Rect {
        /// The first column.
        x: isize,
        /// The first row.
        y: isize,
        /// The number of columns.
        width: usize,
        /// The number of rows.
        height: usize,
    },
    /// All from the cell `bo` of 4x4 luma samples on, to the right and lower end of storage or of the region.
    BlockStartingAt {
        /// The cell.
        bo: BlockOffset,
    },
}

/// The rectangle at column `x` of row `y` of a plane, as an area of it.
pub fn visible_area(x: usize, y: usize, width: usize, height: usize) -> Area
    requires x { x < 2 ^ 63 }
    requires y { y < 2 ^ 63 }
    ensures { result ≡ Area.Rect (pos x) (pos y) width height }
{
    Area::Rect {
        x: x as isize,
        y: y as isize,
        width,
        height,
    }
}

/// A rectangle of storage: its columns and rows count from the first stored sample.
#[derive(Clone, Copy, Debug, PartialEq, Eq)]
pub struct StoredArea {
    /// The first stored column.
    pub x: usize,
    /// The first stored row.
    pub y: usize,
    /// The number of columns.
    pub width: usize,
    /// The number of rows.
    pub height: usize,
}

impl StoredArea {
    /// Storage from the first visible sample on.
    pub(crate) fn from_origin(plane_cfg: PlaneConfig) -> StoredArea
        requires columns { plane_cfg.xorigin ≤ plane_cfg.stride }
        requires rows { plane_cfg.yorigin ≤ plane_cfg.alloc_height }
        ensures { result ≡ from_origin plane_cfg }
    {
        StoredArea {
            x: plane_cfg.xorigin,
            y: plane_cfg.yorigin,
            width: plane_cfg.stride - plane_cfg.xorigin,
            height: plane_cfg.alloc_height - plane_cfg.yorigin,
        }
    }

    /// The rectangle that `area` names, which counts from the first sample of this one.
    pub(crate) fn inner(self, plane_cfg: PlaneConfig, area: Area) -> StoredArea
        requires few_columns { plane_cfg.stride < 2 ^ 63 }
        requires few_rows { plane_cfg.alloc_height < 2 ^ 63 }
        requires xdec { plane_cfg.xdec ≤ 1 }
        requires ydec { plane_cfg.ydec ≤ 1 }
        requires columns { self.x + self.width ≤ plane_cfg.stride }
        requires rows { self.y + self.height ≤ plane_cfg.alloc_height }
        requires area { LiesIn 0 0 plane_cfg self area }
        ensures { result ≡ area_from plane_cfg self area }
    {
        match area {
            Area::Rect {
                x,
                y,
                width,
                height,
            } => StoredArea {
                x: (self.x as isize + x) as usize,
                y: (self.y as isize + y) as usize,
                width,
                height,
            },
            Area::BlockStartingAt { bo } => {
                let x = (bo.x >> plane_cfg.xdec) * 4;
                let y = (bo.y >> plane_cfg.ydec) * 4;
                StoredArea {
                    x: self.x + x,
                    y: self.y + y,
                    width: self.width - x,
                    height: self.height - y,
                }
            }
        }
    }

    /// The same rectangle, counted from the first visible sample.
    pub(crate) fn rect(self, plane_cfg: PlaneConfig) -> Rect
        requires x { self.x < 2 ^ 63 }
        requires y { self.y < 2 ^ 63 }
        requires xorigin { plane_cfg.xorigin < 2 ^ 63 }
        requires yorigin { plane_cfg.yorigin < 2 ^ 63 }
        ensures { result ≡ rect_of plane_cfg self }
    {
        Rect {
            x: self.x as isize - plane_cfg.xorigin as isize,
            y: self.y as isize - plane_cfg.yorigin as isize,
            width: self.width,
            height: self.height,
        }
    }
}

/// A rectangle of stored samples, to read: of a plane, or of memory that a caller holds.
#[derive(Clone, Copy)]
pub struct PlaneRegion<'a, T> {
    /// All that is stored, one row after another.
    pub(crate) samples: &'a [T],
    /// How the samples are stored.
    pub plane_cfg: PlaneConfig,
    pub(crate) area: StoredArea,
    pub(crate) rect: Rect,
}

/// A rectangle of a plane, to read and to write: what is written is in the plane when the borrow ends.
#[derive(Drop)]
pub struct PlaneRegionMut<'a, T> {
    pub(crate) plane: &'a mut Plane<T>,
    /// The plane's settings.
    pub plane_cfg: PlaneConfig,
    pub(crate) area: StoredArea,
    pub(crate) rect: Rect,
}

impl<'a, T: Pixel> PlaneRegion<'a, T> {
    /// The rectangle `area` of `samples`, which are stored as `plane_cfg` says. Nothing is copied: calls read these
    /// samples. A `Rect` counts from the first visible sample.
    pub fn from_slice(samples: &'a [T], plane_cfg: PlaneConfig, area: Area) -> PlaneRegion<'a, T>
        requires whole { IsStorage plane_cfg (length samples.now) }
        requires area { IsStored plane_cfg area }
        ensures samples { result.samples.now ≡ samples.now }
        ensures cfg { result.plane_cfg ≡ plane_cfg }
        ensures area { result.area ≡ area_from plane_cfg (from_origin plane_cfg) area }
        ensures fits { IsReadable result }
    {
        let inner = StoredArea::from_origin(plane_cfg).inner(plane_cfg, area);
        PlaneRegion {
            samples,
            plane_cfg,
            area: inner,
            rect: inner.rect(plane_cfg),
        }
    }

    /// The rectangle, counted from the first visible sample.
    pub fn rect(&self) -> &Rect
        ensures { result.now ≡ self.now.rect }
    {
        &self.rect
    }

    /// Row `y` of the rectangle, from its first row on.
    pub fn row(&self, y: usize) -> &[T]
        requires in_area { y < self.now.area.height }
        requires fits { IsReadable self.now }
        ensures value { result.now ≡ row_of self.now.plane_cfg.stride self.now.area y self.now.samples.now }
        ensures len { length result.now ≡ self.now.area.width }
    {
        let start = (self.area.y + y) * self.plane_cfg.stride + self.area.x;
        part_of(self.samples, start, self.area.width)
    }

    /// The same rectangle.
    pub fn as_const(&self) -> PlaneRegion<'_, T>
        ensures samples { result.samples.now ≡ self.now.samples.now }
        ensures area { result.area ≡ self.now.area }
        ensures rect { result.rect ≡ self.now.rect }
        ensures cfg { result.plane_cfg ≡ self.now.plane_cfg }
    {
        *self
    }

    /// The rectangle `area` of this one. A `Rect` counts from the region's first sample.
    pub fn subregion(&self, area: Area) -> PlaneRegion<'_, T>
        requires fits { IsReadable self.now }
        requires area { IsPartOf self.now.plane_cfg self.now.area area }
        ensures samples { result.samples.now ≡ self.now.samples.now }
        ensures area { result.area ≡ area_from self.now.plane_cfg self.now.area area }
        ensures cfg { result.plane_cfg ≡ self.now.plane_cfg }
        ensures fits { IsReadable result }
    {
        let plane_cfg = self.plane_cfg;
        let inner = self.area.inner(plane_cfg, area);
        PlaneRegion {
            samples: self.samples,
            plane_cfg,
            area: inner,
            rect: inner.rect(plane_cfg),
        }
    }
}

impl<'a, T: Pixel> PlaneRegionMut<'a, T> {
    /// The rectangle, counted from the plane's first visible sample.
    pub fn rect(&self) -> &Rect
        ensures { result.now ≡ self.now.rect }
    {
        &self.rect
    }

    /// Row `y` of the rectangle, from its first row on.
    pub fn row(&self, y: usize) -> &[T]
        requires in_area { y < self.now.area.height }
        requires fits { InStorage self.now }
        ensures value { result.now ≡ row_of self.now.plane_cfg.stride self.now.area y (stored self.now) }
        ensures len { length result.now ≡ self.now.area.width }
    {
        let start = (self.area.y + y) * self.plane_cfg.stride + self.area.x;
        part_of(self.plane.as_slice(), start, self.area.width)
    }

    /// Row `y` of the rectangle, from its first row on, to write.
    pub fn row_mut(&mut self, y: usize) -> &mut [T]
        requires in_area { y < self.old.area.height }
        requires fits { InStorage self.old }
        ensures* writes_back { sem 𝓛 (LendsRow T.row self.entry y result) }
        ensures value { result.now ≡ row_of self.old.plane_cfg.stride self.old.area y (stored self.old) }
        ensures len { length result.now ≡ self.old.area.width }
    {
        let start = (self.area.y + y) * self.plane_cfg.stride + self.area.x;
        let width = self.area.width;
        self.plane.part_mut(start, width)
    }

    /// The rows of the rectangle, to write: all that is stored from the start of its first row to the end of its last.
    #[tactic(auto, using(crate::proofs::Fits::rows_le))]
    pub fn rows_mut(&mut self) -> &mut [T]
        requires fits { InStorage self.old }
        ensures* writes_back { sem 𝓛 (LendsRows T.row self.entry result) }
        ensures value { result.now ≡ own_rows self.old }
    {
        let start = self.area.y * self.plane_cfg.stride;
        let len = self.area.height * self.plane_cfg.stride;
        self.plane.part_mut(start, len)
    }

    /// The rectangle's first `width` columns and `height` rows, at their position in the slice that `rows_mut` returns.
    pub fn corner(&self, width: usize, height: usize) -> StoredArea
        ensures { result ≡ in_rows self.now.area width height }
    {
        StoredArea {
            x: self.area.x,
            y: 0,
            width,
            height,
        }
    }

    /// The same rectangle, to read.
    pub fn as_const(&self) -> PlaneRegion<'_, T>
        requires fits { InStorage self.now }
        ensures samples { result.samples.now ≡ stored self.now }
        ensures area { result.area ≡ self.now.area }
        ensures cfg { result.plane_cfg ≡ self.now.plane_cfg }
        ensures fits { IsReadable result }
    {
        PlaneRegion {
            samples: self.plane.as_slice(),
            plane_cfg: self.plane_cfg,
            area: self.area,
            rect: self.rect,
        }
    }

    /// The rectangle `area` of this one, to read. A `Rect` counts from the region's first sample.
    pub fn subregion(&self, area: Area) -> PlaneRegion<'_, T>
        requires fits { InStorage self.now }
        requires area { IsPartOf self.now.plane_cfg self.now.area area }
        ensures samples { result.samples.now ≡ stored self.now }
        ensures area { result.area ≡ area_from self.now.plane_cfg self.now.area area }
        ensures cfg { result.plane_cfg ≡ self.now.plane_cfg }
        ensures fits { IsReadable result }
    {
        let plane_cfg = self.plane_cfg;
        let inner = self.area.inner(plane_cfg, area);
        PlaneRegion {
            samples: self.plane.as_slice(),
            plane_cfg,
            area: inner,
            rect: inner.rect(plane_cfg),
        }
    }

    /// The rectangle `area` of this one, to read and write: what is written is in the region when the
    /// borrow ends. A `Rect` counts from the region's first sample.
    pub fn subregion_mut(&mut self, area: Area) -> PlaneRegionMut<'_, T>
        requires fits { InStorage self.old }
        requires area { IsPartOf self.old.plane_cfg self.old.area area }
        ensures* writes_back { sem 𝓛 (LendsSub T.row self.entry result) }
        ensures plane { result.plane.now ≡ self.old.plane.now }
        ensures area { result.area ≡ area_from self.old.plane_cfg self.old.area area }
        ensures cfg { result.plane_cfg ≡ self.old.plane_cfg }
        ensures fits { InStorage result }
    {
        let plane_cfg = self.plane_cfg;
        let inner = self.area.inner(plane_cfg, area);
        let rect = inner.rect(plane_cfg);
        PlaneRegionMut {
            plane: &mut *self.plane,
            plane_cfg,
            area: inner,
            rect,
        }
    }
}
