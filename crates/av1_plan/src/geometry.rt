//! Computes which part of each plane a leaf covers, and where its transform blocks begin. Changes nothing.
//!
//! Plane 0 is Y, 1 is U, 2 is V. The check and the walk take rectangles from here. The walk places transform blocks.

ghost use Rattle.std.specs.Prelude.{◌≡◌, ◌≤◌, ◌<◌};
ghost use Rattle.av1_plan.specs.Geometry.{coded_side, carries_chroma, covers_plane, plane_place, plane_size, plane_tx_size, plane_area};

use crate::header::Header;
use crate::leaf::Leaf;
use av1_blocks::transform::coded_tx_size;
use av1_blocks::{BlockSize, TxSize};

/// The rectangle of a leaf in a plane.
#[derive(Copy, Clone, Debug, PartialEq, Eq)]
pub struct PlaneArea {
    /// The column of its first sample in the plane.
    pub x: u16,
    /// The row of its first sample in the plane.
    pub y: u16,
    /// Its width and height, in samples of the plane.
    pub size: BlockSize,
    /// The size of its transforms.
    pub tx_size: TxSize,
}

/// The position at which a transform block begins in its plane.
#[derive(Copy, Clone, Debug, PartialEq, Eq)]
pub struct TransformBlock {
    /// The column of its first sample.
    pub x: usize,
    /// The row of its first sample.
    pub y: usize,
}

/// The coded side of a frame with this shown side, in luma samples: the least multiple of 8 that is not less.
fn coded_side(shown: u16) -> usize
    ensures { result ≡ coded_side shown }
{
    (usize::from(shown) + 7) / 8 * 8
}

impl Header {
    ghost use Rattle.std.specs.Prelude.{◌≡◌, ◌≤◌, ◌<◌};
    ghost use Rattle.av1_plan.specs.Geometry.{xdec, ydec, plane_width, plane_height, shown_columns, shown_rows, plane_len};
    ghost use Rattle.av1_plan.specs.Geometry.{coded_width, coded_height, follows_av1, has_slot, is_inside};

    /// Whether a plan with this header follows the AV1 specification in the rules in which rav1e departs from it: in
    /// the third version.
    pub fn follows_av1(&self) -> bool
        ensures { result ≡ follows_av1 self.now }
    {
        self.version == 3
    }

    /// The logarithm to base 2 of how many luma columns a sample of plane `p` stands for: 1 if the plane is halved,
    /// else 0.
    #[tactic(auto, unfolding(crate::specs::Geometry::xdec))]
    pub fn xdec(&self, p: usize) -> usize
        ensures value { result ≡ xdec self.now p }
        ensures small { result ≤ 1 }
    {
        if p > 0 && self.sampling < 2 { 1 } else { 0 }
    }

    /// The logarithm to base 2 of how many luma rows a sample of plane `p` stands for: 1 if the plane is halved, else
    /// 0.
    #[tactic(auto, unfolding(crate::specs::Geometry::ydec))]
    pub fn ydec(&self, p: usize) -> usize
        ensures value { result ≡ ydec self.now p }
        ensures small { result ≤ 1 }
    {
        if p > 0 && self.sampling == 0 { 1 } else { 0 }
    }

    /// The number of luma columns that are coded: the least multiple of 8 that is not less than the shown columns.
    #[tactic(auto, unfolding(crate::specs::Geometry::coded_width))]
    pub fn coded_width(&self) -> usize
        ensures value { result ≡ coded_width self.now }
        ensures few { result ≤ 65536 }
    {
        coded_side(self.width)
    }

    /// The number of luma rows that are coded: the least multiple of 8 that is not less than the shown rows.
    #[tactic(auto, unfolding(crate::specs::Geometry::coded_height))]
    pub fn coded_height(&self) -> usize
        ensures value { result ≡ coded_height self.now }
        ensures few { result ≤ 65536 }
    {
        coded_side(self.height)
    }

    /// The number of columns of plane `p` that are coded.
    #[tactic(auto, unfolding(crate::specs::Geometry::plane_width))]
    pub fn plane_width(&self, p: usize) -> usize
        ensures value { result ≡ plane_width self.now p }
        ensures small { result ≤ coded_width self.now }
    {
        self.coded_width() >> self.xdec(p)
    }

    /// The number of rows of plane `p` that are coded.
    #[tactic(auto, unfolding(crate::specs::Geometry::plane_height))]
    pub fn plane_height(&self, p: usize) -> usize
        ensures value { result ≡ plane_height self.now p }
        ensures small { result ≤ coded_height self.now }
    {
        self.coded_height() >> self.ydec(p)
    }

    /// The number of columns of plane `p` that are shown: half of luma's, rounded up, if the plane is halved.
    #[tactic(auto, unfolding(crate::specs::Geometry::shown_columns))]
    pub fn shown_columns(&self, p: usize) -> usize
        ensures value { result ≡ shown_columns self.now p }
        ensures small { result ≤ self.now.width }
        ensures few { result ≤ 65535 }
    {
        let decimation = self.xdec(p);
        (usize::from(self.width) + decimation) >> decimation
    }

    /// The number of rows of plane `p` that are shown: half of luma's, rounded up, if the plane is halved.
    #[tactic(auto, unfolding(crate::specs::Geometry::shown_rows))]
    pub fn shown_rows(&self, p: usize) -> usize
        ensures value { result ≡ shown_rows self.now p }
        ensures small { result ≤ self.now.height }
        ensures few { result ≤ 65535 }
    {
        let decimation = self.ydec(p);
        (usize::from(self.height) + decimation) >> decimation
    }

    /// The number of samples of plane `p` that are shown: a reference and the output have this many.
    pub fn plane_len(&self, p: usize) -> usize
        ensures { result ≡ plane_len self.now p }
    {
        self.shown_columns(p) * self.shown_rows(p)
    }

    /// Whether a slot carries reference planes.
    #[tactic(auto, unfolding(crate::specs::Geometry::has_slot))]
    pub fn has_slot(&self, slot: usize) -> bool
        requires { slot < 8 }
        ensures { result ≡ has_slot self.now slot }
    {
        (self.mask >> slot) % 2 == 1
    }

    /// Whether a luma sample lies in the coded frame.
    #[tactic(auto, unfolding(crate::specs::Geometry::is_inside))]
    pub fn holds(&self, x: u16, y: u16) -> bool
        ensures { result ≡ is_inside self.now x y }
    {
        usize::from(x) < self.coded_width() && usize::from(y) < self.coded_height()
    }
}

/// Whether a leaf of this size, at column `x` and row `y` of luma, carries chroma. In a halved direction a leaf of side
/// 4 at an even cell does not. Up to four leaves share a chroma block, and the last in coding order carries it.
#[tactic(auto, unfolding(crate::specs::Geometry::carries_chroma))]
pub fn carries_chroma(header: &Header, x: u16, y: u16, size: BlockSize) -> bool
    ensures { result ≡ carries_chroma header.now x y size }
{
    let skips_column = header.xdec(1) == 1 && size.width() == 4 && x / 4 % 2 == 0;
    let skips_row = header.ydec(1) == 1 && size.height() == 4 && y / 4 % 2 == 0;
    !skips_column && !skips_row
}

/// The size of a leaf's rectangle in plane `p`.
#[tactic(auto, unfolding(crate::specs::Geometry::plane_size))]
fn plane_size(header: &Header, size: BlockSize, p: usize) -> BlockSize
    ensures { result ≡ plane_size header.now size p }
{
    match size.subsampled_size(header.xdec(p), header.ydec(p)) {
        Ok(plane_size) => plane_size,
        Err(_) => size,
    }
}

/// The size of the transforms of a leaf in plane `p`; `tx_size` is the size of its luma transforms. `check_plan`
/// rejects a leaf whose size has no size in chroma; here its luma size is used instead.
#[inline(always)]
#[tactic(auto, unfolding(crate::specs::Geometry::plane_tx_size, crate::specs::Geometry::plane_size))]
pub fn plane_tx_size(header: &Header, size: BlockSize, tx_size: TxSize, p: usize) -> TxSize
    ensures { result ≡ plane_tx_size header.now size tx_size p }
{
    if p == 0 {
        tx_size
    } else {
        coded_tx_size(plane_size(header, size, p).tx_size())
    }
}

/// The position at which a leaf's rectangle in plane `p` begins, in one direction, from the leaf's position in luma.
#[tactic(auto, unfolding(crate::specs::Geometry::plane_place))]
fn plane_place(p: usize, luma: u16, decimation: usize) -> u16
    requires { decimation ≤ 1 }
    ensures { result ≡ plane_place p luma decimation }
{
    if p == 0 {
        luma
    } else {
        (luma / 4 >> decimation) * 4
    }
}

impl Leaf {
    ghost use Rattle.std.specs.Prelude.{◌≡◌};
    ghost use Rattle.av1_plan.specs.Geometry.{carries_chroma, covers_plane, plane_area};

    /// Whether the leaf carries chroma.
    pub fn carries_chroma(&self, header: &Header) -> bool
        ensures { result ≡ carries_chroma header.now self.now.x self.now.y self.now.size }
    {
        carries_chroma(header, self.x, self.y, self.size)
    }

    /// Whether the leaf covers a part of plane `p`: of Y always, of U and V if it carries chroma.
    #[tactic(auto, unfolding(crate::specs::Geometry::covers_plane))]
    pub fn covers_plane(&self, header: &Header, p: usize) -> bool
        ensures { result ≡ covers_plane header.now self.now.x self.now.y self.now.size p }
    {
        p == 0 || self.carries_chroma(header)
    }

    /// The leaf's rectangle in plane `p`. Call it only if the leaf covers a part of the plane.
    #[inline(always)]
    #[tactic(auto, unfolding(crate::specs::Geometry::plane_area))]
    pub fn plane_area(&self, header: &Header, p: usize) -> PlaneArea
        ensures { result ≡ plane_area header.now self.now.x self.now.y self.now.size self.now.tx_size p }
    {
        PlaneArea {
            x: plane_place(p, self.x, header.xdec(p)),
            y: plane_place(p, self.y, header.ydec(p)),
            size: plane_size(header, self.size, p),
            tx_size: plane_tx_size(header, self.size, self.tx_size, p),
        }
    }
}

impl PlaneArea {
    ghost use Rattle.std.specs.Prelude.{◌≡◌, ◌<◌, ◌≤◌};
    ghost use Rattle.av1_plan.specs.Geometry.{blocks_across, block_count, block_at, has_block, transform_block};

    /// The number of transform blocks side by side.
    #[tactic(auto, unfolding(crate::specs::Geometry::blocks_across))]
    pub fn blocks_across(&self) -> usize
        ensures value { result ≡ blocks_across self.now }
        ensures small { result ≤ 32 }
    {
        self.size.width() / self.tx_size.width()
    }

    /// The number of transform blocks of the rectangle, also of those outside the coded plane.
    #[inline(always)]
    #[tactic(auto, unfolding(crate::specs::Geometry::block_count))]
    pub fn block_count(&self) -> usize
        ensures value { result ≡ block_count self.now }
        ensures small { result ≤ 1024 }
    {
        self.blocks_across() * (self.size.height() / self.tx_size.height())
    }

    /// The position at which transform block `n` begins. Blocks are numbered in raster order over the whole rectangle.
    #[tactic(auto, unfolding(crate::specs::Geometry::block_at, crate::specs::Geometry::block_count))]
    fn block_at(&self, n: usize) -> TransformBlock
        requires { n < block_count self.now }
        ensures { result ≡ block_at self.now n }
    {
        let across = self.blocks_across();
        TransformBlock {
            x: usize::from(self.x) + n % across * self.tx_size.width(),
            y: usize::from(self.y) + n / across * self.tx_size.height(),
        }
    }

    /// Transform block `n`, if there is one and it begins in the coded plane `p`.
    #[tactic(auto, unfolding(crate::specs::Geometry::transform_block, crate::specs::Geometry::has_block))]
    pub fn transform_block(&self, header: &Header, p: usize, n: usize) -> Option<TransformBlock>
        ensures { result ≡ transform_block header.now p self.now n }
    {
        if n >= self.block_count() {
            return None;
        }
        let block = self.block_at(n);
        if block.x < header.plane_width(p) && block.y < header.plane_height(p) {
            Some(block)
        } else {
            None
        }
    }
}
