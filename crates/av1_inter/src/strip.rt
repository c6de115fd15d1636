//! Describes a rectangle that is filtered and the filter laid on it, and cuts blocks into strips. Writes nothing.

ghost use Rattle.std.specs.Prelude.{◌≡◌, ℕ, ◌+◌, ◌*◌, ◌^◌, ◌≤◌, ◌<◌, drop, length};
ghost use Rattle.av1_inter.specs.Scaffolding.{IsStripWidth, part_of, sample_of};

use crate::rounding::Rounding;
use av1_blocks::SUBPEL_FILTER_SIZE;
use av1_frame::{Pixel, StoredArea};

/// A rectangle that is filtered, and the samples that it is filtered from.
#[derive(Clone, Copy)]
pub(crate) struct Strip<'a, T> {
    /// The rectangle to which its values are written.
    pub(crate) area: StoredArea,
    /// The samples that it reads, from the first one on.
    pub(crate) source: &'a [T],
    /// The distance between the rows of `source`.
    pub(crate) source_stride: usize,
    /// The number of bits of a sample.
    pub(crate) bit_depth: usize,
}

/// A filter that is laid on a strip. The eight samples for row `r` and column `c` are `step` apart. The first of them
/// is r rows and c columns after `start`. `halves` has half of each weight.
#[derive(Clone, Copy)]
pub(crate) struct Taps {
    pub(crate) start: usize,
    pub(crate) step: usize,
    pub(crate) halves: [i16; SUBPEL_FILTER_SIZE],
    pub(crate) rounding: Rounding,
}

/// The part of a block that begins at its column `x` and row `y`.
#[inline(always)]
pub(crate) fn part_at<'a, T: Pixel>(
    block: &Strip<'a, T>,
    x: usize,
    y: usize,
    width: usize,
    height: usize,
) -> Strip<'a, T>
    requires start { y * block.now.source_stride + x ≤ length block.now.source.now }
    requires fits { (block.now.area.x + block.now.area.width < 2 ^ 64) × (block.now.area.y + block.now.area.height < 2 ^ 64) }
    requires columns { x + width ≤ block.now.area.width }
    requires rows { y + height ≤ block.now.area.height }
    ensures area { result.area ≡ part_of block.now.area x y width height }
    ensures source { result.source.now ≡ drop (y * block.now.source_stride + x) block.now.source.now }
    ensures stride { result.source_stride ≡ block.now.source_stride }
    ensures depth { result.bit_depth ≡ block.now.bit_depth }
    ensures samples { (c r : ℕ) → sample_of T.num result c r ≡ sample_of T.num block.now (x + c) (y + r) }
{
    let (_, source) = block.source.split_at(y * block.source_stride + x);
    let area = StoredArea {
        x: block.area.x + x,
        y: block.area.y + y,
        width,
        height,
    };
    Strip {
        area,
        source,
        source_stride: block.source_stride,
        bit_depth: block.bit_depth,
    }
}

/// The width of the next strip if `left` columns are left: at most 16.
#[inline(always)]
pub(crate) fn strip_width(left: usize) -> usize
    requires { 0 < left }
    ensures some { 0 < result }
    ensures room { result ≤ left }
    ensures kind { IsStripWidth result }
{
    if left >= 16 {
        16
    } else if left >= 8 {
        8
    } else if left >= 4 {
        4
    } else {
        1
    }
}
