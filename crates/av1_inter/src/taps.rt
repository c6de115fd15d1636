//! Finds the stored samples of a reference that a block's filters read. Writes nothing.
//!
//! AV1 specification: block inter prediction process.

ghost use Rattle.std.specs.Prelude.{◌≡◌, ℕ, ◌+◌, ◌*◌, ◌-◌, drop};
ghost use Rattle.av1_frame.specs.Slices.{all_from, slice_plane};
ghost use Rattle.av1_inter.specs.Places.{corner_of, IsStoredFrom, read_before};

use crate::block::Moved;
use av1_frame::{Pixel, PlaneSlice};

/// The position 3 columns to the left of a block and 3 rows above it.
#[inline(always)]
pub(crate) fn taps_of_block<T: Pixel>(src: PlaneSlice<'_, T>) -> PlaneSlice<'_, T>
    requires { (columns : ℕ) × (rows : ℕ) × IsStoredFrom (corner_of src) (columns + 7) (rows + 7) }
    ensures place { result ≡ corner_of src.entry }
    ensures stored { (columns : ℕ) × (rows : ℕ) × IsStoredFrom result (columns + 7) (rows + 7) }
{
    src.go_left(3).go_up(3)
}

/// Counts the columns (or rows) between the corner and the first sample that the filter reads.
#[inline(always)]
fn skipped(frac: usize) -> usize
    ensures { result ≡ 3 - read_before frac }
{
    if frac == 0 { 3 } else { 0 }
}

/// The stored samples, from the first that is read for a block on. `corner` is 3 columns to the left of the block and 3
/// rows above it.
#[inline(always)]
pub(crate) fn read_from<'a, T: Pixel>(corner: &'a PlaneSlice<'_, T>, moved: Moved) -> &'a [T]
    requires { (columns : ℕ) × (rows : ℕ) × IsStoredFrom corner.now (columns + 7) (rows + 7) }
    ensures { result.now ≡
        drop ((3 - read_before moved.row_frac) * corner.now.plane_cfg.now.stride + (3 - read_before moved.col_frac))
        (all_from (slice_plane corner.now) corner.now.x corner.now.y) }
{
    let start = skipped(moved.row_frac) * corner.stride() + skipped(moved.col_frac);
    let (_, source) = corner.samples().split_at(start);
    source
}
