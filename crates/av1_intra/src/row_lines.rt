//! Writes an array of samples into a row, after all of them are computed. Writes nothing else.
//!
//! The samples are in an array of their own. So no sample that is read can be one that is written, and a compiler
//! computes all of them at the same time.

ghost use Rattle.std.specs.Prelude.{◌≡◌, ℕ, ◌+◌, ◌<◌, ◌≤◌, length, List, slice_index_or};
ghost use Rattle.av1_frame.specs.Samples.{paint_row};

use av1_frame::Pixel;

/// Writes the first `N` samples of `line` into a row, from column `start` on.
#[inline(always)]
pub(crate) fn write_line<T: Pixel, const N: usize>(row: &mut [T], start: usize, line: &[T])
    requires room { start + N ≤ length row.old }
    requires long { N ≤ length line.now }
    ensures { (f : ℕ → T → T) (s : List T) → row.old ≡ paint_row start f s →
        ((c : ℕ) (v : T) → c < N → slice_index_or line.now c v ≡ f (start + c) v) →
        row.new ≡ paint_row (start + N) f s }
{
    for c in 0..N {
        row[start + c] = line[c];
    }
}
