//! Pads a plane: sets each stored sample outside the visible rectangle to the nearest visible one. Allocates nothing.

ghost use Rattle.std.specs.Prelude.{◌≡◌, ℤ, ◌+◌, ◌*◌, ◌/◌, ◌%◌, ◌<◌, ◌≤◌, ◌⊎◌, ◌&&◌, nat_le, nat_lt, if◌then◌else◌, length};
ghost use Rattle.av1_frame.specs.Samples.{gathered};
ghost use Rattle.av1_frame.specs.Planes.{IsWhole, sample_at, nearest, padded};
ghost use Rattle.av1_frame.specs.Slices.{IsStoredPlace, stored_sample, nearest_visible};

use crate::pixel::Pixel;
use crate::plane::Plane;

impl<T: Pixel> Plane<T> {
    /// Sets each stored sample outside the visible rectangle to the nearest visible sample. The visible samples and the
    /// settings are unchanged.
    pub fn pad(&mut self)
        ensures all { self.new ≡ padded self.old }
        ensures samples { let cfg = self.old.plane_cfg in (x y : ℤ) → IsStoredPlace cfg x y →
            stored_sample T.num self.new x y ≡ sample_at T.num self.old (nearest_visible cfg.width x) (nearest_visible cfg.height y) }
        ensures whole { IsWhole self.new }
    {
        let cfg = self.plane_cfg;
        let last = cfg.yorigin + cfg.height - 1;
        self.pad_rows();
        self.copy_row(cfg.yorigin, 0, cfg.yorigin);
        self.copy_row(last, last + 1, cfg.alloc_height);
    }

    /// Copies the stored row `from` to the stored rows from `first` to before `end`.
    fn copy_row(&mut self, from: usize, first: usize, end: usize)
        requires from { from < self.old.plane_cfg.alloc_height }
        requires order { first ≤ end }
        requires end { end ≤ self.old.plane_cfg.alloc_height }
        requires apart { (from < first) ⊎ (end ≤ from) }
        ensures { let stride = self.old.plane_cfg.stride
            in self.new ≡
            record self.old {
              samples = gathered (λ k. (if nat_le first (k / stride) && nat_lt (k / stride) end then from else k / stride) * stride + k % stride)
                  self.old.samples;
            } }
    {
        let stride = self.plane_cfg.stride;
        for y in first..end {
            self.copy_apart(from * stride, y * stride, stride);
        }
    }

    /// Sets the samples left and right of the visible columns to the nearest visible one, in each visible row.
    fn pad_rows(&mut self)
        ensures { let cfg = self.old.plane_cfg
            in self.new ≡
            record self.old {
              samples = gathered (λ k. k / cfg.stride * cfg.stride
                  + (if nat_le cfg.yorigin (k / cfg.stride) && nat_lt (k / cfg.stride) (cfg.yorigin + cfg.height)
                  then nearest cfg.xorigin cfg.width (k % cfg.stride)
                  else k % cfg.stride)) self.old.samples;
            } }
    {
        let cfg = self.plane_cfg;
        for y in cfg.yorigin..cfg.yorigin + cfg.height {
            pad_row(
                self.part_mut(y * cfg.stride, cfg.stride),
                cfg.xorigin,
                cfg.width,
            );
        }
    }
}

/// Sets the samples before and after a run of `width` samples, from position `first` on, to the nearest sample of it.
fn pad_row<T: Pixel>(row: &mut [T], first: usize, width: usize)
    requires some { 0 < width }
    requires fits { first + width ≤ length row.old }
    ensures { row.new ≡ gathered (nearest first width) row.old }
{
    let len = row.len();
    spread(row, first, 0, first);
    spread(row, first + width - 1, first + width, len);
}

/// Copies the sample at `from` to the positions from `first` to before `end`.
#[tactic(auto, using(crate::proofs::Gather::spread_none, crate::proofs::Gather::spread_more))]
fn spread<T: Pixel>(row: &mut [T], from: usize, first: usize, end: usize)
    requires from { from < length row.old }
    requires order { first ≤ end }
    requires end { end ≤ length row.old }
    ensures { row.new ≡ gathered (λ k. if nat_le first k && nat_lt k end then from else k) row.old }
{
    let sample = row[from];
    for c in first..end {
        row[c] = sample;
    }
}
