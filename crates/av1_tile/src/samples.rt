//! Copies samples from a list, row by row, to the visible part of a plane. Does not allocate.

ghost use Rattle.std.specs.Prelude.{◌≡◌, ◌+◌, ◌*◌, ◌^◌, ◌<◌, ◌≤◌, length, slice_index};
ghost use Rattle.std.specs.List.{All};
ghost use Rattle.av1_frame.specs.Areas.{all_visible};
ghost use Rattle.av1_frame.specs.Planes.{painted_plane};
ghost use Rattle.av1_frame.specs.Regions.{InStorage, painted};
ghost use Rattle.av1_frame.specs.Samples.{paint_row};

use av1_frame::{Pixel, Plane, PlaneRegionMut};

/// Copies `width` samples, from position `start` of `samples` on, to the start of the row.
#[tactic(auto, using(av1_frame::proofs::Paint::row_painting))]
fn fill_row<T: Pixel>(row: &mut [T], samples: &[u16], start: usize, width: usize)
    requires row_long { width ≤ length row.old }
    requires samples_long { start + width ≤ length samples.now }
    requires range { All (λ sample. sample < 2 ^ T.BITS) samples.now }
    ensures { row.new ≡ paint_row width (λ c _. T.pixel (slice_index samples.now (start + c))) row.old }
{
    for c in 0..width {
        row[c] = T::from_u32(u32::from(samples[start + c]));
    }
}

/// Copies `samples`, row by row, to the first `width` columns and `height` rows of the region.
#[tactic(auto, using(av1_frame::proofs::Fits::row_end_le, av1_frame::proofs::Regions::region_painting))]
fn fill_rows<T: Pixel>(
    output: &mut PlaneRegionMut<'_, T>,
    samples: &[u16],
    width: usize,
    height: usize,
)
    requires fits { InStorage output.old }
    requires columns { width ≤ output.old.area.width }
    requires rows { height ≤ output.old.area.height }
    requires count { length samples.now ≡ height * width }
    requires range { All (λ sample. sample < 2 ^ T.BITS) samples.now }
    ensures painted { output.new ≡ painted output.old width height (λ r c _. T.pixel (slice_index samples.now (r * width + c))) }
    ensures fits { InStorage output.new }
{
    for r in 0..height {
        fill_row(output.row_mut(r), samples, r * width, width);
    }
}

/// Copies `samples`, row by row, to the visible part of the plane.
pub fn fill_plane<T: Pixel>(plane: &mut Plane<T>, samples: &[u16])
    requires count { length samples.now ≡ plane.old.plane_cfg.height * plane.old.plane_cfg.width }
    requires range { All (λ sample. sample < 2 ^ T.BITS) samples.now }
    ensures { let cfg = plane.old.plane_cfg
        in plane.new ≡ painted_plane plane.old (all_visible cfg) (λ r c _. T.pixel (slice_index samples.now (r * cfg.width + c))) }
{
    let cfg = plane.config();
    fill_rows(&mut plane.as_region_mut(), samples, cfg.width, cfg.height);
}
