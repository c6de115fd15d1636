//! Sets all items of a slice, or all samples that a plane stores, to one value. Does not allocate.

ghost use Rattle.std.specs.Prelude.{◌≡◌, ◌≤◌, length, replicate};
ghost use Rattle.av1_frame.specs.Planes.{IsWhole};
ghost use Rattle.av1_frame.specs.Regions.{InStorage, painted};
ghost use Rattle.av1_frame.specs.Samples.{paint_row};

use av1_frame::{Area, Pixel, Plane, PlaneRegionMut};

/// Sets each item to `value`.
#[tactic(auto, using(av1_frame::proofs::Paint::row_painting))]
pub fn fill_slice<T: Copy>(items: &mut [T], value: T)
    ensures { items.new ≡ paint_row (length items.old) (λ _ _. value) items.old }
{
    for i in 0..items.len() {
        items[i] = value;
    }
}

/// Sets the samples of the first `height` rows of the region to `value`.
#[tactic(auto, using(av1_frame::proofs::Fits::row_end_le, av1_frame::proofs::Regions::region_painting))]
fn fill_rows<T: Pixel>(output: &mut PlaneRegionMut<'_, T>, value: T, height: usize)
    requires fits { InStorage output.old }
    requires rows { height ≤ output.old.area.height }
    ensures painted { output.new ≡ painted output.old output.old.area.width height (λ _ _ _. value) }
    ensures fits { InStorage output.new }
{
    for r in 0..height {
        fill_slice(output.row_mut(r), value);
    }
}

/// Sets each sample that the plane stores to `value`.
pub fn fill_plane<T: Pixel>(plane: &mut Plane<T>, value: T)
    requires { IsWhole plane.old }
    ensures { plane.new ≡ record plane.old { samples = replicate (length plane.old.samples) value } }
{
    let cfg = plane.config();
    let mut stored = plane.region_mut(Area::Rect {
        x: -(cfg.xorigin as isize),
        y: -(cfg.yorigin as isize),
        width: cfg.stride,
        height: cfg.alloc_height,
    });
    fill_rows(&mut stored, value, cfg.alloc_height);
}
