//! Fills a rectangle of a slice with one sample, and writes nothing else.

ghost use Rattle.std.specs.Prelude.{◌≡◌, length};
ghost use Rattle.av1_frame.specs.Areas.{AreRows};
ghost use Rattle.av1_frame.specs.Samples.{paint};

use av1_frame::{Pixel, StoredArea, fill_area};

/// Sets each sample of the rectangle to `value`. The rows of `samples` are `stride` apart. This is `fill_area` with the
/// widths of transforms known to the compiler.
#[inline(always)]
pub fn fill_block<T: Pixel>(samples: &mut [T], stride: usize, area: StoredArea, value: T)
    requires rows { AreRows stride area (length samples.old) }
    ensures { samples.new ≡ paint stride area (λ _ _ _. value) samples.old }
{
    if area.width == 4 {
        fill_columns(samples, stride, area, value, 4);
    } else if area.width == 8 {
        fill_columns(samples, stride, area, value, 8);
    } else {
        fill_wide(samples, stride, area, value);
    }
}

/// As `fill_block`, for rectangles of more columns.
#[inline(never)]
fn fill_wide<T: Pixel>(samples: &mut [T], stride: usize, area: StoredArea, value: T)
    requires rows { AreRows stride area (length samples.old) }
    ensures { samples.new ≡ paint stride area (λ _ _ _. value) samples.old }
{
    match area.width {
        16 => fill_columns(samples, stride, area, value, 16),
        32 => fill_columns(samples, stride, area, value, 32),
        64 => fill_columns(samples, stride, area, value, 64),
        _ => fill_area(samples, stride, area, value),
    }
}

/// As `fill_block`, inlined, so that the compiler knows the width of the rows that it fills.
#[inline(always)]
fn fill_columns<T: Pixel>(
    samples: &mut [T],
    stride: usize,
    area: StoredArea,
    value: T,
    width: usize,
)
    requires rows { AreRows stride area (length samples.old) }
    requires width { area.width ≡ width }
    ensures { samples.new ≡ paint stride area (λ _ _ _. value) samples.old }
{
    let columns = StoredArea {
        x: area.x,
        y: area.y,
        width,
        height: area.height,
    };
    fill_area(samples, stride, columns, value);
}
