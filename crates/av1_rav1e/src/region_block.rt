//! Describes the block at the first sample of a region to its prediction. Reads no samples and writes nothing.

ghost use Rattle.std.specs.Prelude.{◌≡◌, ℕ, ◌+◌, ◌-◌, ◌^◌, ◌<◌, pos, ◌-ℤ◌, FitsSigned};
ghost use Rattle.std.specs.Int.{w64};
ghost use Rattle.av1_frame.specs.Regions.{InStorage};
ghost use Rattle.av1_rav1e.specs.Blocks.{block_at};

use av1_frame::{Pixel, PlaneRegionMut};
use av1_intra::{DirectionalBlock, IntraEdgeFilterParameters, smooth_filter_of};

/// The number of `visible` samples from `first` on, which counts from the first of them and may lie before it.
fn visible_from(visible: usize, first: isize) -> usize
    requires visible { visible < 2 ^ 63 }
    requires fits { FitsSigned w64 (pos visible -ℤ first) }
    ensures { (origin place : ℕ) → first ≡ pos place -ℤ pos origin → result ≡ origin + visible - place }
{
    (visible as isize - first).max(0) as usize
}

/// The block of this width and height at the first sample of a region, along an angle.
pub(crate) fn block_in<T: Pixel>(
    region: &PlaneRegionMut<'_, T>,
    p_angle: usize,
    width: usize,
    height: usize,
    bit_depth: usize,
    ief_params: Option<IntraEdgeFilterParameters>,
) -> DirectionalBlock
    requires fits { InStorage region.now }
    ensures { result ≡ block_at region.now p_angle width height bit_depth ief_params }
{
    let rect = *region.rect();
    DirectionalBlock {
        p_angle,
        width,
        height,
        bit_depth,
        smooth_filter: smooth_filter_of(ief_params),
        visible_columns: visible_from(region.plane_cfg.width, rect.x),
        visible_rows: visible_from(region.plane_cfg.height, rect.y),
    }
}
