// Tests the sharp filter along four samples of a worked reference: it is the smooth one there.
use super::support::same;
use av1_blocks::FilterMode;
use av1_frame::{Plane, PlaneOffset};
use av1_inter::put_8tap;
use std::alloc::Global;
use std::test::Fail;

/// How many columns and rows a block of 4 by 4 reads.
const READ: usize = 11;

/// The first sample of a block of 4 by 4 that is moved half a sample to the right by the sharp filter. The reference
/// has `value` two columns to the right of that sample, and 0 everywhere else.
fn first_of(alloc: Global, value: u8) -> Result<u8, Fail> {
    let mut samples = [0; READ * READ];
    samples[3 * READ + 5] = value;
    let reference = Plane::from_slice(alloc, &samples, READ)?;
    let mut plane = Plane::from_slice(alloc, &[0; 16], 4)?;
    let mut block = plane.as_region_mut();
    let first = reference.slice(PlaneOffset { x: 3, y: 3 });
    put_8tap(
        &mut block,
        first,
        4,
        4,
        8,
        0,
        FilterMode::SHARP,
        FilterMode::SHARP,
        8,
    );
    Ok(block.row(0)[0])
}

#[test]
fn the_sharp_filter_is_the_smooth_one_along_four_samples(rt: HostRuntime) -> Result<(), Fail> {
    same(&rt, first_of(rt.alloc(), 100)?, 9, "of 100");
    same(
        &rt,
        first_of(rt.alloc(), 5)?,
        1,
        "of 5, whose sum is rounded twice",
    );
    Ok(())
}
