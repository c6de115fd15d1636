//! C calls for motion. Each passes its arguments to the call of `av1_calls` with its name. None allocates.
//! The documentation is in `av1_calls`.
ghost use Rattle.std.specs.Prelude.{false, true};
ghost use Rattle.av1_calls.specs.Motions.{Averages, IsReadWithin, Prepares, Puts, place};
ghost use Rattle.av1_calls.specs.MovedBlocks.{AreMovedWithin, PreparesMoved, PutsMoved};
ghost use Rattle.av1_calls.specs.Samples.{rectangle_of};
ghost use Rattle.av1_calls.specs.TestedSamples.{TestsSamples};

use av1_calls::{Context, MotionBlock, MotionPlane, MovedBlock};

/// Predicts a block from a reference, at a depth of 8.
#[unsafe(no_mangle)]
pub extern "C" fn tilg_put_8tap_8(
    dst: &mut [u8],
    dst_stride: usize,
    dst_x: usize,
    dst_y: usize,
    src: &[u8],
    src_stride: usize,
    src_x: usize,
    src_y: usize,
    block: &MotionBlock,
) -> u32
    ensures { Puts false 8 (place dst_stride dst_x dst_y) (place src_stride src_x src_y) block.now src.now dst.old dst.new result }
{
    av1_calls::tilg_put_8tap_8(
        dst, dst_stride, dst_x, dst_y, src, src_stride, src_x, src_y, block,
    )
}

/// Prepares a block of a reference for the average with another block, at a depth of 8.
#[unsafe(no_mangle)]
pub extern "C" fn tilg_prep_8tap_8(
    values: &mut [i16],
    src: &[u8],
    src_stride: usize,
    src_x: usize,
    src_y: usize,
    block: &MotionBlock,
) -> u32
    ensures { Prepares false 8 (place src_stride src_x src_y) block.now src.now values.old values.new result }
{
    av1_calls::tilg_prep_8tap_8(values, src, src_stride, src_x, src_y, block)
}

/// Averages two prepared blocks, at a depth of 8.
#[unsafe(no_mangle)]
pub extern "C" fn tilg_mc_avg_8(
    samples: &mut [u8],
    stride: usize,
    x: usize,
    y: usize,
    width: usize,
    height: usize,
    first: &[i16],
    second: &[i16],
) -> u32
    ensures { Averages false 8 (place stride x y) width height first.now second.now samples.old samples.new result }
{
    av1_calls::tilg_mc_avg_8(samples, stride, x, y, width, height, first, second)
}

/// Averages two prepared blocks, in samples of 16 bits.
#[unsafe(no_mangle)]
pub extern "C" fn tilg_mc_avg_16(
    samples: &mut [u16],
    stride: usize,
    x: usize,
    y: usize,
    width: usize,
    height: usize,
    first: &[i16],
    second: &[i16],
    bit_depth: u8,
) -> u32
    ensures { Averages true bit_depth (place stride x y) width height first.now second.now samples.old samples.new result }
{
    av1_calls::tilg_mc_avg_16(
        samples,
        stride,
        x,
        y,
        width,
        height,
        first,
        second,
        usize::from(bit_depth),
    )
}

/// Predicts a block that a vector moves, from a plane without margins, at a depth of 8.
#[unsafe(no_mangle)]
pub extern "C" fn tilg_put_moved_8(
    dst: &mut [u8],
    dst_stride: usize,
    dst_x: usize,
    dst_y: usize,
    context: &mut Context,
    src: &[u8],
    plane: &MotionPlane,
    block: &MovedBlock,
) -> u32
    ensures { PutsMoved false 8 (place dst_stride dst_x dst_y) plane.now block.now src.now dst.old dst.new result }
{
    av1_calls::tilg_put_moved_8(dst, dst_stride, dst_x, dst_y, src, plane, block, context)
}

/// Predicts a block that a vector moves, in samples of 16 bits. No sample that is read may be past the depth.
#[unsafe(no_mangle)]
pub extern "C" fn tilg_put_moved_16(
    dst: &mut [u16],
    dst_stride: usize,
    dst_x: usize,
    dst_y: usize,
    context: &mut Context,
    src: &[u16],
    plane: &MotionPlane,
    block: &MovedBlock,
    bit_depth: u8,
) -> u32
    requires { AreMovedWithin bit_depth plane.now block.now src.now }
    ensures { PutsMoved true bit_depth (place dst_stride dst_x dst_y) plane.now block.now src.now dst.old dst.new result }
{
    av1_calls::tilg_put_moved_16(
        dst,
        dst_stride,
        dst_x,
        dst_y,
        src,
        plane,
        block,
        context,
        usize::from(bit_depth),
    )
}

/// Prepares a block that a vector moves for the average with another block, from a plane without margins, at a depth of
/// 8.
#[unsafe(no_mangle)]
pub extern "C" fn tilg_prep_moved_8(
    values: &mut [i16],
    context: &mut Context,
    src: &[u8],
    plane: &MotionPlane,
    block: &MovedBlock,
) -> u32
    ensures { PreparesMoved false 8 plane.now block.now src.now values.old values.new result }
{
    av1_calls::tilg_prep_moved_8(values, src, plane, block, context)
}

/// Prepares a block that a vector moves, from samples of 16 bits. No sample that is read may be past the depth.
#[unsafe(no_mangle)]
pub extern "C" fn tilg_prep_moved_16(
    values: &mut [i16],
    context: &mut Context,
    src: &[u16],
    plane: &MotionPlane,
    block: &MovedBlock,
    bit_depth: u8,
) -> u32
    requires { AreMovedWithin bit_depth plane.now block.now src.now }
    ensures { PreparesMoved true bit_depth plane.now block.now src.now values.old values.new result }
{
    av1_calls::tilg_prep_moved_16(values, src, plane, block, context, usize::from(bit_depth))
}

/// Tests that no sample of a rectangle is past a depth.
#[unsafe(no_mangle)]
pub extern "C" fn tilg_test_samples_16(
    samples: &[u16],
    stride: usize,
    x: usize,
    y: usize,
    width: usize,
    height: usize,
    bit_depth: u8,
) -> u32
    ensures { TestsSamples bit_depth stride (rectangle_of x y width height) samples.now result }
{
    av1_calls::tilg_test_samples_16(samples, stride, x, y, width, height, usize::from(bit_depth))
}

/// Predicts a block from a reference of 16 bits without testing samples. No sample that is read may be past the depth.
#[unsafe(no_mangle)]
pub extern "C" fn tilg_put_tested_16(
    dst: &mut [u16],
    dst_stride: usize,
    dst_x: usize,
    dst_y: usize,
    src: &[u16],
    src_stride: usize,
    src_x: usize,
    src_y: usize,
    block: &MotionBlock,
    bit_depth: u8,
) -> u32
    requires { IsReadWithin bit_depth (place src_stride src_x src_y) block.now src.now }
    ensures { Puts true bit_depth (place dst_stride dst_x dst_y) (place src_stride src_x src_y) block.now src.now dst.old dst.new result }
{
    av1_calls::tilg_put_tested_16(
        dst,
        dst_stride,
        dst_x,
        dst_y,
        src,
        src_stride,
        src_x,
        src_y,
        block,
        usize::from(bit_depth),
    )
}

/// Prepares a block of a reference of 16 bits without testing samples. No sample that is read may be past the depth.
#[unsafe(no_mangle)]
pub extern "C" fn tilg_prep_tested_16(
    values: &mut [i16],
    src: &[u16],
    src_stride: usize,
    src_x: usize,
    src_y: usize,
    block: &MotionBlock,
    bit_depth: u8,
) -> u32
    requires { IsReadWithin bit_depth (place src_stride src_x src_y) block.now src.now }
    ensures { Prepares true bit_depth (place src_stride src_x src_y) block.now src.now values.old values.new result }
{
    av1_calls::tilg_prep_tested_16(
        values,
        src,
        src_stride,
        src_x,
        src_y,
        block,
        usize::from(bit_depth),
    )
}
