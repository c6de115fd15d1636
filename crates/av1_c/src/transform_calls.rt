//! C calls that add residuals. Each passes its arguments to the call of `av1_calls` with its name. None allocates.
ghost use Rattle.std.specs.Prelude.{false, true};
ghost use Rattle.av1_calls.specs.Transforms.{AddsResidue};

use av1_calls::Context;
use std::mem::size_of;

// In C and Rust, `Context` is an array of 19,813 numbers of 32 bits.
const _: () = prove!(size_of::<Context>() == 79_252);

/// Adds the residual of coefficients to the samples of a rectangle, at a depth of 8.
#[unsafe(no_mangle)]
pub extern "C" fn tilg_inverse_transform_add_8(
    samples: &mut [u8],
    stride: usize,
    x: usize,
    y: usize,
    context: &mut Context,
    coefficients: &[i16],
    tx_size: u8,
    tx_type: u8,
) -> u32
    ensures { AddsResidue true false 8 tx_size tx_type stride x y coefficients.now samples.old samples.new result }
{
    av1_calls::tilg_inverse_transform_add_8(
        context,
        coefficients,
        samples,
        stride,
        x,
        y,
        tx_size,
        tx_type,
    )
}

/// Adds the residual of coefficients to samples of 16 bits, by AV1's rule.
#[unsafe(no_mangle)]
pub extern "C" fn tilg_inverse_transform_add_16(
    samples: &mut [u16],
    stride: usize,
    x: usize,
    y: usize,
    context: &mut Context,
    coefficients: &[i32],
    tx_size: u8,
    tx_type: u8,
    bit_depth: u8,
) -> u32
    ensures { AddsResidue true true bit_depth tx_size tx_type stride x y coefficients.now samples.old samples.new result }
{
    av1_calls::tilg_inverse_transform_add_16(
        context,
        coefficients,
        samples,
        stride,
        x,
        y,
        tx_size,
        tx_type,
        usize::from(bit_depth),
    )
}

/// Adds the residual of coefficients to samples of 16 bits, by rav1e's rule.
#[unsafe(no_mangle)]
pub extern "C" fn tilg_inverse_transform_add_rav1e_16(
    samples: &mut [u16],
    stride: usize,
    x: usize,
    y: usize,
    context: &mut Context,
    coefficients: &[i32],
    tx_size: u8,
    tx_type: u8,
    bit_depth: u8,
) -> u32
    ensures { AddsResidue false true bit_depth tx_size tx_type stride x y coefficients.now samples.old samples.new result }
{
    av1_calls::tilg_inverse_transform_add_rav1e_16(
        context,
        coefficients,
        samples,
        stride,
        x,
        y,
        tx_size,
        tx_type,
        usize::from(bit_depth),
    )
}
