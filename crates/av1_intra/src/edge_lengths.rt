//! Counts the samples of each side of a block that its mode reads. Pure functions.

ghost use Rattle.std.specs.Prelude.{◌≡◌, ◌≤◌};
ghost use Rattle.av1_intra.specs.Predicted.{dc_above, dc_left, along_above, along_left, places_above, places_left};

use crate::variant::PredictionVariant;
use av1_blocks::PredictionMode;

/// The number of samples above a block that DC prediction reads.
fn dc_above(variant: PredictionVariant, width: usize) -> usize
    ensures { result ≡ dc_above variant width }
{
    match variant {
        PredictionVariant::NONE | PredictionVariant::LEFT => 0,
        PredictionVariant::TOP | PredictionVariant::BOTH => width,
    }
}

/// The number of samples to the left of a block that DC prediction reads.
fn dc_left(variant: PredictionVariant, height: usize) -> usize
    ensures { result ≡ dc_left variant height }
{
    match variant {
        PredictionVariant::NONE | PredictionVariant::TOP => 0,
        PredictionVariant::LEFT | PredictionVariant::BOTH => height,
    }
}

/// The number of samples above a block that prediction along an angle reads.
fn along_above(p_angle: usize, width: usize, height: usize) -> usize
    requires width { width ≤ 64 }
    requires height { height ≤ 64 }
    ensures { result ≡ along_above p_angle width height }
{
    if p_angle < 90 {
        width + height
    } else if p_angle < 180 {
        width
    } else {
        0
    }
}

/// The number of samples to the left of a block that prediction along an angle reads.
fn along_left(p_angle: usize, width: usize, height: usize) -> usize
    requires width { width ≤ 64 }
    requires height { height ≤ 64 }
    ensures { result ≡ along_left p_angle width height }
{
    if p_angle <= 90 {
        0
    } else if p_angle <= 180 {
        height
    } else {
        height + width
    }
}

/// The number of samples above a block that its mode reads, from the sample above the first column on.
pub fn places_above(
    mode: PredictionMode,
    variant: PredictionVariant,
    p_angle: usize,
    width: usize,
    height: usize,
) -> usize
    requires width { width ≤ 64 }
    requires height { height ≤ 64 }
    ensures { result ≡ places_above mode variant p_angle width height }
{
    match mode {
        PredictionMode::DC_PRED | PredictionMode::UV_CFL_PRED => dc_above(variant, width),
        _ => {
            if mode.is_directional() {
                along_above(p_angle, width, height)
            } else {
                width
            }
        }
    }
}

/// The number of samples to the left of a block that its mode reads, from the sample next to the first row down.
pub fn places_left(
    mode: PredictionMode,
    variant: PredictionVariant,
    p_angle: usize,
    width: usize,
    height: usize,
) -> usize
    requires width { width ≤ 64 }
    requires height { height ≤ 64 }
    ensures { result ≡ places_left mode variant p_angle width height }
{
    match mode {
        PredictionMode::DC_PRED | PredictionMode::UV_CFL_PRED => dc_left(variant, height),
        _ => {
            if mode.is_directional() {
                along_left(p_angle, width, height)
            } else {
                height
            }
        }
    }
}
