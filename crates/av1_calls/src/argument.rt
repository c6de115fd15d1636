//! Why calls on a block reject their arguments, and the tests that several calls share. Writes nothing.
ghost use Rattle.std.specs.Prelude.{◌≡◌, true, ◌*◌, ◌≤◌};
ghost use Rattle.av1_blocks.specs.Depths.{IsDepth};
ghost use Rattle.av1_frame.specs.Areas.{AreRows};
ghost use Rattle.av1_calls.specs.Arguments.{argument_status, filter_mode, rectangle};

use crate::status::{
    BAD_ANGLE, BAD_AREA, BAD_COEFFICIENT, BAD_DEPTH, BAD_FRACTION, BAD_MODE, BAD_PAD, BAD_SAMPLE,
    BAD_SAMPLING, BAD_SIZE, BAD_TYPE, TOO_SHORT,
};
use av1_blocks::{FilterMode, TxSize};
use av1_frame::StoredArea;

/// Why a call on a block rejects its arguments.
#[derive(Clone, Copy, Debug, PartialEq, Eq)]
pub enum BadArgument {
    /// No size has this number, or no block has such a width or height.
    Size,
    /// No type has this number, or the size has no such type.
    Kind,
    /// Samples have no such depth.
    Depth,
    /// The rectangle does not lie in the samples.
    Area,
    /// A list has too few elements.
    Short,
    /// A coefficient has more bits than the depth allows.
    Coefficient,
    /// A sample has more bits than the depth.
    Sample,
    /// No mode or filter has this number.
    Mode,
    /// The mode has no such angle.
    Angle,
    /// No filter has this fraction of a sample.
    Fraction,
    /// Chroma has no such subsampling.
    Sampling,
    /// No column or no row has luma of its own.
    Pad,
}

impl BadArgument {
    /// The status of a call that rejects its arguments for this reason.
    pub fn status(self) -> u32
        ensures { result ≡ argument_status self }
    {
        match self {
            BadArgument::Size => BAD_SIZE,
            BadArgument::Kind => BAD_TYPE,
            BadArgument::Depth => BAD_DEPTH,
            BadArgument::Area => BAD_AREA,
            BadArgument::Short => TOO_SHORT,
            BadArgument::Coefficient => BAD_COEFFICIENT,
            BadArgument::Sample => BAD_SAMPLE,
            BadArgument::Mode => BAD_MODE,
            BadArgument::Angle => BAD_ANGLE,
            BadArgument::Fraction => BAD_FRACTION,
            BadArgument::Sampling => BAD_SAMPLING,
            BadArgument::Pad => BAD_PAD,
        }
    }
}

// Whether `rows` rows lie in `samples` samples. Their product has twice the bits of a `usize`, so it can't overflow.
#[inline(always)]
fn are_lines(rows: usize, stride: usize, samples: usize) -> bool
    ensures true_is { result ≡ true → rows * stride ≤ samples }
    ensures is_true { rows * stride ≤ samples → result ≡ true }
{
    rows as u128 * stride as u128 <= samples as u128
}

/// Whether the rectangle lies in `samples` samples, in rows of this stride.
#[inline(always)]
pub(crate) fn are_rows(stride: usize, area: StoredArea, samples: usize) -> bool
    ensures true_is { result ≡ true → AreRows stride area samples }
    ensures is_true { AreRows stride area samples → result ≡ true }
{
    let Some(right) = area.x.checked_add(area.width) else {
        return false;
    };
    let Some(bottom) = area.y.checked_add(area.height) else {
        return false;
    };
    0 < stride && right <= stride && samples < 1 << 63 && are_lines(bottom, stride, samples)
}

/// The rectangle of a transform whose first sample is at column `x` of row `y`.
#[inline(always)]
pub(crate) fn area_of(x: usize, y: usize, size: TxSize) -> StoredArea
    ensures { result ≡ rectangle x y size }
{
    StoredArea {
        x,
        y,
        width: size.width(),
        height: size.height(),
    }
}

/// The filter of a number. Each number past the last one gives a filter that no block may have (`SWITCHABLE`).
#[inline(always)]
pub fn filter_mode(number: u8) -> FilterMode
    ensures { result ≡ filter_mode number }
{
    match FilterMode::from_number(number) {
        Some(filter) => filter,
        None => FilterMode::SWITCHABLE,
    }
}

/// Whether samples have this depth.
#[inline(always)]
pub(crate) fn is_depth(bit_depth: usize) -> bool
    ensures true_is { result ≡ true → IsDepth bit_depth }
    ensures is_true { IsDepth bit_depth → result ≡ true }
{
    bit_depth == 8 || bit_depth == 10 || bit_depth == 12
}
