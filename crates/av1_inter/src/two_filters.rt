//! Filters a block along its rows and then down its columns. Writes only the block's samples or values.
//!
//! Both steps are those of one filter. The values of the first step are kept as samples of 15 bits, which the second
//! step reads. A block is cut into parts of up to 16 columns and 32 rows, so that few values are kept; 7 rows more are
//! kept than the part has.
//!
//! AV1 specification: block inter prediction process.

ghost use Rattle.std.specs.Prelude.{◌≡◌, ◌+◌, ◌≤◌, ◌<◌, length};
ghost use Rattle.av1_frame.specs.Areas.{AreRows};
ghost use Rattle.av1_frame.specs.Samples.{paint};
ghost use Rattle.av1_inter.specs.Scaffolding.{AreFilters, IsBlock, IsStripWidth, twice_filtered};

use crate::one_filter::filter_strip;
use crate::rounding::between_filters;
use crate::strip::{Strip, Taps, part_at, strip_width};
use crate::writer::{Between, Writer};
use av1_blocks::SUBPEL_FILTER_SIZE;
use av1_frame::{Pixel, StoredArea};

/// The greatest number of columns of a part.
const COLUMNS: usize = 16;

/// The greatest number of rows of a part.
const ROWS: usize = 32;

/// The greatest number of values that are kept of a part.
const KEPT: usize = COLUMNS * (ROWS + 7);

/// Halved weights along rows and down columns.
#[derive(Clone, Copy)]
pub(crate) struct Halves {
    pub(crate) across: [i16; SUBPEL_FILTER_SIZE],
    pub(crate) down: [i16; SUBPEL_FILTER_SIZE],
}

/// Writes the entries of a part of `N` columns.
fn filter_part<T: Pixel, E: Copy, W: Writer<E>, const N: usize>(
    target: &mut [E],
    stride: usize,
    part: &Strip<'_, T>,
    halves: &Halves,
)
    requires rows { AreRows stride part.now.area (length target.old) }
    requires width { part.now.area.width ≡ N }
    requires kind { IsStripWidth N }
    requires low { part.now.area.height ≤ 32 }
    requires part { IsBlock T.num 7 7 part.now }
    requires filters { AreFilters halves.now }
    requires serves { W.serves part.now.bit_depth }
    ensures { let b = part.now
        in target.new ≡ paint stride b.area (λ r c _. W.written b.bit_depth (twice_filtered T.num (W.roundings b.bit_depth) b halves.now r c)) target.old }
{
    let mut kept = [0; KEPT];
    let rows = Strip {
        area: StoredArea {
            x: 0,
            y: 0,
            width: N,
            height: part.area.height + 7,
        },
        source: part.source,
        source_stride: part.source_stride,
        bit_depth: part.bit_depth,
    };
    let across = Taps {
        start: 0,
        step: 1,
        halves: halves.across,
        rounding: between_filters(part.bit_depth),
    };
    filter_strip::<T, u16, Between, N, false>(&mut kept, COLUMNS, &rows, &across);
    let columns = Strip {
        area: part.area,
        source: &kept,
        source_stride: COLUMNS,
        bit_depth: part.bit_depth,
    };
    let down = Taps {
        start: 0,
        step: COLUMNS,
        halves: halves.down,
        rounding: W::roundings(part.bit_depth).both,
    };
    filter_strip::<u16, E, W, N, false>(target, stride, &columns, &down);
}

/// Writes the entries of a part of 16, 8, 4 or 1 columns.
fn filter_part_of<T: Pixel, E: Copy, W: Writer<E>>(
    target: &mut [E],
    stride: usize,
    part: &Strip<'_, T>,
    halves: &Halves,
)
    requires rows { AreRows stride part.now.area (length target.old) }
    requires kind { IsStripWidth part.now.area.width }
    requires low { part.now.area.height ≤ 32 }
    requires part { IsBlock T.num 7 7 part.now }
    requires filters { AreFilters halves.now }
    requires serves { W.serves part.now.bit_depth }
    ensures { let b = part.now
        in target.new ≡ paint stride b.area (λ r c _. W.written b.bit_depth (twice_filtered T.num (W.roundings b.bit_depth) b halves.now r c)) target.old }
{
    if part.area.width == 16 {
        filter_part::<T, E, W, 16>(target, stride, part, halves);
    } else if part.area.width == 8 {
        filter_part::<T, E, W, 8>(target, stride, part, halves);
    } else if part.area.width == 4 {
        filter_part::<T, E, W, 4>(target, stride, part, halves);
    } else {
        filter_part::<T, E, W, 1>(target, stride, part, halves);
    }
}

/// Writes the entries of a strip of 16, 8, 4 or 1 columns, part by part.
#[tactic(auto, using(av1_frame::proofs::Paint::paint_none))]
fn filter_parts<T: Pixel, E: Copy, W: Writer<E>>(
    target: &mut [E],
    stride: usize,
    strip: &Strip<'_, T>,
    halves: &Halves,
)
    requires rows { AreRows stride strip.now.area (length target.old) }
    requires kind { IsStripWidth strip.now.area.width }
    requires strip { IsBlock T.num 7 7 strip.now }
    requires filters { AreFilters halves.now }
    requires serves { W.serves strip.now.bit_depth }
    ensures { let b = strip.now
        in target.new ≡ paint stride b.area (λ r c _. W.written b.bit_depth (twice_filtered T.num (W.roundings b.bit_depth) b halves.now r c)) target.old }
{
    let mut first = 0;
    while first < strip.area.height {
        let rows = (strip.area.height - first).min(ROWS);
        let part = part_at(strip, 0, first, strip.area.width, rows);
        filter_part_of::<T, E, W>(target, stride, &part, halves);
        first += rows;
    }
}

/// Writes the entries of a block, strip by strip.
#[inline(always)]
#[tactic(auto, using(crate::proofs::Strips::paint_no_column))]
pub(crate) fn filter_twice<T: Pixel, E: Copy, W: Writer<E>>(
    target: &mut [E],
    stride: usize,
    block: &Strip<'_, T>,
    halves: &Halves,
)
    requires rows { AreRows stride block.now.area (length target.old) }
    requires block { IsBlock T.num 7 7 block.now }
    requires filters { AreFilters halves.now }
    requires serves { W.serves block.now.bit_depth }
    ensures { let b = block.now
        in target.new ≡ paint stride b.area (λ r c _. W.written b.bit_depth (twice_filtered T.num (W.roundings b.bit_depth) b halves.now r c)) target.old }
{
    let mut start = 0;
    while start < block.area.width {
        let columns = strip_width(block.area.width - start);
        let strip = part_at(block, start, 0, columns, block.area.height);
        filter_parts::<T, E, W>(target, stride, &strip, halves);
        start += columns;
    }
}
