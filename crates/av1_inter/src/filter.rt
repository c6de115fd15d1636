//! Chooses the interpolation filter of a block, and halves its weights. Pure functions.
//!
//! AV1 specification: block inter prediction process.

ghost use Rattle.std.specs.Prelude.{◌≡◌, ◌≤◌, ◌<◌};
ghost use Rattle.std.specs.Int.{int_shr};
ghost use Rattle.av1_inter.specs.Filters.{family, filter_of, mode_along, short_family};
ghost use Rattle.av1_inter.specs.Motion.{entry};
ghost use Rattle.av1_inter.specs.Scaffolding.{AreZero, doubled, halved, IsFilter};

use av1_blocks::{FilterMode, SUBPEL_FILTER_SIZE, SUBPEL_FILTERS};

/// The filter of a frame along a side of `length` samples. With `by_av1` the regular filter replaces the sharp one
/// along sides up to 4, as in AV1. rav1e has a smooth filter there.
///
/// AV1 specification: block inter prediction process.
#[inline(always)]
pub fn mode_along(by_av1: bool, mode: FilterMode, length: usize) -> FilterMode
    ensures { result ≡ mode_along by_av1 mode length }
{
    match mode {
        FilterMode::SHARP => {
            if by_av1 && length <= 4 {
                FilterMode::REGULAR
            } else {
                FilterMode::SHARP
            }
        }
        _ => mode,
    }
}

/// The family of a mode for sides up to 4, as in rav1e.
fn short_family(mode: FilterMode) -> usize
    ensures { result ≡ short_family mode }
{
    match mode {
        FilterMode::REGULAR => 4,
        FilterMode::BILINEAR => 3,
        FilterMode::SMOOTH | FilterMode::SHARP | FilterMode::SWITCHABLE => 5,
    }
}

/// The family of a mode along a side of `length` samples.
fn family(mode: FilterMode, length: usize) -> usize
    ensures { result ≡ family mode length }
{
    if length > 4 {
        mode.number() as usize
    } else {
        short_family(mode)
    }
}

/// The weights of a mode at `frac` sixteenths, along a side of `length` samples.
fn taps_at(mode: FilterMode, frac: usize, length: usize) -> [i32; SUBPEL_FILTER_SIZE]
    requires { frac < 16 }
    ensures { result ≡ filter_of mode frac length }
{
    let filters = &SUBPEL_FILTERS;
    filters[family(mode, length)][frac]
}

/// Half of a weight.
#[inline(always)]
fn half_of(taps: &[i32; SUBPEL_FILTER_SIZE], t: usize) -> i16
    requires filter { IsFilter taps.now }
    requires weight { t < 8 }
    ensures { result ≡ int_shr (entry taps.now t) 1 }
{
    (taps[t] >> 1) as i16
}

/// Half of each weight.
#[inline(always)]
fn halves_of(taps: &[i32; SUBPEL_FILTER_SIZE]) -> [i16; SUBPEL_FILTER_SIZE]
    requires { IsFilter taps.now }
    ensures value { result ≡ halved taps.now }
    ensures twice { doubled result ≡ taps.now }
{
    let mut halves = [0; SUBPEL_FILTER_SIZE];
    for t in 0..SUBPEL_FILTER_SIZE {
        halves[t] = half_of(taps, t);
    }
    halves
}

/// Half of each weight of the filter of a mode at `frac` sixteenths, along a side of `length` samples. The weights
/// belong to the samples at the offsets -3 to 4. The halves are in parts of 64.
#[inline(always)]
pub(crate) fn get_filter(mode: FilterMode, frac: usize, length: usize) -> [i16; SUBPEL_FILTER_SIZE]
    requires { frac < 16 }
    ensures value { result ≡ halved (filter_of mode frac length) }
    ensures filter { IsFilter (doubled result) }
{
    halves_of(&taps_at(mode, frac, length))
}

/// The number of outer weights that are 0 on either side, counted up to 2. Filters for sides up to 4 have two, and all
/// others have at least one, except the sharp filter.
#[inline(always)]
pub(crate) fn outer_zeros(halves: &[i16; SUBPEL_FILTER_SIZE]) -> usize
    ensures few { result ≤ 2 }
    ensures zeros { AreZero result halves.now }
{
    if halves[0] != 0 || halves[7] != 0 {
        0
    } else if halves[1] != 0 || halves[6] != 0 {
        1
    } else {
        2
    }
}
