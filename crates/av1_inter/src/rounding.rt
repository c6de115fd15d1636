//! How sums of weighted samples are rounded, for each depth and each kind of block. Pure functions.
//!
//! All weights are even, and sums are formed with half of each. So a sum that the specification shifts by 7 is shifted
//! by 6 here. The specification rounds twice along a row of one reference; here one step does both: `(s + 32 + h) >>
//! 6`, with half of the first step as h.
//!
//! Between the two filters values are raised by 8192, so that they have no sign, as samples have none. Halved weights
//! sum to 64, so a sum of such values is 64 * 8192 too great, which is subtracted afterwards.
//!
//! AV1 specification: rounding variables derivation process.

ghost use Rattle.std.specs.Prelude.{◌≡◌, ◌-◌, ◌^◌, ◌≤◌, pos};
ghost use Rattle.av1_blocks.specs.Depths.{IsDepth};
ghost use Rattle.av1_inter.specs.Motion.{bias, intermediate_bits};
ghost use Rattle.av1_inter.specs.Scaffolding.{AreRoundings, IsRounding, between_filters, both_prepared, both_put, column_put, kept_roundings, one_prepared};
ghost use Rattle.av1_inter.specs.Scaffolding.{prepared_roundings, put_roundings, row_put};

/// The rounding of a sum by halved weights: `add` is added, the sum is shifted down by `shift` bits, and `bias` is
/// subtracted.
#[derive(Clone, Copy)]
pub(crate) struct Rounding {
    pub(crate) add: i16,
    pub(crate) shift: usize,
    pub(crate) bias: i16,
}

/// The roundings of the sums of a block: along its rows if only they are filtered, down its columns if only they are,
/// and down the columns of filtered rows.
#[derive(Clone, Copy)]
pub(crate) struct Roundings {
    pub(crate) rows: Rounding,
    pub(crate) columns: Rounding,
    pub(crate) both: Rounding,
}

/// The number of bits that values between the two filters have more than samples.
#[inline(always)]
pub(crate) fn intermediate_bits(bit_depth: usize) -> usize
    ensures value { result ≡ intermediate_bits bit_depth }
    ensures small { result ≤ 4 }
{
    if bit_depth == 12 { 2 } else { 4 }
}

/// What is subtracted from a prepared value, so that it fits 16 bits.
#[inline(always)]
pub(crate) fn prep_bias(bit_depth: usize) -> i16
    ensures { result ≡ bias bit_depth }
{
    if bit_depth == 8 { 0 } else { 8192 }
}

/// The greatest number of a sample.
#[inline(always)]
pub(crate) fn greatest(bit_depth: usize) -> i16
    requires { IsDepth bit_depth }
    ensures { result ≡ pos (2 ^ bit_depth - 1) }
{
    if bit_depth == 8 {
        255
    } else if bit_depth == 12 {
        4095
    } else {
        1023
    }
}

/// The rounding of a row, before the filter down the columns.
#[inline(always)]
pub(crate) fn between_filters(bit_depth: usize) -> Rounding
    requires { IsDepth bit_depth }
    ensures value { result ≡ between_filters bit_depth }
    ensures small { IsRounding result }
{
    if bit_depth == 12 {
        Rounding {
            add: 8,
            shift: 4,
            bias: -8192,
        }
    } else {
        Rounding {
            add: 2,
            shift: 2,
            bias: -8192,
        }
    }
}

/// The rounding of a row that gives samples.
#[inline(always)]
fn row_put(bit_depth: usize) -> Rounding
    requires { IsDepth bit_depth }
    ensures value { result ≡ row_put bit_depth }
    ensures small { IsRounding result }
{
    Rounding {
        add: if bit_depth == 12 { 40 } else { 34 },
        shift: 6,
        bias: 0,
    }
}

/// The rounding of a column that gives samples.
#[inline(always)]
fn column_put() -> Rounding
    ensures value { result ≡ column_put }
    ensures small { IsRounding result }
{
    Rounding {
        add: 32,
        shift: 6,
        bias: 0,
    }
}

/// The rounding of a column of filtered rows that gives samples.
#[inline(always)]
fn both_put(bit_depth: usize) -> Rounding
    requires { IsDepth bit_depth }
    ensures value { result ≡ both_put bit_depth }
    ensures small { IsRounding result }
{
    if bit_depth == 12 {
        Rounding {
            add: 128,
            shift: 8,
            bias: 2048,
        }
    } else {
        Rounding {
            add: 512,
            shift: 10,
            bias: 512,
        }
    }
}

/// The rounding of a row or a column that is prepared.
#[inline(always)]
fn one_prepared(bit_depth: usize) -> Rounding
    requires { IsDepth bit_depth }
    ensures value { result ≡ one_prepared bit_depth }
    ensures small { IsRounding result }
{
    let between = between_filters(bit_depth);
    Rounding {
        add: between.add,
        shift: between.shift,
        bias: prep_bias(bit_depth),
    }
}

/// The rounding of a column of filtered rows that is prepared.
#[inline(always)]
fn both_prepared(bit_depth: usize) -> Rounding
    requires { IsDepth bit_depth }
    ensures value { result ≡ both_prepared bit_depth }
    ensures small { IsRounding result }
{
    Rounding {
        add: 32,
        shift: 6,
        bias: prep_bias(bit_depth) + 8192,
    }
}

/// The roundings of a block that gives samples.
#[inline(always)]
pub(crate) fn put_roundings(bit_depth: usize) -> Roundings
    requires { IsDepth bit_depth }
    ensures value { result ≡ put_roundings bit_depth }
    ensures small { AreRoundings result }
{
    Roundings {
        rows: row_put(bit_depth),
        columns: column_put(),
        both: both_put(bit_depth),
    }
}

/// The roundings of a block whose values go to the filter down the columns.
#[inline(always)]
pub(crate) fn kept_roundings(bit_depth: usize) -> Roundings
    requires { IsDepth bit_depth }
    ensures value { result ≡ kept_roundings bit_depth }
    ensures small { AreRoundings result }
{
    let between = between_filters(bit_depth);
    Roundings {
        rows: between,
        columns: between,
        both: between,
    }
}

/// The roundings of a block that is prepared.
#[inline(always)]
pub(crate) fn prepared_roundings(bit_depth: usize) -> Roundings
    requires { IsDepth bit_depth }
    ensures value { result ≡ prepared_roundings bit_depth }
    ensures small { AreRoundings result }
{
    let one = one_prepared(bit_depth);
    Roundings {
        rows: one,
        columns: one,
        both: both_prepared(bit_depth),
    }
}
