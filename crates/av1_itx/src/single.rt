//! Finds blocks with two cosine transforms and only the first coefficient, and gives their columns' first input. Pure.

ghost use Rattle.std.specs.Prelude.{◌≡◌, true, ℕ, ◌+◌, ◌<◌, ◌≤◌, pos, map};
ghost use Rattle.av1_dct.specs.Arithmetic.{at, clamp_value, FitsBits};
ghost use Rattle.av1_frame.specs.Arithmetic.{round_shift};
ghost use Rattle.av1_itx.specs.Scaffolding.{IsSingleBlock, top_of};

use crate::block::Block;
use crate::column_pass::{column_range_of, row_shift_of};
use crate::columns::{is_cosine, single_value};
use crate::kinds::get_1d_tx_types;
use crate::row_pass::{scaled, scaling_of};
use av1_blocks::TxType;
use av1_dct::clamp_value;
use av1_frame::{Coefficient, round_shift};

// Whether only the first coefficient has a value. In most blocks one of the next coefficients decides.
fn ends_at_first<C: Coefficient>(input: &[C]) -> bool
    ensures { result ≡ true → (i : ℕ) → 0 < i → at (map C.val input.now) i ≡ pos 0 }
{
    for i in 1..input.len() {
        let value = input[i].to_i32();
        if value != 0 {
            return false;
        }
    }
    true
}

/// Whether a block takes the cosine transform both ways and has only its first coefficient.
pub(crate) fn is_single<C: Coefficient>(input: &[C], tx_type: TxType) -> bool
    ensures { result ≡ true → IsSingleBlock C.val tx_type input.now }
{
    let (column, row) = get_1d_tx_types(tx_type);
    is_cosine(column) && is_cosine(row) && ends_at_first(input)
}

// The input of the columns for a row's value.
fn taken_by_columns(z: i32, shift: usize, range: usize) -> i32
    requires shift_in { shift ≤ 2 }
    requires range_in { (8 ≤ range) × (range ≤ 20) }
    requires fits { FitsBits 24 z }
    ensures { result ≡ clamp_value (round_shift z shift) range }
{
    clamp_value(round_shift(z, shift), range)
}

/// The first input of each column of such a block; all others are 0.
pub(crate) fn top_value(first: i32, block: Block) -> i32
    requires depth { (8 ≤ block.bd) × (block.bd ≤ 12) }
    requires fits { FitsBits (block.bd + 8) first }
    ensures { result ≡ top_of block first }
{
    let scaling = scaling_of(block.tx_size, block.tx_type);
    let z = scaled(first, scaling, block.bd);
    let row = single_value(z, block.bd + 8);
    taken_by_columns(row, row_shift_of(block.tx_size), column_range_of(block.bd))
}
