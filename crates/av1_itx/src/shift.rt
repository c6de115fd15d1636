//! Shifts the values of an array in place: to the right with rounding, or to the left, where bits past 32 are lost.

ghost use Rattle.std.specs.Prelude.{◌≡◌, ◌++◌, ◌*◌, ◌/◌, ◌^◌, ◌<◌, ◌≤◌, ℤ, pos, negsuc, ◌+ℤ◌, ◌*ℤ◌, ◌≤ℤ◌, ◌<ℤ◌, map, take, drop};
ghost use Rattle.std.specs.List.{All};
ghost use Rattle.av1_dct.specs.Arithmetic.{wrap32};
ghost use Rattle.av1_frame.specs.Arithmetic.{round_shift};
ghost use Rattle.av1_itx.specs.Shift.{shifted, SumFits};

use av1_frame::round_shift;

fn round_each(values: &mut [i32], bit: usize)
    requires bit_in { bit ≤ 30 }
    requires fits { All (λ v. (v +ℤ pos (2 ^ bit / 2)) <ℤ pos (2 ^ 31)) values.old }
    ensures { values.new ≡ map (λ v. round_shift v bit) values.old }
{
    for i in 0..values.len() {
        values[i] = round_shift(values[i], bit);
    }
}

fn shift_each_left(values: &mut [i32], bit: usize)
    requires bit_in { bit ≤ 31 }
    ensures { values.new ≡ map (λ v. wrap32 (v *ℤ pos (2 ^ bit))) values.old }
{
    for i in 0..values.len() {
        values[i] <<= bit;
    }
}

/// Shifts the first `size` values, or all if there are fewer. A positive `bit` shifts to the right with rounding. A
/// negative one shifts to the left, and bits past 32 are lost. A `bit` of 0 has no effect. The rest of `arr` is
/// unchanged.
pub fn av1_round_shift_array(arr: &mut [i32], size: usize, bit: i8)
    requires bit_in { (negsuc 30 ≤ℤ bit) × (bit ≤ℤ pos 30) }
    requires fits { All (SumFits bit) (take size arr.old) }
    ensures { arr.new ≡ map (shifted bit) (take size arr.old) ++ drop size arr.old }
{
    if bit == 0 {
        return;
    }
    let size = size.min(arr.len());
    let amount = bit.unsigned_abs() as usize;
    if bit > 0 {
        round_each(&mut arr[..size], amount);
    } else {
        shift_each_left(&mut arr[..size], amount);
    }
}
