//! DC prediction: computes the mean of the samples on the sides that lie in the tile. Writes nothing.
//!
//! AV1 specification: DC intra prediction process.

ghost use Rattle.std.specs.Prelude.{◌≡◌, ◌+◌, ◌*◌, ◌^◌, ◌<◌, ◌≤◌, length, map, sum, ◌++◌};
ghost use Rattle.av1_edges.specs.Sides.{base};
ghost use Rattle.av1_intra.specs.Dc.{mean};

use av1_edges::base;
use av1_frame::Pixel;

/// The sum of at most 65,536 samples.
#[inline(always)]
pub fn sum_of<T: Pixel>(samples: &[T]) -> u32
    requires { length samples.now ≤ 65536 }
    ensures value { result ≡ sum (map T.num samples.now) }
    ensures bound { result + length samples.now ≤ length samples.now * 2 ^ T.BITS }
    ensures small { result ≤ length samples.now * 65535 }
{
    let mut total = 0;
    for sample in samples {
        total += sample.to_u32();
    }
    total
}

/// The sum of a side of `N` samples.
#[inline(always)]
fn sum_of_few<T: Pixel, const N: usize>(side: &[T]) -> u32
    requires whole { length side.now ≡ N }
    requires short { N ≤ 64 }
    ensures value { result ≡ sum (map T.num side.now) }
    ensures bound { result + length side.now ≤ length side.now * 2 ^ T.BITS }
    ensures small { result ≤ length side.now * 65535 }
{
    sum_of(&side[..N])
}

/// The sum of a longer side.
#[inline(never)]
fn sum_of_many<T: Pixel>(side: &[T]) -> u32
    requires { length side.now ≤ 64 }
    ensures value { result ≡ sum (map T.num side.now) }
    ensures bound { result + length side.now ≤ length side.now * 2 ^ T.BITS }
    ensures small { result ≤ length side.now * 65535 }
{
    match side.len() {
        16 => sum_of_few::<T, 16>(side),
        32 => sum_of_few::<T, 32>(side),
        64 => sum_of_few::<T, 64>(side),
        _ => sum_of(side),
    }
}

/// The sum of a side. The compiler knows the number of samples of the sides of transforms.
#[inline(always)]
fn sum_of_side<T: Pixel>(side: &[T]) -> u32
    requires { length side.now ≤ 64 }
    ensures value { result ≡ sum (map T.num side.now) }
    ensures bound { result + length side.now ≤ length side.now * 2 ^ T.BITS }
    ensures small { result ≤ length side.now * 65535 }
{
    if side.len() == 4 {
        sum_of_few::<T, 4>(side)
    } else if side.len() == 8 {
        sum_of_few::<T, 8>(side)
    } else {
        sum_of_many(side)
    }
}

/// The rounded mean of the samples of two sides: the DC prediction of a block between them. One of them may be empty.
#[inline(always)]
pub fn mean_of<T: Pixel>(left: &[T], above: &[T]) -> T
    requires some { 0 < length left.now + length above.now }
    requires left_short { length left.now ≤ 64 }
    requires above_short { length above.now ≤ 64 }
    ensures { result ≡ T.pixel (mean (map T.num left.now ++ map T.num above.now)) }
{
    let count = (left.len() + above.len()) as u32;
    T::from_u32((sum_of_side(left) + sum_of_side(above) + count / 2) / count)
}

/// The rounded mean of the samples of one side.
#[inline(always)]
pub fn side_mean<T: Pixel>(side: &[T]) -> T
    requires some { 0 < length side.now }
    requires short { length side.now ≤ 64 }
    ensures { result ≡ T.pixel (mean (map T.num side.now)) }
{
    let count = side.len() as u32;
    T::from_u32((sum_of_side(side) + count / 2) / count)
}

/// Half of the range of samples at this depth: the DC prediction of a block without sides.
#[inline(always)]
pub fn half_sample<T: Pixel>(bit_depth: usize) -> T
    requires low { 8 ≤ bit_depth }
    requires high { bit_depth ≤ T.BITS }
    ensures { result ≡ T.pixel (base bit_depth) }
{
    T::from_u32(base(bit_depth))
}
