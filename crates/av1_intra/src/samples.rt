//! Reads a sample of a slice as a number. Writes nothing.

ghost use Rattle.std.specs.Prelude.{◌≡◌, ◌^◌, ◌<◌, length};
ghost use Rattle.av1_intra.specs.Sides.{numbers};

use av1_frame::Pixel;

/// Returns the number of sample `k`.
pub(crate) fn number_at<T: Pixel>(samples: &[T], k: usize) -> u32
    requires { k < length samples.now }
    ensures value { result ≡ numbers T.num samples.now k }
    ensures fits { result < 2 ^ T.BITS }
    ensures fits_16_bits { result < 2 ^ 16 }
{
    samples[k].to_u32()
}
