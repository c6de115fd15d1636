//! Writes samples to a slice of bytes: one byte a sample, or two, the low one first. Does not allocate.
ghost use Rattle.std.specs.Prelude.{◌≡◌, ◌*◌, ◌≤◌, ◌==◌, length, map, take};
ghost use Rattle.std.specs.List.{flat_map};
ghost use Rattle.av1_tile.specs.Output.{sample_bytes};

use av1_frame::Pixel;

// Writes the samples to the front of the bytes, one byte each.
fn pack_one<T: Pixel>(samples: &[T], bytes: &mut [u8])
    requires narrow { T.BITS ≤ 8 }
    requires room { length samples.now ≤ length bytes.old }
    ensures { take (length samples.now) bytes.new ≡ flat_map (λ s. sample_bytes 8 (T.num s)) samples.now }
{
    for (i, sample) in samples.iter().enumerate() {
        bytes[i] = sample.to_u32() as u8;
    }
}

// Writes the samples to the front of the bytes, two bytes each.
fn pack_two<T: Pixel>(samples: &[T], bytes: &mut [u8])
    requires room { 2 * length samples.now ≤ length bytes.old }
    ensures { take (2 * length samples.now) bytes.new ≡ flat_map (λ s. sample_bytes 16 (T.num s)) samples.now }
{
    for (i, sample) in samples.iter().enumerate() {
        let value = sample.to_u32();
        bytes[2 * i] = (value % 256) as u8;
        bytes[2 * i + 1] = (value / 256) as u8;
    }
}

/// Writes the samples of this depth to the front of the bytes, and returns the number of these bytes.
pub fn pack<T: Pixel>(depth: u8, samples: &[T], bytes: &mut [u8]) -> usize
    requires narrow { depth ≡ 8 → T.BITS ≤ 8 }
    requires room { 2 * length samples.now ≤ length bytes.old }
    ensures within { result ≤ length bytes.new }
    ensures bytes { take result bytes.new ≡ flat_map (sample_bytes depth) (map T.num samples.now) }
{
    if depth == 8 {
        pack_one(samples, bytes);
        samples.len()
    } else {
        pack_two(samples, bytes);
        2 * samples.len()
    }
}
