//! Writes reference samples as bytes: to a slice without allocating, or at the end of a text, which may allocate.

ghost use Rattle.std.specs.Prelude.{◌≡◌, ◌+◌, ◌++◌, ◌*◌, ◌^◌, ◌≤◌, length, take, drop};
ghost use Rattle.std.specs.List.{flat_map};
ghost use Rattle.av1_planwrite.specs.Text.{sample_text, plane_text};

use crate::text::Text;
use av1_blocks::OutOfMemory;

// The greatest number of samples that are written at once.
const MOST_SAMPLES: usize = 512;

// The length of these samples in bytes.
const MOST_BYTES: usize = 2 * MOST_SAMPLES;

/// Writes samples to the front of the bytes, one byte each.
fn pack_one(samples: &[u16], bytes: &mut [u8])
    requires room { length samples.now ≤ length bytes.old }
    ensures text { take (length samples.now) bytes.new ≡ flat_map (sample_text 8) samples.now }
    ensures rest { drop (length samples.now) bytes.new ≡ drop (length samples.now) bytes.old }
{
    for (i, sample) in samples.iter().enumerate() {
        bytes[i] = (*sample % 256) as u8;
    }
}

/// Writes samples to the front of the bytes, two bytes each.
fn pack_two(samples: &[u16], bytes: &mut [u8])
    requires room { 2 * length samples.now ≤ length bytes.old }
    ensures text { take (2 * length samples.now) bytes.new ≡ flat_map (sample_text 16) samples.now }
    ensures rest { drop (2 * length samples.now) bytes.new ≡ drop (2 * length samples.now) bytes.old }
{
    for (i, sample) in samples.iter().enumerate() {
        bytes[2 * i] = (*sample % 256) as u8;
        bytes[2 * i + 1] = (*sample / 256 % 256) as u8;
    }
}

/// How many bytes samples of this depth have.
#[tactic(auto, using(crate::proofs::Packed::lengths))]
fn text_len(depth: u8, samples: &[u16]) -> usize
    requires { length samples.now ≤ 2 ^ 22 }
    ensures len { result ≡ length (plane_text depth samples.now) }
    ensures few { result ≤ 2 ^ 23 }
{
    if depth == 8 {
        samples.len()
    } else {
        2 * samples.len()
    }
}

/// How many bytes the planes of a slot have.
pub fn slot_len(depth: u8, y: &[u16], u: &[u16], v: &[u16]) -> usize
    requires y { length y.now ≤ 2 ^ 22 }
    requires u { length u.now ≤ 2 ^ 22 }
    requires v { length v.now ≤ 2 ^ 22 }
    ensures len { result ≡ length (plane_text depth y.now ++ plane_text depth u.now ++ plane_text depth v.now) }
    ensures few { result ≤ 2 ^ 25 }
{
    text_len(depth, y) + text_len(depth, u) + text_len(depth, v)
}

/// Writes samples of this depth to the front of the bytes, and returns their length in bytes.
#[tactic(auto, using(crate::proofs::Packed::lengths))]
fn pack(depth: u8, samples: &[u16], bytes: &mut [u8]) -> usize
    requires room { length (plane_text depth samples.now) ≤ length bytes.old }
    ensures end { result ≡ length (plane_text depth samples.now) }
    ensures bytes { take result bytes.new ≡ plane_text depth samples.now }
    ensures rest { drop result bytes.new ≡ drop result bytes.old }
{
    if depth == 8 {
        pack_one(samples, bytes);
        samples.len()
    } else {
        pack_two(samples, bytes);
        2 * samples.len()
    }
}

/// Writes the samples of a plane into a slice from offset `at` on, and returns the offset of their end.
fn put_plane(slice: &mut [u8], at: usize, depth: u8, samples: &[u16]) -> usize
    requires { at + length (plane_text depth samples.now) ≤ length slice.old }
    ensures end { result ≡ at + length (plane_text depth samples.now) }
    ensures text { take result slice.new ≡ take at slice.old ++ plane_text depth samples.now }
    ensures rest { drop result slice.new ≡ drop result slice.old }
{
    let (_, free) = slice.split_at_mut(at);
    at + pack(depth, samples, free)
}

/// Writes the planes of a slot to the front of a slice, and returns their length in bytes. The rest is unchanged.
#[tactic(auto, using(crate::proofs::Rests::rest_later))]
pub fn put_planes(slice: &mut [u8], depth: u8, y: &[u16], u: &[u16], v: &[u16]) -> usize
    requires { length (plane_text depth y.now ++ plane_text depth u.now ++ plane_text depth v.now) ≤ length slice.old }
    ensures end { result ≡ length (plane_text depth y.now ++ plane_text depth u.now ++ plane_text depth v.now) }
    ensures text { take result slice.new ≡ plane_text depth y.now ++ plane_text depth u.now ++ plane_text depth v.now }
    ensures rest { drop result slice.new ≡ drop result slice.old }
{
    let at = put_plane(slice, 0, depth, y);
    let at = put_plane(slice, at, depth, u);
    put_plane(slice, at, depth, v)
}

impl Text {
    ghost use Rattle.std.specs.Prelude.{◌≡◌, ◌++◌, OnOk};
    ghost use Rattle.av1_planwrite.specs.Fronts.{Begins};
    ghost use Rattle.av1_planwrite.specs.Text.{plane_text};

    /// Writes the samples of a plane.
    pub fn plane(&mut self, depth: u8, samples: &[u16]) -> Result<(), OutOfMemory>
        ensures text { OnOk result (self.new.bytes.items ≡ self.old.bytes.items ++ plane_text depth samples.now) }
        ensures front { Begins self.old.bytes.items self.new.bytes.items }
    {
        let mut buffer = [0; MOST_BYTES];
        let mut at = 0;
        'pieces: while at < samples.len() {
            let count = (samples.len() - at).min(MOST_SAMPLES);
            let len = pack(depth, &samples[at..at + count], &mut buffer);
            self.copy(&buffer[..len])?;
            at += count;
        }
        Ok(())
    }

    /// Writes the planes of a slot.
    pub fn planes(&mut self, depth: u8, y: &[u16], u: &[u16], v: &[u16]) -> Result<(), OutOfMemory>
        ensures text { OnOk result (self.new.bytes.items ≡ self.old.bytes.items
            ++ (plane_text depth y.now ++ plane_text depth u.now ++ plane_text depth v.now)) }
        ensures front { Begins self.old.bytes.items self.new.bytes.items }
    {
        self.plane(depth, y)?;
        self.plane(depth, u)?;
        self.plane(depth, v)
    }
}
