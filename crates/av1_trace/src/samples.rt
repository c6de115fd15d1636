//! Finds rows and samples in the bytes of planes. Changes nothing.

ghost use Rattle.std.specs.Prelude.{◌≡◌, ℕ, ◌+◌, ◌*◌, ◌<◌, ◌≤◌, length};
ghost use Rattle.av1_plan.specs.Geometry.{shown_rows, shown_columns};
ghost use Rattle.av1_plan.specs.ReadPlans.{IsReadFrame};
ghost use Rattle.av1_trace.specs.Samples.{given, planes_len, sample_from, sample_len, samples_before};

use av1_plan::Header;

/// How many bytes a sample of this depth has.
#[tactic(auto, unfolding(crate::specs::Samples::sample_len))]
fn sample_len(depth: u8) -> usize
    ensures value { result ≡ sample_len depth }
    ensures small { result ≤ 2 }
{
    if depth == 8 { 1 } else { 2 }
}

/// How many samples precede plane `p`.
#[tactic(auto, using(crate::proofs::Frames::plane_is_small), unfolding(crate::specs::Samples::samples_before))]
fn samples_before(header: &Header, p: usize) -> usize
    requires frame { IsReadFrame header.now }
    requires plane { p ≤ 3 }
    ensures value { result ≡ samples_before header.now p }
    ensures small { result ≤ 3 * 2048 * 2048 }
{
    let y = header.plane_len(0);
    let u = header.plane_len(1);
    let v = header.plane_len(2);
    match p {
        0 => 0,
        1 => y,
        2 => y + u,
        _ => y + u + v,
    }
}

/// The length in bytes of a frame's visible planes: one byte for each sample at depth 8, else two.
#[tactic(auto, unfolding(crate::specs::Samples::planes_len))]
pub fn planes_len(header: &Header) -> usize
    requires frame { IsReadFrame header.now }
    ensures { result ≡ planes_len header.now }
{
    sample_len(header.depth) * samples_before(header, 3)
}

/// Sample `i` of bytes of this depth.
#[tactic(auto, unfolding(crate::specs::Samples::sample_len, crate::specs::Samples::sample_from))]
pub fn sample_from(depth: u8, bytes: &[u8], i: usize) -> u16
    requires { sample_len depth * (i + 1) ≤ length bytes.now }
    ensures { result ≡ sample_from depth bytes.now i }
{
    if depth == 8 {
        u16::from(bytes[i])
    } else {
        u16::from(bytes[2 * i]) + 256 * u16::from(bytes[2 * i + 1])
    }
}

/// The bytes of `count` samples from `start` on.
#[tactic(auto, unfolding(crate::specs::Samples::sample_len))]
fn sample_run(depth: u8, bytes: &[u8], start: usize, count: usize) -> &[u8]
    requires { sample_len depth * (start + count) ≤ length bytes.now }
    ensures length { length result.now ≡ sample_len depth * count }
    ensures samples { (i : ℕ) → i < count → sample_from depth result.now i ≡ sample_from depth bytes.now (start + i) }
{
    if depth == 8 {
        &bytes[start..start + count]
    } else {
        &bytes[2 * start..2 * (start + count)]
    }
}

/// The bytes of row `y` of plane `p`.
pub fn given_row<'a>(header: &Header, planes: &'a [u8], p: usize, y: usize) -> &'a [u8]
    requires frame { IsReadFrame header.now }
    requires whole { length planes.now ≡ planes_len header.now }
    requires plane { p < 3 }
    requires row { y < shown_rows header.now p }
    ensures length { length result.now ≡ sample_len header.now.depth * shown_columns header.now p }
    ensures samples { (x : ℕ) → x < shown_columns header.now p → sample_from header.now.depth result.now x ≡ given header.now planes.now p x y }
{
    let width = header.shown_columns(p);
    sample_run(
        header.depth,
        planes,
        samples_before(header, p) + y * width,
        width,
    )
}
