//! Draws samples and numbers from a seed, so that rows are short. Allocates the lists that it returns.

ghost use Rattle.std.specs.Prelude.{◌≡◌, ◌+◌, ◌-◌, ◌^◌, ◌<◌, ◌≤◌, All, IfOk, length, map, pos};
ghost use Rattle.av1_dct.specs.Arithmetic.{FitsBits};
ghost use Rattle.av1_replay.specs.Drawn.{centred, drawn_samples, drawn_signed, in_way, next_state, same_for, signed_in_way, upper, word};

use crate::way::{Signed, Way};
use av1_blocks::OutOfMemory;
use av1_frame::{Coefficient, Pixel};
use std::alloc::Global;

/// Numbers that splitmix64 draws.
#[derive(Drop)]
pub struct Numbers {
    state: u64,
}

impl Numbers {
    /// The numbers of a seed.
    pub fn new(seed: u32) -> Numbers
        ensures { result.state ≡ seed }
    {
        Numbers {
            state: u64::from(seed),
        }
    }

    #[tactic(auto, unfolding(crate::specs::Drawn::word))]
    fn next(&mut self) -> u64
        ensures value { result ≡ word self.old.state }
        ensures state { self.new.state ≡ next_state self.old.state }
    {
        self.state = self.state.wrapping_add(0x9e37_79b9_7f4a_7c15);
        let z = (self.state ^ (self.state >> 30)).wrapping_mul(0xbf58_476d_1ce4_e5b9);
        let z = (z ^ (z >> 27)).wrapping_mul(0x94d0_49bb_1331_11eb);
        z ^ (z >> 31)
    }

    // A number of `count` bits, from 1 to 31: the upper bits of the next number.
    #[tactic(auto, using(crate::proofs::Powers::upper_below))]
    fn bits(&mut self, count: u8) -> u32
        requires some { 1 ≤ count }
        requires few { count ≤ 31 }
        ensures value { result ≡ upper count self.old.state }
        ensures state { self.new.state ≡ next_state self.old.state }
        ensures within { result < 2 ^ count }
    {
        (self.next() >> (64 - count)) as u32
    }

    // A number of `bits` bits, drawn in this way. In the way `Same` it is `same`.
    fn in_way(&mut self, way: Way, bits: u8, same: u32) -> u32
        requires some { 1 ≤ bits }
        requires few { bits ≤ 31 }
        requires same { same < 2 ^ bits }
        ensures value { (result, self.new.state) ≡ in_way way bits same self.old.state }
        ensures within { result < 2 ^ bits }
    {
        match way {
            Way::Any => self.bits(bits),
            Way::Ends => match self.bits(1) {
                0 => 0,
                _ => greatest(bits),
            },
            Way::Same => same,
        }
    }

    // A number of `bits` bits in the way `Same`, which all others repeat. In other ways 0.
    #[tactic(auto, using(std::proofs::lemmas::Nat::pow_pos))]
    fn same_for(&mut self, way: Way, bits: u8) -> u32
        requires some { 1 ≤ bits }
        requires few { bits ≤ 31 }
        ensures value { (result, self.new.state) ≡ same_for way bits self.old.state }
        ensures within { result < 2 ^ bits }
    {
        match way {
            Way::Same => self.bits(bits),
            _ => 0,
        }
    }

    /// Draws a sample of a depth.
    pub fn sample<T: Pixel>(&mut self, depth: u8, way: Way) -> T
        requires some { 1 ≤ depth }
        requires deep { depth ≤ T.BITS }
        ensures within { T.num result < 2 ^ depth }
    {
        let same = self.same_for(way, depth);
        sample_of(self.in_way(way, depth, same), depth)
    }

    /// Draws `count` samples of a depth.
    pub fn samples<T: Pixel>(
        &mut self,
        alloc: Global,
        count: usize,
        depth: u8,
        way: Way,
    ) -> Result<Vec<T>, OutOfMemory>
        requires some { 1 ≤ depth }
        requires deep { depth ≤ T.BITS }
        ensures value { IfOk result (λ samples. (map T.num samples.items, self.new.state) ≡ drawn_samples count depth way self.old.state) }
        ensures long { IfOk result (λ samples. length samples.items ≡ count) }
        ensures within { IfOk result (λ samples. All (λ sample. T.num sample < 2 ^ depth) samples.items) }
    {
        let same = self.same_for(way, depth);
        let mut samples = Vec::new(alloc);
        for _ in 0..count {
            samples.push(sample_of::<T>(self.in_way(way, depth, same), depth))?;
        }
        Ok(samples)
    }

    /// Draws `count` numbers in two's complement. Each is 0 unless the next number of `spare` bits is 0.
    pub fn signed<C: Coefficient>(
        &mut self,
        alloc: Global,
        count: usize,
        drawn: Signed,
    ) -> Result<Vec<C>, OutOfMemory>
        requires fit { drawn.bits ≤ C.BITS }
        ensures value { IfOk result (λ numbers. (map C.val numbers.items, self.new.state) ≡ drawn_signed count drawn self.old.state) }
        ensures long { IfOk result (λ numbers. length numbers.items ≡ count) }
        ensures fit { IfOk result (λ numbers. All (λ number. FitsBits drawn.bits (C.val number)) numbers.items) }
    {
        let same = self.same_for(drawn.way, drawn.bits);
        let mut numbers = Vec::new(alloc);
        for _ in 0..count {
            numbers.push(coefficient_of::<C>(self.one_signed(drawn, same), drawn.bits))?;
        }
        Ok(numbers)
    }

    fn one_signed(&mut self, drawn: Signed, same: u32) -> i32
        requires same { same < 2 ^ drawn.bits }
        ensures value { (result, self.new.state) ≡ signed_in_way drawn same self.old.state }
        ensures fits { FitsBits drawn.bits result }
    {
        if drawn.spare != 0 && self.bits(drawn.spare) != 0 {
            return 0;
        }
        centred(self.in_way(drawn.way, drawn.bits, same), drawn.bits)
    }
}

// The greatest number of this many bits.
#[tactic(auto, using(crate::proofs::Powers::power, std::proofs::lemmas::Nat::pow_pos))]
fn greatest(bits: u8) -> u32
    requires { bits ≤ 31 }
    ensures { result ≡ 2 ^ bits - 1 }
{
    (1 << bits) - 1
}

// Half of 2 to the power of `bits`.
#[tactic(auto, using(crate::proofs::Powers::power, crate::proofs::Powers::halves, crate::proofs::Powers::half_few))]
fn half(bits: u8) -> u32
    requires some { 1 ≤ bits }
    requires few { bits ≤ 20 }
    ensures value { result ≡ 2 ^ (bits - 1) }
    ensures twice { result + result ≡ 2 ^ bits }
    ensures most { result ≤ 524288 }
{
    1 << (bits - 1)
}

// The number as a signed number.
fn with_sign(number: u32) -> i32
    requires { number < 2 ^ 31 }
    ensures { result ≡ pos number }
{
    number as i32
}

// The number of `bits` bits in two's complement that is `number` above the least one.
fn centred(number: u32, bits: u8) -> i32
    requires some { 1 ≤ bits }
    requires few { bits ≤ 20 }
    requires within { number < 2 ^ bits }
    ensures value { result ≡ centred bits number }
    ensures fits { FitsBits bits result }
{
    let half = half(bits);
    with_sign(number) - with_sign(half)
}

// The number as a sample.
fn sample_of<T: Pixel>(number: u32, depth: u8) -> T
    requires deep { depth ≤ T.BITS }
    requires within { number < 2 ^ depth }
    ensures { T.num result ≡ number }
{
    T::from_u32(number)
}

// The number as a coefficient.
fn coefficient_of<C: Coefficient>(number: i32, bits: u8) -> C
    requires some { 1 ≤ bits }
    requires fit { bits ≤ C.BITS }
    requires within { FitsBits bits number }
    ensures { C.val result ≡ number }
{
    C::from_i32(number)
}
