//! Parses calls of one-dimensional transforms, and replays them on drawn values. Replaying allocates.

ghost use Rattle.std.specs.Prelude.{◌≡◌, ◌≤◌, All, IfErr, IfSome, length};
ghost use Rattle.av1_dct.specs.Arithmetic.{FitsBits};
ghost use Rattle.av1_replay.specs.Fields.{unread};

use crate::answer::Answer;
use crate::drawn::Numbers;
use crate::error::CallFault;
use crate::fields::Fields;
use crate::way::Signed;
use av1_dct::{av1_idct4, av1_idct8, av1_idct16, av1_idct32, av1_idct64};
use av1_itx::{
    av1_iadst4, av1_iadst8, av1_iadst16, av1_iflipadst4, av1_iflipadst8, av1_iflipadst16,
    av1_iidentity4, av1_iidentity8, av1_iidentity16, av1_iidentity32, av1_iwht4,
};
use std::alloc::Global;

/// The greatest number of values of a transform.
const MOST: usize = 64;

/// A one-dimensional transform of drawn values.
#[derive(Clone, Copy)]
pub struct Network {
    number: u8,
    range: u8,
    drawn: Signed,
    seed: u32,
    ghost least: { 8 ≤ range },
    ghost most: { range ≤ 20 },
    ghost fits: { drawn.bits ≤ range },
}

impl Network {
    ghost use Rattle.av1_replay.specs.Calls.{network_before};

    /// Reads the next call of this kind. The range is from 8 to 20 bits, and values have at most as many bits.
    pub fn read(fields: &mut Fields) -> Option<Network>
        ensures found { IfSome result (λ network. unread fields.old ≡ network_before network (unread fields.new)) }
        ensures later { length (unread fields.new) ≤ length (unread fields.old) }
    {
        let number = fields.byte()?;
        let range = fields.byte()?;
        let drawn = Signed::read(fields)?;
        let seed = fields.four()?;
        if 15 < number || range < 8 || 20 < range || range < drawn.bits {
            return None;
        }
        Some(Network {
            number,
            range,
            drawn,
            seed,
        })
    }

    /// The answer: 64 numbers. Numbers past the transform's length stay -1.
    pub fn replay(&self, alloc: Global) -> Result<Answer, CallFault>
        ensures { IfErr result (λ fault. fault ≡ CallFault.Memory) }
    {
        let input = Numbers::new(self.seed).signed::<i32>(alloc, MOST, self.drawn)?;
        let mut output = [-1; MOST];
        let range = usize::from(self.range);
        match self.number {
            0..=4 => cosine(self.number, &input, &mut output, range),
            5..=10 => sine(self.number, &input, &mut output, range),
            _ => rest(self.number, &input, &mut output, range),
        }
        Ok(Answer::of_numbers(alloc, &output))
    }
}

#[tactic(auto, using(crate::proofs::Fitting::front_fits))]
fn cosine(number: u8, input: &[i32], output: &mut [i32], range: usize)
    requires least { 8 ≤ range }
    requires most { range ≤ 20 }
    requires input { length input.now ≡ 64 }
    requires output { length output.old ≡ 64 }
    requires fit { All (FitsBits range) input.now }
{
    match number {
        0 => av1_idct4(input, output, range),
        1 => av1_idct8(input, output, range),
        2 => av1_idct16(input, output, range),
        3 => av1_idct32(input, output, range),
        _ => av1_idct64(input, output, range),
    }
}

fn sine(number: u8, input: &[i32], output: &mut [i32], range: usize)
    requires least { 8 ≤ range }
    requires most { range ≤ 20 }
    requires input { length input.now ≡ 64 }
    requires output { length output.old ≡ 64 }
    requires fit { All (FitsBits range) input.now }
{
    match number {
        5 => av1_iadst4(input, output, range),
        6 => av1_iadst8(input, output, range),
        7 => av1_iadst16(input, output, range),
        8 => av1_iflipadst4(input, output, range),
        9 => av1_iflipadst8(input, output, range),
        _ => av1_iflipadst16(input, output, range),
    }
}

// The identities and the Walsh-Hadamard transform.
fn rest(number: u8, input: &[i32], output: &mut [i32], range: usize)
    requires least { 8 ≤ range }
    requires most { range ≤ 20 }
    requires input { length input.now ≡ 64 }
    requires output { length output.old ≡ 64 }
    requires fit { All (FitsBits range) input.now }
{
    match number {
        11 => av1_iidentity4(input, output, range),
        12 => av1_iidentity8(input, output, range),
        13 => av1_iidentity16(input, output, range),
        14 => av1_iidentity32(input, output, range),
        _ => av1_iwht4(input, output, range),
    }
}
