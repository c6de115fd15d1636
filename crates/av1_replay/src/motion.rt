//! Parses calls that predict, prepare or average blocks, and replays them on drawn samples. Replaying allocates.

ghost use Rattle.std.specs.Prelude.{◌≡◌, ◌+◌, ◌^◌, ◌<◌, ◌≤◌, All, IfErr, IfOk, IfSome, length};
ghost use Rattle.av1_replay.specs.Fields.{unread};
ghost use Rattle.av1_replay.specs.Rows.{depth_of};

use crate::answer::Answer;
use crate::called::Called;
use crate::drawn::Numbers;
use crate::error::CallFault;
use crate::fields::Fields;
use crate::samples::{Format, Margins};
use crate::way::{Signed, Way};
use av1_blocks::OutOfMemory;
use av1_calls::{MotionBlock, RAV1E_SHARP, SHARP};
use std::alloc::Global;

/// How many more columns and rows than the block's own are read: 3 before the block, and 4 after it.
const ROUND: usize = 7;

/// How many values follow the values of a prepared block.
const BEHIND: usize = 4;

/// The number that a call has for one of rav1e's filters. A number that is not one of rav1e's four stays invalid.
fn filter_of(number: u8) -> u8 {
    match number {
        SHARP => RAV1E_SHARP,
        RAV1E_SHARP => u8::MAX,
        _ => number,
    }
}

/// A block of drawn samples of a reference.
#[derive(Clone, Copy)]
pub struct Reference {
    pub(crate) format: Format,
    width: u8,
    height: u8,
    col_frac: u8,
    row_frac: u8,
    filter_x: u8,
    filter_y: u8,
    way: Way,
    seed: u32,
}

impl Reference {
    ghost use Rattle.av1_replay.specs.Calls.{reference_before};

    /// Reads the next call of this kind.
    pub fn read(fields: &mut Fields) -> Option<Reference>
        ensures found { IfSome result (λ reference. unread fields.old ≡ reference_before reference (unread fields.new)) }
        ensures later { length (unread fields.new) ≤ length (unread fields.old) }
    {
        let format = Format::read(fields)?;
        let width = fields.byte()?;
        let height = fields.byte()?;
        let col_frac = fields.byte()?;
        let row_frac = fields.byte()?;
        let filter_x = fields.byte()?;
        let filter_y = fields.byte()?;
        let way = Way::read(fields)?;
        let seed = fields.four()?;
        Some(Reference {
            format,
            width,
            height,
            col_frac,
            row_frac,
            filter_x,
            filter_y,
            way,
            seed,
        })
    }

    fn block(&self) -> MotionBlock {
        MotionBlock {
            width: usize::from(self.width),
            height: usize::from(self.height),
            col_frac: self.col_frac,
            row_frac: self.row_frac,
            filter_x: filter_of(self.filter_x),
            filter_y: filter_of(self.filter_y),
        }
    }

    // The distance between the starts of two rows, in samples.
    fn stride(&self) -> usize
        ensures { result ≡ self.now.width + 7 }
    {
        usize::from(self.width) + ROUND
    }

    // All samples that are read for the block.
    #[tactic(auto, using(crate::proofs::Rectangles::bytes_few))]
    fn samples<T: Called>(
        &self,
        alloc: Global,
        numbers: &mut Numbers,
    ) -> Result<Vec<T>, OutOfMemory>
        requires deep { depth_of self.now.format ≤ T.Pixel.BITS }
        ensures within { IfOk result (λ samples. All (λ sample. T.Pixel.num sample < 2 ^ depth_of self.now.format) samples.items) }
    {
        let count = (usize::from(self.height) + ROUND) * self.stride();
        numbers.samples(alloc, count, self.format.depth(), self.way)
    }

    /// The answer of a call that prepares the block: all values, including the 4 that follow the block's own.
    #[tactic(auto, using(crate::proofs::Rectangles::bytes_few))]
    pub fn prepare_as<T: Called>(&self, alloc: Global) -> Result<Answer, CallFault>
        requires deep { depth_of self.now.format ≤ T.Pixel.BITS }
        ensures { IfErr result (λ fault. fault ≡ CallFault.Memory) }
    {
        let count = usize::from(self.width) * usize::from(self.height) + BEHIND;
        let mut values = vec![in alloc; 77; count]?;
        let samples = self.samples::<T>(alloc, &mut Numbers::new(self.seed))?;
        let depth = self.format.depth();
        let status = T::prepare(&mut values, &samples, self.stride(), &self.block(), depth);
        Ok(Answer::of_shorts(alloc, status, &values))
    }

    /// The answer of a call that predicts the block into drawn samples with these margins: all samples.
    pub fn put_as<T: Called>(&self, alloc: Global, margins: Margins) -> Result<Answer, CallFault>
        requires deep { depth_of self.now.format ≤ T.Pixel.BITS }
        ensures { IfErr result (λ fault. fault ≡ CallFault.Memory) }
    {
        let depth = self.format.depth();
        let mut numbers = Numbers::new(self.seed);
        let samples = self.samples::<T>(alloc, &mut numbers)?;
        let target = margins.round(usize::from(self.width), usize::from(self.height));
        let mut to = numbers.samples::<T>(alloc, target.count, depth, Way::Any)?;
        let (stride, block) = (self.stride(), self.block());
        let status = T::put(&mut to, target, &samples, stride, &block, depth);
        Ok(Answer::of_samples(alloc, status, &to))
    }
}

/// Two blocks of drawn values, whose average is written to drawn samples.
#[derive(Clone, Copy)]
pub struct Average {
    pub(crate) format: Format,
    width: u8,
    height: u8,
    margins: Margins,
    drawn: Signed,
    seed: u32,
    ghost short: { drawn.bits ≤ 16 },
}

impl Average {
    ghost use Rattle.av1_replay.specs.Calls.{average_before};

    /// Reads the next call of this kind. Values have at most 16 bits.
    pub fn read(fields: &mut Fields) -> Option<Average>
        ensures found { IfSome result (λ average. unread fields.old ≡ average_before average (unread fields.new)) }
        ensures later { length (unread fields.new) ≤ length (unread fields.old) }
    {
        let format = Format::read(fields)?;
        let width = fields.byte()?;
        let height = fields.byte()?;
        let margins = Margins::read(fields)?;
        let drawn = Signed::read(fields)?;
        let seed = fields.four()?;
        if 16 < drawn.bits {
            return None;
        }
        Some(Average {
            format,
            width,
            height,
            margins,
            drawn,
            seed,
        })
    }

    /// The answer: all samples.
    #[tactic(auto, using(crate::proofs::Rectangles::bytes_few))]
    pub fn replay_as<T: Called>(&self, alloc: Global) -> Result<Answer, CallFault>
        requires deep { depth_of self.now.format ≤ T.Pixel.BITS }
        ensures { IfErr result (λ fault. fault ≡ CallFault.Memory) }
    {
        let depth = self.format.depth();
        let (width, height) = (usize::from(self.width), usize::from(self.height));
        let mut numbers = Numbers::new(self.seed);
        let first = numbers.signed::<i16>(alloc, width * height, self.drawn)?;
        let second = numbers.signed::<i16>(alloc, width * height, self.drawn)?;
        let target = self.margins.round(width, height);
        let mut to = numbers.samples::<T>(alloc, target.count, depth, Way::Any)?;
        let status = T::average(&mut to, target, &first, &second, depth);
        Ok(Answer::of_samples(alloc, status, &to))
    }
}
