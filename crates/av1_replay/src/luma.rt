//! Parses calls that give how far luma is from its mean, and replays them on drawn luma. Replaying allocates.

ghost use Rattle.std.specs.Prelude.{◌≡◌, ◌≤◌, length, IfErr, IfSome};
ghost use Rattle.av1_replay.specs.Calls.{luma_before};
ghost use Rattle.av1_replay.specs.Fields.{unread};
ghost use Rattle.av1_replay.specs.Rows.{depth_of};

use crate::answer::Answer;
use crate::called::Called;
use crate::drawn::Numbers;
use crate::error::CallFault;
use crate::fields::Fields;
use crate::samples::{Format, Margins};
use crate::way::Way;
use av1_blocks::BlockSize;
use av1_calls::CflBlock;
use std::alloc::Global;

/// How many values follow the block's own values.
const BEHIND: usize = 4;

/// A block of chroma, and drawn luma over it.
#[derive(Clone, Copy)]
pub struct DrawnLuma {
    pub(crate) format: Format,
    block_size: u8,
    xdec: u8,
    ydec: u8,
    w_pad: u8,
    h_pad: u8,
    margins: Margins,
    way: Way,
    seed: u32,
}

impl DrawnLuma {
    /// Reads the next call of this kind.
    pub fn read(fields: &mut Fields) -> Option<DrawnLuma>
        ensures found { IfSome result (λ luma. unread fields.old ≡ luma_before luma (unread fields.new)) }
        ensures later { length (unread fields.new) ≤ length (unread fields.old) }
    {
        let format = Format::read(fields)?;
        let block_size = fields.byte()?;
        let xdec = fields.byte()?;
        let ydec = fields.byte()?;
        let w_pad = fields.byte()?;
        let h_pad = fields.byte()?;
        let margins = Margins::read(fields)?;
        let way = Way::read(fields)?;
        let seed = fields.four()?;
        Some(DrawnLuma {
            format,
            block_size,
            xdec,
            ydec,
            w_pad,
            h_pad,
            margins,
            way,
            seed,
        })
    }

    fn block(&self) -> CflBlock {
        CflBlock {
            block_size: self.block_size,
            xdec: self.xdec,
            ydec: self.ydec,
            w_pad: usize::from(self.w_pad),
            h_pad: usize::from(self.h_pad),
        }
    }

    // The dimensions of the block, which are 0 if no size has its number.
    fn sides(&self) -> (usize, usize)
        ensures { (result.0 ≤ 128) × (result.1 ≤ 128) }
    {
        match BlockSize::from_number(self.block_size) {
            Some(size) => (size.width(), size.height()),
            None => (0, 0),
        }
    }

    /// The answer: all values, including the 4 that follow the block's own. All values were 77 before the call. The
    /// call rejects an invalid decimation. Luma is then drawn as for a decimation of 1.
    #[tactic(auto, using(crate::proofs::Rectangles::bytes_few))]
    pub fn replay_as<T: Called>(&self, alloc: Global) -> Result<Answer, CallFault>
        requires deep { depth_of self.now.format ≤ T.Pixel.BITS }
        ensures { IfErr result (λ fault. fault ≡ CallFault.Memory) }
    {
        let depth = self.format.depth();
        let (width, height) = self.sides();
        let mut differences = vec![in alloc; 77; width * height + BEHIND]?;
        let columns = if self.xdec == 0 { width } else { 2 * width };
        let rows = if self.ydec == 0 { height } else { 2 * height };
        let target = self.margins.round(columns, rows);
        let mut numbers = Numbers::new(self.seed);
        let samples = numbers.samples::<T>(alloc, target.count, depth, self.way)?;
        let status = T::put_differences(
            &mut differences,
            &samples,
            target.stride,
            target,
            &self.block(),
        );
        Ok(Answer::of_shorts(alloc, status, &differences))
    }
}
