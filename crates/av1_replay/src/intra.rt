//! Parses calls that predict by an intra mode or from luma, and replays them on drawn edges. Replaying allocates.

ghost use Rattle.std.specs.Prelude.{◌≡◌, ◌≤◌, IfErr, IfSome, length};
ghost use Rattle.av1_replay.specs.Fields.{unread};
ghost use Rattle.av1_replay.specs.Rows.{depth_of};

use crate::answer::Answer;
use crate::called::{BlockSides, Called};
use crate::drawn::Numbers;
use crate::error::CallFault;
use crate::fields::Fields;
use crate::samples::{Format, Margins, Target};
use crate::way::{Signed, Way};
use av1_blocks::TxSize;
use av1_calls::IntraBlock;
use std::alloc::Global;

/// A block that is predicted from drawn sides, and its position in drawn samples.
#[derive(Clone, Copy)]
pub struct Intra {
    pub(crate) format: Format,
    mode: u8,
    size: TxSize,
    angle_step: i8,
    has_left: u8,
    has_above: u8,
    edge_filter: u8,
    smooth_neighbour: u8,
    visible_columns: u16,
    visible_rows: u16,
    left: u8,
    above: u8,
    margins: Margins,
    way: Way,
    seed: u32,
}

// The sides of a block, and the samples that contain it.
#[derive(Drop)]
struct Drawn<T> {
    left: Vec<T>,
    corner: T,
    above: Vec<T>,
    samples: Vec<T>,
}

impl Intra {
    ghost use Rattle.av1_replay.specs.Calls.{intra_before};

    /// Reads the next call of this kind.
    pub fn read(fields: &mut Fields) -> Option<Intra>
        ensures found { IfSome result (λ intra. unread fields.old ≡ intra_before intra (unread fields.new)) }
        ensures later { length (unread fields.new) ≤ length (unread fields.old) }
    {
        Some(Intra {
            format: Format::read(fields)?,
            mode: fields.byte()?,
            size: TxSize::from_number(fields.byte()?)?,
            angle_step: fields.signed()?,
            has_left: fields.byte()?,
            has_above: fields.byte()?,
            edge_filter: fields.byte()?,
            smooth_neighbour: fields.byte()?,
            visible_columns: fields.two()?,
            visible_rows: fields.two()?,
            left: fields.byte()?,
            above: fields.byte()?,
            margins: Margins::read(fields)?,
            way: Way::read(fields)?,
            seed: fields.four()?,
        })
    }

    fn block(&self) -> IntraBlock {
        IntraBlock {
            mode: self.mode,
            tx_size: self.size.number(),
            angle_step: self.angle_step,
            bit_depth: self.format.depth(),
            has_left: self.has_left,
            has_above: self.has_above,
            edge_filter: self.edge_filter,
            smooth_neighbour: self.smooth_neighbour,
            visible_columns: usize::from(self.visible_columns),
            visible_rows: usize::from(self.visible_rows),
        }
    }

    fn target(&self) -> Target {
        self.margins.round(self.size.width(), self.size.height())
    }

    // Draws the left side, the corner, the side above and the samples.
    fn draw<T: Called>(&self, alloc: Global, numbers: &mut Numbers) -> Result<Drawn<T>, CallFault>
        requires deep { depth_of self.now.format ≤ T.Pixel.BITS }
        ensures { IfErr result (λ fault. fault ≡ CallFault.Memory) }
    {
        let depth = self.format.depth();
        let left = numbers.samples(alloc, usize::from(self.left), depth, self.way)?;
        let corner = numbers.sample(depth, self.way);
        let above = numbers.samples(alloc, usize::from(self.above), depth, self.way)?;
        let samples = numbers.samples(alloc, self.target().count, depth, Way::Any)?;
        Ok(Drawn {
            left,
            corner,
            above,
            samples,
        })
    }

    /// The answer: all samples.
    pub fn replay_as<T: Called>(&self, alloc: Global) -> Result<Answer, CallFault>
        requires deep { depth_of self.now.format ≤ T.Pixel.BITS }
        ensures { IfErr result (λ fault. fault ≡ CallFault.Memory) }
    {
        let drawn: Drawn<T> = self.draw(alloc, &mut Numbers::new(self.seed))?;
        let mut samples = drawn.samples;
        let sides = BlockSides {
            left: &drawn.left,
            corner: drawn.corner,
            above: &drawn.above,
        };
        let status = T::predict(&mut samples, self.target(), &self.block(), sides);
        Ok(Answer::of_samples(alloc, status, &samples))
    }
}

/// Chroma from luma: a block that is predicted from drawn sides, and drawn differences of luma.
#[derive(Clone, Copy)]
pub struct FromLuma {
    pub(crate) intra: Intra,
    alpha: i8,
    drawn: Signed,
    ghost short: { drawn.bits ≤ 16 },
}

impl FromLuma {
    ghost use Rattle.av1_replay.specs.Calls.{from_luma_before};

    /// Reads the next call of this kind. Differences have at most 16 bits.
    pub fn read(fields: &mut Fields) -> Option<FromLuma>
        ensures found { IfSome result (λ from_luma. unread fields.old ≡ from_luma_before from_luma (unread fields.new)) }
        ensures later { length (unread fields.new) ≤ length (unread fields.old) }
    {
        let intra = Intra::read(fields)?;
        let alpha = fields.signed()?;
        let drawn = Signed::read(fields)?;
        if 16 < drawn.bits {
            return None;
        }
        Some(FromLuma {
            intra,
            alpha,
            drawn,
        })
    }

    /// The answer: all samples.
    pub fn replay_as<T: Called>(&self, alloc: Global) -> Result<Answer, CallFault>
        requires deep { depth_of self.now.intra.format ≤ T.Pixel.BITS }
        ensures { IfErr result (λ fault. fault ≡ CallFault.Memory) }
    {
        let intra = self.intra;
        let mut numbers = Numbers::new(intra.seed);
        let differences = numbers.signed::<i16>(alloc, intra.size.area(), self.drawn)?;
        let drawn: Drawn<T> = intra.draw(alloc, &mut numbers)?;
        let mut samples = drawn.samples;
        let sides = BlockSides {
            left: &drawn.left,
            corner: drawn.corner,
            above: &drawn.above,
        };
        let status = T::predict_from_luma(
            &mut samples,
            intra.target(),
            &intra.block(),
            sides,
            &differences,
            i16::from(self.alpha),
        );
        Ok(Answer::of_samples(alloc, status, &samples))
    }
}
