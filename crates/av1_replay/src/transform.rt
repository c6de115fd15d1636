//! Parses calls of inverse transforms, and replays them on drawn coefficients. Replaying allocates.

ghost use Rattle.std.specs.Prelude.{◌≡◌, true, ◌+◌, ◌≤◌, IfErr, IfSome, IsTrue, length};
ghost use Rattle.av1_blocks.specs.Transforms.{valid_av1_transform};
ghost use Rattle.av1_blocks.specs.declared.transform.TxSize.TheVariants.{TX_4X4};
ghost use Rattle.av1_blocks.specs.declared.transform.TxType.TheVariants.{WHT_WHT};
ghost use Rattle.av1_replay.specs.Fields.{unread};
ghost use Rattle.av1_replay.specs.Rows.{depth_of};

use crate::answer::Answer;
use crate::drawn::Numbers;
use crate::error::CallFault;
use crate::fields::Fields;
use crate::samples::{Format, Margins};
use crate::way::{Signed, Way};
use av1_blocks::{TxSize, TxType, valid_av1_transform};
use av1_frame::{Coefficient, Pixel};
use av1_itx::{TxScratch, inverse_transform_add_to};
use std::alloc::Global;

/// The residual of drawn coefficients, added to drawn samples.
#[derive(Clone, Copy)]
pub struct DrawnTransform {
    size: TxSize,
    kind: TxType,
    pub(crate) format: Format,
    drawn: Signed,
    margins: Margins,
    seed: u32,
    ghost valid: { IsTrue (valid_av1_transform size kind) },
    ghost lossless: { kind ≡ WHT_WHT → size ≡ TX_4X4 },
    ghost fits: { drawn.bits ≤ depth_of format + 8 },
}

impl DrawnTransform {
    ghost use Rattle.av1_replay.specs.Calls.{transform_before};

    /// Reads the next call of this kind. Its size has the type, and coefficients have at most 8 bits more than the
    /// depth.
    #[tactic(auto, using(crate::proofs::Numbered::size_numbered, crate::proofs::Numbered::type_numbered))]
    pub fn read(fields: &mut Fields) -> Option<DrawnTransform>
        ensures found { IfSome result (λ transform. unread fields.old ≡ transform_before transform (unread fields.new)) }
        ensures later { length (unread fields.new) ≤ length (unread fields.old) }
    {
        let size = TxSize::from_number(fields.byte()?)?;
        let kind = TxType::from_number(fields.byte()?)?;
        let format = Format::read(fields)?;
        let drawn = Signed::read(fields)?;
        let margins = Margins::read(fields)?;
        let seed = fields.four()?;
        if !has_type(size, kind) || format.depth() + 8 < drawn.bits {
            return None;
        }
        Some(DrawnTransform {
            size,
            kind,
            format,
            drawn,
            margins,
            seed,
        })
    }

    /// The answer: all samples.
    pub fn replay_as<T: Pixel>(&self, alloc: Global) -> Result<Answer, CallFault>
        requires deep { depth_of self.now.format ≤ T.BITS }
        ensures { IfErr result (λ fault. fault ≡ CallFault.Memory) }
    {
        let depth = self.format.depth();
        let mut numbers = Numbers::new(self.seed);
        let input = numbers.signed::<T::Coeff>(alloc, self.size.coded_area(), self.drawn)?;
        let target = self.margins.round(self.size.width(), self.size.height());
        let mut samples = numbers.samples::<T>(alloc, target.count, depth, Way::Any)?;
        let mut scratch = TxScratch::new(alloc)?;
        inverse_transform_add_to(
            &mut scratch,
            &input,
            &mut samples,
            target.stride,
            target.area,
            self.size,
            self.kind,
            usize::from(depth),
        );
        Ok(Answer::of_samples(alloc, 0, &samples))
    }
}

// Whether the size has an inverse transform of this type.
fn has_type(size: TxSize, kind: TxType) -> bool
    ensures valid { result ≡ true → IsTrue (valid_av1_transform size kind) }
    ensures lossless { result ≡ true → kind ≡ WHT_WHT → size ≡ TX_4X4 }
{
    valid_av1_transform(size, kind) && (kind != TxType::WHT_WHT || size == TxSize::TX_4X4)
}
