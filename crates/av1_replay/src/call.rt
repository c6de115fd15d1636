//! Parses a call on one block by its kind, and replays it. Replaying allocates; does no I/O.

ghost use Rattle.std.specs.Prelude.{◌≡◌, ◌≤◌, length, IfErr, IfSome};
ghost use Rattle.av1_replay.specs.Calls.{call_before, format_of, kind_of};
ghost use Rattle.av1_replay.specs.Fields.{unread};
ghost use Rattle.av1_replay.specs.Rows.{depth_of};

use crate::answer::Answer;
use crate::availability::Availability;
use crate::called::Called;
use crate::edge::Edge;
use crate::error::CallFault;
use crate::fields::Fields;
use crate::intra::{FromLuma, Intra};
use crate::luma::DrawnLuma;
use crate::motion::{Average, Reference};
use crate::network::Network;
use crate::samples::{Format, Margins};
use crate::transform::DrawnTransform;
use std::alloc::Global;

/// A call on one block.
#[derive(Clone, Copy)]
pub enum BlockCall {
    /// Kind 2: a one-dimensional transform.
    Network(Network),
    /// Kind 3: the inverse transform of a block.
    Transform(DrawnTransform),
    /// Kind 4: prediction from a reference.
    Put(Reference, Margins),
    /// Kind 5: a prepared block of a reference.
    Prepare(Reference),
    /// Kind 6: the average of two prepared blocks.
    Average(Average),
    /// Kind 7: prediction by an intra mode.
    Intra(Intra),
    /// Kind 8: chroma from luma.
    FromLuma(FromLuma),
    /// Kind 9: the edge of a transform.
    Edge(Edge),
    /// Kind 10: luma's differences from its mean.
    Luma(DrawnLuma),
    /// Kind 11: which samples are coded before a transform.
    Availability(Availability),
}

impl BlockCall {
    /// Reads the next call, of the kind with this number: 2 to 11.
    pub fn read(kind: u8, fields: &mut Fields) -> Option<BlockCall>
        ensures known { IfSome result (λ call. kind ≡ kind_of call) }
        ensures found { IfSome result (λ call. unread fields.old ≡ call_before call (unread fields.new)) }
        ensures later { length (unread fields.new) ≤ length (unread fields.old) }
    {
        match kind {
            2 => Some(BlockCall::Network(Network::read(fields)?)),
            3 => Some(BlockCall::Transform(DrawnTransform::read(fields)?)),
            4 => {
                let reference = Reference::read(fields)?;
                let margins = Margins::read(fields)?;
                Some(BlockCall::Put(reference, margins))
            }
            5 => Some(BlockCall::Prepare(Reference::read(fields)?)),
            6 => Some(BlockCall::Average(Average::read(fields)?)),
            7 => Some(BlockCall::Intra(Intra::read(fields)?)),
            8 => Some(BlockCall::FromLuma(FromLuma::read(fields)?)),
            9 => Some(BlockCall::Edge(Edge::read(fields)?)),
            10 => Some(BlockCall::Luma(DrawnLuma::read(fields)?)),
            11 => Some(BlockCall::Availability(Availability::read(fields)?)),
            _ => None,
        }
    }

    /// The format of the call's samples. For a call without samples it is the format of 8 bits.
    fn format(&self) -> Format
        ensures { result ≡ format_of self.now }
    {
        match self {
            BlockCall::Network(_) | BlockCall::Availability(_) => Format::Short,
            BlockCall::Transform(transform) => transform.format,
            BlockCall::Put(reference, _) => reference.format,
            BlockCall::Prepare(reference) => reference.format,
            BlockCall::Average(average) => average.format,
            BlockCall::Intra(intra) => intra.format,
            BlockCall::FromLuma(from_luma) => from_luma.intra.format,
            BlockCall::Edge(edge) => edge.format,
            BlockCall::Luma(luma) => luma.format,
        }
    }

    /// Replays the call and returns its answer. The output is all that the call could write to: two bytes for each
    /// sample or 16-bit value, four for each value of a one-dimensional transform. The output of an edge is the part
    /// that the row asks for.
    ///
    /// # Errors
    ///
    /// `Memory`: an allocation failed.
    pub fn replay(&self, alloc: Global) -> Result<Answer, CallFault>
        ensures { IfErr result (λ fault. fault ≡ CallFault.Memory) }
    {
        match self.format() {
            Format::Short => self.replay_as::<u8>(alloc),
            _ => self.replay_as::<u16>(alloc),
        }
    }

    // Replays the call with samples of a type.
    fn replay_as<T: Called>(&self, alloc: Global) -> Result<Answer, CallFault>
        requires deep { depth_of (format_of self.now) ≤ T.Pixel.BITS }
        ensures { IfErr result (λ fault. fault ≡ CallFault.Memory) }
    {
        match self {
            BlockCall::Network(network) => network.replay(alloc),
            BlockCall::Transform(transform) => transform.replay_as::<T>(alloc),
            BlockCall::Put(reference, margins) => reference.put_as::<T>(alloc, *margins),
            BlockCall::Prepare(reference) => reference.prepare_as::<T>(alloc),
            BlockCall::Average(average) => average.replay_as::<T>(alloc),
            BlockCall::Intra(intra) => intra.replay_as::<T>(alloc),
            BlockCall::FromLuma(from_luma) => from_luma.replay_as::<T>(alloc),
            BlockCall::Edge(edge) => edge.replay_as::<T>(alloc),
            BlockCall::Luma(luma) => luma.replay_as::<T>(alloc),
            BlockCall::Availability(availability) => Ok(availability.replay(alloc)),
        }
    }
}
