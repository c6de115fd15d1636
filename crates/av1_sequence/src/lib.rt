//! Sequences of frames, each predicted from earlier ones: reads a source, writes shown frames. Allocates.
//!
//! A [`Sequence`] keeps eight slots between frames. A frame comes as a head and a part. The head says how the frame is
//! predicted, which slots its references name, and which slots the frame replaces. The part spells the leaves by the
//! plan grammar of `av1_plan`. The frame's plan is the plan of a single frame whose references are the planes of the
//! slots that it reads (`specs/Frames.antt`). `av1_tile` reconstructs it.
//!
//! A sequence holds all of its frames in samples of one type. A [`Sequence`] uses `u16`. A [`SequenceOf`] `u8` uses
//! bytes, for depth 8.
//!
//! A frame is reconstructed in the planes that keep it. It is padded once and moved to one of eight places. Slots name
//! places, so a frame that replaces several slots is kept once. A frame that replaces no slot is kept separately until
//! the next frame.
//!
//! The frame of a slot can be shown again. It is then the last frame, and the call can also put it into other slots.
//!
//! AV1 specification: reference frame update process, reference frame loading process, output process.
//!
//! What the calls promise (`specs/Outcomes.antt`):
//!
//! - [`Sequence::frame`] accepts exactly the frames whose plan is valid and not too large, unless memory runs out. The
//!   slots that the head replaces then have the visible planes of the slow definition, and the other slots are
//!   unchanged. A rejected frame changes nothing.
//! - [`Sequence::show_again`] shows the frame of a slot exactly if the slot is filled.
//! - So after any list of calls, only accepted frames and frames that were shown again have changed the slots
//!   (`specs/Calls.antt`).
#![tactic(auto)]

mod container;
mod error;
mod file;
mod head;
mod last;
mod laws;
mod leaves;
mod output;
mod pictures;
mod reconstruct;
mod sequence;

pub use container::read_sequence;
pub use error::{FrameError, FrameFault, SequenceError};
pub use file::{Entry, FrameText, SequenceFile};
pub use head::FrameHead;
pub use laws::{
    accepted_alone_count, plans_have_their_length, sequence_outcome_laws, sequences_are_texts,
};
pub use reconstruct::reconstruct_sequence;
pub use sequence::{Sequence, SequenceOf};
