//! Theorems about sequences. Each function does nothing: its contract is the theorem.

ghost use Rattle.av1_sequence.specs.Calls.{AcceptedAloneCount};
ghost use Rattle.av1_sequence.specs.Files.{BytesHaveAnOutcome, OutcomesAreOne};
ghost use Rattle.av1_sequence.specs.Frames.{PlansHaveTheirLength};
ghost use Rattle.av1_sequence.specs.Texts.{FoundAtText, RefusedAtLongest};

/// A law: only accepted frames and frames that are shown again change a sequence. Take any list of calls of
/// [`Sequence::frame`](crate::Sequence::frame) and [`Sequence::show_again`](crate::Sequence::show_again). These frames,
/// one after the other, replace slots of the sequence. The last frame is the last of these. A call that rejects its
/// frame changes nothing.
pub fn accepted_alone_count()
    ensures { AcceptedAloneCount }
{}

/// A law: each input has exactly one outcome as a sequence of frames, with exactly one output. So there is one first
/// rejected entry, with one reason.
pub fn sequence_outcome_laws()
    ensures some { BytesHaveAnOutcome }
    ensures one { OutcomesAreOne }
{}

/// A law: bytes are a sequence exactly if they are its text. Other bytes are rejected where the longest valid list of
/// fields at their front ends. In a valid list each field is valid after the fields before it.
pub fn sequences_are_texts()
    ensures found { FoundAtText }
    ensures refused { RefusedAtLongest }
{}

/// A law: the length that [`Sequence::frame`](crate::Sequence::frame) compares with the limit of `TooLarge` is the
/// length of the frame's plan. The text of the plan is the bytes of its header, the bytes of its references and the
/// part, one after the other ([`av1_plan::pieces_are_a_plan`]).
pub fn plans_have_their_length()
    ensures { PlansHaveTheirLength }
{}
