//! The answers of calls, made from what a call wrote or read from a row. Only `to_answer` allocates.

ghost use Rattle.std.specs.Prelude.{◌≡◌, ◌↔◌, ◌≤◌, ℕ, List, [], length, min, IfOk, IfSome, IsTrue};
ghost use Rattle.std.specs.List.{flat_map};
ghost use Rattle.std.specs.Int.{cast_unsigned, to_le_bytes, w16, w32};
ghost use Rattle.av1_replay.specs.Answers.{wanted_before, Agrees, Tells};
ghost use Rattle.av1_replay.specs.Digest.{Holds};
ghost use Rattle.av1_replay.specs.Fields.{unread};

use crate::digest::Digest;
use crate::fields::Fields;
use av1_frame::Pixel;
use std::alloc::{AllocError, Global};

/// An answer: a status, a text, and the length and digest of what was written.
#[derive(Drop)]
pub struct Answer {
    pub status: u8,
    pub text: Vec<u8>,
    /// How many bytes were written, at most the last value of a `u32`.
    pub count: u32,
    /// The digest of these bytes.
    pub sum: u32,
}

impl Answer {
    /// An answer without a text.
    pub fn plain(alloc: Global, status: u8, digest: Digest) -> Answer
        ensures { (bytes : List ℕ) → Holds digest bytes → Tells result status [] bytes }
    {
        Answer {
            status,
            text: Vec::new(alloc),
            count: digest.count(),
            sum: digest.sum(),
        }
    }

    /// The answer of a call on a block with this status and these output samples: two bytes each.
    pub fn of_samples<T: Pixel>(alloc: Global, status: u32, samples: &[T]) -> Answer
        ensures { Tells result (min status 255) [] (flat_map (λ sample. to_le_bytes w16 (T.num sample)) samples.now) }
    {
        Answer::plain(alloc, short_status(status), digest_of(samples))
    }

    /// The answer of a call on a block with this status and these output numbers of 16 bits: two bytes each.
    pub fn of_shorts(alloc: Global, status: u32, numbers: &[i16]) -> Answer
        ensures { Tells result (min status 255) [] (flat_map (λ number. to_le_bytes w16 (cast_unsigned w16 number)) numbers.now) }
    {
        let mut digest = Digest::new();
        for number in numbers {
            digest.push_two(number.cast_unsigned());
        }
        Answer::plain(alloc, short_status(status), digest)
    }

    /// The answer of a call that rejects nothing, with these output numbers of 32 bits: four bytes each.
    pub fn of_numbers(alloc: Global, numbers: &[i32]) -> Answer
        ensures { Tells result 0 [] (flat_map (λ number. to_le_bytes w32 (cast_unsigned w32 number)) numbers.now) }
    {
        let mut digest = Digest::new();
        for number in numbers {
            digest.push_four(number.cast_unsigned());
        }
        Answer::plain(alloc, 0, digest)
    }
}

// The digest of samples: two bytes each.
fn digest_of<T: Pixel>(samples: &[T]) -> Digest
    ensures { Holds result (flat_map (λ sample. to_le_bytes w16 (T.num sample)) samples.now) }
{
    let mut digest = Digest::new();
    for sample in samples {
        digest.push_two(sample.to_u32() as u16);
    }
    digest
}

// The status of a call on a block as a byte. All statuses are small.
fn short_status(status: u32) -> u8
    ensures { result ≡ min status 255 }
{
    status.min(255) as u8
}

/// The answer that a row wants.
#[derive(Clone, Copy)]
pub struct Wanted<'a> {
    pub status: u8,
    pub text: &'a [u8],
    pub count: u32,
    pub sum: u32,
}

impl<'a> Wanted<'a> {
    /// Reads the next answer: its status, the length of a text and the text, the number of bytes and their digest.
    pub fn read(fields: &mut Fields<'a>) -> Option<Wanted<'a>>
        ensures found { IfSome result (λ wanted. unread fields.old ≡ wanted_before wanted (unread fields.new)) }
        ensures later { length (unread fields.new) ≤ length (unread fields.old) }
    {
        let status = fields.byte()?;
        let text = fields.short_part()?;
        let count = fields.four()?;
        let sum = fields.four()?;
        Some(Wanted {
            status,
            text,
            count,
            sum,
        })
    }

    /// Whether an answer is the wanted one.
    pub fn is(&self, came: &Answer) -> bool
        ensures { IsTrue result ↔ Agrees self.now came.now }
    {
        self.status == came.status
            && self.text == came.text.as_slice()
            && self.count == came.count
            && self.sum == came.sum
    }

    /// The wanted answer, in memory of its own.
    pub fn to_answer(&self, alloc: Global) -> Result<Answer, AllocError>
        ensures { IfOk result (λ answer. Agrees self.now answer) }
    {
        Ok(Answer {
            status: self.status,
            text: Vec::from_slice(alloc, self.text)?,
            count: self.count,
            sum: self.sum,
        })
    }
}
