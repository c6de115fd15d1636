//! A line of text in a fixed array, to which text and numbers are appended. Changes only itself, never allocates.
ghost use Rattle.std.specs.Prelude.{◌≡◌, ℕ, ◌+◌, ◌≤◌, List, [], ◌++◌, length, take, decimal};
ghost use Rattle.av1_streams.specs.declared.line.TheConstants.{LINE_BYTES};

use std::marker::Model;

/// The greatest number of bytes of a line.
pub const LINE_BYTES: usize = 128;

/// A line of text, built without allocating. Clauses see its bytes.
#[derive(Drop)]
pub struct Line {
    bytes: [u8; LINE_BYTES],
    len: usize,
}

impl Model for Line {
    ghost Value = { List ℕ };

    ghost view = { λ line. take line.len line.bytes };

    ghost invariant = { λ line. line.len ≤ LINE_BYTES };
}

impl Line {
    /// An empty line.
    pub fn new() -> Line
        ensures { result ≡ [] }
    {
        Line {
            bytes: [0; LINE_BYTES],
            len: 0,
        }
    }

    /// Appends a text that fits.
    pub fn push(&mut self, text: &[u8])
        requires { length self.old + length text.now ≤ LINE_BYTES }
        ensures { self.new ≡ self.old ++ text.now }
    {
        let end = self.len + text.len();
        self.bytes[self.len..end].copy_from_slice(text);
        self.len = end;
    }

    /// Appends a number in decimal: at most 20 digits.
    #[tactic(auto, using(crate::proofs::Digits::lengths))]
    pub fn push_number(&mut self, number: u64)
        requires { length self.old + 20 ≤ LINE_BYTES }
        ensures bytes { self.new ≡ self.old ++ decimal number }
        ensures short { length self.new ≤ length self.old + 20 }
    {
        self.push_digits(number);
    }

    // Appends the digits before the last one, and then the last one.
    #[tactic(auto, using(crate::proofs::Digits::lengths, std::proofs::lemmas::Fmt::decimal_step, std::proofs::lemmas::Fmt::decimal_digit, std::proofs::lemmas::List::append_assoc))]
    fn push_digits(&mut self, number: u64)
        requires { length self.old + length (decimal number) ≤ LINE_BYTES }
        ensures { self.new ≡ self.old ++ decimal number }
    {
        if number < 10 {
            return self.push(&[b'0' + number as u8]);
        }
        self.push_digits(number / 10);
        self.push(&[b'0' + (number % 10) as u8]);
    }

    /// The bytes of the line so far.
    pub fn as_bytes(&self) -> &[u8]
        ensures { result.now ≡ self.now }
    {
        &self.bytes[..self.len]
    }
}
