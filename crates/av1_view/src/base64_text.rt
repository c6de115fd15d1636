//! Writes bytes in base64 to a sink, piece by piece, through a fixed buffer. Does not allocate.
ghost use Rattle.std.specs.Prelude.{◌≡◌, ℕ, ◌+◌, ◌*◌, ◌<◌, ◌≤◌, List, [], ◌++◌, OnOk, drop, length, take};
ghost use Rattle.std.specs.Io.KnownBytes.{Appends};
ghost use Rattle.av1_streams.specs.Faults.{HasCause};
ghost use Rattle.av1_streams.specs.Streams.{AppendsPrefix};
ghost use Rattle.av1_view.specs.declared.base64_text.TheConstants.{MOST_LETTERS};
ghost use Rattle.av1_view.specs.Base64.{base64_text, group, letter};

use av1_streams::{Sink, WriteFault, write_bytes};
use std::marker::Model;

// The number of bytes that are encoded at once: whole groups of three.
const MOST_BYTES: usize = 3072;

// The number of letters of these bytes.
const MOST_LETTERS: usize = 4096;

/// Appends bytes in base64 to the sink. The first write that fails ends the call, and the sink has a prefix of the
/// letters.
pub fn write_base64<W: Sink>(bytes: &[u8], sink: &mut W) -> Result<(), WriteFault>
    ensures whole { OnOk result (Appends (W.taken sink.old) (W.taken sink.new) (base64_text bytes.now)) }
    ensures prefix { AppendsPrefix (W.taken sink.old) (W.taken sink.new) (base64_text bytes.now) }
    ensures cause { HasCause (W.faults sink.old) (W.faults sink.new) result }
{
    let mut letters = Letters::new();
    let mut at = 0;
    'pieces: while at < bytes.len() {
        let count = (bytes.len() - at).min(MOST_BYTES);
        letters.encode(&bytes[at..at + count]);
        write_bytes(sink, letters.as_bytes())?;
        at += count;
    }
    Ok(())
}

// The letter of a number of 6 bits.
fn letter(number: usize) -> u8
    requires { number < 64 }
    ensures { result ≡ letter number }
{
    b"ABCDEFGHIJKLMNOPQRSTUVWXYZabcdefghijklmnopqrstuvwxyz0123456789+/"[number]
}

// The four letters of three bytes.
fn group(a: u8, b: u8, c: u8) -> [u8; 4]
    ensures { result ≡ group a b c }
{
    let [a, b, c] = [usize::from(a), usize::from(b), usize::from(c)];
    [
        letter(a / 4),
        letter(a % 4 * 16 + b / 16),
        letter(b % 16 * 4 + c / 64),
        letter(c % 64),
    ]
}

// The letters of the first group of some bytes. The group may lack one or two bytes.
#[tactic(auto, unfolding(crate::specs::Base64::base64_text))]
fn first_letters(bytes: &[u8]) -> [u8; 4]
    requires { 0 < length bytes.now }
    ensures { base64_text bytes.now ≡ result ++ base64_text (drop 3 bytes.now) }
{
    match bytes {
        [] => [0; 4],
        [a] => {
            let [x, y, _, _] = group(*a, 0, 0);
            [x, y, b'=', b'=']
        }
        [a, b] => {
            let [x, y, z, _] = group(*a, *b, 0);
            [x, y, z, b'=']
        }
        [a, b, c, ..] => group(*a, *b, *c),
    }
}

// A buffer of the letters that are written at once. Contracts see its letters.
#[derive(Drop)]
struct Letters {
    letters: [u8; MOST_LETTERS],
    len: usize,
}

impl Model for Letters {
    ghost Value = { List ℕ };

    ghost view = { λ letters. take letters.len letters.letters };

    ghost invariant = { λ letters. letters.len ≤ MOST_LETTERS };
}

impl Letters {
    // No letters.
    fn new() -> Letters
        ensures { result ≡ [] }
    {
        Letters {
            letters: [0; MOST_LETTERS],
            len: 0,
        }
    }

    // The letters so far.
    fn as_bytes(&self) -> &[u8]
        ensures { result.now ≡ self.now }
    {
        &self.letters[..self.len]
    }

    // Removes all letters.
    fn clear(&mut self)
        ensures { self.new ≡ [] }
    {
        self.len = 0;
    }

    // Appends four letters.
    fn push(&mut self, four: [u8; 4])
        requires { length self.old + 4 ≤ MOST_LETTERS }
        ensures { self.new ≡ self.old ++ four }
    {
        let end = self.len + 4;
        self.letters[self.len..end].copy_from_slice(&four);
        self.len = end;
    }

    // Replaces the letters by those of some bytes.
    fn encode(&mut self, bytes: &[u8])
        requires { length bytes.now ≤ 3072 }
        ensures { self.new ≡ base64_text bytes.now }
    {
        self.clear();
        let whole = bytes.len() / 3;
        'groups: for k in 0..whole {
            self.push(group(bytes[3 * k], bytes[3 * k + 1], bytes[3 * k + 2]));
        }
        if 3 * whole < bytes.len() {
            self.push(first_letters(&bytes[3 * whole..]));
        }
    }
}
