//! Computes the CRC-32 of bytes that are added one after the other. Changes only itself.

ghost use Rattle.std.specs.Prelude.{◌≡◌, ℕ, ◌-◌, ◌^◌, List, [], ◌∷◌, ◌++◌, length, min};
ghost use Rattle.std.specs.Int.{to_le_bytes, w16, w32};
ghost use Rattle.av1_replay.specs.Digest.{Holds, after_four_bits, crc32};

/// What four more bits add to a remainder below 16.
const REMAINDERS: [u32; 16] = [
    0x0000_0000,
    0x1DB7_1064,
    0x3B6E_20C8,
    0x26D9_30AC,
    0x76DC_4190,
    0x6B6B_51F4,
    0x4DB2_6158,
    0x5005_713C,
    0xEDB8_8320,
    0xF00F_9344,
    0xD6D6_A3E8,
    0xCB61_B38C,
    0x9B64_C2B0,
    0x86D3_D2D4,
    0xA00A_E278,
    0xBDBD_F21C,
];

/// A digest: the remainder of the bytes so far, and how many there were. It is CRC-32, as in zip files.
#[derive(Clone, Copy)]
pub struct Digest {
    sum: u32,
    count: u32,
}

impl Digest {
    /// The digest of no bytes.
    #[tactic(auto, using(crate::proofs::Digests::none_held))]
    pub fn new() -> Digest
        ensures { Holds result [] }
    {
        Digest {
            sum: u32::MAX,
            count: 0,
        }
    }

    /// Adds one more byte.
    pub fn push(&mut self, byte: u8)
        ensures { (bytes : List ℕ) → Holds self.old bytes → Holds self.new (bytes ++ byte ∷ []) }
    {
        let sum = after_four_bits(self.sum ^ u32::from(byte));
        self.sum = after_four_bits(sum);
        self.count = self.count.saturating_add(1);
    }

    /// Adds a number of two bytes, the low byte first.
    pub fn push_two(&mut self, number: u16)
        ensures { (bytes : List ℕ) → Holds self.old bytes → Holds self.new (bytes ++ to_le_bytes w16 number) }
    {
        let [low, high] = number.to_le_bytes();
        self.push(low);
        self.push(high);
    }

    /// Adds a number of four bytes, the low byte first.
    pub fn push_four(&mut self, number: u32)
        ensures { (bytes : List ℕ) → Holds self.old bytes → Holds self.new (bytes ++ to_le_bytes w32 number) }
    {
        let [a, b, c, d] = number.to_le_bytes();
        self.push(a);
        self.push(b);
        self.push(c);
        self.push(d);
    }

    /// The digest.
    pub fn sum(&self) -> u32
        ensures { (bytes : List ℕ) → Holds self.now bytes → result ≡ crc32 bytes }
    {
        self.sum ^ u32::MAX
    }

    /// How many bytes were added, at most the last value of a `u32`.
    pub fn count(&self) -> u32
        ensures { (bytes : List ℕ) → Holds self.now bytes → result ≡ min (length bytes) (2 ^ 32 - 1) }
    {
        self.count
    }
}

#[tactic(auto, using(crate::proofs::Digests::by_table))]
fn after_four_bits(sum: u32) -> u32
    ensures { result ≡ after_four_bits sum }
{
    let remainders = &REMAINDERS;
    remainders[(sum % 16) as usize] ^ (sum / 16)
}
