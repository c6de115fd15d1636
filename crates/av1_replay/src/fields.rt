//! Reads the fields of rows from a slice of bytes. Moves forward in the slice; does not allocate.

/// The rest of the bytes, read field by field from the front. The low byte of a number comes first.
///
/// Each read returns `None` if too few bytes are left.
#[derive(Drop)]
pub struct Fields<'a> {
    left: &'a [u8],
}

impl<'a> Fields<'a> {
    ghost use Rattle.std.specs.Prelude.{◌≡◌, ◌↔◌, ◌<◌, ◌≤◌, ◌∷◌, ◌++◌, length, IfSome, IfNone, IsTrue};
    ghost use Rattle.av1_replay.specs.Fields.{flag_before, four_before, part_before, short_part_before, signed_before, two_before, unread, Lacks};

    /// The fields of these bytes.
    pub fn new(bytes: &'a [u8]) -> Fields<'a>
        ensures { unread result ≡ bytes.entry.now }
    {
        Fields { left: bytes }
    }

    /// The bytes that are left.
    pub fn left_bytes(&self) -> &'a [u8]
        ensures { result.now ≡ unread self.now }
    {
        self.left
    }

    /// Whether no byte is left.
    pub fn are_read(&self) -> bool
        ensures { IsTrue result ↔ (length (unread self.now) ≡ 0) }
    {
        self.left.is_empty()
    }

    /// Reads this many bytes.
    pub fn bytes(&mut self, count: usize) -> Option<&'a [u8]>
        ensures found { IfSome result (λ front. unread self.old ≡ front.now ++ unread self.new) }
        ensures counted { IfSome result (λ front. length front.now ≡ count) }
        ensures lacks { IfNone result (Lacks count (unread self.old) (unread self.new)) }
        ensures later { length (unread self.new) ≤ length (unread self.old) }
    {
        let (front, left) = self.left.split_at_checked(count)?;
        self.left = left;
        Some(front)
    }

    /// Reads a byte.
    pub fn byte(&mut self) -> Option<u8>
        ensures found { IfSome result (λ byte. unread self.old ≡ byte ∷ unread self.new) }
        ensures lacks { IfNone result (Lacks 1 (unread self.old) (unread self.new)) }
        ensures later { length (unread self.new) ≤ length (unread self.old) }
    {
        match self.left {
            [byte, left @ ..] => {
                self.left = left;
                Some(*byte)
            }
            _ => None,
        }
    }

    /// Reads a byte that is 0 or 1.
    pub fn flag(&mut self) -> Option<bool>
        ensures found { IfSome result (λ flag. unread self.old ≡ flag_before flag (unread self.new)) }
        ensures later { length (unread self.new) ≤ length (unread self.old) }
    {
        match self.byte()? {
            0 => Some(false),
            1 => Some(true),
            _ => None,
        }
    }

    /// Reads a number from -128 to 127 in two's complement.
    pub fn signed(&mut self) -> Option<i8>
        ensures found { IfSome result (λ number. unread self.old ≡ signed_before number (unread self.new)) }
        ensures lacks { IfNone result (Lacks 1 (unread self.old) (unread self.new)) }
        ensures later { length (unread self.new) ≤ length (unread self.old) }
    {
        Some(self.byte()?.cast_signed())
    }

    /// Reads a number of two bytes.
    pub fn two(&mut self) -> Option<u16>
        ensures found { IfSome result (λ number. unread self.old ≡ two_before number (unread self.new)) }
        ensures lacks { IfNone result (Lacks 2 (unread self.old) (unread self.new)) }
        ensures later { length (unread self.new) ≤ length (unread self.old) }
    {
        match self.left {
            [a, b, left @ ..] => {
                let number = u16::from_le_bytes([*a, *b]);
                self.left = left;
                Some(number)
            }
            _ => None,
        }
    }

    /// Reads a number of four bytes.
    pub fn four(&mut self) -> Option<u32>
        ensures found { IfSome result (λ number. unread self.old ≡ four_before number (unread self.new)) }
        ensures lacks { IfNone result (Lacks 4 (unread self.old) (unread self.new)) }
        ensures later { length (unread self.new) ≤ length (unread self.old) }
    {
        match self.left {
            [a, b, c, d, left @ ..] => {
                let number = u32::from_le_bytes([*a, *b, *c, *d]);
                self.left = left;
                Some(number)
            }
            _ => None,
        }
    }

    /// Reads a number of four bytes, and then this many bytes.
    pub fn part(&mut self) -> Option<&'a [u8]>
        ensures found { IfSome result (λ part. unread self.old ≡ part_before part.now (unread self.new)) }
        ensures later { length (unread self.new) ≤ length (unread self.old) }
    {
        let count = self.four()?;
        self.bytes(count as usize)
    }

    /// Reads a number of one byte, and then this many bytes.
    pub fn short_part(&mut self) -> Option<&'a [u8]>
        ensures short { IfSome result (λ part. length part.now < 256) }
        ensures found { IfSome result (λ part. unread self.old ≡ short_part_before part.now (unread self.new)) }
        ensures later { length (unread self.new) ≤ length (unread self.old) }
    {
        let count = self.byte()?;
        self.bytes(usize::from(count))
    }
}
