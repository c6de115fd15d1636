//! Parses the ways to draw numbers. Moves the fields forward; does not allocate.

ghost use Rattle.std.specs.Prelude.{◌≤◌};

use crate::fields::Fields;

/// A way to draw numbers.
#[derive(Clone, Copy, Debug, PartialEq, Eq)]
pub enum Way {
    /// Each is an arbitrary number of its range.
    Any,
    /// Each is the least or the greatest of its range.
    Ends,
    /// All are the same number of the range.
    Same,
}

impl Way {
    ghost use Rattle.std.specs.Prelude.{◌≡◌, ◌∷◌, length, IfSome};
    ghost use Rattle.av1_replay.specs.Fields.{unread};
    ghost use Rattle.av1_replay.specs.Rows.{way_number};

    /// The next way, from its number.
    pub fn read(fields: &mut Fields) -> Option<Way>
        ensures found { IfSome result (λ way. unread fields.old ≡ way_number way ∷ unread fields.new) }
        ensures later { length (unread fields.new) ≤ length (unread fields.old) }
    {
        match fields.byte()? {
            0 => Some(Way::Any),
            1 => Some(Way::Ends),
            2 => Some(Way::Same),
            _ => None,
        }
    }
}

/// How signed numbers are drawn.
#[derive(Clone, Copy, Debug, PartialEq, Eq)]
pub struct Signed {
    /// How many bits they have, from 1 to 20.
    pub bits: u8,
    /// The way to draw them.
    pub way: Way,
    /// How many more bits decide whether a number is drawn, at most 16. If they aren't all 0, the number is 0.
    pub spare: u8,
    ghost some_bits: { 1 ≤ bits },
    ghost few_bits: { bits ≤ 20 },
    ghost spare_bits: { spare ≤ 16 },
}

impl Signed {
    ghost use Rattle.std.specs.Prelude.{◌≡◌, length, IfSome};
    ghost use Rattle.av1_replay.specs.Fields.{unread};
    ghost use Rattle.av1_replay.specs.Rows.{signed_numbers_before};

    /// Reads how the next signed numbers are drawn.
    pub fn read(fields: &mut Fields) -> Option<Signed>
        ensures found { IfSome result (λ drawn. unread fields.old ≡ signed_numbers_before drawn (unread fields.new)) }
        ensures later { length (unread fields.new) ≤ length (unread fields.old) }
    {
        let bits = fields.byte()?;
        let way = Way::read(fields)?;
        let spare = fields.byte()?;
        if bits == 0 || 20 < bits || 16 < spare {
            return None;
        }
        Some(Signed { bits, way, spare })
    }
}
