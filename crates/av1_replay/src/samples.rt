//! Parses the format of a row's samples and the margins of a rectangle. Moves the fields forward; does not allocate.

ghost use Rattle.std.specs.Prelude.{◌≡◌, ◌+◌, ◌*◌, ◌≤◌, ◌∷◌, length, IfSome};
ghost use Rattle.av1_blocks.specs.Depths.{IsDepth};
ghost use Rattle.av1_replay.specs.Fields.{unread};
ghost use Rattle.av1_replay.specs.Rows.{depth_of, format_number, margins_before};

use crate::fields::Fields;
use av1_frame::StoredArea;

/// The type of samples, and their depth in bits.
#[derive(Clone, Copy, Debug, PartialEq, Eq)]
pub enum Format {
    /// Samples of 8 bits.
    Short,
    /// Samples of 16 bits, at depth 8.
    Long8,
    /// Samples of 16 bits, at depth 10.
    Long10,
    /// Samples of 16 bits, at depth 12.
    Long12,
}

impl Format {
    /// The next format, by its number.
    pub fn read(fields: &mut Fields) -> Option<Format>
        ensures found { IfSome result (λ format. unread fields.old ≡ format_number format ∷ unread fields.new) }
        ensures later { length (unread fields.new) ≤ length (unread fields.old) }
    {
        match fields.byte()? {
            0 => Some(Format::Short),
            1 => Some(Format::Long8),
            2 => Some(Format::Long10),
            3 => Some(Format::Long12),
            _ => None,
        }
    }

    /// The depth of its samples.
    pub fn depth(self) -> u8
        ensures value { result ≡ depth_of self }
        ensures depths { IsDepth result }
    {
        match self {
            Format::Short | Format::Long8 => 8,
            Format::Long10 => 10,
            Format::Long12 => 12,
        }
    }
}

/// The position of a rectangle in samples: `x` columns and `y` rows precede it, and `behind` columns follow it.
#[derive(Clone, Copy, Debug, PartialEq, Eq)]
pub struct Margins {
    pub x: u8,
    pub y: u8,
    pub behind: u8,
}

impl Margins {
    /// Reads the next margins.
    pub fn read(fields: &mut Fields) -> Option<Margins>
        ensures found { IfSome result (λ margins. unread fields.old ≡ margins_before margins (unread fields.new)) }
        ensures later { length (unread fields.new) ≤ length (unread fields.old) }
    {
        let x = fields.byte()?;
        let y = fields.byte()?;
        let behind = fields.byte()?;
        Some(Margins { x, y, behind })
    }

    /// The rectangle of these dimensions, at most 512, with these margins round it.
    #[tactic(auto, using(crate::proofs::Rectangles::places_few))]
    pub fn round(self, width: usize, height: usize) -> Target
        requires width { width ≤ 512 }
        requires height { height ≤ 512 }
        ensures area { result.area ≡ record { x = self.x; y = self.y; width = width; height = height } }
        ensures stride { result.stride ≡ self.x + width + self.behind }
        ensures count { result.count ≡ (self.y + height) * result.stride }
        ensures few { result.count ≤ 783874 }
    {
        let area = StoredArea {
            x: usize::from(self.x),
            y: usize::from(self.y),
            width,
            height,
        };
        let stride = area.x + width + usize::from(self.behind);
        Target {
            area,
            stride,
            count: (area.y + height) * stride,
        }
    }
}

/// A rectangle of samples whose rows are `stride` apart.
#[derive(Clone, Copy, Debug, PartialEq, Eq)]
pub struct Target {
    pub area: StoredArea,
    pub stride: usize,
    /// How many samples there are in all.
    pub count: usize,
}
