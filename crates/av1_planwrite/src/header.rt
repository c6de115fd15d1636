//! Writes the fields of a header: as an array of 20 bytes, or at the end of a text, which may allocate.

ghost use Rattle.std.specs.Prelude.{◌≡◌};
ghost use Rattle.av1_planwrite.specs.Text.{header_text, letters};

use crate::pieces::{put, put_byte, put_pair};
use crate::text::Text;
use av1_blocks::OutOfMemory;
use av1_plan::Header;

/// The four letters of a version.
fn letters(version: u8) -> [u8; 4]
    ensures { result ≡ letters version }
{
    match version {
        3 => *b"RPL3",
        2 => *b"RPL2",
        _ => *b"RPL1",
    }
}

/// The bytes of a header's fields.
#[tactic(auto, unfolding(crate::specs::Text::header_text))]
pub fn header_fields(header: &Header) -> [u8; 20]
    ensures { result ≡ header_text header.now }
{
    let mut fields = [0; 20];
    let slots = header.slots;
    let at = put(&mut fields, 0, &letters(header.version));
    let at = put_pair(&mut fields, at, header.width);
    let at = put_pair(&mut fields, at, header.height);
    let at = put_byte(&mut fields, at, header.depth);
    let at = put_byte(&mut fields, at, header.sampling);
    let at = put_byte(&mut fields, at, header.filter.number());
    let at = put_byte(&mut fields, at, u8::from(header.edge_filter));
    let at = put(&mut fields, at, &slots);
    let _end = put_byte(&mut fields, at, header.mask);
    fields
}

impl Text {
    ghost use Rattle.std.specs.Prelude.{◌≡◌, ◌++◌, OnOk};
    ghost use Rattle.av1_planwrite.specs.Text.{header_text};

    /// Writes the fields before the reference samples.
    pub fn header(&mut self, header: &Header) -> Result<(), OutOfMemory>
        ensures { OnOk result (self.new.bytes.items ≡ self.old.bytes.items ++ header_text header.now) }
    {
        self.copy(&header_fields(header))
    }
}
