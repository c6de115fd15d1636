//! Writes a page to a sink: constant parts, and between them the bytes that it shows. Does not allocate.
ghost use Rattle.std.specs.Prelude.{OnOk};
ghost use Rattle.std.specs.List.{flat_map};
ghost use Rattle.std.specs.Io.KnownBytes.{Appends};
ghost use Rattle.av1_streams.specs.Faults.{HasCause};
ghost use Rattle.av1_streams.specs.Streams.{AppendsPrefix};
ghost use Rattle.av1_view.specs.Page.{page, piece_text};

use crate::base64_text::write_base64;
use crate::template::{
    AFTER_SCRIPT, BEFORE_GIVEN, BEFORE_PLAN, BEFORE_PLANES, BEFORE_PREDICTIONS, BEFORE_SCRIPT,
    SCRIPT,
};
use av1_streams::{Sink, WriteFault, write_bytes};

/// The bytes that a page shows.
#[derive(Clone, Copy)]
pub struct Shown<'a> {
    /// A plan.
    pub plan: &'a [u8],
    /// The planes of the plan.
    pub planes: &'a [u8],
    /// The packed predictions of these planes. Empty if the page shows no predictions.
    pub predictions: &'a [u8],
    /// The planes of a trace. Empty if there is no trace.
    pub given: &'a [u8],
}

/// A piece of the page.
#[derive(Clone, Copy)]
pub enum Piece<'a> {
    /// A constant part.
    Text(&'static str),
    /// Bytes, in base64.
    Bytes(&'a [u8]),
}

/// Appends the page of these bytes to the sink. The first write that fails ends the call, and the sink has a prefix of
/// the page.
#[tactic(auto, unfolding(crate::specs::Page::page))]
pub fn write_page<W: Sink>(shown: Shown<'_>, sink: &mut W) -> Result<(), WriteFault>
    ensures whole { OnOk result (Appends (W.taken sink.old) (W.taken sink.new)
        (page shown.entry.plan.now shown.entry.planes.now shown.entry.predictions.now shown.entry.given.now)) }
    ensures prefix { AppendsPrefix (W.taken sink.old) (W.taken sink.new)
        (page shown.entry.plan.now shown.entry.planes.now shown.entry.predictions.now shown.entry.given.now) }
    ensures cause { HasCause (W.faults sink.old) (W.faults sink.new) result }
{
    let pieces = [
        Piece::Text(BEFORE_PLAN),
        Piece::Bytes(shown.plan),
        Piece::Text(BEFORE_PLANES),
        Piece::Bytes(shown.planes),
        Piece::Text(BEFORE_PREDICTIONS),
        Piece::Bytes(shown.predictions),
        Piece::Text(BEFORE_GIVEN),
        Piece::Bytes(shown.given),
        Piece::Text(BEFORE_SCRIPT),
        Piece::Text(SCRIPT),
        Piece::Text(AFTER_SCRIPT),
    ];
    write_pieces(&pieces, sink)
}

// Appends pieces, one after the other. If a write fails, the sink has a prefix of them.
fn write_pieces<W: Sink>(pieces: &[Piece<'_>], sink: &mut W) -> Result<(), WriteFault>
    ensures whole { OnOk result (Appends (W.taken sink.old) (W.taken sink.new) (flat_map piece_text pieces.now)) }
    ensures prefix { AppendsPrefix (W.taken sink.old) (W.taken sink.new) (flat_map piece_text pieces.now) }
    ensures cause { HasCause (W.faults sink.old) (W.faults sink.new) result }
{
    for piece in pieces {
        write_piece(*piece, sink)?;
    }
    Ok(())
}

// Appends a piece. If a write fails, the sink has a prefix of it.
fn write_piece<W: Sink>(piece: Piece<'_>, sink: &mut W) -> Result<(), WriteFault>
    ensures whole { OnOk result (Appends (W.taken sink.old) (W.taken sink.new) (piece_text piece.entry)) }
    ensures prefix { AppendsPrefix (W.taken sink.old) (W.taken sink.new) (piece_text piece.entry) }
    ensures cause { HasCause (W.faults sink.old) (W.faults sink.new) result }
{
    match piece {
        Piece::Text(text) => write_bytes(sink, text.as_bytes()),
        Piece::Bytes(bytes) => write_base64(bytes, sink),
    }
}
