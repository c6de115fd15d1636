//! Writes a line for each difference to a sink. Does not allocate.
ghost use Rattle.std.specs.Prelude.{◌≡◌, OnOk};
ghost use Rattle.std.specs.List.{flat_map};
ghost use Rattle.std.specs.Io.KnownBytes.{Appends};
ghost use Rattle.av1_streams.specs.Faults.{HasCause};
ghost use Rattle.av1_streams.specs.Streams.{AppendsPrefix};
ghost use Rattle.av1_trace.specs.DifferenceLines.{difference_line, difference_lines, place_text, sample_text};

use crate::Difference;
use av1_streams::{Line, Sink, WriteFault, write_bytes};

/// Appends the lines of differences. Without differences it is `same`, else one line for each: `leaf L plane P row R
/// column C given G defined D`. The first write that fails ends the call, and the sink has a prefix of the lines.
pub fn write_differences<W: Sink>(list: &[Difference], sink: &mut W) -> Result<(), WriteFault>
    ensures whole { OnOk result (Appends (W.taken sink.old) (W.taken sink.new) (difference_lines list.now)) }
    ensures prefix { AppendsPrefix (W.taken sink.old) (W.taken sink.new) (difference_lines list.now) }
    ensures cause { HasCause (W.faults sink.old) (W.faults sink.new) result }
{
    if list.is_empty() {
        write_bytes(sink, b"same\n")
    } else {
        write_each(list, sink)
    }
}

// Appends a line for each difference. If a write fails, the sink has a prefix of them.
fn write_each<W: Sink>(list: &[Difference], sink: &mut W) -> Result<(), WriteFault>
    ensures whole { OnOk result (Appends (W.taken sink.old) (W.taken sink.new) (flat_map difference_line list.now)) }
    ensures prefix { AppendsPrefix (W.taken sink.old) (W.taken sink.new) (flat_map difference_line list.now) }
    ensures cause { HasCause (W.faults sink.old) (W.faults sink.new) result }
{
    for difference in list {
        write_difference(*difference, sink)?;
    }
    Ok(())
}

// Appends the line of a difference. If a write fails, the sink has a prefix of it.
fn write_difference<W: Sink>(difference: Difference, sink: &mut W) -> Result<(), WriteFault>
    ensures whole { OnOk result (Appends (W.taken sink.old) (W.taken sink.new) (difference_line difference)) }
    ensures prefix { AppendsPrefix (W.taken sink.old) (W.taken sink.new) (difference_line difference) }
    ensures cause { HasCause (W.faults sink.old) (W.faults sink.new) result }
{
    write_bytes(sink, place_text(difference).as_bytes())?;
    write_bytes(sink, sample_text(difference).as_bytes())
}

// The position of the difference.
fn place_text(difference: Difference) -> Line
    ensures { result ≡ place_text difference }
{
    let mut line = Line::new();
    line.push(b"leaf ");
    line.push_number(u64::from(difference.leaf));
    line.push(b" plane ");
    line.push_number(u64::from(difference.plane));
    line.push(b" row ");
    line.push_number(u64::from(difference.row));
    line.push(b" column ");
    line.push_number(u64::from(difference.column));
    line
}

// Both samples, and the end of the line.
fn sample_text(difference: Difference) -> Line
    ensures { result ≡ sample_text difference }
{
    let mut line = Line::new();
    line.push(b" given ");
    line.push_number(u64::from(difference.given));
    line.push(b" defined ");
    line.push_number(u64::from(difference.defined));
    line.push(b"\n");
    line
}
