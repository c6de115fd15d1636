//! Runs the tool that the argument names: reads `source`, writes `out`, and an error's line to `err`. Allocates.
ghost use Rattle.std.specs.Prelude.{◌≡◌, ◌↔◌, ℕ, Result, Some, None, map, string_bytes};
ghost use Rattle.av1_planwrite.specs.Bare.{bare_text};
ghost use Rattle.av1_recon.specs.Answers.{HasLine, line_of as plan_line_of, status_of as plan_status_of};
ghost use Rattle.av1_recon.specs.Ends.{EndsWith, answer_line as line_of, answer_status as status_of, written};
ghost use Rattle.av1_recon.specs.Outcomes.{Answer, Converts, plan_task};
ghost use Rattle.av1_sequence.specs.Files.{Answer as SequenceAnswer};
ghost use Rattle.av1_sequence.specs.Tasks.{PerformsInTurn, cause_of as sequence_cause};
ghost use Rattle.av1_streams.specs.Tasks.{Performs};
ghost use Rattle.av1_tiles.specs.declared.error.TilesError.{TilesError};
ghost use Rattle.av1_tiles.specs.Tasks.{cause_of as tiles_cause, tiles_task};
ghost use Rattle.av1_trace.specs.declared.error.TraceError.{TraceError};
ghost use Rattle.av1_trace.specs.Answers.{error_line as trace_line};
ghost use Rattle.av1_trace.specs.Checking.{cause as trace_cause, trace_task};
ghost use Rattle.av1_toolbox.specs.Answers.{sequence_line, tiles_line, trace_done, usage};
ghost use Rattle.av1_toolbox.specs.Ends.{IsSuccess};
ghost use Rattle.av1_toolbox.specs.EndsInTurn.{EndsInTurn};
ghost use Rattle.av1_toolbox.specs.Tools.{tool_of};
ghost use Rattle.av1_toolbox.specs.declared.tool.Tool.TheVariants.{Tiles, Trace, Sequence, Bare};

use crate::answer::{report_sequence, report_tiles, report_trace};
use crate::tool::Tool;
use av1_planwrite::bare_plan;
use av1_recon::{Sink, Source, report, say};
use av1_sequence::reconstruct_sequence;
use av1_tiles::reconstruct_tiles;
use av1_trace::check_trace;
use std::alloc::Global;

// The status if the arguments are not a tool's name.
const NO_TOOL: u8 = 1;

/// Runs the tool with the name in the only argument, and returns the exit status.
///
/// - `tiles` reads a grid of tiles from `source` and writes the planes of its frame to `out`.
/// - `trace` reads a plan and its planes from another encoder. It writes a line on each leaf and plane that differs, or
///   `same`.
/// - `sequence` reads a sequence of frames and writes the planes of each shown frame as soon as it is accepted.
/// - `bare` reads a plan and writes it without its coefficients.
///
/// | status | if | line on `err` |
/// |---|---|---|
/// | 0 | the planes or the plan were written; the planes of a trace are the plan's | none |
/// | 1 | the arguments are not a tool's name | `usage: tools tiles \| trace \| sequence \| bare` |
/// | 2 | the bytes are rejected | `too long`, `malformed at N`; or a line on a part, below |
/// | 3 | memory ran out | `out of memory` |
/// | 4 | a read failed | `read fault` |
/// | 5 | a write failed | `write fault` |
/// | 7 | planes of a trace differ | none |
///
/// If a part is rejected, the tool writes one of these lines, with K as in [`av1_recon::run`]:
///
/// - `bare`: `invalid leaf N: K`
/// - `tiles`: `tile T malformed at N`, `tile T invalid leaf N: K`
/// - `trace`: `plan malformed at N`, `plan invalid leaf N: K`
/// - `sequence`: `frame F too large`, `frame F malformed at N`, `frame F invalid leaf N: K`, `frame F empty slot`
///
/// If an entry of a sequence is rejected, `out` has the planes that are shown before it. If a write to `err` fails,
/// `err` has a prefix of the line, and the status is the same.
pub fn run_tools<R: Source, W: Sink, E: Sink>(
    alloc: Global,
    words: &[String],
    source: &mut R,
    out: &mut W,
    err: &mut E,
) -> u8
    ensures no_tool { tool_of (map string_bytes words.now) ≡ None →
        (result ≡ 1) × (source.new ≡ source.old) × (out.new ≡ out.old) × HasLine E.taken E.faults err.old err.new usage }
    ensures tiles { tool_of (map string_bytes words.now) ≡ Some Tiles → (answer : Result (Unit {0}) TilesError)
        × Performs tiles_task R.left R.faults W.taken W.faults source.old source.new out.old out.new answer
        × (result ≡ status_of tiles_cause written answer) × HasLine E.taken E.faults err.old err.new (line_of tiles_line answer) }
    ensures trace { tool_of (map string_bytes words.now) ≡ Some Trace → (answer : Result ℕ TraceError)
        × Performs trace_task R.left R.faults W.taken W.faults source.old source.new out.old out.new answer
        × (result ≡ status_of trace_cause trace_done answer) × HasLine E.taken E.faults err.old err.new (line_of trace_line answer) }
    ensures sequence { tool_of (map string_bytes words.now) ≡ Some Sequence → (answer : SequenceAnswer)
        × PerformsInTurn R.left R.faults W.taken W.faults source.old source.new out.old out.new answer
        × (result ≡ status_of sequence_cause written answer) × HasLine E.taken E.faults err.old err.new (line_of sequence_line answer) }
    ensures bare { tool_of (map string_bytes words.now) ≡ Some Bare → (answer : Answer)
        × Converts bare_text R.left R.faults W.taken W.faults source.old source.new out.old out.new answer
        × (result ≡ plan_status_of answer) × HasLine E.taken E.faults err.old err.new (plan_line_of answer) }

    // What each status says.
    ensures status_1 { (result ≡ 1) ↔ (tool_of (map string_bytes words.now) ≡ None) }
    ensures tiles_status { tool_of (map string_bytes words.now) ≡ Some Tiles →
        EndsWith IsSuccess tiles_task R.left R.faults W.taken W.faults source.old source.new out.old out.new result }
    ensures trace_status { tool_of (map string_bytes words.now) ≡ Some Trace →
        EndsWith IsSuccess trace_task R.left R.faults W.taken W.faults source.old source.new out.old out.new result }
    ensures sequence_status { tool_of (map string_bytes words.now) ≡ Some Sequence →
        EndsInTurn R.left R.faults W.taken W.faults source.old source.new out.old out.new result }
    ensures bare_status { tool_of (map string_bytes words.now) ≡ Some Bare →
        EndsWith IsSuccess (plan_task bare_text) R.left R.faults W.taken W.faults source.old source.new out.old out.new result }
{
    match Tool::from_words(words) {
        Some(Tool::Tiles) => report_tiles(reconstruct_tiles(alloc, source, out), err),
        Some(Tool::Trace) => report_trace(check_trace(alloc, source, out), err),
        Some(Tool::Sequence) => report_sequence(reconstruct_sequence(alloc, source, out), err),
        Some(Tool::Bare) => report(bare_plan(alloc, source, out), err),
        None => {
            say(b"usage: tools tiles | trace | sequence | bare\n", err);
            NO_TOOL
        }
    }
}
