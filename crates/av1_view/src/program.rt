//! Runs `av1_view`: reads a plan, trace, sequence or grid; writes a page, and on failure one line. Allocates.
ghost use Rattle.std.specs.Prelude.{◌≡◌, ◌↔◌, Some, None, map, string_bytes};
ghost use Rattle.av1_recon.specs.Answers.{HasLine, line_of, status_of};
ghost use Rattle.av1_recon.specs.Ends.{EndsWith, IsDone, answer_line, answer_status, written};
ghost use Rattle.av1_recon.specs.Outcomes.{Answer, Converts, plan_task};
ghost use Rattle.av1_sequence.specs.Files.{Answer as SequenceAnswer};
ghost use Rattle.av1_sequence.specs.Tasks.{cause_of as sequence_cause};
ghost use Rattle.av1_streams.specs.Tasks.{Performs};
ghost use Rattle.av1_tiles.specs.Tasks.{cause_of as tiles_cause};
ghost use Rattle.av1_toolbox.specs.Answers.{sequence_line, tiles_line};
ghost use Rattle.av1_view.specs.Answers.{TilesAnswer, TraceAnswer, trace_line, trace_status, usage};
ghost use Rattle.av1_view.specs.Commands.{command_of};
ghost use Rattle.av1_view.specs.FilePages.{sequence_page_task, tiles_page_task};
ghost use Rattle.av1_view.specs.Shown.{plan_page};
ghost use Rattle.av1_view.specs.TracePages.{trace_page_task};
ghost use Rattle.av1_view.specs.declared.command.ViewCommand.TheVariants.{Plan, Trace, Sequence, Tiles};

use crate::answer::report_trace;
use crate::command::ViewCommand;
use crate::sequence::view_sequence;
use crate::tiles::view_tiles;
use crate::trace::view_trace;
use crate::view::view_plan;
use av1_recon::{Sink, Source, report, say};
use av1_toolbox::{report_sequence, report_tiles};
use std::alloc::Global;

// The status if the arguments are not a valid command.
const NO_COMMAND: u8 = 1;

/// Runs the command of the arguments, and returns the exit status. Without arguments it reads a plan from `source`, and
/// writes the page of the plan to `out`. With the argument `trace` it reads a trace, and the page also shows where the
/// trace's samples differ. With `sequence` it reads a sequence of frames, and with `tiles` a grid of tiles. The page
/// shows the file and its planes. Other arguments are not a valid command.
///
/// | status | if | line on `err` |
/// |---|---|---|
/// | 0 | the page was written | none |
/// | 1 | the arguments are not a valid command | `usage: view [trace \| sequence \| tiles]` |
/// | 2 | the bytes are rejected | `too long`, `malformed at N`, or one of those below |
/// | 3 | memory ran out | `out of memory` |
/// | 4 | a read failed | `read fault` |
/// | 5 | a write failed | `write fault` |
///
/// With status 2, other lines are possible:
///
/// - A plan: `invalid leaf N: K`, with K as in [`av1_recon::run`].
/// - A trace: `plan malformed at N` or `plan invalid leaf N: K`.
/// - A sequence or a grid: the lines of `av1_toolbox::run_tools`.
///
/// If a write to `err` fails, `err` has a prefix of the line, and the status is the same.
pub fn run_view<R: Source, W: Sink, E: Sink>(
    alloc: Global,
    words: &[String],
    source: &mut R,
    out: &mut W,
    err: &mut E,
) -> u8
    ensures no_command { command_of (map string_bytes words.now) ≡ None →
        (result ≡ 1) × (source.new ≡ source.old) × (out.new ≡ out.old) × HasLine E.taken E.faults err.old err.new usage }
    ensures plan { command_of (map string_bytes words.now) ≡ Some Plan → (answer : Answer)
        × Converts plan_page R.left R.faults W.taken W.faults source.old source.new out.old out.new answer
        × (result ≡ status_of answer) × HasLine E.taken E.faults err.old err.new (line_of answer) }
    ensures trace { command_of (map string_bytes words.now) ≡ Some Trace → (answer : TraceAnswer)
        × Performs trace_page_task R.left R.faults W.taken W.faults source.old source.new out.old out.new answer
        × (result ≡ trace_status answer) × HasLine E.taken E.faults err.old err.new (trace_line answer) }
    ensures sequence { command_of (map string_bytes words.now) ≡ Some Sequence → (answer : SequenceAnswer)
        × Performs sequence_page_task R.left R.faults W.taken W.faults source.old source.new out.old out.new answer
        × (result ≡ answer_status sequence_cause written answer) × HasLine E.taken E.faults err.old err.new (answer_line sequence_line answer) }
    ensures tiles { command_of (map string_bytes words.now) ≡ Some Tiles → (answer : TilesAnswer)
        × Performs tiles_page_task R.left R.faults W.taken W.faults source.old source.new out.old out.new answer
        × (result ≡ answer_status tiles_cause written answer) × HasLine E.taken E.faults err.old err.new (answer_line tiles_line answer) }

    // What each status says.
    ensures status_1 { (result ≡ 1) ↔ (command_of (map string_bytes words.now) ≡ None) }
    ensures plan_ends { command_of (map string_bytes words.now) ≡ Some Plan →
        EndsWith IsDone (plan_task plan_page) R.left R.faults W.taken W.faults source.old source.new out.old out.new result }
    ensures trace_ends { command_of (map string_bytes words.now) ≡ Some Trace →
        EndsWith IsDone trace_page_task R.left R.faults W.taken W.faults source.old source.new out.old out.new result }
    ensures sequence_ends { command_of (map string_bytes words.now) ≡ Some Sequence →
        EndsWith IsDone sequence_page_task R.left R.faults W.taken W.faults source.old source.new out.old out.new result }
    ensures tiles_ends { command_of (map string_bytes words.now) ≡ Some Tiles →
        EndsWith IsDone tiles_page_task R.left R.faults W.taken W.faults source.old source.new out.old out.new result }
{
    match ViewCommand::from_words(words) {
        Some(ViewCommand::Plan) => report(view_plan(alloc, source, out), err),
        Some(ViewCommand::Trace) => report_trace(view_trace(alloc, source, out), err),
        Some(ViewCommand::Sequence) => report_sequence(view_sequence(alloc, source, out), err),
        Some(ViewCommand::Tiles) => report_tiles(view_tiles(alloc, source, out), err),
        None => {
            say(b"usage: view [trace | sequence | tiles]\n", err);
            NO_COMMAND
        }
    }
}
