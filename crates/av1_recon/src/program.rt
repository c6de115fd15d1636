//! Runs a command: reads a plan or makes one, and writes planes, a plan or sums; errors go to `err`. Allocates.
ghost use Rattle.std.specs.Prelude.{◌≡◌, ◌↔◌, Some, None, List, ℕ, map, string_bytes};
ghost use Rattle.av1_recon.specs.Answers.{HasLine, status_of, line_of, usage};
ghost use Rattle.av1_recon.specs.Commands.{command_of, IsMade, ReadsNothing};
ghost use Rattle.av1_recon.specs.Ends.{EndsMade, EndsWith, IsDone};
ghost use Rattle.av1_recon.specs.Outcomes.{Answer, Reconstructs, plan_task};
ghost use Rattle.av1_recon.specs.Writing.{Writes};
ghost use Rattle.av1_recon.specs.declared.command.Command.TheVariants.{Reconstruct};
ghost use Rattle.av1_tile.specs.Output.{planes_of};

use crate::answer::{report, say};
use crate::{Command, Sink, Source, reconstruct_plan, write_made, write_made_sums};
use std::alloc::Global;

/// Does what the arguments after the program's name say, and returns the exit status. Without arguments, a plan is read
/// from `source` and its planes are written to `out`. `make N` writes the plan of the number N. `sum N` reconstructs
/// that plan and writes four lines on it. Both read nothing. N is a number by [`crate::number_of`]. No other arguments
/// are a valid command.
///
/// | status | if | line on `err` |
/// |---|---|---|
/// | 0 | the planes, the plan or the lines were written | none |
/// | 1 | the arguments are not a valid command | `usage: recon [make N \| sum N]` |
/// | 2 | the plan is rejected | `too long`, `malformed at N` or `invalid leaf N: K` |
/// | 3 | memory ran out | `out of memory` |
/// | 4 | a read failed | `read fault` |
/// | 5 | a write failed | `write fault` |
///
/// K is `block size`, `transform`, `mode`, `vector`, `missing reference` or `coefficient`. If a write to `err` fails, a
/// prefix of the line was written, and the status is the same.
pub fn run<R: Source, W: Sink, E: Sink>(
    alloc: Global,
    words: &[String],
    source: &mut R,
    out: &mut W,
    err: &mut E,
) -> u8
    ensures no_command { command_of (map string_bytes words.now) ≡ None →
        (result ≡ 1) × (source.new ≡ source.old) × (out.new ≡ out.old) × HasLine E.taken E.faults err.old err.new usage }
    ensures reconstruct { command_of (map string_bytes words.now) ≡ Some Reconstruct → (answer : Answer)
        × Reconstructs R.left R.faults W.taken W.faults source.old source.new out.old out.new answer
        × (result ≡ status_of answer) × HasLine E.taken E.faults err.old err.new (line_of answer) }
    ensures made { ReadsNothing (command_of (map string_bytes words.now)) → (source.new ≡ source.old) × ((answer : Answer)
        × ((bytes : List ℕ) × IsMade (command_of (map string_bytes words.now)) bytes
        × Writes W.taken W.faults out.old out.new bytes answer)
        × (result ≡ status_of answer) × HasLine E.taken E.faults err.old err.new (line_of answer)) }

    // What each status says.
    ensures status_1 { (result ≡ 1) ↔ (command_of (map string_bytes words.now) ≡ None) }
    ensures plan_ends { command_of (map string_bytes words.now) ≡ Some Reconstruct →
        EndsWith IsDone (plan_task planes_of) R.left R.faults W.taken W.faults source.old source.new out.old out.new result }
    ensures made_ends { ReadsNothing (command_of (map string_bytes words.now)) →
        EndsMade (IsMade (command_of (map string_bytes words.now))) W.taken W.faults out.old out.new result }
{
    match Command::from_words(words) {
        Some(Command::Reconstruct) => report(reconstruct_plan(alloc, source, out), err),
        Some(Command::Make(number)) => report(write_made(alloc, number, out), err),
        Some(Command::Sum(number)) => report(write_made_sums(alloc, number, out), err),
        None => {
            say(b"usage: recon [make N | sum N]\n", err);
            1
        }
    }
}
