//! Runs `av1_bench`: reads a plan and writes its sums, or writes a made plan; an error goes to `err`. Allocates.
ghost use Rattle.std.specs.Prelude.{◌≡◌, ℕ, Some, None, map, string_bytes};
ghost use Rattle.av1_recon.specs.Answers.{HasLine, status_of, line_of};
ghost use Rattle.av1_recon.specs.Lines.{sum_lines};
ghost use Rattle.av1_recon.specs.Outcomes.{Answer, Converts};
ghost use Rattle.av1_recon.specs.Writing.{Writes};
ghost use Rattle.av1_plan.specs.Generator.{plan_bytes_in};
ghost use Rattle.av1_bench.specs.Count.{IsCount, made_of, usage};

use crate::bench::bench;
use crate::count::{count_of, made_of};
use av1_recon::{Sink, Source, report, say, write_made_in};
use std::alloc::Global;

/// Reads a plan from `source`, reconstructs it as often as the only argument says, and writes its four lines to `out`.
/// Returns the exit status of `av1_recon::report`, which also writes its line to `err`. The arguments `make N` read
/// nothing and write plan number N, in version 3 of the plan grammar. Other arguments, and 0, give status 1 and a line
/// of usage.
pub fn run<R: Source, W: Sink, E: Sink>(
    alloc: Global,
    words: &[String],
    source: &mut R,
    out: &mut W,
    err: &mut E,
) -> u8
    ensures no_number { ((count : ℕ) → ¬ IsCount (map string_bytes words.now) count) →
        made_of (map string_bytes words.now) ≡ None →
        (result ≡ 1) × (source.new ≡ source.old) × (out.new ≡ out.old) × HasLine E.taken E.faults err.old err.new usage }
    ensures bench { (count : ℕ) → IsCount (map string_bytes words.now) count → (answer : Answer)
        × Converts sum_lines R.left R.faults W.taken W.faults source.old source.new out.old out.new answer
        × (result ≡ status_of answer) × HasLine E.taken E.faults err.old err.new (line_of answer) }
    ensures made { (number : ℕ) → made_of (map string_bytes words.now) ≡ Some number →
        (source.new ≡ source.old) × ((answer : Answer) × Writes W.taken W.faults out.old out.new (plan_bytes_in 3 number) answer
        × (result ≡ status_of answer) × HasLine E.taken E.faults err.old err.new (line_of answer)) }
{
    if let Some(number) = made_of(words) {
        return report(write_made_in(alloc, 3, number, out), err);
    }
    let Some(count) = count_of(words) else {
        say(b"usage: bench N < plan | make N\n", err);
        return 1;
    };
    report(bench(alloc, count, source, out), err)
}
