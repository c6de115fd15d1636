//! Runs `av1_rows`: reads rows, replays their calls, and writes a report to `out` or an error to `err`. Allocates.

ghost use Rattle.std.specs.Prelude.{◌≡◌, ◌≢◌, ◌↔◌, ◌⊎◌, ◌≤◌, List, IsTrue, IsErrOf, IsNone, IfSome, IfOk, IfErr, OnOk};
ghost use Rattle.std.specs.Io.KnownBytes.{Appends};
ghost use Rattle.av1_recon.specs.Answers.{HasLine};
ghost use Rattle.av1_streams.specs.Faults.{FaultCounted};
ghost use Rattle.av1_streams.specs.Streams.{AppendsPrefix};
ghost use Rattle.av1_replay.specs.Fields.{unread};
ghost use Rattle.av1_rows.specs.Replays.{Answer, Refuses, Rows, line_of, status_of};
ghost use Rattle.av1_rows.specs.Reports.{report};
ghost use Rattle.av1_rows.specs.Rows.{AllAgree, AreReplayed, IsReplayed, Replayed, row_before};
ghost use Rattle.av1_rows.specs.Tallies.{counts_by, counts_of, with_replayed};
ghost use Rattle.av1_rows.specs.declared.error.RowsError.{RowsError};
ghost use Rattle.av1_rows.specs.declared.error.RowsError.TheVariants.{Malformed, Memory, ReadFault, WriteFault};

use crate::error::RowsError;
use crate::report::{report_error, report_of};
use crate::row::Row;
use crate::tally::Tally;
use av1_recon::{Sink, Source};
use av1_replay::Fields;
use av1_streams::{MAX_PLAN_BYTES, read_bytes, write_bytes};
use std::alloc::Global;

/// The bytes that a file of rows begins with.
const MAGIC: &[u8] = b"ROW1";

/// Reads rows from the source to its end, at most 64 MiB, and replays each. Writes a line for each kind to `out`, and
/// for the first row that differs its answer and the wanted answer.
///
/// | status | if | line on `err` |
/// |---|---|---|
/// | 0 | each row was replayed, and none differs | none |
/// | 1 | each row was replayed, and some differ | none |
/// | 2 | the bytes are not valid rows | `too long`, `no rows` or `malformed row N` |
/// | 3 | memory ran out | `out of memory` |
/// | 4 | a read failed | `read fault` |
/// | 5 | a write failed | `write fault` |
///
/// N is the number of a row, from 0. If a write to `err` fails, `err` has a prefix of the line, and the status is the
/// same.
pub fn replay_rows<R: Source, W: Sink, E: Sink>(
    alloc: Global,
    source: &mut R,
    out: &mut W,
    err: &mut E,
) -> u8
    // The status and the line follow from the result.
    ensures answer { (answer : Answer) × (result ≡ status_of answer) × HasLine E.taken E.faults err.old err.new (line_of answer)
        × IfErr answer (λ e. IfSome (R.left source.old) (Refuses e)) }
    // What each status says.
    ensures agreed { result ≡ 0 → Rows (R.left source.old) (λ rows. AllAgree rows × Appends (W.taken out.old) (W.taken out.new) (report rows)) }
    ensures differed { result ≡ 1 → Rows (R.left source.old) (λ rows. ¬ AllAgree rows × Appends (W.taken out.old) (W.taken out.new) (report rows)) }
    ensures refused { result ≡ 2 → IfSome (R.left source.old) (λ bytes. (e : RowsError) × Refuses e bytes) × (out.new ≡ out.old) }
    ensures memory { result ≡ 3 → out.new ≡ out.old }
    ensures read_fault { result ≡ 4 → FaultCounted (R.faults source.old) (R.faults source.new) × (out.new ≡ out.old) }
    ensures write_fault { result ≡ 5 → FaultCounted (W.faults out.old) (W.faults out.new)
        × Rows (R.left source.old) (λ rows. AppendsPrefix (W.taken out.old) (W.taken out.new) (report rows)) }
    ensures no_other { result ≤ 5 }
{
    match replay(alloc, source, out) {
        Ok(true) => 0,
        Ok(false) => 1,
        Err(error) => report_error(error, err),
    }
}

// Reads rows from the source to its end, replays each, and writes their report. Returns whether all agree.
fn replay<R: Source, W: Sink>(alloc: Global, source: &mut R, out: &mut W) -> Result<bool, RowsError>
    ensures done { IfOk result
        (λ agree. Rows (R.left source.old) (λ rows. (IsTrue agree ↔ AllAgree rows) × Appends (W.taken out.old) (W.taken out.new) (report rows))) }
    ensures refused { IfErr result (λ e. IfSome (R.left source.old) (Refuses e)) }
    ensures read_fault { IsErrOf result ReadFault → FaultCounted (R.faults source.old) (R.faults source.new) }
    ensures write_fault { IsErrOf result WriteFault → FaultCounted (W.faults out.old) (W.faults out.new) }
    ensures prefix { IsErrOf result WriteFault → Rows (R.left source.old) (λ rows. AppendsPrefix (W.taken out.old) (W.taken out.new) (report rows)) }
    ensures unwritten { IfErr result (λ e. e ≢ WriteFault → out.new ≡ out.old) }
{
    let bytes = read_bytes(alloc, source, MAX_PLAN_BYTES)?;
    let tally = replay_bytes(alloc, &bytes)?;
    let text = report_of(alloc, &tally)?;
    write_bytes(out, &text)?;
    Ok(tally.agrees())
}

// Replays the rows of these bytes, and counts them.
fn replay_bytes(alloc: Global, bytes: &[u8]) -> Result<Tally, RowsError>
    ensures done { IfOk result (λ tally. (rows : List Replayed) × AreReplayed bytes.now rows × (counts_by tally ≡ counts_of rows)
        × (IsNone (counts_by tally).first ↔ AllAgree rows)) }
    ensures refused { IfErr result (λ e. Refuses e bytes.now × (e ≢ ReadFault) × (e ≢ WriteFault)) }
{
    let Some(rows) = bytes.strip_prefix(MAGIC) else {
        return Err(RowsError::NoRows);
    };
    let mut fields = Fields::new(rows);
    let mut tally = Tally::new();
    'rows: while !fields.are_read() {
        replay_next(alloc, &mut fields, &mut tally)?;
    }
    Ok(tally)
}

// Replays the next row.
fn replay_next(alloc: Global, fields: &mut Fields, tally: &mut Tally) -> Result<(), RowsError>
    ensures replayed { OnOk result ((next : Replayed) × IsReplayed next × (unread fields.old ≡ row_before next.row (unread fields.new))
        × (counts_by tally.new ≡ with_replayed (counts_by tally.old) next)) }
    ensures refused { IfErr result (λ e. (e ≡ Malformed (counts_by tally.old).count) ⊎ (e ≡ Memory)) }
{
    let number = tally.count;
    let Some(row) = Row::read(fields) else {
        return Err(RowsError::Malformed { row: number });
    };
    let came = match row.call.replay(alloc) {
        Ok(came) => came,
        Err(fault) => return Err(RowsError::of_row(number, fault)),
    };
    let agrees = row.wanted.is(&came);
    tally.add(alloc, usize::from(row.kind), agrees, came, row.wanted)?;
    Ok(())
}
