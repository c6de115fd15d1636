//! Makes the report on rows, which allocates, and writes an error's line to the error sink.

ghost use Rattle.std.specs.Prelude.{◌≡◌, ◌≤◌, ◌++◌, Some, codes, decimal, length, IfOk, OnOk};
ghost use Rattle.av1_recon.specs.Answers.{HasLine};
ghost use Rattle.av1_recon.specs.Ends.{error_status};
ghost use Rattle.av1_rows.specs.Replays.{cause, error_line};
ghost use Rattle.av1_rows.specs.declared.error.RowsError.TheVariants.{Malformed};
ghost use Rattle.av1_rows.specs.Reports.{answer_text, first_text, kind_line, kind_text, numbers_text, report_text};
ghost use Rattle.av1_rows.specs.Rows.{told_by};
ghost use Rattle.av1_rows.specs.Tallies.{counts_by, differs_by};

use crate::error::RowsError;
use crate::row::KINDS;
use crate::tally::{DifferingRow, Tally};
use av1_recon::{Sink, plain_line, say};
use av1_replay::Answer;
use av1_streams::Line;
use std::alloc::{AllocError, Global};

// The name of a kind.
#[tactic(auto, unfolding(crate::specs::Reports::kind_text))]
fn kind_text(kind: usize) -> &'static [u8]
    ensures text { result.now ≡ kind_text kind }
    ensures short { length result.now ≤ 12 }
{
    match kind {
        0 => b"program",
        1 => b"tools",
        2 => b"network",
        3 => b"transform",
        4 => b"put",
        5 => b"prepare",
        6 => b"average",
        7 => b"intra",
        8 => b"from luma",
        9 => b"edge",
        10 => b"luma",
        _ => b"availability",
    }
}

/// The report of a tally: a line for each kind of row, and three lines on the first row that differs.
///
/// # Errors
///
/// The error is that memory ran out.
#[tactic(auto, using(crate::proofs::Lines::no_lines, crate::proofs::Lines::lines_more))]
pub fn report_of(alloc: Global, tally: &Tally) -> Result<Vec<u8>, AllocError>
    ensures { IfOk result (λ report. report.items ≡ report_text (counts_by tally.now)) }
{
    let mut report = Vec::new(alloc);
    for kind in 0..KINDS {
        let line = kind_line(kind, tally.rows[kind], tally.differ[kind]);
        report.extend_from_slice(line.as_bytes())?;
    }
    if let Some(first) = &tally.first {
        push_difference(first, &mut report)?;
    }
    Ok(report)
}

fn kind_line(kind: usize, rows: u64, differ: u64) -> Line
    ensures { result ≡ kind_line kind rows differ }
{
    let mut line = Line::new();
    line.push(kind_text(kind));
    line.push(b": ");
    line.push_number(rows);
    line.push(b" rows, ");
    line.push_number(differ);
    line.push(b" differ\n");
    line
}

fn push_difference(first: &DifferingRow, report: &mut Vec<u8>) -> Result<(), AllocError>
    ensures { OnOk result (report.new.items ≡ report.old.items ++ first_text (Some (differs_by first.now))) }
{
    report.extend_from_slice(row_line(first.row, first.kind).as_bytes())?;
    push_answer(b"came", &first.came, report)?;
    push_answer(b"wanted", &first.wanted, report)
}

fn row_line(row: u64, kind: usize) -> Line
    ensures { result ≡ codes "first row that differs: " ++ decimal row ++ codes ", " ++ kind_text kind ++ codes "\n" }
{
    let mut line = Line::new();
    line.push(b"first row that differs: ");
    line.push_number(row);
    line.push(b", ");
    line.push(kind_text(kind));
    line.push(b"\n");
    line
}

fn push_answer(name: &[u8], answer: &Answer, report: &mut Vec<u8>) -> Result<(), AllocError>
    requires { length name.now ≤ 8 }
    ensures { OnOk result (report.new.items ≡ report.old.items ++ answer_text name.now (told_by answer.now)) }
{
    report.extend_from_slice(numbers_line(name, answer).as_bytes())?;
    report.extend_from_slice(&answer.text)?;
    report.extend_from_slice(b"\n")
}

// The part of an answer's line before its text.
fn numbers_line(name: &[u8], answer: &Answer) -> Line
    requires { length name.now ≤ 8 }
    ensures { result ≡ numbers_text name.now (told_by answer.now) }
{
    let mut line = Line::new();
    line.push(name);
    line.push(b" status ");
    line.push_number(u64::from(answer.status));
    line.push(b", ");
    line.push_number(u64::from(answer.count));
    line.push(b" bytes of digest ");
    line.push_number(u64::from(answer.sum));
    line.push(b", text: ");
    line
}

fn malformed_row(row: u64) -> Line
    ensures { result ≡ error_line (Malformed row) }
{
    let mut line = Line::new();
    line.push(b"malformed row ");
    line.push_number(row);
    line.push(b"\n");
    line
}

fn error_line(error: RowsError) -> Line
    ensures { result ≡ error_line error }
{
    match error {
        RowsError::ReadFault => plain_line(b"read fault"),
        RowsError::TooLong => plain_line(b"too long"),
        RowsError::NoRows => plain_line(b"no rows"),
        RowsError::Malformed { row } => malformed_row(row),
        RowsError::Memory => plain_line(b"out of memory"),
        RowsError::WriteFault => plain_line(b"write fault"),
    }
}

/// Writes the line of an error, and returns its exit status.
pub fn report_error<E: Sink>(error: RowsError, err: &mut E) -> u8
    ensures status { result ≡ error_status (cause error) }
    ensures line { HasLine E.taken E.faults err.old err.new (error_line error) }
{
    say(error_line(error).as_bytes(), err);
    match error {
        RowsError::TooLong | RowsError::NoRows | RowsError::Malformed { .. } => 2,
        RowsError::Memory => 3,
        RowsError::ReadFault => 4,
        RowsError::WriteFault => 5,
    }
}
