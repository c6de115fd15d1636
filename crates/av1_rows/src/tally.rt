//! Counts rows and differing rows by kind. Keeps the first that differs, which allocates.

ghost use Rattle.std.specs.Prelude.{◌≡◌, ◌<◌, IsNone, OnOk, IsTrue, ◌↔◌};
ghost use Rattle.av1_rows.specs.Rows.{told_by, wanted_by};
ghost use Rattle.av1_rows.specs.Tallies.{counts_by, no_rows, with_row};

use crate::row::KINDS;
use av1_replay::{Answer, Wanted};
use std::alloc::{AllocError, Global};

/// A row that differs.
#[derive(Drop)]
pub struct DifferingRow {
    /// Its number, from 0.
    pub row: u64,
    /// The number of its kind.
    pub kind: usize,
    pub came: Answer,
    pub wanted: Answer,
}

/// How many rows there were. No count exceeds the last value of a `u64`.
#[derive(Drop)]
pub struct Tally {
    /// How many in all.
    pub count: u64,
    /// How many of each kind.
    pub rows: [u64; KINDS],
    /// How many of each kind differ.
    pub differ: [u64; KINDS],
    /// The first row that differs.
    pub first: Option<DifferingRow>,
}

impl Tally {
    /// The tally without rows.
    pub fn new() -> Tally
        ensures { counts_by result ≡ no_rows }
    {
        Tally {
            count: 0,
            rows: [0; KINDS],
            differ: [0; KINDS],
            first: None,
        }
    }

    /// Counts one more row of a kind, with its answer, and whether the answer is the wanted one.
    ///
    /// # Errors
    ///
    /// The error is that memory ran out, at the first row that differs.
    pub fn add(
        &mut self,
        alloc: Global,
        kind: usize,
        agrees: bool,
        came: Answer,
        wanted: Wanted,
    ) -> Result<(), AllocError>
        requires { kind < KINDS }
        ensures { OnOk result (counts_by self.new ≡ with_row (counts_by self.old) kind agrees (told_by came) (wanted_by wanted.entry)) }
    {
        let row = self.count;
        self.count = row.saturating_add(1);
        self.rows[kind] = self.rows[kind].saturating_add(1);
        if agrees {
            return Ok(());
        }
        self.differ[kind] = self.differ[kind].saturating_add(1);
        if self.first.is_none() {
            let wanted = wanted.to_answer(alloc)?;
            self.first = Some(DifferingRow {
                row,
                kind,
                came,
                wanted,
            });
        }
        Ok(())
    }

    /// Whether no row differs.
    pub fn agrees(&self) -> bool
        ensures { IsTrue result ↔ IsNone (counts_by self.now).first }
    {
        self.first.is_none()
    }
}
