//! How far batches cover the rows of a journal.

ghost use Rattle.std.specs.Prelude.{◌≡◌, ◌+ℤ◌, ◌-ℤ◌, ◌∷◌, [], pos, true, false, List, Some, reverse, IfOk, IfSome, OnOk, FitsSigned};
ghost use Rattle.std.specs.Int.{w64};
ghost use Rattle.dns_keeper.specs.declared.row.Row.{Row as JournalRow};
ghost use Rattle.dns_keeper.specs.declared.batch_row.BatchRow.{BatchRow as Batch};
ghost use Rattle.dns_keeper.specs.Batches.{uncovered, AreNumbered};
ghost use Rattle.dns_keeper.specs.RunsSoFar.{AreRunsOf};
ghost use Rattle.dns_keeper.specs.Cutting.{is_front, cut, Reaches, Passes};

use crate::batch_row::BatchRow;
use crate::row_runs::{RowRuns, push};
use dns_io::OutOfMemory;
use std::marker::Model;

/// How far batches, which come one after another, cover rows with the ids from 1 on. Of the rows that are left it keeps the runs.
#[derive(Drop)]
pub struct Coverage {
    /// The id of the first row that is left; where none is, the one that would follow.
    place: i64,
    /// The runs of the rows that are left, the last one first.
    runs: Vec<BatchRow>,
}

impl Model for Coverage {
    ghost use Rattle.std.specs.Prelude.{reverse};
    ghost use Rattle.dns_keeper.specs.Cutting.{Reached};

    ghost Value = { Reached };

    ghost view = { λ c. record { place = c.place; runs = reverse c.runs.items } };
}

impl Coverage {
    /// None of the rows with these runs is covered yet. Takes no memory.
    pub fn new(runs: RowRuns) -> Coverage
        ensures place { result.place ≡ pos 1 }
        ensures all { (rows : List JournalRow) → AreRunsOf rows runs → AreNumbered (pos 1) rows → Reaches rows result }
    {
        let mut runs = runs.into_batches();
        runs.reverse();
        Coverage { place: 1, runs }
    }

    /// The id of the first row that is left; where none is, the one that would follow.
    pub fn place(&self) -> i64
        ensures { result ≡ self.now.place }
    {
        self.place
    }

    /// Covers rows with the batch that comes next, where it begins at the first row that is left and is a run of rows that are left; says
    /// whether it is. Where it is not no other is to be taken.
    pub fn take(&mut self, batch: &BatchRow) -> Result<bool, OutOfMemory>
        ensures place { IfOk result (λ fits. fits ≡ false → self.new.place ≡ self.old.place) }
        ensures ends { IfOk result (λ fits. fits ≡ false → (rows : List JournalRow) (more : List Batch) → Reaches rows self.old
            → uncovered self.old.place rows (batch.now ∷ more) ≡ Some self.old.place) }
        ensures passes { IfOk result (λ fits. fits ≡ true → (rows : List JournalRow) → Reaches rows self.old
            → Passes rows batch.now self.old self.new) }
    {
        let Some(run) = self.runs.pop() else {
            return Ok(false);
        };
        if !self.is_front(&run, batch) {
            return Ok(false);
        }
        cut_run(&mut self.runs, &run, batch)?;
        self.place = self.place_behind(batch)?;
        Ok(true)
    }

    /// The place where the batches cease to cover the rows, where no batch comes any more; none where no row is left.
    pub fn end(&self) -> Option<i64>
        ensures { (rows : List JournalRow) → Reaches rows self.now → result ≡ uncovered self.now.place rows [] }
    {
        match self.runs.last() {
            None => None,
            Some(_) => Some(self.place),
        }
    }

    /// Whether a batch is a front of this run, which begins at the place that is reached.
    fn is_front(&self, run: &BatchRow, batch: &BatchRow) -> bool
        ensures { (runs : List Batch) → result ≡ is_front self.now.place (run.now ∷ runs) batch.now }
    {
        if batch.first == self.place {
            if 1 <= batch.count {
                batch.count <= run.count
            } else {
                false
            }
        } else {
            false
        }
    }

    /// The place behind a batch that begins at the one that is reached.
    fn place_behind(&self, batch: &BatchRow) -> Result<i64, OutOfMemory>
        ensures behind { IfOk result (λ next. next ≡ self.now.place +ℤ batch.now.count) }
        ensures fits { IfOk result (FitsSigned w64) }
    {
        match self.place.checked_add(batch.count) {
            Some(next) => Ok(next),
            // No memory holds so many rows.
            None => Err(OutOfMemory),
        }
    }
}

/// A run without a batch that is a front of it, where the numbers fit.
fn shorter(run: &BatchRow, batch: &BatchRow) -> Option<BatchRow>
    ensures { IfSome result (λ b. b ≡ record {
      first = run.now.first +ℤ batch.now.count;
      count = run.now.count -ℤ batch.now.count;
    }) }
{
    let first = run.first.checked_add(batch.count)?;
    let count = run.count.checked_sub(batch.count)?;
    Some(BatchRow { first, count })
}

/// Puts back what is left of a run without a batch that is a front of it.
fn cut_run(runs: &mut Vec<BatchRow>, run: &BatchRow, batch: &BatchRow) -> Result<(), OutOfMemory>
    ensures { OnOk result (reverse runs.new.items ≡ cut batch.now.count (run.now ∷ reverse runs.old.items)) }
{
    if batch.count == run.count {
        return Ok(());
    }
    match shorter(run, batch) {
        Some(rest) => push(runs, rest),
        // No memory holds so many rows.
        None => Err(OutOfMemory),
    }
}
