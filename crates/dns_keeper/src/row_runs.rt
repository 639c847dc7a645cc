//! The batches of rows that were written without them.

ghost use Rattle.std.specs.Prelude.{◌≡◌, ◌+ℤ◌, ◌++◌, ◌∷◌, [], pos, List, IfOk, IfSome, OnOk};
ghost use Rattle.dns_keeper.specs.declared.row.Row.{Row as JournalRow};
ghost use Rattle.dns_keeper.specs.Batches.{runs_of, counted_up, grown};
ghost use Rattle.dns_keeper.specs.RunsSoFar.{is_made_by, AreRunsOf};

use crate::batch_row::BatchRow;
use crate::row::Row;
use dns_io::OutOfMemory;
use std::alloc::Global;
use std::marker::Model;

/// Who made a row, and the serial that it bears.
#[derive(Clone, Copy, Debug, PartialEq, Eq)]
pub(crate) struct Maker {
    client: i64,
    serial: i64,
}

/// The runs of rows that come one after another: neighbouring rows of one client and one serial, as batches.
#[derive(Drop)]
pub struct RowRuns {
    batches: Vec<BatchRow>,
    /// Of the last row.
    last: Option<Maker>,
}

impl Model for RowRuns {
    ghost use Rattle.dns_keeper.specs.RunsSoFar.{RunsSoFar};

    ghost Value = { RunsSoFar };

    ghost view = { λ runs. record { batches = runs.batches.items; last = runs.last } };
}

impl RowRuns {
    /// Those of no rows.
    pub fn new(alloc: Global) -> RowRuns
        ensures { AreRunsOf [] result }
    {
        RowRuns {
            batches: Vec::new(alloc),
            last: None,
        }
    }

    /// Counts the row that comes next, which goes on with the last run or begins one. Where memory runs out nothing is known of the runs.
    pub fn count_row(&mut self, row: &Row) -> Result<(), OutOfMemory>
        ensures { (rows : List JournalRow) → AreRunsOf rows self.old → OnOk result (AreRunsOf (rows ++ row.now ∷ []) self.new) }
    {
        let joins = is_made_by(&self.last, row);
        add_row(&mut self.batches, joins, row)?;
        self.last = Some(maker_of(row));
        Ok(())
    }

    /// One batch for each run, in order.
    pub fn into_batches(self) -> Vec<BatchRow>
        ensures { (rows : List JournalRow) → AreRunsOf rows self → result.items ≡ runs_of rows }
    {
        let RowRuns { batches, last: _ } = self;
        batches
    }
}

/// Who made a row.
fn maker_of(row: &Row) -> Maker
    ensures { result ≡ record { client = row.now.client; serial = row.now.serial } }
{
    Maker {
        client: row.client,
        serial: row.serial,
    }
}

/// Whether a row is of the same client and serial as the last.
fn is_made_by(last: &Option<Maker>, row: &Row) -> bool
    ensures { result ≡ is_made_by last.now row.now }
{
    match last {
        None => false,
        Some(maker) => maker.client == row.client && maker.serial == row.serial,
    }
}

/// A batch with one row more, where the number fits.
fn longer(batch: &BatchRow) -> Option<BatchRow>
    ensures { IfSome result (λ b. b ≡ record { first = batch.now.first; count = batch.now.count +ℤ pos 1 }) }
{
    let count = batch.count.checked_add(1)?;
    Some(BatchRow {
        first: batch.first,
        count,
    })
}

/// Adds a batch at the end.
pub(crate) fn push(batches: &mut Vec<BatchRow>, batch: BatchRow) -> Result<(), OutOfMemory>
    ensures { OnOk result (batches.new.items ≡ batches.old.items ++ batch ∷ []) }
{
    match batches.push(batch) {
        Ok(()) => Ok(()),
        Err(_) => Err(OutOfMemory),
    }
}

/// Counts one row more in the last batch.
fn count_up(batches: &mut Vec<BatchRow>) -> Result<(), OutOfMemory>
    ensures { OnOk result (batches.new.items ≡ counted_up batches.old.items) }
{
    let Some(last) = batches.pop() else {
        return Ok(());
    };
    match longer(&last) {
        Some(batch) => push(batches, batch),
        // No memory holds so many rows.
        None => Err(OutOfMemory),
    }
}

/// Counts a row, which goes on with the last batch or begins one.
fn add_row(batches: &mut Vec<BatchRow>, joins: bool, row: &Row) -> Result<(), OutOfMemory>
    ensures { OnOk result (batches.new.items ≡ grown joins row.now.id batches.old.items) }
{
    if joins {
        count_up(batches)
    } else {
        push(
            batches,
            BatchRow {
                first: row.id,
                count: 1,
            },
        )
    }
}

/// One batch for each longest run of neighbouring rows of one client and one serial.
pub fn runs_in(alloc: Global, rows: &[Row]) -> Result<Vec<BatchRow>, OutOfMemory>
    ensures { IfOk result (λ batches. batches.items ≡ runs_of rows.now) }
{
    let mut runs = RowRuns::new(alloc);
    for row in rows {
        runs.count_row(row)?;
    }
    Ok(runs.into_batches())
}
