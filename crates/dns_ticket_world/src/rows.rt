//! A list of rows, and what is asked of a batch.

ghost use Rattle.std.specs.Prelude.{◌≡◌, ◌++◌, ℕ, true, length, take, IfOk, OnOk, OnErr};
ghost use Rattle.std.specs.List.{list_all};
ghost use Rattle.dns_ticket_world.specs.Rows.{are_numbered, bears, receipt_for};

use crate::receipt::Receipt;
use dns_io::OutOfMemory;
use dns_keeper::Row;
use std::alloc::Global;
use std::marker::Model;

/// Rows of a journal, in order.
#[derive(Drop)]
pub struct Rows {
    rows: Vec<Row>,
}

impl Model for Rows {
    ghost use Rattle.std.specs.Prelude.{List};
    ghost use Rattle.dns_keeper.specs.declared.row.Row.{Row as One};

    ghost Value = { List One };

    ghost view = { λ r. r.rows.items };
}

impl Rows {
    /// These rows.
    pub fn from_vec(rows: Vec<Row>) -> Rows
        ensures { result ≡ rows.items }
    {
        Rows { rows }
    }

    /// The rows, given back.
    pub fn into_vec(self) -> Vec<Row>
        ensures { result.items ≡ self }
    {
        self.rows
    }

    /// The rows.
    pub fn as_slice(&self) -> &[Row]
        ensures { result.now ≡ self.now }
    {
        self.rows.as_slice()
    }

    /// How many rows there are.
    pub fn len(&self) -> usize
        ensures { result ≡ length self.now }
    {
        self.rows.len()
    }

    /// A copy of the rows.
    pub(crate) fn copy(&self, alloc: Global) -> Result<Rows, OutOfMemory>
        ensures { IfOk result (λ copy. copy ≡ self.now) }
    {
        let mut rows = Vec::new(alloc);
        for row in &self.rows {
            rows.push(copy_of(row)?)?;
        }
        Ok(Rows { rows })
    }

    /// Adds a batch. After an `Err` the rows are as before.
    pub(crate) fn append(&mut self, mut batch: Rows) -> Result<(), OutOfMemory>
        ensures ok { OnOk result (self.new ≡ self.old ++ batch) }
        ensures err { OnErr result (self.new ≡ self.old) }
    {
        self.rows.append(&mut batch.rows)?;
        Ok(())
    }

    /// Keeps this many rows, the first ones.
    pub(crate) fn truncate(&mut self, count: usize)
        ensures { self.new ≡ take count self.old }
    {
        self.rows.truncate(count);
    }

    /// Whether all rows bear a number.
    pub(crate) fn bear(&self, number: u32) -> bool
        ensures { result ≡ list_all (bears number) self.now }
    {
        let client = i64::from(number);
        self.rows.iter().all(|row| row.client == client)
    }

    /// Whether the ids of the rows are the numbers behind this one, in order.
    pub fn are_numbered(&self, before: usize) -> bool
        ensures { result ≡ are_numbered before self.now }
    {
        for (i, row) in self.rows.iter().enumerate() {
            let number = before as i128 + i as i128 + 1;
            if i128::from(row.id) != number {
                return false;
            }
        }
        true
    }

    /// The receipt for these rows, which a seat added behind others whose ids theirs follow. There is none for no rows.
    pub(crate) fn receipt(&self, number: u32) -> Option<Receipt>
        ensures { (before : ℕ) → are_numbered before self.now ≡ true → result ≡ receipt_for number before self.now }
    {
        match self.rows.first() {
            None => None,
            Some(row) => Some(Receipt {
                client: number,
                first: row.id.unsigned_abs(),
                count: self.rows.len() as u64,
            }),
        }
    }
}

/// A copy of a row.
fn copy_of(row: &Row) -> Result<Row, OutOfMemory>
    ensures { IfOk result (λ copy. copy ≡ row.now) }
{
    Ok(Row {
        id: row.id,
        client: row.client,
        serial: row.serial,
        stamp: row.stamp.copy()?,
        bytes: row.bytes.copy()?,
    })
}
