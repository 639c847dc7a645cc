//! A keeper in memory.

ghost use Rattle.std.specs.Prelude.{◌≡◌, ◌<◌, ◌-◌, ◌+ℤ◌, ◌≤ℤ◌, ◌<ℤ◌, ◌⊎◌, ◌++◌, ◌∷◌, ◌^◌, pos, neg_ℤ, length, [], Some, true};
ghost use Rattle.std.specs.Prelude.{IfOk, IfSome, IfNone, IsOk, OnOk, OnErr, IsErrOf, FitsSigned};
ghost use Rattle.std.specs.Int.{w64};
ghost use Rattle.std.specs.Option.{option_copied};
ghost use Rattle.dns_wire.specs.WireFormat.{AreShort};
ghost use Rattle.dns_keeper.specs.declared.keeper.KeepFault.TheVariants.{Failed};
ghost use Rattle.dns_keeper.specs.Stamp.{IsStampOf};
ghost use Rattle.dns_keeper.specs.Rows.{last_id, first_of, first_from, AreAscending};
ghost use Rattle.dns_keeper.specs.Batches.{AreByFirst, begins_at, put_batch, batches_with, runs_of};
ghost use Rattle.dns_keeper.specs.Calls.{Appends, ReadsRow, ReadsBatch};
ghost use Rattle.dns_keeper.specs.Memory.{memory_keeper, raised, called, is_next_failing, faults_after, HasNoPlace};
ghost use Rattle.dns_keeper.specs.Packed.{joined, GrowsBehind, LacksBehind, MeetsBehind};

use crate::batch_row::BatchRow;
use crate::batching::{batch_from, put_batch};
use crate::keeper::{KeepFault, Keeper};
use crate::packed_rows::{PackedRows, first_packed};
use crate::row::Row;
use crate::row_runs::runs_in;
use crate::stamping::stamp;
use dns_io::{Octets, OutOfMemory};
use dns_wire::{Record, Records};
use std::alloc::Global;
use std::marker::Model;

/// A keeper in memory, which tells its rows and batches always, and not what a crash may leave. Chosen calls of it can be made to fail.
#[derive(Drop)]
pub struct MemoryKeeper {
    alloc: Global,
    /// The rows that it was made with.
    given: Vec<Row>,
    /// Behind them the rows that were added, batch by batch.
    added: Vec<PackedRows>,
    /// The greatest id, 0 where there is no row.
    last: i64,
    batches: Vec<BatchRow>,
    faults: u64,
    appends: Calls,
    reads: Calls,
}

impl Model for MemoryKeeper {
    ghost use Rattle.std.specs.Prelude.{◌≡◌, ◌++◌, FitsSigned};
    ghost use Rattle.std.specs.Int.{w64};
    ghost use Rattle.dns_keeper.specs.Memory.{Held};
    ghost use Rattle.dns_keeper.specs.Rows.{last_id, AreAscending};
    ghost use Rattle.dns_keeper.specs.Batches.{AreByFirst};
    ghost use Rattle.dns_keeper.specs.Packed.{joined};

    ghost Value = { Held };

    ghost view = { λ k. record {
      rows = k.given.items ++ joined k.added.items;
      batches = k.batches.items;
      faults = k.faults;
      appends = k.appends;
      reads = k.reads;
    } };

    ghost invariant = { λ k.
        AreAscending (k.given.items ++ joined k.added.items)
        × AreByFirst k.batches.items
        × (k.last ≡ last_id (k.given.items ++ joined k.added.items))
        × FitsSigned w64 k.last };
}

impl MemoryKeeper {
    /// A keeper without rows. No call of it is made to fail.
    pub fn new(alloc: Global) -> MemoryKeeper
        ensures told { ⟦<MemoryKeeper as Keeper>⟧.keeper.told result ≡ record { rows = Some []; batches = []; faults = 0 } }
        ensures appends { result.appends ≡ record { made = 0; failing = [] } }
        ensures reads { result.reads ≡ record { made = 0; failing = [] } }
    {
        MemoryKeeper::failing(alloc, Vec::new(alloc), Vec::new(alloc))
    }

    /// A keeper without rows whose append calls and `row_from` calls with these numbers fail, each kind counted from
    /// 1. Its count of faults rises at these calls alone, at a lack of free ids, and where a batch begins at the first new id already.
    pub fn failing(alloc: Global, appends: Vec<u64>, reads: Vec<u64>) -> MemoryKeeper
        ensures told { ⟦<MemoryKeeper as Keeper>⟧.keeper.told result ≡ record { rows = Some []; batches = []; faults = 0 } }
        ensures appends { result.appends ≡ record { made = 0; failing = appends.items } }
        ensures reads { result.reads ≡ record { made = 0; failing = reads.items } }
    {
        MemoryKeeper {
            alloc,
            given: Vec::new(alloc),
            added: Vec::new(alloc),
            last: 0,
            batches: Vec::new(alloc),
            faults: 0,
            appends: Calls::failing(appends),
            reads: Calls::failing(reads),
        }
    }

    /// A keeper with these rows, whose ids ascend, and with the runs of them as its batches. No call of it is made to fail.
    pub fn from_rows(alloc: Global, rows: Vec<Row>) -> Result<MemoryKeeper, OutOfMemory>
        requires { AreAscending rows.items }
        ensures told { IfOk result (λ k. ⟦<MemoryKeeper as Keeper>⟧.keeper.told k
            ≡ record { rows = Some rows.items; batches = runs_of rows.items; faults = 0 }) }
        ensures appends { IfOk result (λ k. k.appends ≡ record { made = 0; failing = [] }) }
        ensures reads { IfOk result (λ k. k.reads ≡ record { made = 0; failing = [] }) }
    {
        let batches = runs_in(alloc, rows.as_slice())?;
        Ok(MemoryKeeper::from_parts(alloc, rows, batches))
    }

    /// A keeper with these rows, whose ids ascend, and these batches, whose first ids do. No call of it is made to fail.
    pub fn from_parts(alloc: Global, rows: Vec<Row>, batches: Vec<BatchRow>) -> MemoryKeeper
        requires rows { AreAscending rows.items }
        requires batches { AreByFirst batches.items }
        ensures told { ⟦<MemoryKeeper as Keeper>⟧.keeper.told result
            ≡ record { rows = Some rows.items; batches = batches.items; faults = 0 } }
        ensures appends { result.appends ≡ record { made = 0; failing = [] } }
        ensures reads { result.reads ≡ record { made = 0; failing = [] } }
    {
        let last = last_id(rows.as_slice());
        MemoryKeeper {
            alloc,
            given: rows,
            added: Vec::new(alloc),
            last,
            batches,
            faults: 0,
            appends: Calls::failing(Vec::new(alloc)),
            reads: Calls::failing(Vec::new(alloc)),
        }
    }

    /// Counts a fault.
    fn fail(&mut self) -> KeepFault
        ensures fault { result ≡ Failed }
        ensures keeper { self.new ≡ record self.old { faults = raised self.old.faults } }
    {
        self.faults = self.faults.saturating_add(1);
        KeepFault::Failed
    }
}

impl Keeper for MemoryKeeper {
    ghost keeper = { memory_keeper };

    fn append(
        &mut self,
        client: u32,
        serial: u32,
        moment: u64,
        records: &Records,
    ) -> Result<(), KeepFault>
        requires moment { moment < 2 ^ 47 }
        requires short { AreShort records.now }
        ensures appended { Appends memory_keeper self.old self.new client serial moment records.now result }
        ensures faults { self.new.faults ≡ faults_after result self.old.faults }
        ensures appends { self.new.appends ≡ called self.old.appends }
        ensures reads { self.new.reads ≡ self.old.reads }
        ensures listed { is_next_failing self.old.appends ≡ true → IsErrOf result Failed }
        ensures failed { IsErrOf result Failed
            → (is_next_failing self.old.appends ≡ true) ⊎ HasNoPlace self.old.rows self.old.batches records.now }
    {
        if self.appends.next_fails() {
            return Err(self.fail());
        }
        let (alloc, last, added, batches) = (
            self.alloc,
            self.last,
            &mut self.added,
            &mut self.batches,
        );
        match add_records(alloc, last, added, batches, client, serial, moment, records) {
            Ok(last) => {
                self.last = last;
                Ok(())
            }
            Err(KeepFault::Failed) => Err(self.fail()),
            Err(KeepFault::OutOfMemory) => Err(KeepFault::OutOfMemory),
        }
    }

    fn row_from(&mut self, id: i64) -> Result<Option<Row>, KeepFault>
        ensures read { ReadsRow memory_keeper self.old self.new id result }
        ensures keeper { self.new ≡ record self.old { faults = faults_after result self.old.faults; reads = called self.old.reads } }
        ensures listed { is_next_failing self.old.reads ≡ true → IsErrOf result Failed }
        ensures failed { IsErrOf result Failed → is_next_failing self.old.reads ≡ true }
    {
        if self.reads.next_fails() {
            return Err(self.fail());
        }
        if let Some(row) = first_from(self.given.as_slice(), id) {
            return Ok(Some(copied(self.alloc, row)?));
        }
        Ok(first_packed(self.alloc, self.added.as_slice(), id)?)
    }

    fn batch_from(&mut self, first: i64) -> Result<Option<BatchRow>, KeepFault>
        ensures read { ReadsBatch memory_keeper self.old self.new first result }
        ensures keeper { self.new ≡ self.old }
        ensures done { IsOk result }
    {
        Ok(batch_from(self.batches.as_slice(), first))
    }

    fn fault_count(&self) -> u64 {
        self.faults
    }
}

/// The calls of one kind, and which of them fail.
#[derive(Drop)]
struct Calls {
    made: u64,
    failing: Vec<u64>,
}

impl Model for Calls {
    ghost use Rattle.dns_keeper.specs.Memory.{Schedule};

    ghost Value = { Schedule };

    ghost view = { λ c. record { made = c.made; failing = c.failing.items } };
}

impl Calls {
    fn failing(failing: Vec<u64>) -> Calls
        ensures { result ≡ record { made = 0; failing = failing.items } }
    {
        Calls { made: 0, failing }
    }

    /// Counts one more call, and says whether it fails.
    fn next_fails(&mut self) -> bool
        ensures calls { self.new ≡ called self.old }
        ensures test { result ≡ is_next_failing self.old }
    {
        self.made = self.made.saturating_add(1);
        self.failing.contains(&self.made)
    }
}

/// The greatest id, 0 where there is no row.
fn last_id(rows: &[Row]) -> i64
    ensures { result ≡ last_id rows.now }
{
    match rows.last() {
        None => 0,
        Some(row) => row.id,
    }
}

/// The batch that records make behind this id, and the last id then; nothing where ids are lacking.
fn batch_behind(last: i64, records: &[Record]) -> Option<(BatchRow, i64)>
    requires { 0 < length records.now }
    ensures first { IfSome result (λ made. made.0.first ≡ last +ℤ pos 1) }
    ensures count { IfSome result (λ made. made.0.count ≡ pos (length records.now)) }
    ensures last { IfSome result (λ made. made.1 ≡ last +ℤ pos (length records.now)) }
    ensures fits { IfSome result (λ made. FitsSigned w64 made.0.first × FitsSigned w64 made.0.count × FitsSigned w64 made.1) }
    ensures none { IfNone result (LacksBehind last records.now) }
{
    let count = records.len() as i64;
    let now = last.checked_add(count)?;
    let first = last + 1;
    Some((BatchRow { first, count }, now))
}

/// The stamp of a moment, in milliseconds since 1970.
fn stamp_of(alloc: Global, moment: u64) -> Result<Octets, OutOfMemory>
    requires { moment < 2 ^ 47 }
    ensures { IfOk result (IsStampOf moment) }
{
    let text = stamp(alloc, moment)?;
    Octets::from_slice(alloc, text.as_bytes())
}

/// Adds rows at the end, and their batch in its place; a fault where another begins there. After a refusal all are as before.
fn add_rows(
    added: &mut Vec<PackedRows>,
    batches: &mut Vec<BatchRow>,
    rows: PackedRows,
    batch: &BatchRow,
) -> Result<(), KeepFault>
    requires { AreByFirst batches.old.items }
    ensures rows { OnOk result (added.new.items ≡ added.old.items ++ rows ∷ []) }
    ensures batches { OnOk result (batches.new.items ≡ put_batch batch.now batches.old.items) }
    ensures err { OnErr result ((added.new.items ≡ added.old.items) × (batches.new.items ≡ batches.old.items)) }
    ensures failed { IsErrOf result Failed → begins_at batch.now.first batches.old.items ≡ true }
    ensures by_first { AreByFirst batches.new.items }
{
    added.reserve(1)?;
    put_batch(batches, batch)?;
    added.push(rows).unwrap();
    Ok(())
}

/// Adds a row for each record, with the ids that follow the last, and where there are any their batch; a fault where they have no place.
/// Gives the last id there is. After a refusal all are as before.
fn add_records(
    alloc: Global,
    last: i64,
    added: &mut Vec<PackedRows>,
    batches: &mut Vec<BatchRow>,
    client: u32,
    serial: u32,
    moment: u64,
    records: &Records,
) -> Result<i64, KeepFault>
    requires moment { moment < 2 ^ 47 }
    requires short { AreShort records.now }
    requires by_first { AreByFirst batches.old.items }
    ensures rows { OnOk result (GrowsBehind last client serial moment records.now (joined added.old.items) (joined added.new.items)) }
    ensures batches { OnOk result (batches.new.items ≡ batches_with (last +ℤ pos 1) records.now batches.old.items) }
    ensures last { IfOk result (λ now. now ≡ last +ℤ pos (length records.now)) }
    ensures fits { IfOk result (FitsSigned w64) }
    ensures err { OnErr result ((added.new.items ≡ added.old.items) × (batches.new.items ≡ batches.old.items)) }
    ensures failed { IsErrOf result Failed → LacksBehind last records.now ⊎ MeetsBehind last batches.old.items records.now }
    ensures by_first { AreByFirst batches.new.items }
{
    if records.len() == 0 {
        return Ok(last);
    }
    let Some((batch, now)) = batch_behind(last, records.as_slice()) else {
        return Err(KeepFault::Failed);
    };
    let stamp = stamp_of(alloc, moment)?;
    let rows = PackedRows::of_records(
        alloc,
        batch.first,
        client,
        serial,
        stamp.as_slice(),
        records,
    )?;
    add_rows(added, batches, rows, &batch)?;
    Ok(now)
}

/// The first row whose id is not below this one.
fn first_from(rows: &[Row], id: i64) -> Option<&Row>
    ensures found { option_copied result ≡ first_from id rows.now }
    ensures first { id ≡ neg_ℤ (pos (2 ^ 63)) → option_copied result ≡ first_of rows.now }
{
    for row in rows {
        if id <= row.id {
            return Some(row);
        }
    }
    None
}

/// One row once more.
fn copied(alloc: Global, row: &Row) -> Result<Row, OutOfMemory>
    ensures { IfOk result (λ copy. copy ≡ row.now) }
{
    Ok(Row {
        id: row.id,
        client: row.client,
        serial: row.serial,
        stamp: Octets::from_slice(alloc, row.stamp.as_slice())?,
        bytes: Octets::from_slice(alloc, row.bytes.as_slice())?,
    })
}
