//! Reading the rows of a journal that are to be fed.

ghost use Rattle.std.specs.Prelude.{◌≡◌, ◌≤◌, ◌<◌, ◌^◌, ◌+ℤ◌, ◌++◌, ◌∷◌, [], pos, IfOk, IfErr, IfSome, OnOk, if◌then◌else◌};
ghost use Rattle.std.specs.Ordering.{int_eq};
ghost use Rattle.std.specs.Option.{option_or};
ghost use Rattle.dns_store.specs.Recovering.{IsFirst, IsFirstFrom};
ghost use Rattle.dns_follow.specs.FeedFaults.{IsKeepers};
ghost use Rattle.dns_follow.specs.Feeding.{is_word, is_fit, unfit_in, ReadsJournal, ReadsNoFed};
ghost use Rattle.dns_follow.specs.Scanning.{IsScanned};

use crate::feed_fault::FeedFault;
use dns_io::OutOfMemory;
use dns_keeper::{Keeper, Row, RowRuns};
use dns_store::{first_row, row_behind};
use std::alloc::Global;

/// The rows of a journal, whose ids are 1 and those that follow.
#[derive(Drop)]
pub(crate) struct Scanned {
    /// The runs of them all.
    pub(crate) runs: RowRuns,
    /// Those from an id on.
    pub(crate) rows: Vec<Row>,
    /// The id of the last one, 0 where there is none.
    pub(crate) last: i64,
    /// The id of the first one whose client or serial is no number of 32 bits.
    pub(crate) unfit: Option<i64>,
}

/// Reads all rows of a journal, and keeps those from an id on.
pub(crate) fn scan<K: Keeper>(
    alloc: Global,
    keeper: &mut K,
    from: u64,
) -> Result<Scanned, FeedFault>
    requires from { 1 ≤ from }
    ensures ok { IfOk result (λ seen. IsScanned from seen.runs seen.rows.items seen.last seen.unfit (K.keeper.told keeper.new).rows) }
    ensures err { IfErr result (ReadsNoFed (K.keeper.told keeper.old) (K.keeper.told keeper.new)) }
    ensures reads { ReadsJournal K.keeper keeper.old keeper.new result }
{
    let mut runs = RowRuns::new(alloc);
    let mut rows = Vec::new(alloc);
    let mut unfit = None;
    let mut next = read_first(keeper)?;
    // No journal has so many rows.
    for place in 1..i64::MAX as u64 {
        let Some(row) = next else {
            return Ok(Scanned {
                runs,
                rows,
                last: place as i64 - 1,
                unfit,
            });
        };
        if !stands_at(&row, place) {
            return Err(FeedFault::OutOfPlace { row: place as i64 });
        }
        next = read_behind(keeper, &row)?;
        unfit = first_unfit(unfit, &row);
        runs.count_row(&row)?;
        keep_row(&mut rows, row, from <= place)?;
    }
    Err(FeedFault::OutOfMemory)
}

/// The first row of a journal, if it has any.
fn read_first<K: Keeper>(keeper: &mut K) -> Result<Option<Row>, FeedFault>
    ensures found { IfOk result (λ found. IfSome (K.keeper.told keeper.new).rows (IsFirst found)) }
    ensures err { IfErr result IsKeepers }
    ensures reads { ReadsJournal K.keeper keeper.old keeper.new result }
{
    match first_row(keeper) {
        Ok(found) => Ok(found),
        Err(kind) => Err(FeedFault::from(kind)),
    }
}

/// The row of a journal that comes next behind a row, if there is one.
fn read_behind<K: Keeper>(keeper: &mut K, row: &Row) -> Result<Option<Row>, FeedFault>
    ensures found { IfOk result (λ found. IfSome (K.keeper.told keeper.new).rows (IsFirstFrom (row.now.id +ℤ pos 1) found)) }
    ensures err { IfErr result IsKeepers }
    ensures reads { ReadsJournal K.keeper keeper.old keeper.new result }
{
    match row_behind(keeper, row) {
        Ok(found) => Ok(found),
        Err(kind) => Err(FeedFault::from(kind)),
    }
}

/// Whether the id of a row is its place.
fn stands_at(row: &Row, place: u64) -> bool
    requires small { place < 2 ^ 63 }
    ensures { result ≡ int_eq row.now.id (pos place) }
{
    row.id == place as i64
}

/// The id of the first row that is unfit, after one more came.
fn first_unfit(before: Option<i64>, row: &Row) -> Option<i64>
    ensures { result ≡ option_or before (unfit_in row.now) }
{
    match before {
        Some(id) => Some(id),
        None => { if is_fit(row) { None } else { Some(row.id) } }
    }
}

/// Whether client and serial of a row are numbers of 32 bits.
fn is_fit(row: &Row) -> bool
    ensures { result ≡ is_fit row.now }
{
    is_word(row.client) && is_word(row.serial)
}

fn is_word(number: i64) -> bool
    ensures { result ≡ is_word number }
{
    0 <= number && number <= u32::MAX as i64
}

/// Keeps a row, where it is asked for.
fn keep_row(rows: &mut Vec<Row>, row: Row, is_asked: bool) -> Result<(), OutOfMemory>
    ensures { OnOk result (rows.new.items ≡ (if is_asked then rows.old.items ++ row ∷ [] else rows.old.items)) }
{
    if is_asked {
        rows.push(row)?;
    }
    Ok(())
}
