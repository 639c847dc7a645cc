//! The batches of a journal, listed with the first row of each, once the journal is known to be sound.

ghost use Rattle.std.specs.Prelude.{◌≡◌, ◌++◌, ◌∷◌, [], true, false, Some, IfOk, IfErr, IfSome, OnOk};
ghost use Rattle.dns_store.specs.Opening.{HadNoRow, IsKeepers, IsUnread};
ghost use Rattle.dns_store.specs.Covered.{IsCovered};
ghost use Rattle.dns_store.specs.Recovering.{ReadsRows};
ghost use Rattle.dns_store.specs.Listing.{listed_in, listed_with, ListsBy, HasSome, AreSound, IsUnsound};

use crate::covering::{batch_behind, first_batch, see_no_batch};
use crate::opening::OpenKind;
use crate::recovering::{keeper_kind, read_back};
use dns_keeper::{BatchRow, Keeper, Row};
use dns_name::Name;
use std::alloc::Global;

/// A batch of a journal, with what its first row says of it.
#[derive(Clone, Copy, Debug, PartialEq, Eq)]
pub struct ListedBatch {
    /// The id of its first row.
    pub first: i64,
    /// How many rows it has.
    pub count: i64,
    /// The zone's serial after the batch (RFC 1035 3.3.13).
    pub serial: i64,
    /// Who made the change.
    pub client: i64,
}

/// All batches of a journal, by ascending first id, once it is seen that its rows stand for a zone of this origin, in whatever case, and
/// that its batches cover them. A journal without rows may have no batch; where it has none nothing is listed. Rows and batches stay as they
/// are.
pub fn list_batches<K: Keeper>(
    alloc: Global,
    keeper: &mut K,
    origin: &Name,
) -> Result<Vec<ListedBatch>, OpenKind>
    ensures listed { IfOk result (λ listed. ListsBy (K.keeper.told keeper.new) listed.items) }
    ensures sound { OnOk result (AreSound origin.now (K.keeper.told keeper.new)) }
    ensures covered { OnOk result (IsCovered (K.keeper.told keeper.new)) }
    ensures err { IfErr result (IsUnsound (K.keeper.told keeper.old) (K.keeper.told keeper.new) origin.now) }
    ensures reads { ReadsRows K.keeper keeper.old keeper.new result }
{
    see_sound(alloc, keeper, origin)?;
    list_all(alloc, keeper)
}

/// Sees that the rows of a journal stand for a zone of this origin, and that its batches cover them; or that it has neither.
fn see_sound<K: Keeper>(alloc: Global, keeper: &mut K, origin: &Name) -> Result<(), OpenKind>
    ensures sound { OnOk result (AreSound origin.now (K.keeper.told keeper.new)) }
    ensures covered { OnOk result (IsCovered (K.keeper.told keeper.new)) }
    ensures err { IfErr result (IsUnsound (K.keeper.told keeper.old) (K.keeper.told keeper.new) origin.now) }
    ensures reads { ReadsRows K.keeper keeper.old keeper.new result }
{
    if has_row(keeper)? {
        return see_readable(alloc, keeper, origin);
    }
    see_no_batch(keeper)
}

/// Whether a journal has a row.
fn has_row<K: Keeper>(keeper: &mut K) -> Result<bool, OpenKind>
    ensures some { IfOk result (λ has. has ≡ true → HasSome (K.keeper.told keeper.new).rows) }
    ensures none { IfOk result (λ has. has ≡ false → HadNoRow (K.keeper.told keeper.new).rows (K.keeper.told keeper.new).rows) }
    ensures err { IfErr result IsKeepers }
    ensures reads { ReadsRows K.keeper keeper.old keeper.new result }
{
    match keeper.row_from(i64::MIN) {
        Ok(Some(_)) => Ok(true),
        Ok(None) => Ok(false),
        Err(fault) => Err(keeper_kind(fault)),
    }
}

/// Sees that the rows of a journal stand for a zone of this origin, and that its batches cover them.
fn see_readable<K: Keeper>(alloc: Global, keeper: &mut K, origin: &Name) -> Result<(), OpenKind>
    ensures sound { OnOk result (AreSound origin.now (K.keeper.told keeper.new)) }
    ensures covered { OnOk result (IsCovered (K.keeper.told keeper.new)) }
    ensures err { IfErr result (IsUnread (K.keeper.told keeper.old) (K.keeper.told keeper.new) origin.now) }
    ensures reads { ReadsRows K.keeper keeper.old keeper.new result }
{
    match read_back(alloc, keeper, origin) {
        Ok(_) => Ok(()),
        Err(kind) => Err(kind),
    }
}

/// Lists all batches of a keeper.
fn list_all<K: Keeper>(alloc: Global, keeper: &mut K) -> Result<Vec<ListedBatch>, OpenKind>
    ensures listed { IfOk result (λ listed. ListsBy (K.keeper.told keeper.new) listed.items) }
    ensures err { IfErr result IsKeepers }
    ensures reads { ReadsRows K.keeper keeper.old keeper.new result }
{
    let mut listed = Vec::new(alloc);
    let mut next = first_batch(keeper)?;
    for _ in 0..u64::MAX {
        let Some(batch) = next else {
            return Ok(listed);
        };
        let one = listed_batch(keeper, &batch)?;
        add_batch(&mut listed, one)?;
        next = batch_behind(keeper, &batch)?;
    }
    // No journal has so many batches.
    Err(OpenKind::OutOfMemory)
}

/// Adds a batch to those that are listed.
fn add_batch(listed: &mut Vec<ListedBatch>, one: ListedBatch) -> Result<(), OpenKind>
    ensures added { OnOk result (listed.new.items ≡ listed.old.items ++ one ∷ []) }
    ensures err { IfErr result (λ kind. kind ≡ OpenKind.OutOfMemory) }
{
    match listed.push(one) {
        Ok(()) => Ok(()),
        Err(_) => Err(OpenKind::OutOfMemory),
    }
}

/// A batch of a keeper with what its first row says.
fn listed_batch<K: Keeper>(keeper: &mut K, batch: &BatchRow) -> Result<ListedBatch, OpenKind>
    ensures is { IfOk result (λ one. IfSome (K.keeper.told keeper.new).rows (λ rows. one ≡ listed_in rows batch.now)) }
    ensures err { IfErr result IsKeepers }
    ensures reads { ReadsRows K.keeper keeper.old keeper.new result }
{
    match keeper.row_from(batch.first) {
        Ok(Some(row)) => Ok(listed_with(batch, &row)),
        // The rows that a batch covers are there.
        Ok(None) => Err(OpenKind::OutOfMemory),
        Err(fault) => Err(keeper_kind(fault)),
    }
}

/// A batch with what this row says, which is its first one.
fn listed_with(batch: &BatchRow, row: &Row) -> ListedBatch
    ensures { result ≡ listed_with batch.now (Some row.now) }
{
    ListedBatch {
        first: batch.first,
        count: batch.count,
        serial: row.serial,
        client: row.client,
    }
}
