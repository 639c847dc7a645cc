//! Whether the batches of a journal cover its rows.

ghost use Rattle.std.specs.Prelude.{◌≡◌, ◌∷◌, ◌+ℤ◌, [], pos, List, Some, None, IfOk, IfErr, IfSome, FitsSigned, OnOk};
ghost use Rattle.std.specs.Int.{w64};
ghost use Rattle.dns_keeper.specs.declared.row.Row.{Row as JournalRow};
ghost use Rattle.dns_keeper.specs.declared.batch_row.BatchRow.{BatchRow as Batch};
ghost use Rattle.dns_keeper.specs.Batches.{uncovered};
ghost use Rattle.dns_keeper.specs.Cutting.{Reaches, Passes};
ghost use Rattle.dns_update.specs.declared.replay_kind.ReplayKind.TheVariants.{BatchOutOfPlace as OutOfPlace};
ghost use Rattle.dns_store.specs.declared.opening.OpenKind.TheVariants as open_kind;
ghost use Rattle.dns_store.specs.Opening.{HadNoRow, IsKeepers};
ghost use Rattle.dns_store.specs.Covered.{IsCovered, HadNothing};
ghost use Rattle.dns_store.specs.Covering.{HasBatches, IsFirstOf, IsFirstOn, HaveRuns, TellsPlace, IsUncovered};
ghost use Rattle.dns_store.specs.Recovering.{ReadsRows};

use crate::opening::OpenKind;
use crate::recovering::keeper_kind;
use dns_keeper::{BatchRow, Coverage, Keeper, RowRuns};
use dns_zone::ReplayKind;

/// Looks whether the batches of a keeper cover its rows, whose ids are 1 and those that follow and which have these runs. Where they do
/// not, the refusal has the place at which they cease to.
pub fn look_over<K: Keeper>(keeper: &mut K, runs: RowRuns) -> Result<(), OpenKind>
    requires runs { IfSome (K.keeper.told keeper.old).rows (HaveRuns runs) }
    ensures ok { OnOk result (IsCovered (K.keeper.told keeper.new)) }
    ensures err { IfErr result (IsUncovered (K.keeper.told keeper.old) (K.keeper.told keeper.new)) }
    ensures reads { ReadsRows K.keeper keeper.old keeper.new result }
{
    let mut coverage = Coverage::new(runs);
    let mut next = first_batch(keeper)?;
    for _ in 0..u64::MAX {
        let Some(batch) = next else {
            return end(&coverage);
        };
        take_batch(&mut coverage, &batch)?;
        next = batch_behind(keeper, &batch)?;
    }
    // No journal has so many batches.
    Err(OpenKind::OutOfMemory)
}

/// Sees that a keeper without rows has no batch either.
pub(crate) fn see_no_batch<K: Keeper>(keeper: &mut K) -> Result<(), OpenKind>
    requires empty { HadNoRow (K.keeper.told keeper.old).rows (K.keeper.told keeper.old).rows }
    ensures ok { OnOk result (HadNothing (K.keeper.told keeper.old) (K.keeper.told keeper.new)) }
    ensures err { IfErr result (IsUncovered (K.keeper.told keeper.old) (K.keeper.told keeper.new)) }
    ensures reads { ReadsRows K.keeper keeper.old keeper.new result }
{
    match first_batch(keeper)? {
        None => Ok(()),
        Some(_) => Err(out_of_place(1)),
    }
}

/// Covers rows with the batch that comes next.
fn take_batch(coverage: &mut Coverage, batch: &BatchRow) -> Result<(), OpenKind>
    ensures ok { OnOk result ((rows : List JournalRow) → Reaches rows coverage.old → Passes rows batch.now coverage.old coverage.new) }
    ensures err { IfErr result (TellsPlace (λ place. (rows : List JournalRow) (more : List Batch) → Reaches rows coverage.old
        → uncovered coverage.old.place rows (batch.now ∷ more) ≡ Some place)) }
{
    match coverage.take(batch) {
        Ok(true) => Ok(()),
        Ok(false) => Err(out_of_place(coverage.place())),
        Err(_) => Err(OpenKind::OutOfMemory),
    }
}

/// Whether no row is left, where no batch comes any more.
fn end(coverage: &Coverage) -> Result<(), OpenKind>
    ensures ok { OnOk result ((rows : List JournalRow) → Reaches rows coverage.now → uncovered coverage.now.place rows [] ≡ None) }
    ensures err { IfErr result (TellsPlace (λ place. (rows : List JournalRow) → Reaches rows coverage.now
        → uncovered coverage.now.place rows [] ≡ Some place)) }
{
    match coverage.end() {
        None => Ok(()),
        Some(place) => Err(out_of_place(place)),
    }
}

/// The refusal of batches that cease at this place to cover rows.
fn out_of_place(place: i64) -> OpenKind
    ensures { result ≡ open_kind.Recovery place OutOfPlace }
{
    OpenKind::Recovery {
        row: place,
        kind: ReplayKind::BatchOutOfPlace,
    }
}

/// The first batch of a keeper, if it has any.
pub(crate) fn first_batch<K: Keeper>(keeper: &mut K) -> Result<Option<BatchRow>, OpenKind>
    ensures found { IfOk result (λ found. HasBatches (K.keeper.told keeper.new) (IsFirstOf found)) }
    ensures err { IfErr result IsKeepers }
    ensures reads { ReadsRows K.keeper keeper.old keeper.new result }
{
    match keeper.batch_from(i64::MIN) {
        Ok(found) => Ok(found),
        Err(fault) => Err(keeper_kind(fault)),
    }
}

/// The batch of a keeper that comes next behind a batch, if there is one.
pub(crate) fn batch_behind<K: Keeper>(
    keeper: &mut K,
    batch: &BatchRow,
) -> Result<Option<BatchRow>, OpenKind>
    ensures found { IfOk result (λ found. HasBatches (K.keeper.told keeper.new) (IsFirstOn (batch.now.first +ℤ pos 1) found)) }
    ensures err { IfErr result IsKeepers }
    ensures reads { ReadsRows K.keeper keeper.old keeper.new result }
{
    // A batch that covers rows begins at one of them, and no journal has so many.
    let Some(first) = first_behind(batch) else {
        return Err(OpenKind::OutOfMemory);
    };
    match keeper.batch_from(first) {
        Ok(found) => Ok(found),
        Err(fault) => Err(keeper_kind(fault)),
    }
}

/// The id that follows the first of a batch, if there is one.
fn first_behind(batch: &BatchRow) -> Option<i64>
    ensures next { IfSome result (λ id. id ≡ batch.now.first +ℤ pos 1) }
    ensures fits { IfSome result (FitsSigned w64) }
{
    if batch.first == i64::MAX {
        None
    } else {
        Some(batch.first + 1)
    }
}
