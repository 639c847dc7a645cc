//! The rows of a journal, read back one by one.

ghost use Rattle.std.specs.Prelude.{◌≡◌, ◌++◌, ◌∷◌, ◌+ℤ◌, [], pos, List, IfOk, IfErr, IfSome, FitsSigned, OnOk, Ok};
ghost use Rattle.std.specs.Int.{w64};
ghost use Rattle.dns_name.specs.Name.{fold_of};
ghost use Rattle.dns_keeper.specs.declared.row.Row.{Row as JournalRow};
ghost use Rattle.dns_keeper.specs.RunsSoFar.{AreRunsOf};
ghost use Rattle.dns_update.specs.Replay.{Replays};
ghost use Rattle.dns_zone.specs.Replaying.{HasTaken};
ghost use Rattle.dns_store.specs.Store.{HasRows, StandFor};
ghost use Rattle.dns_store.specs.Opening.{AreUnread, IsUnread, IsKeepers};
ghost use Rattle.dns_store.specs.Covered.{IsCovered};
ghost use Rattle.dns_store.specs.Covering.{HaveRuns};
ghost use Rattle.dns_store.specs.Recovering.{kind_of, keeper_kind, TellsRefusal, ReadsRows, IsFirst, IsFirstFrom, AreTaken};

use crate::covering::look_over;
use crate::opening::OpenKind;
use dns_keeper::{KeepFault, Keeper, Row, RowRuns};
use dns_name::Name;
use dns_zone::{ReplayFault, Replaying, Zone};
use std::alloc::Global;

/// A zone that was read back from rows.
#[derive(Drop)]
pub(crate) struct Recovered {
    /// What the rows stand for.
    pub(crate) zone: Zone,
    /// How many they are.
    pub(crate) row_count: u64,
}

/// A zone that was read back from rows, and the runs of these.
#[derive(Drop)]
struct Replay {
    back: Recovered,
    runs: RowRuns,
}

/// Rows that were taken.
#[derive(Drop)]
struct Taken {
    replaying: Replaying,
    /// The runs of them.
    runs: RowRuns,
    /// How many they are.
    row_count: u64,
}

/// Reads all rows of a keeper back, from the least id on: the zone of this origin that they stand for. Then looks whether the batches cover
/// them.
pub(crate) fn read_back<K: Keeper>(
    alloc: Global,
    keeper: &mut K,
    origin: &Name,
) -> Result<Recovered, OpenKind>
    ensures origin { IfOk result (λ back. back.zone.origin ≡ fold_of origin.now) }
    ensures count { IfOk result (λ back. HasRows (K.keeper.told keeper.new).rows back.row_count) }
    ensures zone { IfOk result (λ back. StandFor (K.keeper.told keeper.new).rows back.zone) }
    ensures covered { OnOk result (IsCovered (K.keeper.told keeper.new)) }
    ensures err { IfErr result (IsUnread (K.keeper.told keeper.old) (K.keeper.told keeper.new) origin.now) }
    ensures reads { ReadsRows K.keeper keeper.old keeper.new result }
{
    let Replay { back, runs } = replay_rows(alloc, keeper, origin)?;
    look_over(keeper, runs)?;
    Ok(back)
}

/// Reads all rows of a keeper back, from the least id on: the zone of this origin, in whatever case, that they stand for. Batches are not
/// looked at. Rows and batches stay as they are.
pub fn replay_journal<K: Keeper>(
    alloc: Global,
    keeper: &mut K,
    origin: &Name,
) -> Result<Zone, OpenKind>
    ensures origin { IfOk result (λ zone. zone.origin ≡ fold_of origin.now) }
    ensures zone { IfOk result (StandFor (K.keeper.told keeper.new).rows) }
    ensures err { IfErr result (AreUnread (K.keeper.told keeper.old).rows (K.keeper.told keeper.new).rows origin.now) }
    ensures reads { ReadsRows K.keeper keeper.old keeper.new result }
{
    let Replay { back, runs: _ } = replay_rows(alloc, keeper, origin)?;
    Ok(back.zone)
}

/// Reads all rows of a keeper back, from the least id on: the zone of this origin that they stand for, and their runs.
fn replay_rows<K: Keeper>(alloc: Global, keeper: &mut K, origin: &Name) -> Result<Replay, OpenKind>
    ensures origin { IfOk result (λ replay. replay.back.zone.origin ≡ fold_of origin.now) }
    ensures count { IfOk result (λ replay. HasRows (K.keeper.told keeper.new).rows replay.back.row_count) }
    ensures zone { IfOk result (λ replay. StandFor (K.keeper.told keeper.new).rows replay.back.zone) }
    ensures runs { IfOk result (λ replay. IfSome (K.keeper.told keeper.new).rows (HaveRuns replay.runs)) }
    ensures err { IfErr result (AreUnread (K.keeper.told keeper.old).rows (K.keeper.told keeper.new).rows origin.now) }
    ensures reads { ReadsRows K.keeper keeper.old keeper.new result }
{
    let Taken {
        replaying,
        runs,
        row_count,
    } = take_rows(alloc, keeper, origin)?;
    match replaying.finish() {
        Ok(zone) => Ok(Replay {
            back: Recovered { zone, row_count },
            runs,
        }),
        Err(fault) => Err(kind_of(fault)),
    }
}

/// Takes all rows of a keeper, from the least id on, and counts their runs.
fn take_rows<K: Keeper>(alloc: Global, keeper: &mut K, origin: &Name) -> Result<Taken, OpenKind>
    ensures origin { IfOk result (λ taken. taken.replaying.origin ≡ fold_of origin.now) }
    ensures all { IfOk result (λ taken. IfSome (K.keeper.told keeper.new).rows (AreTaken taken.replaying taken.runs taken.row_count)) }
    ensures err { IfErr result (AreUnread (K.keeper.told keeper.old).rows (K.keeper.told keeper.new).rows origin.now) }
    ensures reads { ReadsRows K.keeper keeper.old keeper.new result }
{
    let mut replaying = no_rows(alloc, origin)?;
    let mut runs = RowRuns::new(alloc);
    let mut next = first_row(keeper)?;
    for row_count in 0..u64::MAX {
        let Some(row) = next else {
            return Ok(Taken {
                replaying,
                runs,
                row_count,
            });
        };
        take_row(alloc, &mut replaying, &row)?;
        count_row(&mut runs, &row)?;
        next = row_behind(keeper, &row)?;
    }
    // No journal has so many rows.
    Err(OpenKind::OutOfMemory)
}

/// No rows yet, of the journal of the zone that has this origin.
fn no_rows(alloc: Global, origin: &Name) -> Result<Replaying, OpenKind>
    ensures origin { IfOk result (λ replaying. replaying.origin ≡ fold_of origin.now) }
    ensures none { IfOk result (λ replaying. HasTaken replaying []) }
    ensures err { IfErr result (λ kind. kind ≡ OpenKind.OutOfMemory) }
{
    match Replaying::new(alloc, origin) {
        Ok(replaying) => Ok(replaying),
        Err(_) => Err(OpenKind::OutOfMemory),
    }
}

/// Takes the next row.
fn take_row(alloc: Global, replaying: &mut Replaying, row: &Row) -> Result<(), OpenKind>
    ensures origin { replaying.new.origin ≡ replaying.old.origin }
    ensures taken { OnOk result ((rows : List JournalRow) → HasTaken replaying.old rows
        → HasTaken replaying.new (rows ++ row.now ∷ [])) }
    ensures err { IfErr result (TellsRefusal (λ end. (rows more : List JournalRow) → HasTaken replaying.old rows
        → Replays replaying.old.origin (rows ++ row.now ∷ more) end)) }
{
    match replaying.take(alloc, row) {
        Ok(()) => Ok(()),
        Err(fault) => Err(kind_of(fault)),
    }
}

/// Counts the next row among the runs.
fn count_row(runs: &mut RowRuns, row: &Row) -> Result<(), OpenKind>
    ensures counted { OnOk result ((rows : List JournalRow) → AreRunsOf rows runs.old → AreRunsOf (rows ++ row.now ∷ []) runs.new) }
    ensures err { IfErr result (λ kind. kind ≡ OpenKind.OutOfMemory) }
{
    match runs.count_row(row) {
        Ok(()) => Ok(()),
        Err(_) => Err(OpenKind::OutOfMemory),
    }
}

/// The row of a keeper that has the least id, if it has any. Rows and batches stay as they are.
pub fn first_row<K: Keeper>(keeper: &mut K) -> Result<Option<Row>, OpenKind>
    ensures found { IfOk result (λ found. IfSome (K.keeper.told keeper.new).rows (IsFirst found)) }
    ensures err { IfErr result IsKeepers }
    ensures reads { ReadsRows K.keeper keeper.old keeper.new result }
{
    match keeper.row_from(i64::MIN) {
        Ok(found) => Ok(found),
        Err(fault) => Err(keeper_kind(fault)),
    }
}

/// The row of a keeper that comes next behind a row, if there is one. Rows and batches stay as they are.
pub fn row_behind<K: Keeper>(keeper: &mut K, row: &Row) -> Result<Option<Row>, OpenKind>
    ensures found { IfOk result (λ found. IfSome (K.keeper.told keeper.new).rows (IsFirstFrom (row.now.id +ℤ pos 1) found)) }
    ensures err { IfErr result IsKeepers }
    ensures reads { ReadsRows K.keeper keeper.old keeper.new result }
{
    // The ids of rows that were taken count them, and no journal has so many.
    let Some(id) = id_behind(row) else {
        return Err(OpenKind::OutOfMemory);
    };
    match keeper.row_from(id) {
        Ok(found) => Ok(found),
        Err(fault) => Err(keeper_kind(fault)),
    }
}

/// The id that follows a row's, if there is one.
fn id_behind(row: &Row) -> Option<i64>
    ensures next { IfSome result (λ id. id ≡ row.now.id +ℤ pos 1) }
    ensures fits { IfSome result (FitsSigned w64) }
{
    if row.id == i64::MAX {
        None
    } else {
        Some(row.id + 1)
    }
}

/// Why a store is not opened, where rows are refused.
pub(crate) fn kind_of(fault: ReplayFault) -> OpenKind
    ensures { result ≡ kind_of fault }
{
    match fault {
        ReplayFault::Refused { row, kind } => OpenKind::Recovery { row, kind },
        ReplayFault::OutOfMemory => OpenKind::OutOfMemory,
    }
}

/// Why a store is not opened, where a call of its keeper is refused.
pub(crate) fn keeper_kind(fault: KeepFault) -> OpenKind
    ensures { result ≡ keeper_kind fault }
{
    match fault {
        KeepFault::Failed => OpenKind::KeeperFault,
        KeepFault::OutOfMemory => OpenKind::OutOfMemory,
    }
}
