//! The first rows of a journal, read back up to a length.

ghost use Rattle.std.specs.Prelude.{◌++◌, ◌∷◌, [], ℕ, List, IfOk, IfErr, IfSome};
ghost use Rattle.dns_name.specs.Name.{fold_of};
ghost use Rattle.dns_keeper.specs.declared.row.Row.{Row as JournalRow};
ghost use Rattle.dns_update.specs.Replay.{Replays};
ghost use Rattle.dns_zone.specs.Replaying.{TellsEnd};
ghost use Rattle.dns_store.specs.Opening.{IsKeepers};
ghost use Rattle.dns_store.specs.Recovering.{ReadsRows};
ghost use Rattle.dns_store.specs.declared.front.FrontState.TheVariants as state;
ghost use Rattle.dns_store.specs.Front.{IsFront, IsFrontUnread, IsTakenFront, IsZoneOf, IsNext};

use crate::opening::OpenKind;
use crate::recovering::{first_row, kind_of, row_behind};
use dns_keeper::{Keeper, Row};
use dns_name::Name;
use dns_zone::{ReplayFault, Replaying, Zone};
use std::alloc::Global;

/// What so many first rows of a journal are.
#[derive(Drop)]
pub enum Front {
    /// They stand for this zone.
    Zone(Zone),
    /// There are fewer.
    Short {
        /// How many there are.
        rows: u64,
    },
}

/// How far the first rows were taken.
#[derive(Drop)]
enum FrontState {
    /// None was refused.
    Taken(Replaying),
    /// One was refused, or memory ran out at it; those behind it are only counted.
    Refused(ReplayFault),
}

/// Reads the first rows of a keeper back, from the least id on: the zone of this origin, in whatever case, that so many of them stand for.
/// Where a row is refused those behind it are still counted up to this length, so that it is known whether there are so many. No row behind
/// them is read. Rows and batches stay as they are.
pub fn replay_front<K: Keeper>(
    alloc: Global,
    keeper: &mut K,
    origin: &Name,
    length: u64,
) -> Result<Front, OpenKind>
    ensures ok { IfOk result (λ front. IfSome (K.keeper.told keeper.new).rows (IsFront origin.now length front)) }
    ensures err { IfErr result (IsFrontUnread origin.now length (K.keeper.told keeper.new).rows) }
    ensures reads { ReadsRows K.keeper keeper.old keeper.new result }
{
    let mut state = no_row_taken(alloc, origin);
    let mut last = None;
    for rows in 0..length {
        let Some(row) = next_row(keeper, &last)? else {
            return Ok(Front::Short { rows });
        };
        state = take_next(alloc, state, &row);
        last = Some(row);
    }
    match finish(state) {
        Ok(front) => Ok(front),
        Err(fault) => Err(kind_of(fault)),
    }
}

/// No row was taken yet.
fn no_row_taken(alloc: Global, origin: &Name) -> FrontState
    ensures { IsTakenFront origin.now result [] }
{
    match Replaying::new(alloc, origin) {
        Ok(replaying) => FrontState::Taken(replaying),
        Err(_) => FrontState::Refused(ReplayFault::OutOfMemory),
    }
}

/// The row of a keeper that comes next behind the last one that was read, or the first one where none was.
fn next_row<K: Keeper>(keeper: &mut K, last: &Option<Row>) -> Result<Option<Row>, OpenKind>
    ensures found { IfOk result (λ found. IfSome (K.keeper.told keeper.new).rows (IsNext last.now found)) }
    ensures err { IfErr result IsKeepers }
    ensures reads { ReadsRows K.keeper keeper.old keeper.new result }
{
    match last {
        None => first_row(keeper),
        Some(row) => row_behind(keeper, row),
    }
}

/// Takes the row that comes next, where none was refused.
fn take_next(alloc: Global, state: FrontState, row: &Row) -> FrontState
    ensures { (origin : List (List ℕ)) (rows : List JournalRow) → IsTakenFront origin state rows
        → IsTakenFront origin result (rows ++ row.now ∷ []) }
{
    match state {
        FrontState::Taken(replaying) => take_one(alloc, replaying, row),
        FrontState::Refused(fault) => FrontState::Refused(fault),
    }
}

/// Takes the row that comes next behind rows that were all taken.
fn take_one(alloc: Global, mut replaying: Replaying, row: &Row) -> FrontState
    ensures { (origin : List (List ℕ)) (rows : List JournalRow) → IsTakenFront origin (state.Taken replaying) rows
        → IsTakenFront origin result (rows ++ row.now ∷ []) }
{
    match replaying.take(alloc, row) {
        Ok(()) => FrontState::Taken(replaying),
        Err(fault) => FrontState::Refused(fault),
    }
}

/// What the rows that were taken stand for.
fn finish(state: FrontState) -> Result<Front, ReplayFault>
    ensures ok { IfOk result (λ front. (origin : List (List ℕ)) (rows : List JournalRow) → IsTakenFront origin state rows
        → IsZoneOf origin front rows) }
    ensures err { IfErr result (λ fault. (origin : List (List ℕ)) (rows : List JournalRow) → IsTakenFront origin state rows
        → TellsEnd (Replays (fold_of origin) rows) fault) }
{
    match state {
        FrontState::Taken(replaying) => match replaying.finish() {
            Ok(zone) => Ok(Front::Zone(zone)),
            Err(fault) => Err(fault),
        },
        FrontState::Refused(fault) => Err(fault),
    }
}
