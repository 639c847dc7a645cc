//! How the journal of a zone is opened.

ghost use Rattle.std.specs.Prelude.{◌≡◌, ◌<◌, ◌^◌, Some, IfOk, IfErr, IfSome, IsSomeAnd, IsErrOf};
ghost use Rattle.dns_name.specs.Name.{fold_of};
ghost use Rattle.dns_keeper.specs.Crash.{LeavesTold, LeavesNoOther};
ghost use Rattle.dns_store.specs.Crash.{LeavesRows, LeavesOpened, LeavesOpening, LeavesUnopened, LeavesStoreOn};
ghost use Rattle.dns_store.specs.Opening.{HadNoRow, Begins, AppendsNot, BeginsNot, Recovers, RecoversNot, Opens, OpensNot};
ghost use Rattle.dns_store.specs.Covered.{HadNothing};

use crate::covering::see_no_batch;
use crate::opening_records::opening_of;
use crate::recovering::{Recovered, keeper_kind, read_back};
use crate::store::Store;
use dns_keeper::Keeper;
use dns_name::Name;
use dns_zone::{ReplayKind, Zone};
use std::alloc::Global;

/// Why a store was not opened.
#[derive(Clone, Copy, Debug, PartialEq, Eq)]
pub enum OpenKind {
    /// The rows are no zone's: they end at this one. Or its batches do not cover the rows: they cease to at this one.
    Recovery {
        /// The id of the first row that is refused; where no SOA is left at the end, of the last row, or 0 without rows. Of batches that
        /// do not cover the rows, the id at which the next one should begin.
        row: i64,
        /// Why it is refused.
        kind: ReplayKind,
    },
    /// The keeper failed, and counted it.
    KeeperFault,
    /// The journal has neither rows nor batches, and there is no zone to begin it with.
    NoZone,
    /// Memory ran out.
    OutOfMemory,
}

/// Why a store was not opened, and the keeper, whose rows and batches are as before.
#[derive(Drop)]
pub struct OpenFault<K> {
    /// The cause.
    pub kind: OpenKind,
    /// What was handed in.
    pub keeper: K,
}

impl<K: Keeper> Store<K> {
    /// Opens a journal. One with rows is read back ([`Store::recover`]), and the zone is not used; one without rows is begun
    /// with the zone at this moment ([`Store::begin`]; milliseconds, below 2^47). A refusal leaves rows and batches as before. Where a
    /// crash might leave just these before, what it may leave from now on goes on past them by one batch at most.
    pub fn open(
        alloc: Global,
        mut keeper: K,
        origin: Name,
        moment: u64,
        zone: Option<Zone>,
    ) -> Result<Store<K>, OpenFault<K>>
        requires moment { moment < 2 ^ 47 }
        requires origin { IfSome zone (λ z. z.origin ≡ fold_of origin) }
        ensures ok { IfOk result (Opens K.keeper (K.keeper.told keeper) origin zone moment) }
        ensures err { IfErr result (λ f. OpensNot (K.keeper.told keeper) (K.keeper.told f.keeper) origin zone f.kind) }
        ensures left { IfOk result (λ store. LeavesOpened K.keeper keeper store.keeper) }
        ensures left_unopened { IfErr result (λ f. LeavesUnopened K.keeper zone moment keeper f.keeper) }
        ensures left_on { LeavesRows K.keeper keeper → IfOk result (LeavesStoreOn K.keeper) }
    {
        match keeper.row_from(i64::MIN) {
            Ok(None) => begin_with(alloc, keeper, moment, zone),
            Ok(Some(_)) => Store::recover(alloc, keeper, &origin),
            Err(fault) => refuse(keeper_kind(fault), keeper),
        }
    }

    /// Begins the journal of a keeper that was looked at (`Keeper::row_from` of the least id) and has no row. Where it has a batch it is
    /// refused; else there is one append at this moment (milliseconds, below 2^47) of a snapshot row and the zone's records, all with the
    /// SOA's serial and client 0. A refusal leaves rows and batches as before.
    pub fn begin(
        alloc: Global,
        keeper: K,
        moment: u64,
        zone: Zone,
    ) -> Result<Store<K>, OpenFault<K>>
        requires moment { moment < 2 ^ 47 }
        requires empty { HadNoRow (K.keeper.told keeper).rows (K.keeper.told keeper).rows }
        ensures ok { IfOk result (Begins K.keeper (K.keeper.told keeper) zone moment) }
        ensures err { IfErr result (λ f. BeginsNot (K.keeper.told keeper) (K.keeper.told f.keeper) (Some zone) f.kind) }
        ensures left { IfOk result (λ store. LeavesRows K.keeper store.keeper) }
        ensures left_unopened { IfErr result (λ f. LeavesOpening K.keeper zone moment keeper f.keeper) }
    {
        begin_with(alloc, keeper, moment, Some(zone))
    }

    /// Reads a journal back, row by row from the least id on: the zone that its rows stand for, whose origin this is, in
    /// whatever case. Rows that are no zone's are refused with the first that is wrong, and no rows as none with an SOA. Then its batches
    /// are read: where they do not cover the rows they are refused with the place at which they cease to. Rows and batches stay as they
    /// are.
    pub fn recover(alloc: Global, mut keeper: K, origin: &Name) -> Result<Store<K>, OpenFault<K>>
        ensures ok { IfOk result (Recovers K.keeper (K.keeper.told keeper) origin.now) }
        ensures err { IfErr result (λ f. RecoversNot (K.keeper.told keeper) (K.keeper.told f.keeper) origin.now f.kind) }
        ensures left { IfOk result (λ store. LeavesNoOther (K.keeper.may_leave keeper) (K.keeper.may_leave store.keeper)) }
        ensures left_unopened { IfErr result (λ f. LeavesNoOther (K.keeper.may_leave keeper) (K.keeper.may_leave f.keeper)) }
    {
        match read_back(alloc, &mut keeper, origin) {
            Ok(Recovered { zone, row_count }) => Ok(Store {
                keeper,
                row_count,
                zone,
                alloc,
            }),
            Err(kind) => refuse(kind, keeper),
        }
    }
}

/// Begins the journal of a keeper that has no row, where it has no batch and there is a zone.
fn begin_with<K: Keeper>(
    alloc: Global,
    mut keeper: K,
    moment: u64,
    zone: Option<Zone>,
) -> Result<Store<K>, OpenFault<K>>
    requires moment { moment < 2 ^ 47 }
    requires empty { HadNoRow (K.keeper.told keeper).rows (K.keeper.told keeper).rows }
    ensures ok { IfOk result (λ store. IsSomeAnd zone (λ z. Begins K.keeper (K.keeper.told keeper) z moment store)) }
    ensures err { IfErr result (λ f. BeginsNot (K.keeper.told keeper) (K.keeper.told f.keeper) zone f.kind) }
    ensures left { IfOk result (λ store. LeavesRows K.keeper store.keeper) }
    ensures left_unopened { IfErr result (λ f. LeavesUnopened K.keeper zone moment keeper f.keeper) }
{
    match see_no_batch(&mut keeper) {
        Ok(()) => match zone {
            Some(zone) => append_opening(alloc, keeper, moment, zone),
            None => refuse(OpenKind::NoZone, keeper),
        },
        Err(kind) => refuse(kind, keeper),
    }
}

/// Begins the journal of a keeper that has neither rows nor batches.
fn append_opening<K: Keeper>(
    alloc: Global,
    mut keeper: K,
    moment: u64,
    zone: Zone,
) -> Result<Store<K>, OpenFault<K>>
    requires moment { moment < 2 ^ 47 }
    requires empty { HadNothing (K.keeper.told keeper) (K.keeper.told keeper) }
    ensures ok { IfOk result (Begins K.keeper (K.keeper.told keeper) zone moment) }
    ensures err { IfErr result (λ f. AppendsNot (K.keeper.told keeper) (K.keeper.told f.keeper) f.kind) }
    ensures left { IfOk result (λ store. LeavesRows K.keeper store.keeper) }
    ensures left_unopened { IfErr result (λ f. LeavesOpening K.keeper zone moment keeper f.keeper) }
{
    let Ok(records) = opening_of(alloc, &zone) else {
        return refuse(OpenKind::OutOfMemory, keeper);
    };
    match keeper.append(0, zone.serial(), moment, &records) {
        Ok(()) => Ok(Store {
            keeper,
            row_count: records.len() as u64,
            zone,
            alloc,
        }),
        Err(refused) => refuse(keeper_kind(refused), keeper),
    }
}

fn refuse<K: Keeper>(kind: OpenKind, keeper: K) -> Result<Store<K>, OpenFault<K>>
    ensures { IsErrOf result (record { kind = kind; keeper = keeper }) }
{
    Err(OpenFault { kind, keeper })
}
