//! How a book is opened: by its store.

ghost use Rattle.std.specs.Prelude.{◌≡◌, ◌<◌, ◌^◌, length, Some, IfOk, IfErr, IfSome};
ghost use Rattle.dns_name.specs.Name.{fold_of};
ghost use Rattle.dns_keeper.specs.Crash.{LeavesNoOther};
ghost use Rattle.dns_store.specs.Crash.{LeavesRows, LeavesOpened, LeavesOpening, LeavesUnopened};
ghost use Rattle.dns_store.specs.Opening.{HadNoRow, BeginsNot, RecoversNot, OpensNot};
ghost use Rattle.dns_book.specs.Counted.{counts_of_zone};
ghost use Rattle.dns_book.specs.Crash.{LeavesOn};
ghost use Rattle.dns_book.specs.Opening.{fresh_of, Begins, Recovers, Opens};

use crate::book::Book;
use dns_counts::Counts;
use dns_keeper::Keeper;
use dns_name::Name;
use dns_store::{OpenFault, Store};
use dns_zone::Zone;
use std::alloc::Global;

impl<K: Keeper> Book<K> {
    /// Opens a journal. One with rows is read back (`Book::recover`), and the zone is not used; one without rows is begun
    /// with the zone at this moment (`Book::begin`; milliseconds, below 2^47). `allow_update` says whether updates are let
    /// in (RFC 2136 3.3). A refusal leaves rows and batches as before. Where a crash might leave just these before, what it may leave
    /// from now on goes on past them by one batch at most.
    pub fn open(
        alloc: Global,
        keeper: K,
        origin: Name,
        allow_update: bool,
        moment: u64,
        zone: Option<Zone>,
    ) -> Result<Book<K>, OpenFault<K>>
        requires moment { moment < 2 ^ 47 }
        requires origin { IfSome zone (λ z. z.origin ≡ fold_of origin) }
        ensures ok { IfOk result (Opens K.keeper (K.keeper.told keeper) origin zone allow_update moment) }
        ensures err { IfErr result (λ f. OpensNot (K.keeper.told keeper) (K.keeper.told f.keeper) origin zone f.kind) }
        ensures left { IfOk result (λ book. LeavesOpened K.keeper keeper book.keeper) }
        ensures left_unopened { IfErr result (λ f. LeavesUnopened K.keeper zone moment keeper f.keeper) }
        ensures left_on { LeavesRows K.keeper keeper → IfOk result (LeavesOn K.keeper) }
    {
        let store = Store::open(alloc, keeper, origin, moment, zone)?;
        Ok(Book::of_store(alloc, store, allow_update))
    }

    /// Begins the journal of a keeper that was looked at (`Keeper::row_from` of the least id) and has no row. Where it has a batch it is
    /// refused; else there is one append at this moment (milliseconds, below 2^47) of a snapshot row and the zone's records, all with the
    /// SOA's serial and client 0. `allow_update` says whether updates are let in (RFC 2136 3.3). A refusal leaves rows and batches as
    /// before.
    pub fn begin(
        alloc: Global,
        keeper: K,
        allow_update: bool,
        moment: u64,
        zone: Zone,
    ) -> Result<Book<K>, OpenFault<K>>
        requires moment { moment < 2 ^ 47 }
        requires empty { HadNoRow (K.keeper.told keeper).rows (K.keeper.told keeper).rows }
        ensures ok { IfOk result (Begins K.keeper (K.keeper.told keeper) zone allow_update moment) }
        ensures err { IfErr result (λ f. BeginsNot (K.keeper.told keeper) (K.keeper.told f.keeper) (Some zone) f.kind) }
        ensures left { IfOk result (λ book. LeavesRows K.keeper book.keeper) }
        ensures left_unopened { IfErr result (λ f. LeavesOpening K.keeper zone moment keeper f.keeper) }
    {
        let store = Store::begin(alloc, keeper, moment, zone)?;
        Ok(Book::of_store(alloc, store, allow_update))
    }

    /// Reads a journal back, row by row from the least id on: the zone that its rows stand for, whose origin this is, in
    /// whatever case. Rows that are no zone's are refused with the first that is wrong, and no rows as none with an SOA; then batches that
    /// do not cover the rows, with the place at which they cease to. `allow_update` says whether updates are let in (RFC 2136 3.3). Rows
    /// and batches stay as they are.
    pub fn recover(
        alloc: Global,
        keeper: K,
        origin: &Name,
        allow_update: bool,
    ) -> Result<Book<K>, OpenFault<K>>
        ensures ok { IfOk result (Recovers K.keeper (K.keeper.told keeper) origin.now allow_update) }
        ensures err { IfErr result (λ f. RecoversNot (K.keeper.told keeper) (K.keeper.told f.keeper) origin.now f.kind) }
        ensures left { IfOk result (λ book. LeavesNoOther (K.keeper.may_leave keeper) (K.keeper.may_leave book.keeper)) }
        ensures left_unopened { IfErr result (λ f. LeavesNoOther (K.keeper.may_leave keeper) (K.keeper.may_leave f.keeper)) }
    {
        let store = Store::recover(alloc, keeper, origin)?;
        Ok(Book::of_store(alloc, store, allow_update))
    }

    /// A book of this store to which nothing has happened. Takes no memory.
    pub(crate) fn of_store(alloc: Global, store: Store<K>, allow_update: bool) -> Book<K>
        ensures { result ≡ fresh_of store allow_update }
    {
        Book {
            counts: counts_of_zone(store.zone()),
            store,
            allow_update,
            alloc,
        }
    }
}

/// The counts of a book of this zone to which nothing has happened.
fn counts_of_zone(zone: &Zone) -> Counts
    ensures { result ≡ counts_of_zone zone.now.records }
{
    let mut counts = Counts::new();
    counts.changed(0, 0, 0, zone.len() as u64);
    counts
}
