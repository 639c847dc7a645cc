//! A follower of a journal.

ghost use Rattle.std.specs.Prelude.{◌≡◌, ◌<◌, ◌^◌, [], Some, None, IfOk, IfErr, IfSome};
ghost use Rattle.std.specs.Option.{option_copied};
ghost use Rattle.dns_name.specs.Name.{fold_of};
ghost use Rattle.dns_store.specs.Covered.{IsCovered};
ghost use Rattle.dns_store.specs.Crash.{LeavesOpened};
ghost use Rattle.dns_store.specs.Store.{IsStored};
ghost use Rattle.dns_follow.specs.Following.{want, Takes};
ghost use Rattle.dns_follow.specs.Seen.{state_of, AreStored};
ghost use Rattle.dns_follow.specs.Opening.{IsOpened, IsNotOpened, IsNotStored};
ghost use Rattle.dns_follow.specs.Leaving.{LeavesTaken};

use crate::answer::{FollowFault, Taken};
use crate::carrying::carried;
use crate::open_fault::{FollowOpenFault, follow_kind};
use dns_io::OutOfMemory;
use dns_keeper::{Keeper, Row};
use dns_name::Name;
use dns_name::name_laws::folded_names;
use dns_store::{OpenFault, OpenKind, Store};
use dns_wire::Record;
use dns_zone::Zone;
use std::alloc::Global;
use std::marker::Model;

/// The rows of a journal that is fed, as far as they came in whole batches, the zone that they stand for, and the rows of a batch that came
/// in part, which are held.
#[derive(Drop)]
pub struct Follower<K: Keeper> {
    pub(crate) keeper: K,
    pub(crate) origin: Name,
    pub(crate) zone: Option<Zone>,
    pub(crate) count: u64,
    pub(crate) held: Vec<Row>,
    /// The records of the held rows.
    pub(crate) records: Vec<Record>,
    pub(crate) alloc: Global,
}

impl<K: Keeper> Model for Follower<K> {
    ghost use Rattle.dns_follow.specs.Seen.{SeenOf, IsSound};

    ghost Value = { SeenOf K };

    ghost view = { λ f. record { keeper = f.keeper; origin = f.origin; zone = f.zone; count = f.count; held = f.held.items } };

    ghost invariant = { λ f. IsSound (K.keeper.told f.keeper) f.origin f.zone f.count f.held.items f.records.items };
}

impl<K: Keeper> Follower<K> {
    /// Opens the journal of a keeper: its rows have to stand for a zone of this origin, in whatever case, and its batches to cover them;
    /// or it has neither rows nor batches, and there is no zone yet. The journal stays as it is.
    pub fn open(alloc: Global, keeper: K, origin: Name) -> Result<Follower<K>, FollowOpenFault<K>>
        ensures ok { IfOk result (IsOpened K.keeper (K.keeper.told keeper) origin) }
        ensures err { IfErr result (λ f. IsNotOpened (K.keeper.told keeper) (K.keeper.told f.keeper) origin f.kind) }
        ensures left { IfOk result (λ seen. LeavesOpened K.keeper keeper seen.keeper) }
        ensures left_unopened { IfErr result (λ f. LeavesOpened K.keeper keeper f.keeper) }
    {
        match Follower::over(alloc, keeper, origin) {
            Ok(follower) => Ok(follower),
            Err(OpenFault { kind, keeper }) => Err(FollowOpenFault {
                kind: follow_kind(kind),
                keeper,
            }),
        }
    }

    /// The follower over the journal of a keeper, or why its store was not opened.
    fn over(alloc: Global, keeper: K, origin: Name) -> Result<Follower<K>, OpenFault<K>>
        ensures ok { IfOk result (IsOpened K.keeper (K.keeper.told keeper) origin) }
        ensures err { IfErr result (λ f. IsNotStored (K.keeper.told keeper) (K.keeper.told f.keeper) origin f.kind) }
        ensures left { IfOk result (λ seen. LeavesOpened K.keeper keeper seen.keeper) }
        ensures left_unopened { IfErr result (λ f. LeavesOpened K.keeper keeper f.keeper) }
    {
        folded_names();
        let Ok(folded) = origin.folded(alloc) else {
            return Err(OpenFault {
                kind: OpenKind::OutOfMemory,
                keeper,
            });
        };
        match Store::open(alloc, keeper, origin, 0, None) {
            Ok(store) => Follower::of(alloc, folded, store),
            Err(
                OpenFault {
                    kind: OpenKind::NoZone,
                    keeper,
                },
            ) => Ok(Follower::without_zone(alloc, folded, keeper)),
            Err(fault) => Err(fault),
        }
    }

    /// The follower of a store. No journal has more rows than there are ids.
    fn of(alloc: Global, origin: Name, store: Store<K>) -> Result<Follower<K>, OpenFault<K>>
        requires named { store.zone.origin ≡ origin }
        requires folded { fold_of origin ≡ origin }
        ensures is { IfOk result (λ seen. seen
            ≡ record { keeper = store.keeper; origin = origin; zone = Some store.zone; count = store.row_count; held = [] }) }
        ensures stored { IsStored K.keeper store }
        ensures kind { IfErr result (λ f. f.kind ≡ OpenKind.OutOfMemory) }
        ensures back { IfErr result (λ f. f.keeper ≡ store.keeper) }
    {
        let (keeper, zone, count) = store.into_parts();
        if count > i64::MAX as u64 {
            return Err(OpenFault {
                kind: OpenKind::OutOfMemory,
                keeper,
            });
        }
        Ok(Follower {
            keeper,
            origin,
            zone: Some(zone),
            count,
            held: Vec::new(alloc),
            records: Vec::new(alloc),
            alloc,
        })
    }

    /// The follower of a journal that has neither rows nor batches.
    fn without_zone(alloc: Global, origin: Name, keeper: K) -> Follower<K>
        requires folded { fold_of origin ≡ origin }
        requires rows { IfSome (K.keeper.told keeper).rows (λ rows. rows ≡ []) }
        requires covered { IsCovered (K.keeper.told keeper) }
        ensures is { result ≡ record { keeper = keeper; origin = origin; zone = None; count = 0; held = [] } }
    {
        Follower {
            keeper,
            origin,
            zone: None,
            count: 0,
            held: Vec::new(alloc),
            records: Vec::new(alloc),
            alloc,
        }
    }

    /// The id that is wanted next. Takes no memory.
    pub fn want(&self) -> u64
        ensures { result ≡ want (state_of K.keeper self.now) }
    {
        self.count + self.held.len() as u64 + 1
    }

    /// How many rows are stored. Takes no memory.
    pub fn length(&self) -> u64
        ensures { result ≡ self.now.count }
    {
        self.count
    }

    /// The zone that the stored rows stand for; none where there are none. Takes no memory.
    pub fn zone(&self) -> Option<&Zone>
        ensures is { option_copied result ≡ self.now.zone }
        ensures named { IfSome self.now.zone (λ z. z.origin ≡ self.now.origin) }
        ensures stored { IfSome (K.keeper.told self.now.keeper).rows (AreStored self.now.origin self.now.zone self.now.count) }
    {
        self.zone.as_ref()
    }

    /// Gives the keeper back; held rows are let go.
    pub fn into_keeper(self) -> K
        ensures { result ≡ self.keeper }
    {
        let Follower {
            keeper,
            origin: _,
            zone: _,
            count: _,
            held: _,
            records: _,
            alloc: _,
        } = self;
        keeper
    }

    /// Takes the payload of a frame at this moment (milliseconds, below 2^47), which is that of the stamps of a batch that is stored.
    ///
    /// One that carries no row is `BadFrame`. One whose row came before is `Known`, and one whose row comes later than the wanted one is
    /// `Ahead`: nothing changes. A row that does not go on with the held ones, by client and serial, is `Mixed`, and these are let go. One
    /// without a mark is held. With a mark the held rows and this one are a batch: where all rows with it stand for no zone it is
    /// `Refused`, else it is stored by one append; where the keeper fails it is `KeeperFault`; both let the held rows go. Where memory runs
    /// out, nothing has changed.
    pub fn take(&mut self, payload: &[u8], moment: u64) -> Result<Taken, FollowFault>
        requires moment { moment < 2 ^ 47 }
        ensures takes { Takes self.old.origin (state_of K.keeper self.old) payload.now moment result (state_of K.keeper self.new) }
        ensures named { self.new.origin ≡ self.old.origin }
        ensures left { LeavesTaken K.keeper self.old payload.now moment self.new result }
    {
        match carried(self.alloc, payload) {
            Ok(Some((frame, one))) => self.take_frame(frame, one, moment),
            Ok(None) => Err(FollowFault::BadFrame),
            Err(OutOfMemory) => Err(FollowFault::OutOfMemory),
        }
    }
}
