//! A zone that takes rows behind those of its journal.

ghost use Rattle.std.specs.Prelude.{◌≡◌, ◌++◌, ◌∷◌, [], ◌+◌, pos, ℕ, List, Some, true, IfOk, IfErr};
ghost use Rattle.std.specs.List.{list_any};
ghost use Rattle.dns_wire.specs.declared.record.Record.{Record as ZoneRecord};
ghost use Rattle.dns_wire.specs.declared.record_type.TheConstants.{SOA};
ghost use Rattle.dns_keeper.specs.declared.row.Row.{Row as JournalRow};
ghost use Rattle.dns_zone_map.specs.Zone.{is_type};
ghost use Rattle.dns_update.specs.Replay.{Replays};
ghost use Rattle.dns_update.specs.declared.replay_kind.ReplayKind.TheVariants.{NotOneSoa};
ghost use Rattle.dns_zone.specs.declared.replaying.ReplayFault.TheVariants as fault;
ghost use Rattle.dns_zone.specs.Replaying.{HasTaken, TellsEnd};
ghost use Rattle.dns_zone.specs.Growing.{Behind};

use crate::placement::has_soa;
use crate::replaying::{ReplayFault, Replaying, last_of, take_change};
use crate::zone::Zone;
use dns_keeper::Row;
use dns_update::ReplayKind;
use dns_zone_map::ZoneMap;
use std::alloc::Global;
use std::marker::Model;

/// A zone that takes rows behind those that stand for it, one by one, and that can be had back as it was. It takes time for the names of the
/// rows alone.
#[derive(Drop)]
pub struct Growing {
    map: ZoneMap,
    /// The id of the last row.
    last: i64,
}

impl Model for Growing {
    ghost use Rattle.dns_zone.specs.Growing.{GrowingOf, IsGrowing};

    ghost Value = { GrowingOf };

    ghost view = { λ g. record { now = record { origin = g.map.origin; records = g.map.records; last = g.last }; before = g.map.before } };

    ghost invariant = { λ g. IsGrowing g.map };
}

impl Zone {
    /// The zone that these rows make behind so many that stand for this one (`done`), whose ids are 1 and those that follow. The first of
    /// them that is refused, or the last where they leave no SOA, is told, as a replay of all rows tells it; this zone stays as it is. Copies
    /// all records.
    pub fn grown(&self, alloc: Global, rows: &[Row], done: u64) -> Result<Zone, ReplayFault>
        ensures origin { IfOk result (λ zone. zone.origin ≡ self.now.origin) }
        ensures records { IfOk result (λ zone. Behind self.now done
            (λ front. Replays self.now.origin (front ++ rows.now) (Ok zone.records))) }
        ensures fault { IfErr result (TellsEnd (λ end. Behind self.now done (λ front. Replays self.now.origin (front ++ rows.now) end))) }
    {
        let mut replaying = Replaying::behind(alloc, self, done)?;
        for row in rows {
            match replaying.take(alloc, row) {
                Ok(()) => {}
                Err(fault) => return Err(fault),
            }
        }
        replaying.finish()
    }

    /// Begins to take rows behind so many that stand for this zone (`done`), whose ids are 1 and those that follow. Where memory runs out, or
    /// no journal has so many rows, the zone is given back.
    pub fn growing(self, alloc: Global, done: u64) -> Result<Growing, Zone>
        ensures before { IfOk result (λ growing. growing.before ≡ Some self.records) }
        ensures origin { IfOk result (λ growing. growing.now.origin ≡ self.origin) }
        ensures taken { IfOk result (λ growing. Behind self done (HasTaken growing.now)) }
        ensures err { IfErr result (λ zone. zone ≡ self) }
    {
        let Some(last) = last_of(done) else {
            return Err(self);
        };
        let Zone { mut map } = self;
        match map.begin(alloc) {
            Ok(()) => Ok(Growing { map, last }),
            Err(_) => Err(Zone { map }),
        }
    }
}

impl Growing {
    /// Takes the next row. Tells false where it is that of a snapshot, which is not taken: before it nothing is left to be had back.
    /// After that, and after a fault, no other is to be taken.
    pub fn take(&mut self, alloc: Global, row: &Row) -> Result<bool, ReplayFault>
        ensures before { self.new.before ≡ self.old.before }
        ensures origin { self.new.now.origin ≡ self.old.now.origin }
        ensures taken { IfOk result (λ is_taken. is_taken ≡ true
            → (rows : List JournalRow) → HasTaken self.old.now rows → HasTaken self.new.now (rows ++ row.now ∷ [])) }
        ensures fault { IfErr result (TellsEnd (λ end. (rows more : List JournalRow) → HasTaken self.old.now rows
            → Replays self.old.now.origin (rows ++ row.now ∷ more) end)) }
    {
        let place = self.place();
        match take_change(alloc, &mut self.map, place, row) {
            Ok(is_change) => {
                self.pass(row);
                Ok(is_change)
            }
            Err(fault) => Err(fault),
        }
    }

    /// Goes behind a row.
    fn pass(&mut self, row: &Row)
        ensures before { self.new.before ≡ self.old.before }
        ensures origin { self.new.now.origin ≡ self.old.now.origin }
        ensures records { self.new.now.records ≡ self.old.now.records }
        ensures last { self.new.now.last ≡ row.now.id }
    {
        self.last = row.id;
    }

    /// The place of the next row, counted from 1.
    fn place(&self) -> u64
        ensures { (n : ℕ) → self.now.now.last ≡ pos n → result ≡ n + 1 }
    {
        if self.last < 0 {
            return 0;
        }
        self.last as u64 + 1
    }

    /// Whether the rows leave an SOA: only then there is a zone.
    pub fn has_soa(&self) -> bool
        ensures { result ≡ list_any (is_type SOA) self.now.now.records }
    {
        has_soa(&self.map)
    }

    /// The refusal of rows that leave no SOA: the last of them.
    pub fn without_soa(&self) -> ReplayFault
        ensures { result ≡ fault.Refused self.now.now.last NotOneSoa }
    {
        ReplayFault::Refused {
            row: self.last,
            kind: ReplayKind::NotOneSoa,
        }
    }

    /// The zone that the rows stand for, which leave an SOA. Takes no memory.
    pub fn keep(self) -> Zone
        requires soa { list_any (is_type SOA) self.now.records ≡ true }
        ensures { result ≡ record { origin = self.now.origin; records = self.now.records } }
    {
        let Growing { mut map, last: _ } = self;
        map.keep();
        Zone::of(map)
    }

    /// The zone as it was before the first of the rows. Takes no memory.
    pub fn undo(self) -> Zone
        ensures { (records : List ZoneRecord) → self.before ≡ Some records
            → result ≡ record { origin = self.now.origin; records = records } }
    {
        let Growing { mut map, last: _ } = self;
        map.undo();
        Zone::of(map)
    }
}
