//! How a follower takes a frame that carries a row.

ghost use Rattle.std.specs.Prelude.{◌≡◌, ◌<◌, ◌^◌, ◌++◌, ◌∷◌, [], ℕ, List, Some, Err, OnOk, OnErr};
ghost use Rattle.dns_wire.specs.declared.record.Record.{Record as OneRecord};
ghost use Rattle.dns_keeper.specs.declared.row.Row.{Row as JournalRow};
ghost use Rattle.dns_wire.specs.WireFormat.{AreShort};
ghost use Rattle.dns_keeper.specs.Calls.{Appends};
ghost use Rattle.dns_follow.specs.Feed.{row_of};
ghost use Rattle.dns_follow.specs.Following.{IsRow, Fits, TakesFrame};
ghost use Rattle.dns_follow.specs.Seen.{state_of, IsWritable};
ghost use Rattle.dns_follow.specs.Growing.{next_of, before_of, IsKeepable};
ghost use Rattle.dns_follow.specs.Leaving.{LeavesFrame};
ghost use Rattle.dns_follow.specs.BatchEnds.{stored_as, refused_as, LeavesHeld};

use crate::answer::{FollowFault, Taken};
use crate::carrying::{goes_on, row_of};
use crate::follower::Follower;
use crate::frame::Frame;
use crate::ready::{Ready, Unready, make_ready};
use dns_io::OutOfMemory;
use dns_keeper::{KeepFault, Keeper, Row};
use dns_wire::{Record, Records};
use dns_zone::{ReplayFault, Zone};
use std::alloc::Global;
use std::mem;

impl<K: Keeper> Follower<K> {
    /// Takes a frame that carries a row, whose bytes are this record.
    pub(crate) fn take_frame(
        &mut self,
        frame: Frame,
        one: Record,
        moment: u64,
    ) -> Result<Taken, FollowFault>
        requires moment { moment < 2 ^ 47 }
        requires row { IsRow frame one }
        requires good { IsWritable one }
        ensures takes { TakesFrame self.old.origin (state_of K.keeper self.old) frame moment result (state_of K.keeper self.new) }
        ensures named { self.new.origin ≡ self.old.origin }
        ensures left { LeavesFrame K.keeper self.old frame moment self.new result }
    {
        let (want, got) = (self.want(), frame.id);
        if got < want {
            return Ok(Taken::Known);
        }
        if want < got {
            return Ok(Taken::Ahead { want, got });
        }
        if !goes_on(self.held.last(), &frame) {
            let_go(&mut self.held, &mut self.records);
            return Err(FollowFault::Mixed { row: got as i64 });
        }
        if frame.mark == 0 {
            self.hold(frame, one)
        } else {
            self.store(frame, one, moment)
        }
    }

    /// Holds the row of a frame that goes on with the held ones and ends no batch.
    fn hold(&mut self, frame: Frame, one: Record) -> Result<Taken, FollowFault>
        requires row { IsRow frame one }
        requires good { IsWritable one }
        requires fits { Fits (state_of K.keeper self.old) frame }
        requires mark { frame.mark ≡ 0 }
        ensures takes { (moment : ℕ) → TakesFrame self.old.origin
            (state_of K.keeper self.old) frame moment result (state_of K.keeper self.new) }
        ensures named { self.new.origin ≡ self.old.origin }
        ensures left { (moment : ℕ) → LeavesFrame K.keeper self.old frame moment self.new result }
    {
        let row = row_of(self.alloc, frame);
        match push_row(&mut self.held, &mut self.records, row, one) {
            Ok(()) => Ok(Taken::Held),
            Err(OutOfMemory) => Err(FollowFault::OutOfMemory),
        }
    }

    /// Stores the held rows with the one of a frame that goes on with them and ends their batch.
    fn store(&mut self, frame: Frame, one: Record, moment: u64) -> Result<Taken, FollowFault>
        requires moment { moment < 2 ^ 47 }
        requires row { IsRow frame one }
        requires good { IsWritable one }
        requires fits { Fits (state_of K.keeper self.old) frame }
        requires mark { frame.mark ≡ 1 }
        ensures takes { TakesFrame self.old.origin (state_of K.keeper self.old) frame moment result (state_of K.keeper self.new) }
        ensures named { self.new.origin ≡ self.old.origin }
        ensures left { LeavesFrame K.keeper self.old frame moment self.new result }
    {
        let (alloc, id, client, serial) = (self.alloc, frame.id, frame.client, frame.serial);
        let row = row_of(alloc, frame);
        match push_row(&mut self.held, &mut self.records, row, one) {
            Ok(()) => {}
            Err(OutOfMemory) => return Err(FollowFault::OutOfMemory),
        }
        let zone = mem::replace(&mut self.zone, None);
        match make_ready(alloc, &self.origin, zone, &self.held, self.count) {
            Ok(ready) => {
                let (zone, done) = append_batch(
                    alloc,
                    &mut self.keeper,
                    ready,
                    client,
                    serial,
                    moment,
                    &mut self.records,
                );
                self.zone = zone;
                end_batch(&mut self.held, &mut self.records, &mut self.count, id, done)
            }
            Err(Unready { fault, zone }) => {
                self.zone = zone;
                Err(refuse_batch(&mut self.held, &mut self.records, fault))
            }
        }
    }
}

/// Appends the records of a batch to a journal, and gives the zone with it, or, where the keeper refuses it, the one without it.
fn append_batch<K: Keeper>(
    alloc: Global,
    keeper: &mut K,
    ready: Ready,
    client: u32,
    serial: u32,
    moment: u64,
    records: &mut Vec<Record>,
) -> (Option<Zone>, Result<(), KeepFault>)
    requires moment { moment < 2 ^ 47 }
    requires short { AreShort records.old.items }
    requires keepable { IsKeepable ready }
    ensures appended { Appends K.keeper keeper.old keeper.new client serial moment records.old.items result.1 }
    ensures same { records.new.items ≡ records.old.items }
    ensures kept { OnOk result.1 (result.0 ≡ Some (next_of ready)) }
    ensures undone { OnErr result.1 (result.0 ≡ before_of ready) }
{
    let batch = Records::from_vec(mem::replace(records, Vec::new(alloc)));
    let result = keeper.append(client, serial, moment, &batch);
    *records = batch.into_vec();
    match result {
        Ok(()) => (Some(ready.keep()), Ok(())),
        Err(fault) => (ready.undo(), Err(fault)),
    }
}

/// Ends a batch that was handed to the keeper: where it was stored its rows are counted, the last of which has this id, and let go; where
/// the keeper failed they are let go; where memory ran out the last one is held no more.
fn end_batch(
    held: &mut Vec<Row>,
    records: &mut Vec<Record>,
    count: &mut u64,
    id: u64,
    appended: Result<(), KeepFault>,
) -> Result<Taken, FollowFault>
    ensures answer { result ≡ stored_as id appended }
    ensures counted { OnOk appended (count.new ≡ id) }
    ensures uncounted { OnErr appended (count.new ≡ count.old) }
    ensures held { LeavesHeld (stored_as id appended) held.old.items held.new.items }
    ensures records { LeavesHeld (stored_as id appended) records.old.items records.new.items }
{
    match appended {
        Ok(()) => {
            *count = id;
            let_go(held, records);
            Ok(Taken::Stored { length: id })
        }
        Err(KeepFault::Failed) => {
            let_go(held, records);
            Err(FollowFault::KeeperFault)
        }
        Err(KeepFault::OutOfMemory) => {
            pop_row(held, records);
            Err(FollowFault::OutOfMemory)
        }
    }
}

/// Ends a batch that makes no zone: its rows are let go; where memory ran out the last one is held no more.
fn refuse_batch(held: &mut Vec<Row>, records: &mut Vec<Record>, fault: ReplayFault) -> FollowFault
    ensures answer { result ≡ refused_as fault }
    ensures held { LeavesHeld (Err (refused_as fault)) held.old.items held.new.items }
    ensures records { LeavesHeld (Err (refused_as fault)) records.old.items records.new.items }
{
    match fault {
        ReplayFault::Refused { row, kind } => {
            let_go(held, records);
            FollowFault::Refused { row, kind }
        }
        ReplayFault::OutOfMemory => {
            pop_row(held, records);
            FollowFault::OutOfMemory
        }
    }
}

/// Adds a row to the held ones, and its record to theirs. Where memory runs out both are as before.
fn push_row(
    held: &mut Vec<Row>,
    records: &mut Vec<Record>,
    row: Row,
    one: Record,
) -> Result<(), OutOfMemory>
    ensures held { OnOk result (held.new.items ≡ held.old.items ++ row ∷ []) }
    ensures records { OnOk result (records.new.items ≡ records.old.items ++ one ∷ []) }
    ensures same_held { OnErr result (held.new.items ≡ held.old.items) }
    ensures same_records { OnErr result (records.new.items ≡ records.old.items) }
{
    if held.push(row).is_err() {
        return Err(OutOfMemory);
    }
    if records.push(one).is_err() {
        held.pop();
        return Err(OutOfMemory);
    }
    Ok(())
}

/// Takes the last row from the held ones, and its record from theirs.
fn pop_row(held: &mut Vec<Row>, records: &mut Vec<Record>)
    ensures held { (rows : List JournalRow) (row : JournalRow) → held.old.items ≡ rows ++ row ∷ [] → held.new.items ≡ rows }
    ensures records { (ones : List OneRecord) (one : OneRecord) → records.old.items ≡ ones ++ one ∷ [] → records.new.items ≡ ones }
{
    held.pop();
    records.pop();
}

/// Lets the held rows go, and their records.
fn let_go(held: &mut Vec<Row>, records: &mut Vec<Record>)
    ensures held { held.new.items ≡ [] }
    ensures records { records.new.items ≡ [] }
{
    held.clear();
    records.clear();
}
