//! What updates and journals obey: each law is a call that does nothing and whose contract is the law.

ghost use Rattle.std.specs.Prelude.{◌≡◌, ◌+◌, ◌≤◌, ◌++◌, ℕ, pos, List, [], Bool, true, length, Result, Ok};
ghost use Rattle.std.specs.List.{list_any, AllByRecursion};
ghost use Rattle.dns_name.specs.Name.{IsName, fold_of};
ghost use Rattle.dns_wire.specs.declared.record_type.TheConstants.{SOA};
ghost use Rattle.dns_wire.specs.declared.record.Record.{Record};
ghost use Rattle.dns_wire.specs.declared.message.Message.{Message};
ghost use Rattle.dns_wire.specs.Standing.{RecordAt};
ghost use Rattle.dns_wire.specs.WireFormat.{record_bytes};
ghost use Rattle.dns_wire.specs.Messages.{MessageAt};
ghost use Rattle.dns_wire.specs.ReadBack.{ReadsBack, IsOfItsType};
ghost use Rattle.dns_keeper.specs.declared.row.Row.{Row as JournalRow};
ghost use Rattle.dns_keeper.specs.Rows.{last_id, appended};
ghost use Rattle.dns_keeper.specs.Batches.{AreNumbered};
ghost use Rattle.dns_zone_map.specs.Zone.{Contents, is_type, serial_of, IsEntry, IsSoFar, IsZone};
ghost use Rattle.dns_zone_map.specs.Changes.{set_serial};
ghost use Rattle.dns_update.specs.Change.{fold_record, step, steps, changes, batch_of, serial_after_batch, serial_after, applied};
ghost use Rattle.dns_update.specs.declared.verdict.Verdict.TheVariants.{Passes};
ghost use Rattle.dns_update.specs.Verdict.{prescan, verdict_of};
ghost use Rattle.dns_update.specs.Replay.{Refusal, AreBytes, IsOneRecord, IsJournalledAsIs, AreShortRows, opening_of, RunsTo, MayCome, Replays};

/// What holds of serials.
pub fn serials()
    // A serial that is set before an addition or deletion and after it is as if it were set after it alone.
    ensures { (origin : List (List ℕ)) (records : List Record) (r : Record) (serial : ℕ)
        → set_serial serial (step origin (set_serial serial records) r) ≡ set_serial serial (step origin records r) }
{}

/// What holds of the verdict on an update.
pub fn verdicts()
    // An update that passes has passed the prescan (RFC 2136 3.4.1).
    ensures { (zone : Contents) (message : Message) (allow_update : Bool) → verdict_of zone message allow_update ≡ Passes
        → prescan zone.origin message.authority ≡ Passes }
{}

/// What holds of the batch of an update.
pub fn batches()
    // Added and deleted one by one, its records do what the update does.
    ensures steps { (origin : List (List ℕ)) (records updates : List Record)
        → steps origin records (batch_of origin records updates) ≡ changes origin records updates }
    // Its records can be journalled where the update passes the prescan and its records read back.
    ensures journalled { (origin : List (List ℕ)) (records updates : List Record) → AllByRecursion ReadsBack updates
        → prescan origin updates ≡ Passes → AllByRecursion (IsJournalledAsIs origin) (batch_of origin records updates) }
    // They pass the prescan again.
    ensures passes { (origin : List (List ℕ)) (records updates : List Record) → AllByRecursion ReadsBack updates
        → prescan origin updates ≡ Passes → prescan origin (batch_of origin records updates) ≡ Passes }
    // They are no more than those of the update.
    ensures few { (origin : List (List ℕ)) (records updates : List Record) → length (batch_of origin records updates) ≤ length updates }
{}

/// What holds of the rows of a journal.
pub fn rows()
    // Rows run to one end.
    ensures one { (origin : List (List ℕ)) (place : ℕ) (records : List Record) (rows : List JournalRow) (a b : Result (List Record) Refusal)
        → RunsTo origin place records rows a → RunsTo origin place records rows b → a ≡ b }
    // Rows after others go on where those ended.
    ensures on { (origin : List (List ℕ)) (place : ℕ) (records : List Record) (rows more : List JournalRow)
        (middle : List Record) (end : Result (List Record) Refusal)
        → RunsTo origin place records rows (Ok middle) → RunsTo origin (place + length rows) middle more end
        → RunsTo origin place records (rows ++ more) end }
{}

/// What holds of records that stand in messages and in rows.
pub fn standing_records()
    // Their data is of their type, whether their names were compressed or not.
    ensures form { (bytes : List ℕ) (i j : ℕ) (r : Record) → RecordAt bytes i r j → IsOfItsType r }
    // They read as themselves when they were written, their names uncompressed.
    ensures back { (bytes : List ℕ) (i j : ℕ) (r : Record) → AreBytes bytes → RecordAt bytes i r j → ReadsBack r }
    // A record that reads back is what its own bytes are, from the first to the last.
    ensures alone { (r : Record) → ReadsBack r → IsOneRecord (record_bytes r) r }
    // Written with small letters, a record that reads back reads back.
    ensures folded { (r : Record) → ReadsBack r → ReadsBack (fold_record r) }
{}

/// What one addition or deletion leaves of the records of a zone.
pub fn zone_steps()
    // They may become those of a zone again, where an addition is fit for it.
    ensures so_far { (origin : List (List ℕ)) (records : List Record) (r : Record) → MayCome origin r → IsSoFar origin records
        → IsSoFar origin (step origin records r) }
    // The SOA stays.
    ensures soa { (origin : List (List ℕ)) (records : List Record) (r : Record) → AllByRecursion (IsEntry origin) records
        → list_any (is_type SOA) records ≡ true → list_any (is_type SOA) (step origin records r) ≡ true }
    // So it is when a serial is set.
    ensures serial { (origin : List (List ℕ)) (records : List Record) (serial : ℕ) → IsSoFar origin records
        → IsSoFar origin (set_serial serial records) }
    // A change that can be journalled is fit.
    ensures fit { (origin : List (List ℕ)) (r : Record) → IsJournalledAsIs origin r → MayCome origin r }
{}

/// What holds of the records that a batch leaves.
pub fn applied_batches()
    // They are a zone's where those before were.
    ensures zone { (origin : List (List ℕ)) (records batch : List Record) (serial : ℕ) → IsZone origin records
        → AllByRecursion (IsJournalledAsIs origin) batch → IsZone origin (applied origin records batch serial) }
    // Their serial is the one that was set.
    ensures serial { (origin : List (List ℕ)) (records batch : List Record) (serial : ℕ) → IsZone origin records
        → AllByRecursion (IsJournalledAsIs origin) batch → serial_of (applied origin records batch serial) ≡ serial }
{}

/// What the rows of a journal stand for.
pub fn replays()
    // They stand for one list of records, or one refusal.
    ensures one { (origin : List (List ℕ)) (rows : List JournalRow) (a b : Result (List Record) Refusal)
        → Replays origin rows a → Replays origin rows b → a ≡ b }
    // They stand for the records of a zone, where reading each row gives data of at most 65,535 bytes, as reading does.
    ensures zone { (origin : List (List ℕ)) (rows : List JournalRow) (records : List Record) → fold_of origin ≡ origin
        → AreShortRows rows → Replays origin rows (Ok records) → IsZone origin records }
    // What a journal begins with stands for the zone that it was made of.
    ensures opening { (origin : List (List ℕ)) (client : ℕ) (stamp : List ℕ) (records : List Record) → IsName origin → IsZone origin records
        → AllByRecursion ReadsBack records
        → Replays origin (appended [] client (serial_of records) stamp (opening_of (record { origin = origin; records = records })))
        (Ok records) }
    // The last id is their number.
    ensures last { (origin : List (List ℕ)) (rows : List JournalRow) (records : List Record)
        → Replays origin rows (Ok records) → last_id rows ≡ pos (length rows) }
    // Their ids are 1 and those that follow.
    ensures numbered { (origin : List (List ℕ)) (rows : List JournalRow) (records : List Record)
        → Replays origin rows (Ok records) → AreNumbered (pos 1) rows }
    // Grown by a batch that can be journalled, they stand for the zone after it.
    ensures batch { (origin : List (List ℕ)) (rows : List JournalRow) (client : ℕ) (stamp : List ℕ) (records batch : List Record)
        → AllByRecursion (IsJournalledAsIs origin) batch → IsZone origin records → Replays origin rows (Ok records)
        → Replays origin (appended rows client (serial_after_batch origin records batch) stamp batch)
        (Ok (applied origin records batch (serial_after_batch origin records batch))) }
    // Grown by the batch of an update that passes, they stand for the zone that the update leaves.
    ensures update { (origin : List (List ℕ)) (rows : List JournalRow) (client : ℕ) (stamp : List ℕ) (records : List Record)
        (message : Message) (allow_update : Bool)
        → IsZone origin records → AllByRecursion ReadsBack message.authority
        → verdict_of (record { origin = origin; records = records }) message allow_update ≡ Passes → Replays origin rows (Ok records)
        → Replays origin (appended rows client (serial_after origin records message.authority) stamp
        (batch_of origin records message.authority))
        (Ok (applied origin records (batch_of origin records message.authority) (serial_after origin records message.authority))) }
{}

/// What holds of an update that is read from bytes: its records read as themselves when they were written.
pub fn read_updates(bytes: &[u8])
    ensures { (message : Message) → MessageAt bytes.now message → AllByRecursion ReadsBack message.authority }
{
    let _bytes = bytes.len();
}
