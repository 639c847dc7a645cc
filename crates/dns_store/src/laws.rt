//! What stores obey: each law is a call that does nothing and whose contract is the law.

ghost use Rattle.std.specs.Prelude.{◌↔◌, ℕ, List, Ok};
ghost use Rattle.dns_name.specs.Name.{fold_of};
ghost use Rattle.dns_wire.specs.declared.record.Record.{Record};
ghost use Rattle.dns_keeper.specs.declared.row.Row.{Row as JournalRow};
ghost use Rattle.dns_keeper.specs.Batches.{runs_of};
ghost use Rattle.dns_update.specs.Replay.{Replays};
ghost use Rattle.dns_store.specs.Migrated.{StandCovered};

/// What holds of a journal that was written without batches, once the runs of its rows are its batches.
pub fn migrations()
    // Rows and batches stand for the records of a zone exactly where the rows alone stood for them.
    ensures replay { (origin : List (List ℕ)) (rows : List JournalRow) (records : List Record)
        → Replays (fold_of origin) rows (Ok records) ↔ StandCovered origin rows (runs_of rows) records }
{}
