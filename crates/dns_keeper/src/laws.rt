//! What the batches and the stamps of a journal obey: each law is a call that does nothing and whose contract is the law.

ghost use Rattle.std.specs.Prelude.{◌≡◌, ◌↔◌, ◌+ℤ◌, ◌++◌, ◌∷◌, [], ℕ, ℤ, pos, List, length, None};
ghost use Rattle.dns_wire.specs.declared.record.Record.{Record};
ghost use Rattle.dns_keeper.specs.declared.row.Row.{Row as JournalRow};
ghost use Rattle.dns_keeper.specs.declared.batch_row.BatchRow.{BatchRow as Batch};
ghost use Rattle.dns_keeper.specs.Rows.{AreAscending, last_id, appended};
ghost use Rattle.dns_keeper.specs.Batches.{AreByFirst, batches_with, runs_of, IsRun, Covers, uncovered, AreNumbered};
ghost use Rattle.dns_keeper.specs.Stamp.{IsStampOf};

/// A moment has one stamp.
pub fn one_stamp()
    ensures { (moment : ℕ) (a b : List ℕ) → IsStampOf moment a → IsStampOf moment b → a ≡ b }
{}

/// What holds of the runs of rows.
pub fn runs()
    // They cover rows whose ids follow one another.
    ensures cover { (e : ℤ) (rows : List JournalRow) → AreNumbered e rows → Covers e rows (runs_of rows) }
    // Of rows by ascending id they stand by ascending first.
    ensures by_first { (rows : List JournalRow) → AreAscending rows → AreByFirst (runs_of rows) }
{}

/// What holds of batches that cover rows.
pub fn covers()
    // Rows that are covered, and a run behind them with its batch, are covered.
    ensures more { (e : ℤ) (rows new : List JournalRow) (batches : List Batch) → Covers e rows batches → IsRun new
        → Covers e (rows ++ new) (batches ++ record { first = e +ℤ pos (length rows); count = pos (length new) } ∷ []) }
    // Rows with the ids from 1 on that are covered are covered after an append of records.
    ensures append { (rows : List JournalRow) (batches : List Batch) (client serial : ℕ) (stamp : List ℕ) (records : List Record)
        → last_id rows ≡ pos (length rows) → Covers (pos 1) rows batches
        → Covers (pos 1) (appended rows client serial stamp records) (batches_with (last_id rows +ℤ pos 1) records batches) }
    // They cover the rows exactly where there is no place at which they cease to.
    ensures exactly { (e : ℤ) (rows : List JournalRow) (batches : List Batch) → (uncovered e rows batches ≡ None) ↔ Covers e rows batches }
{}
