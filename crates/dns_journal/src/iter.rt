//! All records of a journal.

ghost use Rattle.std.specs.Prelude.{◌≡◌, ◌-◌, ◌^◌, ◌+ℤ◌, ◌++◌, pos, [], IfSome, IfNone, FitsSigned};
ghost use Rattle.std.specs.Int.{w64};
ghost use Rattle.std.specs.Option.{option_to_list};
ghost use Rattle.dns_journal.specs.Selects.{SelectsAll};

use crate::error::PersistenceError;
use crate::journal::Journal;
use dns_wire::Record;
use sqlite::Alter;
use std::alloc::Global;
use std::marker::Model;
use std::vec::IntoIter;

/// The records of a journal, by ascending id of their rows. Contracts see it as the list of those that are left.
#[derive(Drop)]
pub struct JournalIter {
    left: IntoIter<Record, Global>,
}

impl Model for JournalIter {
    ghost use Rattle.std.specs.Prelude.{List};
    ghost use Rattle.std.specs.Vec.Iter.{into_iter_items};
    ghost use Rattle.dns_wire.specs.declared.record.Record.{Record};

    ghost Value = { List Record };

    ghost view = { λ i. into_iter_items i.left };
}

impl JournalIter {
    /// These records, in order.
    fn new(records: Vec<Record>) -> JournalIter
        ensures { result ≡ records.items }
    {
        JournalIter {
            left: records.into_iter(),
        }
    }

    /// The next record, each once; none at the end. Takes no memory.
    pub fn next(&mut self) -> Option<Record>
        ensures next { self.old ≡ option_to_list result ++ self.new }
        ensures end { IfNone result (self.old ≡ []) }
    {
        self.left.next()
    }
}

/// The id that follows, if there is one.
pub(crate) fn id_after(id: i64) -> Option<i64>
    ensures some { IfSome result (λ next. next ≡ id +ℤ pos 1) }
    ensures fits { IfSome result (FitsSigned w64) }
    ensures none { IfNone result (id ≡ pos (2 ^ 63 - 1)) }
{
    if id == i64::MAX { None } else { Some(id + 1) }
}

impl<S: Alter> Journal<S> {
    /// All records of the journal, by ascending id of their rows. `Recovery` says that a row is no record; `Sqlite` that
    /// the journal's calls do not go to the connection, that this refused or a row did not read.
    pub fn iter(&mut self) -> Result<JournalIter, PersistenceError>
        ensures selected { SelectsAll S.Store self.old self.new result }
    {
        if !self.ready {
            self.count();
            return Err(PersistenceError::Sqlite);
        }
        let mut records = Vec::new(self.alloc);
        let mut from = i64::MIN;
        for _ in 0..u64::MAX {
            let (id, record) = match self.select_record(from) {
                Ok(Some(found)) => found,
                Ok(None) => return Ok(JournalIter::new(records)),
                Err(error) => return Err(error),
            };
            records.push(record)?;
            match id_after(id) {
                Some(next) => from = next,
                None => return Ok(JournalIter::new(records)),
            }
        }
        // No memory holds so many records.
        Err(PersistenceError::OutOfMemory)
    }
}
