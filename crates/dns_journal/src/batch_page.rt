//! A page of batches that were read, which are taken one by one.

ghost use Rattle.std.specs.Prelude.{◌≡◌, ◌++◌, [], List, Some, None, IfSome, IfNone};
ghost use Rattle.std.specs.Option.{option_to_list};
ghost use Rattle.std.specs.Vec.Iter.{into_iter_items};
ghost use Rattle.sqlite.specs.Order.{Row as Shown};
ghost use Rattle.dns_sqlite.specs.Reads.{AreBatchesIn};
ghost use Rattle.dns_journal.specs.BatchPages.{batches_left, IsBatchIn, HoldsBatches, PassesBatch};

use crate::iter::id_after;
use dns_keeper::BatchRow;
use std::alloc::Global;
use std::vec::IntoIter;

/// The batches that are not taken yet, and the first id from which they go on. Where there is no first batch there is none.
#[derive(Drop)]
pub(crate) struct BatchPage {
    first: Option<BatchRow>,
    rest: IntoIter<BatchRow, Global>,
    next: i64,
}

/// The next of the batches; none at the end.
fn next_of(batches: &mut IntoIter<BatchRow, Global>) -> Option<BatchRow>
    ensures next { into_iter_items batches.old ≡ option_to_list result ++ into_iter_items batches.new }
    ensures end { IfNone result (into_iter_items batches.old ≡ []) }
{
    batches.next()
}

impl BatchPage {
    /// A page without batches.
    pub(crate) fn none(alloc: Global) -> BatchPage
        ensures { batches_left result ≡ [] }
    {
        BatchPage {
            first: None,
            rest: Vec::new(alloc).into_iter(),
            next: 0,
        }
    }

    /// The page of the batches that were read from a first id on.
    pub(crate) fn new(next: i64, batches: Vec<BatchRow>) -> BatchPage
        ensures batches { batches_left result ≡ batches.items }
        ensures next { result.next ≡ next }
    {
        let mut rest = batches.into_iter();
        let first = next_of(&mut rest);
        BatchPage { first, rest, next }
    }

    /// Takes the batch of least first that is not below this id, where the page goes on from there; else none. Takes no memory.
    pub(crate) fn take(&mut self, first: i64) -> Option<BatchRow>
        ensures found { IfSome result (λ batch. (table : List Shown) → HoldsBatches self.old table → IsBatchIn first table (Some batch)) }
        ensures none { IfNone result (self.old.next ≡ first → (table : List Shown)
            → AreBatchesIn first table (batches_left self.old) → IsBatchIn first table None) }
        ensures held { (table : List Shown) → HoldsBatches self.old table → HoldsBatches self.new table }
    {
        let Some(batch) = self.first else {
            return None;
        };
        if first < self.next {
            return None;
        }
        if batch.first < first {
            return None;
        }
        self.pass(batch.first);
        Some(batch)
    }

    /// Goes behind a batch that begins at this id.
    fn pass(&mut self, first: i64)
        ensures held { PassesBatch first self.old self.new }
    {
        match id_after(first) {
            Some(next) => {
                self.next = next;
                self.first = next_of(&mut self.rest);
            }
            None => self.first = None,
        }
    }
}
