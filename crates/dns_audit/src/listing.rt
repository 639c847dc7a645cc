//! The batches of a journal.

ghost use Rattle.std.specs.Prelude.{IfOk, IfErr};
ghost use Rattle.dns_edges.specs.Edges.{around};
ghost use Rattle.dns_audit.specs.Reading.{ReadsJournal};
ghost use Rattle.dns_audit.specs.Listed.{Lists, ListsNot};

use crate::fault::AuditFault;
use dns_keeper::Keeper;
use dns_name::Name;
use dns_store::{ListedBatch, list_batches};
use std::alloc::Global;

/// The batches of a journal, by ascending first id, each with the serial and the client of its first row, once it is seen that its rows
/// stand for a zone of this origin, in whatever case, and that its batches cover them. A journal without rows may have no batch. The
/// journal stays as it is.
pub fn list<K: Keeper>(
    alloc: Global,
    origin: &Name,
    keeper: &mut K,
) -> Result<Vec<ListedBatch>, AuditFault>
    ensures ok { IfOk result (λ listed. Lists (around K.keeper.told keeper.old keeper.new) origin.now listed.items) }
    ensures err { IfErr result (ListsNot (around K.keeper.told keeper.old keeper.new) origin.now) }
    ensures reads { ReadsJournal K.keeper keeper.old keeper.new result }
{
    match list_batches(alloc, keeper, origin) {
        Ok(listed) => Ok(listed),
        Err(kind) => Err(AuditFault::from(kind)),
    }
}
