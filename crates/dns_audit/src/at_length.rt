//! The zone at a length of its journal.

ghost use Rattle.std.specs.Prelude.{IfOk, IfErr, IfSome};
ghost use Rattle.dns_audit.specs.Reading.{ReadsJournal, IsZoneAt, HasNoZoneAt};

use crate::fault::AuditFault;
use dns_keeper::Keeper;
use dns_name::Name;
use dns_store::{Front, replay_front};
use dns_zone::Zone;
use std::alloc::Global;

/// The zone of this origin, in whatever case, that the first rows of a journal stand for, so many.
///
/// Where a row is refused, those behind it are still counted: a journal with fewer rows is `Short`, whatever its rows are. No row behind
/// the length is read, and batches are not looked at. The journal stays as it is.
pub fn zone_at<K: Keeper>(
    alloc: Global,
    origin: &Name,
    keeper: &mut K,
    length: u64,
) -> Result<Zone, AuditFault>
    ensures ok { IfOk result (λ zone. IfSome (K.keeper.told keeper.new).rows (IsZoneAt origin.now length zone)) }
    ensures err { IfErr result (HasNoZoneAt origin.now length (K.keeper.told keeper.new).rows) }
    ensures reads { ReadsJournal K.keeper keeper.old keeper.new result }
{
    match replay_front(alloc, keeper, origin, length) {
        Ok(Front::Zone(zone)) => Ok(zone),
        Ok(Front::Short { rows }) => Err(AuditFault::Short { rows }),
        Err(kind) => Err(AuditFault::from(kind)),
    }
}
