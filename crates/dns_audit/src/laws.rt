//! What audits obey: each law is a call that does nothing and whose contract is the law.

ghost use Rattle.std.specs.Prelude.{◌≡◌, ◌⊎◌, ◌++◌, ℕ, List, Option, Some, None};
ghost use Rattle.dns_name.specs.Name.{fold_of};
ghost use Rattle.dns_keeper.specs.declared.row.Row.{Row as JournalRow};
ghost use Rattle.dns_zone_map.specs.Zone.{Contents};
ghost use Rattle.dns_book.specs.Access.{Access};
ghost use Rattle.dns_book.specs.declared.ask.Ask.{Ask as Asked};
ghost use Rattle.dns_book.specs.declared.ask.Settled.{Settled as Done};
ghost use Rattle.dns_book.specs.Book.{SeenOf, Settles};
ghost use Rattle.dns_audit.specs.declared.fault.AuditFault.{AuditFault as Fault};
ghost use Rattle.dns_audit.specs.declared.fault.AuditFault.TheVariants as fault;
ghost use Rattle.dns_audit.specs.declared.status.AuditStatus.{AuditStatus as Status};
ghost use Rattle.dns_audit.specs.Reading.{IsZoneAt, HasNoZoneAt};
ghost use Rattle.dns_audit.specs.Completeness.{IsDue};
ghost use Rattle.dns_audit.specs.World.{World};

use dns_keeper::Keeper;

/// The zone at a length is that of the answers which a server gave when its journal had that length.
///
/// A book of a zone of this origin settles a message, and tells in its answer how many rows its journal then has; these rows are the first
/// ones of a longer journal, or all.
pub fn answered_zones<K: Keeper>()
    // The zone at that length is the book's zone after the answer, and no other.
    ensures at { (access : Access) (before after : SeenOf K) (ask : Asked) (settled : Done) (origin : List (List ℕ))
        (rows more : List JournalRow)
        → Settles K.keeper access before ask settled after
        → after.zone.origin ≡ fold_of origin → (K.keeper.told after.keeper).rows ≡ Some rows
        → IsZoneAt origin settled.length after.zone (rows ++ more) }
    ensures one { (origin : List (List ℕ)) (count : ℕ) (a b : Contents) (rows : List JournalRow)
        → IsZoneAt origin count a rows → IsZoneAt origin count b rows → a ≡ b }
    // Where there is such a zone no other cause than a fault of the journal and want of memory keeps it from being found.
    ensures found { (origin : List (List ℕ)) (count : ℕ) (zone : Contents) (rows : List JournalRow) (f : Fault)
        → IsZoneAt origin count zone rows → HasNoZoneAt origin count (Some rows) f → (f ≡ fault.KeeperFault) ⊎ (f ≡ fault.OutOfMemory) }
    // Where the answer made no row, it is also the book's zone before it, on which the answer was given.
    ensures idle { (access : Access) (before after : SeenOf K) (ask : Asked) (settled : Done)
        → Settles K.keeper access before ask settled after → settled.receipt ≡ None → after.zone ≡ before.zone }
{}

/// One status alone is due to what the words ask for and the journals hold.
pub fn due_statuses()
    ensures { (w : World) (a b : Status) → IsDue w a → IsDue w b → a ≡ b }
{}
