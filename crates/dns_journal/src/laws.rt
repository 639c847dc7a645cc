//! What a crash leaves of a journal while its connection is open.

ghost use Rattle.std.specs.Prelude.{◌≡◌};
ghost use Rattle.sqlite.specs.Held.{state};
ghost use Rattle.dns_keeper.specs.Keeping.{Kept};
ghost use Rattle.dns_keeper.specs.Crash.{AreTold};
ghost use Rattle.dns_journal.specs.Keepers.{journal_keeper};
ghost use Rattle.dns_journal.specs.Crash.{MayLeave, IsServing, LeavesItsOwn};
ghost use Rattle.dns_journal.specs.Stored.{LeavesShown};

use crate::journal::Journal;
use sqlite::Alter;

/// Between calls a crash may leave the rows and the batches that the journal tells, and while its calls go to an open connection nothing
/// else.
pub fn left_by_a_crash<S: Alter>(journal: &Journal<S>)
    ensures left { (kept : Kept) → AreTold ((journal_keeper S.Store).told journal.now) kept
        → MayLeave (state S.Store journal.now.conn) kept }
    ensures shown { IsServing S.Store journal.now → LeavesShown (state S.Store journal.now.conn) }
    ensures settled { IsServing S.Store journal.now → LeavesItsOwn S.Store journal.now }
{
    let _schema = journal.conn.schema();
    let _settled = journal.conn.is_autocommit();
}
