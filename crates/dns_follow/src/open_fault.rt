//! Why a follower was not opened.

ghost use Rattle.std.specs.Prelude.{◌≡◌};
ghost use Rattle.dns_follow.specs.OpenFaults.{follow_kind};

use dns_store::OpenKind;
use dns_zone::ReplayKind;

/// Why a follower was not opened.
#[derive(Clone, Copy, Debug, PartialEq, Eq)]
pub enum FollowOpenKind {
    /// The keeper failed, and counted it.
    KeeperFault,
    /// The rows are no zone's: they end at this one. Or its batches do not cover the rows: they cease to at this one.
    Recovery {
        /// The id of the first row that is refused; where no SOA is left at the end, of the last row. Of batches that do not cover the
        /// rows, the id at which the next one should begin.
        row: i64,
        /// Why it is refused.
        kind: ReplayKind,
    },
    /// Memory ran out.
    OutOfMemory,
}

/// Why a follower was not opened, and the keeper, whose rows and batches are as before.
#[derive(Drop)]
pub struct FollowOpenFault<K> {
    /// The cause.
    pub kind: FollowOpenKind,
    /// What was handed in.
    pub keeper: K,
}

/// The cause for which a store was not opened that is opened without a zone to begin it with.
pub(crate) fn follow_kind(kind: OpenKind) -> FollowOpenKind
    ensures { result ≡ follow_kind kind }
{
    match kind {
        OpenKind::Recovery { row, kind } => FollowOpenKind::Recovery { row, kind },
        OpenKind::KeeperFault => FollowOpenKind::KeeperFault,
        // A journal without rows and batches is no fault to a follower.
        OpenKind::NoZone | OpenKind::OutOfMemory => FollowOpenKind::OutOfMemory,
    }
}
