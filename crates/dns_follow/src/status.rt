//! How a run of the program ends.

ghost use Rattle.std.specs.Prelude.{◌≡◌};
ghost use Rattle.std.specs.Process.{exit_status};
ghost use Rattle.dns_follow.specs.Status.{status_number, feed_status, open_status, follow_status};
ghost use Rattle.dns_follow.specs.Writing.{after_writing};

use crate::answer::FollowFault;
use crate::feed_fault::FeedFault;
use crate::open_fault::FollowOpenKind;
use dns_io::IoFault;
use dns_words::ended;
use dns_zone::ReplayKind;
use std::process::ExitCode;

/// How a run ended. Of several causes the first in the order of the work is told: the words, the journal, what the input brings in its
/// order, the output.
#[derive(Clone, Copy, Debug, PartialEq, Eq)]
pub enum FollowStatus {
    /// The output was written, and handed on.
    Ok,
    /// The words of the command line are no command.
    Usage,
    /// The rows of the journal that follows are no zone's, or its batches do not cover them.
    Recovery {
        /// The id of the first row that is refused, or the place at which the batches cease to cover the rows.
        row: i64,
        /// Why it is.
        kind: ReplayKind,
    },
    /// The rows of the journal that is fed are out of place, or its batches do not cover them, or one has a client or serial of more than
    /// 32 bits.
    OutOfPlace {
        /// Where.
        row: i64,
    },
    /// The input could not be read.
    ReadFault,
    /// The output could not be written, or not handed on.
    WriteFault,
    /// The journal could not be read, or not be written.
    KeeperFault,
    /// Memory ran out.
    OutOfMemory,
    /// A row has more bytes than a frame has room for.
    TooLong,
    /// A frame of the input carries no row.
    BadFrame,
    /// A row of the input does not belong to the batch of the rows before it.
    Mixed,
    /// A batch of the input and the rows before it stand for no zone.
    Refused,
    /// The input was read as often as it may be, and was not at its end.
    Turns,
}

impl FollowStatus {
    /// The status that the process ends with.
    pub fn number(&self) -> u8
        ensures { result ≡ status_number self.now }
    {
        match self {
            FollowStatus::Ok => 0,
            FollowStatus::Usage => 1,
            FollowStatus::Recovery { .. } | FollowStatus::OutOfPlace { .. } => 5,
            FollowStatus::ReadFault => 6,
            FollowStatus::WriteFault => 7,
            FollowStatus::KeeperFault => 8,
            FollowStatus::OutOfMemory => 10,
            FollowStatus::TooLong => 30,
            FollowStatus::BadFrame => 31,
            FollowStatus::Mixed => 32,
            FollowStatus::Refused => 33,
            FollowStatus::Turns => 34,
        }
    }

    /// What the process ends with: the status's number.
    pub fn exit_code(&self) -> ExitCode
        ensures { exit_status result ≡ status_number self.now }
    {
        ExitCode::from(self.number())
    }
}

/// The status of a journal that was not fed.
pub(crate) fn feed_status(fault: FeedFault) -> FollowStatus
    ensures { result ≡ feed_status fault }
{
    match fault {
        FeedFault::KeeperFault => FollowStatus::KeeperFault,
        FeedFault::Write => FollowStatus::WriteFault,
        FeedFault::OutOfPlace { row } => FollowStatus::OutOfPlace { row },
        FeedFault::TooLong { row: _ } => FollowStatus::TooLong,
        FeedFault::OutOfMemory => FollowStatus::OutOfMemory,
    }
}

/// The status of a journal that was not opened.
pub(crate) fn open_status(kind: FollowOpenKind) -> FollowStatus
    ensures { result ≡ open_status kind }
{
    match kind {
        FollowOpenKind::Recovery { row, kind } => FollowStatus::Recovery { row, kind },
        FollowOpenKind::KeeperFault => FollowStatus::KeeperFault,
        FollowOpenKind::OutOfMemory => FollowStatus::OutOfMemory,
    }
}

/// The status of an input that was not followed to its end.
pub(crate) fn follow_status(fault: FollowFault) -> FollowStatus
    ensures { result ≡ follow_status fault }
{
    match fault {
        FollowFault::BadFrame => FollowStatus::BadFrame,
        FollowFault::Mixed { row: _ } => FollowStatus::Mixed,
        FollowFault::Refused { row: _, kind: _ } => FollowStatus::Refused,
        FollowFault::KeeperFault => FollowStatus::KeeperFault,
        FollowFault::Read => FollowStatus::ReadFault,
        FollowFault::Turns { reads: _ } => FollowStatus::Turns,
        FollowFault::OutOfMemory => FollowStatus::OutOfMemory,
    }
}

/// The status that was meant, where writing the output came to its end.
pub fn after_writing(meant: FollowStatus, outcome: Result<(), IoFault>) -> FollowStatus
    ensures { result ≡ after_writing meant outcome }
{
    ended(
        meant,
        FollowStatus::WriteFault,
        FollowStatus::OutOfMemory,
        outcome,
    )
}
