//! How a run of the program ends.

ghost use Rattle.std.specs.Prelude.{◌≡◌};
ghost use Rattle.std.specs.Process.{exit_status};
ghost use Rattle.dns_audit.specs.Status.{status_number, status_of};
ghost use Rattle.dns_audit.specs.Writing.{after_writing};

use crate::fault::AuditFault;
use dns_io::IoFault;
use dns_words::ended;
use dns_zone::ReplayKind;
use std::process::ExitCode;

/// How a run ended. Of several causes the first in the order of the work is told: the words, the journal that is written, the journal that
/// is read, the zone, the output.
#[derive(Clone, Copy, Debug, PartialEq, Eq)]
pub enum AuditStatus {
    /// The output was written, and handed on.
    Ok,
    /// The words of the command line are no command.
    Usage,
    /// The rows of the journal are no zone's, or its batches do not cover them.
    Recovery {
        /// The id of the first row that is refused, or the place at which the batches cease to cover the rows.
        row: i64,
        /// Why it is.
        kind: ReplayKind,
    },
    /// The output could not be written, or not handed on.
    WriteFault,
    /// A journal could not be read, or not be written.
    KeeperFault,
    /// Memory ran out.
    OutOfMemory,
    /// The journal has fewer rows than were asked for.
    Short {
        /// How many it has.
        rows: u64,
    },
    /// The journal that was to be written has a row.
    NotEmpty,
    /// An alias stands beside another record (RFC 1034 3.6.2), which no text of a zone may have.
    AliasBesideOther,
}

impl AuditStatus {
    /// The status that the process ends with.
    pub fn number(&self) -> u8
        ensures { result ≡ status_number self.now }
    {
        match self {
            AuditStatus::Ok => 0,
            AuditStatus::Usage => 1,
            AuditStatus::Recovery { .. } => 5,
            AuditStatus::WriteFault => 7,
            AuditStatus::KeeperFault => 8,
            AuditStatus::OutOfMemory => 10,
            AuditStatus::Short { .. } => 12,
            AuditStatus::NotEmpty => 13,
            AuditStatus::AliasBesideOther => 14,
        }
    }

    /// What the process ends with: the status's number.
    pub fn exit_code(&self) -> ExitCode
        ensures { exit_status result ≡ status_number self.now }
    {
        ExitCode::from(self.number())
    }
}

/// The status of a journal that was not audited.
pub(crate) fn status_of(fault: AuditFault) -> AuditStatus
    ensures { result ≡ status_of fault }
{
    match fault {
        AuditFault::KeeperFault => AuditStatus::KeeperFault,
        AuditFault::Short { rows } => AuditStatus::Short { rows },
        AuditFault::Recovery { row, kind } => AuditStatus::Recovery { row, kind },
        AuditFault::AliasBesideOther => AuditStatus::AliasBesideOther,
        AuditFault::NotEmpty => AuditStatus::NotEmpty,
        AuditFault::OutOfMemory => AuditStatus::OutOfMemory,
    }
}

/// The status that was meant, where writing the output came to its end.
pub fn after_writing(meant: AuditStatus, outcome: Result<(), IoFault>) -> AuditStatus
    ensures { result ≡ after_writing meant outcome }
{
    ended(
        meant,
        AuditStatus::WriteFault,
        AuditStatus::OutOfMemory,
        outcome,
    )
}
