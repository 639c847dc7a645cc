//! Why a journal was not audited, or not compacted.

ghost use Rattle.std.specs.Prelude.{◌≡◌};
ghost use Rattle.dns_audit.specs.Faults.{of_kind, of_keeper, of_print};
ghost use Rattle.dns_audit.specs.declared.fault.AuditFault.TheVariants as fault;

use dns_io::OutOfMemory;
use dns_keeper::KeepFault;
use dns_printed::PrintFault;
use dns_store::OpenKind;
use dns_zone::ReplayKind;
use thiserror::Error;

/// Why a journal was not audited, or not compacted.
#[derive(Clone, Copy, Debug, PartialEq, Eq, Error)]
pub enum AuditFault {
    /// A keeper failed, and counted it.
    #[error("the journal failed")]
    KeeperFault,
    /// The journal has fewer rows than were asked for.
    #[error("the journal has {rows} rows")]
    Short {
        /// How many it has.
        rows: u64,
    },
    /// The rows are no zone's: they end at this one. Or its batches do not cover the rows: they cease to at this one.
    #[error("row {row}: {kind}")]
    Recovery {
        /// The id of the first row that is refused; where no SOA is left at the end, of the last row, or 0 without rows. Of batches that
        /// do not cover the rows, the id at which the next one should begin.
        row: i64,
        /// Why it is refused.
        kind: ReplayKind,
    },
    /// An alias stands beside another record (RFC 1034 3.6.2), which no text of a zone may have.
    #[error("alias beside other")]
    AliasBesideOther,
    /// What was to be written to has a row.
    #[error("not empty")]
    NotEmpty,
    /// Memory ran out.
    #[error("out of memory")]
    OutOfMemory,
}

impl From<OutOfMemory> for AuditFault {
    ghost from_gives = { λ _ e. e ≡ fault.OutOfMemory };

    fn from(_error: OutOfMemory) -> AuditFault {
        AuditFault::OutOfMemory
    }
}

impl From<OpenKind> for AuditFault {
    ghost from_gives = { λ kind e. e ≡ of_kind kind };

    fn from(kind: OpenKind) -> AuditFault {
        match kind {
            OpenKind::Recovery { row, kind } => AuditFault::Recovery { row, kind },
            OpenKind::KeeperFault => AuditFault::KeeperFault,
            // No reading asks for a zone.
            OpenKind::NoZone | OpenKind::OutOfMemory => AuditFault::OutOfMemory,
        }
    }
}

impl From<KeepFault> for AuditFault {
    ghost from_gives = { λ fault e. e ≡ of_keeper fault };

    fn from(fault: KeepFault) -> AuditFault {
        match fault {
            KeepFault::Failed => AuditFault::KeeperFault,
            KeepFault::OutOfMemory => AuditFault::OutOfMemory,
        }
    }
}

impl From<PrintFault> for AuditFault {
    ghost from_gives = { λ fault e. e ≡ of_print fault };

    fn from(fault: PrintFault) -> AuditFault {
        match fault {
            PrintFault::AliasBesideOther => AuditFault::AliasBesideOther,
            PrintFault::OutOfMemory => AuditFault::OutOfMemory,
        }
    }
}
