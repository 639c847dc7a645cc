//! What is told of a journal that was not read back.

ghost use Rattle.std.specs.Prelude.{◌≡◌, IfOk, string_bytes};
ghost use Rattle.dns_store.specs.RecoveryText.{recovery_line, replay_kind_text};

use dns_io::OutOfMemory;
use dns_zone::ReplayKind;
use std::alloc::Global;

/// The line of a journal that is refused at this row, for this reason, with its line end.
pub fn recovery_line(alloc: Global, row: i64, kind: ReplayKind) -> Result<String, OutOfMemory>
    ensures { IfOk result (λ line. string_bytes line ≡ recovery_line row kind) }
{
    let kind = replay_kind_text(kind);
    Ok(format!(in alloc; "journal row {row}: {kind}\n")?)
}

/// Why the rows of a journal are refused, or its batches.
pub fn replay_kind_text(kind: ReplayKind) -> &'static str
    ensures { result.now ≡ replay_kind_text kind }
{
    match kind {
        ReplayKind::NoRecord => "row is no record",
        ReplayKind::OutOfPlace => "row out of place",
        ReplayKind::NotOneSoa => "not one SOA",
        ReplayKind::BatchOutOfPlace => "batch out of place",
    }
}
