//! The lines that the program writes.

ghost use Rattle.std.specs.Prelude.{◌≡◌, IfOk, string_bytes};
ghost use Rattle.dns_follow.specs.Lines.{length_line};
ghost use Rattle.dns_follow.specs.Status.{place_line};

use dns_io::OutOfMemory;
use std::alloc::Global;

/// The line of a journal of so many rows, with the serial of their zone, if there is one, and its line end.
pub(crate) fn length_line(
    alloc: Global,
    length: u64,
    serial: Option<u32>,
) -> Result<String, OutOfMemory>
    ensures { IfOk result (λ line. string_bytes line ≡ length_line length serial) }
{
    match serial {
        Some(serial) => Ok(format!(in alloc; "length {length} serial {serial}\n")?),
        None => Ok(format!(in alloc; "length {length} serial -\n")?),
    }
}

/// The line of a journal that is out of place at a row, with its line end.
pub(crate) fn place_line(alloc: Global, row: i64) -> Result<String, OutOfMemory>
    ensures { IfOk result (λ line. string_bytes line ≡ place_line row) }
{
    Ok(format!(in alloc; "journal row {row}: out of place\n")?)
}
