//! The lines that the program writes.

ghost use Rattle.std.specs.Prelude.{◌≡◌, IfOk, string_bytes};
ghost use Rattle.dns_update_client.specs.Lines.{code_line};

use dns_io::OutOfMemory;
use std::alloc::Global;

/// The line of a reply, `ID CODE`, with its line end: the id in four small hex digits, the code in decimal.
pub(crate) fn code_line(alloc: Global, id: u16, code: u16) -> Result<String, OutOfMemory>
    ensures { IfOk result (λ line. string_bytes line ≡ code_line id code) }
{
    let id = hex::encode(alloc, id.to_be_bytes())?;
    Ok(format!(in alloc; "{id} {code}\n")?)
}
