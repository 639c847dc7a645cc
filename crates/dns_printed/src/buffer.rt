//! Bytes that are put at the end of a buffer.

ghost use Rattle.std.specs.Prelude.{◌≡◌, ◌++◌, ◌∷◌, []};
ghost use Rattle.dns_printed.specs.Appending.{Puts};

use dns_io::OutOfMemory;

/// Puts a byte at the end.
pub(crate) fn put_byte(out: &mut Vec<u8>, byte: u8) -> Result<(), OutOfMemory>
    ensures { Puts out.old.items out.new.items (byte ∷ []) result }
{
    out.push(byte)?;
    Ok(())
}

/// Puts bytes at the end.
pub(crate) fn put_bytes(out: &mut Vec<u8>, bytes: &[u8]) -> Result<(), OutOfMemory>
    ensures { Puts out.old.items out.new.items bytes.now result }
{
    out.extend_from_slice(bytes)?;
    Ok(())
}
