//! What is decided of the script and of the connections to the server.

ghost use Rattle.std.specs.Prelude.{◌≡◌, ◌≢◌, ◌*◌};
ghost use Rattle.std.specs.Duration.{as_nanos};
ghost use Rattle.std.specs.Io.{ReadsAtMost, WritesAtMost};
ghost use Rattle.std.specs.declared.io.ErrorKind.TheVariants as kind;
ghost use Rattle.dns_io.specs.Faults.{fault_of};
ghost use Rattle.dns_nsupdate.specs.Decisions.{most_read, patience, unread_kind, ReadsOver, WritesOver};

use dns_io::IoFault;
use std::io::{self, ErrorKind, Read, Write};
use std::time::Duration;

/// So much of the script is read at most, in bytes.
const MOST: u64 = 1_048_577;

/// For how many seconds the server may leave the program waiting.
const PATIENCE: u64 = 5;

/// How much of the script is read at most, in bytes: one more than it may have, by which it is known to be too long.
pub(crate) fn most_read() -> u64
    ensures { result ≡ most_read }
{
    MOST
}

/// How long the server may leave the program waiting, for a connection, for bytes, or to take bytes.
pub(crate) fn patience() -> Duration
    ensures { as_nanos result ≡ patience * 1000000000 }
{
    Duration::from_secs(PATIENCE)
}

/// The kind of error by which each read fails where no connection could be made, for this fault: it tells the same fault, and no read is
/// made again behind it.
pub(crate) fn unread_kind(fault: IoFault) -> ErrorKind
    ensures is { result ≡ unread_kind fault }
    ensures told { fault_of result ≡ fault }
    ensures last { result ≢ kind.Interrupted }
{
    match fault {
        IoFault::OutOfMemory => ErrorKind::OutOfMemory,
        IoFault::Failed => ErrorKind::NotConnected,
    }
}

/// One read over what came of making a connection.
pub(crate) fn read_over<R: Read>(
    made: &mut Result<R, IoFault>,
    room: &mut [u8],
) -> io::Result<usize>
    ensures count { ReadsAtMost result room.new }
    ensures bytes { ReadsOver R.remaining made.old made.new result room.new }
{
    match made {
        Ok(reader) => reader.read(room),
        Err(fault) => Err(unread_kind(*fault).into()),
    }
}

/// One write over what came of making a connection. Where none could be made, the bytes are dropped: the next read tells it.
pub(crate) fn write_over<W: Write>(made: &mut Result<W, IoFault>, bytes: &[u8]) -> io::Result<usize>
    ensures count { WritesAtMost result bytes.now }
    ensures bytes { WritesOver W.contents made.old made.new result bytes.now }
{
    match made {
        Ok(writer) => writer.write(bytes),
        Err(_fault) => Ok(bytes.len()),
    }
}
