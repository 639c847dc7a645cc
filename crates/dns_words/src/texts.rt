//! Writing texts: each is handed over whole.

ghost use Rattle.std.specs.Prelude.{◌≡◌, IsErrOf};
ghost use Rattle.dns_edges.specs.Edges.{around};
ghost use Rattle.dns_words.specs.Writing.{Writes, WritesWhole, WantedMemory, ended};

use dns_edges::{Sink, write_all};
use dns_io::IoFault;

/// Writes a text that is the whole output, and hands it on.
pub fn put_text<W: Sink>(text: &str, out: &mut W) -> Result<(), IoFault>
    ensures { WritesWhole (around W.sink.told out.old out.new) text.now result }
{
    put_whole(text, out)
}

/// Writes a text that is the whole output, and hands it on, as [`put_text`] does; where memory is wanted, the output wanted it, and counts
/// that.
pub fn put_whole<W: Sink>(text: &str, out: &mut W) -> Result<(), IoFault>
    ensures written { WritesWhole (around W.sink.told out.old out.new) text.now result }
    ensures wanted { IsErrOf result IoFault.OutOfMemory → WantedMemory W.sink out.old text.now out.new }
{
    write_all(out, text.as_bytes())?;
    out.flush()
}

/// Hands a line to the sink, whole.
pub fn put_line<W: Sink>(line: &str, out: &mut W) -> Result<(), IoFault>
    ensures { Writes (around W.sink.told out.old out.new) line.now result }
{
    write_all(out, line.as_bytes())
}

/// How a program ends that wrote a text: as it was meant, where that came to its end; else as for an output that failed, or for want of
/// memory.
pub fn ended<S: Copy>(meant: S, failed: S, wanting: S, outcome: Result<(), IoFault>) -> S
    ensures { result ≡ ended meant failed wanting outcome }
{
    match outcome {
        Ok(()) => meant,
        Err(IoFault::Failed) => failed,
        Err(IoFault::OutOfMemory) => wanting,
    }
}
