//! Bytes that are written.

ghost use Rattle.std.specs.Prelude.{◌≡◌, ◌<◌, ℕ, List, [], length, IfErr, OnOk, OnErr};
ghost use Rattle.dns_io.specs.Told.{Grows, GrowsByPrefix, Keeps, WritesUpTo, BreaksOff};
ghost use Rattle.dns_edges.specs.Edges.{SinkOf, Writes, Flushes, HasCause, wanted};

use dns_io::IoFault;

/// Bytes that are written one after another.
pub trait Sink {
    /// What is known of it: the bytes that were taken, and those of them that were handed on to the receiver, where they are told, how many
    /// calls failed, and how many wanted memory, each up to `u64::MAX`, and what a write does. A sink may stop telling its bytes at any
    /// call, and then never tells them again.
    ghost sink: { SinkOf Self };

    /// Takes bytes from the front of `bytes` and tells how many, at least one. After an error none was taken.
    fn write(&mut self, bytes: &[u8]) -> Result<usize, IoFault>
        requires { 0 < length bytes.now }
        ensures told { Writes (sink.told self.old) (sink.told self.new) bytes.now result }
        ensures next { sink.writes self.old bytes.now result self.new }
        ensures wanted { sink.wants self.new ≡ wanted (sink.wants self.old) result };

    /// Hands on to the receiver all that was taken. It changes nothing that was taken, whatever it answers; after an
    /// error it is not said what was handed on.
    fn flush(&mut self) -> Result<(), IoFault>
        ensures told { Flushes (sink.told self.old) (sink.told self.new) result }
        ensures wanted { sink.wants self.new ≡ wanted (sink.wants self.old) result };
}

/// Writes all the bytes. Each write is handed all that were not taken yet, and the first error ends it: a front of the
/// bytes was taken then. It flushes nothing.
pub fn write_all<W: Sink>(sink: &mut W, bytes: &[u8]) -> Result<(), IoFault>
    ensures ok { OnOk result (Grows (W.sink.told sink.old).taken (W.sink.told sink.new).taken bytes.now) }
    ensures err { OnErr result ((rest : List ℕ) × GrowsByPrefix (W.sink.told sink.old).taken (W.sink.told sink.new).taken bytes.now rest) }
    ensures unflushed { Keeps (W.sink.told sink.old).flushed (W.sink.told sink.new).flushed }
    ensures written { OnOk result (WritesUpTo W.sink.writes sink.old bytes.now sink.new []) }
    ensures broke { IfErr result (λ fault. BreaksOff W.sink.writes sink.old bytes.now fault sink.new) }
    ensures cause { HasCause (W.sink.told sink.old).faults (W.sink.told sink.new).faults result }
    ensures wanted { W.sink.wants sink.new ≡ wanted (W.sink.wants sink.old) result }
{
    let mut rest = bytes;
    while !rest.is_empty() {
        let count = sink.write(rest)?;
        let (_, after) = rest.split_at(count);
        rest = after;
    }
    Ok(())
}
