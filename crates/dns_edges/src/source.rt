//! Bytes that are read.

ghost use Rattle.std.specs.Prelude.{◌<◌, length};
ghost use Rattle.dns_edges.specs.Edges.{SourceOf, Reads, given_by};

use dns_io::IoFault;

/// Bytes that are read from front to end.
pub trait Source {
    /// What is known of it: the bytes that are left, where they are told, how many calls failed, up to `u64::MAX`, and what a read does.
    /// A source may stop telling its bytes at any call, and then never tells them again.
    ghost source: { SourceOf Self };

    /// Puts the next bytes at the front of `room` and tells how many. 0 means the end. After an error nothing was
    /// taken, and what `room` holds is not said.
    fn read(&mut self, room: &mut [u8]) -> Result<usize, IoFault>
        requires { 0 < length room.old }
        ensures told { Reads (source.told self.old) (source.told self.new) room.new result }
        ensures next { source.reads self.old (length room.old) (given_by room.new result) self.new };
}
