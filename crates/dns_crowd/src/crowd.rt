//! Connections of which the next event is taken.

ghost use Rattle.std.specs.Prelude.{◌≤◌, length};
ghost use Rattle.dns_crowd.specs.Crowds.{Closes, CrowdTold, Gives, Sends};

use dns_io::IoFault;
use dns_readiness::Came;

/// The connections that come to one listener (RFC 1035 4.2.2, RFC 7766).
pub trait Crowd {
    /// What it tells of itself. A crowd may stop telling at any call, and then never tells again; its count of failed calls goes up to
    /// `u64::MAX`.
    ghost told: { Self → CrowdTold };

    /// Waits for what comes next over any connection; the bytes of a piece stand at the front of `room`. `None` means that the crowd is
    /// stopped, and comes exactly where nothing is left. After an error none was taken. What concerns one connection alone is no error:
    /// one that breaks has ended.
    fn next(&mut self, room: &mut [u8]) -> Result<Option<Came>, IoFault>
        requires { 65535 ≤ length room.old }
        ensures told { Gives (told self.old) (told self.new) room.new result };

    /// Hands a connection these bytes for its peer. What the peer does not take at once is kept, and nothing is read of the connection
    /// until it is gone. A connection that is not open lets them go. After an error it took nothing.
    fn send(&mut self, conn: u32, bytes: &[u8]) -> Result<(), IoFault>
        ensures told { Sends (told self.old) (told self.new) conn bytes.now result };

    /// Closes a connection, once what it was handed is written; nothing comes of it any more. After an error it is as it was.
    fn close(&mut self, conn: u32) -> Result<(), IoFault>
        ensures told { Closes (told self.old) (told self.new) conn result };
}
