//! What makes sockets, connections, timers and handles of tasks.

ghost use Rattle.dns_edges.specs.Edges.{HasCause};
ghost use Rattle.dns_runtime.specs.Datagrams.{RuntimeOf};

use crate::sockets::{DnsTcpStream, DnsUdpSocket};
use crate::tasks::{Spawn, Time};
use dns_io::{IoFault, Peer};

/// A runtime.
pub trait RuntimeProvider {
    type Handle: Spawn;

    type Timer: Time;

    type Udp: DnsUdpSocket;

    type Tcp: DnsTcpStream;

    /// What is known of it: how many calls failed, up to `u64::MAX`, what a handle of it is, and what connecting and binding may answer.
    ghost runtime: { RuntimeOf Self Self.Handle Self.Udp Self.Tcp };

    /// A handle to which tasks are handed. It cannot fail.
    fn create_handle(&self) -> Self::Handle
        ensures { runtime.handles self.now result };

    /// Connects to a server, from the address `bind` where one is given; `limit` is how many milliseconds that may take, where
    /// there is a limit.
    fn connect_tcp(
        &mut self,
        server: Peer,
        bind: Option<Peer>,
        limit: Option<u64>,
    ) -> Result<Self::Tcp, IoFault>
        ensures next { runtime.connects self.old server bind limit result self.new }
        ensures cause { HasCause (runtime.faults self.old) (runtime.faults self.new) result };

    /// Binds a socket of datagrams to the address `local`, for talking to `server`.
    fn bind_udp(&mut self, local: Peer, server: Peer) -> Result<Self::Udp, IoFault>
        ensures next { runtime.binds self.old local server result self.new }
        ensures cause { HasCause (runtime.faults self.old) (runtime.faults self.new) result };
}
