//! What opens ports.

ghost use Rattle.std.specs.Prelude.{◌≡◌, ◌<◌, All, length, IfOk};
ghost use Rattle.dns_ports.specs.Ports.{HubTold, IsFreshSocket, IsFreshListener, Opens, ClosesSocket, ClosesListener};
ghost use Rattle.dns_ports.specs.declared.hub.Opening.TheVariants.{Socket, Listeners};

use crate::port::{TcpPort, UdpPort};
use crate::stop_token::StopToken;
use dns_io::{IoFault, Peer};

/// An opening of a hub that succeeded.
#[derive(Clone, Copy, Debug, PartialEq, Eq)]
pub enum Opening {
    /// A socket of datagrams.
    Socket {
        /// Its own address.
        at: Peer,
    },
    /// Listeners of one address.
    Listeners {
        /// Their own address.
        at: Peer,
        /// The limit of their connections, in milliseconds; 0 for none.
        limit: u64,
        /// How many they are.
        workers: u32,
    },
}

/// Opens sockets and listeners, and takes them back.
pub trait Hub {
    type Udp: UdpPort + Drop;

    type Tcp: TcpPort + Drop;

    /// What it tells of itself. A hub may stop telling at any call, and then never tells again; its count of failed openings, and of ports
    /// with a count above 0 that were taken back, goes up to `u64::MAX`. So do those of the openings that succeeded and of those that
    /// failed, which it tells always.
    ghost told: { Self → HubTold Self.Udp Self.Tcp };

    /// Opens a socket at the address `at`, which is stopped by this token. After an error none was opened.
    fn open_udp(&mut self, at: Peer, stop: &StopToken) -> Result<Self::Udp, IoFault>
        ensures fresh { IfOk result (λ port. IsFreshSocket (Self.Udp.told port)) }
        ensures told { Opens (told self.old) (told self.new) (Socket at) 1 0 result };

    /// Opens exactly `workers` listeners of the address `at`, which are stopped by this token. `limit` is how many
    /// milliseconds a connection may be silent, 0 for no limit. After an error none was opened.
    fn open_tcp(
        &mut self,
        at: Peer,
        limit: u64,
        workers: u32,
        stop: &StopToken,
    ) -> Result<Vec<Self::Tcp>, IoFault>
        ensures count { IfOk result (λ ports. length ports.items ≡ workers) }
        ensures fresh { IfOk result (λ ports. All (λ port. IsFreshListener (Self.Tcp.told port)) ports.items) }
        ensures told { Opens (told self.old) (told self.new) (Listeners at limit workers) 0 workers result };

    /// Takes back a socket that was opened. It takes no memory, since the opening made its room.
    fn close_udp(&mut self, port: Self::Udp)
        requires { 0 < (told self.old).lent_udp }
        ensures told { ClosesSocket (told self.old) (told self.new) port (Self.Udp.told port).faults };

    /// Takes back a listener that was opened. It takes no memory, since the opening made its room.
    fn close_tcp(&mut self, port: Self::Tcp)
        requires { 0 < (told self.old).lent_tcp }
        ensures told { ClosesListener (told self.old) (told self.new) port (Self.Tcp.told port).faults };
}
