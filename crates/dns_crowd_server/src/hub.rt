//! What opens what a server listens at.

ghost use Rattle.std.specs.Prelude.{◌≡◌, ◌<◌, ◌≤◌, ◌^◌, All, length, IfOk};
ghost use Rattle.dns_ports.specs.Ports.{IsFreshSocket};
ghost use Rattle.dns_crowd_server.specs.Hubs.{ClosesPlaces, CrowdHubTold, IsFreshCrowd, OpensPlaces, crowds_of, count_at, seats_of, sockets_of, their_faults};

use dns_crowd::Crowd;
use dns_io::{IoFault, OutOfMemory, Peer};
use dns_ports::{StopToken, UdpPort};

/// Where a server is to listen, and for how many connections.
#[derive(Clone, Copy, Debug, PartialEq, Eq)]
pub struct Places {
    /// The address and port where datagrams are taken.
    pub udp: Option<Peer>,
    /// The address and port where connections are taken.
    pub tcp: Option<Peer>,
    /// For how many milliseconds a connection may stay without a whole message, below 2^47; 0 for any time.
    pub limit: u64,
    /// How many workers serve connections, each a crowd.
    pub workers: u32,
    /// How many connections are open at once, at most: all crowds together.
    pub connections: u32,
}

impl Places {
    /// How many workers serve there: one for the socket, and `workers` for the connections.
    pub fn seats(&self) -> u32
        requires { seats_of self.now < 2 ^ 32 }
        ensures { result ≡ seats_of self.now }
    {
        count_at(1, &self.udp) + count_at(self.workers, &self.tcp)
    }
}

/// So many where there is an address, else none.
pub(crate) fn count_at(count: u32, at: &Option<Peer>) -> u32
    ensures is { result ≡ count_at count at.now }
    ensures few { result ≤ count }
{
    match at {
        Some(_) => count,
        None => 0,
    }
}

/// Opens sockets and crowds, and takes them back.
pub trait CrowdHub {
    type Udp: UdpPort + Drop;

    type Connections: Crowd + Drop;

    /// What it tells of itself. A hub may stop telling at any call, and then never tells again; its count of failed openings, and of what
    /// was taken back with a count above 0, goes up to `u64::MAX`. It always tells how many openings gave what was asked for, and how many
    /// failed, each up to `u64::MAX`.
    ghost told: { Self → CrowdHubTold Self.Udp Self.Connections };

    /// A token that is to stop what it opens.
    fn stop_token(&self) -> Result<StopToken, OutOfMemory>;

    /// Opens a socket at `udp`, where it is an address, and `workers` crowds at `tcp`, where it is one; this token stops them. After an
    /// error none of them is open.
    fn open(
        &mut self,
        places: &Places,
        stop: &StopToken,
    ) -> Result<(Vec<Self::Udp>, Vec<Self::Connections>), IoFault>
        requires limit { places.now.limit < 2 ^ 47 }
        ensures sockets { IfOk result (λ ports. length ports.0.items ≡ sockets_of places.now) }
        ensures crowds { IfOk result (λ ports. length ports.1.items ≡ crowds_of places.now) }
        ensures fresh_sockets { IfOk result (λ ports. All (λ one. IsFreshSocket (Self.Udp.told one)) ports.0.items) }
        ensures fresh_crowds { IfOk result (λ ports. All (λ one. IsFreshCrowd (Self.Connections.told one)) ports.1.items) }
        ensures told { OpensPlaces (told self.old) (told self.new) places.now result };

    /// Takes sockets and crowds back that were opened. It takes no memory, since the opening made its room.
    fn close(&mut self, sockets: Vec<Self::Udp>, crowds: Vec<Self::Connections>)
        requires sockets { length sockets.items ≤ (told self.old).lent_sockets }
        requires crowds { length crowds.items ≤ (told self.old).lent_crowds }
        ensures told { ClosesPlaces (told self.old) (told self.new) sockets.items crowds.items
            (their_faults Self.Udp.told Self.Connections.told sockets.items crowds.items) };
}
