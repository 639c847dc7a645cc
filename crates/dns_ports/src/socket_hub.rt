//! A hub over the operating system.

ghost use Rattle.std.specs.Prelude.{◌≡◌, ◌<◌, All, length, IfOk};
ghost use Rattle.dns_io.specs.Told.{counted};
ghost use Rattle.dns_ports.specs.Ports.{IsFreshSocket, IsFreshListener, Opens, ClosesSocket, ClosesListener};
ghost use Rattle.dns_ports.specs.Memory.{faults_behind};
ghost use Rattle.dns_ports.specs.Sockets.{untold_hub, untold_listener};
ghost use Rattle.dns_ports.specs.Passed.{socket_told};
ghost use Rattle.dns_ports.specs.declared.hub.Opening.TheVariants.{Socket, Listeners};

use crate::faults::faults_behind;
use crate::hub::Hub;
use crate::listener_port::ListenerPort;
use crate::socket_port::SocketPort;
use crate::stop_token::StopToken;
use dns_edges::count;
use dns_io::{IoFault, Peer};
use std::alloc::Global;
use std::marker::Model;
use std::net::{Net, TcpListener, TcpStream};
use std::rt;

/// Opens sockets and listeners of the operating system. A port that is taken back is closed.
#[derive(Drop)]
pub struct SocketHub<R> {
    alloc: Global,
    runtime: R,
    lent_udp: u64,
    lent_tcp: u64,
    faults: u64,
    opened_calls: u64,
    failed_calls: u64,
}

impl<R> Model for SocketHub<R> {
    ghost use Rattle.dns_ports.specs.Sockets.{HubCounts};

    ghost Value = { HubCounts };

    ghost view = { λ h. record {
      lent_udp = h.lent_udp;
      lent_tcp = h.lent_tcp;
      faults = h.faults;
      opened_calls = h.opened_calls;
      failed_calls = h.failed_calls;
    } };
}

impl<R> SocketHub<R> {
    /// A hub that opened nothing.
    pub fn new(alloc: Global, runtime: R) -> SocketHub<R>
        ensures { result ≡ record { lent_udp = 0; lent_tcp = 0; faults = 0; opened_calls = 0; failed_calls = 0 } }
    {
        SocketHub {
            alloc,
            runtime,
            lent_udp: 0,
            lent_tcp: 0,
            faults: 0,
            opened_calls: 0,
            failed_calls: 0,
        }
    }
}

impl<R: Net<Listener = TcpListener, Stream = TcpStream> + rt::Clock + Copy> Hub for SocketHub<R> {
    type Udp = SocketPort<R>;

    type Tcp = ListenerPort<R>;

    ghost told = { untold_hub };

    fn open_udp(&mut self, at: Peer, stop: &StopToken) -> Result<SocketPort<R>, IoFault>
        ensures fresh { IfOk result (λ port. IsFreshSocket (socket_told port)) }
        ensures told { Opens (untold_hub self.old) (untold_hub self.new) (Socket at) 1 0 result }
        ensures faults { self.new.faults ≡ counted self.old.faults result }
    {
        let Some(lent) = self.lent_udp.checked_add(1) else {
            return Err(IoFault::OutOfMemory);
        };
        let opened = SocketPort::open(self.runtime, at, stop);
        let counted = count(opened, &mut self.faults);
        let port = count(counted, &mut self.failed_calls)?;
        self.lent_udp = lent;
        self.opened_calls = self.opened_calls.saturating_add(1);
        Ok(port)
    }

    fn open_tcp(
        &mut self,
        at: Peer,
        limit: u64,
        workers: u32,
        stop: &StopToken,
    ) -> Result<Vec<ListenerPort<R>>, IoFault>
        ensures count { IfOk result (λ ports. length ports.items ≡ workers) }
        ensures fresh { IfOk result (λ ports. All (λ port. IsFreshListener (untold_listener port)) ports.items) }
        ensures told { Opens (untold_hub self.old) (untold_hub self.new) (Listeners at limit workers) 0 workers result }
        ensures faults { self.new.faults ≡ counted self.old.faults result }
    {
        let Some(lent) = self.lent_tcp.checked_add(u64::from(workers)) else {
            return Err(IoFault::OutOfMemory);
        };
        let opened = ListenerPort::open(self.alloc, self.runtime, at, limit, workers, stop);
        let counted = count(opened, &mut self.faults);
        let ports = count(counted, &mut self.failed_calls)?;
        self.lent_tcp = lent;
        self.opened_calls = self.opened_calls.saturating_add(1);
        Ok(ports)
    }

    fn close_udp(&mut self, port: SocketPort<R>)
        requires { 0 < self.old.lent_udp }
        ensures told { ClosesSocket (untold_hub self.old) (untold_hub self.new) port port.faults }
        ensures faults { self.new.faults ≡ faults_behind self.old.faults port.faults }
    {
        self.faults = faults_behind(self.faults, port.faults());
        self.lent_udp -= 1;
    }

    fn close_tcp(&mut self, port: ListenerPort<R>)
        requires { 0 < self.old.lent_tcp }
        ensures told { ClosesListener (untold_hub self.old) (untold_hub self.new) port port.faults }
        ensures faults { self.new.faults ≡ faults_behind self.old.faults port.faults }
    {
        self.faults = faults_behind(self.faults, port.faults());
        self.lent_tcp -= 1;
    }
}
