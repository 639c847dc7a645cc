//! A hub in memory, for tests. It always tells its content, and the openings fail whose numbers it was made with.

ghost use Rattle.std.specs.Prelude.{◌≡◌, ◌<◌, ◌≤◌, ◌+◌, ◌∷◌, ◌++◌, [], length, drop, vec_len, vec_capacity, All, OnOk, OnErr, IfOk};
ghost use Rattle.dns_ports.specs.Ports.{Opens, ClosesSocket, ClosesListener};
ghost use Rattle.dns_ports.specs.Memory.{IsUnusedUdp, IsUnusedTcp, hub_of, hub_told, next_socket, next_listener, next_listeners, OpensSocket, OpensListeners, socket_closed, listener_closed};
ghost use Rattle.dns_ports.specs.declared.hub.Opening.TheVariants.{Socket, Listeners};

use crate::faults::faults_behind;
use crate::hub::{Hub, Opening};
use crate::memory_tcp::{MemoryTcp, room_for_more};
use crate::memory_udp::MemoryUdp;
use crate::stop_token::StopToken;
use dns_io::{IoFault, OutOfMemory, Peer};
use std::alloc::Global;
use std::collections::VecDeque;
use std::marker::Model;

/// A hub that gives ports which were handed to it, and looks at no token.
#[derive(Drop)]
pub struct MemoryHub {
    alloc: Global,
    sockets: VecDeque<MemoryUdp>,
    listeners: VecDeque<MemoryTcp>,
    openings: Vec<Opening>,
    closed_udp: Vec<MemoryUdp>,
    closed_tcp: Vec<MemoryTcp>,
    lent_udp: usize,
    lent_tcp: usize,
    failing_openings: Vec<u64>,
    calls: u64,
    faults: u64,
    opened_calls: u64,
    failed_calls: u64,
}

impl Model for MemoryHub {
    ghost use Rattle.std.specs.Prelude.{◌≤◌, ◌+◌, vec_len, vec_capacity, All};
    ghost use Rattle.dns_ports.specs.Memory.{HubState, IsUnusedUdp, IsUnusedTcp};

    ghost Value = { HubState };

    ghost view = { λ h. record {
      sockets = h.sockets.items;
      listeners = h.listeners.items;
      openings = h.openings.items;
      closed_udp = h.closed_udp.items;
      closed_tcp = h.closed_tcp.items;
      lent_udp = h.lent_udp;
      lent_tcp = h.lent_tcp;
      failing_openings = h.failing_openings.items;
      calls = h.calls;
      faults = h.faults;
      opened_calls = h.opened_calls;
      failed_calls = h.failed_calls;
    } };

    ghost invariant = { λ h. (vec_len h.closed_udp + h.lent_udp ≤ vec_capacity h.closed_udp)
        × (vec_len h.closed_tcp + h.lent_tcp ≤ vec_capacity h.closed_tcp)
        × All IsUnusedUdp h.sockets.items × All IsUnusedTcp h.listeners.items };
}

impl MemoryHub {
    /// A hub that gives these ports, each of which was not used yet, in order; without a port left it gives one that holds
    /// nothing. Its openings are counted from 1, both kinds together, and those whose numbers stand in `openings` fail. The
    /// count of faults rises by one at each of them, and where a port with a count above 0 is taken back.
    pub fn new(
        alloc: Global,
        udp: Vec<MemoryUdp>,
        tcp: Vec<MemoryTcp>,
        openings: Vec<u64>,
    ) -> MemoryHub
        requires udp { All IsUnusedUdp udp.items }
        requires tcp { All IsUnusedTcp tcp.items }
        ensures { result ≡ hub_of udp.items tcp.items openings.items }
    {
        MemoryHub {
            alloc,
            sockets: VecDeque::from_vec(udp),
            listeners: VecDeque::from_vec(tcp),
            openings: Vec::new(alloc),
            closed_udp: Vec::new(alloc),
            closed_tcp: Vec::new(alloc),
            lent_udp: 0,
            lent_tcp: 0,
            failing_openings: openings,
            calls: 0,
            faults: 0,
            opened_calls: 0,
            failed_calls: 0,
        }
    }

    /// The openings that succeeded, in order.
    pub fn openings(&self) -> &Vec<Opening>
        ensures { result.now.items ≡ self.now.openings }
    {
        &self.openings
    }

    /// The sockets that the hub got back, in order.
    pub fn closed_udp(&self) -> &Vec<MemoryUdp>
        ensures { result.now.items ≡ self.now.closed_udp }
    {
        &self.closed_udp
    }

    /// The listeners that the hub got back, in order.
    pub fn closed_tcp(&self) -> &Vec<MemoryTcp>
        ensures { result.now.items ≡ self.now.closed_tcp }
    {
        &self.closed_tcp
    }
}

impl Hub for MemoryHub {
    type Udp = MemoryUdp;

    type Tcp = MemoryTcp;

    ghost told = { hub_told };

    fn open_udp(&mut self, at: Peer, _stop: &StopToken) -> Result<MemoryUdp, IoFault>
        ensures fresh { IfOk result IsUnusedUdp }
        ensures told { Opens (hub_told self.old) (hub_told self.new) (Socket at) 1 0 result }
        ensures next { OpensSocket self.old at result self.new }
    {
        self.calls = self.calls.saturating_add(1);
        if self.failing_openings.contains(&self.calls) {
            self.faults = self.faults.saturating_add(1);
            self.failed_calls = self.failed_calls.saturating_add(1);
            return Err(IoFault::Failed);
        }
        let lent = room_for_more(&mut self.closed_udp, self.lent_udp, 1)?;
        note(&mut self.openings, Opening::Socket { at })?;
        self.lent_udp = lent;
        self.opened_calls = self.opened_calls.saturating_add(1);
        Ok(first_socket(self.alloc, &mut self.sockets))
    }

    fn open_tcp(
        &mut self,
        at: Peer,
        limit: u64,
        workers: u32,
        _stop: &StopToken,
    ) -> Result<Vec<MemoryTcp>, IoFault>
        ensures count { IfOk result (λ ports. length ports.items ≡ workers) }
        ensures fresh { IfOk result (λ ports. All IsUnusedTcp ports.items) }
        ensures told { Opens (hub_told self.old) (hub_told self.new) (Listeners at limit workers) 0 workers result }
        ensures next { OpensListeners (λ ports. ports.items) self.old at limit workers result self.new }
    {
        self.calls = self.calls.saturating_add(1);
        if self.failing_openings.contains(&self.calls) {
            self.faults = self.faults.saturating_add(1);
            self.failed_calls = self.failed_calls.saturating_add(1);
            return Err(IoFault::Failed);
        }
        let lent = room_for_more(&mut self.closed_tcp, self.lent_tcp, workers as usize)?;
        let ports = room_for_ports(self.alloc, workers)?;
        note(
            &mut self.openings,
            Opening::Listeners { at, limit, workers },
        )?;
        self.lent_tcp = lent;
        self.opened_calls = self.opened_calls.saturating_add(1);
        Ok(first_listeners(self.alloc, &mut self.listeners, workers, ports))
    }

    fn close_udp(&mut self, port: MemoryUdp)
        requires { 0 < self.old.lent_udp }
        ensures told { ClosesSocket (hub_told self.old) (hub_told self.new) port port.faults }
        ensures next { self.new ≡ socket_closed self.old port }
    {
        self.faults = faults_behind(self.faults, port.faults());
        self.closed_udp.push_reserved(port);
        self.lent_udp -= 1;
    }

    fn close_tcp(&mut self, port: MemoryTcp)
        requires { 0 < self.old.lent_tcp }
        ensures told { ClosesListener (hub_told self.old) (hub_told self.new) port port.faults }
        ensures next { self.new ≡ listener_closed self.old port }
    {
        self.faults = faults_behind(self.faults, port.faults());
        self.closed_tcp.push_reserved(port);
        self.lent_tcp -= 1;
    }
}

/// Adds an opening to those that succeeded.
fn note(openings: &mut Vec<Opening>, opening: Opening) -> Result<(), OutOfMemory>
    ensures ok { OnOk result (openings.new.items ≡ openings.old.items ++ opening ∷ []) }
    ensures err { OnErr result (openings.new.items ≡ openings.old.items) }
{
    openings.push(opening)?;
    Ok(())
}

/// The first of these sockets, or one that holds nothing.
fn first_socket(alloc: Global, sockets: &mut VecDeque<MemoryUdp>) -> MemoryUdp
    requires { All IsUnusedUdp sockets.old.items }
    ensures unused { IsUnusedUdp result }
    ensures unused_rest { All IsUnusedUdp sockets.new.items }
    ensures first { result ≡ next_socket sockets.old.items }
    ensures rest { sockets.new.items ≡ drop 1 sockets.old.items }
{
    match sockets.pop_front() {
        Some(socket) => socket,
        None => MemoryUdp::new(alloc, Vec::new(alloc), Vec::new(alloc), Vec::new(alloc)),
    }
}

/// The first of these listeners, or one that holds nothing.
fn first_listener(alloc: Global, listeners: &mut VecDeque<MemoryTcp>) -> MemoryTcp
    requires { All IsUnusedTcp listeners.old.items }
    ensures unused { IsUnusedTcp result }
    ensures unused_rest { All IsUnusedTcp listeners.new.items }
    ensures first { result ≡ next_listener listeners.old.items }
    ensures rest { listeners.new.items ≡ drop 1 listeners.old.items }
{
    match listeners.pop_front() {
        Some(listener) => listener,
        None => MemoryTcp::new(alloc, Vec::new(alloc), Vec::new(alloc)),
    }
}

/// Room for so many listeners.
fn room_for_ports(alloc: Global, workers: u32) -> Result<Vec<MemoryTcp>, OutOfMemory>
    ensures none { IfOk result (λ ports. ports.items ≡ []) }
    ensures room { IfOk result (λ ports. vec_len ports + workers ≤ vec_capacity ports) }
{
    Ok(Vec::with_capacity(alloc, workers as usize)?)
}

/// The first listeners, of this number, put into the room that was made for them.
fn first_listeners(
    alloc: Global,
    listeners: &mut VecDeque<MemoryTcp>,
    workers: u32,
    room: Vec<MemoryTcp>,
) -> Vec<MemoryTcp>
    requires none { room.items ≡ [] }
    requires room { vec_len room + workers ≤ vec_capacity room }
    requires unused { All IsUnusedTcp listeners.old.items }
    ensures unused { All IsUnusedTcp result.items }
    ensures unused_rest { All IsUnusedTcp listeners.new.items }
    ensures count { length result.items ≡ workers }
    ensures first { result.items ≡ next_listeners workers listeners.old.items }
    ensures rest { listeners.new.items ≡ drop workers listeners.old.items }
{
    let mut ports = room;
    for _place in 0..workers {
        let listener = first_listener(alloc, listeners);
        ports.push_reserved(listener);
    }
    ports
}
