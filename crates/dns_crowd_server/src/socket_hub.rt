//! A hub over the operating system.

ghost use Rattle.std.specs.Prelude.{◌≡◌, ◌<◌, ◌≤◌, ◌+◌, ◌++◌, ◌∷◌, ◌^◌, [], All, length, min, nat_lt, IfOk, IfSome, OnOk};
ghost use Rattle.std.specs.List.{sum_by};
ghost use Rattle.dns_io.specs.Told.{counted};
ghost use Rattle.dns_edges.specs.Edges.{HasCause};
ghost use Rattle.dns_ports.specs.Ports.{CountsPort, IsFreshSocket};
ghost use Rattle.dns_ports.specs.Passed.{socket_told};
ghost use Rattle.dns_crowd.specs.Crowds.{untold_crowd};
ghost use Rattle.dns_crowd_server.specs.Hubs.{ClosesPlaces, IsFreshCrowd, OpensPlaces, count_at, crowds_of, seats_of, sockets_of, their_faults};
ghost use Rattle.dns_crowd_server.specs.Memory.{untold_crowd_hub};

use crate::hub::{CrowdHub, Places, count_at};
use crate::port_failure::PortFailure;
use dns_crowd::SocketCrowd;
use dns_edges::count;
use dns_io::{IoFault, OutOfMemory, Peer};
use dns_ports::{Call, Failure, SocketPort, StopToken, address_of, faults_behind};
use dns_readiness::OpenPlaces;
use mio::net::TcpListener as QuickListener;
use std::alloc::Global;
use std::io::ErrorKind;
use std::marker::Model;
use std::net::{Net, TcpListener, TcpStream};
use std::rt;

/// Opens sockets and crowds of the operating system, which one token stops. What is taken back is closed.
///
/// It keeps the first call that the system refused so that an opening or a port failed.
#[derive(Drop)]
pub struct SocketCrowdHub<R> {
    alloc: Global,
    runtime: R,
    token: StopToken,
    /// The places of the last opening.
    places: Option<Places>,
    failure: Option<PortFailure>,
    lent_sockets: u64,
    lent_crowds: u64,
    faults: u64,
    opened_calls: u64,
    failed_calls: u64,
}

impl<R> Model for SocketCrowdHub<R> {
    ghost use Rattle.dns_crowd_server.specs.Memory.{SocketHubCounts};

    ghost Value = { SocketHubCounts };

    ghost view = { λ h. record {
      lent_sockets = h.lent_sockets;
      lent_crowds = h.lent_crowds;
      faults = h.faults;
      opened_calls = h.opened_calls;
      failed_calls = h.failed_calls;
    } };
}

impl<R> SocketCrowdHub<R> {
    /// A hub that opened nothing, and gives this token for what it opens.
    pub fn new(alloc: Global, runtime: R, token: StopToken) -> SocketCrowdHub<R>
        ensures { result ≡ record { lent_sockets = 0; lent_crowds = 0; faults = 0; opened_calls = 0; failed_calls = 0 } }
    {
        SocketCrowdHub {
            alloc,
            runtime,
            token,
            places: None,
            failure: None,
            lent_sockets: 0,
            lent_crowds: 0,
            faults: 0,
            opened_calls: 0,
            failed_calls: 0,
        }
    }

    /// The first call that the system refused so that an opening failed, or a port that was taken back, if there was one.
    pub fn failure(&self) -> Option<PortFailure> {
        self.failure
    }
}

impl<R: Net<Listener = TcpListener, Stream = TcpStream> + rt::Clock + Copy> CrowdHub
    for SocketCrowdHub<R> {
    type Udp = SocketPort<R>;

    type Connections = SocketCrowd<R>;

    ghost told = { untold_crowd_hub };

    fn stop_token(&self) -> Result<StopToken, OutOfMemory> {
        self.token.again()
    }

    fn open(
        &mut self,
        places: &Places,
        stop: &StopToken,
    ) -> Result<(Vec<SocketPort<R>>, Vec<SocketCrowd<R>>), IoFault>
        requires limit { places.now.limit < 2 ^ 47 }
        ensures sockets { IfOk result (λ ports. length ports.0.items ≡ sockets_of places.now) }
        ensures crowds { IfOk result (λ ports. length ports.1.items ≡ crowds_of places.now) }
        ensures fresh_sockets { IfOk result (λ ports. All (λ one. IsFreshSocket (socket_told one)) ports.0.items) }
        ensures fresh_crowds { IfOk result (λ ports. All (λ one. IsFreshCrowd (untold_crowd one)) ports.1.items) }
        ensures told { OpensPlaces (untold_crowd_hub self.old) (untold_crowd_hub self.new) places.now result }
        ensures faults { self.new.faults ≡ counted self.old.faults result }
    {
        let Some(lent) = lent_behind(self.lent_sockets, self.lent_crowds, places) else {
            return Err(IoFault::OutOfMemory);
        };
        let opened = opened(self.alloc, self.runtime, places, stop, &mut self.failure);
        let ports = count_failed(opened, &mut self.faults, &mut self.failed_calls)?;
        self.lent_sockets = lent.0;
        self.lent_crowds = lent.1;
        self.opened_calls = self.opened_calls.saturating_add(1);
        self.places = Some(*places);
        stop.expect(workers_at(places));
        Ok(ports)
    }

    fn close(&mut self, sockets: Vec<SocketPort<R>>, crowds: Vec<SocketCrowd<R>>)
        requires sockets { length sockets.items ≤ self.old.lent_sockets }
        requires crowds { length crowds.items ≤ self.old.lent_crowds }
        ensures told { ClosesPlaces (untold_crowd_hub self.old) (untold_crowd_hub self.new) sockets.items crowds.items
            (their_faults socket_told untold_crowd sockets.items crowds.items) }
    {
        note_failures(&mut self.failure, &self.places, &sockets, &crowds);
        self.faults = faults_after(self.faults, sockets.as_slice(), crowds.as_slice());
        self.lent_sockets -= sockets.len() as u64;
        self.lent_crowds -= crowds.len() as u64;
    }
}

/// How many sockets and how many crowds are out behind an opening at these places.
fn lent_behind(sockets: u64, crowds: u64, places: &Places) -> Option<(u64, u64)>
    ensures { IfSome result (λ lent. (lent.0 ≡ sockets + sockets_of places.now) × (lent.1 ≡ crowds + crowds_of places.now)) }
{
    let sockets = sockets.checked_add(u64::from(count_at(1, &places.udp)))?;
    let crowds = crowds.checked_add(u64::from(count_at(places.workers, &places.tcp)))?;
    Some((sockets, crowds))
}

/// How many workers are to report, once these places were opened: one for each port.
fn workers_at(places: &Places) -> u32
    ensures { seats_of places.now < 2 ^ 32 → result ≡ seats_of places.now }
{
    count_at(1, &places.udp).saturating_add(count_at(places.workers, &places.tcp))
}

/// Notes a call that was refused, where none was before; the fault that it is.
fn note(kept: &mut Option<PortFailure>, refused: PortFailure) -> IoFault {
    let fault = refused.fault();
    if kept.is_none() {
        *kept = Some(refused);
    }
    fault
}

/// Notes the first call that was refused at one of these ports, which were opened at these places.
fn note_failures<R: Net + rt::Clock + Copy>(
    kept: &mut Option<PortFailure>,
    places: &Option<Places>,
    sockets: &Vec<SocketPort<R>>,
    crowds: &Vec<SocketCrowd<R>>,
) {
    let Some(places) = places else {
        return;
    };
    for socket in sockets.as_slice() {
        if let (Some(at), Some(failure)) = (places.udp, socket.failure()) {
            let _fault = note(kept, PortFailure::of_udp(at, failure));
        }
    }
    for crowd in crowds.as_slice() {
        if let (Some(at), Some(failure)) = (places.tcp, crowd.failure()) {
            let _fault = note(kept, PortFailure::of_tcp(at, failure));
        }
    }
}

/// Hands the outcome of an opening on, and counts it, as a fault and as an opening that failed, where it is `Failed`.
fn count_failed<T>(
    outcome: Result<T, IoFault>,
    faults: &mut u64,
    failed_calls: &mut u64,
) -> Result<T, IoFault>
    ensures outcome { result ≡ outcome }
    ensures faults { faults.new ≡ counted faults.old result }
    ensures cause { HasCause faults.old faults.new result }
    ensures failing { failed_calls.new ≡ counted failed_calls.old result }
{
    count(count(outcome, faults), failed_calls)
}

/// The sockets and crowds of these places. A call that is refused is noted.
fn opened<R: Net<Listener = TcpListener, Stream = TcpStream> + rt::Clock + Copy>(
    alloc: Global,
    runtime: R,
    places: &Places,
    stop: &StopToken,
    failure: &mut Option<PortFailure>,
) -> Result<(Vec<SocketPort<R>>, Vec<SocketCrowd<R>>), IoFault>
    requires limit { places.now.limit < 2 ^ 47 }
    ensures sockets { IfOk result (λ ports. length ports.0.items ≡ sockets_of places.now) }
    ensures crowds { IfOk result (λ ports. length ports.1.items ≡ crowds_of places.now) }
    ensures fresh_sockets { IfOk result (λ ports. All (λ one. IsFreshSocket (socket_told one)) ports.0.items) }
    ensures fresh_crowds { IfOk result (λ ports. All (λ one. IsFreshCrowd (untold_crowd one)) ports.1.items) }
{
    let sockets = sockets_at(alloc, runtime, places.udp, stop, failure)?;
    let crowds = crowds_at(alloc, runtime, places, stop, failure)?;
    Ok((sockets, crowds))
}

/// A socket at this address, where it is one.
fn sockets_at<R: Net + rt::Clock + Copy>(
    alloc: Global,
    runtime: R,
    at: Option<Peer>,
    stop: &StopToken,
    failure: &mut Option<PortFailure>,
) -> Result<Vec<SocketPort<R>>, IoFault>
    ensures count { IfOk result (λ ports. length ports.items ≡ count_at 1 at) }
    ensures fresh { IfOk result (λ ports. All (λ one. IsFreshSocket (socket_told one)) ports.items) }
{
    let mut sockets = Vec::new(alloc);
    let Some(at) = at else {
        return Ok(sockets);
    };
    let socket = match SocketPort::try_open(runtime, at, stop) {
        Ok(socket) => socket,
        Err(refused) => return Err(note(failure, PortFailure::of_udp(at, refused))),
    };
    if sockets.push(socket).is_err() {
        return Err(IoFault::OutOfMemory);
    }
    Ok(sockets)
}

/// So many crowds as are asked for at their address, where it is one. A call that is refused is noted.
fn crowds_at<R: Net<Listener = TcpListener, Stream = TcpStream> + rt::Clock + Copy>(
    alloc: Global,
    runtime: R,
    places: &Places,
    stop: &StopToken,
    failure: &mut Option<PortFailure>,
) -> Result<Vec<SocketCrowd<R>>, IoFault>
    requires limit { places.now.limit < 2 ^ 47 }
    ensures count { IfOk result (λ crowds. length crowds.items ≡ crowds_of places.now) }
    ensures fresh { IfOk result (λ crowds. All (λ one. one.faults ≡ 0) crowds.items) }
{
    let Some(at) = places.tcp else {
        return Ok(Vec::new(alloc));
    };
    match crowds_over(alloc, runtime, at, places, stop) {
        Ok(crowds) => Ok(crowds),
        Err(refused) => Err(note(failure, PortFailure::of_tcp(at, refused))),
    }
}

/// So many crowds as are asked for, over one queue of connections at this address. All of them together may have so many connections open at
/// once as are asked for.
fn crowds_over<R: Net<Listener = TcpListener, Stream = TcpStream> + rt::Clock + Copy>(
    alloc: Global,
    runtime: R,
    at: Peer,
    places: &Places,
    stop: &StopToken,
) -> Result<Vec<SocketCrowd<R>>, Failure>
    requires limit { places.now.limit < 2 ^ 47 }
    ensures count { IfOk result (λ crowds. length crowds.items ≡ places.now.workers) }
    ensures fresh { IfOk result (λ crowds. All (λ one. one.faults ≡ 0) crowds.items) }
{
    let mut crowds = Vec::new(alloc);
    let listener = listener_at(&runtime, at)?;
    let Ok(open_places) = OpenPlaces::new(alloc, places.connections) else {
        return Err(want_of_memory());
    };
    for _place in 0..places.workers {
        let crowd = crowd_over(alloc, runtime, &listener, places.limit, &open_places, stop)?;
        put(&mut crowds, crowd)?;
    }
    Ok(crowds)
}

/// A listener of this address.
fn listener_at<R: Net<Listener = TcpListener, Stream = TcpStream>>(
    runtime: &R,
    at: Peer,
) -> Result<TcpListener, Failure> {
    match QuickListener::bind(runtime, address_of(at)) {
        Ok(listener) => Ok(TcpListener::from(listener)),
        Err(error) => Err(Failure::new(Call::Listen, &error)),
    }
}

/// That no memory was found.
fn want_of_memory() -> Failure {
    Failure::new(Call::Memory, &ErrorKind::OutOfMemory.into())
}

/// Adds an item at the end.
fn put<T: Drop>(items: &mut Vec<T>, item: T) -> Result<(), Failure>
    ensures { OnOk result (items.new.items ≡ items.old.items ++ item ∷ []) }
{
    match items.push(item) {
        Ok(()) => Ok(()),
        Err(_) => Err(want_of_memory()),
    }
}

/// One more crowd over the same queue of connections.
fn crowd_over<R: Net<Listener = TcpListener, Stream = TcpStream> + rt::Clock + Copy>(
    alloc: Global,
    runtime: R,
    listener: &TcpListener,
    limit: u64,
    open_places: &OpenPlaces,
    stop: &StopToken,
) -> Result<SocketCrowd<R>, Failure>
    requires limit { limit < 2 ^ 47 }
    ensures fresh { IfOk result (λ crowd. crowd.faults ≡ 0) }
{
    let own = match listener.try_clone() {
        Ok(own) => QuickListener::from_std(own),
        Err(error) => return Err(Failure::new(Call::Share, &error)),
    };
    let Ok(token) = stop.again() else {
        return Err(want_of_memory());
    };
    SocketCrowd::try_over(alloc, runtime, own, limit, open_places, token)
}

/// The count of faults of a hub behind these: it rises by one where one of them has a count above 0.
fn faults_after<R: Net + rt::Clock + Copy>(
    faults: u64,
    sockets: &[SocketPort<R>],
    crowds: &[SocketCrowd<R>],
) -> u64
    ensures { CountsPort (their_faults socket_told untold_crowd sockets.now crowds.now) faults result }
{
    faults_behind(faults, faulty(sockets, crowds))
}

/// 1 where one of these has a count of faults above 0, else 0.
fn faulty<R: Net + rt::Clock + Copy>(sockets: &[SocketPort<R>], crowds: &[SocketCrowd<R>]) -> u64
    ensures { result ≡ min (their_faults socket_told untold_crowd sockets.now crowds.now) 1 }
{
    if has_faulty_socket(sockets) {
        return 1;
    }
    if has_faulty_crowd(crowds) {
        return 1;
    }
    0
}

/// Whether one of these has a count of faults above 0.
fn has_faulty_socket<R: Net + rt::Clock + Copy>(sockets: &[SocketPort<R>]) -> bool
    ensures { result ≡ nat_lt 0 (sum_by (λ one. (socket_told one).faults) sockets.now) }
{
    for socket in sockets {
        if socket.faults() > 0 {
            return true;
        }
    }
    false
}

/// Whether one of these has a count of faults above 0.
fn has_faulty_crowd<R: Net + rt::Clock + Copy>(crowds: &[SocketCrowd<R>]) -> bool
    ensures { result ≡ nat_lt 0 (sum_by (λ one. (untold_crowd one).faults) crowds.now) }
{
    for crowd in crowds {
        if crowd.faults() > 0 {
            return true;
        }
    }
    false
}
