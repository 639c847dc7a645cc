//! The ports of the command `serve`: they are opened, served, and handed back.

ghost use Rattle.std.specs.Prelude.{◌≡◌, ◌⊎◌, ◌<◌, ◌≤◌, ◌+◌, ◌^◌, [], ◌++◌, length, All, Some, None, IsSome, IfSome, OnOk, IfErr, true, false};
ghost use Rattle.dns_io.specs.Told.{Keeps, Grows, Rose};
ghost use Rattle.dns_edges.specs.Edges.{around};
ghost use Rattle.dns_ports.specs.Ports.{IsFreshSocket, IsFreshListener, listener_of};
ghost use Rattle.dns_command.specs.declared.status.Status.TheVariants as status;
ghost use Rattle.dns_listeners.specs.Hubs.{AnyFault, meanings};
ghost use Rattle.dns_command.specs.ListeningWords.{count_at, sockets_of, listeners_of, seats_of};
ghost use Rattle.dns_listeners.specs.Serving.{MayBeRead, opening_at, listening_at, openings_of};
ghost use Rattle.dns_listeners.specs.ServingParts.{IsManned, IsSameServer, Registers, OpensAll, HasFaultyPort, HasCrew, IsCalm, IsOpenCause, IsCauseSoFar, TakesBack, emptied, ServesWell};

use dns_command::listening_words::Listening;
use dns_command::{Status, port_status};
use dns_edges::Source;
use dns_io::Peer;
use dns_keeper::Keeper;
use dns_ports::{Hub, TcpPort, UdpPort};
use dns_server::{RegisterFault, ThreadServer};
use dns_transport::NetError;
use std::sync::Wait;
use std::thread::Threads;

/// The size of a listener's buffer for replies, which limits nothing.
const BUFFER: usize = 0;

/// Opens the ports that the words name, and serves them until the source ends or fails. Ports that were opened stay with the
/// server, whatever comes.
pub fn serve_ports<R: Threads + Wait + Sync, E: Source, K: Keeper + Send, H: Hub>(
    rt: &R,
    server: &mut ThreadServer<K, H::Udp, H::Tcp>,
    listening: &Listening,
    until: &mut E,
    hub: &mut H,
) -> Result<(), Status>
where
    H::Udp: Send,
    H::Tcp: Send,
    <H::Tcp as TcpPort>::In: Send,
    <H::Tcp as TcpPort>::Out: Send,
    <H::Tcp as TcpPort>::Time: Send,
    requires manned { IsManned H.Udp.told H.Tcp.told listening.now.limit server.old }
    requires empty { (server.old.sockets ≡ []) × (server.old.listeners ≡ []) }
    requires seats { server.old.book.terms.seats ≡ seats_of listening.now }
    requires limit { listening.now.limit < 2 ^ 47 }
    ensures ok { OnOk result (ServesWell
        (meanings K.keeper H.Udp.told (listener_of H.Tcp.told H.Tcp.In.source H.Tcp.Out.sink H.Tcp.Time.clock))
        (around H.told hub.old hub.new) (around E.source.told until.old until.new) listening.now server.old server.new) }
    ensures crew { HasCrew
        (meanings K.keeper H.Udp.told (listener_of H.Tcp.told H.Tcp.In.source H.Tcp.Out.sink H.Tcp.Time.clock))
        listening.now.limit server.old server.new }
    ensures read { MayBeRead (around E.source.told until.old until.new) (around H.told hub.old hub.new) listening.now }
    ensures err { IfErr result (IsCauseSoFar
        (around H.told hub.old hub.new) listening.now (HasFaultyPort H.Udp.told H.Tcp.told server.new)) }
    ensures registers { Registers (around H.told hub.old hub.new) server.old server.new }
    ensures later { (E.source.told until.old).faults ≤ (E.source.told until.new).faults }
{
    open_ports(server, listening, hub)?;
    match server.serve_until(rt, until) {
        Ok(()) => Ok(()),
        Err(NetError::Io) => Err(Status::PortFault),
        Err(_) => Err(Status::OutOfMemory),
    }
}

/// Opens the ports that the words name, and registers each of them: first the socket, where there is no listener yet, then the listeners.
fn open_ports<K: Keeper, H: Hub>(
    server: &mut ThreadServer<K, H::Udp, H::Tcp>,
    listening: &Listening,
    hub: &mut H,
) -> Result<(), Status>
    requires manned { IsManned H.Udp.told H.Tcp.told listening.now.limit server.old }
    requires none { server.old.listeners ≡ [] }
    requires limit { listening.now.limit < 2 ^ 47 }
    ensures manned { IsManned H.Udp.told H.Tcp.told listening.now.limit server.new }
    ensures ok { OnOk result (OpensAll (around H.told hub.old hub.new) (openings_of listening.now)) }
    ensures sockets { OnOk result (length server.new.sockets ≡ length server.old.sockets + sockets_of listening.now) }
    ensures listeners { OnOk result (length server.new.listeners ≡ length server.old.listeners + listeners_of listening.now) }
    ensures err { IfErr result (IsOpenCause (around H.told hub.old hub.new)) }
    ensures registers { Registers (around H.told hub.old hub.new) server.old server.new }
{
    open_socket(server, listening.udp, listening.limit, hub)?;
    open_listeners(
        server,
        listening.tcp,
        listening.limit,
        listening.workers,
        hub,
    )
}

/// Opens a socket at this address, if there is one, and registers it. The passes keep their order, since no listener is registered yet.
fn open_socket<K: Keeper, H: Hub>(
    server: &mut ThreadServer<K, H::Udp, H::Tcp>,
    at: Option<Peer>,
    limit: u64,
    hub: &mut H,
) -> Result<(), Status>
    requires manned { IsManned H.Udp.told H.Tcp.told limit server.old }
    requires none { server.old.listeners ≡ [] }
    ensures manned { IsManned H.Udp.told H.Tcp.told limit server.new }
    ensures ok { OnOk result (OpensAll (around H.told hub.old hub.new) (opening_at at)) }
    ensures sockets { OnOk result (length server.new.sockets ≡ length server.old.sockets + count_at 1 at) }
    ensures listeners { server.new.listeners ≡ server.old.listeners }
    ensures err { IfErr result (IsOpenCause (around H.told hub.old hub.new)) }
    ensures registers { Registers (around H.told hub.old hub.new) server.old server.new }
{
    let Some(at) = at else {
        return Ok(());
    };
    let socket = match hub.open_udp(at, server.shutdown_token()) {
        Ok(socket) => socket,
        Err(fault) => return Err(port_status(fault)),
    };
    match registered_socket(server, socket, limit) {
        None => Ok(()),
        Some(socket) => {
            hub.close_udp(socket);
            Err(Status::OutOfMemory)
        }
    }
}

/// Registers a socket, or gives it back for want of memory.
fn registered_socket<K: Keeper, U: UdpPort + Drop, T: TcpPort + Drop>(
    server: &mut ThreadServer<K, U, T>,
    socket: U,
    limit: u64,
) -> Option<U>
    requires manned { IsManned U.told T.told limit server.old }
    requires none { server.old.listeners ≡ [] }
    requires fresh { IsFreshSocket (U.told socket) }
    ensures manned { IsManned U.told T.told limit server.new }
    ensures same { IsSameServer server.old server.new }
    ensures listeners { server.new.listeners ≡ server.old.listeners }
    ensures taken { result ≡ None → length server.new.sockets ≡ length server.old.sockets + 1 }
    ensures back { IfSome result (λ given. (given ≡ socket) × (server.new ≡ server.old)) }
{
    match server.register_socket(socket) {
        Ok(()) => None,
        Err(RegisterFault::Full(socket) | RegisterFault::OutOfMemory(socket)) => Some(socket),
    }
}

/// Opens so many listeners at this address, if there is one, and registers them.
fn open_listeners<K: Keeper, H: Hub>(
    server: &mut ThreadServer<K, H::Udp, H::Tcp>,
    at: Option<Peer>,
    limit: u64,
    workers: u32,
    hub: &mut H,
) -> Result<(), Status>
    requires manned { IsManned H.Udp.told H.Tcp.told limit server.old }
    requires limit { limit < 2 ^ 47 }
    ensures manned { IsManned H.Udp.told H.Tcp.told limit server.new }
    ensures ok { OnOk result (OpensAll (around H.told hub.old hub.new) (listening_at at limit workers)) }
    ensures listeners { OnOk result (length server.new.listeners ≡ length server.old.listeners + count_at workers at) }
    ensures sockets { server.new.sockets ≡ server.old.sockets }
    ensures err { IfErr result (IsOpenCause (around H.told hub.old hub.new)) }
    ensures registers { Registers (around H.told hub.old hub.new) server.old server.new }
{
    let Some(at) = at else {
        return Ok(());
    };
    let listeners = match hub.open_tcp(at, limit, workers, server.shutdown_token()) {
        Ok(listeners) => listeners,
        Err(fault) => return Err(port_status(fault)),
    };
    register_listeners(server, listeners, limit, hub)
}

/// Registers listeners in order. From the first that is refused on, for want of memory, each is handed back.
fn register_listeners<K: Keeper, H: Hub>(
    server: &mut ThreadServer<K, H::Udp, H::Tcp>,
    listeners: Vec<H::Tcp>,
    limit: u64,
    hub: &mut H,
) -> Result<(), Status>
    requires manned { IsManned H.Udp.told H.Tcp.told limit server.old }
    requires limit { limit < 2 ^ 47 }
    requires fresh { All (λ port. IsFreshListener (H.Tcp.told port)) listeners.items }
    requires out { length listeners.items ≤ (H.told hub.old).lent_tcp }
    ensures manned { IsManned H.Udp.told H.Tcp.told limit server.new }
    ensures same { IsSameServer server.old server.new }
    ensures sockets { server.new.sockets ≡ server.old.sockets }
    ensures listeners { OnOk result (length server.new.listeners ≡ length server.old.listeners + length listeners.items) }
    ensures out { (H.told hub.new).lent_tcp + (length server.old.listeners + length listeners.items)
        ≡ (H.told hub.old).lent_tcp + length server.new.listeners }
    ensures ok { OnOk result (Keeps (H.told hub.old).closed_tcp (H.told hub.new).closed_tcp) }
    ensures err { IfErr result (λ s. s ≡ status.OutOfMemory) }
    ensures calm { IsCalm (around H.told hub.old hub.new) }
{
    let mut is_refused = false;
    for listener in listeners {
        if !register_listener(server, listener, limit, is_refused, hub) {
            is_refused = true;
        }
    }
    if is_refused {
        return Err(Status::OutOfMemory);
    }
    Ok(())
}

/// Registers a listener, if none was refused before; else, or where memory runs out, it is handed back. Whether it was registered.
fn register_listener<K: Keeper, H: Hub>(
    server: &mut ThreadServer<K, H::Udp, H::Tcp>,
    listener: H::Tcp,
    limit: u64,
    is_refused: bool,
    hub: &mut H,
) -> bool
    requires manned { IsManned H.Udp.told H.Tcp.told limit server.old }
    requires limit { limit < 2 ^ 47 }
    requires fresh { IsFreshListener (H.Tcp.told listener) }
    requires out { 0 < (H.told hub.old).lent_tcp }
    ensures manned { IsManned H.Udp.told H.Tcp.told limit server.new }
    ensures same { IsSameServer server.old server.new }
    ensures sockets { server.new.sockets ≡ server.old.sockets }
    ensures yes { result ≡ true → (length server.new.listeners ≡ length server.old.listeners + 1)
        × (hub.new ≡ hub.old) × (is_refused ≡ false) }
    ensures no { result ≡ false → (server.new ≡ server.old) × ((H.told hub.new).lent_tcp + 1 ≡ (H.told hub.old).lent_tcp) }
    ensures calm { IsCalm (around H.told hub.old hub.new) }
{
    if is_refused {
        hub.close_tcp(listener);
        return false;
    }
    match registered_listener(server, listener, limit) {
        None => true,
        Some(listener) => {
            hub.close_tcp(listener);
            false
        }
    }
}

/// Registers a listener, or gives it back for want of memory.
fn registered_listener<K: Keeper, U: UdpPort + Drop, T: TcpPort + Drop>(
    server: &mut ThreadServer<K, U, T>,
    listener: T,
    limit: u64,
) -> Option<T>
    requires manned { IsManned U.told T.told limit server.old }
    requires limit { limit < 2 ^ 47 }
    requires fresh { IsFreshListener (T.told listener) }
    ensures manned { IsManned U.told T.told limit server.new }
    ensures same { IsSameServer server.old server.new }
    ensures sockets { server.new.sockets ≡ server.old.sockets }
    ensures taken { result ≡ None → length server.new.listeners ≡ length server.old.listeners + 1 }
    ensures back { IfSome result (λ given. (given ≡ listener) × (server.new ≡ server.old)) }
{
    match server.register_listener(listener, limit, BUFFER) {
        Ok(()) => None,
        Err(RegisterFault::Full(listener) | RegisterFault::OutOfMemory(listener)) => Some(listener),
    }
}

/// Hands each port of the server back to the hub.
pub fn take_back<K: Keeper, H: Hub>(server: &mut ThreadServer<K, H::Udp, H::Tcp>, hub: &mut H)
    requires sockets { length server.old.sockets ≤ (H.told hub.old).lent_udp }
    requires listeners { length server.old.listeners ≤ (H.told hub.old).lent_tcp }
    ensures back { TakesBack (around H.told hub.old hub.new) server.old (HasFaultyPort H.Udp.told H.Tcp.told server.old) }
    ensures after { server.new ≡ emptied server.old }
{
    close_sockets(hub, server.sockets());
    close_listeners(hub, server.listeners());
}

/// Hands sockets back to the hub, in order.
fn close_sockets<H: Hub>(hub: &mut H, sockets: Vec<H::Udp>)
    requires { length sockets.items ≤ (H.told hub.old).lent_udp }
    ensures back { Grows (H.told hub.old).closed_udp (H.told hub.new).closed_udp sockets.items }
    ensures out { (H.told hub.new).lent_udp + length sockets.items ≡ (H.told hub.old).lent_udp }
    ensures opened { Keeps (H.told hub.old).openings (H.told hub.new).openings }
    ensures listeners { Keeps (H.told hub.old).closed_tcp (H.told hub.new).closed_tcp }
    ensures listeners_out { (H.told hub.new).lent_tcp ≡ (H.told hub.old).lent_tcp }
    ensures calls { (H.told hub.new).opened_calls ≡ (H.told hub.old).opened_calls }
    ensures unfailed { (H.told hub.new).failed_calls ≡ (H.told hub.old).failed_calls }
    ensures later { (H.told hub.old).faults ≤ (H.told hub.new).faults }
    ensures raised { AnyFault (λ port. (H.Udp.told port).faults) sockets.items → Rose (H.told hub.old).faults (H.told hub.new).faults }
    ensures calm { ((H.told hub.new).faults ≡ (H.told hub.old).faults) ⊎ AnyFault (λ port. (H.Udp.told port).faults) sockets.items }
{
    for socket in sockets {
        hub.close_udp(socket);
    }
}

/// Hands listeners back to the hub, in order.
fn close_listeners<H: Hub>(hub: &mut H, listeners: Vec<H::Tcp>)
    requires { length listeners.items ≤ (H.told hub.old).lent_tcp }
    ensures back { Grows (H.told hub.old).closed_tcp (H.told hub.new).closed_tcp listeners.items }
    ensures out { (H.told hub.new).lent_tcp + length listeners.items ≡ (H.told hub.old).lent_tcp }
    ensures opened { Keeps (H.told hub.old).openings (H.told hub.new).openings }
    ensures sockets { Keeps (H.told hub.old).closed_udp (H.told hub.new).closed_udp }
    ensures sockets_out { (H.told hub.new).lent_udp ≡ (H.told hub.old).lent_udp }
    ensures calls { (H.told hub.new).opened_calls ≡ (H.told hub.old).opened_calls }
    ensures unfailed { (H.told hub.new).failed_calls ≡ (H.told hub.old).failed_calls }
    ensures later { (H.told hub.old).faults ≤ (H.told hub.new).faults }
    ensures raised { AnyFault (λ port. (H.Tcp.told port).faults) listeners.items → Rose (H.told hub.old).faults (H.told hub.new).faults }
    ensures calm { ((H.told hub.new).faults ≡ (H.told hub.old).faults) ⊎ AnyFault (λ port. (H.Tcp.told port).faults) listeners.items }
{
    for listener in listeners {
        hub.close_tcp(listener);
    }
}
