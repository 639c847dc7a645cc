//! Serving a book: it is shared among workers, which serve until a source ends, and closed.

ghost use Rattle.std.specs.Prelude.{◌≡◌, ◌<◌, ◌≤◌, ◌+◌, ◌++◌, ◌^◌, ℕ, List, All, [], length, Err, IsErrOf};
ghost use Rattle.std.specs.List.{AllByRecursion};
ghost use Rattle.std.specs.Vec.{vec_capacity};
ghost use Rattle.dns_io.specs.Told.{Keeps, Rose, Takes};
ghost use Rattle.dns_io.specs.declared.io_fault.IoFault.TheVariants as fault;
ghost use Rattle.dns_edges.specs.Edges.{around};
ghost use Rattle.dns_ports.specs.Ports.{IsFreshSocket};
ghost use Rattle.dns_ticket_lock.specs.Passes.{AreAll, ArePasses, ClosedFor};
ghost use Rattle.dns_server.specs.Servers.{IsOf, Matches, ServedSocket, first_fault, or_later, their_passes, their_ports};
ghost use Rattle.dns_crowd_server.specs.Crews.{ServedCrowd};
ghost use Rattle.dns_crowd_server.specs.Hubs.{ClosesPlaces, HasAllBack, IsFreshCrowd, crowds_of, seats_of, sockets_of, their_faults};
ghost use Rattle.dns_crowd_server.specs.Serving.{EndsBeside, EndsServing, ServesPorts};

use crate::crew::serve_crew;
use crate::hub::{CrowdHub, Places};
use crate::rooms::{Rooms, take_on};
use dns_book::{AccessControl, Book};
use dns_crowd::Crowd;
use dns_edges::Source;
use dns_io::{IoFault, OutOfMemory};
use dns_keeper::Keeper;
use dns_ports::{StopToken, UdpPort};
use dns_server::{Worker, dismiss, first_fault, or_later};
use dns_ticket_lock::{Pass, TicketBook};
use std::alloc::Global;
use std::rt;
use std::sync::Wait;
use std::thread::Threads;

/// A book that was served, and how that ended.
#[derive(Drop)]
pub struct Served<K: Keeper> {
    /// The book.
    pub book: Book<K>,
    /// `Ok` where each worker ended well, and what is served until was read to its end or fault. `Failed` where a worker failed, or
    /// nothing could be opened, and only where the hub's count of faults rose. Else `OutOfMemory`, where memory was wanting, also for a
    /// message or a connection behind which its worker went on.
    pub answer: Result<(), IoFault>,
}

/// Serves a book at these places, 1 to 1,024 of them: opens sockets and crowds, has each served by a worker on a thread of its own, all by
/// the one book, reads `until` to its end or first fault, then stops them, and hands all back to the hub. Messages that were taken are
/// answered, those over connections at the system's time. The token that stops them is the hub's: a worker that ends stops it too.
pub fn serve_book<K: Keeper + Send, H: CrowdHub, E: Source, R: Threads + Wait + rt::Clock + Sync>(
    rt: &R,
    alloc: Global,
    book: Book<K>,
    access: &AccessControl,
    places: &Places,
    until: &mut E,
    hub: &mut H,
) -> Served<K>
where
    H::Udp: Send,
    H::Connections: Send,
    requires limit { places.now.limit < 2 ^ 47 }
    requires seats { (0 < seats_of places.now) × (seats_of places.now ≤ 1024) }
    ensures ends { EndsServing K.keeper H.Udp.told H.Connections.told (around H.told hub.old hub.new)
        (around E.source.told until.old until.new) places.now access.now book result.book result.answer }
    ensures failed { IsErrOf result.answer fault.Failed → Rose (H.told hub.old).faults (H.told hub.new).faults }
    ensures back { HasAllBack (H.told hub.old) (H.told hub.new) }
    ensures read { (bytes : List ℕ) × Takes (E.source.told until.old).left (E.source.told until.new).left bytes }
    ensures later { (E.source.told until.old).faults ≤ (E.source.told until.new).faults }
{
    let Ok(rooms) = Rooms::new(alloc, places) else {
        return unserved(book);
    };
    let Ok(token) = hub.stop_token() else {
        return unserved(book);
    };
    let (shared, passes) = match TicketBook::new(alloc, book, places.seats()) {
        Ok(shared) => shared,
        Err((book, OutOfMemory)) => return unserved(book),
    };
    let (sockets, crowds) = match hub.open(places, &token) {
        Ok(ports) => ports,
        Err(fault) => {
            return Served {
                book: shared.close(passes),
                answer: Err(fault),
            };
        }
    };
    let opened = Opened {
        shared,
        passes,
        sockets,
        crowds,
        rooms,
    };
    serve_ports(rt, alloc, opened, access, places, until, &token, hub)
}

/// A book that no memory was found to share.
fn unserved<K: Keeper>(book: Book<K>) -> Served<K>
    ensures book { result.book ≡ book }
    ensures answer { result.answer ≡ Err fault.OutOfMemory }
{
    Served {
        book,
        answer: Err(IoFault::OutOfMemory),
    }
}

/// A shared book and its passes, the ports that were opened, and the room for their workers.
struct Opened<K: Keeper, U, C> {
    shared: TicketBook<K>,
    passes: Vec<Pass>,
    sockets: Vec<U>,
    crowds: Vec<C>,
    rooms: Rooms<U, C>,
}

/// Takes a worker on for each port, in order, has all serve, dismisses them, and hands their ports back.
fn serve_ports<K: Keeper + Send, H: CrowdHub, E: Source, R: Threads + Wait + rt::Clock + Sync>(
    rt: &R,
    alloc: Global,
    opened: Opened<K, H::Udp, H::Connections>,
    access: &AccessControl,
    places: &Places,
    until: &mut E,
    token: &StopToken,
    hub: &mut H,
) -> Served<K>
where
    H::Udp: Send,
    H::Connections: Send,
    requires passes { ArePasses opened.shared opened.passes.items }
    requires seats { opened.shared.terms.seats ≡ seats_of places.now }
    requires limit { places.now.limit < 2 ^ 47 }
    requires empty_workers { (opened.rooms.sockets.items ≡ []) × (opened.rooms.crowds.items ≡ []) }
    requires empty_ports { (opened.rooms.socket_ports.items ≡ []) × (opened.rooms.crowd_ports.items ≡ []) }
    requires socket_room { (sockets_of places.now ≤ vec_capacity opened.rooms.sockets)
        × (sockets_of places.now ≤ vec_capacity opened.rooms.socket_ports) }
    requires crowd_room { (crowds_of places.now ≤ vec_capacity opened.rooms.crowds)
        × (crowds_of places.now ≤ vec_capacity opened.rooms.crowd_ports) }
    requires sockets { length opened.sockets.items ≡ sockets_of places.now }
    requires crowds { length opened.crowds.items ≡ crowds_of places.now }
    requires fresh_sockets { All (λ one. IsFreshSocket (H.Udp.told one)) opened.sockets.items }
    requires fresh_crowds { All (λ one. IsFreshCrowd (H.Connections.told one)) opened.crowds.items }
    requires lent_sockets { sockets_of places.now ≤ (H.told hub.old).lent_sockets }
    requires lent_crowds { crowds_of places.now ≤ (H.told hub.old).lent_crowds }
    ensures served { ServesPorts K.keeper H.Udp.told H.Connections.told (around H.told hub.old hub.new)
        (around E.source.told until.old until.new) places.now opened.shared.terms access.now result.book result.answer }
    ensures failed { IsErrOf result.answer fault.Failed → Rose (H.told hub.old).faults (H.told hub.new).faults }
    ensures lent_sockets { (H.told hub.new).lent_sockets + sockets_of places.now ≡ (H.told hub.old).lent_sockets }
    ensures lent_crowds { (H.told hub.new).lent_crowds + crowds_of places.now ≡ (H.told hub.old).lent_crowds }
    ensures unopened { Keeps (H.told hub.old).opened (H.told hub.new).opened }
    ensures none_made { (H.told hub.new).opened_calls ≡ (H.told hub.old).opened_calls }
    ensures none_failed { (H.told hub.new).failed_calls ≡ (H.told hub.old).failed_calls }
    ensures read { (bytes : List ℕ) × Takes (E.source.told until.old).left (E.source.told until.new).left bytes }
    ensures later { (E.source.told until.old).faults ≤ (E.source.told until.new).faults }
{
    let Opened {
        shared,
        passes,
        sockets,
        crowds,
        rooms,
    } = opened;
    let mut free = passes;
    let Rooms {
        sockets: socket_workers,
        crowds: crowd_workers,
        socket_ports,
        crowd_ports,
    } = rooms;
    let mut sockets = take_on(&mut free, sockets, 0, socket_workers);
    let mut crowds = take_on(&mut free, crowds, places.limit, crowd_workers);
    let answer = serve_workers(
        rt,
        alloc,
        &shared,
        access,
        &mut sockets,
        &mut crowds,
        until,
        token,
    );
    let book = hand_back(
        shared,
        free,
        sockets,
        crowds,
        socket_ports,
        crowd_ports,
        hub,
    );
    Served { book, answer }
}

/// Has the workers serve while `until` is read; how they ended, or else how reading did.
fn serve_workers<
    K: Keeper + Send,
    U: UdpPort + Send,
    C: Crowd + Send,
    E: Source,
    R: Threads + Wait + rt::Clock + Sync,
>(
    rt: &R,
    alloc: Global,
    book: &TicketBook<K>,
    access: &AccessControl,
    sockets: &mut Vec<Worker<U>>,
    crowds: &mut Vec<Worker<C>>,
    until: &mut E,
    token: &StopToken,
) -> Result<(), IoFault>
    requires sockets { AllByRecursion (IsOf book.now) (their_passes sockets.old.items) }
    requires crowds { AllByRecursion (IsOf book.now) (their_passes crowds.old.items) }
    ensures sockets { Matches (ServedSocket K.keeper U.told access.now) sockets.old.items sockets.new.items }
    ensures crowds { Matches (ServedCrowd K.keeper C.told access.now) crowds.old.items crowds.new.items }
    ensures ended { EndsBeside (around E.source.told until.old until.new) sockets.new.items crowds.new.items result }
    ensures read { (bytes : List ℕ) × Takes (E.source.told until.old).left (E.source.told until.new).left bytes }
    ensures later { (E.source.told until.old).faults ≤ (E.source.told until.new).faults }
{
    let reading = serve_crew(
        rt,
        alloc,
        book,
        access,
        sockets.as_mut_slice(),
        crowds.as_mut_slice(),
        until,
        token,
    );
    or_later(crew_answer(sockets.as_slice(), crowds.as_slice()), reading)
}

/// Dismisses all workers, hands their ports back, and closes the book.
fn hand_back<K: Keeper, H: CrowdHub>(
    shared: TicketBook<K>,
    mut free: Vec<Pass>,
    sockets: Vec<Worker<H::Udp>>,
    crowds: Vec<Worker<H::Connections>>,
    socket_ports: Vec<H::Udp>,
    crowd_ports: Vec<H::Connections>,
    hub: &mut H,
) -> Book<K>
    requires free { free.items ≡ [] }
    requires room { length sockets.items + length crowds.items ≤ vec_capacity free }
    requires all { AreAll shared.id shared.terms.seats (their_passes sockets.items ++ their_passes crowds.items) }
    requires empty { (socket_ports.items ≡ []) × (crowd_ports.items ≡ []) }
    requires socket_room { length sockets.items ≤ vec_capacity socket_ports }
    requires crowd_room { length crowds.items ≤ vec_capacity crowd_ports }
    requires lent_sockets { length sockets.items ≤ (H.told hub.old).lent_sockets }
    requires lent_crowds { length crowds.items ≤ (H.told hub.old).lent_crowds }
    ensures closed { ClosedFor K.keeper shared.terms (their_passes sockets.items ++ their_passes crowds.items) result }
    ensures told { ClosesPlaces (H.told hub.old) (H.told hub.new) (their_ports sockets.items) (their_ports crowds.items)
        (their_faults H.Udp.told H.Connections.told (their_ports sockets.items) (their_ports crowds.items)) }
{
    let sockets = dismiss(sockets, socket_ports, &mut free);
    let crowds = dismiss(crowds, crowd_ports, &mut free);
    hub.close(sockets, crowds);
    shared.close(free)
}

/// How workers ended: where one failed that is told, whoever wanted memory.
fn crew_answer<U, C>(sockets: &[Worker<U>], crowds: &[Worker<C>]) -> Result<(), IoFault>
    ensures { result ≡ or_later (first_fault sockets.now) (first_fault crowds.now) }
{
    or_later(first_fault(sockets), first_fault(crowds))
}
