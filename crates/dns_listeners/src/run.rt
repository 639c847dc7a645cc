//! The top call: what the words of the command line say is done.

ghost use Rattle.std.specs.Prelude.{◌≡◌, ◌<◌, ◌≤◌, ◌^◌, ℕ, List, Option, Some, IsSome, IfSome, IfOk, IfErr, map, string_bytes};
ghost use Rattle.dns_edges.specs.Edges.{around};
ghost use Rattle.dns_name.specs.Name.{fold_of};
ghost use Rattle.dns_words.specs.Writing.{WantedMemory};
ghost use Rattle.dns_ports.specs.Ports.{listener_of};
ghost use Rattle.dns_listeners.specs.Hubs.{HasAllBack, meanings};
ghost use Rattle.dns_command.specs.ListeningWords.{service_of, seats_of};
ghost use Rattle.dns_listeners.specs.ServeEnds.{ServeEnds, RunTells};
ghost use Rattle.dns_listeners.specs.ServingParts.{ServesBook, ServesNot, ServesOpened, ServesNone};
ghost use Rattle.dns_command.specs.Parts.{IsReady};
ghost use Rattle.dns_command.specs.World.{IsAsked};

use crate::ports::{serve_ports, take_back};
use dns_book::Book;
use dns_command::command_line::access_of;
use dns_command::listening_words::{Service, service_of};
use dns_command::opening::{Opening, Refusal, find_opening, open_book};
use dns_command::output::{finish, refuse};
use dns_command::run_list::run_list;
use dns_command::{Ended, Status};
use dns_edges::{Clock, Sink, Source};
use dns_io::OutOfMemory;
use dns_keeper::Keeper;
use dns_ports::{Hub, TcpPort};
use dns_server::ThreadServer;
use std::alloc::Global;
use std::sync::Wait;
use std::thread::Threads;

/// Does what the words of the command line say, and ends with a status. The keeper is handed back.
///
/// The words of `serve` are done here: the zone is read and the journal opened as `events` does, the ports that the words name
/// are opened, and what comes to them is settled and answered until the source `events` ends or fails; then the ports are handed
/// back to the hub. Any other words are those of [`run_list`], which uses no hub. This call waits for the peers.
pub fn run<
    R: Threads + Wait + Sync,
    Z: Source,
    E: Source,
    W: Sink,
    K: Keeper + Send,
    H: Hub,
    C: Clock,
>(
    rt: &R,
    alloc: Global,
    words: &Vec<String>,
    zone: &mut Z,
    events: &mut E,
    keeper: K,
    hub: &mut H,
    clock: &mut C,
    out: &mut W,
) -> Ended<K>
where
    H::Udp: Send,
    H::Tcp: Send,
    <H::Tcp as TcpPort>::In: Send,
    <H::Tcp as TcpPort>::Out: Send,
    <H::Tcp as TcpPort>::Time: Send,
    ensures keeper { IsSome result.keeper }
    ensures ends { IfSome result.keeper (λ left. (moment : Option ℕ) × IsAsked C.clock clock.old clock.new moment × RunTells
        (meanings K.keeper H.Udp.told (listener_of H.Tcp.told H.Tcp.In.source H.Tcp.Out.sink H.Tcp.Time.clock)) (record {
          words = map string_bytes words.now.items;
          zone = around Z.source.told zone.old zone.new;
          events = around E.source.told events.old events.new;
          journal = around K.keeper.told keeper left;
          output = around W.sink.told out.old out.new;
          wants = λ text. WantedMemory W.sink out.old text out.new;
          moment = moment;
        }) (around H.told hub.old hub.new) result.status) }
    ensures back { HasAllBack (around H.told hub.old hub.new) }
    ensures later_zone { (Z.source.told zone.old).faults ≤ (Z.source.told zone.new).faults }
    ensures later_events { (E.source.told events.old).faults ≤ (E.source.told events.new).faults }
    ensures later_output { (W.sink.told out.old).faults ≤ (W.sink.told out.new).faults }
{
    match service_of(alloc, words.as_slice()) {
        Ok(Some(service)) => serve(rt, alloc, service, zone, events, keeper, hub, clock, out),
        Ok(None) => run_list(alloc, words, zone, events, keeper, clock, out),
        Err(OutOfMemory) => Ended {
            status: Status::OutOfMemory,
            keeper: Some(keeper),
        },
    }
}

/// Does what the words of `serve` say.
fn serve<
    R: Threads + Wait + Sync,
    Z: Source,
    E: Source,
    W: Sink,
    K: Keeper + Send,
    H: Hub,
    C: Clock,
>(
    rt: &R,
    alloc: Global,
    service: Service,
    zone: &mut Z,
    until: &mut E,
    mut keeper: K,
    hub: &mut H,
    clock: &mut C,
    out: &mut W,
) -> Ended<K>
where
    H::Udp: Send,
    H::Tcp: Send,
    <H::Tcp as TcpPort>::In: Send,
    <H::Tcp as TcpPort>::Out: Send,
    <H::Tcp as TcpPort>::Time: Send,
    requires folded { fold_of service.options.origin ≡ service.options.origin }
    requires limit { service.listening.limit < 2 ^ 47 }
    requires workers { (0 < service.listening.workers) × (service.listening.workers ≤ 64) }
    requires some { 0 < seats_of service.listening }
    ensures keeper { IsSome result.keeper }
    ensures ends { IfSome result.keeper (λ left. (moment : Option ℕ) × IsAsked C.clock clock.old clock.new moment × ((words : List (List ℕ))
        → service_of words ≡ Some service → ServeEnds
        (meanings K.keeper H.Udp.told (listener_of H.Tcp.told H.Tcp.In.source H.Tcp.Out.sink H.Tcp.Time.clock)) (record {
          words = words;
          zone = around Z.source.told zone.old zone.new;
          events = around E.source.told until.old until.new;
          journal = around K.keeper.told keeper left;
          output = around W.sink.told out.old out.new;
          wants = λ text. WantedMemory W.sink out.old text out.new;
          moment = moment;
        }) (around H.told hub.old hub.new) result.status)) }
    ensures back { HasAllBack (around H.told hub.old hub.new) }
    ensures later_zone { (Z.source.told zone.old).faults ≤ (Z.source.told zone.new).faults }
    ensures later_events { (E.source.told until.old).faults ≤ (E.source.told until.new).faults }
    ensures later_output { (W.sink.told out.old).faults ≤ (W.sink.told out.new).faults }
{
    let opening = match find_opening(alloc, &service.options.origin, zone, &mut keeper) {
        Ok(opening) => opening,
        Err(status) => {
            return Ended {
                status: refuse(alloc, status, out),
                keeper: Some(keeper),
            };
        }
    };
    let moment = clock.now();
    match serve_opened(rt, alloc, opening, keeper, moment, service, until, hub) {
        Ok(book) => Ended {
            status: finish(alloc, &book, out),
            keeper: Some(book.into_keeper()),
        },
        Err(refusal) => Ended {
            status: refuse(alloc, refusal.status, out),
            keeper: Some(refusal.keeper),
        },
    }
}

/// Opens the journal at this moment, and serves its book.
fn serve_opened<R: Threads + Wait + Sync, E: Source, K: Keeper + Send, H: Hub>(
    rt: &R,
    alloc: Global,
    opening: Opening,
    keeper: K,
    moment: u64,
    service: Service,
    until: &mut E,
    hub: &mut H,
) -> Result<Book<K>, Refusal<K>>
where
    H::Udp: Send,
    H::Tcp: Send,
    <H::Tcp as TcpPort>::In: Send,
    <H::Tcp as TcpPort>::Out: Send,
    <H::Tcp as TcpPort>::Time: Send,
    requires moment { moment < 2 ^ 47 }
    requires ready { IsReady opening (K.keeper.told keeper).rows }
    requires limit { service.listening.limit < 2 ^ 47 }
    requires workers { (0 < service.listening.workers) × (service.listening.workers ≤ 64) }
    requires some { 0 < seats_of service.listening }
    ensures ok { IfOk result (ServesOpened
        (meanings K.keeper H.Udp.told (listener_of H.Tcp.told H.Tcp.In.source H.Tcp.Out.sink H.Tcp.Time.clock))
        (around H.told hub.old hub.new) (around E.source.told until.old until.new) keeper service opening moment) }
    ensures err { IfErr result (λ refusal. ServesNone
        (meanings K.keeper H.Udp.told (listener_of H.Tcp.told H.Tcp.In.source H.Tcp.Out.sink H.Tcp.Time.clock))
        (around H.told hub.old hub.new) (around E.source.told until.old until.new)
        keeper service opening moment refusal.status refusal.keeper) }
    ensures back { HasAllBack (around H.told hub.old hub.new) }
    ensures later { (E.source.told until.old).faults ≤ (E.source.told until.new).faults }
{
    let book = open_book(alloc, &service.options, opening, keeper, moment)?;
    let served = serve_book(rt, alloc, book, service, until, hub)?;
    Ok(served)
}

/// Shares the book among as many workers as the words ask for, has them serve, and closes it.
fn serve_book<R: Threads + Wait + Sync, E: Source, K: Keeper + Send, H: Hub>(
    rt: &R,
    alloc: Global,
    book: Book<K>,
    service: Service,
    until: &mut E,
    hub: &mut H,
) -> Result<Book<K>, Refusal<K>>
where
    H::Udp: Send,
    H::Tcp: Send,
    <H::Tcp as TcpPort>::In: Send,
    <H::Tcp as TcpPort>::Out: Send,
    <H::Tcp as TcpPort>::Time: Send,
    requires limit { service.listening.limit < 2 ^ 47 }
    requires workers { (0 < service.listening.workers) × (service.listening.workers ≤ 64) }
    requires some { 0 < seats_of service.listening }
    ensures ok { IfOk result (ServesBook
        (meanings K.keeper H.Udp.told (listener_of H.Tcp.told H.Tcp.In.source H.Tcp.Out.sink H.Tcp.Time.clock))
        (around H.told hub.old hub.new) (around E.source.told until.old until.new) service book) }
    ensures err { IfErr result (λ refusal. ServesNot
        (meanings K.keeper H.Udp.told (listener_of H.Tcp.told H.Tcp.In.source H.Tcp.Out.sink H.Tcp.Time.clock))
        (around H.told hub.old hub.new) (around E.source.told until.old until.new) service book refusal.status refusal.keeper) }
    ensures back { HasAllBack (around H.told hub.old hub.new) }
    ensures later { (E.source.told until.old).faults ≤ (E.source.told until.new).faults }
{
    let Service { options, listening } = service;
    let access = access_of(options);
    let mut server = match ThreadServer::new(alloc, book, access, listening.seats()) {
        Ok(server) => server,
        Err((book, OutOfMemory)) => return Err(refused(book, Status::OutOfMemory)),
    };
    let outcome = serve_ports(rt, &mut server, &listening, until, hub);
    take_back(&mut server, hub);
    let book = server.into_book();
    match outcome {
        Ok(()) => Ok(book),
        Err(status) => Err(refused(book, status)),
    }
}

/// A book that is served no further.
fn refused<K: Keeper>(book: Book<K>, status: Status) -> Refusal<K>
    ensures keeper { result.keeper ≡ book.keeper }
    ensures status { result.status ≡ status }
{
    Refusal {
        status,
        keeper: book.into_keeper(),
    }
}
