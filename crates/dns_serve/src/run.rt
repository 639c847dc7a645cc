//! The top call of the program: what the words of the command line say is done.

ghost use Rattle.std.specs.Prelude.{◌≡◌, ◌<◌, ◌≤◌, ◌^◌, ℕ, List, Option, Some, IsErrOf, IsSome, IfSome, map, string_bytes};
ghost use Rattle.dns_edges.specs.Edges.{around};
ghost use Rattle.dns_io.specs.Told.{Rose};
ghost use Rattle.dns_io.specs.declared.io_fault.IoFault.TheVariants.{Failed};
ghost use Rattle.dns_name.specs.Name.{fold_of};
ghost use Rattle.dns_words.specs.Writing.{WantedMemory};
ghost use Rattle.dns_command.specs.CommandLine.{access_of};
ghost use Rattle.dns_command.specs.World.{IsAsked};
ghost use Rattle.dns_crowd_server.specs.Hubs.{HasAllBack, seats_of};
ghost use Rattle.dns_crowd_server.specs.Serving.{EndsServing};
ghost use Rattle.dns_serve.specs.Ends.{RunTells, ServeEnds};
ghost use Rattle.dns_serve.specs.Serving.{meanings};
ghost use Rattle.dns_serve.specs.Words.{serving_of};

use crate::words::{Service, service_of};
use dns_book::Book;
use dns_command::command_line::access_of;
use dns_command::opening::{find_opening, open_book};
use dns_command::output::{finish, refuse};
use dns_command::run_list::run_list;
use dns_command::{Ended, Status, port_status};
use dns_crowd_server::{CrowdHub, Served, serve_book};
use dns_edges::{Clock, Sink, Source};
use dns_io::OutOfMemory;
use dns_keeper::Keeper;
use std::alloc::Global;
use std::rt;
use std::sync::Wait;
use std::thread::Threads;

/// Does what the words of the command line say, and ends with a status. The keeper is handed back.
///
/// The words of `serve` are done here: the zone is read and the journal opened as `events` does, a socket and crowds of connections are
/// opened where the words say, and what comes to them is settled and answered until the source `events` ends or fails; then they are handed
/// back to the hub. Any other words are those of [`run_list`], which uses no hub. This call waits for the peers.
pub fn run<
    R: Threads + Wait + rt::Clock + Sync,
    Z: Source,
    E: Source,
    W: Sink,
    K: Keeper + Send,
    H: CrowdHub,
    C: Clock,
>(
    rt: &R,
    alloc: Global,
    words: &Vec<String>,
    zone: &mut Z,
    events: &mut E,
    keeper: K,
    hub: &mut H,
    clock: &mut C,
    out: &mut W,
) -> Ended<K>
where
    H::Udp: Send,
    H::Connections: Send,
    ensures keeper { IsSome result.keeper }
    ensures ends { IfSome result.keeper (λ left. (moment : Option ℕ) × IsAsked C.clock clock.old clock.new moment × RunTells
        (meanings K.keeper H.Udp.told H.Connections.told) (record {
          words = map string_bytes words.now.items;
          zone = around Z.source.told zone.old zone.new;
          events = around E.source.told events.old events.new;
          journal = around K.keeper.told keeper left;
          output = around W.sink.told out.old out.new;
          wants = λ text. WantedMemory W.sink out.old text out.new;
          moment = moment;
        }) (around H.told hub.old hub.new) result.status) }
    ensures back { HasAllBack (H.told hub.old) (H.told hub.new) }
    ensures later_zone { (Z.source.told zone.old).faults ≤ (Z.source.told zone.new).faults }
    ensures later_events { (E.source.told events.old).faults ≤ (E.source.told events.new).faults }
    ensures later_output { (W.sink.told out.old).faults ≤ (W.sink.told out.new).faults }
{
    match service_of(alloc, words.as_slice()) {
        Ok(Some(service)) => serve(rt, alloc, service, zone, events, keeper, hub, clock, out),
        Ok(None) => run_list(alloc, words, zone, events, keeper, clock, out),
        Err(OutOfMemory) => Ended {
            status: Status::OutOfMemory,
            keeper: Some(keeper),
        },
    }
}

/// Does what the words of `serve` say.
fn serve<
    R: Threads + Wait + rt::Clock + Sync,
    Z: Source,
    E: Source,
    W: Sink,
    K: Keeper + Send,
    H: CrowdHub,
    C: Clock,
>(
    rt: &R,
    alloc: Global,
    service: Service,
    zone: &mut Z,
    until: &mut E,
    mut keeper: K,
    hub: &mut H,
    clock: &mut C,
    out: &mut W,
) -> Ended<K>
where
    H::Udp: Send,
    H::Connections: Send,
    requires folded { fold_of service.options.origin ≡ service.options.origin }
    requires limit { service.places.limit < 2 ^ 47 }
    requires seats { (0 < seats_of service.places) × (seats_of service.places ≤ 1024) }
    ensures keeper { IsSome result.keeper }
    ensures ends { IfSome result.keeper (λ left. (moment : Option ℕ) × IsAsked C.clock clock.old clock.new moment × ((words : List (List ℕ))
        → serving_of words ≡ Some service → ServeEnds
        (meanings K.keeper H.Udp.told H.Connections.told) (record {
          words = words;
          zone = around Z.source.told zone.old zone.new;
          events = around E.source.told until.old until.new;
          journal = around K.keeper.told keeper left;
          output = around W.sink.told out.old out.new;
          wants = λ text. WantedMemory W.sink out.old text out.new;
          moment = moment;
        }) (around H.told hub.old hub.new) result.status)) }
    ensures back { HasAllBack (H.told hub.old) (H.told hub.new) }
    ensures later_zone { (Z.source.told zone.old).faults ≤ (Z.source.told zone.new).faults }
    ensures later_events { (E.source.told until.old).faults ≤ (E.source.told until.new).faults }
    ensures later_output { (W.sink.told out.old).faults ≤ (W.sink.told out.new).faults }
{
    let opening = match find_opening(alloc, &service.options.origin, zone, &mut keeper) {
        Ok(opening) => opening,
        Err(status) => {
            return Ended {
                status: refuse(alloc, status, out),
                keeper: Some(keeper),
            };
        }
    };
    let moment = clock.now();
    let book = match open_book(alloc, &service.options, opening, keeper, moment) {
        Ok(book) => book,
        Err(refusal) => {
            return Ended {
                status: refuse(alloc, refusal.status, out),
                keeper: Some(refusal.keeper),
            };
        }
    };
    let Served { book, answer } = serve_opened(rt, alloc, service, book, until, hub);
    match answer {
        Ok(()) => Ended {
            status: finish(alloc, &book, out),
            keeper: Some(book.into_keeper()),
        },
        Err(fault) => Ended {
            status: refuse(alloc, port_status(fault), out),
            keeper: Some(book.into_keeper()),
        },
    }
}

/// Serves a book that was opened.
fn serve_opened<R: Threads + Wait + rt::Clock + Sync, E: Source, K: Keeper + Send, H: CrowdHub>(
    rt: &R,
    alloc: Global,
    service: Service,
    book: Book<K>,
    until: &mut E,
    hub: &mut H,
) -> Served<K>
where
    H::Udp: Send,
    H::Connections: Send,
    requires limit { service.places.limit < 2 ^ 47 }
    requires seats { (0 < seats_of service.places) × (seats_of service.places ≤ 1024) }
    ensures ends { EndsServing K.keeper H.Udp.told H.Connections.told (around H.told hub.old hub.new)
        (around E.source.told until.old until.new) service.places (access_of service.options) book result.book result.answer }
    ensures failed { IsErrOf result.answer Failed → Rose (H.told hub.old).faults (H.told hub.new).faults }
    ensures back { HasAllBack (H.told hub.old) (H.told hub.new) }
    ensures later { (E.source.told until.old).faults ≤ (E.source.told until.new).faults }
{
    let Service { options, places } = service;
    let access = access_of(options);
    serve_book(rt, alloc, book, &access, &places, until, hub)
}
