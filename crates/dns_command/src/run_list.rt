//! The commands `events` and `load`: the messages of a list of events are settled in order.

ghost use Rattle.std.specs.Prelude.{◌≡◌, ◌<◌, ◌≤◌, ◌^◌, ℕ, Option, None, length, IsSome, IfSome, OnOk, IfOk, IfErr, map, string_bytes};
ghost use Rattle.dns_edges.specs.Edges.{around};
ghost use Rattle.dns_io.specs.Told.{Keeps};
ghost use Rattle.dns_keeper.specs.Keeping.{KeepsBatches};
ghost use Rattle.dns_zone_map.specs.Zone.{serial_of};
ghost use Rattle.dns_words.specs.Writing.{WantedMemory};
ghost use Rattle.dns_command.specs.declared.status.Status.TheVariants as status;
ghost use Rattle.dns_command.specs.Lines.{lines_by};
ghost use Rattle.dns_command.specs.Steps.{LoadsEvents, LoadsNoEvents, HearsBy, HearsNotBy, IsRefused};
ghost use Rattle.dns_command.specs.World.{IsAsked};
ghost use Rattle.dns_command.specs.ServingEnds.{ListTells};
ghost use Rattle.dns_command.specs.Parts.{Prepares, IsReady, SettlesEach, SettlesPart, SettlesAll, SettlesNot};
ghost use Rattle.dns_command.specs.Writing.{EndsWriting};

use crate::command_line::{Drawn, Options, access_of, options_of};
use crate::event_text::{EventFault, events_of};
use crate::opening::{Opening, Refusal, find_opening_by, open_book};
use crate::output::{put_answers, refuse};
use crate::status::{Ended, Status, after_writing};
use dns_book::{AccessControl, Book};
use dns_edges::{Clock, Sink, Source, read_to_end};
use dns_generator::loaded;
use dns_io::OutOfMemory;
use dns_keeper::Keeper;
use dns_server_core::{Event, Out, Server};
use std::alloc::Global;

/// The greatest length of an event text, in bytes.
const EVENT_BOUND: usize = 8_388_608;

/// All that a command works on.
#[derive(Drop)]
struct Inputs {
    options: Options,
    opening: Opening,
    events: Vec<Event>,
}

/// A server that has settled its messages, and the replies to them.
#[derive(Drop)]
struct Served<K: Keeper> {
    server: Server<Book<K>>,
    outs: Vec<Out>,
}

/// Does what the words of the command `events` or `load` say, and ends with a status. The keeper is handed back. Any other words are no
/// command here, those of `serve` too.
///
/// Of the zone text, the event text and the journal nothing is read before it is known that it is needed: no text and no
/// row where the words are no command, no event text where there is no zone, and no zone text where the journal has rows.
pub fn run_list<Z: Source, E: Source, W: Sink, K: Keeper, C: Clock>(
    alloc: Global,
    words: &Vec<String>,
    zone: &mut Z,
    events: &mut E,
    mut keeper: K,
    clock: &mut C,
    out: &mut W,
) -> Ended<K>
    ensures keeper { IsSome result.keeper }
    ensures ends { IfSome result.keeper (λ left. (moment : Option ℕ) × IsAsked C.clock clock.old clock.new moment
        × ListTells K.keeper (record {
          words = map string_bytes words.now.items;
          zone = around Z.source.told zone.old zone.new;
          events = around E.source.told events.old events.new;
          journal = around K.keeper.told keeper left;
          output = around W.sink.told out.old out.new;
          wants = λ text. WantedMemory W.sink out.old text out.new;
          moment = moment;
        }) result.status) }
    ensures later_zone { (Z.source.told zone.old).faults ≤ (Z.source.told zone.new).faults }
    ensures later_events { (E.source.told events.old).faults ≤ (E.source.told events.new).faults }
    ensures later_output { (W.sink.told out.old).faults ≤ (W.sink.told out.new).faults }
{
    let inputs = match prepare(alloc, words, zone, events, &mut keeper) {
        Ok(inputs) => inputs,
        Err(status) => {
            return Ended {
                status: refuse(alloc, status, out),
                keeper: Some(keeper),
            };
        }
    };
    let moment = clock.now();
    let drawn = inputs.options.drawn;
    match settle_events(alloc, inputs, keeper, moment) {
        Ok(served) => Ended {
            status: finish(alloc, drawn, &served, out),
            keeper: Some(served.server.into_book().into_keeper()),
        },
        Err(fault) => Ended {
            status: refuse(alloc, fault.status, out),
            keeper: Some(fault.keeper),
        },
    }
}

/// Reads the words, and what they name.
fn prepare<Z: Source, E: Source, K: Keeper>(
    alloc: Global,
    words: &Vec<String>,
    zone: &mut Z,
    events: &mut E,
    keeper: &mut K,
) -> Result<Inputs, Status>
    ensures ok { IfOk result (Prepares (map string_bytes words.now.items)
        (around Z.source.told zone.old zone.new) (around E.source.told events.old events.new)
        (around K.keeper.told keeper.old keeper.new)) }
    ensures err { IfErr result (IsRefused (map string_bytes words.now.items)
        (around Z.source.told zone.old zone.new) (around E.source.told events.old events.new)
        (around K.keeper.told keeper.old keeper.new) None) }
    ensures ready { IfOk result (λ inputs. IsReady inputs.opening (K.keeper.told keeper.new).rows) }
    ensures kept { Keeps (K.keeper.told keeper.old).rows (K.keeper.told keeper.new).rows }
    ensures batches { KeepsBatches (K.keeper.told keeper.old) (K.keeper.told keeper.new) }
    ensures later { (K.keeper.told keeper.old).faults ≤ (K.keeper.told keeper.new).faults }
    ensures still { OnOk result ((K.keeper.told keeper.new).faults ≡ (K.keeper.told keeper.old).faults) }
    ensures later_zone { (Z.source.told zone.old).faults ≤ (Z.source.told zone.new).faults }
    ensures later_events { (E.source.told events.old).faults ≤ (E.source.told events.new).faults }
{
    let options = match options_of(alloc, words.as_slice()) {
        Ok(Some(options)) => options,
        Ok(None) => return Err(Status::Usage),
        Err(OutOfMemory) => return Err(Status::OutOfMemory),
    };
    let opening = find_opening_by(alloc, &options, zone, keeper)?;
    let events = load_events(alloc, &options, events)?;
    Ok(Inputs {
        options,
        opening,
        events,
    })
}

/// The events that the words ask for: those that are drawn, or those of the event text.
fn load_events<E: Source>(
    alloc: Global,
    options: &Options,
    source: &mut E,
) -> Result<Vec<Event>, Status>
    requires { IfSome options.now.drawn (λ drawn. drawn.count ≤ 100000) }
    ensures ok { IfOk result (λ events. HearsBy (around E.source.told source.old source.new) options.now events.items) }
    ensures err { IfErr result (HearsNotBy (around E.source.told source.old source.new) options.now) }
    ensures later { (E.source.told source.old).faults ≤ (E.source.told source.new).faults }
{
    let Some(drawn) = options.drawn else {
        return read_events(alloc, source);
    };
    match loaded(alloc, drawn.seed, drawn.count) {
        Ok(events) => Ok(events),
        Err(OutOfMemory) => Err(Status::OutOfMemory),
    }
}

/// The events of a text, which is read to its end.
fn read_events<E: Source>(alloc: Global, source: &mut E) -> Result<Vec<Event>, Status>
    ensures ok { IfOk result (λ events. LoadsEvents (around E.source.told source.old source.new) events.items) }
    ensures err { IfErr result (LoadsNoEvents (around E.source.told source.old source.new)) }
    ensures later { (E.source.told source.old).faults ≤ (E.source.told source.new).faults }
{
    let text = read_to_end(alloc, source, EVENT_BOUND)?;
    match events_of(alloc, text.as_slice()) {
        Ok(events) => Ok(events),
        Err(EventFault::Line(line)) => Err(Status::EventLine { line }),
        Err(EventFault::OutOfMemory) => Err(Status::OutOfMemory),
    }
}

/// Opens the journal, and settles the messages in order.
fn settle_events<K: Keeper>(
    alloc: Global,
    inputs: Inputs,
    keeper: K,
    moment: u64,
) -> Result<Served<K>, Refusal<K>>
    requires moment { moment < 2 ^ 47 }
    requires ready { IsReady inputs.opening (K.keeper.told keeper).rows }
    ensures ok { IfOk result (λ served. SettlesAll K.keeper keeper inputs moment served.outs.items served.server) }
    ensures err { IfErr result (λ fault. SettlesNot K.keeper keeper inputs moment fault.status fault.keeper) }
{
    let Inputs {
        options,
        opening,
        events,
    } = inputs;
    let book = open_book(alloc, &options, opening, keeper, moment)?;
    let served = settle_all(alloc, book, access_of(options), &events)?;
    Ok(served)
}

/// Settles the messages that events complete, in order, where this says who is let in and how large a datagram may go out. A
/// list that is not valid is not begun.
fn settle_all<K: Keeper>(
    alloc: Global,
    book: Book<K>,
    access: AccessControl,
    events: &Vec<Event>,
) -> Result<Served<K>, Refusal<K>>
    ensures ok { IfOk result (λ served.
        SettlesEach K.keeper access book events.now.items served.outs.items served.server) }
    ensures err { IfErr result (λ fault.
        SettlesPart K.keeper access book events.now.items fault.status fault.keeper) }
{
    let mut server = Server::with_control(alloc, book, access);
    if !server.valid_events(events) {
        return Err(given_up(server, Status::NotValid));
    }
    server.failed_updates();
    let mut outs = Vec::new(alloc);
    match server.run_events(events, &mut outs) {
        Ok(()) => Ok(Served { server, outs }),
        Err(_) => Err(given_up(server, Status::OutOfMemory)),
    }
}

/// A server that goes no further.
fn given_up<K: Keeper>(server: Server<Book<K>>, status: Status) -> Refusal<K>
    ensures keeper { result.keeper ≡ server.handler.keeper }
    ensures status { result.status ≡ status }
{
    Refusal {
        status,
        keeper: server.into_book().into_keeper(),
    }
}

/// Writes the output, and tells how the program ends: a line for each reply, or for a drawn list the summary of the replies,
/// and the three closing lines.
fn finish<K: Keeper, W: Sink>(
    alloc: Global,
    drawn: Option<Drawn>,
    served: &Served<K>,
    out: &mut W,
) -> Status
    ensures ends { EndsWriting (around W.sink.told out.old out.new)
        (lines_by drawn served.now.outs.items (serial_of served.now.server.handler.zone.records)
        served.now.server.handler.row_count (length served.now.server.kept.connections))
        status.Ok result }
    ensures later { (W.sink.told out.old).faults ≤ (W.sink.told out.new).faults }
{
    let serial = served.server.serial();
    let length = served.server.journal_len();
    let connections = served.server.open_count();
    let outs = served.outs.as_slice();
    after_writing(
        Status::Ok,
        put_answers(alloc, &drawn, outs, serial, length, connections, out),
    )
}
