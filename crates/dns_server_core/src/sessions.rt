//! What a server keeps of events and connections, and what one event does.

ghost use Rattle.std.specs.Prelude.{◌≡◌, ◌↔◌, ◌<◌, ◌≤◌, ◌^◌, ◌∷◌, [], length, OnOk, OnErr, None, true, false};
ghost use Rattle.std.specs.List.{filter_map};
ghost use Rattle.dns_server_core.specs.Events.{number_in};
ghost use Rattle.dns_server_core.specs.Valid.{Valid, Fits, Rises};
ghost use Rattle.dns_server_core.specs.Connections.{new_kept, done, after};
ghost use Rattle.dns_server_core.specs.Steps.{step, completed_now, open_next};
ghost use Rattle.dns_server_core.specs.Order.{Climbs, IsKept, next, closed};
ghost use Rattle.dns_server_core.specs.Handing.{Hands, Breaks};
ghost use Rattle.dns_server_core.specs.Serving.{IsCutOff};
ghost use Rattle.dns_server_core.specs.declared.event.Event.TheVariants as event;

use crate::connection::{accept, end, place_of};
use crate::event::Event;
use crate::handler::RequestHandler;
use crate::responder::Responder;
use crate::session::Session;
use crate::valid::are_valid;
use dns_io::{Octets, OutOfMemory};
use std::alloc::Global;
use std::marker::Model;

/// The last moment, the greatest number, whether there was a stop, and the open connections. A connection that is late by
/// the passing of moments alone is let go at the end of its list.
#[derive(Drop)]
pub(crate) struct Sessions {
    last: u64,
    greatest: Option<u32>,
    stopped: bool,
    connections: Vec<Session>,
    alloc: Global,
}

impl Model for Sessions {
    ghost use Rattle.dns_server_core.specs.Connections.{Kept};
    ghost use Rattle.dns_server_core.specs.Order.{IsKept};

    ghost Value = { Kept };

    ghost view = { λ s. record { last = s.last; greatest = s.greatest; stopped = s.stopped; connections = s.connections.items } };

    ghost invariant = { λ s. IsKept (record {
      last = s.last;
      greatest = s.greatest;
      stopped = s.stopped;
      connections = s.connections.items;
    }) };
}

impl Sessions {
    /// Nothing has happened yet.
    pub(crate) fn new(alloc: Global) -> Sessions
        ensures { result ≡ new_kept }
    {
        Sessions {
            last: 0,
            greatest: None,
            stopped: false,
            connections: Vec::new(alloc),
            alloc,
        }
    }

    /// How many connections are open.
    pub(crate) fn open_count(&self) -> u64
        ensures { result ≡ length self.now.connections }
    {
        self.connections.len() as u64
    }

    /// Whether there was a stop.
    pub(crate) fn is_stopped(&self) -> bool
        ensures { result ≡ self.now.stopped }
    {
        self.stopped
    }

    /// The open connections stand in the order of their numbers, none above the greatest that was accepted, and none has
    /// a whole message unread.
    pub(crate) fn keeps_order(&self)
        ensures { IsKept self.now }
    {
        let _stopped = self.stopped;
    }

    /// Whether a list may be served.
    pub(crate) fn is_valid(&self, events: &[Event]) -> bool
        ensures { (result ≡ true) ↔ Valid self.now events.now }
    {
        (events.len() as u64) < 0x1_0000_0000 && are_valid(self.last, self.greatest, events)
    }

    /// Serves a list: each message that an event completes is settled, in that order.
    pub(crate) fn serve<H: RequestHandler>(
        &mut self,
        responder: &mut Responder<H>,
        events: &[Event],
    ) -> Result<(), OutOfMemory>
        requires running { self.old.stopped ≡ false }
        requires valid { Valid self.old events.now }
        ensures ran { OnOk result (Hands H.serves responder.old (done self.old events.now) responder.new) }
        ensures after { OnOk result (self.new ≡ after self.old events.now) }
        ensures err { OnErr result (Breaks H.serves H.skips responder.old (done self.old events.now) responder.new) }
        ensures cut_off { OnErr result (IsCutOff self.old events.now self.new) }
    {
        let _stopped = self.stopped;
        for event in events {
            match self.take_event(responder, event) {
                Ok(()) => {}
                Err(fault) => return Err(fault),
            }
        }
        self.close_late();
        Ok(())
    }

    /// One event. After an `Err` no connection is open, and nothing else that is kept has changed.
    fn take_event<H: RequestHandler>(
        &mut self,
        responder: &mut Responder<H>,
        event: &Event,
    ) -> Result<(), OutOfMemory>
        requires rises { Rises self.old.greatest (number_in event.now) }
        requires fits { Fits event.now }
        ensures ok { OnOk result (self.new ≡ next self.old event.now) }
        ensures ran { OnOk result (Hands H.serves responder.old (completed_now event.now self.old.connections) responder.new) }
        ensures err { OnErr result (Breaks H.serves H.skips responder.old (completed_now event.now self.old.connections) responder.new) }
        ensures closed { OnErr result (self.new
            ≡ record { last = self.old.last; greatest = self.old.greatest; stopped = self.old.stopped; connections = [] }) }
    {
        match apply(self.alloc, responder, &mut self.connections, event) {
            Ok(()) => {}
            Err(fault) => {
                self.connections.clear();
                return Err(fault);
            }
        }
        self.last = event.moment();
        self.greatest = event.greatest_from(self.greatest);
        self.stopped = self.stopped | event.is_stop();
        Ok(())
    }

    /// After a list: a stop closes all connections, and the last moment those that are late by it.
    fn close_late(&mut self)
        ensures { self.new ≡ closed self.old }
    {
        if self.stopped {
            self.connections.clear();
        } else {
            let last = self.last;
            self.connections.retain(|session| session.is_within(last));
        }
    }
}

/// What one event does to the connections, and the messages that it completes.
fn apply<H: RequestHandler>(
    alloc: Global,
    responder: &mut Responder<H>,
    connections: &mut Vec<Session>,
    event: &Event,
) -> Result<(), OutOfMemory>
    requires climbs { Climbs connections.old.items }
    requires fits { Fits event.now }
    ensures ok { OnOk result (connections.new.items ≡ open_next event.now connections.old.items) }
    ensures ran { OnOk result (Hands H.serves responder.old (completed_now event.now connections.old.items) responder.new) }
    ensures err { OnErr result (Breaks H.serves H.skips responder.old (completed_now event.now connections.old.items) responder.new) }
{
    match event {
        Event::Accepted {
            at,
            conn,
            peer,
            limit,
        } => accept(alloc, connections, *at, *conn, *peer, *limit),
        Event::Bytes { at, conn, piece } => {
            receive_bytes(responder, connections, *at, *conn, piece)
        }
        Event::Ended { at, conn } => {
            end(connections, *at, *conn);
            Ok(())
        }
        Event::Datagram { at, peer, bytes } => { responder.settle_datagram(*at, *peer, bytes) }
        Event::Tick { at: _ } => Ok(()),
        Event::Stop { at: _ } => Ok(()),
    }
}

/// Receives a piece of the bytes of the connection of a number; one that came too late closes it, and one that brings the last message
/// that it may have.
fn receive_bytes<H: RequestHandler>(
    responder: &mut Responder<H>,
    connections: &mut Vec<Session>,
    at: u64,
    number: u32,
    piece: &Octets,
) -> Result<(), OutOfMemory>
    requires climbs { Climbs connections.old.items }
    requires moment { at < 2 ^ 47 }
    ensures ok { OnOk result (connections.new.items ≡ filter_map (step (event.Bytes at number piece.now)) connections.old.items) }
    ensures ran { OnOk result
        (Hands H.serves responder.old (completed_now (event.Bytes at number piece.now) connections.old.items) responder.new) }
    ensures err { OnErr result
        (Breaks H.serves H.skips responder.old (completed_now (event.Bytes at number piece.now) connections.old.items) responder.new) }
{
    if let Some(i) = place_of(connections, number) {
        let stays = responder.receive_piece(&mut connections[i], at, piece.as_slice())?;
        if !stays {
            connections.remove(i);
        }
    }
    Ok(())
}
