//! A server over lists of events.

ghost use Rattle.std.specs.Prelude.{◌≡◌, ◌↔◌, ◌++◌, ◌∷◌, ℕ, List, length, [], OnOk, IfErr, true, false};
ghost use Rattle.dns_zone_map.specs.Zone.{serial_of};
ghost use Rattle.dns_book.specs.Access.{Access};
ghost use Rattle.dns_book.specs.Book.{SeenOf, Settles, IsKept as IsBook};
ghost use Rattle.dns_server_core.specs.Valid.{Valid};
ghost use Rattle.dns_server_core.specs.Connections.{new_kept, done, after};
ghost use Rattle.dns_server_core.specs.Runs.{Completed, Run, Answers};
ghost use Rattle.dns_server_core.specs.Order.{IsKept};
ghost use Rattle.dns_server_core.specs.Serving.{Leaves};
ghost use Rattle.dns_server_core.specs.Books.{failures, RoseBy};
ghost use Rattle.dns_server_core.specs.declared.event.Event.{Event as Happening};
ghost use Rattle.dns_server_core.specs.declared.event.Event.TheVariants.{Bytes as Piece};
ghost use Rattle.dns_server_core.specs.declared.event.Out.{Out as Sent};

use crate::event::{Event, Out};
use crate::fault::RunFault;
use crate::handler::RequestHandler;
use crate::responder::Responder;
use crate::sessions::Sessions;
use dns_book::{AccessControl, Book, IpNet};
use dns_counts::Counts;
use dns_io::OutOfMemory;
use dns_keeper::Keeper;
use std::alloc::Global;
use std::marker::Model;

/// A server: it hands the messages that events complete to a handler, in order, and keeps what they leave.
#[derive(Drop)]
pub struct Server<T> {
    responder: Responder<T>,
    sessions: Sessions,
}

impl<T> Model for Server<T> {
    ghost use Rattle.dns_server_core.specs.Serving.{ServerOf};

    ghost Value = { ServerOf T };

    ghost view = { λ s. record { handler = s.responder.handler; access = s.responder.access; kept = s.sessions } };
}

impl<T> Server<T> {
    /// A server to which nothing has happened yet, and which lets every source in. Takes no memory.
    pub fn new(alloc: Global, handler: T) -> Server<T>
        ensures { result ≡ record { handler = handler; access = record { allowed = []; denied = []; payload = 65507 }; kept = new_kept } }
    {
        Server {
            responder: Responder::new(alloc, handler, AccessControl::new(alloc)),
            sessions: Sessions::new(alloc),
        }
    }

    /// A server to which nothing has happened yet, with networks whose sources are shut out, and networks whose sources
    /// are let in. Takes no memory.
    pub fn with_access(
        alloc: Global,
        handler: T,
        denied: Vec<IpNet>,
        allowed: Vec<IpNet>,
    ) -> Server<T>
        ensures { result ≡ record {
          handler = handler;
          access = record { allowed = allowed.items; denied = denied.items; payload = 65507 };
          kept = new_kept;
        } }
    {
        let access = AccessControl::from_networks(denied, allowed);
        Server::with_control(alloc, handler, access)
    }

    /// A server to which nothing has happened yet, where this says who is let in and how large a datagram may go out. Takes no
    /// memory.
    pub fn with_control(alloc: Global, handler: T, access: AccessControl) -> Server<T>
        ensures { result ≡ record { handler = handler; access = access; kept = new_kept } }
    {
        Server {
            responder: Responder::new(alloc, handler, access),
            sessions: Sessions::new(alloc),
        }
    }

    /// Whether a list of events may be served: it has fewer than 2^32 events; moments and limits are below 2^47; no moment
    /// is below the one before it, nor below the last that was taken; each accepted number is greater than all that were
    /// accepted before; pieces and datagrams have at most 65,535 bytes; and a stop stands only last. Takes no memory.
    pub fn valid_events(&self, events: &Vec<Event>) -> bool
        ensures { (result ≡ true) ↔ Valid self.now.kept events.now.items }
    {
        self.sessions.is_valid(events.as_slice())
    }

    /// A law: this call does nothing. After any number of lists the open connections stand in the order of their numbers,
    /// none above the greatest that was accepted, and none has a whole message unread; this is what the laws on lists of
    /// events ask of what a server keeps.
    pub fn keeps_order(&self)
        ensures { IsKept self.now.kept }
    {
        self.sessions.keeps_order();
    }

    /// How many connections are open: accepted from safe peers, not ended, with fewer than a hundred messages completed, and not
    /// late by the last moment that was taken; 0 after a stop. Takes no memory.
    pub fn open_count(&self) -> u64
        ensures { result ≡ length self.now.kept.connections }
    {
        self.sessions.open_count()
    }
}

impl<T: RequestHandler> Server<T> {
    /// Hands each message that the list completes to the handler, in order, and adds the replies to `out`, each for its
    /// message's receiver: framed for a connection, plain for the sender of a datagram. Room in `out` is made before a
    /// message is handed over. Where memory ran out, the messages before stay settled, and their replies stand in `out`.
    pub fn run_events(&mut self, events: &Vec<Event>, out: &mut Vec<Out>) -> Result<(), RunFault>
        requires { self.old.kept.stopped ≡ false → Valid self.old.kept events.now.items }
        ensures running { OnOk result (self.old.kept.stopped ≡ false) }
        ensures ok { OnOk result (Answers (T.serves self.old.access) self.old.handler
            (done self.old.kept events.now.items) self.new.handler out.old.items out.new.items) }
        ensures after { OnOk result (self.new.kept ≡ after self.old.kept events.now.items) }
        ensures err { IfErr result (Leaves
            (T.serves self.old.access) T.skips self.old events.now.items self.new out.old.items out.new.items) }
        ensures access { self.new.access ≡ self.old.access }
    {
        if self.sessions.is_stopped() {
            return Err(RunFault::Stopped);
        }
        self.responder.begin(out);
        match self.sessions.serve(&mut self.responder, events.as_slice()) {
            Ok(()) => {
                self.responder.finish(out);
                Ok(())
            }
            Err(OutOfMemory) => {
                let done = self.responder.finish(out);
                Err(RunFault::OutOfMemory { done })
            }
        }
    }

    /// A law: this call does nothing. A piece of a connection may be cut in two pieces of its moment, after any number of
    /// lists: whatever run over the one list's messages leaves of the handler and adds to what is sent, a run over the
    /// other's may, and the other way round. So the replies are those of the bytes, however the bytes were cut.
    pub fn cut_pieces(&self)
        ensures { (front back : List Happening) (at number : ℕ) (piece more : List ℕ) (later : T) (old new : List Sent)
            → Valid self.now.kept (front ++ Piece at number (piece ++ more) ∷ back)
            → Answers (T.serves self.now.access) self.now.handler
            (done self.now.kept (front ++ Piece at number (piece ++ more) ∷ back)) later old new
            ↔ Answers (T.serves self.now.access) self.now.handler
            (done self.now.kept (front ++ Piece at number piece ∷ Piece at number more ∷ back)) later old new }
    {
        self.sessions.keeps_order();
    }
}

impl<K: Keeper> Server<Book<K>> {
    /// A law: this call does nothing. In a run of a book over messages no more updates get ServFail than its keeper's count
    /// of faults rose, unless that stands at its last value; and where none gets it, that count is as it was.
    pub fn failed_updates(&self)
        ensures rose { (access : Access) (before later : SeenOf K) (asks : List Completed) (outs : List Sent)
            → (ran : Run (Settles K.keeper access) before asks outs later)
            → RoseBy (failures K.keeper access before asks outs later ran) (K.keeper.told before.keeper).faults
            (K.keeper.told later.keeper).faults }
        ensures calm { (access : Access) (before later : SeenOf K) (asks : List Completed) (outs : List Sent)
            → (ran : Run (Settles K.keeper access) before asks outs later)
            → failures K.keeper access before asks outs later ran ≡ 0
            → (K.keeper.told later.keeper).faults ≡ (K.keeper.told before.keeper).faults }
    {}

    /// The serial of the zone's SOA.
    pub fn serial(&self) -> u32
        ensures { result ≡ serial_of self.now.handler.zone.records }
    {
        self.responder.handler().serial()
    }

    /// How many rows the journal has.
    pub fn journal_len(&self) -> u64
        ensures is { result ≡ self.now.handler.row_count }
        ensures book { IsBook K.keeper self.now.handler }
    {
        self.responder.handler().journal_len()
    }

    /// What was counted since the book was opened: each reply once, the records of each batch, and how many records the zone
    /// has.
    pub fn counts(&self) -> &Counts
        ensures { result.now ≡ self.now.handler.counts }
    {
        self.responder.handler().counts()
    }

    /// Gives the book back.
    pub fn into_book(self) -> Book<K>
        ensures { result ≡ self.handler }
    {
        let Server {
            responder,
            sessions: _,
        } = self;
        responder.into_handler()
    }
}
