//! The open connections of a crowd.

ghost use Rattle.std.specs.Prelude.{◌≡◌, ◌≤◌, ◌<◌, ◌++◌, ◌^◌, ◌∷◌, [], length, not, true, IfOk, OnErr, OnOk, if◌then◌else◌};
ghost use Rattle.std.specs.List.{AllByRecursion, Contains};
ghost use Rattle.dns_crowd.specs.Crowds.{MayCome, event_of};
ghost use Rattle.dns_crowd.specs.Replies.{Falters, RepliesTo};
ghost use Rattle.dns_readiness.specs.Came.{count_of, number_of};
ghost use Rattle.dns_edges.specs.Edges.{HasCause};
ghost use Rattle.dns_crowd.specs.Tables.{IsAboveAll, KeepsEntries, KeepsTimes};
ghost use Rattle.dns_crowd.specs.Turns.{Holds, IsDone, IsShut, IsUnasked, Shuts, ShutsAll};
ghost use Rattle.dns_crowd.specs.Turns.{done_by, late_by, lost, next_lost, numbers_of, stays_by};
ghost use Rattle.dns_server_core.specs.Connections.{accepted, is_safe, new_kept};
ghost use Rattle.dns_server_core.specs.Events.{moment, number_in};
ghost use Rattle.dns_server_core.specs.Order.{next};
ghost use Rattle.dns_server_core.specs.Steps.{completed_now, open_next};
ghost use Rattle.dns_server_core.specs.declared.event.Event.TheVariants as event;

use crate::crowd::Crowd;
use crate::deadlines::{close_late, last_within};
use crate::sessions::Sessions;
use dns_book::AccessControl;
use dns_io::{IoFault, OutOfMemory, Peer};
use dns_readiness::{Came, Order};
use dns_server_core::{RequestHandler, Session, is_safe};
use std::alloc::Global;
use std::marker::Model;

/// The open connections, in order of their numbers, the order in which their time is over, and the last moment and the greatest number that
/// came. One whose time is over may still stand among them, until it is let go: it completes nothing. Each stands in the order once, at a
/// moment at which it is still within its time: one that completes a message is put off when that moment is past, and not before. One that
/// is gone may stand in the order still, and is passed over at its moment: so each that goes takes few steps, however many are open.
#[derive(Drop)]
pub(crate) struct Connections {
    last: u64,
    greatest: Option<u32>,
    sessions: Sessions,
    order: Order,
    alloc: Global,
}

impl Model for Connections {
    ghost use Rattle.std.specs.Prelude.{false};
    ghost use Rattle.dns_server_core.specs.Connections.{Kept};
    ghost use Rattle.dns_crowd.specs.Tables.{IsTable};

    ghost Value = { Kept };

    ghost view = { λ s. record { last = s.last; greatest = s.greatest; stopped = false; connections = s.sessions } };

    ghost invariant = { λ s. IsTable (record {
      last = s.last;
      greatest = s.greatest;
      stopped = false;
      connections = s.sessions;
    }) s.order };
}

impl Connections {
    /// Nothing has come yet.
    pub(crate) fn new(alloc: Global) -> Connections
        ensures { result ≡ new_kept }
    {
        Connections {
            last: 0,
            greatest: None,
            sessions: Sessions::new(alloc),
            order: Order::new(alloc),
            alloc,
        }
    }

    /// Takes what came: settles the messages that it completes, and adds their replies, each behind its length, to the others. It says
    /// whether the connection is to be closed: its peer is not safe, or it came too late, or it had its last message. Where memory runs
    /// out, the first of the messages were settled, part of their replies may have been added, and the connection is not open any more.
    pub(crate) fn take<H: RequestHandler>(
        &mut self,
        handler: &mut H,
        access: &AccessControl,
        came: &Came,
        room: &[u8],
        replies: &mut Vec<u8>,
    ) -> Result<bool, OutOfMemory>
        requires size { count_of came.now ≤ length room.now }
        requires comes { MayCome self.old.last self.old.greatest (event_of room.now came.now) }
        ensures next { OnOk result (self.new ≡ next self.old (event_of room.now came.now)) }
        ensures ran { OnOk result (RepliesTo (H.serves access.now) handler.old
            (completed_now (event_of room.now came.now) self.old.connections) handler.new (number_of came.now)
            replies.old.items replies.new.items) }
        ensures done { IfOk result (λ is_done. is_done ≡ true → IsShut
            (numbers_of self.old.connections ++ number_in (event_of room.now came.now)) self.new.connections (number_of came.now)) }
        ensures shuts { IfOk result (λ is_done. done_by (event_of room.now came.now) self.old.connections
            ≡ (if is_done then number_of came.now ∷ [] else [])) }
        ensures err { OnErr result (self.new ≡ next_lost self.old (event_of room.now came.now)) }
        ensures halted { OnErr result (Falters (H.serves access.now) H.skips handler.old
            (completed_now (event_of room.now came.now) self.old.connections) handler.new) }
    {
        let is_done = match apply(
            self.alloc,
            handler,
            access,
            &mut self.sessions,
            &mut self.order,
            came,
            room,
            replies,
        ) {
            Ok(is_done) => is_done,
            Err(fault) => {
                self.last = came.moment();
                self.greatest = came.greatest_behind(self.greatest);
                return Err(fault);
            }
        };
        self.last = came.moment();
        self.greatest = came.greatest_behind(self.greatest);
        Ok(is_done)
    }

    /// The connection of a piece is open no more.
    pub(crate) fn let_go(&mut self, came: &Came, room: &[u8])
        ensures { self.new ≡ record self.old { connections = lost (event_of room.now came.now) self.old.connections } }
    {
        match came {
            Came::Bytes { at, conn, .. } => self.sessions.end(*at, *conn),
            _ => {}
        }
    }

    /// Where time passed, lets those go that are late by the last moment, and closes them.
    pub(crate) fn close_late<C: Crowd>(&mut self, came: &Came, crowd: &mut C) -> Result<(), IoFault>
        ensures left { OnOk result (self.new ≡ record self.old {
          connections = stays_by (event_of [] came.now) self.old.last self.old.connections;
        }) }
        ensures all { OnOk result (ShutsAll (C.told crowd.old).closed (C.told crowd.new).closed
            (late_by (event_of [] came.now) self.old.last self.old.connections)) }
        ensures closed { OnOk result (Shuts (C.told crowd.old).closed (C.told crowd.new).closed
            (numbers_of self.old.connections) self.new.connections) }
        ensures unasked { OnOk result (IsUnasked (C.told crowd.old) (C.told crowd.new)) }
        ensures held { Holds (C.told crowd.old) (C.told crowd.new) }
        ensures cause { HasCause (C.told crowd.old).faults (C.told crowd.new).faults result }
    {
        match came {
            Came::Tick { .. } => {
                match close_late(&mut self.sessions, &mut self.order, self.last, crowd) {
                    Ok(()) => {}
                    Err(fault) => return Err(fault),
                }
                Ok(())
            }
            Came::Accepted { .. } => Ok(()),
            Came::Bytes { .. } => Ok(()),
            Came::Ended { .. } => Ok(()),
        }
    }
}

/// What came does this to the connections, and completes these messages.
fn apply<H: RequestHandler>(
    alloc: Global,
    handler: &mut H,
    access: &AccessControl,
    sessions: &mut Sessions,
    order: &mut Order,
    came: &Came,
    room: &[u8],
    replies: &mut Vec<u8>,
) -> Result<bool, OutOfMemory>
    requires size { count_of came.now ≤ length room.now }
    requires moment { moment (event_of room.now came.now) < 2 ^ 47 }
    requires above { AllByRecursion (λ n. IsAboveAll n sessions.old) (number_in (event_of room.now came.now)) }
    ensures ok { OnOk result (sessions.new ≡ open_next (event_of room.now came.now) sessions.old) }
    ensures ran { OnOk result (RepliesTo (H.serves access.now) handler.old
        (completed_now (event_of room.now came.now) sessions.old) handler.new (number_of came.now)
        replies.old.items replies.new.items) }
    ensures done { IfOk result (λ is_done. is_done ≡ true →
        IsDone (event_of room.now came.now) sessions.old sessions.new) }
    ensures shuts { IfOk result (λ is_done. done_by (event_of room.now came.now) sessions.old
        ≡ (if is_done then number_of came.now ∷ [] else [])) }
    ensures err { OnErr result (sessions.new ≡ lost (event_of room.now came.now) sessions.old) }
    ensures halted { OnErr result (Falters (H.serves access.now) H.skips handler.old
        (completed_now (event_of room.now came.now) sessions.old) handler.new) }
    ensures timed { KeepsTimes (event_of room.now came.now) order.old sessions.old order.new sessions.new }
{
    match came {
        Came::Accepted {
            at,
            conn,
            peer,
            limit,
        } => accept(alloc, sessions, order, *at, *conn, *peer, *limit),
        Came::Bytes { at, conn, count } => {
            let (piece, _) = room.split_at(*count);
            let is_done = sessions.hear(handler, access, *at, *conn, piece, replies)?;
            Ok(is_done)
        }
        Came::Ended { at, conn } => {
            sessions.end(*at, *conn);
            Ok(false)
        }
        Came::Tick { at: _ } => Ok(false),
    }
}

/// A connection from a safe peer is open from now on; one from another is to be closed.
fn accept(
    alloc: Global,
    sessions: &mut Sessions,
    order: &mut Order,
    at: u64,
    number: u32,
    peer: Peer,
    limit: u64,
) -> Result<bool, OutOfMemory>
    requires moment { at < 2 ^ 47 }
    requires above { IsAboveAll number sessions.old }
    ensures ok { OnOk result (sessions.new ≡ sessions.old ++ accepted (event.Accepted at number peer limit)) }
    ensures done { IfOk result (λ is_done. is_done ≡ not (is_safe peer)) }
    ensures err { OnErr result (sessions.new ≡ sessions.old) }
    ensures timed { KeepsTimes (event.Accepted at number peer limit) order.old sessions.old order.new sessions.new }
{
    if !is_safe(&peer) {
        return Ok(true);
    }
    let session = Session::open(alloc, number, peer, limit, at);
    let until = last_within(&session, at);
    put_in_order(order, &*sessions, until, number)?;
    sessions.push(session)?;
    Ok(false)
}

/// Puts a connection into the order.
fn put_in_order(
    order: &mut Order,
    sessions: &Sessions,
    until: u64,
    number: u32,
) -> Result<(), OutOfMemory>
    ensures ok { OnOk result (Contains order.new (until, number)) }
    ensures kept { KeepsEntries sessions.now order.old order.new }
{
    tidy(order, sessions);
    order.put(until, number)
}

/// Lets go of the entries of those that are gone, where they are more than the others.
fn tidy(order: &mut Order, sessions: &Sessions)
    ensures { KeepsEntries sessions.now order.old order.new }
{
    if order.len() / 2 <= sessions.count() {
        return;
    }
    sweep(order, sessions);
}

/// Lets go of the entries of those that are gone.
fn sweep(order: &mut Order, sessions: &Sessions)
    ensures { KeepsEntries sessions.now order.old order.new }
{
    order.retain(|entry: &(u64, u32)| sessions.has(entry.1));
}
