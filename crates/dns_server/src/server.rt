//! The server.

ghost use Rattle.std.specs.Prelude.{◌≡◌, ◌↔◌, ◌≤◌, ◌<◌, ◌^◌, ◌++◌, [], true, OnOk, OnErr, IfOk, IfErr};
ghost use Rattle.std.specs.List.{AllByRecursion};
ghost use Rattle.dns_ticket_lock.specs.Naming.{terms_at};
ghost use Rattle.dns_ticket_lock.specs.Passes.{AreAll, ArePasses, ClosedFor};
ghost use Rattle.dns_server.specs.Servers.{IsOf, TakesOn, all_passes, given_back, is_full, their_passes, their_ports, worker_count};

use crate::crew::{dismiss, take_on};
use crate::fault::RegisterFault;
use crate::limit::Limit;
use crate::worker::Worker;
use dns_book::{AccessControl, Book};
use dns_io::OutOfMemory;
use dns_keeper::Keeper;
use dns_ports::{StopToken, TcpPort, UdpPort};
use dns_ticket_lock::{Pass, TicketBook};
use std::alloc::Global;
use std::marker::Model;
use std::mem;

/// A server: it shares a book among workers, each of which serves a socket or a listener on a thread of its own, by a seat of its
/// own.
#[derive(Drop)]
pub struct ThreadServer<K: Keeper, U: UdpPort + Drop, T: TcpPort + Drop> {
    pub(crate) book: TicketBook<K>,
    pub(crate) access: AccessControl,
    pub(crate) token: StopToken,
    pub(crate) free: Vec<Pass>,
    pub(crate) sockets: Vec<Worker<U>>,
    pub(crate) socket_room: Vec<U>,
    pub(crate) listeners: Vec<Worker<T>>,
    pub(crate) listener_room: Vec<T>,
    pub(crate) alloc: Global,
}

impl<K: Keeper, U: UdpPort + Drop, T: TcpPort + Drop> Model for ThreadServer<K, U, T> {
    ghost use Rattle.std.specs.Prelude.{◌≡◌, ◌≤◌, ◌+◌, [], vec_len};
    ghost use Rattle.std.specs.Vec.{vec_capacity};
    ghost use Rattle.dns_server.specs.Servers.{ServerSeen, IsWhole};

    ghost Value = { ServerSeen U T };

    ghost view = { λ s. record {
      book = s.book;
      access = s.access;
      free = s.free.items;
      sockets = s.sockets.items;
      listeners = s.listeners.items;
    } };

    ghost invariant = { λ s. IsWhole (record {
      book = s.book;
      access = s.access;
      free = s.free.items;
      sockets = s.sockets.items;
      listeners = s.listeners.items;
    }) × (vec_len s.free + (vec_len s.sockets + vec_len s.listeners) ≤ vec_capacity s.free)
        × (s.socket_room.items ≡ []) × (vec_len s.sockets ≤ vec_capacity s.socket_room)
        × (s.listener_room.items ≡ []) × (vec_len s.listeners ≤ vec_capacity s.listener_room) };
}

impl<K: Keeper, U: UdpPort + Drop, T: TcpPort + Drop> ThreadServer<K, U, T> {
    /// A server with so many seats, 1 to 1,024, and no worker. Where memory runs out, the book is given back as it was.
    pub fn new(
        alloc: Global,
        book: Book<K>,
        access: AccessControl,
        seats: u32,
    ) -> Result<ThreadServer<K, U, T>, (Book<K>, OutOfMemory)>
        requires seats { (0 < seats) × (seats ≤ 1024) }
        ensures terms { IfOk result (λ s. s.book.terms ≡ terms_at K.keeper book seats) }
        ensures access { IfOk result (λ s. s.access ≡ access) }
        ensures passes { IfOk result (λ s. ArePasses s.book s.free) }
        ensures empty { IfOk result (λ s. (s.sockets ≡ []) × (s.listeners ≡ [])) }
        ensures err { IfErr result (λ e. e.0 ≡ book) }
    {
        let Ok(token) = StopToken::new(alloc) else {
            return Err((book, OutOfMemory));
        };
        let (book, free) = TicketBook::new(alloc, book, seats)?;
        Ok(ThreadServer {
            book,
            access,
            token,
            free,
            sockets: Vec::new(alloc),
            socket_room: Vec::new(alloc),
            listeners: Vec::new(alloc),
            listener_room: Vec::new(alloc),
            alloc,
        })
    }

    /// Registers a socket, to be served by one worker. Where the socket is not registered, it is given back, and nothing has changed;
    /// `Full` exactly where there are as many workers as seats.
    pub fn register_socket(&mut self, socket: U) -> Result<(), RegisterFault<U>>
        ensures ok { OnOk result (TakesOn socket 0 self.old.free self.old.sockets self.new.free self.new.sockets) }
        ensures others { (self.new.book ≡ self.old.book) × (self.new.access ≡ self.old.access) × (self.new.listeners ≡ self.old.listeners) }
        ensures full { (is_full result ≡ true) ↔ (worker_count self.old ≡ self.old.book.terms.seats) }
        ensures err { IfErr result (λ fault. given_back fault ≡ socket) }
        ensures same { OnErr result (self.new ≡ self.old) }
    {
        if self.free.is_empty() {
            return Err(RegisterFault::Full(socket));
        }
        match take_on(
            &mut self.free,
            &mut self.sockets,
            &mut self.socket_room,
            socket,
            Limit::new(0),
        ) {
            Ok(()) => Ok(()),
            Err(socket) => Err(RegisterFault::OutOfMemory(socket)),
        }
    }

    /// Registers a listener, to be served by one worker, which serves its connections one after another under this limit
    /// (milliseconds, below 2^47, 0 for none). The size of the buffer limits nothing. Where the listener is not registered, it is given
    /// back, and nothing has changed; `Full` exactly where there are as many workers as seats.
    pub fn register_listener(
        &mut self,
        listener: T,
        timeout: u64,
        _response_buffer_size: usize,
    ) -> Result<(), RegisterFault<T>>
        requires timeout { timeout < 2 ^ 47 }
        ensures ok { OnOk result (TakesOn listener timeout self.old.free self.old.listeners self.new.free self.new.listeners) }
        ensures others { (self.new.book ≡ self.old.book) × (self.new.access ≡ self.old.access) × (self.new.sockets ≡ self.old.sockets) }
        ensures full { (is_full result ≡ true) ↔ (worker_count self.old ≡ self.old.book.terms.seats) }
        ensures err { IfErr result (λ fault. given_back fault ≡ listener) }
        ensures same { OnErr result (self.new ≡ self.old) }
    {
        if self.free.is_empty() {
            return Err(RegisterFault::Full(listener));
        }
        match take_on(
            &mut self.free,
            &mut self.listeners,
            &mut self.listener_room,
            listener,
            Limit::new(timeout),
        ) {
            Ok(()) => Ok(()),
            Err(listener) => Err(RegisterFault::OutOfMemory(listener)),
        }
    }

    /// The token that stops the server. Ports are opened with it.
    pub fn shutdown_token(&self) -> &StopToken {
        &self.token
    }

    /// Gives the registered sockets back, in order of registration; none is registered then. Takes no memory.
    pub fn sockets(&mut self) -> Vec<U>
        ensures ports { result.items ≡ their_ports self.old.sockets }
        ensures after { self.new ≡ record self.old { free = self.old.free ++ their_passes self.old.sockets; sockets = [] } }
    {
        let alloc = self.alloc;
        let workers = mem::replace(&mut self.sockets, Vec::new(alloc));
        let room = mem::replace(&mut self.socket_room, Vec::new(alloc));
        dismiss(workers, room, &mut self.free)
    }

    /// Gives the registered listeners back, in order of registration; none is registered then. Takes no memory.
    pub fn listeners(&mut self) -> Vec<T>
        ensures ports { result.items ≡ their_ports self.old.listeners }
        ensures after { self.new ≡ record self.old { free = self.old.free ++ their_passes self.old.listeners; listeners = [] } }
    {
        let alloc = self.alloc;
        let workers = mem::replace(&mut self.listeners, Vec::new(alloc));
        let room = mem::replace(&mut self.listener_room, Vec::new(alloc));
        dismiss(workers, room, &mut self.free)
    }

    /// Closes the server, and gives the book back: it is closed for all its passes, one with each number from 1 to the seats. Ports that
    /// are still registered are let go. Takes no memory.
    pub fn into_book(self) -> Book<K>
        ensures passes { AllByRecursion (IsOf self.book) (all_passes self) }
        ensures all { AreAll self.book.id self.book.terms.seats (all_passes self) }
        ensures closed { ClosedFor K.keeper self.book.terms (all_passes self) result }
    {
        let ThreadServer {
            book,
            mut free,
            sockets,
            socket_room,
            listeners,
            listener_room,
            ..
        } = self;
        let _sockets = dismiss(sockets, socket_room, &mut free);
        let _listeners = dismiss(listeners, listener_room, &mut free);
        book.close(free)
    }
}
