//! The workers of sockets, each on a thread of its own.

ghost use Rattle.std.specs.Prelude.{◌≡◌};
ghost use Rattle.std.specs.List.{AllByRecursion};
ghost use Rattle.dns_server.specs.Servers.{IsOf, Matches, ServedSocket, their_passes};

use crate::socket_worker::serve_socket;
use crate::worker::Worker;
use core::mem::replace_with;
use dns_book::AccessControl;
use dns_keeper::Keeper;
use dns_ports::UdpPort;
use dns_ticket_lock::{Seated, TicketBook};
use std::alloc::Global;
use std::sync::Wait;
use std::thread::{self, Threads};

/// Runs the workers, each on a thread of its own, and waits until they have ended.
pub fn run_sockets<K: Keeper + Send, U: UdpPort + Send, R: Threads + Wait + Sync>(
    rt: &R,
    alloc: Global,
    book: &TicketBook<K>,
    access: &AccessControl,
    workers: &mut [Worker<U>],
)
    requires { AllByRecursion (IsOf book.now) (their_passes workers.old) }
    ensures { Matches (ServedSocket K.keeper U.told access.now) workers.old workers.new }
{
    if workers.is_empty() {
        return;
    }
    let threads = workers.len();
    thread::for_each_mut(
        rt,
        workers,
        threads,
        &|_place: usize, worker: &mut Worker<U>|
            requires { worker.now.pass.book ≡ book.now.id }
            ensures { ServedSocket K.keeper U.told access.entry.now worker.entry.now worker.exit.now }
        { run_socket(rt, alloc, book, access, worker) },
    );
}

/// Runs one worker in its place.
fn run_socket<K: Keeper, U: UdpPort, R: Wait>(
    rt: &R,
    alloc: Global,
    book: &TicketBook<K>,
    access: &AccessControl,
    worker: &mut Worker<U>,
)
    requires { worker.old.pass.book ≡ book.now.id }
    ensures { ServedSocket K.keeper U.told access.now worker.old worker.new }
{
    replace_with(worker, (), |worker: Worker<U>, _nothing: ()| {
        (end_socket(rt, alloc, book, access, worker), ())
    });
}

/// Serves the socket of a worker by its pass, to its end.
fn end_socket<K: Keeper, U: UdpPort, R: Wait>(
    rt: &R,
    alloc: Global,
    book: &TicketBook<K>,
    access: &AccessControl,
    worker: Worker<U>,
) -> Worker<U>
    requires { worker.pass.book ≡ book.now.id }
    ensures { ServedSocket K.keeper U.told access.now worker result }
{
    let Worker {
        pass,
        mut port,
        limit,
        answer: _,
    } = worker;
    let mut seat = Seated::new(rt, book, pass);
    let answer = serve_socket(rt, alloc, &mut seat, access, &mut port);
    Worker {
        pass: seat.into_pass(),
        port,
        limit,
        answer,
    }
}
