//! The workers of listeners, each on a thread of its own.

ghost use Rattle.std.specs.Prelude.{◌≡◌};
ghost use Rattle.std.specs.List.{AllByRecursion};
ghost use Rattle.dns_ports.specs.Ports.{listener_of};
ghost use Rattle.dns_server.specs.Servers.{IsOf, Matches, ServedListener, their_passes};

use crate::listener_worker::serve_listener;
use crate::worker::Worker;
use core::mem::replace_with;
use dns_book::AccessControl;
use dns_keeper::Keeper;
use dns_ports::TcpPort;
use dns_ticket_lock::{Seated, TicketBook};
use std::alloc::Global;
use std::sync::Wait;
use std::thread::{self, Threads};

/// Runs the workers, each on a thread of its own, and waits until they have ended.
pub(crate) fn run_listeners<K: Keeper + Send, T: TcpPort + Send, R: Threads + Wait + Sync>(
    rt: &R,
    alloc: Global,
    book: &TicketBook<K>,
    access: &AccessControl,
    workers: &mut [Worker<T>],
)
where
    T::In: Send,
    T::Out: Send,
    T::Time: Send,
    requires { AllByRecursion (IsOf book.now) (their_passes workers.old) }
    ensures { Matches
        (ServedListener K.keeper (listener_of T.told T.In.source T.Out.sink T.Time.clock) access.now) workers.old workers.new }
{
    if workers.is_empty() {
        return;
    }
    let threads = workers.len();
    thread::for_each_mut(
        rt,
        workers,
        threads,
        &|_place: usize, worker: &mut Worker<T>|
            requires { worker.now.pass.book ≡ book.now.id }
            ensures { ServedListener K.keeper (listener_of T.told T.In.source T.Out.sink T.Time.clock)
                access.entry.now worker.entry.now worker.exit.now }
        { run_listener(rt, alloc, book, access, worker) },
    );
}

/// Runs one worker in its place.
fn run_listener<K: Keeper, T: TcpPort, R: Wait>(
    rt: &R,
    alloc: Global,
    book: &TicketBook<K>,
    access: &AccessControl,
    worker: &mut Worker<T>,
)
    requires { worker.old.pass.book ≡ book.now.id }
    ensures { ServedListener K.keeper (listener_of T.told T.In.source T.Out.sink T.Time.clock) access.now worker.old worker.new }
{
    replace_with(worker, (), |worker: Worker<T>, _nothing: ()| {
        (end_listener(rt, alloc, book, access, worker), ())
    });
}

/// Serves the listener of a worker by its pass, to its end.
fn end_listener<K: Keeper, T: TcpPort, R: Wait>(
    rt: &R,
    alloc: Global,
    book: &TicketBook<K>,
    access: &AccessControl,
    worker: Worker<T>,
) -> Worker<T>
    requires { worker.pass.book ≡ book.now.id }
    ensures { ServedListener K.keeper (listener_of T.told T.In.source T.Out.sink T.Time.clock) access.now worker result }
{
    let Worker {
        pass,
        mut port,
        limit,
        answer: _,
    } = worker;
    let mut seat = Seated::new(rt, book, pass);
    let answer = serve_listener(
        rt,
        alloc,
        &mut seat,
        access,
        &mut port,
        limit.milliseconds(),
    );
    Worker {
        pass: seat.into_pass(),
        port,
        limit,
        answer,
    }
}
