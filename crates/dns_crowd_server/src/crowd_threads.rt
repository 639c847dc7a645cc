//! The workers of crowds, each on a thread of its own.

ghost use Rattle.std.specs.Prelude.{◌≡◌};
ghost use Rattle.std.specs.List.{AllByRecursion};
ghost use Rattle.dns_server.specs.Servers.{IsOf, Matches, their_passes};
ghost use Rattle.dns_crowd_server.specs.Crews.{ServedCrowd};

use crate::stamping::Stamped;
use core::mem::replace_with;
use dns_book::AccessControl;
use dns_crowd::{Crowd, serve_crowd};
use dns_keeper::Keeper;
use dns_ports::{StopToken, WallClock};
use dns_server::Worker;
use dns_ticket_lock::{Seated, TicketBook};
use std::alloc::Global;
use std::rt;
use std::sync::Wait;
use std::thread::{self, Threads};

/// Runs the workers, each on a thread of its own, and waits until they have ended. The first that ends stops the token.
pub(crate) fn run_crowds<K: Keeper + Send, C: Crowd + Send, R: Threads + Wait + rt::Clock + Sync>(
    rt: &R,
    alloc: Global,
    book: &TicketBook<K>,
    access: &AccessControl,
    workers: &mut [Worker<C>],
    token: &StopToken,
)
    requires { AllByRecursion (IsOf book.now) (their_passes workers.old) }
    ensures { Matches (ServedCrowd K.keeper C.told access.now) workers.old workers.new }
{
    if workers.is_empty() {
        return;
    }
    let threads = workers.len();
    thread::for_each_mut(
        rt,
        workers,
        threads,
        &|_place: usize, worker: &mut Worker<C>|
            requires { worker.now.pass.book ≡ book.now.id }
            ensures { ServedCrowd K.keeper C.told access.entry.now worker.entry.now worker.exit.now }
        { run_one(rt, alloc, book, access, worker, token) },
    );
}

/// Runs one worker in its place.
fn run_one<K: Keeper, C: Crowd, R: Wait + rt::Clock>(
    rt: &R,
    alloc: Global,
    book: &TicketBook<K>,
    access: &AccessControl,
    worker: &mut Worker<C>,
    token: &StopToken,
)
    requires { worker.old.pass.book ≡ book.now.id }
    ensures { ServedCrowd K.keeper C.told access.now worker.old worker.new }
{
    replace_with(worker, (), |worker: Worker<C>, _nothing: ()| {
        (end_one(rt, alloc, book, access, worker, token), ())
    });
}

/// Serves the crowd of a worker by its pass, to its end, and then stops the token: no other worker goes on without it. Each message is
/// settled at the system's time.
fn end_one<K: Keeper, C: Crowd, R: Wait + rt::Clock>(
    rt: &R,
    alloc: Global,
    book: &TicketBook<K>,
    access: &AccessControl,
    worker: Worker<C>,
    token: &StopToken,
) -> Worker<C>
    requires { worker.pass.book ≡ book.now.id }
    ensures { ServedCrowd K.keeper C.told access.now worker result }
{
    let Worker {
        pass,
        mut port,
        limit,
        answer: _,
    } = worker;
    let seated = Seated::new(rt, book, pass);
    let mut seat = Stamped::new(alloc, seated, WallClock::new(rt));
    let answer = serve_crowd(rt, alloc, &mut seat, access, &mut port);
    token.stop();
    Worker {
        pass: seat.into_inner().into_pass(),
        port,
        limit,
        answer,
    }
}
