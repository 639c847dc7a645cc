//! The workers of a server: they are taken on for ports that were opened, serve, and are dismissed.

ghost use Rattle.std.specs.Prelude.{◌≡◌, ◌≤◌, ◌+◌, ◌++◌, ℕ, List, length};
ghost use Rattle.std.specs.List.{AllByRecursion};
ghost use Rattle.dns_io.specs.Told.{Takes};
ghost use Rattle.dns_edges.specs.Edges.{around};
ghost use Rattle.dns_server.specs.Servers.{EndsReading, IsOf, Matches, ServedSocket, their_passes};
ghost use Rattle.dns_crowd_server.specs.Crews.{ServedCrowd};

use crate::crowd_threads::run_crowds;
use dns_book::AccessControl;
use dns_crowd::Crowd;
use dns_edges::Source;
use dns_io::IoFault;
use dns_keeper::Keeper;
use dns_ports::{StopToken, UdpPort};
use dns_server::{Worker, read_out, run_sockets};
use dns_ticket_lock::TicketBook;
use std::alloc::Global;
use std::rt;
use std::sync::Wait;
use std::thread::{Threads, join_mut};

/// Runs the workers of sockets and of crowds, each on a thread of its own, while the caller reads `until` to its end or first fault, and
/// then stops the token; waits until all have ended. Where a worker ends it stops the token too: none goes on without the others. The answer is that of reading: an error says that no memory was found to read on.
pub fn serve_crew<
    K: Keeper + Send,
    U: UdpPort + Send,
    C: Crowd + Send,
    E: Source,
    R: Threads + Wait + rt::Clock + Sync,
>(
    rt: &R,
    alloc: Global,
    book: &TicketBook<K>,
    access: &AccessControl,
    sockets: &mut [Worker<U>],
    crowds: &mut [Worker<C>],
    until: &mut E,
    token: &StopToken,
) -> Result<(), IoFault>
    requires sockets { AllByRecursion (IsOf book.now) (their_passes sockets.old) }
    requires crowds { AllByRecursion (IsOf book.now) (their_passes crowds.old) }
    ensures sockets { Matches (ServedSocket K.keeper U.told access.now) sockets.old sockets.new }
    ensures crowds { Matches (ServedCrowd K.keeper C.told access.now) crowds.old crowds.new }
    ensures ended { EndsReading (around E.source.told until.old until.new) result }
    ensures read { (bytes : List ℕ) × Takes (E.source.told until.old).left (E.source.told until.new).left bytes }
    ensures later { (E.source.told until.old).faults ≤ (E.source.told until.new).faults }
{
    let (_, ended) = join_mut(
        rt,
        &mut ||
            requires { AllByRecursion (IsOf book.now) (their_passes sockets.now)
                × AllByRecursion (IsOf book.now) (their_passes crowds.now) }
        { run_all(rt, alloc, book, access, sockets, crowds, token) },
        &mut || { read_out(rt, until, token) },
    );
    ended
}

/// Runs all workers, and waits until they have ended.
fn run_all<
    K: Keeper + Send,
    U: UdpPort + Send,
    C: Crowd + Send,
    R: Threads + Wait + rt::Clock + Sync,
>(
    rt: &R,
    alloc: Global,
    book: &TicketBook<K>,
    access: &AccessControl,
    sockets: &mut [Worker<U>],
    crowds: &mut [Worker<C>],
    token: &StopToken,
)
    requires sockets { AllByRecursion (IsOf book.now) (their_passes sockets.old) }
    requires crowds { AllByRecursion (IsOf book.now) (their_passes crowds.old) }
    ensures sockets { Matches (ServedSocket K.keeper U.told access.now) sockets.old sockets.new }
    ensures crowds { Matches (ServedCrowd K.keeper C.told access.now) crowds.old crowds.new }
{
    join_mut(
        rt,
        &mut ||
            requires { AllByRecursion (IsOf book.now) (their_passes sockets.now) }
        { end_sockets(rt, alloc, book, access, sockets, token) },
        &mut ||
            requires { AllByRecursion (IsOf book.now) (their_passes crowds.now) }
        { run_crowds(rt, alloc, book, access, crowds, token) },
    );
}

/// Runs the workers of sockets, waits until they have ended, and then stops the token, where there were any.
fn end_sockets<K: Keeper + Send, U: UdpPort + Send, R: Threads + Wait + Sync>(
    rt: &R,
    alloc: Global,
    book: &TicketBook<K>,
    access: &AccessControl,
    sockets: &mut [Worker<U>],
    token: &StopToken,
)
    requires { AllByRecursion (IsOf book.now) (their_passes sockets.old) }
    ensures { Matches (ServedSocket K.keeper U.told access.now) sockets.old sockets.new }
{
    let is_none = sockets.is_empty();
    run_sockets(rt, alloc, book, access, sockets);
    if !is_none {
        token.stop();
    }
}
