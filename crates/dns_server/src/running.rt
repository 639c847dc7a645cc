//! How the workers are run.

ghost use Rattle.std.specs.Prelude.{◌≡◌, ◌≤◌, ℕ, List, length, OnOk};
ghost use Rattle.std.specs.List.{AllByRecursion};
ghost use Rattle.dns_io.specs.Told.{Takes};
ghost use Rattle.dns_edges.specs.Edges.{around};
ghost use Rattle.dns_ports.specs.Ports.{listener_of};
ghost use Rattle.dns_server.specs.Servers.{AnswersFor, EndsReading, IsOf, IsReadOut, IsServer, KeepsPasses, Matches, ServedListener, ServedSocket, ServesUntil, answer_of, as_net, first_fault, or_later, or_reading, their_passes};

use crate::listener_threads::run_listeners;
use crate::server::ThreadServer;
use crate::socket_threads::run_sockets;
use crate::until::read_out;
use crate::worker::Worker;
use dns_book::AccessControl;
use dns_edges::Source;
use dns_io::IoFault;
use dns_keeper::Keeper;
use dns_ports::{StopToken, TcpPort, UdpPort};
use dns_ticket_lock::TicketBook;
use dns_transport::NetError;
use std::alloc::Global;
use std::sync::Wait;
use std::thread::{Threads, join_mut};

impl<K: Keeper + Send, U: UdpPort + Drop + Send, T: TcpPort + Drop + Send> ThreadServer<K, U, T>
where
    T::In: Send,
    T::Out: Send,
    T::Time: Send,
{
    /// Starts each worker on a thread of its own, and waits until all have ended; a worker whose thread is refused is run behind the
    /// others. It is `Ok` at once where there is none. The answer is `Io` where a worker failed, and only where a port's count of faults
    /// rose; else `OutOfMemory` where memory was wanting, also for a message, an answer or a connection behind which its worker went on.
    pub fn block_until_done<R: Threads + Wait + Sync>(&mut self, rt: &R) -> Result<(), NetError>
        ensures sockets { Matches (ServedSocket K.keeper U.told self.old.access) self.old.sockets self.new.sockets }
        ensures listeners { Matches
            (ServedListener K.keeper (listener_of T.told T.In.source T.Out.sink T.Time.clock) self.old.access)
            self.old.listeners self.new.listeners }
        ensures others { IsServer self.old self.new }
        ensures passes { KeepsPasses self.old self.new }
        ensures answer { AnswersFor U.told T.told self.old self.new result }
        ensures first { result ≡ answer_of self.new }
    {
        self.run(rt);
        self.answer()
    }

    /// Stops the token, and then waits as [`ThreadServer::block_until_done`] does. Messages that were taken are answered.
    pub fn shutdown_gracefully<R: Threads + Wait + Sync>(&mut self, rt: &R) -> Result<(), NetError>
        ensures sockets { Matches (ServedSocket K.keeper U.told self.old.access) self.old.sockets self.new.sockets }
        ensures listeners { Matches
            (ServedListener K.keeper (listener_of T.told T.In.source T.Out.sink T.Time.clock) self.old.access)
            self.old.listeners self.new.listeners }
        ensures others { IsServer self.old self.new }
        ensures passes { KeepsPasses self.old self.new }
        ensures answer { AnswersFor U.told T.told self.old self.new result }
        ensures first { result ≡ answer_of self.new }
    {
        self.token.stop();
        self.block_until_done(rt)
    }

    /// As [`ThreadServer::block_until_done`], while the caller reads `until` to its end or first fault, and then stops the token. `Ok`
    /// only where `until` has nothing left and no read of it failed, or its count of faults rose; where each worker ended well,
    /// `OutOfMemory` says that no memory was found to read it, and that no read of it failed.
    pub fn serve_until<E: Source, R: Threads + Wait + Sync>(
        &mut self,
        rt: &R,
        until: &mut E,
    ) -> Result<(), NetError>
        ensures sockets { Matches (ServedSocket K.keeper U.told self.old.access) self.old.sockets self.new.sockets }
        ensures listeners { Matches
            (ServedListener K.keeper (listener_of T.told T.In.source T.Out.sink T.Time.clock) self.old.access)
            self.old.listeners self.new.listeners }
        ensures others { IsServer self.old self.new }
        ensures passes { KeepsPasses self.old self.new }
        ensures answer { AnswersFor U.told T.told self.old self.new result }
        ensures until { OnOk result (IsReadOut (around E.source.told until.old until.new)) }
        ensures reading { ServesUntil (around E.source.told until.old until.new) (answer_of self.new) result }
    {
        let reading = self.run_while(rt, until);
        or_reading(self.answer(), reading)
    }
}

impl<K: Keeper + Send, U: UdpPort + Drop + Send, T: TcpPort + Drop + Send> ThreadServer<K, U, T>
where
    T::In: Send,
    T::Out: Send,
    T::Time: Send,
{
    /// Runs the workers.
    fn run<R: Threads + Wait + Sync>(&mut self, rt: &R)
        ensures sockets { Matches (ServedSocket K.keeper U.told self.old.access) self.old.sockets self.new.sockets }
        ensures listeners { Matches
            (ServedListener K.keeper (listener_of T.told T.In.source T.Out.sink T.Time.clock) self.old.access)
            self.old.listeners self.new.listeners }
        ensures others { IsServer self.old self.new }
    {
        run_all(
            rt,
            self.alloc,
            &self.book,
            &self.access,
            self.sockets.as_mut_slice(),
            self.listeners.as_mut_slice(),
        );
    }

    /// Runs the workers while the caller reads `until` and then stops the token.
    fn run_while<E: Source, R: Threads + Wait + Sync>(
        &mut self,
        rt: &R,
        until: &mut E,
    ) -> Result<(), IoFault>
        ensures sockets { Matches (ServedSocket K.keeper U.told self.old.access) self.old.sockets self.new.sockets }
        ensures listeners { Matches
            (ServedListener K.keeper (listener_of T.told T.In.source T.Out.sink T.Time.clock) self.old.access)
            self.old.listeners self.new.listeners }
        ensures others { IsServer self.old self.new }
        ensures ended { EndsReading (around E.source.told until.old until.new) result }
        ensures read { (bytes : List ℕ) × Takes (E.source.told until.old).left (E.source.told until.new).left bytes }
        ensures later { (E.source.told until.old).faults ≤ (E.source.told until.new).faults }
    {
        run_beside(
            rt,
            self.alloc,
            &self.book,
            &self.access,
            self.sockets.as_mut_slice(),
            self.listeners.as_mut_slice(),
            until,
            &self.token,
        )
    }

    /// How the workers ended.
    fn answer(&self) -> Result<(), NetError>
        ensures { result ≡ answer_of self.now }
    {
        as_net(or_later(
            first_fault(self.sockets.as_slice()),
            first_fault(self.listeners.as_slice()),
        ))
    }
}

/// The answer of the workers, or where that is fine, of reading what is served until.
fn or_reading(answer: Result<(), NetError>, reading: Result<(), IoFault>) -> Result<(), NetError>
    ensures { result ≡ or_reading answer reading }
{
    match answer {
        Ok(()) => as_net(reading),
        Err(error) => Err(error),
    }
}

/// A fault, as an error of the network.
fn as_net(answer: Result<(), IoFault>) -> Result<(), NetError>
    ensures { result ≡ as_net answer }
{
    match answer {
        Ok(()) => Ok(()),
        Err(fault) => Err(NetError::from(fault)),
    }
}

/// The fault of two answers that is told: that something failed, where one of them says it; else that memory was wanted. So want of memory
/// hides no fault.
pub fn or_later(first: Result<(), IoFault>, later: Result<(), IoFault>) -> Result<(), IoFault>
    ensures { result ≡ or_later first later }
{
    match (first, later) {
        (Ok(()), later) => later,
        (Err(IoFault::Failed), _) => Err(IoFault::Failed),
        (Err(IoFault::OutOfMemory), Ok(())) => Err(IoFault::OutOfMemory),
        (Err(IoFault::OutOfMemory), Err(fault)) => Err(fault),
    }
}

/// The fault of workers that is told: where one failed that is told, whoever wanted memory.
pub fn first_fault<P>(workers: &[Worker<P>]) -> Result<(), IoFault>
    ensures { result ≡ first_fault workers.now }
{
    let mut told = Ok(());
    for worker in workers {
        told = or_later(told, worker.answer);
    }
    told
}

/// Runs all workers, and waits until they have ended.
fn run_all<K: Keeper + Send, U: UdpPort + Send, T: TcpPort + Send, R: Threads + Wait + Sync>(
    rt: &R,
    alloc: Global,
    book: &TicketBook<K>,
    access: &AccessControl,
    sockets: &mut [Worker<U>],
    listeners: &mut [Worker<T>],
)
where
    T::In: Send,
    T::Out: Send,
    T::Time: Send,
    requires sockets { AllByRecursion (IsOf book.now) (their_passes sockets.old) }
    requires listeners { AllByRecursion (IsOf book.now) (their_passes listeners.old) }
    ensures sockets { Matches (ServedSocket K.keeper U.told access.now) sockets.old sockets.new }
    ensures listeners { Matches
        (ServedListener K.keeper (listener_of T.told T.In.source T.Out.sink T.Time.clock) access.now) listeners.old listeners.new }
{
    join_mut(
        rt,
        &mut ||
            requires { AllByRecursion (IsOf book.now) (their_passes sockets.now) }
        { run_sockets(rt, alloc, book, access, sockets) },
        &mut ||
            requires { AllByRecursion (IsOf book.now) (their_passes listeners.now) }
        { run_listeners(rt, alloc, book, access, listeners) },
    );
}

/// Runs all workers, while the caller reads `until` and then stops the token.
fn run_beside<
    K: Keeper + Send,
    U: UdpPort + Send,
    T: TcpPort + Send,
    E: Source,
    R: Threads + Wait + Sync,
>(
    rt: &R,
    alloc: Global,
    book: &TicketBook<K>,
    access: &AccessControl,
    sockets: &mut [Worker<U>],
    listeners: &mut [Worker<T>],
    until: &mut E,
    token: &StopToken,
) -> Result<(), IoFault>
where
    T::In: Send,
    T::Out: Send,
    T::Time: Send,
    requires sockets { AllByRecursion (IsOf book.now) (their_passes sockets.old) }
    requires listeners { AllByRecursion (IsOf book.now) (their_passes listeners.old) }
    ensures sockets { Matches (ServedSocket K.keeper U.told access.now) sockets.old sockets.new }
    ensures listeners { Matches
        (ServedListener K.keeper (listener_of T.told T.In.source T.Out.sink T.Time.clock) access.now) listeners.old listeners.new }
    ensures ended { EndsReading (around E.source.told until.old until.new) result }
    ensures read { (bytes : List ℕ) × Takes (E.source.told until.old).left (E.source.told until.new).left bytes }
    ensures later { (E.source.told until.old).faults ≤ (E.source.told until.new).faults }
{
    let (_, ended) = join_mut(
        rt,
        &mut ||
            requires { AllByRecursion (IsOf book.now) (their_passes sockets.now)
                × AllByRecursion (IsOf book.now) (their_passes listeners.now) }
        { run_all(rt, alloc, book, access, sockets, listeners) },
        &mut || { read_out(rt, until, token) },
    );
    ended
}
