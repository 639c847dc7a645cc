//! A listener in memory, for tests. It always tells its content, and the calls fail whose numbers it was made with.

ghost use Rattle.std.specs.Prelude.{◌≡◌, ◌<◌, ◌≤◌, ◌+◌, IfOk, vec_len, vec_capacity};
ghost use Rattle.dns_ports.specs.Ports.{Accepts, TakesBack};
ghost use Rattle.dns_ports.specs.Memory.{tcp_of, tcp_told, AcceptsNext, taken_back};

use crate::history::History;
use crate::port::{Accepted, TcpPort};
use dns_edges::{MemoryClock, MemorySink, MemorySource};
use dns_io::{IoFault, OutOfMemory};
use std::alloc::Global;
use std::collections::VecDeque;
use std::marker::Model;

/// A listener to which connections come that were handed to it. It is stopped when none is left.
#[derive(Drop)]
pub struct MemoryTcp {
    coming: VecDeque<Accepted<MemorySource, MemorySink, MemoryClock>>,
    accepted: History<Accepted<MemorySource, MemorySink, MemoryClock>>,
    ended: Vec<Accepted<MemorySource, MemorySink, MemoryClock>>,
    lent: usize,
    failing_accepts: Vec<u64>,
    accepts: u64,
    faults: u64,
}

impl Model for MemoryTcp {
    ghost use Rattle.std.specs.Prelude.{◌≤◌, ◌+◌, vec_len, vec_capacity};
    ghost use Rattle.dns_ports.specs.Memory.{TcpState};

    ghost Value = { TcpState };

    ghost view = { λ s. record {
      left = s.coming.items;
      accepted = s.accepted.items;
      ended = s.ended.items;
      lent = s.lent;
      failing_accepts = s.failing_accepts.items;
      accepts = s.accepts;
      faults = s.faults;
    } };

    ghost invariant = { λ s. vec_len s.ended + s.lent ≤ vec_capacity s.ended };
}

impl MemoryTcp {
    /// A listener to which these connections come, in order. Its accepts are counted from 1, and those whose numbers stand in
    /// `accepts` fail. The count of faults rises by one at each of them, and nowhere else.
    pub fn new(
        alloc: Global,
        arriving: Vec<Accepted<MemorySource, MemorySink, MemoryClock>>,
        accepts: Vec<u64>,
    ) -> MemoryTcp
        ensures { result ≡ tcp_of arriving.items accepts.items }
    {
        MemoryTcp {
            coming: VecDeque::from_vec(arriving),
            accepted: History::new(),
            ended: Vec::new(alloc),
            lent: 0,
            failing_accepts: accepts,
            accepts: 0,
            faults: 0,
        }
    }

    /// The connections that the listener got back, in order.
    pub fn ended(&self) -> &Vec<Accepted<MemorySource, MemorySink, MemoryClock>>
        ensures { result.now.items ≡ self.now.ended }
    {
        &self.ended
    }

    /// How many calls failed.
    pub fn faults(&self) -> u64
        ensures { result ≡ self.now.faults }
    {
        self.faults
    }
}

impl TcpPort for MemoryTcp {
    type In = MemorySource;

    type Out = MemorySink;

    type Time = MemoryClock;

    ghost told = { tcp_told };

    fn accept(&mut self) -> Result<Option<Accepted<MemorySource, MemorySink, MemoryClock>>, IoFault>
        ensures told { Accepts (tcp_told self.old) (tcp_told self.new) result }
        ensures next { AcceptsNext self.old result self.new }
    {
        self.accepts = self.accepts.saturating_add(1);
        if self.failing_accepts.contains(&self.accepts) {
            self.faults = self.faults.saturating_add(1);
            return Err(IoFault::Failed);
        }
        let lent = room_for_more(&mut self.ended, self.lent, 1)?;
        let Some(connection) = self.coming.pop_front() else {
            return Ok(None);
        };
        self.accepted = self.accepted.and(&connection);
        self.lent = lent;
        Ok(Some(connection))
    }

    fn done(&mut self, connection: Accepted<MemorySource, MemorySink, MemoryClock>)
        requires { 0 < self.old.lent }
        ensures told { TakesBack (tcp_told self.old) (tcp_told self.new) connection }
        ensures next { self.new ≡ taken_back self.old connection }
    {
        self.ended.push_reserved(connection);
        self.lent -= 1;
    }
}

/// Makes room for so many items, which are lent, and for so many more; tells how many that are.
pub(crate) fn room_for_more<T>(
    items: &mut Vec<T>,
    lent: usize,
    more: usize,
) -> Result<usize, OutOfMemory>
    ensures items { items.new.items ≡ items.old.items }
    ensures grown { vec_capacity items.old ≤ vec_capacity items.new }
    ensures room { IfOk result (λ count. vec_len items.new + count ≤ vec_capacity items.new) }
    ensures count { IfOk result (λ count. count ≡ lent + more) }
{
    let Some(count) = lent.checked_add(more) else {
        return Err(OutOfMemory);
    };
    items.reserve(count)?;
    Ok(count)
}
