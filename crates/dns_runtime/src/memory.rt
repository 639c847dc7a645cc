//! A runtime in memory, for tests: the time that it was made with, handles that keep the last task, and sockets and
//! connections that were handed to it. Its calls fail whose numbers it was made with.

ghost use Rattle.std.specs.Prelude.{◌≡◌, []};
ghost use Rattle.dns_runtime.specs.Datagrams.{Receives, Sends};
ghost use Rattle.dns_runtime.specs.Memory.{ReceivesNext, SendsNext, socket_told};

use crate::sockets::DnsUdpSocket;
use crate::tasks::{Spawn, Time};
use dns_io::{IoFault, Octets, Peer};
use std::alloc::Global;
use std::collections::LinkedList;
use std::marker::Model;

/// A time that stands still.
#[derive(Clone, Copy)]
pub struct MemoryTime {
    /// What it shows, in seconds.
    pub seconds: u64,
}

impl Time for MemoryTime {
    ghost seconds = { λ t. t.seconds };

    fn current_time(&self) -> u64 {
        self.seconds
    }
}

/// Keeps the last task that was handed over, and runs none.
#[derive(Drop)]
pub struct LastTask<T> {
    /// The last task, if any was handed over.
    pub last: Option<T>,
}

impl<T: Drop> Spawn for LastTask<T> {
    type Task = T;

    ghost use Rattle.std.specs.Prelude.{◌≡◌, Some};

    ghost spawns = { λ _ task after. after.last ≡ Some task };

    fn spawn_bg(&mut self, task: T) {
        self.last = Some(task);
    }
}

/// A socket that gives datagrams which were handed to it, and keeps those that it sends.
#[derive(Drop)]
pub struct MemorySocket {
    alloc: Global,
    coming: LinkedList<(Octets, Peer)>,
    sent: Vec<(Octets, Peer)>,
    failing: Vec<u64>,
    calls: u64,
    faults: u64,
}

impl Model for MemorySocket {
    ghost use Rattle.dns_runtime.specs.Memory.{SocketState};

    ghost Value = { SocketState };

    ghost view = { λ s. record { left = s.coming; sent = s.sent.items; failing = s.failing.items; calls = s.calls; faults = s.faults } };
}

impl MemorySocket {
    /// A socket to which these datagrams come, each with its sender. Its calls are counted from 1; those whose numbers stand
    /// in `failing` fail, as does a receiving for which none is left. The count of faults rises by one at each of them, and
    /// nowhere else.
    pub fn new(alloc: Global, coming: LinkedList<(Octets, Peer)>, failing: Vec<u64>) -> MemorySocket
        ensures { result ≡ record { left = coming; sent = []; failing = failing.items; calls = 0; faults = 0 } }
    {
        MemorySocket {
            alloc,
            coming,
            sent: Vec::new(alloc),
            failing,
            calls: 0,
            faults: 0,
        }
    }

    /// The datagrams that it sent, each with its receiver.
    pub fn sent(&self) -> &[(Octets, Peer)]
        ensures { result.now ≡ self.now.sent }
    {
        self.sent.as_slice()
    }
}

impl DnsUdpSocket for MemorySocket {
    ghost told = { socket_told };

    fn recv_from(&mut self, room: &mut [u8]) -> Result<(usize, Peer), IoFault>
        ensures told { Receives (socket_told self.old) (socket_told self.new) room.new result }
        ensures next { ReceivesNext self.old result self.new }
    {
        self.calls = self.calls.saturating_add(1);
        if self.failing.contains(&self.calls) {
            self.faults = self.faults.saturating_add(1);
            return Err(IoFault::Failed);
        }
        match self.coming.pop_front() {
            None => {
                self.faults = self.faults.saturating_add(1);
                Err(IoFault::Failed)
            }
            Some((bytes, from)) => {
                let count = bytes.len().min(room.len());
                room[..count].copy_from_slice(&bytes.as_slice()[..count]);
                Ok((count, from))
            }
        }
    }

    fn send_to(&mut self, bytes: &[u8], to: Peer) -> Result<usize, IoFault>
        ensures told { Sends (socket_told self.old) (socket_told self.new) bytes.now to result }
        ensures next { SendsNext self.old bytes.now to result self.new }
    {
        self.calls = self.calls.saturating_add(1);
        if self.failing.contains(&self.calls) {
            self.faults = self.faults.saturating_add(1);
            return Err(IoFault::Failed);
        }
        let datagram = Octets::from_slice(self.alloc, bytes)?;
        match self.sent.push((datagram, to)) {
            Ok(()) => Ok(bytes.len()),
            Err(_) => Err(IoFault::OutOfMemory),
        }
    }
}
