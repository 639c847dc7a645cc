//! A socket of datagrams in memory, for tests. It always tells its content, and the calls fail whose numbers it was made
//! with.

ghost use Rattle.std.specs.Prelude.{◌≡◌, ◌<◌, ◌≤◌, ◌^◌, Some, length, All, IfSome};
ghost use Rattle.dns_ports.specs.Ports.{came_into, Receives, Answers};
ghost use Rattle.dns_ports.specs.Memory.{MayArrive, udp_of, udp_told, first_of, received_from, ReceivesNext, AnswersNext};

use crate::port::{Arrived, UdpPort};
use dns_io::{IoFault, Octets, Peer};
use std::alloc::Global;
use std::marker::Model;

/// A socket at which datagrams arrive that were handed to it. It is stopped when none is left.
#[derive(Drop)]
pub struct MemoryUdp {
    alloc: Global,
    datagrams: Vec<(Octets, Peer, u64)>,
    place: usize,
    taken: Vec<(Octets, Peer)>,
    failing_receives: Vec<u64>,
    failing_answers: Vec<u64>,
    receives: u64,
    answers: u64,
    faults: u64,
}

impl Model for MemoryUdp {
    ghost use Rattle.std.specs.Prelude.{◌≤◌, length, take, drop, All};
    ghost use Rattle.dns_ports.specs.Memory.{UdpState, MayArrive};

    ghost Value = { UdpState };

    ghost view = { λ s. record {
      left = drop s.place s.datagrams.items;
      received = take s.place s.datagrams.items;
      taken = s.taken.items;
      failing_receives = s.failing_receives.items;
      failing_answers = s.failing_answers.items;
      receives = s.receives;
      answers = s.answers;
      faults = s.faults;
    } };

    ghost invariant = { λ s. (s.place ≤ length s.datagrams.items) × All MayArrive s.datagrams.items };
}

impl MemoryUdp {
    /// A socket at which these datagrams arrive in order, each of at most 65,535 bytes, with its sender and the moment at
    /// which it comes, below 2^47. Its receives are counted from 1, and its answers apart from them, from 1 too; those whose
    /// numbers stand in `receives` or `answers` fail. The count of faults rises by one at each of them, and nowhere else.
    pub fn new(
        alloc: Global,
        arriving: Vec<(Octets, Peer, u64)>,
        receives: Vec<u64>,
        answers: Vec<u64>,
    ) -> MemoryUdp
        requires { All MayArrive arriving.items }
        ensures { result ≡ udp_of arriving.items receives.items answers.items }
    {
        MemoryUdp {
            alloc,
            datagrams: arriving,
            place: 0,
            taken: Vec::new(alloc),
            failing_receives: receives,
            failing_answers: answers,
            receives: 0,
            answers: 0,
            faults: 0,
        }
    }

    /// The answers that the socket took, each with its receiver, in order.
    pub fn taken(&self) -> &Vec<(Octets, Peer)>
        ensures { result.now.items ≡ self.now.taken }
    {
        &self.taken
    }

    /// How many calls failed.
    pub fn faults(&self) -> u64
        ensures { result ≡ self.now.faults }
    {
        self.faults
    }

    /// Puts the next datagram at the front of the room, where one is left.
    fn next(&mut self, room: &mut [u8]) -> Option<Arrived>
        requires { 65535 ≤ length room.old }
        ensures came { came_into room.new result ≡ first_of self.old.left }
        ensures next { self.new ≡ received_from self.old.left self.old }
        ensures size { IfSome result (λ arrived. arrived.len ≤ 65535) }
        ensures moment { IfSome result (λ arrived. arrived.at < 2 ^ 47) }
    {
        let datagram = self.datagrams.get(self.place)?;
        let arrived = put(datagram, room);
        self.place += 1;
        Some(arrived)
    }
}

impl UdpPort for MemoryUdp {
    ghost told = { udp_told };

    fn receive(&mut self, room: &mut [u8]) -> Result<Option<Arrived>, IoFault>
        requires { 65535 ≤ length room.old }
        ensures told { Receives (udp_told self.old) (udp_told self.new) room.new result }
        ensures next { ReceivesNext self.old result self.new room.new }
    {
        self.receives = self.receives.saturating_add(1);
        if self.failing_receives.contains(&self.receives) {
            self.faults = self.faults.saturating_add(1);
            return Err(IoFault::Failed);
        }
        Ok(self.next(room))
    }

    fn answer(&mut self, to: Peer, bytes: &[u8]) -> Result<(), IoFault>
        ensures told { Answers (udp_told self.old) (udp_told self.new) (bytes.now, to) result }
        ensures next { AnswersNext self.old (bytes.now, to) result self.new }
    {
        self.answers = self.answers.saturating_add(1);
        if self.failing_answers.contains(&self.answers) {
            self.faults = self.faults.saturating_add(1);
            return Err(IoFault::Failed);
        }
        let reply = Octets::from_slice(self.alloc, bytes)?;
        match self.taken.push((reply, to)) {
            Ok(()) => Ok(()),
            Err(_) => Err(IoFault::OutOfMemory),
        }
    }
}

/// Puts a datagram at the front of the room.
fn put(datagram: &(Octets, Peer, u64), room: &mut [u8]) -> Arrived
    requires { length datagram.now.0 ≤ length room.old }
    ensures came { came_into room.new (Some result) ≡ Some datagram.now }
    ensures size { result.len ≡ length datagram.now.0 }
    ensures moment { result.at ≡ datagram.now.2 }
{
    let (bytes, from, at) = datagram;
    let len = bytes.len();
    room[..len].copy_from_slice(bytes.as_slice());
    Arrived {
        len,
        from: *from,
        at: *at,
    }
}
