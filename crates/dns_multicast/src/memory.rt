//! A source of packets in memory, for tests. It always tells its content, and the calls fail whose numbers it was made with.

ghost use Rattle.std.specs.Prelude.{◌≡◌};
ghost use Rattle.dns_multicast.specs.Memory.{PacketNext, packets_told};
ghost use Rattle.dns_multicast.specs.Polls.{Polls};

use crate::packet::{Packet, PacketPoll};
use dns_io::IoFault;
use dns_transport::Poll;
use std::collections::LinkedList;
use std::marker::Model;

/// A source of packets that were handed to it. It never wants memory.
#[derive(Drop)]
pub struct MemoryPackets {
    packets: LinkedList<Packet>,
    failing: Vec<u64>,
    pending: Vec<u64>,
    calls: u64,
    faults: u64,
}

impl Model for MemoryPackets {
    ghost use Rattle.dns_multicast.specs.Memory.{PacketsState};

    ghost Value = { PacketsState };

    ghost view = { λ s. record { left = s.packets; failing = s.failing.items; pending = s.pending.items; calls = s.calls; faults = s.faults } };
}

impl MemoryPackets {
    /// A source of these packets. Its calls are counted from 1; those whose numbers stand in `failing` fail, and of the others
    /// those in `pending` find nothing yet. The count of faults rises by one at each call that fails, and nowhere else.
    pub fn new(packets: LinkedList<Packet>, failing: Vec<u64>, pending: Vec<u64>) -> MemoryPackets
        ensures { result ≡ record { left = packets; failing = failing.items; pending = pending.items; calls = 0; faults = 0 } }
    {
        MemoryPackets {
            packets,
            failing,
            pending,
            calls: 0,
            faults: 0,
        }
    }
}

impl PacketPoll for MemoryPackets {
    ghost packets = { record { told = packets_told; polls = PacketNext } };

    fn poll_packet(&mut self) -> Poll<Option<Result<Packet, IoFault>>> {
        self.calls = self.calls.saturating_add(1);
        if self.failing.contains(&self.calls) {
            self.faults = self.faults.saturating_add(1);
            return Poll::Ready(Some(Err(IoFault::Failed)));
        }
        if self.pending.contains(&self.calls) {
            return Poll::Pending;
        }
        match self.packets.pop_front() {
            None => Poll::Ready(None),
            Some(packet) => Poll::Ready(Some(Ok(packet))),
        }
    }
}
