//! A crowd in memory, for tests. It always tells its content, and the calls fail whose numbers it was made with.

ghost use Rattle.std.specs.Prelude.{◌≡◌, ◌≤◌, length, map, None};
ghost use Rattle.dns_crowd.specs.Crowds.{AllMayCome, Closes, Gives, Sends, event_by};
ghost use Rattle.dns_crowd.specs.Memory.{crowd_of, crowd_told};

use crate::coming::Coming;
use crate::crowd::Crowd;
use dns_io::{IoFault, Octets};
use dns_readiness::Came;
use std::alloc::Global;
use std::collections::VecDeque;
use std::marker::Model;

/// A crowd to which this comes, in order. It is stopped when nothing is left.
#[derive(Drop)]
pub struct MemoryCrowd {
    alloc: Global,
    coming: VecDeque<Coming>,
    taken: Vec<(u32, Octets)>,
    closed: Vec<u32>,
    last: u64,
    greatest: Option<u32>,
    failing_nexts: Vec<u64>,
    failing_sends: Vec<u64>,
    nexts: u64,
    sends: u64,
    faults: u64,
}

impl Model for MemoryCrowd {
    ghost use Rattle.dns_crowd.specs.Memory.{CrowdState, IsToCome};

    ghost Value = { CrowdState };

    ghost view = { λ s. record {
      left = s.coming.items;
      taken = s.taken.items;
      closed = s.closed.items;
      last = s.last;
      greatest = s.greatest;
      failing_nexts = s.failing_nexts.items;
      failing_sends = s.failing_sends.items;
      nexts = s.nexts;
      sends = s.sends;
      faults = s.faults;
    } };

    ghost invariant = { λ s. IsToCome (record {
      left = s.coming.items;
      taken = s.taken.items;
      closed = s.closed.items;
      last = s.last;
      greatest = s.greatest;
      failing_nexts = s.failing_nexts.items;
      failing_sends = s.failing_sends.items;
      nexts = s.nexts;
      sends = s.sends;
      faults = s.faults;
    }) };
}

impl MemoryCrowd {
    /// A crowd to which this comes, in order. Its calls for what comes next are counted from 1, and so are its sendings; those whose
    /// numbers stand in `nexts` and in `sends` fail. The count of faults rises by one at each of them, and nowhere else.
    pub fn new(alloc: Global, coming: Vec<Coming>, nexts: Vec<u64>, sends: Vec<u64>) -> MemoryCrowd
        requires { AllMayCome 0 None (map event_by coming.items) }
        ensures { result ≡ crowd_of coming.items nexts.items sends.items }
    {
        MemoryCrowd {
            alloc,
            coming: VecDeque::from_vec(coming),
            taken: Vec::new(alloc),
            closed: Vec::new(alloc),
            last: 0,
            greatest: None,
            failing_nexts: nexts,
            failing_sends: sends,
            nexts: 0,
            sends: 0,
            faults: 0,
        }
    }

    /// The writings that it took, each with the number of its connection, in order.
    pub fn taken(&self) -> &Vec<(u32, Octets)>
        ensures { result.now.items ≡ self.now.taken }
    {
        &self.taken
    }

    /// The connections that were closed, in order.
    pub fn closed(&self) -> &Vec<u32>
        ensures { result.now.items ≡ self.now.closed }
    {
        &self.closed
    }

    /// How many calls failed.
    pub fn faults(&self) -> u64
        ensures { result ≡ self.now.faults }
    {
        self.faults
    }
}

impl Crowd for MemoryCrowd {
    ghost told = { crowd_told };

    fn next(&mut self, room: &mut [u8]) -> Result<Option<Came>, IoFault>
        requires { 65535 ≤ length room.old }
        ensures told { Gives (crowd_told self.old) (crowd_told self.new) room.new result }
    {
        self.nexts = self.nexts.saturating_add(1);
        if self.failing_nexts.contains(&self.nexts) {
            self.faults = self.faults.saturating_add(1);
            return Err(IoFault::Failed);
        }
        let Some(coming) = self.coming.pop_front() else {
            return Ok(None);
        };
        let came = coming.put(room);
        self.last = came.moment();
        self.greatest = came.greatest_behind(self.greatest);
        Ok(Some(came))
    }

    fn send(&mut self, conn: u32, bytes: &[u8]) -> Result<(), IoFault>
        ensures told { Sends (crowd_told self.old) (crowd_told self.new) conn bytes.now result }
    {
        self.sends = self.sends.saturating_add(1);
        if self.failing_sends.contains(&self.sends) {
            self.faults = self.faults.saturating_add(1);
            return Err(IoFault::Failed);
        }
        let bytes = Octets::from_slice(self.alloc, bytes)?;
        match self.taken.push((conn, bytes)) {
            Ok(()) => Ok(()),
            Err(_) => Err(IoFault::OutOfMemory),
        }
    }

    fn close(&mut self, conn: u32) -> Result<(), IoFault>
        ensures told { Closes (crowd_told self.old) (crowd_told self.new) conn result }
    {
        match self.closed.push(conn) {
            Ok(()) => Ok(()),
            Err(_) => Err(IoFault::OutOfMemory),
        }
    }
}
