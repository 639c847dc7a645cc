//! The halves of a stream in memory, for tests. They always tell their content, and the calls fail whose numbers they were
//! made with.

ghost use Rattle.std.specs.Prelude.{◌≡◌, ◌⊎◌, ◌<◌, ◌≤◌, ◌++◌, [], List, ℕ, Some, length, min, take};
ghost use Rattle.dns_edges.specs.Edges.{HasCause};
ghost use Rattle.dns_io.specs.Told.{GrowsByPrefix};
ghost use Rattle.dns_quic.specs.Halves.{Writes, Finishes, Reads, StopsBy};
ghost use Rattle.dns_quic.specs.Memory.{WriteNext, EndNext, ReadNext, StopNext, send_told, recv_told};
ghost use Rattle.dns_quic.specs.declared.halves.StreamEnd.TheVariants.{Finished, Reset};

use crate::halves::{RecvHalf, SendHalf, StreamEnd};
use dns_io::{IoFault, Octets};
use std::alloc::Global;
use std::marker::Model;

/// A sending half that keeps in memory what it takes.
#[derive(Drop)]
pub struct MemorySend {
    bytes: Octets,
    partly: usize,
    ends: Vec<StreamEnd>,
    failing: Vec<u64>,
    calls: u64,
    faults: u64,
}

impl Model for MemorySend {
    ghost use Rattle.dns_quic.specs.Memory.{SendState};

    ghost Value = { SendState };

    ghost view = { λ s. record {
      taken = s.bytes;
      partly = s.partly;
      ends = s.ends.items;
      failing = s.failing.items;
      calls = s.calls;
      faults = s.faults;
    } };
}

impl MemorySend {
    /// A half that took nothing. Its calls are counted from 1, and those whose numbers stand in `failing` fail; a write that
    /// fails still takes at most `partly` of its bytes, from the front. The count of faults rises by one at each of them,
    /// and nowhere else.
    pub fn new(alloc: Global, partly: usize, failing: Vec<u64>) -> MemorySend
        ensures { result ≡ record { taken = []; partly = partly; ends = []; failing = failing.items; calls = 0; faults = 0 } }
    {
        MemorySend {
            bytes: Octets::new(alloc),
            partly,
            ends: Vec::new(alloc),
            failing,
            calls: 0,
            faults: 0,
        }
    }

    /// The bytes that it took.
    pub fn taken(&self) -> &Octets
        ensures { result.now ≡ self.now.taken }
    {
        &self.bytes
    }

    /// How it was ended, call by call.
    pub fn ends(&self) -> &[StreamEnd]
        ensures { result.now ≡ self.now.ends }
    {
        self.ends.as_slice()
    }

    /// How many calls failed.
    pub fn faults(&self) -> u64
        ensures { result ≡ self.now.faults }
    {
        self.faults
    }

    /// Ends it, or fails.
    fn end(&mut self, end: StreamEnd) -> Result<(), IoFault>
        ensures next { EndNext self.old end result self.new }
        ensures cause { HasCause self.old.faults self.new.faults result }
    {
        self.calls = self.calls.saturating_add(1);
        if self.failing.contains(&self.calls) {
            self.faults = self.faults.saturating_add(1);
            return Err(IoFault::Failed);
        }
        match self.ends.push(end) {
            Ok(()) => Ok(()),
            Err(_) => Err(IoFault::OutOfMemory),
        }
    }
}

impl SendHalf for MemorySend {
    ghost sending = { record { told = send_told; ending = EndNext } };

    fn write(&mut self, bytes: &[u8]) -> Result<(), IoFault>
        ensures told { Writes (send_told self.old) (send_told self.new) bytes.now result }
        ensures next { WriteNext self.old bytes.now result self.new }
    {
        self.calls = self.calls.saturating_add(1);
        if self.failing.contains(&self.calls) {
            self.faults = self.faults.saturating_add(1);
            take_front(&mut self.bytes, bytes, self.partly);
            return Err(IoFault::Failed);
        }
        self.bytes.append(bytes)?;
        Ok(())
    }

    fn finish(&mut self) -> Result<(), IoFault>
        ensures told { Finishes (send_told self.old) (send_told self.new) Finished result }
        ensures next { EndNext self.old Finished result self.new }
    {
        self.end(StreamEnd::Finished)
    }

    fn reset(&mut self, code: u64) -> Result<(), IoFault>
        ensures told { Finishes (send_told self.old) (send_told self.new) (Reset code) result }
        ensures next { EndNext self.old (Reset code) result self.new }
    {
        self.end(StreamEnd::Reset(code))
    }
}

/// Takes at most so many of the bytes, from the front, or none where memory runs out.
fn take_front(taken: &mut Octets, bytes: &[u8], most: usize)
    ensures grown { (rest : List ℕ) × GrowsByPrefix (Some taken.old) (Some taken.new) bytes.now rest }
    ensures next { (taken.new ≡ taken.old ++ take (min (length bytes.now) most) bytes.now) ⊎ (taken.new ≡ taken.old) }
{
    let (front, _) = bytes.split_at(bytes.len().min(most));
    match taken.append(front) {
        Ok(()) => (),
        Err(_) => (),
    }
}

/// A receiving half over bytes in memory.
#[derive(Drop)]
pub struct MemoryRecv {
    alloc: Global,
    bytes: Octets,
    place: usize,
    step: usize,
    stops: Vec<u64>,
    failing: Vec<u64>,
    calls: u64,
    faults: u64,
}

impl Model for MemoryRecv {
    ghost use Rattle.std.specs.Prelude.{◌<◌, ◌≤◌, length, drop};
    ghost use Rattle.dns_quic.specs.Memory.{RecvState};

    ghost Value = { RecvState };

    ghost view = { λ r. record {
      left = drop r.place r.bytes;
      step = r.step;
      stops = r.stops.items;
      failing = r.failing.items;
      calls = r.calls;
      faults = r.faults;
    } };

    ghost invariant = { λ r. (r.place ≤ length r.bytes) × (0 < r.step) };
}

impl MemoryRecv {
    /// A half of these bytes. A read gives at most `step` of them. Its calls are counted from 1, and those whose numbers
    /// stand in `failing` fail; the count of faults rises by one at each of them, and nowhere else.
    pub fn new(alloc: Global, bytes: Octets, step: usize, failing: Vec<u64>) -> MemoryRecv
        requires { 0 < step }
        ensures { result ≡ record { left = bytes; step = step; stops = []; failing = failing.items; calls = 0; faults = 0 } }
    {
        MemoryRecv {
            alloc,
            bytes,
            place: 0,
            step,
            stops: Vec::new(alloc),
            failing,
            calls: 0,
            faults: 0,
        }
    }

    /// The codes with which it was stopped.
    pub fn stops(&self) -> &[u64]
        ensures { result.now ≡ self.now.stops }
    {
        self.stops.as_slice()
    }

    /// How many calls failed.
    pub fn faults(&self) -> u64
        ensures { result ≡ self.now.faults }
    {
        self.faults
    }
}

impl RecvHalf for MemoryRecv {
    ghost told = { recv_told };

    fn read(&mut self, most: usize) -> Result<Option<Octets>, IoFault>
        requires { 0 < most }
        ensures told { Reads (recv_told self.old) (recv_told self.new) most result }
        ensures next { ReadNext self.old most result self.new }
    {
        self.calls = self.calls.saturating_add(1);
        if self.failing.contains(&self.calls) {
            self.faults = self.faults.saturating_add(1);
            return Err(IoFault::Failed);
        }
        let (_, left) = self.bytes.as_slice().split_at(self.place);
        if left.is_empty() {
            return Ok(None);
        }
        let count = left.len().min(self.step).min(most);
        let (front, _) = left.split_at(count);
        let piece = Octets::from_slice(self.alloc, front)?;
        self.place += count;
        Ok(Some(piece))
    }

    fn stop(&mut self, code: u64) -> Result<(), IoFault>
        ensures told { StopsBy (recv_told self.old) (recv_told self.new) code result }
        ensures next { StopNext self.old code result self.new }
    {
        self.calls = self.calls.saturating_add(1);
        if self.failing.contains(&self.calls) {
            self.faults = self.faults.saturating_add(1);
            return Err(IoFault::Failed);
        }
        match self.stops.push(code) {
            Ok(()) => Ok(()),
            Err(_) => Err(IoFault::OutOfMemory),
        }
    }
}
