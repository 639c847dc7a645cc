//! A source, a sink and a clock in memory, for tests and for input that is there already. They always tell their
//! content, and the calls fail whose numbers they were made with.

ghost use Rattle.std.specs.Prelude.{◌≡◌, ◌<◌, ◌≤◌, ◌^◌, ℕ, [], Some, length, take, drop, All, IsErrOf, IfOk, OnOk, OnErr};
ghost use Rattle.dns_edges.specs.Edges.{Reads, Writes, Flushes, given_by, wanted};
ghost use Rattle.dns_edges.specs.Memory.{ReadsNext, WritesNext, FlushesNext, IsNextReading, empty_sink, source_told, sink_told};

use crate::clock::Clock;
use crate::sink::Sink;
use crate::source::Source;
use dns_io::{IoFault, Octets};
use std::alloc::Global;
use std::marker::Model;

/// A source over bytes in memory.
///
/// A read that does not fail gives as many bytes as its step, the room and what is left allow.
#[derive(Drop)]
pub struct MemorySource {
    bytes: Octets,
    place: usize,
    step: usize,
    failing_reads: Vec<u64>,
    reads: u64,
    faults: u64,
}

impl Model for MemorySource {
    ghost use Rattle.std.specs.Prelude.{◌<◌, ◌≤◌, length, drop};
    ghost use Rattle.dns_edges.specs.Memory.{SourceState};

    ghost Value = { SourceState };

    ghost view = { λ s. record { left = drop s.place s.bytes; step = s.step; failing_reads = s.failing_reads.items; reads = s.reads; faults = s.faults } };

    ghost invariant = { λ s. (s.place ≤ length s.bytes) × (0 < s.step) };
}

impl MemorySource {
    /// A source of these bytes. A read gives at most `step` of them. Its reads are counted from 1, and those whose
    /// numbers stand in `failing_reads` fail; the count of faults rises by one at each of them, and nowhere else.
    pub fn new(bytes: Octets, step: usize, failing_reads: Vec<u64>) -> MemorySource
        requires { 0 < step }
        ensures { result ≡ record { left = bytes; step = step; failing_reads = failing_reads.items; reads = 0; faults = 0 } }
    {
        MemorySource {
            bytes,
            place: 0,
            step,
            failing_reads,
            reads: 0,
            faults: 0,
        }
    }
}

impl Source for MemorySource {
    ghost source = { record { told = source_told; reads = ReadsNext } };

    fn read(&mut self, room: &mut [u8]) -> Result<usize, IoFault>
        requires { 0 < length room.old }
        ensures told { Reads (source_told self.old) (source_told self.new) room.new result }
        ensures next { ReadsNext self.old (length room.old) (given_by room.new result) self.new }
        ensures behind { IfOk result (λ n. drop n room.new ≡ drop n room.old) }
        ensures untouched { OnErr result (room.new ≡ room.old) }
    {
        self.reads = self.reads.saturating_add(1);
        if self.failing_reads.contains(&self.reads) {
            self.faults = self.faults.saturating_add(1);
            return Err(IoFault::Failed);
        }
        let (_, left) = self.bytes.as_slice().split_at(self.place);
        let count = left.len().min(self.step).min(room.len());
        room[..count].copy_from_slice(&left[..count]);
        self.place += count;
        Ok(count)
    }
}

/// A sink that keeps in memory what it takes.
///
/// A write that does not fail takes as many bytes as its step and the piece allow, or answers that memory ran out.
#[derive(Drop)]
pub struct MemorySink {
    bytes: Octets,
    flushed: usize,
    step: usize,
    failing_writes: Vec<u64>,
    failing_flushes: Vec<u64>,
    writes: u64,
    flushes: u64,
    faults: u64,
    wants: u64,
}

impl Model for MemorySink {
    ghost use Rattle.std.specs.Prelude.{◌<◌, ◌≤◌, length, take};
    ghost use Rattle.dns_edges.specs.Memory.{SinkState};

    ghost Value = { SinkState };

    ghost view = { λ s. record {
      taken = s.bytes;
      flushed = take s.flushed s.bytes;
      step = s.step;
      failing_writes = s.failing_writes.items;
      failing_flushes = s.failing_flushes.items;
      writes = s.writes;
      flushes = s.flushes;
      faults = s.faults;
      wants = s.wants;
    } };

    ghost invariant = { λ s. (s.flushed ≤ length s.bytes) × (0 < s.step) };
}

impl MemorySink {
    /// A sink that took nothing, and of which no flush fails; else as `with_failing_flushes`.
    pub fn new(alloc: Global, step: usize, failing_writes: Vec<u64>) -> MemorySink
        requires { 0 < step }
        ensures { result ≡ empty_sink step failing_writes.items [] }
    {
        MemorySink::with_failing_flushes(alloc, step, failing_writes, Vec::new(alloc))
    }

    /// A sink that took nothing. A write takes at most `step` bytes. Its writes are counted from 1, and its flushes
    /// apart from them, from 1 too; those whose numbers stand in `failing_writes` or `failing_flushes` fail. The count of
    /// faults rises by one at each of them, and nowhere else; that of wants of memory at each write that answers it.
    pub fn with_failing_flushes(
        alloc: Global,
        step: usize,
        failing_writes: Vec<u64>,
        failing_flushes: Vec<u64>,
    ) -> MemorySink
        requires { 0 < step }
        ensures { result ≡ empty_sink step failing_writes.items failing_flushes.items }
    {
        MemorySink {
            bytes: Octets::new(alloc),
            flushed: 0,
            step,
            failing_writes,
            failing_flushes,
            writes: 0,
            flushes: 0,
            faults: 0,
            wants: 0,
        }
    }

    /// The bytes that it took.
    pub fn taken(&self) -> &Octets
        ensures { result.now ≡ self.now.taken }
    {
        &self.bytes
    }

    /// Those of the bytes taken that were flushed.
    pub fn flushed(&self) -> &[u8]
        ensures { result.now ≡ self.now.flushed }
    {
        let (flushed, _) = self.bytes.as_slice().split_at(self.flushed);
        flushed
    }
}

impl Sink for MemorySink {
    ghost sink = { record { told = sink_told; writes = WritesNext; wants = λ s. s.wants } };

    fn write(&mut self, bytes: &[u8]) -> Result<usize, IoFault> {
        self.writes = self.writes.saturating_add(1);
        if self.failing_writes.contains(&self.writes) {
            self.faults = self.faults.saturating_add(1);
            return Err(IoFault::Failed);
        }
        let count = bytes.len().min(self.step);
        let (front, _) = bytes.split_at(count);
        if self.bytes.append(front).is_err() {
            self.wants = self.wants.saturating_add(1);
            return Err(IoFault::OutOfMemory);
        }
        Ok(count)
    }

    fn flush(&mut self) -> Result<(), IoFault>
        ensures told { Flushes (sink_told self.old) (sink_told self.new) result }
        ensures next { FlushesNext self.old result self.new }
        ensures wanted { self.new.wants ≡ wanted self.old.wants result }
    {
        self.flushes = self.flushes.saturating_add(1);
        if self.failing_flushes.contains(&self.flushes) {
            self.faults = self.faults.saturating_add(1);
            return Err(IoFault::Failed);
        }
        self.flushed = self.bytes.len();
        Ok(())
    }
}

/// A clock that gives readings which were handed to it.
#[derive(Drop)]
pub struct MemoryClock {
    readings: Vec<u64>,
    place: usize,
    last: u64,
}

impl Model for MemoryClock {
    ghost use Rattle.std.specs.Prelude.{◌<◌, ◌≤◌, ◌^◌, length, drop, All};
    ghost use Rattle.dns_edges.specs.Memory.{ClockState};

    ghost Value = { ClockState };

    ghost view = { λ c. record { coming = drop c.place c.readings.items; last = c.last } };

    ghost invariant = { λ c. (c.last < 2 ^ 47) × All (λ r. r < 2 ^ 47) c.readings.items };
}

impl MemoryClock {
    /// A clock that gives these readings in turn, each below 2^47, then the last one again; 0 where there is none.
    pub fn new(readings: Vec<u64>) -> MemoryClock
        requires { All (λ reading. reading < 2 ^ 47) readings.items }
        ensures { result ≡ record { coming = readings.items; last = 0 } }
    {
        MemoryClock {
            readings,
            place: 0,
            last: 0,
        }
    }
}

impl Clock for MemoryClock {
    ghost clock = { record { last = λ c. c.last; ticks = IsNextReading } };

    fn now(&mut self) -> u64 {
        if let Some(&reading) = self.readings.get(self.place) {
            self.place += 1;
            self.last = reading;
        }
        self.last
    }
}
