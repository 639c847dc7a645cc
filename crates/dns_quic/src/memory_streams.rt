//! A connection in memory, for tests. It always tells its content, and the calls fail whose numbers it was made with.

ghost use Rattle.std.specs.Prelude.{◌≡◌, ◌⊎◌, ◌+◌, ◌<◌, ◌≤◌, ◌||◌, nat_lt, [], None, IfOk, IfSome, IfNone, IsErrOf};
ghost use Rattle.dns_quic.specs.Connections.{Accepts, Closes, TakesBack};
ghost use Rattle.dns_quic.specs.Memory.{AcceptNext, AreFresh, Answers, OpenNext, returned, streams_told};

use crate::memory_halves::{MemoryRecv, MemorySend};
use crate::open_streams::{OpenStreams, StreamCall};
use dns_io::IoFault;
use dns_transport::LinkFault;
use std::alloc::Global;
use std::collections::LinkedList;
use std::marker::Model;

/// A connection whose streams were handed to it.
#[derive(Drop)]
pub struct MemoryStreams {
    opening: LinkedList<(MemorySend, MemoryRecv)>,
    coming: LinkedList<(MemorySend, MemoryRecv)>,
    failing: Vec<u64>,
    late: Vec<u64>,
    failing_accepts: Vec<u64>,
    calls: Vec<StreamCall<MemorySend, MemoryRecv>>,
    closed: Option<u64>,
    given_out: usize,
    opens: u64,
    accepts: u64,
    faults: u64,
}

impl Model for MemoryStreams {
    ghost use Rattle.std.specs.Prelude.{◌+◌, ◌≤◌};
    ghost use Rattle.std.specs.Vec.{vec_len, vec_capacity};
    ghost use Rattle.dns_quic.specs.Memory.{StreamsState, AreFresh};

    ghost Value = { StreamsState };

    ghost view = { λ c. record {
      opening = c.opening;
      coming = c.coming;
      failing = c.failing.items;
      late = c.late.items;
      failing_accepts = c.failing_accepts.items;
      calls = c.calls.items;
      closed = c.closed;
      given_out = c.given_out;
      opens = c.opens;
      accepts = c.accepts;
      faults = c.faults;
    } };

    ghost invariant = { λ c. (vec_len c.calls + c.given_out ≤ vec_capacity c.calls) × AreFresh c.opening };
}

impl MemoryStreams {
    /// A connection that opens the first streams in turn, whose halves have no fault yet, and accepts the others. Its openings
    /// are counted from 1, and its acceptings apart from them, from 1 too; those whose numbers stand in `failing` or
    /// `failing_accepts` fail, and the openings in `late` are late. An opening for which no stream is left wants memory, and is not
    /// counted among them. The count of faults rises by one at each that fails or is late, and where a half comes back with faults, and
    /// nowhere else.
    pub fn new(
        alloc: Global,
        opening: LinkedList<(MemorySend, MemoryRecv)>,
        coming: LinkedList<(MemorySend, MemoryRecv)>,
        failing: Vec<u64>,
        late: Vec<u64>,
        failing_accepts: Vec<u64>,
    ) -> MemoryStreams
        requires { AreFresh opening }
        ensures { result ≡ record {
          opening = opening;
          coming = coming;
          failing = failing.items;
          late = late.items;
          failing_accepts = failing_accepts.items;
          calls = [];
          closed = None;
          given_out = 0;
          opens = 0;
          accepts = 0;
          faults = 0;
        } }
    {
        MemoryStreams {
            opening,
            coming,
            failing,
            late,
            failing_accepts,
            calls: Vec::new(alloc),
            closed: None,
            given_out: 0,
            opens: 0,
            accepts: 0,
            faults: 0,
        }
    }

    /// Its calls so far.
    pub fn calls(&self) -> &[StreamCall<MemorySend, MemoryRecv>]
        ensures { result.now ≡ self.now.calls }
    {
        self.calls.as_slice()
    }

    /// The first code with which it was closed, if it was.
    pub fn closed(&self) -> Option<u64>
        ensures { result ≡ self.now.closed }
    {
        self.closed
    }

    /// How many faults there were.
    pub fn faults(&self) -> u64
        ensures { result ≡ self.now.faults }
    {
        self.faults
    }
}

impl OpenStreams for MemoryStreams {
    type Out = MemorySend;

    type In = MemoryRecv;

    ghost streams = { record { told = streams_told; opens = OpenNext } };

    fn open(&mut self, limit: Option<u64>) -> Result<(MemorySend, MemoryRecv), LinkFault> {
        let Some(room) = self.given_out.checked_add(2) else {
            return Err(LinkFault::OutOfMemory);
        };
        if self.calls.reserve(room).is_err() {
            return Err(LinkFault::OutOfMemory);
        }
        let number = self.opens.saturating_add(1);
        let Some(answer) = answer(
            &mut self.opening,
            self.failing.as_slice(),
            self.late.as_slice(),
            number,
        ) else {
            return Err(LinkFault::OutOfMemory);
        };
        self.opens = number;
        self.calls.push(StreamCall::Opened(limit)).unwrap();
        match answer {
            Ok(halves) => {
                self.given_out += 1;
                Ok(halves)
            }
            Err(fault) => {
                self.faults = self.faults.saturating_add(1);
                Err(fault)
            }
        }
    }

    fn accept(&mut self) -> Result<Option<(MemorySend, MemoryRecv)>, IoFault>
        ensures told { Accepts (streams_told self.old) (streams_told self.new) result }
        ensures next { AcceptNext self.old result self.new }
    {
        self.accepts = self.accepts.saturating_add(1);
        if self.failing_accepts.contains(&self.accepts) {
            self.faults = self.faults.saturating_add(1);
            return Err(IoFault::Failed);
        }
        Ok(self.coming.pop_front())
    }

    fn close(&mut self, code: u64)
        ensures told { Closes (streams_told self.old) (streams_told self.new) code }
        ensures next { self.new ≡ record self.old { closed = self.new.closed } }
    {
        self.closed = Some(self.closed.unwrap_or(code));
    }

    fn done(&mut self, out: MemorySend, back: MemoryRecv)
        requires { 0 < self.old.given_out }
        ensures told { TakesBack (streams_told self.old) (streams_told self.new) out back out.faults back.faults }
        ensures next { self.new ≡ returned self.old out back }
    {
        if has_faults(&out, &back) {
            self.faults = self.faults.saturating_add(1);
        }
        self.given_out -= 1;
        self.calls.push(StreamCall::Returned(out, back)).unwrap();
    }
}

/// Whether a call of one of these halves failed.
fn has_faults(out: &MemorySend, back: &MemoryRecv) -> bool
    ensures { result ≡ (nat_lt 0 out.now.faults || nat_lt 0 back.now.faults) }
{
    0 < out.faults() || 0 < back.faults()
}

/// What the opening of this number answers, where these fail and these are late; `None` where no stream is left.
fn answer(
    streams: &mut LinkedList<(MemorySend, MemoryRecv)>,
    failing: &[u64],
    late: &[u64],
    number: u64,
) -> Option<Result<(MemorySend, MemoryRecv), LinkFault>>
    ensures answer { IfSome result (λ given. Answers failing.now late.now number streams.old given streams.new) }
    ensures none { IfNone result (streams.new ≡ streams.old) }
    ensures fresh_out { AreFresh streams.old → IfSome result (λ given. IfOk given (λ halves. halves.0.faults ≡ 0)) }
    ensures fresh_in { AreFresh streams.old → IfSome result (λ given. IfOk given (λ halves. halves.1.faults ≡ 0)) }
    ensures rest { AreFresh streams.old → AreFresh streams.new }
    ensures memory { IfSome result (λ given. IsErrOf given LinkFault.OutOfMemory → ⊥) }
{
    if failing.contains(&number) {
        return Some(Err(LinkFault::Failed));
    }
    if late.contains(&number) {
        return Some(Err(LinkFault::Late));
    }
    match streams.pop_front() {
        None => None,
        Some(halves) => Some(Ok(halves)),
    }
}
