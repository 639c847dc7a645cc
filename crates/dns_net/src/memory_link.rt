//! A link in memory, for tests. It always tells its calls, and the exchanges fail whose numbers it was made with.

ghost use Rattle.std.specs.Prelude.{◌≡◌, ◌+◌, ◌<◌, ◌≤◌, [], IfOk, IfSome, IfNone, IsErrOf};
ghost use Rattle.http.specs.Response.{body_of};
ghost use Rattle.dns_net.specs.Links.{TakesBack};
ghost use Rattle.dns_net.specs.Memory.{AreFresh, Answers, ExchangeNext, link_told, returned};

use crate::link::{HttpLink, LinkCall};
use crate::memory::MemoryBody;
use dns_io::Octets;
use dns_transport::LinkFault;
use http::{Request, Response};
use std::alloc::Global;
use std::collections::LinkedList;
use std::marker::Model;

/// A link that gives responses which were handed to it.
#[derive(Drop)]
pub struct MemoryLink {
    responses: LinkedList<Response<MemoryBody>>,
    failing: Vec<u64>,
    late: Vec<u64>,
    calls: Vec<LinkCall<MemoryBody>>,
    given_out: usize,
    exchanges: u64,
    faults: u64,
}

impl Model for MemoryLink {
    ghost use Rattle.std.specs.Prelude.{◌+◌, ◌≤◌};
    ghost use Rattle.std.specs.Vec.{vec_len, vec_capacity};
    ghost use Rattle.dns_net.specs.Memory.{LinkState, AreFresh};

    ghost Value = { LinkState };

    ghost view = { λ l. record {
      responses = l.responses;
      failing = l.failing.items;
      late = l.late.items;
      calls = l.calls.items;
      given_out = l.given_out;
      exchanges = l.exchanges;
      faults = l.faults;
    } };

    ghost invariant = { λ l. (vec_len l.calls + l.given_out ≤ vec_capacity l.calls) × AreFresh l.responses };
}

impl MemoryLink {
    /// A link that gives these responses in turn, whose bodies have no fault yet. Its exchanges are counted from 1;
    /// those whose numbers stand in `failing` fail, and those in `late` are late. An exchange for which no response is left wants
    /// memory, and is not counted among them. The count of faults rises by one at each that fails or is late, and where a body comes
    /// back with faults, and nowhere else.
    pub fn new(
        alloc: Global,
        responses: LinkedList<Response<MemoryBody>>,
        failing: Vec<u64>,
        late: Vec<u64>,
    ) -> MemoryLink
        requires { AreFresh responses }
        ensures { result ≡ record
            { responses = responses; failing = failing.items; late = late.items; calls = []; given_out = 0; exchanges = 0; faults = 0 } }
    {
        MemoryLink {
            responses,
            failing,
            late,
            calls: Vec::new(alloc),
            given_out: 0,
            exchanges: 0,
            faults: 0,
        }
    }

    /// Its calls so far.
    pub fn calls(&self) -> &[LinkCall<MemoryBody>]
        ensures { result.now ≡ self.now.calls }
    {
        self.calls.as_slice()
    }

    /// How many faults there were.
    pub fn faults(&self) -> u64
        ensures { result ≡ self.now.faults }
    {
        self.faults
    }
}

impl HttpLink for MemoryLink {
    type Body = MemoryBody;

    ghost link = { record { told = link_told; exchanges = ExchangeNext } };

    fn exchange(
        &mut self,
        request: Request<Octets>,
        limit: Option<u64>,
    ) -> Result<Response<MemoryBody>, LinkFault> {
        let Some(room) = self.given_out.checked_add(2) else {
            return Err(LinkFault::OutOfMemory);
        };
        if self.calls.reserve(room).is_err() {
            return Err(LinkFault::OutOfMemory);
        }
        let number = self.exchanges.saturating_add(1);
        let Some(answer) = answer(
            &mut self.responses,
            self.failing.as_slice(),
            self.late.as_slice(),
            number,
        ) else {
            return Err(LinkFault::OutOfMemory);
        };
        self.exchanges = number;
        self.calls
            .push(LinkCall::Exchanged(request, limit))
            .unwrap();
        match answer {
            Ok(response) => {
                self.given_out += 1;
                Ok(response)
            }
            Err(fault) => {
                self.faults = self.faults.saturating_add(1);
                Err(fault)
            }
        }
    }

    fn done(&mut self, body: MemoryBody)
        requires { 0 < self.old.given_out }
        ensures told { TakesBack (link_told self.old) (link_told self.new) body body.faults }
        ensures next { self.new ≡ returned self.old body }
    {
        if body.has_faults() {
            self.faults = self.faults.saturating_add(1);
        }
        self.given_out -= 1;
        self.calls.push(LinkCall::Returned(body)).unwrap();
    }
}

/// What the exchange of this number answers, where these fail and these are late; `None` where no response is left.
fn answer(
    responses: &mut LinkedList<Response<MemoryBody>>,
    failing: &[u64],
    late: &[u64],
    number: u64,
) -> Option<Result<Response<MemoryBody>, LinkFault>>
    ensures answer { IfSome result (λ given. Answers failing.now late.now number responses.old given responses.new) }
    ensures none { IfNone result (responses.new ≡ responses.old) }
    ensures fresh { AreFresh responses.old → IfSome result (λ given. IfOk given (λ response. (body_of response).faults ≡ 0)) }
    ensures rest { AreFresh responses.old → AreFresh responses.new }
    ensures memory { IfSome result (λ given. IsErrOf given LinkFault.OutOfMemory → ⊥) }
{
    if failing.contains(&number) {
        return Some(Err(LinkFault::Failed));
    }
    if late.contains(&number) {
        return Some(Err(LinkFault::Late));
    }
    match responses.pop_front() {
        None => None,
        Some(response) => Some(Ok(response)),
    }
}
