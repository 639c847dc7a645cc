//! Messages that are settled at the system's time.

ghost use Rattle.std.specs.Prelude.{◌≡◌, ◌<◌, ◌^◌};

use dns_book::{AccessControl, Ask, LentAsk, Settled, SettledInto};
use dns_edges::Clock;
use dns_io::OutOfMemory;
use dns_server_core::{Answered, RequestHandler};
use std::alloc::Global;
use std::marker::Model;

/// A handler that has another one settle each message at a reading of a clock, and not at the moment of the event that completed it. The
/// messages of one call of `handle_frames` have one reading.
///
/// The moments of a crowd are those of a clock that never falls, by which time limits are judged; a row is stamped by this one's.
pub struct Stamped<H, C> {
    alloc: Global,
    inner: H,
    clock: C,
}

impl<H, C> Model for Stamped<H, C> {
    ghost Value = { H };

    ghost view = { λ s. s.inner };
}

impl<H, C: Drop> Stamped<H, C> {
    /// Has this handler settle what comes, at readings of this clock.
    pub fn new(alloc: Global, inner: H, clock: C) -> Stamped<H, C>
        ensures { result ≡ inner }
    {
        Stamped {
            alloc,
            inner,
            clock,
        }
    }

    /// Gives the handler back.
    pub fn into_inner(self) -> H
        ensures { result ≡ self }
    {
        let Stamped {
            alloc: _,
            inner,
            clock: _clock,
        } = self;
        inner
    }
}

impl<H: RequestHandler, C: Clock> RequestHandler for Stamped<H, C> {
    ghost use Rattle.dns_crowd_server.specs.Stamps.{AtSomeMoment};

    ghost serves = { λ access. AtSomeMoment (H.serves access) };

    ghost skips = { H.skips };

    ghost skips_same = { H.skips_same };

    fn handle_request(
        &mut self,
        access: &AccessControl,
        ask: &Ask,
    ) -> Result<Settled, OutOfMemory> {
        let asked = asked_by(&mut self.clock, &ask.lent()).copied(self.alloc)?;
        self.inner.handle_request(access, &asked)
    }

    fn handle_into(
        &mut self,
        access: &AccessControl,
        ask: &LentAsk<'_>,
        out: &mut Vec<u8>,
        is_framed: bool,
    ) -> Result<SettledInto, OutOfMemory> {
        let asked = asked_by(&mut self.clock, ask);
        self.inner.handle_into(access, &asked, out, is_framed)
    }

    fn handle_frames(
        &mut self,
        access: &AccessControl,
        stream: &LentAsk<'_>,
        most: u64,
        replies: &mut Vec<u8>,
    ) -> Result<Answered, OutOfMemory> {
        let asked = asked_by(&mut self.clock, stream);
        self.inner.handle_frames(access, &asked, most, replies)
    }
}

/// What was asked, at a reading of a clock.
fn asked_by<'a, C: Clock>(clock: &mut C, ask: &LentAsk<'a>) -> LentAsk<'a>
    ensures is { result ≡ record ask.now { at = C.clock.last clock.new } }
    ensures moment { C.clock.last clock.new < 2 ^ 47 }
{
    LentAsk {
        bytes: ask.bytes,
        source: ask.source,
        protocol: ask.protocol,
        at: clock.now(),
        client: ask.client,
    }
}
