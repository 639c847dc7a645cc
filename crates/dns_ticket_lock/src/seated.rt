//! What settles messages by a shared book, in a thread of its own.

ghost use Rattle.std.specs.Prelude.{◌≡◌, ◌<◌, ◌≤◌, ◌^◌, length, IfOk, OnErr};
ghost use Rattle.dns_ticket_lock.specs.Passes.{IsPass};

use crate::pass::{Pass, TicketBook};
use dns_book::{AccessControl, Ask, LentAsk, Settled, SettledInto};
use dns_io::OutOfMemory;
use dns_keeper::Keeper;
use dns_server_core::{Answered, RequestHandler};
use std::marker::Model;
use std::sync::Wait;

/// A pass of a shared book, by which a thread settles what it is asked.
pub struct Seated<'a, K: Keeper, R: Wait> {
    rt: &'a R,
    book: &'a TicketBook<K>,
    pass: Pass,
}

impl<'a, K: Keeper, R: Wait> Model for Seated<'a, K, R> {
    ghost use Rattle.std.specs.Prelude.{◌≡◌};
    ghost use Rattle.dns_ticket_lock.specs.Passes.{PassSeen};

    ghost Value = { PassSeen };

    ghost view = { λ s. s.pass };

    ghost invariant = { λ s. s.pass.book ≡ s.book.now.id };
}

impl<'a, K: Keeper, R: Wait> Seated<'a, K, R> {
    /// Puts a pass in a seat of its book.
    pub fn new(rt: &'a R, book: &'a TicketBook<K>, pass: Pass) -> Seated<'a, K, R>
        requires { pass.book ≡ book.now.id }
        ensures { IsPass result pass }
    {
        Seated { rt, book, pass }
    }

    /// Gives the pass back.
    pub fn into_pass(self) -> Pass
        ensures { result ≡ self.entry }
    {
        let Seated {
            rt: _,
            book: _,
            pass,
        } = self;
        pass
    }
}

/// Each message is settled by [`TicketBook::settle`]. Where it finds no memory, the pass has the receipts and faults that it had
/// and has seen no less, and a mark stays.
impl<'a, K: Keeper, R: Wait> RequestHandler for Seated<'a, K, R> {
    ghost use Rattle.std.proofs.Common.{[], append-nil, refl, sym};
    ghost use Rattle.dns_ticket_lock.specs.Passes.{SettledBy, LeftBy};

    ghost serves = { SettledBy K.keeper };

    ghost skips = { LeftBy };

    ghost skips_same = { λ p. record {
      same = record { book = refl; terms = refl; number = refl };
      account = record { seen = ([], sym (append-nil p.account.seen)); receipts = refl; faults = refl; mark = λ m. m };
    } };

    fn handle_request(
        &mut self,
        access: &AccessControl,
        ask: &Ask,
    ) -> Result<Settled, OutOfMemory> {
        self.book.settle(self.rt, &mut self.pass, access, ask)
    }

    fn handle_into(
        &mut self,
        access: &AccessControl,
        ask: &LentAsk<'_>,
        out: &mut Vec<u8>,
        is_framed: bool,
    ) -> Result<SettledInto, OutOfMemory> {
        self.book
            .settle_into(self.rt, &mut self.pass, access, ask, out, is_framed)
    }

    fn handle_frames(
        &mut self,
        access: &AccessControl,
        stream: &LentAsk<'_>,
        most: u64,
        replies: &mut Vec<u8>,
    ) -> Result<Answered, OutOfMemory> {
        self.book
            .settle_frames(self.rt, &mut self.pass, access, stream, most, replies)
    }
}
