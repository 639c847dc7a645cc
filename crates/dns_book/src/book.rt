//! The book: a store, with who may change it, and what was counted of it.

ghost use Rattle.std.specs.Prelude.{◌≡◌, ◌≤◌, ◌<◌, ◌^◌, length, IfOk, OnOk, OnErr, None};
ghost use Rattle.dns_zone_map.specs.Zone.{serial_of};
ghost use Rattle.dns_book.specs.Book.{IsKept, Settles, IsLeft};
ghost use Rattle.dns_book.specs.Into.{SettlesInto};
ghost use Rattle.dns_book.specs.Crash.{SettlesLeaving, LeavesUnsettled, LeavesOn};

use crate::access::AccessControl;
use crate::ask::{Ask, LentAsk, Settled, SettledInto};
use crate::decision::{
    decide_malformed, decide_message, decide_query, decide_shut_out, message_in, request_of,
};
use dns_counts::Counts;
use dns_io::OutOfMemory;
use dns_keeper::Keeper;
use dns_query::query_behind;
use dns_store::Store;
use dns_update::laws::read_updates;
use dns_wire::read_one_question;
use std::alloc::Global;
use std::marker::Model;

/// A zone beside its journal, by which messages are settled.
#[derive(Drop)]
pub struct Book<K: Keeper> {
    pub(crate) store: Store<K>,
    pub(crate) allow_update: bool,
    pub(crate) counts: Counts,
    pub(crate) alloc: Global,
}

impl<K: Keeper> Model for Book<K> {
    ghost use Rattle.dns_book.specs.Book.{SeenOf, seen};
    ghost use Rattle.dns_store.specs.Store.{IsStored};

    ghost Value = { SeenOf K };

    ghost view = { λ b. seen b.store b.allow_update b.counts };

    ghost invariant = { λ b. IsStored K.keeper b.store };
}

impl<K: Keeper> Book<K> {
    /// Settles one message at its moment: gives the reply that it is owed, within its limit, where `access` says which
    /// sources are let in and how large a datagram may go out, and what it did to the journal. An update that passes and
    /// changes the zone is journalled by one append, and then the zone has changed; where the keeper fails, it has not, and
    /// the reply is ServFail. Where memory ran out, nothing has changed. Once a batch is journalled a crash leaves just the
    /// rows and the batches; where that was refused it may leave them with the whole batch too.
    pub fn settle(&mut self, access: &AccessControl, ask: &Ask) -> Result<Settled, OutOfMemory>
        requires moment { ask.now.at < 2 ^ 47 }
        requires bytes { length ask.now.bytes ≤ 65535 }
        ensures ok { IfOk result (λ settled. Settles K.keeper access.now self.old ask.now settled self.new) }
        ensures book { IsKept K.keeper self.new }
        ensures err { OnErr result (IsLeft K.keeper self.old self.new) }
        ensures left { IfOk result (λ settled. SettlesLeaving K.keeper access.now self.old ask.now settled self.new) }
        ensures left_unsettled { OnErr result (LeavesUnsettled K.keeper access.now self.old ask.now self.new) }
        ensures left_on { LeavesOn K.keeper self.old → LeavesOn K.keeper self.new }
    {
        let mut frame = Vec::new(self.alloc);
        let into = self.settle_into(access, &ask.lent(), &mut frame, true)?;
        Ok(Settled::from_frame(into, frame))
    }

    /// Settles one message as [`Book::settle`] does, and adds its reply, where one is owed, to what a buffer has: as it is, or behind the
    /// two bytes of its length, as it goes over a connection (RFC 1035 4.2.2). Where memory ran out the buffer is as it was.
    ///
    /// It is read no further than it has to be: its source and its header, then whether it is let in, then a query of plain form where it
    /// stands, and any other message whole.
    pub fn settle_into(
        &mut self,
        access: &AccessControl,
        ask: &LentAsk<'_>,
        out: &mut Vec<u8>,
        is_framed: bool,
    ) -> Result<SettledInto, OutOfMemory>
        requires moment { ask.now.at < 2 ^ 47 }
        requires bytes { length ask.now.bytes ≤ 65535 }
        ensures ok { IfOk result (SettlesInto (λ settled. Settles K.keeper access.now self.old ask.now settled self.new)
            is_framed out.old.items out.new.items) }
        ensures book { IsKept K.keeper self.new }
        ensures err { OnErr result (IsLeft K.keeper self.old self.new) }
        ensures out { OnErr result (out.new.items ≡ out.old.items) }
        ensures left { IfOk result (SettlesInto (λ settled. SettlesLeaving K.keeper access.now self.old ask.now settled self.new)
            is_framed out.old.items out.new.items) }
        ensures left_unsettled { OnErr result (LeavesUnsettled K.keeper access.now self.old ask.now self.new) }
        ensures left_on { LeavesOn K.keeper self.old → LeavesOn K.keeper self.new }
    {
        read_updates(ask.bytes);
        let Some(header) = request_of(ask) else {
            return Ok(self.told(false, None));
        };
        let (alloc, protocol) = (self.alloc, ask.protocol);
        let payload = access.payload();
        if !access.allow(&ask.source.ip) {
            let question = read_one_question(alloc, ask.bytes)?;
            let decision = decide_shut_out(payload, protocol, header, &question);
            return self.carry_out(ask, &decision, out, is_framed);
        }
        if let Some(query) = query_behind(header, ask.bytes) {
            let decision = decide_query(self.store.zone(), payload, protocol, &query);
            return self.carry_out(ask, &decision, out, is_framed);
        }
        match message_in(alloc, ask.bytes)? {
            Some(message) => {
                let decision = decide_message(self.store.zone(), payload, protocol, &message);
                self.carry_out(ask, &decision, out, is_framed)
            }
            None => {
                let decision = decide_malformed(payload, protocol, header);
                self.carry_out(ask, &decision, out, is_framed)
            }
        }
    }

    /// The serial of the zone's SOA.
    pub fn serial(&self) -> u32
        ensures { result ≡ serial_of self.now.zone.records }
    {
        self.store.serial()
    }

    /// How many rows the journal has.
    pub fn journal_len(&self) -> u64
        ensures is { result ≡ self.now.row_count }
        ensures book { IsKept K.keeper self.now }
    {
        self.store.row_count()
    }

    /// What was counted since the book was opened: each reply once, the records of each batch, and how many records the
    /// zone has.
    pub fn counts(&self) -> &Counts
        ensures { result.now ≡ self.now.counts }
    {
        &self.counts
    }

    /// The keeper's count of faults.
    pub fn fault_count(&self) -> u64
        ensures { result ≡ (K.keeper.told self.now.keeper).faults }
    {
        self.store.fault_count()
    }

    /// Gives the keeper back.
    pub fn into_keeper(self) -> K
        ensures keeper { result ≡ self.keeper }
        ensures book { IsKept K.keeper self }
    {
        let Book {
            store,
            allow_update: _,
            counts: _,
            alloc: _,
        } = self;
        store.into_keeper()
    }
}
