//! A shared book, and the right to settle by one of its numbers.

ghost use Rattle.std.specs.Prelude.{◌≡◌, length};

use crate::held::Held;
use crate::steps::Queueing;
use crate::view::{Terms, View};
use atomic_table::{Badge, Table};
use dns_keeper::Keeper;
use std::alloc::Global;
use std::marker::Model;

/// A book that threads take in turn, by ticket: whoever comes first is served first.
#[derive(Drop)]
pub struct TicketBook<K: Keeper> {
    pub(crate) table: Table<Option<Box<Held<K>>>, View, Badge<Terms>, Queueing, Global>,
}

impl<K: Keeper> Model for TicketBook<K> {
    ghost use Rattle.std.specs.Prelude.{◌≡◌, ◌<◌, ◌≤◌};
    ghost use Rattle.dns_ticket_lock.specs.Rule.{terms_of};
    ghost use Rattle.dns_ticket_lock.specs.Passes.{BookSeen};

    ghost Value = { BookSeen };

    ghost view = { λ b. record { id = b.table.shared.table_id; terms = terms_of b.table.shared.key.views } };

    ghost invariant = { λ b. (b.table.shared.table_id.words ≡ 3) × (b.table.shared.table_id.slots ≡ 1)
        × (0 < (terms_of b.table.shared.key.views).seats) × ((terms_of b.table.shared.key.views).seats ≤ 1024) };
}

/// The right to settle by one number of a shared book.
#[derive(Drop)]
pub struct Pass {
    pub(crate) badge: Badge<View>,
    pub(crate) number: u32,
    pub(crate) seen: u64,
    pub(crate) alloc: Global,
}

impl Model for Pass {
    ghost use Rattle.std.specs.Prelude.{◌≡◌, length};
    ghost use Rattle.dns_ticket_lock.specs.Rule.{own, view_of, Rests};
    ghost use Rattle.dns_ticket_lock.specs.Passes.{PassSeen};

    ghost Value = { PassSeen };

    ghost view = { λ p. record {
      book = p.badge.table_id;
      terms = (view_of p.badge.views).terms;
      number = p.number;
      account = own (view_of p.badge.views).accounts;
    } };

    ghost invariant = { λ p. (length (own (view_of p.badge.views).accounts).seen ≡ p.seen) × Rests p.badge.views p.number };
}

impl Pass {
    /// The number that the rows of its updates bear, from 1.
    pub fn number(&self) -> u32
        ensures { result ≡ self.now.number }
    {
        self.number
    }

    /// How many rows it has seen: those that the journal had after its last settle.
    pub fn seen_len(&self) -> u64
        ensures { result ≡ length self.now.account.seen }
    {
        self.seen
    }
}
