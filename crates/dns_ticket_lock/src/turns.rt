//! A turn of a pass: it draws a ticket, takes the book when its turn comes, settles one message, and gives the book back.

ghost use Rattle.std.specs.Prelude.{◌≡◌, ℕ, ◌+◌, ◌<◌, ◌≤◌, ◌^◌, true, length, [], ◌∷◌, ◌++◌, Some, None, IfOk, OnErr};
ghost use Rattle.dns_book.specs.Into.{SettlesInto};
ghost use Rattle.dns_ticket_lock.specs.declared.view.Phase.TheVariants.{Idle, Holding};
ghost use Rattle.dns_ticket_lock.specs.Rule.{Takes, IsDone, waits, has, has_counted, rests, own};
ghost use Rattle.dns_ticket_lock.specs.Settling.{SettledAs, LeftAs, asked_by};
ghost use Rattle.dns_ticket_lock.specs.Counted.{done_at, CountsRows, NamesCounted};
ghost use Rattle.dns_ticket_lock.specs.Passes.{SettledBy, LeftBy};

use crate::counting::count_done;
use crate::held::{Held, Told, settle_held};
use crate::pass::{Pass, TicketBook};
use crate::steps::{Board, Carried, draw, give, leave, take, wait_for_turn};
use crate::view::View;
use atomic_table::{Badge, Seat};
use dns_book::{AccessControl, Ask, LentAsk, Settled, SettledInto};
use dns_io::OutOfMemory;
use dns_keeper::Keeper;
use std::mem;
use std::sync::Wait;

/// Draws a ticket, waits for its turn and takes the book out.
pub(crate) fn begin_turn<T: Carried, R: Wait>(
    rt: &R,
    board: &Board<T>,
    seat: &mut Seat<Option<T>, View>,
) -> T
    requires board { (board.now.table_id.words ≡ 3) × (board.now.table_id.slots ≡ 1) × (seat.old.table_id ≡ board.now.table_id) }
    requires idle { (seat.old.me.1 ≡ []) × (seat.old.me.0.phase ≡ Idle) × (0 < length seat.old.me.0.accounts) }
    ensures same { seat.new.table_id ≡ seat.old.table_id }
    ensures took { (ticket : ℕ) × (rows : _) × (members : _)
        × (seat.new.me ≡ (has rows members (waits ticket seat.old.me.0), (0, None) ∷ []))
        × Takes T.names seat.old.me.0 rows members result }
{
    let ticket = draw(board, seat);
    wait_for_turn(rt, board, seat, ticket);
    take(board, seat)
}

/// Counts what was done, puts the book back and gives the turn to the next.
pub(crate) fn end_turn<K: Keeper>(
    board: &Board<Box<Held<K>>>,
    seat: &mut Seat<Option<Box<Held<K>>>, View>,
    held: Box<Held<K>>,
    told: &Told,
)
    requires board { (board.now.table_id.words ≡ 3) × (board.now.table_id.slots ≡ 1) × (seat.old.table_id ≡ board.now.table_id) }
    requires has { (seat.old.me.0.phase ≡ Holding) × (seat.old.me.1 ≡ (0, None) ∷ []) }
    requires done { IsDone (seat.old.me.0.low + 1) seat.old.me.0.rows (done_at K.keeper seat.old.me.0 held.value.book told.now) }
    requires many { CountsRows told.now seat.old.me.0 (done_at K.keeper seat.old.me.0 held.value.book told.now) held.value.book.row_count }
    requires names { NamesCounted K.keeper seat.old.me.0
        (done_at K.keeper seat.old.me.0 held.value.book told.now) held.value.book held.value.members.items held.value.start }
    ensures same { seat.new.table_id ≡ seat.old.table_id }
    ensures rests { seat.new.me ≡ (rests (has_counted (done_at K.keeper seat.old.me.0 held.value.book told.now) seat.old.me.0), []) }
{
    count_done(board, seat, &held, told);
    give(board, seat, held);
    leave(board, seat);
}

/// One turn of a seat with one account: the message's client is its number. The reply goes into a buffer. Tells how many rows there are
/// then.
fn settle_seat<K: Keeper, R: Wait>(
    rt: &R,
    board: &Board<Box<Held<K>>>,
    seat: &mut Seat<Option<Box<Held<K>>>, View>,
    access: &AccessControl,
    ask: &LentAsk<'_>,
    out: &mut Vec<u8>,
    is_framed: bool,
) -> (Result<SettledInto, OutOfMemory>, u64)
    requires board { (board.now.table_id.words ≡ 3) × (board.now.table_id.slots ≡ 1) × (seat.old.table_id ≡ board.now.table_id) }
    requires idle { (seat.old.me.1 ≡ []) × (seat.old.me.0.phase ≡ Idle) × (length seat.old.me.0.accounts ≡ 1) }
    requires number { ask.now.client ≡ seat.old.me.0.low + 1 }
    requires moment { ask.now.at < 2 ^ 47 }
    requires bytes { length ask.now.bytes ≤ 65535 }
    ensures same { seat.new.table_id ≡ seat.old.table_id }
    ensures idle { (seat.new.me.1 ≡ []) × (seat.new.me.0.phase ≡ Idle) × (length seat.new.me.0.accounts ≡ 1) }
    ensures low { (seat.new.me.0.low ≡ seat.old.me.0.low) × (seat.new.me.0.terms ≡ seat.old.me.0.terms) }
    ensures seen { length (own seat.new.me.0.accounts).seen ≡ result.1 }
    ensures ok { IfOk result.0 (SettlesInto (λ settled. SettledAs K.keeper seat.old.me.0.terms access.now (seat.old.me.0.low + 1)
        (own seat.old.me.0.accounts) ask.now settled (own seat.new.me.0.accounts)) is_framed out.old.items out.new.items) }
    ensures err { OnErr result.0 (LeftAs (own seat.old.me.0.accounts) (own seat.new.me.0.accounts)) }
    ensures out { OnErr result.0 (out.new.items ≡ out.old.items) }
{
    let low = client_of(ask) as usize - 1;
    let mut held = begin_turn(rt, board, seat);
    let (answer, told) = settle_held(held.as_mut(), low, access, ask, out, is_framed);
    let rows = held.book.journal_len();
    end_turn(board, seat, held, &told);
    (answer, rows)
}

/// The client of a message.
pub(crate) fn client_of(ask: &LentAsk<'_>) -> u32
    ensures { result ≡ ask.now.client }
{
    ask.client
}

/// The message, whose bytes are lent once more, with another client.
pub(crate) fn asked_as<'a>(ask: &LentAsk<'a>, client: u32) -> LentAsk<'a>
    ensures { result ≡ asked_by client ask.now }
{
    LentAsk {
        bytes: ask.bytes,
        source: ask.source,
        protocol: ask.protocol,
        at: ask.at,
        client,
    }
}

impl<K: Keeper> TicketBook<K> {
    /// Settles one message when the turn of the pass comes, as `Book::settle` does, on rows that begin with what the pass has
    /// seen, and with the pass's number as its client; afterwards the pass has seen the rows as they then are. Where memory ran
    /// out, nothing has changed but that the pass may have seen more.
    ///
    /// It waits for as long as those before it take: it looks a few times at once, then gives its processor away between two
    /// looks, and then sleeps between them.
    pub fn settle<R: Wait>(
        &self,
        rt: &R,
        pass: &mut Pass,
        access: &AccessControl,
        ask: &Ask,
    ) -> Result<Settled, OutOfMemory>
        requires pass { pass.old.book ≡ self.now.id }
        requires moment { ask.now.at < 2 ^ 47 }
        requires bytes { length ask.now.bytes ≤ 65535 }
        ensures ok { IfOk result (λ settled. SettledBy K.keeper access.now pass.old ask.now settled pass.new) }
        ensures err { OnErr result (LeftBy pass.old pass.new) }
    {
        let mut frame = Vec::new(pass.alloc);
        let into = self.settle_into(rt, pass, access, &ask.lent(), &mut frame, true)?;
        Ok(Settled::from_frame(into, frame))
    }

    /// Settles one message as [`TicketBook::settle`] does, and adds its reply, where one is owed, to what a buffer has: as it is, or
    /// behind the two bytes of its length, as it goes over a connection (RFC 1035 4.2.2). Where memory ran out the buffer is as it was.
    pub fn settle_into<R: Wait>(
        &self,
        rt: &R,
        pass: &mut Pass,
        access: &AccessControl,
        ask: &LentAsk<'_>,
        out: &mut Vec<u8>,
        is_framed: bool,
    ) -> Result<SettledInto, OutOfMemory>
        requires pass { pass.old.book ≡ self.now.id }
        requires moment { ask.now.at < 2 ^ 47 }
        requires bytes { length ask.now.bytes ≤ 65535 }
        ensures ok { IfOk result (SettlesInto
            (λ settled. SettledBy K.keeper access.now pass.old ask.now settled pass.new) is_framed out.old.items out.new.items) }
        ensures err { OnErr result (LeftBy pass.old pass.new) }
        ensures out { OnErr result (out.new.items ≡ out.old.items) }
    {
        let asked = asked_as(ask, pass.number);
        let badge = mem::replace(&mut pass.badge, Badge::blank());
        let mut seat: Seat<Option<Box<Held<K>>>, View> = badge.into_seat();
        let (answer, rows) = settle_seat(
            rt,
            &self.table.shared,
            &mut seat,
            access,
            &asked,
            out,
            is_framed,
        );
        pass.badge = seat.into_badge();
        pass.seen = rows;
        answer
    }
}
