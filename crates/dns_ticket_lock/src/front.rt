//! Messages of a connection that are settled in one turn, so that threads which have many to settle do not hand the book to and fro for
//! each.

ghost use Rattle.std.specs.Prelude.{◌≡◌, ℕ, ◌+◌, ◌-◌, ◌*◌, ◌<◌, ◌≤◌, ◌^◌, ◌||◌, true, false, None, [], List, length, slice_set, IfOk, IfSome, OnOk, OnErr};
ghost use mathlib.Core.Option.{some};
ghost use lib.ListN.{get_elem?};
ghost use Rattle.dns_keeper.specs.declared.row.Row.{Row};
ghost use Rattle.dns_server_core.specs.FrameRuns.{Adds, AddsFront, Halts, behind_first, first_asks, first_messages};
ghost use Rattle.dns_ticket_lock.specs.declared.view.Account.{Account};
ghost use Rattle.dns_ticket_lock.specs.declared.view.Phase.TheVariants.{Idle};
ghost use Rattle.dns_ticket_lock.specs.declared.view.Terms.{Terms};
ghost use Rattle.dns_ticket_lock.specs.Fronts.{nothing_told};
ghost use Rattle.dns_ticket_lock.specs.Lists.{StartsWith};
ghost use Rattle.dns_ticket_lock.specs.Naming.{Advances, NamesRows};
ghost use Rattle.dns_ticket_lock.specs.Passes.{SettledBy, LeftBy};
ghost use Rattle.dns_ticket_lock.specs.Rule.{own, settled};
ghost use Rattle.dns_ticket_lock.specs.Settling.{HasTerms, SettledAs, LeftAs, done_by};
ghost use Rattle.dns_ticket_lock.specs.Shares.{last};

use crate::held::{Held, Told, member_after, settle_book};
use crate::pass::{Pass, TicketBook};
use crate::steps::Board;
use crate::turns::{asked_as, begin_turn, client_of, end_turn};
use crate::view::View;
use atomic_table::{Badge, Seat};
use dns_book::{AccessControl, Book, LentAsk};
use dns_io::OutOfMemory;
use dns_keeper::Keeper;
use dns_server_core::{Answered, bytes_of, message_in, next_frame};
use std::mem;
use std::sync::Wait;

/// The most messages that are settled in one turn, so that those who wait need not wait long.
const MOST: u64 = 64;

/// How many messages were settled, and the bytes behind them.
#[derive(Clone, Copy)]
pub(crate) struct Front<'a> {
    messages: u64,
    left: &'a [u8],
}

/// What stands for a settle that did nothing to the rows and counted no fault.
fn nothing_told() -> Told
    ensures { result ≡ nothing_told }
{
    Told {
        receipt: None,
        count: 0,
        rise: 0,
        mark: false,
    }
}

/// Whether a turn goes on behind so many messages, of which this is told of the last: it has not had the most that it may have, and nothing
/// was done to the rows and no fault counted.
fn goes_on(messages: u64, most: u64, told: &Told) -> bool
    ensures nothing { result ≡ true → (told.now.receipt ≡ None) × (told.now.rise ≡ 0) × (told.now.mark ≡ false) }
    ensures more { result ≡ true → (messages < most) × (messages < 64) }
{
    messages < most && messages < MOST && told.receipt.is_none() && told.rise == 0 && !told.mark
}

/// Settles messages at the front of these bytes by the book, at least one: up to the first that adds rows or counts a fault, no more than a
/// turn may have, and at most so many. Tells what the last of them did.
fn settle_front<'a, K: Keeper>(
    book: &mut Book<K>,
    access: &AccessControl,
    ask: &LentAsk<'_>,
    bytes: &'a [u8],
    most: u64,
    replies: &mut Vec<u8>,
) -> (Result<Front<'a>, OutOfMemory>, Told)
    requires moment { ask.now.at < 2 ^ 47 }
    requires some { 0 < length (first_messages most bytes.now) }
    ensures ok { IfOk result.0 (λ f. (t : Terms) (rows : List Row) (a : Account) → HasTerms t book.old → NamesRows K.keeper book.old rows
        → StartsWith rows a.seen
        → AddsFront (SettledAs K.keeper t access.now ask.now.client) a (first_asks ask.now most bytes.now)
        (settled rows (done_by K.keeper ask.now.client rows book.new result.1) a)
        (first_asks ask.now (most - f.messages) f.left.now) replies.old.items replies.new.items) }
    ensures err { OnErr result.0 ((t : Terms) (rows : List Row) (a : Account) → HasTerms t book.old → NamesRows K.keeper book.old rows
        → StartsWith rows a.seen
        → Halts (SettledAs K.keeper t access.now ask.now.client) LeftAs a (first_asks ask.now most bytes.now)
        (settled rows (done_by K.keeper ask.now.client rows book.new result.1) a) replies.old.items replies.new.items) }
    ensures some { IfOk result.0 (λ f. 0 < f.messages) }
    ensures few { IfOk result.0 (λ f. (f.messages ≤ most) × (f.messages ≤ 64)) }
    ensures count { IfOk result.0 (λ f. f.messages + length (first_messages (most - f.messages) f.left.now)
        ≡ length (first_messages most bytes.now)) }
    ensures behind { IfOk result.0 (λ f. behind_first (most - f.messages) f.left.now ≡ behind_first most bytes.now) }
    ensures shorter { IfOk result.0 (λ f. 2 * f.messages + length f.left.now ≤ length bytes.now) }
    ensures advances { Advances K.keeper ask.now.client book.old result.1.receipt result.1.count book.new }
    ensures rise { (K.keeper.told book.old.keeper).faults + result.1.rise ≡ (K.keeper.told book.new.keeper).faults }
    ensures mark { result.1.mark ≡ true → (K.keeper.told book.old.keeper).faults ≡ last }
{
    let mut left = bytes;
    let mut messages = 0;
    while let Some((message, after)) = next_frame(left, most - messages) {
        let asked = message_in(ask, message);
        let (answer, told) = settle_book(book, access, &asked, replies, true);
        let Ok(_settled) = answer else {
            return (Err(OutOfMemory), told);
        };
        left = after;
        messages += 1;
        if !goes_on(messages, most, &told) {
            return (Ok(Front { messages, left }), told);
        }
    }
    (Ok(Front { messages, left }), nothing_told())
}

/// Settles messages as `settle_front` by the number low + 1, and adds to its member what they did to the keeper's count of faults.
fn settle_held_front<'a, K: Keeper>(
    held: &mut Held<K>,
    low: usize,
    access: &AccessControl,
    ask: &LentAsk<'_>,
    bytes: &'a [u8],
    most: u64,
    replies: &mut Vec<u8>,
) -> (Result<Front<'a>, OutOfMemory>, Told)
    requires moment { ask.now.at < 2 ^ 47 }
    requires some { 0 < length (first_messages most bytes.now) }
    requires low { low < length held.old.members.items }
    ensures ok { IfOk result.0 (λ f. (t : Terms) (rows : List Row) (a : Account) → HasTerms t held.old.book
        → NamesRows K.keeper held.old.book rows → StartsWith rows a.seen
        → AddsFront (SettledAs K.keeper t access.now ask.now.client) a (first_asks ask.now most bytes.now)
        (settled rows (done_by K.keeper ask.now.client rows held.new.book result.1) a)
        (first_asks ask.now (most - f.messages) f.left.now) replies.old.items replies.new.items) }
    ensures err { OnErr result.0 ((t : Terms) (rows : List Row) (a : Account) → HasTerms t held.old.book
        → NamesRows K.keeper held.old.book rows → StartsWith rows a.seen
        → Halts (SettledAs K.keeper t access.now ask.now.client) LeftAs a (first_asks ask.now most bytes.now)
        (settled rows (done_by K.keeper ask.now.client rows held.new.book result.1) a) replies.old.items replies.new.items) }
    ensures some { IfOk result.0 (λ f. 0 < f.messages) }
    ensures few { IfOk result.0 (λ f. (f.messages ≤ most) × (f.messages ≤ 64)) }
    ensures count { IfOk result.0 (λ f. f.messages + length (first_messages (most - f.messages) f.left.now)
        ≡ length (first_messages most bytes.now)) }
    ensures behind { IfOk result.0 (λ f. behind_first (most - f.messages) f.left.now ≡ behind_first most bytes.now) }
    ensures shorter { IfOk result.0 (λ f. 2 * f.messages + length f.left.now ≤ length bytes.now) }
    ensures advances { Advances K.keeper ask.now.client held.old.book result.1.receipt result.1.count held.new.book }
    ensures members { (m : _) → get_elem? held.old.members.items low ≡ some m → held.new.members.items
        ≡ slice_set held.old.members.items low (record { share = m.share + result.1.rise; mark = m.mark || result.1.mark }) }
    ensures start { held.new.start ≡ held.old.start }
{
    let (answer, told) = settle_front(&mut held.book, access, ask, bytes, most, replies);
    let _faults = held.book.fault_count();
    let member = held.members[low];
    held.members[low] = member_after(member, told.rise, told.mark);
    (answer, told)
}

/// One turn of a seat with one account, for messages at the front of these bytes. Tells how many rows there are then.
fn settle_turn<'a, K: Keeper, R: Wait>(
    rt: &R,
    board: &Board<Box<Held<K>>>,
    seat: &mut Seat<Option<Box<Held<K>>>, View>,
    access: &AccessControl,
    ask: &LentAsk<'_>,
    bytes: &'a [u8],
    most: u64,
    replies: &mut Vec<u8>,
) -> (Result<Front<'a>, OutOfMemory>, u64)
    requires board { (board.now.table_id.words ≡ 3) × (board.now.table_id.slots ≡ 1) × (seat.old.table_id ≡ board.now.table_id) }
    requires idle { (seat.old.me.1 ≡ []) × (seat.old.me.0.phase ≡ Idle) × (length seat.old.me.0.accounts ≡ 1) }
    requires number { ask.now.client ≡ seat.old.me.0.low + 1 }
    requires moment { ask.now.at < 2 ^ 47 }
    requires some { 0 < length (first_messages most bytes.now) }
    ensures same { seat.new.table_id ≡ seat.old.table_id }
    ensures idle { (seat.new.me.1 ≡ []) × (seat.new.me.0.phase ≡ Idle) × (length seat.new.me.0.accounts ≡ 1) }
    ensures low { (seat.new.me.0.low ≡ seat.old.me.0.low) × (seat.new.me.0.terms ≡ seat.old.me.0.terms) }
    ensures seen { length (own seat.new.me.0.accounts).seen ≡ result.1 }
    ensures ok { IfOk result.0 (λ f. AddsFront (SettledAs K.keeper seat.old.me.0.terms access.now ask.now.client)
        (own seat.old.me.0.accounts) (first_asks ask.now most bytes.now) (own seat.new.me.0.accounts)
        (first_asks ask.now (most - f.messages) f.left.now) replies.old.items replies.new.items) }
    ensures err { OnErr result.0 (Halts (SettledAs K.keeper seat.old.me.0.terms access.now ask.now.client) LeftAs
        (own seat.old.me.0.accounts) (first_asks ask.now most bytes.now) (own seat.new.me.0.accounts) replies.old.items replies.new.items) }
    ensures some { IfOk result.0 (λ f. 0 < f.messages) }
    ensures few { IfOk result.0 (λ f. (f.messages ≤ most) × (f.messages ≤ 64)) }
    ensures count { IfOk result.0 (λ f. f.messages + length (first_messages (most - f.messages) f.left.now)
        ≡ length (first_messages most bytes.now)) }
    ensures behind { IfOk result.0 (λ f. behind_first (most - f.messages) f.left.now ≡ behind_first most bytes.now) }
    ensures shorter { IfOk result.0 (λ f. 2 * f.messages + length f.left.now ≤ length bytes.now) }
{
    let low = client_of(ask) as usize - 1;
    let mut held = begin_turn(rt, board, seat);
    let (answer, told) = settle_held_front(held.as_mut(), low, access, ask, bytes, most, replies);
    let rows = held.book.journal_len();
    end_turn(board, seat, held, &told);
    (answer, rows)
}

/// As many turns of a seat with one account as the whole messages at the front of what came take, at most so many. `seen` is how many rows
/// the account has seen.
fn settle_turns<K: Keeper, R: Wait>(
    rt: &R,
    board: &Board<Box<Held<K>>>,
    seat: &mut Seat<Option<Box<Held<K>>>, View>,
    seen: &mut u64,
    access: &AccessControl,
    ask: &LentAsk<'_>,
    most: u64,
    replies: &mut Vec<u8>,
) -> Result<Answered, OutOfMemory>
    requires board { (board.now.table_id.words ≡ 3) × (board.now.table_id.slots ≡ 1) × (seat.old.table_id ≡ board.now.table_id) }
    requires idle { (seat.old.me.1 ≡ []) × (seat.old.me.0.phase ≡ Idle) × (length seat.old.me.0.accounts ≡ 1) }
    requires number { ask.now.client ≡ seat.old.me.0.low + 1 }
    requires moment { ask.now.at < 2 ^ 47 }
    requires seen { length (own seat.old.me.0.accounts).seen ≡ seen.old }
    ensures same { seat.new.table_id ≡ seat.old.table_id }
    ensures idle { (seat.new.me.1 ≡ []) × (seat.new.me.0.phase ≡ Idle) × (length seat.new.me.0.accounts ≡ 1) }
    ensures low { (seat.new.me.0.low ≡ seat.old.me.0.low) × (seat.new.me.0.terms ≡ seat.old.me.0.terms) }
    ensures seen { length (own seat.new.me.0.accounts).seen ≡ seen.new }
    ensures ok { OnOk result (Adds (SettledAs K.keeper seat.old.me.0.terms access.now ask.now.client) (own seat.old.me.0.accounts)
        (first_asks ask.now most ask.now.bytes) (own seat.new.me.0.accounts) replies.old.items replies.new.items) }
    ensures err { OnErr result (Halts (SettledAs K.keeper seat.old.me.0.terms access.now ask.now.client) LeftAs
        (own seat.old.me.0.accounts) (first_asks ask.now most ask.now.bytes) (own seat.new.me.0.accounts)
        replies.old.items replies.new.items) }
    ensures count { IfOk result (λ a. a.messages ≡ length (first_messages most ask.now.bytes)) }
    ensures rest { IfOk result (λ a. a.rest ≡ length (behind_first most ask.now.bytes)) }
    ensures shorter { IfOk result (λ a. 2 * a.messages + a.rest ≤ length ask.now.bytes) }
{
    let mut left = bytes_of(ask);
    let mut messages = 0;
    while let Some((_message, _after)) = next_frame(left, most - messages) {
        let more = most - messages;
        let (answer, rows) = settle_turn(rt, board, seat, access, ask, left, more, replies);
        *seen = rows;
        let front = answer?;
        left = front.left;
        messages += front.messages;
    }
    Ok(Answered {
        messages,
        rest: left.len(),
    })
}

impl<K: Keeper> TicketBook<K> {
    /// Settles, in order, the whole messages at the front of what came over a connection, at most so many, each behind its length, as
    /// [`TicketBook::settle_into`] does each, and adds the replies that they are owed, each behind its length. `stream` has
    /// all the bytes that came. Where memory runs out, the first of them were settled, and just the replies to these were added.
    ///
    /// One turn serves several of them, 64 at most, up to one that adds rows or counts a fault.
    pub fn settle_frames<R: Wait>(
        &self,
        rt: &R,
        pass: &mut Pass,
        access: &AccessControl,
        stream: &LentAsk<'_>,
        most: u64,
        replies: &mut Vec<u8>,
    ) -> Result<Answered, OutOfMemory>
        requires pass { pass.old.book ≡ self.now.id }
        requires moment { stream.now.at < 2 ^ 47 }
        ensures book { pass.new.book ≡ pass.old.book }
        ensures ok { OnOk result (Adds (SettledBy K.keeper access.now) pass.old
            (first_asks stream.now most stream.now.bytes) pass.new replies.old.items replies.new.items) }
        ensures count { IfOk result (λ a. a.messages ≡ length (first_messages most stream.now.bytes)) }
        ensures rest { IfOk result (λ a. a.rest ≡ length (behind_first most stream.now.bytes)) }
        ensures shorter { IfOk result (λ a. 2 * a.messages + a.rest ≤ length stream.now.bytes) }
        ensures err { OnErr result (Halts (SettledBy K.keeper access.now) LeftBy pass.old
            (first_asks stream.now most stream.now.bytes) pass.new replies.old.items replies.new.items) }
    {
        let asked = asked_as(stream, pass.number);
        let badge = mem::replace(&mut pass.badge, Badge::blank());
        let mut seat: Seat<Option<Box<Held<K>>>, View> = badge.into_seat();
        let mut seen = pass.seen;
        let answer = settle_turns(
            rt,
            &self.table.shared,
            &mut seat,
            &mut seen,
            access,
            &asked,
            most,
            replies,
        );
        pass.badge = seat.into_badge();
        pass.seen = seen;
        answer
    }
}
