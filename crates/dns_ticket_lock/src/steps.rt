//! The steps of a seat on the table of a shared book.

ghost use Rattle.std.specs.Prelude.{◌≡◌, ◌≢◌, ℕ, ◌+◌, ◌<◌, ◌==◌, ◌^◌, true, length, List, [], ◌∷◌, ◌++◌, Some, None, MatchBool};
ghost use Rattle.dns_keeper.specs.declared.row.Row.{Row};
ghost use Rattle.dns_ticket_lock.specs.declared.held.Member.{Member};
ghost use Rattle.dns_ticket_lock.specs.declared.view.Phase.TheVariants.{Idle, Waiting, Holding, HasCounted};
ghost use Rattle.dns_ticket_lock.specs.declared.view.Terms.{Terms};
ghost use Rattle.dns_ticket_lock.specs.Rule.{terms_of, Takes, Kept, Draws, Looks, LooksAt, Counts, Passes, Done, IsDone, nothing_done, first_view, waits, has, has_counted, rests, keeps_first, has_others, with_both, spent};

use crate::view::{Terms, View};
use atomic_table::{Badge, Join, Play, Seat, Shared, Split, TableRule};
use std::marker::{Brand, PhantomData};
use std::sync::Wait;
use std::time::Duration;
use std::{hint, thread};

/// How the value in the slot names the terms, the rows and the members.
pub trait Carried {
    ghost names: { Terms → List Row → List Member → Self → Type 0 };
}

/// The rule of the table.
pub(crate) struct Queueing;

impl<T: Carried> TableRule<Option<T>, View, Badge<Terms>> for Queueing {
    ghost holds = { λ key. Kept T.names (terms_of key.views) };

    ghost first = { λ key. first_view (terms_of key.views) };
}

struct Drawing;

impl<T: Carried> Play<Option<T>, View> for Drawing {
    ghost then = { Draws };
}

struct Looking;

impl<T: Carried> Play<Option<T>, View> for Looking {
    ghost then = { Looks T.names };
}

/// What a settle did, which the call picks.
pub trait Batch {
    ghost done: { Done };
}

impl Batch for Brand {
    ghost done = { nothing_done };
}

struct Counting<J>(PhantomData<J>);

impl<T: Carried, J: Batch> Play<Option<T>, View> for Counting<J> {
    ghost then = { Counts J.done };
}

struct Passing;

impl<T: Carried> Play<Option<T>, View> for Passing {
    ghost then = { Passes };
}

/// A seat keeps its first account, and a new seat has the others.
pub(crate) struct Cut;

impl Split<View> for Cut {
    ghost left = { keeps_first };

    ghost right = { has_others };
}

/// A seat takes the accounts of another in, behind its own.
pub(crate) struct Fuse;

impl Join<View> for Fuse {
    ghost both = { with_both };

    ghost spent = { spent };
}

pub(crate) type Board<T> = Shared<Option<T>, View, Badge<Terms>, Queueing>;

// The words of the table.
const NEXT: usize = 0;

const SERVING: usize = 1;

const ROWS: usize = 2;

// How often one that waits looks at once again, how often after it gave its processor away, and for how long, in microseconds, it then
// sleeps before each look: another seat may have its journal written to the disk meanwhile, which takes milliseconds.
const SPINS: u32 = 64;

const YIELDS: u32 = 1000;

const NAP_MICROS: u64 = 50;

/// Draws a ticket.
pub(crate) fn draw<T: Carried>(board: &Board<T>, seat: &mut Seat<Option<T>, View>) -> u64
    requires board { (board.now.table_id.words ≡ 3) × (board.now.table_id.slots ≡ 1) × (seat.old.table_id ≡ board.now.table_id) }
    requires idle { (seat.old.me.1 ≡ []) × (seat.old.me.0.phase ≡ Idle) × (0 < length seat.old.me.0.accounts) }
    ensures same { seat.new.table_id ≡ seat.old.table_id }
    ensures waits { seat.new.me ≡ (waits result seat.old.me.0, []) }
{
    board.fetch_add::<Drawing>(seat, NEXT, 1)
}

/// The ticket that is served. Where it is the seat's, it has the book.
fn look<T: Carried>(board: &Board<T>, seat: &mut Seat<Option<T>, View>) -> u64
    requires board { (board.now.table_id.words ≡ 3) × (board.now.table_id.slots ≡ 1) × (seat.old.table_id ≡ board.now.table_id) }
    requires waits { (seat.old.me.1 ≡ []) × (seat.old.me.0.phase ≡ Waiting) }
    ensures same { seat.new.table_id ≡ seat.old.table_id }
    ensures turn { LooksAt T.names seat.old.me result seat.new.me }
{
    board.load::<Looking>(seat, SERVING)
}

/// Lets time pass after so many looks that were not the turn.
fn pause<T: Carried, R: Wait>(rt: &R, board: &Board<T>, served: u64, looks: u32)
    requires { board.now.table_id.words ≡ 3 }
{
    if looks < SPINS {
        hint::spin_loop();
    } else if looks < SPINS + YIELDS {
        thread::yield_now();
    } else {
        board.park_timeout(
            rt,
            SERVING,
            (served % (1 << 32)) as u32,
            Duration::from_micros(NAP_MICROS),
        );
    }
}

/// Waits for the turn of a seat that has drawn a ticket. Where it does not come soon, it sleeps between its looks.
pub(crate) fn wait_for_turn<T: Carried, R: Wait>(
    rt: &R,
    board: &Board<T>,
    seat: &mut Seat<Option<T>, View>,
    ticket: u64,
)
    requires board { (board.now.table_id.words ≡ 3) × (board.now.table_id.slots ≡ 1) × (seat.old.table_id ≡ board.now.table_id) }
    requires waits { (seat.old.me.1 ≡ []) × (seat.old.me.0.phase ≡ Waiting) × (seat.old.me.0.ticket ≡ ticket) }
    ensures same { seat.new.table_id ≡ seat.old.table_id }
    ensures turn { (h : _) × (rows : _) × (members : _)
        × (seat.new.me ≡ (has rows members seat.old.me.0, (0, Some h) ∷ [])) × Takes T.names seat.old.me.0 rows members h }
{
    let mut looks = 0u32;
    for _ in rt.forever() {
        let served = look(board, seat);
        if served == ticket {
            return;
        }
        pause(rt, board, served, looks);
        looks = looks.saturating_add(1);
    }
    unreachable!()
}

/// Moves the book out of the slot that the seat holds.
pub(crate) fn take<T: Carried>(board: &Board<T>, seat: &mut Seat<Option<T>, View>) -> T
    requires board { (board.now.table_id.words ≡ 3) × (board.now.table_id.slots ≡ 1) × (seat.old.table_id ≡ board.now.table_id) }
    requires has { (h : _) × (seat.old.me.1 ≡ (0, Some h) ∷ []) }
    ensures same { seat.new.table_id ≡ seat.old.table_id }
    ensures held { (seat.old.me.1 ≡ (0, Some result) ∷ []) × (seat.new.me ≡ (seat.old.me.0, (0, None) ∷ [])) }
{
    let Some(held) = board.exchange(seat, 0, None) else {
        unreachable!()
    };
    held
}

/// Moves the book into the slot that the seat holds.
pub(crate) fn give<T: Carried>(board: &Board<T>, seat: &mut Seat<Option<T>, View>, held: T)
    requires board { (board.now.table_id.words ≡ 3) × (board.now.table_id.slots ≡ 1) × (seat.old.table_id ≡ board.now.table_id) }
    requires empty { seat.old.me.1 ≡ (0, None) ∷ [] }
    ensures same { seat.new.table_id ≡ seat.old.table_id }
    ensures gave { seat.new.me ≡ (seat.old.me.0, (0, Some held) ∷ []) }
{
    let empty = board.exchange(seat, 0, Some(held));
    let None = empty else { unreachable!() };
}

/// Counts so many rows.
pub(crate) fn count<T: Carried, J: Batch>(
    board: &Board<T>,
    seat: &mut Seat<Option<T>, View>,
    many: u64,
)
    requires board { (board.now.table_id.words ≡ 3) × (board.now.table_id.slots ≡ 1) × (seat.old.table_id ≡ board.now.table_id) }
    requires has { seat.old.me.0.phase ≡ Holding }
    requires done { IsDone (seat.old.me.0.low + 1) seat.old.me.0.rows J.done }
    requires many { (many ≡ length J.done.batch) × (length seat.old.me.0.rows + length J.done.batch < 2 ^ 64) }
    ensures same { seat.new.table_id ≡ seat.old.table_id }
    ensures counted { seat.new.me ≡ (has_counted J.done seat.old.me.0, seat.old.me.1) }
{
    board.fetch_add::<Counting<J>>(seat, ROWS, many);
}

/// Gives the slot back, and the turn to the next.
pub(crate) fn leave<T: Carried>(board: &Board<T>, seat: &mut Seat<Option<T>, View>)
    requires board { (board.now.table_id.words ≡ 3) × (board.now.table_id.slots ≡ 1) × (seat.old.table_id ≡ board.now.table_id) }
    requires counted { (seat.old.me.0.phase ≡ HasCounted)
        × ((h : _) × (seat.old.me.1 ≡ (0, Some h) ∷ []) × T.names seat.old.me.0.terms seat.old.me.0.rows seat.old.me.0.members h) }
    ensures same { seat.new.table_id ≡ seat.old.table_id }
    ensures rests { seat.new.me ≡ (rests seat.old.me.0, []) }
{
    board.fetch_add::<Passing>(seat, SERVING, 1);
}
