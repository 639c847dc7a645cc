//! The sessions of the connections that are open.

ghost use Rattle.std.specs.Prelude.{◌≡◌, ◌≢◌, ◌<◌, ◌++◌, ◌∷◌, [], ◌^◌, length, not, true, false, IfNone, IfOk, IfSome, OnErr, OnOk};
ghost use Rattle.std.specs.Prelude.{slice_index_or, slice_set, if◌then◌else◌};
ghost use Rattle.std.specs.List.{AllByRecursion, filter, filter_map};
ghost use Rattle.dns_crowd.specs.Replies.{Falters, RepliesTo};
ghost use Rattle.dns_crowd.specs.Slots.{IsOneOf, all_in, has_number, open_in, vacated};
ghost use Rattle.dns_crowd.specs.Turns.{IsShut, done_by, numbers_of};
ghost use Rattle.dns_server_core.specs.Order.{Climbs};
ghost use Rattle.dns_server_core.specs.Steps.{completed_now, step};
ghost use Rattle.dns_server_core.specs.declared.event.Event.TheVariants as event;
ghost use Rattle.dns_crowd.specs.declared.sessions.Slot.{Slot};

use crate::serving::serve_piece;
use dns_book::AccessControl;
use dns_io::OutOfMemory;
use dns_server_core::{RequestHandler, Session};
use std::alloc::Global;
use std::marker::Model;

/// For how many connections there is room from the beginning, where memory is found for it: a table that grows leaves room behind that is
/// too small for the next one.
const RESERVED: usize = 4_096;

/// The place of a connection: its session, or one that is gone, of which no more than the number is left.
#[derive(Drop)]
pub(crate) struct Slot {
    pub(crate) session: Session,
    pub(crate) gone: bool,
}

/// The sessions of the connections that are open, in order of their numbers. The place of one that is gone is let go together with those of
/// many others: so each that goes takes few steps, however many are open.
#[derive(Drop)]
pub(crate) struct Sessions {
    alloc: Global,
    slots: Vec<Slot>,
    /// How many of the places are of connections that are gone.
    gone: usize,
}

impl Model for Sessions {
    ghost use Rattle.std.specs.Prelude.{List};
    ghost use Rattle.dns_crowd.specs.Slots.{all_in, open_in};
    ghost use Rattle.dns_server_core.specs.Connections.{Connection};
    ghost use Rattle.dns_server_core.specs.Order.{Climbs};

    ghost Value = { List Connection };

    ghost view = { λ s. open_in s.slots.items };

    ghost invariant = { λ s. Climbs (all_in s.slots.items) };
}

impl Sessions {
    /// None is open. Takes memory for some thousands, where it is found.
    pub(crate) fn new(alloc: Global) -> Sessions
        ensures { result ≡ [] }
    {
        let mut slots = Vec::new(alloc);
        let _room = slots.reserve(RESERVED);
        Sessions {
            alloc,
            slots,
            gone: 0,
        }
    }

    /// How many are open.
    pub(crate) fn count(&self) -> usize {
        self.slots.len().saturating_sub(self.gone)
    }

    /// One more is open, of a number that is greater than those of the others. Where memory runs out, nothing has changed.
    pub(crate) fn push(&mut self, session: Session) -> Result<(), OutOfMemory>
        requires { AllByRecursion (λ k. k.number < session.number) self.old }
        ensures ok { OnOk result (self.new ≡ self.old ++ session ∷ []) }
        ensures err { OnErr result (self.new ≡ self.old) }
    {
        self.gone = make_way(&mut self.slots, self.gone, session.number());
        put(&mut self.slots, session)
    }

    /// The session of a number.
    pub(crate) fn find(&self, number: u32) -> Option<&Session>
        ensures some { IfSome result (λ session. IsOneOf self.now session.now number) }
        ensures none { IfNone result (AllByRecursion (λ k. k.number ≢ number) self.now) }
    {
        let Some(place) = place_of(self.slots.as_slice(), number) else {
            return None;
        };
        Some(&self.slots[place].session)
    }

    /// Whether one of a number is open.
    pub(crate) fn has(&self, number: u32) -> bool
        ensures { result ≡ has_number self.now number }
    {
        let Some(_session) = self.find(number) else {
            return false;
        };
        true
    }

    /// The connection of a number ends: it is open no more.
    pub(crate) fn end(&mut self, at: u64, number: u32)
        ensures { self.new ≡ filter_map (step (event.Ended at number)) self.old }
    {
        let Some(place) = place_of(self.slots.as_slice(), number) else {
            return;
        };
        vacate(self.alloc, &mut self.slots, place, number);
        self.gone = self.gone.saturating_add(1);
    }

    /// The session of a number hears a piece of its connection's bytes; says whether the connection is to be closed: the piece came too late,
    /// or brought its last message.
    pub(crate) fn hear<H: RequestHandler>(
        &mut self,
        handler: &mut H,
        access: &AccessControl,
        at: u64,
        number: u32,
        piece: &[u8],
        replies: &mut Vec<u8>,
    ) -> Result<bool, OutOfMemory>
        requires moment { at < 2 ^ 47 }
        ensures ok { OnOk result (self.new ≡ filter_map (step (event.Bytes at number piece.now)) self.old) }
        ensures ran { OnOk result (RepliesTo (H.serves access.now) handler.old
            (completed_now (event.Bytes at number piece.now) self.old) handler.new number replies.old.items replies.new.items) }
        ensures done { IfOk result (λ is_done. is_done ≡ true → IsShut (numbers_of self.old) self.new number) }
        ensures shuts { IfOk result (λ is_done. done_by (event.Bytes at number piece.now) self.old
            ≡ (if is_done then number ∷ [] else [])) }
        ensures err { OnErr result (self.new ≡ filter_map (step (event.Ended at number)) self.old) }
        ensures halted { OnErr result (Falters (H.serves access.now) H.skips handler.old
            (completed_now (event.Bytes at number piece.now) self.old) handler.new) }
    {
        let Some(place) = place_of(self.slots.as_slice(), number) else {
            return Ok(false);
        };
        match serve_piece(
            handler,
            access,
            &mut self.slots[place].session,
            at,
            piece,
            replies,
        ) {
            Ok(true) => Ok(false),
            Ok(false) => {
                vacate(self.alloc, &mut self.slots, place, number);
                self.gone = self.gone.saturating_add(1);
                Ok(true)
            }
            Err(fault) => {
                vacate(self.alloc, &mut self.slots, place, number);
                self.gone = self.gone.saturating_add(1);
                Err(fault)
            }
        }
    }
}

/// Where the connection of a number has its place, open or gone, by halves.
fn slot_of(slots: &[Slot], number: u32) -> Option<usize>
    ensures inside { IfSome result (λ i. i < length slots.now) }
    ensures found { IfSome result (λ i. (d : Slot) → (slice_index_or slots.now i d).session.number ≡ number) }
    ensures none { IfNone result (Climbs (all_in slots.now) → AllByRecursion (λ k. k.number ≢ number) (all_in slots.now)) }
{
    let mut low = 0;
    let mut high = slots.len();
    while low < high {
        let middle = low + (high - low) / 2;
        let here = slots[middle].session.number();
        if here == number {
            return Some(middle);
        }
        if here < number {
            low = middle + 1;
            continue;
        }
        high = middle;
    }
    None
}

/// Where the connection of a number has its place, if it is open.
fn place_of(slots: &[Slot], number: u32) -> Option<usize>
    ensures inside { IfSome result (λ i. i < length slots.now) }
    ensures found { IfSome result (λ i. (d : Slot) → (slice_index_or slots.now i d).session.number ≡ number) }
    ensures stands { IfSome result (λ i. (d : Slot) → (slice_index_or slots.now i d).gone ≡ false) }
    ensures none { IfNone result (Climbs (all_in slots.now) → AllByRecursion (λ k. k.number ≢ number) (open_in slots.now)) }
{
    let Some(place) = slot_of(slots, number) else {
        return None;
    };
    if slots[place].gone {
        return None;
    }
    Some(place)
}

/// Whether all have numbers below another one: the last has, where they are in order.
fn are_below(slots: &[Slot], number: u32) -> bool
    ensures { result ≡ true → Climbs (all_in slots.now) → AllByRecursion (λ k. k.number < number) (all_in slots.now) }
{
    let Some(last) = slots.len().checked_sub(1) else {
        return true;
    };
    slots[last].session.number() < number
}

/// The connection of a number, in this place, is gone. What its session had is let go of.
fn vacate(alloc: Global, slots: &mut Vec<Slot>, place: usize, number: u32)
    requires { place < length slots.old.items }
    ensures { (d : Slot) → slots.new.items
        ≡ slice_set slots.old.items place (vacated number (slice_index_or slots.old.items place d).session.peer) }
{
    let peer = slots[place].session.peer();
    slots[place] = Slot {
        session: Session::open(alloc, number, peer, 0, 0),
        gone: true,
    };
}

/// Puts one behind the others.
fn put(slots: &mut Vec<Slot>, session: Session) -> Result<(), OutOfMemory>
    ensures ok { OnOk result (open_in slots.new.items ≡ open_in slots.old.items ++ session ∷ []) }
    ensures all { OnOk result (all_in slots.new.items ≡ all_in slots.old.items ++ session ∷ []) }
    ensures err { OnErr result (slots.new.items ≡ slots.old.items) }
{
    slots.push(Slot {
        session,
        gone: false,
    })?;
    Ok(())
}

/// Lets go of the places of those that are gone, where they are more than the others, or one of them is not below a number that is to be put
/// behind them; how many of them there are then.
fn make_way(slots: &mut Vec<Slot>, gone: usize, number: u32) -> usize
    requires climbs { Climbs (all_in slots.old.items) }
    requires above { AllByRecursion (λ k. k.number < number) (open_in slots.old.items) }
    ensures same { open_in slots.new.items ≡ open_in slots.old.items }
    ensures climbs { Climbs (all_in slots.new.items) }
    ensures below { AllByRecursion (λ k. k.number < number) (all_in slots.new.items) }
{
    if gone <= slots.len() / 2 && are_below(slots.as_slice(), number) {
        return gone;
    }
    sweep(slots);
    0
}

/// Lets go of the places of those that are gone.
fn sweep(slots: &mut Vec<Slot>)
    ensures { slots.new.items ≡ filter (λ s. not s.gone) slots.old.items }
{
    slots.retain(|slot| !slot.gone);
}
