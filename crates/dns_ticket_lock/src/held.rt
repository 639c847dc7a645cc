//! What lies in the slot, and one settle of it.

ghost use Rattle.std.specs.Prelude.{◌≡◌, ℕ, ◌+◌, ◌<◌, ◌≤◌, ◌^◌, ◌⊎◌, ◌||◌, true, length, replicate, slice_set, IfOk, IfErr, IfSome, OnErr, None};
ghost use mathlib.Core.Option.{some};
ghost use lib.ListN.{get_elem?};
ghost use Rattle.dns_io.specs.Told.{Rose};
ghost use Rattle.dns_book.specs.Into.{SettlesInto};
ghost use Rattle.dns_book.specs.Book.{Settles, IsLeft, IsKept};
ghost use Rattle.dns_ticket_lock.specs.Lists.{total};
ghost use Rattle.dns_ticket_lock.specs.Shares.{share_of, marks_stand, new_member, last};
ghost use Rattle.dns_ticket_lock.specs.Naming.{Advances};
ghost use Rattle.dns_ticket_lock.specs.Settling.{Names, receipt_in};

use crate::steps::Carried;
use dns_book::{AccessControl, Book, LentAsk, Receipt, SettledInto};
use dns_io::OutOfMemory;
use dns_keeper::Keeper;
use std::alloc::{AllocFailed, Global};

/// What the list beside the book has for a number.
#[derive(Clone, Copy)]
pub struct Member {
    /// By how much its settles raised the keeper's count of faults.
    pub share: u64,
    /// Whether that count stood at its last value when it settled.
    pub mark: bool,
}

/// What lies in the slot: the book, and a member for each number.
#[derive(Drop)]
pub struct Held<K: Keeper> {
    pub book: Book<K>,
    pub members: Vec<Member>,
    /// The keeper's count of faults when the book was shared.
    pub start: u64,
    ghost sums: { start + total share_of members.items ≡ (K.keeper.told book.keeper).faults },
    ghost marked: { marks_stand (K.keeper.told book.keeper).faults members.items ≡ true },
}

impl<K: Keeper> Carried for Box<Held<K>> {
    ghost names = { λ t rows members h. Names K.keeper t rows members h.value.book h.value.members.items h.value.start };
}

/// What a settle did, beside its answer.
#[derive(Clone, Copy)]
pub struct Told {
    /// The rows that it added, none where it added none.
    pub receipt: Option<Receipt>,
    /// How many rows it added.
    pub count: u64,
    /// By how much it raised the keeper's count of faults.
    pub rise: u64,
    /// Whether that count stood at its last value before.
    pub mark: bool,
}

/// A member for each of so many numbers; none where memory runs out.
pub(crate) fn new_members(alloc: Global, seats: usize) -> Option<Vec<Member>>
    ensures { IfSome result (λ v. v.items ≡ replicate seats new_member) }
{
    let mut members = Vec::new(alloc);
    for _ in 0..seats {
        let Ok(()) = members.push(Member {
            share: 0,
            mark: false,
        }) else {
            return None;
        };
    }
    Some(members)
}

/// The book alone again.
pub(crate) fn book_of<K: Keeper>(held: Held<K>) -> Book<K>
    ensures { result ≡ held.book }
{
    let Held {
        book,
        members: _,
        start: _,
    } = held;
    book
}

/// The book with its new members, in a box, so that each turn moves a pointer alone; the book as it was where memory runs out.
pub(crate) fn new_held<K: Keeper>(
    alloc: Global,
    book: Book<K>,
    members: Vec<Member>,
) -> Result<Box<Held<K>>, Book<K>>
    requires { members.items ≡ replicate (length members.items) new_member }
    ensures members { IfOk result (λ held. held.value.members.items ≡ members.items) }
    ensures book { IfOk result (λ held. (held.value.book ≡ book) × (held.value.start ≡ (K.keeper.told book.keeper).faults)) }
    ensures err { IfErr result (λ back. back ≡ book) }
{
    let start = book.fault_count();
    let held = Held {
        book,
        members,
        start,
    };
    match Box::new(alloc, held) {
        Ok(held) => Ok(held),
        Err(AllocFailed { value }) => Err(book_of(value)),
    }
}

/// By how much the keeper's count of faults rose.
fn rise_since<K: Keeper>(book: &Book<K>, was: u64) -> u64
    requires { was ≤ (K.keeper.told book.now.keeper).faults }
    ensures rise { was + result ≡ (K.keeper.told book.now.keeper).faults }
    ensures fits { (K.keeper.told book.now.keeper).faults < 2 ^ 64 }
{
    book.fault_count() - was
}

/// How many rows came.
fn rows_since<K: Keeper>(book: &Book<K>, before: u64) -> u64
    requires { before ≤ book.now.row_count }
    ensures { before + result ≡ book.now.row_count }
{
    book.journal_len() - before
}

/// The receipt of an answer, if it has one.
fn receipt_of(answer: &Result<SettledInto, OutOfMemory>) -> Option<Receipt>
    ensures { result ≡ receipt_in answer.now }
{
    match answer {
        Ok(into) => into.receipt,
        Err(_) => None,
    }
}

/// The member after a settle.
pub(crate) fn member_after(member: Member, rise: u64, mark: bool) -> Member
    requires { member.share + rise < 2 ^ 64 }
    ensures { result ≡ record { share = member.share + rise; mark = member.mark || mark } }
{
    Member {
        share: member.share + rise,
        mark: member.mark || mark,
    }
}

/// Settles one message by the book, which adds its reply to a buffer, and tells what that did.
pub(crate) fn settle_book<K: Keeper>(
    book: &mut Book<K>,
    access: &AccessControl,
    ask: &LentAsk<'_>,
    out: &mut Vec<u8>,
    is_framed: bool,
) -> (Result<SettledInto, OutOfMemory>, Told)
    requires moment { ask.now.at < 2 ^ 47 }
    requires bytes { length ask.now.bytes ≤ 65535 }
    ensures ok { IfOk result.0 (SettlesInto
        (λ settled. Settles K.keeper access.now book.old ask.now settled book.new) is_framed out.old.items out.new.items) }
    ensures err { OnErr result.0 (IsLeft K.keeper book.old book.new) }
    ensures out { OnErr result.0 (out.new.items ≡ out.old.items) }
    ensures advances { Advances K.keeper ask.now.client book.old result.1.receipt result.1.count book.new }
    ensures receipt { result.1.receipt ≡ receipt_in result.0 }
    ensures rise { (K.keeper.told book.old.keeper).faults + result.1.rise ≡ (K.keeper.told book.new.keeper).faults }
    ensures fits { (K.keeper.told book.new.keeper).faults < 2 ^ 64 }
    ensures rose { Rose (K.keeper.told book.old.keeper).faults (K.keeper.told book.new.keeper).faults
        → (0 < result.1.rise) ⊎ (result.1.mark ≡ true) }
    ensures mark { result.1.mark ≡ true → (K.keeper.told book.old.keeper).faults ≡ last }
{
    let before = book.journal_len();
    let was = book.fault_count();
    let answer = book.settle_into(access, ask, out, is_framed);
    let told = Told {
        receipt: receipt_of(&answer),
        count: rows_since(book, before),
        rise: rise_since(book, was),
        mark: was == u64::MAX,
    };
    (answer, told)
}

/// Settles one message by the number low + 1, with its reply in a buffer, and adds to its member what that did to the keeper's count of
/// faults.
pub(crate) fn settle_held<K: Keeper>(
    held: &mut Held<K>,
    low: usize,
    access: &AccessControl,
    ask: &LentAsk<'_>,
    out: &mut Vec<u8>,
    is_framed: bool,
) -> (Result<SettledInto, OutOfMemory>, Told)
    requires moment { ask.now.at < 2 ^ 47 }
    requires bytes { length ask.now.bytes ≤ 65535 }
    requires low { low < length held.old.members.items }
    ensures ok { IfOk result.0 (SettlesInto
        (λ settled. Settles K.keeper access.now held.old.book ask.now settled held.new.book) is_framed out.old.items out.new.items) }
    ensures err { OnErr result.0 (IsLeft K.keeper held.old.book held.new.book) }
    ensures out { OnErr result.0 (out.new.items ≡ out.old.items) }
    ensures advances { Advances K.keeper ask.now.client held.old.book result.1.receipt result.1.count held.new.book }
    ensures receipt { result.1.receipt ≡ receipt_in result.0 }
    ensures rise { (K.keeper.told held.old.book.keeper).faults + result.1.rise ≡ (K.keeper.told held.new.book.keeper).faults }
    ensures rose { Rose (K.keeper.told held.old.book.keeper).faults (K.keeper.told held.new.book.keeper).faults
        → (0 < result.1.rise) ⊎ (result.1.mark ≡ true) }
    ensures members { (m : _) → get_elem? held.old.members.items low ≡ some m → held.new.members.items
        ≡ slice_set held.old.members.items low (record { share = m.share + result.1.rise; mark = m.mark || result.1.mark }) }
    ensures start { held.new.start ≡ held.old.start }
{
    let (answer, told) = settle_book(&mut held.book, access, ask, out, is_framed);
    let member = held.members[low];
    held.members[low] = member_after(member, told.rise, told.mark);
    (answer, told)
}
