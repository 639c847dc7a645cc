//! Messages that are settled in turn, over and over.

ghost use Rattle.std.specs.Prelude.{◌≡◌, ◌+◌, IfOk, All};
ghost use Rattle.dns_bench.specs.Turns.{CanBeSettled, InTurn, OverAndOver, SettlesOne};

use crate::fault::BenchFault;
use dns_book::{AccessControl, Ask, Book};
use dns_keeper::Keeper;
use std::alloc::Global;

/// Settles messages so many times over, and tells how many bytes the replies have, together.
pub fn settle_turns<K: Keeper>(
    alloc: Global,
    book: &mut Book<K>,
    access: &AccessControl,
    asks: &[Ask],
    turns: u64,
) -> Result<u64, BenchFault>
    requires { All CanBeSettled asks.now }
    ensures { IfOk result (λ bytes. OverAndOver K.keeper access.now book.old asks.now turns bytes book.new) }
{
    let mut reply = Vec::new(alloc);
    let mut bytes = 0u64;
    for _turn in 0..turns {
        let more = settle_each(book, access, asks, &mut reply)?;
        bytes = together(bytes, more)?;
    }
    Ok(bytes)
}

/// Settles messages, each by one call and in order, and tells how many bytes the replies have, together. They go into one buffer, one
/// after the other.
fn settle_each<K: Keeper>(
    book: &mut Book<K>,
    access: &AccessControl,
    asks: &[Ask],
    reply: &mut Vec<u8>,
) -> Result<u64, BenchFault>
    requires { All CanBeSettled asks.now }
    ensures { IfOk result (λ bytes. InTurn K.keeper access.now book.old asks.now bytes book.new) }
{
    let mut bytes = 0u64;
    for ask in asks {
        let more = settle_one(book, access, ask, reply)?;
        bytes = together(bytes, more)?;
    }
    Ok(bytes)
}

/// Settles a message, and tells how many bytes the reply has, 0 where none is owed.
fn settle_one<K: Keeper>(
    book: &mut Book<K>,
    access: &AccessControl,
    ask: &Ask,
    reply: &mut Vec<u8>,
) -> Result<u64, BenchFault>
    requires { CanBeSettled ask.now }
    ensures { IfOk result (λ bytes. SettlesOne K.keeper access.now book.old ask.now bytes book.new) }
{
    reply.clear();
    let _into = book.settle_into(access, &ask.lent(), reply, false)?;
    Ok(reply.len() as u64)
}

/// The sum of two numbers of bytes.
fn together(bytes: u64, more: u64) -> Result<u64, BenchFault>
    ensures { IfOk result (λ sum. sum ≡ bytes + more) }
{
    match bytes.checked_add(more) {
        Some(sum) => Ok(sum),
        None => Err(BenchFault::TooMany),
    }
}
