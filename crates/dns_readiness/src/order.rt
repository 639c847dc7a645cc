//! Numbers in the order of their moments.

ghost use Rattle.std.specs.Prelude.{◌≡◌, ◌≤◌, ◌<◌, ◌∷◌, [], length, take, drop, ℕ, List, OnOk, OnErr, IfSome, IfNone};
ghost use Rattle.std.specs.List.{AllByRecursion};
ghost use Rattle.std.specs.List.Sorted.{IsPermutation};
ghost use Rattle.std.specs.List.Retain.{IsFiltered};
ghost use Rattle.std.specs.Fn.{CalledAt};
ghost use Rattle.dns_readiness.specs.Order.{IsInOrder, IsFirstBefore};

use dns_io::OutOfMemory;
use std::alloc::Global;
use std::collections::VecDeque;
use std::marker::Model;

/// For how many numbers there is room from the beginning, where memory is found for it.
const RESERVED: usize = 4_096;

/// Numbers, each at a moment, the earliest first. A number that is put at a moment no earlier than all others goes to the end in one step,
/// and one that is earlier passes those that are later.
#[derive(Drop)]
pub struct Order {
    entries: VecDeque<(u64, u32)>,
}

impl Model for Order {
    ghost use Rattle.std.specs.Prelude.{List, ℕ};
    ghost use Rattle.dns_readiness.specs.Order.{IsInOrder};

    ghost Value = { List (ℕ × ℕ) };

    ghost view = { λ s. s.entries.items };

    ghost invariant = { λ s. IsInOrder s.entries.items };
}

impl Order {
    /// No number stands in it. Takes memory for some thousands, where it is found.
    pub fn new(alloc: Global) -> Order
        ensures { result ≡ [] }
    {
        let mut entries = VecDeque::new(alloc);
        let _room = entries.reserve(RESERVED);
        Order { entries }
    }

    /// How many entries stand in it.
    pub fn len(&self) -> usize
        ensures { result ≡ length self.now }
    {
        self.entries.len()
    }

    /// Puts a number at a moment, behind those that are no later. Where memory runs out, nothing has changed.
    pub fn put(&mut self, at: u64, number: u32) -> Result<(), OutOfMemory>
        ensures ok { OnOk result (IsPermutation ((at, number) ∷ self.old) self.new) }
        ensures err { OnErr result (self.new ≡ self.old) }
    {
        let place = place_for(&self.entries, at);
        self.entries.insert(place, (at, number))?;
        Ok(())
    }

    /// The first number, where its moment is before this one.
    pub fn first_before(&self, moment: u64) -> Option<u32>
        ensures some { IfSome result (λ number. IsFirstBefore moment number self.now) }
        ensures none { IfNone result (AllByRecursion (λ e. moment ≤ e.0) self.now) }
    {
        let (at, number) = *self.entries.front()?;
        if at < moment {
            return Some(number);
        }
        None
    }

    /// Lets the first number go.
    pub fn take_first(&mut self)
        ensures { self.new ≡ drop 1 self.old }
    {
        let _first = self.entries.pop_front();
    }

    /// Puts the first number at another moment. Takes no memory.
    pub fn put_off(&mut self, at: u64)
        ensures { (e : ℕ × ℕ) (others : List (ℕ × ℕ)) → self.old ≡ e ∷ others → IsPermutation ((at, e.1) ∷ others) self.new }
    {
        let Some(first) = self.entries.pop_front() else {
            return;
        };
        let place = place_for(&self.entries, at);
        match self.entries.insert(place, (at, first.1)) {
            Ok(()) => {}
            Err(_) => unreachable!(),
        }
    }

    /// Lets go of the entries of which a test says `false`; the others stay as they stand.
    pub fn retain<F: FnMut(&(u64, u32)) -> bool>(&mut self, stays: F)
        requires { F.IsAlwaysCallable stays }
        ensures { IsFiltered (CalledAt F.FnMut) stays self.old self.new }
    {
        self.entries.retain(stays);
    }
}

/// The place of a moment, behind those that are no later.
fn place_for(entries: &VecDeque<(u64, u32)>, at: u64) -> usize
    requires { IsInOrder entries.now.items }
    ensures inside { result ≤ length entries.now.items }
    ensures before { AllByRecursion (λ e. e.0 ≤ at) (take result entries.now.items) }
    ensures behind { AllByRecursion (λ e. at < e.0) (drop result entries.now.items) }
{
    let mut place = entries.len();
    while place > 0 {
        if entries[place - 1].0 <= at {
            return place;
        }
        place -= 1;
    }
    place
}
