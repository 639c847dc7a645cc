//! What a connection is owed.

ghost use Rattle.std.specs.Prelude.{◌≡◌, ◌<◌, ◌≤◌, drop, length, IfOk, OnErr, OnOk};
ghost use Rattle.dns_readiness.specs.Links.{first_owed, more_owed};

use dns_io::OutOfMemory;
use std::alloc::Global;
use std::marker::Model;

/// The bytes that a peer did not take yet, since when there are such, and how many there were in all since then. It is one pointer, since
/// most connections are owed nothing. Those that were taken are let go with the last one, so that each is moved once.
#[derive(Drop)]
pub(crate) struct Owed {
    held: Box<Held>,
}

/// The same, in a block of its own.
#[derive(Drop)]
struct Held {
    bytes: Vec<u8>,
    taken: usize,
    marked: u64,
    whole: u64,
}

impl Model for Owed {
    ghost use Rattle.std.specs.Prelude.{◌≤◌, drop, length};
    ghost use Rattle.dns_readiness.specs.Decisions.{OwedSeen};

    ghost Value = { OwedSeen };

    ghost view = { λ o. record {
      left = drop o.held.value.taken o.held.value.bytes.items;
      marked = o.held.value.marked;
      whole = o.held.value.whole;
    } };

    ghost invariant = { λ o. o.held.value.taken ≤ length o.held.value.bytes.items };
}

impl Owed {
    /// These bytes, from this moment on.
    pub(crate) fn new(alloc: Global, left: &[u8], now: u64) -> Result<Owed, OutOfMemory>
        ensures { IfOk result (λ owed. owed ≡ first_owed now left.now) }
    {
        let mut bytes = Vec::new(alloc);
        bytes.extend_from_slice(left)?;
        let held = Held {
            bytes,
            taken: 0,
            marked: now,
            whole: left.len() as u64,
        };
        Ok(Owed {
            held: Box::new(alloc, held)?,
        })
    }

    /// Since when there are such.
    pub(crate) fn marked(&self) -> u64
        ensures { result ≡ self.now.marked }
    {
        self.held.marked
    }

    /// How many there were in all since then.
    pub(crate) fn whole(&self) -> u64
        ensures { result ≡ self.now.whole }
    {
        self.held.whole
    }

    /// How many are left.
    pub(crate) fn len(&self) -> usize
        ensures { result ≡ length self.now.left }
    {
        self.held.bytes.len() - self.held.taken
    }

    /// Those that are left, in order.
    pub(crate) fn as_slice(&self) -> &[u8]
        ensures { result.now ≡ self.now.left }
    {
        let (_, left) = self.held.bytes.as_slice().split_at(self.held.taken);
        left
    }

    /// The first so many were taken.
    pub(crate) fn take(&mut self, count: usize)
        requires { count ≤ length self.old.left }
        ensures { self.new ≡ record self.old { left = drop count self.old.left } }
    {
        self.held.taken += count;
    }

    /// These bytes more are owed. Where memory runs out, nothing has changed.
    pub(crate) fn add(&mut self, bytes: &[u8]) -> Result<(), OutOfMemory>
        ensures ok { OnOk result (self.new ≡ more_owed bytes.now self.old) }
        ensures err { OnErr result (self.new ≡ self.old) }
    {
        self.held.bytes.extend_from_slice(bytes)?;
        self.held.whole = self.held.whole.saturating_add(bytes.len() as u64);
        Ok(())
    }
}
