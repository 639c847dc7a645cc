//! What a connection is owed.

ghost use Rattle.std.specs.Prelude.{◌≡◌, ◌<◌, ◌≤◌, drop, length, IfOk, OnErr, OnOk};
ghost use Rattle.dns_connections.specs.Links.{HasRoom, first_owed, more_owed};

use dns_io::OutOfMemory;
use std::alloc::Global;
use std::marker::Model;

/// The bytes that a peer did not take yet, since when there are such, and how many there were in all since then. It is one pointer, since
/// most connections are owed nothing. Those that were taken are let go with the last one, so that each is moved once.
#[derive(Drop)]
pub(crate) struct Owed {
    held: Box<Held>,
}

/// Memory for what a connection will be owed.
#[derive(Drop)]
pub(crate) struct Room {
    held: Box<Held>,
}

/// The same, in a block of its own.
#[derive(Drop)]
struct Held {
    bytes: Vec<u8>,
    taken: usize,
    marked: u64,
    whole: u64,
}

impl Model for Owed {
    ghost use Rattle.std.specs.Prelude.{◌<◌, drop, length};
    ghost use Rattle.dns_connections.specs.Links.{OwedSeen};

    ghost Value = { OwedSeen };

    ghost view = { λ o. record {
      left = drop o.held.value.taken o.held.value.bytes.items;
      marked = o.held.value.marked;
      whole = o.held.value.whole;
    } };

    ghost invariant = { λ o. o.held.value.taken < length o.held.value.bytes.items };
}

impl Model for Room {
    ghost use Rattle.std.specs.Prelude.{◌≡◌, ℕ, [], vec_capacity};

    ghost Value = { ℕ };

    ghost view = { λ r. vec_capacity r.held.value.bytes };

    ghost invariant = { λ r. (r.held.value.bytes.items ≡ []) × (r.held.value.taken ≡ 0) };
}

impl Room {
    /// Memory for so many bytes.
    pub(crate) fn new(alloc: Global, size: usize) -> Result<Room, OutOfMemory>
        ensures { IfOk result (λ room. size ≤ room) }
    {
        let mut bytes = Vec::new(alloc);
        bytes.reserve(size)?;
        let held = Held {
            bytes,
            taken: 0,
            marked: 0,
            whole: 0,
        };
        Ok(Room {
            held: Box::new(alloc, held)?,
        })
    }

    /// There is memory for so many bytes from now on.
    pub(crate) fn grow(&mut self, size: usize) -> Result<(), OutOfMemory>
        ensures { OnOk result (size ≤ self.new) }
    {
        self.held.bytes.reserve(size)?;
        Ok(())
    }

    /// These bytes are owed, from this moment on.
    pub(crate) fn owe(self, left: &[u8], now: u64) -> Owed
        requires some { 0 < length left.now }
        requires room { length left.now ≤ self }
        ensures { result ≡ first_owed now left.now }
    {
        let Room { mut held } = self;
        match held.bytes.extend_from_slice(left) {
            Ok(()) => {}
            Err(_) => unreachable!(),
        }
        held.marked = now;
        held.whole = left.len() as u64;
        Owed { held }
    }
}

/// Finds memory for so many bytes, where there is not enough yet.
pub(crate) fn make_room(
    alloc: Global,
    room: &mut Option<Room>,
    size: usize,
) -> Result<(), OutOfMemory>
    ensures { OnOk result (HasRoom size room.new) }
{
    match room {
        Some(room) => room.grow(size),
        None => {
            *room = Some(Room::new(alloc, size)?);
            Ok(())
        }
    }
}

impl Owed {
    /// Since when there are such.
    pub(crate) fn marked(&self) -> u64
        ensures { result ≡ self.now.marked }
    {
        self.held.marked
    }

    /// How many there were in all since then.
    pub(crate) fn whole(&self) -> u64
        ensures { result ≡ self.now.whole }
    {
        self.held.whole
    }

    /// How many are left, which is one at least.
    pub(crate) fn len(&self) -> usize
        ensures is { result ≡ length self.now.left }
        ensures some { 0 < result }
    {
        self.held.bytes.len() - self.held.taken
    }

    /// Those that are left, in order.
    pub(crate) fn as_slice(&self) -> &[u8]
        ensures is { result.now ≡ self.now.left }
        ensures some { 0 < length result.now }
    {
        let (_, left) = self.held.bytes.as_slice().split_at(self.held.taken);
        left
    }

    /// The first so many were taken, which are not all.
    pub(crate) fn take(&mut self, count: usize)
        requires { count < length self.old.left }
        ensures { self.new ≡ record self.old { left = drop count self.old.left } }
    {
        self.held.taken += count;
    }

    /// These bytes more are owed. Where memory runs out, nothing has changed.
    pub(crate) fn add(&mut self, bytes: &[u8]) -> Result<(), OutOfMemory>
        ensures ok { OnOk result (self.new ≡ more_owed bytes.now self.old) }
        ensures err { OnErr result (self.new ≡ self.old) }
    {
        self.held.bytes.extend_from_slice(bytes)?;
        self.held.whole = self.held.whole.saturating_add(bytes.len() as u64);
        Ok(())
    }
}
