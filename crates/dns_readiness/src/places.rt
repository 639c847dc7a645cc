//! How many connections may be open at once.

ghost use Rattle.std.specs.Prelude.{◌≡◌, ◌≤◌, ◌<◌, ◌+◌, ◌-◌, IfOk, false, true};
ghost use Rattle.dns_readiness.specs.Tables.{none_held};

use crate::decisions::{is_above, may_accept};
use dns_io::OutOfMemory;
use std::alloc::Global;
use std::marker::Model;
use std::sync::Arc;
use std::sync::atomic::{AtomicUsize, Ordering};

/// Places for connections, of which all crowds of a listener together may take so many. Each crowd has one of these, and gives back what it
/// holds. Where two take the last one at once, one of them took one above the most, and has a connection of its own give way.
///
/// No clause says how many all have taken: another thread may take one at any time.
#[derive(Drop)]
pub struct OpenPlaces {
    most: u32,
    /// How many are held by this one.
    held: usize,
    /// The last one that it took was above the most, and it gave none back since.
    over: bool,
    /// How many are held by all.
    taken: Arc<AtomicUsize, Global>,
}

impl Model for OpenPlaces {
    ghost use Rattle.dns_readiness.specs.Decisions.{PlacesSeen};

    ghost Value = { PlacesSeen };

    ghost view = { λ p. record { most = p.most; held = p.held; is_over = p.over } };
}

impl OpenPlaces {
    /// So many places, of which none is taken.
    pub fn new(alloc: Global, most: u32) -> Result<OpenPlaces, OutOfMemory>
        ensures { IfOk result (λ places. places ≡ none_held most) }
    {
        let taken = Arc::new(alloc, AtomicUsize::new(0))?;
        Ok(OpenPlaces {
            most,
            held: 0,
            over: false,
            taken,
        })
    }

    /// The same places once more, for another crowd, which holds none yet.
    pub fn again(&self) -> Result<OpenPlaces, OutOfMemory>
        ensures { IfOk result (λ places. places ≡ none_held self.now.most) }
    {
        let taken = Arc::try_clone(&self.taken)?;
        Ok(OpenPlaces {
            most: self.most,
            held: 0,
            over: false,
            taken,
        })
    }

    /// How many may be taken.
    pub(crate) fn most(&self) -> u32
        ensures { result ≡ self.now.most }
    {
        self.most
    }

    /// How many are held by this one.
    pub(crate) fn held(&self) -> usize
        ensures { result ≡ self.now.held }
    {
        self.held
    }

    /// How many were taken by all.
    pub(crate) fn taken(&self) -> usize {
        self.taken.load(Ordering::SeqCst)
    }

    /// Whether a place is free.
    pub(crate) fn any_free(&self) -> bool {
        !is_above(self.taken(), self.most)
    }

    /// Whether a connection may be accepted, where one of this crowd's can give way, and where none can.
    pub(crate) fn may_take(&self, gives_way: bool) -> bool
        ensures { result ≡ true → self.now.held ≤ self.now.most }
    {
        may_accept(self.over, self.taken(), self.most, gives_way) && self.held <= self.most as usize
    }

    /// Takes one.
    pub(crate) fn take(&mut self)
        requires { self.old.held ≤ self.old.most }
        ensures { self.new ≡ record self.old { held = self.old.held + 1; is_over = self.new.is_over } }
    {
        let before = self.taken.fetch_add(1, Ordering::SeqCst);
        self.over = is_above(before, self.most);
        self.held += 1;
    }

    /// Gives one back.
    pub(crate) fn give_back(&mut self)
        requires { 0 < self.old.held }
        ensures { self.new ≡ record self.old { held = self.old.held - 1; is_over = false } }
    {
        self.taken.fetch_sub(1, Ordering::SeqCst);
        self.held -= 1;
        self.over = false;
    }

    /// Gives back all but so many, where it holds more.
    pub(crate) fn keep(&mut self, count: usize)
        requires { count ≤ self.old.held }
        ensures { self.new ≡ record self.old { held = count; is_over = self.new.is_over } }
    {
        let back = self.held - count;
        if back > 0 {
            self.taken.fetch_sub(back, Ordering::SeqCst);
            self.held = count;
            self.over = false;
        }
    }

    /// Whether one of this crowd's connections has to give way: it took a place above the most, and as many are taken still.
    pub(crate) fn must_yield(&mut self) -> bool
        ensures same { self.new ≡ record self.old { is_over = result } }
        ensures own { result ≡ true → self.old.is_over ≡ true }
    {
        self.over = self.over && self.taken() > self.most as usize;
        self.over
    }
}
