//! How many connections may be open at once.

ghost use Rattle.std.specs.Prelude.{◌≡◌, ◌≤◌, ◌<◌, ◌+◌, IfOk, true};
ghost use Rattle.dns_connections.specs.Accepting.{held_more, held_with, none_held};

use dns_io::OutOfMemory;
use std::alloc::Global;
use std::marker::Model;
use std::sync::Arc;
use std::sync::atomic::{AtomicUsize, Ordering};

/// Places for connections, of which all crowds of a listener together may take so many. Each crowd has one of these, and gives back what it
/// holds. A crowd claims a place before it accepts a connection, and holds it once there is one. Where none is free, a connection of its own
/// gives way, or it claims none: so no more are open than may be, but for one of each crowd in the moment in which another gives way.
///
/// No clause says how many all have taken: another thread may take one at any time.
#[derive(Drop)]
pub struct OpenPlaces {
    most: u32,
    /// How many are held by this one.
    held: usize,
    /// How many are claimed or held by all.
    taken: Arc<AtomicUsize, Global>,
}

impl Model for OpenPlaces {
    ghost use Rattle.std.specs.Prelude.{◌≤◌, ◌+◌};
    ghost use Rattle.dns_connections.specs.Accepting.{PlacesSeen};

    ghost Value = { PlacesSeen };

    ghost view = { λ p. record { most = p.most; held = p.held } };

    ghost invariant = { λ p. p.held ≤ p.most + 1 };
}

impl OpenPlaces {
    /// So many places, of which none is taken.
    pub fn new(alloc: Global, most: u32) -> Result<OpenPlaces, OutOfMemory>
        ensures { IfOk result (λ places. places ≡ none_held most) }
    {
        let taken = Arc::new(alloc, AtomicUsize::new(0))?;
        Ok(OpenPlaces {
            most,
            held: 0,
            taken,
        })
    }

    /// The same places once more, for another crowd, which holds none yet.
    pub fn again(&self) -> Result<OpenPlaces, OutOfMemory>
        ensures { IfOk result (λ places. places ≡ none_held self.now.most) }
    {
        let taken = Arc::try_clone(&self.taken)?;
        Ok(OpenPlaces {
            most: self.most,
            held: 0,
            taken,
        })
    }

    /// How many are held by this one.
    pub(crate) fn held(&self) -> usize
        ensures is { result ≡ self.now.held }
        ensures bound { result ≤ self.now.most + 1 }
    {
        self.held
    }

    /// How many are claimed or held by all.
    pub(crate) fn taken(&self) -> usize {
        self.taken.load(Ordering::SeqCst)
    }

    /// Whether this crowd may hold one more.
    pub(crate) fn may_hold(&self) -> bool
        ensures { result ≡ true → self.now.held ≤ self.now.most }
    {
        self.held <= self.most as usize
    }

    /// Claims one; whether it is one of those that may be taken.
    pub(crate) fn claim(&mut self) -> bool
        ensures { self.new ≡ self.old }
    {
        let before = self.taken.fetch_add(1, Ordering::SeqCst);
        before < self.most as usize
    }

    /// Claims it no more.
    pub(crate) fn unclaim(&mut self)
        ensures { self.new ≡ self.old }
    {
        self.taken.fetch_sub(1, Ordering::SeqCst);
    }

    /// Holds the one that it claims, where the connection stands, and else claims it no more.
    pub(crate) fn hold(&mut self, stands: bool)
        requires { self.old.held ≤ self.old.most }
        ensures { self.new ≡ record self.old { held = held_more stands self.old.held } }
    {
        if stands {
            self.held += 1;
        } else {
            self.unclaim();
        }
    }

    /// Gives one back, where a connection does not stand any more.
    pub(crate) fn keep(&mut self, stands: bool)
        ensures { self.new ≡ record self.old { held = held_with stands self.old.held } }
    {
        if !stands && self.held > 0 {
            self.taken.fetch_sub(1, Ordering::SeqCst);
            self.held -= 1;
        }
    }

    /// Gives all back.
    pub(crate) fn clear(&mut self)
        ensures { self.new ≡ record self.old { held = 0 } }
    {
        self.taken.fetch_sub(self.held, Ordering::SeqCst);
        self.held = 0;
    }
}
