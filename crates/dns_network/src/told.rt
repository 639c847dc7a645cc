//! A list of calls that only clauses read. It takes no memory, and its methods do nothing.
ghost use Rattle.std.specs.Prelude.{◌≡◌, List, [], ◌∷◌, ◌++◌};
ghost use Rattle.std.specs.Borrow.{ftrue};
ghost use Rattle.dns_network.specs.Calls.{Noted};

use crate::call::Call;
use std::marker::{Model, PhantomData};

/// The calls of a network, in order. It is the program's own account of them: a network is trusted to note each call that it makes, and no
/// other.
#[derive(Drop)]
pub struct Told {
    marker: PhantomData<u8>,
    pub ghost calls: { List Noted },
}

impl Model for Told {
    ghost also_owns = { λ _. ftrue };
}

// It owns nothing.
unsafe impl Send for Told {}

impl Told {
    /// None yet.
    pub fn new() -> Told
        ensures { result.calls ≡ [] }
    {
        Told {
            marker: PhantomData,
        }
    }

    /// One more, and the bytes that it moved.
    pub fn note(&mut self, _call: &Call, _bytes: &[u8])
        ensures { self.new.calls ≡ self.old.calls ++ (_call.now, _bytes.now) ∷ [] }
    {}
}
