//! How long a connection may be silent.

ghost use Rattle.std.specs.Prelude.{◌≡◌, ◌<◌, ◌^◌};

use std::marker::Model;

/// The limit of a connection, in milliseconds, below 2^47; 0 for none.
#[derive(Debug, Drop)]
pub struct Limit {
    milliseconds: u64,
}

impl Model for Limit {
    ghost use Rattle.std.specs.Prelude.{ℕ, ◌<◌, ◌^◌};

    ghost Value = { ℕ };

    ghost view = { λ l. l.milliseconds };

    ghost invariant = { λ l. l.milliseconds < 2 ^ 47 };
}

impl Limit {
    /// A limit.
    pub fn new(milliseconds: u64) -> Limit
        requires { milliseconds < 2 ^ 47 }
        ensures { result ≡ milliseconds }
    {
        Limit { milliseconds }
    }

    /// The limit in milliseconds.
    pub fn milliseconds(&self) -> u64
        ensures is { result ≡ self.now }
        ensures short { result < 2 ^ 47 }
    {
        self.milliseconds
    }
}
