//! The type and class of each record that was written.

ghost use Rattle.std.specs.Prelude.{◌≡◌, [], length, replicate};
ghost use Rattle.dns_counts.specs.Pairs.{pairs_of};

use std::marker::Model;

/// How pairs are held.
#[derive(Clone, Debug, Drop)]
pub(crate) enum Form {
    /// One pair that stands so many times; it takes no memory.
    Run((u16, u16), usize),
    /// The pairs, one after the other.
    Listed(Vec<(u16, u16)>),
}

/// Types and classes of records (RFC 1035 3.2), which contracts see as the list of pairs, the type first.
#[derive(Clone, Debug, Drop)]
pub struct Pairs {
    form: Form,
}

impl Model for Pairs {
    ghost use Rattle.std.specs.Prelude.{List, ℕ};
    ghost use Rattle.dns_counts.specs.Pairs.{pairs_of};

    ghost Value = { List (ℕ × ℕ) };

    ghost view = { λ p. pairs_of p.form };
}

impl Pairs {
    /// No pairs. It takes no memory.
    pub fn new() -> Pairs
        ensures { result ≡ [] }
    {
        Pairs::run((0, 0), 0)
    }

    /// One pair that stands `count` times, as those of an answer mostly do (RFC 2181 5). It takes no memory.
    pub fn run(pair: (u16, u16), count: usize) -> Pairs
        ensures { result ≡ replicate count pair }
    {
        Pairs {
            form: Form::Run(pair, count),
        }
    }

    /// The pairs of a vector.
    pub fn from_vec(pairs: Vec<(u16, u16)>) -> Pairs
        ensures { result ≡ pairs.items }
    {
        Pairs {
            form: Form::Listed(pairs),
        }
    }

    /// How many pairs there are.
    pub fn len(&self) -> usize
        ensures { result ≡ length self.now }
    {
        match &self.form {
            Form::Run(_, times) => *times,
            Form::Listed(pairs) => pairs.len(),
        }
    }

    /// How they are held.
    pub(crate) fn form(&self) -> &Form
        ensures { pairs_of result.now ≡ self.now }
    {
        &self.form
    }
}
