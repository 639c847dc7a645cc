//! A name behind a pointer.

ghost use Rattle.std.specs.Prelude.{◌≡◌, IfOk};

use dns_io::OutOfMemory;
use dns_name::Name;
use std::alloc::{AllocError, Global};
use std::marker::Model;

/// A domain name, held in a block of its own so that what has it is smaller: one pointer where a [`Name`] has three words.
#[derive(Debug, Drop)]
pub struct BoxedName {
    name: Box<Name>,
}

impl Model for BoxedName {
    ghost use Rattle.std.specs.Prelude.{List, ℕ};

    ghost Value = { List (List ℕ) };

    ghost view = { λ b. b.name.value };
}

impl BoxedName {
    /// Moves a name into a block of its own.
    pub fn new(alloc: Global, name: Name) -> Result<BoxedName, OutOfMemory>
        ensures { IfOk result (λ boxed. boxed ≡ name) }
    {
        Ok(BoxedName {
            name: Box::new(alloc, name)?,
        })
    }

    /// The name.
    pub fn as_name(&self) -> &Name
        ensures { result.now ≡ self.now }
    {
        &self.name
    }
}

impl Clone for BoxedName {
    ghost is_clone = { λ one copy. copy ≡ one };

    fn clone(&self) -> Result<BoxedName, AllocError> {
        Ok(BoxedName {
            name: self.name.clone()?,
        })
    }
}

impl PartialEq for BoxedName {
    ghost use Rattle.std.specs.Cmp.{partial_equiv_from_equiv};
    ghost use Rattle.dns_name.specs.NameEquality.{name_eq, name_eq_laws};

    ghost eq = { name_eq };

    ghost laws = { partial_equiv_from_equiv name_eq_laws };

    fn eq(&self, other: &BoxedName) -> bool {
        self.as_name() == other.as_name()
    }
}

impl Eq for BoxedName {
    ghost use Rattle.dns_name.specs.NameEquality.{name_eq_laws};

    ghost laws = { name_eq_laws };
}
