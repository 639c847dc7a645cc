//! Domain names that are lent: a view of the bytes of their labels.

ghost use Rattle.std.specs.Prelude.{◌≡◌, ◌≤◌, ◌↔◌, length, map, IsTrue, IfOk};
ghost use Rattle.std.specs.Char.{to_ascii_lowercase};
ghost use Rattle.dns_name.specs.Name.{IsName, fold_of, SameName, IsAtOrBelow, is_same_name, is_at_or_below, labels_bytes, name_bytes};
ghost use Rattle.dns_name.specs.NameBuffer.{labels_of, IsWire};

use crate::name::{Labels, Name, are_alike, is_at_or_below};
use dns_io::OutOfMemory;
use std::alloc::Global;
use std::marker::Model;

/// A domain name that is lent, as it stands in a message without a pointer (RFC 1035 3.1) or in a [`Name`]. Letters have the case in
/// which they came.
#[derive(Drop)]
pub struct NameView<'a> {
    /// Each label as its length in one byte and its bytes, without the zero byte at the end.
    wire: &'a [u8],
}

impl<'a> Model for NameView<'a> {
    ghost use Rattle.std.specs.Prelude.{List, ℕ};
    ghost use Rattle.dns_name.specs.NameBuffer.{labels_of, IsWire};

    ghost Value = { List (List ℕ) };

    ghost view = { λ n. labels_of n.wire.now };

    ghost invariant = { λ n. IsWire n.wire.now };
}

impl<'a> NameView<'a> {
    /// The name whose labels these bytes are, each behind its length.
    pub fn of_wire(wire: &'a [u8]) -> NameView<'a>
        requires { IsWire wire.now }
        ensures { result ≡ labels_of wire.now }
    {
        NameView { wire }
    }

    /// The same name, lent once more.
    pub fn again(&self) -> NameView<'a>
        ensures { result ≡ self.now }
    {
        NameView { wire: self.wire }
    }

    /// The bytes that the labels take in a message, each behind its length, without the zero byte at the end; at most 254.
    #[inline]
    pub fn as_wire(&self) -> &'a [u8]
        ensures bytes { result.now ≡ labels_bytes self.now }
        ensures folded { map to_ascii_lowercase result.now ≡ labels_bytes (fold_of self.now) }
        ensures short { length result.now ≤ 254 }
        ensures name { IsName self.now }
    {
        self.wire
    }

    /// How many bytes the name takes in a message where nothing is compressed, from 1 for the root to 255.
    pub fn len(&self) -> usize
        ensures written { result ≡ length (name_bytes self.now) }
        ensures name { IsName self.now }
        ensures short { result ≤ 255 }
    {
        self.wire.len() + 1
    }

    /// The labels, the one farthest from the root first.
    pub fn labels(&self) -> Labels<'a>
        ensures labels { result ≡ self.now }
        ensures name { IsName self.now }
    {
        Labels::of_wire(self.wire)
    }

    /// Whether the names are equal but for the case of ASCII letters (RFC 1035 2.3.3).
    pub fn same(&self, other: &NameView<'_>) -> bool
        ensures meaning { IsTrue result ↔ SameName self.now other.now }
        ensures test { result ≡ is_same_name self.now other.now }
    {
        are_alike(self.wire, other.wire)
    }

    /// Whether the name is the other or stands below it, with the case of ASCII letters left aside.
    pub fn at_or_below(&self, other: &Name) -> bool
        ensures meaning { IsTrue result ↔ IsAtOrBelow self.now other.now }
        ensures test { result ≡ is_at_or_below self.now other.now }
    {
        let other = other.view();
        is_at_or_below(self.wire, other.wire)
    }

    /// A copy of the name, its letters in the case that they have here.
    pub fn copied(&self, alloc: Global) -> Result<Name, OutOfMemory>
        ensures { IfOk result (λ name. name ≡ self.now) }
    {
        let mut name = Name::root(alloc);
        name.refill(self.wire)?;
        Ok(name)
    }

    /// A copy of the name with ASCII capitals made small (RFC 1035 2.3.3).
    pub fn folded(&self, alloc: Global) -> Result<Name, OutOfMemory>
        ensures { IfOk result (λ name. name ≡ fold_of self.now) }
    {
        Ok(Name::from_wire(self.wire.to_ascii_lowercase(alloc)?))
    }
}
