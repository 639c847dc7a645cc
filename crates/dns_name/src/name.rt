//! Domain names: lists of labels, held as the bytes that they take in a message.

ghost use Rattle.std.specs.Prelude.{◌≡◌, ◌+◌, ◌<◌, ◌≤◌, ◌↔◌, ℕ, List, [], ◌∷◌, ◌++◌, length, map, IsTrue, IfOk, IfSome, IsSomeAnd, OnOk, OnErr};
ghost use Rattle.std.specs.Char.{to_ascii_lowercase};
ghost use Rattle.std.specs.Iterator.{YieldsFirstRef, item_count};
ghost use Rattle.dns_name.specs.Name.{IsLabel, IsName, name_len, fold_of, SameName, IsAtOrBelow, is_same_name, is_at_or_below, label_bytes, labels_bytes, name_bytes};
ghost use Rattle.dns_name.specs.NameBuffer.{labels_of, IsWire};
ghost use Rattle.dns_name.specs.NameInMessage.{StandsAt};

use crate::view::NameView;
use dns_io::OutOfMemory;
use std::alloc::{AllocError, Global};
use std::marker::Model;

/// The most bytes that a label may have (RFC 1035 2.3.4).
pub(crate) const MAX_LABEL_LEN: usize = 63;

/// The most bytes that a name may take in a message (RFC 1035 2.3.4), without the zero byte at its end.
pub(crate) const MAX_WIRE_LEN: usize = 254;

/// A domain name (RFC 1035 2.3.4): labels of 1 to 63 bytes each, the one farthest from the root first, that take at
/// most 255 bytes in a message. The root is the name without a label.
///
/// Letters keep the case in which they came, and `==` tells it apart; [`Name::same`] and [`Name::at_or_below`] do not
/// (RFC 1035 2.3.3).
#[derive(Debug, Drop)]
pub struct Name {
    /// Each label as its length in one byte and its bytes, without the zero byte at the end.
    wire: Vec<u8>,
}

impl Model for Name {
    ghost Value = { List (List ℕ) };

    ghost view = { λ n. labels_of n.wire.items };

    ghost invariant = { λ n. IsWire n.wire.items };
}

impl Name {
    /// The name of the root, which takes no memory.
    pub fn root(alloc: Global) -> Name
        ensures { result ≡ [] }
    {
        Name {
            wire: Vec::new(alloc),
        }
    }

    /// The name whose labels these bytes are.
    pub(crate) fn from_wire(wire: Vec<u8>) -> Name
        requires { IsWire wire.items }
        ensures { result ≡ labels_of wire.items }
    {
        Name { wire }
    }

    /// Reads the name that begins at a place of a message, with its pointers followed, and tells the place after it
    /// (RFC 1035 4.1.4). `None` is given where no name stands there.
    pub fn read(
        alloc: Global,
        message: &[u8],
        place: usize,
    ) -> Result<Option<(Name, usize)>, OutOfMemory>
        // What is read stands there.
        ensures found { IfOk result (λ read. IfSome read (λ found. StandsAt message.now place found.0 found.1)) }
        // What stands there is read.
        ensures only { IfOk result (λ read. (labels : List (List ℕ)) (j : ℕ) → StandsAt message.now place labels j
            → IsSomeAnd read (λ found. (found.0 ≡ labels) × (found.1 ≡ j))) }
        ensures within { IfOk result (λ read. IfSome read (λ found. found.1 ≤ length message.now)) }
    {
        let mut wire = Vec::new(alloc);
        let mut start = place;
        let mut at = place;
        let mut end = None;
        while at < message.len() {
            let n = message[at] as usize;
            if n == 0 {
                return Ok(Some((Name { wire }, end.unwrap_or(at + 1))));
            }
            if n <= MAX_LABEL_LEN {
                if n >= message.len() - at {
                    return Ok(None);
                }
                if wire.len() + n >= MAX_WIRE_LEN {
                    return Ok(None);
                }
                wire.extend_from_slice(&message[at..at + 1 + n])?;
                at += 1 + n;
                continue;
            }
            if n < 192 {
                return Ok(None);
            }
            if at + 1 >= message.len() {
                return Ok(None);
            }
            let target = (n - 192) * 256 + message[at + 1] as usize;
            if target >= start {
                return Ok(None);
            }
            end = Some(end.unwrap_or(at + 2));
            start = target;
            at = target;
        }
        Ok(None)
    }

    /// How many bytes the name takes in a message where nothing is compressed, from 1 for the root to 255.
    #[tactic(auto, using(crate::proofs::Lengths::length_name_bytes))]
    pub fn len(&self) -> usize
        ensures bytes { result ≡ name_len self.now }
        ensures written { result ≡ length (name_bytes self.now) }
        ensures name { IsName self.now }
    {
        self.wire.len() + 1
    }

    /// How many labels the name has, 0 for the root.
    pub fn label_count(&self) -> usize
        ensures { result ≡ length self.now }
    {
        label_count(&self.wire)
    }

    /// The labels, the one farthest from the root first.
    pub fn labels(&self) -> Labels<'_>
        ensures labels { result ≡ self.now }
        ensures name { IsName self.now }
    {
        Labels { left: &self.wire }
    }

    /// The bytes that the labels take in a message, each behind its length, without the zero byte at the end (RFC 1035 3.1).
    #[inline]
    pub fn as_wire(&self) -> &[u8]
        ensures bytes { result.now ≡ labels_bytes self.now }
        ensures folded { map to_ascii_lowercase result.now ≡ labels_bytes (fold_of self.now) }
    {
        &self.wire
    }

    /// The name, lent.
    pub fn view(&self) -> NameView<'_>
        ensures { result ≡ self.now }
    {
        NameView::of_wire(&self.wire)
    }

    /// Whether the names are equal but for the case of ASCII letters (RFC 1035 2.3.3).
    pub fn same(&self, other: &Name) -> bool
        ensures meaning { IsTrue result ↔ SameName self.now other.now }
        ensures test { result ≡ is_same_name self.now other.now }
    {
        are_alike(&self.wire, &other.wire)
    }

    /// Whether the name is the other or stands below it, with the case of ASCII letters left aside. Every name is at or
    /// below the root.
    pub fn at_or_below(&self, other: &Name) -> bool
        ensures meaning { IsTrue result ↔ IsAtOrBelow self.now other.now }
        ensures test { result ≡ is_at_or_below self.now other.now }
    {
        is_at_or_below(&self.wire, &other.wire)
    }

    /// The name with ASCII capitals made small (RFC 1035 2.3.3).
    pub fn folded(&self, alloc: Global) -> Result<Name, OutOfMemory>
        ensures { IfOk result (λ name. name ≡ fold_of self.now) }
    {
        Ok(Name {
            wire: self.wire.to_ascii_lowercase(alloc)?,
        })
    }

    /// A copy of the name, its letters in the case that they have here.
    pub fn copy(&self) -> Result<Name, OutOfMemory>
        ensures { IfOk result (λ name. name ≡ self.now) }
    {
        Ok(self.clone()?)
    }

    /// Becomes the name whose labels these bytes are, each behind its length, without the zero byte at the end. The room that
    /// the name has is used again; where memory runs out it is the root.
    pub fn refill(&mut self, wire: &[u8]) -> Result<(), OutOfMemory>
        requires { IsWire wire.now }
        ensures ok { OnOk result (self.new ≡ labels_of wire.now) }
        ensures err { OnErr result (self.new ≡ []) }
    {
        self.wire.clear();
        self.wire.extend_from_slice(wire)?;
        Ok(())
    }

    /// Adds a label at the end, next to the root. [`Name::len`] tells whether there is room for it.
    pub fn push(&mut self, label: &[u8]) -> Result<(), OutOfMemory>
        requires label { IsLabel label.now }
        requires room { name_len self.old + length label.now + 1 ≤ 255 }
        ensures ok { OnOk result (self.new ≡ self.old ++ label.now ∷ []) }
        ensures err { OnErr result (self.new ≡ self.old) }
    {
        push_label(&mut self.wire, label)
    }

    /// Writes the name at the end of a message, without pointers (RFC 1035 3.1).
    pub fn write(&self, out: &mut Vec<u8>) -> Result<(), OutOfMemory>
        ensures ok { OnOk result (out.new.items ≡ out.old.items ++ name_bytes self.now) }
        ensures err { OnErr result (out.new.items ≡ out.old.items) }
    {
        out.reserve(self.wire.len() + 1)?;
        out.extend_from_slice(&self.wire)?;
        out.push(0)?;
        Ok(())
    }
}

impl Clone for Name {
    ghost is_clone = { λ one copy. copy ≡ one };

    fn clone(&self) -> Result<Name, AllocError> {
        Ok(Name {
            wire: self.wire.clone()?,
        })
    }
}

impl PartialEq for Name {
    ghost use Rattle.std.specs.Cmp.{partial_equiv_from_equiv};
    ghost use Rattle.dns_name.specs.NameEquality.{name_eq, name_eq_laws};

    ghost eq = { name_eq };

    ghost laws = { partial_equiv_from_equiv name_eq_laws };

    fn eq(&self, other: &Name) -> bool {
        self.wire.as_slice() == other.wire.as_slice()
    }
}

impl Eq for Name {
    ghost use Rattle.dns_name.specs.NameEquality.{name_eq_laws};

    ghost laws = { name_eq_laws };
}

/// The labels of a name that are left to give, the one farthest from the root first.
#[derive(Drop)]
pub struct Labels<'a> {
    left: &'a [u8],
}

impl<'a> Model for Labels<'a> {
    ghost Value = { List (List ℕ) };

    ghost view = { λ s. labels_of s.left.now };

    ghost invariant = { λ s. IsWire s.left.now };
}

impl<'a> Labels<'a> {
    /// The labels that these bytes are, each behind its length.
    pub(crate) fn of_wire(left: &'a [u8]) -> Labels<'a>
        requires { IsWire left.now }
        ensures { result ≡ labels_of left.now }
    {
        Labels { left }
    }
}

impl<'a> Iterator for Labels<'a> {
    type Item = &'a [u8];

    ghost next_gives = { YieldsFirstRef (λ s. s) };

    ghost remaining = { item_count (λ s. s) };

    fn next(&mut self) -> Option<&'a [u8]> {
        let left = self.left;
        if left.is_empty() {
            return None;
        }
        let (first, rest) = left.split_at(1 + left[0] as usize);
        self.left = rest;
        Some(&first[1..])
    }
}

fn label_count(bytes: &[u8]) -> usize
    requires { IsWire bytes.now }
    ensures { result ≡ length (labels_of bytes.now) }
{
    let mut at = 0;
    let mut count = 0;
    while at < bytes.len() {
        at += 1 + bytes[at] as usize;
        count += 1;
    }
    count
}

/// Whether the labels of `other` are the last ones of `bytes`. The labels that are too many are passed over first.
pub(crate) fn is_at_or_below(bytes: &[u8], other: &[u8]) -> bool
    requires bytes { IsWire bytes.now }
    requires other { IsWire other.now }
    ensures { IsTrue result ↔ IsAtOrBelow (labels_of bytes.now) (labels_of other.now) }
{
    let mut at = 0;
    while bytes.len() - at > other.len() {
        at += 1 + bytes[at] as usize;
    }
    are_alike(&bytes[at..], other)
}

/// Whether the bytes are equal but for the case of ASCII letters. A length byte is none of these.
pub(crate) fn are_alike(bytes: &[u8], other: &[u8]) -> bool
    ensures { IsTrue result ↔ (map to_ascii_lowercase bytes.now ≡ map to_ascii_lowercase other.now) }
{
    bytes == other || bytes.eq_ignore_ascii_case(other)
}

fn push_label(bytes: &mut Vec<u8>, label: &[u8]) -> Result<(), OutOfMemory>
    requires { length label.now < 64 }
    ensures ok { OnOk result (bytes.new.items ≡ bytes.old.items ++ label_bytes label.now) }
    ensures err { OnErr result (bytes.new.items ≡ bytes.old.items) }
{
    bytes.reserve(1 + label.len())?;
    bytes.push(label.len() as u8)?;
    bytes.extend_from_slice(label)?;
    Ok(())
}
