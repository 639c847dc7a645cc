//! Why a zone's text was not read.

ghost use Rattle.std.specs.Prelude.{◌≡◌};
ghost use Rattle.dns_presentation.specs.declared.fault.ValueFault.TheVariants as value;
ghost use Rattle.dns_presentation.specs.declared.fault.EntryFault.TheVariants as entry;

use dns_io::OutOfMemory;
use std::alloc::{AllocError, AllocFailed};

/// Why words were not read.
#[derive(Clone, Copy, Debug)]
pub(crate) enum ValueFault {
    /// They do not have the form.
    Refused,
    /// Memory ran out.
    OutOfMemory,
}

impl From<OutOfMemory> for ValueFault {
    ghost from_gives = { λ _ e. e ≡ value.OutOfMemory };

    fn from(_error: OutOfMemory) -> ValueFault {
        ValueFault::OutOfMemory
    }
}

impl From<AllocError> for ValueFault {
    ghost from_gives = { λ _ e. e ≡ value.OutOfMemory };

    fn from(_error: AllocError) -> ValueFault {
        ValueFault::OutOfMemory
    }
}

impl<T: Drop> From<AllocFailed<T>> for ValueFault {
    ghost from_gives = { λ _ e. e ≡ value.OutOfMemory };

    fn from(_error: AllocFailed<T>) -> ValueFault {
        ValueFault::OutOfMemory
    }
}

/// What is wrong with an entry of a zone's text. Where more is wrong than one thing, the first in this order counts.
#[derive(Clone, Copy, Debug, PartialEq, Eq)]
pub enum EntryKind {
    /// A bracket is open at its end, or closes none.
    Paren,
    /// A quote is not closed on its line.
    Quote,
    /// A directive that is neither `$ORIGIN` nor `$TTL`.
    Directive,
    /// The owner, or the origin of a directive, is no name, or there is none.
    Name,
    /// The TTL, or that of a directive, is no time, or there is none.
    Ttl,
    /// The type is none that may stand in a zone, or there is none; also where a class other than IN stands.
    RecordType,
    /// The data is not of the form of its type.
    Data,
}

/// Why an entry of a zone's text was not read.
#[derive(Clone, Copy, Debug)]
pub enum EntryFault {
    /// It is at fault.
    Refused(EntryKind),
    /// Memory ran out.
    OutOfMemory,
}

impl From<OutOfMemory> for EntryFault {
    ghost from_gives = { λ _ e. e ≡ entry.OutOfMemory };

    fn from(_error: OutOfMemory) -> EntryFault {
        EntryFault::OutOfMemory
    }
}
