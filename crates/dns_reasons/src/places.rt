//! The words that stand at a fixed place behind a command.

ghost use Rattle.std.specs.Prelude.{◌≡◌, IfOk};
ghost use Rattle.dns_reasons.specs.Places.{is_place, missing, refused};

use crate::values::takes_number;
use crate::why::Why;
use dns_io::OutOfMemory;
use dns_name::{Name, ProtoError};
use std::alloc::Global;

/// What stands at a place behind a command.
#[derive(Clone, Copy, Debug, PartialEq, Eq)]
pub(crate) enum Place {
    /// The name at the top of the zone.
    Origin,
    /// How many rows make the zone.
    Length,
    /// The number of the first row.
    From,
    /// What messages are drawn from.
    Seed,
    /// How many messages are drawn.
    Count,
}

/// Whether a word may stand at a place, as the programs' readers have it.
pub(crate) fn is_place(alloc: Global, place: Place, word: &str) -> Result<bool, OutOfMemory>
    ensures { IfOk result (λ is. is ≡ is_place place word.now) }
{
    match place {
        Place::Origin => is_name(alloc, word),
        Place::Length => Ok(takes_number(0, u64::MAX, word.as_bytes())),
        Place::From => Ok(takes_number(1, u64::MAX, word.as_bytes())),
        Place::Seed => Ok(takes_number(0, u64::MAX, word.as_bytes())),
        Place::Count => Ok(takes_number(1, 100_000, word.as_bytes())),
    }
}

/// Whether a word is a domain name (RFC 1035 5.1).
fn is_name(alloc: Global, word: &str) -> Result<bool, OutOfMemory>
    ensures { IfOk result (λ is. is ≡ is_place Place.Origin word.now) }
{
    match Name::parse(alloc, word) {
        Ok(_) => Ok(true),
        Err(ProtoError::OutOfMemory) => Err(OutOfMemory),
        Err(_) => Ok(false),
    }
}

/// Why a word may not stand at a place.
pub(crate) fn refused(place: Place) -> Why
    ensures { result ≡ refused place }
{
    match place {
        Place::Origin => Why::Name,
        Place::Length | Place::Seed => Why::Range(0, u64::MAX),
        Place::From => Why::Range(1, u64::MAX),
        Place::Count => Why::Range(1, 100_000),
    }
}

/// That the word at a place is missing.
pub(crate) fn missing(place: Place) -> Why
    ensures { result ≡ missing place }
{
    match place {
        Place::Origin => Why::NoOrigin,
        Place::Length => Why::NoLength,
        Place::From => Why::NoFrom,
        Place::Seed => Why::NoSeed,
        Place::Count => Why::NoCount,
    }
}
