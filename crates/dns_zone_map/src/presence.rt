//! What a zone has at a name.

ghost use Rattle.std.specs.Prelude.{◌≡◌, if◌then◌else◌};
ghost use Rattle.dns_zone_map.specs.declared.presence.Presence.TheVariants.{Empty, Absent};

use crate::sets::OwnerSets;

/// What a zone has at a name (RFC 4592 2.2).
#[derive(Drop)]
pub enum Presence<'a> {
    /// The name owns these sets.
    Owner(&'a OwnerSets),
    /// The name owns nothing, and a name below it does: an empty non-terminal.
    Empty,
    /// The name does not exist.
    Absent,
}

/// What there is at a name that owns nothing, where it exists or not.
pub(crate) fn without_sets<'a>(exists: bool) -> Presence<'a>
    ensures { result ≡ (if exists then Empty else Absent) }
{
    if exists {
        return Presence::Empty;
    }
    Presence::Absent
}
