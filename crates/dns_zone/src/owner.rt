//! What the owner of records owns beside a type.

ghost use Rattle.std.specs.Prelude.{◌≡◌, true};
ghost use Rattle.dns_name.specs.Name.{is_at_or_below};
ghost use Rattle.dns_zone.specs.Owner.{owns_another_type, has_another_set};

use crate::zone::Zone;
use dns_name::Name;
use dns_zone_map::{RecordSet, ZoneKey};

impl Zone {
    /// Whether a name at the origin or below it, in whatever case, owns records of another type than this one. Takes no memory.
    pub fn owns_another_type(&self, name: &Name, rtype: u16) -> bool
        requires { is_at_or_below name.now self.now.origin ≡ true }
        ensures { result ≡ owns_another_type self.now.records name.now rtype }
    {
        let map = self.map();
        let mut room = [0u8; 255];
        let key = ZoneKey::new(map.origin(), name.view(), &mut room);
        match map.sets(&key, 0) {
            None => false,
            Some(sets) => has_another_set(sets.as_slice(), rtype),
        }
    }
}

/// Whether there is a set of another type.
fn has_another_set(sets: &[RecordSet], rtype: u16) -> bool
    ensures { result ≡ has_another_set rtype sets.now }
{
    for set in sets {
        if set.rtype() != rtype {
            return true;
        }
    }
    false
}
