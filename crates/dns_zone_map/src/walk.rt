//! The way from the origin of a zone down to a name.

ghost use Rattle.std.specs.Prelude.{◌≡◌, ◌<◌, ◌+◌, length, drop, IfOk};
ghost use Rattle.dns_zone_map.specs.Keys.{star_above};
ghost use Rattle.dns_zone_map.specs.Presence.{IsPresence};
ghost use Rattle.dns_zone_map.specs.Walk.{down};

use crate::key::{ZoneKey, front_of, write_star};
use crate::presence::Presence;
use crate::tree::{Tree, presence_in};
use crate::zone_map::ZoneMap;
use dns_io::OutOfMemory;
use std::alloc::Global;
use std::marker::Model;

/// The way from the origin down to a name, on which it stands at one name after another, at the origin first. The keys of these names are
/// fronts of the name's key, and all but the origin's stand in one tree: it is found once.
#[derive(Drop)]
pub struct Walk<'a, 'k> {
    alloc: Global,
    map: &'a ZoneMap,
    /// The tree in which all names on the way stand but the origin.
    tree: &'a Tree,
    key: &'k ZoneKey<'k>,
    /// The key of the name to which it leads.
    bytes: &'k [u8],
    /// How many bytes the key has of the name at which it stands.
    end: usize,
    /// How many bytes the key has of the name above.
    above: usize,
    /// How many labels are left to the name.
    left: usize,
}

impl<'a, 'k> Model for Walk<'a, 'k> {
    ghost use Rattle.dns_zone_map.specs.Walk.{Way, IsWay};

    ghost Value = { Way };

    ghost view = { λ w. record { origin = w.map.now.origin; records = w.map.now.records; name = w.key.now.name; left = w.left } };

    ghost invariant = { λ w. IsWay w.map.now.origin w.map.now.records w.key.now.name w.bytes.now w.tree.now.entries w.end w.above w.left };
}

impl<'a, 'k> Walk<'a, 'k> {
    /// The way to the name of this key, at the origin.
    pub(crate) fn new(alloc: Global, map: &'a ZoneMap, key: &'k ZoneKey<'k>) -> Walk<'a, 'k>
        requires { key.now.origin ≡ map.now.origin }
        ensures origin { result.origin ≡ map.now.origin }
        ensures records { result.records ≡ map.now.records }
        ensures name { result.name ≡ key.now.name }
        ensures left { length map.now.origin + result.left ≡ length key.now.name }
    {
        let bytes = key.whole();
        Walk {
            alloc,
            map,
            tree: map.tree_of(bytes),
            key,
            bytes,
            end: 0,
            above: 0,
            left: key.depth(),
        }
    }

    /// How many labels are left to the name.
    pub fn left(&self) -> usize
        ensures { result ≡ self.now.left }
    {
        self.left
    }

    /// Goes one label down, and tells what the zone has at that name. Takes memory at most where that name owns nothing, and the first label
    /// below the origin has many names under it.
    pub fn down(&mut self) -> Result<Presence<'a>, OutOfMemory>
        requires { 0 < self.old.left }
        ensures way { self.new ≡ down self.old }
        ensures met { IfOk result (IsPresence self.new.records (drop self.new.left self.new.name)) }
    {
        let size = usize::from(self.bytes[self.end]);
        self.above = self.end;
        self.end += size + 1;
        self.left -= 1;
        presence_in(self.alloc, self.tree, front_of(self.bytes, self.end))
    }

    /// What the zone has at the label `*` under the name above the one at which it stands (RFC 4592 2.1.1). Takes memory as `down` does.
    pub fn star(&self) -> Result<Presence<'a>, OutOfMemory>
        requires { length self.now.origin + self.now.left < length self.now.name }
        ensures { IfOk result (IsPresence self.now.records (star_above (self.now.left + 1) self.now.name)) }
    {
        let mut room = [0u8; 257];
        let end = write_star(&mut room, front_of(self.bytes, self.above));
        let key = front_of(&room, end);
        if self.above == 0 {
            return presence_in(self.alloc, self.map.tree_of(key), key);
        }
        presence_in(self.alloc, self.tree, key)
    }
}
