//! The keys of names: what the map of a zone is searched for.

ghost use Rattle.std.specs.Prelude.{◌≡◌, ◌<◌, ◌+◌, ◌-◌, ◌≤◌, ◌++◌, true, length, map, take, drop, ◌∷◌, []};
ghost use Rattle.std.specs.Char.{to_ascii_lowercase};
ghost use Rattle.dns_name.specs.Name.{IsName, IsLabel, label_bytes, labels_bytes, is_at_or_below};
ghost use Rattle.dns_zone_map.specs.Keys.{key_of};

use dns_name::{Name, NameView};
use std::marker::Model;

/// How many bytes a key takes at most: fewer than a name, which has its zero byte and the labels of the origin besides.
const MAX_KEY_LEN: usize = 255;

/// A name of a zone, with the keys of it and of the names above it, down to the origin: they are written once, and a
/// look that walks from the origin down to the name, or back up, takes a front of them at each step.
///
/// The key of a name is its labels below the origin, in small letters, from the origin on, each behind its length.
#[derive(Drop)]
pub struct ZoneKey<'a> {
    origin: &'a Name,
    name: NameView<'a>,
    /// The key of the name, at the end.
    room: &'a [u8],
    start: usize,
    /// How many labels the name has more than the origin.
    depth: usize,
}

impl<'a> Model for ZoneKey<'a> {
    ghost use Rattle.dns_zone_map.specs.Keys.{Placed};
    ghost use Rattle.dns_zone_map.specs.KeyRoom.{HasKey};

    ghost Value = { Placed };

    ghost view = { λ k. record { origin = k.origin.now; name = k.name } };

    ghost invariant = { λ k. HasKey k.origin.now k.name k.room.now k.start k.depth };
}

impl<'a> ZoneKey<'a> {
    /// The keys of a name at the origin or below it, in whatever case. They are written into the room, whatever that
    /// holds. Takes no memory.
    pub fn new(origin: &'a Name, name: NameView<'a>, room: &'a mut [u8; 255]) -> ZoneKey<'a>
        requires { is_at_or_below name origin.now ≡ true }
        ensures origin { result.origin ≡ origin.now }
        ensures name { result.name ≡ name.entry }
    {
        let written = write_labels(origin, &name, room);
        ZoneKey {
            origin,
            name,
            room,
            start: written.start,
            depth: written.depth,
        }
    }

    /// How many labels the name has more than the origin.
    pub fn depth(&self) -> usize
        ensures { length self.now.origin + result ≡ length self.now.name }
    {
        self.depth
    }

    /// The key of the name.
    pub(crate) fn whole(&self) -> &[u8]
        ensures key { result.now ≡ key_of self.now.origin self.now.name }
        ensures within { is_at_or_below self.now.name self.now.origin ≡ true }
        ensures short { length result.now ≤ 255 }
    {
        behind(self.room, self.start)
    }

    /// The key of the name without its first `labels_dropped` labels.
    pub(crate) fn above(&self, labels_dropped: usize) -> &[u8]
        requires { length self.now.origin + labels_dropped ≤ length self.now.name }
        ensures key { result.now ≡ key_of self.now.origin (drop labels_dropped self.now.name) }
        ensures within { is_at_or_below (drop labels_dropped self.now.name) self.now.origin ≡ true }
        ensures short { length result.now ≤ 255 }
    {
        let end = cut_back(&self.name, labels_dropped, MAX_KEY_LEN);
        part(self.room, self.start, end)
    }
}

/// Writes the key of the label `*` under a name (RFC 4592 2.1.1), from the key of the name, at the front of a room, and
/// tells how many bytes it has.
pub(crate) fn write_star(room: &mut [u8; 257], key: &[u8]) -> usize
    requires { length key.now ≤ 255 }
    ensures within { result ≤ 257 }
    ensures key { take result room.new ≡ key.now ++ 1 ∷ 42 ∷ [] }
{
    let end = key.len();
    let front = &mut room[..end];
    front.copy_from_slice(key);
    room[end] = 1;
    room[end + 1] = b'*';
    end + 2
}

/// The bytes from one place to another.
fn part(bytes: &[u8], start: usize, end: usize) -> &[u8]
    requires order { start ≤ end }
    requires within { end ≤ length bytes.now }
    ensures { result.now ≡ take (end - start) (drop start bytes.now) }
{
    &bytes[start..end]
}

/// The bytes before a place.
pub(crate) fn front_of(bytes: &[u8], end: usize) -> &[u8]
    requires { end ≤ length bytes.now }
    ensures { result.now ≡ take end bytes.now }
{
    &bytes[..end]
}

/// The bytes from a place on.
pub(crate) fn behind(bytes: &[u8], start: usize) -> &[u8]
    requires { start ≤ length bytes.now }
    ensures { result.now ≡ drop start bytes.now }
{
    &bytes[start..]
}

/// Writes the key of a name at the end of a room, and gives the place where it starts.
pub(crate) fn write_key(origin: &Name, name: &Name, room: &mut [u8]) -> usize
    requires within { is_at_or_below name.now origin.now ≡ true }
    requires room { length room.old ≡ 255 }
    ensures size { length room.new ≡ 255 }
    ensures start { result ≤ 255 }
    ensures key { drop result room.new ≡ key_of origin.now name.now }
    ensures named { IsName name.now }
{
    write_labels(origin, &name.view(), room).start
}

/// What was written of a key.
#[derive(Clone, Copy)]
struct Written {
    /// The place where it starts.
    start: usize,
    /// How many labels it has.
    depth: usize,
}

/// Writes the key of a name at the end of a room: label by label, until only those of the origin are left.
fn write_labels(origin: &Name, name: &NameView<'_>, room: &mut [u8]) -> Written
    requires within { is_at_or_below name.now origin.now ≡ true }
    requires room { length room.old ≡ 255 }
    ensures size { length room.new ≡ 255 }
    ensures start { result.start ≤ 255 }
    ensures key { drop result.start room.new ≡ key_of origin.now name.now }
    ensures depth { length origin.now + result.depth ≡ length name.now }
    ensures named { IsName name.now }
{
    let first = first_place(origin, name);
    let mut start = MAX_KEY_LEN;
    let mut depth = 0;
    let mut labels = name.labels();
    while start > first {
        match labels.next() {
            Some(label) => start = put_label(room, start, label),
            None => return Written { start, depth },
        }
        depth += 1;
    }
    Written { start, depth }
}

/// Where the key of a name starts.
fn first_place(origin: &Name, name: &NameView<'_>) -> usize
    requires { is_at_or_below name.now origin.now ≡ true }
    ensures is { result + length (labels_bytes name.now) ≡ 255 + length (labels_bytes origin.now) }
    ensures named { IsName name.now }
{
    MAX_KEY_LEN - (name.len() - origin.len())
}

/// Writes a label in small letters, behind its length, before a place, and gives the place where it starts.
fn put_label(room: &mut [u8], end: usize, label: &[u8]) -> usize
    requires label { length label.now < 64 }
    requires before { length label.now + 1 ≤ end }
    requires within { end ≤ length room.old }
    ensures start { result ≡ end - (length label.now + 1) }
    ensures put { room.new ≡ take result room.old ++ (label_bytes (map to_ascii_lowercase label.now) ++ drop end room.old) }
{
    let start = end - (label.len() + 1);
    room[start] = label.len() as u8;
    let place = &mut room[start + 1..end];
    copy_folded(place, label);
    start
}

/// Copies the bytes of a label into a room of their number, with ASCII capitals made small. Labels are short, so that byte by byte is
/// the fastest way.
fn copy_folded(room: &mut [u8], label: &[u8])
    requires { length room.old ≡ length label.now }
    ensures { room.new ≡ map to_ascii_lowercase label.now }
{
    for place in 0..label.len() {
        room[place] = label[place].to_ascii_lowercase();
    }
}

/// The place that is before another by as many bytes as the first labels of a name take.
fn cut_back(name: &NameView<'_>, labels: usize, end: usize) -> usize
    requires labels { labels ≤ length name.now }
    requires fits { length (labels_bytes name.now) ≤ end }
    ensures { result + length (labels_bytes name.now) ≡ end + length (labels_bytes (drop labels name.now)) }
{
    let mut place = end;
    let mut left = name.labels();
    for _ in 0..labels {
        match left.next() {
            Some(label) => place -= label.len() + 1,
            None => return place,
        }
    }
    place
}
