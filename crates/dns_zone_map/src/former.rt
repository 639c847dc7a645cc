//! What names owned before a change of the map that may be undone.

ghost use Rattle.std.specs.Prelude.{◌≡◌, true, ◌<◌, length, take, slice_index_or, IfOk, IfSome, OnOk, OnErr};
ghost use Rattle.std.specs.Str.{bytes_eq};
ghost use Rattle.std.specs.Map.{lookup, set_value};
ghost use Rattle.dns_zone_map.specs.Sets.{sets_or_none};
ghost use Rattle.dns_zone_map.specs.Removal.{is_key};
ghost use Rattle.dns_zone_map.specs.declared.former.FormerSets.{FormerSets};
ghost use Rattle.dns_zone_map.specs.Tree.{KeysApart, OwnsSame};
ghost use Rattle.dns_zone_map.specs.Former.{restored, covers, KeptLast, IsKept, IsKeptIn, IsSameUndoing, HasName};

use crate::names::Names;
use crate::sets::OwnerSets;
use dns_io::OutOfMemory;
use std::alloc::Global;

/// The key of a name, and the sets that it owned.
#[derive(Drop)]
pub(crate) struct FormerSets {
    key: Vec<u8>,
    sets: OwnerSets,
}

/// What it takes to undo changes of a map: what names owned before, from the first that was kept to the last, the next number
/// then, and how many records there were.
#[derive(Drop)]
pub(crate) struct Undoing {
    pub(crate) formers: Vec<FormerSets>,
    pub(crate) next: u64,
    pub(crate) count: usize,
}

/// Keeps what the name with this key owns, where changes can be undone and nothing was kept of it since then, so that its sets
/// may be changed. Where memory runs out nothing was kept.
pub(crate) fn keep_former(
    alloc: Global,
    names: &mut Names,
    undoing: &mut Option<Undoing>,
    key: &[u8],
) -> Result<(), OutOfMemory>
    ensures ok { OnOk result (IsKept key.now names.old undoing.old names.new undoing.new) }
    ensures err_names { OnErr result (names.new ≡ names.old) }
    ensures err_undoing { OnErr result (IsSameUndoing undoing.old undoing.new) }
{
    match undoing {
        None => Ok(()),
        Some(undoing) => keep_in(alloc, names, &mut undoing.formers, key),
    }
}

/// Keeps what the name with this key owns, unless something was kept of it before.
fn keep_in(
    alloc: Global,
    names: &mut Names,
    formers: &mut Vec<FormerSets>,
    key: &[u8],
) -> Result<(), OutOfMemory>
    ensures ok { OnOk result (IsKeptIn key.now names.old formers.old.items names.new formers.new.items) }
    ensures err_names { OnErr result (names.new ≡ names.old) }
    ensures err_formers { OnErr result (formers.new.items ≡ formers.old.items) }
{
    if is_kept_last(formers.as_slice(), key) {
        return Ok(());
    }
    keep_last(alloc, names, formers, key)
}

/// Whether sets were kept last of the name with this key. So a name that is changed again and again is kept once, and none is
/// sought among all.
fn is_kept_last(formers: &[FormerSets], key: &[u8]) -> bool
    ensures { result ≡ true → covers formers.now key.now ≡ true }
{
    let count = formers.len();
    if count == 0 {
        return false;
    }
    is_of(&formers[count - 1], key)
}

/// Whether these are the sets of the name with this key.
fn is_of(former: &FormerSets, key: &[u8]) -> bool
    ensures { result ≡ bytes_eq former.now.key.items key.now }
{
    former.key.as_slice() == key
}

/// Keeps what the name with this key owns, which the map then has, with no sets where it was not there.
fn keep_last(
    alloc: Global,
    names: &mut Names,
    formers: &mut Vec<FormerSets>,
    key: &[u8],
) -> Result<(), OutOfMemory>
    ensures ok { OnOk result (KeptLast key.now names.old formers.old.items names.new formers.new.items) }
    ensures err_names { OnErr result (names.new ≡ names.old) }
    ensures err_formers { OnErr result (formers.new.items ≡ formers.old.items) }
{
    let former = former_sets(alloc, names, key)?;
    formers.push(former)?;
    if names.add_missing(alloc, key).is_err() {
        formers.pop();
        return Err(OutOfMemory);
    }
    Ok(())
}

/// Takes the name with this key away where it owns nothing, unless it has to stay so that changes can be undone.
pub(crate) fn sweep_unless(names: &mut Names, undoing: &Option<Undoing>, key: &[u8])
    ensures same { OwnsSame names.old names.new }
    ensures stays { IfSome undoing.now (λ _. names.new ≡ names.old) }
{
    match undoing {
        None => names.sweep_name(key),
        Some(_) => (),
    }
}

/// A copy of the sets of the name with this key, with the key.
pub(crate) fn former_sets(
    alloc: Global,
    names: &Names,
    key: &[u8],
) -> Result<FormerSets, OutOfMemory>
    ensures key { IfOk result (λ former. former.key.items ≡ key.now) }
    ensures sets { IfOk result (λ former. former.sets ≡ sets_or_none (lookup (is_key key.now) names.now)) }
    ensures apart { IfOk result (λ _. KeysApart names.now) }
{
    let mut stored = Vec::with_capacity(alloc, key.len())?;
    stored.extend_from_slice(key)?;
    Ok(FormerSets {
        key: stored,
        sets: names.copied_sets(alloc, key)?,
    })
}

/// Gives a name the sets back that it owned, where the map has the name. Takes no memory.
fn put_back(names: &mut Names, former: &mut FormerSets)
    ensures names { names.new ≡ set_value (is_key former.old.key.items) names.old former.old.sets }
    ensures key { former.new.key ≡ former.old.key }
    ensures apart { KeysApart names.old }
{
    names.swap_sets(former.key.as_slice(), &mut former.sets);
}

/// Gives a name at a place of a vector the sets back that it owned.
fn put_back_at(names: &mut Names, formers: &mut Vec<FormerSets>, place: usize)
    requires { place < length formers.old.items }
    ensures names { (d : FormerSets) → names.new ≡ set_value
        (is_key (slice_index_or formers.old.items place d).key.items) names.old (slice_index_or formers.old.items place d).sets }
    ensures before { take place formers.new.items ≡ take place formers.old.items }
    ensures long { length formers.new.items ≡ length formers.old.items }
    ensures apart { KeysApart names.old }
{
    let former = &mut formers[place];
    put_back(names, former)
}

/// Gives names the sets back that they owned before those were first kept. The vector of what was kept is from the first to
/// the last. Takes no memory.
pub(crate) fn put_all_back(names: &mut Names, formers: &mut Vec<FormerSets>)
    ensures { names.new ≡ restored formers.old.items names.old }
{
    let mut left = formers.len();
    while left > 0 {
        left -= 1;
        put_back_at(names, formers, left);
    }
}

/// Takes the names away that own nothing, of those of which sets were kept. Takes no memory.
#[tactic(auto, using(crate::proofs::Swept::swept_more, crate::proofs::Swept::swept_none))]
pub(crate) fn sweep(names: &mut Names, formers: &[FormerSets])
    ensures { OwnsSame names.old names.new }
{
    for former in formers {
        names.sweep_name(former.key.as_slice());
    }
}
