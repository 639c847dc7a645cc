//! Connections of the operating system, in order of their numbers.

ghost use Rattle.std.specs.Prelude.{◌≡◌, ◌≤◌, ◌<◌, ◌+◌, length, ◌||◌, ◌&&◌, not, filter, IfSome, true};
ghost use Rattle.std.specs.List.{list_any};
ghost use Rattle.dns_readiness.specs.Links.{GivesWay, IsAt, IsEarliest, IsFirst, IsFloor, is_idle, is_over, is_overdue, is_served, is_watched};
ghost use Rattle.dns_readiness.specs.Links.{link_at, mark, may_leave, since, standing, stands};

use crate::link::Link;

/// How many are looked at before all are.
const FEW: usize = 64;

/// Where the connection of a number stands.
pub(crate) fn place_of(links: &[Link], number: u32) -> Option<usize>
    ensures { IfSome result (λ place. IsAt links.now number place) }
{
    let mut low = 0;
    let mut high = links.len();
    while low < high {
        let middle = low + (high - low) / 2;
        let here = links[middle].number();
        if here == number {
            return if_stands(links, middle);
        }
        if here < number {
            low = middle + 1;
            continue;
        }
        high = middle;
    }
    None
}

/// A place, where the connection in it did not end.
pub(crate) fn if_stands(links: &[Link], place: usize) -> Option<usize>
    requires { place < length links.now }
    ensures { IfSome result (λ found. (found ≡ place) × (stands (link_at links.now place) ≡ true)) }
{
    if links[place].stands() {
        return Some(place);
    }
    None
}

/// How many stand.
pub(crate) fn standing(links: &[Link]) -> usize
    ensures { result ≡ standing links.now }
{
    let mut count = 0;
    for link in links {
        if !link.stands() {
            continue;
        }
        count += 1;
    }
    count
}

/// Whether one can give way.
pub(crate) fn any_may_leave(links: &[Link], patience: u64, now: u64) -> bool
    ensures { result ≡ list_any (may_leave patience now) links.now }
{
    links.iter().any(|link| link.may_leave(patience, now))
}

/// Whether one is owed something, was closed, or broke.
pub(crate) fn any_watched(links: &[Link]) -> bool
    ensures { result ≡ list_any is_watched links.now }
{
    links.iter().any(|link| link.is_watched())
}

/// Where the first one from a place on stands that is over.
pub(crate) fn first_over(links: &[Link], from: usize, patience: u64, now: u64) -> Option<usize>
    ensures { IsFirst (is_over patience now) links.now from result }
{
    for place in from..links.len() {
        if links[place].is_over(patience, now) {
            return Some(place);
        }
    }
    None
}

/// Where the one stands that was silent for the longest time, among those of the first so many that are owed nothing.
fn oldest(links: &[Link], bound: usize) -> Option<usize>
    requires { bound ≤ length links.now }
    ensures { IsEarliest is_idle since links.now bound result }
{
    let mut found = None;
    for place in 0..bound {
        found = older_of(links, found, place);
    }
    found
}

/// The same, where none that is owed nothing was silent since before `floor`: one that was silent since then, if a few from a place on have
/// such a one, and else all are looked at. Those that came at once stand side by side, so that for newcomers that come at once all are
/// looked at about once.
fn oldest_from(links: &[Link], floor: u64, from: usize, bound: usize) -> Option<usize>
    requires floor { IsFloor floor links.now }
    requires bound { bound ≤ length links.now }
    ensures { IsEarliest is_idle since links.now bound result }
{
    let end = bound.min(from.saturating_add(FEW));
    for place in from..end {
        if links[place].is_idle() && links[place].since() <= floor {
            return Some(place);
        }
    }
    oldest(links, bound)
}

/// Where the one stands that is owed something for the longest time, among the first so many, if that is longer than the patience.
fn most_overdue(links: &[Link], bound: usize, patience: u64, now: u64) -> Option<usize>
    requires { bound ≤ length links.now }
    ensures { IsEarliest (is_overdue patience now) mark links.now bound result }
{
    let mut found = None;
    for place in 0..bound {
        found = more_overdue_of(links, found, place, patience, now);
    }
    found
}

/// Which one of the first so many gives way, if any can. None that is owed nothing was silent since before `floor`, and one that was silent
/// since then is looked for from a place on.
pub(crate) fn gives_way(
    links: &[Link],
    floor: u64,
    from: usize,
    bound: usize,
    patience: u64,
    now: u64,
) -> Option<usize>
    requires floor { IsFloor floor links.now }
    requires bound { bound ≤ length links.now }
    ensures { GivesWay patience now links.now bound result }
{
    match oldest_from(links, floor, from, bound) {
        Some(place) => Some(place),
        None => most_overdue(links, bound, patience, now),
    }
}

/// The moment since which one was silent, if it is before another one, and else that one.
pub(crate) fn lower(floor: u64, link: &Link) -> u64
    ensures below { result ≤ floor }
    ensures within { result ≤ since link.now }
{
    floor.min(link.since())
}

/// Lets go of those that ended, and of those that were closed and are over.
pub(crate) fn drop_closed(links: &mut Vec<Link>, patience: u64, now: u64)
    ensures rest { links.new.items ≡ filter (λ one. stands one && (is_served one.stage || not (is_over patience now one))) links.old.items }
    ensures few { standing links.new.items ≤ standing links.old.items }
{
    links.retain(|link| link.stands() && (link.is_served() || !link.is_over(patience, now)));
}

/// Lets go of those that ended.
pub(crate) fn drop_ended(links: &mut Vec<Link>)
    ensures rest { links.new.items ≡ filter stands links.old.items }
    ensures all { standing links.new.items ≡ standing links.old.items }
{
    links.retain(|link| link.stands());
}

/// The place that was found before this one, or this one, if it is owed nothing and was silent for longer, or none was found.
fn older_of(links: &[Link], found: Option<usize>, place: usize) -> Option<usize>
    requires place { place < length links.now }
    requires found { IsEarliest is_idle since links.now place found }
    ensures { IsEarliest is_idle since links.now (place + 1) result }
{
    if !links[place].is_idle() {
        return found;
    }
    match found {
        Some(first) => {
            if links[first].since() <= links[place].since() {
                return found;
            }
            Some(place)
        }
        None => Some(place),
    }
}

/// The place that was found before this one, or this one, if it is overdue and began to be owed something before, or none was found.
fn more_overdue_of(
    links: &[Link],
    found: Option<usize>,
    place: usize,
    patience: u64,
    now: u64,
) -> Option<usize>
    requires place { place < length links.now }
    requires found { IsEarliest (is_overdue patience now) mark links.now place found }
    ensures { IsEarliest (is_overdue patience now) mark links.now (place + 1) result }
{
    if !links[place].is_overdue(patience, now) {
        return found;
    }
    match found {
        Some(first) => {
            if links[first].mark() <= links[place].mark() {
                return found;
            }
            Some(place)
        }
        None => Some(place),
    }
}
