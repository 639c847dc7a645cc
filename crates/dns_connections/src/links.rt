//! Connections, in the order of their numbers.

ghost use Rattle.std.specs.Prelude.{◌≡◌, ◌≤◌, ◌<◌, ◌+◌, ◌||◌, length, filter, IfNone, IfSome};
ghost use Rattle.dns_connections.specs.Links.{GivesWay, IsAt, IsEarliest, IsNone, IsUntoldAt, Rises, StandsAt, is_idle, is_kept, is_of, is_overdue, link_at, mark, since};

use crate::link::Link;
use dns_network::Streams;
use std::collections::VecDeque;

/// Where the connection of a number stands, if any does.
pub(crate) fn place_of<N: Streams>(links: &VecDeque<Link<N>>, number: u32) -> Option<usize>
    requires { Rises links.now.items }
    ensures found { IfSome result (λ place. IsAt links.now.items number place) }
    ensures none { IfNone result (IsNone (is_of number) links.now.items (length links.now.items)) }
{
    let mut low = 0;
    let mut high = links.len();
    while low < high {
        let middle = low + (high - low) / 2;
        let here = links[middle].number();
        if here == number {
            return if_stands(links, middle, number);
        }
        if here < number {
            low = middle + 1;
            continue;
        }
        high = middle;
    }
    None
}

/// A place in which the connection of a number stands, if it did not end.
fn if_stands<N: Streams>(links: &VecDeque<Link<N>>, place: usize, number: u32) -> Option<usize>
    requires rises { Rises links.now.items }
    requires inside { place < length links.now.items }
    requires number { (link_at links.now.items place).number ≡ number }
    ensures found { IfSome result (λ found. IsAt links.now.items number found) }
    ensures none { IfNone result (IsNone (is_of number) links.now.items (length links.now.items)) }
{
    if links[place].stands() {
        return Some(place);
    }
    None
}

/// Where the first one from a place on stands whose end is to be told.
pub(crate) fn first_untold<N: Streams>(links: &VecDeque<Link<N>>, from: usize) -> Option<usize>
    ensures { IfSome result (λ place. IsUntoldAt links.now.items place) }
{
    for place in from..links.len() {
        if links[place].is_untold() {
            return Some(place);
        }
    }
    None
}

/// Which one gives way, if any can.
pub(crate) fn gives_way<N: Streams>(
    links: &VecDeque<Link<N>>,
    patience: u64,
    now: u64,
) -> Option<usize>
    ensures way { GivesWay patience now links.now.items result }
    ensures stands { IfSome result (λ place. StandsAt links.now.items place) }
{
    match oldest(links) {
        Some(place) => Some(place),
        None => most_overdue(links, patience, now),
    }
}

/// Where the one stands that was silent for the longest time, among those that are owed nothing.
fn oldest<N: Streams>(links: &VecDeque<Link<N>>) -> Option<usize>
    ensures { IsEarliest is_idle since links.now.items (length links.now.items) result }
{
    let mut found = None;
    for place in 0..links.len() {
        found = older_of(links, found, place);
    }
    found
}

/// Where the one stands that is owed something for the longest time, if that is longer than the patience.
fn most_overdue<N: Streams>(links: &VecDeque<Link<N>>, patience: u64, now: u64) -> Option<usize>
    ensures { IsEarliest (is_overdue patience now) mark links.now.items (length links.now.items) result }
{
    let mut found = None;
    for place in 0..links.len() {
        found = more_overdue_of(links, found, place, patience, now);
    }
    found
}

/// The place that was found before this one, or this one, if it is owed nothing and was silent for longer, or none was found.
fn older_of<N: Streams>(
    links: &VecDeque<Link<N>>,
    found: Option<usize>,
    place: usize,
) -> Option<usize>
    requires place { place < length links.now.items }
    requires found { IsEarliest is_idle since links.now.items place found }
    ensures { IsEarliest is_idle since links.now.items (place + 1) result }
{
    if !links[place].is_idle() {
        return found;
    }
    match found {
        Some(first) => {
            if links[first].since() <= links[place].since() {
                return found;
            }
            Some(place)
        }
        None => Some(place),
    }
}

/// The place that was found before this one, or this one, if it is overdue and began to be owed something before, or none was found.
fn more_overdue_of<N: Streams>(
    links: &VecDeque<Link<N>>,
    found: Option<usize>,
    place: usize,
    patience: u64,
    now: u64,
) -> Option<usize>
    requires place { place < length links.now.items }
    requires found { IsEarliest (is_overdue patience now) mark links.now.items place found }
    ensures { IsEarliest (is_overdue patience now) mark links.now.items (place + 1) result }
{
    if !links[place].is_overdue(patience, now) {
        return found;
    }
    match found {
        Some(first) => {
            if links[first].mark() <= links[place].mark() {
                return found;
            }
            Some(place)
        }
        None => Some(place),
    }
}

/// Lets go of those that ended, but for those whose end is to be told.
pub(crate) fn drop_ended<N: Streams>(links: &mut VecDeque<Link<N>>)
    ensures { links.new.items ≡ filter is_kept links.old.items }
{
    let all = links.len();
    let mut done = 0;
    while done < all {
        let Some(link) = links.pop_front() else {
            unreachable!()
        };
        done += 1;
        if link.is_kept() {
            links.push_back_reserved(link);
        } else {
            link.forget();
        }
    }
}
