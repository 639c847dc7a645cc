//! How a counter grows.

ghost use Rattle.std.specs.Prelude.{◌≡◌, ◌<◌, ◌≤◌, ◌==◌, ◌∷◌, [], length, replicate, unwrap_or, IsTrue, IfSome, slice_set, slice_index};
ghost use Rattle.dns_counts.specs.Counting.{raised, grown, seen_of, seen_or_unknown, are_distinct};
ghost use Rattle.dns_counts.specs.Labels.{unit};
ghost use Rattle.std.specs.List.{position_from};

use crate::labels::RESPONSE_CODES;
use dns_wire::response_code::NOT_ZONE;

/// A count raised by a number; it stops at the greatest value.
pub(crate) fn raise(count: u64, more: u64) -> u64
    ensures { result ≡ raised count more }
{
    count.saturating_add(more)
}

/// Where a code stands among others.
fn place_of(codes: &[u16], code: u16) -> Option<usize>
    ensures place { result ≡ position_from (λ one. code == one) 0 codes.now }
    ensures within { IfSome result (λ place. place < length codes.now) }
{
    codes.iter().position(|one| code == *one)
}

/// Raises the count at a place by a number.
pub(crate) fn raise_at(counts: &mut [u64], place: usize, more: u64)
    requires { place < length counts.old }
    ensures { counts.new ≡ slice_set counts.old place (raised (slice_index counts.old place) more) }
{
    counts[place] = raise(counts[place], more);
}

/// Raises the count at a place by one where a flag is set.
pub(crate) fn raise_where(counts: &mut [u64], place: usize, flag: bool)
    requires { place < length counts.old }
    ensures { counts.new ≡ slice_set counts.old place (raised (slice_index counts.old place) (unit flag)) }
{
    if flag {
        raise_at(counts, place, 1);
    }
}

/// Where a code is counted: at its label, or at the last one where it is none of the codes.
pub(crate) fn place_or_last(codes: &[u16], code: u16) -> usize
    ensures place { result ≡ unwrap_or (position_from (λ one. code == one) 0 codes.now) (length codes.now) }
    ensures within { result ≤ length codes.now }
{
    match place_of(codes, code) {
        Some(place) => place,
        None => codes.len(),
    }
}

/// Counts a code that was seen so many times at its label, or at the last one where it is none of the codes. The first of
/// the codes is the common one: it is not sought.
#[inline]
pub(crate) fn count_code(counts: &mut [u64], codes: &[u16], code: u16, times: u64)
    requires some { 0 < length codes.now }
    requires room { length codes.now < length counts.old }
    requires distinct { IsTrue (are_distinct codes.now) }
    ensures { counts.new ≡ grown counts.old (seen_or_unknown codes.now (replicate times code)) }
{
    if code == codes[0] {
        raise_at(counts, 0, times);
    } else {
        count_sought(counts, codes, code, times);
    }
}

/// Counts a code that was seen so many times at its label, or at the last one where it is none of the codes.
#[inline(never)]
fn count_sought(counts: &mut [u64], codes: &[u16], code: u16, times: u64)
    requires room { length codes.now < length counts.old }
    requires distinct { IsTrue (are_distinct codes.now) }
    ensures { counts.new ≡ grown counts.old (seen_or_unknown codes.now (replicate times code)) }
{
    raise_at(counts, place_or_last(codes, code), times);
}

/// Counts a code that was seen at its label, where it has one. The first of the codes is not sought.
#[inline]
pub(crate) fn count_known(counts: &mut [u64], codes: &[u16], code: u16)
    requires some { 0 < length codes.now }
    requires room { length codes.now ≤ length counts.old }
    requires distinct { IsTrue (are_distinct codes.now) }
    ensures { counts.new ≡ grown counts.old (seen_of codes.now (code ∷ [])) }
{
    if code == codes[0] {
        raise_at(counts, 0, 1);
    } else {
        count_known_sought(counts, codes, code);
    }
}

/// Counts a code that was seen at its label, where it has one.
#[inline(never)]
fn count_known_sought(counts: &mut [u64], codes: &[u16], code: u16)
    requires room { length codes.now ≤ length counts.old }
    requires distinct { IsTrue (are_distinct codes.now) }
    ensures { counts.new ≡ grown counts.old (seen_of codes.now (code ∷ [])) }
{
    match place_of(codes, code) {
        Some(place) => raise_at(counts, place, 1),
        None => {}
    }
}

/// Counts a response code at its label, where it has one. Those up to NotZone stand each at the place of its number.
pub(crate) fn count_response(counts: &mut [u64], code: u16)
    requires { length RESPONSE_CODES ≤ length counts.old }
    ensures { counts.new ≡ grown counts.old (seen_of RESPONSE_CODES (code ∷ [])) }
{
    if code <= NOT_ZONE {
        raise_at(counts, usize::from(code), 1);
    } else {
        count_known_sought(counts, &RESPONSE_CODES, code);
    }
}

/// Raises each count by its number.
pub(crate) fn raise_each(counts: &mut [u64], more: &[u64])
    requires { length more.now ≤ length counts.old }
    ensures { counts.new ≡ grown counts.old more.now }
{
    for (place, number) in more.iter().enumerate() {
        counts[place] = raise(counts[place], *number);
    }
}
