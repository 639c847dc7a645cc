//! The types and classes of questions and answers, as they are counted.

ghost use Rattle.std.specs.Prelude.{◌≡◌, ◌<◌, ◌==◌, ◌≤◌, length, replicate, unwrap_or};
ghost use Rattle.dns_counts.specs.Counting.{grown, seen_or_unknown};
ghost use Rattle.dns_counts.specs.Counters.{types_in, classes_in, classed};
ghost use Rattle.dns_counts.specs.Pairs.{pairs_of};
ghost use Rattle.std.specs.List.{position_from};

use crate::counting::{count_code, place_or_last, raise_at};
use crate::labels::{CLASS_CODES, TYPE_CODES, TYPE_PLACES};
use crate::pairs::{Form, Pairs};
use dns_wire::record_type::OPT;

/// Where a type is counted: at its label, or at the last one where it has none. The common types are not sought.
fn place_of_type(code: u16) -> usize
    ensures place { result ≡ unwrap_or (position_from (λ one. code == one) 0 TYPE_CODES) (length TYPE_CODES) }
    ensures within { result ≤ length TYPE_CODES }
{
    let index = usize::from(code);
    if index < TYPE_PLACES.len() {
        usize::from(TYPE_PLACES[index])
    } else {
        place_or_last(&TYPE_CODES, code)
    }
}

/// Counts a type that was seen so many times.
pub(crate) fn count_type(counts: &mut [u64], code: u16, times: u64)
    requires { length TYPE_CODES < length counts.old }
    ensures { counts.new ≡ grown counts.old (seen_or_unknown TYPE_CODES (replicate times code)) }
{
    raise_at(counts, place_of_type(code), times);
}

/// Counts a class that was seen so many times.
pub(crate) fn count_class(counts: &mut [u64], code: u16, times: u64)
    requires { length CLASS_CODES < length counts.old }
    ensures { counts.new ≡ grown counts.old (seen_or_unknown CLASS_CODES (replicate times code)) }
{
    count_code(counts, &CLASS_CODES, code, times);
}

/// Counts the type of each pair.
fn count_listed_types(counts: &mut [u64], pairs: &[(u16, u16)])
    requires { length TYPE_CODES < length counts.old }
    ensures { counts.new ≡ grown counts.old (seen_or_unknown TYPE_CODES (types_in pairs.now)) }
{
    for one in pairs {
        count_type(counts, one.0, 1);
    }
}

/// Counts the class of each pair whose type is not OPT.
fn count_listed_classes(counts: &mut [u64], pairs: &[(u16, u16)])
    requires { length CLASS_CODES < length counts.old }
    ensures { counts.new ≡ grown counts.old (seen_or_unknown CLASS_CODES (classes_in (classed pairs.now))) }
{
    for one in pairs {
        if one.0 == OPT {
            continue;
        }
        count_class(counts, one.1, 1);
    }
}

/// Counts the class of a pair that stands so many times, where its type is not OPT.
pub(crate) fn count_repeated_class(counts: &mut [u64], pair: (u16, u16), times: u64)
    requires { length CLASS_CODES < length counts.old }
    ensures { counts.new ≡ grown counts.old (seen_or_unknown CLASS_CODES (classes_in (classed (replicate times pair)))) }
{
    if pair.0 != OPT {
        count_class(counts, pair.1, times);
    }
}

/// Counts the types of pairs: a run by one sum, whatever its length.
pub(crate) fn count_types(counts: &mut [u64], pairs: &Pairs)
    requires { length TYPE_CODES < length counts.old }
    ensures { counts.new ≡ grown counts.old (seen_or_unknown TYPE_CODES (types_in pairs.now)) }
{
    match pairs.form() {
        Form::Run(pair, times) => count_type(counts, pair.0, *times as u64),
        Form::Listed(all) => count_listed_types(counts, all.as_slice()),
    }
}

/// Counts the classes of pairs whose type is not OPT, which has a payload size in its place (RFC 6891 6.1.2): those of a run by
/// one sum.
pub(crate) fn count_classes(counts: &mut [u64], pairs: &Pairs)
    requires { length CLASS_CODES < length counts.old }
    ensures { counts.new ≡ grown counts.old (seen_or_unknown CLASS_CODES (classes_in (classed pairs.now))) }
{
    match pairs.form() {
        Form::Run(pair, times) => count_repeated_class(counts, *pair, *times as u64),
        Form::Listed(all) => count_listed_classes(counts, all.as_slice()),
    }
}
