//! The types and classes of records that are lent, as they are counted.

ghost use Rattle.std.specs.Prelude.{◌≡◌, ◌<◌, length, take, replicate, IsTrue};
ghost use Rattle.dns_wire.specs.Given.{in_parts, kinds};
ghost use Rattle.dns_counts.specs.Counting.{grown, seen_or_unknown};
ghost use Rattle.dns_counts.specs.Counters.{types_in, classes_in, classed};
ghost use Rattle.dns_counts.specs.declared.labels.TheConstants.{TYPE_CODES, CLASS_CODES};

use crate::kinds::{count_repeated_class, count_type};
use dns_wire::{LentRecords, Record};

/// Counts the types and the classes of the first `written` records of parts.
pub(crate) fn count_parts(
    types: &mut [u64],
    classes: &mut [u64],
    parts: &[LentRecords<'_>],
    written: usize,
)
    requires types { length TYPE_CODES < length types.old }
    requires classes { length CLASS_CODES < length classes.old }
    ensures types { types.new ≡ grown types.old (seen_or_unknown TYPE_CODES (types_in (kinds (take written (in_parts parts.now))))) }
    ensures classes { classes.new ≡ grown classes.old
        (seen_or_unknown CLASS_CODES (classes_in (classed (kinds (take written (in_parts parts.now)))))) }
{
    let mut left = written;
    for part in parts {
        let records = part.as_kept();
        let (first, _) = records.split_at(records.len().min(left));
        count_records(types, classes, first);
        left = left.saturating_sub(part.len());
    }
}

/// Counts the types and the classes of records. Those of a set, which all have one (RFC 2181 5), are counted by one sum.
fn count_records(types: &mut [u64], classes: &mut [u64], records: &[Record])
    requires types { length TYPE_CODES < length types.old }
    requires classes { length CLASS_CODES < length classes.old }
    ensures types { types.new ≡ grown types.old (seen_or_unknown TYPE_CODES (types_in (kinds records.now))) }
    ensures classes { classes.new ≡ grown classes.old (seen_or_unknown CLASS_CODES (classes_in (classed (kinds records.now)))) }
{
    let [first, others @ ..] = records else {
        return;
    };
    if are_of(others, first.rtype, first.class) {
        let times = records.len() as u64;
        count_type(types, first.rtype, times);
        count_repeated_class(classes, (first.rtype, first.class), times);
    } else {
        count_each(types, classes, records);
    }
}

/// Counts the type and the class of each record.
fn count_each(types: &mut [u64], classes: &mut [u64], records: &[Record])
    requires types { length TYPE_CODES < length types.old }
    requires classes { length CLASS_CODES < length classes.old }
    ensures types { types.new ≡ grown types.old (seen_or_unknown TYPE_CODES (types_in (kinds records.now))) }
    ensures classes { classes.new ≡ grown classes.old (seen_or_unknown CLASS_CODES (classes_in (classed (kinds records.now)))) }
{
    for one in records {
        count_type(types, one.rtype, 1);
        count_repeated_class(classes, (one.rtype, one.class), 1);
    }
}

/// Whether all records are of a type and a class.
fn are_of(records: &[Record], rtype: u16, class: u16) -> bool
    ensures { IsTrue result → kinds records.now ≡ replicate (length records.now) (rtype, class) }
{
    for one in records {
        if one.rtype != rtype || one.class != class {
            return false;
        }
    }
    true
}
