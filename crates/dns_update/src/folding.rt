//! Records with their names in small letters (RFC 1035 2.3.3).

ghost use Rattle.std.specs.Prelude.{◌≡◌, IfOk};
ghost use Rattle.dns_update.specs.Change.{fold_record};

use dns_io::OutOfMemory;
use dns_wire::Record;
use std::alloc::Global;

/// The record with the ASCII capitals of its names made small.
pub fn folded_record(alloc: Global, one: &Record) -> Result<Record, OutOfMemory>
    ensures { IfOk result (λ small. small ≡ fold_record one.now) }
{
    Ok(Record {
        name: one.name.folded(alloc)?,
        rtype: one.rtype,
        class: one.class,
        ttl: one.ttl,
        rdata: one.rdata.folded(alloc)?,
    })
}
