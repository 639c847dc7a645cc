//! Rows that payloads carry.

ghost use Rattle.std.specs.Prelude.{◌≡◌, ◌<◌, ◌^◌, IfOk, IfSome, IfNone};
ghost use Rattle.std.specs.Option.{option_copied};
ghost use Rattle.dns_wire.specs.declared.record.Record.{Record as OneRecord};
ghost use Rattle.dns_wire.specs.ReadBack.{ReadsBack};
ghost use Rattle.dns_update.specs.Replay.{IsOneRecord};
ghost use Rattle.dns_follow.specs.Feed.{row_of};
ghost use Rattle.dns_follow.specs.Following.{joins, is_placed, Carries, IsRow, IsBad};
ghost use Rattle.dns_follow.specs.Seen.{IsWritable};

use crate::frame::Frame;
use dns_io::{Octets, OutOfMemory};
use dns_keeper::Row;
use dns_update::laws::standing_records;
use dns_update::one_record;
use dns_wire::Record;
use std::alloc::Global;

/// The frame that a payload is, with the record that its bytes are; none where it carries no row.
pub(crate) fn carried(alloc: Global, payload: &[u8]) -> Result<Option<(Frame, Record)>, OutOfMemory>
    ensures carries { IfOk result (λ found. IfSome found (λ c. Carries payload.now c.0)) }
    ensures row { IfOk result (λ found. IfSome found (λ c. IsRow c.0 c.1)) }
    ensures good { IfOk result (λ found. IfSome found (λ c. IsWritable c.1)) }
    ensures bad { IfOk result (λ found. IfNone found (IsBad payload.now)) }
{
    let Some(frame) = Frame::read(alloc, payload)? else {
        return Ok(None);
    };
    if !is_placed(&frame) {
        return Ok(None);
    }
    match one_record(alloc, frame.bytes.as_slice())? {
        Some(one) => {
            read_back(frame.bytes.as_slice());
            Ok(Some((frame, one)))
        }
        None => Ok(None),
    }
}

/// Whether a frame has an id from 1 on that a row may have, and a mark of 0 or 1.
fn is_placed(frame: &Frame) -> bool
    ensures { result ≡ is_placed frame.now }
{
    0 < frame.id && frame.id <= i64::MAX as u64 && frame.mark <= 1
}

/// A record that stands in bytes reads as itself when it is written.
fn read_back(bytes: &[u8])
    ensures { (r : OneRecord) → IsOneRecord bytes.now r → ReadsBack r }
{
    standing_records();
    let _bytes = bytes.len();
}

/// The row that a frame carries.
pub(crate) fn row_of(alloc: Global, frame: Frame) -> Row
    requires { frame.id < 2 ^ 63 }
    ensures { result ≡ row_of frame }
{
    let Frame {
        id,
        client,
        serial,
        mark: _,
        bytes,
    } = frame;
    Row {
        id: id as i64,
        client: i64::from(client),
        serial: i64::from(serial),
        stamp: Octets::new(alloc),
        bytes,
    }
}

/// Whether the row of a frame goes on with the batch of the row before it, if there is one.
pub(crate) fn goes_on(before: Option<&Row>, frame: &Frame) -> bool
    ensures { result ≡ joins (option_copied before.entry) (row_of frame.now) }
{
    match before {
        None => true,
        Some(before) => {
            before.client == i64::from(frame.client) && before.serial == i64::from(frame.serial)
        }
    }
}
