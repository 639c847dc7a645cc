//! The frames of rows, each with its mark.

ghost use Rattle.std.specs.Prelude.{◌≡◌, ◌++◌, ◌∷◌, [], true, None, IfOk, IfErr, IfSome, OnOk, if◌then◌else◌};
ghost use Rattle.std.specs.Ordering.{int_eq};
ghost use Rattle.dns_keeper.specs.Keeping.{IsBatchFrom};
ghost use Rattle.dns_follow.specs.Feed.{frame_with};
ghost use Rattle.dns_follow.specs.FeedFaults.{IsKeepers};
ghost use Rattle.dns_follow.specs.Feeding.{is_fit, unfit, ReadsJournal};
ghost use Rattle.dns_follow.specs.Scanning.{AreLast, IsIdIn, MayEndAt, IsEndOf, end_before, AreMarked};

use crate::feed_fault::FeedFault;
use crate::frame::Frame;
use dns_io::{Octets, OutOfMemory};
use dns_keeper::{BatchRow, Keeper, Row};
use std::alloc::Global;

/// The frames of the last rows of a journal, which is in place and whose last row has this id.
pub(crate) fn marked<K: Keeper>(
    alloc: Global,
    keeper: &mut K,
    rows: &[Row],
    last: i64,
) -> Result<Vec<Frame>, FeedFault>
    requires fit { unfit rows.now ≡ None }
    requires last { IfSome (K.keeper.told keeper.old).rows (AreLast rows.now last (K.keeper.told keeper.old).batches) }
    ensures ok { IfOk result (λ frames. AreMarked (K.keeper.told keeper.new) rows.now frames.items) }
    ensures err { IfErr result IsKeepers }
    ensures reads { ReadsJournal K.keeper keeper.old keeper.new result }
{
    let mut frames = Vec::new(alloc);
    let mut end = 0;
    for row in rows {
        end = end_of(keeper, row, last, end)?;
        let frame = frame_of(alloc, row, has_id(row, end))?;
        push_frame(&mut frames, frame)?;
    }
    Ok(frames)
}

/// The id of the row with which the batch of a row ends. It is known where the batch has rows before it.
fn end_of<K: Keeper>(keeper: &mut K, row: &Row, last: i64, known: i64) -> Result<i64, FeedFault>
    requires within { IfSome (K.keeper.told keeper.old).rows (IsIdIn row.now.id last (K.keeper.told keeper.old).batches) }
    requires known { MayEndAt (K.keeper.told keeper.old) row.now.id known }
    ensures ok { IfOk result (IsEndOf (K.keeper.told keeper.new) row.now.id) }
    ensures err { IfErr result IsKeepers }
    ensures reads { ReadsJournal K.keeper keeper.old keeper.new result }
{
    if row.id <= known {
        return Ok(known);
    }
    if last <= row.id {
        return Ok(last);
    }
    let found = find_batch(keeper, row.id + 1)?;
    Ok(end_before(found, row.id, last))
}

/// The batch of least first from an id on, if there is one.
fn find_batch<K: Keeper>(keeper: &mut K, first: i64) -> Result<Option<BatchRow>, FeedFault>
    ensures ok { IfOk result (IsBatchFrom (K.keeper.told keeper.new) first) }
    ensures err { IfErr result IsKeepers }
    ensures reads { ReadsJournal K.keeper keeper.old keeper.new result }
{
    match keeper.batch_from(first) {
        Ok(found) => Ok(found),
        Err(fault) => Err(FeedFault::from(fault)),
    }
}

/// The id of the row before the batch that begins behind an id; where none does, that of the last row.
fn end_before(found: Option<BatchRow>, id: i64, last: i64) -> i64
    ensures { result ≡ end_before found id last }
{
    match found {
        None => last,
        Some(batch) => {
            if batch.first <= id {
                last
            } else {
                batch.first - 1
            }
        }
    }
}

/// Whether the id of a row is this one.
fn has_id(row: &Row, id: i64) -> bool
    ensures { result ≡ int_eq row.now.id id }
{
    row.id == id
}

/// The frame of a row, whose batch ends with it or does not.
fn frame_of(alloc: Global, row: &Row, is_last: bool) -> Result<Frame, OutOfMemory>
    requires fit { is_fit row.now ≡ true }
    ensures { IfOk result (λ f. f ≡ frame_with (if is_last then 1 else 0) row.now) }
{
    Ok(Frame {
        id: row.id.unsigned_abs(),
        client: row.client as u32,
        serial: row.serial as u32,
        mark: u8::from(is_last),
        bytes: Octets::from_slice(alloc, row.bytes.as_slice())?,
    })
}

/// Adds a frame.
fn push_frame(frames: &mut Vec<Frame>, frame: Frame) -> Result<(), OutOfMemory>
    ensures { OnOk result (frames.new.items ≡ frames.old.items ++ frame ∷ []) }
{
    frames.push(frame)?;
    Ok(())
}
