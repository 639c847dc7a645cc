//! Feeding a journal: its rows from an id on, once it is seen that it is in place.

ghost use Rattle.std.specs.Prelude.{◌≡◌, ◌≤◌, FitsSigned, IfOk, IfErr, IfSome, OnOk};
ghost use Rattle.std.specs.Int.{w64};
ghost use Rattle.dns_edges.specs.Edges.{around};
ghost use Rattle.dns_store.specs.Covered.{IsCovered};
ghost use Rattle.dns_store.specs.Covering.{HaveRuns};
ghost use Rattle.dns_follow.specs.Feeding.{row_id, Sends, SendsNot, Feeds, FeedsNot, ReadsFed, ReadsNoFed, ReadsJournal};
ghost use Rattle.dns_follow.specs.Scanning.{IsUncovered};

use crate::feed_fault::FeedFault;
use crate::frame::Frame;
use crate::marking::marked;
use crate::scanning::{Scanned, scan};
use crate::sending::{put_frames, too_long};
use dns_edges::Sink;
use dns_keeper::{Keeper, RowRuns};
use dns_store::look_over;
use std::alloc::Global;

/// Sends the frames of the rows of a journal from an id on, in order, and tells how many they are. Before the first of them it is seen that
/// ids are 1 and those that follow, that the batches cover the rows, and that clients and serials are numbers of 32 bits: else nothing is
/// sent. At the first row that is too long for a frame it ends, those before it sent. The journal stays as it is.
pub fn feed<K: Keeper, W: Sink>(
    alloc: Global,
    keeper: &mut K,
    from: u64,
    out: &mut W,
) -> Result<u64, FeedFault>
    requires from { 1 ≤ from }
    ensures ok { IfOk result (Feeds (K.keeper.told keeper.old) (K.keeper.told keeper.new) from (around W.sink.told out.old out.new)) }
    ensures err { IfErr result (FeedsNot (K.keeper.told keeper.old) (K.keeper.told keeper.new) from (around W.sink.told out.old out.new)) }
    ensures reads { ReadsJournal K.keeper keeper.old keeper.new result }
{
    let frames = fed_frames(alloc, keeper, from)?;
    send(alloc, frames.as_slice(), out)
}

/// The frames of the rows of a journal from an id on, once it is seen that it is in place.
pub(crate) fn fed_frames<K: Keeper>(
    alloc: Global,
    keeper: &mut K,
    from: u64,
) -> Result<Vec<Frame>, FeedFault>
    requires from { 1 ≤ from }
    ensures ok { IfOk result (λ frames. ReadsFed from (K.keeper.told keeper.new) frames.items) }
    ensures err { IfErr result (ReadsNoFed (K.keeper.told keeper.old) (K.keeper.told keeper.new)) }
    ensures reads { ReadsJournal K.keeper keeper.old keeper.new result }
{
    let Scanned {
        runs,
        rows,
        last,
        unfit,
    } = scan(alloc, keeper, from)?;
    look(keeper, runs)?;
    if let Some(row) = unfit {
        return Err(FeedFault::OutOfPlace { row });
    }
    marked(alloc, keeper, rows.as_slice(), last)
}

/// Looks whether the batches of a journal cover its rows, which have these runs.
fn look<K: Keeper>(keeper: &mut K, runs: RowRuns) -> Result<(), FeedFault>
    requires runs { IfSome (K.keeper.told keeper.old).rows (HaveRuns runs) }
    ensures ok { OnOk result (IsCovered (K.keeper.told keeper.new)) }
    ensures err { IfErr result (IsUncovered (K.keeper.told keeper.new)) }
    ensures reads { ReadsJournal K.keeper keeper.old keeper.new result }
{
    match look_over(keeper, runs) {
        Ok(()) => Ok(()),
        Err(kind) => Err(FeedFault::from(kind)),
    }
}

/// Sends frames and hands them on, and tells how many they are.
fn send<W: Sink>(alloc: Global, frames: &[Frame], out: &mut W) -> Result<u64, FeedFault>
    ensures ok { IfOk result (Sends (around W.sink.told out.old out.new) frames.now) }
    ensures err { IfErr result (SendsNot (around W.sink.told out.old out.new) frames.now) }
{
    put_frames(alloc, frames, out)?;
    if let Some(row) = too_long(frames) {
        return Err(FeedFault::TooLong { row: row_id(row) });
    }
    out.flush()?;
    Ok(frames.len() as u64)
}

/// The id of a row, which is below 2^63.
fn row_id(id: u64) -> i64
    ensures is { result ≡ row_id id }
    ensures fits { FitsSigned w64 result }
{
    if id <= i64::MAX as u64 {
        id as i64
    } else {
        i64::MAX
    }
}
