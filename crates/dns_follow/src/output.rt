//! Writing the output: each line is handed over whole, and at the end all is handed on.

ghost use Rattle.std.specs.Prelude.{◌≡◌, ◌++◌, [], true};
ghost use Rattle.std.specs.Option.{option_copied};
ghost use Rattle.dns_edges.specs.Edges.{around};
ghost use Rattle.dns_words.specs.Writing.{WritesWhole, WantedMemory};
ghost use Rattle.dns_follow.specs.Feeding.{sent_of};
ghost use Rattle.dns_follow.specs.Lines.{length_line, zone_serial};
ghost use Rattle.dns_follow.specs.Status.{has_line, is_fault, refusal_line};
ghost use Rattle.dns_follow.specs.Writing.{EndsRefusing, EndsWriting};
ghost use Rattle.dns_follow.specs.Steps.{sent_status};
ghost use Rattle.dns_follow.specs.declared.status.FollowStatus.TheVariants as status;

use crate::frame::Frame;
use crate::lines::{length_line, place_line};
use crate::sending::{put_frames, too_long};
use crate::status::{FollowStatus, after_writing};
use dns_edges::Sink;
use dns_io::IoFault;
use dns_store::recovery_line;
use dns_words::{put_text, put_whole};
use dns_zone::{ReplayKind, Zone};
use std::alloc::Global;

/// The line of a run whose words are no command. No memory is taken for it, nor for the other lines that are always the same, so that want
/// of memory does not hide what they tell.
const USAGE: &str = "usage\n";

/// The line of a run whose input failed.
const READ_FAULT: &str = "read fault\n";

/// The line of a run over a journal that failed.
const KEEPER_FAULT: &str = "keeper fault\n";

/// The line of a run that came to a row which is too long for a frame.
const TOO_LONG: &str = "too long\n";

/// The line of a run whose input has a frame that carries no row.
const BAD_FRAME: &str = "bad frame\n";

/// The line of a run whose input has a row that does not belong to the batch of the rows before it.
const MIXED: &str = "mixed\n";

/// The line of a run whose input has a batch that stands for no zone.
const REFUSED: &str = "refused\n";

/// The line of a run whose input was read as often as it may be.
const TURNS: &str = "turns\n";

/// Sends frames up to the first one whose row is too long, writes the line that tells so, where there is one, and hands all on.
pub(crate) fn put_feed<W: Sink>(alloc: Global, frames: &[Frame], out: &mut W) -> FollowStatus
    ensures ends { EndsWriting (around W.sink.told out.old out.new) (sent_of frames.now ++ refusal_line (sent_status frames.now))
        (sent_status frames.now) result }
{
    match too_long(frames) {
        Some(_) => after_writing(FollowStatus::TooLong, put_part(alloc, frames, out)),
        None => after_writing(FollowStatus::Ok, put_all(alloc, frames, out)),
    }
}

/// Sends frames, and hands them on.
fn put_all<W: Sink>(alloc: Global, frames: &[Frame], out: &mut W) -> Result<(), IoFault>
    ensures { WritesWhole (around W.sink.told out.old out.new) (sent_of frames.now) result }
{
    put_frames(alloc, frames, out)?;
    out.flush()
}

/// Sends frames, and the line of a row that is too long behind them.
fn put_part<W: Sink>(alloc: Global, frames: &[Frame], out: &mut W) -> Result<(), IoFault>
    ensures { WritesWhole (around W.sink.told out.old out.new) (sent_of frames.now ++ refusal_line status.TooLong) result }
{
    put_frames(alloc, frames, out)?;
    put_whole(TOO_LONG, out)
}

/// Writes how many rows there are, and the serial of their zone, if there is one.
pub(crate) fn put_length<W: Sink>(
    alloc: Global,
    length: u64,
    serial: Option<u32>,
    out: &mut W,
) -> Result<(), IoFault>
    ensures { WritesWhole (around W.sink.told out.old out.new) (length_line length serial) result }
{
    let line = length_line(alloc, length, serial)?;
    put_text(line.as_str(), out)
}

/// The serial of a zone, if there is one.
pub(crate) fn zone_serial(zone: Option<&Zone>) -> Option<u32>
    ensures { result ≡ zone_serial (option_copied zone.entry) }
{
    match zone {
        Some(zone) => Some(zone.serial()),
        None => None,
    }
}

/// Writes the one line of a refusal, where it has one, and tells how the program ends.
pub(crate) fn refuse<W: Sink>(alloc: Global, meant: FollowStatus, out: &mut W) -> FollowStatus
    ensures ends { EndsRefusing (around W.sink.told out.old out.new) [] meant result }
    // A fault of the journal or of the input gives way to want of memory only where the output wants it for the line.
    ensures wanted { is_fault meant ≡ true → result ≡ status.OutOfMemory → WantedMemory W.sink out.old (refusal_line meant) out.new }
{
    match meant {
        FollowStatus::Ok => FollowStatus::Ok,
        FollowStatus::WriteFault => FollowStatus::WriteFault,
        FollowStatus::OutOfMemory => FollowStatus::OutOfMemory,
        FollowStatus::Usage => refuse_by(FollowStatus::Usage, USAGE, out),
        FollowStatus::ReadFault => refuse_by(FollowStatus::ReadFault, READ_FAULT, out),
        FollowStatus::KeeperFault => refuse_by(FollowStatus::KeeperFault, KEEPER_FAULT, out),
        FollowStatus::TooLong => refuse_by(FollowStatus::TooLong, TOO_LONG, out),
        FollowStatus::BadFrame => refuse_by(FollowStatus::BadFrame, BAD_FRAME, out),
        FollowStatus::Mixed => refuse_by(FollowStatus::Mixed, MIXED, out),
        FollowStatus::Refused => refuse_by(FollowStatus::Refused, REFUSED, out),
        FollowStatus::Turns => refuse_by(FollowStatus::Turns, TURNS, out),
        FollowStatus::Recovery { row, kind } => refuse_row(alloc, row, kind, out),
        FollowStatus::OutOfPlace { row } => refuse_place(alloc, row, out),
    }
}

/// Writes the line of a refusal that is always the same. Where memory is wanted, the output wanted it.
fn refuse_by<W: Sink>(meant: FollowStatus, line: &str, out: &mut W) -> FollowStatus
    requires line { line.now ≡ refusal_line meant }
    requires some { has_line meant ≡ true }
    ensures ends { EndsRefusing (around W.sink.told out.old out.new) [] meant result }
    ensures wanted { result ≡ status.OutOfMemory → WantedMemory W.sink out.old (refusal_line meant) out.new }
{
    after_writing(meant, put_whole(line, out))
}

/// Writes the line of rows that are refused, or that no batches cover.
fn refuse_row<W: Sink>(alloc: Global, row: i64, kind: ReplayKind, out: &mut W) -> FollowStatus
    ensures ends { EndsRefusing (around W.sink.told out.old out.new) [] (status.Recovery row kind) result }
{
    after_writing(
        FollowStatus::Recovery { row, kind },
        put_recovery(alloc, row, kind, out),
    )
}

/// Writes the line of a journal that is out of place at a row.
fn refuse_place<W: Sink>(alloc: Global, row: i64, out: &mut W) -> FollowStatus
    ensures ends { EndsRefusing (around W.sink.told out.old out.new) [] (status.OutOfPlace row) result }
{
    after_writing(FollowStatus::OutOfPlace { row }, put_place(alloc, row, out))
}

/// Writes the line of rows that are no zone's, or that no batches cover, and hands it on.
fn put_recovery<W: Sink>(
    alloc: Global,
    row: i64,
    kind: ReplayKind,
    out: &mut W,
) -> Result<(), IoFault>
    ensures { WritesWhole (around W.sink.told out.old out.new) (refusal_line (status.Recovery row kind)) result }
{
    let line = recovery_line(alloc, row, kind)?;
    put_text(line.as_str(), out)
}

/// Writes the line of a journal that is out of place at a row, and hands it on.
fn put_place<W: Sink>(alloc: Global, row: i64, out: &mut W) -> Result<(), IoFault>
    ensures { WritesWhole (around W.sink.told out.old out.new) (refusal_line (status.OutOfPlace row)) result }
{
    let line = place_line(alloc, row)?;
    put_text(line.as_str(), out)
}
