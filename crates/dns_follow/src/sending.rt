//! Frames that are sent.

ghost use Rattle.std.specs.Prelude.{◌≡◌, true};
ghost use Rattle.dns_edges.specs.Edges.{around};
ghost use Rattle.dns_words.specs.Writing.{Writes};
ghost use Rattle.dns_follow.specs.Feed.{framed};
ghost use Rattle.dns_follow.specs.Feeding.{is_short, sent_of, too_long};

use crate::frame::Frame;
use dns_edges::{Sink, write_all};
use dns_io::IoFault;
use std::alloc::Global;

/// Sends frames, up to the first one whose row is too long for it.
pub(crate) fn put_frames<W: Sink>(
    alloc: Global,
    frames: &[Frame],
    out: &mut W,
) -> Result<(), IoFault>
    ensures { Writes (around W.sink.told out.old out.new) (sent_of frames.now) result }
{
    let mut buffer = Vec::new(alloc);
    for frame in frames {
        if !is_short(frame) {
            return Ok(());
        }
        put_frame(frame, &mut buffer, out)?;
    }
    Ok(())
}

/// Sends a frame by way of a buffer.
fn put_frame<W: Sink>(frame: &Frame, buffer: &mut Vec<u8>, out: &mut W) -> Result<(), IoFault>
    requires short { is_short frame.now ≡ true }
    ensures { Writes (around W.sink.told out.old out.new) (framed frame.now) result }
{
    buffer.clear();
    frame.append(buffer)?;
    write_all(out, buffer.as_slice())
}

/// The id of the first row that is too long for a frame, if there is one.
pub(crate) fn too_long(frames: &[Frame]) -> Option<u64>
    ensures { result ≡ too_long frames.now }
{
    for frame in frames {
        if !is_short(frame) {
            return Some(frame.id);
        }
    }
    None
}

/// Whether the bytes of a row have room in its frame.
fn is_short(frame: &Frame) -> bool
    ensures { result ≡ is_short frame.now }
{
    frame.bytes.len() <= 65518
}
