//! A follower that takes all of an input.

ghost use Rattle.std.specs.Prelude.{◌≡◌, ◌≤◌, ◌<◌, ◌+◌, ◌++◌, ◌^◌, length, IfOk};
ghost use Rattle.dns_follow.specs.Followed.{Follows};
ghost use Rattle.dns_follow.specs.Heard.{Hears};

use crate::answer::FollowFault;
use crate::follower::Follower;
use dns_edges::{Clock, Source};
use dns_frames::Frames;
use dns_io::{IoFault, OutOfMemory};
use dns_keeper::Keeper;
use std::alloc::Global;

/// For how many bytes a read has room.
const ROOM: usize = 4096;

/// Takes the payload of every whole frame of an input, to its end, each at the reading of the clock behind the read that completes it, and
/// tells how many they were; bytes behind the last whole frame are dropped. The first payload that is not taken ends it, after which
/// nothing more is read. At most so many reads are made, each of at most 4,096 bytes: `Turns` where the input did not end in them.
pub fn follow<K: Keeper, R: Source, C: Clock>(
    alloc: Global,
    follower: &mut Follower<K>,
    input: &mut R,
    clock: &mut C,
    reads: u64,
) -> Result<u64, FollowFault>
    requires reads { reads ≤ 2 ^ 32 }
    ensures follows { Follows K.keeper R.source C.clock reads input.old clock.old follower.old input.new clock.new follower.new result }
    ensures named { follower.new.origin ≡ follower.old.origin }
{
    let mut frames = Frames::new(alloc);
    let mut room = [0u8; ROOM];
    let mut count = 0;
    for _turn in 0..reads {
        match input.read(&mut room) {
            Ok(0) => return Ok(count),
            Ok(size) => {
                let moment = clock.now();
                count += hear(follower, &mut frames, &room[..size], moment)?;
            }
            Err(IoFault::Failed) => return Err(FollowFault::Read),
            Err(IoFault::OutOfMemory) => return Err(FollowFault::OutOfMemory),
        }
    }
    Err(FollowFault::Turns { reads })
}

/// Takes the payloads of the frames that a piece completes, and tells how many they were.
fn hear<K: Keeper>(
    follower: &mut Follower<K>,
    frames: &mut Frames,
    piece: &[u8],
    moment: u64,
) -> Result<u64, FollowFault>
    requires moment { moment < 2 ^ 47 }
    requires short { length frames.old + length piece.now < 2 ^ 63 }
    ensures hears { Hears K.keeper moment follower.old (frames.old ++ piece.now) frames.new follower.new result }
    ensures named { follower.new.origin ≡ follower.old.origin }
    ensures size { IfOk result (λ count. count + length frames.new ≤ length frames.old + length piece.now) }
{
    match frames.feed(piece) {
        Ok(()) => {}
        Err(OutOfMemory) => return Err(FollowFault::OutOfMemory),
    }
    let mut count = 0;
    loop {
        match frames.next() {
            Ok(Some(payload)) => {
                follower.take(payload.as_slice(), moment)?;
                count += 1;
            }
            Ok(None) => return Ok(count),
            Err(OutOfMemory) => return Err(FollowFault::OutOfMemory),
        }
    }
}
