//! The top call: what the words of the command line say is done.

ghost use Rattle.std.specs.Prelude.{◌≡◌, ◌≤◌, ℕ, List, Some, map, string_bytes};
ghost use Rattle.dns_store.specs.Crash.{LeavesOpened};
ghost use Rattle.dns_follow.specs.Commands.{command_of};
ghost use Rattle.dns_follow.specs.declared.commands.Command.TheVariants as command;
ghost use Rattle.dns_follow.specs.Opening.{IsOpened};
ghost use Rattle.dns_follow.specs.World.{world_of};
ghost use Rattle.dns_follow.specs.Steps.{IsOnlyRead};
ghost use Rattle.dns_follow.specs.Counts.{Tells};
ghost use Rattle.dns_follow.specs.Parts.{PrintsFeed};

use crate::commands::{Command, command_of};
use crate::feeding::fed_frames;
use crate::follower::Follower;
use crate::following::follow;
use crate::open_fault::FollowOpenFault;
use crate::output::{put_feed, put_length, refuse, zone_serial};
use crate::status::{FollowStatus, after_writing, feed_status, follow_status, open_status};
use dns_edges::{Clock, Sink, Source};
use dns_io::OutOfMemory;
use dns_keeper::Keeper;
use dns_name::Name;
use std::alloc::Global;

/// How often an input is read at most.
const READS: u64 = 4294967296;

/// How a run ended, and the journal that was handed to it.
#[derive(Drop)]
pub struct Replicated<K: Keeper> {
    /// How the run ended.
    pub status: FollowStatus,
    /// The keeper of the journal.
    pub keeper: K,
}

/// Does what the words of the command line say, and ends with a status. `feed ORIGIN FROM` writes the frames of the rows of the journal
/// from this id on; `follow ORIGIN` takes the frames of the input to its end, stores each batch once it is whole, and prints how many rows
/// the journal then has and the serial of their zone.
///
/// Nothing is read of the journal or the input before it is known that the words are a command, and the input and the clock are used by
/// `follow` alone.
pub fn replicate<K: Keeper, R: Source, C: Clock, W: Sink>(
    alloc: Global,
    words: &Vec<String>,
    keeper: K,
    input: &mut R,
    clock: &mut C,
    out: &mut W,
) -> Replicated<K>
    ensures { Tells K.keeper R.source C.clock W.sink
        (world_of (map string_bytes words.now.items)
        keeper result.keeper input.old input.new clock.old clock.new out.old out.new) result.status }
{
    match command_of(alloc, words.as_slice()) {
        Ok(Some(Command::Feed { origin: _, from })) => {
            let mut keeper = keeper;
            let status = print_feed(alloc, &mut keeper, from, out);
            Replicated { status, keeper }
        }
        Ok(Some(Command::Follow { origin })) => {
            follow_input(alloc, keeper, origin, input, clock, out)
        }
        Ok(None) => Replicated {
            status: refuse(alloc, FollowStatus::Usage, out),
            keeper,
        },
        Err(OutOfMemory) => Replicated {
            status: FollowStatus::OutOfMemory,
            keeper,
        },
    }
}

/// Writes the frames of the rows of a journal from an id on.
fn print_feed<K: Keeper, W: Sink>(
    alloc: Global,
    keeper: &mut K,
    from: u64,
    out: &mut W,
) -> FollowStatus
    requires from { 1 ≤ from }
    ensures ends { PrintsFeed K.keeper W.sink from keeper.old keeper.new out.old out.new result }
    ensures reads { IsOnlyRead K.keeper keeper.old keeper.new }
{
    match fed_frames(alloc, keeper, from) {
        Ok(frames) => put_feed(alloc, frames.as_slice(), out),
        Err(fault) => refuse(alloc, feed_status(fault), out),
    }
}

/// Opens a follower over a journal, which takes the frames of an input.
fn follow_input<K: Keeper, R: Source, C: Clock, W: Sink>(
    alloc: Global,
    keeper: K,
    origin: Name,
    input: &mut R,
    clock: &mut C,
    out: &mut W,
) -> Replicated<K>
    ensures { (words : List (List ℕ)) → command_of words ≡ Some (command.Follow origin) → Tells K.keeper R.source C.clock W.sink
        (world_of words keeper result.keeper input.old input.new clock.old clock.new out.old out.new) result.status }
{
    match Follower::open(alloc, keeper, origin) {
        Ok(follower) => follow_all(alloc, follower, input, clock, out),
        Err(FollowOpenFault { kind, keeper }) => Replicated {
            status: refuse(alloc, open_status(kind), out),
            keeper,
        },
    }
}

/// Takes the frames of an input, and prints how many rows there are then.
fn follow_all<K: Keeper, R: Source, C: Clock, W: Sink>(
    alloc: Global,
    mut follower: Follower<K>,
    input: &mut R,
    clock: &mut C,
    out: &mut W,
) -> Replicated<K>
    ensures { (words origin : List (List ℕ)) (journal : K) → command_of words ≡ Some (command.Follow origin)
        → IsOpened K.keeper (K.keeper.told journal) origin follower → LeavesOpened K.keeper journal follower.keeper
        → Tells K.keeper R.source C.clock W.sink
        (world_of words journal result.keeper input.old input.new clock.old clock.new out.old out.new) result.status }
{
    match follow(alloc, &mut follower, input, clock, READS) {
        Ok(_) => {
            let serial = zone_serial(follower.zone());
            let outcome = put_length(alloc, follower.length(), serial, out);
            Replicated {
                status: after_writing(FollowStatus::Ok, outcome),
                keeper: follower.into_keeper(),
            }
        }
        Err(fault) => Replicated {
            status: refuse(alloc, follow_status(fault), out),
            keeper: follower.into_keeper(),
        },
    }
}
