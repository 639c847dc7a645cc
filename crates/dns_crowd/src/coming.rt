//! What is to come to the connections of a crowd in memory.

ghost use Rattle.std.specs.Prelude.{◌≡◌, ◌≤◌, ◌<◌, ◌^◌, length, map, true, None};
ghost use Rattle.dns_crowd.specs.Crowds.{AllMayCome, MayCome, event_by, event_of, size_of};
ghost use Rattle.dns_server_core.specs.Events.{last_number, moment, number_in};
ghost use Rattle.dns_server_core.specs.Valid.{IsAbove};
ghost use Rattle.dns_readiness.specs.Came.{count_of};

use dns_io::{Octets, Peer};
use dns_readiness::Came;

/// Moments and limits are below that, in milliseconds.
const MOMENTS: u64 = 1 << 47;

/// A piece has at most so many bytes.
const MOST_BYTES: usize = 65_535;

/// What is to come to a crowd in memory.
#[derive(Debug, Drop)]
pub enum Coming {
    /// A connection is accepted.
    Accepted {
        /// The moment, in milliseconds, below 2^47.
        at: u64,
        /// The connection's number, greater than all that are accepted before.
        conn: u32,
        /// The other end.
        peer: Peer,
        /// For how many milliseconds it may stay without a whole message, below 2^47; 0 is without limit.
        limit: u64,
    },
    /// Bytes come over a connection.
    Bytes {
        /// The moment.
        at: u64,
        /// The connection's number.
        conn: u32,
        /// The bytes, at most 65,535.
        piece: Octets,
    },
    /// A connection ends.
    Ended {
        /// The moment.
        at: u64,
        /// The connection's number.
        conn: u32,
    },
    /// Time passes.
    Tick {
        /// The moment.
        at: u64,
    },
}

/// Whether all of this may come to a crowd, one behind the other: moments below 2^47 that do not fall, limits below 2^47, numbers that rise
/// from acceptance to acceptance, and pieces of at most 65,535 bytes.
pub fn may_come(coming: &[Coming]) -> bool
    ensures { result ≡ true → AllMayCome 0 None (map event_by coming.now) }
{
    let mut last = 0;
    let mut greatest = None;
    for one in coming {
        if !one.may_follow(last, greatest) {
            return false;
        }
        last = one.moment();
        greatest = one.greatest_behind(greatest);
    }
    true
}

/// Whether a moment may follow another one.
fn is_next(last: u64, at: u64) -> bool
    ensures { result ≡ true → (last ≤ at) × (at < 2 ^ 47) }
{
    if at < last {
        return false;
    }
    at < MOMENTS
}

/// Whether a number is greater than the greatest one.
fn is_new(greatest: Option<u32>, number: u32) -> bool
    ensures { result ≡ true → IsAbove greatest number }
{
    match greatest {
        None => true,
        Some(greatest) => greatest < number,
    }
}

impl Coming {
    /// Its moment.
    fn moment(&self) -> u64
        ensures { result ≡ moment (event_by self.now) }
    {
        match self {
            Coming::Accepted { at, .. } => *at,
            Coming::Bytes { at, .. } => *at,
            Coming::Ended { at, .. } => *at,
            Coming::Tick { at } => *at,
        }
    }

    /// The greatest number that was accepted, from now on.
    fn greatest_behind(&self, greatest: Option<u32>) -> Option<u32>
        ensures { result ≡ last_number greatest (number_in (event_by self.now)) }
    {
        match self {
            Coming::Accepted { conn, .. } => Some(*conn),
            Coming::Bytes { .. } => greatest,
            Coming::Ended { .. } => greatest,
            Coming::Tick { .. } => greatest,
        }
    }

    /// Whether it may come behind a moment and a greatest number.
    fn may_follow(&self, last: u64, greatest: Option<u32>) -> bool
        ensures { result ≡ true → MayCome last greatest (event_by self.now) }
    {
        match self {
            Coming::Accepted {
                at,
                conn,
                limit,
                ..
            } => {
                if MOMENTS <= *limit {
                    return false;
                }
                if !is_next(last, *at) {
                    return false;
                }
                is_new(greatest, *conn)
            }
            Coming::Bytes { at, piece, .. } => {
                if MOST_BYTES < piece.len() {
                    return false;
                }
                is_next(last, *at)
            }
            Coming::Ended { at, .. } => is_next(last, *at),
            Coming::Tick { at } => is_next(last, *at),
        }
    }

    /// Puts it into the room, where it has bytes.
    pub(crate) fn put(&self, room: &mut [u8]) -> Came
        requires { size_of self.now ≤ length room.old }
        ensures came { event_of room.new result ≡ event_by self.now }
        ensures size { count_of result ≤ length room.new }
        ensures same { length room.new ≡ length room.old }
    {
        match self {
            Coming::Accepted {
                at,
                conn,
                peer,
                limit,
            } => Came::Accepted {
                at: *at,
                conn: *conn,
                peer: *peer,
                limit: *limit,
            },
            Coming::Bytes { at, conn, piece } => {
                let count = piece.len();
                room[..count].copy_from_slice(piece.as_slice());
                Came::Bytes {
                    at: *at,
                    conn: *conn,
                    count,
                }
            }
            Coming::Ended { at, conn } => Came::Ended {
                at: *at,
                conn: *conn,
            },
            Coming::Tick { at } => Came::Tick { at: *at },
        }
    }
}
