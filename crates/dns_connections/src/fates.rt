//! What becomes of a connection behind a call on it.

ghost use Rattle.std.specs.Prelude.{◌≡◌, if◌then◌else◌};
ghost use Rattle.dns_connections.specs.Links.{after_read, after_send, after_write, count_of, heard_by};

use crate::stage::Fate;
use dns_network::{Refused, Why};

/// How many bytes a call moved.
pub(crate) fn count_of(given: Result<usize, Refused>) -> usize
    ensures { result ≡ count_of given }
{
    match given {
        Ok(count) => count,
        Err(_) => 0,
    }
}

/// How many bytes are given of a read: of a connection that was asked to close none are.
pub(crate) fn given_of(is_open: bool, given: Result<usize, Refused>) -> usize
    ensures { result ≡ (if is_open then count_of given else 0) }
{
    if is_open { count_of(given) } else { 0 }
}

/// When something last moved on a connection, behind a call at this moment.
pub(crate) fn heard_by(now: u64, heard: u64, given: Result<usize, Refused>) -> u64
    ensures { result ≡ heard_by now heard given }
{
    match given {
        Ok(count) => {
            if 0 < count {
                return now;
            }
            heard
        }
        Err(_) => heard,
    }
}

/// Behind a read into a room for so many bytes, whose peer may have said that it sends no more.
pub(crate) fn after_read(last: bool, room: usize, given: Result<usize, Refused>) -> Fate
    ensures { result ≡ after_read last room given }
{
    match given {
        Ok(count) => {
            if count == 0 {
                return Fate::Ends { why: Why::Ended };
            }
            if last || count == room {
                return Fate::Watches;
            }
            Fate::Stays
        }
        Err(Refused::Gone) => Fate::Ends { why: Why::Gone },
        Err(Refused::Interrupted) => Fate::Watches,
        Err(_) => Fate::Stays,
    }
}

/// Behind a write of what it is owed.
pub(crate) fn after_write(given: Result<usize, Refused>) -> Fate
    ensures { result ≡ after_write given }
{
    match given {
        Ok(count) => {
            if count == 0 {
                return Fate::Ends { why: Why::Gone };
            }
            Fate::Watches
        }
        Err(Refused::Gone) => Fate::Ends { why: Why::Gone },
        Err(Refused::Interrupted) => Fate::Watches,
        Err(_) => Fate::Stays,
    }
}

/// Behind a write of a piece of so many bytes.
pub(crate) fn after_send(size: usize, given: Result<usize, Refused>) -> Fate
    ensures { result ≡ after_send size given }
{
    match given {
        Ok(count) => {
            if count == 0 {
                return Fate::Ends { why: Why::Gone };
            }
            if count < size {
                return Fate::Watches;
            }
            Fate::Stays
        }
        Err(Refused::Gone) => Fate::Ends { why: Why::Gone },
        Err(_) => Fate::Watches,
    }
}
