//! Whether a list of events may be served.

ghost use Rattle.std.specs.Prelude.{◌≡◌, false};
ghost use Rattle.dns_server_core.specs.Events.{moment, number_in, last_number, is_stop};
ghost use Rattle.dns_server_core.specs.ValidTest.{fits, are_above, is_next, are_valid};

use crate::event::Event;
use dns_wire::limits::MAX_MESSAGE_LEN;

/// Moments and limits, in milliseconds, are below it.
const MOMENT_BOUND: u64 = 1 << 47;

/// The most bytes of a piece or a datagram.
const MAX_PIECE_LEN: usize = MAX_MESSAGE_LEN as usize;

impl Event {
    /// Its moment, in milliseconds.
    pub fn moment(&self) -> u64
        ensures { result ≡ moment self.now }
    {
        match self {
            Event::Accepted { at, .. } => *at,
            Event::Bytes { at, .. } => *at,
            Event::Ended { at, .. } => *at,
            Event::Datagram { at, .. } => *at,
            Event::Tick { at } => *at,
            Event::Stop { at } => *at,
        }
    }

    /// The greatest number that was accepted, from now on.
    pub(crate) fn greatest_from(&self, greatest: Option<u32>) -> Option<u32>
        ensures { result ≡ last_number greatest (number_in self.now) }
    {
        match self {
            Event::Accepted { conn, .. } => Some(*conn),
            _ => greatest,
        }
    }

    pub(crate) fn is_stop(&self) -> bool
        ensures { result ≡ is_stop self.now }
    {
        matches!(self, Event::Stop { .. })
    }

    fn fits(&self) -> bool
        ensures { result ≡ fits self.now }
    {
        match self {
            Event::Accepted { at, limit, .. } => *at < MOMENT_BOUND && *limit < MOMENT_BOUND,
            Event::Bytes { at, piece, .. } => *at < MOMENT_BOUND && piece.len() <= MAX_PIECE_LEN,
            Event::Ended { at, .. } => *at < MOMENT_BOUND,
            Event::Datagram { at, bytes, .. } => *at < MOMENT_BOUND && bytes.len() <= MAX_PIECE_LEN,
            Event::Tick { at } => *at < MOMENT_BOUND,
            Event::Stop { at } => *at < MOMENT_BOUND,
        }
    }

    fn is_above(&self, greatest: Option<u32>) -> bool
        ensures { result ≡ are_above greatest (number_in self.now) }
    {
        match self {
            Event::Accepted { conn, .. } => match greatest {
                None => true,
                Some(greatest) => greatest < *conn,
            },
            _ => true,
        }
    }

    #[tactic(auto, unfolding(crate::specs::ValidTest::is_next))]
    fn is_next(&self, last: u64, greatest: Option<u32>, stopped: bool) -> bool
        ensures { result ≡ is_next last greatest stopped self.now }
    {
        !stopped && self.fits() && last <= self.moment() && self.is_above(greatest)
    }
}

/// Whether a list may follow a last moment and a greatest number.
pub(crate) fn are_valid(last: u64, greatest: Option<u32>, events: &[Event]) -> bool
    ensures { result ≡ are_valid last greatest false events.now }
{
    let mut last = last;
    let mut greatest = greatest;
    let mut stopped = false;
    for event in events {
        if !event.is_next(last, greatest, stopped) {
            return false;
        }
        last = event.moment();
        greatest = event.greatest_from(greatest);
        stopped = event.is_stop();
    }
    true
}
