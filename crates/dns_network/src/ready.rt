//! What is ready.

use crate::call::{Ready, Watch};
use mio::event::Event;
use mio::{Events, Interest, Token};
use std::alloc::{AllocError, Global};

/// How many events one wait gives at most.
pub(crate) const EVENTS: usize = 256;

/// The token of the listener, which is no number of a connection.
pub(crate) const LISTENER: Token = Token(usize::MAX);

/// What the last wait found ready.
#[derive(Drop)]
pub(crate) struct ReadyList {
    slots: Vec<Ready>,
    found: usize,
}

impl ReadyList {
    /// Nothing yet, with room for what a wait finds.
    pub(crate) fn new(alloc: Global) -> Result<ReadyList, AllocError> {
        Ok(ReadyList {
            slots: Vec::from_elem(alloc, Ready::Comes, EVENTS)?,
            found: 0,
        })
    }

    /// These events, in the place of what there was; how many.
    pub(crate) fn fill(&mut self, events: &Events) -> usize {
        self.found = 0;
        for event in events {
            if let Some(slot) = self.slots.get_mut(self.found) {
                *slot = ready_of(event);
                self.found += 1;
            }
        }
        self.found
    }

    /// What is ready, in a place.
    pub(crate) fn at(&self, place: usize) -> Option<Ready> {
        if place < self.found {
            self.slots.get(place).copied()
        } else {
            None
        }
    }
}

/// What an event says. All tokens but the listener's are numbers of connections.
fn ready_of(event: &Event) -> Ready {
    match u32::try_from(event.token().0) {
        Ok(number) => Ready::Stream {
            number,
            last: event.is_read_closed() || event.is_error(),
        },
        Err(_) => Ready::Comes,
    }
}

/// What the system is asked to tell of.
pub(crate) fn interest_of(what: Watch) -> Interest {
    match what {
        Watch::ToRead => Interest::READABLE,
        Watch::ToWrite => Interest::WRITABLE,
    }
}
