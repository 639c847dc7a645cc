//! Streams that must give something within a limit.

ghost use Rattle.std.specs.Prelude.{◌≡◌, ◌<◌, ◌^◌, None};
ghost use Rattle.dns_requests.specs.Polls.{PollsOnce, pending_by};

use crate::poll_stream::PollStream;
use dns_server_core::is_within;
use dns_transport::Poll;
use std::marker::Model;

/// Why a stream under a limit gives no item.
#[derive(Debug, Drop)]
pub enum TimeoutFault<F> {
    /// The stream's own fault.
    Stream(F),
    /// Nothing came within the limit.
    TimedOut {
        /// The moment of the first asking, or of the last one that gave an item.
        since: u64,
        /// The limit, in milliseconds.
        limit: u64,
        /// The moment of this asking, past `since` and the limit.
        at: u64,
    },
}

/// A stream that must give an item within a limit of the one before. A limit of 0 is none.
#[derive(Drop)]
pub struct TimeoutStream<S> {
    stream: S,
    timeout: u64,
    base: Option<u64>,
}

impl<S> Model for TimeoutStream<S> {
    ghost use Rattle.dns_requests.specs.Polls.{UnderLimit};

    ghost Value = { UnderLimit S };

    ghost view = { λ s. record { stream = s.stream; timeout = s.timeout; base = s.base } };
}

impl<S: PollStream> TimeoutStream<S> {
    /// A stream under this limit, in milliseconds, which has not been asked yet. Takes no memory.
    pub fn new(stream: S, timeout: u64) -> TimeoutStream<S>
        requires { timeout < 2 ^ 47 }
        ensures { result ≡ record { stream = stream; timeout = timeout; base = None } }
    {
        TimeoutStream {
            stream,
            timeout,
            base: None,
        }
    }

    /// Asks the stream at this moment, in milliseconds, and gives what it answers. The time runs from the first asking, and anew
    /// from each that gives an item; neither a fault nor the end moves it. Where the stream has nothing yet and this moment is past
    /// the limit, it is `TimedOut`.
    pub fn poll(&mut self, now: u64) -> Poll<Option<Result<S::Item, TimeoutFault<S::Fault>>>>
        ensures { PollsOnce S.polls self.old now result self.new }
    {
        let base = self.base.unwrap_or(now);
        self.base = Some(base);
        match self.stream.poll_next(now) {
            Poll::Ready(Some(Ok(item))) => {
                self.base = Some(now);
                Poll::Ready(Some(Ok(item)))
            }
            Poll::Ready(Some(Err(fault))) => Poll::Ready(Some(Err(TimeoutFault::Stream(fault)))),
            Poll::Ready(None) => Poll::Ready(None),
            Poll::Pending => pending(base, self.timeout, now),
        }
    }
}

/// What is answered where the stream has nothing yet.
fn pending<T, F>(base: u64, timeout: u64, now: u64) -> Poll<Option<Result<T, TimeoutFault<F>>>>
    ensures { result ≡ pending_by base timeout now }
{
    if is_within(timeout, base, now) {
        return Poll::Pending;
    }
    Poll::Ready(Some(Err(TimeoutFault::TimedOut {
        since: base,
        limit: timeout,
        at: now,
    })))
}
