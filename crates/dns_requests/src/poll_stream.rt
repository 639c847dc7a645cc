//! Streams that are asked at a moment.

ghost use Rattle.std.specs.Prelude.{ℕ, Option, Result};
ghost use Rattle.dns_transport.specs.declared.poll.Poll.{Poll};

use dns_transport::Poll;

/// A stream of items, of which there may be none yet.
pub trait PollStream {
    /// What it gives.
    type Item;

    /// Why it gives none.
    type Fault;

    /// What one asking may do: the stream before it, the moment, the answer, and the stream after it.
    ghost polls: { Self → ℕ → Poll (Option (Result Self.Item Self.Fault)) → Self → Type 0 };

    /// The next item or a fault, `None` at the end; `Pending` where there is none yet. The moment is in milliseconds.
    fn poll_next(&mut self, now: u64) -> Poll<Option<Result<Self::Item, Self::Fault>>>
        ensures { polls self.old now result self.new };
}
