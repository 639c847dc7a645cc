//! What stops ports, and tells whether their workers have begun.

use dns_io::OutOfMemory;
use dns_network::Stop;
use std::alloc::Global;
use std::sync::Arc;
use std::sync::atomic::{AtomicBool, AtomicU32, Ordering};

/// A token that is stopped once, for all that hold it. Whoever holds it looks at it from time to time. It also keeps the roll of the workers
/// whose ports it stops: how many there are to be, and how many have begun.
///
/// No clause says what it shows: another thread may write the shared words at any time, so that nothing is known of them between two looks.
/// That it shows what was written is what the system's atomics promise (every step is sequentially consistent), and tests run it.
#[derive(Drop)]
pub struct StopToken {
    shared: Arc<Shared, Global>,
}

/// What all that hold a token share.
#[derive(Drop)]
struct Shared {
    stopped: AtomicBool,
    expected: AtomicU32,
    reported: AtomicU32,
}

/// That a token was seen stopped: only a look at one makes it.
#[derive(Drop)]
pub(crate) struct SeenStopped {
    seen: (),
}

/// How a wait ended that does not fail.
#[derive(Drop)]
pub(crate) enum Waited<T> {
    /// This came.
    Came(T),
    /// The token was stopped before anything came.
    Stopped(SeenStopped),
}

impl StopToken {
    /// A token that is not stopped, and for which no worker is expected.
    pub fn new(alloc: Global) -> Result<StopToken, OutOfMemory> {
        let shared = Shared {
            stopped: AtomicBool::new(false),
            expected: AtomicU32::new(0),
            reported: AtomicU32::new(0),
        };
        Ok(StopToken {
            shared: Arc::new(alloc, shared)?,
        })
    }

    /// Stops it, for all that hold it, and for good.
    pub fn stop(&self) {
        self.shared.stopped.store(true, Ordering::SeqCst);
    }

    /// Whether it was stopped.
    pub fn is_stopped(&self) -> bool {
        self.shared.stopped.load(Ordering::SeqCst)
    }

    /// What shows that it was stopped, where it was.
    pub(crate) fn look(&self) -> Option<SeenStopped> {
        if self.is_stopped() {
            Some(SeenStopped { seen: () })
        } else {
            None
        }
    }

    /// So many workers more are to report.
    pub fn expect(&self, count: u32) {
        self.shared.expected.fetch_add(count, Ordering::SeqCst);
    }

    /// A worker has begun. A port that it stops reports at the first call for what comes to it.
    pub fn report(&self) {
        self.shared.reported.fetch_add(1, Ordering::SeqCst);
    }

    /// Whether as many have begun as are expected.
    pub fn are_all_here(&self) -> bool {
        let reported = self.shared.reported.load(Ordering::SeqCst);
        reported >= self.shared.expected.load(Ordering::SeqCst)
    }

    /// The same token once more: stopping one stops both.
    pub fn again(&self) -> Result<StopToken, OutOfMemory> {
        let shared = Arc::try_clone(&self.shared)?;
        Ok(StopToken { shared })
    }
}

impl Stop for StopToken {
    fn is_stopped(&self) -> bool {
        self.shared.stopped.load(Ordering::SeqCst)
    }
}
