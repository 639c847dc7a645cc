//! What serves one port.

use crate::limit::Limit;
use dns_io::IoFault;
use dns_ticket_lock::Pass;

/// What serves a port: a pass of the shared book, which it keeps for good.
#[derive(Drop)]
pub struct Worker<P> {
    /// The pass.
    pub pass: Pass,
    /// The port.
    pub port: P,
    /// The limit of a listener's connections. A socket has none.
    pub limit: Limit,
    /// How it ended when it was last started, `Ok` before.
    pub answer: Result<(), IoFault>,
}
