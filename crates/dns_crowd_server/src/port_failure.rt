//! Which port failed, in words for a person.

use dns_io::{IoFault, Peer};
use dns_ports::{Failure, address_of};
use std::net::SocketAddr;
use thiserror::Error;

/// A port of the operating system that failed, and the call of which: for a line that a person reads. No clause tells of it.
#[derive(Clone, Copy, Debug, Error)]
#[error("{way} {address}: {failure}")]
pub struct PortFailure {
    way: &'static str,
    address: SocketAddr,
    failure: Failure,
}

impl PortFailure {
    /// The same as a fault.
    pub(crate) fn fault(&self) -> IoFault {
        self.failure.fault()
    }

    /// At the address where datagrams are taken.
    pub(crate) fn of_udp(at: Peer, failure: Failure) -> PortFailure {
        PortFailure {
            way: "udp",
            address: address_of(at),
            failure,
        }
    }

    /// At the address where connections are taken.
    pub(crate) fn of_tcp(at: Peer, failure: Failure) -> PortFailure {
        PortFailure {
            way: "tcp",
            address: address_of(at),
            failure,
        }
    }
}
