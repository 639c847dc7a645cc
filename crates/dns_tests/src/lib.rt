//! Tests of dns_network and dns_ports over the operating system's sockets, which wait and are stopped by another thread. What needs neither
//! is a row of checks/rows.
#![tactic(auto)]

#[cfg(test)]
mod network;
#[cfg(test)]
mod sockets;
#[cfg(test)]
mod stops;
