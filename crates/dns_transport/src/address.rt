//! The text of addresses.

use dns_io::{Ip, Peer};
use std::fmt;

/// An address as it is printed: four decimal numbers, or in brackets eight hexadecimal ones, without leading zeros and
/// none left out, then a colon and the port.
#[derive(Clone, Copy)]
pub struct Address(pub Peer);

impl fmt::Display for Address {
    fn fmt<W: fmt::Write>(&self, f: &mut fmt::Formatter<W>) -> fmt::Result {
        let port = self.0.port;
        match self.0.ip {
            Ip::V4(ip) => {
                let [a, b, c, d] = ip.to_be_bytes();
                write!(f, "{a}.{b}.{c}.{d}:{port}")
            }
            Ip::V6(ip) => {
                f.write_str("[")?;
                write_groups(f, ip)?;
                write!(f, "]:{port}")
            }
        }
    }
}

/// The eight groups of 16 bits, parted by colons.
fn write_groups<W: fmt::Write>(f: &mut fmt::Formatter<W>, ip: u128) -> fmt::Result {
    for place in 0u32..8 {
        let group = (ip >> (112 - 16 * place)) % 65_536;
        if place > 0 {
            f.write_str(":")?;
        }
        write!(f, "{group:x}")?;
    }
    Ok(())
}
