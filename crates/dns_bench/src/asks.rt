//! The messages that are to be settled.

ghost use Rattle.std.specs.Prelude.{◌≡◌, IfOk, All};
ghost use Rattle.hex.specs.Hex.{decode_of};
ghost use Rattle.dns_bench.specs.Turns.{CanBeSettled};

use crate::fault::BenchFault;
use dns_book::Ask;
use dns_io::{Ip, Octets, Peer, Protocol};
use std::alloc::Global;

/// The most bytes of a message (RFC 1035 4.2.2).
const MAX_MESSAGE_LEN: usize = 65_535;

/// A message from each line of a text, in order, which come as datagrams of the host itself at the moment 0.
pub fn asks_of(alloc: Global, text: &str) -> Result<Vec<Ask>, BenchFault>
    ensures { IfOk result (λ asks. All CanBeSettled asks.items) }
{
    let mut asks = Vec::new(alloc);
    for line in text.lines() {
        asks.push(ask_of(alloc, line)?)?;
    }
    Ok(asks)
}

/// The message of a line of hex digits.
fn ask_of(alloc: Global, line: &str) -> Result<Ask, BenchFault>
    ensures bytes { IfOk result (λ ask. decode_of line.now ≡ Ok ask.bytes) }
    ensures settled { IfOk result CanBeSettled }
{
    let bytes = hex::decode(alloc, line)?;
    if bytes.len() > MAX_MESSAGE_LEN {
        return Err(BenchFault::TooLong);
    }
    Ok(Ask {
        bytes: Octets::from_vec(bytes),
        source: Peer {
            ip: Ip::V4(0x7f00_0001),
            port: 53,
        },
        protocol: Protocol::Udp,
        at: 0,
        client: 0,
    })
}
