//! What is told of the replies to a list of events.

ghost use Rattle.std.specs.Prelude.{◌≡◌, length, count_by};
ghost use Rattle.std.specs.List.{sum_by};
ghost use Rattle.dns_generator.specs.Summary.{message_in, has_code, summary_of};

use dns_server_core::{Out, Receiver};
use dns_wire::Header;
use dns_wire::response_code::{NO_ERROR, NX_DOMAIN};

/// What is told of replies.
#[derive(Clone, Copy, Debug, PartialEq, Eq)]
pub struct Summary {
    /// How many they are.
    pub replies: usize,
    /// How many bytes they take, with those of their length on a connection (RFC 1035 4.2.2).
    pub bytes: u128,
    /// How many have the code NoError (RFC 1035 4.1.1).
    pub no_error: usize,
    /// How many have the code NXDomain.
    pub nx_domain: usize,
}

impl Summary {
    /// What is told of these replies. Takes no memory.
    pub fn of(outs: &[Out]) -> Summary
        ensures { result ≡ summary_of outs.now }
    {
        Summary {
            replies: outs.len(),
            bytes: bytes_of(outs),
            no_error: count_of(outs, NO_ERROR),
            nx_domain: count_of(outs, NX_DOMAIN),
        }
    }
}

/// How many bytes replies take.
fn bytes_of(outs: &[Out]) -> u128
    ensures { result ≡ sum_by (λ out. length out.bytes) outs.now }
{
    let mut bytes = 0u128;
    for out in outs {
        bytes += out.bytes.len() as u128;
    }
    bytes
}

/// How many replies have a code.
fn count_of(outs: &[Out], code: u16) -> usize
    ensures { result ≡ count_by (has_code code) outs.now }
{
    let mut count = 0;
    for out in outs {
        if has_code(out, code) {
            count += 1;
        }
    }
    count
}

/// Whether the reply has this code in its header.
fn has_code(out: &Out, code: u16) -> bool
    ensures { result ≡ has_code code out.now }
{
    match Header::read(message_in(out)) {
        None => false,
        Some(header) => u16::from(header.code) == code,
    }
}

/// The message in what is sent.
fn message_in(out: &Out) -> &[u8]
    ensures { result.now ≡ message_in out.now.to out.now.bytes }
{
    match out.to {
        Receiver::Conn(_) => out.bytes.as_slice().get(2..).unwrap_or(&[]),
        Receiver::Peer(_) => out.bytes.as_slice(),
    }
}
