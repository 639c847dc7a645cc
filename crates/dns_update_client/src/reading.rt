//! What a reply says.

ghost use Rattle.std.specs.Prelude.{◌≡◌, ◌≤◌, ◌<◌, ◌+◌, ◌*◌, ◌↔◌, IsTrue, length, IfOk, IfErr};
ghost use Rattle.dns_update_client.specs.Exchange.{upper_bits, IsUpdateReply, Replies, StopsReading};

use crate::submit_fault::SubmitFault;
use dns_wire::{Edns, Message, opcode};
use std::alloc::Global;

/// The code that the bytes say, where they are the reply to an update of this id.
pub(crate) fn code_in(alloc: Global, id: u16, bytes: &[u8]) -> Result<u16, SubmitFault>
    requires { length bytes.now ≤ 65535 }
    ensures ok { IfOk result (λ code. Replies id bytes.now code) }
    ensures err { IfErr result (StopsReading id bytes.now) }
{
    match Message::from_vec(alloc, bytes) {
        Err(error) => Err(SubmitFault::from(error)),
        Ok(reply) => {
            let got = reply.header.id;
            if got != id {
                return Err(SubmitFault::Mismatch { want: id, got });
            }
            if !is_update_reply(&reply) {
                return Err(SubmitFault::NotReply { id });
            }
            Ok(joined(upper_bits(&reply.edns), reply.header.code))
        }
    }
}

/// Whether a message says that it is the reply to an update.
fn is_update_reply(message: &Message) -> bool
    ensures { IsTrue result ↔ IsUpdateReply message.now }
{
    message.header.qr && message.header.opcode == opcode::UPDATE
}

/// The code with these bits above those of the header (RFC 6891 6.1.3).
fn joined(upper: u16, code: u8) -> u16
    requires { upper < 256 }
    ensures { result ≡ upper * 16 + code }
{
    upper * 16 + u16::from(code)
}

fn upper_bits(edns: &Option<Edns>) -> u16
    ensures is { result ≡ upper_bits edns.now }
    ensures small { result < 256 }
{
    match edns {
        None => 0,
        Some(edns) => u16::from(edns.extended),
    }
}
