//! Messages as they go over the network.

ghost use Rattle.std.specs.Prelude.{◌≡◌, ◌≤◌, length, IsErrOf, IfOk, IfErr};
ghost use Rattle.dns_transport.specs.Messages.{ReadsMessage, with_id_0};
ghost use Rattle.dns_wire.specs.MessageBytes.{message_bytes, TellsTooLong};

use crate::error::NetError;
use dns_io::Octets;
use dns_wire::{Message, ProtoError};
use std::alloc::Global;

/// The bytes of a message, with the id 0 (RFC 8484 4.1, RFC 9250 4.2.1).
pub fn bytes_with_id_0(alloc: Global, message: &Message) -> Result<Octets, ProtoError>
    ensures ok { IfOk result (λ bytes. (bytes ≡ message_bytes (with_id_0 message.now)) × (length bytes ≤ 65535)) }
    ensures err { IfErr result (TellsTooLong message.now) }
{
    let mut bytes = message.to_vec(alloc)?.into_vec();
    bytes[0] = 0;
    bytes[1] = 0;
    Ok(Octets::from_vec(bytes))
}

/// The message that stands in the bytes.
pub fn read_message(alloc: Global, bytes: &[u8]) -> Result<Message, NetError>
    ensures says { ReadsMessage bytes.now result }
    ensures read { IsErrOf result NetError.Io → ⊥ }
    ensures in_time { IsErrOf result NetError.Timeout → ⊥ }
{
    match Message::from_vec(alloc, bytes) {
        Ok(message) => Ok(message),
        Err(error) => Err(NetError::from(error)),
    }
}
