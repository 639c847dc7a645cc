//! How the bytes of one message are received.

ghost use Rattle.std.specs.Prelude.{◌≡◌, ◌≤◌, ◌<◌, ◌+◌, ◌*◌, ◌++◌, ℕ, length, get_or, IfOk, IfErr, IfSome, IfNone, OnErr};
ghost use Rattle.dns_io.specs.Told.{Keeps, Told, TakesFront};
ghost use Rattle.dns_quic.specs.Receiving.{GivesUpTo};
ghost use Rattle.dns_quic.specs.Streams.{IsIoFault, IsReceived, ReceivesFrame};
ghost use Rattle.dns_transport.specs.Faults.{HasCause};

use crate::halves::RecvHalf;
use dns_io::{Octets, OutOfMemory};
use dns_transport::NetError;
use std::alloc::Global;

/// The bytes of the next message, which stand behind their length. After a fault a part of them was taken.
pub(crate) fn receive_frame<R: RecvHalf>(alloc: Global, half: &mut R) -> Result<Octets, NetError>
    ensures told { Told (ReceivesFrame result) (R.told half.old).left (R.told half.new).left }
    ensures kind { IsReceived result }
    ensures unstopped { Keeps (R.told half.old).stops (R.told half.new).stops }
    ensures cause { HasCause (R.told half.old).faults (R.told half.new).faults result }
{
    let prefix = read_up_to(alloc, half, 2)?;
    let Some(count) = said_length(prefix.as_slice()) else {
        return Err(NetError::FinishedEarly(prefix.len()));
    };
    match read_up_to(alloc, half, count) {
        Err(fault) => Err(fault),
        Ok(message) => {
            if message.len() < count {
                return Err(NetError::FinishedEarly(message.len()));
            }
            Ok(message)
        }
    }
}

/// The length that two bytes say; `None` where there are fewer.
fn said_length(prefix: &[u8]) -> Option<usize>
    requires { length prefix.now ≤ 2 }
    ensures fits { (i : ℕ) → get_or prefix.now i 0 < 256 }
    ensures two { IfSome result (λ count. length prefix.now ≡ 2) }
    ensures said { IfSome result (λ count. count ≡ get_or prefix.now 0 0 * 256 + get_or prefix.now 1 0) }
    ensures bound { IfSome result (λ count. count ≤ 65535) }
    ensures short { IfNone result (length prefix.now < 2) }
{
    let [high, low] = prefix else {
        return None;
    };
    Some(usize::from(*high) * 256 + usize::from(*low))
}

/// Reads until there are so many bytes, or the stream ends.
fn read_up_to<R: RecvHalf>(alloc: Global, half: &mut R, count: usize) -> Result<Octets, NetError>
    ensures given { IfOk result (GivesUpTo count (R.told half.old).left (R.told half.new).left) }
    ensures within { IfOk result (λ bytes. length bytes ≤ count) }
    ensures part { OnErr result (TakesFront (R.told half.old).left (R.told half.new).left count) }
    ensures kind { IfErr result IsIoFault }
    ensures unstopped { Keeps (R.told half.old).stops (R.told half.new).stops }
    ensures cause { HasCause (R.told half.old).faults (R.told half.new).faults result }
{
    let mut bytes = Octets::new(alloc);
    while bytes.len() < count {
        let Some(piece) = half.read(count - bytes.len())? else {
            return Ok(bytes);
        };
        bytes = joined(bytes, piece)?;
    }
    Ok(bytes)
}

/// A piece behind the bytes so far. The first one is not copied.
fn joined(mut bytes: Octets, piece: Octets) -> Result<Octets, OutOfMemory>
    ensures { IfOk result (λ all. all ≡ bytes ++ piece) }
{
    if bytes.len() == 0 {
        return Ok(piece);
    }
    bytes.append(piece.as_slice())?;
    Ok(bytes)
}
