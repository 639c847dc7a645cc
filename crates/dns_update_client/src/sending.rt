//! How one message is sent.

ghost use Rattle.std.specs.Prelude.{◌≡◌, ◌≤◌, ◌++◌, ℕ, List, length, IfOk, IfErr, OnOk, OnErr};
ghost use Rattle.dns_io.specs.Told.{Grows, IsHandedOn};
ghost use Rattle.dns_edges.specs.Edges.{HasCause};
ghost use Rattle.dns_update_client.specs.Exchange.{message_frame, IsSendable, StopsSending};
ghost use Rattle.dns_update_client.specs.Faults.{HasWriteCause};
ghost use Rattle.dns_update_client.specs.Framed.{frame};

use crate::submit_fault::SubmitFault;
use dns_edges::{Sink, write_all};
use dns_io::{IoFault, OutOfMemory};
use dns_wire::Message;
use std::alloc::Global;

/// Writes the message behind its length by one call, and flushes.
pub(crate) fn send<W: Sink>(
    alloc: Global,
    message: &Message,
    output: &mut W,
) -> Result<(), SubmitFault>
    ensures ok { OnOk result (IsSendable message.now
        × Grows (W.sink.told output.old).taken (W.sink.told output.new).taken (message_frame message.now)) }
    ensures handed { OnOk result (IsHandedOn (W.sink.told output.new).taken (W.sink.told output.new).flushed) }
    ensures err { IfErr result (λ fault. (sent : List ℕ) × StopsSending message.now sent fault
        × Grows (W.sink.told output.old).taken (W.sink.told output.new).taken sent) }
    ensures cause { HasWriteCause (W.sink.told output.old).faults (W.sink.told output.new).faults result }
{
    let bytes = message.to_vec(alloc)?;
    let frame = framed(alloc, bytes.as_slice())?;
    match write_and_flush(output, frame.as_slice()) {
        Ok(()) => Ok(()),
        Err(fault) => Err(SubmitFault::of_output(fault)),
    }
}

/// The bytes behind their length.
fn framed(alloc: Global, bytes: &[u8]) -> Result<Vec<u8>, OutOfMemory>
    requires { length bytes.now ≤ 65535 }
    ensures { IfOk result (λ made. made.items ≡ frame bytes.now) }
{
    let mut made = Vec::with_capacity(alloc, bytes.len() + 2)?;
    made.extend_from_slice(&(bytes.len() as u16).to_be_bytes())?;
    made.extend_from_slice(bytes)?;
    Ok(made)
}

/// Writes the bytes, and hands on what was taken.
fn write_and_flush<W: Sink>(output: &mut W, bytes: &[u8]) -> Result<(), IoFault>
    ensures ok { OnOk result (Grows (W.sink.told output.old).taken (W.sink.told output.new).taken bytes.now) }
    ensures handed { OnOk result (IsHandedOn (W.sink.told output.new).taken (W.sink.told output.new).flushed) }
    ensures err { OnErr result ((front rest : List ℕ) × (bytes.now ≡ front ++ rest)
        × Grows (W.sink.told output.old).taken (W.sink.told output.new).taken front) }
    ensures cause { HasCause (W.sink.told output.old).faults (W.sink.told output.new).faults result }
{
    write_all(output, bytes)?;
    output.flush()
}
