//! Messages are sent one after another, and the reply to each is read before the next one is sent.

ghost use Rattle.std.specs.Prelude.{◌≡◌, ◌≤◌, ◌+◌, ℕ, List, length, IfOk, IfErr, OnOk};
ghost use Rattle.dns_io.specs.Told.{Grows, IsHandedOn, Takes};
ghost use Rattle.dns_update_client.specs.Exchange.{message_frame, Answers, IsSendable, Replies, Stops, StopsAt, TakesUntil};
ghost use Rattle.dns_update_client.specs.Faults.{HasReadCause, HasWriteCause};
ghost use Rattle.dns_update_client.specs.Framed.{frame};

use crate::reading::code_in;
use crate::receiving::receive;
use crate::sending::send;
use crate::submit_fault::SubmitFault;
use dns_edges::{Sink, Source};
use dns_wire::Message;
use std::alloc::Global;

/// Sends each message behind its length, by one call of `write_all`, and flushes; then takes one frame from the input,
/// and no byte behind it (RFC 1035 4.2.2). Answers with the codes of the replies, in order; a reply's code is the header's, with
/// the upper bits of its OPT (RFC 6891 6.1.3). The first message that is not answered so ends it.
pub fn submit<R: Source, W: Sink>(
    alloc: Global,
    messages: &Vec<Message>,
    input: &mut R,
    output: &mut W,
) -> Result<Vec<u16>, SubmitFault>
    ensures ok { IfOk result (λ codes. Answers messages.now.items codes.items
        (R.source.told input.old).left (R.source.told input.new).left (W.sink.told output.old).taken (W.sink.told output.new).taken) }
    ensures err { IfErr result (λ fault. StopsAt messages.now.items fault
        (R.source.told input.old).left (R.source.told input.new).left (W.sink.told output.old).taken (W.sink.told output.new).taken) }
    // Where the output had handed on all that it took, it has still.
    ensures handed { OnOk result (IsHandedOn (W.sink.told output.old).taken (W.sink.told output.old).flushed
        → IsHandedOn (W.sink.told output.new).taken (W.sink.told output.new).flushed) }
    ensures read { HasReadCause (R.source.told input.old).faults (R.source.told input.new).faults result }
    ensures written { HasWriteCause (W.sink.told output.old).faults (W.sink.told output.new).faults result }
{
    let mut codes = Vec::new(alloc);
    for message in messages {
        let number = codes.len() as u64 + 1;
        let code = exchange(alloc, message, number, input, output)?;
        codes.push(code)?;
    }
    Ok(codes)
}

/// Sends one message, and reads its reply.
fn exchange<R: Source, W: Sink>(
    alloc: Global,
    message: &Message,
    number: u64,
    input: &mut R,
    output: &mut W,
) -> Result<u16, SubmitFault>
    ensures ok { IfOk result (λ code. (bytes : List ℕ) × IsSendable message.now × Replies message.now.header.id bytes code
        × Takes (R.source.told input.old).left (R.source.told input.new).left (frame bytes)
        × Grows (W.sink.told output.old).taken (W.sink.told output.new).taken (message_frame message.now)) }
    ensures err { IfErr result (λ fault. (sent got : List ℕ) × Stops message.now number sent got fault
        × TakesUntil fault (R.source.told input.old).left (R.source.told input.new).left got
        × Grows (W.sink.told output.old).taken (W.sink.told output.new).taken sent) }
    ensures handed { OnOk result (IsHandedOn (W.sink.told output.new).taken (W.sink.told output.new).flushed) }
    ensures read { HasReadCause (R.source.told input.old).faults (R.source.told input.new).faults result }
    ensures written { HasWriteCause (W.sink.told output.old).faults (W.sink.told output.new).faults result }
{
    send(alloc, message, output)?;
    let bytes = receive(alloc, number, input)?;
    code_in(alloc, message.header.id, bytes.as_slice())
}
