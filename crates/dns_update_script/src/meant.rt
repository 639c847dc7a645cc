//! The messages that a script means (RFC 2136 2).

ghost use Rattle.std.specs.Prelude.{◌≡◌, IfOk, ◌%◌, ◌^◌};
ghost use Rattle.std.specs.List.{AllByRecursion};
ghost use Rattle.dns_wire.specs.ReadBack.{IsMessage, IsPlain};
ghost use Rattle.dns_update_script.specs.Meant.{update_header, update_of, meant_by};

use crate::script::{Script, Sending};
use dns_io::OutOfMemory;
use dns_wire::kept::kept_messages;
use dns_wire::{Header, Message, Question, Questions, Records, class, opcode, record_type};
use std::alloc::Global;

impl Script {
    /// The updates that the script means, one for each of its sendings, in order. Their ids count on from this one, and from
    /// 65,535 to 0; their headers have no flag, and the counts of the sections are 0: `Message::to_vec` writes the right ones.
    pub fn messages(&self, alloc: Global, first_id: u16) -> Result<Vec<Message>, OutOfMemory>
        ensures meant { IfOk result (λ messages. messages.items ≡ meant_by self.now first_id) }
        // What is written of each reads back.
        ensures kept { IfOk result (λ messages. AllByRecursion IsMessage messages.items) }
        ensures plain { IfOk result (λ messages. AllByRecursion IsPlain messages.items) }
    {
        let messages = messages_of(alloc, self.as_slice(), first_id)?;
        kept_messages(messages.as_slice());
        Ok(messages)
    }
}

/// The updates of sendings.
fn messages_of(
    alloc: Global,
    sendings: &[Sending],
    first_id: u16,
) -> Result<Vec<Message>, OutOfMemory>
    ensures { IfOk result (λ messages. messages.items ≡ meant_by sendings.now first_id) }
{
    let mut messages = Vec::new(alloc);
    let mut id = first_id;
    for sending in sendings {
        messages.push(update_of(alloc, sending, id)?)?;
        id = id.wrapping_add(1);
    }
    Ok(messages)
}

/// The update of one sending.
fn update_of(alloc: Global, sending: &Sending, id: u16) -> Result<Message, OutOfMemory>
    ensures { IfOk result (λ message. message ≡ update_of sending.now id) }
{
    let mut questions = Questions::new(alloc);
    questions.push(Question {
        name: sending.zone.copy()?,
        qtype: record_type::SOA,
        qclass: class::IN,
    })?;
    Ok(Message {
        header: update_header(id),
        questions,
        answers: sending.prerequisites.copy()?,
        authority: sending.changes.copy()?,
        additional: Records::new(alloc),
        edns: None,
    })
}

/// The header of an update with this id.
fn update_header(id: u16) -> Header
    ensures { result ≡ update_header id }
{
    Header {
        id,
        qr: false,
        opcode: opcode::UPDATE,
        aa: false,
        tc: false,
        rd: false,
        ra: false,
        ad: false,
        cd: false,
        code: 0,
        questions: 0,
        answers: 0,
        authority: 0,
        additional: 0,
    }
}
