//! A stream of QUIC, on which messages go (RFC 9250 4.2).

ghost use Rattle.std.specs.Prelude.{◌≡◌, ◌≤◌, ◌++◌, ℕ, List, false, length, IsErrOf, IfErr};
ghost use Rattle.std.specs.Int.{w16, to_be_bytes};
ghost use Rattle.dns_io.specs.Told.{Keeps};
ghost use Rattle.dns_quic.specs.Codes.{number_of};
ghost use Rattle.dns_quic.specs.Streams.{ChecksId, Ends, EndsSo, Encodes, IsOtherId, ReceivesBytes, ReadsChecked, ReceivesMessage, SendsBytes, SendsMessage, Stops, TakesBytes};
ghost use Rattle.dns_frames.specs.Frames.{frame_of};
ghost use Rattle.dns_quic.specs.declared.halves.StreamEnd.TheVariants.{Finished, Reset};
ghost use Rattle.dns_transport.specs.Faults.{HasCause};

use crate::error_code::DoqErrorCode;
use crate::halves::{RecvHalf, SendHalf};
use crate::receiving::receive_frame;
use dns_io::Octets;
use dns_transport::{NetError, bytes_with_id_0, read_message};
use dns_wire::{Message, limits};
use std::alloc::Global;

/// A stream of QUIC: two halves, on each of which messages go, each behind its length.
#[derive(Drop)]
pub struct QuicStream<S, R> {
    send: S,
    recv: R,
    is_ended: bool,
    is_stopped: bool,
}

/// The most bytes of a message.
const MAX_MESSAGE_LEN: usize = limits::MAX_MESSAGE_LEN as usize;

impl<S: SendHalf, R: RecvHalf> QuicStream<S, R> {
    /// A stream of these halves, neither of which was ended yet.
    pub fn new(send: S, recv: R) -> QuicStream<S, R>
        ensures { result ≡ record { send = send; recv = recv; is_ended = false; is_stopped = false } }
    {
        QuicStream {
            send,
            recv,
            is_ended: false,
            is_stopped: false,
        }
    }

    /// Its sending half.
    pub fn sending_half(&self) -> &S
        ensures { result.now ≡ self.now.send }
    {
        &self.send
    }

    /// Its receiving half.
    pub fn receiving_half(&self) -> &R
        ensures { result.now ≡ self.now.recv }
    {
        &self.recv
    }

    /// Its halves.
    pub fn into_halves(self) -> (S, R)
        ensures { result ≡ (self.send, self.recv) }
    {
        let QuicStream { send, recv, .. } = self;
        (send, recv)
    }

    /// Sends a message, with the id 0 (RFC 9250 4.2.1), behind its length. The answer is the first of these: the message
    /// cannot be written; the sending half was finished or reset before; writing failed, and a front of the bytes was sent.
    pub fn send(&mut self, alloc: Global, message: &Message) -> Result<(), NetError>
        ensures sends { SendsMessage S.sending self.old message.now result self.new }
        ensures cause { HasCause (S.sending.told self.old.send).faults (S.sending.told self.new.send).faults result }
        ensures in_time { IsErrOf result NetError.Timeout → ⊥ }
    {
        let bytes = encoded(alloc, message)?;
        self.send_bytes(bytes.as_slice())
    }

    /// Sends these bytes as a message, behind their length. The answer is the first of these: they are more than 65,535; the
    /// sending half was finished or reset before; writing failed, and a front of the bytes was sent. Takes no memory.
    pub fn send_bytes(&mut self, bytes: &[u8]) -> Result<(), NetError>
        ensures sends { SendsBytes S.sending self.old bytes.now result self.new }
        ensures cause { HasCause (S.sending.told self.old.send).faults (S.sending.told self.new.send).faults result }
        ensures in_time { IsErrOf result NetError.Timeout → ⊥ }
    {
        if bytes.len() > MAX_MESSAGE_LEN {
            return Err(NetError::MaxBufferSizeExceeded(bytes.len()));
        }
        if self.is_ended {
            return Err(NetError::UnknownStream);
        }
        write_frame(&mut self.send, bytes)
    }

    /// Tells the other side that no more messages come. It is `UnknownStream` exactly where the sending half was finished
    /// or reset before. After a fault it is not finished.
    pub fn finish(&mut self) -> Result<(), NetError>
        ensures ends { Ends S.sending self.old Finished result self.new }
        ensures cause { HasCause (S.sending.told self.old.send).faults (S.sending.told self.new.send).faults result }
        ensures in_time { IsErrOf result NetError.Timeout → ⊥ }
    {
        if self.is_ended {
            return Err(NetError::UnknownStream);
        }
        self.send.finish()?;
        self.is_ended = true;
        Ok(())
    }

    /// Gives the sending half up with this code. It is `UnknownStream` exactly where that was finished or reset before.
    /// After a fault it is not reset.
    pub fn reset(&mut self, code: DoqErrorCode) -> Result<(), NetError>
        ensures ends { Ends S.sending self.old (Reset (number_of code)) result self.new }
        ensures cause { HasCause (S.sending.told self.old.send).faults (S.sending.told self.new.send).faults result }
    {
        if self.is_ended {
            return Err(NetError::UnknownStream);
        }
        self.send.reset(u64::from(code))?;
        self.is_ended = true;
        Ok(())
    }

    /// Tells the other side with this code that nothing more will be received. It is `UnknownStream` exactly where the
    /// receiving half was stopped before. After a fault it is not stopped.
    pub fn stop(&mut self, code: DoqErrorCode) -> Result<(), NetError>
        ensures stops { Stops R.told self.old (number_of code) result self.new }
        ensures cause { HasCause (R.told self.old.recv).faults (R.told self.new.recv).faults result }
    {
        if self.is_stopped {
            return Err(NetError::UnknownStream);
        }
        self.recv.stop(u64::from(code))?;
        self.is_stopped = true;
        Ok(())
    }

    /// Receives the bytes of one message, none where its length is 0. It is `UnknownStream` exactly where the receiving half
    /// was stopped, and `FinishedEarly` where the stream ends first, with how many bytes of the length or of the message
    /// came. After a fault a part of the message was taken, and what comes next is no message.
    pub fn receive_bytes(&mut self, alloc: Global) -> Result<Octets, NetError>
        ensures receives { ReceivesBytes R.told self.old result self.new }
        ensures cause { HasCause (R.told self.old.recv).faults (R.told self.new.recv).faults result }
        ensures in_time { IsErrOf result NetError.Timeout → ⊥ }
    {
        if self.is_stopped {
            return Err(NetError::UnknownStream);
        }
        receive_frame(alloc, &mut self.recv)
    }

    /// Receives a message. Where its id is not 0, the sending half is reset with `ProtocolError`, whatever that answers
    /// (RFC 9250 4.2.1, 4.3.3).
    pub fn receive(&mut self, alloc: Global) -> Result<Message, NetError>
        ensures receives { ReceivesMessage S.sending R.told self.old result self.new }
        ensures cause { HasCause (R.told self.old.recv).faults (R.told self.new.recv).faults result }
        ensures later { (S.sending.told self.old.send).faults ≤ (S.sending.told self.new.send).faults }
        ensures calm_send { ¬ (IsOtherId result) → (S.sending.told self.new.send).faults ≡ (S.sending.told self.old.send).faults }
        ensures in_time { IsErrOf result NetError.Timeout → ⊥ }
    {
        match self.receive_bytes(alloc) {
            Ok(bytes) => self.read_checked(alloc, bytes.as_slice()),
            Err(fault) => Err(fault),
        }
    }

    /// The message that stands in the bytes, if its id is 0.
    fn read_checked(&mut self, alloc: Global, bytes: &[u8]) -> Result<Message, NetError>
        ensures reads { ReadsChecked S.sending self.old bytes.now result self.new }
        ensures later { (S.sending.told self.old.send).faults ≤ (S.sending.told self.new.send).faults }
        ensures calm_send { ¬ (IsOtherId result) → (S.sending.told self.new.send).faults ≡ (S.sending.told self.old.send).faults }
        ensures calm { IsErrOf result NetError.Io → ⊥ }
        ensures in_time { IsErrOf result NetError.Timeout → ⊥ }
        ensures recv { self.new.recv ≡ self.old.recv }
    {
        let message = read_message(alloc, bytes)?;
        self.checked(message)
    }

    /// A message whose id is 0; else the sending half is reset.
    fn checked(&mut self, message: Message) -> Result<Message, NetError>
        ensures checks { ChecksId S.sending self.old message result self.new }
        ensures later { (S.sending.told self.old.send).faults ≤ (S.sending.told self.new.send).faults }
        ensures calm_send { ¬ (IsOtherId result) → (S.sending.told self.new.send).faults ≡ (S.sending.told self.old.send).faults }
        ensures calm { IsErrOf result NetError.Io → ⊥ }
        ensures in_time { IsErrOf result NetError.Timeout → ⊥ }
        ensures recv { self.new.recv ≡ self.old.recv }
    {
        let id = message.header.id;
        if id == 0 {
            return Ok(message);
        }
        match self.send.reset(u64::from(DoqErrorCode::ProtocolError)) {
            Ok(()) => {
                self.is_ended = true;
                Err(NetError::QuicMessageIdNot0(id))
            }
            Err(_) => Err(NetError::QuicMessageIdNot0(id)),
        }
    }
}

/// The bytes of a message, with the id 0.
fn encoded(alloc: Global, message: &Message) -> Result<Octets, NetError>
    ensures made { Encodes message.now result }
    ensures written { IsErrOf result NetError.Io → ⊥ }
    ensures in_time { IsErrOf result NetError.Timeout → ⊥ }
{
    match bytes_with_id_0(alloc, message) {
        Ok(bytes) => Ok(bytes),
        Err(error) => Err(NetError::from(error)),
    }
}

/// Writes these bytes behind their length.
fn write_frame<S: SendHalf>(half: &mut S, bytes: &[u8]) -> Result<(), NetError>
    requires { length bytes.now ≤ 65535 }
    ensures taken { TakesBytes (S.sending.told half.old).taken (S.sending.told half.new).taken (frame_of bytes.now) result }
    ensures unended { Keeps (S.sending.told half.old).ends (S.sending.told half.new).ends }
    ensures cause { HasCause (S.sending.told half.old).faults (S.sending.told half.new).faults result }
{
    write_both(half, &(bytes.len() as u16).to_be_bytes(), bytes)
}

/// Writes some bytes, and then others.
fn write_both<S: SendHalf>(half: &mut S, front: &[u8], back: &[u8]) -> Result<(), NetError>
    ensures taken { TakesBytes (S.sending.told half.old).taken (S.sending.told half.new).taken (front.now ++ back.now) result }
    ensures unended { Keeps (S.sending.told half.old).ends (S.sending.told half.new).ends }
    ensures cause { HasCause (S.sending.told half.old).faults (S.sending.told half.new).faults result }
{
    match write_to(half, front) {
        Ok(()) => write_to(half, back),
        Err(fault) => Err(fault),
    }
}

/// Writes these bytes.
#[tactic(auto, using(crate::proofs::Sending::is_io))]
fn write_to<S: SendHalf>(half: &mut S, bytes: &[u8]) -> Result<(), NetError>
    ensures taken { TakesBytes (S.sending.told half.old).taken (S.sending.told half.new).taken bytes.now result }
    ensures unended { Keeps (S.sending.told half.old).ends (S.sending.told half.new).ends }
    ensures cause { HasCause (S.sending.told half.old).faults (S.sending.told half.new).faults result }
{
    match half.write(bytes) {
        Ok(()) => Ok(()),
        Err(fault) => Err(NetError::from(fault)),
    }
}
