//! Messages behind the two bytes of their length (RFC 1035 4.2.2).

ghost use Rattle.std.specs.Prelude.{◌≡◌, ◌≤◌, ◌<◌, ◌+◌, ◌++◌, ℕ, List, [], length, drop, IfOk, IfSome, IfNone, OnOk, OnErr};
ghost use Rattle.std.specs.Option.{option_to_list};
ghost use Rattle.dns_frames.specs.Frames.{frames, behind, Accounts, Gives};

use dns_io::{Octets, OutOfMemory};
use std::alloc::Global;
use std::marker::Model;

/// The first message of a stream, at most 65,535 bytes without its length, and the stream behind it; none where none is
/// whole. An empty frame is a message of no bytes.
pub fn first_frame(bytes: &[u8]) -> Option<(&[u8], &[u8])>
    ensures some { IfSome result (λ parts. frames bytes.now ≡ behind parts.0.now (frames parts.1.now)) }
    ensures none { IfNone result (frames bytes.now ≡ record { messages = []; rest = bytes.now }) }
    ensures short { IfSome result (λ parts. length parts.0.now ≤ 65535) }
    ensures inside { IfSome result (λ parts. 2 + length parts.0.now ≤ length bytes.now) }
    ensures left { IfSome result (λ parts. parts.1.now ≡ drop (2 + length parts.0.now) bytes.now) }
{
    match bytes {
        [high, low, more @ ..] => {
            let length = *high as usize * 256 + *low as usize;
            if more.len() < length {
                return None;
            }
            Some(more.split_at(length))
        }
        _ => None,
    }
}

/// The messages of a stream that is fed in pieces, however it is cut. Contracts see the bytes that no message was given
/// of. Feeding and giving take time in proportion to the bytes that were fed, however few come at a time.
#[derive(Debug, Drop)]
pub struct Frames {
    bytes: Vec<u8>,
    given: usize,
    alloc: Global,
}

impl Model for Frames {
    ghost use Rattle.std.specs.Prelude.{◌≤◌, List, ℕ, length, drop};

    ghost Value = { List ℕ };

    ghost view = { λ f. drop f.given f.bytes.items };

    ghost invariant = { λ f. f.given ≤ length f.bytes.items };
}

impl Frames {
    /// No bytes were fed.
    pub fn new(alloc: Global) -> Frames
        ensures empty { result ≡ [] }
        ensures accounts { Accounts [] [] result }
    {
        Frames {
            bytes: Vec::new(alloc),
            given: 0,
            alloc,
        }
    }

    /// Adds a piece of the stream. Where memory runs out, nothing has changed.
    pub fn feed(&mut self, piece: &[u8]) -> Result<(), OutOfMemory>
        ensures ok { OnOk result (self.new ≡ self.old ++ piece.now) }
        // Whatever was fed and given before, all of it is accounted for.
        ensures accounts { OnOk result ((fed : List ℕ) (given : List (List ℕ)) → Accounts fed given self.old
            → Accounts (fed ++ piece.now) given self.new) }
        ensures err { OnErr result (self.new ≡ self.old) }
    {
        self.forget();
        self.append(piece)
    }

    /// Gives the next message, without its length; `None` exactly where none is whole. Where memory runs out, nothing
    /// has changed.
    pub fn next(&mut self) -> Result<Option<Octets>, OutOfMemory>
        ensures ok { IfOk result (λ message. Gives self.old message self.new) }
        ensures short { IfOk result (λ message. IfSome message (λ bytes. length bytes ≤ 65535)) }
        ensures shorter { IfOk result (λ message. IfSome message (λ bytes. length self.new < length self.old)) }
        // Whatever was fed and given before, all of it is accounted for.
        ensures accounts { IfOk result (λ message. (fed : List ℕ) (given : List (List ℕ)) → Accounts fed given self.old
            → Accounts fed (given ++ option_to_list message) self.new) }
        ensures err { OnErr result (self.new ≡ self.old) }
    {
        match first_frame(self.unread()) {
            None => Ok(None),
            Some((message, _)) => {
                let size = 2 + message.len();
                let message = Octets::from_slice(self.alloc, message)?;
                self.given += size;
                Ok(Some(message))
            }
        }
    }

    /// How many bytes stand behind the last whole message. Takes no memory.
    pub fn rest(&self) -> usize
        ensures { result ≡ length (frames self.now).rest }
    {
        let mut left = self.unread();
        while let Some((_, after)) = first_frame(left) {
            left = after;
        }
        left.len()
    }

    fn append(&mut self, piece: &[u8]) -> Result<(), OutOfMemory>
        ensures ok { OnOk result (self.new ≡ self.old ++ piece.now) }
        ensures err { OnErr result (self.new ≡ self.old) }
    {
        self.bytes.extend_from_slice(piece)?;
        Ok(())
    }

    fn unread(&self) -> &[u8]
        ensures { result.now ≡ self.now }
    {
        self.bytes.as_slice().split_at(self.given).1
    }

    /// Lets the bytes go whose messages were given, once they are as many as the others: so each byte is moved for one
    /// that was given, and the room is at most twice what is left.
    fn forget(&mut self)
        ensures { self.new ≡ self.old }
    {
        if self.given > 0 && self.given >= self.bytes.len() - self.given {
            self.bytes.drain(..self.given);
            self.given = 0;
        }
    }
}
