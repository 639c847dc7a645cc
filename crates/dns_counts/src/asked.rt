//! What the counters are told of a message and its reply.

use crate::pairs::Pairs;
use dns_io::Protocol;
use dns_wire::{Header, LentRecords};
use std::marker::Model;

/// A message that was asked.
#[derive(Debug, Clone, Copy, PartialEq, Eq)]
pub struct Asked {
    /// The transport that it came by.
    pub protocol: Protocol,
    /// Its header.
    pub header: Header,
    /// The type and class of its question, only where the question was looked up in the zone or refused as one that the
    /// zone does not answer: not for a source that is shut out, a malformed message, an unknown EDNS version, another
    /// opcode or an update.
    pub question: Option<(u16, u16)>,
}

/// The reply to it.
#[derive(Debug, Drop)]
pub struct Replied {
    /// Its response code, with the upper bits that the OPT has (RFC 6891 6.1.3).
    pub code: u16,
    /// Its third and fourth byte as they were written, read as one number: the flags of RFC 1035 4.1.1.
    pub flags: u16,
    /// The type and class of each record that was written into its answer section. They are counted only where the
    /// question is.
    pub answers: Pairs,
}

/// The reply to it, whose answer section is told as it is lent. Contracts see it as [`Replied`].
#[derive(Drop)]
pub struct LentReplied<'a> {
    /// Its response code, as [`Replied::code`].
    pub code: u16,
    /// Its flags, as [`Replied::flags`].
    pub flags: u16,
    /// What there is for its answer section, in parts.
    pub parts: &'a [LentRecords<'a>],
    /// How many of their records were written into it, from the first on.
    pub written: usize,
}

impl<'a> Model for LentReplied<'a> {
    ghost use Rattle.std.specs.Prelude.{take};
    ghost use Rattle.dns_wire.specs.Given.{in_parts, kinds};
    ghost use Rattle.dns_counts.specs.declared.asked.Replied.{Replied};

    ghost Value = { Replied };

    ghost view = { λ r. record { code = r.code; flags = r.flags; answers = kinds (take r.written (in_parts r.parts.now)) } };
}
