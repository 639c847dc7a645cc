//! One connection of the operating system.

ghost use Rattle.std.specs.Prelude.{◌≡◌, ◌≤◌, ◌<◌, length, true, false, ℕ, None, IfOk, IfSome, OnErr, OnOk};
ghost use Rattle.dns_readiness.specs.Links.{closed_from, drained_from, end_of, ended, is_free, is_idle, is_late, is_over, is_overdue, left_of, mark};
ghost use Rattle.dns_readiness.specs.Links.{Sends, is_served, is_slow, is_watched, may_leave, owed_behind, owed_with, owes, since, stands, taken_from, whole_of};
ghost use Rattle.dns_readiness.specs.declared.came.Came.TheVariants.{Bytes};

use crate::came::Came;
use crate::decisions::{Outcome, transfer_after};
use crate::owed::Owed;
use dns_io::OutOfMemory;
use mio::net::TcpStream;
use mio::{Interest, Registry, Token};
use std::alloc::Global;
use std::io::{self, Read, Write};
use std::marker::Model;
use std::net::Shutdown;

/// For how many milliseconds a connection that is closed may still send.
const DRAINING: u64 = 1_000;

/// So many bytes more are to be taken within a millisecond more: 16 KB a second.
const BYTES_A_MILLISECOND: u64 = 16;

/// How far a connection has come.
#[derive(Clone, Copy, Debug, PartialEq, Eq)]
pub(crate) enum Stage {
    /// It is served.
    Open,
    /// It is to be closed once all is written.
    Closing,
    /// All was written, and what its peer still sends is dropped.
    Draining,
    /// It ended, and has no stream any more.
    Ended,
}

/// A stream, and what its peer did not take yet. While there is something, nothing is read: so it is owed at most the replies to the
/// messages that one read completes, and no message is settled whose reply would be thrown away.
#[derive(Drop)]
pub(crate) struct Link {
    pub(crate) number: u32,
    /// None where it ended.
    pub(crate) stream: Option<TcpStream>,
    /// What its peer did not take yet, where there is something.
    pub(crate) owed: Option<Owed>,
    /// When it last sent or took something, or was shut down.
    pub(crate) heard: u64,
    pub(crate) stage: Stage,
    /// Nothing can be read or written any more.
    pub(crate) broken: bool,
    /// The peer sends no more, so that a read goes on to the end.
    pub(crate) last: bool,
    /// It is noted to be read again.
    pub(crate) noted: bool,
}

impl Model for Link {
    ghost use Rattle.dns_readiness.specs.Decisions.{LinkSeen};

    ghost Value = { LinkSeen };

    ghost view = { λ l. record { number = l.number; heard = l.heard; owed = l.owed; stage = l.stage; broken = l.broken } };
}

impl Link {
    /// One that was accepted at this moment.
    pub(crate) fn new(number: u32, stream: TcpStream, now: u64) -> Link
        ensures stands { stands result ≡ true }
        ensures number { result.number ≡ number }
    {
        Link {
            number,
            stream: Some(stream),
            owed: None,
            heard: now,
            stage: Stage::Open,
            broken: false,
            last: false,
            noted: false,
        }
    }

    /// Its number.
    pub(crate) fn number(&self) -> u32
        ensures { result ≡ self.now.number }
    {
        self.number
    }

    /// Whether it is owed nothing.
    pub(crate) fn is_free(&self) -> bool
        ensures { result ≡ is_free self.now }
    {
        self.owed.is_none()
    }

    /// Whether it stands: it did not end.
    pub(crate) fn stands(&self) -> bool
        ensures { result ≡ stands self.now }
    {
        match self.stage {
            Stage::Open => true,
            Stage::Closing => true,
            Stage::Draining => true,
            Stage::Ended => false,
        }
    }

    /// Whether it stands, and is owed nothing.
    pub(crate) fn is_idle(&self) -> bool
        ensures { result ≡ is_idle self.now }
    {
        self.stands() && self.is_free()
    }

    /// Whether it stands, and was owed something for longer than the patience.
    pub(crate) fn is_overdue(&self, patience: u64, now: u64) -> bool
        ensures { result ≡ is_overdue patience now self.now }
    {
        self.stands() && !self.is_free() && now.saturating_sub(self.mark()) > patience
    }

    /// Whether it can give way to another.
    pub(crate) fn may_leave(&self, patience: u64, now: u64) -> bool
        ensures { result ≡ may_leave patience now self.now }
    {
        self.is_idle() || self.is_overdue(patience, now)
    }

    /// Since when it was silent: one that is closed, and to which all was written, counts as silent for ever.
    pub(crate) fn since(&self) -> u64
        ensures { result ≡ since self.now }
    {
        match self.stage {
            Stage::Open => self.heard,
            Stage::Closing => self.heard,
            Stage::Draining => 0,
            Stage::Ended => 0,
        }
    }

    /// When it began to be owed something.
    pub(crate) fn mark(&self) -> u64
        ensures { result ≡ mark self.now }
    {
        match &self.owed {
            Some(owed) => owed.marked(),
            None => 0,
        }
    }

    /// How many bytes it was owed since then.
    fn whole(&self) -> u64
        ensures { result ≡ whole_of self.now.owed }
    {
        match &self.owed {
            Some(owed) => owed.whole(),
            None => 0,
        }
    }

    /// That so many bytes came over it.
    pub(crate) fn bytes(&self, at: u64, count: usize) -> Came
        ensures { result ≡ Bytes at self.now.number count }
    {
        Came::Bytes {
            at,
            conn: self.number,
            count,
        }
    }

    /// It ends: its stream and what it is owed are let go. What is told of it, where something is.
    pub(crate) fn end(&mut self, at: u64) -> Option<Came>
        ensures told { result ≡ end_of self.old.stage at self.old.number }
        ensures left { self.new ≡ ended self.old }
    {
        let is_served = self.is_served();
        self.stage = Stage::Ended;
        self.stream = None;
        self.owed = None;
        self.broken = false;
        if is_served {
            return Some(Came::Ended {
                at,
                conn: self.number,
            });
        }
        None
    }

    /// Whether it is served, so that its end is told: it was not closed before.
    pub(crate) fn is_served(&self) -> bool
        ensures { result ≡ is_served self.now.stage }
    {
        match self.stage {
            Stage::Open => true,
            Stage::Closing => false,
            Stage::Draining => false,
            Stage::Ended => false,
        }
    }

    /// Whether it takes bytes for its peer: it is served, and did not break.
    pub(crate) fn takes(&self) -> bool {
        self.is_served() && !self.broken
    }

    /// Whether it is owed something, was closed, or broke: no other can be over, whatever the time.
    pub(crate) fn is_watched(&self) -> bool
        ensures is { result ≡ is_watched self.now }
        ensures others { result ≡ false → (patience now : ℕ) → is_over patience now self.now ≡ false }
    {
        self.stands() && (self.broken || !self.is_free() || !self.is_served())
    }

    /// Whether it is over: it broke, or it is late.
    pub(crate) fn is_over(&self, patience: u64, now: u64) -> bool
        ensures { result ≡ is_over patience now self.now }
    {
        self.stands() && (self.broken || self.is_late(patience, now))
    }

    /// Whether it is over by its silence.
    fn is_late(&self, patience: u64, now: u64) -> bool
        ensures { result ≡ is_late patience now self.now }
    {
        match self.stage {
            Stage::Open => self.is_slow(patience, now),
            Stage::Closing => self.is_slow(patience, now),
            Stage::Draining => now.saturating_sub(self.heard) > DRAINING,
            Stage::Ended => false,
        }
    }

    /// Whether its peer takes too little of what it is owed.
    fn is_slow(&self, patience: u64, now: u64) -> bool
        ensures { result ≡ is_slow patience now self.now }
    {
        let silent = now.saturating_sub(self.heard);
        let owing = now.saturating_sub(self.mark()) as u128;
        let time = patience as u128 + (self.whole() / BYTES_A_MILLISECOND) as u128;
        !self.is_free() && (silent > patience || owing > time)
    }

    /// It is over, and what it is owed is let go.
    pub(crate) fn break_off(&mut self)
        ensures { self.new ≡ record self.old { owed = None; broken = true } }
    {
        self.owed = None;
        self.broken = true;
    }

    /// It is heard.
    pub(crate) fn hear(&mut self, now: u64)
        ensures { self.new ≡ record self.old { heard = now } }
    {
        self.heard = now;
    }

    /// It is ready, and its peer sends no more, where `last` says so; whether it was noted to be read again changes where `noted` says so.
    pub(crate) fn ready(&mut self, last: bool, noted: bool)
        ensures { self.new ≡ self.old }
    {
        self.last = self.last || last;
        self.noted = self.noted && !noted;
    }

    /// Reads what came over it.
    pub(crate) fn read(&mut self, room: &mut [u8]) -> io::Result<usize>
        ensures count { IfOk result (λ count. count ≤ length room.new) }
        ensures room { length room.new ≡ length room.old }
        ensures same { self.new ≡ self.old }
    {
        match &mut self.stream {
            Some(stream) => stream.read(room),
            None => Ok(0),
        }
    }

    /// Writes what its peer takes at once of what it is owed; how many bytes that are.
    pub(crate) fn write_unsent(&mut self) -> io::Result<usize>
        ensures count { IfOk result (λ count. count ≤ length (left_of self.old.owed)) }
        ensures same { self.new ≡ self.old }
    {
        match (&mut self.stream, &self.owed) {
            (Some(stream), Some(owed)) => stream.write(owed.as_slice()),
            _ => Ok(0),
        }
    }

    /// Asks again for what it waits for: to be written where it is owed something, and else to be read.
    pub(crate) fn listen_again(&mut self, registry: &Registry) -> io::Result<()>
        ensures { self.new ≡ self.old }
    {
        let interest = if self.is_free() {
            Interest::READABLE
        } else {
            Interest::WRITABLE
        };
        let token = Token(self.number as usize);
        match &mut self.stream {
            Some(stream) => registry.reregister(stream, token, interest),
            None => Ok(()),
        }
    }

    /// Its peer took so many bytes of those that it is owed.
    pub(crate) fn take(&mut self, count: usize, now: u64)
        requires { count ≤ length (left_of self.old.owed) }
        ensures { self.new ≡ taken_from count now self.old }
    {
        self.heard = now;
        if !self.leaves(count) {
            self.owed = None;
        }
        self.drain_if_due(now);
    }

    /// Its peer took so many bytes of those that it is owed; whether some are left.
    fn leaves(&mut self, count: usize) -> bool
        requires { count ≤ length (left_of self.old.owed) }
        ensures some { result ≡ true → self.new ≡ record self.old { owed = owed_behind count self.old.owed } }
        ensures none { result ≡ false → (self.new ≡ self.old) × (owed_behind count self.old.owed ≡ None) }
    {
        match &mut self.owed {
            Some(owed) => {
                if count < owed.len() {
                    owed.take(count);
                    return true;
                }
                false
            }
            None => false,
        }
    }

    /// It is closed, where it is served, once all is written.
    pub(crate) fn close(&mut self, now: u64)
        ensures { self.new ≡ closed_from self.old.stage now self.old }
    {
        if self.stage == Stage::Open {
            self.stage = Stage::Closing;
            self.drain_if_due(now);
        }
    }

    /// Where it is to be closed, and all is written, nothing more is sent, and what its peer still sends is dropped. One that is closed
    /// with bytes unread is reset (RFC 1122 4.2.2.13), and its peer may lose replies by that. Where the peer is gone there is nothing to be
    /// shut down, and a read tells so.
    fn drain_if_due(&mut self, now: u64)
        ensures { self.new ≡ drained_from self.old.stage now self.old }
    {
        if self.stage == Stage::Closing && self.is_free() {
            self.stage = Stage::Draining;
            self.heard = now;
            if let Some(stream) = &self.stream {
                let _ = stream.shutdown(Shutdown::Write);
            }
        }
    }

    /// Writes as much of these bytes as the peer takes at once, where it is owed nothing, and keeps the rest. One whose rest finds no memory
    /// is over.
    pub(crate) fn send(&mut self, alloc: Global, bytes: &[u8], now: u64) -> Result<(), OutOfMemory>
        ensures sent { OnOk result (Sends bytes.now now self.old self.new) }
        ensures over { OnErr result (self.new ≡ record self.old { owed = None; broken = true }) }
        ensures same { self.new ≡ record self.old { owed = self.new.owed; broken = self.new.broken } }
    {
        let Some(taken) = self.write_some(bytes) else {
            self.broken = true;
            return Ok(());
        };
        let (_, left) = bytes.split_at(taken);
        self.keep(alloc, left, now)
    }

    /// Keeps these bytes until its peer takes them.
    fn keep(&mut self, alloc: Global, left: &[u8], now: u64) -> Result<(), OutOfMemory>
        ensures kept { OnOk result (self.new ≡ owes now left.now self.old) }
        ensures over { OnErr result (self.new ≡ record self.old { owed = None; broken = true }) }
        ensures same { self.new ≡ record self.old { owed = self.new.owed; broken = self.new.broken } }
    {
        if left.is_empty() {
            return Ok(());
        }
        match self.owe(alloc, left, now) {
            Ok(()) => Ok(()),
            Err(fault) => {
                self.break_off();
                Err(fault)
            }
        }
    }

    /// It is owed these bytes more. Where memory runs out, nothing has changed.
    fn owe(&mut self, alloc: Global, bytes: &[u8], now: u64) -> Result<(), OutOfMemory>
        ensures ok { OnOk result (self.new ≡ record self.old { owed = owed_with now bytes.now self.old.owed }) }
        ensures err { OnErr result (self.new ≡ self.old) }
    {
        match &mut self.owed {
            Some(owed) => owed.add(bytes),
            None => {
                self.owed = Some(Owed::new(alloc, bytes, now)?);
                Ok(())
            }
        }
    }

    /// Writes as much of these bytes as the peer takes at once, where it is owed nothing; how many that are. `None` where the connection broke.
    fn write_some(&mut self, bytes: &[u8]) -> Option<usize>
        ensures count { IfSome result (λ taken. taken ≤ length bytes.now) }
        ensures order { IfSome result (λ taken. is_free self.old ≡ false → taken ≡ 0) }
        ensures same { self.new ≡ self.old }
    {
        if !self.is_free() {
            return Some(0);
        }
        match self.write_now(bytes) {
            Ok(count) => Some(count),
            Err(error) => {
                if transfer_after(error.kind()) == Outcome::Over {
                    return None;
                }
                Some(0)
            }
        }
    }

    /// Writes what its peer takes at once of these bytes; how many that are.
    fn write_now(&mut self, bytes: &[u8]) -> io::Result<usize>
        ensures count { IfOk result (λ count. count ≤ length bytes.now) }
        ensures same { self.new ≡ self.old }
    {
        match &mut self.stream {
            Some(stream) => stream.write(bytes),
            None => Ok(0),
        }
    }
}
