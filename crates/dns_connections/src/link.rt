//! One connection.

ghost use Rattle.std.specs.Prelude.{◌≡◌, ◌≤◌, ◌<◌, ◌++◌, ◌∷◌, [], length, take, true, false, is_some, None, IfOk, IfSome, OnErr, OnOk};
ghost use Rattle.dns_network.specs.Calls.{closed, read, watched, wrote};
ghost use Rattle.dns_network.specs.Words.{IsCause, has_ceased, now_of};
ghost use Rattle.dns_connections.specs.Kept.{Acts, HasEnd, IsTimed, IsWatched, StaysRight, StaysWatched, asked_now, given_more, handed_more, is_finish};
ghost use Rattle.dns_connections.specs.Kept.{ceasing_of, line_of, same_account};
ghost use Rattle.dns_connections.specs.Links.{HasRoom, after_read, after_send, after_write, closed_link, count_of, fresh_link, given_of, heard_by};
ghost use Rattle.dns_connections.specs.Links.{is_draining, is_free, is_idle, is_kept, is_open, is_over, is_overdue, left_of, mark, more_owed, owed_behind};
ghost use Rattle.dns_connections.specs.Links.{owed_with, read_link, sent_link, since, time_for, watch_for, why_over, why_silent, written_link};
ghost use Rattle.dns_connections.specs.declared.stage.Stage.TheVariants.{Closing, Draining};

use crate::fates::{after_read, after_send, after_write, count_of, given_of, heard_by};
use crate::owed::{Owed, Room, make_room};
use crate::stage::{Fate, Stage};
use dns_io::OutOfMemory;
use dns_network::{Refused, Streams, Watch, Why};
use std::alloc::Global;
use std::marker::Model;

/// For how many milliseconds a connection that was shut may still send.
const DRAINING: u64 = 1_000;

/// So many bytes more are to be taken within a millisecond more: 16 KB a second.
const BYTES_A_MILLISECOND: u64 = 16;

/// A stream, and what its peer did not take yet. While there is something, nothing is read. Its stream can be let go by `close` alone, so it
/// stands there without one once it ended.
pub(crate) struct Link<N: Streams> {
    number: u32,
    /// None where it ended.
    stream: Option<N::Stream>,
    stage: Stage,
    /// It ended, and that is to be told.
    untold: bool,
    /// When it last sent or took something, by the clock that is never set.
    heard: u64,
    /// What its peer did not take yet, where there is something.
    owed: Option<Owed>,
}

impl<N: Streams> Model for Link<N> {
    ghost use Rattle.std.specs.Prelude.{◌≡◌, is_some, IfSome};
    ghost use Rattle.dns_connections.specs.Links.{LinkSeen};

    ghost Value = { LinkSeen };

    ghost view = { λ l. record {
      number = l.number;
      stands = is_some l.stream;
      stage = l.stage;
      untold = l.untold;
      heard = l.heard;
      owed = l.owed;
    } };

    ghost invariant = { λ l. IfSome l.stream (λ stream. N.number stream ≡ l.number) };
}

impl<N: Streams> Link<N> {
    /// One that was accepted at this moment.
    pub(crate) fn new(number: u32, stream: N::Stream, now: u64) -> Link<N>
        requires { N.number stream ≡ number }
        ensures { result ≡ fresh_link number now }
    {
        Link {
            number,
            stream: Some(stream),
            stage: Stage::Open,
            untold: false,
            heard: now,
            owed: None,
        }
    }

    /// Its number.
    pub(crate) fn number(&self) -> u32
        ensures { result ≡ self.now.number }
    {
        self.number
    }

    /// Whether it stands: it did not end.
    pub(crate) fn stands(&self) -> bool
        ensures { result ≡ self.now.stands }
    {
        self.stream.is_some()
    }

    /// Whether it ended, and that is to be told.
    pub(crate) fn is_untold(&self) -> bool
        ensures { result ≡ self.now.untold }
    {
        self.untold
    }

    /// Whether it stands, or its end is to be told.
    pub(crate) fn is_kept(&self) -> bool
        ensures { result ≡ is_kept self.now }
    {
        self.stands() || self.untold
    }

    /// That it ended is told.
    pub(crate) fn tell(&mut self)
        ensures { self.new ≡ record self.old { untold = false } }
    {
        self.untold = false;
    }

    /// Whether it was not asked to close.
    pub(crate) fn is_open(&self) -> bool
        ensures { result ≡ is_open self.now.stage }
    {
        match self.stage {
            Stage::Open => true,
            Stage::Closing => false,
            Stage::Draining { .. } => false,
        }
    }

    /// Whether it is owed nothing.
    pub(crate) fn is_free(&self) -> bool
        ensures { result ≡ is_free self.now }
    {
        self.owed.is_none()
    }

    /// How many bytes it is owed.
    pub(crate) fn owes(&self) -> usize
        ensures { result ≡ length (left_of self.now.owed) }
    {
        match &self.owed {
            Some(owed) => owed.len(),
            None => 0,
        }
    }

    /// Whether it stands, and is owed nothing.
    pub(crate) fn is_idle(&self) -> bool
        ensures { result ≡ is_idle self.now }
    {
        self.stands() && self.is_free()
    }

    /// Whether it stands, and was owed something for longer than the patience.
    pub(crate) fn is_overdue(&self, patience: u64, now: u64) -> bool
        ensures { result ≡ is_overdue patience now self.now }
    {
        self.stands() && !self.is_free() && now.saturating_sub(self.mark()) > patience
    }

    /// Since when it was silent: one that was shut counts as silent for ever.
    pub(crate) fn since(&self) -> u64
        ensures { result ≡ since self.now }
    {
        match self.stage {
            Stage::Open => self.heard,
            Stage::Closing => self.heard,
            Stage::Draining { .. } => 0,
        }
    }

    /// When it began to be owed something.
    pub(crate) fn mark(&self) -> u64
        ensures { result ≡ mark self.now }
    {
        match &self.owed {
            Some(owed) => owed.marked(),
            None => 0,
        }
    }

    /// Why it is over, where it is.
    fn why_over(&self, patience: u64, now: u64) -> Option<Why>
        ensures { result ≡ why_over patience now self.now }
    {
        if !self.stands() {
            return None;
        }
        match self.stage {
            Stage::Open => self.why_silent(patience, now),
            Stage::Closing => self.why_silent(patience, now),
            Stage::Draining { since } => {
                if now.saturating_sub(since) > DRAINING {
                    return Some(Why::Finished);
                }
                None
            }
        }
    }

    /// Why it is over by its silence, where it is.
    fn why_silent(&self, patience: u64, now: u64) -> Option<Why>
        ensures { result ≡ why_silent patience now self.now.heard self.now.owed }
    {
        match &self.owed {
            Some(owed) => {
                if now.saturating_sub(self.heard) > patience {
                    return Some(Why::Late { patience });
                }
                let time = time_for(patience, owed.whole());
                if now.saturating_sub(owed.marked()) > time {
                    return Some(Why::Slow { time });
                }
                None
            }
            None => None,
        }
    }

    /// Reads what came over it.
    fn read_some(&mut self, network: &mut N, room: &mut [u8], now: u64) -> Result<usize, Refused>
        requires stands { self.old.stands ≡ true }
        ensures count { IfOk result (λ count. count ≤ length room.new) }
        ensures size { length room.new ≡ length room.old }
        ensures told { N.calls network.new ≡ N.calls network.old ++ read self.old.number room.new result ∷ [] }
        ensures is { self.new ≡ read_link now result self.old }
    {
        let Some(stream) = &mut self.stream else {
            unreachable!()
        };
        let given = network.read(stream, room);
        self.heard = heard_by(now, self.heard, given);
        given
    }

    /// Writes what it is owed, as far as its peer takes it at once.
    fn write_owed(&mut self, network: &mut N, now: u64) -> Result<usize, Refused>
        requires stands { self.old.stands ≡ true }
        requires owed { is_free self.old ≡ false }
        ensures told { N.calls network.new ≡ N.calls network.old ++ wrote self.old.number (left_of self.old.owed) result ∷ [] }
        ensures is { self.new ≡ written_link now result self.old }
        ensures some { 0 < length (left_of self.old.owed) }
    {
        let Some(owed) = &self.owed else {
            unreachable!()
        };
        let Some(stream) = &mut self.stream else {
            unreachable!()
        };
        let given = network.write(stream, owed.as_slice());
        self.heard = heard_by(now, self.heard, given);
        self.take(count_of(given));
        given
    }

    /// Its peer took so many bytes of those that it is owed.
    fn take(&mut self, count: usize)
        ensures { self.new ≡ record self.old { owed = owed_behind count self.old.owed } }
    {
        if let Some(owed) = &mut self.owed {
            if count < owed.len() {
                owed.take(count);
                return;
            }
            self.owed = None;
        }
    }

    /// Writes a piece, as far as its peer takes it at once, where it is owed nothing, and keeps the rest.
    fn write_first(
        &mut self,
        network: &mut N,
        room: &mut Option<Room>,
        bytes: &[u8],
        now: u64,
    ) -> Result<usize, Refused>
        requires stands { self.old.stands ≡ true }
        requires free { is_free self.old ≡ true }
        requires room { HasRoom (length bytes.now) room.old }
        ensures told { N.calls network.new ≡ N.calls network.old ++ wrote self.old.number bytes.now result ∷ [] }
        ensures is { self.new ≡ sent_link now bytes.now result self.old }
    {
        let Some(stream) = &mut self.stream else {
            unreachable!()
        };
        let given = network.write(stream, bytes);
        self.heard = heard_by(now, self.heard, given);
        self.owed = owed_of(room, bytes, count_of(given), now);
        given
    }

    /// Has it watched for what it waits for.
    fn watch_now(&mut self, network: &mut N) -> Result<(), Refused>
        requires stands { self.old.stands ≡ true }
        ensures told { N.calls network.new ≡ N.calls network.old ++ watched self.old.number (watch_for self.old.owed) result ∷ [] }
        ensures same { self.new ≡ self.old }
    {
        let what = self.waits_for();
        let Some(stream) = &mut self.stream else {
            unreachable!()
        };
        network.watch(stream, what)
    }

    /// What it waits for: to be written where it is owed something, and else to be read.
    fn waits_for(&self) -> Watch
        ensures { result ≡ watch_for self.now.owed }
    {
        match &self.owed {
            Some(_) => Watch::ToWrite,
            None => Watch::ToRead,
        }
    }

    /// Closes it, for a cause that the calls show.
    fn close(&mut self, network: &mut N, why: Why)
        requires stands { self.old.stands ≡ true }
        requires cause { IsCause (N.calls network.old) self.old.number why }
        ensures told { N.calls network.new ≡ N.calls network.old ++ closed self.old.number why ∷ [] }
        ensures is { self.new ≡ closed_link self.old }
    {
        self.untold = self.is_open();
        self.owed = None;
        match self.stream.take() {
            Some(stream) => network.close(stream, why),
            None => unreachable!(),
        }
    }

    /// Closes it, if it stands, for a cause that the calls show.
    pub(crate) fn end_for(&mut self, network: &mut N, why: Why)
        requires cause { IsCause (N.calls network.old) self.old.number why }
        requires unfinished { is_finish why ≡ false }
        ensures acts { Acts (N.calls network.old) (N.calls network.new) same_account self.old self.new }
        ensures watched { StaysWatched (N.calls network.old) (N.calls network.new) self.old self.new }
        ensures gone { self.new.stands ≡ false }
    {
        if self.stands() {
            self.close(network, why);
        }
    }

    /// Where it is to be shut, and all is written, nothing more is sent, and what its peer still sends is dropped. One that is closed with
    /// bytes unread is reset (RFC 1122 4.2.2.13), and its peer may lose replies by that. Where the peer is gone there is nothing to be shut
    /// down, and a read tells so.
    fn shut_if_done(&mut self, network: &mut N, now: u64)
        requires stands { self.old.stands ≡ true }
        ensures acts { Acts (N.calls network.old) (N.calls network.new) same_account self.old self.new }
        ensures watched { StaysWatched (N.calls network.old) (N.calls network.new) self.old self.new }
        ensures same { self.new ≡ record self.old { stage = self.new.stage } }
    {
        if self.is_done() {
            self.shut(network, now);
        }
    }

    /// Whether it is to be shut, and all is written.
    fn is_done(&self) -> bool
        ensures stage { result ≡ true → self.now.stage ≡ Closing }
        ensures owed { result ≡ true → self.now.owed ≡ None }
    {
        match self.stage {
            Stage::Open => false,
            Stage::Closing => self.owed.is_none(),
            Stage::Draining { .. } => false,
        }
    }

    /// It is shut.
    fn shut(&mut self, network: &mut N, now: u64)
        requires stands { self.old.stands ≡ true }
        requires stage { self.old.stage ≡ Closing }
        requires owed { self.old.owed ≡ None }
        ensures acts { Acts (N.calls network.old) (N.calls network.new) same_account self.old self.new }
        ensures watched { StaysWatched (N.calls network.old) (N.calls network.new) self.old self.new }
        ensures is { self.new ≡ record self.old { stage = Draining now } }
    {
        let Some(stream) = &mut self.stream else {
            unreachable!()
        };
        let _shut = network.shut(stream);
        self.stage = Stage::Draining { since: now };
    }

    /// It is shut where it is to be and all is written, and watched for what it waits for. One that the system refuses to watch is closed.
    pub(crate) fn watch_on(&mut self, network: &mut N, now: u64)
        requires stands { self.old.stands ≡ true }
        ensures acts { Acts (N.calls network.old) (N.calls network.new) same_account self.old self.new }
        ensures watched { IsWatched (line_of self.new.number (N.calls network.new)) self.new }
    {
        self.shut_if_done(network, now);
        if self.watch_now(network).is_err() {
            self.close(network, Why::Unwatched);
        }
    }

    /// It goes on, or is closed.
    fn go_on(&mut self, network: &mut N, fate: Fate, now: u64)
        requires stands { self.old.stands ≡ true }
        requires cause { HasEnd (N.calls network.old) self.old.number fate }
        requires stays { StaysRight (N.calls network.old) fate self.old }
        ensures acts { Acts (N.calls network.old) (N.calls network.new) same_account self.old self.new }
        ensures watched { IsWatched (line_of self.new.number (N.calls network.new)) self.new }
    {
        match fate {
            Fate::Stays => {}
            Fate::Watches => self.watch_on(network, now),
            Fate::Ends { why } => self.close(network, why),
        }
    }

    /// Reads what came over it, and goes on, or is closed where nothing more comes; how many bytes at the front of the room are given.
    pub(crate) fn read_on(
        &mut self,
        network: &mut N,
        room: &mut [u8],
        last: bool,
        now: u64,
    ) -> usize
        requires stands { self.old.stands ≡ true }
        requires now { now ≡ now_of (N.calls network.old) }
        requires room { 0 < length room.old }
        requires watched { IsWatched (line_of self.old.number (N.calls network.old)) self.old }
        ensures count { result ≤ length room.new }
        ensures size { length room.new ≡ length room.old }
        ensures acts { Acts (N.calls network.old) (N.calls network.new) (given_more (take result room.new)) self.old self.new }
        ensures watched { IsWatched (line_of self.new.number (N.calls network.new)) self.new }
    {
        let given = self.read_some(network, room, now);
        let count = given_of(self.is_open(), given);
        self.go_on(network, after_read(last, room.len(), given), now);
        count
    }

    /// Writes what it is owed, as far as its peer takes it at once, and goes on, or is closed where the peer is gone.
    pub(crate) fn write_on(&mut self, network: &mut N, now: u64)
        requires stands { self.old.stands ≡ true }
        requires owed { is_free self.old ≡ false }
        requires now { now ≡ now_of (N.calls network.old) }
        requires watched { IsWatched (line_of self.old.number (N.calls network.old)) self.old }
        ensures acts { Acts (N.calls network.old) (N.calls network.new) same_account self.old self.new }
        ensures watched { IsWatched (line_of self.new.number (N.calls network.new)) self.new }
    {
        let given = self.write_owed(network, now);
        self.go_on(network, after_write(given), now);
    }

    /// Hands it a piece for its peer. What that does not take at once is kept, for which memory is found first: where there is none, nothing was
    /// written, and nothing has changed.
    pub(crate) fn send(
        &mut self,
        alloc: Global,
        network: &mut N,
        room: &mut Option<Room>,
        bytes: &[u8],
        now: u64,
    ) -> Result<(), OutOfMemory>
        requires stands { self.old.stands ≡ true }
        requires served { is_open self.old.stage ≡ true }
        requires some { 0 < length bytes.now }
        requires now { now ≡ now_of (N.calls network.old) }
        requires watched { IsWatched (line_of self.old.number (N.calls network.old)) self.old }
        ensures acts { OnOk result (Acts (N.calls network.old) (N.calls network.new) (handed_more bytes.now) self.old self.new) }
        ensures watched { OnOk result (IsWatched (line_of self.new.number (N.calls network.new)) self.new) }
        ensures calls { OnErr result (N.calls network.new ≡ N.calls network.old) }
        ensures same { OnErr result (self.new ≡ self.old) }
    {
        if !self.is_free() {
            return self.owe_more(bytes);
        }
        make_room(alloc, room, bytes.len())?;
        self.hand(network, room, bytes, now);
        Ok(())
    }

    /// It is owed these bytes more. Where memory runs out, nothing has changed.
    fn owe_more(&mut self, bytes: &[u8]) -> Result<(), OutOfMemory>
        requires { is_free self.old ≡ false }
        ensures ok { OnOk result (self.new ≡ record self.old { owed = owed_with 0 0 bytes.now self.old.owed }) }
        ensures err { OnErr result (self.new ≡ self.old) }
    {
        match &mut self.owed {
            Some(owed) => owed.add(bytes),
            None => unreachable!(),
        }
    }

    /// Hands it a piece for its peer, where it is owed nothing.
    fn hand(&mut self, network: &mut N, room: &mut Option<Room>, bytes: &[u8], now: u64)
        requires stands { self.old.stands ≡ true }
        requires served { is_open self.old.stage ≡ true }
        requires free { is_free self.old ≡ true }
        requires some { 0 < length bytes.now }
        requires room { HasRoom (length bytes.now) room.old }
        requires now { now ≡ now_of (N.calls network.old) }
        requires watched { IsWatched (line_of self.old.number (N.calls network.old)) self.old }
        ensures acts { Acts (N.calls network.old) (N.calls network.new) (handed_more bytes.now) self.old self.new }
        ensures watched { IsWatched (line_of self.new.number (N.calls network.new)) self.new }
    {
        let given = self.write_first(network, room, bytes, now);
        self.go_on(network, after_send(bytes.len(), given), now);
    }

    /// It is asked to close: it is shut once all is written, and nothing is given of it any more.
    pub(crate) fn ask_to_close(&mut self, network: &mut N, now: u64)
        requires stands { self.old.stands ≡ true }
        ensures acts { Acts (N.calls network.old) (N.calls network.new) asked_now self.old self.new }
        ensures watched { StaysWatched (N.calls network.old) (N.calls network.new) self.old self.new }
        ensures same { self.new ≡ record self.old { stage = self.new.stage } }
    {
        self.begin_to_close();
        self.shut_if_done(network, now);
    }

    /// It is to be shut once all is written.
    fn begin_to_close(&mut self)
        ensures { self.new ≡ record self.old { stage = Closing } }
    {
        self.stage = Stage::Closing;
    }

    /// Closes it, where it is over.
    pub(crate) fn end_if_over(&mut self, network: &mut N, patience: u64, now: u64)
        requires now { now ≡ now_of (N.calls network.old) }
        requires timed { IsTimed (N.calls network.old) self.old }
        ensures acts { Acts (N.calls network.old) (N.calls network.new) same_account self.old self.new }
        ensures watched { StaysWatched (N.calls network.old) (N.calls network.new) self.old self.new }
        ensures over { is_over patience now self.new ≡ false }
        ensures gone { self.old.stands ≡ false → self.new.stands ≡ false }
    {
        if let Some(why) = self.why_over(patience, now) {
            self.close(network, why);
        }
    }

    /// Closes it, where it stands, since all work on the network ends.
    pub(crate) fn cease(self, network: &mut N)
        requires { has_ceased (N.calls network.old) ≡ true }
        ensures { N.calls network.new ≡ N.calls network.old ++ ceasing_of self }
    {
        let Link {
            number: _number,
            stream,
            stage: _stage,
            untold: _untold,
            heard: _heard,
            owed: _owed,
        } = self;
        match stream {
            Some(stream) => network.close(stream, Why::Ceased),
            None => {}
        }
    }

    /// It is let go, behind its end.
    pub(crate) fn forget(self)
        requires { is_kept self ≡ false }
    {
        let Link {
            number: _number,
            stream,
            stage: _stage,
            untold: _untold,
            heard: _heard,
            owed: _owed,
        } = self;
        match stream {
            Some(_stream) => unreachable!(),
            None => {}
        }
    }
}

/// What is owed behind a write of a piece that took so many bytes.
fn owed_of(room: &mut Option<Room>, bytes: &[u8], taken: usize, now: u64) -> Option<Owed>
    requires { HasRoom (length bytes.now) room.old }
    ensures { result ≡ owed_with now taken bytes.now None }
{
    if taken >= bytes.len() {
        return None;
    }
    match room.take() {
        Some(room) => Some(room.owe(&bytes[taken..], now)),
        None => unreachable!(),
    }
}

/// Within how many milliseconds so many bytes are to be taken.
fn time_for(patience: u64, whole: u64) -> u64
    ensures { result ≡ time_for patience whole }
{
    patience.saturating_add(whole / BYTES_A_MILLISECOND)
}
