//! What is ready.

ghost use Rattle.std.specs.Prelude.{◌≡◌, ◌≤◌, ◌<◌, ◌+◌, ◌++◌, ◌∷◌, ◌||◌, [], length, nat_lt, option_to_list, reverse, IfNone, OnOk};
ghost use Rattle.dns_readiness.specs.Ready.{behind_wait, due, noted_of, nothing_ready, put_to, ready_of, turn_behind, waiting};

use dns_io::OutOfMemory;
use mio::Token;
use mio::event::Event;
use std::alloc::Global;
use std::collections::VecDeque;
use std::marker::Model;

/// How many events one wait gives at most.
pub(crate) const EVENTS: usize = 256;

/// How many of those that end are given behind a wait that gave as many events as it may, so that the system may know of more.
const FEW: usize = 16;

/// A descriptor that is ready.
#[derive(Clone, Copy)]
pub(crate) struct Ready {
    pub(crate) token: Token,
    /// The peer sends no more, so that a read goes on to the end.
    pub(crate) last: bool,
    /// It was noted to be read again; else the system told of it.
    pub(crate) noted: bool,
}

/// The descriptors that are ready, and those that are to be read again behind the next wait, which is then none. Those whose peers send no
/// more wait in a queue of their own, of which each wait lets some through, at least 16, behind all others, and none rests while some are
/// left: so those that go on are answered ahead of those that end, however many end at once, and one that ends is given in a turn for each
/// 16 that are ahead of it, or sooner.
#[derive(Drop)]
pub(crate) struct ReadyList {
    /// Those that go on, the last one first.
    going: Vec<Ready>,
    /// Those whose peers send no more, the first one first.
    ending: VecDeque<Ready>,
    /// How many of these are given yet before the next wait.
    turn: usize,
    again: Vec<Ready>,
}

impl Model for ReadyList {
    ghost use Rattle.std.specs.Prelude.{◌-◌, min, reverse, vec_capacity, vec_len};
    ghost use Rattle.std.specs.VecDeque.{deque_capacity, deque_len};
    ghost use Rattle.dns_readiness.specs.Ready.{ReadySeen};

    ghost Value = { ReadySeen };

    ghost view = { λ s. record {
      going = reverse s.going.items;
      ending = s.ending.items;
      turn = s.turn;
      again = s.again.items;
      spare = min (vec_capacity s.going - vec_len s.going) (deque_capacity s.ending - deque_len s.ending);
      room = vec_capacity s.again - vec_len s.again;
    } };
}

impl ReadyList {
    /// None.
    pub(crate) fn new(alloc: Global) -> ReadyList
        ensures { result ≡ record nothing_ready { spare = result.spare; room = result.room } }
    {
        ReadyList {
            going: Vec::new(alloc),
            ending: VecDeque::new(alloc),
            turn: 0,
            again: Vec::new(alloc),
        }
    }

    /// The next one.
    pub(crate) fn next(&mut self) -> Option<Ready>
        ensures given { due self.old ≡ option_to_list result ++ due self.new }
        ensures none { IfNone result (due self.old ≡ []) }
        ensures waiting { waiting self.new ≡ waiting self.old }
        ensures noted { (self.new.again ≡ self.old.again) × (self.new.room ≡ self.old.room) }
    {
        if let Some(ready) = self.going.pop() {
            return Some(ready);
        }
        if self.turn == 0 {
            return None;
        }
        self.turn -= 1;
        self.ending.pop_front()
    }

    /// Whether one waits that ends.
    pub(crate) fn any_ending(&self) -> bool
        ensures { result ≡ nat_lt 0 (length self.now.ending) }
    {
        !self.ending.is_empty()
    }

    /// Whether one is ready behind the next wait, whatever the system tells: one that is to be read again, or one that ends.
    pub(crate) fn any_known(&self) -> bool
        ensures { result ≡ (nat_lt 0 (length self.now.again) || nat_lt 0 (length self.now.ending)) }
    {
        !self.again.is_empty() || self.any_ending()
    }

    /// What was noted is ready now, and there is room for what one wait gives: so nothing that it tells is lost for want of memory.
    pub(crate) fn make_ready(&mut self) -> Result<(), OutOfMemory>
        ensures ok { OnOk result ((self.new.again ≡ []) × (256 ≤ self.new.spare)) }
        ensures kept { reverse self.new.again ++ self.new.going ≡ reverse self.old.again ++ self.old.going }
        ensures others { (self.new.ending ≡ self.old.ending) × (self.new.turn ≡ self.old.turn) }
    {
        self.going.append(&mut self.again)?;
        self.going.reserve(EVENTS)?;
        self.ending.reserve(EVENTS)?;
        Ok(())
    }

    /// What the system told is ready, and a turn begins.
    pub(crate) fn add(&mut self, events: &[Event])
        requires { length events.now ≤ self.old.spare }
        ensures ready { self.new ≡ record (behind_wait events.now self.old) { spare = self.new.spare } }
        ensures least { 16 ≤ self.new.turn }
    {
        for event in events {
            self.put(ready_by(event));
        }
        self.turn = turn_behind(events.len());
    }

    /// Puts one that is ready to those that go on, or to those that end.
    fn put(&mut self, ready: Ready)
        requires { 0 < self.old.spare }
        ensures put { self.new ≡ record (put_to ready self.old) { spare = self.new.spare } }
        ensures spare { self.old.spare ≤ self.new.spare + 1 }
    {
        if ready.last {
            self.ending.push_back_reserved(ready);
        } else {
            self.going.push_reserved(ready);
        }
    }

    /// Room to note one more.
    pub(crate) fn make_room(&mut self) -> Result<(), OutOfMemory>
        ensures ok { OnOk result (0 < self.new.room) }
        ensures others { self.new ≡ record self.old { room = self.new.room } }
    {
        self.again.reserve(1)?;
        Ok(())
    }

    /// Notes one to be read again.
    pub(crate) fn note(&mut self, token: Token)
        requires { 0 < self.old.room }
        ensures { self.new ≡ record self.old { again = self.old.again ++ noted_of token ∷ []; room = self.new.room } }
    {
        self.again.push_reserved(Ready {
            token,
            last: false,
            noted: true,
        });
    }
}

/// What an event of the system tells.
fn ready_by(event: &Event) -> Ready
    ensures { result ≡ ready_of event.now }
{
    Ready {
        token: event.token(),
        last: event.is_read_closed() || event.is_error(),
        noted: false,
    }
}

/// How many of those that end are given behind a wait that gave so many events.
fn turn_behind(told: usize) -> usize
    ensures is { result ≡ turn_behind told }
    ensures least { 16 ≤ result }
{
    if told < EVENTS { EVENTS } else { FEW }
}
