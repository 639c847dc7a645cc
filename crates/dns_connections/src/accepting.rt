//! Whether connections are accepted.

ghost use Rattle.std.specs.Prelude.{◌≡◌, None};
ghost use Rattle.dns_connections.specs.Accepting.{at_rest, behind, counted, is_hopeless, is_long, is_useless, since_then, useless};
ghost use Rattle.dns_connections.specs.declared.accepting.Turn.TheVariants as turn;

use dns_network::Refused;

/// How many connections are accepted between two waits at most.
const MOST_ASKED: u32 = 256;

/// After so many refusals in a row it rests.
const MOST_REFUSALS: u32 = 16;

/// For how many milliseconds it may be refused while no connection stands.
const HOPE: u64 = 5_000;

/// How often it may be refused while none stands, for the sake of no connection.
const MOST_USELESS: u32 = 8;

/// Whether the system is asked for a connection.
#[derive(Clone, Copy, Debug, PartialEq, Eq)]
pub(crate) enum Turn {
    /// It is.
    Asks,
    /// It is, once one waits, or time passed.
    Waits,
    /// It is, once time passed.
    Rests,
}

/// How far accepting has come.
#[derive(Clone, Copy, Debug)]
pub(crate) struct Accepting {
    pub(crate) turn: Turn,
    /// How often one was asked for since the last wait.
    pub(crate) asked: u32,
    /// How often in a row it was refused since it rested.
    pub(crate) refused: u32,
    /// Since when it is refused.
    pub(crate) since: Option<u64>,
    /// How often it was refused for the sake of no connection since one was accepted and made ready.
    pub(crate) useless: u32,
    /// When it was refused so for the first time since then.
    pub(crate) began: Option<u64>,
}

impl Accepting {
    /// A connection may wait.
    pub(crate) fn new() -> Accepting
        ensures { result ≡ record { turn = turn.Asks; asked = 0; refused = 0; since = None; useless = 0; began = None } }
    {
        Accepting {
            turn: Turn::Asks,
            asked: 0,
            refused: 0,
            since: None,
            useless: 0,
            began: None,
        }
    }

    /// Whether one may wait that was not asked for.
    pub(crate) fn is_known(&self) -> bool {
        self.turn == Turn::Asks
    }

    /// Whether one is asked for now.
    pub(crate) fn is_due(&self) -> bool {
        self.is_known() && self.asked < MOST_ASKED
    }

    /// One is asked for.
    pub(crate) fn ask(&mut self) {
        self.asked = self.asked.saturating_add(1);
    }

    /// A wait is over.
    pub(crate) fn begin(&mut self)
        ensures { self.new ≡ record self.old { asked = 0 } }
    {
        self.asked = 0;
    }

    /// None is asked for until one waits, or time passed.
    pub(crate) fn wait(&mut self)
        ensures { self.new ≡ record self.old { turn = turn.Waits } }
    {
        self.turn = Turn::Waits;
    }

    /// One waits. Where it rests, it goes on resting.
    pub(crate) fn come(&mut self) {
        if self.turn == Turn::Waits {
            self.turn = Turn::Asks;
        }
    }

    /// Time passed.
    pub(crate) fn tick(&mut self)
        ensures { self.new ≡ record self.old { turn = turn.Asks } }
    {
        self.turn = Turn::Asks;
    }

    /// One was accepted, and made ready.
    pub(crate) fn succeed(&mut self)
        ensures { self.new ≡ record self.old { refused = 0; since = None; useless = 0; began = None } }
    {
        self.refused = 0;
        self.since = None;
        self.useless = 0;
        self.began = None;
    }

    /// It was refused at this moment.
    pub(crate) fn refuse(&mut self, now: u64, refused: Refused)
        ensures { self.new ≡ behind self.old now refused }
    {
        match refused {
            Refused::NotYet => {
                self.refused = 0;
                self.since = None;
                self.turn = Turn::Waits;
            }
            Refused::Interrupted => self.count(now),
            Refused::Gone => self.count(now),
            Refused::Wanting => self.rest(now),
            Refused::TooLong => self.fail(now),
            Refused::Useless => self.fail(now),
        }
    }

    /// It was refused for the sake of one connection.
    fn count(&mut self, now: u64)
        ensures { self.new ≡ counted self.old now }
    {
        let refused = self.refused.saturating_add(1);
        if refused < MOST_REFUSALS {
            self.refused = refused;
            self.since = since_then(self.since, now);
            return;
        }
        self.rest(now);
    }

    /// It was refused for the sake of no connection.
    fn fail(&mut self, now: u64)
        ensures { self.new ≡ useless self.old now }
    {
        self.useless = self.useless.saturating_add(1);
        self.began = since_then(self.began, now);
        self.rest(now);
    }

    /// It was refused, and rests until time passed.
    fn rest(&mut self, now: u64)
        ensures { self.new ≡ at_rest self.old now }
    {
        self.turn = Turn::Rests;
        self.refused = 0;
        self.since = since_then(self.since, now);
    }

    /// Whether the listener is of no use: it refuses for long enough, or often enough, and so many connections stand, which is none.
    pub(crate) fn is_hopeless(&self, now: u64, standing: usize) -> bool
        ensures { result ≡ is_hopeless self.now now standing }
    {
        standing == 0 && (self.is_useless(now) || is_long(self.since, now))
    }

    /// Whether it is refused often enough for the sake of no connection, and for long enough.
    fn is_useless(&self, now: u64) -> bool
        ensures { result ≡ is_useless self.now now }
    {
        self.useless >= MOST_USELESS && is_long(self.began, now)
    }
}

/// Whether it is long enough since a moment.
fn is_long(since: Option<u64>, now: u64) -> bool
    ensures { result ≡ is_long since now }
{
    match since {
        Some(since) => now.saturating_sub(since) >= HOPE,
        None => false,
    }
}

/// Since when it is refused, where it is so now too.
fn since_then(since: Option<u64>, now: u64) -> Option<u64>
    ensures { result ≡ since_then since now }
{
    match since {
        Some(since) => Some(since),
        None => Some(now),
    }
}
