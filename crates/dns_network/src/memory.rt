//! A network in memory, whose answers are laid down.

ghost use Rattle.std.specs.Prelude.{◌≡◌, ◌≤◌, ◌++◌, ◌∷◌, [], length, IfOk};

use crate::call::{Call, Reading, Ready, Watch, Why};
use crate::network::{Datagrams, Network, Streams};
use crate::noting::{from_whom, how_much, moved};
use crate::refused::Refused;
use crate::told::Told;
use std::alloc::{AllocError, Global};
use std::collections::VecDeque;
use std::io;
use std::marker::Model;
use std::net::SocketAddr;

/// What a call is answered.
#[derive(Debug, Drop)]
pub enum Answer {
    /// A look: whether the token is stopped.
    Token(bool),
    /// A look at the clocks.
    Clocks(Reading),
    /// A wait: what is ready.
    Ready(Vec<Ready>),
    /// An accept: whom the connection is from.
    Comes(SocketAddr),
    /// A watch or a shutdown.
    Done,
    /// A read: the bytes that come, as far as there is room; none at the end. The rest is let go.
    Bytes(Vec<u8>),
    /// A write or a sending: how many bytes are taken at most.
    Takes(usize),
    /// A receive: a datagram, as far as there is room, and its sender.
    Datagram(Vec<u8>, SocketAddr),
    /// Any call but a look at the token.
    Refused(Refused),
}

/// Where bytes went.
#[derive(Clone, Copy, Debug, PartialEq, Eq)]
pub enum Where {
    /// To the peer of the connection with this number.
    Stream(u32),
    /// As a datagram to this address.
    Address(SocketAddr),
}

/// Bytes that were taken by one call.
#[derive(Debug, Drop)]
pub struct Piece {
    /// Where they went.
    pub to: Where,
    /// The bytes.
    pub bytes: Vec<u8>,
}

/// A connection in memory.
#[derive(Debug)]
pub struct MemoryStream {
    number: u32,
}

impl Model for MemoryStream {
    ghost use Rattle.std.specs.Prelude.{ℕ};

    ghost Value = { ℕ };

    ghost view = { λ s. s.number };
}

/// A network that gives each call the next of its answers. Where that is none for such a call, or there is none left, it refuses the call as
/// useless; a look sees the token stopped then. A rest, an end of all work and a close take no answer.
#[derive(Drop)]
pub struct MemoryNetwork {
    alloc: Global,
    answers: VecDeque<Answer>,
    ready: Vec<Ready>,
    pieces: Vec<Piece>,
    told: Told,
}

impl Model for MemoryNetwork {
    ghost use Rattle.std.specs.Prelude.{List};
    ghost use Rattle.dns_network.specs.Calls.{Noted};

    ghost Value = { List Noted };

    ghost view = { λ s. s.told.calls };
}

impl MemoryNetwork {
    /// One with these answers, of which no call was made.
    pub fn new(alloc: Global, answers: Vec<Answer>) -> MemoryNetwork
        ensures { result ≡ [] }
    {
        MemoryNetwork {
            alloc,
            answers: VecDeque::from_vec(answers),
            ready: Vec::new(alloc),
            pieces: Vec::new(alloc),
            told: Told::new(),
        }
    }

    /// How many answers are left.
    pub fn answers_left(&self) -> usize {
        self.answers.len()
    }

    /// What was taken, in order.
    pub fn pieces(&self) -> &[Piece] {
        self.pieces.as_slice()
    }

    /// What is ready.
    fn find(&mut self) -> Result<usize, Refused>
        ensures same { self.new ≡ self.old }
    {
        match self.answers.pop_front() {
            Some(Answer::Ready(ready)) => {
                self.ready = ready;
                Ok(self.ready.len())
            }
            other => Err(refused(other)),
        }
    }

    /// Whom the next connection is from.
    fn come(&mut self) -> Result<SocketAddr, Refused>
        ensures same { self.new ≡ self.old }
    {
        match self.answers.pop_front() {
            Some(Answer::Comes(whom)) => Ok(whom),
            other => Err(refused(other)),
        }
    }

    /// Whether a call succeeds that gives nothing.
    fn done(&mut self) -> Result<(), Refused>
        ensures same { self.new ≡ self.old }
    {
        match self.answers.pop_front() {
            Some(Answer::Done) => Ok(()),
            other => Err(refused(other)),
        }
    }

    /// Puts what comes at the front of the room; how many bytes.
    fn fill(&mut self, room: &mut [u8]) -> Result<usize, Refused>
        ensures same { self.new ≡ self.old }
        ensures count { IfOk result (λ count. count ≤ length room.new) }
        ensures size { length room.new ≡ length room.old }
    {
        match self.answers.pop_front() {
            Some(Answer::Bytes(bytes)) => Ok(copied(bytes.as_slice(), room)),
            other => Err(refused(other)),
        }
    }

    /// Puts the next datagram at the front of the room; how many bytes it has, and who sent it.
    fn fill_with_datagram(&mut self, room: &mut [u8]) -> Result<(usize, SocketAddr), Refused>
        ensures same { self.new ≡ self.old }
        ensures count { IfOk result (λ came. came.0 ≤ length room.new) }
        ensures size { length room.new ≡ length room.old }
    {
        match self.answers.pop_front() {
            Some(Answer::Datagram(bytes, whom)) => Ok((copied(bytes.as_slice(), room), whom)),
            other => Err(refused(other)),
        }
    }

    /// Takes bytes; how many. Where there is no memory for them it refuses them as wanting.
    fn take(&mut self, to: Where, bytes: &[u8]) -> Result<usize, Refused>
        ensures same { self.new ≡ self.old }
        ensures count { IfOk result (λ count. count ≤ length bytes.now) }
    {
        match self.answers.pop_front() {
            Some(Answer::Takes(most)) => {
                let (front, _) = bytes.split_at(most.min(bytes.len()));
                match self.keep(to, front) {
                    Ok(()) => Ok(front.len()),
                    Err(_) => Err(Refused::Wanting),
                }
            }
            other => Err(refused(other)),
        }
    }

    /// Keeps a piece.
    fn keep(&mut self, to: Where, bytes: &[u8]) -> Result<(), AllocError>
        ensures same { self.new ≡ self.old }
    {
        let mut kept = Vec::new(self.alloc);
        kept.extend_from_slice(bytes)?;
        self.pieces.reserve(1)?;
        self.pieces.push_reserved(Piece { to, bytes: kept });
        Ok(())
    }
}

impl Network for MemoryNetwork {
    ghost calls = { λ s. s };

    fn look(&mut self) -> bool {
        let stopped = match self.answers.pop_front() {
            Some(Answer::Token(stopped)) => stopped,
            _ => true,
        };
        self.told.note(&Call::Looked { stopped }, &[]);
        stopped
    }

    fn now(&mut self) -> Result<Reading, Refused> {
        let given = match self.answers.pop_front() {
            Some(Answer::Clocks(reading)) => Ok(reading),
            other => Err(refused(other)),
        };
        self.told.note(&Call::Clock { given }, &[]);
        given
    }

    fn rest(&mut self, millis: u64) {
        self.told.note(&Call::Rested { millis }, &[]);
    }

    fn cease(&mut self) {
        self.told.note(&Call::Ceased, &[]);
    }

    fn error(&self) -> Option<io::Error> {
        None
    }
}

impl Streams for MemoryNetwork {
    type Stream = MemoryStream;

    ghost number = { λ s. s };

    fn wait(&mut self, most: u64) -> Result<usize, Refused> {
        let given = self.find();
        self.told.note(&Call::Waited { most, given }, &[]);
        given
    }

    fn ready(&self, place: usize) -> Option<Ready> {
        self.ready.get(place).copied()
    }

    fn accept(&mut self, as_number: u32) -> Result<(MemoryStream, SocketAddr), Refused> {
        let given = self.come();
        let call = Call::Accepted {
            number: as_number,
            given,
        };
        self.told.note(&call, &[]);
        let whom = given?;
        Ok((MemoryStream { number: as_number }, whom))
    }

    fn watch(&mut self, stream: &mut MemoryStream, what: Watch) -> Result<(), Refused> {
        let given = self.done();
        let call = Call::Watched {
            number: stream.number,
            what,
            given,
        };
        self.told.note(&call, &[]);
        given
    }

    fn read(&mut self, stream: &mut MemoryStream, room: &mut [u8]) -> Result<usize, Refused> {
        let given = self.fill(room);
        let call = Call::Read {
            number: stream.number,
            room: room.len(),
            given,
        };
        self.told.note(&call, moved(given, room));
        given
    }

    fn write(&mut self, stream: &mut MemoryStream, bytes: &[u8]) -> Result<usize, Refused> {
        let given = self.take(Where::Stream(stream.number), bytes);
        let call = Call::Wrote {
            number: stream.number,
            handed: bytes.len(),
            given,
        };
        self.told.note(&call, moved(given, bytes));
        given
    }

    fn shut(&mut self, stream: &mut MemoryStream) -> Result<(), Refused> {
        let given = self.done();
        let call = Call::Shut {
            number: stream.number,
            given,
        };
        self.told.note(&call, &[]);
        given
    }

    fn close(&mut self, stream: MemoryStream, why: Why) {
        let MemoryStream { number } = stream;
        self.told.note(&Call::Closed { number, why }, &[]);
    }
}

impl Datagrams for MemoryNetwork {
    fn receive(&mut self, room: &mut [u8]) -> Result<(usize, SocketAddr), Refused> {
        let given = self.fill_with_datagram(room);
        let call = Call::Received {
            given: from_whom(&given),
        };
        self.told.note(&call, moved(how_much(&given), room));
        given
    }

    fn send(&mut self, to: SocketAddr, bytes: &[u8]) -> Result<usize, Refused> {
        let given = self.take(Where::Address(to), bytes);
        let call = Call::Sent {
            to,
            handed: bytes.len(),
            given,
        };
        self.told.note(&call, moved(given, bytes));
        given
    }
}

/// Why a call is refused that has this answer, which is none for it.
fn refused(answer: Option<Answer>) -> Refused {
    match answer {
        Some(Answer::Refused(refused)) => refused,
        _ => Refused::Useless,
    }
}

/// Puts bytes at the front of a room, as far as they fit; how many.
fn copied(bytes: &[u8], room: &mut [u8]) -> usize
    ensures count { result ≤ length room.new }
    ensures size { length room.new ≡ length room.old }
{
    let count = bytes.len().min(room.len());
    room[..count].copy_from_slice(&bytes[..count]);
    count
}
