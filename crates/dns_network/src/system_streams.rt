//! Connections of the operating system.

ghost use Rattle.std.specs.Prelude.{◌≡◌, [], IfOk};

use crate::call::{Call, Reading, Ready, Watch, Why};
use crate::network::{Network, Streams};
use crate::noting::{from_whom, moved};
use crate::ready::{EVENTS, LISTENER, ReadyList, interest_of};
use crate::refused::Refused;
use crate::stop::Stop;
use crate::system::System;
use mio::net::{TcpListener, TcpStream};
use mio::{Events, Interest, Poll, Registry, Token};
use std::alloc::Global;
use std::io::{self, Read, Write};
use std::marker::Model;
use std::net::{Net, Shutdown, SocketAddr};
use std::rt::Clock;
use std::time::Duration;

/// A connection of the operating system under its number.
#[derive(Drop)]
pub struct SystemStream {
    number: u32,
    stream: TcpStream,
    /// The system watches it.
    watched: bool,
}

impl Model for SystemStream {
    ghost use Rattle.std.specs.Prelude.{ℕ};

    ghost Value = { ℕ };

    ghost view = { λ s. s.number };
}

impl SystemStream {
    /// Asks the system to tell of it.
    fn watch(&mut self, registry: &Registry, interest: Interest) -> io::Result<()>
        ensures same { self.new ≡ self.old }
    {
        let token = Token(self.number as usize);
        if self.watched {
            return registry.reregister(&mut self.stream, token, interest);
        }
        registry.register(&mut self.stream, token, interest)?;
        self.watched = true;
        Ok(())
    }
}

/// A listener of the operating system and its connections, of which it waits for many at once.
#[derive(Drop)]
pub struct SystemStreams<R, S> {
    system: System<R, S>,
    listener: TcpListener,
    poll: Poll,
    events: Events,
    ready: ReadyList,
}

impl<R, S> Model for SystemStreams<R, S> {
    ghost use Rattle.std.specs.Prelude.{List};
    ghost use Rattle.dns_network.specs.Calls.{Noted};

    ghost Value = { List Noted };

    ghost view = { λ s. s.system };
}

impl<R: Net + Drop, S: Drop> SystemStreams<R, S> {
    /// The connections of a listener, of which no call was made. A wait finds the listener ready where one may be accepted.
    pub fn over(
        alloc: Global,
        runtime: R,
        mut listener: TcpListener,
        stop: S,
    ) -> io::Result<SystemStreams<R, S>>
        ensures { IfOk result (λ network. network ≡ []) }
    {
        let poll = Poll::new(&runtime)?;
        poll.registry()
            .register(&mut listener, LISTENER, Interest::READABLE)?;
        let events = Events::with_capacity(alloc, EVENTS)?;
        let ready = ReadyList::new(alloc)?;
        Ok(SystemStreams {
            system: System::new(runtime, stop),
            listener,
            poll,
            events,
            ready,
        })
    }
}

impl<R, S> SystemStreams<R, S> {
    /// Waits; how many are ready.
    fn poll(&mut self, most: u64) -> Result<usize, Refused>
        ensures same { self.new ≡ self.old }
    {
        let wait = Duration::from_millis(most);
        let polled = self.poll.poll(&mut self.events, Some(wait));
        let count = self.ready.fill(&self.events);
        self.system.called(polled)?;
        Ok(count)
    }
}

impl<R: Clock, S: Stop> Network for SystemStreams<R, S> {
    ghost calls = { λ s. s };

    fn look(&mut self) -> bool {
        self.system.look()
    }

    fn now(&mut self) -> Result<Reading, Refused> {
        self.system.now()
    }

    fn rest(&mut self, millis: u64) {
        self.system.rest(millis);
    }

    fn cease(&mut self) {
        self.system.note(Call::Ceased, &[]);
    }

    fn error(&self) -> Option<io::Error> {
        self.system.error()
    }
}

impl<R: Clock, S: Stop> Streams for SystemStreams<R, S> {
    type Stream = SystemStream;

    ghost number = { λ s. s };

    fn wait(&mut self, most: u64) -> Result<usize, Refused> {
        let given = self.poll(most);
        self.system.note(Call::Waited { most, given }, &[]);
        given
    }

    fn ready(&self, place: usize) -> Option<Ready> {
        self.ready.at(place)
    }

    fn accept(&mut self, as_number: u32) -> Result<(SystemStream, SocketAddr), Refused> {
        let given = self.system.accepted(self.listener.accept());
        let call = Call::Accepted {
            number: as_number,
            given: from_whom(&given),
        };
        self.system.note(call, &[]);
        let (stream, whom) = given?;
        Ok((begun(stream, as_number), whom))
    }

    fn watch(&mut self, stream: &mut SystemStream, what: Watch) -> Result<(), Refused> {
        let asked = stream.watch(self.poll.registry(), interest_of(what));
        let given = self.system.called(asked);
        let call = Call::Watched {
            number: stream.number,
            what,
            given,
        };
        self.system.note(call, &[]);
        given
    }

    fn read(&mut self, stream: &mut SystemStream, room: &mut [u8]) -> Result<usize, Refused> {
        let given = self.system.transferred(stream.stream.read(room));
        let call = Call::Read {
            number: stream.number,
            room: room.len(),
            given,
        };
        self.system.note(call, moved(given, room));
        given
    }

    fn write(&mut self, stream: &mut SystemStream, bytes: &[u8]) -> Result<usize, Refused> {
        let given = self.system.transferred(stream.stream.write(bytes));
        let call = Call::Wrote {
            number: stream.number,
            handed: bytes.len(),
            given,
        };
        self.system.note(call, moved(given, bytes));
        given
    }

    fn shut(&mut self, stream: &mut SystemStream) -> Result<(), Refused> {
        let given = self
            .system
            .transferred(stream.stream.shutdown(Shutdown::Write));
        let call = Call::Shut {
            number: stream.number,
            given,
        };
        self.system.note(call, &[]);
        given
    }

    fn close(&mut self, stream: SystemStream, why: Why) {
        let number = stream.number;
        drop(stream);
        self.system.note(Call::Closed { number, why }, &[]);
    }
}

/// A connection that was accepted, whose small writes go at once.
fn begun(stream: TcpStream, number: u32) -> SystemStream
    ensures { result ≡ number }
{
    // (without it small writes wait for others, and no more)
    let _set = stream.set_nodelay(true);
    SystemStream {
        number,
        stream,
        watched: false,
    }
}
