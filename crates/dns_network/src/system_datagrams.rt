//! Datagrams of the operating system.

ghost use Rattle.std.specs.Prelude.{◌≡◌, []};

use crate::call::{Call, Reading};
use crate::network::{Datagrams, Network};
use crate::noting::{from_whom, how_much, moved};
use crate::refused::Refused;
use crate::stop::Stop;
use crate::system::System;
use std::io;
use std::marker::Model;
use std::net::{SocketAddr, UdpSocket};
use std::rt::Clock;

/// A socket of datagrams of the operating system.
#[derive(Drop)]
pub struct SystemDatagrams<R, S> {
    system: System<R, S>,
    socket: UdpSocket,
}

impl<R, S> Model for SystemDatagrams<R, S> {
    ghost use Rattle.std.specs.Prelude.{List};
    ghost use Rattle.dns_network.specs.Calls.{Noted};

    ghost Value = { List Noted };

    ghost view = { λ s. s.system };
}

impl<R, S> SystemDatagrams<R, S> {
    /// The datagrams of a socket, of which no call was made. A receive waits for as long as the socket was told to (`set_read_timeout`).
    pub fn over(runtime: R, socket: UdpSocket, stop: S) -> SystemDatagrams<R, S>
        ensures { result ≡ [] }
    {
        SystemDatagrams {
            system: System::new(runtime, stop),
            socket,
        }
    }

    /// Its own address.
    pub fn address(&self) -> io::Result<SocketAddr> {
        self.socket.local_addr()
    }
}

impl<R: Clock, S: Stop> Network for SystemDatagrams<R, S> {
    ghost calls = { λ s. s };

    fn look(&mut self) -> bool {
        self.system.look()
    }

    fn now(&mut self) -> Result<Reading, Refused> {
        self.system.now()
    }

    fn rest(&mut self, millis: u64) {
        self.system.rest(millis);
    }

    fn cease(&mut self) {
        self.system.note(Call::Ceased, &[]);
    }

    fn error(&self) -> Option<io::Error> {
        self.system.error()
    }
}

impl<R: Clock, S: Stop> Datagrams for SystemDatagrams<R, S> {
    fn receive(&mut self, room: &mut [u8]) -> Result<(usize, SocketAddr), Refused> {
        let given = self.system.datagram(self.socket.recv_from(room));
        let call = Call::Received {
            given: from_whom(&given),
        };
        self.system.note(call, moved(how_much(&given), room));
        given
    }

    fn send(&mut self, to: SocketAddr, bytes: &[u8]) -> Result<usize, Refused> {
        let given = self.system.datagram(self.socket.send_to(bytes, to));
        let call = Call::Sent {
            to,
            handed: bytes.len(),
            given,
        };
        self.system.note(call, moved(given, bytes));
        given
    }
}
