//! The connection to the server: a new one behind each hundred messages.

ghost use Rattle.std.specs.Prelude.{◌≡◌, None, Ok, Err, MatchResult};
ghost use Rattle.std.specs.Io.{WritesAtMost};
ghost use Rattle.std.specs.Io.KnownBytes.{WriteAppends};
ghost use Rattle.dns_io.specs.Told.{one_more};
ghost use Rattle.dns_nsupdate.specs.Decisions.{messages_over};

use crate::decisions::{patience, read_over, write_over};
use dns_io::{IoFault, Peer};
use dns_ports::address_of;
use dns_update_client::is_used_up;
use std::cell::RefCell;
use std::io::{self, Read, Write};
use std::net::{Net, TcpStream};

/// What came of making a connection, which what is sent and what comes have in common. Each borrows it for one call alone; were it lent
/// then, the call would fail.
pub(crate) type Link = RefCell<Result<TcpStream, IoFault>>;

/// What goes to the server. Where as many messages went over a connection as may, the next one makes a new connection, so that a server
/// that closes the old one there ends nothing. Nothing is sent a second time. Where a connection cannot be made, what is sent is dropped:
/// the reads tell it.
#[derive(Drop)]
pub(crate) struct Outgoing<'a, R> {
    net: &'a R,
    server: Peer,
    link: &'a Link,
    sent: u64,
}

impl<'a, R> Outgoing<'a, R> {
    /// What goes to this server, over the connection that there is.
    pub(crate) fn new(net: &'a R, server: Peer, link: &'a Link) -> Outgoing<'a, R> {
        Outgoing {
            net,
            server,
            link,
            sent: 0,
        }
    }
}

impl<R: Net<Stream = TcpStream>> Write for Outgoing<'_, R> {
    /// The clauses `bound` and `bytes` are those of `Write` for a writer whose bytes are not told.
    fn write(&mut self, bytes: &[u8]) -> io::Result<usize>
        ensures bound { WritesAtMost result bytes.now }
        ensures bytes { WriteAppends None None result bytes.now }
        ensures sent { self.new.sent ≡ messages_over self.old.sent }
    {
        if is_used_up(self.sent) {
            self.sent = 0;
            *self.link.try_borrow_mut()? = connection(self.net, self.server);
        }
        write_over(&mut over(&*self.link.try_borrow()?), bytes)
    }

    /// Behind each message there is one flush: nothing is held back.
    fn flush(&mut self) -> io::Result<()>
        ensures sent { self.new.sent ≡ one_more self.old.sent }
    {
        self.sent = self.sent.saturating_add(1);
        Ok(())
    }
}

/// What comes from the server, over the connection that there is. Where none could be made, each read fails.
#[derive(Drop)]
pub(crate) struct Incoming<'a> {
    link: &'a Link,
}

impl<'a> Incoming<'a> {
    /// What comes over the connection that there is.
    pub(crate) fn new(link: &'a Link) -> Incoming<'a> {
        Incoming { link }
    }
}

impl Read for Incoming<'_> {
    fn read(&mut self, room: &mut [u8]) -> io::Result<usize> {
        read_over(&mut over(&*self.link.try_borrow()?), room)
    }
}

/// What is read and written over, by what came of making a connection.
fn over(made: &Result<TcpStream, IoFault>) -> Result<&TcpStream, IoFault>
    ensures { MatchResult result (λ stream. made.now ≡ Ok stream.now) (λ fault. made.now ≡ Err fault) }
{
    match made {
        Ok(stream) => Ok(stream),
        Err(fault) => Err(*fault),
    }
}

/// A connection to this server.
pub(crate) fn connection<R: Net<Stream = TcpStream>>(
    net: &R,
    server: Peer,
) -> Result<TcpStream, IoFault> {
    let patience = patience();
    let stream = TcpStream::connect_timeout(net, &address_of(server), patience)?;
    stream.set_read_timeout(Some(patience))?;
    stream.set_write_timeout(Some(patience))?;
    Ok(stream)
}
