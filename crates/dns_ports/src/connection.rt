//! The two directions of a connection of the operating system.

ghost use Rattle.std.specs.Prelude.{◌≡◌, ◌<◌, ◌≤◌, length, IfOk};
ghost use Rattle.std.specs.Io.KnownBytes.{WriteAppends};
ghost use Rattle.dns_io.specs.Told.{counted};
ghost use Rattle.dns_edges.specs.Edges.{Reads, Flushes, given_by};
ghost use Rattle.dns_ports.specs.Sockets.{untold_input, untold_output, ReadsCounted, WritesCounted, ReadsWaiting, heard};

use crate::faults::waits_after;
use crate::stop_token::{StopToken, Waited};
use dns_edges::{Sink, Source, count, count_wants};
use dns_io::IoFault;
use std::io::{Read, Write};
use std::marker::Model;
use std::net::{Shutdown, TcpStream};

/// How often what a peer still sends is read and dropped, once its connection ends.
const DROPPED_READS: u32 = 64;

/// How many bytes each of these reads has room for.
const DROPPED_ROOM: usize = 16_384;

/// After so many waits in which nothing came a connection that ends is let go.
const DROPPED_WAITS: u64 = 10;

/// What the peer of a connection sends. It ends where the peer ends it, and where the token is stopped. A read fails where the peer
/// sent nothing for the limit that the listener was opened with. One that fails is counted once, up to `u64::MAX`.
#[derive(Drop)]
pub struct ConnectionInput {
    stream: TcpStream,
    stop: StopToken,
    waits: u64,
    has_read: bool,
    faults: u64,
}

impl Model for ConnectionInput {
    ghost use Rattle.std.specs.Prelude.{ℕ};

    ghost Value = { ℕ };

    ghost view = { λ s. s.faults };
}

impl ConnectionInput {
    /// The input of a stream whose reads wait for some time: a read fails after so many waits.
    pub(crate) fn new(stream: TcpStream, stop: StopToken, waits: u64) -> ConnectionInput
        ensures { result ≡ 0 }
    {
        ConnectionInput {
            stream,
            stop,
            waits,
            has_read: false,
            faults: 0,
        }
    }
}

impl Source for ConnectionInput {
    ghost source = { record { told = untold_input; reads = ReadsCounted } };

    fn read(&mut self, room: &mut [u8]) -> Result<usize, IoFault>
        requires { 0 < length room.old }
        ensures told { Reads (untold_input self.old) (untold_input self.new) room.new result }
        ensures next { ReadsCounted self.old (length room.old) (given_by room.new result) self.new }
        ensures faults { self.new ≡ counted self.old result }
    {
        let ended = read_waiting(&mut self.stream, &self.stop, self.waits, room);
        let outcome = heard(ended);
        self.has_read |= outcome.is_ok();
        count(outcome, &mut self.faults)
    }
}

/// What is sent to the peer of a connection. A write fails where the peer took nothing for the limit that the listener was
/// opened with, or for 5 seconds where there is none; it is given that time also where the token is stopped. A write that fails is
/// counted once, and so is one that wants memory, each up to `u64::MAX`. It holds nothing back, so that a flush does nothing.
#[derive(Drop)]
pub struct ConnectionOutput {
    stream: TcpStream,
    waits: u64,
    faults: u64,
    wants: u64,
}

impl Model for ConnectionOutput {
    ghost use Rattle.dns_ports.specs.Sockets.{OutputCounts};

    ghost Value = { OutputCounts };

    ghost view = { λ s. record { faults = s.faults; wants = s.wants } };
}

impl ConnectionOutput {
    /// The output of a stream whose writes wait for some time: a write fails after so many waits.
    pub(crate) fn new(stream: TcpStream, waits: u64) -> ConnectionOutput
        ensures { result ≡ record { faults = 0; wants = 0 } }
    {
        ConnectionOutput {
            stream,
            waits,
            faults: 0,
            wants: 0,
        }
    }
}

impl Sink for ConnectionOutput {
    ghost sink = { record { told = untold_output; writes = WritesCounted; wants = λ s. s.wants } };

    fn write(&mut self, bytes: &[u8]) -> Result<usize, IoFault> {
        let outcome = write_waiting(&mut self.stream, self.waits, bytes);
        let outcome = count(outcome, &mut self.faults);
        count_wants(outcome, &mut self.wants)
    }

    fn flush(&mut self) -> Result<(), IoFault>
        ensures told { Flushes (untold_output self.old) (untold_output self.new) result }
        ensures ok { result ≡ Ok tt }
        ensures calm { self.new ≡ self.old }
    {
        Ok(())
    }
}

/// Ends a connection in order: nothing more is sent, and where something was read, what its peer still sends is read and dropped, up to a
/// megabyte and for about a second of silence. A connection that is closed with bytes unread is reset (RFC 1122 4.2.2.13), and its peer
/// may lose replies by that. No fault of this is counted.
pub(crate) fn end(mut input: ConnectionInput, output: ConnectionOutput) {
    if input.has_read && output.stream.shutdown(Shutdown::Write).is_ok() {
        drop_rest(&mut input.stream, &input.stop);
    }
}

/// Reads what a peer still sends, and drops it: to its end, until it is silent, or so many times.
fn drop_rest<R: Read>(reader: &mut R, stop: &StopToken) {
    let mut room = [0; DROPPED_ROOM];
    let mut left = DROPPED_WAITS;
    for _read in 0..DROPPED_READS {
        if stop.is_stopped() {
            return;
        }
        match reader.read(&mut room) {
            Ok(0) => return,
            Ok(_count) => {}
            Err(error) => match waits_after(error.kind(), left) {
                Ok(waits) => left = waits,
                Err(_fault) => return,
            },
        }
    }
}

/// What a read of a connection answers, by how its wait ended.
fn heard(ended: Result<Waited<usize>, IoFault>) -> Result<usize, IoFault>
    ensures { result ≡ heard ended }
{
    match ended {
        Ok(Waited::Came(count)) => Ok(count),
        Ok(Waited::Stopped(_)) => Ok(0),
        Err(fault) => Err(fault),
    }
}

/// One read, which waits for a byte. It fails behind so many waits.
fn read_waiting<R: Read>(
    reader: &mut R,
    stop: &StopToken,
    waits: u64,
    room: &mut [u8],
) -> Result<Waited<usize>, IoFault>
    ensures { ReadsWaiting (R.remaining reader.old) (R.remaining reader.new) result room.new }
{
    let mut left = waits;
    for _ in 0..u64::MAX {
        if let Some(seen) = stop.look() {
            return Ok(Waited::Stopped(seen));
        }
        match reader.read(room) {
            Ok(count) => return Ok(Waited::Came(count)),
            Err(error) => left = waits_after(error.kind(), left)?,
        }
    }
    Err(IoFault::Failed)
}

/// One write, which waits until some bytes are taken. It fails behind so many waits, and where the stream takes nothing.
fn write_waiting<W: Write>(writer: &mut W, waits: u64, bytes: &[u8]) -> Result<usize, IoFault>
    requires { 0 < length bytes.now }
    ensures some { IfOk result (λ n. 0 < n) }
    ensures count { IfOk result (λ n. n ≤ length bytes.now) }
    ensures bytes { WriteAppends (W.contents writer.old) (W.contents writer.new) result bytes.now }
{
    let mut left = waits;
    for _ in 0..u64::MAX {
        match writer.write(bytes) {
            Ok(0) => return Err(IoFault::Failed),
            Ok(count) => return Ok(count),
            Err(error) => left = waits_after(error.kind(), left)?,
        }
    }
    Err(IoFault::Failed)
}
