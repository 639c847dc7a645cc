//! Sources, sinks and clocks over std's readers, writers and clocks. What they have left or took is not told to those that
//! know only the trait; what std tells of the reader or the writer is told in its own words.

ghost use Rattle.std.specs.Prelude.{◌≡◌, ◌≢◌, ◌≤◌, ◌<◌, ◌^◌, None, length, take, IsErrOf, IfOk, IfErr, OnErr};
ghost use Rattle.std.specs.Io.{ReadsAtMost, WritesAtMost};
ghost use Rattle.std.specs.Io.KnownBytes.{Keeps as KeepsKnown, ReadConsumes, WriteAppends};
ghost use Rattle.std.specs.IoError.{error_kind};
ghost use Rattle.dns_io.specs.Told.{counted};
ghost use Rattle.dns_edges.specs.Edges.{Reads, Writes, Flushes, HasCause, given_by, wanted};
ghost use Rattle.dns_edges.specs.Adapters.{opened_of, file_told, untold_source, untold_sink, ReadsCounting, WritesCounting, ReadsOpened, RisesTo};

use crate::clock::{Clock, moment_from};
use crate::counting::{count, count_wants};
use crate::sink::Sink;
use crate::source::Source;
use dns_io::IoFault;
use std::io::{self, ErrorKind, Read, Write};
use std::marker::Model;
use std::rt;

/// A source over a reader of std, as a file, a standard stream or a socket.
///
/// An interrupted read is tried again. A read that fails is counted once, up to `u64::MAX`.
#[derive(Drop)]
pub struct Reading<R> {
    reader: R,
    faults: u64,
}

impl<R> Model for Reading<R> {
    ghost use Rattle.dns_edges.specs.Adapters.{Counting};

    ghost Value = { Counting R };

    ghost view = { λ s. record { inner = s.reader; faults = s.faults } };
}

impl<R> Reading<R> {
    /// A source over this reader, with no fault so far.
    pub fn new(reader: R) -> Reading<R>
        ensures { result ≡ record { inner = reader; faults = 0 } }
    {
        Reading { reader, faults: 0 }
    }
}

impl<R: Read> Source for Reading<R> {
    ghost source = { record { told = untold_source; reads = ReadsCounting } };

    fn read(&mut self, room: &mut [u8]) -> Result<usize, IoFault>
        requires { 0 < length room.old }
        ensures told { Reads (untold_source self.old) (untold_source self.new) room.new result }
        ensures next { ReadsCounting self.old (length room.old) (given_by room.new result) self.new }
        ensures bytes { ReadConsumes (R.remaining self.old.inner) (R.remaining self.new.inner) result room.new }
    {
        count(read_some(&mut self.reader, room), &mut self.faults)
    }
}

/// A sink over a writer of std, as a file, a standard stream or a socket.
///
/// An interrupted write or flush is tried again. A write that takes nothing is a fault. A call that fails is counted once, and so is one
/// that wants memory, each up to `u64::MAX`.
#[derive(Drop)]
pub struct Writing<W> {
    writer: W,
    faults: u64,
    wants: u64,
}

impl<W> Model for Writing<W> {
    ghost use Rattle.dns_edges.specs.Adapters.{CountingBoth};

    ghost Value = { CountingBoth W };

    ghost view = { λ s. record { inner = s.writer; faults = s.faults; wants = s.wants } };
}

impl<W> Writing<W> {
    /// A sink over this writer, with no fault so far, that never wanted memory.
    pub fn new(writer: W) -> Writing<W>
        ensures { result ≡ record { inner = writer; faults = 0; wants = 0 } }
    {
        Writing {
            writer,
            faults: 0,
            wants: 0,
        }
    }
}

impl<W: Write> Sink for Writing<W> {
    ghost sink = { record { told = untold_sink; writes = WritesCounting W.contents; wants = λ s. s.wants } };

    fn write(&mut self, bytes: &[u8]) -> Result<usize, IoFault> {
        let outcome = count(write_some(&mut self.writer, bytes), &mut self.faults);
        count_wants(outcome, &mut self.wants)
    }

    fn flush(&mut self) -> Result<(), IoFault>
        ensures told { Flushes (untold_sink self.old) (untold_sink self.new) result }
        ensures bytes { KeepsKnown (W.contents self.old.inner) (W.contents self.new.inner) }
        ensures faults { self.new.faults ≡ counted self.old.faults result }
        ensures wanted { self.new.wants ≡ wanted self.old.wants result }
    {
        let outcome = count(flush(&mut self.writer), &mut self.faults);
        count_wants(outcome, &mut self.wants)
    }
}

/// A source over the file that a command names, whatever came of opening it.
///
/// Without a name it has no byte. Of a file that could not be opened each read fails, by the fault for which the file was
/// not opened. A read that fails is counted once, up to `u64::MAX`; want of memory is no failed read.
#[derive(Drop)]
pub struct FileSource<R> {
    opened: Opened<R>,
    faults: u64,
}

/// What came of opening a file.
#[derive(Drop)]
pub enum Opened<R> {
    /// The file was opened.
    Reader(R),
    /// No file was named.
    Empty,
    /// The file could not be opened.
    Refused(IoFault),
}

impl<R> Model for FileSource<R> {
    ghost use Rattle.dns_edges.specs.declared.adapters.Opened.{Opened};
    ghost use Rattle.dns_edges.specs.Adapters.{Counting};

    ghost Value = { Counting (Opened R) };

    ghost view = { λ s. record { inner = s.opened; faults = s.faults } };
}

impl<R> FileSource<R> {
    /// The source of a file, with no fault so far: what came of opening it, or `None` where no file was named.
    pub fn new(opening: Option<io::Result<R>>) -> FileSource<R>
        ensures { result ≡ record { inner = opened_of opening; faults = 0 } }
    {
        let opened = match opening {
            None => Opened::Empty,
            Some(Ok(reader)) => Opened::Reader(reader),
            Some(Err(error)) => Opened::Refused(error.into()),
        };
        FileSource { opened, faults: 0 }
    }
}

impl<R: Read> Source for FileSource<R> {
    ghost source = { record { told = file_told; reads = ReadsCounting } };

    fn read(&mut self, room: &mut [u8]) -> Result<usize, IoFault>
        requires { 0 < length room.old }
        ensures told { Reads (file_told self.old) (file_told self.new) room.new result }
        ensures next { ReadsCounting self.old (length room.old) (given_by room.new result) self.new }
        ensures opened { ReadsOpened R.remaining self.old.inner self.new.inner result room.new }
    {
        count(read_opened(&mut self.opened, room), &mut self.faults)
    }
}

/// The system's clock: milliseconds since 1970, kept below 2^47. A reading is never below an earlier one, and where the
/// system's clock cannot be read, the last one is given again.
#[derive(Drop)]
pub struct SystemClock<R> {
    runtime: R,
    last: u64,
}

impl<R> Model for SystemClock<R> {
    ghost use Rattle.std.specs.Prelude.{ℕ, ◌<◌, ◌^◌};

    ghost Value = { ℕ };

    ghost view = { λ c. c.last };

    ghost invariant = { λ c. c.last < 2 ^ 47 };
}

impl<R> SystemClock<R> {
    /// A clock that was not read yet.
    pub fn new(runtime: R) -> SystemClock<R>
        ensures { result ≡ 0 }
    {
        SystemClock { runtime, last: 0 }
    }
}

impl<R: rt::Clock> Clock for SystemClock<R> {
    ghost clock = { record { last = λ c. c; ticks = RisesTo } };

    fn now(&mut self) -> u64 {
        if let Ok(time) = self.runtime.since_1970() {
            self.last = moment_from(self.last, time.as_millis());
        }
        self.last
    }
}

/// One read of what came of opening a file.
fn read_opened<R: Read>(opened: &mut Opened<R>, room: &mut [u8]) -> Result<usize, IoFault>
    requires { 0 < length room.old }
    ensures count { IfOk result (λ n. n ≤ length room.new) }
    ensures opened { ReadsOpened R.remaining opened.old opened.new result room.new }
{
    match opened {
        Opened::Reader(reader) => read_some(reader, room),
        Opened::Empty => Ok(0),
        Opened::Refused(fault) => Err(*fault),
    }
}

/// One read, tried again where it was interrupted.
fn read_some<R: Read>(reader: &mut R, room: &mut [u8]) -> Result<usize, IoFault>
    requires { 0 < length room.old }
    ensures count { IfOk result (λ n. n ≤ length room.new) }
    ensures bytes { ReadConsumes (R.remaining reader.old) (R.remaining reader.new) result room.new }
{
    Ok(read_retrying(reader, room)?)
}

fn read_retrying<R: Read>(reader: &mut R, room: &mut [u8]) -> io::Result<usize>
    ensures count { ReadsAtMost result room.new }
    ensures bytes { ReadConsumes (R.remaining reader.old) (R.remaining reader.new) result room.new }
    ensures retried { IfErr result (λ error. error_kind error ≢ ErrorKind.Interrupted) }
{
    for _ in 0..u64::MAX {
        match reader.read(room) {
            Ok(count) => return Ok(count),
            Err(error) => {
                if error.kind() != ErrorKind::Interrupted {
                    return Err(error);
                }
            }
        }
    }
    Err(ErrorKind::TimedOut.into())
}

/// One write, tried again where it was interrupted. It takes some bytes, or fails.
fn write_some<W: Write>(writer: &mut W, bytes: &[u8]) -> Result<usize, IoFault>
    requires { 0 < length bytes.now }
    ensures some { IfOk result (λ n. 0 < n) }
    ensures count { IfOk result (λ n. n ≤ length bytes.now) }
    ensures bytes { WriteAppends (W.contents writer.old) (W.contents writer.new) result bytes.now }
{
    match write_retrying(writer, bytes)? {
        0 => Err(IoFault::Failed),
        count => Ok(count),
    }
}

fn write_retrying<W: Write>(writer: &mut W, bytes: &[u8]) -> io::Result<usize>
    ensures count { WritesAtMost result bytes.now }
    ensures bytes { WriteAppends (W.contents writer.old) (W.contents writer.new) result bytes.now }
    ensures retried { IfErr result (λ error. error_kind error ≢ ErrorKind.Interrupted) }
{
    for _ in 0..u64::MAX {
        match writer.write(bytes) {
            Ok(count) => return Ok(count),
            Err(error) => {
                if error.kind() != ErrorKind::Interrupted {
                    return Err(error);
                }
            }
        }
    }
    Err(ErrorKind::TimedOut.into())
}

/// A flush, tried again where it was interrupted.
fn flush<W: Write>(writer: &mut W) -> Result<(), IoFault>
    ensures bytes { KeepsKnown (W.contents writer.old) (W.contents writer.new) }
{
    Ok(flush_retrying(writer)?)
}

fn flush_retrying<W: Write>(writer: &mut W) -> io::Result<()>
    ensures bytes { KeepsKnown (W.contents writer.old) (W.contents writer.new) }
    ensures retried { IfErr result (λ error. error_kind error ≢ ErrorKind.Interrupted) }
{
    for _ in 0..u64::MAX {
        match writer.flush() {
            Ok(()) => return Ok(()),
            Err(error) => {
                if error.kind() != ErrorKind::Interrupted {
                    return Err(error);
                }
            }
        }
    }
    Err(ErrorKind::TimedOut.into())
}
