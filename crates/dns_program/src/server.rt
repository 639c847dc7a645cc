//! The server: it does what the words of its command line say over the ports, the files and the streams that they name.

use crate::choices::serving::{is_server, served_journal, zone_path};
use crate::journals::{Named, opened};
use crate::telling::{tell_file, tell_line, tell_words};
use dns_crowd_server::{PortFailure, SocketCrowdHub};
use dns_edges::{FileSource, SystemClock, Writing};
use dns_io::OutOfMemory;
use dns_keeper::Keeper;
use dns_ports::StopToken;
use dns_readiness::StandardInput;
use dns_reasons::Tool;
use dns_serve::run::run;
use dns_serve::{Ended, HELP, Status, VERSION, ZONE, after_writing};
use dns_words::{Action, action_of, hex_words, put_text};
use std::fs::{self, File};
use std::io::{self, BufWriter, Write};
use std::net::{Net, TcpListener, TcpStream};
use std::process::ExitCode;
use std::rt;
use std::sync::Wait;
use std::thread::Threads;

/// The name with which it tells a person something on standard error.
const NAME: &str = "dns";

/// Does what the words say, and ends with the status's number. What it writes goes to standard output, to the ports that the words name,
/// and to the journal's file.
pub fn run_words<
    S: Threads + Wait + Sync + Net<Listener = TcpListener, Stream = TcpStream> + rt::Clock,
>(rt: &HostRuntime, sockets: &S, words: Vec<String>) -> Result<ExitCode, OutOfMemory> {
    let words = hex_words(rt.alloc(), words)?;
    let Ok(writer) = BufWriter::new(rt.alloc(), io::writer(rt)) else {
        return Err(OutOfMemory);
    };
    let mut out = Writing::new(writer);
    let status = match action_of(words.as_slice()) {
        Action::Help => after_writing(Status::Ok, put_text(HELP, &mut out)),
        Action::Version => after_writing(Status::Ok, put_text(VERSION, &mut out)),
        Action::Command => command(rt, sockets, &words, &mut out),
    };
    tell_refusal(rt, &words, status);
    Ok(status.exit_code())
}

/// Does what the words say over the journal that they name, or over one in memory.
fn command<
    S: Threads + Wait + Sync + Net<Listener = TcpListener, Stream = TcpStream> + rt::Clock,
    W: Write + Drop,
>(rt: &HostRuntime, sockets: &S, words: &Vec<String>, out: &mut Writing<W>) -> Status {
    let status = match opened(rt, NAME, &served_journal(rt.alloc(), words.as_slice())) {
        Named::InMemory(keeper) => command_over(rt, sockets, words, keeper, out),
        Named::InFile(keeper) => command_over(rt, sockets, words, keeper, out),
        Named::Closed(keeper) => command_over(rt, sockets, words, keeper, out),
    };
    status
}

/// Runs the command over this journal, the zone file that the words name, standard input, the system's clock and sockets. Where a server ends
/// because the system refused something, that is told on standard error.
fn command_over<
    S: Threads + Wait + Sync + Net<Listener = TcpListener, Stream = TcpStream> + rt::Clock,
    K: Keeper + Drop + Send,
    W: Write + Drop,
>(rt: &HostRuntime, sockets: &S, words: &Vec<String>, keeper: K, out: &mut Writing<W>) -> Status {
    let Ok((token, own)) = token_twice(rt) else {
        return Status::OutOfMemory;
    };
    let served = is_server(words.as_slice());
    let Ok(mut events) = StandardInput::new(rt.alloc(), sockets, rt.reader(), own, served) else {
        return Status::OutOfMemory;
    };
    let mut zone = zone_source(rt, words);
    let mut hub = SocketCrowdHub::new(rt.alloc(), sockets, token);
    let mut clock = SystemClock::new(rt);
    let Ended { status, keeper: _ } = run(
        sockets,
        rt.alloc(),
        words,
        &mut zone,
        &mut events,
        keeper,
        &mut hub,
        &mut clock,
        out,
    );
    if status != Status::Ok {
        tell_failure(rt, hub.failure(), events.lacks_worker());
    }
    status
}

/// A token that is not stopped, for the hub and for standard input.
fn token_twice(rt: &HostRuntime) -> Result<(StopToken, StopToken), OutOfMemory> {
    let token = StopToken::new(rt.alloc())?;
    let own = token.again()?;
    Ok((token, own))
}

/// Tells a person on standard error why a server ended: a call that the system refused, or a thread. That this line could not be written
/// changes nothing.
fn tell_failure(rt: &HostRuntime, failure: Option<PortFailure>, lacks_worker: bool) {
    if let Some(failure) = failure {
        let _told = eprintln!(rt; "{NAME}: {failure}");
    }
    if lacks_worker {
        let _told = eprintln!(rt; "{NAME}: a worker found no thread");
    }
}

/// Tells a person on standard error which word is wrong, why the file of the zone text could not be read, or which of its lines is wrong.
fn tell_refusal(rt: &HostRuntime, words: &Vec<String>, status: Status) {
    match status {
        Status::Usage => tell_words(rt, NAME, Tool::Server),
        Status::ReadFault => {
            if let Some(path) = zone_path(words.as_slice()) {
                tell_file(rt, NAME, ZONE, path);
            }
        }
        Status::ZoneText { line, kind } => {
            tell_line(rt, NAME, ZONE, zone_path(words.as_slice()), line, kind);
        }
        _ => {}
    }
}

/// The zone text: that of the file that `--zone=` names, or none.
fn zone_source(rt: &HostRuntime, words: &Vec<String>) -> FileSource<File> {
    let opening = zone_path(words.as_slice()).map(|path| fs::open(rt, path));
    FileSource::new(opening)
}
