//! The program: it does what the words of its command line say, as a server, an auditor or a follower.
#![tactic(auto)]

mod auditor;
mod choices;
mod follower;
mod journals;
mod server;
mod telling;

use crate::choices::programs::{Program, own_words, what_is_asked};
use dns_io::OutOfMemory;
use dns_serve::Status;
use dns_words::command_words;
use std::env;
use std::net::{Net, TcpListener, TcpStream};
use std::process::ExitCode;
use std::rt::Clock;
use std::sync::Wait;
use std::thread::Threads;

/// Does what the words of the command line say, and ends with the status's number.
fn main(rt: HostRuntime) -> ExitCode {
    match begin(&rt, &rt) {
        Ok(code) => code,
        Err(OutOfMemory) => Status::OutOfMemory.exit_code(),
    }
}

/// Hands the words on to the program that they are for.
fn begin<S: Threads + Wait + Sync + Net<Listener = TcpListener, Stream = TcpStream> + Clock>(
    rt: &HostRuntime,
    sockets: &S,
) -> Result<ExitCode, OutOfMemory> {
    let words = command_words(rt)?;
    let name = own_name(rt)?;
    let asked = what_is_asked(name.as_str(), words.as_slice());
    let words = own_words(words, asked.are_behind);
    match asked.program {
        Program::Server => server::run_words(rt, sockets, words),
        Program::Auditor => auditor::run_words(rt, &words),
        Program::Follower => follower::run_words(rt, &words),
    }
}

/// The name by which the program was called; empty where it is not told, or is not UTF-8.
fn own_name(rt: &HostRuntime) -> Result<String, OutOfMemory> {
    match env::args(rt) {
        Ok(mut all) => Ok(all.next().unwrap_or(String::new(rt.alloc()))),
        Err(_) => Ok(String::new(rt.alloc())),
    }
}
