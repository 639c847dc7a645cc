//! The follower: it does what the words of its command line say to the journal in the file that they name.

use crate::choices::following::followed_journal;
use crate::journals::{Named, opened};
use crate::telling::tell_these;
use dns_edges::{Reading, Sink, SystemClock, Writing};
use dns_follow::{FollowStatus, HELP, Replicated, VERSION, after_writing, replicate};
use dns_io::OutOfMemory;
use dns_keeper::Keeper;
use dns_reasons::Tool;
use dns_words::{Action, action_of, put_text};
use std::io::{self, BufWriter};
use std::process::ExitCode;

/// The name with which it tells a person something on standard error.
const NAME: &str = "dns-follow";

/// Does what the words say, and ends with the status's number. What it reads is standard input, and what it writes goes to standard output.
pub fn run_words(rt: &HostRuntime, words: &Vec<String>) -> Result<ExitCode, OutOfMemory> {
    let Ok(writer) = BufWriter::new(rt.alloc(), io::writer(rt)) else {
        return Err(OutOfMemory);
    };
    let mut out = Writing::new(writer);
    let status = match action_of(words.as_slice()) {
        Action::Help => after_writing(FollowStatus::Ok, put_text(HELP, &mut out)),
        Action::Version => after_writing(FollowStatus::Ok, put_text(VERSION, &mut out)),
        Action::Command => command(rt, words, &mut out),
    };
    if status == FollowStatus::Usage {
        tell_these(rt, NAME, Tool::Follower, words.as_slice());
    }
    Ok(status.exit_code())
}

/// Does what the words say to the journal that they name, or to one in memory.
fn command<O: Sink>(rt: &HostRuntime, words: &Vec<String>, out: &mut O) -> FollowStatus {
    match opened(rt, NAME, &followed_journal(rt.alloc(), words.as_slice())) {
        Named::InMemory(keeper) => run(rt, words, keeper, out),
        Named::InFile(keeper) => run(rt, words, keeper, out),
        Named::Closed(keeper) => run(rt, words, keeper, out),
    }
}

/// The same, by the system's clock. Held rows are let go with the follower, the journal's file is closed behind them.
fn run<K: Keeper + Drop, O: Sink>(
    rt: &HostRuntime,
    words: &Vec<String>,
    keeper: K,
    out: &mut O,
) -> FollowStatus {
    let mut clock = SystemClock::new(rt);
    let mut input = Reading::new(rt.reader());
    let Replicated { status, keeper: _ } = replicate(
        rt.alloc(),
        words,
        keeper,
        &mut input,
        &mut clock,
        out,
    );
    status
}
