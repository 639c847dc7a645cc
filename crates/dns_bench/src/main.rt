//! A program for measuring. It reads a zone, settles a list of messages on it over and over, and writes one number:
//!
//! - `dns_bench ORIGIN PATH TURNS` reads messages from standard input, a line of hex digits each, and settles them all, in
//!   order, TURNS times, on one book whose journal is in memory and which lets updates in. It writes how many bytes the
//!   replies have, together.
//! - `dns_bench ORIGIN PATH` writes how many records the zone has.
//!
//! PATH is that of a file with a zone text (RFC 1035 5). `--help` tells what the words are, `--version` which program it is. With
//! any other words, and where something cannot be read, it writes why to standard error and ends with status 1.
#![tactic(auto)]

mod asks;
mod fault;
mod settling;

ghost use Rattle.std.specs.Prelude.{◌≡◌, IfOk};
ghost use Rattle.dns_name.specs.Name.{fold_of};

use crate::asks::asks_of;
use crate::settling::settle_turns;
use anyhow::{Context, Result, bail};
use dns_book::{AccessControl, Book};
use dns_keeper::MemoryKeeper;
use dns_name::Name;
use dns_zone::{Zone, read_zone};
use std::alloc::Global;
use std::{env, fs, io};

const USAGE: &str =
    "dns_bench ORIGIN PATH [TURNS]: with TURNS, messages in hex are read from standard input";

const VERSION: &str = "dns_bench 0.1.0";

fn main(rt: HostRuntime) -> Result<()> {
    let mut words = Vec::new(rt.alloc());
    for word in env::args(&rt)?.skip(1) {
        words.push(word)?;
    }
    match words.as_slice() {
        [word] => tell(&rt, word)?,
        [origin, path] => write_number(&rt, zone_len(&rt, origin, path)?)?,
        [origin, path, turns] => write_number(&rt, reply_bytes(&rt, origin, path, turns)?)?,
        _ => bail!("{USAGE}"),
    }
    Ok(())
}

fn write_number(rt: &HostRuntime, number: u64) -> Result<()> {
    println!(rt; "{number}")?;
    Ok(())
}

/// Does what the only word says.
fn tell(rt: &HostRuntime, word: &String) -> Result<()> {
    match word.as_str() {
        "--help" => println!(rt; "{USAGE}")?,
        "--version" => println!(rt; "{VERSION}")?,
        _ => bail!("{USAGE}"),
    }
    Ok(())
}

/// How many records the zone has.
fn zone_len(rt: &HostRuntime, origin: &String, path: &String) -> Result<u64> {
    let origin = Name::parse(rt.alloc(), origin.as_str())?;
    Ok(zone_from(rt, &origin, path)?.len() as u64)
}

/// How many bytes the replies have to the messages of standard input, over so many turns.
fn reply_bytes(rt: &HostRuntime, origin: &String, path: &String, turns: &String) -> Result<u64> {
    let turns = turns.as_str().parse::<u64>()?;
    let origin = Name::parse(rt.alloc(), origin.as_str())?;
    let zone = zone_from(rt, &origin, path)?;
    let mut book = book_of(rt.alloc(), origin, zone)?;
    let text = io::read_to_string(rt.alloc(), rt.reader())?;
    let asks = asks_of(rt.alloc(), text.as_str())?;
    let access = AccessControl::new(rt.alloc());
    Ok(settle_turns(rt.alloc(), &mut book, &access, asks.as_slice(), turns)?)
}

/// The zone of a file's text.
fn zone_from(rt: &HostRuntime, origin: &Name, path: &String) -> Result<Zone>
    ensures { IfOk result (λ zone. zone.origin ≡ fold_of origin.now) }
{
    let text = fs::read_to_string(rt, path.as_str()).context("the zone's file")?;
    Ok(read_zone(rt.alloc(), text.as_str().as_bytes(), origin)?)
}

/// A book that begins with this zone, over a journal in memory, and lets updates in.
fn book_of(alloc: Global, origin: Name, zone: Zone) -> Result<Book<MemoryKeeper>>
    requires { zone.origin ≡ fold_of origin }
{
    let keeper = MemoryKeeper::new(alloc);
    match Book::open(alloc, keeper, origin, true, 0, Some(zone)) {
        Ok(book) => Ok(book),
        Err(_) => bail!("no memory for the journal"),
    }
}
