//! The list of events of a seed.

ghost use Rattle.std.specs.Prelude.{◌≡◌, ◌≤◌, ◌<◌, ◌^◌, ◌++◌, IfOk, OnOk, length};
ghost use Rattle.dns_frames.specs.Frames.{frame_of};
ghost use Rattle.dns_server_core.specs.Valid.{Valid};
ghost use Rattle.dns_server_core.specs.Connections.{new_kept};
ghost use Rattle.dns_generator.specs.Loaded as events;

use crate::draws::{Draw, Kind, next_state};
use crate::requests::{addition, deletion, query};
use dns_io::{Ip, Octets, OutOfMemory, Peer};
use dns_server_core::Event;
use std::alloc::Global;

/// How many messages a list has at most.
pub const MAX_COUNT: u32 = 100_000;

/// The address 127.0.0.1.
const LOCAL: Ip = Ip::V4(127 * (1 << 24) + 1);

/// The bytes of a frame that come first.
const FIRST: usize = 5;

/// The events of a list of `count` messages that are drawn from a seed: four connections are accepted, and then message k, from
/// 0, comes at the moment k, with the id k modulo 65,536. Of eight messages, about four are queries by datagram, two are queries
/// over a connection, in two pieces, one is an update that adds an address, and one an update that deletes them. All are for
/// one of 64 hosts of the zone example.com.
pub fn loaded(alloc: Global, seed: u64, count: u32) -> Result<Vec<Event>, OutOfMemory>
    requires { count ≤ 100000 }
    ensures { IfOk result (λ list. list.items ≡ events.loaded seed count) }
{
    let mut list = acceptances(alloc)?;
    let mut state = seed;
    for number in 0..count {
        state = next_state(state);
        put_coming(alloc, number, Draw::of(state), &mut list)?;
    }
    Ok(list)
}

/// The first events: four connections are accepted.
fn acceptances(alloc: Global) -> Result<Vec<Event>, OutOfMemory>
    ensures { IfOk result (λ list. list.items ≡ events.acceptances) }
{
    let mut list = Vec::new(alloc);
    list.push(accepted(1))?;
    list.push(accepted(2))?;
    list.push(accepted(3))?;
    list.push(accepted(4))?;
    Ok(list)
}

fn accepted(conn: u16) -> Event
    requires { conn ≤ 4 }
    ensures { result ≡ events.accepted conn }
{
    Event::Accepted {
        at: 0,
        conn: u32::from(conn),
        peer: local(5000 + conn),
        limit: 0,
    }
}

/// A port of 127.0.0.1.
fn local(port: u16) -> Peer
    ensures { result ≡ events.local port }
{
    Peer { ip: LOCAL, port }
}

/// Puts the events at the end by which the message with this number comes.
fn put_coming(
    alloc: Global,
    number: u32,
    draw: Draw,
    list: &mut Vec<Event>,
) -> Result<(), OutOfMemory>
    ensures { OnOk result (list.new.items ≡ list.old.items ++ events.coming number draw.0) }
{
    match draw.kind() {
        Kind::Query => put_datagram(number, draw, query(alloc, number, draw)?, list),
        Kind::QueryInPieces => put_pieces(alloc, number, draw, query(alloc, number, draw)?, list),
        Kind::Addition => put_datagram(number, draw, addition(alloc, number, draw)?, list),
        Kind::Deletion => put_datagram(number, draw, deletion(alloc, number, draw)?, list),
    }
}

/// A message comes by datagram.
fn put_datagram(
    number: u32,
    draw: Draw,
    bytes: Octets,
    list: &mut Vec<Event>,
) -> Result<(), OutOfMemory>
    ensures { OnOk result (list.new.items ≡ list.old.items ++ events.datagram number draw.0 bytes) }
{
    let port = 1024 + (draw.rest() % 1000) as u16;
    list.push(Event::Datagram {
        at: u64::from(number),
        peer: local(port),
        bytes,
    })?;
    Ok(())
}

/// A message comes over a connection, in two pieces.
fn put_pieces(
    alloc: Global,
    number: u32,
    draw: Draw,
    bytes: Octets,
    list: &mut Vec<Event>,
) -> Result<(), OutOfMemory>
    requires { length bytes ≤ 65535 }
    ensures { OnOk result (list.new.items ≡ list.old.items ++ events.in_two number draw.0 (frame_of bytes)) }
{
    let frame = frame_of(alloc, &bytes)?;
    let conn = 1 + draw.rest() % 4;
    let (first, others) = frame.as_slice().split_at(FIRST.min(frame.len()));
    put_piece(alloc, number, conn, first, list)?;
    put_piece(alloc, number, conn, others, list)
}

/// A message behind its length.
fn frame_of(alloc: Global, bytes: &Octets) -> Result<Octets, OutOfMemory>
    requires { length bytes.now ≤ 65535 }
    ensures { IfOk result (λ frame. frame ≡ frame_of bytes.now) }
{
    let length = bytes.len() as u16;
    let mut frame = Octets::from_slice(alloc, &length.to_be_bytes())?;
    frame.append(bytes.as_slice())?;
    Ok(frame)
}

/// Bytes come over a connection.
fn put_piece(
    alloc: Global,
    number: u32,
    conn: u32,
    bytes: &[u8],
    list: &mut Vec<Event>,
) -> Result<(), OutOfMemory>
    ensures { OnOk result (list.new.items ≡ list.old.items ++ events.piece number conn bytes.now) }
{
    list.push(Event::Bytes {
        at: u64::from(number),
        conn,
        piece: Octets::from_slice(alloc, bytes)?,
    })?;
    Ok(())
}
